//! What is answered of classes (JDWP specification, "ReferenceType" and "ClassType").
ghost use Rattle.std.specs.Prelude.{◌≡◌, ◌∷◌, [], ℕ, List, option_map, map, IfOk, IfErr, IsTrue};
ghost use Rattle.std.specs.String.{string_bytes};
ghost use Rattle.jdwp_layout.specs.Meanings.{One, Text, meanings};
ghost use Rattle.jdwp_script.specs.Parts.{ClassPart};
ghost use Rattle.jdwp_script.specs.Meanings.{class_part, script_part};
ghost use Rattle.jdwp_script_machine.specs.Requests.{Asks, alone, of_class, of_prepared_class};
ghost use Rattle.jdwp_script_machine.specs.StateMeanings.{state_now};
ghost use Rattle.jdwp_script_machine.specs.ClassAnswers.{source_answer, statics_answer, reference_type_answer, class_type_answer};
ghost use Rattle.jdwp_machine.specs.Laws.{takes_memory};
ghost use Rattle.jdwp_script_machine.specs.ClassQuestions.{class_answer_to};

use crate::asked::{class_asked, prepared_asked};
use crate::class_entries::{GenericMemberEntry, InterfaceEntry, MemberEntry};
use crate::class_look_ups::status;
use crate::entries::{Tell, empty_text, text};
use crate::replies::{of_pair, of_scalar, of_text};
use crate::state::MachineState;
use crate::static_values::static_values;
use jdwp_layout::numbers::{
    CLASS_LOADER, CLASS_MODULE, CLASS_STATUS, FIELDS, FIELDS_WITH_GENERIC, GET_STATICS, INTERFACES,
    METHODS, METHODS_WITH_GENERIC, MODIFIERS, SIGNATURE, SIGNATURE_WITH_GENERIC, SOURCE_FILE,
    SUPERCLASS,
};
use jdwp_layout::{Answer, Datum, Scalar};
use jdwp_script::{Class, Script};
use jdwp_value::ObjectId;
use jdwp_wire::{ErrorCode, NoMemory};
use std::alloc::Global;

/// What may be asked of a class alone.
#[derive(Clone, Copy)]
pub(crate) enum ClassQuestion {
    Signature,
    Loader,
    Modifiers,
    Fields,
    Methods,
    SourceFile,
    Status,
    Interfaces,
    GenericSignature,
    GenericFields,
    GenericMethods,
    InModule,
    Superclass,
}

/// The answer to a command of the set ReferenceType with these data, in the state.
///
/// A class that is not known is `INVALID_CLASS`; Fields, Methods, GetValues, Interfaces, FieldsWithGeneric and
/// MethodsWithGeneric of one that is not prepared are `CLASS_NOT_PREPARED`. GetValues of a field that is not the
/// class's own, or not static, is `INVALID_FIELDID`, and SourceFile without a source `ABSENT_INFORMATION`. Data that
/// are not in the command's layout are `ILLEGAL_ARGUMENT`, and another command `NOT_IMPLEMENTED`.
///
/// # Errors
/// `NoMemory` where an allocation was refused; a refusal takes no memory.
pub fn reference_type_answer(
    alloc: Global,
    state: &MachineState,
    number: u8,
    content: &[Datum],
) -> Result<Answer, NoMemory>
    ensures value { IfOk result (λ a. a ≡ reference_type_answer (state_now state.now) number
        (meanings content.now)) }
    // A refusal takes no memory.
    ensures memory { IfErr result (λ _.
        IsTrue (takes_memory (reference_type_answer (state_now state.now) number
        (meanings content.now)))) }
{
    match number {
        SIGNATURE => of_class(alloc, state, ClassQuestion::Signature, content),
        CLASS_LOADER => of_class(alloc, state, ClassQuestion::Loader, content),
        MODIFIERS => of_class(alloc, state, ClassQuestion::Modifiers, content),
        FIELDS => of_prepared(alloc, state, ClassQuestion::Fields, content),
        METHODS => of_prepared(alloc, state, ClassQuestion::Methods, content),
        GET_STATICS => values_of_class(alloc, state, content),
        SOURCE_FILE => of_class(alloc, state, ClassQuestion::SourceFile, content),
        CLASS_STATUS => of_class(alloc, state, ClassQuestion::Status, content),
        INTERFACES => { of_prepared(alloc, state, ClassQuestion::Interfaces, content) }
        SIGNATURE_WITH_GENERIC => {
            of_class(alloc, state, ClassQuestion::GenericSignature, content)
        }
        FIELDS_WITH_GENERIC => { of_prepared(alloc, state, ClassQuestion::GenericFields, content) }
        METHODS_WITH_GENERIC => {
            of_prepared(alloc, state, ClassQuestion::GenericMethods, content)
        }
        CLASS_MODULE => of_class(alloc, state, ClassQuestion::InModule, content),
        _ => Ok(Answer::Error(ErrorCode::NOT_IMPLEMENTED)),
    }
}

/// The answer to a command of the set ClassType with these data, in the state. A class that is not known is
/// `INVALID_CLASS`, data that are not in the command's layout are `ILLEGAL_ARGUMENT`, and a command other than
/// Superclass is `NOT_IMPLEMENTED`.
///
/// # Errors
/// `NoMemory` where an allocation was refused; a refusal takes no memory.
pub fn class_type_answer(
    alloc: Global,
    state: &MachineState,
    number: u8,
    content: &[Datum],
) -> Result<Answer, NoMemory>
    ensures value { IfOk result (λ a. a ≡ class_type_answer (state_now state.now) number
        (meanings content.now)) }
    // A refusal takes no memory.
    ensures memory { IfErr result (λ _.
        IsTrue (takes_memory (class_type_answer (state_now state.now) number
        (meanings content.now)))) }
{
    match number {
        SUPERCLASS => of_class(alloc, state, ClassQuestion::Superclass, content),
        _ => Ok(Answer::Error(ErrorCode::NOT_IMPLEMENTED)),
    }
}

/// The answer to the question of the class that the data name, and nothing more.
fn of_class(
    alloc: Global,
    state: &MachineState,
    question: ClassQuestion,
    content: &[Datum],
) -> Result<Answer, NoMemory>
    ensures value { IfOk result (λ a. a ≡ of_class (state_now state.now).script (λ c.
        alone (class_answer_to (state_now state.now) question c)) (meanings content.now)) }
    // A refusal takes no memory.
    ensures memory { IfErr result (λ _. IsTrue (takes_memory (of_class (state_now state.now).script
        (λ c. alone (class_answer_to (state_now state.now) question c)) (meanings content.now)))) }
{
    match class_asked(&state.script, content) {
        Ok((class, [])) => class_answer_to(alloc, state, question, class),
        Ok(_) => Ok(Answer::Error(ErrorCode::ILLEGAL_ARGUMENT)),
        Err(error) => Ok(Answer::Error(error)),
    }
}

/// The same of a class that has to be prepared.
fn of_prepared(
    alloc: Global,
    state: &MachineState,
    question: ClassQuestion,
    content: &[Datum],
) -> Result<Answer, NoMemory>
    ensures value { IfOk result (λ a. a ≡ of_prepared_class (state_now state.now) (λ c.
        alone (class_answer_to (state_now state.now) question c)) (meanings content.now)) }
    // A refusal takes no memory.
    ensures memory { IfErr result (λ _.
        IsTrue (takes_memory (of_prepared_class (state_now state.now) (λ c.
        alone (class_answer_to (state_now state.now) question c)) (meanings content.now)))) }
{
    match prepared_asked(state, content) {
        Ok((class, [])) => class_answer_to(alloc, state, question, class),
        Ok(_) => Ok(Answer::Error(ErrorCode::ILLEGAL_ARGUMENT)),
        Err(error) => Ok(Answer::Error(error)),
    }
}

/// The values of the static fields that the data ask of the class that they name.
fn values_of_class(
    alloc: Global,
    state: &MachineState,
    content: &[Datum],
) -> Result<Answer, NoMemory>
    ensures value { IfOk result (λ a. a ≡ of_prepared_class (state_now state.now) statics_answer
        (meanings content.now)) }
    // A refusal takes no memory.
    ensures memory { IfErr result (λ _.
        IsTrue (takes_memory (of_prepared_class (state_now state.now) statics_answer
        (meanings content.now)))) }
{
    match prepared_asked(state, content) {
        Ok((class, rest)) => static_values(alloc, class, rest),
        Err(error) => Ok(Answer::Error(error)),
    }
}

/// The answer to the question of the class.
fn class_answer_to(
    alloc: Global,
    state: &MachineState,
    question: ClassQuestion,
    class: &Class,
) -> Result<Answer, NoMemory>
    ensures value { IfOk result (λ a. a ≡ class_answer_to (state_now state.now) question
        (class_part class.now)) }
    // A refusal takes no memory.
    ensures memory { IfErr result (λ _.
        IsTrue (takes_memory (class_answer_to (state_now state.now) question
        (class_part class.now)))) }
{
    match question {
        ClassQuestion::Signature => of_text(alloc, &class.signature),
        ClassQuestion::Loader => of_scalar(alloc, Scalar::ObjectId(ObjectId(0))),
        ClassQuestion::Modifiers => of_scalar(alloc, Scalar::Int(class.modifiers)),
        ClassQuestion::Fields => MemberEntry.answer_each(alloc, &class.fields),
        ClassQuestion::Methods => MemberEntry.answer_each(alloc, &class.methods),
        ClassQuestion::SourceFile => source_file(alloc, class),
        ClassQuestion::Status => of_scalar(alloc, Scalar::Int(status(state, class.id))),
        ClassQuestion::Interfaces => InterfaceEntry.answer_each(alloc, &class.interfaces),
        ClassQuestion::GenericSignature => generic_signature(alloc, class),
        ClassQuestion::GenericFields => GenericMemberEntry.answer_each(alloc, &class.fields),
        ClassQuestion::GenericMethods => GenericMemberEntry.answer_each(alloc, &class.methods),
        ClassQuestion::InModule => of_scalar(alloc, Scalar::ObjectId(class.module)),
        ClassQuestion::Superclass => of_scalar(alloc, Scalar::ReferenceTypeId(class.superclass)),
    }
}

/// The class's signature, and its generic signature, which is empty.
fn generic_signature(alloc: Global, class: &Class) -> Result<Answer, NoMemory>
    ensures { IfOk result (λ a. a ≡ Answer.Data (One (Text (string_bytes class.now.signature)) ∷ One
        (Text []) ∷ [])) }
{
    let signature = text(alloc, &class.signature)?;
    of_pair(alloc, Datum::One(signature), Datum::One(empty_text(alloc)))
}

/// The name of the class's source file.
fn source_file(alloc: Global, class: &Class) -> Result<Answer, NoMemory>
    ensures value { IfOk result (λ a.
        a ≡ source_answer (option_map string_bytes class.now.source)) }
    // A refusal takes no memory.
    ensures memory { IfErr result (λ _.
        IsTrue (takes_memory (source_answer (option_map string_bytes class.now.source)))) }
{
    match &class.source {
        Some(source) => of_text(alloc, source),
        None => Ok(Answer::Error(ErrorCode::ABSENT_INFORMATION)),
    }
}
