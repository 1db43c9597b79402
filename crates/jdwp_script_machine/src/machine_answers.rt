//! What is answered of the whole machine (JDWP specification, "VirtualMachine").
ghost use Rattle.std.specs.Prelude.{◌≡◌, ℕ, ◌==◌, ◌∷◌, [], map, filter, bytes_eq, IfOk, IfErr, IsTrue};
ghost use Rattle.jdwp_layout.specs.Meanings.{Many, meanings, entry_meanings, datum_meaning, scalar_meanings};
ghost use Rattle.jdwp_script.specs.Parts.{ClassPart};
ghost use Rattle.jdwp_script.specs.Meanings.{class_part, script_part};
ghost use Rattle.jdwp_script_machine.specs.Requests.{alone};
ghost use Rattle.jdwp_script_machine.specs.StateMeanings.{state_now};
ghost use Rattle.jdwp_script_machine.specs.ClassAnswers.{version, class_entry, classes_by_signature, incapable, disposed, virtual_machine_answer};
ghost use Rattle.jdwp_machine.specs.Laws.{takes_memory};
ghost use Rattle.jdwp_script_machine.specs.ClassQuestions.{machine_answer_to};

use crate::class_entries::{ClassEntry, GenericClassEntry, ModuleEntry};
use crate::class_look_ups::status;
use crate::entries::{Tell, text};
use crate::group_answers::groups_below;
use crate::replies::{of_datum, of_entries};
use crate::state::MachineState;
use jdwp_layout::numbers::{
    ALL_CLASSES, ALL_CLASSES_WITH_GENERIC, ALL_MODULES, CAPABILITIES, CAPABILITIES_NEW,
    CLASSES_BY_SIGNATURE, DISPOSE_OBJECTS, TOP_LEVEL_THREAD_GROUPS, VERSION,
};
use jdwp_layout::{Answer, Data, Datum, Scalar};
use jdwp_script::{Class, Script};
use jdwp_value::ObjectId;
use jdwp_wire::{ErrorCode, NoMemory};
use std::alloc::Global;

/// What may be asked of the machine alone.
#[derive(Clone, Copy)]
pub(crate) enum MachineQuestion {
    Version,
    AllClasses,
    TopLevelThreadGroups,
    Capabilities,
    CapabilitiesNew,
    AllClassesWithGeneric,
    AllModules,
}

/// The answer to a command of the set VirtualMachine with these data, in the state, where threads and event requests
/// have no part in it.
///
/// Data that are not in the command's layout are `ILLEGAL_ARGUMENT`, and another command `NOT_IMPLEMENTED`.
///
/// # Errors
/// `NoMemory` where an allocation was refused; a refusal takes no memory.
pub fn virtual_machine_answer(
    alloc: Global,
    state: &MachineState,
    number: u8,
    content: &[Datum],
) -> Result<Answer, NoMemory>
    ensures value { IfOk result (λ a. a ≡ virtual_machine_answer (state_now state.now) number
        (meanings content.now)) }
    // A refusal takes no memory.
    ensures memory { IfErr result (λ _.
        IsTrue (takes_memory (virtual_machine_answer (state_now state.now) number
        (meanings content.now)))) }
{
    match number {
        VERSION => of_machine(alloc, state, MachineQuestion::Version, content),
        CLASSES_BY_SIGNATURE => classes_by_signature(alloc, state, content),
        ALL_CLASSES => { of_machine(alloc, state, MachineQuestion::AllClasses, content) }
        TOP_LEVEL_THREAD_GROUPS => {
            of_machine(alloc, state, MachineQuestion::TopLevelThreadGroups, content)
        }
        CAPABILITIES => { of_machine(alloc, state, MachineQuestion::Capabilities, content) }
        DISPOSE_OBJECTS => Ok(disposed(alloc, content)),
        CAPABILITIES_NEW => { of_machine(alloc, state, MachineQuestion::CapabilitiesNew, content) }
        ALL_CLASSES_WITH_GENERIC => {
            of_machine(
                alloc,
                state,
                MachineQuestion::AllClassesWithGeneric,
                content,
            )
        }
        ALL_MODULES => of_machine(alloc, state, MachineQuestion::AllModules, content),
        _ => Ok(Answer::Error(ErrorCode::NOT_IMPLEMENTED)),
    }
}

/// The answer to the question of the machine, where the data are nothing more.
fn of_machine(
    alloc: Global,
    state: &MachineState,
    question: MachineQuestion,
    content: &[Datum],
) -> Result<Answer, NoMemory>
    ensures value { IfOk result (λ a. a ≡ alone (machine_answer_to (state_now state.now) question)
        (meanings content.now)) }
    // A refusal takes no memory.
    ensures memory { IfErr result (λ _.
        IsTrue (takes_memory (alone (machine_answer_to (state_now state.now) question)
        (meanings content.now)))) }
{
    match content {
        [] => machine_answer_to(alloc, state, question),
        _ => Ok(Answer::Error(ErrorCode::ILLEGAL_ARGUMENT)),
    }
}

/// The answer to the question of the machine.
fn machine_answer_to(
    alloc: Global,
    state: &MachineState,
    question: MachineQuestion,
) -> Result<Answer, NoMemory>
    ensures value { IfOk result (λ a. a ≡ machine_answer_to (state_now state.now) question) }
    // A refusal takes no memory.
    ensures memory { IfErr result (λ _.
        IsTrue (takes_memory (machine_answer_to (state_now state.now) question))) }
{
    let script = &state.script;
    match question {
        MachineQuestion::Version => version(alloc, script),
        MachineQuestion::AllClasses => { ClassEntry { state }.answer_each(alloc, &script.classes) }
        MachineQuestion::TopLevelThreadGroups => {
            of_entries(alloc, groups_below(alloc, script, ObjectId(0))?)
        }
        MachineQuestion::Capabilities => incapable(alloc, 7),
        MachineQuestion::CapabilitiesNew => incapable(alloc, 32),
        MachineQuestion::AllClassesWithGeneric => {
            GenericClassEntry { state }.answer_each(alloc, &script.classes)
        }
        MachineQuestion::AllModules => ModuleEntry.answer_each(alloc, &script.modules),
    }
}

/// A description, the version of JDWP, the version of the machine, and its name.
fn version(alloc: Global, script: &Script) -> Result<Answer, NoMemory>
    ensures value { IfOk result (λ a. a ≡ version (script_part script.now)) }
    // A refusal takes no memory.
    ensures memory { IfErr result (λ _. IsTrue (takes_memory (version (script_part script.now)))) }
{
    let description = text(alloc, "scripted machine")?;
    let version = text(alloc, "11")?;
    let name = text(alloc, &script.name)?;
    let items = vec![in alloc;
        Datum::One(description),
        Datum::One(Scalar::Int(11)),
        Datum::One(Scalar::Int(0)),
        Datum::One(version),
        Datum::One(name),
    ]?;
    Ok(Answer::Data(Data::new(items)))
}

/// So many capabilities that the machine does not have.
fn incapable(alloc: Global, count: usize) -> Result<Answer, NoMemory>
    ensures value { IfOk result (λ a. a ≡ incapable count) }
    // A refusal takes no memory.
    ensures memory { IfErr result (λ _. IsTrue (takes_memory (incapable count))) }
{
    let mut items = Vec::with_capacity(alloc, count)?;
    for _ in 0..count {
        items.push_reserved(Datum::One(Scalar::Boolean(false)));
    }
    Ok(Answer::Data(Data::new(items)))
}

/// The answer to DisposeObjects, which does nothing.
fn disposed(alloc: Global, content: &[Datum]) -> Answer
    ensures { result ≡ disposed (meanings content.now) }
{
    match content {
        [Datum::Many(_)] => Answer::Data(Data::new(Vec::new(alloc))),
        _ => Answer::Error(ErrorCode::ILLEGAL_ARGUMENT),
    }
}

/// The classes with the signature that the data are.
fn classes_by_signature(
    alloc: Global,
    state: &MachineState,
    content: &[Datum],
) -> Result<Answer, NoMemory>
    ensures value { IfOk result (λ a. a ≡ classes_by_signature (state_now state.now)
        (meanings content.now)) }
    // A refusal takes no memory.
    ensures memory { IfErr result (λ _.
        IsTrue (takes_memory (classes_by_signature (state_now state.now) (meanings content.now)))) }
{
    match content {
        [Datum::One(Scalar::String(signature))] => {
            let classes = classes_with(alloc, state, signature)?;
            of_datum(alloc, classes)
        }
        _ => Ok(Answer::Error(ErrorCode::ILLEGAL_ARGUMENT)),
    }
}

/// The list of the classes with this signature.
fn classes_with(alloc: Global, state: &MachineState, signature: &str) -> Result<Datum, NoMemory>
    ensures { IfOk result (λ d. datum_meaning d ≡ Many (map (class_entry (state_now state.now))
        (filter (λ (c : ClassPart). bytes_eq c.signature signature.now)
        (map class_part state.now.script.classes.items)))) }
{
    let mut entries = Vec::new(alloc);
    for class in &state.script.classes {
        if class.signature.as_str() == signature {
            let entry = class_entry(alloc, state, class)?;
            entries.push(entry)?;
        }
    }
    Ok(Datum::Many(entries))
}

/// The entry of the class in ClassesBySignature.
fn class_entry(alloc: Global, state: &MachineState, class: &Class) -> Result<Vec<Scalar>, NoMemory>
    ensures { IfOk result (λ e. scalar_meanings e.items ≡ class_entry (state_now state.now)
        (class_part class.now)) }
{
    Ok(vec![in alloc;
        Scalar::Byte(class.tag.byte()),
        Scalar::ReferenceTypeId(class.id),
        Scalar::Int(status(state, class.id)),
    ]?)
}
