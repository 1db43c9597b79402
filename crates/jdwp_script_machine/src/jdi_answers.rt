//! What is answered beside the standard profile, for debuggers over the Java Debug Interface (JDWP specification, "VirtualMachine",
//! "ReferenceType", "ObjectReference", "ThreadReference" and "ModuleReference").
ghost use Rattle.std.specs.Prelude.{◌≡◌, map, option_map, IfOk, IfErr, IsTrue};
ghost use Rattle.jdwp_layout.specs.Meanings.{meanings};
ghost use Rattle.jdwp_machine.specs.Laws.{takes_memory};
ghost use Rattle.jdwp_script.specs.Meanings.{class_part, script_part};
ghost use Rattle.jdwp_script_machine.specs.Found.{found};
ghost use Rattle.jdwp_script_machine.specs.JdiAnswers.{any_module_answer, any_type_answer, class_named, class_of_id, class_paths_answer, class_signed, contended_answer, every_module, extension_answer, jdi_answer_at, owned_answer, type_asked};
ghost use Rattle.jdwp_script_machine.specs.JdiQuestions.{asked_found};
ghost use Rattle.jdwp_script_machine.specs.Requests.{alone, of_class, of_thread};
ghost use Rattle.jdwp_script_machine.specs.StateMeanings.{state_now};

use crate::answers::answer_at;
use crate::asked::{class_asked, thread_asked};
use crate::object_answers::{class_told, object_type};
use crate::places::{class_of, group_of, thread_of};
use crate::replies::{of_datum, of_entries, of_scalar};
use crate::state::MachineState;
use crate::unnamed_module::{every_module, module_loader, module_name, module_or_unnamed};
use jdwp_layout::numbers::{
    ALL_MODULES, CLASS_MODULE, CLASS_PATHS, CONTENDED_MONITOR, MODULE_CLASS_LOADER, MODULE_NAME,
    MODULE_REFERENCE, OBJECT_REFERENCE, OBJECT_TYPE, OWNED_MONITORS, REFERENCE_TYPE,
    SOURCE_DEBUG_EXTENSION, THREAD_REFERENCE, VIRTUAL_MACHINE,
};
use jdwp_layout::{Answer, Datum, Scalar};
use jdwp_script::{Class, Script};
use jdwp_value::{ObjectId, ObjectTag, ReferenceTypeId, TaggedId};
use jdwp_wire::{ErrorCode, NoMemory};
use std::alloc::Global;

/// What a command of this set and number with these data is answered: threads and groups have a class, all classes are in a module, there
/// are no class paths, no class has a debug extension, and no thread a monitor; the others are answered as in the standard profile.
///
/// # Errors
/// `NoMemory` where an allocation was refused; a refusal takes no memory.
pub(crate) fn jdi_answer_at(
    alloc: Global,
    state: &MachineState,
    set: u8,
    number: u8,
    content: &[Datum],
) -> Result<Answer, NoMemory>
    ensures value { IfOk result (λ a. a ≡ jdi_answer_at (state_now state.now) set number
        (meanings content.now)) }
    // A refusal takes no memory.
    ensures memory { IfErr result (λ _.
        IsTrue (takes_memory (jdi_answer_at (state_now state.now) set number
        (meanings content.now)))) }
{
    let script = &state.script;
    match (set, number) {
        (OBJECT_REFERENCE, OBJECT_TYPE) => any_type(alloc, state, content),
        (VIRTUAL_MACHINE, CLASS_PATHS) => class_paths(alloc, content),
        (VIRTUAL_MACHINE, ALL_MODULES) => all_modules(alloc, script, content),
        (REFERENCE_TYPE, CLASS_MODULE) => module_of_class(alloc, script, content),
        (MODULE_REFERENCE, MODULE_NAME) => module_name(alloc, state, content),
        (MODULE_REFERENCE, MODULE_CLASS_LOADER) => module_loader(alloc, state, content),
        (REFERENCE_TYPE, SOURCE_DEBUG_EXTENSION) => Ok(extension(script, content)),
        (THREAD_REFERENCE, OWNED_MONITORS) => owned_monitors(alloc, script, content),
        (THREAD_REFERENCE, CONTENDED_MONITOR) => contended_monitor(alloc, script, content),
        _ => answer_at(alloc, state, set, number, content),
    }
}

/// The first class with this signature.
pub(crate) fn class_signed<'a>(classes: &'a [Class], signature: &str) -> Option<&'a Class>
    ensures { option_map class_part (found result) ≡ class_signed signature.now
        (map class_part classes.now) }
{
    for class in classes {
        if class.signature.as_str() == signature {
            return Some(class);
        }
    }
    None
}

/// The class that the script names, or else the one with this signature.
fn class_named<'a>(script: &'a Script, class: ReferenceTypeId, signature: &str) -> Option<&'a Class>
    ensures { option_map class_part (found result) ≡ class_named (script_part script.now) class.0
        signature.now }
{
    if class.0 == 0 {
        class_signed(&script.classes, signature)
    } else {
        class_of(script, class)
    }
}

/// The class of the thread or the group of this id, if it is one and has one.
fn class_of_id(script: &Script, id: ObjectId) -> Option<&Class>
    ensures { option_map class_part (found result) ≡ class_of_id (script_part script.now) id.0 }
{
    if let Some(thread) = thread_of(script, id) {
        return class_named(script, thread.class, "Ljava/lang/Thread;");
    }
    match group_of(script, id) {
        Some(group) => class_named(script, group.class, "Ljava/lang/ThreadGroup;"),
        None => None,
    }
}

/// The class of the thread or the group that the data begin with, and the data behind it.
fn type_asked<'a>(script: &'a Script, content: &'a [Datum]) -> Option<(&'a Class, &'a [Datum])>
    ensures { asked_found result ≡ type_asked (script_part script.now) (meanings content.now) }
{
    match content {
        [Datum::One(Scalar::ObjectId(id)), rest @ ..] => match class_of_id(script, *id) {
            Some(class) => Some((class, rest)),
            None => None,
        },
        _ => None,
    }
}

/// The type of an object, a thread or a group.
fn any_type(alloc: Global, state: &MachineState, content: &[Datum]) -> Result<Answer, NoMemory>
    ensures value { IfOk result (λ a. a ≡ any_type_answer (state_now state.now)
        (meanings content.now)) }
    // A refusal takes no memory.
    ensures memory { IfErr result (λ _.
        IsTrue (takes_memory (any_type_answer (state_now state.now)
        (meanings content.now)))) }
{
    match type_asked(&state.script, content) {
        Some((class, [])) => class_told(alloc, class),
        Some(_) => Ok(Answer::Error(ErrorCode::ILLEGAL_ARGUMENT)),
        None => object_type(alloc, state, content),
    }
}

/// All modules.
fn all_modules(alloc: Global, script: &Script, content: &[Datum]) -> Result<Answer, NoMemory>
    ensures value { IfOk result (λ a. a ≡ alone (every_module (script_part script.now))
        (meanings content.now)) }
    // A refusal takes no memory.
    ensures memory { IfErr result (λ _.
        IsTrue (takes_memory (alone (every_module (script_part script.now))
        (meanings content.now)))) }
{
    match content {
        [] => every_module(alloc, script),
        _ => Ok(Answer::Error(ErrorCode::ILLEGAL_ARGUMENT)),
    }
}

/// The module of a class.
fn module_of_class(alloc: Global, script: &Script, content: &[Datum]) -> Result<Answer, NoMemory>
    ensures value { IfOk result (λ a. a ≡ of_class (script_part script.now)
        (any_module_answer (script_part script.now)) (meanings content.now)) }
    // A refusal takes no memory.
    ensures memory { IfErr result (λ _. IsTrue (takes_memory (of_class (script_part script.now)
        (any_module_answer (script_part script.now)) (meanings content.now)))) }
{
    match class_asked(script, content) {
        Ok((class, [])) => {
            let id = module_or_unnamed(script, class.module);
            of_scalar(alloc, Scalar::ObjectId(id))
        }
        Ok(_) => Ok(Answer::Error(ErrorCode::ILLEGAL_ARGUMENT)),
        Err(error) => Ok(Answer::Error(error)),
    }
}

/// The data of VirtualMachine.ClassPaths: the base directory `/`, and two lists of which nothing stands in either.
static NO_CLASS_PATHS: [u8; 13] = [0, 0, 0, 1, b'/', 0, 0, 0, 0, 0, 0, 0, 0];

/// The class paths and the boot class paths: none.
fn class_paths(alloc: Global, content: &[Datum]) -> Result<Answer, NoMemory>
    ensures value { IfOk result (λ a. a ≡ class_paths_answer (meanings content.now)) }
    // A refusal takes no memory.
    ensures memory { IfErr result (λ _.
        IsTrue (takes_memory (class_paths_answer (meanings content.now)))) }
{
    match content {
        [] => {
            let bytes = Vec::from_slice(alloc, &NO_CLASS_PATHS)?;
            of_datum(alloc, Datum::Raw(bytes))
        }
        _ => Ok(Answer::Error(ErrorCode::ILLEGAL_ARGUMENT)),
    }
}

/// The source debug extension of a class: none has one.
fn extension(script: &Script, content: &[Datum]) -> Answer
    ensures { result ≡ of_class (script_part script.now) extension_answer (meanings content.now) }
{
    match class_asked(script, content) {
        Ok((_, [])) => Answer::Error(ErrorCode::ABSENT_INFORMATION),
        Ok(_) => Answer::Error(ErrorCode::ILLEGAL_ARGUMENT),
        Err(error) => Answer::Error(error),
    }
}

/// The monitors that a thread owns: none.
fn owned_monitors(alloc: Global, script: &Script, content: &[Datum]) -> Result<Answer, NoMemory>
    ensures value { IfOk result (λ a. a ≡ of_thread (script_part script.now) owned_answer
        (meanings content.now)) }
    // A refusal takes no memory.
    ensures memory { IfErr result (λ _.
        IsTrue (takes_memory (of_thread (script_part script.now) owned_answer
        (meanings content.now)))) }
{
    match thread_asked(script, content) {
        Ok((_, [])) => of_entries(alloc, Vec::new(alloc)),
        Ok(_) => Ok(Answer::Error(ErrorCode::ILLEGAL_ARGUMENT)),
        Err(error) => Ok(Answer::Error(error)),
    }
}

/// The monitor that a thread waits for: none.
fn contended_monitor(alloc: Global, script: &Script, content: &[Datum]) -> Result<Answer, NoMemory>
    ensures value { IfOk result (λ a. a ≡ of_thread (script_part script.now) contended_answer
        (meanings content.now)) }
    // A refusal takes no memory.
    ensures memory { IfErr result (λ _.
        IsTrue (takes_memory (of_thread (script_part script.now) contended_answer
        (meanings content.now)))) }
{
    match thread_asked(script, content) {
        Ok((_, [])) => {
            let null = TaggedId {
                tag: ObjectTag::Object,
                id: ObjectId(0),
            };
            of_scalar(alloc, Scalar::TaggedId(null))
        }
        Ok(_) => Ok(Answer::Error(ErrorCode::ILLEGAL_ARGUMENT)),
        Err(error) => Ok(Answer::Error(error)),
    }
}
