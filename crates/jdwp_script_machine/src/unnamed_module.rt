//! The unnamed module, in which all classes are that the script puts in none (JDWP specification, "ReferenceType": Module, and
//! "ModuleReference").
ghost use Rattle.std.specs.Prelude.{◌≡◌, ◌+◌, ◌++◌, map, option_map, IfOk, IfErr, IsTrue};
ghost use Rattle.jdwp_layout.specs.Meanings.{entry_meanings, meanings};
ghost use Rattle.jdwp_machine.specs.Laws.{takes_memory};
ghost use Rattle.jdwp_script.specs.Meanings.{script_part};
ghost use Rattle.jdwp_script_machine.specs.ClassAnswers.{module_entry};
ghost use Rattle.jdwp_script_machine.specs.Found.{found};
ghost use Rattle.jdwp_script_machine.specs.JdiAnswers.{any_loader_answer, any_name_answer, every_module, fitting, greatest_id, last_id, module_or_unnamed, unnamed_asked, unnamed_entries, unnamed_module};
ghost use Rattle.jdwp_script_machine.specs.StateMeanings.{state_now};

use crate::look_ups::Numbered;
use crate::module_answers::module_reference_answer;
use crate::replies::{object_entry, of_entries, of_scalar, of_text};
use crate::state::MachineState;
use jdwp_layout::numbers::{MODULE_CLASS_LOADER, MODULE_NAME};
use jdwp_layout::{Answer, Datum, Scalar};
use jdwp_script::Script;
use jdwp_value::ObjectId;
use jdwp_wire::number::fits;
use jdwp_wire::{ErrorCode, NoMemory};
use std::alloc::Global;

/// The id of the last of these, 0 where there is none.
fn last_id<T: Numbered>(parts: &[T]) -> u64
    ensures { result ≡ last_id T.key (map T.meaning parts.now) }
{
    match parts.last() {
        Some(part) => part.number(),
        None => 0,
    }
}

/// The greatest id of a group, a thread, an object or a module, whose lists stand by rising id.
pub(crate) fn greatest_id(script: &Script) -> u64
    ensures { result ≡ greatest_id (script_part script.now) }
{
    let first = last_id(&script.groups).max(last_id(&script.threads));
    let second = last_id(&script.objects).max(last_id(&script.modules));
    first.max(second)
}

/// One more than a number, where that is an id of so many bytes, else 0.
fn next_fitting(number: u64, width: u32) -> u64
    ensures { result ≡ fitting width (number + 1) }
{
    match number.checked_add(1) {
        Some(next) if fits(next, width as usize) => next,
        _ => 0,
    }
}

/// The id of the unnamed module: one more than the greatest id of a group, a thread, an object or a module; 0, and no such module, where
/// that does not fit the width of objects' ids.
pub(crate) fn unnamed_module(script: &Script) -> ObjectId
    ensures { result.0 ≡ unnamed_module (script_part script.now) }
{
    ObjectId(next_fitting(greatest_id(script), script.sizes.object))
}

/// The module of a class, by what the script says of it: the unnamed one where the class is in none.
pub(crate) fn module_or_unnamed(script: &Script, module_id: ObjectId) -> ObjectId
    ensures { result.0 ≡ module_or_unnamed (script_part script.now) module_id.0 }
{
    if module_id.0 == 0 {
        unnamed_module(script)
    } else {
        module_id
    }
}

/// The modules by rising id, the unnamed one last.
pub(crate) fn every_module(alloc: Global, script: &Script) -> Result<Answer, NoMemory>
    ensures value { IfOk result (λ a. a ≡ every_module (script_part script.now)) }
    // A refusal takes no memory.
    ensures memory { IfErr result (λ _.
        IsTrue (takes_memory (every_module (script_part script.now)))) }
{
    let named = module_entries(alloc, script)?;
    let unnamed = unnamed_module(script);
    let entries = with_unnamed(alloc, named, unnamed)?;
    of_entries(alloc, entries)
}

/// The entries of the modules that the script has.
fn module_entries(alloc: Global, script: &Script) -> Result<Vec<Vec<Scalar>>, NoMemory>
    ensures { IfOk result (λ entries. entry_meanings entries.items
        ≡ map module_entry (script_part script.now).modules) }
{
    let mut entries = Vec::new(alloc);
    for part in &script.modules {
        let entry = object_entry(alloc, part.id)?;
        entries.push(entry)?;
    }
    Ok(entries)
}

/// These entries, and behind them that of the unnamed module, where there is one.
fn with_unnamed(
    alloc: Global,
    mut entries: Vec<Vec<Scalar>>,
    unnamed: ObjectId,
) -> Result<Vec<Vec<Scalar>>, NoMemory>
    ensures { IfOk result (λ all. entry_meanings all.items
        ≡ entry_meanings entries.items ++ unnamed_entries unnamed.0) }
{
    if unnamed.0 == 0 {
        return Ok(entries);
    }
    let entry = object_entry(alloc, unnamed)?;
    entries.push(entry)?;
    Ok(entries)
}

/// The data behind the unnamed module's id, where they begin with it.
fn unnamed_asked<'a>(script: &Script, content: &'a [Datum]) -> Option<&'a [Datum]>
    ensures { option_map meanings (found result) ≡ unnamed_asked (script_part script.now)
        (meanings content.now) }
{
    match content {
        [Datum::One(Scalar::ObjectId(id)), rest @ ..] => {
            if id.0 != 0 && id.0 == unnamed_module(script).0 {
                Some(rest)
            } else {
                None
            }
        }
        _ => None,
    }
}

/// The name of a module, the unnamed one's being empty.
pub(crate) fn module_name(
    alloc: Global,
    state: &MachineState,
    content: &[Datum],
) -> Result<Answer, NoMemory>
    ensures value { IfOk result (λ a. a ≡ any_name_answer (state_now state.now).script
        (meanings content.now)) }
    // A refusal takes no memory.
    ensures memory { IfErr result (λ _.
        IsTrue (takes_memory (any_name_answer (state_now state.now).script
        (meanings content.now)))) }
{
    match unnamed_asked(&state.script, content) {
        Some([]) => of_text(alloc, ""),
        Some(_) => Ok(Answer::Error(ErrorCode::ILLEGAL_ARGUMENT)),
        None => module_reference_answer(alloc, state, MODULE_NAME, content),
    }
}

/// The class loader of a module: none has one.
pub(crate) fn module_loader(
    alloc: Global,
    state: &MachineState,
    content: &[Datum],
) -> Result<Answer, NoMemory>
    ensures value { IfOk result (λ a. a ≡ any_loader_answer (state_now state.now).script
        (meanings content.now)) }
    // A refusal takes no memory.
    ensures memory { IfErr result (λ _.
        IsTrue (takes_memory (any_loader_answer (state_now state.now).script
        (meanings content.now)))) }
{
    match unnamed_asked(&state.script, content) {
        Some([]) => of_scalar(alloc, Scalar::ObjectId(ObjectId(0))),
        Some(_) => Ok(Answer::Error(ErrorCode::ILLEGAL_ARGUMENT)),
        None => module_reference_answer(alloc, state, MODULE_CLASS_LOADER, content),
    }
}
