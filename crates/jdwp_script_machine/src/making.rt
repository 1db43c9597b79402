//! Making strings (JDWP specification, "VirtualMachine": CreateString).
ghost use Rattle.std.specs.Prelude.{◌≡◌, ◌++◌, ◌∷◌, [], map, length, option_map, IfOk, IfErr, OnErr, IsTrue};
ghost use Rattle.jdwp_machine.specs.Laws.{takes_memory};
ghost use Rattle.jdwp_script.specs.Meanings.{object_part, script_part};
ghost use Rattle.jdwp_script_machine.specs.JdiAnswers.{is_id};
ghost use Rattle.jdwp_script_machine.specs.Made.{first_made, id_answer, made, made_answer, made_id, string_object};
ghost use Rattle.jdwp_script_machine.specs.StateMeanings.{state_now};

use crate::jdi_answers::class_signed;
use crate::replies::of_scalar;
use crate::state::MachineState;
use crate::unnamed_module::greatest_id;
use jdwp_layout::{Answer, Scalar};
use jdwp_script::{Object, Script};
use jdwp_value::{ObjectId, ReferenceTypeId};
use jdwp_wire::number::{GREATEST_INT, fits};
use jdwp_wire::{ErrorCode, NoMemory};
use std::alloc::Global;

/// No more strings are made than these.
const MADE_LIMIT: usize = 1_024;

/// Makes a string of this text, in the first class that is named `java.lang.String`, and answers its id. Where there is no such class,
/// the command is not implemented (`NOT_IMPLEMENTED`). Where 1,024 were made, no packet holds the text, or the id does not fit the width of
/// objects' ids, there is no more memory (`OUT_OF_MEMORY`).
///
/// # Errors
/// `NoMemory` where an allocation was refused; then nothing has changed. A refusal takes no memory.
pub(crate) fn make_string_of(
    alloc: Global,
    state: &mut MachineState,
    text: &str,
) -> Result<Answer, NoMemory>
    ensures ok { IfOk result (λ answer. (answer ≡ made_answer (state_now state.old) text.now)
        × (state_now state.new ≡ made (state_now state.old) text.now)) }
    ensures err { OnErr result (state_now state.new ≡ state_now state.old) }
    // A refusal takes no memory.
    ensures memory { IfErr result (λ _.
        IsTrue (takes_memory (made_answer (state_now state.old) text.now))) }
{
    let class = match class_signed(&state.script.classes, "Ljava/lang/String;") {
        Some(class) => class.id,
        None => return Ok(Answer::Error(ErrorCode::NOT_IMPLEMENTED)),
    };
    match made_id(state, text) {
        Some(id) => add_string(alloc, &mut state.made, text, class, id),
        None => Ok(Answer::Error(ErrorCode::OUT_OF_MEMORY)),
    }
}

/// The id of the next string, if there is room for one more of this text.
fn made_id(state: &MachineState, text: &str) -> Option<ObjectId>
    ensures { option_map (λ id. id.0) result ≡ made_id (state_now state.now) text.now }
{
    if state.made.len() >= MADE_LIMIT || text.len() > GREATEST_INT as usize {
        return None;
    }
    let next = greatest_id(&state.script).checked_add(2 + state.made.len() as u64)?;
    if fits(next, state.script.sizes.object as usize) {
        Some(ObjectId(next))
    } else {
        None
    }
}

/// Adds a string of this text, this class and this id, and answers the id.
fn add_string(
    alloc: Global,
    made: &mut Vec<Object>,
    text: &str,
    class: ReferenceTypeId,
    id: ObjectId,
) -> Result<Answer, NoMemory>
    ensures answer { IfOk result (λ answer. answer ≡ id_answer id.0) }
    ensures added { IfOk result (λ _. map object_part made.new.items
        ≡ map object_part made.old.items ++ string_object text.now class.0 id.0 ∷ []) }
    ensures err { OnErr result (made.new.items ≡ made.old.items) }
{
    let object = string_object(alloc, text, class, id)?;
    let answer = of_scalar(alloc, Scalar::ObjectId(id))?;
    made.push(object)?;
    Ok(answer)
}

/// A string of this text, this class and this id.
fn string_object(
    alloc: Global,
    text: &str,
    class: ReferenceTypeId,
    id: ObjectId,
) -> Result<Object, NoMemory>
    ensures { IfOk result (λ object. object_part object ≡ string_object text.now class.0 id.0) }
{
    Ok(Object {
        id,
        class,
        fields: Vec::new(alloc),
        text: Some(String::from_str(alloc, text)?),
        array: None,
    })
}
