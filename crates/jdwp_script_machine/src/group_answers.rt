//! What is answered of thread groups (JDWP specification, "ThreadGroupReference").
ghost use Rattle.std.specs.Prelude.{◌≡◌, map, IfOk, IfErr, IsTrue};
ghost use Rattle.jdwp_layout.specs.Meanings.{meanings, entry_meanings};
ghost use Rattle.jdwp_script.specs.Meanings.{script_part};
ghost use Rattle.jdwp_machine.specs.Laws.{takes_memory};
ghost use Rattle.jdwp_script_machine.specs.States.{is_living};
ghost use Rattle.jdwp_script_machine.specs.StateMeanings.{life_now, thread_now, state_now};
ghost use Rattle.jdwp_script_machine.specs.Requests.{of_group};
ghost use Rattle.jdwp_script_machine.specs.ClassAnswers.{group_entry, groups_below};
ghost use Rattle.jdwp_script_machine.specs.ObjectAnswers.{group_name_answer, parent_answer, is_in_group, thread_entry, threads_below, children, children_answer, group_answer};
ghost use Rattle.jdwp_script_machine.specs.Lives.{lives_in};

use crate::asked::group_asked;
use crate::places::thread_of;
use crate::replies::{object_entry, of_pair, of_scalar, of_text};
use crate::state::{Life, MachineState, ThreadState};
use jdwp_layout::numbers::{GROUP_CHILDREN, GROUP_NAME, GROUP_PARENT};
use jdwp_layout::{Answer, Datum, Scalar};
use jdwp_script::Script;
use jdwp_value::ObjectId;
use jdwp_wire::{ErrorCode, NoMemory};
use std::alloc::Global;

/// What is answered of a thread group to the command of this number: its name, its parent (0 where it has none), or the
/// threads that live in it and the groups right below it, each by rising id.
///
/// # Errors
/// `NoMemory` where an allocation was refused; a refusal takes no memory.
pub(crate) fn group_answer(
    alloc: Global,
    state: &MachineState,
    number: u8,
    content: &[Datum],
) -> Result<Answer, NoMemory>
    ensures value { IfOk result (λ a. a ≡ group_answer (state_now state.now) number
        (meanings content.now)) }
    // A refusal takes no memory.
    ensures memory { IfErr result (λ _.
        IsTrue (takes_memory (group_answer (state_now state.now) number (meanings content.now)))) }
{
    match number {
        GROUP_NAME => name(alloc, &state.script, content),
        GROUP_PARENT => parent(alloc, &state.script, content),
        GROUP_CHILDREN => children(alloc, state, content),
        _ => Ok(Answer::Error(ErrorCode::NOT_IMPLEMENTED)),
    }
}

/// The name of a group.
fn name(alloc: Global, script: &Script, content: &[Datum]) -> Result<Answer, NoMemory>
    ensures value { IfOk result (λ a. a ≡ of_group (script_part script.now) group_name_answer
        (meanings content.now)) }
    // A refusal takes no memory.
    ensures memory { IfErr result (λ _.
        IsTrue (takes_memory (of_group (script_part script.now) group_name_answer
        (meanings content.now)))) }
{
    match group_asked(script, content) {
        Ok((group, [])) => of_text(alloc, &group.name),
        Ok(_) => Ok(Answer::Error(ErrorCode::ILLEGAL_ARGUMENT)),
        Err(error) => Ok(Answer::Error(error)),
    }
}

/// The parent of a group.
fn parent(alloc: Global, script: &Script, content: &[Datum]) -> Result<Answer, NoMemory>
    ensures value { IfOk result (λ a. a ≡ of_group (script_part script.now) parent_answer
        (meanings content.now)) }
    // A refusal takes no memory.
    ensures memory { IfErr result (λ _.
        IsTrue (takes_memory (of_group (script_part script.now) parent_answer
        (meanings content.now)))) }
{
    match group_asked(script, content) {
        Ok((group, [])) => of_scalar(alloc, Scalar::ObjectId(group.parent)),
        Ok(_) => Ok(Answer::Error(ErrorCode::ILLEGAL_ARGUMENT)),
        Err(error) => Ok(Answer::Error(error)),
    }
}

/// The threads and the groups right below a group.
fn children(alloc: Global, state: &MachineState, content: &[Datum]) -> Result<Answer, NoMemory>
    ensures value { IfOk result (λ a. a ≡ of_group (script_part state.now.script) (children_answer
        (state_now state.now)) (meanings content.now)) }
    // A refusal takes no memory.
    ensures memory { IfErr result (λ _.
        IsTrue (takes_memory (of_group (script_part state.now.script) (children_answer
        (state_now state.now)) (meanings content.now)))) }
{
    match group_asked(&state.script, content) {
        Ok((group, [])) => children_of(alloc, state, group.id),
        Ok(_) => Ok(Answer::Error(ErrorCode::ILLEGAL_ARGUMENT)),
        Err(error) => Ok(Answer::Error(error)),
    }
}

/// The threads and the groups right below this group.
fn children_of(alloc: Global, state: &MachineState, group: ObjectId) -> Result<Answer, NoMemory>
    ensures value { IfOk result (λ a. a ≡ children (state_now state.now) group.0) }
    // A refusal takes no memory.
    ensures memory { IfErr result (λ _.
        IsTrue (takes_memory (children (state_now state.now) group.0))) }
{
    let threads = threads_below(alloc, state, group)?;
    let groups = groups_below(alloc, &state.script, group)?;
    of_pair(alloc, Datum::Many(threads), Datum::Many(groups))
}

/// The entries of the threads that live in a group.
fn threads_below(
    alloc: Global,
    state: &MachineState,
    group: ObjectId,
) -> Result<Vec<Vec<Scalar>>, NoMemory>
    ensures { IfOk result (λ found. entry_meanings found.items
        ≡ map thread_entry (threads_below (state_now state.now) group.0)) }
{
    let mut found = Vec::new(alloc);
    for thread in &state.threads {
        if is_below(&state.script, group, thread) {
            let entry = object_entry(alloc, thread.id)?;
            found.push(entry)?;
        }
    }
    Ok(found)
}

/// Whether the thread lives and is in the group.
fn is_below(script: &Script, group: ObjectId, thread: &ThreadState) -> bool
    ensures { result ≡ lives_in (script_part script.now) group.0 (thread_now thread.now) }
{
    is_living(thread.life) && is_in_group(script, group, thread.id)
}

fn is_living(life: Life) -> bool
    ensures { result ≡ is_living (life_now life) }
{
    match life {
        Life::Lives => true,
        Life::Waits | Life::HasEnded => false,
    }
}

/// Whether a thread of the script is in the group.
fn is_in_group(script: &Script, group: ObjectId, thread: ObjectId) -> bool
    ensures { result ≡ is_in_group (script_part script.now) group.0 thread.0 }
{
    match thread_of(script, thread) {
        Some(thread) => thread.group.0 == group.0,
        None => false,
    }
}

/// The entries of the groups whose parent is this; with 0, of those that have none.
pub(crate) fn groups_below(
    alloc: Global,
    script: &Script,
    parent: ObjectId,
) -> Result<Vec<Vec<Scalar>>, NoMemory>
    ensures { IfOk result (λ found. entry_meanings found.items
        ≡ map group_entry (groups_below (script_part script.now) parent.0)) }
{
    let mut found = Vec::new(alloc);
    for group in &script.groups {
        if group.parent.0 == parent.0 {
            let entry = object_entry(alloc, group.id)?;
            found.push(entry)?;
        }
    }
    Ok(found)
}
