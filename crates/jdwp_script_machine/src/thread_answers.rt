//! What is answered of threads (JDWP specification, "ThreadReference").
ghost use Rattle.std.specs.Prelude.{◌≡◌, map, true, IfOk, IfErr, IsTrue};
ghost use Rattle.jdwp_layout.specs.Meanings.{meanings, entry_meaning};
ghost use Rattle.jdwp_script.specs.Meanings.{script_part};
ghost use Rattle.jdwp_machine.specs.Laws.{takes_memory};
ghost use Rattle.jdwp_script_machine.specs.StateMeanings.{frame_now, state_now};
ghost use Rattle.jdwp_script_machine.specs.Requests.{of_thread, of_frames, part_of};
ghost use Rattle.jdwp_script_machine.specs.ThreadAnswers.{frames_at, thread_name_answer, thread_group_answer, frame_entry, frames_listed, frames_answer, count_answer, frame_count_answer, thread_answer_by};

use crate::asked::{frames_asked, thread_asked};
use crate::replies::{of_entries, of_scalar, of_text};
use crate::requests::{part_of, range_of};
use crate::sites::location;
use crate::state::{FrameState, MachineState};
use jdwp_layout::numbers::{FRAME_COUNT, FRAMES, THREAD_GROUP, THREAD_NAME};
use jdwp_layout::{Answer, Datum, Scalar};
use jdwp_script::Script;
use jdwp_wire::{ErrorCode, NoMemory};
use std::alloc::Global;

/// What is answered of a thread to the command of this number: its name, its group, some of its frames from the newest
/// on, or how many it has. Whether the thread lives and is suspended is not tested.
///
/// # Errors
/// `NoMemory` where an allocation was refused, or a thread has 2^31 frames or more.
pub(crate) fn thread_answer(
    alloc: Global,
    state: &MachineState,
    number: u8,
    content: &[Datum],
) -> Result<Answer, NoMemory>
    ensures value { IfOk result (λ a. a ≡ thread_answer_by (script_part state.now.script)
        (frames_at (state_now state.now)) number (meanings content.now)) }
    // A refusal takes no memory.
    ensures memory { IfErr result (λ _.
        IsTrue (takes_memory (thread_answer_by (script_part state.now.script)
        (frames_at (state_now state.now)) number (meanings content.now)))) }
{
    match number {
        THREAD_NAME => name(alloc, &state.script, content),
        THREAD_GROUP => group(alloc, &state.script, content),
        FRAMES => frames(alloc, state, content),
        FRAME_COUNT => frame_count(alloc, state, content),
        _ => Ok(Answer::Error(ErrorCode::NOT_IMPLEMENTED)),
    }
}

/// The name of a thread.
fn name(alloc: Global, script: &Script, content: &[Datum]) -> Result<Answer, NoMemory>
    ensures value { IfOk result (λ a. a ≡ of_thread (script_part script.now) thread_name_answer
        (meanings content.now)) }
    // A refusal takes no memory.
    ensures memory { IfErr result (λ _.
        IsTrue (takes_memory (of_thread (script_part script.now) thread_name_answer
        (meanings content.now)))) }
{
    match thread_asked(script, content) {
        Ok((thread, [])) => of_text(alloc, &thread.name),
        Ok(_) => Ok(Answer::Error(ErrorCode::ILLEGAL_ARGUMENT)),
        Err(error) => Ok(Answer::Error(error)),
    }
}

/// The group of a thread.
fn group(alloc: Global, script: &Script, content: &[Datum]) -> Result<Answer, NoMemory>
    ensures value { IfOk result (λ a. a ≡ of_thread (script_part script.now) thread_group_answer
        (meanings content.now)) }
    // A refusal takes no memory.
    ensures memory { IfErr result (λ _.
        IsTrue (takes_memory (of_thread (script_part script.now) thread_group_answer
        (meanings content.now)))) }
{
    match thread_asked(script, content) {
        Ok((thread, [])) => of_scalar(alloc, Scalar::ObjectId(thread.group)),
        Ok(_) => Ok(Answer::Error(ErrorCode::ILLEGAL_ARGUMENT)),
        Err(error) => Ok(Answer::Error(error)),
    }
}

/// Some frames of a thread.
fn frames(alloc: Global, state: &MachineState, content: &[Datum]) -> Result<Answer, NoMemory>
    ensures value { IfOk result (λ a. a ≡ of_frames (frames_at (state_now state.now))
        (frames_answer (script_part state.now.script)) (meanings content.now)) }
    // A refusal takes no memory.
    ensures memory { IfErr result (λ _.
        IsTrue (takes_memory (of_frames (frames_at (state_now state.now))
        (frames_answer (script_part state.now.script)) (meanings content.now)))) }
{
    match frames_asked(state, content) {
        Ok((frames, rest)) => some_of(alloc, &state.script, frames, rest),
        Err(error) => Ok(Answer::Error(error)),
    }
}

/// Those of these frames that are asked for by a place and a count.
#[tactic(auto, using(crate::specs::PartLaws::range_is))]
fn some_of(
    alloc: Global,
    script: &Script,
    frames: &[FrameState],
    rest: &[Datum],
) -> Result<Answer, NoMemory>
    ensures value { IfOk result (λ a. a ≡ frames_answer (script_part script.now)
        (map frame_now frames.now) (meanings rest.now)) }
    // A refusal takes no memory.
    ensures memory { IfErr result (λ _. IsTrue (takes_memory (frames_answer (script_part script.now)
        (map frame_now frames.now) (meanings rest.now)))) }
{
    match range_of(rest) {
        Some((from, count)) => part_listed(alloc, script, frames, from, count),
        None => Ok(Answer::Error(ErrorCode::ILLEGAL_ARGUMENT)),
    }
}

/// So many of these frames from a place on.
#[tactic(auto, using(crate::specs::PartLaws::part_is))]
fn part_listed(
    alloc: Global,
    script: &Script,
    frames: &[FrameState],
    from: i32,
    count: i32,
) -> Result<Answer, NoMemory>
    ensures value { IfOk result (λ a. a ≡ part_of true (frames_listed (script_part script.now))
        (map frame_now frames.now) from count) }
    // A refusal takes no memory.
    ensures memory { IfErr result (λ _.
        IsTrue (takes_memory (part_of true (frames_listed (script_part script.now))
        (map frame_now frames.now) from count))) }
{
    match part_of(true, frames, from, count) {
        Ok(part) => listed(alloc, script, part),
        Err(error) => Ok(Answer::Error(error)),
    }
}

/// These frames, each with its location.
fn listed(alloc: Global, script: &Script, frames: &[FrameState]) -> Result<Answer, NoMemory>
    ensures value { IfOk result (λ a. a ≡ frames_listed (script_part script.now)
        (map frame_now frames.now)) }
    // A refusal takes no memory.
    ensures memory { IfErr result (λ _. IsTrue (takes_memory (frames_listed (script_part script.now)
        (map frame_now frames.now)))) }
{
    let mut entries = Vec::with_capacity(alloc, frames.len())?;
    for frame in frames {
        entries.push_reserved(entry_of(alloc, script, frame)?);
    }
    of_entries(alloc, entries)
}

/// A frame and its location.
fn entry_of(alloc: Global, script: &Script, frame: &FrameState) -> Result<Vec<Scalar>, NoMemory>
    ensures { IfOk result (λ e. entry_meaning e ≡ frame_entry (script_part script.now)
        (frame_now frame.now)) }
{
    let place = location(script, frame.class, frame.method, frame.index);
    Ok(vec![in alloc; Scalar::FrameId(frame.id), Scalar::Location(place)]?)
}

/// How many frames a thread has.
fn frame_count(alloc: Global, state: &MachineState, content: &[Datum]) -> Result<Answer, NoMemory>
    ensures value { IfOk result (λ a.
        a ≡ of_frames (frames_at (state_now state.now)) frame_count_answer (meanings content.now)) }
    // A refusal takes no memory.
    ensures memory { IfErr result (λ _.
        IsTrue (takes_memory (of_frames (frames_at (state_now state.now)) frame_count_answer
        (meanings content.now)))) }
{
    match frames_asked(state, content) {
        Ok((frames, [])) => count_of(alloc, frames),
        Ok(_) => Ok(Answer::Error(ErrorCode::ILLEGAL_ARGUMENT)),
        Err(error) => Ok(Answer::Error(error)),
    }
}

/// How many these frames are.
fn count_of(alloc: Global, frames: &[FrameState]) -> Result<Answer, NoMemory>
    ensures value { IfOk result (λ a. a ≡ count_answer (map frame_now frames.now)) }
    // A refusal takes no memory.
    ensures memory { IfErr result (λ _.
        IsTrue (takes_memory (count_answer (map frame_now frames.now)))) }
{
    match i32::try_from(frames.len()) {
        Ok(count) => of_scalar(alloc, Scalar::Int(count)),
        Err(_) => Err(NoMemory),
    }
}
