//! What the next step of a thread makes happen.
ghost use Rattle.std.specs.Prelude.{◌≡◌, ◌<◌, ◌≤◌, ◌==◌, ◌+◌, ◌^◌, [], map, length, option_map, IfOk, IfSome};
ghost use Rattle.std.specs.List.{list_any};
ghost use Rattle.jdwp_event.specs.Occurrences.{place_meaning, occurrence_meaning};
ghost use Rattle.jdwp_script.specs.Meanings.{script_part, step_part, call_part};
ghost use Rattle.jdwp_script.specs.Parts as part;
ghost use Rattle.jdwp_script_machine.specs.States.{ThreadNow, begun, may_begin};
ghost use Rattle.jdwp_script_machine.specs.StateMeanings.{frame_now, thread_now, state_now};
ghost use Rattle.jdwp_script_machine.specs.Found.{found};
ghost use Rattle.jdwp_script_machine.specs.Sites.{site_in, site_place, newest_place};
ghost use Rattle.jdwp_script_machine.specs.Sound.{IsSound};
ghost use Rattle.jdwp_script_machine.specs.Steps.{step_at, next_step, moved, caught_at, occurrence, named_by, next, FRAME_LIMIT};

use crate::look_ups::with_id;
use crate::sites::{class_seen, location, place, reached, site_in, tagged};
use crate::state::{FrameState, Life, MachineState, ThreadState};
use jdwp_event::{Happening, Occurrence, Place, PreparedClass, ThrownException};
use jdwp_script::{Call, LIST_LIMIT, Script, Step, Throw};
use jdwp_value::{Location, MethodId, ObjectId, ReferenceTypeId};
use jdwp_wire::NoMemory;
use std::alloc::Global;

/// More frames a thread never has.
const MOST_FRAMES: usize = LIST_LIMIT;
/// The status of a class that is verified and prepared.
const READY: i32 = 3;

/// What the next step of a thread makes happen. The thread has run out where no step is left, or the next one can't
/// be made.
///
/// # Errors
/// `NoMemory` where an allocation was refused.
pub(crate) fn next(
    alloc: Global,
    state: &MachineState,
    thread: ObjectId,
) -> Result<Happening, NoMemory>
    requires { IsSound (state_now state.now) }
    ensures { IfOk result (λ happening. happening ≡ next (state_now state.now) thread.0) }
{
    let Some(entry) = with_id(&state.threads, thread.0) else {
        return Ok(Happening::new(thread, Occurrence::RanOut));
    };
    let Some(step) = next_step(&state.script, entry) else {
        return Ok(Happening::new(thread, Occurrence::RanOut));
    };
    match occurrence(alloc, state, &entry.frames, step)? {
        None => Ok(Happening::new(thread, Occurrence::RanOut)),
        Some(occurrence) => Ok(Happening::new(named_by(thread, step), occurrence)),
    }
}

/// The next step of a thread, if one is left.
pub(crate) fn next_step<'a>(script: &'a Script, entry: &ThreadState) -> Option<&'a Step>
    ensures step { option_map step_part (found result) ≡ next_step (script_part script.now)
        (thread_now entry.now) }
    ensures room { IfSome result (λ _. entry.now.place + 1 < 2 ^ 64) }
{
    step_at(script, entry.id, entry.place)
}

/// The step at this place of a thread's list.
pub(crate) fn step_at(script: &Script, thread: ObjectId, place: usize) -> Option<&Step>
    ensures step { option_map step_part (found result) ≡ step_at (script_part script.now)
        thread.0 place }
    ensures room { IfSome result (λ _. place + 1 < 2 ^ 64) }
{
    match with_id(&script.threads, thread.0) {
        None => None,
        Some(thread) => {
            if place < thread.steps.len() {
                Some(&thread.steps[place])
            } else {
                None
            }
        }
    }
}

/// The thread that the happening of a step names: the new one where a thread is started.
fn named_by(thread: ObjectId, step: &Step) -> ObjectId
    ensures { result.0 ≡ named_by thread.0 (step_part step.now) }
{
    match step {
        Step::Start(started) => *started,
        _ => thread,
    }
}

/// What a step of a thread with these frames makes happen; None where it can't be made.
fn occurrence(
    alloc: Global,
    state: &MachineState,
    frames: &[FrameState],
    step: &Step,
) -> Result<Option<Occurrence>, NoMemory>
    requires { length frames.now ≤ FRAME_LIMIT }
    ensures { IfOk result (λ o. option_map occurrence_meaning o ≡ occurrence (state_now state.now)
        (map frame_now frames.now) (step_part step.now)) }
{
    let script = &state.script;
    match step {
        Step::Call(call) => entered(alloc, state, frames, call),
        Step::Go(index) => Ok(match moved_to(alloc, script, frames, *index)? {
            None => None,
            Some(place) => Some(Occurrence::Moved(place)),
        }),
        Step::Return(value) => Ok(match newest_place(alloc, script, frames)? {
            None => None,
            Some(place) => Some(Occurrence::Left(place, value.value())),
        }),
        Step::Throw(thrown) => threw(alloc, state, frames, thrown),
        Step::Prepare(class) => prepared(alloc, state, *class),
        Step::Start(started) => Ok(if may_begin(&state.threads, *started) {
            Some(Occurrence::Started)
        } else {
            None
        }),
        Step::Again(_) => Ok(None),
    }
}

/// The entry of a method by a call.
fn entered(
    alloc: Global,
    state: &MachineState,
    frames: &[FrameState],
    call: &Call,
) -> Result<Option<Occurrence>, NoMemory>
    ensures { IfOk result (λ o. option_map occurrence_meaning o ≡ occurrence (state_now state.now)
        (map frame_now frames.now) (part.Call (call_part call.now))) }
{
    if frames.len() >= MOST_FRAMES {
        return Ok(None);
    }
    let count = frames.len() as u32 + 1;
    match place_in(alloc, &state.script, count, call.class, call.method, 0)? {
        None => Ok(None),
        Some(place) => Ok(Some(Occurrence::Entered(place))),
    }
}

/// A place of a thread that has so many frames, if there is such a method.
fn place_in(
    alloc: Global,
    script: &Script,
    frames: u32,
    class: ReferenceTypeId,
    method: MethodId,
    index: u64,
) -> Result<Option<Place>, NoMemory>
    ensures { IfOk result (λ place. option_map place_meaning place
        ≡ option_map (site_place (script_part script.now) frames index)
        (site_in (script_part script.now) class.0 method.0)) }
{
    match site_in(script, class, method) {
        None => Ok(None),
        Some(site) => Ok(Some(place(alloc, script, frames, site, index)?)),
    }
}

/// Where the newest frame is.
fn newest_place(
    alloc: Global,
    script: &Script,
    frames: &[FrameState],
) -> Result<Option<Place>, NoMemory>
    requires { length frames.now ≤ FRAME_LIMIT }
    ensures { IfOk result (λ place. option_map place_meaning place
        ≡ newest_place (script_part script.now) (map frame_now frames.now)) }
{
    match frames {
        [] => Ok(None),
        [newest, ..] => place_in(
            alloc,
            script,
            frames.len() as u32,
            newest.class,
            newest.method,
            newest.index,
        ),
    }
}

/// Where the newest frame will be once it has moved.
fn moved_to(
    alloc: Global,
    script: &Script,
    frames: &[FrameState],
    index: u64,
) -> Result<Option<Place>, NoMemory>
    requires { length frames.now ≤ FRAME_LIMIT }
    ensures { IfOk result (λ place. option_map place_meaning place
        ≡ newest_place (script_part script.now) (moved index (map frame_now frames.now))) }
{
    match frames {
        [] => Ok(None),
        [newest, ..] => place_in(
            alloc,
            script,
            frames.len() as u32,
            newest.class,
            newest.method,
            index,
        ),
    }
}

/// The throwing of an exception.
fn threw(
    alloc: Global,
    state: &MachineState,
    frames: &[FrameState],
    thrown: &Throw,
) -> Result<Option<Occurrence>, NoMemory>
    requires { length frames.now ≤ FRAME_LIMIT }
    ensures { IfOk result (λ o. option_map occurrence_meaning o ≡ occurrence (state_now state.now)
        (map frame_now frames.now) (part.Throwing thrown.now)) }
{
    let script = &state.script;
    let Some(place) = newest_place(alloc, script, frames)? else {
        return Ok(None);
    };
    let Some(object) = with_id(&script.objects, thrown.object.0) else {
        return Ok(None);
    };
    let exception = ThrownException {
        exception: tagged(script, object.id),
        caught_at: caught_at(script, thrown),
        reaches: reached(alloc, script, object.class)?,
    };
    Ok(Some(Occurrence::Threw(place, exception)))
}

/// Where an exception is caught; the null location where it isn't.
fn caught_at(script: &Script, thrown: &Throw) -> Location
    ensures { result ≡ caught_at (script_part script.now) thrown.now.caught }
{
    match thrown.caught {
        None => Location::Null,
        Some(place) => location(script, place.class, place.method, place.index),
    }
}

/// That a class becomes prepared.
fn prepared(
    alloc: Global,
    state: &MachineState,
    class: ReferenceTypeId,
) -> Result<Option<Occurrence>, NoMemory>
    ensures { IfOk result (λ o. option_map occurrence_meaning o
        ≡ occurrence (state_now state.now) [] (part.Prepare class.0)) }
{
    let script = &state.script;
    match with_id(&script.classes, class.0) {
        None => Ok(None),
        Some(class) => Ok(Some(Occurrence::Prepared(PreparedClass {
            tag: class.tag,
            id: class.id,
            status: READY,
            class: class_seen(alloc, script, class)?,
        }))),
    }
}

/// Whether there is such a thread and it did not begin yet.
fn may_begin(threads: &[ThreadState], thread: ObjectId) -> bool
    ensures { result ≡ may_begin (map thread_now threads.now) thread.0 }
{
    has_thread(threads, thread) && !has_begun(threads, thread)
}

fn has_thread(threads: &[ThreadState], thread: ObjectId) -> bool
    ensures { result ≡ list_any (λ (e : ThreadNow). e.id == thread.0) (map thread_now threads.now) }
{
    for entry in threads {
        if entry.id.0 == thread.0 {
            return true;
        }
    }
    false
}

fn has_begun(threads: &[ThreadState], thread: ObjectId) -> bool
    ensures { result ≡ begun (map thread_now threads.now) thread.0 }
{
    for entry in threads {
        if entry.life.has_begun() && entry.id.0 == thread.0 {
            return true;
        }
    }
    false
}
