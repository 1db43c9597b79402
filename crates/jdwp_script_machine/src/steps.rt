//! The step of a thread, and its end.
ghost use Rattle.std.specs.Prelude.{◌≡◌, ℕ, ◌==◌, ◌<◌, ◌+◌, ◌^◌, false, map, drop, OnOk, OnErr, IfOk, IfSome};
ghost use Rattle.std.specs.List.{IsDistinct};
ghost use Rattle.jdwp_event.specs.Occurrences.{runs_out};
ghost use Rattle.jdwp_script.specs.Meanings.{call_part, script_part, step_part};
ghost use Rattle.jdwp_script_machine.specs.LookUps.{with_id, changed, first_changed};
ghost use Rattle.jdwp_script_machine.specs.States.{ThreadNow, ClassNow};
ghost use Rattle.jdwp_script_machine.specs.StateMeanings.{frame_now, thread_now, class_now, state_now};
ghost use Rattle.jdwp_script_machine.specs.StateMeanings.{slot_now as slot_state_now};
ghost use Rattle.jdwp_script_machine.specs.Sound.{thread_ids, IsSound};
ghost use Rattle.jdwp_script_machine.specs.Steps.{called, moved, frames_after, place_after, after_step, alive, with_started, ready, with_prepared, gone, stepped, ended, slot_now, next};

use crate::happening::{next_step, step_at};
use crate::look_ups::with_id;
use crate::state::{ClassState, FrameState, Life, MachineState, SlotState, ThreadState};
use jdwp_script::{Call, Script, SlotValue, Step};
use jdwp_value::{ObjectId, ReferenceTypeId};
use jdwp_wire::NoMemory;
use std::alloc::Global;

/// Makes the next step of a thread that has not run out.
///
/// # Errors
/// `NoMemory` where an allocation was refused; then nothing has changed.
pub(crate) fn step(
    alloc: Global,
    state: &mut MachineState,
    thread: ObjectId,
) -> Result<(), NoMemory>
    requires sound { IsSound (state_now state.old) }
    requires runs { runs_out (next (state_now state.old) thread.0) ≡ false }
    ensures ok { OnOk result (state_now state.new ≡ stepped (state_now state.old) thread.0) }
    ensures err { OnErr result (state_now state.new ≡ state_now state.old) }
    ensures sound { IsSound (state_now state.new) }
{
    let Some(entry) = with_id(&state.threads, thread.0) else {
        return Ok(());
    };
    let Some(step) = next_step(&state.script, entry) else {
        return Ok(());
    };
    let place = place_after(&state.script, entry);
    make(
        alloc,
        &mut state.threads,
        &mut state.classes,
        thread,
        place,
        step,
    )?;
    Ok(())
}

/// The place of a thread's next step once this one is made.
fn place_after(script: &Script, entry: &ThreadState) -> usize
    requires { entry.now.place + 1 < 2 ^ 64 }
    ensures { result ≡ place_after (script_part script.now) (thread_now entry.now) }
{
    let place = entry.place + 1;
    match step_at(script, entry.id, place) {
        Some(Step::Again(back)) => place.saturating_sub(*back as usize),
        _ => place,
    }
}

/// Makes a step of a thread, which goes on at this place: in its frames, and in the thread that it starts or the class that it prepares.
fn make(
    alloc: Global,
    threads: &mut [ThreadState],
    classes: &mut [ClassState],
    thread: ObjectId,
    place: usize,
    step: &Step,
) -> Result<(), NoMemory>
    requires { IsDistinct (λ (a b : ℕ). a == b) (thread_ids (map thread_now threads.old)) }
    ensures threads { OnOk result (map thread_now threads.new ≡ changed (λ (e : ThreadNow).
        e.id) thread.0 (after_step place (step_part step.now)) (with_started (step_part step.now)
        (map thread_now threads.old))) }
    ensures classes { OnOk result (map class_now classes.new ≡ with_prepared (step_part step.now)
        (map class_now classes.old)) }
    ensures err { OnErr result ((map thread_now threads.new ≡ map thread_now threads.old)
        × (classes.new ≡ classes.old)) }
{
    advance(alloc, threads, thread, place, step)?;
    start_by(threads, step);
    prepare_by(classes, step);
    Ok(())
}

/// Makes the thread live that the step starts, if it starts one.
fn start_by(threads: &mut [ThreadState], step: &Step)
    ensures { map thread_now threads.new ≡ with_started (step_part step.now)
        (map thread_now threads.old) }
{
    match step {
        Step::Start(started) => start(threads, *started),
        _ => {}
    }
}

/// Makes the class prepared that the step prepares, if it prepares one.
fn prepare_by(classes: &mut [ClassState], step: &Step)
    ensures { map class_now classes.new ≡ with_prepared (step_part step.now)
        (map class_now classes.old) }
{
    match step {
        Step::Prepare(class) => prepare(classes, *class),
        _ => {}
    }
}

/// Makes a step in the frames of the first thread with this id, which goes on at this place.
fn advance(
    alloc: Global,
    threads: &mut [ThreadState],
    thread: ObjectId,
    place: usize,
    step: &Step,
) -> Result<(), NoMemory>
    ensures ok { OnOk result (map thread_now threads.new ≡ first_changed (λ (e : ThreadNow).
        e.id) thread.0 (after_step place (step_part step.now)) (map thread_now threads.old)) }
    ensures err { OnErr result (map thread_now threads.new ≡ map thread_now threads.old) }
{
    for entry in threads.iter_mut() {
        if entry.id.0 == thread.0 {
            change_frames(alloc, &mut entry.frames, step)?;
            entry.place = place;
            return Ok(());
        }
    }
    Ok(())
}

/// Makes a step in the frames of its thread.
fn change_frames(alloc: Global, frames: &mut Vec<FrameState>, step: &Step) -> Result<(), NoMemory>
    ensures ok { OnOk result (map frame_now frames.new.items ≡ frames_after (step_part step.now)
        (map frame_now frames.old.items)) }
    ensures err { OnErr result (map frame_now frames.new.items ≡ map frame_now frames.old.items) }
{
    match step {
        Step::Call(call) => {
            let frame = called(alloc, call)?;
            frames.insert(0, frame)?;
        }
        Step::Go(index) => move_newest(frames, *index),
        Step::Return(_) => take_newest(frames),
        Step::Throw(_) | Step::Prepare(_) | Step::Start(_) | Step::Again(_) => {}
    }
    Ok(())
}

/// The frame of a call, as it begins.
fn called(alloc: Global, call: &Call) -> Result<FrameState, NoMemory>
    ensures { IfOk result (λ frame. frame_now frame ≡ called (call_part call.now)) }
{
    Ok(FrameState {
        id: call.frame,
        class: call.class,
        method: call.method,
        index: 0,
        this: call.this,
        slots: slots_of(alloc, &call.slots)?,
    })
}

fn slots_of(alloc: Global, values: &[SlotValue]) -> Result<Vec<SlotState>, NoMemory>
    ensures { IfOk result (λ slots. map slot_state_now slots.items ≡ map slot_now values.now) }
{
    let mut slots = Vec::with_capacity(alloc, values.len())?;
    for value in values {
        slots.push_reserved(SlotState {
            slot: value.slot,
            value: value.value.value(),
        });
    }
    Ok(slots)
}

/// Moves the newest frame to this code index.
fn move_newest(frames: &mut [FrameState], index: u64)
    ensures { map frame_now frames.new ≡ moved index (map frame_now frames.old) }
{
    if let [newest, ..] = frames {
        newest.index = index;
    }
}

/// Takes the newest frame off.
fn take_newest(frames: &mut Vec<FrameState>)
    ensures { map frame_now frames.new.items ≡ drop 1 (map frame_now frames.old.items) }
{
    if !frames.is_empty() {
        let _ = frames.remove(0);
    }
}

/// Makes each thread with this id live.
fn start(threads: &mut [ThreadState], thread: ObjectId)
    ensures { map thread_now threads.new ≡ changed (λ (e : ThreadNow). e.id) thread.0 alive
        (map thread_now threads.old) }
{
    for entry in threads.iter_mut() {
        if entry.id.0 == thread.0 {
            entry.life = Life::Lives;
        }
    }
}

/// Makes each class with this id prepared.
fn prepare(classes: &mut [ClassState], class: ReferenceTypeId)
    ensures { map class_now classes.new ≡ changed (λ (c : ClassNow). c.id) class.0 ready
        (map class_now classes.old) }
{
    for entry in classes.iter_mut() {
        if entry.id.0 == class.0 {
            entry.is_prepared = true;
        }
    }
}

/// Ends each thread with this id, and takes its frames off.
pub(crate) fn end(state: &mut MachineState, thread: ObjectId)
    ensures { state_now state.new ≡ ended (state_now state.old) thread.0 }
{
    end_each(&mut state.threads, thread);
}

fn end_each(threads: &mut [ThreadState], thread: ObjectId)
    ensures { map thread_now threads.new ≡ changed (λ (e : ThreadNow). e.id) thread.0 gone
        (map thread_now threads.old) }
{
    for entry in threads.iter_mut() {
        if entry.id.0 == thread.0 {
            entry.life = Life::HasEnded;
            entry.frames.clear();
        }
    }
}
