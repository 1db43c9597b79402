//! Slots of frames, and writing them (JDWP specification, "StackFrame": SetValues).
ghost use Rattle.std.specs.Prelude.{◌≡◌, ℤ, map};
ghost use Rattle.std.specs.List.{list_all};
ghost use Rattle.jdwp_value.specs.declared.value.Value.{Value};
ghost use Rattle.jdwp_script_machine.specs.StateMeanings.{slot_now, frame_now, thread_now, state_now};
ghost use Rattle.jdwp_script_machine.specs.SlotWrites.{slot_value, has_slot, suits, found_suits, may_hold, slots_refusal, write_refusal, slot_written, slots_written, write_answer, written};
ghost use Rattle.jdwp_script_machine.specs.Changes.{value_suits, frame_changed, thread_changed};

use crate::places::{frame_of, is_known, thread_state_of};
use crate::replies::done;
use crate::state::{FrameState, MachineState, SlotState, ThreadState};
use jdwp_layout::Answer;
use jdwp_value::{FrameId, ObjectId, Tag, Value};
use jdwp_wire::ErrorCode;
use std::alloc::Global;

/// What a slot holds; None where there is no such slot.
pub(crate) fn slot_value(slots: &[SlotState], number: i32) -> Option<Value>
    ensures { result ≡ slot_value number (map slot_now slots.now) }
{
    for slot in slots {
        if slot.slot == number {
            return Some(slot.value);
        }
    }
    None
}

/// Whether there is such a slot.
pub(crate) fn has_slot(slots: &[SlotState], number: i32) -> bool
    ensures { result ≡ has_slot (map slot_now slots.now) number }
{
    for slot in slots {
        if slot.slot == number {
            return true;
        }
    }
    false
}

/// Whether a value of this tag may be asked of, or written into, a slot of that tag: any object tag for an object, never
/// void, and else the very tag.
pub(crate) fn suits(slot: Tag, asked: Tag) -> bool
    ensures { result ≡ suits slot asked }
{
    if asked.is_void() {
        return false;
    }
    if slot.is_object() {
        return asked.is_object();
    }
    slot.byte() == asked.byte()
}

/// Whether a slot may hold the value: an object has to be null or known.
fn may_hold(state: &MachineState, value: Value) -> bool
    ensures { result ≡ may_hold (state_now state.now) value }
{
    match value {
        Value::Object(object) => object.id.0 == 0 || is_known(state, object.id),
        _ => true,
    }
}

/// Whether each value's slot is there.
fn all_have_slots(slots: &[SlotState], values: &[(i32, Value)]) -> bool
    ensures { result ≡ list_all (λ (v : ℤ × Value).
        has_slot (map slot_now slots.now) v.0) values.now }
{
    for (number, _) in values {
        if !has_slot(slots, *number) {
            return false;
        }
    }
    true
}

/// Whether each value has a tag that suits its slot.
fn all_suit(slots: &[SlotState], values: &[(i32, Value)]) -> bool
    ensures { result ≡ list_all (value_suits (map slot_now slots.now)) values.now }
{
    for (number, value) in values {
        if !value_suits(slots, *number, *value) {
            return false;
        }
    }
    true
}

/// Whether a value has a tag that suits its slot.
#[tactic(auto, unfolding(crate::specs::Changes::value_suits))]
fn value_suits(slots: &[SlotState], number: i32, value: Value) -> bool
    ensures { result ≡ value_suits (map slot_now slots.now) (number, value) }
{
    found_suits(slot_value(slots, number), value.tag())
}

fn found_suits(held: Option<Value>, asked: Tag) -> bool
    ensures { result ≡ found_suits held asked }
{
    match held {
        Some(value) => suits(value.tag(), asked),
        None => false,
    }
}

/// Whether a slot may hold each value.
fn all_may_stand(state: &MachineState, values: &[(i32, Value)]) -> bool
    ensures { result ≡ list_all (λ (v : ℤ × Value).
        may_hold (state_now state.now) v.1) values.now }
{
    for (_, value) in values {
        if !may_hold(state, *value) {
            return false;
        }
    }
    true
}

/// Why values can't be written into these slots. First every slot is tested, then every tag, then every object.
#[tactic(auto, unfolding(crate::specs::Changes::value_suits))]
fn slots_refusal(
    state: &MachineState,
    slots: &[SlotState],
    values: &[(i32, Value)],
) -> Option<ErrorCode>
    ensures { result ≡ slots_refusal (state_now state.now) (map slot_now slots.now) values.now }
{
    if !all_have_slots(slots, values) {
        return Some(ErrorCode::INVALID_SLOT);
    }
    if !all_suit(slots, values) {
        return Some(ErrorCode::TYPE_MISMATCH);
    }
    if !all_may_stand(state, values) {
        return Some(ErrorCode::INVALID_OBJECT);
    }
    None
}

/// Why values can't be written into slots of a frame of a thread.
fn write_refusal(
    state: &MachineState,
    thread: ObjectId,
    frame: FrameId,
    values: &[(i32, Value)],
) -> Option<ErrorCode>
    ensures { result ≡ write_refusal (state_now state.now) thread.0 frame.0 values.now }
{
    match thread_state_of(state, thread) {
        Some(thread) => match frame_of(&thread.frames, frame) {
            Some(frame) => slots_refusal(state, &frame.slots, values),
            None => Some(ErrorCode::INVALID_FRAMEID),
        },
        None => Some(ErrorCode::INVALID_OBJECT),
    }
}

/// Writes a value into the slot, where it is that of the number; the slot then has the value's tag.
fn write_one(slot: &mut SlotState, number: i32, value: Value)
    ensures { slot_now slot.new ≡ slot_written (number, value) (slot_now slot.old) }
{
    if slot.slot == number {
        slot.value = value;
    }
}

/// Writes a value into the slot of the number.
fn write_slot(slots: &mut [SlotState], number: i32, value: Value)
    ensures { map slot_now slots.new ≡ map (slot_written (number, value)) (map slot_now slots.old) }
{
    for slot in slots.iter_mut() {
        write_one(slot, number, value);
    }
}

/// Writes values into slots, in turn.
fn write_each(slots: &mut [SlotState], values: &[(i32, Value)])
    ensures { map slot_now slots.new ≡ slots_written values.now (map slot_now slots.old) }
{
    for (number, value) in values {
        write_slot(slots, *number, *value);
    }
}

/// Writes values into slots of the frame, where it is that of the id.
fn write_frame(frame: &mut FrameState, id: FrameId, values: &[(i32, Value)])
    ensures { frame_now frame.new ≡ frame_changed id.0 values.now (frame_now frame.old) }
{
    if frame.id.0 == id.0 {
        write_each(&mut frame.slots, values);
    }
}

/// Writes values into slots of the frame of this id.
fn write_frames(frames: &mut [FrameState], id: FrameId, values: &[(i32, Value)])
    ensures { map frame_now frames.new ≡ map (frame_changed id.0 values.now)
        (map frame_now frames.old) }
{
    for frame in frames.iter_mut() {
        write_frame(frame, id, values);
    }
}

/// Writes values into slots of a frame of the thread, where it is that of the id.
fn write_thread(thread: &mut ThreadState, id: ObjectId, frame: FrameId, values: &[(i32, Value)])
    ensures { thread_now thread.new ≡ thread_changed id.0 frame.0 values.now
        (thread_now thread.old) }
{
    if thread.id.0 == id.0 {
        write_frames(&mut thread.frames, frame, values);
    }
}

/// Writes values into slots of a frame of the thread of this id.
fn write_threads(threads: &mut [ThreadState], id: ObjectId, frame: FrameId, values: &[(i32, Value)])
    ensures { map thread_now threads.new ≡ map (thread_changed id.0 frame.0 values.now)
        (map thread_now threads.old) }
{
    for thread in threads.iter_mut() {
        write_thread(thread, id, frame, values);
    }
}

/// Writes values into slots of a frame of a thread: all of them, or none. The frame has to be the thread's
/// (`INVALID_FRAMEID`), each slot has to be there (`INVALID_SLOT`), each value's tag to suit its slot (`TYPE_MISMATCH`),
/// and each object to be null or known (`INVALID_OBJECT`), tested in this order. Wants no memory.
pub(crate) fn write_slots_of(
    alloc: Global,
    state: &mut MachineState,
    thread: ObjectId,
    frame: FrameId,
    values: &[(i32, Value)],
) -> Answer
    ensures answer { result ≡ write_answer (state_now state.old) thread.0 frame.0 values.now }
    ensures state { state_now state.new
        ≡ written (state_now state.old) thread.0 frame.0 values.now }
{
    match write_refusal(state, thread, frame, values) {
        Some(error) => Answer::Error(error),
        None => {
            write_threads(&mut state.threads, thread, frame, values);
            done(alloc)
        }
    }
}
