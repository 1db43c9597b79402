//! What is answered of frames and their slots (JDWP specification, "StackFrame").
ghost use Rattle.std.specs.Prelude.{◌≡◌, map, IfOk, IfErr, IsTrue};
ghost use Rattle.std.specs.List.{list_all};
ghost use Rattle.jdwp_layout.specs.Meanings.{meanings, scalar_meanings, entry_meanings};
ghost use Rattle.jdwp_script.specs.Meanings.{script_part};
ghost use Rattle.jdwp_machine.specs.Laws.{takes_memory};
ghost use Rattle.jdwp_script_machine.specs.StateMeanings.{slot_now, frame_now, state_now};
ghost use Rattle.jdwp_script_machine.specs.Requests.{of_frame};
ghost use Rattle.jdwp_script_machine.specs.ThreadAnswers.{frames_at, entry_has_slot, entry_slot, slot_entries, slots_answer, this_answer, stack_frame_answer_by};
ghost use Rattle.jdwp_script_machine.specs.SlotQuestions.{suits_byte, entry_asks, slots_told};

use crate::asked::frame_asked;
use crate::replies::{of_entries, of_scalar, value_entry};
use crate::requests::entries_of;
use crate::sites::tagged;
use crate::slots::{has_slot, slot_value, suits};
use crate::state::{FrameState, MachineState, SlotState};
use jdwp_layout::numbers::{GET_SLOTS, THIS_OBJECT};
use jdwp_layout::{Answer, Datum, Scalar};
use jdwp_value::{Tag, Value};
use jdwp_wire::{ErrorCode, NoMemory};
use std::alloc::Global;

/// What is answered of a frame of a thread to the command of this number: the values of slots, or its `this`. Whether
/// the thread lives and is suspended is not tested.
///
/// # Errors
/// `NoMemory` where an allocation was refused; a refusal takes no memory.
pub(crate) fn stack_frame_answer(
    alloc: Global,
    state: &MachineState,
    number: u8,
    content: &[Datum],
) -> Result<Answer, NoMemory>
    ensures value { IfOk result (λ a. a ≡ stack_frame_answer_by (script_part state.now.script)
        (frames_at (state_now state.now)) number (meanings content.now)) }
    // A refusal takes no memory.
    ensures memory { IfErr result (λ _.
        IsTrue (takes_memory (stack_frame_answer_by (script_part state.now.script)
        (frames_at (state_now state.now)) number (meanings content.now)))) }
{
    match number {
        GET_SLOTS => slot_values(alloc, state, content),
        THIS_OBJECT => this_object(alloc, state, content),
        _ => Ok(Answer::Error(ErrorCode::NOT_IMPLEMENTED)),
    }
}

/// The values of slots of a frame of a thread.
fn slot_values(alloc: Global, state: &MachineState, content: &[Datum]) -> Result<Answer, NoMemory>
    ensures value { IfOk result (λ a. a ≡ of_frame (frames_at (state_now state.now)) slots_answer
        (meanings content.now)) }
    // A refusal takes no memory.
    ensures memory { IfErr result (λ _.
        IsTrue (takes_memory (of_frame (frames_at (state_now state.now)) slots_answer
        (meanings content.now)))) }
{
    match frame_asked(state, content) {
        Ok((frame, rest)) => values_of(alloc, frame, rest),
        Err(error) => Ok(Answer::Error(error)),
    }
}

/// The values of slots of this frame.
fn values_of(alloc: Global, frame: &FrameState, content: &[Datum]) -> Result<Answer, NoMemory>
    ensures value { IfOk result (λ a. a ≡ slots_answer (frame_now frame.now)
        (meanings content.now)) }
    // A refusal takes no memory.
    ensures memory { IfErr result (λ _.
        IsTrue (takes_memory (slots_answer (frame_now frame.now) (meanings content.now)))) }
{
    match entries_of(content) {
        Some(entries) => values_asked(alloc, &frame.slots, entries),
        None => Ok(Answer::Error(ErrorCode::ILLEGAL_ARGUMENT)),
    }
}

/// The values of the slots that the entries name. First every slot is tested, then every tag.
#[tactic(auto, unfolding(crate::specs::SlotQuestions::slots_told))]
fn values_asked(
    alloc: Global,
    slots: &[SlotState],
    entries: &[Vec<Scalar>],
) -> Result<Answer, NoMemory>
    ensures value { IfOk result (λ a. a ≡ slots_told (map slot_now slots.now)
        (entry_meanings entries.now)) }
    // A refusal takes no memory.
    ensures memory { IfErr result (λ _.
        IsTrue (takes_memory (slots_told (map slot_now slots.now) (entry_meanings entries.now)))) }
{
    if !all_have_slots(slots, entries) {
        return Ok(Answer::Error(ErrorCode::INVALID_SLOT));
    }
    if !all_suit(slots, entries) {
        return Ok(Answer::Error(ErrorCode::TYPE_MISMATCH));
    }
    let found = values_listed(alloc, slots, entries)?;
    of_entries(alloc, found)
}

/// Whether every entry names a slot that is there.
fn all_have_slots(slots: &[SlotState], entries: &[Vec<Scalar>]) -> bool
    ensures { result ≡ list_all (entry_has_slot (map slot_now slots.now))
        (entry_meanings entries.now) }
{
    for entry in entries {
        if !entry_has_slot(slots, entry) {
            return false;
        }
    }
    true
}

fn entry_has_slot(slots: &[SlotState], entry: &[Scalar]) -> bool
    ensures { result ≡ entry_has_slot (map slot_now slots.now) (scalar_meanings entry.now) }
{
    match entry {
        [Scalar::Int(number), Scalar::Byte(_)] => has_slot(slots, *number),
        _ => false,
    }
}

/// Whether every entry asks by a tag that suits its slot.
fn all_suit(slots: &[SlotState], entries: &[Vec<Scalar>]) -> bool
    ensures { result ≡ list_all (entry_asks (map slot_now slots.now)) (entry_meanings entries.now) }
{
    for entry in entries {
        if !entry_suits(slots, entry) {
            return false;
        }
    }
    true
}

fn entry_suits(slots: &[SlotState], entry: &[Scalar]) -> bool
    ensures { result ≡ entry_asks (map slot_now slots.now) (scalar_meanings entry.now) }
{
    match entry {
        [Scalar::Int(number), Scalar::Byte(asked)] => suits_byte(
            slot_value(slots, *number),
            *asked,
        ),
        _ => false,
    }
}

/// Whether what a slot holds suits the tag of a byte.
#[tactic(auto, unfolding(crate::specs::SlotQuestions::suits_byte))]
fn suits_byte(held: Option<Value>, asked: u8) -> bool
    ensures { result ≡ suits_byte held asked }
{
    match (held, Tag::of_byte(asked)) {
        (Some(value), Some(tag)) => suits(value.tag(), tag),
        _ => false,
    }
}

/// The values of the slots that the entries name, in their order.
fn values_listed(
    alloc: Global,
    slots: &[SlotState],
    entries: &[Vec<Scalar>],
) -> Result<Vec<Vec<Scalar>>, NoMemory>
    ensures { IfOk result (λ found. entry_meanings found.items
        ≡ slot_entries (map slot_now slots.now) (entry_meanings entries.now)) }
{
    let mut found = Vec::with_capacity(alloc, entries.len())?;
    for entry in entries {
        if let Some(value) = entry_slot(slots, entry) {
            found.push_reserved(value_entry(alloc, value)?);
        }
    }
    Ok(found)
}

fn entry_slot(slots: &[SlotState], entry: &[Scalar]) -> Option<Value>
    ensures { result ≡ entry_slot (map slot_now slots.now) (scalar_meanings entry.now) }
{
    match entry {
        [Scalar::Int(number), Scalar::Byte(_)] => slot_value(slots, *number),
        _ => None,
    }
}

/// The `this` of a frame of a thread.
fn this_object(alloc: Global, state: &MachineState, content: &[Datum]) -> Result<Answer, NoMemory>
    ensures value { IfOk result (λ a. a ≡ of_frame (frames_at (state_now state.now))
        (this_answer (script_part state.now.script)) (meanings content.now)) }
    // A refusal takes no memory.
    ensures memory { IfErr result (λ _.
        IsTrue (takes_memory (of_frame (frames_at (state_now state.now))
        (this_answer (script_part state.now.script)) (meanings content.now)))) }
{
    match frame_asked(state, content) {
        Ok((frame, [])) => {
            let this = tagged(&state.script, frame.this);
            of_scalar(alloc, Scalar::TaggedId(this))
        }
        Ok(_) => Ok(Answer::Error(ErrorCode::ILLEGAL_ARGUMENT)),
        Err(error) => Ok(Answer::Error(error)),
    }
}
