//! What commands are answered.
ghost use Rattle.std.specs.Prelude.{◌≡◌, IfOk, IfErr, IsTrue};
ghost use Rattle.jdwp_layout.specs.Meanings.{meanings};
ghost use Rattle.jdwp_layout.specs.CommandNumbers.{EVENT_REQUEST};
ghost use Rattle.jdwp_machine.specs.Laws.{takes_memory};
ghost use Rattle.jdwp_script_machine.specs.StateMeanings.{state_now};
ghost use Rattle.jdwp_script_machine.specs.Answers.{answer_at};
ghost use Rattle.jdwp_script_machine.specs.ProfileAnswers.{answer_in};

use crate::array_answers::array_answer;
use crate::class_answers::{class_type_answer, reference_type_answer};
use crate::frame_answers::stack_frame_answer;
use crate::group_answers::group_answer;
use crate::invocation_answers::invoking_answer_at;
use crate::location_answers::set_answer;
use crate::machine_answers::virtual_machine_answer;
use crate::method_answers::method_answer;
use crate::module_answers::module_reference_answer;
use crate::object_answers::{object_answer, string_answer};
use crate::state::MachineState;
use crate::thread_answers::thread_answer;
use jdwp_layout::numbers::{
    ARRAY_REFERENCE, CLASS_TYPE, EVENT_REQUEST, METHOD, MODULE_REFERENCE, OBJECT_REFERENCE,
    REFERENCE_TYPE, SET_REQUEST, STACK_FRAME, STRING_REFERENCE, THREAD_GROUP_REFERENCE,
    THREAD_REFERENCE, VIRTUAL_MACHINE,
};
use jdwp_layout::{Answer, Datum};
use jdwp_machine::Profile;
use jdwp_wire::{ErrorCode, IdSizes, NoMemory};
use std::alloc::Global;

/// What a command of this set and number with these data is answered.
///
/// # Errors
/// `NoMemory` where an allocation was refused; a refusal takes no memory.
pub(crate) fn answer_at(
    alloc: Global,
    state: &MachineState,
    set: u8,
    number: u8,
    content: &[Datum],
) -> Result<Answer, NoMemory>
    ensures value { IfOk result (λ a. a ≡ answer_at (state_now state.now) set number
        (meanings content.now)) }
    // A refusal takes no memory.
    ensures memory { IfErr result (λ _.
        IsTrue (takes_memory (answer_at (state_now state.now) set number (meanings content.now)))) }
{
    match set {
        VIRTUAL_MACHINE => virtual_machine_answer(alloc, state, number, content),
        REFERENCE_TYPE => reference_type_answer(alloc, state, number, content),
        CLASS_TYPE => class_type_answer(alloc, state, number, content),
        METHOD => method_answer(alloc, state, number, content),
        OBJECT_REFERENCE => object_answer(alloc, state, number, content),
        STRING_REFERENCE => string_answer(alloc, state, number, content),
        THREAD_REFERENCE => thread_answer(alloc, state, number, content),
        THREAD_GROUP_REFERENCE => group_answer(alloc, state, number, content),
        ARRAY_REFERENCE => array_answer(alloc, state, number, content),
        EVENT_REQUEST => event_request_answer(alloc, state, number, content),
        STACK_FRAME => stack_frame_answer(alloc, state, number, content),
        MODULE_REFERENCE => module_reference_answer(alloc, state, number, content),
        _ => Ok(Answer::Error(ErrorCode::NOT_IMPLEMENTED)),
    }
}

/// The answer of the set EventRequest: the test of a location.
fn event_request_answer(
    alloc: Global,
    state: &MachineState,
    number: u8,
    content: &[Datum],
) -> Result<Answer, NoMemory>
    ensures value { IfOk result (λ a. a ≡ answer_at (state_now state.now) EVENT_REQUEST number
        (meanings content.now)) }
    // A refusal takes no memory.
    ensures memory { IfErr result (λ _.
        IsTrue (takes_memory (answer_at (state_now state.now) EVENT_REQUEST number
        (meanings content.now)))) }
{
    if number == SET_REQUEST {
        set_answer(alloc, &state.script, content)
    } else {
        Ok(Answer::Error(ErrorCode::NOT_IMPLEMENTED))
    }
}

/// The same in the machine's profile. `sizes` are the script's.
///
/// # Errors
/// `NoMemory` where an allocation was refused; a refusal takes no memory.
pub(crate) fn answer_by(
    alloc: Global,
    state: &MachineState,
    sizes: &IdSizes,
    set: u8,
    number: u8,
    content: &[Datum],
) -> Result<Answer, NoMemory>
    requires { sizes.now ≡ (state_now state.now).script.sizes }
    ensures value { IfOk result (λ a. a ≡ answer_in state.now.profile (state_now state.now) set
        number (meanings content.now)) }
    // A refusal takes no memory.
    ensures memory { IfErr result (λ _.
        IsTrue (takes_memory (answer_in state.now.profile (state_now state.now) set number
        (meanings content.now)))) }
{
    match state.profile {
        Profile::Standard => answer_at(alloc, state, set, number, content),
        Profile::Jdi => invoking_answer_at(alloc, state, sizes, set, number, content),
    }
}
