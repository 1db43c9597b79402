//! What a command's data name first, with the data that are left behind it, or else the refusal.
ghost use Rattle.std.specs.Prelude.{◌≡◌, List, map};
ghost use Rattle.jdwp_script.specs.Parts.{ClassPart, GroupPart, MethodPart, ModulePart, ObjectPart, ThreadPart};
ghost use Rattle.jdwp_script.specs.Meanings.{class_part, group_part, method_part, module_part, object_part, script_part, thread_part};
ghost use Rattle.jdwp_layout.specs.Meanings.{meanings};
ghost use Rattle.jdwp_script_machine.specs.Asked.{by_asked};
ghost use Rattle.jdwp_script_machine.specs.Requests.{Asks, of_class, of_method_in, of_prepared_class, of_frame, of_frame_in, of_frames, of_group, of_module, of_object, of_thread};
ghost use Rattle.jdwp_script_machine.specs.StateMeanings.{frame_now, state_now};
ghost use Rattle.jdwp_script_machine.specs.States.{FrameNow};
ghost use Rattle.jdwp_script_machine.specs.ThreadAnswers.{frames_at};

use crate::class_look_ups::is_prepared;
use crate::places::{
    class_of, frame_of, frames_of, group_of, method_of, module_of, object_of, thread_of,
};
use crate::state::{FrameState, MachineState};
use jdwp_layout::{Datum, Scalar};
use jdwp_script::{Class, Group, Method, Module, Object, Script, Thread};
use jdwp_wire::ErrorCode;

/// The class that the data name first.
pub(crate) fn class_asked<'a>(
    script: &'a Script,
    content: &'a [Datum],
) -> Result<(&'a Class, &'a [Datum]), ErrorCode>
    ensures { (answer : ClassPart → Asks) → of_class (script_part script.now) answer
        (meanings content.now) ≡ by_asked class_part answer result }
{
    match content {
        [Datum::One(Scalar::ReferenceTypeId(id)), rest @ ..] => match class_of(script, *id) {
            Some(class) => Ok((class, rest)),
            None => Err(ErrorCode::INVALID_CLASS),
        },
        _ => Err(ErrorCode::ILLEGAL_ARGUMENT),
    }
}

/// The class that the data name first, which has to be prepared.
pub(crate) fn prepared_asked<'a>(
    state: &'a MachineState,
    content: &'a [Datum],
) -> Result<(&'a Class, &'a [Datum]), ErrorCode>
    ensures { (answer : ClassPart → Asks) → of_prepared_class (state_now state.now) answer
        (meanings content.now) ≡ by_asked class_part answer result }
{
    match class_asked(&state.script, content) {
        Ok((class, rest)) => {
            if is_prepared(state, class.id) {
                Ok((class, rest))
            } else {
                Err(ErrorCode::CLASS_NOT_PREPARED)
            }
        }
        Err(error) => Err(error),
    }
}

/// The method of the class that the data name first.
pub(crate) fn method_asked<'a>(
    class: &'a Class,
    content: &'a [Datum],
) -> Result<(&'a Method, &'a [Datum]), ErrorCode>
    ensures { (answer : ClassPart → MethodPart → Asks) → of_method_in answer (class_part class.now)
        (meanings content.now) ≡ by_asked method_part (answer (class_part class.now)) result }
{
    match content {
        [Datum::One(Scalar::MethodId(id)), rest @ ..] => match method_of(class, *id) {
            Some(method) => Ok((method, rest)),
            None => Err(ErrorCode::INVALID_METHODID),
        },
        _ => Err(ErrorCode::ILLEGAL_ARGUMENT),
    }
}

/// The object that the data name first.
pub(crate) fn object_asked<'a>(
    state: &'a MachineState,
    content: &'a [Datum],
) -> Result<(&'a Object, &'a [Datum]), ErrorCode>
    ensures { (answer : ObjectPart → Asks) → of_object (state_now state.now) answer
        (meanings content.now) ≡ by_asked object_part answer result }
{
    match content {
        [Datum::One(Scalar::ObjectId(id)), rest @ ..] => match object_of(state, *id) {
            Some(object) => Ok((object, rest)),
            None => Err(ErrorCode::INVALID_OBJECT),
        },
        _ => Err(ErrorCode::ILLEGAL_ARGUMENT),
    }
}

/// The thread group that the data name first.
pub(crate) fn group_asked<'a>(
    script: &'a Script,
    content: &'a [Datum],
) -> Result<(&'a Group, &'a [Datum]), ErrorCode>
    ensures { (answer : GroupPart → Asks) → of_group (script_part script.now) answer
        (meanings content.now) ≡ by_asked group_part answer result }
{
    match content {
        [Datum::One(Scalar::ObjectId(id)), rest @ ..] => match group_of(script, *id) {
            Some(group) => Ok((group, rest)),
            None => Err(ErrorCode::INVALID_THREAD_GROUP),
        },
        _ => Err(ErrorCode::ILLEGAL_ARGUMENT),
    }
}

/// The module that the data name first.
pub(crate) fn module_asked<'a>(
    script: &'a Script,
    content: &'a [Datum],
) -> Result<(&'a Module, &'a [Datum]), ErrorCode>
    ensures { (answer : ModulePart → Asks) → of_module (script_part script.now) answer
        (meanings content.now) ≡ by_asked module_part answer result }
{
    match content {
        [Datum::One(Scalar::ObjectId(id)), rest @ ..] => match module_of(script, *id) {
            Some(module) => Ok((module, rest)),
            None => Err(ErrorCode::INVALID_MODULE),
        },
        _ => Err(ErrorCode::ILLEGAL_ARGUMENT),
    }
}

/// The thread that the data name first, as the script has it.
pub(crate) fn thread_asked<'a>(
    script: &'a Script,
    content: &'a [Datum],
) -> Result<(&'a Thread, &'a [Datum]), ErrorCode>
    ensures { (answer : ThreadPart → Asks) → of_thread (script_part script.now) answer
        (meanings content.now) ≡ by_asked thread_part answer result }
{
    match content {
        [Datum::One(Scalar::ObjectId(id)), rest @ ..] => match thread_of(script, *id) {
            Some(thread) => Ok((thread, rest)),
            None => Err(ErrorCode::INVALID_OBJECT),
        },
        _ => Err(ErrorCode::ILLEGAL_ARGUMENT),
    }
}

/// The frames of the thread that the data name first.
pub(crate) fn frames_asked<'a>(
    state: &'a MachineState,
    content: &'a [Datum],
) -> Result<(&'a [FrameState], &'a [Datum]), ErrorCode>
    ensures { (answer : List FrameNow → Asks) → of_frames (frames_at (state_now state.now)) answer
        (meanings content.now) ≡ by_asked (map frame_now) answer result }
{
    match content {
        [Datum::One(Scalar::ObjectId(id)), rest @ ..] => match frames_of(state, *id) {
            Some(frames) => Ok((frames, rest)),
            None => Err(ErrorCode::INVALID_OBJECT),
        },
        _ => Err(ErrorCode::ILLEGAL_ARGUMENT),
    }
}

/// The frame that the data name first and second, by its thread and its id.
pub(crate) fn frame_asked<'a>(
    state: &'a MachineState,
    content: &'a [Datum],
) -> Result<(&'a FrameState, &'a [Datum]), ErrorCode>
    ensures { (answer : FrameNow → Asks) → of_frame (frames_at (state_now state.now)) answer
        (meanings content.now) ≡ by_asked frame_now answer result }
{
    match frames_asked(state, content) {
        Ok((frames, rest)) => frame_among(frames, rest),
        Err(error) => Err(error),
    }
}

/// The one of these frames that the data name first.
fn frame_among<'a>(
    frames: &'a [FrameState],
    content: &'a [Datum],
) -> Result<(&'a FrameState, &'a [Datum]), ErrorCode>
    ensures { (answer : FrameNow → Asks) → of_frame_in answer (map frame_now frames.now)
        (meanings content.now) ≡ by_asked frame_now answer result }
{
    match content {
        [Datum::One(Scalar::FrameId(id)), rest @ ..] => match frame_of(frames, *id) {
            Some(frame) => Ok((frame, rest)),
            None => Err(ErrorCode::INVALID_FRAMEID),
        },
        _ => Err(ErrorCode::ILLEGAL_ARGUMENT),
    }
}
