//! What ids name: classes, methods, fields, objects, groups, threads, modules and frames.
ghost use Rattle.std.specs.Prelude.{◌≡◌, map, option_map};
ghost use Rattle.jdwp_script.specs.Parts.{FieldPart};
ghost use Rattle.jdwp_script.specs.Meanings.{field_part, method_part, class_part, object_part, group_part, thread_part, module_part, script_part};
ghost use Rattle.jdwp_script_machine.specs.LookUps.{with_id};
ghost use Rattle.jdwp_script_machine.specs.Found.{found};
ghost use Rattle.jdwp_script_machine.specs.StateMeanings.{frame_now, thread_now, state_now};
ghost use Rattle.jdwp_script_machine.specs.SlotWrites.{frame_in};
ghost use Rattle.jdwp_script_machine.specs.Sites.{is_known, class_in, method_in, object_at, group_in, thread_in, module_in};
ghost use Rattle.jdwp_script_machine.specs.States.{thread_at};
ghost use Rattle.jdwp_script_machine.specs.ThreadAnswers.{frames_at};

use crate::look_ups::with_id;
use crate::state::{FrameState, MachineState, ThreadState};
use jdwp_script::{Class, Field, Group, Method, Module, Object, Script, Thread};
use jdwp_value::{FieldId, FrameId, MethodId, ObjectId, ReferenceTypeId};

/// The class of this id.
pub(crate) fn class_of(script: &Script, id: ReferenceTypeId) -> Option<&Class>
    ensures { option_map class_part (found result) ≡ class_in (script_part script.now) id.0 }
{
    with_id(&script.classes, id.0)
}

/// The method of this id that a class has.
pub(crate) fn method_of(class: &Class, id: MethodId) -> Option<&Method>
    ensures { option_map method_part (found result) ≡ method_in (class_part class.now) id.0 }
{
    with_id(&class.methods, id.0)
}

/// The field of this id that a class has.
pub(crate) fn field_of(class: &Class, id: FieldId) -> Option<&Field>
    ensures { option_map field_part (found result) ≡ with_id (λ (f : FieldPart).
        f.id) id.0 (class_part class.now).fields }
{
    with_id(&class.fields, id.0)
}

/// The object of this id, of the script or made.
pub(crate) fn object_of(state: &MachineState, id: ObjectId) -> Option<&Object>
    ensures { option_map object_part (found result) ≡ object_at (state_now state.now) id.0 }
{
    match with_id(&state.script.objects, id.0) {
        Some(object) => Some(object),
        None => with_id(&state.made, id.0),
    }
}

/// The thread group of this id.
pub(crate) fn group_of(script: &Script, id: ObjectId) -> Option<&Group>
    ensures { option_map group_part (found result) ≡ group_in (script_part script.now) id.0 }
{
    with_id(&script.groups, id.0)
}

/// The thread of this id, as the script has it.
pub(crate) fn thread_of(script: &Script, id: ObjectId) -> Option<&Thread>
    ensures { option_map thread_part (found result) ≡ thread_in (script_part script.now) id.0 }
{
    with_id(&script.threads, id.0)
}

/// The module of this id.
pub(crate) fn module_of(script: &Script, id: ObjectId) -> Option<&Module>
    ensures { option_map module_part (found result) ≡ module_in (script_part script.now) id.0 }
{
    with_id(&script.modules, id.0)
}

/// The thread of this id, as it is now.
pub(crate) fn thread_state_of(state: &MachineState, id: ObjectId) -> Option<&ThreadState>
    ensures { option_map thread_now (found result) ≡ thread_at (state_now state.now) id.0 }
{
    with_id(&state.threads, id.0)
}

/// The frames of a thread, the newest first.
pub(crate) fn frames_of(state: &MachineState, thread: ObjectId) -> Option<&[FrameState]>
    ensures { option_map (map frame_now) (found result) ≡ frames_at (state_now state.now) thread.0 }
{
    match with_id(&state.threads, thread.0) {
        Some(thread) => Some(&thread.frames),
        None => None,
    }
}

/// The frame of this id among these.
pub(crate) fn frame_of(frames: &[FrameState], id: FrameId) -> Option<&FrameState>
    ensures { option_map frame_now (found result) ≡ frame_in id.0 (map frame_now frames.now) }
{
    with_id(frames, id.0)
}

/// Whether an id is that of an object, a thread or a group.
pub(crate) fn is_known(state: &MachineState, id: ObjectId) -> bool
    ensures { result ≡ is_known (state_now state.now) id.0 }
{
    object_of(state, id).is_some()
        || thread_of(&state.script, id).is_some()
        || group_of(&state.script, id).is_some()
}
