//! The commands of the set StackFrame (JDWP specification, "Protocol Details").
ghost use Rattle.std.specs.Prelude.{IfOk};
ghost use Rattle.jdwp_layout.specs.CommandNumbers as commands;
ghost use Rattle.jdwp_command.specs.Asks.{Asks};
ghost use Rattle.jdwp_command.specs.Contents.{of_frame, of_slots, of_written};

use crate::entries::{slot_entries, written_entries};
use crate::made::made;
use jdwp_layout::numbers::{GET_SLOTS, SET_SLOTS, STACK_FRAME, THIS_OBJECT};
use jdwp_layout::{Datum, Scalar};
use jdwp_mirror::Command;
use jdwp_value::{FrameId, ObjectId, Tag, Value};
use jdwp_wire::NoMemory;
use std::alloc::Global;

/// StackFrame.GetValues: the values of slots of a frame, each of the tag that is asked. The reply is a list of values, in the order asked.
///
/// # Errors
/// `NoMemory` where an allocation was refused.
pub fn get_values(
    alloc: Global,
    thread: ObjectId,
    frame: FrameId,
    slots: &[(i32, Tag)],
) -> Result<Command, NoMemory>
    ensures { IfOk result (Asks commands.GET_SLOTS (of_slots thread frame slots.now)) }
{
    let entries = slot_entries(alloc, slots)?;
    let items = vec![in alloc;
        Datum::One(Scalar::ObjectId(thread)),
        Datum::One(Scalar::FrameId(frame)),
        Datum::Many(entries),
    ]?;
    Ok(made(STACK_FRAME, GET_SLOTS, items))
}

/// StackFrame.SetValues: slots of a frame get these values. The reply is empty.
///
/// # Errors
/// `NoMemory` where an allocation was refused.
pub fn set_values(
    alloc: Global,
    thread: ObjectId,
    frame: FrameId,
    values: &[(i32, Value)],
) -> Result<Command, NoMemory>
    ensures { IfOk result (Asks commands.SET_SLOTS (of_written thread frame values.now)) }
{
    let entries = written_entries(alloc, values)?;
    let items = vec![in alloc;
        Datum::One(Scalar::ObjectId(thread)),
        Datum::One(Scalar::FrameId(frame)),
        Datum::Many(entries),
    ]?;
    Ok(made(STACK_FRAME, SET_SLOTS, items))
}

/// StackFrame.ThisObject: the object whose method a frame runs. The reply is a tagged id, of null where there is none.
///
/// # Errors
/// `NoMemory` where an allocation was refused.
pub fn this_object(alloc: Global, thread: ObjectId, frame: FrameId) -> Result<Command, NoMemory>
    ensures { IfOk result (Asks commands.THIS_OBJECT (of_frame thread frame)) }
{
    let items = vec![in alloc;
        Datum::One(Scalar::ObjectId(thread)),
        Datum::One(Scalar::FrameId(frame)),
    ]?;
    Ok(made(STACK_FRAME, THIS_OBJECT, items))
}
