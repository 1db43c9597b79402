//! The commands of the set ThreadReference (JDWP specification, "Protocol Details").
ghost use Rattle.std.specs.Prelude.{IfOk};
ghost use Rattle.jdwp_layout.specs.CommandNumbers as commands;
ghost use Rattle.jdwp_command.specs.Asks.{Asks};
ghost use Rattle.jdwp_command.specs.Contents.{of_object, of_range};

use crate::made::{about_object, about_range};
use jdwp_layout::numbers::{
    FRAME_COUNT, FRAMES, RESUME_THREAD, SUSPEND_COUNT, SUSPEND_THREAD, THREAD_GROUP, THREAD_NAME,
    THREAD_REFERENCE, THREAD_STATUS,
};
use jdwp_mirror::Command;
use jdwp_value::ObjectId;
use jdwp_wire::NoMemory;
use std::alloc::Global;

/// ThreadReference.Name of a thread. The reply is a text.
///
/// # Errors
/// `NoMemory` where an allocation was refused.
pub fn name(alloc: Global, thread: ObjectId) -> Result<Command, NoMemory>
    ensures { IfOk result (Asks commands.THREAD_NAME (of_object thread)) }
{
    about_object(alloc, THREAD_REFERENCE, THREAD_NAME, thread)
}

/// ThreadReference.Suspend: a thread is suspended once more. The reply is empty.
///
/// # Errors
/// `NoMemory` where an allocation was refused.
pub fn suspend(alloc: Global, thread: ObjectId) -> Result<Command, NoMemory>
    ensures { IfOk result (Asks commands.SUSPEND_THREAD (of_object thread)) }
{
    about_object(alloc, THREAD_REFERENCE, SUSPEND_THREAD, thread)
}

/// ThreadReference.Resume: a thread is suspended once less. The reply is empty.
///
/// # Errors
/// `NoMemory` where an allocation was refused.
pub fn resume(alloc: Global, thread: ObjectId) -> Result<Command, NoMemory>
    ensures { IfOk result (Asks commands.RESUME_THREAD (of_object thread)) }
{
    about_object(alloc, THREAD_REFERENCE, RESUME_THREAD, thread)
}

/// ThreadReference.Status of a thread. The reply is two ints: its status, and 1 where it is suspended.
///
/// # Errors
/// `NoMemory` where an allocation was refused.
pub fn status(alloc: Global, thread: ObjectId) -> Result<Command, NoMemory>
    ensures { IfOk result (Asks commands.THREAD_STATUS (of_object thread)) }
{
    about_object(alloc, THREAD_REFERENCE, THREAD_STATUS, thread)
}

/// ThreadReference.ThreadGroup: the group of a thread. The reply is a group id.
///
/// # Errors
/// `NoMemory` where an allocation was refused.
pub fn thread_group(alloc: Global, thread: ObjectId) -> Result<Command, NoMemory>
    ensures { IfOk result (Asks commands.THREAD_GROUP (of_object thread)) }
{
    about_object(alloc, THREAD_REFERENCE, THREAD_GROUP, thread)
}

/// ThreadReference.Frames of a suspended thread, from the newest on: from the frame of index `start` on, from 0, and as many as `length`
/// says, or the rest where it is -1. The reply is a list of frame ids and locations.
///
/// # Errors
/// `NoMemory` where an allocation was refused.
pub fn frames(alloc: Global, thread: ObjectId, start: i32, length: i32) -> Result<Command, NoMemory>
    ensures { IfOk result (Asks commands.FRAMES (of_range thread start length)) }
{
    about_range(alloc, THREAD_REFERENCE, FRAMES, thread, start, length)
}

/// ThreadReference.FrameCount: how many frames a suspended thread has. The reply is an int.
///
/// # Errors
/// `NoMemory` where an allocation was refused.
pub fn frame_count(alloc: Global, thread: ObjectId) -> Result<Command, NoMemory>
    ensures { IfOk result (Asks commands.FRAME_COUNT (of_object thread)) }
{
    about_object(alloc, THREAD_REFERENCE, FRAME_COUNT, thread)
}

/// ThreadReference.SuspendCount: how often a thread is suspended. The reply is an int.
///
/// # Errors
/// `NoMemory` where an allocation was refused.
pub fn suspend_count(alloc: Global, thread: ObjectId) -> Result<Command, NoMemory>
    ensures { IfOk result (Asks commands.SUSPEND_COUNT (of_object thread)) }
{
    about_object(alloc, THREAD_REFERENCE, SUSPEND_COUNT, thread)
}
