//! The commands of the set ThreadGroupReference (JDWP specification, "Protocol Details").
ghost use Rattle.std.specs.Prelude.{IfOk};
ghost use Rattle.jdwp_layout.specs.CommandNumbers as commands;
ghost use Rattle.jdwp_command.specs.Asks.{Asks};
ghost use Rattle.jdwp_command.specs.Contents.{of_object};

use crate::made::about_object;
use jdwp_layout::numbers::{GROUP_CHILDREN, GROUP_NAME, GROUP_PARENT, THREAD_GROUP_REFERENCE};
use jdwp_mirror::Command;
use jdwp_value::ObjectId;
use jdwp_wire::NoMemory;
use std::alloc::Global;

/// ThreadGroupReference.Name of a thread group. The reply is a text.
///
/// # Errors
/// `NoMemory` where an allocation was refused.
pub fn name(alloc: Global, group: ObjectId) -> Result<Command, NoMemory>
    ensures { IfOk result (Asks commands.GROUP_NAME (of_object group)) }
{
    about_object(alloc, THREAD_GROUP_REFERENCE, GROUP_NAME, group)
}

/// ThreadGroupReference.Parent of a thread group. The reply is a group id, 0 where there is none.
///
/// # Errors
/// `NoMemory` where an allocation was refused.
pub fn parent(alloc: Global, group: ObjectId) -> Result<Command, NoMemory>
    ensures { IfOk result (Asks commands.GROUP_PARENT (of_object group)) }
{
    about_object(alloc, THREAD_GROUP_REFERENCE, GROUP_PARENT, group)
}

/// ThreadGroupReference.Children of a thread group. The reply is two lists, of thread ids and of group ids.
///
/// # Errors
/// `NoMemory` where an allocation was refused.
pub fn children(alloc: Global, group: ObjectId) -> Result<Command, NoMemory>
    ensures { IfOk result (Asks commands.GROUP_CHILDREN (of_object group)) }
{
    about_object(alloc, THREAD_GROUP_REFERENCE, GROUP_CHILDREN, group)
}
