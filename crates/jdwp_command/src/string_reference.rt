//! The commands of the set StringReference (JDWP specification, "Protocol Details").
ghost use Rattle.std.specs.Prelude.{IfOk};
ghost use Rattle.jdwp_layout.specs.CommandNumbers as commands;
ghost use Rattle.jdwp_command.specs.Asks.{Asks};
ghost use Rattle.jdwp_command.specs.Contents.{of_object};

use crate::made::about_object;
use jdwp_layout::numbers::{STRING_REFERENCE, STRING_VALUE};
use jdwp_mirror::Command;
use jdwp_value::ObjectId;
use jdwp_wire::NoMemory;
use std::alloc::Global;

/// StringReference.Value: the characters of a string. The reply is a text.
///
/// # Errors
/// `NoMemory` where an allocation was refused.
pub fn value(alloc: Global, string: ObjectId) -> Result<Command, NoMemory>
    ensures { IfOk result (Asks commands.STRING_VALUE (of_object string)) }
{
    about_object(alloc, STRING_REFERENCE, STRING_VALUE, string)
}
