//! The commands of the set ClassType (JDWP specification, "Protocol Details").
ghost use Rattle.std.specs.Prelude.{IfOk};
ghost use Rattle.jdwp_layout.specs.CommandNumbers as commands;
ghost use Rattle.jdwp_command.specs.Asks.{Asks};
ghost use Rattle.jdwp_command.specs.Contents.{of_class};

use crate::made::about_class;
use jdwp_layout::numbers::{CLASS_TYPE, SUPERCLASS};
use jdwp_mirror::Command;
use jdwp_value::ReferenceTypeId;
use jdwp_wire::NoMemory;
use std::alloc::Global;

/// ClassType.Superclass of a class. The reply is a class id, 0 where there is none.
///
/// # Errors
/// `NoMemory` where an allocation was refused.
pub fn superclass(alloc: Global, class: ReferenceTypeId) -> Result<Command, NoMemory>
    ensures { IfOk result (Asks commands.SUPERCLASS (of_class class)) }
{
    about_class(alloc, CLASS_TYPE, SUPERCLASS, class)
}
