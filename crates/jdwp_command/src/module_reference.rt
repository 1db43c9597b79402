//! The commands of the set ModuleReference (JDWP specification, "Protocol Details").
ghost use Rattle.std.specs.Prelude.{IfOk};
ghost use Rattle.jdwp_layout.specs.CommandNumbers as commands;
ghost use Rattle.jdwp_command.specs.Asks.{Asks};
ghost use Rattle.jdwp_command.specs.Contents.{of_object};

use crate::made::about_object;
use jdwp_layout::numbers::{MODULE_CLASS_LOADER, MODULE_NAME, MODULE_REFERENCE};
use jdwp_mirror::Command;
use jdwp_value::ObjectId;
use jdwp_wire::NoMemory;
use std::alloc::Global;

/// ModuleReference.Name of a module. The reply is a text.
///
/// # Errors
/// `NoMemory` where an allocation was refused.
pub fn name(alloc: Global, module: ObjectId) -> Result<Command, NoMemory>
    ensures { IfOk result (Asks commands.MODULE_NAME (of_object «module»)) }
{
    about_object(alloc, MODULE_REFERENCE, MODULE_NAME, module)
}

/// ModuleReference.ClassLoader of a module. The reply is an object id, 0 for the bootstrap loader.
///
/// # Errors
/// `NoMemory` where an allocation was refused.
pub fn class_loader(alloc: Global, module: ObjectId) -> Result<Command, NoMemory>
    ensures { IfOk result (Asks commands.MODULE_CLASS_LOADER (of_object «module»)) }
{
    about_object(alloc, MODULE_REFERENCE, MODULE_CLASS_LOADER, module)
}
