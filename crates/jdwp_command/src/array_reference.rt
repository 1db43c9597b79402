//! The commands of the set ArrayReference (JDWP specification, "Protocol Details").
ghost use Rattle.std.specs.Prelude.{IfOk};
ghost use Rattle.jdwp_layout.specs.CommandNumbers as commands;
ghost use Rattle.jdwp_command.specs.Asks.{Asks};
ghost use Rattle.jdwp_command.specs.Contents.{of_object, of_range};

use crate::made::{about_object, about_range};
use jdwp_layout::numbers::{ARRAY_LENGTH, ARRAY_REFERENCE, GET_ELEMENTS};
use jdwp_mirror::Command;
use jdwp_value::ObjectId;
use jdwp_wire::NoMemory;
use std::alloc::Global;

/// ArrayReference.Length of an array. The reply is an int.
///
/// # Errors
/// `NoMemory` where an allocation was refused.
pub fn length(alloc: Global, array: ObjectId) -> Result<Command, NoMemory>
    ensures { IfOk result (Asks commands.ARRAY_LENGTH (of_object array)) }
{
    about_object(alloc, ARRAY_REFERENCE, ARRAY_LENGTH, array)
}

/// ArrayReference.GetValues: so many elements of an array, from the index `first` on, from 0. The reply is an array region.
///
/// # Errors
/// `NoMemory` where an allocation was refused.
pub fn get_values(
    alloc: Global,
    array: ObjectId,
    first: i32,
    length: i32,
) -> Result<Command, NoMemory>
    ensures { IfOk result (Asks commands.GET_ELEMENTS (of_range array first length)) }
{
    about_range(alloc, ARRAY_REFERENCE, GET_ELEMENTS, array, first, length)
}
