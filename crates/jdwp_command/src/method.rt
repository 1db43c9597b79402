//! The commands of the set Method (JDWP specification, "Protocol Details").
ghost use Rattle.std.specs.Prelude.{IfOk};
ghost use Rattle.jdwp_layout.specs.CommandNumbers as commands;
ghost use Rattle.jdwp_command.specs.Asks.{Asks};
ghost use Rattle.jdwp_command.specs.Contents.{of_method};

use crate::made::about_method;
use jdwp_layout::numbers::{IS_OBSOLETE, LINE_TABLE, VARIABLE_TABLE, VARIABLE_TABLE_WITH_GENERIC};
use jdwp_mirror::Command;
use jdwp_value::{MethodId, ReferenceTypeId};
use jdwp_wire::NoMemory;
use std::alloc::Global;

/// Method.LineTable of a method. The reply is its first and last index, two longs, and a list of indexes and lines.
///
/// # Errors
/// `NoMemory` where an allocation was refused.
pub fn line_table(
    alloc: Global,
    class: ReferenceTypeId,
    method: MethodId,
) -> Result<Command, NoMemory>
    ensures { IfOk result (Asks commands.LINE_TABLE (of_method class method)) }
{
    about_method(alloc, LINE_TABLE, class, method)
}

/// Method.VariableTable of a method. The reply is how many slots its arguments take, and a list of indexes, names, signatures, lengths and
/// slots.
///
/// # Errors
/// `NoMemory` where an allocation was refused.
pub fn variable_table(
    alloc: Global,
    class: ReferenceTypeId,
    method: MethodId,
) -> Result<Command, NoMemory>
    ensures { IfOk result (Asks commands.VARIABLE_TABLE (of_method class method)) }
{
    about_method(alloc, VARIABLE_TABLE, class, method)
}

/// Method.IsObsolete: whether a method was replaced by another. The reply is a boolean.
///
/// # Errors
/// `NoMemory` where an allocation was refused.
pub fn is_obsolete(
    alloc: Global,
    class: ReferenceTypeId,
    method: MethodId,
) -> Result<Command, NoMemory>
    ensures { IfOk result (Asks commands.IS_OBSOLETE (of_method class method)) }
{
    about_method(alloc, IS_OBSOLETE, class, method)
}

/// Method.VariableTableWithGeneric of a method. The reply is how many slots its arguments take, and a list of indexes, names, signatures,
/// generic signatures, lengths and slots.
///
/// # Errors
/// `NoMemory` where an allocation was refused.
pub fn variable_table_with_generic(
    alloc: Global,
    class: ReferenceTypeId,
    method: MethodId,
) -> Result<Command, NoMemory>
    ensures { IfOk result (Asks commands.VARIABLE_TABLE_WITH_GENERIC (of_method class method)) }
{
    about_method(alloc, VARIABLE_TABLE_WITH_GENERIC, class, method)
}
