//! The commands of the set Method (JDWP specification, "Protocol Details").
ghost use Rattle.std.specs.Prelude.{◌≡◌};
ghost use Rattle.jdwp_layout.specs.Rows.{found_row, look_up};
ghost use Rattle.jdwp_layout.specs.CommandTable.{method_rows};

use crate::command::CommandRow;
use crate::row_macros::{answered, starred};

static LINE_TABLE: CommandRow =
    answered!(Method.LineTable: [ReferenceTypeId, MethodId] => [Long, Long, list(Long, Int)]);

static VARIABLE_TABLE: CommandRow =
    answered!(Method.VariableTable: [ReferenceTypeId, MethodId] => [Int, list(Long, String, String, Int, Int)]);

static BYTECODES: CommandRow =
    starred!(Method.Bytecodes: [ReferenceTypeId, MethodId] => [list(Byte)]);

static IS_OBSOLETE: CommandRow =
    answered!(Method.IsObsolete: [ReferenceTypeId, MethodId] => [Boolean]);

static VARIABLE_TABLE_WITH_GENERIC: CommandRow =
    answered!(Method.VariableTableWithGeneric: [ReferenceTypeId, MethodId] => [Int, list(Long, String, String, String, Int, Int)]);

/// The row of a command of the set Method.
pub(crate) fn row_of(command: u8) -> Option<&'static CommandRow>
    ensures { found_row result ≡ look_up command method_rows }
{
    match command {
        1 => Some(&LINE_TABLE),
        2 => Some(&VARIABLE_TABLE),
        3 => Some(&BYTECODES),
        4 => Some(&IS_OBSOLETE),
        5 => Some(&VARIABLE_TABLE_WITH_GENERIC),
        _ => None,
    }
}
