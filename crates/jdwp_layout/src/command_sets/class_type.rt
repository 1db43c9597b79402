//! The commands of the set ClassType (JDWP specification, "Protocol Details").
ghost use Rattle.std.specs.Prelude.{◌≡◌};
ghost use Rattle.jdwp_layout.specs.Rows.{found_row, look_up};
ghost use Rattle.jdwp_layout.specs.CommandTable.{class_type_rows};

use crate::command::CommandRow;
use crate::row_macros::{answered, raw};

static SUPERCLASS: CommandRow =
    answered!(ClassType.Superclass: [ReferenceTypeId] => [ReferenceTypeId]);

static SET_VALUES: CommandRow = raw!(ClassType.SetValues);

static INVOKE_METHOD: CommandRow = raw!(ClassType.InvokeMethod);

static NEW_INSTANCE: CommandRow = raw!(ClassType.NewInstance);

/// The row of a command of the set ClassType.
pub(crate) fn row_of(command: u8) -> Option<&'static CommandRow>
    ensures { found_row result ≡ look_up command class_type_rows }
{
    match command {
        1 => Some(&SUPERCLASS),
        2 => Some(&SET_VALUES),
        3 => Some(&INVOKE_METHOD),
        4 => Some(&NEW_INSTANCE),
        _ => None,
    }
}
