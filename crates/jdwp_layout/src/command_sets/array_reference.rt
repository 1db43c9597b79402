//! The commands of the set ArrayReference (JDWP specification, "Protocol Details").
ghost use Rattle.std.specs.Prelude.{◌≡◌};
ghost use Rattle.jdwp_layout.specs.Rows.{found_row, look_up};
ghost use Rattle.jdwp_layout.specs.CommandTable.{array_reference_rows};

use crate::command::CommandRow;
use crate::row_macros::{answered, raw};

static LENGTH: CommandRow = answered!(ArrayReference.Length: [ObjectId] => [Int]);

static GET_VALUES: CommandRow =
    answered!(ArrayReference.GetValues: [ObjectId, Int, Int] => [region]);

static SET_VALUES: CommandRow = raw!(ArrayReference.SetValues);

/// The row of a command of the set ArrayReference.
pub(crate) fn row_of(command: u8) -> Option<&'static CommandRow>
    ensures { found_row result ≡ look_up command array_reference_rows }
{
    match command {
        1 => Some(&LENGTH),
        2 => Some(&GET_VALUES),
        3 => Some(&SET_VALUES),
        _ => None,
    }
}
