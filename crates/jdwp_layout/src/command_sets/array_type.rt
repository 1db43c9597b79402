//! The commands of the set ArrayType (JDWP specification, "Protocol Details").
ghost use Rattle.std.specs.Prelude.{◌≡◌};
ghost use Rattle.jdwp_layout.specs.Rows.{found_row, look_up};
ghost use Rattle.jdwp_layout.specs.CommandTable.{array_type_rows};

use crate::command::CommandRow;
use crate::row_macros::raw;

static NEW_INSTANCE: CommandRow = raw!(ArrayType.NewInstance);

/// The row of a command of the set ArrayType.
pub(crate) fn row_of(command: u8) -> Option<&'static CommandRow>
    ensures { found_row result ≡ look_up command array_type_rows }
{
    match command {
        1 => Some(&NEW_INSTANCE),
        _ => None,
    }
}
