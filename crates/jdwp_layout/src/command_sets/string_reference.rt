//! The commands of the set StringReference (JDWP specification, "Protocol Details").
ghost use Rattle.std.specs.Prelude.{◌≡◌};
ghost use Rattle.jdwp_layout.specs.Rows.{found_row, look_up};
ghost use Rattle.jdwp_layout.specs.CommandTable.{string_reference_rows};

use crate::command::CommandRow;
use crate::row_macros::answered;

static VALUE: CommandRow = answered!(StringReference.Value: [ObjectId] => [String]);

/// The row of a command of the set StringReference.
pub(crate) fn row_of(command: u8) -> Option<&'static CommandRow>
    ensures { found_row result ≡ look_up command string_reference_rows }
{
    match command {
        1 => Some(&VALUE),
        _ => None,
    }
}
