//! The commands of the set Event (JDWP specification, "Protocol Details").
ghost use Rattle.std.specs.Prelude.{◌≡◌};
ghost use Rattle.jdwp_layout.specs.Rows.{found_row, look_up};
ghost use Rattle.jdwp_layout.specs.CommandTable.{event_rows};

use crate::command::CommandRow;
use crate::row_macros::answered;

static COMPOSITE: CommandRow = answered!(Event.Composite: [Byte, events] => []);

/// The row of a command of the set Event.
pub(crate) fn row_of(command: u8) -> Option<&'static CommandRow>
    ensures { found_row result ≡ look_up command event_rows }
{
    match command {
        100 => Some(&COMPOSITE),
        _ => None,
    }
}
