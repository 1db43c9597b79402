//! The commands of the set EventRequest (JDWP specification, "Protocol Details").
ghost use Rattle.std.specs.Prelude.{◌≡◌};
ghost use Rattle.jdwp_layout.specs.Rows.{found_row, look_up};
ghost use Rattle.jdwp_layout.specs.CommandTable.{event_request_rows};

use crate::command::CommandRow;
use crate::row_macros::answered;

static SET: CommandRow = answered!(EventRequest.Set: [Byte, Byte, modifiers] => [Int]);

static CLEAR: CommandRow = answered!(EventRequest.Clear: [Byte, Int] => []);

static CLEAR_ALL_BREAKPOINTS: CommandRow = answered!(EventRequest.ClearAllBreakpoints: [] => []);

/// The row of a command of the set EventRequest.
pub(crate) fn row_of(command: u8) -> Option<&'static CommandRow>
    ensures { found_row result ≡ look_up command event_request_rows }
{
    match command {
        1 => Some(&SET),
        2 => Some(&CLEAR),
        3 => Some(&CLEAR_ALL_BREAKPOINTS),
        _ => None,
    }
}
