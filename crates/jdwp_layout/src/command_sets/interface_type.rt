//! The commands of the set InterfaceType (JDWP specification, "Protocol Details").
ghost use Rattle.std.specs.Prelude.{◌≡◌};
ghost use Rattle.jdwp_layout.specs.Rows.{found_row, look_up};
ghost use Rattle.jdwp_layout.specs.CommandTable.{interface_type_rows};

use crate::command::CommandRow;
use crate::row_macros::raw;

static INVOKE_METHOD: CommandRow = raw!(InterfaceType.InvokeMethod);

/// The row of a command of the set InterfaceType.
pub(crate) fn row_of(command: u8) -> Option<&'static CommandRow>
    ensures { found_row result ≡ look_up command interface_type_rows }
{
    match command {
        1 => Some(&INVOKE_METHOD),
        _ => None,
    }
}
