//! The commands of the set ModuleReference (JDWP specification, "Protocol Details").
ghost use Rattle.std.specs.Prelude.{◌≡◌};
ghost use Rattle.jdwp_layout.specs.Rows.{found_row, look_up};
ghost use Rattle.jdwp_layout.specs.CommandTable.{module_reference_rows};

use crate::command::CommandRow;
use crate::row_macros::answered;

static NAME: CommandRow = answered!(ModuleReference.Name: [ObjectId] => [String]);

static CLASS_LOADER: CommandRow = answered!(ModuleReference.ClassLoader: [ObjectId] => [ObjectId]);

/// The row of a command of the set ModuleReference.
pub(crate) fn row_of(command: u8) -> Option<&'static CommandRow>
    ensures { found_row result ≡ look_up command module_reference_rows }
{
    match command {
        1 => Some(&NAME),
        2 => Some(&CLASS_LOADER),
        _ => None,
    }
}
