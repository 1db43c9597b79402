//! The commands of the set ClassLoaderReference (JDWP specification, "Protocol Details").
ghost use Rattle.std.specs.Prelude.{◌≡◌};
ghost use Rattle.jdwp_layout.specs.Rows.{found_row, look_up};
ghost use Rattle.jdwp_layout.specs.CommandTable.{class_loader_reference_rows};

use crate::command::CommandRow;
use crate::row_macros::starred;

static VISIBLE_CLASSES: CommandRow =
    starred!(ClassLoaderReference.VisibleClasses: [ObjectId] => [list(Byte, ReferenceTypeId)]);

/// The row of a command of the set ClassLoaderReference.
pub(crate) fn row_of(command: u8) -> Option<&'static CommandRow>
    ensures { found_row result ≡ look_up command class_loader_reference_rows }
{
    match command {
        1 => Some(&VISIBLE_CLASSES),
        _ => None,
    }
}
