//! The commands of the set ClassObjectReference (JDWP specification, "Protocol Details").
ghost use Rattle.std.specs.Prelude.{◌≡◌};
ghost use Rattle.jdwp_layout.specs.Rows.{found_row, look_up};
ghost use Rattle.jdwp_layout.specs.CommandTable.{class_object_reference_rows};

use crate::command::CommandRow;
use crate::row_macros::starred;

static REFLECTED_TYPE: CommandRow =
    starred!(ClassObjectReference.ReflectedType: [ObjectId] => [Byte, ReferenceTypeId]);

/// The row of a command of the set ClassObjectReference.
pub(crate) fn row_of(command: u8) -> Option<&'static CommandRow>
    ensures { found_row result ≡ look_up command class_object_reference_rows }
{
    match command {
        1 => Some(&REFLECTED_TYPE),
        _ => None,
    }
}
