//! The commands of the set ThreadGroupReference (JDWP specification, "Protocol Details").
ghost use Rattle.std.specs.Prelude.{◌≡◌};
ghost use Rattle.jdwp_layout.specs.Rows.{found_row, look_up};
ghost use Rattle.jdwp_layout.specs.CommandTable.{thread_group_reference_rows};

use crate::command::CommandRow;
use crate::row_macros::answered;

static NAME: CommandRow = answered!(ThreadGroupReference.Name: [ObjectId] => [String]);

static PARENT: CommandRow = answered!(ThreadGroupReference.Parent: [ObjectId] => [ObjectId]);

static CHILDREN: CommandRow =
    answered!(ThreadGroupReference.Children: [ObjectId] => [list(ObjectId), list(ObjectId)]);

/// The row of a command of the set ThreadGroupReference.
pub(crate) fn row_of(command: u8) -> Option<&'static CommandRow>
    ensures { found_row result ≡ look_up command thread_group_reference_rows }
{
    match command {
        1 => Some(&NAME),
        2 => Some(&PARENT),
        3 => Some(&CHILDREN),
        _ => None,
    }
}
