//! The commands of the set StackFrame (JDWP specification, "Protocol Details").
ghost use Rattle.std.specs.Prelude.{◌≡◌};
ghost use Rattle.jdwp_layout.specs.Rows.{found_row, look_up};
ghost use Rattle.jdwp_layout.specs.CommandTable.{stack_frame_rows};

use crate::command::CommandRow;
use crate::row_macros::{answered, starred};

static GET_VALUES: CommandRow =
    answered!(StackFrame.GetValues: [ObjectId, FrameId, list(Int, Byte)] => [list(Value)]);

static SET_VALUES: CommandRow =
    answered!(StackFrame.SetValues: [ObjectId, FrameId, list(Int, Value)] => []);

static THIS_OBJECT: CommandRow =
    answered!(StackFrame.ThisObject: [ObjectId, FrameId] => [TaggedId]);

static POP_FRAMES: CommandRow = starred!(StackFrame.PopFrames: [ObjectId, FrameId] => []);

/// The row of a command of the set StackFrame.
pub(crate) fn row_of(command: u8) -> Option<&'static CommandRow>
    ensures { found_row result ≡ look_up command stack_frame_rows }
{
    match command {
        1 => Some(&GET_VALUES),
        2 => Some(&SET_VALUES),
        3 => Some(&THIS_OBJECT),
        4 => Some(&POP_FRAMES),
        _ => None,
    }
}
