//! The commands of the set ThreadReference (JDWP specification, "Protocol Details").
ghost use Rattle.std.specs.Prelude.{◌≡◌};
ghost use Rattle.jdwp_layout.specs.Rows.{found_row, look_up};
ghost use Rattle.jdwp_layout.specs.CommandTable.{thread_reference_rows};

use crate::command::CommandRow;
use crate::row_macros::{answered, starred};

static NAME: CommandRow = answered!(ThreadReference.Name: [ObjectId] => [String]);

static SUSPEND: CommandRow = answered!(ThreadReference.Suspend: [ObjectId] => []);

static RESUME: CommandRow = answered!(ThreadReference.Resume: [ObjectId] => []);

static STATUS: CommandRow = answered!(ThreadReference.Status: [ObjectId] => [Int, Int]);

static THREAD_GROUP: CommandRow = answered!(ThreadReference.ThreadGroup: [ObjectId] => [ObjectId]);

static FRAMES: CommandRow =
    answered!(ThreadReference.Frames: [ObjectId, Int, Int] => [list(FrameId, Location)]);

static FRAME_COUNT: CommandRow = answered!(ThreadReference.FrameCount: [ObjectId] => [Int]);

static OWNED_MONITORS: CommandRow =
    starred!(ThreadReference.OwnedMonitors: [ObjectId] => [list(TaggedId)]);

static CURRENT_CONTENDED_MONITOR: CommandRow =
    starred!(ThreadReference.CurrentContendedMonitor: [ObjectId] => [TaggedId]);

static STOP: CommandRow = starred!(ThreadReference.Stop: [ObjectId, ObjectId] => []);

static INTERRUPT: CommandRow = starred!(ThreadReference.Interrupt: [ObjectId] => []);

static SUSPEND_COUNT: CommandRow = answered!(ThreadReference.SuspendCount: [ObjectId] => [Int]);

static OWNED_MONITORS_STACK_DEPTH_INFO: CommandRow =
    starred!(ThreadReference.OwnedMonitorsStackDepthInfo: [ObjectId] => [list(TaggedId, Int)]);

static FORCE_EARLY_RETURN: CommandRow =
    starred!(ThreadReference.ForceEarlyReturn: [ObjectId, Value] => []);

/// The row of a command of the set ThreadReference.
pub(crate) fn row_of(command: u8) -> Option<&'static CommandRow>
    ensures { found_row result ≡ look_up command thread_reference_rows }
{
    match command {
        1 => Some(&NAME),
        2 => Some(&SUSPEND),
        3 => Some(&RESUME),
        4 => Some(&STATUS),
        5 => Some(&THREAD_GROUP),
        6 => Some(&FRAMES),
        7 => Some(&FRAME_COUNT),
        8 => Some(&OWNED_MONITORS),
        9 => Some(&CURRENT_CONTENDED_MONITOR),
        10 => Some(&STOP),
        11 => Some(&INTERRUPT),
        12 => Some(&SUSPEND_COUNT),
        13 => Some(&OWNED_MONITORS_STACK_DEPTH_INFO),
        14 => Some(&FORCE_EARLY_RETURN),
        _ => None,
    }
}
