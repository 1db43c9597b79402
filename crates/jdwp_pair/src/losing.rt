//! Losses of the connection.
ghost use Rattle.std.specs.Prelude.{◌≡◌, IfErr, OnOk, is_some};
ghost use Rattle.jdwp_model.specs.Events as events;
ghost use Rattle.jdwp_pair.specs.Connections.{disconnects, is_disconnected};
ghost use Rattle.jdwp_pair.specs.Events.{Happens};
ghost use Rattle.jdwp_pair.specs.Followers.{KeepsUp};
ghost use Rattle.jdwp_pair.specs.Lines.{EndsLosing, EndsLosingTarget, LosesDebugger};
ghost use Rattle.jdwp_pair.specs.PlanRuns.{LosesBoth};

use crate::connection::Connection;
use crate::ended::PairEnded;
use crate::following::lose_too;
use crate::happening::happen;
use crate::telling::tell_lost;
use jdwp_debugger::Debugger;
use jdwp_end::Pipe;
use jdwp_link::{Link, LinkEvent, Side};
use jdwp_machine::Machine;
use std::alloc::Global;

/// The target notices that the connection is lost, and closes its half.
///
/// # Errors
/// `NoMemory` where an allocation was refused; `LostConnection`.
pub(crate) fn lose_target<M: Machine + Drop, C: Connection>(
    link: &mut Link<M>,
    connection: &mut C,
) -> Result<(), PairEnded>
    ensures loses { OnOk result (Happens M.meaning events.TargetLoses link.old link.new) }
    ensures ends { IfErr result (λ ended. EndsLosingTarget M.meaning ended link.old link.new) }
    ensures failed { is_some (C.failed_by connection.new) ≡ disconnects result }
{
    let _told = match happen(link, connection, LinkEvent::TargetLoses) {
        Ok(told) => told,
        Err(ended) => return Err(ended),
    };
    connection.lose(Side::Target);
    Ok(())
}

/// The debugger notices that the connection is lost, and the follower, and closes its half; the tickets that are lost with it are printed.
///
/// # Errors
/// `LostByWrite` where a write failed; `NoMemory` where an allocation was refused; `LostConnection`.
pub(crate) fn lose_debugger<M: Machine + Drop, C: Connection, W: Pipe>(
    alloc: Global,
    link: &mut Link<M>,
    connection: &mut C,
    follower: &mut Option<Debugger>,
    out: &mut W,
) -> Result<(), PairEnded>
    ensures loses { OnOk result (LosesDebugger M.meaning link.old (W.story out.old) link.new
        (W.story out.new)) }
    ensures ends { IfErr result (λ ended. EndsLosing M.meaning ended link.old (W.story out.old)
        link.new (W.story out.new)) }
    ensures follows { OnOk result (KeepsUp M.meaning link.old follower.old link.new follower.new) }
    ensures failed { is_some (C.failed_by connection.new) ≡ disconnects result }
{
    lose_too(follower);
    let outcomes = match happen(link, connection, LinkEvent::DebuggerLoses) {
        Ok(outcomes) => outcomes,
        Err(ended) => return Err(ended),
    };
    connection.lose(Side::Debugger);
    tell_lost(alloc, &outcomes, out)
}

/// The debugger notices that the connection is lost, and then the target. How the run ends.
pub(crate) fn lose_both<M: Machine + Drop, C: Connection, W: Pipe>(
    alloc: Global,
    link: &mut Link<M>,
    connection: &mut C,
    follower: &mut Option<Debugger>,
    out: &mut W,
) -> PairEnded
    ensures loses { LosesBoth M.meaning result link.old (W.story out.old) link.new
        (W.story out.new) }
    ensures failed { is_some (C.failed_by connection.new) ≡ is_disconnected result }
{
    match lose_debugger(alloc, link, connection, follower, out) {
        Ok(()) => {}
        Err(ended) => return ended,
    }
    match lose_target(link, connection) {
        Ok(()) => PairEnded::Done,
        Err(ended) => ended,
    }
}
