//! The parts of a round in which bytes come to an end, and it handles them.
ghost use Rattle.std.specs.Prelude.{◌≡◌, false, IfErr, IfOk, OnOk, is_some};
ghost use Rattle.jdwp_pair.specs.Calls.{at};
ghost use Rattle.jdwp_pair.specs.Connections.{disconnects};
ghost use Rattle.jdwp_pair.specs.Followers.{Followed, KeepsUp};
ghost use Rattle.jdwp_pair.specs.Rounds.{ComesToDebugger, ComesToTarget, EndsMoving, EndsQuietly, PieceToDebugger, PieceToTarget, ReadsWhatComes, TurnsDebugger, TurnsTarget, Until};

use crate::connection::Connection;
use crate::ended::PairEnded;
use crate::following::{ask_due, feed_too, turn_too};
use crate::happening::{act, happen};
use crate::run::Run;
use crate::telling::{seen_in, tell_turn};
use jdwp_debugger::Debugger;
use jdwp_end::Pipe;
use jdwp_link::{Link, LinkEvent};
use jdwp_machine::Machine;
use jdwp_value::ObjectId;
use jdwp_wire::NoMemory;
use std::alloc::Global;

/// How many bytes come to an end at once at most.
const PIECE: usize = 4_096;

/// The target handles what comes to it, until there is nothing. Whether it handled a message.
///
/// # Errors
/// `NoMemory` where an allocation was refused; `LostConnection`.
pub(crate) fn run_target<M: Machine + Drop, C: Connection>(
    link: &mut Link<M>,
    connection: &mut C,
) -> Result<bool, PairEnded>
    requires { is_some (C.failed_by connection.old) ≡ false }
    ensures runs { IfOk result (λ handled. Until (TurnsTarget M.meaning) link.old handled link.new) }
    ensures ends { IfErr result (λ ended. EndsQuietly M.meaning ended link.old link.new) }
    ensures failed { is_some (C.failed_by connection.new) ≡ disconnects result }
{
    let mut handled = false;
    for _done in 0..u64::MAX {
        match turn_target(link, connection) {
            Ok(true) => handled = true,
            Ok(false) => return Ok(handled),
            Err(ended) => return Err(ended),
        }
    }
    Ok(handled)
}

/// All bytes under way come to the target, or as many as it has room for, and it handles what is in front of it. Whether it handled a message.
///
/// # Errors
/// Those of `run_target`.
fn turn_target<M: Machine + Drop, C: Connection>(
    link: &mut Link<M>,
    connection: &mut C,
) -> Result<bool, PairEnded>
    requires { is_some (C.failed_by connection.old) ≡ false }
    ensures turns { IfOk result (λ handled. TurnsTarget M.meaning link.old handled link.new) }
    ensures ends { IfErr result (λ ended. EndsQuietly M.meaning ended link.old link.new) }
    ensures failed { is_some (C.failed_by connection.new) ≡ disconnects result }
{
    match deliver_to_target(link, connection) {
        Ok(()) => {}
        Err(ended) => return Err(ended),
    }
    match act(link, connection, LinkEvent::TargetTurn) {
        Ok(()) => Ok(link.did()),
        Err(ended) => Err(ended),
    }
}

/// All bytes under way come to the target, or as many as it has room for.
fn deliver_to_target<M: Machine + Drop, C: Connection>(
    link: &mut Link<M>,
    connection: &mut C,
) -> Result<(), PairEnded>
    requires { is_some (C.failed_by connection.old) ≡ false }
    ensures comes { OnOk result (ComesToTarget M.meaning link.old link.new) }
    ensures ends { IfErr result (λ ended. EndsQuietly M.meaning ended link.old link.new) }
    ensures failed { is_some (C.failed_by connection.new) ≡ disconnects result }
{
    for _done in 0..u64::MAX {
        match piece_to_target(link, connection) {
            Ok(true) => {}
            Ok(false) => return Ok(()),
            Err(ended) => return Err(ended),
        }
    }
    Ok(())
}

/// A piece of the bytes under way comes to the target. Whether it was whole, so that more may be under way.
fn piece_to_target<M: Machine + Drop, C: Connection>(
    link: &mut Link<M>,
    connection: &mut C,
) -> Result<bool, PairEnded>
    ensures comes { IfOk result (λ whole. PieceToTarget M.meaning link.old whole link.new) }
    ensures ends { IfErr result (λ ended. EndsQuietly M.meaning ended link.old link.new) }
    ensures failed { is_some (C.failed_by connection.new) ≡ disconnects result }
{
    let room = link.target().room();
    match act(link, connection, LinkEvent::ToTarget(PIECE)) {
        Ok(()) => Ok(room.saturating_sub(link.target().room()) >= PIECE),
        Err(ended) => Err(ended),
    }
}

/// The debugger handles what comes to it, until there is nothing, and what it reads is printed. Whether it handled a message.
///
/// # Errors
/// Why the run ends: `Done` where the debugger read that the session is over; `LostByWrite` where a write failed; `NoMemory` where an
/// allocation was refused; `LostConnection`.
pub(crate) fn run_debugger<M: Machine + Drop, C: Connection, W: Pipe>(
    alloc: Global,
    link: &mut Link<M>,
    connection: &mut C,
    out: &mut W,
    run: &mut Run,
) -> Result<bool, PairEnded>
    requires works { is_some (C.failed_by connection.old) ≡ false }
    requires followed { Followed M.meaning run.old.order link.old run.old.follower }
    ensures runs { IfOk result (λ handled. Until (TurnsDebugger M.meaning)
        (at link.old run.old (W.story out.old)) handled (at link.new run.new (W.story out.new))) }
    ensures ends { IfErr result (λ ended. EndsMoving M.meaning ended
        (at link.old run.old (W.story out.old)) link.new (W.story out.new)) }
    ensures followed { OnOk result
        (Followed M.meaning run.new.order link.new run.new.follower) }
    ensures failed { is_some (C.failed_by connection.new) ≡ disconnects result }
{
    let mut handled = false;
    for _done in 0..u64::MAX {
        match turn_debugger(alloc, link, connection, out, run) {
            Ok(true) => handled = true,
            Ok(false) => return Ok(handled),
            Err(ended) => return Err(ended),
        }
    }
    Ok(handled)
}

/// A turn of the debugger, behind which the suspend count is asked that is due, if one is. Whether it handled a message.
///
/// # Errors
/// Those of `run_debugger`.
fn turn_debugger<M: Machine + Drop, C: Connection, W: Pipe>(
    alloc: Global,
    link: &mut Link<M>,
    connection: &mut C,
    out: &mut W,
    run: &mut Run,
) -> Result<bool, PairEnded>
    requires works { is_some (C.failed_by connection.old) ≡ false }
    requires followed { Followed M.meaning run.old.order link.old run.old.follower }
    ensures turns { IfOk result (λ handled. TurnsDebugger M.meaning
        (at link.old run.old (W.story out.old)) handled (at link.new run.new (W.story out.new))) }
    ensures ends { IfErr result (λ ended. EndsMoving M.meaning ended
        (at link.old run.old (W.story out.old)) link.new (W.story out.new)) }
    ensures followed { OnOk result
        (Followed M.meaning run.new.order link.new run.new.follower) }
    ensures failed { is_some (C.failed_by connection.new) ≡ disconnects result }
{
    let turned = match read_turn(alloc, link, connection, out, run) {
        Ok(turned) => turned,
        Err(ended) => return Err(ended),
    };
    let handled = turned.handled;
    if !handled {
        return Ok(false);
    }
    match ask_due(alloc, link, &mut run.follower, turned.due) {
        Ok(()) => Ok(true),
        Err(NoMemory) => Err(PairEnded::NoMemory),
    }
}

/// What came of a turn of the debugger.
#[derive(Clone, Copy)]
struct Turned {
    /// Whether it handled a message.
    handled: bool,
    /// The thread whose suspend count is due behind it, if one is.
    due: Option<ObjectId>,
}

/// All bytes under way come to the debugger, or as many as it has room for, it handles what is in front of it, and what it reads is printed
/// and counted; and the follower reads the same.
///
/// # Errors
/// Those of `run_debugger`.
fn read_turn<M: Machine + Drop, C: Connection, W: Pipe>(
    alloc: Global,
    link: &mut Link<M>,
    connection: &mut C,
    out: &mut W,
    run: &mut Run,
) -> Result<Turned, PairEnded>
    requires { is_some (C.failed_by connection.old) ≡ false }
    ensures turns { IfOk result (λ turned. ReadsWhatComes M.meaning
        (at link.old run.old (W.story out.old)) turned.handled
        (at link.new run.new (W.story out.new))) }
    ensures ends { IfErr result (λ ended. EndsMoving M.meaning ended
        (at link.old run.old (W.story out.old)) link.new (W.story out.new)) }
    ensures follows { OnOk result
        (KeepsUp M.meaning link.old run.old.follower link.new run.new.follower) }
    ensures order { run.new.order ≡ run.old.order }
    ensures failed { is_some (C.failed_by connection.new) ≡ disconnects result }
{
    match deliver_to_debugger(alloc, link, connection, &mut run.follower) {
        Ok(()) => {}
        Err(ended) => return Err(ended),
    }
    let was_open = link.debugger().is_open();
    let outcomes = match happen(link, connection, LinkEvent::DebuggerTurn) {
        Ok(outcomes) => outcomes,
        Err(ended) => return Err(ended),
    };
    if !link.did() {
        return Ok(Turned {
            handled: false,
            due: None,
        });
    }
    let due = match turn_too(alloc, &mut run.follower) {
        Ok(due) => due,
        Err(NoMemory) => return Err(PairEnded::NoMemory),
    };
    match tell_turn(alloc, link.debugger(), &outcomes, out) {
        Ok(()) => {}
        Err(ended) => return Err(ended),
    }
    if was_open && !link.debugger().is_open() {
        return Err(PairEnded::Done);
    }
    run.composites = run.composites.saturating_add(seen_in(&outcomes));
    Ok(Turned { handled: true, due })
}

/// All bytes under way come to the debugger, or as many as it has room for.
fn deliver_to_debugger<M: Machine + Drop, C: Connection>(
    alloc: Global,
    link: &mut Link<M>,
    connection: &mut C,
    follower: &mut Option<Debugger>,
) -> Result<(), PairEnded>
    requires { is_some (C.failed_by connection.old) ≡ false }
    ensures comes { OnOk result (ComesToDebugger M.meaning link.old link.new) }
    ensures ends { IfErr result (λ ended. EndsQuietly M.meaning ended link.old link.new) }
    ensures follows { OnOk result (KeepsUp M.meaning link.old follower.old link.new follower.new) }
    ensures failed { is_some (C.failed_by connection.new) ≡ disconnects result }
{
    for _done in 0..u64::MAX {
        match piece_to_debugger(alloc, link, connection, follower) {
            Ok(true) => {}
            Ok(false) => return Ok(()),
            Err(ended) => return Err(ended),
        }
    }
    Ok(())
}

/// A piece of the bytes under way comes to the debugger. Whether it was whole, so that more may be under way.
fn piece_to_debugger<M: Machine + Drop, C: Connection>(
    alloc: Global,
    link: &mut Link<M>,
    connection: &mut C,
    follower: &mut Option<Debugger>,
) -> Result<bool, PairEnded>
    requires { is_some (C.failed_by connection.old) ≡ false }
    ensures comes { IfOk result (λ whole. PieceToDebugger M.meaning link.old whole link.new) }
    ensures ends { IfErr result (λ ended. EndsQuietly M.meaning ended link.old link.new) }
    ensures follows { OnOk result (KeepsUp M.meaning link.old follower.old link.new follower.new) }
    ensures failed { is_some (C.failed_by connection.new) ≡ disconnects result }
{
    match feed_too(alloc, link, follower) {
        Ok(()) => {}
        Err(NoMemory) => return Err(PairEnded::NoMemory),
    }
    let room = link.debugger().room();
    match act(link, connection, LinkEvent::ToDebugger(PIECE)) {
        Ok(()) => Ok(room.saturating_sub(link.debugger().room()) >= PIECE),
        Err(ended) => Err(ended),
    }
}
