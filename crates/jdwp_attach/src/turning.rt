//! Turns of a run.
ghost use Rattle.std.specs.Prelude.{◌≡◌, ◌<◌, true, is_some, OnOk, IfErr};
ghost use Rattle.jdwp_end.specs.Ends.{is_open, room_of};
ghost use Rattle.jdwp_end.specs.Story.{flushed};
ghost use Rattle.jdwp_debugger.specs.DebuggerTurns.{read_meaning};
ghost use Rattle.jdwp_attach.specs.PlanRuns.{EndsFailed, EndsSo, IsByTurn, told_number};
ghost use Rattle.jdwp_attach.specs.PlanWaits.{Awaits, Counts, composites_of};
ghost use Rattle.jdwp_attach.specs.Runs.{Finishes, GoesOn, IsReady, LosesAtRead, PutsAndTells, ReadsMore, at};
ghost use Rattle.jdwp_attach.specs.Telling.{turn_lines};

use crate::due_counts::ask_due_count;
use crate::run::Run;
use crate::tell::turn_text;
use jdwp_debugger::{Debugger, DebuggerFault, Read};
use jdwp_end::{CHUNK, Ended, NoInput, Pipe, flush_all, read_and_feed, write_all, write_out};
use jdwp_wire::NoMemory;
use std::alloc::Global;

/// One turn, and if it handled nothing a flush and one read; else the suspend count that is due behind it is asked. What waits to leave is
/// written, and what was read is told.
///
/// # Errors
/// Why the run ends.
pub(crate) fn turn_once<P: Pipe, W: Pipe>(
    alloc: Global,
    debugger: &mut Debugger,
    pipe: &mut P,
    out: &mut W,
    run: &mut Run,
) -> Result<(), Ended>
    requires ready { IsReady debugger.old }
    requires counts { Counts run.old.composites run.old.left debugger.old }
    ensures goes { OnOk result (GoesOn (λ plan done. Awaits plan done debugger.old)
        (at (P.story pipe.old) (W.story out.old) debugger.old run.old.left)
        (at (P.story pipe.new) (W.story out.new) debugger.new run.new.left)) }
    ensures ready { OnOk result (IsReady debugger.new) }
    ensures known { OnOk result (is_some debugger.old.sizes ≡ true
        → is_some debugger.new.sizes ≡ true) }
    ensures left { OnOk result (run.new.left < run.old.left) }
    ensures counts { OnOk result (Counts run.new.composites run.new.left debugger.new) }
    ensures by_turn { IfErr result IsByTurn }
    ensures ends { IfErr result (EndsSo (λ plan done. Awaits plan done debugger.old)
        (at (P.story pipe.old) (W.story out.old) debugger.old run.old.left)
        (at (P.story pipe.new) (W.story out.new) debugger.new run.new.left)) }
{
    debugger.session();
    if run.left == 0 {
        return Err(Ended::TurnLimit);
    }
    run.left -= 1;
    let turn = match debugger.turn(alloc) {
        Ok(turn) => turn,
        Err(fault) => return Err(end_failed(debugger, fault)),
    };
    match turn {
        Read::Nothing => flush_and_read(debugger, pipe, &mut run.buffer),
        _ => {
            run.composites += composites_in(&turn);
            if let Err(NoMemory) = ask_due_count(alloc, debugger, &turn) {
                return Err(Ended::NoMemory);
            }
            tell(alloc, debugger, pipe, out, run, &turn)
        }
    }
}

/// How many composites a turn told of.
fn composites_in(turn: &Read) -> u64
    ensures { result ≡ composites_of (read_meaning turn.now) }
{
    match turn {
        Read::Sizes(composites) => composites.len() as u64,
        Read::Seen(_) => 1,
        Read::Nothing | Read::Hello | Read::Parked | Read::Answered(..) => 0,
    }
}

/// How the run ends at a turn that failed.
fn end_failed(debugger: &mut Debugger, fault: DebuggerFault) -> Ended
    ensures { EndsFailed fault debugger.old debugger.new result }
{
    match fault {
        DebuggerFault::NoMemory => Ended::NoMemory,
        DebuggerFault::Frame(_)
        | DebuggerFault::UnknownReply
        | DebuggerFault::BadReply
        | DebuggerFault::TooManyParked
        | DebuggerFault::BadEvent => {
            debugger.lose();
            Ended::Refused(told_number(fault))
        }
    }
}

/// The number by which a fault is told: that of the bytes' own fault, 1 to 4, or 42 to 46.
fn told_number(fault: DebuggerFault) -> u16
    ensures { result ≡ told_number fault }
{
    match fault {
        DebuggerFault::Frame(fault) => fault.number(),
        fault => fault.number(),
    }
}

/// Sees that all that was written leaves, and reads once.
///
/// # Errors
/// `LostByWrite` where the flush failed, and `LostByRead` where the read did.
fn flush_and_read<P: Pipe>(
    debugger: &mut Debugger,
    pipe: &mut P,
    buffer: &mut [u8; CHUNK],
) -> Result<(), Ended>
    requires { 0 < room_of debugger.old.end }
    ensures goes { OnOk result (ReadsMore debugger.old debugger.new (flushed (P.story pipe.old))
        (P.story pipe.new)) }
    ensures ends { IfErr result (λ ended. LosesAtRead ended debugger.old debugger.new
        (P.story pipe.old) (P.story pipe.new)) }
{
    if !flush_all(pipe) {
        debugger.lose();
        return Err(Ended::LostByWrite);
    }
    match read_and_feed(debugger, pipe, buffer) {
        Ok(()) => Ok(()),
        Err(NoInput) => {
            debugger.lose();
            Err(Ended::LostByRead)
        }
    }
}

/// Writes what waits, tells what a turn read, and ends where that closed the session.
fn tell<P: Pipe, W: Pipe>(
    alloc: Global,
    debugger: &mut Debugger,
    pipe: &mut P,
    out: &mut W,
    run: &mut Run,
    read: &Read,
) -> Result<(), Ended>
    ensures goes { OnOk result ((is_open debugger.old.end ≡ true)
        × PutsAndTells (turn_lines (read_meaning read.now) debugger.old.last debugger.old.sizes)
        (at (P.story pipe.old) (W.story out.old) debugger.old run.old.left) (at (P.story pipe.new)
        (W.story out.new) debugger.new run.new.left)) }
    ensures counts { run.new.composites ≡ run.old.composites }
    ensures ends { IfErr result (λ ended.
        Finishes ended (turn_lines (read_meaning read.now) debugger.old.last debugger.old.sizes)
        (at (P.story pipe.old) (W.story out.old) debugger.old run.old.left) (at (P.story pipe.new)
        (W.story out.new) debugger.new run.new.left)) }
{
    if !write_out(debugger, pipe) {
        debugger.lose();
        return Err(Ended::LostByWrite);
    }
    let Ok(text) = turn_text(alloc, debugger.last(), read, debugger.sizes()) else {
        return Err(Ended::NoMemory);
    };
    if !write_all(out, text.as_bytes()) {
        debugger.lose();
        return Err(Ended::LostByWrite);
    }
    if debugger.is_open() {
        Ok(())
    } else {
        debugger.lose();
        Err(Ended::Done)
    }
}
