//! The lines of a plan.
ghost use Rattle.std.specs.Prelude.{◌≡◌, ◌&&◌, false, IfErr, IfOk, OnOk, is_some, length, nat_le, not};
ghost use Rattle.jdwp_debugger.specs.Debuggers.{has_tickets};
ghost use Rattle.jdwp_pair.specs.Calls.{at};
ghost use Rattle.jdwp_pair.specs.Connections.{disconnects};
ghost use Rattle.jdwp_pair.specs.Followers.{Followed};
ghost use Rattle.jdwp_pair.specs.Lines.{CarriesOut, EndsAtNext, EndsLine, TakesLine, counted_behind, is_due};

use crate::asking::{Asked, ask_line};
use crate::connection::Connection;
use crate::ended::PairEnded;
use crate::happening::attach;
use crate::losing::{lose_debugger, lose_target};
use crate::run::Run;
use crate::standing::{awaits_answers, may_begin};
use crate::telling::tell_known;
use jdwp_attach::PlanLine;
use jdwp_debugger::Debugger;
use jdwp_end::Pipe;
use jdwp_link::Link;
use jdwp_machine::Machine;
use std::alloc::Global;

/// Carries out the next line of the plan, if there is one and it can be done now. Whether it was.
///
/// # Errors
/// Why the run ends: `RefusedLine` where a command is not asked; `LostByWrite` where a write failed; `NoMemory` where an allocation was
/// refused; `LostConnection`.
pub(crate) fn next_line<M: Machine + Drop, C: Connection, W: Pipe>(
    alloc: Global,
    link: &mut Link<M>,
    connection: &mut C,
    plan: &[PlanLine],
    out: &mut W,
    run: &mut Run,
) -> Result<bool, PairEnded>
    requires works { is_some (C.failed_by connection.old) ≡ false }
    requires followed { Followed M.meaning run.old.order link.old run.old.follower }
    ensures takes { IfOk result (λ taken. TakesLine M.meaning plan.now
        (at link.old run.old (W.story out.old)) taken (at link.new run.new (W.story out.new))) }
    ensures ends { IfErr result (λ ended. EndsAtNext M.meaning plan.now ended
        (at link.old run.old (W.story out.old)) link.new (W.story out.new)) }
    ensures followed { OnOk result
        (Followed M.meaning run.new.order link.new run.new.follower) }
    ensures failed { is_some (C.failed_by connection.new) ≡ disconnects result }
{
    if !run.begun || run.carried >= plan.len() {
        return Ok(false);
    }
    let line = &plan[run.carried];
    if !is_due(link, line, run.composites) {
        return Ok(false);
    }
    let place = run.carried + 1;
    match carry_out(alloc, link, connection, line, out, run, place) {
        Ok(()) => {
            run.carried = place;
            Ok(true)
        }
        Err(ended) => Err(ended),
    }
}

/// Whether a line can be carried out now, so many composites having been read in the session.
fn is_due<M: Machine + Drop>(link: &Link<M>, line: &PlanLine, composites: u64) -> bool
    ensures { result ≡ is_due M.meaning line.now composites link.now }
{
    let debugger = link.debugger();
    match line {
        PlanLine::Ask { .. } => debugger.sizes().is_some() || !debugger.is_open(),
        PlanLine::Answers => !awaits_answers(debugger),
        PlanLine::Events(count) => composites >= u64::from(*count),
        PlanLine::Mirror | PlanLine::LoseTarget | PlanLine::LoseDebugger => true,
        PlanLine::Attach => may_begin(link),
    }
}

/// Carries out the line at this place of the plan, counted from 1.
///
/// # Errors
/// Those of `next_line`.
fn carry_out<M: Machine + Drop, C: Connection, W: Pipe>(
    alloc: Global,
    link: &mut Link<M>,
    connection: &mut C,
    line: &PlanLine,
    out: &mut W,
    run: &mut Run,
    place: usize,
) -> Result<(), PairEnded>
    requires works { is_some (C.failed_by connection.old) ≡ false }
    requires followed { Followed M.meaning run.old.order link.old run.old.follower }
    ensures carries { OnOk result (CarriesOut M.meaning run.old.order line.now link.old
        (W.story out.old) link.new (W.story out.new)) }
    ensures ends { IfErr result (λ ended. EndsLine M.meaning run.old.order line.now place ended
        link.old (W.story out.old) link.new (W.story out.new)) }
    ensures counts { OnOk result (run.new ≡ record run.old {
      composites = counted_behind line.now
          run.old.composites;
      follower = run.new.follower;
    }) }
    ensures followed { OnOk result
        (Followed M.meaning run.new.order link.new run.new.follower) }
    ensures failed { is_some (C.failed_by connection.new) ≡ disconnects result }
{
    match line {
        PlanLine::Ask { set, number, data } => {
            let asked = Asked {
                set: *set,
                number: *number,
                data,
            };
            ask_line(alloc, link, connection, &mut run.follower, place, asked)
        }
        PlanLine::Answers | PlanLine::Events(_) => Ok(()),
        PlanLine::Mirror => tell_known(alloc, link, &run.follower, out),
        PlanLine::LoseTarget => lose_target(link, connection),
        PlanLine::LoseDebugger => { lose_debugger(alloc, link, connection, &mut run.follower, out) }
        PlanLine::Attach => match attach(link, connection, &mut run.follower) {
            Ok(()) => {
                run.composites = 0;
                Ok(())
            }
            Err(ended) => Err(ended),
        },
    }
}

/// Whether the plan is finished: all of its lines were carried out, and no command waits for its answer.
pub(crate) fn is_finished(debugger: &Debugger, plan: &[PlanLine], run: &Run) -> bool
    ensures { result ≡ (run.now.begun && (nat_le (length plan.now) run.now.carried
        && not (has_tickets debugger.now.pending))) }
{
    if !run.begun || run.carried < plan.len() {
        return false;
    }
    !awaits_answers(debugger)
}
