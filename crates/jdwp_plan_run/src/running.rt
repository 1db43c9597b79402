//! The run of a plan.
ghost use Rattle.jdwp_plan_run.specs.Runs.{Ends, begun};

use crate::carrying::{Run, carry_out};
use crate::ended::PlanEnded;
use jdwp_client::{Client, LimitedPipe};
use jdwp_end::Pipe;
use jdwp_plan::PlanLine;
use std::alloc::Global;

/// Carries the lines of a plan out in order, each once those before it are, and prints on `out` what is told: answers, the composites that
/// lines wait for, and what `mirror` tells. The session begins with the first line that asks or waits, and is open behind the last.
///
/// A line `timeout` limits each call of the client behind it, as far as the pipe can.
pub fn run_plan<P: LimitedPipe + Drop, W: Pipe>(
    alloc: Global,
    client: &mut Client<P>,
    plan: &[PlanLine],
    out: &mut W,
) -> PlanEnded
    ensures { Ends P.story (begun client.old (W.story out.old)) plan.now result client.new
        (W.story out.new) }
{
    let mut run = Run::new(alloc);
    for (index, line) in plan.iter().enumerate() {
        let may_end = run.may_end;
        match carry_out(alloc, client, out, &mut run, line) {
            Ok(()) => {}
            Err(stop) => {
                let line = index + 1;
                return PlanEnded::At {
                    line,
                    may_end,
                    stop,
                };
            }
        }
    }
    PlanEnded::Done
}
