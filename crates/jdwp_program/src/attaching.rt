//! Sessions of a debugger by a plan, over any reader and writer and what is printed to.
ghost use Rattle.std.specs.Prelude.{◌≡◌, List, map, IfOk, IfErr, OnErr};
ghost use Rattle.std.specs.Str.Lines.{lines};
ghost use Rattle.jdwp_end.specs.Streams.{story_of};
ghost use Rattle.jdwp_attach.specs.declared.plans.plan_line.PlanLine as declared;
ghost use Rattle.jdwp_attach.specs.PlanLines.{said_by};
ghost use Rattle.jdwp_attach.specs.Plans.{BeginsNoSession, SaysForAttach};
ghost use Rattle.jdwp_program.specs.Attaching.{AttachesNew, begun};

use jdwp_attach::{Attached, PlanFault, PlanLine, attach_by_lines, read_attach_plan};
use jdwp_debugger::{Debugger, Order};
use jdwp_end::{Pipe, Streams};
use jdwp_wire::Limits;
use std::alloc::Global;
use std::io::{Read, Write};

/// Runs one session of a new debugger within these limits, of a target that sends in this order, by the plan that a text is, for at most so
/// many turns, as `attach_by_lines` does.
/// What the debugger reads and what the plan asks to be told of it is printed on `out`.
///
/// # Errors
/// The first fault of the plan, which a line of `pair` alone is, too, or `NoMemory` where an allocation was refused; and then nothing was
/// read, written or printed.
pub fn attach_plan<R: Read, W: Write, O: Pipe>(
    alloc: Global,
    limits: Limits,
    order: Order,
    plan: &str,
    pipe: &mut Streams<R, W>,
    out: &mut O,
    turns: u32,
) -> Result<Attached, PlanFault>
    ensures ran { IfOk result (λ how. (lines_of : List declared.PlanLine)
        × SaysForAttach (lines plan.now) (map said_by lines_of)
        × AttachesNew lines_of (begun limits order turns (story_of pipe.old) (O.story out.old))
        (story_of pipe.new) (O.story out.new) how) }
    ensures fault { IfErr result (BeginsNoSession (lines plan.now)) }
    ensures untouched { OnErr result (pipe.new ≡ pipe.old) }
    ensures unprinted { OnErr result (out.new ≡ out.old) }
{
    let plan = read_attach_plan(alloc, plan)?;
    attach_session(alloc, limits, order, plan.as_slice(), pipe, out, turns).map_err(
        |_| PlanFault::NoMemory,
    )
}

/// Runs one session of a new debugger within these limits, of a target that sends in this order, by the plan for at most so many turns, as
/// `attach_by_lines` does, and prints on `out`.
///
/// # Errors
/// `NoMemory`, and then nothing was read, written or printed.
pub fn attach_session<R: Read, W: Write, O: Pipe>(
    alloc: Global,
    limits: Limits,
    order: Order,
    plan: &[PlanLine],
    pipe: &mut Streams<R, W>,
    out: &mut O,
    turns: u32,
) -> Result<Attached, jdwp_wire::NoMemory>
    ensures ran { IfOk result (AttachesNew plan.now (begun limits order turns (story_of pipe.old)
        (O.story out.old)) (story_of pipe.new) (O.story out.new)) }
    ensures untouched { OnErr result (pipe.new ≡ pipe.old) }
    ensures unprinted { OnErr result (out.new ≡ out.old) }
{
    let mut debugger = Debugger::with_order(alloc, 1, limits, order)?;
    let turns = u64::from(turns);
    Ok(attach_by_lines(alloc, &mut debugger, pipe, plan, out, turns))
}
