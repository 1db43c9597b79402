//! Plans in words, with the target in this process, too.
ghost use Rattle.std.specs.Prelude.{◌≡◌, IfOk, OnErr};
ghost use Rattle.std.specs.Io.KnownBytes.{Keeps};
ghost use Rattle.jdwp_target.specs.Options.{LivesWithin};
ghost use Rattle.jdwp_files.specs.Paired as spec;
ghost use Rattle.jdwp_files.specs.Paired.{IsToldOfPair, PairsWritten, PairsWrittenScript};

use crate::sessions::machine_of;
use crate::written::{keep_from_cases, outcome_of, plan_of, run_new, write_cases};
use jdwp_end::{Ended, Streams};
use jdwp_machine::Machine;
use jdwp_partner::{Partner, Standing};
use jdwp_plan::PlanLine;
use jdwp_plan_run::{PlanEnded, PlanVerdict};
use jdwp_program::{Awaited, Fault, Outcome, Pair, Watched, report_plan};
use std::alloc::Global;
use std::io;
use std::io::Write;
use std::rt::Files;

/// Runs the plan in words of this text as the debugger of the machine of the script of these bytes, over memory, and tells on `err` why it was not
/// carried out. The script is judged first.
///
/// # Errors
/// `File` where the script is not UTF-8, or the file of test cases is that of the script or the plan; `Script` or `Written` where one is
/// refused; `NoMemory`. Then nothing was printed.
pub(crate) fn pair_written<'a, R: Files + AllocGlobal, O: Write, E: Write>(
    rt: &R,
    words: &Pair<'a>,
    script: &[u8],
    text: &str,
    out: &mut O,
    err: &mut E,
) -> Result<Outcome<'a>, Fault<'a>>
    ensures ran { IfOk result (PairsWrittenScript words.now script.now text.now) }
    ensures unprinted { OnErr result (Keeps (O.contents out.old) (O.contents out.new)) }
{
    keep_from_cases(rt, words.junit, words.machine)?;
    keep_from_cases(rt, words.junit, words.plan)?;
    let machine = machine_of(rt.alloc(), words.machine, script, &words.settings)?;
    let plan = plan_of(rt.alloc(), words.plan, None, text)?;
    pair_lines(rt, words, machine, &plan, out, err)
}

/// Runs a plan in words as the debugger of a target over this machine, and tells how that ended.
///
/// # Errors
/// `NoMemory`. Then nothing was printed.
fn pair_lines<'a, R: Files + AllocGlobal, M: Machine + Drop, O: Write, E: Write>(
    rt: &R,
    words: &Pair<'a>,
    machine: M,
    plan: &[PlanLine],
    out: &mut O,
    err: &mut E,
) -> Result<Outcome<'a>, Fault<'a>>
    requires { LivesWithin M.meaning words.now.settings.limits machine }
    ensures ran { IfOk result (PairsWritten M.meaning words.now machine plan.now) }
    ensures unprinted { OnErr result (Keeps (O.contents out.old) (O.contents out.new)) }
{
    let alloc = rt.alloc();
    let limits = words.settings.limits();
    let partner = Partner::new(alloc, machine, words.settings, words.defer, words.turns)?;
    let mut printed = Streams::new(io::empty(), Watched::new(out));
    let run = run_new(alloc, limits, words.order, plan, partner, &mut printed)?;
    run.pipe.session();
    let standing = run.pipe.standing();
    let (_, output) = printed.into_parts();
    let verdict = run.ended.verdict();
    if !is_told_by(standing, verdict) {
        report_plan(alloc, &run.ended, err);
    }
    let are_written = write_cases(rt, words.plan, words.junit, plan, &run.ended, err);
    let told = outcome_of(verdict, are_written, limits, output.failure());
    Ok(with_standing(standing, plan, &run.ended, told))
}

/// Whether how the target stands tells why a plan came to this.
fn is_told_by(standing: Standing, verdict: PlanVerdict) -> bool {
    match standing {
        Standing::Goes => false,
        Standing::Still | Standing::AllUsed => verdict == PlanVerdict::NotMet,
        Standing::Refused(_) | Standing::NoMemory => true,
    }
}

/// What is told of a run that ended so and of which else this is told, where the target stands so: that nothing more can happen, or all rounds
/// were used, and which line waits; or why the target ended the session.
fn with_standing<'a>(
    standing: Standing,
    plan: &[PlanLine],
    ended: &PlanEnded,
    told: Outcome<'a>,
) -> Outcome<'a>
    ensures { IsToldOfPair standing plan.now ended.now told.entry result }
{
    match standing {
        Standing::Goes => told,
        Standing::Still => told_where_waiting(ended.verdict(), told, unreached(plan, ended)),
        Standing::AllUsed => told_where_waiting(ended.verdict(), told, used_up(plan, ended)),
        Standing::Refused(number) => Outcome::Session(Ended::Refused(number)),
        Standing::NoMemory => Outcome::Session(Ended::NoMemory),
    }
}

/// What is told where the target goes on no more: of a run that was not carried out, that it waits; of one that ended for another reason, that.
fn told_where_waiting<'a>(
    verdict: PlanVerdict,
    told: Outcome<'a>,
    waits: Outcome<'a>,
) -> Outcome<'a>
    ensures { result ≡ spec.told_where_waiting verdict told.entry waits.entry }
{
    match verdict {
        PlanVerdict::NotMet => waits,
        PlanVerdict::Met
        | PlanVerdict::Refused
        | PlanVerdict::NotPrinted
        | PlanVerdict::NoMemory
        | PlanVerdict::TooMuch => told,
    }
}

/// That all rounds were used, and the line at which a run ended so was not reached.
fn used_up<'a>(plan: &[PlanLine], ended: &PlanEnded) -> Outcome<'a>
    ensures { result ≡ spec.used_up plan.now ended.now }
{
    let line = line_of(plan, ended);
    Outcome::UsedUp(line, Awaited::at_written(plan, line))
}

/// That nothing more can happen, and the line at which a run ended so was not reached.
fn unreached<'a>(plan: &[PlanLine], ended: &PlanEnded) -> Outcome<'a>
    ensures { result ≡ spec.unreached plan.now ended.now }
{
    let line = line_of(plan, ended);
    Outcome::Unreached(line, Awaited::at_written(plan, line))
}

/// The line at which a run ended so, counted from 1, or one more than there are.
fn line_of(plan: &[PlanLine], ended: &PlanEnded) -> usize
    ensures { result ≡ spec.line_of plan.now ended.now }
{
    match ended {
        PlanEnded::Done => plan.len() + 1,
        PlanEnded::At { line, .. } => *line,
    }
}
