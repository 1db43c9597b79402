//! Plans in words, over files and at a port.
ghost use Rattle.std.specs.Prelude.{◌≡◌, false, true, None, IfErr, IfOk, MatchOption, OnErr};
ghost use Rattle.std.specs.Io.KnownBytes.{Keeps};
ghost use Rattle.std.specs.Str.{IsUtf8};
ghost use Rattle.std.specs.Str.Lines.{lines};
ghost use Rattle.jdwp_plan.specs.Plans as plans;
ghost use Rattle.jdwp_files.specs.Written as written;
ghost use Rattle.jdwp_files.specs.Written.{AttachesWritten, IsPlanOf, IsToldOf, RefusesWritten, RunsNew, new_client};

use crate::files::{is_one_file, keep, streams};
use jdwp_attach::Attached;
use jdwp_client::{Client, LimitedPipe, Options};
use jdwp_client_port::Connection;
use jdwp_debugger::Order;
use jdwp_end::{Ended, Pipe, Streams};
use jdwp_plan::{PlanLine, read_written};
use jdwp_plan_run::{PlanEnded, PlanVerdict, Unlimited, junit_text, run_plan};
use jdwp_port::{PortFault, connect};
use jdwp_program::{
    Attach, Fault, FileCause, Outcome, SessionFiles, Watched, report_fault, report_plan,
};
use jdwp_wire::{Limits, NoMemory};
use std::alloc::Global;
use std::io::Write;
use std::net::Net;
use std::rt::{Clock, Files};
use std::{fs, io, str};

/// The text of the bytes of a file where its first line says that it is a plan in words.
pub(crate) fn written_text(bytes: &[u8]) -> Option<&str>
    ensures { MatchOption result (IsUtf8 bytes.now → plans.is_written (lines bytes.now) ≡ false)
        (λ text. (text.now ≡ bytes.now) × (plans.is_written (lines bytes.now) ≡ true)) }
{
    match str::from_utf8(bytes) {
        Ok(text) => {
            if jdwp_plan::is_written(text) {
                Some(text)
            } else {
                None
            }
        }
        Err(_) => None,
    }
}

/// Refuses to tell the test cases of a plan that is not in words, and has none.
pub(crate) fn without_cases<'a>(junit: Option<&'a str>) -> Result<(), Fault<'a>> {
    match junit {
        Some(cases) => Err(Fault::File(cases, FileCause::NoCases)),
        None => Ok(()),
    }
}

/// Runs the plan in words of this text as the debugger of the session of a file, and tells on `err` why it was not carried out. The plan is
/// judged before a file is opened.
///
/// # Errors
/// `File` where a file can't be opened or made, or the file of test cases is another of them; `Written` where the plan is refused;
/// `NoMemory`. Then nothing was printed.
pub(crate) fn attach_written_files<'a, R: Files + AllocGlobal, O: Write, E: Write>(
    rt: &R,
    words: &Attach<'a>,
    files: &SessionFiles<'a>,
    text: &str,
    out: &mut O,
    err: &mut E,
) -> Result<Outcome<'a>, Fault<'a>>
    ensures unprinted { OnErr result (Keeps (O.contents out.old) (O.contents out.new)) }
{
    keep_from_cases(rt, words.junit, words.plan)?;
    keep_from_cases(rt, words.junit, files.from)?;
    let plan = plan_of(rt.alloc(), words.plan, words.timeout, text)?;
    let pipe = Unlimited {
        pipe: streams(rt, files.from, files.to)?,
    };
    keep_cases(rt, words, files.to)?;
    attach_written(rt, words, &plan, pipe, out, err)
}

/// Runs the plan in words of this text as the debugger of the target that listens at a port, and tells on `err` why it was not carried out.
///
/// # Errors
/// `File` where the file of test cases is the plan's; `Written` where the plan is refused; `Port` where the port can't be reached;
/// `NoMemory`. Then nothing was printed.
pub(crate) fn attach_written_port<'a, R: Files + Clock + AllocGlobal + Net, O: Write, E: Write>(
    rt: &R,
    words: &Attach<'a>,
    port: u16,
    text: &str,
    out: &mut O,
    err: &mut E,
) -> Result<Outcome<'a>, Fault<'a>>
    ensures unprinted { OnErr result (Keeps (O.contents out.old) (O.contents out.new)) }
{
    keep_from_cases(rt, words.junit, words.plan)?;
    let plan = plan_of(rt.alloc(), words.plan, words.timeout, text)?;
    let stream = connect(rt, port)?;
    match Connection::new(rt.alloc(), rt, stream) {
        Ok(pipe) => attach_written(rt, words, &plan, pipe, out, err),
        Err(error) => Err(Fault::from(PortFault::of_port(port, error))),
    }
}

/// The lines of the plan in words of this text of a file, within this limit of time.
pub(crate) fn plan_of<'a>(
    alloc: Global,
    file: &'a str,
    timeout: Option<u32>,
    text: &str,
) -> Result<Vec<PlanLine>, Fault<'a>>
    ensures plan { IfOk result (λ plan. IsPlanOf text.now timeout plan.items) }
    ensures fault { IfErr result (RefusesWritten file.entry text.now) }
{
    match read_written(alloc, text) {
        Ok(plan) => Ok(within(plan, timeout)),
        Err(fault) => Err(Fault::of_written(file, fault)),
    }
}

/// The same lines, with a limit of time in place of the first, which says only that the plan is in words.
fn within(mut plan: Vec<PlanLine>, timeout: Option<u32>) -> Vec<PlanLine>
    ensures { result.items ≡ written.within timeout plan.items }
{
    if let Some(milliseconds) = timeout {
        if let Some(first) = plan.first_mut() {
            *first = PlanLine::Timeout(milliseconds);
        }
    }
    plan
}

/// Refuses a file of test cases that is this one, which is read. No file is opened.
pub(crate) fn keep_from_cases<'a, R: Files>(
    rt: &R,
    junit: Option<&'a str>,
    read: &str,
) -> Result<(), Fault<'a>> {
    match junit {
        Some(cases) => keep(rt, cases, read),
        None => Ok(()),
    }
}

/// Refuses a file of test cases that is this one, which the session is written to.
fn keep_cases<'a, R: Files>(rt: &R, words: &Attach<'a>, to: &str) -> Result<(), Fault<'a>> {
    match words.junit {
        Some(cases) if is_one_file(rt, cases, to) => {
            Err(Fault::File(cases, FileCause::AlsoWritten))
        }
        _ => Ok(()),
    }
}

/// Runs a plan in words over this pipe, and tells how that ended.
///
/// # Errors
/// `NoMemory`. Then nothing was printed.
fn attach_written<'a, R: Files + AllocGlobal, P: LimitedPipe + Drop, O: Write, E: Write>(
    rt: &R,
    words: &Attach<'a>,
    plan: &[PlanLine],
    pipe: P,
    out: &mut O,
    err: &mut E,
) -> Result<Outcome<'a>, Fault<'a>>
    ensures ran { IfOk result (AttachesWritten P.story words.now plan.now pipe) }
    ensures unprinted { OnErr result (Keeps (O.contents out.old) (O.contents out.new)) }
{
    let mut printed = Streams::new(io::empty(), Watched::new(out));
    let run = run_new(
        rt.alloc(),
        words.limits,
        words.order,
        plan,
        pipe,
        &mut printed,
    )?;
    let (_, output) = printed.into_parts();
    report_plan(rt.alloc(), &run.ended, err);
    let are_written = write_cases(rt, words.plan, words.junit, plan, &run.ended, err);
    Ok(outcome_of(
        run.ended.verdict(),
        are_written,
        words.limits,
        output.failure(),
    ))
}

/// How the run of a plan ended, and the pipe behind it.
#[derive(Drop)]
pub(crate) struct Over<P> {
    pub ended: PlanEnded,
    pub pipe: P,
}

/// Runs a plan by a new client over this pipe, within these limits, of a target that sends in this order.
pub(crate) fn run_new<P: LimitedPipe + Drop, W: Pipe>(
    alloc: Global,
    limits: Limits,
    order: Order,
    plan: &[PlanLine],
    pipe: P,
    out: &mut W,
) -> Result<Over<P>, NoMemory>
    ensures ran { IfOk result (λ run. RunsNew P.story limits order plan.now pipe (W.story out.old)
        run.ended run.pipe (W.story out.new)) }
    ensures unprinted { OnErr result (out.new ≡ out.old) }
{
    let mut client = client_over(alloc, limits, order, pipe)?;
    let ended = run_plan(alloc, &mut client, plan, out);
    let pipe = Box::into_inner(client).into_pipe();
    Ok(Over { ended, pipe })
}

/// How many composites a client keeps that no line has waited for.
const MOST_EVENTS: usize = 1_024;

/// A new client over this pipe, within these limits, of a target that sends in this order, on the heap.
fn client_over<P: LimitedPipe + Drop>(
    alloc: Global,
    limits: Limits,
    order: Order,
    pipe: P,
) -> Result<Box<Client<P>>, NoMemory>
    ensures { IfOk result (λ client. client.value ≡ new_client limits order pipe) }
{
    let options = Options {
        order,
        limits,
        first_id: 1,
        most_events: MOST_EVENTS,
    };
    let client = Client::new(alloc, pipe, options)?;
    Ok(Box::new(alloc, client)?)
}

/// Writes the expectations of a run of the plan of this name where `--junit` says, and answers whether that could be done or need not be; if
/// not, why is told on `err`.
pub(crate) fn write_cases<R: Files + AllocGlobal, E: Write>(
    rt: &R,
    name: &str,
    junit: Option<&str>,
    plan: &[PlanLine],
    ended: &PlanEnded,
    err: &mut E,
) -> bool
    ensures { junit.entry ≡ None → result ≡ true }
{
    let Some(file) = junit else {
        return true;
    };
    let Ok(xml) = junit_text(rt.alloc(), name, plan, ended) else {
        report_fault(&Fault::NoMemory, err);
        return false;
    };
    match fs::write(rt, file, xml.as_bytes()) {
        Ok(()) => true,
        Err(error) => {
            report_fault(&Fault::of_file(file, error), err);
            false
        }
    }
}

/// What is told of a run within these limits that came to this, whose test cases were written, need not be, or could not, and which printed
/// on an output that failed with `output`, if it did.
pub(crate) fn outcome_of<'a>(
    verdict: PlanVerdict,
    are_written: bool,
    limits: Limits,
    output: Option<io::Error>,
) -> Outcome<'a>
    ensures { IsToldOf are_written limits output verdict result }
{
    match verdict {
        PlanVerdict::NotPrinted => {
            Outcome::without_files(Attached::Ended(Ended::LostByWrite), limits, output)
        }
        PlanVerdict::Met if !are_written => Outcome::Planned(PlanVerdict::NotPrinted),
        verdict => Outcome::Planned(verdict),
    }
}
