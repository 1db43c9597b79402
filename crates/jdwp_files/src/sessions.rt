//! Sessions without files: at a port, and with both ends in this process.
ghost use Rattle.std.specs.Prelude.{◌≡◌, map, Ok, IfErr, IfOk, OnErr, false, is_some};
ghost use Rattle.std.specs.Io.KnownBytes.{Keeps};
ghost use Rattle.std.specs.Str.{IsUtf8};
ghost use Rattle.std.specs.Str.Lines.{lines};
ghost use Rattle.jdwp_script_machine.specs.Machines.{read_machine_as};
ghost use Rattle.jdwp_script_machine.specs.ScriptMeaning.{script_meaning};
ghost use Rattle.jdwp_script_machine.specs.States.{State};
ghost use Rattle.jdwp_target.specs.Options.{LivesWithin};
ghost use Rattle.jdwp_end.specs.Ends.{is_open};
ghost use Rattle.jdwp_attach.specs.PlanLines.{said_by};
ghost use Rattle.jdwp_attach.specs.Plans.{Says, SaysForAttach};
ghost use Rattle.jdwp_pair.specs.Connections.{is_disconnected};
ghost use Rattle.jdwp_pair.specs.PlanRuns.{PairsNew};
ghost use Rattle.jdwp_program.specs.Outputs.{LeavesOutcome};
ghost use Rattle.jdwp_files.specs.Pairs.{IsEndOfPair};
ghost use Rattle.jdwp_files.specs.Refusals.{RefusesAttachPlan, RefusesPlan, RefusesScript};

use crate::files::{read, text};
use crate::paired::pair_written;
use crate::written::{attach_written_port, without_cases, written_text};
use jdwp_attach::{Attached, PlanLine, read_attach_plan, read_plan};
use jdwp_debuggee::Settings;
use jdwp_debugger::{Debugger, Order};
use jdwp_end::{Ended, Pipe, Streams};
use jdwp_link::Memory;
use jdwp_machine::Machine;
use jdwp_pair::{Connection, Loopback, PairEnded, pair_session};
use jdwp_port::{
    PortFault, PortListener, attach_stream, bind, connect, serve_live_sessions, serve_sessions,
};
use jdwp_program::{
    Attach, Awaited, Between, Fault, Lines, Outcome, Pair, ServeScript, Watched, tell_listening,
};
use jdwp_script_machine::ScriptMachine;
use jdwp_target::Target;
use jdwp_wire::{Limits, NoMemory};
use std::alloc::Global;
use std::io;
use std::io::{Read, Write};
use std::net::{Net, OpenListener, OpenStream};
use std::rt::{Clock, Files};
use std::time::Duration;

/// Serves sessions at a port over the machine of a script, one after the other, until the machine dies or a session uses up its rounds. The
/// fault of a session that is refused, why a connection failed, and that none could be taken is told on `err`, and the next debugger is
/// awaited.
///
/// # Errors
/// `File` where the script's can't be read or is not UTF-8; `Script` where it is refused; `Port` where the port can't be taken or gives no
/// connection; `NoMemory`.
pub fn serve_port<'a, R: Files + Clock + AllocGlobal + Net, E: Write>(
    rt: &R,
    words: &ServeScript<'a>,
    port: u16,
    err: &mut E,
) -> Result<Outcome<'a>, Fault<'a>> {
    let mut target = target_of(rt, words)?;
    let listener = bind(rt, port)?;
    let mut lines = Lines::new(rt.alloc(), err, port);
    let ended = serve_at(rt, &mut target, &listener, words.turns, &mut lines)?;
    lines.end();
    Ok(Outcome::Session(ended))
}

/// How many rounds a live session has at most. No program lives that long.
const MOST_ROUNDS: u64 = u64::MAX;

/// Serves live sessions at a port over the machine of a script, one after the other, until the machine dies, with so many milliseconds between
/// two steps at least; at port 0 the system chooses one. Once debuggers are awaited that is told on `out`, in one line. What goes wrong with
/// a session or a connection is told on `err`, and the next debugger is awaited.
///
/// # Errors
/// As those of `serve_port`; `Output` where `out` does not take the line.
pub fn serve_live_port<'a, R: Files + Clock + AllocGlobal + Net, O: Write, E: Write>(
    rt: &R,
    words: &ServeScript<'a>,
    port: u16,
    pace: u32,
    out: &mut O,
    err: &mut E,
) -> Result<Outcome<'a>, Fault<'a>>
    ensures { LeavesOutcome result (O.contents out.old) (O.contents out.new) }
{
    let mut target = target_of(rt, words)?;
    let listener = bind(rt, port)?;
    tell_listening(rt.alloc(), listener.port(), out)?;
    serve_live_at(rt, &mut target, listener, pace, err)
}

/// Serves debuggers that come to a port in live sessions, one after the other, and tells what goes wrong on `err`.
fn serve_live_at<'a, R, M, E>(
    rt: &R,
    target: &mut Target<M>,
    listener: PortListener<R::Listener>,
    pace: u32,
    err: &mut E,
) -> Result<Outcome<'a>, Fault<'a>>
where
    R: Clock + AllocGlobal + Net,
    M: Machine + Drop,
    E: Write,
    requires { is_open target.old.end ≡ false }
{
    let mut lines = Lines::new(rt.alloc(), err, listener.port());
    let pace = Duration::from_millis(u64::from(pace));
    let ended = serve_live_sessions(
        rt.alloc(),
        rt,
        rt,
        target,
        listener,
        pace,
        MOST_ROUNDS,
        |notice| {
            lines.tell_live(notice);
        },
    )?;
    lines.end();
    Ok(Outcome::Session(ended))
}

/// A closed target over the machine of the script, on the heap.
fn target_of<'a, R: Files + AllocGlobal>(
    rt: &R,
    words: &ServeScript<'a>,
) -> Result<Box<Target<ScriptMachine>>, Fault<'a>>
    ensures { IfOk result (λ target. is_open target.value.end ≡ false) }
{
    let bytes = read(rt, words.machine)?;
    let machine = machine_of(rt.alloc(), words.machine, &bytes, &words.settings)?;
    Ok(target_over(rt.alloc(), machine, words.settings, words.defer)?)
}

/// A closed target over this machine, on the heap.
fn target_over<M: Machine + Drop>(
    alloc: Global,
    machine: M,
    settings: Settings,
    defer: bool,
) -> Result<Box<Target<M>>, NoMemory>
    requires { LivesWithin M.meaning settings.limits machine }
    ensures { IfOk result (λ target. is_open target.value.end ≡ false) }
{
    let mut target = Target::with_settings(alloc, machine, settings)?;
    target.set_deferring(defer);
    Ok(Box::new(alloc, target)?)
}

/// Serves debuggers that come to a port, one after the other, and tells what goes wrong in these lines.
fn serve_at<R, M, L, E>(
    rt: &R,
    target: &mut Target<M>,
    listener: &PortListener<L>,
    rounds: u32,
    lines: &mut Lines<'_, E>,
) -> Result<Ended, PortFault>
where
    R: Clock + AllocGlobal,
    M: Machine + Drop,
    L: OpenListener,
    L::Stream: Read + Write + OpenStream,
    E: Write,
    requires { is_open target.old.end ≡ false }
{
    let rounds = u64::from(rounds);
    serve_sessions(rt.alloc(), rt, target, listener, rounds, |notice| {
        lines.tell(notice);
    })
}

/// Runs a plan as the debugger of the target that listens at a port, and prints what it reads; where a plan in words was not carried out, why
/// is told on `err`.
///
/// # Errors
/// `File` where the plan's can't be read or is not UTF-8, or test cases are to be told of one that is not in words, or in its file; `Plan` or
/// `Written` where it is refused; `Port` where the port can't be reached; `NoMemory`. Then nothing was printed.
pub fn attach_port<'a, R: Files + Clock + AllocGlobal + Net, O: Write, E: Write>(
    rt: &R,
    words: &Attach<'a>,
    port: u16,
    out: &mut O,
    err: &mut E,
) -> Result<Outcome<'a>, Fault<'a>>
    ensures unprinted { OnErr result (Keeps (O.contents out.old) (O.contents out.new)) }
{
    let bytes = read(rt, words.plan)?;
    if let Some(text) = written_text(&bytes) {
        return attach_written_port(rt, words, port, text, out, err);
    }
    without_cases(words.junit)?;
    let plan = attach_plan_of(rt.alloc(), words.plan, &bytes)?;
    attach_by(rt, words, port, plan.as_slice(), out)
}

/// Runs this plan, and prints what is read.
fn attach_by<'a, R: Clock + AllocGlobal + Net, O: Write>(
    rt: &R,
    words: &Attach<'a>,
    port: u16,
    plan: &[PlanLine],
    out: &mut O,
) -> Result<Outcome<'a>, Fault<'a>>
    ensures unprinted { OnErr result (Keeps (O.contents out.old) (O.contents out.new)) }
{
    let mut debugger = debugger_of(rt.alloc(), words.limits, words.order)?;
    let stream = connection_of(rt, words, port)?;
    let mut printed = Streams::new(io::empty(), Watched::new(out));
    let turns = u64::from(words.turns);
    let session = attach_stream(
        rt.alloc(),
        rt,
        &mut debugger,
        port,
        stream,
        plan,
        &mut printed,
        turns,
    )?;
    let (_, output) = printed.into_parts();
    let outcome = Outcome::at_port(session, port, words.limits, output.failure());
    Ok(match words.timeout {
        Some(milliseconds) => outcome.within(milliseconds),
        None => outcome,
    })
}

/// A connection to this port, of which a read fails with `WouldBlock` once nothing came for as long as the words say, if they do.
fn connection_of<R: Net>(net: &R, words: &Attach<'_>, port: u16) -> Result<R::Stream, PortFault> {
    let stream = connect(net, port)?;
    let Some(milliseconds) = words.timeout else {
        return Ok(stream);
    };
    let time = Duration::from_millis(u64::from(milliseconds));
    match stream.set_read_timeout(Some(time)) {
        Ok(()) => Ok(stream),
        Err(error) => Err(PortFault::of_port(port, error)),
    }
}

/// A closed debugger within these limits, of a target that sends in this order, on the heap.
fn debugger_of(alloc: Global, limits: Limits, order: Order) -> Result<Box<Debugger>, NoMemory> {
    let debugger = Debugger::with_order(alloc, 1, limits, order)?;
    Ok(Box::new(alloc, debugger)?)
}

/// Runs a plan as the debugger of the machine of a script, both ends in this process, and prints what the debugger reads; where a plan in words
/// was not carried out, why is told on `err`. Bytes go from one end to the other in memory, or, by a plan in numbers, over a connection of this
/// machine to itself.
///
/// # Errors
/// `File` where one can't be read or is not UTF-8, or test cases are to be told of a plan that is not in words, or in a file that is read;
/// `Script`, `Plan` or `Written` where one is refused; `NoMemory`. Then nothing was printed.
pub fn pair_files<'a, R: Files + AllocGlobal + Net, O: Write, E: Write>(
    rt: &R,
    words: &Pair<'a>,
    out: &mut O,
    err: &mut E,
) -> Result<Outcome<'a>, Fault<'a>>
    ensures unprinted { OnErr result (Keeps (O.contents out.old) (O.contents out.new)) }
{
    let script = read(rt, words.machine)?;
    let plan = read(rt, words.plan)?;
    if let Some(text) = written_text(&plan) {
        return pair_written(rt, words, &script, text, out, err);
    }
    without_cases(words.junit)?;
    match words.between {
        Between::Memory => pair_over(rt.alloc(), words, &mut Memory::new(), &script, &plan, out),
        Between::Loopback => {
            let mut loopback = Loopback::new(rt);
            pair_over(rt.alloc(), words, &mut loopback, &script, &plan, out)
        }
    }
}

/// Runs the plan of these bytes with the machine of the script of those, over a connection.
fn pair_over<'a, C: Connection, O: Write>(
    alloc: Global,
    words: &Pair<'a>,
    connection: &mut C,
    script: &[u8],
    plan: &[u8],
    out: &mut O,
) -> Result<Outcome<'a>, Fault<'a>>
    ensures unprinted { OnErr result (Keeps (O.contents out.old) (O.contents out.new)) }
{
    let mut printed = Streams::new(io::empty(), Watched::new(out));
    let paired = pair_bytes(alloc, words, connection, script, plan, &mut printed)?;
    let (_, output) = printed.into_parts();
    match connection.failure() {
        Some(fault) => Ok(Outcome::lost_port(fault)),
        None => {
            let limits = words.settings.limits();
            Ok(outcome_of(paired.ended, &paired.plan, limits, output.failure()))
        }
    }
}

/// A run of both ends by a plan, and how it ended.
#[derive(Drop)]
struct Paired {
    plan: Vec<PlanLine>,
    ended: PairEnded,
}

/// Runs the plan of these bytes with the machine of the script of those.
fn pair_bytes<'a, C: Connection, O: Pipe>(
    alloc: Global,
    words: &Pair<'a>,
    connection: &mut C,
    script: &[u8],
    plan: &[u8],
    out: &mut O,
) -> Result<Paired, Fault<'a>>
    ensures paired { IfOk result (λ run. (machine : State)
        × (read_machine_as words.now.settings.profile words.now.settings.limits.live script.now
        ≡ Ok machine)
        × Says (lines plan.now) (map said_by run.plan.items)
        × PairsNew script_meaning words.now.settings words.now.defer words.now.order machine
        run.plan.items
        run.ended) }
    ensures failed { IfOk result (λ run. is_some (C.failed_by connection.new)
        ≡ is_disconnected run.ended) }
    ensures unprinted { OnErr result (out.new ≡ out.old) }
{
    let machine = machine_of(alloc, words.machine, script, &words.settings)?;
    let plan = plan_of(alloc, words.plan, plan)?;
    let (settings, defer, order, turns) = (words.settings, words.defer, words.order, words.turns);
    let ended = pair_session(
        alloc, machine, settings, defer, order, connection, &plan, out, turns,
    )?;
    Ok(Paired { plan, ended })
}

/// The machine of the script of these bytes of a file, in the profile and within the limits of these settings.
pub(crate) fn machine_of<'a>(
    alloc: Global,
    file: &'a str,
    bytes: &[u8],
    settings: &Settings,
) -> Result<ScriptMachine, Fault<'a>>
    ensures machine { IfOk result (λ machine. IsUtf8 bytes.now
        × (read_machine_as settings.now.profile settings.now.limits.live bytes.now ≡ Ok machine)) }
    ensures lives { IfOk result (λ machine.
        LivesWithin script_meaning settings.now.limits machine) }
    ensures fault { IfErr result (RefusesScript settings.now file.entry bytes.now) }
{
    let script = text(file, bytes)?;
    let limits = settings.limits();
    match ScriptMachine::read_as(alloc, settings.profile(), script, &limits) {
        Ok(machine) => Ok(machine),
        Err(fault) => {
            let detail = fault.detail(alloc, script, &limits);
            Err(Fault::of_script(file, fault, detail))
        }
    }
}

/// The lines of the plan of these bytes of a file.
fn plan_of<'a>(alloc: Global, file: &'a str, bytes: &[u8]) -> Result<Vec<PlanLine>, Fault<'a>>
    ensures plan { IfOk result (λ plan. IsUtf8 bytes.now
        × Says (lines bytes.now) (map said_by plan.items)) }
    ensures fault { IfErr result (RefusesPlan file.entry bytes.now) }
{
    let plan = text(file, bytes)?;
    match read_plan(alloc, plan) {
        Ok(lines) => Ok(lines),
        Err(fault) => Err(Fault::of_plan(file, plan, fault)),
    }
}

/// The lines of the plan of `attach` of these bytes of a file.
fn attach_plan_of<'a>(
    alloc: Global,
    file: &'a str,
    bytes: &[u8],
) -> Result<Vec<PlanLine>, Fault<'a>>
    ensures plan { IfOk result (λ plan. IsUtf8 bytes.now
        × SaysForAttach (lines bytes.now) (map said_by plan.items)) }
    ensures fault { IfErr result (RefusesAttachPlan file.entry bytes.now) }
{
    let plan = text(file, bytes)?;
    match read_attach_plan(alloc, plan) {
        Ok(lines) => Ok(lines),
        Err(fault) => Err(Fault::of_plan(file, plan, fault)),
    }
}

/// What is told of a run of both ends by this plan within these limits, whose connection did not fail, and which printed on an output that
/// failed with `output`, if it did.
fn outcome_of<'a>(
    ended: PairEnded,
    plan: &[PlanLine],
    limits: Limits,
    output: Option<io::Error>,
) -> Outcome<'a>
    requires { is_disconnected ended ≡ false }
    ensures { IsEndOfPair ended plan.now limits output result }
{
    let how = match ended {
        PairEnded::Done => Attached::Ended(Ended::Done),
        PairEnded::RefusedLine { line, number } => Attached::RefusedLine { line, number },
        PairEnded::LostByWrite => Attached::Ended(Ended::LostByWrite),
        PairEnded::LostConnection => unreachable!(),
        PairEnded::NoMemory => Attached::Ended(Ended::NoMemory),
        PairEnded::TurnLimit => Attached::Ended(Ended::TurnLimit),
        PairEnded::Standstill { line } => {
            return Outcome::Standstill(line, Awaited::at(plan, line));
        }
    };
    Outcome::without_files(how, limits, output)
}
