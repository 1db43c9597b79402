//! The engine that runs a debugger on a pipe by a plan.
ghost use Rattle.std.specs.Prelude.{◌≡◌, ◌<◌, ◌^◌, ◌||◌, [], ℕ, List, true, false, is_some, OnOk, IfErr, IsTrue};
ghost use Rattle.jdwp_end.specs.Ends.{is_open};
ghost use Rattle.jdwp_debugger.specs.Debuggers as model;
ghost use Rattle.jdwp_debugger.specs.Debuggers.{attached, has_tickets};
ghost use Rattle.jdwp_end.specs.Endings.{unflushed_end};
ghost use Rattle.jdwp_end.specs.Story.{Story, flushed, with_written};
ghost use Rattle.jdwp_attach.specs.declared.plans.plan_line.PlanLine as declared;
ghost use Rattle.jdwp_attach.specs.declared.plans.plan_line.PlanLine.TheVariants as line;
ghost use Rattle.jdwp_attach.specs.PlanRuns.{Attaches, EndsSo, IsByTurn, LineEndsSo, LineGoesOn, LineTells, MayEnd, TellsRefused, ended_at, ended_of, unflushed_debugger};
ghost use Rattle.jdwp_attach.specs.PlanWaits.{Counts, HandlesComposites, IsNextLine};
ghost use Rattle.jdwp_attach.specs.Runs.{FailsLastFlush, GoesOn, InOrder, IsAnywhere, IsAtAnswers, IsGoing, IsReady, Standing, at};
ghost use Rattle.jdwp_attach.specs.Telling.{TellsKnown};

use crate::asking::ask_line;
use crate::attached::Attached;
use crate::plans::PlanLine;
use crate::run::Run;
use crate::tell::known_text;
use crate::turning::turn_once;
use jdwp_debugger::Debugger;
use jdwp_end::{CHUNK, Ended, Pipe, flush_all, write_all, write_out};
use std::alloc::Global;

/// Runs the debugger on the pipe for one session by the plan, for at most so many turns.
///
/// It begins with `attach`; a debugger whose session is open, or tickets of whose last session wait for `lose`, is `Refused(0)`, with
/// nothing touched. It turns until the widths of ids are known. Then it carries out the lines of the plan: `ask` asks a command, `answers`
/// turns until no command waits for its answer, `events` turns until so many composites were read in the session, and `mirror` prints what
/// the debugger knows; no other line makes a turn. At a line of `pair` alone the run ends as `Refused(0)`, with nothing asked or written for
/// it. After the last line it turns until no command waits, and the debugger loses the
/// connection. A turn that handles nothing is followed by a flush of the pipe and one read of at most 4,096 bytes and of what the debugger
/// has room for, which are fed; nothing is read elsewhere. What waits to leave is written after each turn, and what it read is printed to
/// `out` in the lines of `show`: the composites that waited for the widths of ids at the turn in which they are read. Where the target sends
/// replies and events by threads of their own (`Order::Apart`), and a composite that suspends its thread leaves it unsure, so that the
/// debugger doesn't hold it, the engine asks for the thread's suspend count by itself behind that turn: a refusal is passed over, and the
/// answer is printed and waited for as any other. The run is done where the plan is finished, and at the turn that reads
/// an answer without an error to Dispose or the death of the machine, whatever lines are left. Where the input ends, or a read, a write or
/// a flush fails, those to `out` among them, the debugger loses the connection; the pipe and `out` are flushed at the end of the session,
/// whatever ends it. A write or a flush that fails is `LostByWrite`, wherever it comes, but for the last flush behind a refusal of what the
/// target sent or of a line of the plan, which stays `Refused`.
pub fn attach<P: Pipe, W: Pipe>(
    alloc: Global,
    debugger: &mut Debugger,
    pipe: &mut P,
    plan: &[PlanLine],
    out: &mut W,
    turns: u64,
) -> Ended
    ensures refused { (is_open debugger.old.end || has_tickets debugger.old.pending) ≡ true
        → (result ≡ Ended.Refused 0) × (debugger.new ≡ debugger.old)
        × (P.story pipe.new ≡ P.story pipe.old) × (W.story out.new ≡ W.story out.old) }
    ensures in_order { (is_open debugger.old.end || has_tickets debugger.old.pending) ≡ false
        → InOrder plan.now (at (P.story pipe.old) (W.story out.old) (attached debugger.old) turns)
        (P.story pipe.new) (W.story out.new) debugger.new }
    ensures ended { (is_open debugger.old.end || has_tickets debugger.old.pending) ≡ false
        → MayEnd plan.now result (at (P.story pipe.old) (W.story out.old) (attached debugger.old)
        turns) (P.story pipe.new) (W.story out.new) debugger.new }
    ensures last_flush { (is_open debugger.old.end || has_tickets debugger.old.pending) ≡ false
        → Attaches plan.now (at (P.story pipe.old) (W.story out.old) (attached debugger.old) turns)
        result (P.story pipe.new) (W.story out.new) debugger.new }
{
    attach_by_lines(alloc, debugger, pipe, plan, out, turns).ended()
}

/// Runs the debugger on the pipe for one session by the plan, for at most so many turns, as `attach` does, and tells the line that was
/// refused, if the session ended by that: one whose command the debugger refused, or one of `pair` alone.
pub fn attach_by_lines<P: Pipe, W: Pipe>(
    alloc: Global,
    debugger: &mut Debugger,
    pipe: &mut P,
    plan: &[PlanLine],
    out: &mut W,
    turns: u64,
) -> Attached
    ensures refused { (is_open debugger.old.end || has_tickets debugger.old.pending) ≡ true
        → (result ≡ Attached.Ended (Ended.Refused 0)) × (debugger.new ≡ debugger.old)
        × (P.story pipe.new ≡ P.story pipe.old) × (W.story out.new ≡ W.story out.old) }
    ensures in_order { (is_open debugger.old.end || has_tickets debugger.old.pending) ≡ false
        → InOrder plan.now (at (P.story pipe.old) (W.story out.old) (attached debugger.old) turns)
        (P.story pipe.new) (W.story out.new) debugger.new }
    ensures ended { (is_open debugger.old.end || has_tickets debugger.old.pending) ≡ false
        → MayEnd plan.now (ended_of result) (at (P.story pipe.old) (W.story out.old)
        (attached debugger.old) turns) (P.story pipe.new) (W.story out.new) debugger.new }
    ensures last_flush { (is_open debugger.old.end || has_tickets debugger.old.pending) ≡ false
        → Attaches plan.now (at (P.story pipe.old) (W.story out.old) (attached debugger.old) turns)
        (ended_of result) (P.story pipe.new) (W.story out.new) debugger.new }
    ensures line { (is_open debugger.old.end || has_tickets debugger.old.pending) ≡ false
        → TellsRefused plan.now result (attached debugger.old) debugger.new }
{
    if !debugger.attach() {
        return Attached::Ended(Ended::Refused(0));
    }
    let how = run_session(alloc, debugger, pipe, plan, out, turns);
    if flush_both(pipe, out) {
        how
    } else {
        lose_what_is_kept(debugger, how)
    }
}

/// Flushes both, and says whether that succeeded.
fn flush_both<P: Pipe, W: Pipe>(pipe: &mut P, out: &mut W) -> bool
    ensures all { IsTrue result → (P.story pipe.new ≡ flushed (P.story pipe.old))
        × (W.story out.new ≡ flushed (W.story out.old)) }
    ensures fails { result ≡ false → FailsLastFlush (P.story pipe.old) (W.story out.old)
        (P.story pipe.new) (W.story out.new) }
{
    let left = flush_all(pipe);
    let printed = flush_all(out);
    left && printed
}

/// How a session ends whose last flush failed: a connection that was not lost before is lost now. A refusal is told as one.
fn lose_what_is_kept(debugger: &mut Debugger, how: Attached) -> Attached
    ensures how { ended_of result ≡ unflushed_end (ended_of how) }
    ensures left { debugger.new ≡ unflushed_debugger (ended_of how) debugger.old }
    ensures ends { (plan : List declared.PlanLine) (base : Standing) (pipe out pipe' out' : Story)
        → InOrder plan base pipe out debugger.old → MayEnd plan (ended_of how) base (flushed pipe)
        (flushed out) debugger.old → FailsLastFlush pipe out pipe' out'
        → InOrder plan base pipe' out' debugger.new
        × MayEnd plan (ended_of result) base pipe' out' debugger.new }
    ensures line { (plan : List declared.PlanLine) (base : model.Debugger)
        → TellsRefused plan how base debugger.old → TellsRefused plan result base debugger.new }
{
    match how.ended() {
        Ended::Refused(_) => how,
        Ended::Done | Ended::LostByRead | Ended::LostByWrite => {
            Attached::Ended(Ended::LostByWrite)
        }
        Ended::NoMemory | Ended::TurnLimit => {
            debugger.lose();
            Attached::Ended(Ended::LostByWrite)
        }
    }
}

/// Runs a session that was begun. It ends so once all that was written has left.
fn run_session<P: Pipe, W: Pipe>(
    alloc: Global,
    debugger: &mut Debugger,
    pipe: &mut P,
    plan: &[PlanLine],
    out: &mut W,
    turns: u64,
) -> Attached
    requires { debugger.old ≡ attached debugger.old }
    ensures line { TellsRefused plan.now result debugger.old debugger.new }
    ensures in_order { InOrder plan.now (at (P.story pipe.old) (W.story out.old) debugger.old turns)
        (P.story pipe.new) (W.story out.new) debugger.new }
    ensures ended { MayEnd plan.now (ended_of result) (at (P.story pipe.old)
        (W.story out.old) debugger.old turns) (flushed (P.story pipe.new))
        (flushed (W.story out.new)) debugger.new }
{
    let mut run = Run {
        left: turns,
        composites: 0,
        buffer: [0; CHUNK],
    };
    match run_plan(alloc, debugger, pipe, plan, out, &mut run) {
        Ok(()) => {
            debugger.lose();
            Attached::Ended(Ended::Done)
        }
        Err(how) => how,
    }
}

/// Runs a session that was begun until all commands of the plan were asked and answered.
///
/// # Errors
/// Why the run ends before.
fn run_plan<P: Pipe, W: Pipe>(
    alloc: Global,
    debugger: &mut Debugger,
    pipe: &mut P,
    plan: &[PlanLine],
    out: &mut W,
    run: &mut Run,
) -> Result<(), Attached>
    requires begun { debugger.old ≡ attached debugger.old }
    requires none { run.old.composites ≡ 0 }
    ensures finished { OnOk result (IsGoing plan.now plan.now
        (at (P.story pipe.old) (W.story out.old) debugger.old run.old.left)
        (at (P.story pipe.new) (W.story out.new) debugger.new run.new.left)) }
    ensures known { OnOk result (is_some debugger.new.sizes ≡ true) }
    ensures answered { OnOk result (has_tickets debugger.new.pending ≡ false) }
    ensures line { IfErr result (λ how. TellsRefused plan.now how debugger.old debugger.new) }
    ensures ends { IfErr result (λ how.
        InOrder plan.now (at (P.story pipe.old) (W.story out.old) debugger.old run.old.left)
        (P.story pipe.new) (W.story out.new) debugger.new
        × MayEnd plan.now (ended_of how) (at (P.story pipe.old) (W.story out.old) debugger.old
        run.old.left) (flushed (P.story pipe.new)) (flushed (W.story out.new)) debugger.new) }
{
    if let Err(ended) = write_hello(debugger, pipe) {
        return Err(Attached::Ended(ended));
    }
    if let Err(ended) = until_sizes(alloc, debugger, pipe, out, run) {
        return Err(Attached::Ended(ended));
    }
    for (place, line) in plan.iter().enumerate() {
        if let Err(ended) = carry_out(alloc, debugger, pipe, line, out, run) {
            return Err(ended_at(line, place + 1, ended));
        }
    }
    match until_answered(alloc, debugger, pipe, out, run) {
        Ok(()) => Ok(()),
        Err(ended) => Err(Attached::Ended(ended)),
    }
}

/// What is told where a run ended so at this line, counted from 1: the line where it was refused.
fn ended_at(line: &PlanLine, place: usize, ended: Ended) -> Attached
    ensures { result ≡ ended_at line.now place ended }
{
    match (line, ended) {
        (
            PlanLine::Ask { .. } | PlanLine::LoseTarget | PlanLine::LoseDebugger | PlanLine::Attach,
            Ended::Refused(number),
        ) => Attached::RefusedLine {
            line: place,
            number,
        },
        _ => Attached::Ended(ended),
    }
}

/// Writes the handshake, which waits to leave.
///
/// # Errors
/// `LostByWrite` where a write failed.
fn write_hello<P: Pipe>(debugger: &mut Debugger, pipe: &mut P) -> Result<(), Ended>
    requires { debugger.old ≡ attached debugger.old }
    ensures goes { OnOk result ((plan : List declared.PlanLine) (out : Story) (left : ℕ)
        → IsGoing plan [] (at (P.story pipe.old) out debugger.old left)
        (at (P.story pipe.new) out debugger.new left)) }
    ensures ready { OnOk result (IsReady debugger.new) }
    ensures counts { OnOk result ((left : ℕ) → left < 2 ^ 64 → Counts 0 left debugger.new) }
    ensures by_turn { IfErr result IsByTurn }
    ensures ends { IfErr result (λ ended. (plan : List declared.PlanLine) (out : Story) (left : ℕ)
        → InOrder plan (at (P.story pipe.old) out debugger.old left) (P.story pipe.new) out
        debugger.new × MayEnd plan ended (at (P.story pipe.old) out debugger.old left)
        (flushed (P.story pipe.new)) (flushed out) debugger.new) }
{
    if !write_out(debugger, pipe) {
        debugger.lose();
        return Err(Ended::LostByWrite);
    }
    Ok(())
}

/// Turns until the widths of ids are known.
///
/// # Errors
/// Why the run ends before.
fn until_sizes<P: Pipe, W: Pipe>(
    alloc: Global,
    debugger: &mut Debugger,
    pipe: &mut P,
    out: &mut W,
    run: &mut Run,
) -> Result<(), Ended>
    requires ready { IsReady debugger.old }
    requires counts { Counts run.old.composites run.old.left debugger.old }
    ensures goes { OnOk result (GoesOn IsAnywhere
        (at (P.story pipe.old) (W.story out.old) debugger.old run.old.left)
        (at (P.story pipe.new) (W.story out.new) debugger.new run.new.left)) }
    ensures ready { OnOk result (IsReady debugger.new) }
    ensures known { OnOk result (is_some debugger.new.sizes ≡ true) }
    ensures counts { OnOk result (Counts run.new.composites run.new.left debugger.new) }
    ensures by_turn { IfErr result IsByTurn }
    ensures ends { IfErr result (EndsSo IsAnywhere
        (at (P.story pipe.old) (W.story out.old) debugger.old run.old.left)
        (at (P.story pipe.new) (W.story out.new) debugger.new run.new.left)) }
{
    while debugger.sizes().is_none() {
        if let Err(ended) = turn_once(alloc, debugger, pipe, out, run) {
            return Err(ended);
        }
    }
    Ok(())
}

/// Carries out a line of the plan.
///
/// # Errors
/// Why the run ends.
fn carry_out<P: Pipe, W: Pipe>(
    alloc: Global,
    debugger: &mut Debugger,
    pipe: &mut P,
    line: &PlanLine,
    out: &mut W,
    run: &mut Run,
) -> Result<(), Ended>
    requires ready { IsReady debugger.old }
    requires known { is_some debugger.old.sizes ≡ true }
    requires counts { Counts run.old.composites run.old.left debugger.old }
    ensures goes { OnOk result (LineGoesOn line.now (at (P.story pipe.old)
        (W.story out.old) debugger.old run.old.left) (at (P.story pipe.new)
        (W.story out.new) debugger.new run.new.left)) }
    ensures ready { OnOk result (IsReady debugger.new) }
    ensures known { OnOk result (is_some debugger.new.sizes ≡ true) }
    ensures counts { OnOk result (Counts run.new.composites run.new.left debugger.new) }
    ensures tells { IfErr result (LineTells line.now (at (P.story pipe.old)
        (W.story out.old) debugger.old run.old.left) debugger.new) }
    ensures ends { IfErr result (LineEndsSo line.now (at (P.story pipe.old)
        (W.story out.old) debugger.old run.old.left) (at (P.story pipe.new)
        (W.story out.new) debugger.new run.new.left)) }
{
    match line {
        PlanLine::Ask { set, number, data } => {
            ask_line(alloc, debugger, pipe, run, *set, *number, data)
        }
        PlanLine::Answers => until_answered(alloc, debugger, pipe, out, run),
        PlanLine::Events(count) => until_events(alloc, debugger, pipe, out, run, *count),
        PlanLine::Mirror => tell_mirror(alloc, debugger, out),
        PlanLine::LoseTarget | PlanLine::LoseDebugger | PlanLine::Attach => {
            debugger.lose();
            Err(Ended::Refused(0))
        }
    }
}

/// Turns until no command waits for its answer.
///
/// # Errors
/// Why the run ends before.
fn until_answered<P: Pipe, W: Pipe>(
    alloc: Global,
    debugger: &mut Debugger,
    pipe: &mut P,
    out: &mut W,
    run: &mut Run,
) -> Result<(), Ended>
    requires ready { IsReady debugger.old }
    requires known { is_some debugger.old.sizes ≡ true }
    requires counts { Counts run.old.composites run.old.left debugger.old }
    ensures goes { OnOk result (GoesOn IsAtAnswers
        (at (P.story pipe.old) (W.story out.old) debugger.old run.old.left)
        (at (P.story pipe.new) (W.story out.new) debugger.new run.new.left)) }
    ensures ready { OnOk result (IsReady debugger.new) }
    ensures known { OnOk result (is_some debugger.new.sizes ≡ true) }
    ensures counts { OnOk result (Counts run.new.composites run.new.left debugger.new) }
    ensures answered { OnOk result (has_tickets debugger.new.pending ≡ false) }
    ensures by_turn { IfErr result IsByTurn }
    ensures ends { IfErr result (EndsSo IsAtAnswers
        (at (P.story pipe.old) (W.story out.old) debugger.old run.old.left)
        (at (P.story pipe.new) (W.story out.new) debugger.new run.new.left)) }
{
    while debugger.unanswered(0).is_some() {
        if let Err(ended) = turn_once(alloc, debugger, pipe, out, run) {
            return Err(ended);
        }
    }
    Ok(())
}

/// Turns until so many composites were read in the session.
///
/// # Errors
/// Why the run ends before.
fn until_events<P: Pipe, W: Pipe>(
    alloc: Global,
    debugger: &mut Debugger,
    pipe: &mut P,
    out: &mut W,
    run: &mut Run,
    count: u32,
) -> Result<(), Ended>
    requires ready { IsReady debugger.old }
    requires known { is_some debugger.old.sizes ≡ true }
    requires counts { Counts run.old.composites run.old.left debugger.old }
    ensures goes { OnOk result (GoesOn (IsNextLine (line.Events count))
        (at (P.story pipe.old) (W.story out.old) debugger.old run.old.left)
        (at (P.story pipe.new) (W.story out.new) debugger.new run.new.left)) }
    ensures ready { OnOk result (IsReady debugger.new) }
    ensures known { OnOk result (is_some debugger.new.sizes ≡ true) }
    ensures counts { OnOk result (Counts run.new.composites run.new.left debugger.new) }
    ensures handled { OnOk result (HandlesComposites count debugger.new) }
    ensures by_turn { IfErr result IsByTurn }
    ensures ends { IfErr result (EndsSo (IsNextLine (line.Events count))
        (at (P.story pipe.old) (W.story out.old) debugger.old run.old.left)
        (at (P.story pipe.new) (W.story out.new) debugger.new run.new.left)) }
{
    while run.composites < u64::from(count) {
        if let Err(ended) = turn_once(alloc, debugger, pipe, out, run) {
            return Err(ended);
        }
    }
    Ok(())
}

/// Prints what the debugger knows.
///
/// # Errors
/// Why the run ends.
fn tell_mirror<W: Pipe>(alloc: Global, debugger: &mut Debugger, out: &mut W) -> Result<(), Ended>
    ensures goes { OnOk result ((text : List ℕ) × TellsKnown debugger.old text
        × (W.story out.new ≡ with_written text (W.story out.old))) }
    ensures kept { OnOk result (debugger.new ≡ debugger.old) }
    ensures by_turn { IfErr result IsByTurn }
    ensures ends { IfErr result (λ ended. (pipe : Story) (left : ℕ)
        → LineEndsSo line.Mirror (at pipe (W.story out.old) debugger.old left)
        (at pipe (W.story out.new) debugger.new left) ended) }
{
    let Ok(text) = known_text(alloc, debugger) else {
        return Err(Ended::NoMemory);
    };
    if write_all(out, text.as_bytes()) {
        Ok(())
    } else {
        debugger.lose();
        Err(Ended::LostByWrite)
    }
}
