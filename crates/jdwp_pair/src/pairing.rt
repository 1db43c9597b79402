//! The engine that runs both ends by a plan.
ghost use Rattle.std.specs.Prelude.{◌≡◌, ◌+◌, ◌⊎◌, ◌∷◌, ◌||◌, List, Err, IfErr, IfOk, Ok, OnErr, OnOk, false, is_some, length, min};
ghost use Rattle.jdwp_script_machine.specs.Machines.{read_machine_as};
ghost use Rattle.jdwp_script_machine.specs.ScriptMeaning.{script_meaning};
ghost use Rattle.jdwp_script_machine.specs.States.{State};
ghost use Rattle.jdwp_target.specs.Options.{LivesWithin};
ghost use Rattle.jdwp_model.specs.Events as events;
ghost use Rattle.jdwp_link.specs.declared.events.Outcome as declared;
ghost use Rattle.jdwp_link.specs.Clauses.{HoldsSuspended, Ran};
ghost use Rattle.jdwp_link.specs.Links.{new_link};
ghost use Rattle.jdwp_debuggee.specs.State.{new_state};
ghost use Rattle.jdwp_debugger.specs.declared.order.Order.TheVariants as orders;
ghost use Rattle.jdwp_end.specs.Story.{Story};
ghost use Rattle.jdwp_pair.specs.Calls.{at};
ghost use Rattle.jdwp_pair.specs.Connections.{disconnects, is_disconnected};
ghost use Rattle.jdwp_pair.specs.Events.{Happens};
ghost use Rattle.jdwp_pair.specs.Followers.{Followed};
ghost use Rattle.jdwp_pair.specs.PlanRuns.{Ends, PairsBy, PairsNew, PairsNewBy, RunsPlan, unflushed_end};
ghost use Rattle.jdwp_pair.specs.Rounds.{EndsQuietly, EndsRound, IsRound, RunsMachine};

use crate::connection::Connection;
use crate::ended::PairEnded;
use crate::following::follower_of;
use crate::happening::{attach, set_deferring};
use crate::lines::{is_finished, next_line};
use crate::losing::lose_both;
use crate::parts::{run_debugger, run_target};
use crate::run::Run;
use crate::stepping::release_or_step;
use jdwp_attach::PlanLine;
use jdwp_debuggee::Settings;
use jdwp_debugger::{Debugger, Order};
use jdwp_end::{Pipe, flush_all};
use jdwp_link::Link;
use jdwp_machine::Machine;
use jdwp_script::ScriptFault;
use jdwp_script_machine::ScriptMachine;
use jdwp_wire::NoMemory;
use std::alloc::Global;

/// Runs a new target over the machine of this script and a new debugger by the plan for at most so many rounds, as `pair` does. As many
/// threads may live at the beginning as the limits of the settings have live threads. `defer` and `order` are those of `pair_session`.
///
/// # Errors
/// The first fault of the script, or `NoMemory` where an allocation was refused; and then nothing was printed.
pub fn pair_script<C: Connection, W: Pipe>(
    alloc: Global,
    script: &str,
    settings: Settings,
    defer: bool,
    order: Order,
    connection: &mut C,
    plan: &[PlanLine],
    out: &mut W,
    rounds: u32,
) -> Result<PairEnded, ScriptFault>
    ensures paired { IfOk result (λ ended. (machine : State)
        × (read_machine_as settings.profile settings.limits.live script.now ≡ Ok machine)
        × PairsNewBy script_meaning settings defer order machine plan.now rounds ended (W.story out.old)
        (W.story out.new)) }
    ensures failed { IfOk result (λ ended. is_some (C.failed_by connection.new)
        ≡ is_disconnected ended) }
    ensures fault { IfErr result (λ fault. (fault ≡ ScriptFault.NoMemory)
        ⊎ (read_machine_as settings.profile settings.limits.live script.now ≡ Err fault)) }
    ensures unprinted { OnErr result (out.new ≡ out.old) }
{
    let machine = ScriptMachine::read_as(alloc, settings.profile(), script, &settings.limits())?;
    let ended = pair_session(
        alloc, machine, settings, defer, order, connection, plan, out, rounds,
    )?;
    Ok(ended)
}

/// Runs a new target over this machine and a new debugger by the plan for at most so many rounds, as `pair` does. The machine has 1 to
/// `settings.limits().live()` live threads. Where `defer` says so the target defers the replies to commands of the sets ReferenceType and
/// Method, at most 16 at a time, in each session.
///
/// In the order `Apart` the plan is run as at a target that sends replies and composites by threads of its own: a second debugger, of that
/// order, is asked what the link's is asked and reads what that one reads; `mirror` prints what is surely so by that, and where a composite
/// suspends its thread and leaves it unsure, its suspend count is asked of both behind that turn, unless the debugger refuses it.
///
/// # Errors
/// `NoMemory`, and then nothing was printed.
pub fn pair_session<M: Machine + Drop, C: Connection, W: Pipe>(
    alloc: Global,
    machine: M,
    settings: Settings,
    defer: bool,
    order: Order,
    connection: &mut C,
    plan: &[PlanLine],
    out: &mut W,
    rounds: u32,
) -> Result<PairEnded, NoMemory>
    requires { LivesWithin M.meaning settings.limits machine }
    ensures paired { IfOk result (PairsNew M.meaning settings defer order machine plan.now) }
    ensures by_rounds { IfOk result (λ ended. PairsNewBy M.meaning settings defer order machine plan.now
        rounds ended (W.story out.old) (W.story out.new)) }
    ensures failed { IfOk result (λ ended. is_some (C.failed_by connection.new)
        ≡ is_disconnected ended) }
    ensures unprinted { OnErr result (out.new ≡ out.old) }
{
    let follower = follower_of(alloc, order, settings.limits())?;
    let mut link = link_over(alloc, machine, settings, defer)?;
    let rounds = u64::from(rounds);
    Ok(pair_in(
        alloc, &mut link, order, follower, connection, plan, out, rounds,
    ))
}

/// A new link over this machine, on the heap: where a function holds one itself, each part of it is proved to be let go there. It defers or not.
///
/// # Errors
/// `NoMemory`.
fn link_over<M: Machine + Drop>(
    alloc: Global,
    machine: M,
    settings: Settings,
    defer: bool,
) -> Result<Box<Link<M>>, NoMemory>
    requires { LivesWithin M.meaning settings.limits machine }
    ensures { IfOk result (λ link. Happens M.meaning (events.Defer defer)
        (new_link settings (record {
          state = new_state (M.meaning.live machine);
          machine = machine;
        })) link.value) }
{
    let mut link = Link::with_settings(alloc, machine, settings)?;
    set_deferring(&mut link, defer);
    Ok(Box::new(alloc, link)?)
}

/// Runs both ends of a link by the plan, for at most so many rounds. Bytes go from one end to the other over the connection: over `Memory`,
/// or over a `Loopback`, and what is printed is the same.
///
/// It begins with a session (`Attach`), which changes nothing where an end is open, tickets wait or the machine is dead; then the run goes on
/// with what there is. In a round the next line of the plan is carried out, if it can be; all bytes come to the target, and it
/// turns until it handles nothing; where it handled nothing in this round, the newest of the commands that it defers is released, or where it
/// defers none each live thread makes a step, by rising id; and all bytes come to the debugger, which turns until it handles nothing. Bytes
/// come by at most 4,096 at once. What the debugger reads is printed to `out` in the lines of `show`, and `lost TICKET` for each ticket that
/// is lost.
///
/// No line is carried out before the widths of ids are known for the first time. Then `ask` asks a command at once, but waits where a session
/// began and they are not known yet; `answers` waits until no command waits for its answer, `events` until so many composites were read in
/// the session, and `mirror` prints what the debugger knows. At `lose target` and `lose debugger` that end notices that the connection is
/// lost, and closes its half; what it had put still comes. `attach` waits until both ends are closed, no command waits and a thread of the
/// machine lives; then a session begins, on a new connection, of which no composite was read.
///
/// The run is done where all lines were carried out and no command waits, and then both ends lose the connection; and at the turn that reads
/// an answer without an error to Dispose or the death of the machine, whatever lines are left. A round in which nothing happened ends it as
/// `Standstill`; a line that was carried out is something. Where the connection failed the run ends as `LostConnection`, behind the event.
/// `out` is flushed at the end, whatever ends the run; where that fails it is `LostByWrite`, but for a command that was refused and a
/// connection that failed.
pub fn pair<M: Machine + Drop, C: Connection, W: Pipe>(
    alloc: Global,
    link: &mut Link<M>,
    connection: &mut C,
    plan: &[PlanLine],
    out: &mut W,
    rounds: u64,
) -> PairEnded
    ensures by_plan { PairsBy M.meaning orders.One plan.now rounds link.old (W.story out.old)
        link.new result (W.story out.new) }
    ensures held { HoldsSuspended link.new }
    ensures ran { (later : List events.LinkEvent) × (outcomes : List declared.Outcome)
        × Ran M.meaning (events.Attach ∷ later) link.old link.new outcomes }
    ensures failed { is_some (C.failed_by connection.new) ≡ is_disconnected result }
{
    pair_in(alloc, link, Order::One, None, connection, plan, out, rounds)
}

/// The same, where the debugger takes the target to send in this order, and there is a follower in `Apart`, which followed it so far.
fn pair_in<M: Machine + Drop, C: Connection, W: Pipe>(
    alloc: Global,
    link: &mut Link<M>,
    order: Order,
    follower: Option<Debugger>,
    connection: &mut C,
    plan: &[PlanLine],
    out: &mut W,
    rounds: u64,
) -> PairEnded
    requires { Followed M.meaning order link.old follower }
    ensures by_plan { PairsBy M.meaning order plan.now rounds link.old (W.story out.old) link.new result
        (W.story out.new) }
    ensures held { HoldsSuspended link.new }
    ensures ran { (later : List events.LinkEvent) × (outcomes : List declared.Outcome)
        × Ran M.meaning (events.Attach ∷ later) link.old link.new outcomes }
    ensures failed { is_some (C.failed_by connection.new) ≡ is_disconnected result }
{
    let ended = run_plan(alloc, link, order, follower, connection, plan, out, rounds);
    link.session();
    if flush_all(out) {
        ended
    } else {
        unflushed(ended)
    }
}

/// How a run ends whose last flush failed. A refusal is told as one, and so is a connection that failed.
fn unflushed(ended: PairEnded) -> PairEnded
    ensures { result ≡ unflushed_end ended }
{
    match ended {
        PairEnded::RefusedLine { .. } | PairEnded::LostConnection => ended,
        PairEnded::Done
        | PairEnded::LostByWrite
        | PairEnded::NoMemory
        | PairEnded::TurnLimit
        | PairEnded::Standstill { .. } => PairEnded::LostByWrite,
    }
}

/// Runs a session by the plan. Where it is finished, both ends lose the connection.
fn run_plan<M: Machine + Drop, C: Connection, W: Pipe>(
    alloc: Global,
    link: &mut Link<M>,
    order: Order,
    follower: Option<Debugger>,
    connection: &mut C,
    plan: &[PlanLine],
    out: &mut W,
    rounds: u64,
) -> PairEnded
    requires { Followed M.meaning order link.old follower }
    ensures runs { RunsPlan M.meaning order plan.now rounds result link.old (W.story out.old) link.new
        (W.story out.new) }
    ensures failed { is_some (C.failed_by connection.new) ≡ is_disconnected result }
{
    let mut run = Run {
        carried: 0,
        begun: false,
        composites: 0,
        order,
        follower,
    };
    match attach(link, connection, &mut run.follower) {
        Ok(()) => run_rounds(alloc, link, connection, plan, out, &mut run, rounds),
        Err(ended) => ended,
    }
}

/// Runs rounds until one ends the run, or the plan is finished, and then both ends lose the connection. How the run ends.
fn run_rounds<M: Machine + Drop, C: Connection, W: Pipe>(
    alloc: Global,
    link: &mut Link<M>,
    connection: &mut C,
    plan: &[PlanLine],
    out: &mut W,
    run: &mut Run,
    rounds: u64,
) -> PairEnded
    requires works { is_some (C.failed_by connection.old) ≡ false }
    requires followed { Followed M.meaning run.old.order link.old run.old.follower }
    ensures ends { Ends M.meaning plan.now rounds result (at link.old run.old (W.story out.old))
        link.new (W.story out.new) }
    ensures failed { is_some (C.failed_by connection.new) ≡ is_disconnected result }
{
    for _done in 0..rounds {
        match round(alloc, link, connection, plan, out, run) {
            Ok(true) => {}
            Ok(false) => {
                let line = waiting_line(plan, run);
                return PairEnded::Standstill { line };
            }
            Err(ended) => return ended,
        }
        if is_finished(link.debugger(), plan, run) {
            return lose_both(alloc, link, connection, &mut run.follower, out);
        }
    }
    PairEnded::TurnLimit
}

/// One round. Whether something happened: a line was carried out, an end handled a message, a command was released, or a thread made a step.
///
/// # Errors
/// Why the run ends.
fn round<M: Machine + Drop, C: Connection, W: Pipe>(
    alloc: Global,
    link: &mut Link<M>,
    connection: &mut C,
    plan: &[PlanLine],
    out: &mut W,
    run: &mut Run,
) -> Result<bool, PairEnded>
    requires works { is_some (C.failed_by connection.old) ≡ false }
    requires followed { Followed M.meaning run.old.order link.old run.old.follower }
    ensures round { IfOk result (λ happened. IsRound M.meaning plan.now
        (at link.old run.old (W.story out.old)) happened (at link.new run.new (W.story out.new))) }
    ensures ends { IfErr result (λ ended. EndsRound M.meaning plan.now ended
        (at link.old run.old (W.story out.old)) link.new (W.story out.new)) }
    ensures followed { OnOk result
        (Followed M.meaning run.new.order link.new run.new.follower) }
    ensures failed { is_some (C.failed_by connection.new) ≡ disconnects result }
{
    let carried = match next_line(alloc, link, connection, plan, out, run) {
        Ok(carried) => carried,
        Err(ended) => return Err(ended),
    };
    let moved = match run_machine(link, connection) {
        Ok(moved) => moved,
        Err(ended) => return Err(ended),
    };
    match run_debugger(alloc, link, connection, out, run) {
        Ok(read) => {
            begin_where_known(link.debugger(), run);
            Ok(carried || moved || read)
        }
        Err(ended) => Err(ended),
    }
}

/// From now on lines may be carried out, where the widths of ids are known.
fn begin_where_known(debugger: &Debugger, run: &mut Run)
    ensures { run.new ≡ record run.old { begun = run.old.begun || is_some debugger.now.sizes } }
{
    if debugger.sizes().is_some() {
        run.begun = true;
    }
}

/// The line behind those that were carried out, counted from 1.
fn waiting_line(plan: &[PlanLine], run: &Run) -> usize
    ensures { result ≡ min run.now.carried (length plan.now) + 1 }
{
    run.carried.min(plan.len()) + 1
}

/// The target handles what comes to it; where it handled nothing, the newest deferred command is released, or each live thread makes a step.
/// Whether something was done.
///
/// # Errors
/// `NoMemory` where an allocation was refused; `LostConnection`.
fn run_machine<M: Machine + Drop, C: Connection>(
    link: &mut Link<M>,
    connection: &mut C,
) -> Result<bool, PairEnded>
    requires { is_some (C.failed_by connection.old) ≡ false }
    ensures runs { IfOk result (λ did. RunsMachine M.meaning link.old did link.new) }
    ensures ends { IfErr result (λ ended. EndsQuietly M.meaning ended link.old link.new) }
    ensures failed { is_some (C.failed_by connection.new) ≡ disconnects result }
{
    match run_target(link, connection) {
        Ok(true) => Ok(true),
        Ok(false) => release_or_step(link, connection),
        Err(ended) => Err(ended),
    }
}
