//! The same suspend counts, asked through a link.
ghost use Rattle.milunovesk.specs.Target.Options.{LivesWithin};
ghost use Rattle.milunovesk.specs.Wire.Limits.{standard_limits};

use crate::counts::{AT_ONCE, SCRIPT, THREAD, options};
use anyhow::bail;
use milunovesk::commands::thread_reference::suspend_count;
use milunovesk::{Link, LinkEvent, Machine, Outcome, ScriptMachine, Stopped, TargetOptions};
use std::alloc::Global;

/// How many bytes are delivered at once, more than 64 such commands or replies take.
const DELIVERED: usize = 4_096;

/// Asks 64 counts in each round of one session of a link, and answers how many answers came.
pub fn answered_by_link(alloc: Global, rounds: u32) -> anyhow::Result<u64> {
    let options = options()?;
    let machine = ScriptMachine::read(alloc, SCRIPT)?;
    answered_over(alloc, machine, options, rounds)
}

/// The same over this machine.
fn answered_over<M: Machine + Drop>(
    alloc: Global,
    machine: M,
    options: TargetOptions,
    rounds: u32,
) -> anyhow::Result<u64>
    requires { LivesWithin M.meaning standard_limits machine }
{
    let mut link = Box::new(alloc, Link::new(alloc, machine, options)?)?;
    ask_counts(alloc, &mut link, rounds)
}

/// Begins a session, and asks 64 counts in each round.
fn ask_counts<M: Machine + Drop>(
    alloc: Global,
    link: &mut Link<M>,
    rounds: u32,
) -> anyhow::Result<u64> {
    let mut begins = vec![in alloc; LinkEvent::Attach]?;
    for _ in 0..3u32 {
        push_exchange(&mut begins)?;
    }
    answers_of(link.run(&begins))?;
    let round = round_of(alloc)?;
    let mut answered = 0u64;
    for _ in 0..rounds {
        let came = answers_of(link.run(&round))?;
        answered = answered.saturating_add(came);
    }
    Ok(answered)
}

/// The events of a round.
fn round_of(alloc: Global) -> anyhow::Result<Vec<LinkEvent>> {
    let mut events = Vec::new(alloc);
    for _ in 0..AT_ONCE {
        events.push(LinkEvent::Ask(suspend_count(alloc, THREAD)?))?;
    }
    push_exchange(&mut events)?;
    Ok(events)
}

/// The target handles what the debugger put, and the debugger what the target sent.
fn push_exchange(events: &mut Vec<LinkEvent>) -> anyhow::Result<()> {
    events.push(LinkEvent::ToTarget(DELIVERED))?;
    for _ in 0..AT_ONCE {
        events.push(LinkEvent::TargetTurn)?;
    }
    events.push(LinkEvent::ToDebugger(DELIVERED))?;
    for _ in 0..AT_ONCE {
        events.push(LinkEvent::DebuggerTurn)?;
    }
    Ok(())
}

/// How many answers came in a run.
fn answers_of(ran: Result<Vec<Outcome>, Stopped>) -> anyhow::Result<u64> {
    let Ok(told) = ran else {
        bail!("no memory");
    };
    let mut answered = 0u64;
    for outcome in &told {
        if let Outcome::Answered(..) = outcome {
            answered = answered.saturating_add(1);
        }
    }
    Ok(answered)
}
