//! What a harness does with a link, a few events at a time.
use anyhow::{Context, bail};
use milunovesk::{Answer, Command, Link, LinkEvent, Machine, Outcome};
use std::alloc::Global;

/// More bytes than are under way at any time.
const ALL: usize = 65_536;

/// Does these events, and gives what is told of them.
pub fn run<M: Machine + Drop>(
    link: &mut Link<M>,
    events: &[LinkEvent],
) -> anyhow::Result<Vec<Outcome>> {
    link.run(events).ok().context("no memory")
}

/// Delivers all bytes, and lets both ends handle messages, until neither has any.
pub fn exchange<M: Machine + Drop>(
    alloc: Global,
    link: &mut Link<M>,
) -> anyhow::Result<Vec<Outcome>> {
    let mut told = Vec::new(alloc);
    for _ in 0..16u32 {
        run(link, &[LinkEvent::ToTarget(ALL), LinkEvent::TargetTurn])?;
        let handled = link.did();
        let mut read = run(link, &[LinkEvent::ToDebugger(ALL), LinkEvent::DebuggerTurn])?;
        told.append(&mut read)?;
        if !handled && !link.did() {
            break;
        }
    }
    Ok(told)
}

/// Asks a command, and gives its answer.
pub fn ask<M: Machine + Drop>(
    alloc: Global,
    link: &mut Link<M>,
    command: Command,
) -> anyhow::Result<Answer> {
    run(link, &[LinkEvent::Ask(command)])?;
    for outcome in exchange(alloc, link)? {
        if let Outcome::Answered(_, answer) = outcome {
            return Ok(answer);
        }
    }
    bail!("no answer")
}
