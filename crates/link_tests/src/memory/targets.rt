//! Sessions of a target, and the memory that its calls find.
use crate::memory::supply::{MOST_TIMES, Stop, Supply, push_line, push_same};
use jdwp_script_machine::ScriptMachine;
use jdwp_target::{Stepped, TargetFault, TargetOptions, Turn};
use jdwp_value::ObjectId;
use std::alloc::Global;
use test_parts::bytes;

/// A target over the machine of a script.
pub(crate) type Target = jdwp_target::Target<ScriptMachine>;

/// What is done with a target.
#[derive(Clone, Copy)]
pub(crate) enum Act {
    /// It is sent the first bytes, and sends the others, in turns until nothing is left to handle.
    Says(&'static str, &'static str),
    /// A thread is stepped so many times; each step tells this, and all send these bytes.
    Steps(u64, u32, Stepped, &'static str),
    /// A session begins.
    Accepts,
    /// The connection is lost.
    Loses,
}

/// All that can be asked of a target whose threads are 1 and 2, but the modifiers of requests.
#[derive(Clone, Copy, Debug, PartialEq, Eq)]
struct Standing {
    counts: (Option<u32>, Option<u32>),
    requests: usize,
    /// The newest request: its id, kind, policy, and how many modifiers it has.
    newest: Option<(u32, u8, u8, usize)>,
    live: usize,
    waiting: usize,
    room: usize,
    is_open: bool,
}

fn standing_of(target: &Target) -> Standing {
    let requests = target.requests().as_slice();
    let newest = match requests.last() {
        Some(request) => {
            let modifiers = request.modifier_count();
            Some((request.id(), request.kind(), request.policy(), modifiers))
        }
        None => None,
    };
    Standing {
        counts: (target.count(ObjectId(1)), target.count(ObjectId(2))),
        requests: requests.len(),
        newest,
        live: target.live().len(),
        waiting: target.waiting(),
        room: target.room(),
        is_open: target.is_open(),
    }
}

/// A target over this script, in whose first session no thread is suspended as it begins.
pub(crate) fn target(alloc: Global, script: &str) -> Result<Box<Target>, Stop> {
    let Some(options) = TargetOptions::new(false, 65_535) else {
        return Err(Stop::CountLimit);
    };
    let machine = ScriptMachine::read(alloc, script)?;
    let target = Target::new(alloc, machine, options)?;
    Ok(Box::new(alloc, target)?)
}

/// A turn, done again until it isn't refused; and whether none that was changed anything.
fn turned(target: &mut Target, supply: &mut Supply) -> Result<(Turn, bool), Stop> {
    let before = standing_of(target);
    let mut same = true;
    supply.starve()?;
    for _ in 0..MOST_TIMES {
        match target.turn() {
            Err(TargetFault::NoMemory) => same = same && standing_of(target) == before,
            Err(TargetFault::Frame(_)) => return Err(Stop::FrameFault),
            Ok(turn) => {
                supply.relieve();
                return Ok((turn, same));
            }
        }
        supply.give();
    }
    Err(Stop::AlwaysRefused)
}

/// A step, done again in the same way.
fn stepped(target: &mut Target, thread: u64, supply: &mut Supply) -> Result<(Stepped, bool), Stop> {
    let before = standing_of(target);
    let mut same = true;
    supply.starve()?;
    for _ in 0..MOST_TIMES {
        match target.step(ObjectId(thread)) {
            Err(TargetFault::NoMemory) => same = same && standing_of(target) == before,
            Err(TargetFault::Frame(_)) => return Err(Stop::FrameFault),
            Ok(stepped) => {
                supply.relieve();
                return Ok((stepped, same));
            }
        }
        supply.give();
    }
    Err(Stop::AlwaysRefused)
}

/// Turns until nothing is left to handle.
fn handle(
    alloc: Global,
    target: &mut Target,
    supply: &mut Supply,
    log: &mut String,
) -> Result<(), Stop> {
    for _ in 0..16u32 {
        let (turn, same) = turned(target, supply)?;
        push_same(log, same)?;
        push_line(alloc, log, &turn)?;
        if turn == Turn::Nothing {
            return Ok(());
        }
    }
    Ok(())
}

/// Steps a thread so many times, each of which tells this.
fn step(
    target: &mut Target,
    step: (u64, u32, Stepped),
    supply: &mut Supply,
    log: &mut String,
) -> Result<(), Stop> {
    let (thread, times, told) = step;
    for _ in 0..times {
        let (found, same) = stepped(target, thread, supply)?;
        push_same(log, same)?;
        if found != told {
            log.push_str("a step told something else\n")?;
        }
    }
    Ok(())
}

/// These bytes wait to leave, at most 256; they are taken.
fn sends(alloc: Global, target: &mut Target, output: &str, log: &mut String) -> Result<(), Stop> {
    let mut buffer = [0; 256];
    let count = target.take(&mut buffer);
    let are_expected = &buffer[..count] == bytes(alloc, output)?.as_slice();
    if !are_expected {
        log.push_str("other bytes were sent\n")?;
    }
    push_line(alloc, log, &count)
}

/// Does an act; what came of it, in a log.
fn push_done(
    alloc: Global,
    target: &mut Target,
    act: Act,
    supply: &mut Supply,
    log: &mut String,
) -> Result<(), Stop> {
    match act {
        Act::Says(input, output) => {
            target.feed(&bytes(alloc, input)?);
            handle(alloc, target, supply, log)?;
            sends(alloc, target, output, log)
        }
        Act::Steps(thread, times, told, output) => {
            step(target, (thread, times, told), supply, log)?;
            sends(alloc, target, output, log)
        }
        Act::Accepts => push_line(alloc, log, &target.accept()),
        Act::Loses => {
            target.lose();
            Ok(())
        }
    }
}

/// Does these acts, and answers what came of them, in words. Begun with a target that the handshake greeted, whose answer was taken.
pub(crate) fn done(
    alloc: Global,
    target: &mut Target,
    acts: &[Act],
    supply: &mut Supply,
) -> Result<String, Stop> {
    let mut log = String::new(alloc);
    for act in acts {
        push_done(alloc, target, *act, supply, &mut log)?;
        push_line(alloc, &mut log, &standing_of(target))?;
    }
    Ok(log)
}

/// A session begins: the handshake, whose answer is taken.
pub(crate) fn greet(target: &mut Target) {
    target.accept();
    target.feed(b"JDWP-Handshake");
    let _hello = target.turn();
    let mut buffer = [0; 256];
    target.take(&mut buffer);
}
