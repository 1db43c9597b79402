//! Suspend counts, asked in rounds (JDWP specification, "Protocol Details": ThreadReference.SuspendCount).
ghost use Rattle.milunovesk.specs.Target.Options.{LivesWithin};
ghost use Rattle.milunovesk.specs.Wire.Limits.{standard_limits};

use anyhow::Context;
use milunovesk::commands::thread_reference::suspend_count;
use milunovesk::{
    Command, Debugger, Machine, Memory, ObjectId, Read, ScriptMachine, Side, Target, TargetOptions,
    Turn, deliver, layout_of, numbers, read,
};
use std::alloc::Global;

/// How many commands are asked at once, as many as may wait.
pub const AT_ONCE: u32 = 64;

/// How many bytes are moved at once, more than 64 such commands or replies take.
const CHUNK: usize = 4_096;

/// The only thread.
pub const THREAD: ObjectId = ObjectId(1);

/// A machine of one thread that does nothing.
pub const SCRIPT: &str = "{\"name\":\"one\",\"sizes\":[8,8,8,8,8],\
\"groups\":[{\"id\":5,\"name\":\"main\",\"parent\":0}],\"classes\":[],\"objects\":[],\
\"threads\":[{\"id\":1,\"name\":\"main\",\"group\":5,\"steps\":[]}]}";

/// In which form the debugger is given what it asks.
#[derive(Clone, Copy)]
pub enum Given {
    /// A command, with its data item by item.
    Items,
    /// The bytes of the data, as a caller in C has them: they are read by their layout.
    Bytes,
}

/// Asks 64 counts in each round of one session, and answers how many answers came.
pub fn answered(alloc: Global, given: Given, rounds: u32) -> anyhow::Result<u64> {
    let options = options()?;
    let machine = ScriptMachine::read(alloc, SCRIPT)?;
    answered_over(alloc, machine, options, given, rounds)
}

/// The same over this machine.
fn answered_over<M: Machine + Drop>(
    alloc: Global,
    machine: M,
    options: TargetOptions,
    given: Given,
    rounds: u32,
) -> anyhow::Result<u64>
    requires { LivesWithin M.meaning standard_limits machine }
{
    let mut target = Box::new(alloc, Target::new(alloc, machine, options)?)?;
    answered_by(alloc, &mut target, given, rounds)
}

/// The same of a new debugger and this target.
fn answered_by<M: Machine + Drop>(
    alloc: Global,
    target: &mut Target<M>,
    given: Given,
    rounds: u32,
) -> anyhow::Result<u64> {
    let mut debugger = Box::new(alloc, Debugger::new(alloc)?)?;
    ask_counts(alloc, &mut debugger, target, given, rounds)
}

/// All threads begin suspended.
pub fn options() -> anyhow::Result<TargetOptions> {
    TargetOptions::new(true, 65_535).context("a limit that there may be")
}

/// Begins a session, and asks 64 counts in each round.
fn ask_counts<M: Machine + Drop>(
    alloc: Global,
    debugger: &mut Debugger,
    target: &mut Target<M>,
    given: Given,
    rounds: u32,
) -> anyhow::Result<u64> {
    target.accept();
    debugger.attach();
    let mut buffer = [0; CHUNK];
    for _ in 0..3u32 {
        exchange(alloc, debugger, target, &mut buffer)?;
    }
    let mut answered = 0u64;
    for _ in 0..rounds {
        for _ in 0..AT_ONCE {
            debugger.ask(alloc, command(alloc, given, debugger)?)?;
        }
        let came = exchange(alloc, debugger, target, &mut buffer)?;
        answered = answered.saturating_add(u64::from(came));
    }
    Ok(answered)
}

/// The suspend count of the thread, as a command that is made of what was given.
fn command(alloc: Global, given: Given, debugger: &Debugger) -> anyhow::Result<Command> {
    match given {
        Given::Items => Ok(suspend_count(alloc, THREAD)?),
        Given::Bytes => command_of(alloc, debugger, &THREAD.0.to_be_bytes()),
    }
}

/// The SuspendCount whose data these bytes are.
fn command_of(alloc: Global, debugger: &Debugger, bytes: &[u8]) -> anyhow::Result<Command> {
    let (set, number) = (numbers::THREAD_REFERENCE, numbers::SUSPEND_COUNT);
    let sizes = debugger.sizes().context("the widths of ids are known")?;
    let row = layout_of(set, number).context("there is such a command")?;
    let layouts = row.layouts.context("its data are read")?;
    let items = read(alloc, &layouts.request, &sizes, bytes)?;
    Ok(Command::new(set, number, items))
}

/// The target handles what the debugger put, and the debugger what the target sent. How many answers came.
fn exchange<M: Machine + Drop>(
    alloc: Global,
    debugger: &mut Debugger,
    target: &mut Target<M>,
    buffer: &mut [u8; CHUNK],
) -> anyhow::Result<u32> {
    deliver(debugger, target, &mut Memory::new(), Side::Debugger, buffer);
    for _ in 0..=AT_ONCE {
        if let Turn::Nothing = target.turn()? {
            break;
        }
    }
    deliver(target, debugger, &mut Memory::new(), Side::Target, buffer);
    let mut answered = 0u32;
    for _ in 0..=AT_ONCE {
        match debugger.turn(alloc)? {
            Read::Nothing => break,
            Read::Answered(..) => answered = answered.saturating_add(1),
            _ => {}
        }
    }
    Ok(answered)
}
