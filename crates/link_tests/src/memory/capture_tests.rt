//! Captures and scripts whose reading is refused.
use crate::asserts::{expect_at_least, expect_same};
use crate::memory::supply::{MOST_TIMES, Stop, Supply, push_line};
use jdwp_judge::{check, show};
use jdwp_machine::Machine;
use jdwp_script::ScriptFault;
use jdwp_script_machine::ScriptMachine;
use jdwp_show::{Shown, Verdict};
use jdwp_wire::{IdSizes, NoMemory};
use std::alloc::Global;
use test_parts::MACHINE_A;

/// What is read.
#[derive(Clone, Copy)]
enum Text {
    /// A capture, which is shown.
    Shown(&'static str),
    /// A capture, which is judged.
    Judged(&'static str),
    /// A script.
    Script(&'static str),
}

/// Both handshakes, the widths of ids, and a count that is asked and told, the bytes cut within a packet.
const SESSION: &str = "> 4a4457502d48616e647368616b65\n< 4a4457502d48616e647368616b65
> 0000000b00000001000107\n< 0000001f0000000180000000000008000000080000000800000008\n< 00000008
> 0000001300000003000b0c0000000000000001\n< 0000000f0000000380000000000001\n";

/// The same up to a command whose id is taken.
const FAULTY: &str = "> 4a4457502d48616e647368616b65\n< 4a4457502d48616e647368616b65
> 0000000b00000001000108\n> 0000000b00000001000109\n";

/// Each command whose data the worked rows have, with its reply, and a composite of two events.
const WORKED: &str = "> 4a4457502d48616e647368616b65\n< 4a4457502d48616e647368616b65
> 0000000b00000001000107\n< 0000001f000000018000000000000800000008000000080000000800000008
< 0000001d0000000100406400000000015a000000000000000000000001
> 0000002b00000002000f010200000000010701000000000000000a00000000000000140000000000000003
< 0000000f00000002800000\n< 00000001
< 0000005c00000002004064020000000202000000010000000000000001
< 01000000000000000a0000000000000014000000000000000302000000020000000000000001
< 01000000000000000a00000000000000140000000000000003
> 0000000b00000006000163\n< 0000000b00000006800063
> 0000000d0000000700010dab01\n< 0000000c0000000780000007
> 0000001600000004000102000000074122\n> 5c0a7fc3a9\n";

static TEXTS: [Text; 8] = [
    Text::Shown(SESSION),
    Text::Shown(FAULTY),
    Text::Shown(WORKED),
    Text::Judged(SESSION),
    Text::Judged(FAULTY),
    Text::Judged(WORKED),
    Text::Script(MACHINE_A),
    Text::Script(
        "{\"name\":\"B\",\"sizes\":[8,8,8,8,8],\"groups\":[{\"id\":5,\"name\":\"main\",\"parent\":0}]}",
    ),
];

/// What came of reading.
#[derive(Debug, Drop)]
enum Came {
    Shown(Shown),
    Judged(Verdict),
    /// The widths of ids, and how many threads live.
    Machine(IdSizes, usize),
    /// A script is refused, for another cause than memory.
    Fault(ScriptFault),
}

/// What comes of reading this; None where memory was refused.
fn read(alloc: Global, text: Text) -> Option<Came> {
    match text {
        Text::Shown(capture) => match show(alloc, capture) {
            Ok(shown) => Some(Came::Shown(shown)),
            Err(NoMemory) => None,
        },
        Text::Judged(capture) => match check(alloc, capture) {
            Ok(verdict) => Some(Came::Judged(verdict)),
            Err(NoMemory) => None,
        },
        Text::Script(script) => read_script(alloc, script),
    }
}

/// What comes of reading this script; None where memory was refused.
fn read_script(alloc: Global, script: &str) -> Option<Came> {
    match ScriptMachine::read(alloc, script) {
        Ok(machine) => Some(Came::Machine(machine.sizes(), machine.live().len())),
        Err(ScriptFault::NoMemory) => None,
        Err(fault) => Some(Came::Fault(fault)),
    }
}

/// The same, done again until it isn't refused.
fn read_again(alloc: Global, text: Text, supply: &mut Supply) -> Result<Came, Stop> {
    supply.starve()?;
    for _ in 0..MOST_TIMES {
        if let Some(came) = read(alloc, text) {
            supply.relieve();
            return Ok(came);
        }
        supply.give();
    }
    Err(Stop::AlwaysRefused)
}

/// Appends what comes of a text, in words.
fn push_read(alloc: Global, text: Text, supply: &mut Supply, log: &mut String) -> Result<(), Stop> {
    let came = read_again(alloc, text, supply)?;
    push_line(alloc, log, &came)
}

/// What comes of each text, in words.
fn done(alloc: Global, supply: &mut Supply) -> Result<String, Stop> {
    let mut log = String::new(alloc);
    for text in &TEXTS {
        push_read(alloc, *text, supply, &mut log)?;
    }
    Ok(log)
}

/// What comes with memory.
fn with_memory(alloc: Global) -> Result<String, Stop> {
    done(alloc, &mut Supply::ample())
}

/// The same, begun anew where a request for memory of the test's own is refused.
fn once_more(alloc: Global) -> Result<String, Stop> {
    match with_memory(alloc) {
        Ok(log) => Ok(log),
        Err(_) => with_memory(alloc),
    }
}

/// The same where reading finds nothing at first, and how often it was refused.
fn without_memory(alloc: Global) -> Result<(String, u32), Stop> {
    let mut supply = Supply::scarce(alloc)?;
    let log = done(alloc, &mut supply)?;
    Ok((log, supply.refusals()))
}

#[test]
fn captures_and_scripts_without_memory(rt: HostRuntime) {
    let expected = with_memory(rt.alloc()).expect(&rt, "a log");
    let (found, refusals) = without_memory(rt.alloc()).expect(&rt, "a log without memory");
    expect_same(&rt, &found, &expected);
    expect_at_least(&rt, refusals, 8);
}

#[test]
fn reading_bears_one_refusal(rt: HostRuntime) {
    let alloc = rt.alloc();
    let first = once_more(alloc).expect(&rt, "a log");
    let second = once_more(alloc).expect(&rt, "a second log");
    expect_same(&rt, &first, &second);
}
