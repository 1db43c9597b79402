//! A debugger and a target in one process: a breakpoint is set and reached, the frames of the thread that is held are read, the connection is
//! lost, and a new session begins.
#![tactic(auto)]

ghost use Rattle.milunovesk.specs.Target.Options.{LivesWithin};
ghost use Rattle.milunovesk.specs.Wire.Limits.{standard_limits};

mod commands;
mod events;

use anyhow::Context;
use commands::{breakpoint, frame_count};
use events::{ask, exchange, run};
use milunovesk::commands::{thread_reference, virtual_machine};
use milunovesk::{Link, LinkEvent, Machine, ObjectId, ScriptMachine, TargetOptions};
use std::alloc::Global;

/// One thread, which calls a method, moves in it to index 3, and returns.
const SCRIPT: &str = "{\"name\":\"one\",\"sizes\":[8,8,8,8,8],
\"groups\":[{\"id\":5,\"name\":\"main\",\"parent\":0}],\"objects\":[],
\"classes\":[{\"id\":10,\"tag\":1,\"signature\":\"LMain;\",\"modifiers\":1,
 \"super\":0,\"interfaces\":[],\"source\":null,\"fields\":[],
 \"methods\":[{\"id\":20,\"name\":\"run\",\"signature\":\"()V\",\"modifiers\":1,
  \"args\":0,\"last\":9,\"lines\":[],\"slots\":[]}]}],
\"threads\":[{\"id\":1,\"name\":\"main\",\"group\":5,\"steps\":[
 [\"call\",30,10,20,0,[]],[\"go\",1],[\"go\",3],[\"return\",[\"V\",0]]]}]}";

const THREAD: ObjectId = ObjectId(1);

fn main(rt: HostRuntime) -> anyhow::Result<()> {
    let options = TargetOptions::new(true, 65_535).context("a limit that there may be")?;
    let machine = ScriptMachine::read(rt.alloc(), SCRIPT)?;
    debug(&rt, rt.alloc(), machine, options)
}

/// Both ends over this machine, from the first session to the second.
fn debug<M: Machine + Drop>(
    rt: &impl Print,
    alloc: Global,
    machine: M,
    options: TargetOptions,
) -> anyhow::Result<()>
    requires { LivesWithin M.meaning standard_limits machine }
{
    let mut link = Box::new(alloc, Link::new(alloc, machine, options)?)?;
    debug_over(rt, alloc, &mut link)
}

/// The same over this link.
fn debug_over<M: Machine + Drop>(
    rt: &impl Print,
    alloc: Global,
    link: &mut Link<M>,
) -> anyhow::Result<()> {
    stop_at_breakpoint(rt, alloc, link)?;
    lose_and_attach(rt, alloc, link)
}

/// From the beginning of a session, in which all threads are suspended, until the frames of a thread at a breakpoint are read.
fn stop_at_breakpoint<M: Machine + Drop>(
    rt: &impl Print,
    alloc: Global,
    link: &mut Link<M>,
) -> anyhow::Result<()> {
    run(link, &[LinkEvent::Attach])?;
    exchange(alloc, link)?;
    show(rt, "attached", link)?;
    ask(alloc, link, breakpoint(alloc)?)?;
    ask(alloc, link, virtual_machine::resume(alloc))?;
    show(rt, "resumed", link)?;
    step_until_held(alloc, link)?;
    show(rt, "breakpoint reached", link)?;
    let answer = ask(alloc, link, thread_reference::frames(alloc, THREAD, 0, -1)?)?;
    let count = frame_count(&answer);
    println!(rt; "thread 1 has {count} frame")?;
    Ok(())
}

/// The thread steps until the debugger holds it, at most eight times.
fn step_until_held<M: Machine + Drop>(alloc: Global, link: &mut Link<M>) -> anyhow::Result<()> {
    for _ in 0..8u32 {
        if link.debugger().mirror().is_held(THREAD) {
            break;
        }
        run(link, &[LinkEvent::Step(THREAD)])?;
        exchange(alloc, link)?;
    }
    Ok(())
}

/// The connection is lost at both ends, and a new session begins.
fn lose_and_attach<M: Machine + Drop>(
    rt: &impl Print,
    alloc: Global,
    link: &mut Link<M>,
) -> anyhow::Result<()> {
    run(link, &[LinkEvent::TargetLoses, LinkEvent::DebuggerLoses])?;
    show(rt, "lost", link)?;
    run(link, &[LinkEvent::Attach])?;
    exchange(alloc, link)?;
    show(rt, "attached anew", link)
}

/// What the debugger shows of the thread, and what the target says of it.
fn show<M: Machine + Drop>(rt: &impl Print, stage: &str, link: &Link<M>) -> anyhow::Result<()> {
    let mirror = link.debugger().mirror();
    let held = if mirror.is_held(THREAD) {
        "held"
    } else {
        "not held"
    };
    let requests = mirror.requests().len();
    let count = link.target().count(THREAD).context("it lives")?;
    println!(rt;
        "{stage}: thread 1 is {held}, its suspend count is {count}, requests: {requests}"
    )?;
    Ok(())
}
