//! A debugger of command lines: `line_debugger HOST:PORT` at a target at an address, `line_debugger --script FILE` at the machine that a script
//! describes, in the same process.
#![tactic(auto)]

mod debugging;
mod demo;
mod showing;

use anyhow::bail;
use debugging::LineDebugger;
use demo::demo;
use milunovesk::client::{Client, Options};
use milunovesk::{Order, Pipe, connect};
use std::{env, fs};

fn main(rt: HostRuntime) -> anyhow::Result<()> {
    let words = env::args(&rt)?.collect::<Vec<String>>(rt.alloc())?;
    match words.as_slice() {
        [_, word, file] if word.as_str() == "--script" => {
            let script = fs::read_to_string(&rt, file.as_str())?;
            debug(&rt, demo(rt.alloc(), script.as_str())?)
        }
        [_, address] => {
            let options = Options::new(Order::Apart);
            let client = connect(rt.alloc(), &rt, &rt, address.as_str(), options)?;
            debug(&rt, Box::new(rt.alloc(), client)?)
        }
        _ => bail!("line_debugger HOST:PORT | line_debugger --script FILE"),
    }
}

/// Debugs by command lines, until one leaves, there are no more, or the session is over.
fn debug<P: Pipe + Drop>(
    rt: &(impl Print + Input + AllocGlobal),
    client: Box<Client<P>>,
) -> anyhow::Result<()> {
    let mut debugger = LineDebugger::begin(rt.alloc(), client)?;
    debug_by(rt, &mut debugger)
}

/// The same by this debugger.
fn debug_by<P: Pipe + Drop>(
    rt: &(impl Print + Input + AllocGlobal),
    debugger: &mut LineDebugger<P>,
) -> anyhow::Result<()> {
    for line in rt.lines(rt.alloc()) {
        let line = line?;
        answer(rt, debugger, line.as_str().trim())?;
        if !debugger.client.is_open() {
            break;
        }
    }
    Ok(())
}

/// Answers one command line, in words.
fn answer<P: Pipe + Drop>(
    rt: &impl Print,
    debugger: &mut LineDebugger<P>,
    line: &str,
) -> anyhow::Result<()> {
    match debugger.answer(line) {
        Ok(text) => print!(rt; "{text}")?,
        Err(fault) => println!(rt; "{fault}")?,
    }
    Ok(())
}
