//! A debugger and a target in one process, with nothing between them: the debugger asks the suspend count of a thread again and again.
//!
//! `both_ends ROUNDS` drives both ends by hand, `both_ends bytes ROUNDS` so too, where the data of each command are given as bytes, and
//! `both_ends link ROUNDS` by a link, an event at a time.
//!
//! `both_ends client HOST:PORT` asks the same of a target at an address by a client, and `both_ends hand HOST:PORT` by a debugger whose bytes are
//! moved by hand; `both_ends typed` and `both_ends untyped` read a long reply. How often, they read from standard input.
//!
//! `bench/client.py`, `bench/both_ends.py`, `bench/link.py` and `foreign/bench/speed.py` run it, for how many commands both ends together ask and answer in a second.
#![tactic(auto)]

mod counts;
mod linked;
mod repeated;

use counts::{Given, answered};
use linked::answered_by_link;
use milunovesk::client::Options;
use milunovesk::{Order, connect};
use repeated::{ByClient, ByHand, Classes, measure};
use std::env;

fn main(rt: HostRuntime) -> anyhow::Result<()> {
    let words = env::args(&rt)?.collect::<Vec<String>>(rt.alloc())?;
    match words.as_slice() {
        [_, way, given] => run(&rt, way.as_str(), given.as_str()),
        [_, way] => run(&rt, way.as_str(), ""),
        _ => run(&rt, "1", ""),
    }
}

/// Does what a word says, with the number or the address behind it.
fn run(rt: &HostRuntime, way: &str, given: &str) -> anyhow::Result<()> {
    let alloc = rt.alloc();
    match way {
        "client" => ask_by_client(rt, given),
        "hand" => ask_by_hand(rt, given),
        "typed" => measure(rt, Classes::new(alloc, true)?),
        "untyped" => measure(rt, Classes::new(alloc, false)?),
        "bytes" => tell(rt, answered(alloc, Given::Bytes, given.parse::<u32>()?)?),
        "link" => tell(rt, answered_by_link(alloc, given.parse::<u32>()?)?),
        rounds => tell(rt, answered(alloc, Given::Items, rounds.parse::<u32>()?)?),
    }
}

/// Says how many answers came.
fn tell(rt: &impl Print, answered: u64) -> anyhow::Result<()> {
    println!(rt; "{answered} answered")?;
    Ok(())
}

/// Asks a target at an address by a client.
fn ask_by_client(rt: &HostRuntime, address: &str) -> anyhow::Result<()> {
    let client = connect(rt.alloc(), rt, rt, address, Options::new(Order::Apart))?;
    measure(rt, ByClient::begin(rt.alloc(), client)?)
}

/// Asks a target at an address by a debugger whose bytes are moved by hand.
fn ask_by_hand(rt: &HostRuntime, address: &str) -> anyhow::Result<()> {
    let client = connect(rt.alloc(), rt, rt, address, Options::new(Order::Apart))?;
    measure(rt, ByHand::begin(rt.alloc(), client.into_pipe())?)
}
