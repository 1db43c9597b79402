//! Ends and links that are not made.
ghost use Rattle.jdwp_target.specs.Options.{LivesWithin};
ghost use Rattle.jdwp_wire.specs.Limits.{standard_limits};

use crate::asserts::{expect_at_least, expect_same};
use crate::memory::supply::{MOST_TIMES, Stop};
use jdwp_debugger::Debugger;
use jdwp_link::Link;
use jdwp_machine::Machine;
use jdwp_script_machine::ScriptMachine;
use jdwp_target::{Target, TargetOptions};
use jdwp_wire::NoMemory;
use std::alloc::Global;
use std::process::Abort;
use test_parts::{MACHINE_A, Scarce};

/// What the process goes on with, in pages: more than a link takes.
const PAGES: usize = 512;

/// How many crumbs are given back before a call is done again.
const CRUMBS: u32 = 64;

/// What is made.
#[derive(Clone, Copy)]
enum Made {
    Target,
    Debugger,
    Link,
}

/// Whether it is made, a target or a link over this machine; it is dropped.
fn is_made<M: Machine + Drop>(alloc: Global, machine: M, options: TargetOptions, made: Made) -> bool
    requires { LivesWithin M.meaning standard_limits machine }
{
    match made {
        Made::Target => is_there(Target::new(alloc, machine, options)),
        Made::Debugger => is_there(Debugger::new(alloc)),
        Made::Link => is_there(Link::new(alloc, machine, options)),
    }
}

/// Whether something was made; it is dropped.
fn is_there<T: Drop>(made: Result<T, NoMemory>) -> bool {
    made.is_ok()
}

/// Options with which no thread is suspended as the first session begins.
fn options() -> Result<TargetOptions, Stop> {
    match TargetOptions::new(false, 65_535) {
        Some(options) => Ok(options),
        None => Err(Stop::CountLimit),
    }
}

/// Whether it is made while nothing is left but so many crumbs. The machine is read before, with memory.
fn is_made_of(alloc: Global, scarce: &mut Scarce, crumbs: u32, made: Made) -> Result<bool, Stop> {
    let options = options()?;
    let machine = ScriptMachine::read(alloc, MACHINE_A)?;
    if !scarce.starve() {
        return Err(Stop::MemoryLeft);
    }
    for _ in 0..crumbs {
        scarce.give();
    }
    let came = is_made(alloc, machine, options, made);
    scarce.relieve();
    Ok(came)
}

/// How often it is refused to make this while more and more is given back.
fn refusals(alloc: Global, scarce: &mut Scarce, made: Made) -> Result<u32, Stop> {
    for refused in 0..MOST_TIMES {
        if is_made_of(alloc, scarce, refused.saturating_mul(CRUMBS), made)? {
            return Ok(refused);
        }
    }
    Err(Stop::AlwaysRefused)
}

/// What is made with all memory taken is refused at each of its large requests, and made once there is enough.
fn is_refused(rt: &impl Abort, alloc: Global, made: Made, least: u32) {
    let mut scarce = Scarce::take(alloc, PAGES).expect(rt, "room for what is taken");
    let refused = refusals(alloc, &mut scarce, made);
    drop(scarce);
    expect_at_least(rt, refused.expect(rt, "it is made at last"), least);
}

#[test]
fn a_target_is_not_made(rt: HostRuntime) {
    is_refused(&rt, rt.alloc(), Made::Target, 2);
}

#[test]
fn a_debugger_is_not_made(rt: HostRuntime) {
    is_refused(&rt, rt.alloc(), Made::Debugger, 2);
}

#[test]
fn a_link_is_not_made(rt: HostRuntime) {
    is_refused(&rt, rt.alloc(), Made::Link, 4);
}

/// Whether it is made with memory.
fn is_made_once(alloc: Global, made: Made) -> Result<bool, Stop> {
    let options = options()?;
    let machine = ScriptMachine::read(alloc, MACHINE_A)?;
    Ok(is_made(alloc, machine, options, made))
}

/// Whether it is made, at most the second time.
fn is_made_again(alloc: Global, made: Made) -> Result<bool, Stop> {
    match is_made_once(alloc, made) {
        Ok(true) => Ok(true),
        Ok(false) | Err(_) => is_made_once(alloc, made),
    }
}

#[test]
fn making_ends_bears_one_refusal(rt: HostRuntime) {
    for made in [Made::Target, Made::Debugger, Made::Link] {
        let is_made = is_made_again(rt.alloc(), made).expect(&rt, "it is made or refused");
        expect_same(&rt, &is_made, &true);
    }
}
