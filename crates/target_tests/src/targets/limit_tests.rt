//! Targets within limits other than the standard ones.
use crate::asserts::{expect_same, expect_same_for};
use crate::targets::sessions::{Act, Target, first_wrong};
use jdwp_script_machine::ScriptMachine;
use jdwp_target::{SetupFault, Stepped, TargetOptions};
use jdwp_wire::{FrameFault, Limits};
use std::alloc::Global;
use std::process::Abort;
use test_parts::{ALL_KINDS, MACHINE_A};

/// The least packets, so many live threads, one event request and one command that waits.
fn least(rt: &impl Abort, live: u32) -> Limits {
    Limits::new(2048, live, 1, 1).expect(rt, "limits")
}

/// What comes of making a target of the machine of this script within the least limits, no thread suspended.
fn made(rt: &impl Abort, alloc: Global, script: &str, live: u32) -> Result<Target, SetupFault> {
    let options = TargetOptions::new(false, 65535).expect(rt, "the count limit is taken");
    let limits = least(rt, live);
    let machine = ScriptMachine::read(alloc, script).expect(rt, "the script is read");
    Target::with_limits(alloc, machine, options, limits)
}

/// Of each act of a session of a target of this script within the least limits comes what it says.
fn goes_within(rt: &impl Abort, alloc: Global, script: &str, live: u32, acts: &[Act]) {
    let mut target = made(rt, alloc, script, live).expect(rt, "a target");
    expect_same_for(rt, &first_wrong(rt, alloc, &mut target, acts), &None, &live);
}

/// A second event request, and a packet that is longer than those may be.
static OF_ONE_REQUEST: [Act; 5] = [
    Act::Says(
        "0000002b 00000002 00 0f 01 02 00 00000001 07 01 000000000000000a 0000000000000014 0000000000000003",
        "0000000f 00000002 80 0000 00000001",
    ),
    Act::Says(
        "0000002b 00000003 00 0f 01 02 02 00000001 07 01 000000000000000a 0000000000000014 0000000000000003",
        "0000000b 00000003 80 0071",
    ),
    Act::Requests(1),
    Act::Fails("00000801", FrameFault::TooLong),
    Act::Open(false),
];

#[test]
fn requests_and_packets_are_limited(rt: HostRuntime) {
    goes_within(&rt, rt.alloc(), MACHINE_A, 2, &OF_ONE_REQUEST);
    expect_same(&rt, &FrameFault::TooLong.number(), &2);
}

/// Thread 1 starts thread 2 at its fifth step.
static STARTS_ANOTHER: [Act; 3] = [
    Act::Steps(1, 4, Stepped::Quiet, ""),
    Act::Steps(1, 1, Stepped::Quiet, ""),
    Act::Lives(2),
];

/// It can't, where one thread may live.
static STARTS_NO_OTHER: [Act; 3] = [
    Act::Steps(1, 4, Stepped::Quiet, ""),
    Act::Steps(1, 2, Stepped::Frozen, ""),
    Act::Lives(1),
];

#[test]
fn live_threads_are_limited(rt: HostRuntime) {
    goes_within(&rt, rt.alloc(), ALL_KINDS, 2, &STARTS_ANOTHER);
    goes_within(&rt, rt.alloc(), ALL_KINDS, 1, &STARTS_NO_OTHER);
}

/// No target is made where more threads live than may; the numbers of the faults.
#[test]
fn too_many_threads(rt: HostRuntime) {
    let fault = made(&rt, rt.alloc(), MACHINE_A, 1).err();
    expect_same(&rt, &fault, &Some(SetupFault::TooManyThreads));
    expect_same(&rt, &made(&rt, rt.alloc(), MACHINE_A, 2).err(), &None);
    expect_same(&rt, &SetupFault::TooManyThreads.number(), &61);
    expect_same(&rt, &SetupFault::NoMemory.number(), &62);
    let text = format!(in rt.alloc(); "{}", SetupFault::TooManyThreads).expect(&rt, "memory");
    let said = "fault 61: more live threads than the limits let live";
    expect_same(&rt, &text.as_str(), &said);
}
