//! What turns do with the bytes of a target that sends replies and composites by threads of their own.
use crate::asserts::{expect_same, expect_that};
use crate::debuggers::boxed::{debugger, debugger_apart};
use crate::debuggers::turning_tests::{Act, HELLO, SIZES, Tells, Wanted, goes_on_as_told};
use jdwp_debugger::Order;
use std::alloc::Global;
use std::process::Abort;
use test_parts::commands;

/// THREAD_START of thread 1, policy ALL, in a packet with the id 1.
const START: &str = "0000001d 00000001 00 40 64 02 00000001 06 00000000 0000000000000001";

static THREADS_ARE_NOT_KNOWN: [Act; 15] = [
    Act::Attaches(true),
    Act::Reads(HELLO, Tells::Hello, &[]),
    Act::Reads(START, Tells::Parked, &[]),
    Act::Reads(START, Tells::Parked, &[]),
    Act::Reads(SIZES, Tells::Sizes(2), &[1, 1, 1]),
    Act::Asks(Wanted::OfThread(commands::RESUME_THREAD, 1), 1),
    Act::Reads("0000000b 00000002 80 0000", Tells::Answered(1), &[2]),
    Act::Reads(START, Tells::Seen, &[1]),
    Act::Reads(START, Tells::Seen, &[1]),
    Act::Asks(Wanted::OfThread(commands::SUSPEND_COUNT, 1), 2),
    Act::Reads(
        "0000000f 00000003 80 0000 00000001",
        Tells::Answered(2),
        &[3],
    ),
    Act::Asks(Wanted::Plain(commands::ALL_THREADS), 3),
    Act::Reads(
        "00000017 00000004 80 0000 00000001 0000000000000001",
        Tells::Answered(3),
        &[4],
    ),
    Act::Knows(&[]),
    Act::Stands(true, true),
];

/// Composites of a thread come whatever was read of it before, and neither they nor a count make it known.
#[test]
fn threads_are_not_known(rt: HostRuntime) {
    let mut debugger = debugger_apart(&rt, rt.alloc());
    expect_that(&rt, debugger.order() == Order::Apart);
    goes_on_as_told(&rt, rt.alloc(), &mut debugger, &THREADS_ARE_NOT_KNOWN);
}

/// VM_DEATH as a request asked for it with the policy ALL, and as it is sent by itself.
const DEATHS: &str = "0000001a 00000002 00 40 64 02 00000002 63 00000007 63 00000000";

static REQUESTS_ARE_KEPT: [Act; 12] = [
    Act::Attaches(true),
    Act::Reads(HELLO, Tells::Hello, &[]),
    Act::Reads(SIZES, Tells::Sizes(0), &[1]),
    Act::Asks(Wanted::Request(99), 1),
    Act::Asks(Wanted::Request(6), 2),
    Act::Reads(
        "0000000f 00000002 80 0000 00000007",
        Tells::Answered(1),
        &[2],
    ),
    Act::Reads(
        "0000000f 00000003 80 0000 00000008",
        Tells::Answered(2),
        &[3],
    ),
    Act::Reads(START, Tells::Seen, &[1]),
    Act::Requests(&[(7, 99), (8, 6)]),
    Act::Reads(DEATHS, Tells::Seen, &[2]),
    Act::Requests(&[]),
    Act::Stands(false, false),
];

/// Requests are kept as ever, and a death that was asked for ends the session.
#[test]
fn requests_are_kept(rt: HostRuntime) {
    let mut debugger = debugger_apart(&rt, rt.alloc());
    goes_on_as_told(&rt, rt.alloc(), &mut debugger, &REQUESTS_ARE_KEPT);
}

/// What a target may send in neither order, and the number of the fault that it is.
static FAULTY: [(&str, u16); 12] = [
    ("0000000b 00000009 80 0000", 42),
    ("0000000f 00000002 80 0000 ffffffff", 43),
    ("0000000b 00000002 80 0000", 43),
    ("0000000b 00000002 00 40 64", 45),
    ("00000010 00000002 00 40 64 00 00000000", 45),
    (
        "0000001d 00000002 00 40 64 03 00000001 06 00000000 0000000000000002",
        45,
    ),
    (
        "0000002a 00000002 00 40 64 00 00000002 06 00000000 0000000000000002
             06 00000000 0000000000000003",
        45,
    ),
    ("00000015 00000002 00 40 64 02 00000001 63 00000000", 45),
    (
        "00000022 00000002 00 40 64 00 00000002 63 00000000 06 00000000 0000000000000002",
        45,
    ),
    (
        "0000001a 00000002 00 40 64 03 00000002 63 00000007 63 00000000",
        45,
    ),
    ("0000000b 00000002 00 01 08", 45),
    ("0000000b 00000002 01 0000", 41),
];

/// What a target may send by threads of their own alone, and the number of the fault that it is where each packet is sent as it acts: a reply
/// with an error and data, a composite of a thread that was suspended, and VM_DEATH as it was asked for.
static TAKEN_APART: [(&str, u16, Tells); 3] = [
    ("0000000c 00000002 80 000a 00", 43, Tells::Answered(1)),
    (
        "0000001d 00000002 00 40 64 00 00000001 06 00000000 0000000000000001",
        45,
        Tells::Seen,
    ),
    (DEATHS, 45, Tells::Seen),
];

/// A session in which thread 1 was suspended, to which these bytes come, tells this of them.
fn tells(rt: &impl Abort, alloc: Global, order: Order, input: &'static str, told: Tells) {
    let ids: &'static [u32] = match told {
        Tells::Fails(_) => &[],
        _ => &[2],
    };
    let acts = [
        Act::Attaches(true),
        Act::Reads(HELLO, Tells::Hello, &[]),
        Act::Reads(SIZES, Tells::Sizes(0), &[1]),
        Act::Reads(START, Tells::Seen, &[1]),
        Act::Asks(Wanted::OfThread(commands::SUSPEND_COUNT, 1), 1),
        Act::Reads(input, told, ids),
    ];
    let mut debugger = match order {
        Order::One => debugger(rt, alloc, 1),
        Order::Apart => debugger_apart(rt, alloc),
    };
    expect_same(rt, &debugger.order(), &order);
    goes_on_as_told(rt, alloc, &mut debugger, &acts);
}

#[test]
fn faults_in_either_order(rt: HostRuntime) {
    for &(input, number) in FAULTY.iter() {
        for order in [Order::One, Order::Apart] {
            tells(&rt, rt.alloc(), order, input, Tells::Fails(number));
        }
    }
}

#[test]
fn faults_in_one_order(rt: HostRuntime) {
    for &(input, number, told) in TAKEN_APART.iter() {
        tells(&rt, rt.alloc(), Order::One, input, Tells::Fails(number));
        tells(&rt, rt.alloc(), Order::Apart, input, told);
    }
}
