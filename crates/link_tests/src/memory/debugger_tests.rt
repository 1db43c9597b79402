//! Sessions of a debugger whose turns and commands are refused.
use crate::asserts::{expect_at_least, expect_same};
use crate::memory::debuggers::{Act, Wanted, debugger, done};
use crate::memory::supply::{Stop, Supply};
use jdwp_debugger::{Debugger, Order};
use std::alloc::Global;
use std::process::Abort;
use test_parts::commands;

const HELLO: &str = "4a4457502d48616e647368616b65";

/// The reply to IDSizes under id 1, ids 8 bytes wide.
const SIZES: &str = "0000001f 00000001 80 0000 00000008 00000008 00000008 00000008 00000008";

/// VM_START of thread 1, policy NONE.
const VM_START: &str = "0000001d 00000001 00 40 64 00 00000001 5a 00000000 0000000000000001";

/// Composites that wait for the widths of ids, a breakpoint that crosses a Suspend, and its reply.
static CROSSED: [Act; 9] = [
    Act::Attaches,
    Act::Reads(HELLO),
    Act::Reads(VM_START),
    Act::Reads(SIZES),
    Act::Asks(Wanted::OfThread(commands::SUSPEND_COUNT, 2)),
    Act::Reads("0000000f 00000002 80 0000 00000000"),
    Act::Asks(Wanted::Plain(commands::SUSPEND)),
    Act::Reads(
        "00000036 00000002 00 40 64 01 00000001 02 00000001 0000000000000001
             01 000000000000000a 0000000000000014 0000000000000003",
    ),
    Act::Reads("0000000b 00000003 80 0000"),
];

/// Requests that are set and cleared.
static REQUESTED: [Act; 16] = [
    Act::Attaches,
    Act::Reads(HELLO),
    Act::Reads(VM_START),
    Act::Reads(SIZES),
    Act::Asks(Wanted::Request(2)),
    Act::Asks(Wanted::Request(6)),
    Act::Asks(Wanted::Request(7)),
    Act::Reads("0000000f 00000002 80 0000 00000001"),
    Act::Reads("0000000f 00000003 80 0000 00000002"),
    Act::Reads("0000000f 00000004 80 0000 00000002"),
    Act::Asks(Wanted::Clear(7, 2)),
    Act::Reads("0000000b 00000005 80 0000"),
    Act::Asks(Wanted::Plain(commands::CLEAR_ALL_BREAKPOINTS)),
    Act::Reads("0000000b 00000006 80 0000"),
    Act::Asks(Wanted::Unfit),
    Act::Loses,
];

/// Replies in another order, an error, threads that are listed and forgotten, a death, and bytes that are no reply to anything.
static TAUGHT: [Act; 18] = [
    Act::Attaches,
    Act::Reads(HELLO),
    Act::Reads(SIZES),
    Act::Asks(Wanted::OfThread(commands::SUSPEND_COUNT, 3)),
    Act::Asks(Wanted::OfThread(commands::THREAD_NAME, 1)),
    Act::Asks(Wanted::Plain(commands::ALL_THREADS)),
    Act::Reads("0000000b 00000003 80 000a"),
    Act::Reads("0000000f 00000002 80 0000 00000004"),
    Act::Reads("00000017 00000004 80 0000 00000001 0000000000000002"),
    Act::Reads("0000001d 00000002 00 40 64 01 00000001 07 00000001 0000000000000002"),
    Act::Asks(Wanted::OfThread(commands::RESUME_THREAD, 2)),
    Act::Reads("0000000b 00000005 80 0000"),
    Act::Asks(Wanted::OfThread(commands::SUSPEND_COUNT, 2)),
    Act::Asks(Wanted::Plain(commands::SUSPEND)),
    Act::Reads("0000000b 00000006 80 000a"),
    Act::Reads("0000000b 00000009 80 0000"),
    Act::Asks(Wanted::Plain(commands::SUSPEND)),
    Act::Loses,
];

/// Where replies and composites are sent by threads of their own: a composite that waits for the widths of ids, threads that a count, a
/// composite and a Suspend are told of, a request that is made, a Resume that waits, and an error.
static FOLLOWED: [Act; 18] = [
    Act::Attaches,
    Act::Reads(HELLO),
    Act::Reads(VM_START),
    Act::Reads(SIZES),
    Act::Asks(Wanted::OfThread(commands::SUSPEND_COUNT, 2)),
    Act::Reads("0000000f 00000002 80 0000 00000002"),
    Act::Asks(Wanted::Plain(commands::SUSPEND)),
    Act::Reads("0000001d 00000002 00 40 64 01 00000001 07 00000001 0000000000000003"),
    Act::Reads("0000000b 00000003 80 0000"),
    Act::Asks(Wanted::Request(2)),
    Act::Reads("0000000f 00000004 80 0000 00000001"),
    Act::Asks(Wanted::Plain(commands::RESUME)),
    Act::Reads("0000001d 00000003 00 40 64 02 00000001 07 00000001 0000000000000003"),
    Act::Reads("0000000b 00000005 80 0000"),
    Act::Asks(Wanted::OfThread(commands::RESUME_THREAD, 2)),
    Act::Reads("0000000b 00000006 80 000a"),
    Act::Asks(Wanted::Unfit),
    Act::Loses,
];

/// What comes of a list with memory, in words.
fn with_memory(alloc: Global, order: Order, acts: &[Act]) -> Result<String, Stop> {
    let mut debugger = debugger(alloc, order)?;
    done(alloc, &mut debugger, acts, &mut Supply::ample())
}

/// The same, begun anew where a request for memory of the test's own is refused.
fn once_more(alloc: Global, order: Order, acts: &[Act]) -> Result<String, Stop> {
    match with_memory(alloc, order, acts) {
        Ok(log) => Ok(log),
        Err(_) => with_memory(alloc, order, acts),
    }
}

/// What comes of a list whose calls find nothing at first, and how often they were refused.
fn without_memory(alloc: Global, order: Order, acts: &[Act]) -> Result<(String, u32), Stop> {
    let mut debugger = debugger(alloc, order)?;
    done_without_memory(alloc, &mut debugger, acts)
}

/// The same, done with this new debugger.
fn done_without_memory(
    alloc: Global,
    debugger: &mut Debugger,
    acts: &[Act],
) -> Result<(String, u32), Stop> {
    let mut supply = Supply::scarce(alloc)?;
    let log = done(alloc, debugger, acts, &mut supply)?;
    Ok((log, supply.refusals()))
}

/// Of a list comes the same with memory and without, and so often calls are refused at least.
fn comes_without_memory(rt: &impl Abort, alloc: Global, order: Order, acts: &[Act], least: u32) {
    let expected = with_memory(alloc, order, acts).expect(rt, "a log");
    let (found, refusals) = without_memory(alloc, order, acts).expect(rt, "a log without memory");
    expect_same(rt, &found, &expected);
    expect_at_least(rt, refusals, least);
}

/// Of a list comes the same twice, though one request for memory may be refused.
fn bears_one_refusal(rt: &impl Abort, alloc: Global, order: Order, acts: &[Act]) {
    let first = once_more(alloc, order, acts).expect(rt, "a log");
    let second = once_more(alloc, order, acts).expect(rt, "a second log");
    expect_same(rt, &first, &second);
}

#[test]
fn a_crossed_suspend_without_memory(rt: HostRuntime) {
    comes_without_memory(&rt, rt.alloc(), Order::One, &CROSSED, 4);
}

#[test]
fn kept_requests_without_memory(rt: HostRuntime) {
    comes_without_memory(&rt, rt.alloc(), Order::One, &REQUESTED, 7);
}

#[test]
fn taught_threads_without_memory(rt: HostRuntime) {
    comes_without_memory(&rt, rt.alloc(), Order::One, &TAUGHT, 4);
}

#[test]
fn a_crossed_suspend_bears_one_refusal(rt: HostRuntime) {
    bears_one_refusal(&rt, rt.alloc(), Order::One, &CROSSED);
}

#[test]
fn keeping_requests_bears_one_refusal(rt: HostRuntime) {
    bears_one_refusal(&rt, rt.alloc(), Order::One, &REQUESTED);
}

#[test]
fn learning_threads_bears_one_refusal(rt: HostRuntime) {
    bears_one_refusal(&rt, rt.alloc(), Order::One, &TAUGHT);
}

#[test]
fn a_followed_target_without_memory(rt: HostRuntime) {
    comes_without_memory(&rt, rt.alloc(), Order::Apart, &FOLLOWED, 4);
}

#[test]
fn following_a_target_bears_one_refusal(rt: HostRuntime) {
    bears_one_refusal(&rt, rt.alloc(), Order::Apart, &FOLLOWED);
}
