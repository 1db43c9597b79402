//! Lists of events of a link, one request for memory refused after the other.
use crate::acts::{ALL, Act, Wanted, events_of};
use crate::asserts::{expect_at_least, expect_same};
use crate::memory::links::{Ways, run_on_a, stands_on_a};
use crate::memory::supply::Stop;
use jdwp_layout::numbers::{
    ALL_THREADS, DISPOSE, HOLD_EVENTS, RELEASE_EVENTS, RESUME, RESUME_THREAD, SUSPEND,
    SUSPEND_COUNT,
};
use jdwp_link::LinkEvent;
use std::alloc::Global;
use std::process::Abort;

/// A breakpoint that counts is reached, and cleared twice.
static COUNTED: [Act; 12] = [
    Act::Greet,
    Act::Round(Wanted::SecondBreakpoint(0)),
    Act::Step(1),
    Act::Step(1),
    Act::Step(1),
    Act::Step(1),
    Act::Step(1),
    Act::Step(1),
    Act::ToDebugger(ALL),
    Act::DebuggerTurn,
    Act::Round(Wanted::Clear(1)),
    Act::Round(Wanted::Clear(1)),
];

/// A Suspend of all, and a list of all threads.
static ENDED_UNSEEN: [Act; 5] = [
    Act::Greet,
    Act::Round(Wanted::OfThread(SUSPEND_COUNT, 2)),
    Act::Step(2),
    Act::Round(Wanted::OfMachine(SUSPEND)),
    Act::Round(Wanted::OfMachine(ALL_THREADS)),
];

/// A Suspend crosses a breakpoint; frames are read before and after another thread is resumed and ends.
static FRAMES_AGAIN: [Act; 15] = [
    Act::Greet,
    Act::Round(Wanted::OfThread(SUSPEND_COUNT, 2)),
    Act::Round(Wanted::Breakpoint(1)),
    Act::Ask(Wanted::OfMachine(SUSPEND)),
    Act::Step(1),
    Act::Step(1),
    Act::ToTarget(ALL),
    Act::TargetTurn,
    Act::ToDebugger(ALL),
    Act::DebuggerTurn,
    Act::DebuggerTurn,
    Act::Round(Wanted::FramesOf(1)),
    Act::Round(Wanted::OfThread(RESUME_THREAD, 2)),
    Act::Step(2),
    Act::Round(Wanted::FramesOf(1)),
];

/// The target loses the connection with two replies under way, the debugger with a ticket that waits.
static LOST_WITH_REPLIES: [Act; 12] = [
    Act::Greet,
    Act::Ask(Wanted::OfMachine(SUSPEND)),
    Act::Ask(Wanted::OfMachine(RESUME)),
    Act::ToTarget(22),
    Act::TargetTurn,
    Act::TargetTurn,
    Act::TargetLoses,
    Act::ToDebugger(11),
    Act::DebuggerTurn,
    Act::DebuggerLoses,
    Act::Greet,
    Act::Round(Wanted::OfThread(SUSPEND_COUNT, 1)),
];

/// The debugger loses the connection with a ticket that waits, and a session begins anew.
static LOST_WITH_COUNTS: [Act; 10] = [
    Act::Greet,
    Act::Round(Wanted::Breakpoint(2)),
    Act::Round(Wanted::OfMachine(SUSPEND)),
    Act::Ask(Wanted::OfMachine(SUSPEND)),
    Act::DebuggerLoses,
    Act::ToTarget(ALL),
    Act::TargetTurn,
    Act::TargetLoses,
    Act::Greet,
    Act::Round(Wanted::Breakpoint(2)),
];

/// Events are held and released.
static HELD_EVENTS: [Act; 9] = [
    Act::Greet,
    Act::Round(Wanted::Breakpoint(2)),
    Act::Step(1),
    Act::Round(Wanted::OfMachine(HOLD_EVENTS)),
    Act::Step(1),
    Act::Round(Wanted::OfMachine(RELEASE_EVENTS)),
    Act::Step(1),
    Act::ToDebugger(ALL),
    Act::DebuggerTurn,
];

/// A death is reported, and its thread resumed.
static REPORTED_DEATH: [Act; 9] = [
    Act::Greet,
    Act::Round(Wanted::Deaths(1)),
    Act::Step(2),
    Act::ToDebugger(ALL),
    Act::DebuggerTurn,
    Act::Step(2),
    Act::Round(Wanted::OfThread(RESUME_THREAD, 2)),
    Act::Step(2),
    Act::Round(Wanted::OfThread(SUSPEND_COUNT, 2)),
];

/// A Dispose, with a ticket that waits behind it.
static DISPOSED: [Act; 8] = [
    Act::Greet,
    Act::Round(Wanted::OfMachine(SUSPEND)),
    Act::Ask(Wanted::OfMachine(DISPOSE)),
    Act::Ask(Wanted::OfThread(SUSPEND_COUNT, 1)),
    Act::ToTarget(ALL),
    Act::TargetTurn,
    Act::ToDebugger(ALL),
    Act::DebuggerTurn,
];

/// Of a list comes the same in one run with memory and in runs that find nothing at first: of one event at a time, each done again until it
/// is done, and of all that are left, each ended by the event that stopped it.
fn comes_without_memory(rt: &impl Abort, alloc: Global, acts: &[Act], least: u32) {
    let events = events_of(alloc, acts).expect(rt, "events");
    let standings = stands_on_a(alloc, &events).expect(rt, "standings");
    let with_memory = run_on_a(alloc, &events, &standings, Ways::WithMemory);
    let (expected, _) = with_memory.expect(rt, "a log");
    for ways in [Ways::EventByEvent, Ways::AllAtOnce] {
        let without_memory = run_on_a(alloc, &events, &standings, ways);
        let (found, refusals) = without_memory.expect(rt, "a log without memory");
        expect_same(rt, &found, &expected);
        expect_at_least(rt, refusals, least);
    }
}

/// What comes of a list with memory, in words.
fn with_memory(alloc: Global, acts: &[Act]) -> Result<String, Stop> {
    let events = events_of(alloc, acts)?;
    run_with_memory(alloc, &events)
}

/// What comes of these events with memory, in words.
fn run_with_memory(alloc: Global, events: &[LinkEvent]) -> Result<String, Stop> {
    let standings = stands_on_a(alloc, events)?;
    let (log, _) = run_on_a(alloc, events, &standings, Ways::WithMemory)?;
    Ok(log)
}

/// The same, begun anew where a request for memory of the test's own is refused.
fn once_more(alloc: Global, acts: &[Act]) -> Result<String, Stop> {
    match with_memory(alloc, acts) {
        Ok(log) => Ok(log),
        Err(_) => with_memory(alloc, acts),
    }
}

/// Of a list comes the same twice, though one request for memory may be refused.
fn bears_one_refusal(rt: &impl Abort, alloc: Global, acts: &[Act]) {
    let first = once_more(alloc, acts).expect(rt, "a log");
    let second = once_more(alloc, acts).expect(rt, "a second log");
    expect_same(rt, &first, &second);
}

#[test]
fn a_counted_breakpoint_without_memory(rt: HostRuntime) {
    comes_without_memory(&rt, rt.alloc(), &COUNTED, 6);
}

#[test]
fn a_thread_that_ended_unseen_without_memory(rt: HostRuntime) {
    comes_without_memory(&rt, rt.alloc(), &ENDED_UNSEEN, 4);
}

#[test]
fn frames_read_again_without_memory(rt: HostRuntime) {
    comes_without_memory(&rt, rt.alloc(), &FRAMES_AGAIN, 8);
}

#[test]
fn a_loss_with_replies_without_memory(rt: HostRuntime) {
    comes_without_memory(&rt, rt.alloc(), &LOST_WITH_REPLIES, 4);
}

#[test]
fn a_loss_with_counts_without_memory(rt: HostRuntime) {
    comes_without_memory(&rt, rt.alloc(), &LOST_WITH_COUNTS, 5);
}

#[test]
fn held_events_without_memory(rt: HostRuntime) {
    comes_without_memory(&rt, rt.alloc(), &HELD_EVENTS, 5);
}

#[test]
fn a_reported_death_without_memory(rt: HostRuntime) {
    comes_without_memory(&rt, rt.alloc(), &REPORTED_DEATH, 5);
}

#[test]
fn a_dispose_without_memory(rt: HostRuntime) {
    comes_without_memory(&rt, rt.alloc(), &DISPOSED, 3);
}

#[test]
fn a_counted_breakpoint_bears_one_refusal(rt: HostRuntime) {
    bears_one_refusal(&rt, rt.alloc(), &COUNTED);
}

#[test]
fn a_thread_that_ended_unseen_bears_one_refusal(rt: HostRuntime) {
    bears_one_refusal(&rt, rt.alloc(), &ENDED_UNSEEN);
}

#[test]
fn frames_read_again_bears_one_refusal(rt: HostRuntime) {
    bears_one_refusal(&rt, rt.alloc(), &FRAMES_AGAIN);
}

#[test]
fn a_loss_with_replies_bears_one_refusal(rt: HostRuntime) {
    bears_one_refusal(&rt, rt.alloc(), &LOST_WITH_REPLIES);
}

#[test]
fn a_loss_with_counts_bears_one_refusal(rt: HostRuntime) {
    bears_one_refusal(&rt, rt.alloc(), &LOST_WITH_COUNTS);
}

#[test]
fn held_events_bears_one_refusal(rt: HostRuntime) {
    bears_one_refusal(&rt, rt.alloc(), &HELD_EVENTS);
}

#[test]
fn a_reported_death_bears_one_refusal(rt: HostRuntime) {
    bears_one_refusal(&rt, rt.alloc(), &REPORTED_DEATH);
}

#[test]
fn a_dispose_bears_one_refusal(rt: HostRuntime) {
    bears_one_refusal(&rt, rt.alloc(), &DISPOSED);
}
