//! Each of the callers of `milunovesk_uses`, run once.
use crate::asserts::{expect_same, expect_that};
use milunovesk::{Debugger, Link, LinkEvent, ObjectId, Refused, TargetOptions};
use milunovesk_uses::{
    OneStep, answer, ask_for_frames, first_faulty_line, one_step_target, settle, shown_count,
    shows_suspended,
};
use std::alloc::Global;
use std::process::Abort;

/// The thread of the machine.
const THREAD: ObjectId = ObjectId(1);

/// More bytes than are under way at any time.
const ALL: usize = 65_536;

/// What a target over the machine sends first: the handshake, and VM_START of thread 1, which suspends all.
static GREETING: [u8; 43] = [
    0x4a, 0x44, 0x57, 0x50, 0x2d, 0x48, 0x61, 0x6e, 0x64, 0x73, 0x68, 0x61, 0x6b, 0x65, //
    0x00, 0x00, 0x00, 0x1d, 0x00, 0x00, 0x00, 0x01, 0x00, 0x40, 0x64, 0x02, 0x00, 0x00, 0x00, 0x01,
    0x5a, 0x00, 0x00, 0x00, 0x00, 0x00, 0x00, 0x00, 0x00, 0x00, 0x00, 0x00, 0x01, //
];

/// All threads begin suspended.
fn all_suspended(rt: &impl Abort) -> TargetOptions {
    TargetOptions::new(true, 65_535).expect(rt, "a limit that there may be")
}

/// A handshake is the beginning of a session, and a line that is none is the first that is faulty.
#[test]
fn a_capture_is_judged(rt: HostRuntime) {
    let rows = [
        ("> 4a4457502d48616e647368616b65\n", None),
        ("> 4a4457502d48616e647368616b65\nno line\n", Some(2)),
    ];
    for (capture, want) in rows {
        let line = first_faulty_line(rt.alloc(), capture).expect(&rt, "memory");
        expect_same(&rt, &line, &want);
    }
}

#[test]
fn a_target_over_ones_own_machine_answers(rt: HostRuntime) {
    let mut target = one_step_target(rt.alloc(), all_suspended(&rt)).expect(&rt, "memory");
    target.accept();
    let mut out = [0; 64];
    let counts = answer(&mut target, b"JDWP-Handshake", &mut out).expect(&rt, "a handshake");
    expect_same(&rt, &counts, &(14, 43));
    expect_that(&rt, out.starts_with(&GREETING));
}

/// Nothing can be asked of a debugger whose session has not begun.
#[test]
fn a_closed_debugger_refuses_what_is_asked(rt: HostRuntime) {
    let mut debugger = Debugger::new(rt.alloc()).expect(&rt, "memory");
    let asked = ask_for_frames(rt.alloc(), &mut debugger, THREAD);
    expect_same(&rt, &asked.err(), &Some(Refused::Closed));
}

/// The handshake, VM_START and the widths of ids go from end to end; then the thread is shown as suspended.
const UNTIL_SHOWN: [LinkEvent; 10] = [
    LinkEvent::Attach,
    LinkEvent::ToTarget(ALL),
    LinkEvent::TargetTurn,
    LinkEvent::ToDebugger(ALL),
    LinkEvent::DebuggerTurn,
    LinkEvent::DebuggerTurn,
    LinkEvent::ToTarget(ALL),
    LinkEvent::TargetTurn,
    LinkEvent::ToDebugger(ALL),
    LinkEvent::DebuggerTurn,
];

/// A link over the machine, on the heap.
fn linked(rt: &impl Abort, alloc: Global) -> Box<Link<OneStep>> {
    let link = Link::new(alloc, OneStep::new(alloc), all_suspended(rt)).expect(rt, "memory");
    Box::new(alloc, link).expect(rt, "memory")
}

/// The thread is shown as suspended, with the count that VM_START gave it; what is told is that event alone.
#[test]
fn a_thread_of_ones_own_machine_is_shown_suspended(rt: HostRuntime) {
    let mut link = linked(&rt, rt.alloc());
    let shown = shows_suspended(&mut link, &UNTIL_SHOWN, THREAD);
    expect_that(&rt, shown.expect(&rt, "memory"));
    let mut link = linked(&rt, rt.alloc());
    let told = settle(&mut link, &UNTIL_SHOWN).expect(&rt, "memory");
    expect_same(&rt, &told.len(), &1);
    expect_same(&rt, &shown_count(&link, THREAD), &Some(1));
}
