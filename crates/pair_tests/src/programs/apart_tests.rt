//! Sessions with a target that sends replies and events by threads of their own, as Java machines do, worked out by hand.
use crate::asserts::expect_same_for;
use jdwp_attach::Attached;
use jdwp_debugger::Order;
use jdwp_end::{Ended, Streams};
use jdwp_program::attach_plan;
use jdwp_wire::Limits;
use std::alloc::Global;
use std::io;
use std::io::Cursor;
use std::process::Abort;

const HELLO: [u8; 14] = [
    0x4a, 0x44, 0x57, 0x50, 0x2d, 0x48, 0x61, 0x6e, 0x64, 0x73, 0x68, 0x61, 0x6b, 0x65,
];

/// The reply to IDSizes: 8 bytes each.
const SIZES: [u8; 31] = [
    0x00, 0x00, 0x00, 0x1f, 0x00, 0x00, 0x00, 0x01, 0x80, 0x00, 0x00, 0x00, 0x00, 0x00, 0x08, 0x00,
    0x00, 0x00, 0x08, 0x00, 0x00, 0x00, 0x08, 0x00, 0x00, 0x00, 0x08, 0x00, 0x00, 0x00, 0x08,
];

/// The reply to the EventRequest.Set: request 5.
const REQUEST_5: [u8; 15] = [
    0x00, 0x00, 0x00, 0x0f, 0x00, 0x00, 0x00, 0x02, 0x80, 0x00, 0x00, 0x00, 0x00, 0x00, 0x05,
];

/// Thread 1 entered a method of request 5, and was suspended (EVENT_THREAD).
const ENTRY: [u8; 54] = [
    0x00, 0x00, 0x00, 0x36, 0x00, 0x00, 0x00, 0x01, 0x00, 0x40, 0x64, //
    0x01, 0x00, 0x00, 0x00, 0x01, //
    0x28, 0x00, 0x00, 0x00, 0x05, 0x00, 0x00, 0x00, 0x00, 0x00, 0x00, 0x00, 0x01, //
    0x01, 0x00, 0x00, 0x00, 0x00, 0x00, 0x00, 0x00, 0x06, 0x00, 0x00, 0x00, 0x00, 0x00, 0x00, 0x00,
    0x40, 0x00, 0x00, 0x00, 0x00, 0x00, 0x00, 0x00, 0x09,
];

/// The reply to the Resume.
const RESUMED: [u8; 11] = [
    0x00, 0x00, 0x00, 0x0b, 0x00, 0x00, 0x00, 0x03, 0x80, 0x00, 0x00,
];

/// Replies to a SuspendCount under the next id: 0, and 1.
const COUNT_0: [u8; 15] = [
    0x00, 0x00, 0x00, 0x0f, 0x00, 0x00, 0x00, 0x04, 0x80, 0x00, 0x00, 0x00, 0x00, 0x00, 0x00,
];

const COUNT_1: [u8; 15] = [
    0x00, 0x00, 0x00, 0x0f, 0x00, 0x00, 0x00, 0x04, 0x80, 0x00, 0x00, 0x00, 0x00, 0x00, 0x01,
];

/// The handshake, IDSizes, EventRequest.Set of METHOD_ENTRY with EVENT_THREAD, and Resume of thread 1.
const ASKED: [u8; 61] = [
    0x4a, 0x44, 0x57, 0x50, 0x2d, 0x48, 0x61, 0x6e, 0x64, 0x73, 0x68, 0x61, 0x6b, 0x65, //
    0x00, 0x00, 0x00, 0x0b, 0x00, 0x00, 0x00, 0x01, 0x00, 0x01, 0x07, //
    0x00, 0x00, 0x00, 0x11, 0x00, 0x00, 0x00, 0x02, 0x00, 0x0f, 0x01, 0x28, 0x01, 0x00, 0x00, 0x00,
    0x00, //
    0x00, 0x00, 0x00, 0x13, 0x00, 0x00, 0x00, 0x03, 0x00, 0x0b, 0x03, 0x00, 0x00, 0x00, 0x00, 0x00,
    0x00, 0x00, 0x01,
];

/// SuspendCount of thread 1, which no line of the plans asks.
const OWN: [u8; 19] = [
    0x00, 0x00, 0x00, 0x13, 0x00, 0x00, 0x00, 0x04, 0x00, 0x0b, 0x0c, 0x00, 0x00, 0x00, 0x00, 0x00,
    0x00, 0x00, 0x01,
];

/// Thread 1 is resumed behind its event, and enters a method again.
const RESUMED_BEHIND: &str = "ask 15 1 280100000000
events 1
ask 11 3 0000000000000001
events 2
answers
mirror
";

/// It is resumed before the event is read.
const RESUMED_BEFORE: &str = "ask 15 1 280100000000
ask 11 3 0000000000000001
answers
events 1
answers
mirror
";

/// The same, and nothing behind the event.
const TO_THE_END: &str = "ask 15 1 280100000000
ask 11 3 0000000000000001
answers
events 1
";

/// A session: the order and the plan, what the target sends behind the widths of ids, whether SuspendCount is asked by itself, how the run ends, and
/// what is printed behind the widths.
struct Session {
    order: Order,
    plan: &'static str,
    sent: &'static [&'static [u8]],
    asks: bool,
    how: Attached,
    printed: &'static str,
}

const DONE: Attached = Attached::Ended(Ended::Done);

static SESSIONS: [Session; 7] = [
    // The second event is read before the reply to the Resume that let its thread go: the thread is suspended, and nothing need be asked.
    Session {
        order: Order::Apart,
        plan: RESUMED_BEHIND,
        sent: &[&REQUEST_5, &ENTRY, &ENTRY, &RESUMED],
        asks: false,
        how: DONE,
        printed: "< 2 reply EventRequest.Set 0 5
< 1 Event.Composite 1 [(40, 5, #1, 1:#6:#64:9)]
< 1 Event.Composite 1 [(40, 5, #1, 1:#6:#64:9)]
< 3 reply ThreadReference.Resume 0
thread 1 1+ held
request 5 40 1
",
    },
    // A target that sends as it acts does not send so.
    Session {
        order: Order::One,
        plan: RESUMED_BEHIND,
        sent: &[&REQUEST_5, &ENTRY, &ENTRY, &RESUMED],
        asks: false,
        how: Attached::Ended(Ended::Refused(45)),
        printed: "< 2 reply EventRequest.Set 0 5
< 1 Event.Composite 1 [(40, 5, #1, 1:#6:#64:9)]
",
    },
    // The Resume found nothing to resume, or the event that is read behind its reply: which of both, the SuspendCount tells.
    Session {
        order: Order::Apart,
        plan: RESUMED_BEFORE,
        sent: &[&REQUEST_5, &RESUMED, &ENTRY, &COUNT_1],
        asks: true,
        how: DONE,
        printed: "< 2 reply EventRequest.Set 0 5
< 3 reply ThreadReference.Resume 0
< 1 Event.Composite 1 [(40, 5, #1, 1:#6:#64:9)]
< 4 reply ThreadReference.SuspendCount 0 1
thread 1 1+ held
request 5 40 1
",
    },
    Session {
        order: Order::Apart,
        plan: RESUMED_BEFORE,
        sent: &[&REQUEST_5, &RESUMED, &ENTRY, &COUNT_0],
        asks: true,
        how: DONE,
        printed: "< 2 reply EventRequest.Set 0 5
< 3 reply ThreadReference.Resume 0
< 1 Event.Composite 1 [(40, 5, #1, 1:#6:#64:9)]
< 4 reply ThreadReference.SuspendCount 0 0
thread 1 0+ free
request 5 40 1
",
    },
    // A target that sends as it acts reported the event behind the Resume.
    Session {
        order: Order::One,
        plan: RESUMED_BEFORE,
        sent: &[&REQUEST_5, &RESUMED, &ENTRY],
        asks: false,
        how: DONE,
        printed: "< 2 reply EventRequest.Set 0 5
< 3 reply ThreadReference.Resume 0
< 1 Event.Composite 1 [(40, 5, #1, 1:#6:#64:9)]
thread 1 1 held
request 5 40 1
",
    },
    // The end of the plan waits for the answer, too.
    Session {
        order: Order::Apart,
        plan: TO_THE_END,
        sent: &[&REQUEST_5, &RESUMED, &ENTRY, &COUNT_1],
        asks: true,
        how: DONE,
        printed: "< 2 reply EventRequest.Set 0 5
< 3 reply ThreadReference.Resume 0
< 1 Event.Composite 1 [(40, 5, #1, 1:#6:#64:9)]
< 4 reply ThreadReference.SuspendCount 0 1
",
    },
    Session {
        order: Order::Apart,
        plan: TO_THE_END,
        sent: &[&REQUEST_5, &RESUMED, &ENTRY],
        asks: true,
        how: Attached::Ended(Ended::LostByRead),
        printed: "< 2 reply EventRequest.Set 0 5
< 3 reply ThreadReference.Resume 0
< 1 Event.Composite 1 [(40, 5, #1, 1:#6:#64:9)]
",
    },
];

/// What the target sends.
fn bytes_of(rt: &impl Abort, alloc: Global, session: &Session) -> Vec<u8> {
    let mut bytes = Vec::new(alloc);
    bytes.extend_from_slice(&HELLO).expect(rt, "memory");
    bytes.extend_from_slice(&SIZES).expect(rt, "memory");
    for packet in session.sent {
        bytes.extend_from_slice(packet).expect(rt, "memory");
    }
    bytes
}

/// What the debugger sends.
fn asked_in(rt: &impl Abort, alloc: Global, session: &Session) -> Vec<u8> {
    let mut bytes = Vec::new(alloc);
    bytes.extend_from_slice(&ASKED).expect(rt, "memory");
    if session.asks {
        bytes.extend_from_slice(&OWN).expect(rt, "memory");
    }
    bytes
}

/// The session runs so. It is the one at this place.
fn runs(rt: &impl Abort, alloc: Global, session: &Session, place: usize) {
    let from = bytes_of(rt, alloc, session);
    let mut pipe = Streams::new(from.as_slice(), Cursor::new(Vec::new(alloc)));
    let mut out = Streams::new(io::empty(), Cursor::new(Vec::new(alloc)));
    let limits = Limits::standard();
    let (order, plan) = (session.order, session.plan);
    let result = attach_plan(alloc, limits, order, plan, &mut pipe, &mut out, 1000);
    expect_same_for(rt, &result, &Ok(session.how), &place);
    let (_, to) = pipe.into_parts();
    let (_, lines) = out.into_parts();
    expect_same_for(rt, &to.into_inner(), &asked_in(rt, alloc, session), &place);
    let mut printed = String::new(alloc);
    printed
        .push_str("< hello\n< 1 reply VirtualMachine.IDSizes 0 8 8 8 8 8\n")
        .expect(rt, "memory");
    printed.push_str(session.printed).expect(rt, "memory");
    expect_same_for(
        rt,
        &lines.into_inner().as_slice(),
        &printed.as_bytes(),
        &place,
    );
}

#[test]
fn sessions_of_java_machines(rt: HostRuntime) {
    for (place, session) in SESSIONS.iter().enumerate() {
        runs(&rt, rt.alloc(), session, place);
    }
}
