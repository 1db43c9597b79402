//! The recorded session with one byte of what the target sends changed, at each place and to each other value, in sessions of one debugger.
use crate::asserts::{expect_same, expect_that_for};
use crate::hostile::changed_answers::{Comes, expected};
use crate::hostile::debuggers::debugger;
use crate::hostile::recorded::{ANSWERED, ASKED};
use jdwp_debugger::{Command, Debugger, DebuggerFault, Read, Ticket};
use jdwp_layout::{Datum, Scalar, numbers};
use jdwp_value::ObjectId;
use std::alloc::Global;
use std::process::Abort;

/// What a debugger made of what came.
#[derive(Clone, Copy)]
struct Course {
    /// How many messages were read.
    messages: u32,
    /// The fault of the turn that failed.
    fault: Option<DebuggerFault>,
    /// The ticket of the first command.
    first: u64,
}

/// Suspend, SuspendCount of thread 1 and Dispose are asked; the ticket of the first.
fn ask_all(rt: &impl Abort, alloc: Global, debugger: &mut Debugger) -> u64 {
    let suspend = Command::new(numbers::VIRTUAL_MACHINE, numbers::SUSPEND, Vec::new(alloc));
    let first = debugger.ask(alloc, suspend).expect(rt, "Suspend is asked");
    let thread = vec![in alloc; Datum::One(Scalar::ObjectId(ObjectId(1)))].expect(rt, "memory");
    let count = Command::new(numbers::THREAD_REFERENCE, numbers::SUSPEND_COUNT, thread);
    debugger
        .ask(alloc, count)
        .expect(rt, "SuspendCount is asked");
    let dispose = Command::new(numbers::VIRTUAL_MACHINE, numbers::DISPOSE, Vec::new(alloc));
    debugger.ask(alloc, dispose).expect(rt, "Dispose is asked");
    first.0
}

/// Begins a session to which these bytes come, asks once the widths of ids are known, and turns until nothing is left to read or a turn
/// fails, 32 times at most.
fn handled(rt: &impl Abort, alloc: Global, debugger: &mut Debugger, input: &[u8]) -> Course {
    let mut all = Course {
        messages: 0,
        fault: None,
        first: 0,
    };
    debugger.set_next_id(1);
    debugger.attach();
    debugger.feed(input);
    for _ in 0..32u32 {
        match debugger.turn(alloc) {
            Ok(Read::Nothing) => break,
            Ok(Read::Sizes(_)) => {
                all.first = ask_all(rt, alloc, debugger);
            }
            Ok(_) => {}
            Err(fault) => {
                all.fault = Some(fault);
                break;
            }
        }
        all.messages = all.messages.saturating_add(1);
    }
    all
}

/// How many bytes wait to leave once so many messages were read: the handshake, IDSizes and the three commands.
fn waiting(messages: u32) -> usize {
    match messages {
        0 => 14,
        1 | 2 => 25,
        _ => 66,
    }
}

/// Whether the tickets that are lost are the last of the three, in the order asked, where so many messages were read.
fn are_lost(lost: &[Ticket], all: &Course) -> bool {
    let answered = u64::from(all.messages.saturating_sub(3).min(3));
    let count = if all.messages < 3 { 0 } else { 3 - answered };
    for (ticket, place) in lost.iter().zip(answered..3) {
        if ticket.0 != all.first.saturating_add(place) {
            return false;
        }
    }
    u64::try_from(lost.len()) == Ok(count)
}

/// Whether the debugger is closed, knows nothing, takes nothing and has nothing to handle.
fn is_closed(debugger: &mut Debugger) -> bool {
    !debugger.is_open()
        && debugger.feed(&[0]) == 0
        && debugger.room() == 0
        && !debugger.has_front()
        && debugger.mirror().known().len() == 0
        && debugger.mirror().requests().len() == 0
        && debugger.sizes().is_none()
}

/// Whether the commands not yet answered, in the order asked, are those that are lost, and nothing is left then. No session begins before,
/// where there are any.
fn loses(debugger: &mut Debugger, all: &Course) -> bool {
    let waits = debugger.waiting() == waiting(all.messages);
    let begins = all.messages >= 3 && debugger.attach();
    let lost = debugger.lose();
    waits && !begins && are_lost(lost.as_slice(), all) && debugger.waiting() == 0
}

/// Whether a session that failed is left so.
fn is_left(debugger: &mut Debugger, all: &Course) -> bool {
    is_closed(debugger) && loses(debugger, all)
}

/// Whether this came of another value at a place.
fn has_come(debugger: &mut Debugger, place: usize, value: u8, all: &Course) -> bool {
    match (expected(place, value), all.fault) {
        (Comes::Fails(messages, fault), Some(found)) => {
            found == fault && all.messages == messages && is_left(debugger, all)
        }
        (Comes::Goes(messages, open), None) => {
            all.messages == messages && debugger.is_open() == open
        }
        (Comes::Shifts, Some(DebuggerFault::NoMemory)) => false,
        (Comes::Shifts, Some(_)) => is_left(debugger, all),
        (Comes::Shifts, None) => true,
        _ => false,
    }
}

/// Whether this comes of a change; the connection is lost then.
fn comes(rt: &impl Abort, alloc: Global, debugger: &mut Debugger, place: usize, value: u8) -> bool {
    let mut input = ANSWERED;
    input[place.min(110)] = value;
    let all = handled(rt, alloc, debugger, &input);
    let has = has_come(debugger, place, value, &all);
    debugger.lose();
    has && is_closed(debugger)
}

/// The first change, as a place and a value, of which something else comes.
fn first_wrong(rt: &impl Abort, alloc: Global, debugger: &mut Debugger) -> Option<(usize, u8)> {
    for (place, byte) in ANSWERED.iter().enumerate() {
        for value in 0..=255u8 {
            if value != *byte && !comes(rt, alloc, debugger, place, value) {
                return Some((place, value));
            }
        }
    }
    None
}

/// Whether the undisturbed session is read and closed, and what is sent in it is as recorded.
fn is_undisturbed(rt: &impl Abort, alloc: Global, debugger: &mut Debugger) -> bool {
    let all = handled(rt, alloc, debugger, &ANSWERED);
    let mut sent = [0; 67];
    let count = debugger.take(&mut sent);
    let is = all.fault.is_none() && all.messages == 6 && !debugger.is_open();
    let is_sent = sent.get(..count) == Some(ASKED.as_slice());
    is && is_sent && debugger.lose().as_slice().is_empty()
}

/// Each change comes to what it is to come to, between two undisturbed sessions.
fn survives(rt: &impl Abort, alloc: Global) {
    let mut debugger = debugger(rt, alloc);
    let before = is_undisturbed(rt, alloc, &mut debugger);
    expect_that_for(rt, before, "before");
    expect_same(rt, &first_wrong(rt, alloc, &mut debugger), &None);
    let behind = is_undisturbed(rt, alloc, &mut debugger);
    expect_that_for(rt, behind, "behind");
}

/// 28,305 sessions between two undisturbed ones.
#[test]
fn each_byte_changed_to_each_other(rt: HostRuntime) {
    survives(&rt, rt.alloc());
}
