//! The recorded session with one byte of what the debugger sends changed, at each place and to each other value, in sessions of one target.
use crate::asserts::{expect_same, expect_that_for};
use crate::hostile::recorded::{ANSWERED, ASKED, COMMANDS_BEGIN, place_in};
use crate::hostile::targets::{Course, Target, handled, is_lost, target};
use jdwp_target::TargetFault;
use jdwp_wire::FrameFault;
use std::alloc::Global;
use std::process::Abort;

/// What is to come of a changed byte.
#[derive(Clone, Copy)]
enum Comes {
    /// The session is lost with this fault.
    Fails(FrameFault),
    /// The message is longer than what comes: it is waited for.
    Waits,
    /// The message has another id, and so has its answer.
    Renames,
    /// So many messages are handled, and the session is open then or not.
    Goes(u32, bool),
    /// The messages behind it begin elsewhere: it is waited for more, a message is handled, or a length or flags are refused.
    Shifts,
}

/// What is to come of the length's last byte, which was this, where so many bytes come from the length on.
fn of_length(value: u8, rest: usize) -> Comes {
    if value < 11 {
        Comes::Fails(FrameFault::ShortLength)
    } else if usize::from(value) > rest {
        Comes::Waits
    } else {
        Comes::Shifts
    }
}

/// What is to come of other flags, another command or other data. Dispose may come earlier, in the place of IDSizes or Suspend, or not at
/// all; else all five messages are handled, the last of which closes the session.
fn of_content(message: usize, at: usize, value: u8) -> Comes {
    match (message, at, value) {
        (1, 10, 6) => Comes::Goes(2, false),
        (2, 10, 6) => Comes::Goes(3, false),
        (4, _, _) => Comes::Goes(5, true),
        _ => Comes::Goes(5, false),
    }
}

/// What is to come of another value at a place. In each message the first two bytes of the length are 0, and any other is too long; the
/// third is 0, and any other is more than comes.
fn expected(place: usize, value: u8) -> Comes {
    let (message, at) = place_in(&COMMANDS_BEGIN, place);
    if message == 0 {
        return Comes::Fails(FrameFault::BadHandshake(place));
    }
    match at {
        0 | 1 => Comes::Fails(FrameFault::TooLong),
        2 => Comes::Waits,
        3 => of_length(value, ASKED.len().saturating_sub(place.saturating_sub(at))),
        4..=7 => Comes::Renames,
        8 if value != 0x80 => Comes::Fails(FrameFault::BadFlags),
        _ => of_content(message, at, value),
    }
}

/// What is sent in a session that is not the first of the target's life, so that VM_START is not among it: 82 bytes.
fn answers() -> [u8; 82] {
    let mut all = [0; 82];
    all[..14].copy_from_slice(&ANSWERED[..14]);
    all[14..].copy_from_slice(&ANSWERED[43..]);
    all
}

/// Where the answer to each message begins there.
const ANSWERS_BEGIN: [usize; 5] = [0, 14, 45, 56, 71];

/// What is answered to these bytes.
fn answered(target: &mut Target, input: &[u8]) -> Course {
    target.accept();
    target.feed(input);
    handled(target)
}

/// Whether the messages before the changed one were answered as recorded, in so many bytes.
fn is_answered_before(all: &Course, message: usize) -> bool {
    let front = ANSWERS_BEGIN[message.min(4)];
    &all.bytes[..front] == &answers()[..front]
}

/// Whether exactly so many messages were handled, and what was sent is as recorded.
fn stops_at(all: &Course, message: usize) -> bool {
    let front = ANSWERS_BEGIN[message.min(4)];
    usize::try_from(all.messages) == Ok(message) && all.sent == front
}

/// Whether all was sent as recorded, but for one byte.
fn is_sent_but(all: &Course, place: usize, value: u8) -> bool {
    let mut want = answers();
    want[place.min(81)] = value;
    all.sent == 82 && &all.bytes[..82] == want.as_slice()
}

/// Whether this came of another value at a place; the target is as it was left.
fn has_come(target: &mut Target, place: usize, value: u8, all: &Course) -> bool {
    let (message, at) = place_in(&COMMANDS_BEGIN, place);
    if !is_answered_before(all, message) {
        return false;
    }
    let want = expected(place, value);
    match (want, all.fault) {
        (Comes::Fails(fault), Some(found)) => {
            found == TargetFault::Frame(fault) && stops_at(all, message) && is_lost(target)
        }
        (Comes::Waits, None) => target.is_open() && stops_at(all, message),
        (Comes::Renames, None) => {
            let begin = ANSWERS_BEGIN[message.min(4)];
            all.messages == 5
                && !target.is_open()
                && is_sent_but(all, begin.saturating_add(at), value)
        }
        (Comes::Goes(messages, open), None) => {
            all.messages == messages && target.is_open() == open
        }
        (Comes::Shifts, Some(TargetFault::Frame(_))) => is_lost(target),
        (Comes::Shifts, None) => true,
        _ => false,
    }
}

/// The first change, as a place and a value, of which something else comes, or behind which the target does not stand as after a loss once
/// the connection is lost.
fn first_wrong(target: &mut Target) -> Option<(usize, u8)> {
    for place in 0..66usize {
        for value in 0..=255u8 {
            let mut input = ASKED;
            if input[place] == value {
                continue;
            }
            input[place] = value;
            let all = answered(target, &input);
            if !has_come(target, place, value, &all) {
                return Some((place, value));
            }
            target.lose();
            if !is_lost(target) {
                return Some((place, value));
            }
        }
    }
    None
}

/// Whether the undisturbed session is answered these bytes, and closed.
fn is_undisturbed(target: &mut Target, want: &[u8]) -> bool {
    let all = answered(target, &ASKED);
    all.fault.is_none()
        && all.messages == 5
        && &all.bytes[..all.sent.min(256)] == want
        && !target.is_open()
}

/// Each change comes to what it is to come to, between two undisturbed sessions.
fn survives(rt: &impl Abort, alloc: Global) {
    let mut target = target(rt, alloc);
    expect_that_for(rt, is_undisturbed(&mut target, &ANSWERED), "before");
    expect_same(rt, &first_wrong(&mut target), &None);
    expect_that_for(rt, is_undisturbed(&mut target, &answers()), "behind");
}

/// 16,830 sessions between two undisturbed ones.
#[test]
fn each_byte_changed_to_each_other(rt: HostRuntime) {
    survives(&rt, rt.alloc());
}
