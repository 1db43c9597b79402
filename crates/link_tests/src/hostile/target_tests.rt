//! What a target answers to a debugger that keeps no rule, and how it stands then.
use crate::asserts::{expect_same, expect_that_for};
use crate::hostile::targets::{Target, is_lost, target};
use jdwp_target::{TargetFault, Turn};
use jdwp_value::ObjectId;
use jdwp_wire::{ErrorCode, FrameFault};
use std::alloc::Global;
use std::process::Abort;
use test_parts::bytes;

/// Bytes that begin no packet, and why.
static FAULTS: [(&str, FrameFault); 17] = [
    ("00000000", FrameFault::ShortLength),
    ("00000001", FrameFault::ShortLength),
    ("00000002", FrameFault::ShortLength),
    ("00000003", FrameFault::ShortLength),
    ("00000004", FrameFault::ShortLength),
    ("00000005", FrameFault::ShortLength),
    ("00000006", FrameFault::ShortLength),
    ("00000007", FrameFault::ShortLength),
    ("00000008", FrameFault::ShortLength),
    ("00000009", FrameFault::ShortLength),
    ("0000000a", FrameFault::ShortLength),
    ("00010001", FrameFault::TooLong),
    ("7fffffff", FrameFault::TooLong),
    ("80000000", FrameFault::TooLong),
    ("ffffffff", FrameFault::TooLong),
    ("0000000b 00000001 01", FrameFault::BadFlags),
    ("00010000 00000001 81", FrameFault::BadFlags),
];

/// The handshake, Suspend, and a request for deaths of threads: a target that handled them has something to forget.
const BEGINNING: &str = "4a4457502d48616e647368616b65 0000000b 00000002 00 01 08
    00000011 00000003 00 0f 01 07 01 00000000";

/// Begins a session, and handles these three; their answers wait to leave.
fn begins(target: &mut Target, beginning: &[u8]) -> bool {
    target.accept()
        && target.feed(beginning) == beginning.len()
        && target.turn() == Ok(Turn::Hello)
        && target.turn() == Ok(Turn::Replied(2, ErrorCode::NONE))
        && target.turn() == Ok(Turn::Replied(3, ErrorCode::NONE))
        && target.count(ObjectId(1)) == Some(1)
        && target.requests().len() == 1
        && target.waiting() != 0
}

/// Whether all but the last of these bytes are waited for, and with the last the session is lost.
fn fails(target: &mut Target, input: &[u8], fault: FrameFault) -> bool {
    let Some((last, front)) = input.split_last() else {
        return false;
    };
    target.feed(front);
    let waits = target.turn() == Ok(Turn::Nothing) && target.is_open();
    target.feed(&[*last]);
    waits && target.turn() == Err(TargetFault::Frame(fault)) && is_lost(target)
}

/// A session that comes to these bytes fails as they say, once they are whole, and leaves nothing.
fn is_refused(
    rt: &impl Abort,
    alloc: Global,
    target: &mut Target,
    row: &(&'static str, FrameFault),
) {
    let beginning = bytes(alloc, BEGINNING).expect(rt, "memory");
    let input = bytes(alloc, row.0).expect(rt, "memory");
    let is = begins(target, &beginning) && fails(target, &input, row.1);
    expect_that_for(rt, is, row.0);
}

/// The same of each row, in sessions of one target.
fn are_refused(rt: &impl Abort, alloc: Global) {
    let mut target = target(rt, alloc);
    for row in FAULTS.iter() {
        is_refused(rt, alloc, &mut target, row);
    }
}

#[test]
fn bytes_that_begin_no_packet(rt: HostRuntime) {
    are_refused(&rt, rt.alloc());
}

/// What a debugger sends behind a beginning, what the turn tells, and how many bytes it is answered.
static PACKETS: [(&str, Turn, usize); 8] = [
    ("0000000b 00000009 80 0000", Turn::Ignored, 0),
    ("0000000b 00000002 80 0071", Turn::Ignored, 0),
    ("0000000c 00000009 80 0071 00", Turn::Ignored, 0),
    ("0000000f 00000003 80 0000 ffffffff", Turn::Ignored, 0),
    (
        "0000000b 00000009 00 4064",
        Turn::Replied(9, ErrorCode::NOT_IMPLEMENTED),
        11,
    ),
    (
        "0000000b 00000009 00 ffff",
        Turn::Replied(9, ErrorCode::NOT_IMPLEMENTED),
        11,
    ),
    (
        "0000000f ffffffff 00 0102 ffffffff",
        Turn::Replied(0xffff_ffff, ErrorCode::ILLEGAL_ARGUMENT),
        11,
    ),
    (
        "0000000f 00000000 00 0102 7fffffff",
        Turn::Replied(0, ErrorCode::ILLEGAL_ARGUMENT),
        11,
    ),
];

/// Whether the packet is told so and answered so many bytes, and changes nothing.
fn changes_nothing(target: &mut Target, input: &[u8], told: Turn, answered: usize) -> bool {
    let waiting = target.waiting();
    target.feed(input);
    target.turn() == Ok(told)
        && target.waiting() == waiting.saturating_add(answered)
        && target.turn() == Ok(Turn::Nothing)
        && target.is_open()
        && target.count(ObjectId(1)) == Some(1)
        && target.requests().len() == 1
}

/// The same of each row, one behind another in a session.
fn all_change_nothing(rt: &impl Abort, alloc: Global) {
    let mut target = target(rt, alloc);
    let beginning = bytes(alloc, BEGINNING).expect(rt, "memory");
    let is = begins(&mut target, &beginning);
    expect_that_for(rt, is, "the beginning");
    for &(hex, told, answered) in PACKETS.iter() {
        let input = bytes(alloc, hex).expect(rt, "memory");
        let is = changes_nothing(&mut target, &input, told, answered);
        expect_that_for(rt, is, hex);
    }
}

/// Replies are ignored, and commands that there are not, and data that do not read, are answered.
#[test]
fn packets_that_change_nothing(rt: HostRuntime) {
    all_change_nothing(&rt, rt.alloc());
}

/// How many bytes were fed, and how many more are taken of two.
static ROOMS: [(usize, usize); 4] = [(65_534, 2), (65_535, 1), (65_536, 0), (65_537, 0)];

/// How many of two bytes a new session takes behind so many.
fn taken_behind(target: &mut Target, count: usize) -> usize {
    target.lose();
    target.accept();
    let block = [0; 4096];
    let mut left = count;
    for _ in 0..17u32 {
        let some = left.min(4096);
        left = left.saturating_sub(target.feed(&block[..some]));
    }
    target.feed(&[0, 0])
}

/// The same of each row, in sessions of one target.
fn rooms_are_so(rt: &impl Abort, alloc: Global) {
    let mut target = target(rt, alloc);
    for &(count, want) in ROOMS.iter() {
        let taken = taken_behind(&mut target, count);
        expect_same(rt, &(count, taken), &(count, want));
    }
}

/// The inbox has room for 65,536 bytes.
#[test]
fn as_many_bytes_as_fit(rt: HostRuntime) {
    rooms_are_so(&rt, rt.alloc());
}

/// SuspendCount of thread 1.
const COUNT: &str = "00000013 00000003 00 0b 0c 0000000000000001";

/// Whether this is answered as often as given, and then once more where at most 65,535 bytes wait: 43 of the handshake and VM_START, and
/// 15 a reply.
fn stalls_at_the_line(target: &mut Target, count: &[u8]) -> bool {
    let again = Ok(Turn::Replied(3, ErrorCode::NONE));
    for _ in 0..4_367u32 {
        target.feed(count);
        if target.turn() != again {
            return false;
        }
    }
    target.feed(count);
    let stalls = target.turn() == Ok(Turn::Nothing) && target.waiting() == 65_548;
    let stalls_again = target.take(&mut [0; 12]) == 12 && target.turn() == Ok(Turn::Nothing);
    let at_the_line = target.waiting() == 65_536;
    stalls && stalls_again && at_the_line && target.take(&mut [0]) == 1 && target.turn() == again
}

/// The same of a new target.
fn stalls(rt: &impl Abort, alloc: Global) -> bool {
    let mut target = target(rt, alloc);
    let count = bytes(alloc, COUNT).expect(rt, "memory");
    target.accept();
    target.feed(b"JDWP-Handshake");
    target.turn() == Ok(Turn::Hello) && stalls_at_the_line(&mut target, &count)
}

/// A debugger that takes nothing is answered until 65,536 bytes wait, and again from 65,535 on.
#[test]
fn nothing_is_taken(rt: HostRuntime) {
    expect_that_for(&rt, stalls(&rt, rt.alloc()), "stalls");
}
