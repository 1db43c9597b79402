//! Sessions of a target over machine scripts, byte for byte.
use crate::asserts::expect_same_for;
use crate::targets::sessions::{
    Act, GREETING, HANDSHAKE, Target, comes, goes_as_told, greet, sends, target,
};
use jdwp_target::{Stepped, TargetFault, TargetOptions, Turn};
use jdwp_value::ObjectId;
use jdwp_wire::{ErrorCode, FrameFault};
use std::alloc::Global;
use std::process::Abort;
use test_parts::{MACHINE_A, WITH_A_SLOT, bytes};

/// What is tried of a target from its beginning on.
#[derive(Clone, Copy, Debug)]
enum Trial {
    /// It begins one session, whose handshake comes byte by byte.
    GreetsByteByByte,
    /// All threads begin suspended.
    BeginsSuspended,
    /// It is given nothing, and more than it has room for.
    TakesNothingAndTooMuch,
    /// More waits to leave than a packet has.
    Pauses,
    /// A packet of the greatest length comes.
    TakesTheGreatestLength,
    /// The same behind others, in pieces.
    TakesTheGreatestLengthInPieces,
    /// What waits to leave is taken in pieces.
    LeavesInPieces,
    /// It leaves from where it lies.
    LeavesFromThere,
}

/// Whether it goes as it is to.
fn goes(rt: &impl Abort, alloc: Global, target: &mut Target, trial: Trial) -> bool {
    match trial {
        Trial::GreetsByteByByte => greets_byte_by_byte(rt, alloc, target),
        Trial::BeginsSuspended => begins_suspended(target),
        Trial::TakesNothingAndTooMuch => takes_nothing_and_too_much(rt, alloc, target),
        Trial::Pauses => pauses(rt, alloc, target),
        Trial::TakesTheGreatestLength => takes_the_greatest_length(rt, alloc, target),
        Trial::TakesTheGreatestLengthInPieces => {
            takes_the_greatest_length_in_pieces(rt, alloc, target)
        }
        Trial::LeavesInPieces => leaves_in_pieces(rt, alloc, target),
        Trial::LeavesFromThere => leaves_from_there(rt, alloc, target),
    }
}

/// The same of a target of machine A.
fn goes_with_a(rt: &impl Abort, alloc: Global, start_all: bool, trial: Trial) -> bool {
    let mut target = target(rt, alloc, MACHINE_A, start_all, 65535);
    goes(rt, alloc, &mut target, trial)
}

/// Each trial, and whether all threads of its target begin suspended.
const TRIALS: [(Trial, bool); 8] = [
    (Trial::GreetsByteByByte, false),
    (Trial::BeginsSuspended, true),
    (Trial::TakesNothingAndTooMuch, false),
    (Trial::Pauses, false),
    (Trial::TakesTheGreatestLength, false),
    (Trial::TakesTheGreatestLengthInPieces, false),
    (Trial::LeavesInPieces, false),
    (Trial::LeavesFromThere, false),
];

#[test]
fn each_trial_goes_well(rt: HostRuntime) {
    for (trial, start_all) in TRIALS {
        let goes = goes_with_a(&rt, rt.alloc(), start_all, trial);
        expect_same_for(&rt, &goes, &true, &trial);
    }
}

/// A count limit is a positive int.
#[test]
fn options_with_each_count_limit(rt: HostRuntime) {
    let rows: [(bool, u32, bool); 4] = [
        (false, 0, false),
        (true, 1, true),
        (false, 2_147_483_647, true),
        (false, 2_147_483_648, false),
    ];
    for (start_all, count_limit, want) in rows {
        let options = TargetOptions::new(start_all, count_limit);
        expect_same_for(&rt, &options.is_some(), &want, &options);
    }
}

/// Whether the handshake is answered once its last byte came, and followed by VM_START; no second session begins.
fn greets_byte_by_byte(rt: &impl Abort, alloc: Global, target: &mut Target) -> bool {
    let begins = !target.is_open() && target.accept() && !target.accept();
    begins
        && answers_the_last(target, b"JDWP-Handshake")
        && target.waiting() == 43
        && sends(rt, alloc, target, GREETING)
}

/// Whether only the last of 14 bytes is answered.
fn answers_the_last(target: &mut Target, bytes: &[u8]) -> bool {
    for (place, byte) in bytes.iter().enumerate() {
        let wanted = if place < 13 {
            Turn::Nothing
        } else {
            Turn::Hello
        };
        if target.feed(&[*byte]) != 1 || target.turn() != Ok(wanted) {
            return false;
        }
    }
    true
}

/// Whether both threads are suspended once behind the handshake, and none steps.
fn begins_suspended(target: &mut Target) -> bool {
    target.accept();
    target.feed(b"JDWP-Handshake");
    target.turn() == Ok(Turn::Hello)
        && target.count(ObjectId(1)) == Some(1)
        && target.count(ObjectId(2)) == Some(1)
        && target.step(ObjectId(1)) == Ok(Stepped::Frozen)
        && target.waiting() == 43
}

static SHORT_COMMANDS: [Act; 12] = [
    Act::Says(
        "0000000b 00000001 00 01 07",
        "0000001f 00000001 80 0000 00000008 00000008 00000008 00000008 00000008",
    ),
    Act::Says(
        "0000000b 00000002 00 01 08 00000013 00000003 00 0b 0c 0000000000000001",
        "0000000b 00000002 80 0000 0000000f 00000003 80 0000 00000001",
    ),
    Act::Says("0000000b 00000004 00 01 09", "0000000b 00000004 80 0000"),
    Act::Says(
        "00000013 00000004 00 0b 03 0000000000000002",
        "0000000b 00000004 80 0000",
    ),
    Act::Counts(Some(0), Some(0)),
    Act::Says(
        "0000000b 00000005 00 40 64 0000000b 00000006 00 01 63",
        "0000000b 00000005 80 0063 0000000b 00000006 80 0063",
    ),
    Act::Says(
        "0000000f 00000007 00 01 02 ffffffff",
        "0000000b 00000007 80 0067",
    ),
    Act::Says(
        "00000013 00000005 00 0b 0c 0000000000000003",
        "0000000b 00000005 80 000a",
    ),
    Act::Says(
        "0000000c 00000007 00 01 08 00 00000012 00000008 00 0b 0c 00000000000001",
        "0000000b 00000007 80 0067 0000000b 00000008 80 0067",
    ),
    Act::Says("0000000b 00000009 80 0000", ""),
    Act::Says("0000000b 00000004 00 01 06", "0000000b 00000004 80 0000"),
    Act::Open(false),
];

static SUSPENDS_AND_RESUMES: [Act; 8] = [
    Act::Says("0000000b 00000002 00 01 08", "0000000b 00000002 80 0000"),
    Act::Counts(Some(1), Some(1)),
    Act::Says(
        "00000013 00000003 00 0b 02 0000000000000001",
        "0000000b 00000003 80 0000",
    ),
    Act::Counts(Some(2), Some(1)),
    Act::Says("0000000b 00000004 00 01 09", "0000000b 00000004 80 0000"),
    Act::Counts(Some(1), Some(0)),
    Act::Says("0000000b 00000005 00 01 09", "0000000b 00000005 80 0000"),
    Act::Counts(Some(0), Some(0)),
];

/// A Resume at a count of 0 leaves it.
static TWO_SUSPENDS_AND_THREE_RESUMES: [Act; 7] = [
    Act::Says("0000000b 00000002 00 01 08", "0000000b 00000002 80 0000"),
    Act::Says("0000000b 00000003 00 01 08", "0000000b 00000003 80 0000"),
    Act::Says("0000000b 00000004 00 01 09", "0000000b 00000004 80 0000"),
    Act::Says(
        "00000013 00000005 00 0b 0c 0000000000000002",
        "0000000f 00000005 80 0000 00000001",
    ),
    Act::Says("0000000b 00000006 00 01 09", "0000000b 00000006 80 0000"),
    Act::Says("0000000b 00000007 00 01 09", "0000000b 00000007 80 0000"),
    Act::Says(
        "00000013 00000008 00 0b 0c 0000000000000002",
        "0000000f 00000008 80 0000 00000000",
    ),
];

/// The second handshake of the target's life is not followed by VM_START.
static A_SESSION_AFTER_A_LOSS: [Act; 7] = [
    Act::Says("0000000b 00000004 00 01 08", "0000000b 00000004 80 0000"),
    Act::Counts(Some(1), Some(1)),
    Act::Loses,
    Act::Open(false),
    Act::Counts(Some(0), Some(0)),
    Act::Accepts(true),
    Act::Says(HANDSHAKE, HANDSHAKE),
];

static FRAME_FAULTS: [Act; 18] = [
    Act::Loses,
    Act::Accepts(true),
    Act::Fails("4a4457502d48616e647368616b45", FrameFault::BadHandshake(13)),
    Act::Open(false),
    Act::Accepts(true),
    Act::Says(HANDSHAKE, HANDSHAKE),
    Act::Fails("0000000a", FrameFault::ShortLength),
    Act::Open(false),
    Act::Accepts(true),
    Act::Says(HANDSHAKE, HANDSHAKE),
    Act::Fails("00010001", FrameFault::TooLong),
    Act::Open(false),
    Act::Accepts(true),
    Act::Says(HANDSHAKE, HANDSHAKE),
    Act::Says("0000000b 00000001 00 01 08", "0000000b 00000001 80 0000"),
    Act::Fails("0000000b 00000001 01", FrameFault::BadFlags),
    Act::Open(false),
    Act::Counts(Some(0), Some(0)),
];

static FRAMES_OF_A_SUSPENDED_THREAD: [Act; 8] = [
    Act::Steps(1, 1, Stepped::Quiet, ""),
    Act::Says(
        "0000001b 00000002 00 0b 06 0000000000000001 00000000 ffffffff",
        "0000000b 00000002 80 000d",
    ),
    Act::Says("0000000b 00000009 00 01 08", "0000000b 00000009 80 0000"),
    Act::Says(
        "0000001b 00000003 00 0b 06 0000000000000001 00000000 ffffffff",
        "00000030 00000003 80 0000 00000001 000000000000001e 01 000000000000000a 0000000000000014 0000000000000000",
    ),
    Act::Says(
        "0000001b 00000004 00 0b 06 0000000000000001 00000002 ffffffff",
        "0000000b 00000004 80 01f7",
    ),
    Act::Says(
        "0000001b 00000005 00 0b 06 0000000000000001 00000001 00000001",
        "0000000b 00000005 80 01f8",
    ),
    Act::Says(
        "00000013 00000006 00 0b 01 0000000000000001",
        "00000013 00000006 80 0000 00000004 6d61696e",
    ),
    Act::Says(
        "00000015 00000007 00 01 02 00000006 4c4d61696e3b",
        "0000001c 00000007 80 0000 00000001 01 000000000000000a 00000003",
    ),
];

static SLOTS_ARE_WRITTEN_AND_READ: [Act; 4] = [
    Act::Steps(1, 1, Stepped::Quiet, ""),
    Act::Says("0000000b 00000002 00 01 08", "0000000b 00000002 80 0000"),
    Act::Says(
        "00000028 00000003 00 10 02 0000000000000001 000000000000001e 00000001 00000000 49 00000005",
        "0000000b 00000003 80 0000",
    ),
    Act::Says(
        "00000024 00000004 00 10 01 0000000000000001 000000000000001e 00000001 00000000 49",
        "00000014 00000004 80 0000 00000001 49 00000005",
    ),
];

static EVENT_REQUESTS_THAT_ARE_REFUSED: [Act; 8] = [
    Act::Says(
        "00000011 00000002 00 0f 01 14 03 00000000",
        "0000000b 00000002 80 0063",
    ),
    Act::Says(
        "00000011 00000003 00 0f 01 7f 00 00000000",
        "0000000b 00000003 80 0066",
    ),
    Act::Says(
        "00000011 00000004 00 0f 01 02 03 00000000",
        "0000000b 00000004 80 0067",
    ),
    Act::Says(
        "00000011 00000005 00 0f 01 02 00 00000000",
        "0000000b 00000005 80 0067",
    ),
    Act::Says(
        "0000002b 00000006 00 0f 01 02 00 00000001 07 01 000000000000000a 0000000000000014 000000000000000a",
        "0000000b 00000006 80 0018",
    ),
    Act::Says(
        "00000030 00000007 00 0f 01 02 00 00000002 01 00000000 07 01 000000000000000a 0000000000000014 0000000000000003",
        "0000000b 00000007 80 0200",
    ),
    Act::Says(
        "00000017 00000008 00 0f 01 06 00 00000001 05 00000001 2a",
        "0000000b 00000008 80 0067",
    ),
    Act::Requests(0),
];

static TWO_BREAKPOINTS_OF_ONE_PLACE_REPORT_TOGETHER: [Act; 5] = [
    Act::Says(
        "0000002b 00000002 00 0f 01 02 00 00000001 07 01 000000000000000a 0000000000000014 0000000000000003",
        "0000000f 00000002 80 0000 00000001",
    ),
    Act::Says(
        "0000002b 00000003 00 0f 01 02 02 00000001 07 01 000000000000000a 0000000000000014 0000000000000003",
        "0000000f 00000003 80 0000 00000002",
    ),
    Act::Steps(1, 1, Stepped::Quiet, ""),
    Act::Steps(
        1,
        1,
        Stepped::Reported,
        "0000005c 00000002 00 40 64 02 00000002 02 00000001 0000000000000001 01 000000000000000a 0000000000000014 0000000000000003 02 00000002 0000000000000001 01 000000000000000a 0000000000000014 0000000000000003",
    ),
    Act::Counts(Some(1), Some(1)),
];

static A_BREAKPOINT_THAT_COUNTS_REPORTS_ONCE: [Act; 8] = [
    Act::Says(
        "00000030 00000002 00 0f 01 02 00 00000002 07 01 000000000000000a 0000000000000014 0000000000000003 01 00000002",
        "0000000f 00000002 80 0000 00000001",
    ),
    Act::Steps(1, 3, Stepped::Quiet, ""),
    Act::Steps(
        1,
        1,
        Stepped::Reported,
        "00000036 00000002 00 40 64 00 00000001 02 00000001 0000000000000001 01 000000000000000a 0000000000000014 0000000000000003",
    ),
    Act::Steps(1, 2, Stepped::Quiet, ""),
    Act::Requests(1),
    Act::Says(
        "00000010 00000003 00 0f 02 02 00000001",
        "0000000b 00000003 80 0000",
    ),
    Act::Requests(0),
    Act::Says(
        "00000010 00000003 00 0f 02 02 00000001",
        "0000000b 00000003 80 0000",
    ),
];

static A_STEP_INTO_BY_LINE: [Act; 3] = [
    Act::Says(
        "00000022 00000002 00 0f 01 01 00 00000001 0a 0000000000000001 00000001 00000000",
        "0000000f 00000002 80 0000 00000001",
    ),
    Act::Steps(1, 1, Stepped::Quiet, ""),
    Act::Steps(
        1,
        1,
        Stepped::Reported,
        "00000036 00000002 00 40 64 00 00000001 01 00000001 0000000000000001 01 000000000000000a 0000000000000014 0000000000000003",
    ),
];

static A_STEP_OVER_BY_LINE: [Act; 2] = [
    Act::Says(
        "00000022 00000002 00 0f 01 01 00 00000001 0a 0000000000000001 00000001 00000001",
        "0000000f 00000002 80 0000 00000001",
    ),
    Act::Steps(1, 7, Stepped::Quiet, ""),
];

static A_STEP_AND_A_BREAKPOINT_REPORT_TOGETHER: [Act; 5] = [
    Act::Says(
        "00000022 00000002 00 0f 01 01 00 00000001 0a 0000000000000001 00000001 00000000",
        "0000000f 00000002 80 0000 00000001",
    ),
    Act::Says(
        "0000002b 00000003 00 0f 01 02 01 00000001 07 01 000000000000000a 0000000000000014 0000000000000003",
        "0000000f 00000003 80 0000 00000002",
    ),
    Act::Steps(1, 1, Stepped::Quiet, ""),
    Act::Steps(
        1,
        1,
        Stepped::Reported,
        "0000005c 00000002 00 40 64 01 00000002 01 00000001 0000000000000001 01 000000000000000a 0000000000000014 0000000000000003 02 00000002 0000000000000001 01 000000000000000a 0000000000000014 0000000000000003",
    ),
    Act::Counts(Some(1), Some(0)),
];

static A_COUNT_AT_ITS_LIMIT_FREEZES_ALL: [Act; 13] = [
    Act::Still(false),
    Act::Says("0000000b 00000002 00 01 08", "0000000b 00000002 80 0000"),
    Act::Still(true),
    Act::Says("0000000b 00000003 00 01 08", "0000000b 00000003 80 0000"),
    Act::Says("0000000b 00000004 00 01 08", "0000000b 00000004 80 0071"),
    Act::Counts(Some(2), Some(2)),
    Act::Says(
        "00000013 00000005 00 0b 03 0000000000000001",
        "0000000b 00000005 80 0000",
    ),
    Act::Says(
        "00000013 00000006 00 0b 03 0000000000000001",
        "0000000b 00000006 80 0000",
    ),
    Act::Counts(Some(0), Some(2)),
    Act::Still(true),
    Act::Steps(1, 1, Stepped::Frozen, ""),
    Act::Says(
        "00000013 00000007 00 0b 03 0000000000000002",
        "0000000b 00000007 80 0000",
    ),
    Act::Still(false),
];

static HELD_EVENTS_FREEZE_THREADS: [Act; 8] = [
    Act::Says(
        "0000002b 00000002 00 0f 01 02 00 00000001 07 01 000000000000000a 0000000000000014 0000000000000003",
        "0000000f 00000002 80 0000 00000001",
    ),
    Act::Steps(1, 1, Stepped::Quiet, ""),
    Act::Says("0000000b 00000003 00 01 0f", "0000000b 00000003 80 0000"),
    Act::Still(true),
    Act::Steps(1, 1, Stepped::Frozen, ""),
    Act::Says("0000000b 00000004 00 01 10", "0000000b 00000004 80 0000"),
    Act::Still(false),
    Act::Steps(
        1,
        1,
        Stepped::Reported,
        "00000036 00000002 00 40 64 00 00000001 02 00000001 0000000000000001 01 000000000000000a 0000000000000014 0000000000000003",
    ),
];

static AN_EXIT_ENDS_THE_MACHINE: [Act; 5] = [
    Act::Says(
        "0000000f 00000002 00 01 0a 00000000",
        "0000000b 00000002 80 0000 00000015 00000002 00 40 64 00 00000001 63 00000000",
    ),
    Act::Open(false),
    Act::Still(true),
    Act::Lives(0),
    Act::Accepts(false),
];

static A_DEATH_IS_REPORTED_BEFORE_THE_END: [Act; 9] = [
    Act::Says(
        "00000011 00000002 00 0f 01 07 01 00000000",
        "0000000f 00000002 80 0000 00000001",
    ),
    Act::Steps(
        2,
        1,
        Stepped::Reported,
        "0000001d 00000002 00 40 64 01 00000001 07 00000001 0000000000000002",
    ),
    Act::Counts(Some(0), Some(1)),
    Act::Still(false),
    Act::Steps(2, 1, Stepped::Frozen, ""),
    Act::Says(
        "00000013 00000003 00 0b 03 0000000000000002",
        "0000000b 00000003 80 0000",
    ),
    Act::Steps(2, 1, Stepped::Ended, ""),
    Act::Counts(Some(0), None),
    Act::Says(
        "00000013 00000004 00 0b 0c 0000000000000002",
        "0000000b 00000004 80 000a",
    ),
];

static THE_LAST_END_IS_THE_MACHINES: [Act; 6] = [
    Act::Steps(2, 1, Stepped::Ended, ""),
    Act::Steps(1, 7, Stepped::Quiet, ""),
    Act::Open(true),
    Act::Steps(
        1,
        1,
        Stepped::Ended,
        "00000015 00000002 00 40 64 00 00000001 63 00000000",
    ),
    Act::Open(false),
    Act::Accepts(false),
];

/// Whether no byte is taken and given for none, and 65,536 fit.
fn takes_nothing_and_too_much(rt: &impl Abort, alloc: Global, target: &mut Target) -> bool {
    greet(rt, alloc, target);
    if target.feed(&[]) != 0 || target.turn() != Ok(Turn::Nothing) || target.take(&mut []) != 0 {
        return false;
    }
    let block = [0; 4096];
    for _ in 0..16u32 {
        if target.feed(&block) != 4096 {
            return false;
        }
    }
    target.room() == 0 && target.feed(&[0]) == 0
}

/// Whether nothing is handled and no thread steps once 65,536 bytes and more wait to leave, and both go on where fewer do.
fn pauses(rt: &impl Abort, alloc: Global, target: &mut Target) -> bool {
    target.accept();
    target.feed(b"JDWP-Handshake");
    let greets = target.turn() == Ok(Turn::Hello);
    let count = bytes(alloc, "00000013 00000003 00 0b 0c 0000000000000001").expect(rt, "memory");
    greets && answers_each(target, &count) && waits_for_room(target)
}

/// Whether this command is answered 4,367 times; it is sent once more.
fn answers_each(target: &mut Target, count: &[u8]) -> bool {
    for _ in 0..4367u32 {
        target.feed(count);
        if target.turn() != Ok(Turn::Replied(3, ErrorCode::NONE)) {
            return false;
        }
    }
    target.feed(count);
    true
}

/// Whether the target pauses where 65,548 bytes wait, and goes on where 13 fewer do.
fn waits_for_room(target: &mut Target) -> bool {
    let mut few = [0; 13];
    target.turn() == Ok(Turn::Nothing)
        && target.step(ObjectId(1)) == Ok(Stepped::Frozen)
        && target.is_still()
        && target.waiting() == 65548
        && target.take(&mut few) == 13
        && target.turn() == Ok(Turn::Replied(3, ErrorCode::NONE))
}

/// Whether a packet of 65,536 bytes is answered, and a length of one more refused.
fn takes_the_greatest_length(rt: &impl Abort, alloc: Global, target: &mut Target) -> bool {
    greet(rt, alloc, target);
    let fits = target.feed(&greatest(rt, alloc)) == 65536
        && target.turn() == Ok(Turn::Replied(2, ErrorCode::NONE));
    let answers = sends(rt, alloc, target, "0000000f 00000002 80 0000 00000000");
    target.feed(&bytes(alloc, "00010001").expect(rt, "memory"));
    fits && answers && target.turn() == Err(TargetFault::Frame(FrameFault::TooLong))
}

/// ClassesBySignature with a signature of 65,521 bytes.
fn greatest(rt: &impl Abort, alloc: Global) -> Vec<u8> {
    let mut text = bytes(alloc, "00010000 00000002 00 01 02 0000fff1").expect(rt, "memory");
    for _ in 0..65521u32 {
        text.push(b'x').expect(rt, "memory");
    }
    text
}

/// Whether a packet of 65,536 bytes that comes behind others, in pieces of 4,096, is answered once all of it came. It wraps round the end
/// of the room for what comes.
fn takes_the_greatest_length_in_pieces(
    rt: &impl Abort,
    alloc: Global,
    target: &mut Target,
) -> bool {
    greet(rt, alloc, target);
    let sizes = Act::Says(
        "0000000b 00000001 00 01 07",
        "0000001f 00000001 80 0000 00000008 00000008 00000008 00000008 00000008",
    );
    let behind = comes(rt, alloc, target, &sizes);
    let taken = takes_pieces(target, &greatest(rt, alloc));
    let full = target.feed(&[0]) == 0;
    let handled = target.turn() == Ok(Turn::Replied(2, ErrorCode::NONE));
    let answers = sends(rt, alloc, target, "0000000f 00000002 80 0000 00000000");
    behind && taken && full && handled && answers
}

/// Whether each piece of 4,096 bytes is taken, and nothing is to be handled before it.
fn takes_pieces(target: &mut Target, all: &[u8]) -> bool {
    for piece in all.chunks(4096) {
        if target.turn() != Ok(Turn::Nothing) || target.feed(piece) != 4096 {
            return false;
        }
    }
    true
}

/// A session's commands: IDSizes, Suspend, SuspendCount of thread 1, Dispose.
const COMMANDS: &str = "0000000b 00000001 00 01 07 0000000b 00000002 00 01 08
 00000013 00000003 00 0b 0c 0000000000000001 0000000b 00000004 00 01 06";

/// What is sent for the handshake and them.
const SENT: &str = "4a4457502d48616e647368616b65
 0000001d 00000001 00 40 64 00 00000001 5a 00000000 0000000000000001
 0000001f 00000001 80 0000 00000008 00000008 00000008 00000008 00000008
 0000000b 00000002 80 0000 0000000f 00000003 80 0000 00000001 0000000b 00000004 80 0000";

/// A target is sent the handshake and them, and handles each in a turn.
fn handles_commands(rt: &impl Abort, alloc: Global, target: &mut Target) {
    target.accept();
    target.feed(b"JDWP-Handshake");
    target.feed(&bytes(alloc, COMMANDS).expect(rt, "memory"));
    for _ in 0..5u32 {
        target.turn().expect(rt, "a turn");
    }
}

/// Whether 111 bytes are the same in pieces of 7.
fn leaves_in_pieces(rt: &impl Abort, alloc: Global, target: &mut Target) -> bool {
    handles_commands(rt, alloc, target);
    let mut left = Vec::new(alloc);
    let mut piece = [0; 7];
    for _ in 0..16u32 {
        let count = target.take(&mut piece);
        left.extend_from_slice(&piece[..count.min(7)])
            .expect(rt, "memory");
    }
    let sent = bytes(alloc, SENT).expect(rt, "memory");
    target.waiting() == 0 && left.as_slice() == sent.as_slice()
}

/// Whether the same bytes leave from where they lie.
fn leaves_from_there(rt: &impl Abort, alloc: Global, target: &mut Target) -> bool {
    handles_commands(rt, alloc, target);
    let sent = bytes(alloc, SENT).expect(rt, "memory");
    let (first, second) = target.waiting_slices();
    let lies = first == sent.as_slice() && second.is_empty();
    let count = target.waiting();
    target.leave(count);
    lies && target.waiting() == 0 && target.waiting_slices().0.is_empty()
}

/// Each session: what it shows, the script of its machine, the count limit, and its acts.
fn sessions() -> [(&'static str, &'static str, u32, &'static [Act]); 18] {
    [
        ("short commands", MACHINE_A, 65535, &SHORT_COMMANDS),
        (
            "suspends and resumes",
            MACHINE_A,
            65535,
            &SUSPENDS_AND_RESUMES,
        ),
        (
            "two suspends and three resumes",
            MACHINE_A,
            65535,
            &TWO_SUSPENDS_AND_THREE_RESUMES,
        ),
        (
            "a session after a loss",
            MACHINE_A,
            65535,
            &A_SESSION_AFTER_A_LOSS,
        ),
        ("frame faults", MACHINE_A, 65535, &FRAME_FAULTS),
        (
            "frames of a suspended thread",
            MACHINE_A,
            65535,
            &FRAMES_OF_A_SUSPENDED_THREAD,
        ),
        (
            "slots are written and read",
            WITH_A_SLOT,
            65535,
            &SLOTS_ARE_WRITTEN_AND_READ,
        ),
        (
            "event requests that are refused",
            MACHINE_A,
            65535,
            &EVENT_REQUESTS_THAT_ARE_REFUSED,
        ),
        (
            "two breakpoints of one place report together",
            MACHINE_A,
            65535,
            &TWO_BREAKPOINTS_OF_ONE_PLACE_REPORT_TOGETHER,
        ),
        (
            "a breakpoint that counts reports once",
            MACHINE_A,
            65535,
            &A_BREAKPOINT_THAT_COUNTS_REPORTS_ONCE,
        ),
        (
            "a step into by line",
            MACHINE_A,
            65535,
            &A_STEP_INTO_BY_LINE,
        ),
        (
            "a step over by line",
            MACHINE_A,
            65535,
            &A_STEP_OVER_BY_LINE,
        ),
        (
            "a step and a breakpoint report together",
            MACHINE_A,
            65535,
            &A_STEP_AND_A_BREAKPOINT_REPORT_TOGETHER,
        ),
        (
            "a count at its limit freezes all",
            MACHINE_A,
            2,
            &A_COUNT_AT_ITS_LIMIT_FREEZES_ALL,
        ),
        (
            "held events freeze threads",
            MACHINE_A,
            65535,
            &HELD_EVENTS_FREEZE_THREADS,
        ),
        (
            "an exit ends the machine",
            MACHINE_A,
            65535,
            &AN_EXIT_ENDS_THE_MACHINE,
        ),
        (
            "a death is reported before the end",
            MACHINE_A,
            65535,
            &A_DEATH_IS_REPORTED_BEFORE_THE_END,
        ),
        (
            "the last end is the machines",
            MACHINE_A,
            65535,
            &THE_LAST_END_IS_THE_MACHINES,
        ),
    ]
}

#[test]
fn each_session_goes_as_told(rt: HostRuntime) {
    for (name, script, count_limit, acts) in sessions() {
        goes_as_told(&rt, rt.alloc(), name, script, count_limit, acts);
    }
}
