//! Deferred replies, byte for byte: which commands wait, in which order they are released, and what drops them.
use crate::targets::sessions::{Act, HANDSHAKE, goes_as_told};
use jdwp_target::{Stepped, Turn};
use jdwp_wire::{ErrorCode, FrameFault};
use test_parts::{ALL_KINDS, MACHINE_A};

/// Signature and Status of a class, and AllThreads.
const THREE: &str =
    "00000013 00000002 00 02 01 000000000000000a 00000013 00000003 00 02 09 000000000000000a
 0000000b 00000004 00 01 04";

const STATUS: &str = "00000013 00000003 00 02 09 000000000000000a";

/// Eight times Status.
const EIGHT: &str =
    "00000013 00000003 00 02 09 000000000000000a 00000013 00000003 00 02 09 000000000000000a
 00000013 00000003 00 02 09 000000000000000a 00000013 00000003 00 02 09 000000000000000a
 00000013 00000003 00 02 09 000000000000000a 00000013 00000003 00 02 09 000000000000000a
 00000013 00000003 00 02 09 000000000000000a 00000013 00000003 00 02 09 000000000000000a";

const ANSWERED: &str = "0000000f 00000003 80 0000 00000003";

static THE_NEWEST_IS_RELEASED_FIRST: [Act; 10] = [
    Act::Defers(true),
    Act::Says(
        THREE,
        "0000001f 00000004 80 0000 00000002 0000000000000001 0000000000000002",
    ),
    Act::Waits(2),
    Act::Releases(2, Turn::Nothing, ""),
    Act::Releases(1, Turn::Replied(3, ErrorCode::NONE), ANSWERED),
    Act::Waits(1),
    Act::Releases(1, Turn::Nothing, ""),
    Act::Releases(
        0,
        Turn::Replied(2, ErrorCode::NONE),
        "00000015 00000002 80 0000 00000006 4c4d61696e3b",
    ),
    Act::Releases(0, Turn::Nothing, ""),
    Act::Waits(0),
];

/// Those behind the one that is released move up, and the others stay.
static LATER_ONES_MOVE_UP: [Act; 7] = [
    Act::Defers(true),
    Act::Says(
        "00000013 00000002 00 02 01 000000000000000a 00000013 00000003 00 02 09 000000000000000a
         00000013 00000005 00 02 09 000000000000000a",
        "",
    ),
    Act::Waits(3),
    Act::Releases(
        0,
        Turn::Replied(2, ErrorCode::NONE),
        "00000015 00000002 80 0000 00000006 4c4d61696e3b",
    ),
    Act::Releases(
        1,
        Turn::Replied(5, ErrorCode::NONE),
        "0000000f 00000005 80 0000 00000003",
    ),
    Act::Releases(0, Turn::Replied(3, ErrorCode::NONE), ANSWERED),
    Act::Waits(0),
];

/// Sixteen wait, and the next is answered at once.
static THE_SEVENTEENTH_IS_ANSWERED: [Act; 9] = [
    Act::Defers(true),
    Act::Says(EIGHT, ""),
    Act::Says(EIGHT, ""),
    Act::Waits(16),
    Act::Says(STATUS, ANSWERED),
    Act::Waits(16),
    Act::Releases(15, Turn::Replied(3, ErrorCode::NONE), ANSWERED),
    Act::Says(STATUS, ""),
    Act::Waits(16),
];

/// Any number and any data of the two sets: a command that there is none of, one with data missing, and one of Method.
static ANY_COMMAND_OF_THE_SETS: [Act; 9] = [
    Act::Defers(true),
    Act::Says(
        "0000000b 00000002 00 02 63 0000000c 00000003 00 02 09 00
         0000001b 00000004 00 06 04 000000000000000a 0000000000000014 0000000b 00000005 00 01 63",
        "0000000b 00000005 80 0063",
    ),
    Act::Waits(3),
    Act::Releases(
        0,
        Turn::Replied(2, ErrorCode::NOT_IMPLEMENTED),
        "0000000b 00000002 80 0063",
    ),
    Act::Releases(
        0,
        Turn::Replied(3, ErrorCode::ILLEGAL_ARGUMENT),
        "0000000b 00000003 80 0067",
    ),
    Act::Defers(false),
    Act::Waits(1),
    Act::Says(STATUS, ANSWERED),
    Act::Releases(
        0,
        Turn::Replied(4, ErrorCode::NONE),
        "0000000c 00000004 80 0000 00",
    ),
];

/// The status of a class that is prepared while the command waits.
static ANSWERED_AS_IT_IS_THEN: [Act; 6] = [
    Act::Says(
        "00000013 00000002 00 02 09 000000000000000c",
        "0000000f 00000002 80 0000 00000000",
    ),
    Act::Defers(true),
    Act::Says("00000013 00000003 00 02 09 000000000000000c", ""),
    Act::Steps(1, 4, Stepped::Quiet, ""),
    Act::Releases(0, Turn::Replied(3, ErrorCode::NONE), ANSWERED),
    Act::Open(true),
];

static DISPOSE_DROPS_THEM: [Act; 11] = [
    Act::Defers(true),
    Act::Says(EIGHT, ""),
    Act::Says(EIGHT, ""),
    Act::Waits(16),
    Act::Says("0000000b 00000004 00 01 06", "0000000b 00000004 80 0000"),
    Act::Waits(0),
    Act::Releases(0, Turn::Nothing, ""),
    Act::Accepts(true),
    Act::Says(HANDSHAKE, HANDSHAKE),
    Act::Says(STATUS, ""),
    Act::Waits(1),
];

static EXIT_DROPS_THEM: [Act; 6] = [
    Act::Defers(true),
    Act::Says(EIGHT, ""),
    Act::Says(
        "0000000f 00000004 00 01 0a 00000000",
        "0000000b 00000004 80 0000 00000015 00000002 00 40 64 00 00000001 63 00000000",
    ),
    Act::Open(false),
    Act::Waits(0),
    Act::Releases(0, Turn::Nothing, ""),
];

/// The machine's last thread ends.
static A_DEATH_DROPS_THEM: [Act; 7] = [
    Act::Defers(true),
    Act::Says(EIGHT, ""),
    Act::Steps(2, 1, Stepped::Ended, ""),
    Act::Steps(1, 7, Stepped::Quiet, ""),
    Act::Waits(8),
    Act::Steps(
        1,
        1,
        Stepped::Ended,
        "00000015 00000002 00 40 64 00 00000001 63 00000000",
    ),
    Act::Waits(0),
];

/// It still defers in the session after the loss.
static A_LOSS_DROPS_THEM: [Act; 9] = [
    Act::Defers(true),
    Act::Says(EIGHT, ""),
    Act::Says(EIGHT, ""),
    Act::Loses,
    Act::Waits(0),
    Act::Accepts(true),
    Act::Says(HANDSHAKE, HANDSHAKE),
    Act::Says(STATUS, ""),
    Act::Waits(1),
];

static A_FRAME_FAULT_DROPS_THEM: [Act; 6] = [
    Act::Defers(true),
    Act::Says(EIGHT, ""),
    Act::Says(EIGHT, ""),
    Act::Fails("0000000a", FrameFault::ShortLength),
    Act::Waits(0),
    Act::Releases(0, Turn::Nothing, ""),
];

/// Each session: what it shows, the script of its machine, the count limit, and its acts.
fn sessions() -> [(&'static str, &'static str, u32, &'static [Act]); 10] {
    [
        (
            "the newest is released first",
            MACHINE_A,
            65535,
            &THE_NEWEST_IS_RELEASED_FIRST,
        ),
        ("later ones move up", MACHINE_A, 65535, &LATER_ONES_MOVE_UP),
        (
            "the seventeenth is answered at once",
            MACHINE_A,
            65535,
            &THE_SEVENTEENTH_IS_ANSWERED,
        ),
        (
            "any command of the sets is deferred",
            MACHINE_A,
            65535,
            &ANY_COMMAND_OF_THE_SETS,
        ),
        (
            "a command is answered as it is then",
            ALL_KINDS,
            65535,
            &ANSWERED_AS_IT_IS_THEN,
        ),
        ("dispose drops them", MACHINE_A, 65535, &DISPOSE_DROPS_THEM),
        ("exit drops them", MACHINE_A, 65535, &EXIT_DROPS_THEM),
        ("a death drops them", MACHINE_A, 65535, &A_DEATH_DROPS_THEM),
        ("a loss drops them", MACHINE_A, 65535, &A_LOSS_DROPS_THEM),
        (
            "a frame fault drops them",
            MACHINE_A,
            65535,
            &A_FRAME_FAULT_DROPS_THEM,
        ),
    ]
}

#[test]
fn each_session_goes_as_told(rt: HostRuntime) {
    for (name, script, count_limit, acts) in sessions() {
        goes_as_told(&rt, rt.alloc(), name, script, count_limit, acts);
    }
}
