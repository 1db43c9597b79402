//! Worked examples of data: bytes, booleans, ints, longs and strings.
use crate::asserts::expect_same;
use crate::packets::rows::{are_so, told, written};
use jdwp_wire::{BadSize, DataFault, FrameFault, IdSizes, NoMemory, Wire};
use std::alloc::Global;
use std::fmt::Display;
use std::process::Abort;

/// Any widths: none of these has an id.
fn sizes(rt: &impl Abort) -> IdSizes {
    IdSizes::new(1, 1, 1, 1, 1).expect(rt, "widths")
}

const BOOLEANS: &str = "01/00 = true
00/01 = false
- ! 11 Short(0)";

#[test]
fn every_byte_but_zero_is_true(rt: HostRuntime) {
    let sizes = sizes(&rt);
    are_so::<_, bool>(&rt, rt.alloc(), &sizes, BOOLEANS);
    for byte in 2..=255u8 {
        let found = told::<_, bool>(&rt, rt.alloc(), &sizes, &[byte, 0], &[byte]);
        expect_same(&rt, &found.as_str(), &"> true");
    }
}

const BYTES: &str = "07 = 7
ff = 255";

const INTS: &str = "fffffffe = -2
80000000/09 = -2147483648
800000 ! 11 Short(3)";

const LONGS: &str = "0000000000000102 = 258
ffffffffffffffff = -1
ffffffffffffff ! 11 Short(7)";

#[test]
fn numbers(rt: HostRuntime) {
    let sizes = sizes(&rt);
    are_so::<_, u8>(&rt, rt.alloc(), &sizes, BYTES);
    are_so::<_, i32>(&rt, rt.alloc(), &sizes, INTS);
    are_so::<_, i64>(&rt, rt.alloc(), &sizes, LONGS);
}

const STRINGS: &str = "00000003.6ec3a9/21 = \"né\"
00000000/09 = \"\"
7fffffff ! 11 Short(4)
00000001.ff ! 15 NotUtf8
ffffffff ! 14 NegativeCount
00000002.61 ! 11 Short(5)
000000 ! 11 Short(3)
00000002.ff ! 11 Short(5)";

#[test]
fn strings(rt: HostRuntime) {
    are_so::<_, String>(&rt, rt.alloc(), &sizes(&rt), STRINGS);
}

/// A string of 120,000 bytes.
fn long_string(rt: &impl Abort, alloc: Global) -> String {
    let mut text = String::new(alloc);
    for _ in 0..40_000 {
        text.push_str("né").expect(rt, "memory");
    }
    text
}

#[test]
fn a_long_string(rt: HostRuntime) {
    let text = long_string(&rt, rt.alloc());
    let bytes = written(&rt, rt.alloc(), &sizes(&rt), &text);
    expect_same(&rt, &bytes.len(), &120_005);
    let behind = bytes.get(1..).expect(&rt, "a byte");
    let taken = String::take(rt.alloc(), behind, &sizes(&rt));
    expect_same(&rt, &taken, &Ok((text, 120_004)));
}

/// Each law is called once at a type, which shows that it can be: it answers nothing that could be compared.
#[test]
fn laws_at_a_type(_rt: HostRuntime) {
    jdwp_wire::laws::reads_what_is_encoded::<i32>();
    jdwp_wire::laws::reads_only_encoded::<String>();
    jdwp_wire::laws::answers_first_fault::<bool>();
    jdwp_wire::laws::begins_with_one_value::<i64>();
    jdwp_wire::laws::begins_with_one_fault::<u8>();
}

/// Each fault of data, its number, and its text.
static FAULTS: [(DataFault, u16, &str); 8] = [
    (DataFault::Short(5), 11, "fault 11: 5 bytes are too few"),
    (
        DataFault::Extra(2),
        12,
        "fault 12: bytes are left over at 2",
    ),
    (DataFault::BadTag, 13, "fault 13: a bad tag"),
    (DataFault::NegativeCount, 14, "fault 14: a negative count"),
    (DataFault::NotUtf8, 15, "fault 15: a string is not UTF-8"),
    (
        DataFault::BadSize,
        16,
        "fault 16: a length or count is too large",
    ),
    (DataFault::IdTooWide, 17, "fault 17: an id is too wide"),
    (DataFault::NoMemory, 18, "fault 18: no memory"),
];

/// What is told of it.
fn is_told<T: Display>(rt: &impl Abort, alloc: Global, told: &T, text: &str) {
    let found = told.to_string(alloc).expect(rt, "memory");
    expect_same(rt, &found.as_str(), &text);
}

#[test]
fn texts_of_faults(rt: HostRuntime) {
    for (fault, number, text) in FAULTS.iter() {
        expect_same(&rt, &fault.number(), number);
        is_told(&rt, rt.alloc(), fault, text);
    }
    is_told(&rt, rt.alloc(), &NoMemory, "no memory");
    is_told(&rt, rt.alloc(), &BadSize, "an id has 1 to 8 bytes");
}

/// Each fault of a frame, its number, and its text.
static FRAME_FAULTS: [(FrameFault, u16, &str); 4] = [
    (
        FrameFault::ShortLength,
        1,
        "fault 1: a packet length below 11",
    ),
    (
        FrameFault::TooLong,
        2,
        "fault 2: a packet length above the limit",
    ),
    (
        FrameFault::BadFlags,
        3,
        "fault 3: packet flags other than 00 and 80",
    ),
    (
        FrameFault::BadHandshake(5),
        4,
        "fault 4: not the handshake at byte 5",
    ),
];

#[test]
fn texts_of_frame_faults(rt: HostRuntime) {
    for (fault, number, text) in FRAME_FAULTS.iter() {
        expect_same(&rt, &fault.number(), number);
        is_told(&rt, rt.alloc(), fault, text);
    }
}
