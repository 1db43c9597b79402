//! Texts and the bytes of the data that they say. Ids have 8 bytes.
use crate::asserts::expect_same;
use jdwp_layout::{Layout, layout_of};
use jdwp_text::read_data;
use jdwp_wire::IdSizes;
use std::alloc::Global;
use std::process::Abort;
use test_parts::bytes;

/// The layout of the request or the reply of a command.
pub(crate) fn layout(rt: &impl Abort, set: u8, number: u8, reply: bool) -> Layout {
    let row = layout_of(set, number).expect(rt, "a row");
    let layouts = row.layouts.expect(rt, "a row with layouts");
    if reply {
        layouts.reply
    } else {
        layouts.request
    }
}

/// The set and the number of a command, whether it is its reply, a text, and the bytes of its data.
static TEXTS: [(u8, u8, bool, &str, &str); 33] = [
    (1, 8, false, "", ""),
    (1, 2, false, " \"LMain;\"", "000000064c4d61696e3b"),
    (1, 2, false, " \"\"", "00000000"),
    (1, 2, false, " \"h\u{e9}\"", "0000000368c3a9"),
    (
        1,
        2,
        false,
        " \"\\\"\\\\\\x0a\\x1f\\x7f\"",
        "0000000522 5c 0a 1f 7f",
    ),
    (1, 10, false, " 0", "00000000"),
    (1, 10, false, " -1", "ffffffff"),
    (1, 10, false, " 2147483647", "7fffffff"),
    (1, 10, false, " -2147483648", "80000000"),
    (11, 12, false, " #1", "0000000000000001"),
    (11, 12, false, " #18446744073709551615", "ffffffffffffffff"),
    (11, 12, true, " 1", "00000001"),
    (
        1,
        7,
        true,
        " 8 8 8 8 8",
        "00000008 00000008 00000008 00000008 00000008",
    ),
    (
        1,
        14,
        false,
        " [(#5, 2), (#6, 1)]",
        "00000002 0000000000000005 00000002 0000000000000006 00000001",
    ),
    (1, 4, true, " []", "00000000"),
    (1, 4, true, " [#1]", "00000001 0000000000000001"),
    (
        1,
        4,
        true,
        " [#1, #2]",
        "00000002 0000000000000001 0000000000000002",
    ),
    (15, 1, false, " 2 0 []", "02 00 00000000"),
    (
        15,
        1,
        false,
        " 2 0 [(7, 1:#10:#20:3)]",
        "02 00 00000001 07 01 000000000000000a 0000000000000014 0000000000000003",
    ),
    (
        15,
        1,
        false,
        " 2 2 [(7, 0:#0:#0:0), (1, 2)]",
        "02 02 00000002 07 00 0000000000000000 0000000000000000 0000000000000000 01 00000002",
    ),
    (
        15,
        1,
        false,
        " 4 0 [(8, #0, true, false)]",
        "04 00 00000001 08 0000000000000000 01 00",
    ),
    (
        15,
        1,
        false,
        " 8 1 [(5, \"Main*\"), (3, #1)]",
        "08 01 00000002 05 00000005 4d61696e2a 03 0000000000000001",
    ),
    (
        64,
        100,
        false,
        " 0 [(90, 0, #1)]",
        "00 00000001 5a 00000000 0000000000000001",
    ),
    (
        64,
        100,
        false,
        " 2 [(2, 1, #1, 1:#10:#20:3), (2, 2, #1, 1:#10:#20:3)]",
        "02 00000002 02 00000001 0000000000000001 01 000000000000000a 0000000000000014 0000000000000003 02 00000002 0000000000000001 01 000000000000000a 0000000000000014 0000000000000003",
    ),
    (64, 100, false, " 0 [(99, 0)]", "00 00000001 63 00000000"),
    (
        6,
        1,
        true,
        " -1 9 [(0, 1), (3, 2)]",
        "ffffffffffffffff 0000000000000009 00000002 0000000000000000 00000001 0000000000000003 00000002",
    ),
    (
        16,
        2,
        false,
        " #1 #30 [(0, I:7), (1, L#5), (2, Z:1)]",
        "0000000000000001 000000000000001e 00000003 00000000 49 00000007 00000001 4c 0000000000000005 00000002 5a 01",
    ),
    (
        9,
        2,
        true,
        " [B:255, C:65535, D:1, F:4294967295, J:2, S:3, V, [#4, s#0]",
        "00000009 42 ff 43 ffff 44 0000000000000001 46 ffffffff 4a 0000000000000002 53 0003 56 5b 0000000000000004 73 0000000000000000",
    ),
    (13, 2, true, " I[1, 2]", "49 00000002 00000001 00000002"),
    (
        13,
        2,
        true,
        " L[L#5, s#6]",
        "4c 00000002 4c 0000000000000005 73 0000000000000006",
    ),
    (13, 2, true, " [[]", "5b 00000000"),
    (13, 2, true, " Z[1, 0]", "5a 00000002 01 00"),
    (
        1,
        12,
        true,
        " true false true false true false true",
        "01 00 01 00 01 00 01",
    ),
];

/// The text says the data of these bytes.
fn is_read(rt: &impl Abort, alloc: Global, layout: &Layout, text: &str, hex: &str) {
    let sizes = IdSizes::new(8, 8, 8, 8, 8).expect(rt, "widths");
    let wanted = bytes(alloc, hex).expect(rt, "memory");
    let read = read_data(alloc, layout, &sizes, text).expect(rt, "data");
    expect_same(rt, &read, &wanted);
}

#[test]
fn texts_that_say_data(rt: HostRuntime) {
    for (set, number, reply, text, hex) in &TEXTS {
        let layout = layout(&rt, *set, *number, *reply);
        is_read(&rt, rt.alloc(), &layout, text, hex);
    }
}
