//! Verdicts on whole captures.
use crate::asserts::expect_same;
use jdwp_judge::check;
use jdwp_show::{CaptureFault, Verdict};
use jdwp_wire::{DataFault, FrameFault};
use std::alloc::Global;
use std::process::Abort;

const HANDSHAKES: &str = "> 4a4457502d48616e647368616b65\n< 4a4457502d48616e647368616b65\n";

/// VirtualMachine.IDSizes and its reply: all widths 8.
const SIZES: &str =
    "> 0000000b00000001000107\n< 0000001f000000018000000000000800000008000000080000000800000008\n";

/// The line, the number of the fault and the number that is printed; zeros for a capture that begins a session.
fn numbers(verdict: Verdict) -> (usize, u16, u16) {
    match verdict {
        Verdict::Yes => (0, 0, 0),
        Verdict::No(line, fault) => (line, fault.number(), fault.printed_number()),
    }
}

/// Captures of both handshakes, this and each of these are judged so.
fn are_judged(rt: &impl Abort, alloc: Global, before: &str, rows: &[(&str, (usize, u16, u16))]) {
    for (more, wanted) in rows {
        let text = format!(in alloc; "{HANDSHAKES}{before}{more}").expect(rt, "memory");
        let verdict = check(alloc, text.as_str()).expect(rt, "memory");
        expect_same(rt, &numbers(verdict), wanted);
    }
}

/// Lines behind both handshakes, and how they are judged.
static FAULTS: [(&str, (usize, u16, u16)); 11] = [
    (
        "> 0000000b00000001000108\n> 0000000b00000001000109\n",
        (4, 53, 53),
    ),
    ("< 0000000b00000009800000\n", (3, 54, 54)),
    ("> 0000000b00000001004064\n", (3, 56, 56)),
    ("> 0000000b00000001800000\n", (3, 56, 56)),
    ("< 0000000b00000001000101\n", (3, 56, 56)),
    ("> 0000000a\n", (3, 52, 1)),
    ("> 00010001", (3, 52, 2)),
    ("< 0000000b0000000101", (3, 52, 3)),
    ("> 0000000b0000000100010\n", (3, 51, 51)),
    ("> 0000000a\n>\n", (4, 51, 51)),
    ("> 0000000b000000010001", (0, 0, 0)),
];

#[test]
fn faults_in_their_lines(rt: HostRuntime) {
    are_judged(&rt, rt.alloc(), "", &FAULTS);
}

/// Lines behind the widths of ids, and how they are judged.
static DATA: [(&str, (usize, u16, u16)); 9] = [
    ("> 0000000c0000000200010800\n", (5, 55, 12)),
    (
        "> 0000000b00000002000108\n< 0000000c0000000280007100\n",
        (6, 55, 55),
    ),
    ("> 0000000f00000007000102ffffffff\n", (5, 55, 14)),
    // an unknown command, and one whose data no one reads
    (
        "> 0000000c0000000200016300\n< 0000000c0000000280000007\n",
        (0, 0, 0),
    ),
    (
        "> 0000000c0000000200010d00\n< 0000000c0000000280000007\n",
        (0, 0, 0),
    ),
    // in one packet the end comes first, then the id, then the data
    ("< 0000000c0000000280007100\n", (5, 54, 54)),
    ("> 0000000c0000000200406400\n", (5, 56, 56)),
    // an id is free again after its reply
    (
        "> 0000000b00000001000108\n< 0000000b00000001800000\n",
        (0, 0, 0),
    ),
    // other widths in a later reply change nothing
    (
        "> 0000000b00000001000107\n< 0000001f000000018000000000000100000001000000010000000100000001\n> 0000001300000002000b0c0000000000000001\n",
        (0, 0, 0),
    ),
];

#[test]
fn data_that_do_not_read(rt: HostRuntime) {
    are_judged(&rt, rt.alloc(), SIZES, &DATA);
}

/// Lines behind both handshakes that tell widths of ids, and how they are judged.
static WIDTHS: [(&str, (usize, u16, u16)); 6] = [
    // objects of 2 bytes
    (
        "> 0000000b00000001000107\n< 0000001f000000018000000000000100000001000000020000000100000001\n> 0000000d00000002000b0c0001\n",
        (0, 0, 0),
    ),
    (
        "> 0000000b00000001000107\n< 0000001f000000018000000000000100000001000000020000000100000001\n> 0000001300000002000b0c0000000000000001\n",
        (5, 55, 12),
    ),
    // told after the packet that needs them
    (
        "> 0000001300000002000b0c0000000000000001\n> 0000000b00000001000107\n< 0000001f000000018000000000000100000001000000020000000100000001\n",
        (3, 55, 12),
    ),
    // never told: other data are not judged
    (
        "> 0000000d00000002000b0c0001\n< 0000000c0000000280000007\n",
        (0, 0, 0),
    ),
    (
        "> 0000000b00000001000107\n< 0000001f000000018000000000000900000001000000020000000100000001\n",
        (4, 55, 16),
    ),
    (
        "> 0000000b00000001000107\n< 0000000f0000000180000000000008\n",
        (4, 55, 11),
    ),
];

#[test]
fn widths_of_ids(rt: HostRuntime) {
    are_judged(&rt, rt.alloc(), "", &WIDTHS);
}

/// The capture of this text is judged so.
fn is_judged(rt: &impl Abort, alloc: Global, text: &str, wanted: Verdict) {
    let verdict = check(alloc, text).expect(rt, "memory");
    expect_same(rt, &verdict, &wanted);
}

#[test]
fn smallest_captures(rt: HostRuntime) {
    is_judged(&rt, rt.alloc(), "", Verdict::Yes);
    is_judged(&rt, rt.alloc(), "> 4a44", Verdict::Yes);
    let wrong_way = Verdict::No(1, CaptureFault::WrongWay);
    is_judged(&rt, rt.alloc(), "< 4a4457502d48616e647368616b65", wrong_way);
    let bad = Verdict::No(1, CaptureFault::Frame(FrameFault::BadHandshake(1)));
    is_judged(&rt, rt.alloc(), "> 4a45", bad);
}

/// None of these lines is a line of a capture.
fn are_no_lines(rt: &impl Abort, alloc: Global, lines: &[&str]) {
    for line in lines {
        let text = format!(in alloc; "{line}\n> 4a").expect(rt, "memory");
        let bad = Verdict::No(1, CaptureFault::BadLine);
        is_judged(rt, alloc, text.as_str(), bad);
    }
}

#[test]
fn bad_lines(rt: HostRuntime) {
    let lines = [
        "", "\n", "> ", "> 4", "4a44", ">4a44", "> 4g", "= 4a", ">  4a", "> 4a 44",
    ];
    are_no_lines(&rt, rt.alloc(), &lines);
}

/// A line of a capture, if it has any byte.
fn push_line(rt: &impl Abort, alloc: Global, text: &mut String, mark: char, bytes: &[u8]) {
    if !bytes.is_empty() {
        let digits = hex::encode(alloc, bytes).expect(rt, "memory");
        write!(text, "{mark} {digits}\n").expect(rt, "memory");
    }
}

/// A capture of these lines, the line at `place` cut in two behind its first `count` bytes.
fn cut_at(
    rt: &impl Abort,
    alloc: Global,
    lines: &[(char, &[u8])],
    place: usize,
    count: usize,
) -> String {
    let mut text = String::new(alloc);
    for (index, (mark, bytes)) in lines.iter().enumerate() {
        let first = if index == place {
            count.min(bytes.len())
        } else {
            0
        };
        push_line(rt, alloc, &mut text, *mark, &bytes[..first]);
        push_line(rt, alloc, &mut text, *mark, &bytes[first..]);
    }
    text
}

static LINES: [(char, &[u8]); 5] = [
    ('>', b"JDWP-Handshake"),
    ('<', b"JDWP-Handshake"),
    ('>', &[0, 0, 0, 11, 0, 0, 0, 1, 0, 1, 7]),
    (
        '<',
        &[
            0, 0, 0, 31, 0, 0, 0, 1, 0x80, 0, 0, 0, 0, 0, 8, 0, 0, 0, 8, 0, 0, 0, 8, 0, 0, 0, 8, 0,
            0, 0, 8,
        ],
    ),
    // the flags are the ninth byte, and bytes follow them
    ('>', &[0, 0, 0, 11, 0, 0, 0, 2, 1, 9, 9]),
];

/// A capture of these lines, cut at a place, is judged so.
fn is_judged_cut(
    rt: &impl Abort,
    alloc: Global,
    lines: &[(char, &[u8])],
    (place, count): (usize, usize),
    wanted: Verdict,
) {
    let text = cut_at(rt, alloc, lines, place, count);
    is_judged(rt, alloc, text.as_str(), wanted);
}

#[test]
fn cut_anywhere(rt: HostRuntime) {
    for (place, (_, bytes)) in LINES.iter().enumerate() {
        for count in 1..bytes.len() {
            let line = if place == 4 && count >= 9 { 5 } else { 6 };
            let wanted = Verdict::No(line, CaptureFault::Frame(FrameFault::BadFlags));
            is_judged_cut(&rt, rt.alloc(), &LINES, (place, count), wanted);
        }
    }
    for count in 1..31usize {
        is_judged_cut(&rt, rt.alloc(), &LINES[..4], (3, count), Verdict::Yes);
    }
}

/// The fault's number, the number that is printed, and its text.
fn is_told(
    rt: &impl Abort,
    alloc: Global,
    fault: CaptureFault,
    (number, printed): (u16, u16),
    text: &str,
) {
    expect_same(rt, &fault.number(), &number);
    expect_same(rt, &fault.printed_number(), &printed);
    let told = fault.to_string(alloc).expect(rt, "memory");
    expect_same(rt, &told.as_str(), &text);
}

#[test]
fn faults_of_lines_are_told(rt: HostRuntime) {
    let alloc = rt.alloc();
    let text = "fault 51: not a line of a capture";
    is_told(&rt, alloc, CaptureFault::BadLine, (51, 51), text);
    let too_long = CaptureFault::Frame(FrameFault::TooLong);
    let text = "fault 52: fault 2: a packet length above the limit";
    is_told(&rt, alloc, too_long, (52, 2), text);
    let handshake = CaptureFault::Frame(FrameFault::BadHandshake(3));
    let text = "fault 52: fault 4: not the handshake at byte 3";
    is_told(&rt, alloc, handshake, (52, 4), text);
    let text = "fault 56: a message of the other end";
    is_told(&rt, alloc, CaptureFault::WrongWay, (56, 56), text);
}

#[test]
fn faults_of_packets_are_told(rt: HostRuntime) {
    let alloc = rt.alloc();
    let text = "fault 53: the id of a command that waits for its reply";
    is_told(&rt, alloc, CaptureFault::IdInUse, (53, 53), text);
    let text = "fault 54: a reply to no command";
    is_told(&rt, alloc, CaptureFault::UnknownReply, (54, 54), text);
    let bad_tag = CaptureFault::BadData(DataFault::BadTag);
    let text = "fault 55: fault 13: a bad tag";
    is_told(&rt, alloc, bad_tag, (55, 13), text);
    let text = "fault 55: data in a reply with an error";
    is_told(&rt, alloc, CaptureFault::ErrorWithData, (55, 55), text);
}
