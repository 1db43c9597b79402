//! Captures in words.
use crate::asserts::expect_same;
use jdwp_event::{Composite, Policy};
use jdwp_judge::show;
use jdwp_layout::{Datum, Scalar};
use jdwp_show::{CaptureFault, composite_data_line, composite_line, reply_line};
use jdwp_value::ObjectId;
use jdwp_wire::{ErrorCode, FrameFault};
use std::alloc::Global;
use std::process::Abort;

const HANDSHAKES: &str = "> 4a4457502d48616e647368616b65\n< 4a4457502d48616e647368616b65\n";

/// VirtualMachine.IDSizes and its reply: all widths 8.
const SIZES: &str =
    "> 0000000b00000001000107\n< 0000001f000000018000000000000800000008000000080000000800000008\n";

/// The two in words.
const BEGINNING: &str =
    "> hello\n< hello\n> 1 VirtualMachine.IDSizes\n< 1 reply VirtualMachine.IDSizes 0 8 8 8 8 8\n";

/// A capture that begins so and goes on with these lines is shown without a fault, and so it goes on in words.
fn is_shown(rt: &impl Abort, alloc: Global, more: &str, wanted: &str) {
    let text = format!(in alloc; "{HANDSHAKES}{SIZES}{more}").expect(rt, "memory");
    let lines = format!(in alloc; "{BEGINNING}{wanted}").expect(rt, "memory");
    ends_so(rt, alloc, text.as_str(), lines.as_str(), &None);
}

/// A capture that goes on with the lines of each row is shown so.
fn are_shown(rt: &impl Abort, alloc: Global, rows: &[(&str, &str)]) {
    for (more, wanted) in rows {
        is_shown(rt, alloc, more, wanted);
    }
}

/// Lines of packets, and their words.
static PACKETS: [(&str, &str); 7] = [
    (
        "> 0000001300000003000b0c0000000000000001\n< 0000000f00000003800000\n< 00000001\n",
        "> 3 ThreadReference.SuspendCount #1\n< 3 reply ThreadReference.SuspendCount 0 1\n",
    ),
    (
        "< 0000001d0000000100406400000000015a000000000000000000000001\n",
        "< 1 Event.Composite 0 [(90, 0, #1)]\n",
    ),
    (
        "> 0000002b00000002000f010200000000010701000000000000000a00000000000000140000000000000003\n",
        "> 2 EventRequest.Set 2 0 [(7, 1:#10:#20:3)]\n",
    ),
    (
        "< 0000005c00000002004064020000000202000000010000000000000001\n< 01000000000000000a0000000000000014000000000000000302000000020000000000000001\n< 01000000000000000a00000000000000140000000000000003\n",
        "< 2 Event.Composite 2 [(2, 1, #1, 1:#10:#20:3), (2, 2, #1, 1:#10:#20:3)]\n",
    ),
    (
        "> 0000000b00000006000163\n< 0000000b00000006800063\n",
        "> 6 1.99\n< 6 reply 1.99 99\n",
    ),
    (
        "> 0000000d0000000600010dab01\n< 0000000c0000000680000007\n",
        "> 6 VirtualMachine.ClassPaths raw ab01\n< 6 reply VirtualMachine.ClassPaths 0 raw 07\n",
    ),
    (
        "> 0000001600000004000102000000074122\n> 5c0a7fc3a9\n",
        "> 4 VirtualMachine.ClassesBySignature \"A\\\"\\\\\\x0a\\x7f\u{e9}\"\n",
    ),
];

#[test]
fn packets_in_words(rt: HostRuntime) {
    are_shown(&rt, rt.alloc(), &PACKETS);
}

/// Lines of values, and their words.
static VALUES: [(&str, &str); 3] = [
    // ArrayReference.GetValues: ints, and then objects
    (
        "> 0000001b00000004000d0200000000000000050000000000000002\n< 0000001800000004800000490000000200000001ffffffff\n",
        "> 4 ArrayReference.GetValues #5 0 2\n< 4 reply ArrayReference.GetValues 0 I[1, 4294967295]\n",
    ),
    (
        "> 0000001b00000004000d0200000000000000050000000000000001\n< 00000019000000048000004c00000001730000000000000005\n",
        "> 4 ArrayReference.GetValues #5 0 1\n< 4 reply ArrayReference.GetValues 0 L[s#5]\n",
    ),
    // ObjectReference.GetValues: an int, an object and void
    (
        "> 0000001f00000004000902000000000000000500000001000000000000000a\n< 0000001e00000004800000000000034900000007\n< 4c000000000000000556\n",
        "> 4 ObjectReference.GetValues #5 [#10]\n< 4 reply ObjectReference.GetValues 0 [I:7, L#5, V]\n",
    ),
];

#[test]
fn values_and_regions(rt: HostRuntime) {
    are_shown(&rt, rt.alloc(), &VALUES);
}

/// Lines of each kind of data, and their words.
static KINDS: [(&str, &str); 8] = [
    // an id above 9
    (
        "> 0000001300000003000b0c00000000000000ff\n",
        "> 3 ThreadReference.SuspendCount #255\n",
    ),
    // a boolean, false and then true
    (
        "> 0000001300000004000909000000000000000a\n< 0000000c0000000480000000\n",
        "> 4 ObjectReference.IsCollected #10\n< 4 reply ObjectReference.IsCollected 0 false\n",
    ),
    (
        "> 0000001300000004000909000000000000000a\n< 0000000c0000000480000002\n",
        "> 4 ObjectReference.IsCollected #10\n< 4 reply ObjectReference.IsCollected 0 true\n",
    ),
    // the null location, an interface and an array
    (
        "> 0000005f00000002000f0102000000000307000000000000000000000000000000000000000000000000000702000000000000000a000000000000000b000000000000000c0703000000000000000a000000000000000bffffffffffffffff\n",
        "> 2 EventRequest.Set 2 0 [(7, 0:#0:#0:0), (7, 2:#10:#11:12), (7, 3:#10:#11:18446744073709551615)]\n",
    ),
    // numbers of every tag
    (
        "> 0000001f00000004000902000000000000000500000001000000000000000a\n< 0000003800000004800000\n< 0000000a42ff43ffff44c00000000000000146bf80000049ffffffff4affffffffffffffff538000565a005a07\n",
        "> 4 ObjectReference.GetValues #5 [#10]\n< 4 reply ObjectReference.GetValues 0 [B:255, C:65535, D:13835058055282163713, F:3212836864, I:4294967295, J:18446744073709551615, S:32768, V, Z:0, Z:1]\n",
    ),
    // objects of every tag
    (
        "> 0000001f00000004000902000000000000000500000001000000000000000a\n< 0000004e00000004800000\n< 000000075b00000000000000104c000000000000000a73000000000000000b74000000000000000c67000000000000000d6c000000000000000e63000000000000000f\n",
        "> 4 ObjectReference.GetValues #5 [#10]\n< 4 reply ObjectReference.GetValues 0 [[#16, L#10, s#11, t#12, g#13, l#14, c#15]\n",
    ),
    // characters 1, 31, 32 and 127, and a character of two bytes
    (
        "> 000000150000000400010200000006011f207fc3a9\n",
        "> 4 VirtualMachine.ClassesBySignature \"\\x01\\x1f \\x7f\u{e9}\"\n",
    ),
    // a region of booleans
    (
        "> 0000001b00000004000d0200000000000000050000000000000003\n< 00000013000000048000005a000000030001ff\n",
        "> 4 ArrayReference.GetValues #5 0 3\n< 4 reply ArrayReference.GetValues 0 Z[0, 1, 1]\n",
    ),
];

#[test]
fn each_kind_of_text(rt: HostRuntime) {
    are_shown(&rt, rt.alloc(), &KINDS);
}

/// The line of a reply under this id to this command.
fn is_line(
    rt: &impl Abort,
    alloc: Global,
    (id, set, number): (u32, u8, u8),
    answer: (ErrorCode, &[Datum], &[u8]),
    wanted: &str,
) {
    let (error, data, bytes) = answer;
    let line = reply_line(alloc, id, set, number, error, data, bytes);
    expect_same(rt, &line.expect(rt, "memory").as_str(), &wanted);
}

#[test]
fn lines_of_replies(rt: HostRuntime) {
    let alloc = rt.alloc();
    let count = [Datum::One(Scalar::Int(-1))];
    let data = (ErrorCode::NONE, &count[..], &[][..]);
    let wanted = "< 3 reply ThreadReference.SuspendCount 0 -1";
    is_line(&rt, alloc, (3, 11, 12), data, wanted);
    let unknown = (ErrorCode(99), &[][..], &[][..]);
    is_line(&rt, alloc, (6, 1, 99), unknown, "< 6 reply 1.99 99");
    let raw = (ErrorCode::NONE, &[][..], &[0x07, 0xab][..]);
    let wanted = "< 7 reply VirtualMachine.ClassPaths 0 raw 07ab";
    is_line(&rt, alloc, (7, 1, 13), raw, wanted);
}

/// A list of the start of the machine in thread 1.
fn list_of_start(rt: &impl Abort, alloc: Global) -> Datum {
    let event = vec![in alloc;
        Scalar::Byte(90),
        Scalar::Int(0),
        Scalar::ObjectId(ObjectId(1)),
    ];
    let events = vec![in alloc; event.expect(rt, "memory")];
    Datum::Many(events.expect(rt, "memory"))
}

#[test]
fn line_of_a_composite(rt: HostRuntime) {
    let alloc = rt.alloc();
    let data = [Datum::One(Scalar::Byte(0)), list_of_start(&rt, alloc)];
    let line = composite_data_line(alloc, 1, &data).expect(&rt, "memory");
    expect_same(&rt, &line.as_str(), &"< 1 Event.Composite 0 [(90, 0, #1)]");
    let start = Composite::vm_start(alloc, Policy::None, ObjectId(1)).expect(&rt, "memory");
    let line = composite_line(alloc, 1, &start).expect(&rt, "memory");
    expect_same(&rt, &line.as_str(), &"< 1 Event.Composite 0 [(90, 0, #1)]");
}

/// The capture is shown in these words, and has this fault.
fn ends_so(
    rt: &impl Abort,
    alloc: Global,
    text: &str,
    wanted: &str,
    fault: &Option<(usize, CaptureFault)>,
) {
    let shown = show(alloc, text).expect(rt, "memory");
    expect_same(rt, &shown.lines.as_str(), &wanted);
    expect_same(rt, &shown.fault, fault);
}

/// Captures, their words, and their faults.
static LEFT: [(&str, &str, Option<(usize, CaptureFault)>); 8] = [
    ("", "", None),
    ("> 4a44", "> more 2\n", None),
    (
        "> 4a4457502d48616e647368616b650000\n< 4a\n",
        "> hello\n> more 2\n< more 1\n",
        None,
    ),
    // behind a packet
    (
        "> 4a4457502d48616e647368616b650000000b000000050001080000\n",
        "> hello\n> 5 VirtualMachine.Suspend\n> more 2\n",
        None,
    ),
    // a line that does not read, behind a reply of the debugger
    (
        "> 4a4457502d48616e647368616b65\n> 0000000b00000001800000\n> 0\n",
        "> hello\n",
        Some((3, CaptureFault::BadLine)),
    ),
    // the messages before a fault, and nothing of what is left
    (
        "> 4a4457502d48616e647368616b650000\n4a\n",
        "> hello\n",
        Some((2, CaptureFault::BadLine)),
    ),
    (
        "> 4a4457502d48616e647368616b65\n> 0000000b00000001000108\n> 0000000a\n",
        "> hello\n> 1 VirtualMachine.Suspend\n",
        Some((3, CaptureFault::Frame(FrameFault::ShortLength))),
    ),
    // without widths data stay raw
    (
        "> 4a4457502d48616e647368616b65\n> 0000000f00000001000b0c00000001\n",
        "> hello\n> 1 ThreadReference.SuspendCount raw 00000001\n",
        None,
    ),
];

#[test]
fn what_is_left(rt: HostRuntime) {
    for (text, wanted, fault) in LEFT.iter() {
        ends_so(&rt, rt.alloc(), text, wanted, fault);
    }
}
