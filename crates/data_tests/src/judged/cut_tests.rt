//! Sessions cut anywhere.
use super::sessions::{HELLOS, SIZES, Told, read_line, tell_cut};
use jdwp_show::CaptureFault;
use jdwp_wire::{DataFault, FrameFault};
use std::alloc::Global;
use std::process::Abort;

const HELLOS_IN_WORDS: &str = "> hello\n< hello\n";

const SIZES_IN_WORDS: &str =
    "> 1 VirtualMachine.IDSizes\n< 1 reply VirtualMachine.IDSizes 0 8 8 8 8 8\n";

/// Lines behind both handshakes, their words, and the first fault.
static FAULTS: [(&[&str], &str, Option<CaptureFault>); 6] = [
    (
        &["> 0000000b00000001000108", "> 0000000b00000001000109"],
        "> 1 VirtualMachine.Suspend\n",
        Some(CaptureFault::IdInUse),
    ),
    (
        &["< 0000000b00000009800000"],
        "",
        Some(CaptureFault::UnknownReply),
    ),
    (
        &["> 0000000b00000001004064"],
        "",
        Some(CaptureFault::WrongWay),
    ),
    (
        &["> 0000000a"],
        "",
        Some(CaptureFault::Frame(FrameFault::ShortLength)),
    ),
    // without widths data are as they are
    (
        &["> 0000000f00000001000b0c00000001"],
        "> 1 ThreadReference.SuspendCount raw 00000001\n",
        None,
    ),
    (&["> 0000000b000000010001"], "> more 10\n", None),
];

/// Lines behind the widths of ids, their words, and the first fault.
static SHOWN: [(&[&str], &str, Option<CaptureFault>); 7] = [
    (
        &[
            "> 0000001300000003000b0c0000000000000001",
            "< 0000000f0000000380000000000001",
        ],
        "> 3 ThreadReference.SuspendCount #1\n< 3 reply ThreadReference.SuspendCount 0 1\n",
        None,
    ),
    (
        &["< 0000001d0000000100406400000000015a000000000000000000000001"],
        "< 1 Event.Composite 0 [(90, 0, #1)]\n",
        None,
    ),
    (
        &[
            "> 0000002b00000002000f010200000000010701000000000000000a00000000000000140000000000000003",
        ],
        "> 2 EventRequest.Set 2 0 [(7, 1:#10:#20:3)]\n",
        None,
    ),
    (
        &[
            "< 0000005c00000002004064020000000202000000010000000000000001",
            "< 01000000000000000a0000000000000014000000000000000302000000020000000000000001",
            "< 01000000000000000a00000000000000140000000000000003",
        ],
        "< 2 Event.Composite 2 [(2, 1, #1, 1:#10:#20:3), (2, 2, #1, 1:#10:#20:3)]\n",
        None,
    ),
    (
        &["> 0000000b00000006000163", "< 0000000b00000006800063"],
        "> 6 1.99\n< 6 reply 1.99 99\n",
        None,
    ),
    (
        &["> 0000000c0000000200010800"],
        "",
        Some(CaptureFault::BadData(DataFault::Extra(0))),
    ),
    (
        &["> 0000000b00000002000108", "< 0000000c0000000280007100"],
        "> 2 VirtualMachine.Suspend\n",
        Some(CaptureFault::ErrorWithData),
    ),
];

/// These lines, and those of a row behind them, are told so, wherever one line of the row is cut.
fn is_told_cut(
    rt: &impl Abort,
    alloc: Global,
    before: &[&'static str],
    row: &[&'static str],
    wanted: &Told,
) {
    let mut lines = Vec::new(alloc);
    for line in before.iter().chain(row) {
        lines.push(*line).expect(rt, "memory");
    }
    for place in before.len()..lines.len() {
        let bytes = read_line(rt, alloc, lines[place]).1.len();
        for count in 0..bytes {
            let told = tell_cut(rt, alloc, &lines, (place, count));
            assert_eq!(rt; told, *wanted);
        }
    }
}

#[test]
fn rows_in_every_cutting(rt: HostRuntime) {
    let alloc = rt.alloc();
    for (row, words, fault) in &FAULTS {
        let lines = format!(in alloc; "{HELLOS_IN_WORDS}{words}").expect(&rt, "memory");
        let wanted = Told {
            lines,
            fault: *fault,
        };
        is_told_cut(&rt, alloc, &HELLOS, row, &wanted);
    }
    let [debugger, target] = HELLOS;
    let [asked, told] = SIZES;
    let before = [debugger, target, asked, told];
    for (row, words, fault) in &SHOWN {
        let lines = format!(in alloc; "{HELLOS_IN_WORDS}{SIZES_IN_WORDS}{words}");
        let wanted = Told {
            lines: lines.expect(&rt, "memory"),
            fault: *fault,
        };
        is_told_cut(&rt, alloc, &before, row, &wanted);
    }
}
