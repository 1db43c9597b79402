//! What is told after each line.
use super::sessions::read_line;
use jdwp_judge::Judge;
use jdwp_show::CaptureFault;
use jdwp_wire::{DataFault, FrameFault};
use std::alloc::Global;
use std::process::Abort;

const DEBUGGER_HELLO: &str = "> 4a4457502d48616e647368616b65";

const TARGET_HELLO: &str = "< 4a4457502d48616e647368616b65";

const ASKS_SIZES: &str = "> 0000000b00000001000107";

const TELLS_SIZES: &str = "< 0000001f000000018000000000000800000008000000080000000800000008";

/// Lines of a session behind both handshakes, beside each what is told then; and what is told at the end.
static SESSIONS: [(&[(&str, &str)], &str); 4] = [
    // each message when it is whole
    (
        &[
            (ASKS_SIZES, "> 1 VirtualMachine.IDSizes\n"),
            (
                "< 0000001f0000000180000000000008000000080000000800000008",
                "",
            ),
            (
                "< 00000008",
                "< 1 reply VirtualMachine.IDSizes 0 8 8 8 8 8\n",
            ),
            (
                "> 0000001300000003000b0c0000000000000001",
                "> 3 ThreadReference.SuspendCount #1\n",
            ),
            (
                "< 0000000f0000000380000000000001",
                "< 3 reply ThreadReference.SuspendCount 0 1\n",
            ),
            ("> 0000", ""),
        ],
        "> more 2\n",
    ),
    // data wait for the widths
    (
        &[
            (
                "< 0000001d0000000100406400000000015a000000000000000000000001",
                "",
            ),
            (ASKS_SIZES, ""),
            (
                TELLS_SIZES,
                "< 1 Event.Composite 0 [(90, 0, #1)]\n> 1 VirtualMachine.IDSizes\n< 1 reply VirtualMachine.IDSizes 0 8 8 8 8 8\n",
            ),
        ],
        "",
    ),
    // widths that are never told
    (
        &[
            // without data, of an unknown command, and whose data no one reads
            ("> 0000000b00000002000108", "> 2 VirtualMachine.Suspend\n"),
            ("> 0000000c0000000300016300", "> 3 1.99 raw 00\n"),
            (
                "> 0000000d0000000600010dab01",
                "> 6 VirtualMachine.ClassPaths raw ab01\n",
            ),
            // with an error
            (
                "< 0000000b00000002800070",
                "< 2 reply VirtualMachine.Suspend 112\n",
            ),
            ("> 0000001300000004000b0c0000000000000001", ""),
            ("< 0000000b00000003800063", ""),
            ("< 00", ""),
        ],
        "> 4 ThreadReference.SuspendCount raw 0000000000000001\n< 3 reply 1.99 99\n< more 1\n",
    ),
    // an id in use, and nothing behind it
    (
        &[
            ("> 0000001300000004000b0c0000000000000001", ""),
            (
                "> 0000000b00000004000108",
                "> 4 ThreadReference.SuspendCount raw 0000000000000001\n",
            ),
            (ASKS_SIZES, ""),
            (TELLS_SIZES, ""),
        ],
        "",
    ),
];

/// Feeds a line, and fails unless this is told.
fn tells(rt: &impl Abort, alloc: Global, judge: &mut Judge, line: &str, wanted: &str) {
    let (sender, bytes) = read_line(rt, alloc, line);
    let told = judge.feed(sender, &bytes).expect(rt, "memory");
    assert_eq!(rt; told.as_str(), wanted);
}

#[test]
fn lines_when_they_are_known(rt: HostRuntime) {
    let alloc = rt.alloc();
    for (rows, rest) in &SESSIONS {
        let mut judge = Judge::new(alloc);
        tells(&rt, alloc, &mut judge, DEBUGGER_HELLO, "> hello\n");
        tells(&rt, alloc, &mut judge, TARGET_HELLO, "< hello\n");
        for (line, wanted) in *rows {
            tells(&rt, alloc, &mut judge, line, wanted);
        }
        let shown = judge.end().expect(&rt, "memory");
        assert_eq!(&rt; shown.lines.as_str(), *rest);
    }
}

/// Lines of sessions, beside each the first fault that is sure then, with the number of its line.
static FAULTS: [&[(&str, Option<(usize, CaptureFault)>)]; 2] = [
    &[
        (DEBUGGER_HELLO, None),
        (TARGET_HELLO, None),
        ("> 0000001300000004000b0c0000000000000001", None),
        // a width of 9, behind data that may be at fault
        (ASKS_SIZES, None),
        (
            "< 0000001f000000018000000000000900000008000000080000000800000008",
            None,
        ),
        ("> 0000000b00000002000107", None),
        (
            "< 0000001f000000028000000000000800000008000000040000000800000008",
            Some((3, CaptureFault::BadData(DataFault::Extra(4)))),
        ),
        (
            "> 0000000a",
            Some((3, CaptureFault::BadData(DataFault::Extra(4)))),
        ),
    ],
    &[
        (DEBUGGER_HELLO, None),
        (
            "> 0000000a",
            Some((2, CaptureFault::Frame(FrameFault::ShortLength))),
        ),
        (
            TARGET_HELLO,
            Some((2, CaptureFault::Frame(FrameFault::ShortLength))),
        ),
    ],
];

#[test]
fn faults_when_they_are_sure(rt: HostRuntime) {
    let alloc = rt.alloc();
    for rows in &FAULTS {
        let mut judge = Judge::new(alloc);
        for (line, wanted) in *rows {
            let (sender, bytes) = read_line(&rt, alloc, line);
            let _ = judge.feed(sender, &bytes).expect(&rt, "memory");
            assert_eq!(&rt; judge.fault(), *wanted);
        }
    }
}
