//! Captures that are shown while they are written.
use super::program_tests::Output;
use crate::asserts::{expect_same, expect_same_for};
use jdwp_program::{LiveShow, StreamFault, Told};
use jdwp_show::Table;
use std::alloc::Global;
use std::io::ErrorKind;
use std::process::Abort;

/// A line that is written, and what is printed then.
type Written = (&'static str, &'static str);

/// Where the widths of ids are known, each line is told at once.
static AT_ONCE: [Written; 6] = [
    ("> 4a4457502d48616e647368616b65\n", "> hello\n"),
    ("< 4a4457502d48616e647368616b65\n", "< hello\n"),
    ("> 0000000b00000001000107\n", "> 1 VirtualMachine.IDSizes\n"),
    (
        "< 0000001f000000018000000000000800000008000000080000000800000008\n",
        "< 1 reply VirtualMachine.IDSizes 0 8 8 8 8 8\n",
    ),
    (
        "> 0000001300000003000b0c0000000000000001\n",
        "> 3 ThreadReference.SuspendCount #1\n",
    ),
    (
        "< 0000000f0000000380000000000001\n",
        "< 3 reply ThreadReference.SuspendCount 0 1\n",
    ),
];

/// Before they are, data with ids wait; and a message may come in two lines.
static WAITING: [Written; 6] = [
    ("> 4a4457502d48616e647368616b65\n", "> hello\n"),
    ("> 0000000b00000001000107\n", "> 1 VirtualMachine.IDSizes\n"),
    ("> 0000001300000003000b0c0000000000000001\n", ""),
    ("< 4a4457502d48616e647368616b65\n", ""),
    ("< 0000001f0000000180000000000008000000080000\n", ""),
    (
        "< 00080000000800000008\n",
        "> 3 ThreadReference.SuspendCount #1\n< hello\n< 1 reply VirtualMachine.IDSizes 0 8 8 8 8 8\n",
    ),
];

/// The first fault is told when it comes, and nothing behind it.
static FAULTY: [Written; 5] = [
    ("> 4a4457502d48616e647368616b65\n", "> hello\n"),
    ("< 4a4457502d48616e647368616b65\n", "< hello\n"),
    ("> 0000000b00000001000108\n", "> 1 VirtualMachine.Suspend\n"),
    ("> 0000000b00000001000109\n", "line 4: fault 53\n"),
    ("< 0000000b00000001800000\n", ""),
];

/// How a show ends, as a name.
fn end(told: Result<Told, StreamFault>) -> &'static str {
    match told {
        Ok(Told::Faultless) => "faultless",
        Ok(Told::Faulty) => "faulty",
        Ok(Told::Unread) => "unread",
        Err(StreamFault::Input(_)) => "input",
        Err(StreamFault::Output(_)) => "output",
        Err(StreamFault::NoMemory) => "no memory",
    }
}

/// A capture whose lines come one by one is shown so.
fn is_shown_live(rt: &impl Abort, alloc: Global, lines: &[Written], ended: &str) {
    let mut show = LiveShow::under(alloc, Table::Standard);
    for &(line, printed) in lines {
        let mut out = Output::new(alloc, 1000, 0, ErrorKind::Other);
        show = show.feed(line.as_bytes(), &mut out);
        expect_same_for(rt, &out.bytes.as_slice(), &printed.as_bytes(), &line);
    }
    let mut out = Output::new(alloc, 1000, 0, ErrorKind::Other);
    expect_same(rt, &end(show.end(&mut out)), &ended);
    expect_same(rt, &out.bytes.as_slice(), &"".as_bytes());
}

#[test]
fn captures_are_shown_while_they_are_written(rt: HostRuntime) {
    is_shown_live(&rt, rt.alloc(), &AT_ONCE, "faultless");
    is_shown_live(&rt, rt.alloc(), &WAITING, "faultless");
    is_shown_live(&rt, rt.alloc(), &FAULTY, "faulty");
}

/// Behind a print that fails nothing more is printed, and that is told at the end.
#[test]
fn an_output_that_fails_is_told_at_the_end(rt: HostRuntime) {
    for (kind, ended) in [
        (ErrorKind::BrokenPipe, "unread"),
        (ErrorKind::StorageFull, "output"),
    ] {
        let mut out = Output::new(rt.alloc(), 1000, 3, kind);
        let mut show = LiveShow::under(rt.alloc(), Table::Standard);
        for (line, _) in &AT_ONCE {
            show = show.feed(line.as_bytes(), &mut out);
        }
        expect_same(&rt, &end(show.end(&mut out)), &ended);
        expect_same(&rt, &out.bytes.as_slice(), &"> hello\n< hello\n".as_bytes());
    }
}
