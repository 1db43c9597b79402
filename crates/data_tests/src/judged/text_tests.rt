//! Captures judged while their text is read, cut in blocks of every size.
use crate::asserts::expect_same;
use jdwp_judge::{CaptureJudge, show};
use jdwp_show::{CaptureFault, Shown, Table};
use std::alloc::Global;
use std::process::Abort;

/// Both handshakes, VirtualMachine.IDSizes and its reply.
const BEGINNING: &str =
    "> 4a4457502d48616e647368616b65\n< 4a4457502d48616e647368616b65\n> 0000000b00000001000107\n< 0000001f000000018000000000000800000008000000080000000800000008\n";

/// What stands behind the beginning.
static ENDS: [&str; 7] = [
    "",
    // ends with a carriage return and a newline, and without any
    "> 0000000b00000002000108\r\n< 0000000b00000002800000",
    // a last line whose carriage return no newline follows
    "> 0000000b00000002000108\r",
    // bytes that are left over
    "> 0000000b00000002000108\n< 0000\n",
    // a line that does not read, behind a fault and before lines that do
    "> 0000000b00000001000107\n> 0000000b00000001000107\nno line\n> 0000000b00000002000108\n",
    // an empty line
    "\n> 0000000b00000002000108\n",
    // a fault
    "< 0000000b00000009800000\n> 0000000b00000002000108\n",
];

/// What is told of a capture that is read in blocks of so many bytes.
fn told_in_blocks(rt: &impl Abort, alloc: Global, text: &[u8], size: usize) -> Shown {
    let mut judge = CaptureJudge::under(alloc, Table::Standard);
    let mut lines = String::new(alloc);
    for block in text.chunks(size.max(1)) {
        let more = judge.feed(block).expect(rt, "memory");
        lines.push_str(more.as_str()).expect(rt, "memory");
    }
    let shown = judge.end().expect(rt, "memory");
    lines.push_str(shown.lines.as_str()).expect(rt, "memory");
    Shown {
        lines,
        fault: shown.fault,
    }
}

#[test]
fn blocks_of_every_size_are_told_alike(rt: HostRuntime) {
    let alloc = rt.alloc();
    for end in &ENDS {
        let text = format!(in alloc; "{BEGINNING}{end}").expect(&rt, "memory");
        let wanted = show(alloc, text.as_str()).expect(&rt, "memory");
        for size in 1..=text.len() {
            let shown = told_in_blocks(&rt, alloc, text.as_bytes(), size);
            expect_same(&rt, &shown, &wanted);
        }
    }
}

/// The number of the line is told, wherever the text is cut.
#[test]
fn a_line_that_is_not_text_does_not_read(rt: HostRuntime) {
    let alloc = rt.alloc();
    let text = b"> 4a4457502d48616e647368616b65\n> \xff\n> 4a\n";
    for size in 1..=text.len() {
        let shown = told_in_blocks(&rt, alloc, text, size);
        expect_same(&rt, &shown.lines.as_str(), &"> hello\n");
        expect_same(&rt, &shown.fault, &Some((2, CaptureFault::BadLine)));
    }
}
