//! Captures fed to a judge.
use jdwp_judge::Judge;
use jdwp_show::{CaptureFault, Sender};
use std::alloc::Global;
use std::process::Abort;

pub(crate) const HELLOS: [&str; 2] = [
    "> 4a4457502d48616e647368616b65",
    "< 4a4457502d48616e647368616b65",
];

/// VirtualMachine.IDSizes and its reply: all widths 8.
pub(crate) const SIZES: [&str; 2] = [
    "> 0000000b00000001000107",
    "< 0000001f000000018000000000000800000008000000080000000800000008",
];

/// Which end sent a line, and its bytes.
pub(crate) fn read_line(rt: &impl Abort, alloc: Global, line: &str) -> (Sender, Vec<u8>) {
    let (mark, digits) = line.split_once(' ').expect(rt, "a line of a capture");
    let sender = if mark == ">" {
        Sender::Debugger
    } else {
        Sender::Target
    };
    let bytes = hex::decode(alloc, digits).expect(rt, "hex digits");
    (sender, bytes)
}

/// What a judge told of a session, and the first fault.
#[derive(Debug, PartialEq, Drop)]
pub(crate) struct Told {
    pub(crate) lines: String,
    pub(crate) fault: Option<CaptureFault>,
}

/// What a judge tells of these lines, where the line at `place` is cut in two behind its first `count` bytes.
pub(crate) fn tell_cut(
    rt: &impl Abort,
    alloc: Global,
    lines: &[&str],
    (place, count): (usize, usize),
) -> Told {
    let mut judge = Judge::new(alloc);
    let mut told = String::new(alloc);
    for (index, line) in lines.iter().enumerate() {
        let (sender, bytes) = read_line(rt, alloc, line);
        let first = if index == place {
            count.min(bytes.len())
        } else {
            0
        };
        for piece in [&bytes[..first], &bytes[first..]] {
            let more = judge.feed(sender, piece).expect(rt, "memory");
            told.push_str(more.as_str()).expect(rt, "memory");
        }
    }
    let shown = judge.end().expect(rt, "memory");
    told.push_str(shown.lines.as_str()).expect(rt, "memory");
    let fault = shown.fault.map(|place| place.1);
    Told { lines: told, fault }
}
