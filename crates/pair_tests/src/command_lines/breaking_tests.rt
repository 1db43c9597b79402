//! Runs of the program whose output breaks.
use crate::asserts::{expect_same, expect_same_for};
use crate::command_lines::file_tests::{CAPTURE, PLAN, PRINTED, SHOWN};
use crate::command_lines::runs::{ANSWERS, remove, write};
use crate::command_lines::written_tests as written;
use jdwp_files::run;
use std::io;
use std::io::{Cursor, ErrorKind, Write};
use std::net::Net;
use std::process::Abort;
use std::rt::{Clock, Files};

/// Takes so many bytes, and then fails so.
#[derive(Drop)]
struct Output {
    bytes: Vec<u8>,
    room: usize,
    kind: ErrorKind,
}

impl Write for Output {
    fn write(&mut self, bytes: &[u8]) -> io::Result<usize> {
        let count = bytes.len().min(self.room.saturating_sub(self.bytes.len()));
        if count == 0 && !bytes.is_empty() {
            return Err(io::Error::from(self.kind));
        }
        self.bytes.extend_from_slice(&bytes[..count])?;
        Ok(count)
    }

    fn flush(&mut self) -> io::Result<()> {
        Ok(())
    }
}

/// The words are run on an output that has so much room, and then fails so: as much of the text is
/// printed, and this is told.
fn breaks_at<R: Files + Clock + Net + AllocGlobal + Abort>(
    rt: &R,
    words: &[&str],
    text: &str,
    room: usize,
    kind: ErrorKind,
    told: &str,
) {
    let mut out = Output {
        bytes: Vec::new(rt.alloc()),
        room,
        kind,
    };
    let mut err = Cursor::new(Vec::new(rt.alloc()));
    expect_same(rt, &run(rt, words, &mut out, &mut err), &2);
    let printed = text.as_bytes().get(..room);
    expect_same_for(rt, &Some(out.bytes.as_slice()), &printed, &room);
    expect_same_for(rt, &err.get_ref().as_slice(), &told.as_bytes(), &room);
}

/// The words are run on outputs that break, with less room than the text needs.
fn breaks<R: Files + Clock + Net + AllocGlobal + Abort>(rt: &R, words: &[&str], text: &str) {
    let full = "jdwp: the output can't be written: no storage space\n";
    for room in [0, 1, 8, 100] {
        breaks_at(rt, words, text, room, ErrorKind::BrokenPipe, "");
        breaks_at(rt, words, text, room, ErrorKind::StorageFull, full);
    }
}

#[test]
fn an_output_that_breaks_is_status_2(rt: HostRuntime) {
    write(&rt, "breaks_capture", CAPTURE.as_bytes());
    breaks(&rt, &["jdwp", "show", "breaks_capture"], SHOWN);
    remove(&rt, &["breaks_capture"]);
}

/// No connection is blamed.
#[test]
fn an_output_of_attach_that_breaks_is_told_as_such(rt: HostRuntime) {
    write(&rt, "broken_plan", PLAN.as_bytes());
    write(&rt, "broken_from", &ANSWERS);
    let words = [
        "jdwp",
        "attach",
        "broken_plan",
        "--from",
        "broken_from",
        "--to",
        "broken_to",
    ];
    breaks(&rt, &words, PRINTED);
    write(&rt, "broken_plan", written::PLAN.as_bytes());
    breaks(&rt, &words, written::PRINTED);
    remove(&rt, &["broken_plan", "broken_from", "broken_to"]);
}
