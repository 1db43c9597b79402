//! Captures that are told while they are read.
use crate::asserts::{expect_same, expect_that};
use jdwp_program::{StreamFault, Told, check_stream, show_stream};
use jdwp_show::Table;
use std::io;
use std::io::{Cursor, ErrorKind, Read};

/// Both handshakes, a command, the reply, and a reply to a command that was not asked.
const CAPTURE: &[u8] =
    b"> 4a4457502d48616e647368616b65\r\n< 4a4457502d48616e647368616b65\n> 0000000b00000001000108\n< 0000000b00000001800000\n< 0000000b00000009800000";

/// The first of its lines in words, and all of them.
const FIRST: &str = "> hello\n< hello\n> 1 VirtualMachine.Suspend\n";

const SHOWN: &str =
    "> hello\n< hello\n> 1 VirtualMachine.Suspend\n< 1 reply VirtualMachine.Suspend 0\nline 5: fault 54\n";

/// Gives so many bytes a call at most, is interrupted at every second call, and fails so behind the last byte, or ends.
#[derive(Drop)]
struct Input<'a> {
    bytes: &'a [u8],
    most: usize,
    interrupted: bool,
    fails: Option<ErrorKind>,
}

impl<'a> Read for Input<'a> {
    fn read(&mut self, buffer: &mut [u8]) -> io::Result<usize> {
        self.interrupted = !self.interrupted;
        if self.interrupted {
            return Err(io::Error::from(ErrorKind::Interrupted));
        }
        if self.bytes.is_empty() {
            return match self.fails {
                Some(kind) => Err(io::Error::from(kind)),
                None => Ok(0),
            };
        }
        let count = self.most.min(buffer.len()).min(self.bytes.len());
        buffer[..count].copy_from_slice(&self.bytes[..count]);
        self.bytes = &self.bytes[count..];
        Ok(count)
    }
}

#[test]
fn a_capture_is_told_however_it_is_read(rt: HostRuntime) {
    let alloc = rt.alloc();
    for most in [1, 2, 3, 7, 64, 1000] {
        for front in [0, 4] {
            let begun = CAPTURE.get(..front).expect(&rt, "the front");
            let bytes = CAPTURE.get(front..).expect(&rt, "what follows");
            let mut input = Input {
                bytes,
                most,
                interrupted: false,
                fails: None,
            };
            let mut out = Cursor::new(Vec::new(alloc));
            let told = show_stream(alloc, Table::Standard, begun, &mut input, &mut out);
            expect_that(&rt, matches!(told, Ok(Told::Faulty)));
            expect_same(&rt, &out.get_ref().as_slice(), &SHOWN.as_bytes());
        }
    }
}

/// What was read before is told, and then that the read failed.
#[test]
fn a_read_that_fails_is_told_behind_what_was_read(rt: HostRuntime) {
    let alloc = rt.alloc();
    let bytes = CAPTURE.get(..110).expect(&rt, "some of it");
    for most in [1, 5, 1000] {
        let mut input = Input {
            bytes,
            most,
            interrupted: false,
            fails: Some(ErrorKind::ConnectionReset),
        };
        let mut out = Cursor::new(Vec::new(alloc));
        let told = show_stream(alloc, Table::Standard, b"", &mut input, &mut out);
        match told {
            Err(StreamFault::Input(error)) => {
                expect_same(&rt, &error.kind(), &ErrorKind::ConnectionReset);
            }
            _ => expect_that(&rt, false),
        }
        expect_same(&rt, &out.get_ref().as_slice(), &FIRST.as_bytes());
    }
}

#[test]
fn a_capture_is_judged_however_it_is_read(rt: HostRuntime) {
    let alloc = rt.alloc();
    for most in [1, 7, 1000] {
        let mut input = Input {
            bytes: CAPTURE,
            most,
            interrupted: false,
            fails: None,
        };
        let mut out = Cursor::new(Vec::new(alloc));
        let told = check_stream(alloc, Table::Standard, b"", &mut input, &mut out);
        expect_that(&rt, matches!(told, Ok(Told::Faulty)));
        expect_same(
            &rt,
            &out.get_ref().as_slice(),
            &b"no: line 5: fault 54\n".as_slice(),
        );
    }
}
