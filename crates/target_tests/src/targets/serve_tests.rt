//! Sessions served over the machine of a script, from the bytes read to the bytes written.
use crate::asserts::expect_same;
use jdwp_debuggee::Settings;
use jdwp_end::{Ended, Streams};
use jdwp_engine::serve_script;
use jdwp_script::ScriptFault;
use jdwp_wire::Limits;
use std::alloc::Global;
use std::io;
use std::io::{ErrorKind, Write};
use std::process::Abort;
use test_parts::{MACHINE_A, push_bytes};

/// Keeps what is written. The flush of this number fails, counted from 1.
#[derive(Drop)]
struct Output {
    bytes: Vec<u8>,
    calls: usize,
    flushes: u32,
    failing_flush: u32,
}

impl Output {
    fn new(alloc: Global, failing_flush: u32) -> Output {
        Output {
            bytes: Vec::new(alloc),
            calls: 0,
            flushes: 0,
            failing_flush,
        }
    }
}

impl Write for Output {
    fn write(&mut self, bytes: &[u8]) -> io::Result<usize> {
        self.calls = self.calls.saturating_add(1);
        self.bytes.extend_from_slice(bytes)?;
        Ok(bytes.len())
    }

    fn flush(&mut self) -> io::Result<()> {
        self.flushes = self.flushes.saturating_add(1);
        if self.flushes == self.failing_flush {
            return Err(io::Error::from(ErrorKind::BrokenPipe));
        }
        Ok(())
    }
}

/// The handshake, IDSizes with id 1, Suspend with id 2, SuspendCount of thread 1 with id 3, Dispose with id 4.
const SESSION: [u8; 66] = [
    0x4a, 0x44, 0x57, 0x50, 0x2d, 0x48, 0x61, 0x6e, 0x64, 0x73, 0x68, 0x61, 0x6b, 0x65, //
    0x00, 0x00, 0x00, 0x0b, 0x00, 0x00, 0x00, 0x01, 0x00, 0x01, 0x07, //
    0x00, 0x00, 0x00, 0x0b, 0x00, 0x00, 0x00, 0x02, 0x00, 0x01, 0x08, //
    0x00, 0x00, 0x00, 0x13, 0x00, 0x00, 0x00, 0x03, 0x00, 0x0b, 0x0c, 0x00, 0x00, 0x00, 0x00, 0x00,
    0x00, 0x00, 0x01, //
    0x00, 0x00, 0x00, 0x0b, 0x00, 0x00, 0x00, 0x04, 0x00, 0x01, 0x06, //
];

/// What is answered to it where no thread is suspended at the start.
const ANSWERS: [u8; 111] = [
    0x4a, 0x44, 0x57, 0x50, 0x2d, 0x48, 0x61, 0x6e, 0x64, 0x73, 0x68, 0x61, 0x6b, 0x65, //
    0x00, 0x00, 0x00, 0x1d, 0x00, 0x00, 0x00, 0x01, 0x00, 0x40, 0x64, 0x00, 0x00, 0x00, 0x00, 0x01,
    0x5a, 0x00, 0x00, 0x00, 0x00, 0x00, 0x00, 0x00, 0x00, 0x00, 0x00, 0x00, 0x01, //
    0x00, 0x00, 0x00, 0x1f, 0x00, 0x00, 0x00, 0x01, 0x80, 0x00, 0x00, 0x00, 0x00, 0x00, 0x08, 0x00,
    0x00, 0x00, 0x08, 0x00, 0x00, 0x00, 0x08, 0x00, 0x00, 0x00, 0x08, 0x00, 0x00, 0x00, 0x08, //
    0x00, 0x00, 0x00, 0x0b, 0x00, 0x00, 0x00, 0x02, 0x80, 0x00, 0x00, //
    0x00, 0x00, 0x00, 0x0f, 0x00, 0x00, 0x00, 0x03, 0x80, 0x00, 0x00, 0x00, 0x00, 0x00, 0x01, //
    0x00, 0x00, 0x00, 0x0b, 0x00, 0x00, 0x00, 0x04, 0x80, 0x00, 0x00, //
];

/// How the session of machine A ends, and what is written.
fn served(
    rt: &impl Abort,
    alloc: Global,
    input: &[u8],
    writer: Output,
    rounds: u32,
) -> (Ended, Vec<u8>) {
    let settings = Settings::new(false, 65535, Limits::standard()).expect(rt, "a count limit");
    let mut pipe = Streams::new(input, writer);
    let ended = serve_script(alloc, MACHINE_A, settings, false, &mut pipe, rounds);
    let (_, writer) = pipe.into_parts();
    (ended.expect(rt, "the script is read"), writer.bytes)
}

#[test]
fn a_session_is_served(rt: HostRuntime) {
    let rows: [(&[u8], u32, u32, Ended, usize); 8] = [
        (&SESSION, 6, 0, Ended::Done, 111),
        (&SESSION, 5, 0, Ended::TurnLimit, 100),
        (&SESSION[..65], 9, 0, Ended::LostByRead, 100),
        // A flush stands before each read, and one at the end.
        (&SESSION, 6, 1, Ended::LostByWrite, 0),
        (&SESSION, 0, 1, Ended::LostByWrite, 0),
        // The last one makes a session lost, but for one that is refused: its fault is told.
        (&SESSION, 6, 2, Ended::LostByWrite, 111),
        (b"JDWP-HandshakE", 6, 0, Ended::Refused(4), 0),
        (b"JDWP-HandshakE", 6, 2, Ended::Refused(4), 0),
    ];
    for (input, rounds, failing_flush, want, written) in rows {
        let writer = Output::new(rt.alloc(), failing_flush);
        let (ended, bytes) = served(&rt, rt.alloc(), input, writer, rounds);
        expect_same(&rt, &ended, &want);
        expect_same(&rt, &bytes.as_slice(), &&ANSWERS[..written.min(111)]);
    }
}

/// A script that is refused is told by its fault, and nothing is read or written.
#[test]
fn a_script_is_refused(rt: HostRuntime) {
    let alloc = rt.alloc();
    let settings = Settings::new(false, 65535, Limits::standard()).expect(&rt, "a count limit");
    let mut pipe = Streams::new(SESSION.as_slice(), Output::new(alloc, 0));
    let ended = serve_script(alloc, "A", settings, false, &mut pipe, 6);
    expect_same(&rt, &ended, &Err(ScriptFault::NotJson));
    let (rest, writer) = pipe.into_parts();
    expect_same(&rt, &rest.len(), &SESSION.len());
    expect_same(&rt, &writer.calls, &0);
}

/// The handshake, Signature of class 10 with id 2, its Status with id 3, and AllThreads with id 4.
const THREE: &str = "4a44 5750 2d48 616e 6473 6861 6b65
 00000013 00000002 00 02 01 000000000000000a 00000013 00000003 00 02 09 000000000000000a
 0000000b 00000004 00 01 04";

/// Dispose with id 5.
const DISPOSE: &str = "0000000b 00000005 00 01 06";

/// The handshake, and VM_START, which suspends all threads.
const BEGUN: &str = "4a44 5750 2d48 616e 6473 6861 6b65
 0000001d 00000001 00 40 64 02 00000001 5a 00000000 0000000000000001";

const SIGNATURE: &str = "00000015 00000002 80 0000 00000006 4c4d61696e3b";

const STATUS: &str = "0000000f 00000003 80 0000 00000003";

const THREADS: &str = "0000001f 00000004 80 0000 00000002 0000000000000001 0000000000000002";

const DISPOSED: &str = "0000000b 00000005 80 0000";

/// Serves these bytes over machine A, whose threads all begin suspended: it ends so, and these are written, one behind the other.
fn serves(
    rt: &impl Abort,
    alloc: Global,
    defer: bool,
    input: &[&str],
    want: Ended,
    replies: &[&str],
) {
    let settings = Settings::new(true, 65535, Limits::standard()).expect(rt, "a count limit");
    let input = joined(rt, alloc, input);
    let mut pipe = Streams::new(input.as_slice(), Vec::new(alloc));
    let ended = serve_script(alloc, MACHINE_A, settings, defer, &mut pipe, 100);
    let (_, written) = pipe.into_parts();
    expect_same(rt, &ended.expect(rt, "the script is read"), &want);
    expect_same(rt, &written, &joined(rt, alloc, replies));
}

/// The bytes of these, one behind the other.
fn joined(rt: &impl Abort, alloc: Global, parts: &[&str]) -> Vec<u8> {
    let mut all = Vec::new(alloc);
    for part in parts {
        push_bytes(&mut all, part).expect(rt, "memory");
    }
    all
}

/// A target that defers replies answers the newest first, once there is nothing more to handle; a Dispose that came before drops them.
#[test]
fn replies_are_deferred(rt: HostRuntime) {
    let alloc = rt.alloc();
    let lost = Ended::LostByRead;
    let replies = [BEGUN, THREADS, STATUS, SIGNATURE];
    serves(&rt, alloc, true, &[THREE], lost, &replies);
    let replies = [BEGUN, SIGNATURE, STATUS, THREADS];
    serves(&rt, alloc, false, &[THREE], lost, &replies);
    let replies = [BEGUN, THREADS, DISPOSED];
    serves(&rt, alloc, true, &[THREE, DISPOSE], Ended::Done, &replies);
    let replies = [BEGUN, SIGNATURE, STATUS, THREADS, DISPOSED];
    serves(&rt, alloc, false, &[THREE, DISPOSE], Ended::Done, &replies);
}
