//! Recordings, and the captures or faults that they give.
use crate::asserts::expect_same;
use crate::recordings::rows::{CAPTURED, FAULTY};
use jdwp_recording::{Capture, Choice, Connection, Recording, RecordingFault};
use std::alloc::Global;
use std::process::Abort;

/// The first connection, whoever its target is.
const FIRST: Choice = Choice {
    target_port: None,
    stream: 1,
};

/// The capture of the recording of these bytes.
fn captured(alloc: Global, bytes: &[u8], choice: Choice) -> Result<Capture, RecordingFault> {
    let recording = Recording::read(alloc, bytes)?;
    let connection = Connection::find(alloc, &recording, choice)?;
    recording.capture(alloc, &connection)
}

/// The capture of a recording by its hex digits gives these lines.
fn gives(rt: &impl Abort, alloc: Global, digits: &str, lines: &str) {
    let bytes = hex::decode(alloc, digits.as_bytes()).expect(rt, "digits");
    let capture = captured(alloc, &bytes, FIRST).expect(rt, "a capture");
    expect_same(rt, &capture.text.as_str(), &lines);
    expect_same(rt, &capture.fault, &None);
}

#[test]
fn captures(rt: HostRuntime) {
    for (_, digits, lines) in &CAPTURED {
        gives(&rt, rt.alloc(), digits, lines);
    }
}

/// The fault of a recording by its hex digits, and the lines that it gives.
fn is_faulty(rt: &impl Abort, alloc: Global, digits: &str, number: u16, lines: &str) {
    let bytes = hex::decode(alloc, digits.as_bytes()).expect(rt, "digits");
    match captured(alloc, &bytes, FIRST) {
        Ok(capture) => {
            expect_same(rt, &capture.text.as_str(), &lines);
            expect_same(
                rt,
                &capture.fault.map(|fault| fault.number()),
                &Some(number),
            );
        }
        Err(fault) => {
            expect_same(rt, &fault.number(), &number);
            expect_same(rt, &"", &lines);
        }
    }
}

#[test]
fn faults(rt: HostRuntime) {
    for (_, digits, number, lines) in &FAULTY {
        is_faulty(&rt, rt.alloc(), digits, *number, lines);
    }
}

/// The debugger's port of the first connection under a choice, by a recording of both sides' handshakes.
fn finds(
    rt: &impl Abort,
    alloc: Global,
    digits: &str,
    choice: Choice,
) -> Result<u16, RecordingFault> {
    let bytes = hex::decode(alloc, digits.as_bytes()).expect(rt, "digits");
    let recording = Recording::read(alloc, &bytes)?;
    let connection = Connection::find(alloc, &recording, choice)?;
    Ok(connection.debugger.port)
}

#[test]
fn choices(rt: HostRuntime) {
    let digits = CAPTURED[0].1;
    let by_port = |port: u16, stream: usize| Choice {
        target_port: Some(port),
        stream,
    };
    expect_same(&rt, &finds(&rt, rt.alloc(), digits, FIRST), &Ok(40_000));
    expect_same(
        &rt,
        &finds(&rt, rt.alloc(), digits, by_port(8000, 1)),
        &Ok(40_000),
    );
    expect_same(
        &rt,
        &finds(&rt, rt.alloc(), digits, by_port(40_000, 1)),
        &Ok(8000),
    );
    expect_same(
        &rt,
        &finds(&rt, rt.alloc(), digits, by_port(8001, 1)),
        &Err(RecordingFault::NoConnection(1)),
    );
    expect_same(
        &rt,
        &finds(&rt, rt.alloc(), digits, by_port(8000, 2)),
        &Err(RecordingFault::NoConnection(2)),
    );
}
