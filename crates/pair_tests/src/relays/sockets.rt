//! Sessions over sockets of this machine, both ends in this process: what one sends stands in the socket before anybody reads it, so that
//! nothing blocks. No other machine is reached.
use super::fakes::{Paper, Pen};
use super::packets::{ANSWERS, ASKS};
use crate::asserts::expect_same;
use jdwp_judge::{check, show};
use jdwp_port::{bind, connect};
use jdwp_record::record_streams;
use jdwp_show::Verdict;
use std::alloc::Global;
use std::io::{ErrorKind, Read, Write};
use std::net::{Net, OpenStream, Shutdown};
use std::process::Abort;

/// Both ends of a new connection.
fn pair<R: Net + Abort>(rt: &R) -> (R::Stream, R::Stream) {
    let listener = bind(rt, 0).expect(rt, "a port");
    let near = connect(rt, listener.port()).expect(rt, "a connection");
    let far = listener.accept().expect(rt, "the other end");
    (near, far)
}

/// Sends this, and no more behind it.
fn says<S: Write + OpenStream>(rt: &impl Abort, stream: &mut S, bytes: &[u8]) {
    stream.write_all(bytes).expect(rt, "all is written");
    stream.shutdown(Shutdown::Write).expect(rt, "an end");
}

/// Up to the end, which comes without an error, exactly these bytes are read.
fn reads<S: Read>(rt: &impl Abort, alloc: Global, stream: &mut S, bytes: &[u8]) {
    let mut all = Vec::new(alloc);
    stream.read_to_end(&mut all).expect(rt, "all is read");
    expect_same(rt, &all.as_slice(), &bytes);
}

/// What both ends say comes to the other, their half-closes behind it, and the capture is one that `show` reads and `check` finds faultless.
fn is_recorded<R: Net + AllocGlobal + Abort>(rt: &R) {
    let (debugger, mut asks) = pair(rt);
    let (target, mut answers) = pair(rt);
    says(rt, &mut asks, &ASKS);
    says(rt, &mut answers, &ANSWERS);
    let paper = Paper::new(rt, rt.alloc(), usize::MAX, usize::MAX);
    let pen = Pen(paper.clone().expect(rt, "memory"));
    record_streams(rt.alloc(), rt, debugger, target, pen).expect(rt, "the end of both");
    reads(rt, rt.alloc(), &mut answers, &ASKS);
    reads(rt, rt.alloc(), &mut asks, &ANSWERS);
    expect_same(rt, &paper.sent('>').as_slice(), &ASKS.as_slice());
    expect_same(rt, &paper.sent('<').as_slice(), &ANSWERS.as_slice());
    let text = paper.text();
    let text = std::str::from_utf8(&text).unwrap_or("no text");
    let shown = show(rt.alloc(), text).expect(rt, "memory");
    let want =
        "> hello\n> 1 VirtualMachine.IDSizes\n< hello\n< 1 reply VirtualMachine.IDSizes 0 8 8 8 8 8\n";
    expect_same(rt, &shown.lines.as_str(), &want);
    match check(rt.alloc(), text).expect(rt, "memory") {
        Verdict::Yes => {}
        Verdict::No(_, _) => panic!(rt; "the capture has a fault"),
    }
}

/// A debugger whose connection is reset: the target gets all that it sent, and then a reset.
fn is_reset<R: Net + AllocGlobal + Abort>(rt: &R) {
    let (mut debugger, mut asks) = pair(rt);
    let (target, mut answers) = pair(rt);
    asks.write_all(&ASKS).expect(rt, "all is written");
    // A socket that is closed over bytes that were not read is reset by the system.
    debugger.write_all(&[0]).expect(rt, "a byte");
    drop(asks);
    let paper = Paper::new(rt, rt.alloc(), usize::MAX, usize::MAX);
    let pen = Pen(paper.clone().expect(rt, "memory"));
    record_streams(rt.alloc(), rt, debugger, target, pen).expect(rt, "a reset");
    let mut buffer = [0; 64];
    let count = answers.read(&mut buffer).expect(rt, "what was sent");
    expect_same(rt, &&buffer[..count], &ASKS.as_slice());
    match answers.read(&mut buffer) {
        Err(error) => expect_same(rt, &error.kind(), &ErrorKind::ConnectionReset),
        Ok(_) => panic!(rt; "the connection goes on, or was ended"),
    }
    expect_same(rt, &paper.sent('>').as_slice(), &ASKS.as_slice());
}

#[test]
fn sessions_over_sockets_are_recorded(rt: HostRuntime) {
    is_recorded(&rt);
    is_reset(&rt);
}
