//! A target driven by hand, without IO: bytes that came go in, messages are handled one by one, and what is to be sent comes out.
use crate::asserts::expect_same;
use crate::targets::sessions::{Target, target};
use jdwp_target::Turn;
use jdwp_value::ObjectId;
use std::alloc::Global;
use std::process::Abort;
use test_parts::MACHINE_A;

/// Gives the target what came, a few bytes at a time, and answers all that it sends.
///
/// A message has 11 bytes or more, so 8 bytes complete one at most, and one turn handles it.
fn converse(rt: &impl Abort, alloc: Global, target: &mut Target, came: &[u8]) -> Vec<u8> {
    let mut sent = Vec::new(alloc);
    for piece in came.chunks(8) {
        handle(rt, target, piece, &mut sent);
    }
    sent
}

/// Gives the target some bytes, lets it handle what they complete, and takes what it sends.
fn handle(rt: &impl Abort, target: &mut Target, piece: &[u8], sent: &mut Vec<u8>) {
    if target.feed(piece) < piece.len() {
        panic!(rt; "room");
    }
    target.turn().expect(rt, "a turn");
    let mut buffer = [0; 64];
    let count = target.take(&mut buffer);
    sent.extend_from_slice(&buffer[..count])
        .expect(rt, "memory");
}

/// Whether the handshake is answered, and VM_START follows.
fn greets(rt: &impl Abort, alloc: Global, target: &mut Target) -> bool {
    let greeting = converse(rt, alloc, target, b"JDWP-Handshake");
    greeting.as_slice().starts_with(b"JDWP-Handshake") && greeting.len() == 14 + 29
}

/// Whether Suspend is replied to, and suspends thread 1.
fn suspends(rt: &impl Abort, alloc: Global, target: &mut Target) -> bool {
    let reply = converse(rt, alloc, target, &[0, 0, 0, 11, 0, 0, 0, 1, 0, 1, 8]);
    reply.as_slice() == [0, 0, 0, 11, 0, 0, 0, 1, 0x80, 0, 0].as_slice()
        && target.count(ObjectId(1)) == Some(1)
        && target.turn() == Ok(Turn::Nothing)
}

/// A session: the handshake, Suspend, and the connection is lost. Whether all of it goes as it is to.
fn goes_well(rt: &impl Abort, alloc: Global, target: &mut Target) -> bool {
    let begins = target.accept() && greets(rt, alloc, target) && suspends(rt, alloc, target);

    // The connection is lost: nobody stays suspended, and another session may begin.
    target.lose();
    begins && target.count(ObjectId(1)) == Some(0) && target.accept()
}

#[test]
fn a_session_by_hand(rt: HostRuntime) {
    let mut target = target(&rt, rt.alloc(), MACHINE_A, false, 100);
    expect_same(&rt, &goes_well(&rt, rt.alloc(), &mut target), &true);
}
