//! Packets at the front of a ring.
use crate::asserts::expect_same;
use circular_buffer::HeapCircularBuffer;
use jdwp_wire::{
    HANDSHAKE, Limits, next_hello_in, next_packet_in, next_packet_in_within, standing_in,
};
use std::alloc::Global;
use std::process::Abort;
use test_parts::bytes;

/// A ring of 16 bytes that has these: where they are more than 6, they wrap round its end.
fn wrapped(rt: &impl Abort, alloc: Global, bytes: &[u8]) -> HeapCircularBuffer<u8> {
    let mut ring = HeapCircularBuffer::with_capacity(alloc, 16).expect(rt, "memory");
    ring.fill_from_slice(&[0; 10]);
    ring.read_into(&mut [0; 10]);
    ring.fill_from_slice(bytes);
    ring
}

/// How many bytes stand before the ring's end and behind it, and what is told to stand in front.
fn standing(
    rt: &impl Abort,
    alloc: Global,
    ring: &HeapCircularBuffer<u8>,
    limits: &Limits,
) -> String {
    let (first, second) = ring.as_slices();
    let standing = standing_in(ring, limits);
    let text = format!(in alloc; "{}+{} {standing:?}", first.len(), second.len());
    text.expect(rt, "memory")
}

/// The packet that a ring of these bytes lends; the ring has the same bytes then.
fn lent(rt: &impl Abort, alloc: Global, bytes: &[u8]) -> String {
    let mut ring = wrapped(rt, alloc, bytes);
    let next = next_packet_in(&mut ring);
    let text = format!(in alloc; "{next:?}");
    let left = ring.to_vec(alloc).expect(rt, "memory");
    expect_same(rt, &left.as_slice(), &bytes);
    expect_same(rt, &ring.capacity(), &16);
    text.expect(rt, "memory")
}

/// The same within limits.
fn lent_within(rt: &impl Abort, alloc: Global, bytes: &[u8], limits: &Limits) -> String {
    let mut ring = wrapped(rt, alloc, bytes);
    let next = next_packet_in_within(&mut ring, limits);
    format!(in alloc; "{next:?}").expect(rt, "memory")
}

/// IDSizes under the id 1, and a reply: bytes as hex digits, what stands in front, and what is lent.
const PACKETS: &str =
    "0000000b.00000001.00.0107 6+5 Whole(Header { length: 11, id: 1, kind: Command { set: 1, number: 7 } }, 11); \
Whole(PacketRef { header: Header { length: 11, id: 1, kind: Command { set: 1, number: 7 } }, body: [] }, 11)
0000000c.01020304.80.010d.ff 6+6 Whole(Header { length: 12, id: 16909060, kind: Reply { error: ErrorCode(269) } }, 12); \
Whole(PacketRef { header: Header { length: 12, id: 16909060, kind: Reply { error: ErrorCode(269) } }, body: [255] }, 12)";

#[test]
fn packets_that_wrap(rt: HostRuntime) {
    for row in PACKETS.lines() {
        let (hex, wanted) = row.split_once(' ').expect(&rt, "a row");
        let bytes = bytes(rt.alloc(), hex).expect(&rt, "memory");
        is_packet(&rt, rt.alloc(), &bytes, wanted);
    }
}

/// This is told of these bytes in a ring.
fn is_packet(rt: &impl Abort, alloc: Global, bytes: &[u8], wanted: &str) {
    let ring = wrapped(rt, alloc, bytes);
    let standing = standing(rt, alloc, &ring, &Limits::standard());
    let found = format!(in alloc; "{standing}; {}", lent(rt, alloc, bytes));
    expect_same(rt, &found.expect(rt, "memory").as_str(), &wanted);
}

/// IDSizes under the id 1.
const ID_SIZES: [u8; 11] = [0, 0, 0, 11, 0, 0, 0, 1, 0, 1, 7];

#[test]
fn a_beginning_that_wraps(rt: HostRuntime) {
    for count in 0..11usize {
        let (first, second) = (count.min(6), count.saturating_sub(6));
        let wanted = format!(in rt.alloc(); "{first}+{second} More; More");
        let wanted = wanted.expect(&rt, "memory");
        is_packet(&rt, rt.alloc(), &ID_SIZES[..count], &wanted);
    }
}

/// Bytes whose last shows a fault, where a packet has 2048 bytes at most, and what stands in front.
const FAULTS: &str = "0000000a 4+0 Fault(ShortLength)
00000801 4+0 Fault(TooLong)
0000000b.00000001.01 6+3 Fault(BadFlags)
00000800.00000001.7f 6+3 Fault(BadFlags)";

#[test]
fn faults_that_wrap(rt: HostRuntime) {
    for row in FAULTS.lines() {
        let (hex, wanted) = row.split_once(' ').expect(&rt, "a row");
        let bytes = bytes(rt.alloc(), hex).expect(&rt, "memory");
        is_fault(&rt, rt.alloc(), &bytes, wanted);
    }
}

/// This is told to stand in front of these bytes in a ring, and the same fault is lent.
fn is_fault(rt: &impl Abort, alloc: Global, bytes: &[u8], wanted: &str) {
    let limits = Limits::new(2048, 1, 1, 1).expect(rt, "the limits are in range");
    let ring = wrapped(rt, alloc, bytes);
    let standing = standing(rt, alloc, &ring, &limits);
    expect_same(rt, &standing.as_str(), &wanted);
    let lent = lent_within(rt, alloc, bytes, &limits);
    let (_, fault) = wanted.split_once(' ').expect(rt, "a fault");
    expect_same(rt, &lent.as_str(), &fault);
}

/// Whether the handshake stands in front of these bytes in a ring.
fn is_hello(rt: &impl Abort, alloc: Global, bytes: &[u8], wanted: &str) {
    let ring = wrapped(rt, alloc, bytes);
    let found = format!(in alloc; "{:?}", next_hello_in(&ring));
    expect_same(rt, &found.expect(rt, "memory").as_str(), &wanted);
}

#[test]
fn a_handshake_that_wraps(rt: HostRuntime) {
    is_hello(&rt, rt.alloc(), &HANDSHAKE, "Whole");
    is_hello(&rt, rt.alloc(), &HANDSHAKE[..13], "More");
    let fault = "Fault(BadHandshake(13))";
    is_hello(&rt, rt.alloc(), b"JDWP-HandshakE", fault);
}
