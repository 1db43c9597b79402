//! What stands at the front of a byte stream whose bytes lie in a ring.
ghost use Rattle.std.specs.Prelude.{◌≡◌, ◌<◌, ◌≤◌, length, slice_index};
ghost use Rattle.std.specs.Borrow.{sem};
ghost use Rattle.jdwp_wire.specs.Handshake.{HandshakeFrontOf, handshake_front};
ghost use Rattle.jdwp_wire.specs.Frames.{Front, FrontOf, front, front_meaning, header_of, kind_of};
ghost use Rattle.jdwp_wire.specs.Limits.{standard_limits};
ghost use Rattle.jdwp_wire.specs.RingLends.{LendsPiece, RingStays};
ghost use Rattle.jdwp_wire.specs.Standing.{TellsStanding};

use crate::error_code::ErrorCode;
use crate::frame::{FrameFault, HANDSHAKE, HEADER_LENGTH, Next, NextHello, next_packet_within};
use crate::laws;
use crate::limits::Limits;
use crate::packet::{Header, PacketKind};
use circular_buffer::HeapCircularBuffer;

/// What stands at the front of bytes that should begin with a packet, without the packet's data.
#[derive(Clone, Copy, Debug, PartialEq, Eq)]
pub enum Standing {
    /// A packet: its header, and how many bytes it takes.
    Whole(Header, usize),
    /// A beginning of one.
    More,
    /// The beginning of no packet.
    Fault(FrameFault),
}

/// The handshake at the front of the ring. Bytes behind the fourteenth are not looked at, and none is moved.
pub fn next_hello_in(ring: &HeapCircularBuffer<u8>) -> NextHello
    ensures front { HandshakeFrontOf ring.now.items result }
    ensures only { (f : NextHello) → HandshakeFrontOf ring.now.items f → result ≡ f }
    ensures exact { result ≡ handshake_front ring.now.items }
{
    compare_handshake_in(ring)
}

fn compare_handshake_in(ring: &HeapCircularBuffer<u8>) -> NextHello
    ensures { result ≡ handshake_front ring.now.items }
{
    for place in 0..HANDSHAKE.len() {
        if place >= ring.len() {
            return NextHello::More;
        }
        let byte = at(ring, place);
        if byte != HANDSHAKE[place] {
            return NextHello::Fault(FrameFault::BadHandshake(place));
        }
    }
    NextHello::Whole
}

/// What stands at the front of the ring, where a packet may have at most `limits.packet()` bytes. No byte is moved.
///
/// A length is judged once its 4 bytes are there, the flags once 9 bytes are.
pub fn standing_in(ring: &HeapCircularBuffer<u8>, limits: &Limits) -> Standing
    ensures { TellsStanding result (front limits.now.packet ring.now.items) }
{
    let there = ring.len();
    if there < 4 {
        return Standing::More;
    }
    let length = u32::from_be_bytes([at(ring, 0), at(ring, 1), at(ring, 2), at(ring, 3)]);
    let used = length as usize;
    if used < HEADER_LENGTH {
        return Standing::Fault(FrameFault::ShortLength);
    }
    if length > limits.packet() {
        return Standing::Fault(FrameFault::TooLong);
    }
    if there < 9 {
        return Standing::More;
    }
    let flags = at(ring, 8);
    if flags != 0x00 && flags != 0x80 {
        return Standing::Fault(FrameFault::BadFlags);
    }
    if there < used {
        return Standing::More;
    }
    Standing::Whole(header_at(ring, length), used)
}

/// The packet at the front of the ring, borrowed from it, within the standard limits. What follows it is not looked at.
///
/// Where a packet is whole and the ring wraps, its bytes are moved into one piece. The ring then has the bytes and the room that it had,
/// whatever stands at its front. It takes no memory.
pub fn next_packet_in(ring: &mut HeapCircularBuffer<u8>) -> Next<'_>
    ensures* stays { sem 𝓛 (RingStays ring.entry) }
    ensures front { FrontOf standard_limits.packet ring.old.items (front_meaning result) }
    ensures only { (f : Front) → FrontOf standard_limits.packet ring.old.items f
        → front_meaning result ≡ f }
    ensures exact { front_meaning result ≡ front standard_limits.packet ring.old.items }
{
    next_packet_in_within(ring, &Limits::standard())
}

/// The packet at the front of the ring, borrowed from it, of at most `limits.packet()` bytes. What follows it is not
/// looked at.
///
/// Where a packet is whole and the ring wraps, its bytes are moved into one piece. The ring then has the bytes and the room that it had,
/// whatever stands at its front. It takes no memory.
pub fn next_packet_in_within<'a>(ring: &'a mut HeapCircularBuffer<u8>, limits: &Limits) -> Next<'a>
    ensures* stays { sem 𝓛 (RingStays ring.entry) }
    ensures front { FrontOf limits.now.packet ring.old.items (front_meaning result) }
    ensures only { (f : Front) → FrontOf limits.now.packet ring.old.items f → front_meaning result ≡ f }
    ensures exact { front_meaning result ≡ front limits.now.packet ring.old.items }
{
    laws::are_bytes(ring);
    let _limit = limits.packet();
    find_packet_in(ring, limits)
}

fn find_packet_in<'a>(ring: &'a mut HeapCircularBuffer<u8>, limits: &Limits) -> Next<'a>
    ensures* stays { sem 𝓛 (RingStays ring.entry) }
    ensures exact { front_meaning result ≡ front limits.now.packet ring.old.items }
{
    match standing_in(ring, limits) {
        Standing::Whole(..) => next_packet_within(in_one_piece(ring), limits),
        Standing::More => Next::More,
        Standing::Fault(fault) => Next::Fault(fault),
    }
}

/// The bytes of a ring, moved into one piece and lent to be read.
fn in_one_piece(ring: &mut HeapCircularBuffer<u8>) -> &[u8]
    ensures* stays { sem 𝓛 (RingStays ring.entry) }
    ensures value { result.now ≡ ring.old.items }
{
    piece_of(ring)
}

/// The bytes of a ring, moved into one piece and lent.
fn piece_of(ring: &mut HeapCircularBuffer<u8>) -> &mut [u8]
    ensures* writes_back { sem 𝓛 (LendsPiece ring.entry result) }
    ensures value { result.now ≡ ring.old.items }
{
    ring.make_contiguous()
}

/// The header in front of a ring, whose packet takes so many bytes.
fn header_at(ring: &HeapCircularBuffer<u8>, total: u32) -> Header
    requires { 11 ≤ length ring.now.items }
    ensures { result ≡ header_of total ring.now.items }
{
    Header {
        length: total,
        id: u32::from_be_bytes([at(ring, 4), at(ring, 5), at(ring, 6), at(ring, 7)]),
        kind: kind_at(ring),
    }
}

/// What the packet in front of a ring is, by its flags and the two bytes behind them.
fn kind_at(ring: &HeapCircularBuffer<u8>) -> PacketKind
    requires { 11 ≤ length ring.now.items }
    ensures { result ≡ kind_of ring.now.items }
{
    let (flags, first, second) = (at(ring, 8), at(ring, 9), at(ring, 10));
    if flags == 0x00 {
        PacketKind::Command {
            set: first,
            number: second,
        }
    } else {
        PacketKind::Reply {
            error: ErrorCode(u16::from_be_bytes([first, second])),
        }
    }
}

/// The byte at a place of a ring.
fn at(ring: &HeapCircularBuffer<u8>, place: usize) -> u8
    requires { place < length ring.now.items }
    ensures { result ≡ slice_index ring.now.items place }
{
    match ring.get(place) {
        Some(byte) => *byte,
        None => unreachable!(),
    }
}
