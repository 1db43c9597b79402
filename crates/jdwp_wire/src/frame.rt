//! What stands at the front of a byte stream: the handshake, or a packet.
ghost use Rattle.std.specs.Prelude.{◌≡◌};
ghost use Rattle.jdwp_wire.specs.Handshake.{HandshakeFrontOf, handshake_front};
ghost use Rattle.jdwp_wire.specs.FaultNumbers.{fault_number};
ghost use Rattle.jdwp_wire.specs.Frames.{FrontOf, Front, front, front_meaning};
ghost use Rattle.jdwp_wire.specs.Limits.{standard_limits};

use crate::error_code::ErrorCode;
use crate::limits::Limits;
use crate::packet::{Header, PacketKind, PacketRef};
use byteorder::{BigEndian, ByteOrder};
use thiserror::Error;

/// The most bytes of a packet by the standard limits, its header among them.
pub const PACKET_LIMIT: usize = 65536;

/// The bytes that each end sends first (JDWP specification, "JDWP overview": the handshake).
pub const HANDSHAKE: [u8; 14] = *b"JDWP-Handshake";

/// The bytes of a packet's header.
pub const HEADER_LENGTH: usize = 11;

/// Why bytes are the beginning of no message.
#[derive(Clone, Copy, Debug, PartialEq, Eq, Error)]
pub enum FrameFault {
    /// A length below the header's 11 bytes, found once the 4 bytes of the length are there.
    #[error("fault 1: a packet length below 11")]
    ShortLength,
    /// A length above the packet limit, found once the 4 bytes of the length are there.
    #[error("fault 2: a packet length above the limit")]
    TooLong,
    /// Flags other than 00 and 80, found once they are there.
    #[error("fault 3: packet flags other than 00 and 80")]
    BadFlags,
    /// A byte that is not the handshake's, at this place, counted from 0.
    #[error("fault 4: not the handshake at byte {0}")]
    BadHandshake(usize),
}

impl FrameFault {
    /// The number of the fault, 1 to 4.
    pub fn number(self) -> u16
        ensures { result ≡ fault_number self }
    {
        match self {
            FrameFault::ShortLength => 1,
            FrameFault::TooLong => 2,
            FrameFault::BadFlags => 3,
            FrameFault::BadHandshake(_) => 4,
        }
    }
}

/// What stands at the front of bytes that should begin with the handshake.
#[derive(Clone, Copy, Debug, PartialEq, Eq)]
pub enum NextHello {
    /// The handshake, 14 bytes.
    Whole,
    /// A beginning of it.
    More,
    /// A byte that is not the handshake's.
    Fault(FrameFault),
}

/// What stands at the front of bytes that should begin with a packet.
#[derive(Clone, Copy, Debug)]
pub enum Next<'a> {
    /// A packet, and how many bytes it takes.
    Whole(PacketRef<'a>, usize),
    /// A beginning of one.
    More,
    /// The beginning of no packet.
    Fault(FrameFault),
}

/// The handshake at the front of the bytes. Bytes behind the fourteenth are not looked at.
pub fn next_hello(bytes: &[u8]) -> NextHello
    ensures front { HandshakeFrontOf bytes.now result }
    ensures only { (f : NextHello) → HandshakeFrontOf bytes.now f → result ≡ f }
    ensures exact { result ≡ handshake_front bytes.now }
{
    compare_handshake(bytes)
}

fn compare_handshake(bytes: &[u8]) -> NextHello
    ensures { result ≡ handshake_front bytes.now }
{
    for place in 0..HANDSHAKE.len() {
        if place >= bytes.len() {
            return NextHello::More;
        }
        if bytes[place] != HANDSHAKE[place] {
            return NextHello::Fault(FrameFault::BadHandshake(place));
        }
    }
    NextHello::Whole
}

/// The packet at the front of the bytes, borrowed from them, within the standard limits. What follows it is not looked
/// at.
///
/// A length is judged once its 4 bytes are there, the flags once 9 bytes are.
pub fn next_packet(bytes: &[u8]) -> Next<'_>
    ensures front { FrontOf standard_limits.packet bytes.now (front_meaning result) }
    ensures only { (f : Front) → FrontOf standard_limits.packet bytes.now f → front_meaning result ≡ f }
    ensures exact { front_meaning result ≡ front standard_limits.packet bytes.now }
{
    next_packet_within(bytes, &Limits::standard())
}

/// The packet at the front of the bytes, borrowed from them, of at most `limits.packet()` bytes. What follows it is not
/// looked at.
///
/// A length is judged once its 4 bytes are there, the flags once 9 bytes are.
pub fn next_packet_within<'a>(bytes: &'a [u8], limits: &Limits) -> Next<'a>
    ensures front { FrontOf limits.now.packet bytes.now (front_meaning result) }
    ensures only { (f : Front) → FrontOf limits.now.packet bytes.now f → front_meaning result ≡ f }
    ensures exact { front_meaning result ≡ front limits.now.packet bytes.now }
{
    find_packet(bytes, limits.packet())
}

fn find_packet(bytes: &[u8], limit: u32) -> Next<'_>
    ensures { front_meaning result ≡ front limit bytes.now }
{
    if bytes.len() < 4 {
        return Next::More;
    }
    let length = BigEndian::read_u32(bytes);
    let used = length as usize;
    if used < HEADER_LENGTH {
        return Next::Fault(FrameFault::ShortLength);
    }
    if length > limit {
        return Next::Fault(FrameFault::TooLong);
    }
    if bytes.len() < 9 {
        return Next::More;
    }
    let flags = bytes[8];
    if flags != 0x00 && flags != 0x80 {
        return Next::Fault(FrameFault::BadFlags);
    }
    if bytes.len() < used {
        return Next::More;
    }
    let id = BigEndian::read_u32(&bytes[4..]);
    let kind = if flags == 0x00 {
        PacketKind::Command {
            set: bytes[9],
            number: bytes[10],
        }
    } else {
        PacketKind::Reply {
            error: ErrorCode(BigEndian::read_u16(&bytes[9..])),
        }
    };
    let body = &bytes[HEADER_LENGTH..used];
    Next::Whole(
        PacketRef {
            header: Header { length, id, kind },
            body,
        },
        used,
    )
}
