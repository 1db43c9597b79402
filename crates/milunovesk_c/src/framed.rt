//! What stands in front of bytes, as C sees it.
ghost use Rattle.std.specs.Prelude.{◌≡◌};
ghost use Rattle.jdwp_wire.specs.Frames.{front};
ghost use Rattle.jdwp_wire.specs.Limits.{standard_limits};
ghost use Rattle.milunovesk_c.specs.Framing.{framed, framed_packet};
ghost use Rattle.milunovesk_c.specs.Numbers.{DONE};

use crate::DONE;
use jdwp_wire::{Header, Next, PacketKind, next_packet};

/// What stands in front of bytes, in numbers.
#[repr(C)]
#[derive(Clone, Copy)]
pub struct Framed {
    /// 0 the beginning of a packet, 1 a command, 2 a reply, 3 the beginning of no packet.
    pub kind: u8,
    /// The set of a command.
    pub set: u8,
    /// The number of a command in its set.
    pub number: u8,
    /// The error code of a reply.
    pub error: u16,
    /// Why it is the beginning of no packet, 1 to 3; else 0.
    pub fault: u16,
    /// The id of a packet.
    pub id: u32,
    /// How many bytes a packet takes, the header's 11 among them; its data follow the header.
    pub length: u32,
}

/// Says which packet stands in front of the bytes, within the standard limits. What follows it is not looked at.
#[unsafe(no_mangle)]
pub extern "C" fn mv_next_packet(bytes: &[u8], out: &mut Framed) -> u32
    ensures done { result ≡ DONE }
    ensures told { out.new ≡ framed (front standard_limits.packet bytes.now) }
{
    *out = match next_packet(bytes) {
        Next::Whole(packet, _) => of_header(&packet.header),
        Next::More => parts(0, 0),
        Next::Fault(fault) => parts(3, fault.number()),
    };
    DONE
}

/// A packet with this header.
fn of_header(header: &Header) -> Framed
    ensures { result ≡ framed_packet header.now.kind header.now }
{
    let (kind, set, number, error) = match header.kind {
        PacketKind::Command { set, number } => (1, set, number, 0),
        PacketKind::Reply { error } => (2, 0, 0, error.0),
    };
    Framed {
        kind,
        set,
        number,
        error,
        fault: 0,
        id: header.id,
        length: header.length,
    }
}

/// No packet.
fn parts(kind: u8, fault: u16) -> Framed
    ensures { result ≡ record {
      kind = kind;
      set = 0;
      number = 0;
      error = 0;
      fault = fault;
      id = 0;
      length = 0;
    } }
{
    Framed {
        kind,
        set: 0,
        number: 0,
        error: 0,
        fault,
        id: 0,
        length: 0,
    }
}
