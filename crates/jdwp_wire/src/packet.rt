//! Packets (JDWP specification, "Packets").
ghost use Rattle.std.specs.Prelude.{◌≡◌};
ghost use Rattle.jdwp_wire.specs.Frames.{header_bytes};

use crate::error_code::ErrorCode;
use byteorder::{BigEndian, ByteOrder};

/// What a packet is: a command, with flags 00, or the reply to one, with flags 80.
#[derive(Clone, Copy, Debug, PartialEq, Eq)]
pub enum PacketKind {
    /// A command of a command set.
    Command {
        /// The command set.
        set: u8,
        /// The command in its set.
        number: u8,
    },
    /// The reply to a command.
    Reply {
        /// Whether it succeeded, and else why not.
        error: ErrorCode,
    },
}

/// The header of a packet, 11 bytes.
#[derive(Clone, Copy, Debug, PartialEq, Eq)]
pub struct Header {
    /// The length of the whole packet in bytes, the header's 11 among them.
    pub length: u32,
    /// The id: a reply has that of its command.
    pub id: u32,
    /// A command or a reply, by the flags, and what follows them.
    pub kind: PacketKind,
}

impl Header {
    /// The header as it stands before the data.
    pub fn to_bytes(&self) -> [u8; 11]
        ensures { result ≡ header_bytes self.now }
    {
        let mut bytes = [0; 11];
        BigEndian::write_u32(&mut bytes, self.length);
        BigEndian::write_u32(&mut bytes[4..], self.id);
        match self.kind {
            PacketKind::Command { set, number } => {
                bytes[9] = set;
                bytes[10] = number;
            }
            PacketKind::Reply { error } => {
                bytes[8] = 0x80;
                BigEndian::write_u16(&mut bytes[9..], error.0);
            }
        }
        bytes
    }
}

/// A packet where it lies: its header, and its data in the buffer that it was found in.
#[derive(Clone, Copy, Debug)]
pub struct PacketRef<'a> {
    /// The header.
    pub header: Header,
    /// The data behind it.
    pub body: &'a [u8],
}
