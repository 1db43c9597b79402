//! Messages that wait, but for their data.
ghost use Rattle.std.specs.Prelude.{◌≡◌};
ghost use Rattle.jdwp_judge.specs.Heard.{thing, item_of};
ghost use Rattle.jdwp_judge.specs.Entries.{thing_with, item_with};

use crate::heard::{Found, Heard};
use jdwp_show::{CommandNumber, Sender};
use jdwp_wire::{FrameFault, Header, PacketRef};

/// What was found, but for its data.
#[derive(Clone, Copy)]
pub(crate) enum Kind {
    Handshake,
    Packet(Header),
    Fault(FrameFault),
}

/// A message but for its data, with what those before it say of it.
#[derive(Clone, Copy)]
pub(crate) struct Entry {
    pub(crate) piece: usize,
    pub(crate) sender: Sender,
    pub(crate) kind: Kind,
    /// How many bytes of data it has.
    pub(crate) length: usize,
    /// Whether the debugger's handshake was before it.
    pub(crate) begun: bool,
    /// The command that waits under its id.
    pub(crate) waits: Option<CommandNumber>,
}

impl Entry {
    /// The message, with its data.
    #[inline(always)]
    pub(crate) fn with<'a>(&self, body: &'a [u8]) -> Heard<'a>
        ensures { item_of result ≡ item_with self.now body.now }
    {
        Heard {
            piece: self.piece,
            sender: self.sender,
            found: found_with(self.kind, body),
        }
    }
}

fn found_with(kind: Kind, body: &[u8]) -> Found<'_>
    ensures { thing result ≡ thing_with kind body.now }
{
    match kind {
        Kind::Handshake => Found::Handshake,
        Kind::Packet(header) => Found::Packet(PacketRef { header, body }),
        Kind::Fault(fault) => Found::Fault(fault),
    }
}

/// What was found, and its data.
#[inline(always)]
pub(crate) fn parts<'a>(found: &Found<'a>) -> (Kind, &'a [u8])
    ensures { thing_with result.0 result.1.now ≡ thing found.now }
{
    match found {
        Found::Handshake => (Kind::Handshake, &[]),
        Found::Packet(packet) => (Kind::Packet(packet.header), packet.body),
        Found::Fault(fault) => (Kind::Fault(*fault), &[]),
    }
}
