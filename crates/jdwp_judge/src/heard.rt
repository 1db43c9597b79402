//! Messages as they are heard.
use jdwp_show::Sender;
use jdwp_wire::{FrameFault, PacketRef};

/// A message of an end, or the frame fault behind its messages.
#[derive(Clone, Copy)]
pub(crate) enum Found<'a> {
    Handshake,
    Packet(PacketRef<'a>),
    Fault(FrameFault),
}

/// What was found, and where.
#[derive(Clone, Copy)]
pub(crate) struct Heard<'a> {
    /// The number, from 1, of the piece in which its last byte stands.
    pub(crate) piece: usize,
    pub(crate) sender: Sender,
    pub(crate) found: Found<'a>,
}
