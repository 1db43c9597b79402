//! What there is to handle at an end.
use jdwp_wire::{FrameFault, Header};

/// What stands in front of the bytes that came to an end.
#[derive(Clone, Copy, Debug, PartialEq, Eq)]
pub enum Front {
    /// There is nothing to handle: the end is closed or paused, or no message is whole.
    More,
    /// The bytes begin no message.
    Fault(FrameFault),
    /// The handshake, 14 bytes.
    Handshake,
    /// A packet: its header, and how many bytes it takes.
    Packet(Header, usize),
}
