//! What stands at the front of bytes.
ghost use Rattle.std.specs.Prelude.{false, true};
ghost use Rattle.jdwp_judge.specs.Coming.{IsNext};

use crate::heard::Found;
use jdwp_wire::{HANDSHAKE, Next, NextHello, next_hello, next_packet};

/// The handshake, if it stands in front, and how many bytes it takes.
pub(crate) fn next_hello_found(waiting: &[u8]) -> Option<(Found<'_>, usize)>
    ensures { IsNext false waiting.now result }
{
    match next_hello(waiting) {
        NextHello::More => None,
        NextHello::Fault(fault) => Some((Found::Fault(fault), 0)),
        NextHello::Whole => Some((Found::Handshake, HANDSHAKE.len())),
    }
}

/// The packet that stands in front, and how many bytes it takes.
#[inline(always)]
pub(crate) fn next_packet_found(waiting: &[u8]) -> Option<(Found<'_>, usize)>
    ensures { IsNext true waiting.now result }
{
    match next_packet(waiting) {
        Next::More => None,
        Next::Fault(fault) => Some((Found::Fault(fault), 0)),
        Next::Whole(packet, used) => Some((Found::Packet(packet), used)),
    }
}
