//! Bytes that lie in two parts, as those of a ring do.
ghost use Rattle.std.specs.Prelude.{◌≡◌, ◌≤◌, ◌+◌, ◌++◌, [], drop, length, min, take, vec_capacity};
ghost use Rattle.std.specs.Borrow.{sem};
ghost use Rattle.circular_buffer.specs.Buffer.{buffer};
ghost use Rattle.jdwp_wire.specs.Frames.{front};
ghost use Rattle.jdwp_wire.specs.Standing.{TellsStanding};
ghost use Rattle.jdwp_end.specs.VecLends.{VecStays};

use circular_buffer::HeapCircularBuffer;
use jdwp_wire::{Limits, Next, Standing, next_packet_within, standing_in};
use trace::History;

/// What stands at the front of a ring. Bytes that lie in one piece, as they do but at the end of the ring, are looked at there, and others
/// one by one.
pub(crate) fn packet_standing(ring: &HeapCircularBuffer<u8>, limits: &Limits) -> Standing
    ensures { TellsStanding result (front limits.now.packet ring.now.items) }
{
    let (first, second) = ring.as_slices();
    match second {
        [] => standing_of(first, limits),
        [_, ..] => standing_in(ring, limits),
    }
}

/// What stands at the front of bytes that lie in one piece.
fn standing_of(bytes: &[u8], limits: &Limits) -> Standing
    ensures { TellsStanding result (front limits.now.packet bytes.now) }
{
    match next_packet_within(bytes, limits) {
        Next::Whole(packet, used) => Standing::Whole(packet.header, used),
        Next::More => Standing::More,
        Next::Fault(fault) => Standing::Fault(fault),
    }
}

/// The bytes of a ring where they lie, in two pieces. The first is empty only where both are.
pub(crate) fn in_two_pieces(ring: &HeapCircularBuffer<u8>) -> (&[u8], &[u8])
    ensures all { result.0.now ++ result.1.now ≡ ring.now.items }
    ensures none { result.0.now ≡ [] → ring.now.items ≡ [] }
{
    let (first, second) = ring.as_slices();
    if first.is_empty() {
        (second, first)
    } else {
        (first, second)
    }
}

/// Moves as many bytes from the front of a ring to the front of `out` as fit, and answers how many.
pub(crate) fn take_into(ring: &mut HeapCircularBuffer<u8>, out: &mut [u8]) -> usize
    ensures count { result ≡ min (length out.old) (length ring.old.items) }
    ensures read { out.new ≡ take result ring.old.items ++ drop result out.old }
    ensures items { ring.new ≡ buffer (drop result ring.old.items) ring.old.capacity }
{
    let (first, second) = ring.as_slices();
    match second {
        [] => {
            let count = copy_front(first, out);
            ring.truncate_front(ring.len() - count);
            count
        }
        [_, ..] => ring.read_into(out),
    }
}

/// Copies as many of these bytes to the front of `out` as fit, and answers how many.
fn copy_front(bytes: &[u8], out: &mut [u8]) -> usize
    ensures count { result ≡ min (length out.old) (length bytes.now) }
    ensures copied { out.new ≡ take result bytes.now ++ drop result out.old }
{
    let count = bytes.len().min(out.len());
    out[..count].copy_from_slice(&bytes[..count]);
    count
}

/// The first bytes of two parts, in the vector. It takes no memory.
pub(crate) fn join(joined: &mut Vec<u8>, first: &[u8], second: &[u8], used: usize)
    requires room { used ≤ vec_capacity joined.old }
    requires within { used ≤ length first.now + length second.now }
    ensures joined { joined.new.items ≡ take used (first.now ++ second.now) }
    ensures capacity { vec_capacity joined.old ≤ vec_capacity joined.new }
{
    let count = used.min(first.len());
    joined.clear();
    joined.extend_from_slice(&first[..count]).unwrap();
    joined.extend_from_slice(&second[..used - count]).unwrap();
}

/// The bytes of a vector behind the first ones, lent to be read.
pub(crate) fn shared_behind(bytes: &mut Vec<u8>, first: usize) -> &[u8]
    requires { first ≤ length bytes.old.items }
    ensures* stays { sem 𝓛 (VecStays bytes.entry) }
    ensures value { result.now ≡ drop first bytes.old.items }
{
    &bytes.as_slice()[first..]
}

/// The first bytes of two parts happened.
pub(crate) fn note(history: &mut History, first: &[u8], second: &[u8], used: usize)
    requires { used ≤ length first.now + length second.now }
    ensures { history.new.bytes ≡ history.old.bytes ++ take used (first.now ++ second.now) }
{
    let count = used.min(first.len());
    history.extend(&first[..count]);
    history.extend(&second[..used - count]);
}
