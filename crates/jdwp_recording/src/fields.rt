//! Numbers in the fields of packets and files.
ghost use Rattle.std.specs.Prelude.{◌≡◌, ◌≤◌, ◌<◌, ◌+◌, drop, length, IfSome, IfNone};
ghost use Rattle.jdwp_recording.specs.Fields.{number_of};

use byteorder::{BigEndian, ByteOrder, LittleEndian};

/// In which order the bytes of a number stand.
#[derive(Clone, Copy, Debug, PartialEq, Eq)]
pub enum Order {
    /// The highest first, as in the headers of a network.
    Big,
    /// The lowest first.
    Little,
}

/// The number of two bytes at a place. None where the bytes end before.
pub(crate) fn short_at(order: Order, bytes: &[u8], place: usize) -> Option<u16>
    ensures some { IfSome result (λ n. n ≡ number_of order 2 (drop place bytes.now)) }
    ensures within { IfSome result (λ n. place + 2 ≤ length bytes.now) }
    ensures none { IfNone result (length bytes.now < place + 2) }
{
    let field = bytes.get(place..)?;
    if field.len() < 2 {
        return None;
    }
    Some(match order {
        Order::Big => BigEndian::read_u16(field),
        Order::Little => LittleEndian::read_u16(field),
    })
}

/// The number of four bytes at a place. None where the bytes end before.
pub(crate) fn word_at(order: Order, bytes: &[u8], place: usize) -> Option<u32>
    ensures some { IfSome result (λ n. n ≡ number_of order 4 (drop place bytes.now)) }
    ensures within { IfSome result (λ n. place + 4 ≤ length bytes.now) }
    ensures none { IfNone result (length bytes.now < place + 4) }
{
    let field = bytes.get(place..)?;
    if field.len() < 4 {
        return None;
    }
    Some(match order {
        Order::Big => BigEndian::read_u32(field),
        Order::Little => LittleEndian::read_u32(field),
    })
}
