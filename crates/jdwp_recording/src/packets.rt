//! Segments of TCP in the packets of a network.
ghost use Rattle.std.specs.Prelude.{◌≡◌};

use crate::fields::{Order, short_at, word_at};

/// An address of the Internet Protocol.
#[derive(Clone, Copy, Debug, PartialEq, Eq)]
pub enum Address {
    /// Of version 4, the four bytes as one number.
    V4(u32),
    /// Of version 6, the words of four bytes.
    V6(u32, u32, u32, u32),
}

/// One side of a connection.
#[derive(Clone, Copy, Debug, PartialEq, Eq)]
pub struct Endpoint {
    pub address: Address,
    pub port: u16,
}

/// A segment of TCP.
#[derive(Clone, Copy, Debug)]
pub struct Segment<'a> {
    /// The number of its packet in the recording, from 1.
    pub packet: usize,
    pub from: Endpoint,
    pub to: Endpoint,
    /// Whether it begins the stream of its sender (SYN).
    pub begins: bool,
    /// Whether it acknowledges what the other side sent (ACK).
    pub acknowledges: bool,
    /// The sequence number of its first byte of data.
    pub sequence: u32,
    /// The bytes of data that were recorded.
    pub payload: &'a [u8],
    /// How many bytes of data behind these were not recorded.
    pub missing: usize,
}

/// A packet as it was recorded.
#[derive(Clone, Copy, Debug)]
pub struct Packet<'a> {
    /// The number of its kind of link, as libpcap counts them.
    pub link: u32,
    /// Its bytes, as many as were recorded.
    pub bytes: &'a [u8],
    /// How many bytes behind these were not recorded.
    pub missing: usize,
}

/// A packet of the Internet Protocol that carries TCP.
#[derive(Clone, Copy)]
struct Datagram<'a> {
    from: Address,
    to: Address,
    tcp: &'a [u8],
    missing: usize,
}

/// The segment of a packet of this number, where it is one of TCP over the Internet Protocol, not in fragments, that does not reset its
/// connection.
pub fn segment_of<'a>(number: usize, packet: &Packet<'a>) -> Option<Segment<'a>> {
    let internet = internet_of(packet)?;
    let datagram = datagram_of(internet, packet.missing)?;
    segment_in(number, &datagram)
}

/// The packet of the Internet Protocol in a packet of a link.
fn internet_of<'a>(packet: &Packet<'a>) -> Option<&'a [u8]> {
    match packet.link {
        // BSD loopback
        0 | 108 => packet.bytes.get(4..),
        // Ethernet
        1 => untagged(packet.bytes, 12),
        // raw
        12 | 14 | 101 | 228 | 229 => Some(packet.bytes),
        // Linux cooked, first version and second
        113 => untagged(packet.bytes, 14),
        276 if is_internet(short_at(Order::Big, packet.bytes, 0)?) => packet.bytes.get(20..),
        _ => None,
    }
}

/// What stands behind the type of a frame that stands at this place, and behind the tags of virtual networks.
fn untagged(frame: &[u8], place: usize) -> Option<&[u8]> {
    let mut rest = frame.get(place..)?;
    for _ in 0..4 {
        let kind = short_at(Order::Big, rest, 0)?;
        if is_internet(kind) {
            return rest.get(2..);
        }
        if kind != 0x8100 && kind != 0x88a8 {
            return None;
        }
        rest = rest.get(4..)?;
    }
    None
}

/// Whether a type of frames is of the Internet Protocol, version 4 or 6.
fn is_internet(kind: u16) -> bool {
    kind == 0x0800 || kind == 0x86dd
}

/// The TCP in a packet of the Internet Protocol, of which so many bytes are missing.
fn datagram_of(internet: &[u8], missing: usize) -> Option<Datagram<'_>> {
    let (first, _) = internet.split_first()?;
    match *first >> 4 {
        4 => datagram_of_4(internet, missing),
        6 => datagram_of_6(internet, missing),
        _ => None,
    }
}

/// The TCP in a packet of version 4 (RFC 791, 3.1).
fn datagram_of_4(internet: &[u8], missing: usize) -> Option<Datagram<'_>> {
    let (first, _) = internet.split_first()?;
    let header = usize::from(*first & 15) * 4;
    let (Some(length), Some(fragment), Some(protocol)) = (
        short_at(Order::Big, internet, 2),
        short_at(Order::Big, internet, 6),
        internet.get(9),
    ) else {
        return None;
    };
    if fragment & 0x3fff != 0 || *protocol != 6 || header < 20 {
        return None;
    }
    let (whole, missing) = within(internet, usize::from(length), missing);
    match (
        word_at(Order::Big, internet, 12),
        word_at(Order::Big, internet, 16),
        whole.get(header..),
    ) {
        (Some(from), Some(to), Some(tcp)) => Some(Datagram {
            from: Address::V4(from),
            to: Address::V4(to),
            tcp,
            missing,
        }),
        _ => None,
    }
}

/// The TCP in a packet of version 6 (RFC 8200, 3).
fn datagram_of_6(internet: &[u8], missing: usize) -> Option<Datagram<'_>> {
    let length = usize::from(short_at(Order::Big, internet, 4)?);
    let length = if length == 0 { 0 } else { length + 40 };
    let (whole, missing) = within(internet, length, missing);
    match (
        address_at(internet, 8),
        address_at(internet, 24),
        internet.get(6),
        whole.get(40..),
    ) {
        (Some(from), Some(to), Some(kind), Some(rest)) => Some(Datagram {
            from,
            to,
            tcp: upper_layer(*kind, rest)?,
            missing,
        }),
        _ => None,
    }
}

/// The bytes of a packet of this length, and how many are missing. A length of 0 is one that the system left to its hardware; then all that
/// was recorded is the packet's.
fn within(internet: &[u8], length: usize, missing: usize) -> (&[u8], usize) {
    if length == 0 {
        (internet, missing)
    } else if length <= internet.len() {
        (&internet[..length], 0)
    } else {
        (internet, length - internet.len())
    }
}

/// The address of version 6 at a place.
fn address_at(internet: &[u8], place: usize) -> Option<Address> {
    let address = internet.get(place..)?;
    match (
        word_at(Order::Big, address, 0),
        word_at(Order::Big, address, 4),
        word_at(Order::Big, address, 8),
        word_at(Order::Big, address, 12),
    ) {
        (Some(first), Some(second), Some(third), Some(fourth)) => {
            Some(Address::V6(first, second, third, fourth))
        }
        _ => None,
    }
}

/// The TCP behind up to seven extension headers, the first header being of this kind (RFC 8200, 4).
fn upper_layer(mut kind: u8, mut rest: &[u8]) -> Option<&[u8]> {
    for _ in 0..8 {
        match kind {
            6 => return Some(rest),
            // options, routing
            0 | 43 | 60 => {
                kind = *rest.first()?;
                let length = usize::from(*rest.get(1)?);
                rest = rest.get(8 * (length + 1)..)?;
            }
            _ => return None,
        }
    }
    None
}

/// The segment in a datagram (RFC 9293, 3.1).
fn segment_in<'a>(packet: usize, datagram: &Datagram<'a>) -> Option<Segment<'a>> {
    let tcp = datagram.tcp;
    let (Some(offset), Some(flags)) = (tcp.get(12), tcp.get(13)) else {
        return None;
    };
    let header = usize::from(*offset >> 4) * 4;
    if *flags & 4 != 0 || header < 20 {
        return None;
    }
    let (Some(from), Some(to), Some(sequence), Some(payload)) = (
        short_at(Order::Big, tcp, 0),
        short_at(Order::Big, tcp, 2),
        word_at(Order::Big, tcp, 4),
        tcp.get(header..),
    ) else {
        return None;
    };
    let begins = *flags & 2 != 0;
    Some(Segment {
        packet,
        from: Endpoint {
            address: datagram.from,
            port: from,
        },
        to: Endpoint {
            address: datagram.to,
            port: to,
        },
        begins,
        acknowledges: *flags & 16 != 0,
        sequence: if begins {
            sequence.wrapping_add(1)
        } else {
            sequence
        },
        payload,
        missing: datagram.missing,
    })
}
