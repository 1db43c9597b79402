//! The packets that stand one behind the other in bytes, as C sees them.
ghost use Rattle.std.specs.Prelude.{◌≡◌, ◌≤◌, ◌+◌, ◌-◌, ◌⊎◌, length, drop, take, IfSome, None};
ghost use Rattle.jdwp_wire.specs.Frames.{front};
ghost use Rattle.jdwp_wire.specs.Limits.{standard_limits};
ghost use Rattle.milunovesk_c.specs.Numbers.{DONE, PACKET_LEFT};
ghost use Rattle.milunovesk_c.specs.Packets.{StandFrom, fault_of, front_at, left_of, length_of};

use crate::DONE;
use jdwp_wire::{HEADER_LENGTH, Next, next_packet};

/// The packets whose places were told, and what is left behind them.
#[repr(C)]
#[derive(Clone, Copy)]
pub struct Found {
    /// How many they are.
    pub count: usize,
    /// How many bytes they take.
    pub used: usize,
    /// What is left: 0 no bytes, 1 the beginning of a packet, 2 a packet, for which there is no room, 3 the beginning of no packet.
    pub left: u8,
    /// Why it is the beginning of no packet, 1 to 3; else 0.
    pub fault: u16,
}

/// Tells the places where packets begin that stand one behind the other in front of the bytes, within the standard limits: as many as there are and
/// there is room for, and what is left behind them. Of `places` those behind them are as they were.
#[unsafe(no_mangle)]
pub extern "C" fn mv_next_packets(bytes: &[u8], places: &mut [usize], out: &mut Found) -> u32
    ensures done { result ≡ DONE }
    // at each stands a packet, as `mv_next_packet` has it, the first in front, each other where the one before it ends
    ensures told { StandFrom bytes.now 0 (take out.new.count places.new) out.new.used }
    // what is left stands where the last one ends
    ensures left { out.new.left ≡ left_of (length bytes.now - out.new.used)
        (front_at bytes.now out.new.used) }
    ensures fault { out.new.fault ≡ fault_of (front_at bytes.now out.new.used) }
    ensures room { out.new.count ≤ length places.new }
    ensures full { out.new.left ≡ PACKET_LEFT → out.new.count ≡ length places.new }
    ensures kept { drop out.new.count places.new ≡ drop out.new.count places.old }
{
    let (count, used) = tell(bytes, places);
    let (left, fault) = what_is_left(&bytes[used..]);
    *out = Found {
        count,
        used,
        left,
        fault,
    };
    DONE
}

/// Tells the places of packets from the front of the bytes on, until no packet stands there or there is no room for it; and says how many, and
/// how many bytes they take.
fn tell(bytes: &[u8], places: &mut [usize]) -> (usize, usize)
    ensures told { StandFrom bytes.now 0 (take result.0 places.new) result.1 }
    ensures used { result.1 ≤ length bytes.now }
    ensures room { result.0 ≤ length places.new }
    ensures rest { (result.0 ≡ length places.new)
        ⊎ (length_of (front_at bytes.now result.1) ≡ None) }
    ensures kept { drop result.0 places.new ≡ drop result.0 places.old }
{
    let mut used = 0;
    for (count, place) in places.iter_mut().enumerate() {
        let Some(length) = length_at(bytes, used) else {
            return (count, used);
        };
        *place = used;
        used += length;
    }
    (places.len(), used)
}

/// How many bytes the packet takes that stands at this place of the bytes, if one does. No packet is shorter than its header: once that is asked, the
/// compiler drops what `next_packet` asks before it reads each field.
fn length_at(bytes: &[u8], place: usize) -> Option<usize>
    requires { place ≤ length bytes.now }
    ensures told { result ≡ length_of (front_at bytes.now place) }
    ensures within { IfSome result (λ n. place + n ≤ length bytes.now) }
{
    let rest = &bytes[place..];
    if rest.len() < HEADER_LENGTH {
        return None;
    }
    match next_packet(rest) {
        Next::Whole(_, used) => Some(used),
        Next::More | Next::Fault(_) => None,
    }
}

/// What these bytes are, which are left behind packets, and why they are the beginning of no packet, or 0.
fn what_is_left(rest: &[u8]) -> (u8, u16)
    ensures left { result.0 ≡ left_of (length rest.now) (front standard_limits.packet rest.now) }
    ensures fault { result.1 ≡ fault_of (front standard_limits.packet rest.now) }
{
    match next_packet(rest) {
        Next::Whole(..) => (2, 0),
        Next::More => (u8::from(!rest.is_empty()), 0),
        Next::Fault(fault) => (3, fault.number()),
    }
}
