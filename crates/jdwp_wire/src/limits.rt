//! How much a session may hold.
ghost use Rattle.std.specs.Prelude.{◌≡◌, ◌≤◌, ◌+◌, ◌*◌, ◌↔◌, IsTrue, IsSome, IfSome};
ghost use Rattle.jdwp_wire.specs.Limits.{least_packet_limit, most_packet_limit, composite_limit, IsCount, AreLimits, standard_limits};

use crate::frame::PACKET_LIMIT;
use std::marker::Model;

/// The least bytes that a packet may be limited to.
pub const LEAST_PACKET_LIMIT: u32 = 2_048;

/// The most bytes that a packet may be limited to.
pub const MOST_PACKET_LIMIT: u32 = 1_048_576;

/// The bounds of a session: the most bytes of a packet, and how many live threads, event requests and commands that
/// wait for their replies there may be.
#[derive(Clone, Copy, Debug, PartialEq, Eq)]
pub struct Limits {
    packet: u32,
    live: u32,
    requests: u32,
    pending: u32,
}

impl Model for Limits {
    ghost use Rattle.jdwp_wire.specs.Limits as spec;

    ghost Value = { spec.Limits };

    ghost view = { λ l. record {
      packet = l.packet;
      live = l.live;
      requests = l.requests;
      pending = l.pending;
    } };

    ghost invariant = { λ l. spec.AreLimits l.packet l.live l.requests l.pending };

    ghost inverse = { λ l. record {
      packet = l.packet;
      live = l.live;
      requests = l.requests;
      pending = l.pending;
    } };
}

impl Limits {
    /// These limits, where `packet` is 2,048 to 1,048,576, `live`, `requests` and `pending` are 1 to 1,024 each, and a
    /// composite event of one event for each request fits one packet: 16 + 542 * `requests` is at most `packet`.
    pub fn new(packet: u32, live: u32, requests: u32, pending: u32) -> Option<Limits>
        ensures some { IsSome result ↔ AreLimits packet live requests pending }
        ensures same { IfSome result (λ l. l ≡ record {
          packet = packet;
          live = live;
          requests = requests;
          pending = pending;
        }) }
    {
        if packet < LEAST_PACKET_LIMIT || packet > MOST_PACKET_LIMIT {
            return None;
        }
        if !is_count(live) || !is_count(requests) || !is_count(pending) {
            return None;
        }
        if 16 + 542 * requests > packet {
            return None;
        }
        Some(Limits {
            packet,
            live,
            requests,
            pending,
        })
    }

    /// The limits that hold where no others are given: packets of 65,536 bytes, and 64 of each other kind.
    pub fn standard() -> Limits
        ensures { result ≡ standard_limits }
    {
        Limits {
            packet: PACKET_LIMIT as u32,
            live: 64,
            requests: 64,
            pending: 64,
        }
    }

    /// The most bytes of a packet, its header among them. A composite event of one event for each request fits it.
    pub fn packet(&self) -> u32
        ensures value { result ≡ self.now.packet }
        ensures within { (least_packet_limit ≤ result) × (result ≤ most_packet_limit) }
        ensures composite { composite_limit self.now.requests ≤ result }
    {
        self.packet
    }

    /// How many threads may be alive.
    pub fn live(&self) -> u32
        ensures value { result ≡ self.now.live }
        ensures within { IsCount result }
    {
        self.live
    }

    /// How many event requests there may be.
    pub fn requests(&self) -> u32
        ensures value { result ≡ self.now.requests }
        ensures within { IsCount result }
    {
        self.requests
    }

    /// How many commands may wait for their replies.
    pub fn pending(&self) -> u32
        ensures value { result ≡ self.now.pending }
        ensures within { IsCount result }
    {
        self.pending
    }
}

/// Whether there may be so many of something.
fn is_count(count: u32) -> bool
    ensures { IsTrue result ↔ IsCount count }
{
    1 <= count && count <= 1024
}
