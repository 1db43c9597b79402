//! What pieces of bytes pass on their way from one end to the other.
ghost use Rattle.std.specs.Prelude.{◌≡◌, ◌≤◌, Bool, false, length, true};
ghost use Rattle.jdwp_link.specs.Ways.{Carried, nothing_carried, with_carried};

use std::marker::Model;
use trace::History;

/// One of the two ends.
#[derive(Clone, Copy, Debug, PartialEq, Eq)]
pub enum Side {
    /// The debuggee's.
    Target,
    /// The debugger's.
    Debugger,
}

/// What the bytes of both ends pass on their way, a piece at a time: memory alone, or a connection.
///
/// Its story tells the bytes that came over it to each end, in order. It may fail, and then it stays as it is: a second failure takes nothing
/// of the first. A way may look at what passes, but changes nothing: what leaves one end comes to the other, whatever it does.
pub trait Way {
    /// The bytes that came over it to each end.
    ghost story: { Self → Carried };
    /// Whether it failed.
    ghost has_failed: { Self → Bool };

    /// Carries a piece, of 4,096 bytes at most, from this end to the other, whole and behind what it carried before; or it fails. Where it had
    /// failed before, nothing happens.
    fn carry(&mut self, from: Side, piece: &[u8])
        requires { length piece.now ≤ 4096 }
        ensures carried { has_failed self.new ≡ false
            → story self.new ≡ with_carried from piece.now (story self.old) }
        ensures failed { has_failed self.old ≡ true → self.new ≡ self.old };
}

/// Memory alone: nothing is on the way, and it never fails. It keeps no byte: its story is what contracts read.
#[derive(Drop)]
pub struct Memory {
    from_target: History,
    from_debugger: History,
}

impl Model for Memory {
    ghost use Rattle.jdwp_link.specs.Ways.{Carried};

    ghost Value = { Carried };

    ghost view = { λ m. record { from_target = m.from_target.bytes; from_debugger = m.from_debugger.bytes } };
}

impl Memory {
    /// It, before it carried anything.
    pub fn new() -> Memory
        ensures { result ≡ nothing_carried }
    {
        Memory {
            from_target: History::new(),
            from_debugger: History::new(),
        }
    }
}

impl Way for Memory {
    ghost story = { λ memory. memory };

    ghost has_failed = { λ memory. false };

    fn carry(&mut self, from: Side, piece: &[u8]) {
        match from {
            Side::Target => self.from_target.extend(piece),
            Side::Debugger => self.from_debugger.extend(piece),
        }
    }
}
