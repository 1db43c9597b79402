//! What happened in a session, for contracts alone: it takes no memory and no time.
ghost use Rattle.std.specs.Prelude.{◌≡◌, ◌≤◌, ◌+◌, ◌++◌, length, take, true};
ghost use Rattle.jdwp_end.specs.Sessions.{new_session};

use crate::parts::note;
use std::marker::Model;
use trace::{History, Trace};

/// The histories of a session.
#[derive(Drop)]
pub struct Session {
    fed: History,
    handled: History,
    enqueued: History,
    taken: History,
    turns: Trace<()>,
    lost: bool,
}

impl Model for Session {
    ghost use Rattle.std.specs.Prelude.{length};
    ghost use Rattle.jdwp_end.specs.Sessions as spec;

    ghost Value = { spec.Session };

    ghost view = { λ s. record {
      fed = s.fed.bytes;
      handled = s.handled.bytes;
      enqueued = s.enqueued.bytes;
      taken = s.taken.bytes;
      turns = length s.turns.items;
      lost = s.lost;
    } };
}

impl Session {
    /// A session in which nothing happened yet.
    pub fn new() -> Session
        ensures { result ≡ new_session }
    {
        Session {
            fed: History::new(),
            handled: History::new(),
            enqueued: History::new(),
            taken: History::new(),
            turns: Trace::new(),
            lost: false,
        }
    }

    /// Whether a loss was noticed.
    pub fn has_lost(&self) -> bool
        ensures { result ≡ self.now.lost }
    {
        self.lost
    }

    /// These bytes were fed.
    pub fn feed(&mut self, bytes: &[u8])
        ensures { self.new ≡ record self.old { fed = self.old.fed ++ bytes.now } }
    {
        self.fed.extend(bytes);
    }

    /// A message was handled that has the first `used` bytes of these two parts.
    pub fn handle(&mut self, first: &[u8], second: &[u8], used: usize)
        requires { used ≤ length first.now + length second.now }
        ensures { self.new ≡ record self.old {
          handled = self.old.handled ++ take used (first.now ++ second.now);
          turns = self.old.turns + 1;
        } }
    {
        note(&mut self.handled, first, second, used);
        self.turns.push(&());
    }

    /// These bytes were enqueued to leave.
    pub fn enqueue(&mut self, bytes: &[u8])
        ensures { self.new ≡ record self.old { enqueued = self.old.enqueued ++ bytes.now } }
    {
        self.enqueued.extend(bytes);
    }

    /// These bytes were taken.
    pub fn take(&mut self, bytes: &[u8])
        ensures { self.new ≡ record self.old { taken = self.old.taken ++ bytes.now } }
    {
        self.taken.extend(bytes);
    }

    /// The first `count` bytes of these two parts have left.
    pub fn leave(&mut self, first: &[u8], second: &[u8], count: usize)
        requires { count ≤ length first.now + length second.now }
        ensures { self.new ≡ record self.old {
          taken = self.old.taken ++ take count (first.now ++ second.now);
        } }
    {
        note(&mut self.taken, first, second, count);
    }

    /// A loss was noticed.
    pub fn lose(&mut self)
        ensures { self.new ≡ record self.old { lost = true } }
    {
        self.lost = true;
    }
}
