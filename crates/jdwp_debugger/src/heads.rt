//! What the last turn read.
ghost use Rattle.std.specs.Prelude.{◌≡◌, ◌+◌, ◌<◌, ◌≤◌, ◌++◌, ◌∷◌, [], length};
ghost use Rattle.jdwp_debugger.specs.DebuggerTurns.{heads_of, reply_head};
ghost use Rattle.jdwp_mirror.specs.Messages.{id_sizes};

use crate::parked::Parked;
use jdwp_layout::numbers::{ID_SIZES, VIRTUAL_MACHINE};
use jdwp_mirror::Command;
use jdwp_wire::Header;
use std::marker::Model;

/// The front of a message that was read.
#[derive(Clone, Copy, Debug, PartialEq, Eq)]
pub enum Head {
    /// The handshake.
    Hello,
    /// A composite, in a packet with this header.
    Composite(Header),
    /// The reply with this header, to the command of this set and number.
    Reply { header: Header, set: u8, number: u8 },
}

impl Head {
    /// The front of a reply to this command.
    pub(crate) fn of_reply(header: Header, command: &Command) -> Head
        ensures { result ≡ reply_head header command.now }
    {
        Head::Reply {
            header,
            set: command.set(),
            number: command.number(),
        }
    }
}

/// The most messages that one turn reads: the composites that waited for the widths of ids, and the reply that has them.
const MOST: usize = 5;

/// What a turn read, in order: at most five messages. It takes no memory.
#[derive(Drop)]
pub(crate) struct Heads {
    heads: [Head; MOST],
    count: usize,
}

impl Model for Heads {
    ghost use Rattle.std.specs.Prelude.{List, ◌≤◌, take};
    ghost use Rattle.jdwp_debugger.specs.declared.heads.Head.{Head};

    ghost Value = { List Head };

    ghost view = { λ h. take h.count h.heads };

    ghost invariant = { λ h. h.count ≤ 5 };
}

impl Heads {
    /// Nothing was read.
    pub fn new() -> Heads
        ensures { result ≡ [] }
    {
        Heads {
            heads: [Head::Hello; MOST],
            count: 0,
        }
    }

    /// What was read, in order.
    pub fn as_slice(&self) -> &[Head]
        ensures { result.now ≡ self.now }
    {
        &self.heads[..self.count]
    }

    /// Nothing was read.
    pub fn clear(&mut self)
        ensures { self.new ≡ [] }
    {
        self.count = 0;
    }

    /// This was read behind the others.
    pub fn push(&mut self, head: Head)
        requires { length self.old < 5 }
        ensures { self.new ≡ self.old ++ head ∷ [] }
    {
        self.heads[self.count] = head;
        self.count += 1;
    }

    /// The composites that waited were read behind the others, in order.
    pub fn push_waiting(&mut self, parked: &[Parked])
        requires { length self.old + length parked.now ≤ 5 }
        ensures { self.new ≡ self.old ++ heads_of parked.now }
    {
        for waiting in parked {
            self.push(Head::Composite(waiting.header));
        }
    }

    /// The composites that waited were read, and then the reply that has the widths of ids, with this header; nothing else.
    pub fn set_sizes(&mut self, parked: &[Parked], header: Header)
        requires { length parked.now ≤ 4 }
        ensures { self.new ≡ heads_of parked.now ++ reply_head header id_sizes ∷ [] }
    {
        self.clear();
        self.push_waiting(parked);
        self.push(Head::Reply {
            header,
            set: VIRTUAL_MACHINE,
            number: ID_SIZES,
        });
    }
}
