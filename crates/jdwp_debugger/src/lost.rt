//! What a loss leaves unanswered.
ghost use Rattle.std.specs.Prelude.{◌≡◌, ◌≤◌, ◌<◌, ◌++◌, ◌∷◌, [], length};
ghost use Rattle.jdwp_debugger.specs.Debuggers.{PENDING_MOST, tickets_of};

use crate::pending::{Pending, Ticket};
use std::marker::Model;

/// The most commands that wait for replies, whatever the limits.
const MOST: usize = 1_024;

/// The tickets that were neither answered nor lost before, in the order asked: at most 1,024. It takes no memory.
#[derive(Debug, Drop)]
pub struct Lost {
    tickets: [Ticket; MOST],
    count: usize,
}

impl Model for Lost {
    ghost use Rattle.std.specs.Prelude.{List, ◌≤◌, take};
    ghost use Rattle.jdwp_debugger.specs.Debuggers.{PENDING_MOST};
    ghost use Rattle.jdwp_debugger.specs.declared.pending.Ticket.{Ticket};

    ghost Value = { List Ticket };

    ghost view = { λ l. take l.count l.tickets };

    ghost invariant = { λ l. l.count ≤ PENDING_MOST };
}

impl Lost {
    /// The tickets of the commands that wait.
    pub(crate) fn of(pending: &Pending) -> Lost
        requires { length pending.now ≤ PENDING_MOST }
        ensures { result ≡ tickets_of pending.now }
    {
        let mut lost = Lost::none();
        for place in 0..pending.len() {
            let (_, asked) = pending.at(place);
            if let Some(ticket) = asked.ticket {
                lost.push(ticket);
            }
        }
        lost
    }

    /// No ticket.
    fn none() -> Lost
        ensures { result ≡ [] }
    {
        Lost {
            tickets: [Ticket(0); MOST],
            count: 0,
        }
    }

    /// One more behind the others.
    fn push(&mut self, ticket: Ticket)
        requires { length self.old < PENDING_MOST }
        ensures { self.new ≡ self.old ++ ticket ∷ [] }
    {
        self.tickets[self.count] = ticket;
        self.count += 1;
    }

    /// The tickets, in the order asked: at most 1,024.
    pub fn as_slice(&self) -> &[Ticket]
        ensures value { result.now ≡ self.now }
        ensures bound { length self.now ≤ PENDING_MOST }
    {
        &self.tickets[..self.count]
    }
}
