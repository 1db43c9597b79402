//! Tickets whose answers were not told.

use jdwp_debugger::Ticket;
use std::alloc::Global;
use std::collections::VecDeque;

/// The tickets that were given in the session and whose answers were not told, rising, so that one is found by halving.
///
/// The debugger itself knows them, too, and goes through them one by one. Where one is missing here, it is looked for there: so nothing that is
/// proved rests on this, and a ticket for which no memory was there is just found more slowly.
#[derive(Drop)]
pub(crate) struct Waiters {
    tickets: VecDeque<u64>,
}

impl Waiters {
    /// None.
    pub fn new(alloc: Global) -> Waiters {
        Waiters {
            tickets: VecDeque::new(alloc),
        }
    }

    /// A ticket was given, behind the others.
    pub fn push(&mut self, ticket: Ticket) {
        let _ = self.tickets.push_back(ticket.0);
    }

    /// Whether a ticket is among them.
    pub fn has(&self, ticket: Ticket) -> bool {
        self.tickets.binary_search(&ticket.0).is_ok()
    }

    /// The answer of a ticket was told.
    pub fn remove(&mut self, ticket: Ticket) {
        if let Ok(place) = self.tickets.binary_search(&ticket.0) {
            let _ = self.tickets.remove(place);
        }
    }

    /// None is left: the session is over.
    pub fn clear(&mut self) {
        self.tickets.clear();
    }
}
