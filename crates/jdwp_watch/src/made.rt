//! Requests that were just made.
ghost use Rattle.std.specs.Prelude.{◌≡◌, []};
ghost use Rattle.jdwp_apart.specs.Following as following;
ghost use Rattle.jdwp_apart.specs.Following.{with_made};
ghost use Rattle.jdwp_layout.specs.Meanings.{meanings, scalar_meanings};
ghost use Rattle.jdwp_watch.specs.Ledgers.{made_in};

use jdwp_event::{Composite, Event};
use jdwp_layout::{Datum, Scalar};
use jdwp_mirror::CommandKind;
use std::marker::Model;

/// How many requests are known.
const MOST: usize = 16;

/// The requests that were made since a composite was read last, each with the ticket of its EventRequest.Set, the newest last: at most 16.
/// It takes no memory.
#[derive(Drop)]
pub(crate) struct MadeRequests {
    made: [(i32, u64); MOST],
    count: usize,
}

impl Model for MadeRequests {
    ghost use Rattle.std.specs.Prelude.{List, ℕ, ℤ, ◌≤◌, take};

    ghost Value = { List (ℤ × ℕ) };

    ghost view = { λ m. take m.count m.made };

    ghost invariant = { λ m. m.count ≤ 16 };
}

impl MadeRequests {
    /// None was made.
    pub fn new() -> MadeRequests
        ensures { result ≡ [] }
    {
        MadeRequests {
            made: [(0, 0); MOST],
            count: 0,
        }
    }

    /// None was made since.
    pub fn clear(&mut self)
        ensures { self.new ≡ [] }
    {
        self.count = 0;
    }

    /// A request was made by the Set of a ticket, if one was. Behind 16 those before are forgotten.
    pub fn note(&mut self, request: Option<i32>, ticket: u64)
        ensures { self.new ≡ with_made request ticket self.old }
    {
        if let Some(id) = request {
            if self.count >= MOST {
                self.count = 0;
            }
            self.made[self.count] = (id, ticket);
            self.count += 1;
        }
    }

    /// How many commands were surely carried out before the events of a composite: those up to the Set of each request that they report.
    pub fn since(&self, composite: &Composite) -> u64
        ensures { result ≡ following.since self.now composite.now }
    {
        let events = composite.events();
        events
            .iter()
            .fold(0, |since: u64, event| since.max(self.event_ticket(event)))
    }

    fn event_ticket(&self, event: &Event) -> u64
        ensures { result ≡ following.event_ticket self.now event.now }
    {
        self.fields_ticket(event.fields())
    }

    fn fields_ticket(&self, fields: &[Scalar]) -> u64
        ensures { result ≡ following.event_ticket self.now (scalar_meanings fields.now) }
    {
        match fields {
            [Scalar::Byte(_), Scalar::Int(request), ..] => self.ticket_of(*request),
            _ => 0,
        }
    }

    /// The ticket of the Set that made a request, 0 where none is known.
    fn ticket_of(&self, request: i32) -> u64
        ensures { result ≡ following.ticket_of self.now request }
    {
        let made = &self.made[..self.count];
        made.iter()
            .fold(0, |ticket, one| ticket_by(request, ticket, *one))
    }
}

fn ticket_by(request: i32, ticket: u64, made: (i32, u64)) -> u64
    ensures { result ≡ following.ticket_by request ticket made }
{
    if made.0 == request {
        ticket.max(made.1)
    } else {
        ticket
    }
}

/// The id of the request in data that answer a command of a kind.
pub(crate) fn request_made(kind: CommandKind, items: &[Datum]) -> Option<i32>
    ensures { result ≡ made_in kind (meanings items.now) }
{
    match (kind, items) {
        (CommandKind::Request, [Datum::One(Scalar::Int(id))]) => Some(*id),
        _ => None,
    }
}
