//! What was told and not handed out.
ghost use Rattle.std.specs.Prelude.{◌≡◌, ◌≤◌, ◌+◌, ◌∷◌, ◌++◌, [], length, IfErr, MatchOption, None, is_some, OnOk};
ghost use Rattle.std.specs.List.{position};
ghost use Rattle.std.specs.VecDeque.{deque_capacity};
ghost use Rattle.jdwp_debugger.specs.DebuggerTurns.{AreFew, read_meaning};
ghost use Rattle.jdwp_layout.specs.Meanings.{scalar_meanings};
ghost use Rattle.jdwp_client.specs.Keeping.{HandsOut, Rises, Takes, answers_in, composites_in, has_request, is_under};
ghost use Rattle.jdwp_client.specs.Keeping as keeping;
ghost use Rattle.jdwp_client.specs.Errors.{MeetsNoRoom};

use crate::answers::Answers;
use crate::errors::ClientError;
use crate::waiters::Waiters;
use jdwp_debugger::{Read, Ticket};
use jdwp_event::Composite;
use jdwp_layout::{Answer, Scalar};
use std::alloc::Global;
use std::collections::VecDeque;

/// How many composites one turn may tell.
const AT_ONCE: usize = 4;

/// The composites and the answers that were told and not handed out, each in the order told; and the tickets whose answers were not told.
#[derive(Drop)]
pub(crate) struct Kept {
    pub events: VecDeque<Composite>,
    pub answers: Answers,
    pub waiters: Waiters,
    ghost rises: { Rises answers.rising answers.items.items },
}

impl Kept {
    /// Nothing.
    pub fn new(alloc: Global) -> Kept
        ensures events { result.events.items ≡ [] }
        ensures answers { result.answers.items.items ≡ [] }
    {
        Kept {
            events: VecDeque::new(alloc),
            answers: Answers::new(alloc),
            waiters: Waiters::new(alloc),
        }
    }

    /// Makes room for all that one turn may tell, where so many composites may be kept at most.
    ///
    /// # Errors
    /// `TooManyEvents` where fewer than four more may be kept; `NoMemory` where an allocation was refused.
    pub fn make_room(&mut self, most: usize) -> Result<(), ClientError>
        ensures events { self.new.events.items ≡ self.old.events.items }
        ensures answers { self.new.answers.items.items ≡ self.old.answers.items.items }
        ensures few { OnOk result (length self.new.events.items + 4 ≤ most) }
        ensures event_room { OnOk result (length self.new.events.items + 4
            ≤ deque_capacity self.new.events) }
        ensures answer_room { OnOk result (length self.new.answers.items.items + 1
            ≤ deque_capacity self.new.answers.items) }
        ensures full { IfErr result (λ e. MeetsNoRoom most self.old.events.items e) }
    {
        if most.saturating_sub(self.events.len()) < AT_ONCE {
            return Err(ClientError::TooManyEvents);
        }
        self.events.reserve(AT_ONCE)?;
        self.answers.reserve()?;
        Ok(())
    }

    /// Keeps what a turn told, for which there is room.
    pub fn keep(&mut self, read: Read)
        requires few { AreFew (read_meaning read) }
        requires event_room { length self.old.events.items + 4 ≤ deque_capacity self.old.events }
        requires answer_room { length self.old.answers.items.items + 1
            ≤ deque_capacity self.old.answers.items }
        ensures events { self.new.events.items
            ≡ self.old.events.items ++ composites_in (read_meaning read) }
        ensures answers { self.new.answers.items.items
            ≡ self.old.answers.items.items ++ answers_in (read_meaning read) }
    {
        match read {
            Read::Nothing | Read::Hello | Read::Parked => {}
            Read::Seen(composite) => self.events.push_back_reserved(composite),
            Read::Answered(ticket, answer) => {
                self.waiters.remove(ticket);
                self.answers.push(ticket, answer);
            }
            Read::Sizes(composites) => {
                let _ = self.events.append(&mut VecDeque::from_vec(composites));
            }
        }
    }

    /// Hands out the first composite.
    pub fn take_event(&mut self) -> Option<Composite>
        ensures event { MatchOption result
            ((self.old.events.items ≡ []) × (self.new.events.items ≡ []))
            (λ c. self.old.events.items ≡ c ∷ self.new.events.items) }
        ensures answers { self.new.answers.items.items ≡ self.old.answers.items.items }
    {
        self.events.pop_front()
    }

    /// Hands out the first composite that has an event of this request.
    pub fn take_event_of(&mut self, request: i32) -> Option<Composite>
        ensures event { Takes (has_request request) self.old.events.items result
            self.new.events.items }
        ensures answers { self.new.answers.items.items ≡ self.old.answers.items.items }
    {
        let place = place_of_request(&self.events, request)?;
        self.events.remove(place)
    }

    /// Whether an answer is kept under a ticket.
    pub fn has_answer(&self, ticket: Ticket) -> bool
        ensures { result ≡ is_some (position (is_under ticket.0) self.now.answers.items.items) }
    {
        self.answers.place_of(ticket).is_some()
    }

    /// Hands out the first answer under a ticket.
    pub fn take_answer(&mut self, ticket: Ticket) -> Option<Answer>
        ensures answer { MatchOption result ((position (is_under ticket.0) self.old.answers.items.items ≡ None)
            × (self.new.answers.items.items ≡ self.old.answers.items.items)) (λ answer.
            HandsOut (is_under ticket.0) self.old.answers.items.items (ticket, answer)
            self.new.answers.items.items) }
        ensures events { self.new.events.items ≡ self.old.events.items }
    {
        self.answers.take(ticket)
    }
}

/// The place of the first composite that has an event of this request.
fn place_of_request(events: &VecDeque<Composite>, request: i32) -> Option<usize>
    ensures { result ≡ position (has_request request) events.now.items }
{
    events
        .iter()
        .position(|composite| has_event_of_request(composite, request))
}

/// Whether a composite has an event of this request.
fn has_event_of_request(composite: &Composite, request: i32) -> bool
    ensures { result ≡ has_request request composite.now }
{
    composite
        .events()
        .iter()
        .any(|event| is_of_request(event.fields(), request))
}

/// Whether the fields are those of an event of this request.
fn is_of_request(fields: &[Scalar], request: i32) -> bool
    ensures { result ≡ keeping.is_of_request request (scalar_meanings fields.now) }
{
    match fields {
        [_, Scalar::Int(id), ..] => *id == request,
        _ => false,
    }
}
