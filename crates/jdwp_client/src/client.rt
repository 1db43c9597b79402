//! A client of a session.
ghost use Rattle.std.specs.Prelude.{◌≡◌, ◌∷◌, [], IfOk, MatchOption, None, Option, unwrap_or};
ghost use Rattle.std.specs.List.{position};
ghost use Rattle.jdwp_end.specs.Ends as ends;
ghost use Rattle.jdwp_debugger.specs.Debuggers.{attached, new_debugger_in};
ghost use Rattle.jdwp_debugger.specs.Holding as holding;

use crate::errors::ClientError;
use crate::kept::Kept;
use crate::options::Options;
use jdwp_debugger::{Debugger, KeptRequests, Lost, Ticket};
use jdwp_end::{CHUNK, Pipe};
use jdwp_event::Composite;
use jdwp_layout::Answer;
use jdwp_value::ObjectId;
use jdwp_wire::{IdSizes, NoMemory};
use std::alloc::Global;
use std::marker::Model;

/// A debugger in one session over a pipe, with the events and answers that came and were not handed out.
///
/// It reads only while something is waited for that has not come, and then no more than the pipe gives at once. How long a read
/// waits is up to the pipe: a socket with a read timeout makes a read fail that waits longer, and the connection counts as lost then.
#[derive(Drop)]
pub struct Client<P: Pipe> {
    pub(crate) alloc: Global,
    pub(crate) debugger: Debugger,
    pub(crate) pipe: P,
    pub(crate) kept: Kept,
    pub(crate) sent: Option<Ticket>,
    pub(crate) lost: Option<Lost>,
    pub(crate) most_events: usize,
    pub(crate) buffer: [u8; CHUNK],
}

impl<P: Pipe> Model for Client<P> {
    ghost use Rattle.jdwp_client.specs.Clients as clients;
    ghost use Rattle.jdwp_client.specs.ClientsKept.{client_of};

    ghost Value = { clients.Client P };

    ghost view = { λ c. client_of c.debugger c.pipe c.kept.events.items c.kept.answers.items.items c.sent c.lost c.most_events };
}

impl<P: Pipe + Drop> Client<P> {
    ghost use Rattle.jdwp_client.specs.Clients.{ended, with_answers, with_events};
    ghost use Rattle.jdwp_client.specs.Keeping.{HandsOut, has_request, is_under};
    ghost use Rattle.std.specs.Map.Iter.{ShowsInOrder, deref};
    ghost use Rattle.jdwp_mirror.specs.Mirror.{Kept as KeptMeaning};

    /// A client whose session begins: the handshake is to leave. Nothing is written or read yet.
    ///
    /// # Errors
    /// `NoMemory` where an allocation was refused.
    pub fn new(alloc: Global, pipe: P, options: Options) -> Result<Client<P>, NoMemory>
        ensures { IfOk result (λ c. c ≡ record {
          debugger = attached (new_debugger_in options.order options.limits options.first_id);
          pipe = pipe;
          events = [];
          answers = [];
          sent = None;
          lost = None;
          most_events = options.most_events;
        }) }
    {
        let mut debugger = Debugger::with_order(
            alloc,
            options.first_id,
            options.limits,
            options.order,
        )?;
        debugger.attach();
        Ok(Client {
            alloc,
            debugger,
            pipe,
            kept: Kept::new(alloc),
            sent: None,
            lost: None,
            most_events: options.most_events,
            buffer: [0; CHUNK],
        })
    }

    /// The debugger, with all that it knows.
    pub fn debugger(&self) -> &Debugger
        ensures { result.now ≡ self.now.debugger }
    {
        &self.debugger
    }

    /// Whether the session is open.
    pub fn is_open(&self) -> bool
        ensures { result ≡ ends.is_open self.now.debugger.end }
    {
        self.debugger.is_open()
    }

    /// Whether the debugger holds a thread for suspended, as `Debugger::is_held` says.
    pub fn is_held(&self, thread: ObjectId) -> bool
        ensures { result ≡ holding.is_held self.now.debugger thread.0 }
    {
        self.debugger.is_held(thread)
    }

    /// What the suspend count of a thread is no less than, as `Debugger::at_least` says.
    pub fn count(&self, thread: ObjectId) -> u64
        ensures { result ≡ holding.at_least self.now.debugger thread.0 }
    {
        self.debugger.at_least(thread)
    }

    /// The widths of ids, once they are known.
    pub fn sizes(&self) -> Option<IdSizes>
        ensures { result ≡ self.now.debugger.sizes }
    {
        self.debugger.sizes()
    }

    /// The event requests that the target has, by what was read.
    pub fn requests(&self) -> KeptRequests<'_>
        ensures all { result ≡ self.now.debugger.mirror.requests }
        ensures runs { ShowsInOrder (deref {X = KeptMeaning}) }
    {
        self.debugger.mirror().requests()
    }

    /// The ticket of the last command that was put; None before the first. Where `ask` ends without the answer and the session stays open,
    /// `wait` goes on under it.
    pub fn sent(&self) -> Option<Ticket>
        ensures { result ≡ self.now.sent }
    {
        self.sent
    }

    /// The tickets that will never be answered, since the session ended.
    pub fn lost(&self) -> &[Ticket]
        ensures { result.now ≡ unwrap_or self.now.lost [] }
    {
        match &self.lost {
            Some(lost) => lost.as_slice(),
            None => &[],
        }
    }

    /// The first composite that is kept; None where none is. Nothing is read.
    pub fn try_event(&mut self) -> Option<Composite>
        ensures { MatchOption result ((self.old.events ≡ []) × (self.new ≡ self.old))
            (λ c. (self.old.events ≡ c ∷ self.new.events)
            × (self.new ≡ with_events self.new.events self.old)) }
    {
        self.kept.take_event()
    }

    /// The first composite that is kept and has an event of this request; None where none is.
    pub(crate) fn take_event_of(&mut self, request: i32) -> Option<Composite>
        ensures { MatchOption result
            ((position (has_request request) self.old.events ≡ None) × (self.new ≡ self.old))
            (λ c. HandsOut (has_request request) self.old.events c self.new.events
            × (self.new ≡ with_events self.new.events self.old)) }
    {
        self.kept.take_event_of(request)
    }

    /// The answer that is kept under a ticket; None where none is.
    pub(crate) fn take_answer(&mut self, ticket: Ticket) -> Option<Answer>
        ensures { MatchOption result
            ((position (is_under ticket.0) self.old.answers ≡ None) × (self.new ≡ self.old))
            (λ answer. HandsOut (is_under ticket.0) self.old.answers (ticket, answer) self.new.answers
            × (self.new ≡ with_answers self.new.answers self.old)) }
    {
        self.kept.take_answer(ticket)
    }

    /// The connection is given up, and the session is over. What is kept stays.
    pub fn close(&mut self)
        ensures { self.new ≡ ended self.old }
    {
        self.end();
    }

    /// The pipe. What is kept is let go.
    pub fn into_pipe(self) -> P
        ensures { result ≡ self.pipe }
    {
        let Client { pipe, .. } = self;
        pipe
    }

    /// The allocator.
    pub(crate) fn allocator(&self) -> Global {
        self.alloc
    }

    /// The debugger loses the connection.
    pub(crate) fn end(&mut self)
        ensures { self.new ≡ ended self.old }
    {
        self.lost = Some(self.debugger.lose());
        self.kept.waiters.clear();
    }
}
