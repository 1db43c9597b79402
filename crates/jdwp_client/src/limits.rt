//! Waits with a limit of time.
ghost use Rattle.std.specs.Prelude.{◌≡◌, Some, IfErr, IfOk};
ghost use Rattle.jdwp_client.specs.Errors.{IsToldOf};
ghost use Rattle.jdwp_client.specs.declared.errors.Awaited.TheVariants as awaited;

use crate::client::Client;
use crate::errors::{Awaited, ClientError};
use jdwp_debugger::{Command, Ticket};
use jdwp_end::Pipe;
use jdwp_event::Composite;
use jdwp_layout::Answer;
use jdwp_wire::IdSizes;

/// A pipe whose reads and writes wait no longer than they are let, by a clock.
pub trait LimitedPipe: Pipe {
    /// From now on reads and writes wait for so many milliseconds in all, and fail once these are over, whether bytes are there or not; at None
    /// they wait without limit. Nothing goes through the pipe.
    fn limit(&mut self, milliseconds: Option<u64>)
        ensures { Self.story self.new ≡ Self.story self.old };

    /// Whether a read or a write failed since the time of the last limit was over.
    fn is_late(&self) -> bool;
}

impl<P: LimitedPipe + Drop> Client<P> {
    ghost use Rattle.jdwp_client.specs.Clients.{AsksFor, FailsToAsk, FailsToWait, FailsWithin, GivesAnswer, GivesEvent, GivesFirst, IsLimited, Stops, WaitsTo, Within, lacks_event, lacks_events, lacks_sizes};
    ghost use Rattle.jdwp_client.specs.Keeping.{has_request};

    /// As `attach`, for so many milliseconds at most.
    ///
    /// # Errors
    /// As those of `wait_within`.
    pub fn attach_within(&mut self, milliseconds: u64) -> Result<IdSizes, ClientError>
        ensures ok { IfOk result (λ sizes. Within P.story (λ old new. WaitsTo P.story lacks_sizes old new
            × (new.debugger.sizes ≡ Some sizes)) self.old self.new) }
        ensures err { IfErr result (λ e. FailsWithin P.story awaited.Beginning (λ old e new.
            Stops P.story lacks_sizes old e new) self.old e self.new) }
    {
        self.begin_limit(milliseconds);
        match self.attach() {
            Ok(sizes) => {
                self.end_limit();
                Ok(sizes)
            }
            Err(error) => Err(self.fail_within(error, Awaited::Beginning)),
        }
    }

    /// As `wait`, for so many milliseconds at most, however many events come meanwhile.
    ///
    /// # Errors
    /// `TooLate` where these are over: then the connection is lost, and the session is over; else those of `wait`.
    pub fn wait_within(&mut self, ticket: Ticket, milliseconds: u64) -> Result<Answer, ClientError>
        ensures ok { IfOk result (λ answer. Within P.story (λ old new.
            GivesAnswer P.story ticket.0 old answer new) self.old self.new) }
        ensures err { IfErr result (λ e. FailsWithin P.story (awaited.Answer ticket) (λ old e new.
            FailsToWait P.story ticket old e new) self.old e self.new) }
    {
        self.begin_limit(milliseconds);
        match self.wait(ticket) {
            Ok(answer) => {
                self.end_limit();
                Ok(answer)
            }
            Err(error) => Err(self.fail_within(error, Awaited::Answer(ticket))),
        }
    }

    /// As `ask`, for so many milliseconds at most, beginning with the write.
    ///
    /// # Errors
    /// `TooLate` where these are over: then the connection is lost, and the session is over; else those of `ask`.
    pub fn ask_within(&mut self, command: Command, milliseconds: u64) -> Result<Answer, ClientError>
        ensures ok { IfOk result (λ answer. Within P.story (λ old new.
            AsksFor P.story command old answer new) self.old self.new) }
        ensures err { IfErr result (λ e. FailsWithin P.story awaited.Reply (λ old e new.
            FailsToAsk P.story command old e new) self.old e self.new) }
    {
        self.begin_limit(milliseconds);
        match self.ask(command) {
            Ok(answer) => {
                self.end_limit();
                Ok(answer)
            }
            Err(error) => Err(self.fail_within(error, Awaited::Reply)),
        }
    }

    /// As `next_event`, for so many milliseconds at most.
    ///
    /// # Errors
    /// As those of `wait_within`, but for `NotWaiting`.
    pub fn next_event_within(&mut self, milliseconds: u64) -> Result<Composite, ClientError>
        ensures ok { IfOk result (λ c. Within P.story (λ old new. GivesFirst P.story old c new)
            self.old self.new) }
        ensures err { IfErr result (λ e. FailsWithin P.story awaited.Event (λ old e new.
            Stops P.story lacks_events old e new) self.old e self.new) }
    {
        self.begin_limit(milliseconds);
        match self.next_event() {
            Ok(event) => {
                self.end_limit();
                Ok(event)
            }
            Err(error) => Err(self.fail_within(error, Awaited::Event)),
        }
    }

    /// As `wait_for`, for so many milliseconds at most.
    ///
    /// # Errors
    /// As those of `next_event_within`.
    pub fn wait_for_within(
        &mut self,
        request: i32,
        milliseconds: u64,
    ) -> Result<Composite, ClientError>
        ensures ok { IfOk result (λ c. Within P.story (λ old new.
            GivesEvent P.story (has_request request) old c new) self.old self.new) }
        ensures err { IfErr result (λ e. FailsWithin P.story (awaited.EventOf request) (λ old e new.
            Stops P.story (lacks_event (has_request request)) old e new) self.old e self.new) }
    {
        self.begin_limit(milliseconds);
        match self.wait_for(request) {
            Ok(event) => {
                self.end_limit();
                Ok(event)
            }
            Err(error) => Err(self.fail_within(error, Awaited::EventOf(request))),
        }
    }

    /// Reads and writes wait for so many milliseconds in all from now on.
    fn begin_limit(&mut self, milliseconds: u64)
        ensures { IsLimited P.story self.old self.new }
    {
        self.pipe.limit(Some(milliseconds));
    }

    /// They wait without limit again.
    fn end_limit(&mut self)
        ensures { IsLimited P.story self.old self.new }
    {
        self.pipe.limit(None);
    }

    /// The same behind a wait that ended so; and what is told of it.
    fn fail_within(&mut self, error: ClientError, awaited: Awaited) -> ClientError
        ensures told { IsToldOf awaited error result }
        ensures left { IsLimited P.story self.old self.new }
    {
        self.end_limit();
        match error {
            ClientError::Lost(loss) if self.pipe.is_late() => ClientError::TooLate(awaited, loss),
            _ => error,
        }
    }
}
