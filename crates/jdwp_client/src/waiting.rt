//! Waiting for what comes.
ghost use Rattle.std.specs.Prelude.{◌≡◌, ◌<◌, [], false, true, Some, IfErr, IfOk, IsTrue, OnOk};
ghost use Rattle.jdwp_end.specs.Ends.{is_open, room_of};
ghost use Rattle.jdwp_end.specs.Story.{FailsRead};
ghost use Rattle.jdwp_client.specs.Keeping.{has_request};
ghost use Rattle.jdwp_client.specs.Turning.{FailsKept, TurnsKept};
ghost use Rattle.jdwp_client.specs.declared.errors.ClientError.TheVariants as error;
ghost use Rattle.jdwp_client.specs.declared.errors.Loss.TheVariants as loss;

use crate::client::Client;
use crate::errors::{ClientError, Loss};
use crate::turning::turn_and_keep;
use crate::unanswered::is_unanswered;
use jdwp_debugger::Ticket;
use jdwp_end::{NoInput, Pipe, flush_all, read_and_feed, write_out};
use jdwp_event::Composite;
use jdwp_layout::Answer;
use jdwp_wire::IdSizes;

/// How many steps a wait may take. No program lives that long.
const STEPS: u64 = u64::MAX;

impl<P: Pipe + Drop> Client<P> {
    ghost use Rattle.jdwp_client.specs.Clients.{EndsBehind, EndsWait, FailsToWait, GivesAnswer, GivesEvent, GivesFirst, GoesOn, GoesOnBehind, IsTurned, lacks_answer, lacks_event, lacks_events, lacks_sizes, LosesByWrite, Puts, PutsPart, ReadsOnce, Stops, WaitsNot, WaitsTo, ended, failed_by, moved, settled};

    /// Waits until the target has answered the handshake and told the widths of its ids.
    ///
    /// # Errors
    /// As those of `next_event`.
    pub fn attach(&mut self) -> Result<IdSizes, ClientError>
        ensures ok { IfOk result (λ sizes. WaitsTo P.story lacks_sizes self.old self.new
            × (self.new.debugger.sizes ≡ Some sizes)) }
        ensures err { IfErr result (λ e. Stops P.story lacks_sizes self.old e self.new) }
    {
        for _made in 0..STEPS {
            match self.sizes() {
                Some(sizes) => return Ok(sizes),
                None => {}
            }
            match self.advance() {
                Ok(()) => {}
                Err(error) => return Err(error),
            }
        }
        Err(ClientError::TooManySteps)
    }

    /// Waits for the answer to the command that was sent under this ticket.
    ///
    /// # Errors
    /// `NotWaiting` where no answer is kept under the ticket, and no command waits for one; else those of `next_event`, which leave the
    /// command waiting where the session stays open.
    pub fn wait(&mut self, ticket: Ticket) -> Result<Answer, ClientError>
        ensures ok { IfOk result (λ answer. GivesAnswer P.story ticket.0 self.old answer self.new) }
        ensures err { IfErr result (λ e. FailsToWait P.story ticket self.old e self.new) }
    {
        match self.check_waits(ticket) {
            Ok(()) => self.wait_on(ticket),
            Err(error) => Err(error),
        }
    }

    /// The same where it is known that one waits, or is kept.
    pub(crate) fn wait_on(&mut self, ticket: Ticket) -> Result<Answer, ClientError>
        ensures ok { IfOk result (λ answer. GivesAnswer P.story ticket.0 self.old answer self.new) }
        ensures err { IfErr result (λ e. Stops P.story (lacks_answer ticket.0) self.old e self.new) }
    {
        for _made in 0..STEPS {
            match self.take_answer(ticket) {
                Some(answer) => return Ok(answer),
                None => {}
            }
            match self.advance() {
                Ok(()) => {}
                Err(error) => return Err(error),
            }
        }
        Err(ClientError::TooManySteps)
    }

    /// Waits for the next composite, or takes the first that is kept.
    ///
    /// # Errors
    /// `TooManyEvents`, `NoMemory` and `TooManySteps`, where the session stays open and nothing is lost; `Closed` where the session is over, or ends as
    /// the target answers Dispose or its machine dies; `Fault` where this debugger refuses what the target sent, and `Lost` where the connection is
    /// lost, which end the session.
    pub fn next_event(&mut self) -> Result<Composite, ClientError>
        ensures ok { IfOk result (λ c. GivesFirst P.story self.old c self.new) }
        ensures err { IfErr result (λ e. Stops P.story lacks_events self.old e self.new) }
    {
        for _made in 0..STEPS {
            match self.try_event() {
                Some(event) => return Ok(event),
                None => {}
            }
            match self.advance() {
                Ok(()) => {}
                Err(error) => return Err(error),
            }
        }
        Err(ClientError::TooManySteps)
    }

    /// Waits for the next composite that has an event of this request. The others are kept, in order.
    ///
    /// # Errors
    /// As those of `next_event`.
    pub fn wait_for(&mut self, request: i32) -> Result<Composite, ClientError>
        ensures ok { IfOk result (λ c. GivesEvent P.story (has_request request) self.old c self.new) }
        ensures err { IfErr result (λ e.
            Stops P.story (lacks_event (has_request request)) self.old e self.new) }
    {
        for _made in 0..STEPS {
            match self.take_event_of(request) {
                Some(event) => return Ok(event),
                None => {}
            }
            match self.advance() {
                Ok(()) => {}
                Err(error) => return Err(error),
            }
        }
        Err(ClientError::TooManySteps)
    }

    /// One turn, or where nothing whole has come, one read. What the turn told is kept.
    fn advance(&mut self) -> Result<(), ClientError>
        ensures ok { OnOk result (GoesOn P.story self.old self.new) }
        ensures err { IfErr result (λ e. EndsWait P.story self.old e self.new) }
    {
        if !self.is_open() {
            return Err(ClientError::Closed);
        }
        match self.put() {
            Ok(()) => self.turn_or_read(),
            Err(error) => Err(error),
        }
    }

    /// One turn, or where nothing whole has come, one read, behind what was written.
    fn turn_or_read(&mut self) -> Result<(), ClientError>
        requires opened { is_open self.old.debugger.end ≡ true }
        requires written { self.old.debugger.end.outgoing ≡ [] }
        requires left { (P.story self.old.pipe).unflushed ≡ [] }
        ensures ok { OnOk result (GoesOnBehind P.story self.old self.new) }
        ensures err { IfErr result (λ e. EndsBehind P.story self.old e self.new) }
    {
        match self.turn() {
            Ok(true) => {
                self.settle();
                Ok(())
            }
            Ok(false) => self.read(),
            Err(error) => Err(self.fail(error)),
        }
    }

    /// One turn, of which what it tells is kept.
    ///
    /// # Errors
    /// As those of `turn_and_keep`.
    fn turn(&mut self) -> Result<bool, ClientError>
        requires opened { is_open self.old.debugger.end ≡ true }
        requires written { self.old.debugger.end.outgoing ≡ [] }
        ensures ok { IfOk result (λ handled. TurnsKept handled self.old.debugger self.old.events
            self.old.answers self.new.debugger self.new.events self.new.answers) }
        ensures err { IfErr result (λ e. FailsKept self.old.most_events e self.old.debugger
            self.old.events self.old.answers self.new.debugger self.new.events self.new.answers) }
        ensures others { IsTurned self.old self.new }
    {
        turn_and_keep(
            self.alloc,
            &mut self.debugger,
            &mut self.kept,
            self.most_events,
        )
    }

    /// The session is over where a turn refused what came.
    fn fail(&mut self, error: ClientError) -> ClientError
        ensures same { result ≡ error }
        ensures left { self.new ≡ failed_by error self.old }
    {
        if let ClientError::Fault(_) = error {
            self.end();
        }
        error
    }

    /// Whether a command waits for its answer under this ticket, or an answer is kept.
    ///
    /// # Errors
    /// `NotWaiting` where neither is so and the session is open; `Closed` where it is over.
    fn check_waits(&self, ticket: Ticket) -> Result<(), ClientError>
        ensures { IfErr result (λ e. WaitsNot ticket self.now e) }
    {
        if self.kept.has_answer(ticket) || self.kept.waiters.has(ticket) {
            Ok(())
        } else if is_unanswered(&self.debugger, ticket) {
            Ok(())
        } else if self.debugger.is_open() {
            Err(ClientError::NotWaiting(ticket))
        } else {
            Err(ClientError::Closed)
        }
    }

    /// Writes all that waits to leave, and sees that it leaves.
    ///
    /// # Errors
    /// `Lost` where a write or the flush failed; then the session is over.
    pub(crate) fn put(&mut self) -> Result<(), ClientError>
        ensures ok { OnOk result (Puts P.story self.old self.new) }
        ensures err { IfErr result (λ e. (e ≡ error.Lost loss.ByWrite)
            × LosesByWrite P.story self.old self.new) }
    {
        if self.write_and_flush() {
            return Ok(());
        }
        self.end();
        Err(ClientError::Lost(Loss::ByWrite))
    }

    /// Writes all that waits to leave, and sees that it leaves, or says that a write or the flush failed.
    fn write_and_flush(&mut self) -> bool
        ensures all { IsTrue result → Puts P.story self.old self.new }
        ensures fails { result ≡ false → PutsPart P.story self.old self.new }
    {
        if !write_out(&mut self.debugger, &mut self.pipe) {
            return false;
        }
        if !flush_all(&mut self.pipe) {
            return false;
        }
        true
    }

    /// Reads once.
    ///
    /// # Errors
    /// `Lost` where the read failed, or gave 0; then the session is over.
    fn read(&mut self) -> Result<(), ClientError>
        requires room { 0 < room_of self.old.debugger.end }
        requires left { (P.story self.old.pipe).unflushed ≡ [] }
        ensures ok { OnOk result (ReadsOnce P.story self.old self.new) }
        ensures err { IfErr result (λ e. (e ≡ error.Lost loss.ByRead)
            × FailsRead (P.story self.old.pipe) (P.story self.new.pipe)
            × (self.new ≡ ended (moved self.old.debugger self.new.pipe self.old))) }
    {
        match read_and_feed(&mut self.debugger, &mut self.pipe, &mut self.buffer) {
            Ok(()) => Ok(()),
            Err(NoInput) => {
                self.end();
                Err(ClientError::Lost(Loss::ByRead))
            }
        }
    }

    /// The session is over where a turn closed it.
    fn settle(&mut self)
        ensures { self.new ≡ settled self.old }
    {
        if !self.debugger.is_open() {
            self.end();
        }
    }
}
