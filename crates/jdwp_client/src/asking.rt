//! Commands that a client asks.

ghost use Rattle.std.specs.Prelude.{◌≡◌, [], IfErr, IfOk};
ghost use Rattle.jdwp_client.specs.declared.errors.ClientError.TheVariants as error;
ghost use Rattle.jdwp_client.specs.declared.errors.Loss.TheVariants as loss;

use crate::client::Client;
use crate::errors::ClientError;
use jdwp_command::virtual_machine;
use jdwp_debugger::{Command, Ticket};
use jdwp_end::Pipe;
use jdwp_layout::Answer;

impl<P: Pipe + Drop> Client<P> {
    ghost use Rattle.jdwp_client.specs.Clients.{AsksFor, Enqueues, FailsToAsk, FailsToSend, LosesByWrite, Puts, Sends};
    ghost use Rattle.jdwp_command.specs.Asks.{command_with};
    ghost use Rattle.jdwp_layout.specs.CommandNumbers.{DISPOSE};

    /// Sends a command: its packet is written behind all that waits to leave, and has left. The answer comes under the ticket.
    ///
    /// # Errors
    /// `Refused` with this debugger's refusal, `Closed` where no session is open, and `NoMemory`: nothing has changed, and nothing was sent.
    /// `Lost` where a write or a flush failed; then the session is over.
    pub fn send(&mut self, command: Command) -> Result<Ticket, ClientError>
        ensures ok { IfOk result (λ ticket. Sends P.story command ticket.0 self.old self.new) }
        ensures err { IfErr result (λ e. FailsToSend P.story command self.old e self.new) }
    {
        match self.enqueue(command) {
            Ok(ticket) => self.put_under(ticket),
            Err(error) => Err(error),
        }
    }

    /// Puts a command: its packet is to leave.
    ///
    /// # Errors
    /// As those of `send`, but for `Lost`.
    fn enqueue(&mut self, command: Command) -> Result<Ticket, ClientError>
        ensures ok { IfOk result (λ ticket. Enqueues command ticket.0 self.old self.new) }
        ensures err { IfErr result (λ e. FailsToSend P.story command self.old e self.new) }
    {
        let ticket = self.debugger.ask(self.alloc, command)?;
        self.sent = Some(ticket);
        self.kept.waiters.push(ticket);
        Ok(ticket)
    }

    /// Sees that all leaves that was put, the command under this ticket last.
    ///
    /// # Errors
    /// `Lost` where a write or a flush failed; then the session is over.
    fn put_under(&mut self, ticket: Ticket) -> Result<Ticket, ClientError>
        ensures ok { IfOk result (λ given. (given ≡ ticket) × Puts P.story self.old self.new) }
        ensures err { IfErr result (λ e. (e ≡ error.Lost loss.ByWrite)
            × LosesByWrite P.story self.old self.new) }
    {
        match self.put() {
            Ok(()) => Ok(ticket),
            Err(error) => Err(error),
        }
    }

    /// Asks a command: sends it, and waits for its answer. Composites and answers of other tickets that come before it are kept, in order.
    ///
    /// # Errors
    /// Those of `send`; else those of `next_event`: then the command was sent, and where the session stays open its answer may be waited for
    /// under the ticket that `sent` gives.
    pub fn ask(&mut self, command: Command) -> Result<Answer, ClientError>
        ensures ok { IfOk result (λ answer. AsksFor P.story command self.old answer self.new) }
        ensures err { IfErr result (λ e. FailsToAsk P.story command self.old e self.new) }
    {
        match self.send(command) {
            Ok(ticket) => self.wait_on(ticket),
            Err(error) => Err(error),
        }
    }

    /// Asks the target to dispose of the session. Where its answer is no error, the session is over.
    ///
    /// # Errors
    /// Those of `ask`.
    pub fn dispose(&mut self) -> Result<Answer, ClientError>
        ensures ok { IfOk result (λ answer. AsksFor P.story (command_with DISPOSE []) self.old answer
            self.new) }
        ensures err { IfErr result (λ e. FailsToAsk P.story (command_with DISPOSE []) self.old e
            self.new) }
    {
        self.ask(virtual_machine::dispose(self.allocator()))
    }
}
