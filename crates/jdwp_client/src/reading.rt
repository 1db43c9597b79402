//! Replies that a client reads as structs.
ghost use Rattle.std.specs.Prelude.{IfErr, IfOk};
ghost use Rattle.jdwp_layout.specs.declared.answer.Answer.TheVariants.{Data as Carries};
ghost use Rattle.jdwp_answer.specs.Shaped.{HasItems};

use crate::client::Client;
use crate::errors::{ClientError, ReplyError};
use jdwp_answer::Reply;
use jdwp_debugger::Command;
use jdwp_end::Pipe;
use jdwp_layout::Answer;
use jdwp_wire::NoMemory;

impl<P: Pipe + Drop> Client<P> {
    ghost use Rattle.jdwp_client.specs.Clients.{AsksFor};
    ghost use Rattle.jdwp_client.specs.Replies.{FailsToAskFor};

    /// Asks a command as `ask` does, and reads its reply as a struct, or a list of structs, which says just what the data of the answer say:
    /// `let classes: Vec<ClassEntry> = client.ask_for(command)?`.
    ///
    /// # Errors
    /// `Client` with those of `ask`, and with `NoMemory` where there was none to read what was answered, which is let go then. `Target` where
    /// the answer is an error code. `Layout` where its data are not in the layout of such a reply.
    pub fn ask_for<R: Reply>(&mut self, command: Command) -> Result<R, ReplyError>
        ensures ok { IfOk result (λ reply. AsksFor P.story command self.old (Carries (R.says reply))
            self.new) }
        ensures err { IfErr result (λ e. FailsToAskFor P.story (HasItems R.shape) command self.old e
            self.new) }
    {
        let carried = match self.ask(command) {
            Ok(Answer::Data(carried)) => carried,
            Ok(Answer::Error(code)) => return Err(ReplyError::Target(code)),
            Err(error) => return Err(ReplyError::Client(error)),
        };
        match R::of_data(self.alloc, carried) {
            Ok(Some(reply)) => Ok(reply),
            Ok(None) => Err(ReplyError::Layout),
            Err(NoMemory) => Err(ReplyError::Client(ClientError::NoMemory)),
        }
    }
}
