//! Why a client's call did not do what it was called for.
ghost use Rattle.std.specs.Prelude.{◌≡◌};
ghost use Rattle.jdwp_client.specs.declared.errors.ClientError.TheVariants as error;
ghost use Rattle.jdwp_client.specs.Errors.{error_of_refusal};

use jdwp_debugger::{DebuggerFault, Refused, Ticket};
use jdwp_wire::{ErrorCode, NoMemory};
use std::alloc::{AllocError, AllocFailed};
use thiserror::Error;

/// Why a call of a client did not do what it was called for. An error code of the target is none of these: it is an answer.
#[derive(Clone, Copy, Debug, PartialEq, Eq, Error)]
pub enum ClientError {
    /// This debugger refused the command, and nothing was sent for it. Nothing has changed.
    #[error("this debugger refused the command: {0}")]
    Refused(Refused),
    /// No answer is kept under this ticket, and no command waits for one. Nothing has changed.
    #[error("no command waits under this ticket")]
    NotWaiting(Ticket),
    /// Fewer than four more events may be kept, as many as may come at once. Nothing is lost, the session stays open, and events that are
    /// taken make room.
    #[error("so many events are kept that no more is read")]
    TooManyEvents,
    /// The session is over: the target answered Dispose, its machine died, the connection was lost or given up, or this debugger refused
    /// what the target sent.
    #[error("the session is over")]
    Closed,
    /// This debugger refused what the target sent, and the session is over. The commands that waited are lost.
    #[error("this debugger refused what the target sent: {0}")]
    Fault(DebuggerFault),
    /// The connection is lost, and the session is over. The commands that waited are lost.
    #[error("the connection is lost: {0}")]
    Lost(Loss),
    /// What was waited for did not come within the limit of time, the connection is lost so, and the session is over. The commands that
    /// waited are lost.
    #[error("{0} did not come in time, and the session is lost")]
    TooLate(Awaited, Loss),
    /// An allocation was refused. Nothing is lost, and the session stays open.
    #[error("no memory")]
    NoMemory,
    /// 2^64 - 1 steps were made and what was waited for did not come. Nothing is lost, and the session stays open.
    #[error("too many steps")]
    TooManySteps,
}

/// Why no reply was read of what was asked.
#[derive(Clone, Copy, Debug, PartialEq, Eq, Error)]
pub enum ReplyError {
    /// The client's call failed. Where the cause is want of memory, the answer may have come, and was let go then.
    #[error(transparent)]
    Client(#[from] ClientError),
    /// The target answered this error code (JDWP specification, "Error Constants").
    #[error("the target answered with error code {}", .0.0)]
    Target(ErrorCode),
    /// The data of the answer are not in the layout of such a reply.
    #[error("the answer is not in the layout of its reply")]
    Layout,
}

/// What was waited for.
#[derive(Clone, Copy, Debug, PartialEq, Eq, Error)]
pub enum Awaited {
    /// The target's answer to the handshake, and the widths of its ids.
    #[error("the beginning of the session")]
    Beginning,
    /// The answer to the command that was asked.
    #[error("the answer")]
    Reply,
    /// The answer under this ticket.
    #[error("an answer")]
    Answer(Ticket),
    /// A composite.
    #[error("an event")]
    Event,
    /// A composite that has an event of this request.
    #[error("an event of request {0}")]
    EventOf(i32),
}

/// How a connection was lost.
#[derive(Clone, Copy, Debug, PartialEq, Eq, Error)]
pub enum Loss {
    /// A read failed, or gave 0, which is the end of the input. A read that waits no longer than its socket lets it fails so, too.
    #[error("a read failed, or the input ended")]
    ByRead,
    /// A write or a flush failed.
    #[error("a write failed")]
    ByWrite,
}

impl From<AllocError> for ClientError {
    ghost from_gives = { λ _ e. e ≡ error.NoMemory };

    fn from(_error: AllocError) -> ClientError {
        ClientError::NoMemory
    }
}

impl<T: Drop> From<AllocFailed<T>> for ClientError {
    ghost from_gives = { λ _ e. e ≡ error.NoMemory };

    fn from(_error: AllocFailed<T>) -> ClientError {
        ClientError::NoMemory
    }
}

impl From<NoMemory> for ClientError {
    ghost from_gives = { λ _ e. e ≡ error.NoMemory };

    fn from(_error: NoMemory) -> ClientError {
        ClientError::NoMemory
    }
}

impl From<Refused> for ClientError {
    ghost from_gives = { λ refused e. e ≡ error_of_refusal refused };

    fn from(refused: Refused) -> ClientError {
        match refused {
            Refused::Closed => ClientError::Closed,
            Refused::NoMemory => ClientError::NoMemory,
            Refused::NotReady | Refused::Busy | Refused::BadCommand | Refused::TooLong => {
                ClientError::Refused(refused)
            }
        }
    }
}
