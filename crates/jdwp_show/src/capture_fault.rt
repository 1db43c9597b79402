//! Why a capture is not the beginning of a session.
ghost use Rattle.std.specs.Prelude.{◌≡◌};
ghost use Rattle.jdwp_show.specs.FaultNumbers.{capture_fault_number, number_to_print};

use jdwp_wire::{DataFault, FrameFault};
use thiserror::Error;

/// The first fault of a capture.
#[derive(Clone, Copy, Debug, PartialEq, Eq, Error)]
pub enum CaptureFault {
    /// A line that is not `> ` or `< ` and the hex digits of at least one byte.
    #[error("fault 51: not a line of a capture")]
    BadLine,
    /// The bytes of one end, as far as they go, begin no message.
    #[error("fault 52: {0}")]
    Frame(FrameFault),
    /// A command of the debugger with the id of a command that waits for its reply.
    #[error("fault 53: the id of a command that waits for its reply")]
    IdInUse,
    /// A reply of the target with an id that no command waits under.
    #[error("fault 54: a reply to no command")]
    UnknownReply,
    /// The data of a packet do not read by the layout of its command.
    #[error("fault 55: {0}")]
    BadData(DataFault),
    /// A reply with an error code that has data.
    #[error("fault 55: data in a reply with an error")]
    ErrorWithData,
    /// A message that this end does not send, or not yet: a reply or a command of a set above 63 from the debugger, a
    /// command other than Event.Composite from the target, the target's handshake before the debugger's.
    #[error("fault 56: a message of the other end")]
    WrongWay,
}

impl CaptureFault {
    /// The number of the fault, 51 to 56.
    pub fn number(self) -> u16
        ensures { result ≡ capture_fault_number self }
    {
        match self {
            CaptureFault::BadLine => 51,
            CaptureFault::Frame(_) => 52,
            CaptureFault::IdInUse => 53,
            CaptureFault::UnknownReply => 54,
            CaptureFault::BadData(_) | CaptureFault::ErrorWithData => 55,
            CaptureFault::WrongWay => 56,
        }
    }

    /// The number that programs print: that of the fault inside, where there is one.
    pub fn printed_number(self) -> u16
        ensures { result ≡ number_to_print self }
    {
        match self {
            CaptureFault::Frame(fault) => fault.number(),
            CaptureFault::BadData(fault) => fault.number(),
            fault => fault.number(),
        }
    }
}
