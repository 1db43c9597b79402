//! Why a turn failed.
ghost use Rattle.std.specs.Prelude.{◌≡◌};
ghost use Rattle.jdwp_debugger.specs.declared.faults.DebuggerFault.TheVariants as fault;
ghost use Rattle.jdwp_debugger.specs.FaultNumbers.{fault_number};

use jdwp_wire::{FrameFault, NoMemory};
use std::alloc::{AllocError, AllocFailed};
use thiserror::Error;

/// Why a turn of a debugger failed. Each but want of memory closes the session.
#[derive(Clone, Copy, Debug, PartialEq, Eq, Error)]
pub enum DebuggerFault {
    /// The bytes in front begin no message.
    #[error("{0}")]
    Frame(FrameFault),
    /// A reply under an id under which no command waits.
    #[error("fault 42: a reply to no command that waits")]
    UnknownReply,
    /// A reply without an error whose data do not read, or with a negative suspend count; one with an error and data, where the order is `One`; one to IDSizes
    /// with an error, or with a width outside 1 to 8.
    #[error("fault 43: a reply whose data do not read, or an error reply with data")]
    BadReply,
    /// A fifth composite before the widths of ids are known.
    #[error("fault 44: more composites than may wait for the widths of ids")]
    TooManyParked,
    /// A command that is no composite, or a composite that no target may send.
    #[error("fault 45: events that don't fit the suspend counts known, or another command")]
    BadEvent,
    /// An allocation was refused. Nothing changed.
    #[error("no memory")]
    NoMemory,
}

impl DebuggerFault {
    /// The number of the fault, 41 to 46.
    pub fn number(self) -> u16
        ensures { result ≡ fault_number self }
    {
        match self {
            DebuggerFault::Frame(_) => 41,
            DebuggerFault::UnknownReply => 42,
            DebuggerFault::BadReply => 43,
            DebuggerFault::TooManyParked => 44,
            DebuggerFault::BadEvent => 45,
            DebuggerFault::NoMemory => 46,
        }
    }
}

impl From<NoMemory> for DebuggerFault {
    ghost from_gives = { λ _ e. e ≡ fault.NoMemory };

    fn from(_error: NoMemory) -> DebuggerFault {
        DebuggerFault::NoMemory
    }
}

impl From<AllocError> for DebuggerFault {
    ghost from_gives = { λ _ e. e ≡ fault.NoMemory };

    fn from(_error: AllocError) -> DebuggerFault {
        DebuggerFault::NoMemory
    }
}

impl<T: Drop> From<AllocFailed<T>> for DebuggerFault {
    ghost from_gives = { λ _ e. e ≡ fault.NoMemory };

    fn from(_error: AllocFailed<T>) -> DebuggerFault {
        DebuggerFault::NoMemory
    }
}
