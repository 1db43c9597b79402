//! Why nothing more is recorded.
ghost use Rattle.std.specs.Prelude.{◌≡◌};

use jdwp_port::{PortCause, PortFault};
use jdwp_relay::RelayFault;
use std::io;
use thiserror::Error;

/// Why a session was not recorded to its end.
#[derive(Clone, Copy, Debug, Error)]
pub enum SessionFault {
    /// A connection can't be used, before any byte was handed on.
    #[error("{0}")]
    Connection(io::Error),
    /// The capture can't be written, or it can't be awaited that bytes can be moved.
    #[error("{0}")]
    Relay(RelayFault),
    /// An allocation was refused, before any byte was handed on.
    #[error("no memory")]
    NoMemory,
}

/// Why no further session is recorded.
#[derive(Debug, Drop, Error)]
pub enum RecordFault {
    /// Debuggers can't be awaited at this port, or it gives no connection, and why.
    #[error("port {0}: {1}")]
    Port(u16, PortCause),
    /// The file of this name can't be made.
    #[error("{0}: can't be made: {1}")]
    NoFile(String, io::Error),
    /// The file of this name can't be written. No byte was handed on whose line is not written.
    #[error("{0}: can't be written: {1}")]
    Unwritten(String, io::Error),
    /// It can't be awaited that bytes of a session can be moved.
    #[error("it can't be awaited that bytes can be moved: {0}")]
    Waiting(io::Error),
    /// An allocation was refused.
    #[error("no memory")]
    NoMemory,
}

impl RecordFault {
    ghost use Rattle.jdwp_record.specs.Faults.{broken_off};

    /// Of a session that is recorded in the file of this name and was broken off for this cause.
    pub fn broken_off(file: String, fault: RelayFault) -> RecordFault
        ensures { result ≡ broken_off file fault }
    {
        match fault {
            RelayFault::Capture(error) => RecordFault::Unwritten(file, error),
            RelayFault::Waiting(error) => RecordFault::Waiting(error),
        }
    }
}

impl From<PortFault> for RecordFault {
    ghost use Rattle.jdwp_record.specs.Faults.{fault_of_port};

    ghost from_gives = { λ p f. f ≡ fault_of_port p };

    fn from(error: PortFault) -> RecordFault {
        match error {
            PortFault::Port(port, cause) => RecordFault::Port(port, cause),
            PortFault::NoMemory => RecordFault::NoMemory,
        }
    }
}
