//! Why a port can't be used.
ghost use Rattle.jdwp_port.specs.Faults.{IsCauseOf, IsFaultOf};

use std::io;
use std::io::ErrorKind;
use thiserror::Error;

/// Why no session is held on a port, or no further one.
#[derive(Clone, Copy, Debug, Error)]
pub enum PortFault {
    /// This port can't be listened on or reached, or gives no connection, and why.
    #[error("port {0}: {1}")]
    Port(u16, PortCause),
    /// An allocation was refused.
    #[error("no memory")]
    NoMemory,
}

/// Why a port can't be used.
#[derive(Clone, Copy, Debug, Error)]
pub enum PortCause {
    /// Nobody listens there.
    #[error("connection refused")]
    Refused,
    /// Somebody listens there already.
    #[error("address in use")]
    InUse,
    /// The system doesn't allow it.
    #[error("not allowed")]
    NotAllowed,
    /// Another cause, as the system tells it.
    #[error("{0}")]
    Other(io::Error),
}

impl PortFault {
    /// Of this port, at which a call of the system failed so. Want of memory is told alone.
    pub fn of_port(port: u16, error: io::Error) -> PortFault
        ensures { IsFaultOf port error result }
    {
        match error.kind() {
            ErrorKind::OutOfMemory => PortFault::NoMemory,
            _ => PortFault::Port(port, PortCause::of(error)),
        }
    }
}

impl PortCause {
    /// The cause that this error of the system is.
    pub fn of(error: io::Error) -> PortCause
        ensures { IsCauseOf error result }
    {
        match error.kind() {
            ErrorKind::ConnectionRefused => PortCause::Refused,
            ErrorKind::AddrInUse => PortCause::InUse,
            ErrorKind::PermissionDenied => PortCause::NotAllowed,
            _ => PortCause::Other(error),
        }
    }
}
