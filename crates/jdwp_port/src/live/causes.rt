//! Why the connection of a live session failed.
use crate::faults::PortCause;
use thiserror::Error;

/// Why the connection of a live session failed.
#[derive(Clone, Copy, Debug, Error)]
pub enum LiveCause {
    /// The handshake was not done 2 seconds behind the beginning of the connection.
    #[error("no handshake came within 2 seconds")]
    NoHandshake,
    /// A call of the system failed so.
    #[error("{0}")]
    Port(PortCause),
}
