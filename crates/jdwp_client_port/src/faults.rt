//! Why there is no connection.

use std::io;
use std::net::SocketAddr;
use thiserror::Error;

/// Why a client has no connection to a target.
#[derive(Clone, Copy, Debug, Error)]
pub enum ConnectFault {
    /// The text is no address, or the name has none, and why.
    #[error("no such address: {0}")]
    Unknown(io::Error),
    /// This address can't be reached, or gives no connection, and why; of several addresses of a name it is the last that was tried.
    #[error("{0}: {1}")]
    Unreachable(SocketAddr, io::Error),
    /// An allocation was refused.
    #[error("no memory")]
    NoMemory,
}
