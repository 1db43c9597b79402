//! Where a session was lost.
use jdwp_port::PortCause;
use std::io;
use thiserror::Error;

/// A file of a session as it was named, and the error at which a call on it failed, if one did.
#[derive(Clone, Copy, Debug)]
pub struct Side<'a> {
    pub path: &'a str,
    pub failure: Option<io::Error>,
}

/// Where a session was lost.
#[derive(Clone, Copy, Debug, Error)]
pub enum Loss<'a> {
    /// The file that is read ended before the session did.
    #[error("{0}: the file ended before the session did")]
    FileEnded(&'a str),
    /// The file can't be read.
    #[error("{0}: can't be read: {1}")]
    Unread(&'a str, io::Error),
    /// The file can't be written.
    #[error("{0}: can't be written: {1}")]
    Unwritten(&'a str, io::Error),
    /// The other end closed the connection at this port.
    #[error("port {0}: the connection ended before the session did")]
    PortEnded(u16),
    /// The connection at this port failed, and why.
    #[error("port {0}: {1}")]
    Port(u16, PortCause),
    /// Nothing came from the connection at this port for so many milliseconds.
    #[error("port {0}: nothing came for {1} ms")]
    Silent(u16, u32),
    /// The output can't be written.
    #[error("the output can't be written: {0}")]
    Output(io::Error),
    /// Who reads the output went away.
    #[error("who reads the output went away")]
    ReaderGone,
}
