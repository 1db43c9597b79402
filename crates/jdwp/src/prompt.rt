//! Standard error on which nothing waits.
use libc::net::{POLLOUT, poll};
use libc::types::pollfd;
use std::io;
use std::io::{ErrorKind, Write};

/// The number that the system has for standard error.
const STANDARD_ERROR: i32 = 2;

/// So many bytes a pipe takes at once that is not full (PIPE_BUF of Linux).
const TAKEN_AT_ONCE: usize = 4096;

/// A writer on standard error that never waits until who reads there reads on: so a server goes on with its sessions though nobody reads
/// what it tells.
#[derive(Drop)]
pub(crate) struct Prompt<W> {
    err: W,
}

impl<W> Prompt<W> {
    /// Over what writes on standard error.
    pub(crate) fn new(err: W) -> Prompt<W> {
        Prompt { err }
    }
}

impl<W: Write> Write for Prompt<W> {
    /// Writes at most 4,096 bytes. `WouldBlock` where standard error takes nothing now.
    fn write(&mut self, bytes: &[u8]) -> io::Result<usize> {
        if !takes_now(STANDARD_ERROR) {
            return Err(io::Error::from(ErrorKind::WouldBlock));
        }
        let count = bytes.len().min(TAKEN_AT_ONCE);
        self.err.write(&bytes[..count])
    }

    fn flush(&mut self) -> io::Result<()> {
        self.err.flush()
    }
}

/// Whether a write on this descriptor does not wait: something is taken now, or it fails at once.
fn takes_now(descriptor: i32) -> bool {
    let mut asked = [pollfd {
        fd: descriptor,
        events: POLLOUT,
        revents: 0,
    }];
    poll(&mut asked, 0) != 0
}
