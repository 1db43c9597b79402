//! The halves of a connection.

use crate::limit::Limit;
use std::io;
use std::io::{ErrorKind, Read, Write};
use std::net::OpenStream;
use std::rc::Rc;
use std::rt::Clock;
use std::time::Duration;

/// A half of a connection that waits no longer than the limit of both lets it. Without one, nothing is asked of the clock.
#[derive(Drop)]
pub(crate) struct Half<'c, S, C> {
    stream: S,
    clock: &'c C,
    limit: Rc<Limit>,
    /// Whether its socket has a time within which its calls return.
    is_timed: bool,
}

impl<'c, S, C> Half<'c, S, C> {
    pub fn new(stream: S, clock: &'c C, limit: Rc<Limit>) -> Half<'c, S, C> {
        Half {
            stream,
            clock,
            limit,
            is_timed: false,
        }
    }
}

/// Whether a call that might wait for so long failed since it waited so long: then it is made again, which looks first whether the time is over.
fn is_over(error: io::Error, left: Option<Duration>) -> bool {
    left.is_some() && error.kind() == ErrorKind::WouldBlock
}

impl<S: Read + OpenStream, C: Clock> Read for Half<'_, S, C> {
    fn read(&mut self, buffer: &mut [u8]) -> io::Result<usize> {
        let left = self.limit.left(self.clock)?;
        if left.is_some() || self.is_timed {
            self.stream.set_read_timeout(left)?;
            self.is_timed = left.is_some();
        }
        match self.stream.read(buffer) {
            Err(error) if is_over(error, left) => Err(io::Error::from(ErrorKind::Interrupted)),
            read => read,
        }
    }
}

impl<S: Write + OpenStream, C: Clock> Write for Half<'_, S, C> {
    fn write(&mut self, bytes: &[u8]) -> io::Result<usize> {
        let left = self.limit.left(self.clock)?;
        if left.is_some() || self.is_timed {
            self.stream.set_write_timeout(left)?;
            self.is_timed = left.is_some();
        }
        match self.stream.write(bytes) {
            Err(error) if is_over(error, left) => Err(io::Error::from(ErrorKind::Interrupted)),
            written => written,
        }
    }

    fn flush(&mut self) -> io::Result<()> {
        self.stream.flush()
    }
}
