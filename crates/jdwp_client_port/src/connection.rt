//! A connection as a pipe.
ghost use Rattle.std.specs.Prelude.{◌≡◌, ◌≤◌, length, IfOk};
ghost use Rattle.jdwp_end.specs.Story.{after_flush, after_read, after_write, empty_story};
ghost use Rattle.jdwp_client_port.specs.Connections.{story_of};

use crate::half::Half;
use crate::limit::Limit;
use jdwp_client::LimitedPipe;
use jdwp_end::{Pipe, Streams};
use std::alloc::Global;
use std::io;
use std::io::{ErrorKind, Read, Write};
use std::net::OpenStream;
use std::rc::Rc;
use std::rt::Clock;

/// A connection as a pipe. What is written leaves at once: neither this layer nor the system gathers bytes. It is closed where it is dropped.
///
/// Its limit of time goes by the clock.
#[derive(Drop)]
pub struct Connection<'c, S, C> {
    streams: Streams<Half<'c, S, C>, Half<'c, S, C>>,
    clock: &'c C,
    limit: Rc<Limit>,
}

impl<'c, S: Read + Write + OpenStream + Drop, C: Clock> Connection<'c, S, C> {
    /// Of a stream, without a limit.
    ///
    /// # Errors
    /// The system's, where it gives no second half; `OutOfMemory` where an allocation was refused.
    pub fn new(alloc: Global, clock: &'c C, stream: S) -> io::Result<Connection<'c, S, C>>
        ensures { IfOk result (λ connection. story_of connection ≡ empty_story) }
    {
        // Where the system refuses this, what is written leaves later, and nothing else is different.
        let _ = stream.set_nodelay(true);
        let second = stream.try_clone()?;
        let limit = shared_limit(alloc)?;
        let reader = Half::new(second, clock, share(&limit)?);
        let writer = Half::new(stream, clock, share(&limit)?);
        Ok(Connection {
            streams: Streams::new(reader, writer),
            clock,
            limit,
        })
    }
}

/// A limit that both halves see; there is none at first.
fn shared_limit(alloc: Global) -> io::Result<Rc<Limit>> {
    match Rc::new(alloc, Limit::none()) {
        Ok(limit) => Ok(limit),
        Err(_) => Err(io::Error::from(ErrorKind::OutOfMemory)),
    }
}

/// The same limit, once more.
fn share(limit: &Rc<Limit>) -> io::Result<Rc<Limit>> {
    match limit.clone() {
        Ok(limit) => Ok(limit),
        Err(_) => Err(io::Error::from(ErrorKind::OutOfMemory)),
    }
}

impl<'c, S: Read + Write + OpenStream + Drop, C: Clock> Pipe for Connection<'c, S, C> {
    ghost story = { story_of };

    fn read(&mut self, buffer: &mut [u8]) -> io::Result<usize>
        ensures within { IfOk result (λ n. n ≤ length buffer.new) }
        ensures story { story_of self.new ≡ after_read (story_of self.old) result buffer.new }
    {
        self.streams.read(buffer)
    }

    fn write(&mut self, bytes: &[u8]) -> io::Result<usize>
        ensures within { IfOk result (λ n. n ≤ length bytes.now) }
        ensures story { story_of self.new ≡ after_write (story_of self.old) result bytes.now }
    {
        self.streams.write(bytes)
    }

    fn flush(&mut self) -> io::Result<()>
        ensures { story_of self.new ≡ after_flush (story_of self.old) result }
    {
        self.streams.flush()
    }
}

impl<'c, S: Read + Write + OpenStream + Drop, C: Clock> LimitedPipe for Connection<'c, S, C> {
    fn limit(&mut self, milliseconds: Option<u64>)
        ensures { story_of self.new ≡ story_of self.old }
    {
        self.limit.set(self.clock, milliseconds);
    }

    fn is_late(&self) -> bool {
        self.limit.is_late()
    }
}
