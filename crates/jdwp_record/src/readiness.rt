//! Waiting for two connections.
use jdwp_relay::Readiness;
use mio::unix::SourceFd;
use mio::{Events, Interest, Poll, Token};
use std::alloc::Global;
use std::io;
use std::io::ErrorKind;
use std::net::Net;
use std::os::fd::AsRawFd;

/// How many events are taken at once at most: those of both connections, and more.
const MOST_EVENTS: usize = 8;

/// Both connections of a session, as far as the system tells when bytes can be moved there. It tells each change once: so the next wait is for
/// changes behind the last reads and writes only if those found nothing to move.
#[derive(Drop)]
pub(crate) struct Watch {
    poll: Poll,
    events: Events,
}

impl Watch {
    /// Of these two connections.
    ///
    /// # Errors
    /// The system's; `OutOfMemory` where there is none for the events.
    pub(crate) fn new<N: Net, S: AsRawFd>(
        net: &N,
        alloc: Global,
        debugger: &S,
        target: &S,
    ) -> io::Result<Watch> {
        let poll = Poll::new(net)?;
        register(&poll, debugger, Token(0))?;
        register(&poll, target, Token(1))?;
        match Events::with_capacity(alloc, MOST_EVENTS) {
            Ok(events) => Ok(Watch { poll, events }),
            Err(_) => Err(io::Error::from(ErrorKind::OutOfMemory)),
        }
    }
}

/// Has what can be read and written at a connection told.
fn register<S: AsRawFd>(poll: &Poll, stream: &S, token: Token) -> io::Result<()> {
    let socket = stream.as_raw_fd();
    let both = Interest::READABLE | Interest::WRITABLE;
    poll.registry()
        .register(&mut SourceFd(&socket), token, both)
}

impl Readiness for Watch {
    fn wait(&mut self) -> io::Result<()> {
        match self.poll.poll(&mut self.events, None) {
            Err(error) if error.kind() == ErrorKind::Interrupted => Ok(()),
            waited => waited,
        }
    }
}
