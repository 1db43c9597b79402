//! One session over two connections.
ghost use Rattle.std.specs.Prelude.{◌≡◌};
ghost use Rattle.jdwp_record.specs.Faults.{IsBrokenOff};

use crate::faults::{RecordFault, SessionFault};
use crate::readiness::Watch;
use crate::streams::{ReadHalf, WriteHalf};
use jdwp_relay::{Capture, Halves, Relay, RelayFault};
use std::alloc::Global;
use std::io;
use std::io::{ErrorKind, Read, Write};
use std::net::{Net, OpenStream};
use std::os::fd::AsRawFd;

/// Both halves of a connection that does not wait.
type StreamHalves<S> = Halves<ReadHalf<S>, WriteHalf<S>>;

/// A session between a debugger and a target that was not begun yet.
#[derive(Drop)]
pub(crate) struct Session<S> {
    debugger: StreamHalves<S>,
    target: StreamHalves<S>,
    watch: Watch,
    relay: Relay,
}

impl<S: Read + Write + OpenStream + AsRawFd + Drop> Session<S> {
    /// Over these two connections, whose reads and writes wait no more from now on, and which send at once what is written.
    ///
    /// # Errors
    /// The system's, where it refuses what is asked of it; `OutOfMemory`.
    pub(crate) fn new<N: Net>(
        alloc: Global,
        net: &N,
        debugger: S,
        target: S,
    ) -> io::Result<Session<S>> {
        let watch = Watch::new(net, alloc, &debugger, &target)?;
        let debugger = halves(debugger)?;
        let target = halves(target)?;
        match Relay::new(alloc) {
            Ok(relay) => Ok(Session {
                debugger,
                target,
                watch,
                relay,
            }),
            Err(_) => Err(io::Error::from(ErrorKind::OutOfMemory)),
        }
    }

    /// Hands on what both ends send until both are done, and writes it down before as this capture. Then both connections are closed.
    ///
    /// # Errors
    /// `Capture` where the capture can't be written; `Waiting` where no wait succeeds.
    fn run<W: Write>(mut self, capture: &mut Capture<W>) -> Result<(), RelayFault> {
        self.relay.run(
            &mut self.debugger,
            &mut self.target,
            capture,
            &mut self.watch,
        )
    }

    /// The same for one turn in both directions. Whether the session goes on.
    ///
    /// # Errors
    /// As those of `run`.
    fn step<W: Write>(&mut self, capture: &mut Capture<W>) -> Result<bool, RelayFault> {
        self.relay.step(
            &mut self.debugger,
            &mut self.target,
            capture,
            &mut self.watch,
        )
    }
}

/// A session between a debugger and a target that is recorded in a file.
#[derive(Drop)]
pub struct Recording<S, W> {
    session: Session<S>,
    capture: Capture<W>,
    /// The name of the file.
    file: String,
}

impl<S: Read + Write + OpenStream + AsRawFd + Drop, W: Write + Drop> Recording<S, W> {
    /// This session, in the file of this name, to which its capture is written.
    pub(crate) fn new(
        alloc: Global,
        session: Session<S>,
        writer: W,
        file: String,
    ) -> Recording<S, W> {
        Recording {
            session,
            capture: Capture::new(alloc, writer),
            file,
        }
    }

    /// Hands on what both ends send, unchanged, until both are done, and writes it down as a capture, each line before its bytes are handed on.
    /// Then both connections are closed.
    ///
    /// # Errors
    /// `Unwritten` where the capture can't be written, and `Waiting` where no wait succeeds. The capture has each byte that was handed on.
    pub fn run(self) -> Result<(), RecordFault> {
        let Recording {
            session,
            mut capture,
            file,
        } = self;
        match session.run(&mut capture) {
            Ok(()) => Ok(()),
            Err(fault) => Err(RecordFault::broken_off(file, fault)),
        }
    }

    /// One turn of the same: bytes are moved at most once in each direction. Where none could be moved and the session is not over, it waits until
    /// some can. Whether the session goes on.
    ///
    /// # Errors
    /// `Capture` where the capture can't be written, and `Waiting` where no wait succeeds (`broken_off`). The session is of no use any more.
    pub fn step(&mut self) -> Result<bool, RelayFault> {
        self.session.step(&mut self.capture)
    }

    /// The lines of the capture that the last turn wrote.
    pub fn fresh(&self) -> &[u8] {
        self.capture.fresh()
    }

    /// The session was broken off for this cause: both connections are closed. The capture has each byte that was handed on.
    pub fn broken_off(self, fault: RelayFault) -> RecordFault
        ensures { IsBrokenOff fault result }
    {
        RecordFault::broken_off(self.file, fault)
    }
}

/// Both halves of a connection, which does not wait from now on. What is written leaves at once: the system does not wait for more.
fn halves<S: Read + Write + OpenStream + Drop>(stream: S) -> io::Result<StreamHalves<S>> {
    // Where the system refuses this, what is written leaves later, and nothing else is different.
    let _ = stream.set_nodelay(true);
    stream.set_nonblocking(true)?;
    let reader = stream.try_clone()?;
    Ok(Halves {
        source: ReadHalf::new(reader),
        sink: WriteHalf::new(stream),
    })
}

/// Hands on what a debugger and a target send over these two connections, unchanged and both ways, until both are done, and writes it down as a
/// capture on this writer, each line before its bytes are handed on. Half-closes and resets are handed on as such, behind the bytes before
/// them. Then both connections are closed.
///
/// # Errors
/// `Connection` and `NoMemory` before any byte was handed on; `Relay` where the capture can't be written, or no wait succeeds.
pub fn record_streams<N, S, W>(
    alloc: Global,
    net: &N,
    debugger: S,
    target: S,
    writer: W,
) -> Result<(), SessionFault>
where
    N: Net,
    S: Read + Write + OpenStream + AsRawFd + Drop,
    W: Write + Drop,
{
    let session = match Session::new(alloc, net, debugger, target) {
        Ok(session) => session,
        Err(error) if error.kind() == ErrorKind::OutOfMemory => return Err(SessionFault::NoMemory),
        Err(error) => return Err(SessionFault::Connection(error)),
    };
    match session.run(&mut Capture::new(alloc, writer)) {
        Ok(()) => Ok(()),
        Err(fault) => Err(SessionFault::Relay(fault)),
    }
}
