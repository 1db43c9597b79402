//! A connection of this machine to itself.
ghost use Rattle.std.specs.Prelude.{◌≡◌, ◌≤◌, IfOk, None, false, length, take, refl};
ghost use Rattle.jdwp_link.specs.Ways.{nothing_carried, with_carried};
ghost use Rattle.jdwp_pair.specs.Loopbacks.{carried_by, failure_of, has_failed};

use crate::connection::Connection;
use jdwp_link::{Memory, Side, Way};
use jdwp_port::{PortFault, PortListener, bind, connect};
use std::io;
use std::io::{ErrorKind, Read, Write};
use std::net::{Net, OpenListener, OpenStream};

/// How many bytes are under way at most.
const PIECE: usize = 4_096;

/// How many connections are taken at most until the one that was made is among them.
const MOST_TAKEN: u32 = 16;

/// A connection of this machine to itself, 127.0.0.1: a new one for each session, at a port that the system chooses.
///
/// A piece is written at one end and read at the other before the next one is, so no call waits for another process, and none needs a thread.
/// Both ends are of one connection: where a stranger comes to the port first it is let go, and the next one is taken.
#[derive(Drop)]
pub struct Loopback<'a, R: Net> {
    net: &'a R,
    /// The port of the last connection that was made, or tried; 0 before the first.
    port: u16,
    /// The target's stream, until it lost the connection.
    target: Option<R::Stream>,
    /// The debugger's.
    debugger: Option<R::Stream>,
    /// What was read of a piece.
    read: [u8; PIECE],
    /// What was read at each end; only contracts see it.
    carried: Memory,
    /// The first failure.
    failure: Option<PortFault>,
}

impl<'a, R: Net> Loopback<'a, R> {
    /// Before the first connection, which `attach` makes.
    pub fn new(net: &'a R) -> Loopback<'a, R>
        ensures failure { failure_of result ≡ None }
        ensures carried { carried_by result ≡ nothing_carried }
    {
        Loopback {
            net,
            port: 0,
            target: None,
            debugger: None,
            read: [0; PIECE],
            carried: Memory::new(),
            failure: None,
        }
    }

    /// Makes a new connection.
    ///
    /// # Errors
    /// `Port` where the system gives none, or where strangers alone come to its port; `NoMemory`.
    fn join(&mut self) -> Result<(), PortFault> {
        let listener = bind(self.net, 0)?;
        self.port = listener.port();
        let debugger = connect(self.net, self.port)?;
        let target = accept_own(&listener, &debugger)?;
        for stream in [&debugger, &target] {
            // Where the system refuses this, what is written leaves later, and nothing else is different.
            let _ = stream.set_nodelay(true);
        }
        self.debugger = Some(debugger);
        self.target = Some(target);
        Ok(())
    }

    /// Carries nothing where an end lost its half; a piece that has bytes is a failure.
    fn carry_nowhere(&mut self, from: Side, piece: &[u8])
        requires { length piece.now ≤ 4096 }
        ensures { has_failed self.new ≡ false → carried_by self.new
            ≡ with_carried from piece.now (carried_by self.old) }
    {
        if piece.is_empty() {
            self.carried.carry(from, piece);
        } else {
            let error = io::Error::from(ErrorKind::NotConnected);
            self.failure = Some(PortFault::of_port(self.port, error));
        }
    }

    /// Keeps the first failure.
    fn fail(&mut self, fault: PortFault) {
        if self.failure.is_none() {
            self.failure = Some(fault);
        }
    }
}

impl<'a, R: Net> Way for Loopback<'a, R> {
    ghost story = { carried_by };

    ghost has_failed = { has_failed };

    fn carry(&mut self, from: Side, piece: &[u8]) {
        if self.failure.is_some() {
            return;
        }
        let (Some(target), Some(debugger)) = (&mut self.target, &mut self.debugger) else {
            self.carry_nowhere(from, piece);
            return;
        };
        let passed = match from {
            Side::Target => pass(target, debugger, piece, &mut self.read),
            Side::Debugger => pass(debugger, target, piece, &mut self.read),
        };
        match passed {
            Ok(()) => self.carried.carry(from, &self.read[..piece.len()]),
            Err(error) => self.failure = Some(PortFault::of_port(self.port, error)),
        }
    }
}

impl<'a, R: Net> Connection for Loopback<'a, R> {
    ghost failed_by = { failure_of };

    fn failure(&self) -> Option<PortFault> {
        self.failure
    }

    fn lose(&mut self, side: Side) {
        match side {
            Side::Target => self.target = None,
            Side::Debugger => self.debugger = None,
        }
    }

    fn attach(&mut self) {
        self.target = None;
        self.debugger = None;
        if let Err(fault) = self.join() {
            self.fail(fault);
        }
    }

    ghost fails_so = { λ loopback. refl };
}

/// The listener's end of the connection that was made to it. A stranger that came before is let go.
///
/// # Errors
/// `Port` where the system tells no address or takes no connection, or where strangers alone came; `NoMemory`.
fn accept_own<L: OpenListener>(
    listener: &PortListener<L>,
    own: &L::Stream,
) -> Result<L::Stream, PortFault>
where
    L::Stream: OpenStream,
{
    let address = match own.local_addr() {
        Ok(address) => address,
        Err(error) => return Err(PortFault::of_port(listener.port(), error)),
    };
    for _ in 0..MOST_TAKEN {
        let stream = listener.accept()?;
        match stream.peer_addr() {
            Ok(peer) if peer == address => return Ok(stream),
            _ => {}
        }
    }
    let error = io::Error::from(ErrorKind::TimedOut);
    Err(PortFault::of_port(listener.port(), error))
}

/// Writes a piece at one end and reads as many bytes at the other, which are the same then.
///
/// # Errors
/// The system's; `InvalidData` where other bytes were read.
fn pass<S: Read + Write>(
    from: &mut S,
    to: &mut S,
    piece: &[u8],
    buffer: &mut [u8; PIECE],
) -> io::Result<()>
    requires { length piece.now ≤ 4096 }
    ensures { IfOk result (λ _. take (length piece.now) buffer.new ≡ piece.now) }
{
    from.write_all(piece)?;
    from.flush()?;
    let read = &mut buffer[..piece.len()];
    to.read_exact(read)?;
    if *read == *piece {
        Ok(())
    } else {
        Err(io::Error::from(ErrorKind::InvalidData))
    }
}
