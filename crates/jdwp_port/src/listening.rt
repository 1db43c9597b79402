//! Ports that debuggers come to.
ghost use Rattle.std.specs.Prelude.{◌≡◌, ◌≢◌, ◌<◌, ◌≤◌, IfErr, IfOk};
ghost use Rattle.jdwp_port.specs.Faults.{EndsAccept, EndsTaking, IsOf, is_gone, is_passing, may_pass};
ghost use Rattle.jdwp_port.specs.Listeners.{IsTaken, port_of};

use crate::connection::address;
use crate::faults::{PortCause, PortFault};
use std::io::ErrorKind;
use std::net::{Net, OpenListener};
use std::rt::Clock;
use std::time::Duration;
use std::{io, thread};

/// A listener, and the port of this machine where it listens.
#[derive(Debug, Drop)]
pub struct PortListener<L> {
    listener: L,
    port: u16,
}

/// What came of a call that was to take a connection.
#[derive(Debug, Drop)]
pub enum Taken<S> {
    /// The next one.
    Stream(S),
    /// None, for a cause that passes.
    Later(PortCause),
}

/// Listens on this port of 127.0.0.1, 1 to 65,535; at 0 the system chooses one.
///
/// # Errors
/// `Port` where the port can't be taken; `NoMemory`.
pub fn bind<R: Net>(net: &R, port: u16) -> Result<PortListener<R::Listener>, PortFault>
    ensures port { IfOk result (λ listener. port ≢ 0 → port_of listener ≡ port) }
    ensures err { IfErr result (IsOf port) }
{
    let listener = match net.bind(address(port)) {
        Ok(listener) => listener,
        Err(error) => return Err(PortFault::of_port(port, error)),
    };
    let bound = match listener.local_addr() {
        Ok(bound) if port == 0 => bound.port(),
        _ => port,
    };
    Ok(PortListener::new(listener, bound))
}

impl<L> PortListener<L> {
    ghost use Rattle.jdwp_port.specs.Listeners.{socket_of};

    /// Of a listener that listens on this port.
    pub fn new(listener: L, port: u16) -> PortListener<L>
        ensures port { port_of result ≡ port }
        ensures socket { socket_of result ≡ listener }
    {
        PortListener { listener, port }
    }

    /// The port on which it listens.
    pub fn port(&self) -> u16
        ensures { result ≡ port_of self.now }
    {
        self.port
    }
}

/// How often a connection is awaited anew at most that was gone before it was taken. No program lives that long.
const TRIES: u64 = u64::MAX;

impl<L: OpenListener> PortListener<L> {
    /// The next connection. It waits for one; one that was gone before it was taken is passed over, and a call that was interrupted is made
    /// again.
    ///
    /// # Errors
    /// `Port` where none can be taken; `NoMemory`.
    pub fn accept(&self) -> Result<L::Stream, PortFault>
        ensures { IfErr result (EndsAccept (port_of self.now)) }
    {
        for _ in 0..TRIES {
            match self.listener.accept() {
                Ok((stream, _)) => return Ok(stream),
                Err(error) if is_gone(error) => {}
                Err(error) => return Err(PortFault::of_port(self.port, error)),
            }
        }
        let error = io::Error::from(ErrorKind::TimedOut);
        Err(PortFault::of_port(self.port, error))
    }

    /// The same by one call, behind so many in a row that found none for a cause that passes.
    ///
    /// # Errors
    /// `Port` or `NoMemory` at a cause that does not pass, or behind too many in a row.
    pub fn take(&self, in_a_row: u32) -> Result<Taken<L::Stream>, PortFault>
        ensures ok { IfOk result (IsTaken in_a_row) }
        ensures err { IfErr result (EndsTaking (port_of self.now) in_a_row) }
    {
        match self.listener.accept() {
            Ok((stream, _)) => Ok(Taken::Stream(stream)),
            Err(error) if may_pass(error, in_a_row) => Ok(Taken::Later(PortCause::of(error))),
            Err(error) => Err(PortFault::of_port(self.port, error)),
        }
    }
}

/// Whether another connection may be taken at once behind this error: the one that came is gone, or the call was interrupted.
fn is_gone(error: io::Error) -> bool
    ensures { result ≡ is_gone error }
{
    match error.kind() {
        ErrorKind::ConnectionAborted | ErrorKind::Interrupted => true,
        _ => false,
    }
}

/// How many calls in a row may find no connection for a cause that passes.
const MOST_IN_A_ROW: u32 = 100;

/// Whether a call may be made again, a little later, behind this error and so many in a row before it.
pub fn may_pass(error: io::Error, in_a_row: u32) -> bool
    ensures { result ≡ may_pass error in_a_row }
{
    is_passing(error) && in_a_row < MOST_IN_A_ROW
}

/// Linux's numbers of the errors that pass: those that accept(2) names as of the network or of the connection that came, which are to be taken
/// as "try again", and those of want, of open files and of memory. EPERM (a rule of the firewall), EINTR, ENOMEM, ENFILE, EMFILE, ENONET,
/// EPROTO, ENOPROTOOPT, EOPNOTSUPP, ENETDOWN, ENETUNREACH, ECONNABORTED, ENOBUFS, EHOSTDOWN, EHOSTUNREACH.
const PASSING: [u32; 15] = [
    1, 4, 12, 23, 24, 64, 71, 92, 95, 100, 101, 103, 105, 112, 113,
];

/// Whether the system told an error that passes.
fn is_passing(error: io::Error) -> bool
    ensures { result ≡ is_passing error }
{
    match error.raw_os_error() {
        Some(number) => PASSING.contains(&number.unsigned_abs()),
        None => false,
    }
}

/// How long the first calls in a row wait behind the one before them, in milliseconds.
const WAITS: [u64; 7] = [10, 20, 40, 80, 160, 320, 640];

/// How long each further one does.
const LONGEST_WAIT: u64 = 1000;

/// Waits a little behind so many calls in a row that found no connection; not at all behind none.
pub fn pause<C: Clock>(clock: &C, in_a_row: u32) {
    let Some(place) = in_a_row.checked_sub(1) else {
        return;
    };
    let millis = match WAITS.get(place as usize) {
        Some(millis) => *millis,
        None => LONGEST_WAIT,
    };
    thread::sleep(clock, Duration::from_millis(millis));
}
