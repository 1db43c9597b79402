//! Connections to targets.
ghost use Rattle.std.specs.Prelude.{IfOk};
ghost use Rattle.jdwp_client_port.specs.Connections.{IsBegun};

use crate::connection::Connection;
use crate::faults::ConnectFault;
use jdwp_client::{Client, Options};
use std::alloc::Global;
use std::io;
use std::io::ErrorKind;
use std::net::{Net, SocketAddr, ToSocketAddrs};
use std::rt::Clock;

/// A client whose session begins at this address, such as `"127.0.0.1:8000"`, `("::1", 8000)` or `"host.example:8000"`. Where a name has several
/// addresses, they are tried one after the other. Nothing is written or read yet.
///
/// # Errors
/// `Unknown` where that is no address, or the name has none; `Unreachable` where none of its addresses gives a connection, with the system's
/// cause at the last of them; `NoMemory`.
pub fn connect<'c, N, C, A>(
    alloc: Global,
    net: &N,
    clock: &'c C,
    address: A,
    options: Options,
) -> Result<Client<Connection<'c, N::Stream, C>>, ConnectFault>
where
    N: Net,
    C: Clock,
    A: ToSocketAddrs,
    ensures { IfOk result (IsBegun options) }
{
    let (at, stream) = match reach(net, address) {
        Ok(reached) => reached,
        Err(fault) => return Err(fault),
    };
    let connection = match Connection::new(alloc, clock, stream) {
        Ok(connection) => connection,
        Err(error) => return Err(fault_at(at, error)),
    };
    match Client::new(alloc, connection, options) {
        Ok(client) => Ok(client),
        Err(_) => Err(ConnectFault::NoMemory),
    }
}

/// A connection to the first address that gives one, and that address.
fn reach<N: Net, A: ToSocketAddrs>(
    net: &N,
    address: A,
) -> Result<(SocketAddr, N::Stream), ConnectFault> {
    let found = match address.to_socket_addrs(net) {
        Ok(found) => found,
        Err(error) => return Err(ConnectFault::Unknown(error)),
    };
    let mut fault = ConnectFault::Unknown(io::Error::from(ErrorKind::NotFound));
    for at in found {
        match net.connect(at) {
            Ok(stream) => return Ok((at, stream)),
            Err(error) => fault = fault_at(at, error),
        }
    }
    Err(fault)
}

/// What is told of an address where the system failed so.
fn fault_at(at: SocketAddr, error: io::Error) -> ConnectFault {
    match error.kind() {
        ErrorKind::OutOfMemory => ConnectFault::NoMemory,
        _ => ConnectFault::Unreachable(at, error),
    }
}
