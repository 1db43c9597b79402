//! Clients of sessions at addresses of the network: a connection as a pipe, whose reads and writes may have a limit of time.
#![tactic(auto)]

mod connecting;
mod connection;
mod faults;
mod half;
mod limit;

pub use connecting::connect;
pub use connection::Connection;
pub use faults::ConnectFault;
