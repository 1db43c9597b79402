//! Clients at addresses: what is asked of the network and of sockets, waits with a limit of time by a clock that tests move, and a session over
//! a connection of this machine.
mod connecting_tests;
mod fakes;
mod limit_tests;
mod packets;
mod session_tests;
