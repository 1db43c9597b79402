//! Bytes handed on between a debugger and a target, and written down: over fake connections in many cuttings, with each call failing in turn,
//! and over sockets of this machine, both ends in one process, which reach no other: tests of `jdwp_relay` and `jdwp_record`, which call what
//! anybody can call.
mod fakes;
mod packets;
mod relaying;
mod sessions;
mod sockets;
