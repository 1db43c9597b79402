//! A connection that is reset.
use libc::net::{_SS_SIZE, connect};
use std::os::fd::RawFd;

/// The address of no family, by which a connection is dissolved (connect(2)).
const NOWHERE: [u8; _SS_SIZE] = [0; _SS_SIZE];

/// How long an address is that has a family alone, and more.
const LENGTH: u32 = 16;

/// Resets the connection of this socket, both ways, so that the other end notices at its next read or write. What it has not read by then, and
/// what has not left, may be lost, as where the system resets a connection. Where the system refuses this, the socket is closed later.
pub(crate) fn reset(socket: RawFd) {
    // The address lives as long as the call, and is only read.
    let _ = unsafe { connect(socket, &NOWHERE, LENGTH) };
}
