//! What a recorder tells on the way.
use crate::recording::Recording;
use jdwp_port::PortCause;

/// What came of one call that was to take a connection and begin its session. The recorder goes on.
#[derive(Drop)]
pub enum RecordNotice<S, W> {
    /// No connection of a debugger was taken, for a cause that passes: another call is made a little later.
    Again(PortCause),
    /// The target can't be reached at this port. The connection of the debugger that came was closed, and no file was made.
    Unreached(u16, PortCause),
    /// The session of this number begins.
    Begun(u32, Recording<S, W>),
}
