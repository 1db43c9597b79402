//! How much is kept of a session.

/// How much a judge keeps of a session that has no fault.
#[derive(Clone, Copy, Debug, PartialEq, Eq)]
pub struct Held {
    /// The bytes of the debugger that belong to no whole message.
    pub debugger_bytes: usize,
    /// The bytes of the target that belong to no whole message.
    pub target_bytes: usize,
    /// The messages whose lines wait until the widths of ids are sure.
    pub messages: usize,
    /// The commands that wait for their replies.
    pub commands: usize,
}
