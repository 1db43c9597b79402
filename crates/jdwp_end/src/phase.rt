//! Where a session stands.

/// Where a session stands at one end.
#[derive(Clone, Copy, Debug, PartialEq, Eq)]
pub enum Phase {
    /// There is no session.
    Closed,
    /// A session began, and the peer's handshake was not handled yet.
    AwaitingHandshake,
    /// Packets are handled.
    Established,
}
