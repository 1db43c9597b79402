//! The ends of a session.

/// Which end sent a message.
#[derive(Clone, Copy, Debug, PartialEq, Eq)]
pub enum Sender {
    Debugger,
    Target,
}
