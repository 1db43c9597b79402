//! What `check` answers.
use crate::capture_fault::CaptureFault;

/// Whether a capture begins a session.
#[derive(Clone, Copy, Debug, PartialEq, Eq)]
pub enum Verdict {
    /// The capture begins a session.
    Yes,
    /// The first fault, and the number, from 1, of the line in which its last byte stands.
    No(usize, CaptureFault),
}
