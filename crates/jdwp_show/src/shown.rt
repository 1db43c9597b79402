//! What `show` answers.
use crate::capture_fault::CaptureFault;

/// A capture in words.
#[derive(Debug, PartialEq, Drop)]
pub struct Shown {
    /// The lines, each with a newline at its end.
    pub lines: String,
    /// The first fault, and the number, from 1, of the line in which its last byte stands.
    pub fault: Option<(usize, CaptureFault)>,
}
