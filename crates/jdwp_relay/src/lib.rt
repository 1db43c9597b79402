//! Bytes between a debugger and a target, handed on both ways unchanged, and written down as a capture before.
//!
//! A `Duct` is one direction, from any `Source` to any `Sink`; a `Relay` is both, with one `Capture`, from the beginning of a connection to its end.
#![tactic(auto)]

mod capture;
mod duct;
pub mod laws;
mod relay;
mod sides;
mod spans;

pub use capture::Capture;
pub use duct::{Duct, ROOM, Stage};
pub use relay::{Halves, Readiness, Relay, RelayFault};
pub use sides::{Came, Ending, Sink, Source, Took};
