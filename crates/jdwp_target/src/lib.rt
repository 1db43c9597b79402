//! The debuggee's end of a Java Debug Wire Protocol session: bytes in, bytes out, no IO.
//!
//! `feed` takes what came, `turn` handles one message, `take` gives what is to be sent.
#![tactic(auto)]

mod deferral;
mod deferring;
pub mod laws;
mod numbers;
mod options;
mod releasing;
mod sending;
mod session_end;
mod setup;
mod stepping;
mod target;
mod turning;

pub use options::TargetOptions;
pub use setup::SetupFault;
pub use target::{Stepped, Target, TargetFault, Turn};
