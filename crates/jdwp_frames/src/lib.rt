//! A client that reads the frames of a suspended thread once between two stops: it keeps what was answered for as long as nothing that it asked
//! or read may have changed it; and that the target would answer the same then, proved of a link.
#![tactic(auto)]

mod changing;
mod client;
mod kept;
pub mod laws;

pub use changing::{do_frames_last, may_change};
pub use client::FrameClient;
