//! A debugger for people who write debuggers: commands are asked and their answers waited for, and events are taken in the order in which they
//! came, over any pipe.
#![tactic(auto)]

mod answers;
mod asking;
mod client;
mod errors;
mod holding;
mod kept;
mod laws;
mod limits;
mod options;
mod reading;
mod turning;
mod unanswered;
mod waiters;
mod waiting;

pub use client::Client;
pub use errors::{Awaited, ClientError, Loss, ReplyError};
pub use holding::{is_surely_suspended, may_free};
pub use limits::LimitedPipe;
pub use options::Options;
