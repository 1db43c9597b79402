//! The engine that runs a target and a debugger of one process by a plan, and tells what the debugger reads.
#![tactic(auto)]

mod asking;
mod connection;
mod ended;
mod following;
mod happening;
pub mod laws;
mod lines;
mod loopback;
mod losing;
mod pairing;
mod parts;
mod run;
mod standing;
mod stepping;
mod telling;

pub use connection::Connection;
pub use ended::PairEnded;
pub use loopback::Loopback;
pub use pairing::{pair, pair_script, pair_session};
