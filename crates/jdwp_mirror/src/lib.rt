//! What a debugger learns from the packets that it reads: suspend counts, which threads it holds for suspended, and event requests; and
//! which packets no target may send.
#![tactic(auto)]

mod command;
mod drift;
mod judging;
mod kept;
mod known;
pub mod laws;
mod met;
mod mirror;
mod moves;
mod numbers;
mod reply;
mod requests;
mod row;
mod threads;

pub use command::{Carried, Command, CommandKind};
pub use judging::{is_bad_answer, is_bad_composite, widths_in_answer};
pub use kept::KeptRequests;
pub use known::KnownThreads;
pub use mirror::Mirror;
pub use requests::KeptRequest;
pub use threads::Known;
