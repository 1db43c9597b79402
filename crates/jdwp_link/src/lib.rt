//! A target and a debugger in one process, and the bytes between them: what a debugger shows as suspended is suspended.
#![tactic(auto)]

mod byte_queue;
mod delivery;
mod events;
mod happening;
mod laws;
mod link;
mod moving;
mod outcomes;
mod telling;
mod way;

pub use byte_queue::ByteQueue;
pub use delivery::deliver;
pub use events::{LinkEvent, Outcome, Stopped};
pub use link::Link;
pub use outcomes::{settles_each_ticket_once, tells_what_the_target_gave};
pub use way::{Memory, Side, Way};
