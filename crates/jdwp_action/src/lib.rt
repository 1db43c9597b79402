//! What commands ask, as both ends speak of it: the action of a command, its data and its packet, and what is sent for an answer.
#![tactic(auto)]

pub mod laws;
mod layouts;

pub use layouts::reply_layout;
