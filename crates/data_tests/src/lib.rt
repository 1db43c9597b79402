//! Worked frames, values, the table of commands, event requests and suspend counts, and a type of one's own that packets carry; captures,
//! sessions judged as they go on, recordings, pictures, and data that are read as texts. Tests that call what anybody can call.
//!
//! Tests stand apart from the crates that they try, which are then proved once less.
#![tactic(auto)]

#[cfg(test)]
mod asserts;
#[cfg(test)]
mod captures;
mod code_range;
#[cfg(test)]
mod judged;
#[cfg(test)]
mod packets;
#[cfg(test)]
mod pictures;
#[cfg(test)]
mod recordings;
#[cfg(test)]
mod texts;

pub use code_range::CodeRange;
