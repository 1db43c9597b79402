//! Commands by name, and replies and events that are read as structs; worked sessions of a debugger, what its mirror learns packet by packet,
//! and what an end holds. Tests that call what anybody can call.
//!
//! Tests stand apart from the crates that they try, which are then proved once less.
#![tactic(auto)]

#[cfg(test)]
mod answers;
#[cfg(test)]
mod asserts;
#[cfg(test)]
mod commands;
#[cfg(test)]
mod debuggers;
