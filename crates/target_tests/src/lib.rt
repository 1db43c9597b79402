//! Machine scripts and the machines that run them; worked sessions of a target, byte for byte, and how `serve` runs them. Tests that call
//! what anybody can call.
//!
//! Tests stand apart from the crates that they try, which are then proved once less.
#![tactic(auto)]

#[cfg(test)]
mod asserts;
#[cfg(test)]
mod machines;
#[cfg(test)]
mod targets;
