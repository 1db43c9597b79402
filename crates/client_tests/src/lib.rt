//! Sessions of a client, and plans that it runs; clients at addresses; live sessions; sessions on ports of this machine, both ends in one process, which reach no
//! other. Tests that call what anybody can call.
//!
//! Tests stand apart from the crates that they try, which are then proved once less.
#![tactic(auto)]

#[cfg(test)]
mod addresses;
#[cfg(test)]
mod asserts;
#[cfg(test)]
mod clients;
#[cfg(test)]
mod live;
#[cfg(test)]
mod plans;
#[cfg(test)]
mod ports;
