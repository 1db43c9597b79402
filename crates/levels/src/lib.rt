//! Suspend counts as levels above a base that moves: all counts rise or fall by one at the cost of those that begin or cease to be
//! suspended.
#![tactic(auto)]

mod counts;
mod entries;
mod level;
mod moves;
mod order;

pub use counts::Counts;
