//! The model of both ends is a target whose packets have one order: what a debugger is sure of by its watch alone is so there.
#![tactic(auto)]

mod headline;
mod laws;
mod worked;

pub use headline::{acts_in_one_order, is_sure_of_suspended_threads_only};
pub use worked::is_sure_as_worked_out;
