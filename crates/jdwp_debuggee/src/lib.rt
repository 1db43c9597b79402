//! The debuggee behind a target: what commands and steps do to it.
#![tactic(auto)]

mod actions;
mod asking;
mod carrying;
mod command;
mod debuggee;
pub mod laws;
mod origins;
mod questions;
mod reading;
mod refusals;
mod refusing;
mod reply;
mod requesting;
mod settings;
mod steps;
mod stopped;
mod strings;
mod threads;

pub use command::{Action, ParsedCommand};
pub use debuggee::{Debuggee, Start};
pub use reading::read_command;
pub use reply::{Reply, Sent};
pub use settings::Settings;
pub use steps::StepDone;
