//! The library in use: a capture judged, a machine of one's own, a target served by hand, a debugger that asks, and a link that shows who is
//! suspended.
#![tactic(auto)]

mod capture;
mod clients;
mod debugger;
mod link;
mod machine;
mod target;

pub use capture::first_faulty_line;
pub use clients::{count_frames, frames_at_breakpoint, set_breakpoint, thread_at};
pub use debugger::ask_for_frames;
pub use link::{settle, shown_count, shows_suspended};
pub use machine::{OneStep, one_step_target};
pub use target::answer;
