//! Sessions of the Java Debug Wire Protocol judged as they go on: the lines of `show` as soon as they can be told, and the first fault when it
//! comes. `check` and `show` do so for a whole capture.
#![tactic(auto)]

mod asked;
mod backlog;
mod capture;
mod capture_judge;
mod coming;
mod entry;
mod front;
mod heard;
mod hearing;
mod held;
mod judge;
pub mod laws;
mod line_judge;
mod rules;
mod rulings;
mod telling;
mod waiting;
mod wanting;

pub use capture::{check, check_under, show, show_under};
pub use capture_judge::CaptureJudge;
pub use held::Held;
pub use judge::Judge;
pub use line_judge::LineJudge;
