//! The run of a plan that people write, by a client over any pipe.
#![tactic(auto)]

mod asking;
mod calls;
mod carrying;
mod ended;
mod expecting;
mod junit;
mod running;
mod stop;
mod telling;
mod unlimited;

pub use ended::{PlanEnded, PlanVerdict};
pub use junit::junit_text;
pub use running::run_plan;
pub use stop::{LineRefusal, Stop};
pub use unlimited::Unlimited;
