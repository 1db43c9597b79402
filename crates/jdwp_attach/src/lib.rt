//! The engine that runs a debugger on a pipe by a plan, the lines of plans (`plans`), and those that tell what it reads, in the forms of `show` (`tell`).
#![tactic(auto)]

mod asking;
mod attached;
mod attaching;
mod due_counts;
mod plans;
mod run;
mod tell;
mod turning;

pub use attached::Attached;
pub use attaching::{attach, attach_by_lines};
pub use due_counts::due_count;
pub use plans::{LineFault, PlanFault, PlanLine, read_attach_plan, read_plan, reads_each_form};
pub use tell::{
    answered_line, hello_line, known_text, mirror_text, seen_line, sizes_line, turn_text,
};
