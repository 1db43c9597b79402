//! Plans: what a debugger is to do in a session, as the lines of a text.

mod laws;
mod plan_fault;
mod plan_line;
mod reading;
mod values;

pub use laws::reads_each_form;
pub use plan_fault::{LineFault, PlanFault};
pub use plan_line::PlanLine;
pub use reading::{read_attach_plan, read_plan};
