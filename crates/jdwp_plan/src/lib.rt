//! Plans that people write: lines read from a text whose first line is `plan 2`, with the values that they bind and the texts that they expect.
#![tactic(auto)]

mod commands;
mod cutting;
mod expecting;
mod filling;
mod items;
mod parsing;
mod plan_fault;
mod plan_line;
mod quoting;
mod reading;
mod spoken;
mod values;

pub use expecting::is_expected;
pub use filling::FillFault;
pub use items::{item_at, items_text, scalar_text};
pub use plan_fault::{Expected, PlanFault};
pub use plan_line::{Path, PlanLine};
pub use reading::{is_written, read_written};
pub use values::Values;
