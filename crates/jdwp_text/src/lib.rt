//! Data of commands as texts: read in the very words in which `show` prints them.
#![tactic(auto)]

mod comparing;
mod fields;
mod lists;
mod numbers;
mod reading;
mod strings;
mod text_fault;
mod values;

pub use reading::{read_data, read_items};
pub use text_fault::{Expected, TextFault};
