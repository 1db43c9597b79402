//! The program's commands on files and at ports, over any runtime and two writers.
#![tactic(auto)]

mod drawing;
mod files;
mod input;
mod memory;
mod paired;
mod recording;
mod running;
mod sessions;
mod streams;
mod written;

pub use jdwp_words::read;
pub use running::run;
pub use streams::fill_standard_streams;
