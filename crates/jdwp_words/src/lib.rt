//! The words of the program's command line, read.
#![tactic(auto)]

mod arguments;
mod refusing;
mod words;

pub use words::read;
