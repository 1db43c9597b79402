//! Sessions of the Java Debug Wire Protocol in words: the lines by which `show` tells messages, and what captures, their faults and their lines are.
#![tactic(auto)]

mod capture_fault;
mod capture_line;
mod command_number;
mod composite_text;
mod data_text;
mod hex_digits;
pub mod laws;
mod message_line;
mod message_text;
mod shown;
mod table;
mod telling;
mod terms;
mod text;
mod transcript;
mod verdict;

pub use capture_fault::CaptureFault;
pub use capture_line::{Sender, read_line};
pub use command_number::CommandNumber;
pub use message_line::{composite_data_line, composite_line, reply_line};
pub use shown::Shown;
pub use table::Table;
pub use terms::Terms;
pub use transcript::Transcript;
pub use verdict::Verdict;
