//! What each command of the Java Debug Wire Protocol carries: its layout as data, and one `read` and one `write` for
//! all of them.
#![tactic(auto)]

mod answer;
mod command;
mod command_sets;
mod datum;
mod entry;
pub mod event_kinds;
mod fitting;
mod held;
pub mod invocation;
mod item;
pub mod laws;
pub mod modifier_kinds;
pub mod numbers;
mod reading;
mod row_macros;
mod validation;
mod writing;

pub use answer::{Answer, Data};
pub use command::{CommandRow, Layouts, layout_of};
pub use datum::{Datum, Scalar, copy_entry};
pub use entry::{entry_size, pass_entries, pass_entry, read_entry, write_entry};
pub use fitting::{data_size, refusal};
pub use item::{Entry, Field, Item, Layout, fields_of_event, fields_of_modifier};
pub use reading::{read, read_field};
pub use validation::validate;
pub use writing::write;
