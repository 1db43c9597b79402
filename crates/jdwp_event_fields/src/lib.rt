//! Events of the Java Debug Wire Protocol by their kind, with their fields by name (JDWP specification, "Event": Composite).
#![tactic(auto)]

mod event;
mod event_set;
pub mod laws;
mod reading;
mod scalars;

pub use event::Event;
pub use event_set::EventSet;
