//! Events of the Java Debug Wire Protocol: their kinds, and what happens at a step of a thread, as event requests see it.
#![tactic(auto)]

mod event;
mod filter;
mod happening;
mod kind;
mod kinds_asked;
pub mod laws;
mod modifier;
mod pattern;
mod policy;
mod request;
mod request_id;
mod requests;
mod told;

pub use event::{Composite, Event, count_gathered, gather};
pub use happening::{ClassSeen, Happening, Occurrence, Place, PreparedClass, ThrownException};
pub use kind::EventKind;
pub use modifier::Modifier;
pub use policy::{Policy, StepDepth, StepSize};
pub use request::{Request, StepOrigin, matches};
pub use request_id::RequestId;
pub use requests::{Requests, count_down};
pub use told::{has_event_of, thread_in, thread_of_event};
