//! The debugger's end: what it asks, and what it makes of what it reads from a target.
#![tactic(auto)]

mod asking;
mod debugger;
mod faults;
mod following;
mod heads;
pub mod laws;
mod lost;
mod news;
mod order;
mod parked;
mod pending;
mod reading;
mod session_end;
mod turning;

pub use asking::Refused;
pub use debugger::Debugger;
pub use faults::DebuggerFault;
pub use heads::Head;
pub use jdwp_mirror::{Carried, Command, KeptRequest, KeptRequests, Known, KnownThreads, Mirror};
pub use jdwp_watch::NamedThreads;
pub use lost::Lost;
pub use order::Order;
pub use pending::Ticket;
pub use turning::Read;
