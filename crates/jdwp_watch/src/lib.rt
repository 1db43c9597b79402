//! Which threads are surely suspended, of a target whose replies and composites are sent by threads of their own.
#![tactic(auto)]

mod bound;
mod course;
mod drift;
mod invocation;
mod ledger;
mod made;
mod moves;
mod named;
mod put;
mod standing;
mod standings;
mod told;
mod waiting;
mod watch;

pub use invocation::{Invocation, is_invocation};
pub use ledger::{Ledger, tells_of_threads};
pub use named::NamedThreads;
pub use put::Put;
pub use waiting::lowers;
pub use watch::Watch;
