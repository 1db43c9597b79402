//! What a target runs: the trait `Machine` with its laws.
#![tactic(auto)]

pub mod laws;
mod live;
mod machine;
pub mod profile;
mod query;

pub use live::{has_run_out, is_among};
pub use machine::Machine;
pub use profile::Profile;
pub use query::Query;
