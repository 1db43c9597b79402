//! A target in one program and a debugger in another: what the debugger shows as suspended is suspended, whatever loops run the two; and what
//! `serve` and `attach` do is lists of acts of a target and a debugger, so that it holds where they run.
#![tactic(auto)]

mod across;
mod apart;
mod laws;
mod others;
mod own_limits;
mod runs;
mod worked;

pub use across::{holds_in_two_programs, suspends_what_is_held};
pub use apart::suspends_what_is_held_apart;
pub use others::{
    holds_after_other_sessions, holds_of_serve_and_attach_after_others,
    holds_of_two_runs_after_others, holds_within_after_others, merges_are_sessions_of_each,
};
pub use own_limits::{
    holds_of_serve_and_attach_within, holds_of_two_runs_within, holds_within_own_limits,
    refuses_longer_packets,
};
pub use runs::{attaches_by_acts, holds_of_serve_and_attach, holds_of_two_runs, serves_by_acts};
pub use worked::{merges_as_worked_out, other_sessions_as_worked_out, own_limits_as_worked_out};
