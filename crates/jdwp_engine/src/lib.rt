//! The engine that runs a target on any reader and writer: `serve`, over a `Pipe` of `jdwp_end`; and one session of a new target, over any
//! machine or over the machine of a script. `serve_live` runs a target while someone looks at it, over a `LivePipe`, whose reads need not wait
//! for ever.
#![tactic(auto)]

mod live;
mod pipes;
mod serving;
mod sessions;
mod stepping;
mod walk;

pub use live::serve_live;
pub use pipes::{
    Came, LivePipe, LiveStreams, Patience, PatientRead, flush_all, read_and_feed, write_out,
};
pub use serving::serve;
pub use sessions::{serve_script, serve_session};
pub use stepping::step_each;
pub use walk::ThreadWalk;
