//! What both ends of a Java Debug Wire Protocol session share: the phase, the bytes that came and those that wait to leave, within limits,
//! and what happened in the session; and the bytes between an end and a reader and a writer (`pipes`). It knows no command and no state.
#![tactic(auto)]

mod end;
mod front;
pub mod laws;
mod parts;
mod phase;
mod pipes;
mod session;
mod session_end;

pub use end::End;
pub use front::Front;
pub use phase::Phase;
pub use pipes::{
    CHUNK, Ended, NoInput, Pipe, Streams, flush_all, read_and_feed, write_all, write_out,
};
pub use session_end::SessionEnd;
