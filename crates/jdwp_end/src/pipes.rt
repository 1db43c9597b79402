//! Bytes between an end of a session and a reader and a writer, whichever end it is.
//!
//! A `Pipe` tells contracts what went through it; `Streams` is one of any reader and writer. `write_out` writes what waits at an end,
//! `read_and_feed` feeds it what came, and `Ended` is why whoever moves its bytes ended the session.

mod ended;
mod moving;
mod pipe;
mod streams;

pub use ended::Ended;
pub use moving::{CHUNK, NoInput, flush_all, read_and_feed, write_all, write_out};
pub use pipe::Pipe;
pub use streams::Streams;
