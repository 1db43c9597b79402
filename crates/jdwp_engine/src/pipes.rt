//! Bytes between an end of a session and a pipe whose reads need not wait for ever.
//!
//! A `LivePipe` reads with a `Patience`, and says where nothing came in that time. `write_out` writes what waits at an end, and `read_and_feed`
//! feeds it what came. `LiveStreams` is one of any reader that is a `PatientRead` and any writer.

mod moving;
mod pipe;
mod streams;

pub use moving::{flush_all, read_and_feed, write_out};
pub use pipe::{Came, LivePipe, Patience};
pub use streams::{LiveStreams, PatientRead};
