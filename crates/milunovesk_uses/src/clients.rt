//! A debugger in forty lines: a breakpoint is set and waited for, the frames of the thread that reaches it are read, and it goes on.

mod stopping;

pub use stopping::{count_frames, frames_at_breakpoint, set_breakpoint, thread_at};
