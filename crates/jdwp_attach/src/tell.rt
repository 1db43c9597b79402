//! The lines that tell what a debugger read and what it knows, in the forms of `show`.

mod lines;
mod mirrors;
mod turns;

pub use lines::{answered_line, hello_line, seen_line, sizes_line};
pub use mirrors::{known_text, mirror_text};
pub use turns::turn_text;
