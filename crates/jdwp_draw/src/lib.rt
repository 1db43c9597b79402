//! A capture of a session of the Java Debug Wire Protocol as a picture: an arrow for each message, and beside it what the mirror of a
//! debugger has of threads and event requests.
#![tactic(auto)]

mod cells;
mod columns;
mod document;
mod escape;
mod follower;
mod heads;
mod hearing;
pub mod laws;
mod layout;
mod message;
mod message_list;
mod picture;
mod reading;
mod rows;
mod sender;
mod sent;
mod streams;
mod told;

pub use columns::Column;
pub use document::svg;
pub use picture::{Picture, Row, Standing};
pub use sender::Sender;
