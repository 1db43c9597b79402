//! Live sessions of the Java Debug Wire Protocol on TCP ports of this machine, 127.0.0.1.
//!
//! `serve_live_sessions` serves one debugger after the other at a port as `serve_live` does, over connections
//! whose reads need not wait for ever (`PatientStream`).

mod causes;
mod connection;
mod notices;
mod reading;
mod serving;

pub use causes::LiveCause;
pub use connection::LiveAtPort;
pub use notices::LiveNotice;
pub use reading::PatientStream;
pub use serving::{serve_live_sessions, serve_live_stream};
