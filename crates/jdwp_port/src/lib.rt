//! Sessions of the Java Debug Wire Protocol on TCP ports of this machine, 127.0.0.1.
//!
//! `bind` listens on a port, where `serve_sessions` serves one debugger after the other with one target; `connect` reaches a port, and
//! `attach_stream` runs a debugger there. Another server at a port has what `serve_sessions` is made of: `PortListener::take`, `may_pass` and
//! `pause` for connections that can't be taken, and `part` for the end of one. `serve_live_sessions` serves live sessions, over connections whose
//! reads need not wait for ever (`PatientStream`).
#![tactic(auto)]

mod attaching;
mod connection;
mod faults;
mod listening;
mod live;
mod notices;
mod serving;
mod watching;

pub use attaching::{attach_stream, connect};
pub use connection::{AtPort, part};
pub use faults::{PortCause, PortFault};
pub use listening::{PortListener, Taken, bind, may_pass, pause};
pub use live::{
    LiveAtPort, LiveCause, LiveNotice, PatientStream, serve_live_sessions, serve_live_stream,
};
pub use notices::Notice;
pub use serving::{serve_next, serve_sessions, serve_stream};
pub use watching::Watched;
