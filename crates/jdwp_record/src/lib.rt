//! A recorder between a debugger and a target, on TCP ports of this machine, 127.0.0.1.
//!
//! A `Recorder` takes one debugger after the other at a port that was bound by `jdwp_port`, and connects it to the target at another port. The
//! `Recording` that begins so hands on what both send, and writes it down as a capture, a file a session: at once, or turn by turn, so that what
//! was written can be shown meanwhile. `record_streams` does so for one session over two connections.
//! No thread is started: where nothing can be moved the system is asked to wait.
#![tactic(auto)]

mod faults;
mod naming;
mod notices;
mod readiness;
mod recording;
mod resetting;
mod sessions;
mod streams;

pub use faults::{RecordFault, SessionFault};
pub use jdwp_relay::RelayFault;
pub use naming::file_name;
pub use notices::RecordNotice;
pub use recording::{Recording, record_streams};
pub use sessions::Recorder;
pub use streams::{ReadHalf, WriteHalf};
