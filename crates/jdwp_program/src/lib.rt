//! What the program `jdwp` does, without reading the words of its command line and without opening files.
//!
//! What the words say is `Words`. Captures are told on any writer, plans are run over any reader and writer, and what goes wrong is told with the exit status.
#![tactic(auto)]

mod attaching;
mod awaiting;
mod captures;
mod drawing;
mod fault;
mod listening;
mod live;
mod losing;
mod notices;
mod outcome;
mod printing;
mod recordings;
mod streaming;
mod values;
mod version;
mod words;

pub use attaching::{attach_plan, attach_session};
pub use awaiting::Awaited;
pub use captures::{TellFault, Told, check_capture, print_capture, show_capture};
pub use drawing::draw_capture;
pub use fault::{Fault, FileCause, is_recording, text_of};
pub use jdwp_port::Watched;
pub use listening::tell_listening;
pub use live::LiveShow;
pub use losing::{Loss, Side};
pub use notices::Lines;
pub use outcome::{Outcome, report_fault, report_outcome, report_plan};
pub use recordings::{Recorded, report_connections, session_of};
pub use streaming::{StreamFault, check_stream, show_stream};
pub use values::{decimal, is_all, limits, order, profile, table_of};
pub use version::{VERSION, tell_version};
pub use words::{
    Attach, Between, CaptureFile, Draw, Emptied, Pair, Peer, Record, ServeScript, SessionFiles,
    Words,
};
