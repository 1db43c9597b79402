//! Recordings of a network (pcap and pcapng): the connections in them, and the capture of a session.
#![tactic(auto)]

mod assembly;
mod capture;
mod connection;
mod direction;
mod fields;
mod packets;
mod reading;
mod recording;
mod recording_fault;
mod sequence;

pub use capture::Capture;
pub use connection::{Choice, Connection};
pub use direction::{Direction, first_number};
pub use packets::{Address, Endpoint, Packet, Segment, segment_of};
pub use recording::Recording;
pub use recording_fault::RecordingFault;
