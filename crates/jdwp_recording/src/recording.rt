//! Recordings of a network.

use crate::packets::{Segment, segment_of};
use crate::reading::Packets;
use crate::recording_fault::RecordingFault;
use std::alloc::Global;

/// What a recording has of TCP.
#[derive(Debug, Drop)]
pub struct Recording<'a> {
    /// The segments, in the order in which they were recorded.
    pub segments: Vec<Segment<'a>>,
    /// Why what follows them was not read: `CutOff`, `Damaged`, or nothing.
    pub fault: Option<RecordingFault>,
}

impl<'a> Recording<'a> {
    /// Reads the recording that a file of these bytes is, pcap or pcapng, up to its end or to the first place where it is damaged or cut.
    ///
    /// # Errors
    /// `NoRecording` where it begins as none; `CutOff` or `Damaged` where its first header is; `NoMemory`.
    pub fn read(alloc: Global, bytes: &'a [u8]) -> Result<Recording<'a>, RecordingFault> {
        let mut packets = Packets::new(alloc, bytes)?;
        let mut segments = Vec::new(alloc);
        for _ in 0..bytes.len() {
            match packets.next() {
                Ok(Some(packet)) => {
                    if let Some(segment) = segment_of(packets.count(), &packet) {
                        segments.push(segment)?;
                    }
                }
                Ok(None) => break,
                Err(RecordingFault::NoMemory) => return Err(RecordingFault::NoMemory),
                Err(fault) => {
                    return Ok(Recording {
                        segments,
                        fault: Some(fault),
                    });
                }
            }
        }
        Ok(Recording {
            segments,
            fault: None,
        })
    }
}
