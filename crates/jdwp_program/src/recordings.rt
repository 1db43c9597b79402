//! Sessions in recordings of the network.
use crate::words::CaptureFile;
use jdwp_recording::{Capture, Choice, Connection, Recording, RecordingFault};
use std::alloc::Global;
use std::io::Write;

/// A session in a recording.
#[derive(Debug, Drop)]
pub struct Recorded {
    /// Its capture, as far as the recording has it.
    pub capture: Capture,
    /// How many connections there are that could be asked for.
    pub connections: usize,
}

/// The session of the connection that the words ask for, in a recording of these bytes.
///
/// # Errors
/// That of the recording where it has no connection of this number, or nothing tells which side is the target; `NoMemory`.
pub fn session_of(
    alloc: Global,
    words: &CaptureFile<'_>,
    bytes: &[u8],
) -> Result<Recorded, RecordingFault> {
    let choice = Choice {
        target_port: words.target_port,
        stream: usize::try_from(words.stream).unwrap_or(usize::MAX),
    };
    let recording = Recording::read(alloc, bytes)?;
    let connection = Connection::find(alloc, &recording, choice)?;
    Ok(Recorded {
        capture: recording.capture(alloc, &connection)?,
        connections: Connection::count(alloc, &recording, words.target_port)?,
    })
}

/// Tells on `err` which connection of a recording was taken, where it has more than one. A line that can't be written is dropped.
pub fn report_connections<E: Write>(words: &CaptureFile<'_>, connections: usize, err: &mut E) {
    if connections > 1 {
        let (file, stream) = (words.file, words.stream);
        let _told = writeln!(err, "jdwp: {file}: connection {stream} of {connections}");
    }
}
