//! The capture of a session in a recording.
ghost use Rattle.std.specs.Prelude.{◌≡◌, IfErr};
ghost use Rattle.jdwp_recording.specs.declared.recording_fault.RecordingFault.TheVariants as fault;

use crate::connection::Connection;
use crate::direction::{Direction, first_number};
use crate::packets::{Endpoint, Segment};
use crate::recording::Recording;
use crate::recording_fault::RecordingFault;
use std::alloc::{AllocError, Global};

/// The capture of a session.
#[derive(Debug, Drop)]
pub struct Capture {
    /// Its lines.
    pub text: String,
    /// Why it has not all that was sent: `Hole`, `Snapped`, `CutOff`, `Damaged`, or nothing.
    pub fault: Option<RecordingFault>,
}

impl<'a> Recording<'a> {
    /// The capture of the session of a connection: what each side sent, as far as it is known, a line for each piece in the order in which
    /// they came to be known.
    ///
    /// # Errors
    /// `NoMemory`.
    pub fn capture(&self, alloc: Global, connection: &Connection) -> Result<Capture, RecordingFault>
        ensures { IfErr result (λ e. e ≡ fault.NoMemory) }
    {
        let end = connection.end.min(self.segments.len());
        let segments = &self.segments[connection.first.min(end)..end];
        let mut text = String::new(alloc);
        let mut debugger = direction(alloc, segments, connection.debugger, connection.target);
        let mut target = direction(alloc, segments, connection.target, connection.debugger);
        for segment in segments {
            if connection.is_by_debugger(segment) {
                come(alloc, &mut debugger, segment, b'>', &mut text)?;
            } else if connection.is_by_target(segment) {
                come(alloc, &mut target, segment, b'<', &mut text)?;
            }
        }
        let fault = first_fault(debugger.fault(), target.fault());
        Ok(Capture {
            text,
            fault: fault.or(self.fault),
        })
    }
}

/// Nothing yet of what one side sent to the other.
fn direction<'a>(
    alloc: Global,
    segments: &[Segment<'a>],
    from: Endpoint,
    to: Endpoint,
) -> Direction<'a> {
    Direction::new(alloc, first_number(segments, from, to).unwrap_or(0))
}

/// Takes a segment, and appends lines of what it adds.
fn come<'a>(
    alloc: Global,
    direction: &mut Direction<'a>,
    segment: &Segment<'a>,
    mark: u8,
    text: &mut String,
) -> Result<(), AllocError> {
    let fresh = direction.come(segment)?;
    push_line(alloc, text, mark, fresh)?;
    while let Some(fresh) = direction.next() {
        push_line(alloc, text, mark, fresh)?;
    }
    Ok(())
}

/// Appends a line of some bytes; of none, nothing.
fn push_line(alloc: Global, text: &mut String, mark: u8, bytes: &[u8]) -> Result<(), AllocError> {
    if bytes.is_empty() {
        return Ok(());
    }
    text.push_str(if mark == b'>' { "> " } else { "< " })?;
    let digits = hex::encode(alloc, bytes)?;
    text.push_str(digits.as_str())?;
    text.push_str("\n")?;
    Ok(())
}

/// The fault of the two that an earlier packet shows.
fn first_fault(
    one: Option<(usize, RecordingFault)>,
    other: Option<(usize, RecordingFault)>,
) -> Option<RecordingFault> {
    match (one, other) {
        (Some((packet, _)), Some((earlier, fault))) if earlier < packet => Some(fault),
        (Some((_, fault)), _) => Some(fault),
        (None, Some((_, fault))) => Some(fault),
        (None, None) => None,
    }
}
