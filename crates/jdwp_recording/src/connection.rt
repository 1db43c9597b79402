//! The connections of a recording.
ghost use Rattle.std.specs.Prelude.{◌≡◌, ◌≤◌, ◌<◌, ◌⊎◌, length, IfErr, IfOk, IfSome, Some};
ghost use Rattle.jdwp_recording.specs.declared.recording_fault.RecordingFault.TheVariants as fault;

use crate::packets::{Endpoint, Segment};
use crate::recording::Recording;
use crate::recording_fault::RecordingFault;
use std::alloc::Global;

/// The first bytes that each side sends.
const HANDSHAKE: &[u8] = b"JDWP-Handshake";

/// A session's connection in a recording.
#[derive(Clone, Copy, Debug)]
pub struct Connection {
    pub debugger: Endpoint,
    pub target: Endpoint,
    /// The index of its first segment.
    pub first: usize,
    /// The index behind its last one.
    pub end: usize,
}

/// Which connection is asked for.
#[derive(Clone, Copy, Debug)]
pub struct Choice {
    /// The target's port. Then connections without it are not counted.
    pub target_port: Option<u16>,
    /// The number of the connection, from 1, by their first segments.
    pub stream: usize,
}

/// How a connection begins: who sent its first segment to whom, and the sequence number behind it, where it opens the connection.
#[derive(Clone, Copy, Debug)]
struct Opening {
    from: Endpoint,
    to: Endpoint,
    opens: Option<u32>,
}

impl Opening {
    fn of(segment: &Segment<'_>) -> Opening {
        let opens = segment.begins && !segment.acknowledges;
        Opening {
            from: segment.from,
            to: segment.to,
            opens: if opens { Some(segment.sequence) } else { None },
        }
    }

    /// Whether the segment goes between the two sides.
    fn has(&self, segment: &Segment<'_>) -> bool {
        (self.from == segment.from && self.to == segment.to)
            || (self.from == segment.to && self.to == segment.from)
    }

    /// Whether a segment between these sides opens another connection.
    fn is_over(&self, segment: &Segment<'_>) -> bool {
        segment.begins
            && !segment.acknowledges
            && (self.from != segment.from || self.opens != Some(segment.sequence))
    }
}

impl Connection {
    /// The connection that is asked for. The target is the side of its port, where one is given that only one side has; else the side that is
    /// not the first to send bytes, where these are a handshake's beginning; else the one that was connected to.
    ///
    /// # Errors
    /// `NoConnection` where there is none of this number, or the recording's fault where it has one; `NoTarget` where neither a port, nor a handshake, nor the beginning of the
    /// connection tells which side is the target; `NoMemory`.
    pub fn find(
        alloc: Global,
        recording: &Recording<'_>,
        choice: Choice,
    ) -> Result<Connection, RecordingFault>
        ensures first { IfOk result (λ c. c.first < length recording.now.segments.items) }
        ensures end { IfOk result (λ c. c.end ≤ length recording.now.segments.items) }
        ensures fault { IfErr result (λ e. (e ≡ fault.NoConnection choice.stream)
            ⊎ (recording.now.fault ≡ Some e)
            ⊎ (e ≡ fault.NoTarget) ⊎ (e ≡ fault.NoMemory)) }
    {
        let segments = recording.segments.as_slice();
        let Some(first) = first_segment(alloc, segments, choice)? else {
            return Err(match recording.fault {
                Some(fault) => fault,
                None => RecordingFault::NoConnection(choice.stream),
            });
        };
        let opening = Opening::of(&segments[first]);
        let end = end_behind(segments, first, &opening);
        let Some(debugger) = debugger_of(&segments[first..end], &opening, choice.target_port) else {
            return Err(RecordingFault::NoTarget);
        };
        let target = if debugger == opening.from {
            opening.to
        } else {
            opening.from
        };
        Ok(Connection {
            debugger,
            target,
            first,
            end,
        })
    }

    /// How many connections there are that `find` can find, with this port of the target's or whatever port.
    ///
    /// # Errors
    /// `NoMemory`.
    pub fn count(
        alloc: Global,
        recording: &Recording<'_>,
        target_port: Option<u16>,
    ) -> Result<usize, RecordingFault>
        ensures { IfErr result (λ e. e ≡ fault.NoMemory) }
    {
        let mut found: Vec<Opening> = Vec::new(alloc);
        for segment in &recording.segments {
            if has_port(segment, target_port) && begins_another(&found, segment) {
                found.push(Opening::of(segment))?;
            }
        }
        Ok(found.len())
    }

    /// Whether the debugger of this connection sent a segment.
    pub(crate) fn is_by_debugger(&self, segment: &Segment<'_>) -> bool {
        segment.from == self.debugger && segment.to == self.target
    }

    /// Whether its target did.
    pub(crate) fn is_by_target(&self, segment: &Segment<'_>) -> bool {
        segment.from == self.target && segment.to == self.debugger
    }
}

/// The index of the first segment of the connection that is asked for.
fn first_segment(
    alloc: Global,
    segments: &[Segment<'_>],
    choice: Choice,
) -> Result<Option<usize>, RecordingFault>
    ensures memory { IfErr result (λ e. e ≡ fault.NoMemory) }
    ensures index { IfOk result (λ first. IfSome first (λ index. index < length segments.now)) }
{
    let mut found: Vec<Opening> = Vec::new(alloc);
    for (index, segment) in segments.iter().enumerate() {
        if has_port(segment, choice.target_port) && begins_another(&found, segment) {
            found.push(Opening::of(segment))?;
            if found.len() == choice.stream {
                return Ok(Some(index));
            }
        }
    }
    Ok(None)
}

/// Whether one of its sides has the port, where one is given.
fn has_port(segment: &Segment<'_>, port: Option<u16>) -> bool {
    match port {
        Some(port) => segment.from.port == port || segment.to.port == port,
        None => true,
    }
}

/// Whether a segment is of none of these connections.
fn begins_another(found: &[Opening], segment: &Segment<'_>) -> bool {
    for opening in found.iter().rev() {
        if opening.has(segment) {
            return opening.is_over(segment);
        }
    }
    true
}

/// The index behind the last segment that may be of the connection.
fn end_behind(segments: &[Segment<'_>], first: usize, opening: &Opening) -> usize
    requires { first ≤ length segments.now }
    ensures from { first ≤ result }
    ensures within { result ≤ length segments.now }
{
    for index in first..segments.len() {
        let segment = &segments[index];
        if opening.has(segment) && opening.is_over(segment) {
            return index;
        }
    }
    segments.len()
}

/// Whether bytes begin with the handshake, or are a part of its beginning.
fn begins_as_handshake(bytes: &[u8]) -> bool {
    bytes.starts_with(HANDSHAKE) || HANDSHAKE.starts_with(bytes)
}

/// The debugger's side of the connection of these segments.
fn debugger_of(segments: &[Segment<'_>], opening: &Opening, port: Option<u16>) -> Option<Endpoint> {
    match port {
        Some(port) if opening.from.port != port => return Some(opening.from),
        Some(port) if opening.to.port != port => return Some(opening.to),
        _ => {}
    }
    for segment in segments {
        if opening.has(segment) && !segment.payload.is_empty() {
            if begins_as_handshake(segment.payload) {
                return Some(segment.from);
            }
            break;
        }
    }
    for segment in segments {
        if opening.has(segment) && segment.begins {
            return Some(if segment.acknowledges {
                segment.to
            } else {
                segment.from
            });
        }
    }
    None
}
