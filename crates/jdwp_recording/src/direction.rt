//! What one side of a connection sent.
ghost use Rattle.std.specs.Prelude.{◌≡◌, ◌<◌, ◌≤◌, ◌+◌, ◌^◌, ◌++◌, ◌∷◌, [], ℕ, List, Some, length, IfOk, IfSome, IfNone, OnErr, OnSome};
ghost use Rattle.jdwp_recording.specs.declared.packets.Segment.{Segment as SegmentSaid};
ghost use Rattle.jdwp_recording.specs.Sides.{AreGiven};

use crate::assembly::{Assembly, Piece};
use crate::packets::{Endpoint, Segment};
use crate::recording_fault::RecordingFault;
use crate::sequence::{Mark, is_before};
use std::alloc::{AllocError, Global};

/// What is known of the bytes that one side sent.
#[derive(Drop)]
pub struct Direction<'a> {
    /// The place of the last segment with data.
    mark: Mark,
    assembly: Assembly<'a>,
    /// How far the stream goes by all segments, and the packet that showed it.
    reached: usize,
    reached_by: usize,
    /// A place where recorded bytes end, since the packet of this number was not recorded whole.
    cut: Option<(usize, usize)>,
}

impl<'a> Direction<'a> {
    ghost use Rattle.jdwp_recording.specs.Directions.{Knows, kept_count};

    /// Nothing yet of a stream whose first byte has this sequence number.
    pub fn new(alloc: Global, first: u32) -> Direction<'a>
        ensures { Knows first [] [] result }
    {
        Direction {
            mark: Mark {
                place: 0,
                sequence: first,
            },
            assembly: Assembly::new(alloc),
            reached: 0,
            reached_by: 0,
            cut: None,
        }
    }

    /// Takes a segment, and gives what it adds to what is known: nothing where it has no data, or lies before the stream.
    ///
    /// # Errors
    /// Where an allocation is refused.
    pub fn come(&mut self, segment: &Segment<'a>) -> Result<&'a [u8], AllocError>
        ensures without { length segment.now.payload.now ≡ 0 → IfOk result (λ fresh. (first : ℕ) (came : List SegmentSaid)
            (bytes : List ℕ) → Knows first came bytes self.old → Knows first came (bytes ++ fresh.now) self.new) }
        ensures data { 0 < length segment.now.payload.now → IfOk result (λ fresh. (first : ℕ) (came : List SegmentSaid)
            (bytes : List ℕ) → Knows first came bytes self.old
            → Knows first (came ++ segment.now ∷ []) (bytes ++ fresh.now) self.new) }
    {
        let found = self.mark.place_near(segment.sequence);
        self.note_end(found, segment);
        if segment.payload.is_empty() {
            return Ok(&[]);
        }
        let Some(piece) = piece_at(found, segment) else {
            return Ok(&[]);
        };
        let fresh = self.assembly.come(piece)?;
        self.mark = Mark {
            place: piece.place,
            sequence: segment.sequence,
        };
        self.note_cut(&piece, segment.missing);
        Ok(fresh)
    }

    /// What a kept segment adds, once the hole before it is filled. None where nothing more is known by what came.
    pub fn next(&mut self) -> Option<&'a [u8]>
        ensures some { IfSome result (λ fresh. (first : ℕ) (came : List SegmentSaid) (bytes : List ℕ)
            → Knows first came bytes self.old → Knows first came (bytes ++ fresh.now) self.new) }
        ensures none { IfNone result ((first : ℕ) (came : List SegmentSaid) (bytes : List ℕ)
            → Knows first came bytes self.new → AreGiven first came bytes) }
        ensures same { IfNone result (self.new ≡ self.old) }
        ensures fewer { OnSome result (kept_count self.new < kept_count self.old) }
    {
        self.assembly.next()
    }

    /// Notes that a segment shows the stream to go as far as its data go, found at this place.
    fn note_end(&mut self, found: Option<usize>, segment: &Segment<'_>)
        ensures assembly { self.new.assembly ≡ self.old.assembly }
        ensures mark { self.new.mark ≡ self.old.mark }
    {
        let Some(place) = found else {
            return;
        };
        let recorded = place.saturating_add(segment.payload.len());
        let end = recorded.saturating_add(segment.missing);
        if end > self.reached {
            self.reached = end;
            self.reached_by = segment.packet;
        }
    }

    /// Notes that bytes behind a piece were not recorded, where what is known ends with it.
    fn note_cut(&mut self, piece: &Piece<'a>, missing: usize)
        ensures assembly { self.new.assembly ≡ self.old.assembly }
        ensures mark { self.new.mark ≡ self.old.mark }
    {
        let end = piece.place + piece.bytes.len();
        if missing > 0 && self.assembly.known() == end {
            self.cut = Some((end, piece.packet));
        }
    }

    /// The first packet by which bytes are missing, and the fault: `Hole`, or `Snapped` where it was not recorded whole. None where all
    /// that came is known.
    pub fn fault(&self) -> Option<(usize, RecordingFault)> {
        let packet = match self.assembly.hole() {
            Some(packet) => packet,
            None if self.reached > self.assembly.known() => self.reached_by,
            None => return None,
        };
        match self.cut {
            Some((place, packet)) if place == self.assembly.known() => {
                Some((packet, RecordingFault::Snapped(packet)))
            }
            _ => Some((packet, RecordingFault::Hole(packet))),
        }
    }
}

/// The data of a segment as a piece from the place on where it was found. None where it was found nowhere, or goes past all places.
fn piece_at<'a>(found: Option<usize>, segment: &Segment<'a>) -> Option<Piece<'a>>
    ensures place { IfSome result (λ piece. found ≡ Some piece.place) }
    ensures bytes { IfSome result (λ piece. piece.bytes.now ≡ segment.now.payload.now) }
    ensures none { IfNone result ((place : ℕ) → found ≡ Some place
        → 2 ^ 64 ≤ place + length segment.now.payload.now) }
{
    let place = found?;
    place.checked_add(segment.payload.len())?;
    Some(Piece {
        place,
        packet: segment.packet,
        bytes: segment.payload,
    })
}

/// The sequence number of the first byte that a side sent: the one behind its SYN, or else the first of all that have data. None where it
/// sent nothing.
pub fn first_number(segments: &[Segment<'_>], from: Endpoint, to: Endpoint) -> Option<u32> {
    let mut least = None;
    for segment in segments {
        if segment.from == from && segment.to == to {
            if segment.begins {
                return Some(segment.sequence);
            }
            if !segment.payload.is_empty() {
                least = Some(earlier(least, segment.sequence));
            }
        }
    }
    least
}

/// The earlier of two sequence numbers.
fn earlier(least: Option<u32>, sequence: u32) -> u32 {
    match least {
        Some(least) if !is_before(sequence, least) => least,
        _ => sequence,
    }
}
