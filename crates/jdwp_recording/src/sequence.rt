//! Places in a stream, by the sequence numbers of TCP.
ghost use Rattle.std.specs.Prelude.{◌≡◌, ◌^◌, ◌<◌, ◌+◌, ◌↔◌, ℕ, Some, IsTrue};
ghost use Rattle.jdwp_recording.specs.SequenceNumbers.{number_at, AreNear};

/// Half of all sequence numbers.
const HALF: u32 = 0x8000_0000;

/// A place of a stream whose sequence number is known.
#[derive(Clone, Copy, Debug)]
pub(crate) struct Mark {
    pub(crate) place: usize,
    pub(crate) sequence: u32,
}

impl Mark {
    /// The place with this sequence number that is less than 2^31 away from the mark. None where it would lie before the stream.
    pub(crate) fn place_near(self, sequence: u32) -> Option<usize>
        ensures { (first place : ℕ) → self.sequence ≡ number_at first self.place
            → sequence ≡ number_at first place → AreNear self.place place
            → place < 2 ^ 64 → result ≡ Some place }
    {
        let ahead = sequence.wrapping_sub(self.sequence);
        if ahead < HALF {
            self.place.checked_add(ahead as usize)
        } else {
            let behind = self.sequence.wrapping_sub(sequence);
            self.place.checked_sub(behind as usize)
        }
    }
}

/// Whether the first of two sequence numbers lies before the other, of places that are less than 2^31 apart.
pub(crate) fn is_before(sequence: u32, other: u32) -> bool
    ensures { (first place behind : ℕ) → sequence ≡ number_at first place → other ≡ number_at first behind
        → AreNear place behind → IsTrue result ↔ (place < behind) }
{
    let ahead = other.wrapping_sub(sequence);
    ahead != 0 && ahead < HALF
}
