//! What a run has left, and what it keeps between turns.

use jdwp_end::CHUNK;

/// What a run has left, and what it keeps between turns.
#[derive(Drop)]
pub(crate) struct Run {
    /// How many turns may still be made.
    pub left: u64,
    /// How many composites were read in the session.
    pub composites: u64,
    pub buffer: [u8; CHUNK],
}
