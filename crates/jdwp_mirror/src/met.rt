//! Known threads as they are kept, where all counts may have moved since.
ghost use Rattle.std.specs.Prelude.{◌≡◌};
ghost use Rattle.jdwp_mirror.specs.Numbering as spec;

use crate::drift::Standing;
use crate::moves::Moves;
use crate::threads::Known;
use jdwp_value::ObjectId;

/// A thread as it was when it was last written.
#[derive(Clone, Copy)]
pub(crate) struct Met {
    known: Known,
    /// How many moves of all counts had been made by then.
    time: usize,
}

impl Met {
    /// A thread that is written after so many moves of all counts.
    pub fn of(known: Known, time: usize) -> Met
        ensures { result ≡ record { known = known; time = time } }
    {
        Met { known, time }
    }

    pub fn id(self) -> ObjectId
        ensures { result ≡ self.known.id }
    {
        self.known.id
    }

    /// The thread as it is, where these moves of all counts were made.
    pub fn seen(self, moves: &Moves) -> Known
        ensures { result ≡ spec.seen moves.now self }
    {
        let written = Standing {
            count: self.known.count,
            held: self.known.held,
        };
        let now = moves.after(self.time, written);
        Known {
            id: self.known.id,
            count: now.count,
            held: now.held,
        }
    }
}
