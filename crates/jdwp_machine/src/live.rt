//! Which threads live, and which have run out.
ghost use Rattle.std.specs.Prelude.{◌≡◌};
ghost use Rattle.jdwp_event.specs.Occurrences.{runs_out};
ghost use Rattle.jdwp_machine.specs.Meanings.{has, numbers};

use jdwp_event::{Happening, Occurrence};
use jdwp_value::ObjectId;

/// Whether a thread is among these: a machine's `next`, `step` and `end` ask it of the threads that live.
pub fn is_among(thread: ObjectId, live: &[ObjectId]) -> bool
    ensures { result ≡ has (numbers live.now) thread.0 }
{
    for id in live {
        if *id == thread {
            return true;
        }
    }
    false
}

/// Whether a thread whose next step makes this happen has run out: a machine's `step` asks that it has not.
pub fn has_run_out(happening: &Happening) -> bool
    ensures { result ≡ runs_out happening.now }
{
    matches!(happening.occurrence(), Occurrence::RanOut)
}
