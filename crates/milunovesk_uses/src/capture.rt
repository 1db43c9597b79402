//! A capture judged.
ghost use Rattle.std.specs.Prelude.{◌≡◌, ◌↔◌, ℕ, None, Some, IfOk};
ghost use Rattle.milunovesk.specs.Show.CaptureFault.{CaptureFault};
ghost use Rattle.milunovesk.specs.Show.Sessions.{BeginsSession, IsFirstFault};

use milunovesk::{NoMemory, Verdict, check};
use std::alloc::Global;

/// The line of the first fault of a recorded session, from 1; None where it keeps the protocol.
///
/// # Errors
/// `NoMemory` where an allocation was refused.
pub fn first_faulty_line(alloc: Global, capture: &str) -> Result<Option<usize>, NoMemory>
    ensures keeps { IfOk result (λ line. (line ≡ None) ↔ BeginsSession capture.now) }
    ensures line { IfOk result (λ line. (place : ℕ)
        → (line ≡ Some place) ↔ ((fault : CaptureFault) × IsFirstFault capture.now place fault)) }
{
    match check(alloc, capture)? {
        Verdict::Yes => Ok(None),
        Verdict::No(line, _fault) => Ok(Some(line)),
    }
}
