//! Texts with values in the place of names.
ghost use Rattle.std.specs.Prelude.{◌≡◌, Ok, IfOk, IfErr};
ghost use Rattle.jdwp_plan.specs.declared.filling.FillFault.TheVariants as fault;
ghost use Rattle.jdwp_plan.specs.Filling.{IsUnfilled, filled};

use crate::quoting::{Place, name_length};
use crate::values::Values;
use std::alloc::{AllocError, AllocFailed, Global};
use thiserror::Error;

/// Why a text is not filled.
#[derive(Clone, Copy, Debug, PartialEq, Eq, Error)]
pub enum FillFault {
    /// At this byte of the text, counted from 0, stands a `$` behind which no name stands to which a value is bound.
    #[error("at byte {0}, counted from 0: expected a name that a line `let` above has bound")]
    NoValue(usize),
    /// An allocation was refused.
    #[error("no memory")]
    NoMemory,
}

impl From<AllocError> for FillFault {
    ghost from_gives = { λ _ f. f ≡ fault.NoMemory };

    fn from(_error: AllocError) -> FillFault {
        FillFault::NoMemory
    }
}

impl<T: Drop> From<AllocFailed<T>> for FillFault {
    ghost from_gives = { λ _ f. f ≡ fault.NoMemory };

    fn from(_error: AllocFailed<T>) -> FillFault {
        FillFault::NoMemory
    }
}

impl Values {
    /// The text with the values in the place of names: `$NAME`, but not in double quotes.
    ///
    /// # Errors
    /// `NoValue` with the place of the first `$` that has none; `NoMemory`.
    #[tactic(auto, using(crate::proofs::FillingLaws::name_step))]
    pub fn fill(&self, alloc: Global, text: &[u8]) -> Result<Vec<u8>, FillFault>
        ensures ok { IfOk result (λ t. filled self.now text.now ≡ Ok t.items) }
        ensures err { IfErr result (IsUnfilled self.now text.now) }
    {
        let mut out = Vec::new(alloc);
        let mut place = Place::Outside;
        let mut rest = text;
        while let [byte, behind @ ..] = rest {
            if place.has(*byte, b'$') {
                let length = name_length(behind);
                let (name, after) = behind.split_at(length);
                let Some(value) = self.get(name) else {
                    return Err(FillFault::NoValue(text.len() - rest.len()));
                };
                out.extend_from_slice(value)?;
                rest = after;
            } else {
                out.push(*byte)?;
                place = place.behind(*byte);
                rest = behind;
            }
        }
        Ok(out)
    }
}
