//! Why a script was refused.
ghost use Rattle.std.specs.Prelude.{◌≡◌};
ghost use Rattle.jdwp_script.specs.declared.fault.ScriptFault.TheVariants.{NoMemory};
ghost use Rattle.jdwp_script.specs.ScriptFaultNumbers.{script_fault_number};

use crate::member::Member;
use jdwp_wire::NoMemory;
use std::alloc::{AllocError, AllocFailed};
use thiserror::Error;

/// The first fault of a script. A text that is no JSON comes first, then a missing member, then a limit, an id that
/// stands twice, an id that is too wide, and a bad reference.
#[derive(Clone, Copy, Debug, PartialEq, Eq, Error)]
pub enum ScriptFault {
    /// The text is not JSON.
    #[error("fault 21: the text is not JSON")]
    NotJson,
    /// The first member, in the order in which scripts are described, that is missing or of another type.
    #[error("fault 22: the member {0} is missing or of another type")]
    Missing(Member),
    /// Two things of one kind have one id.
    #[error("fault 23: an id stands twice")]
    IdTwice,
    /// A width is outside 1 to 8, or an id does not fit its width.
    #[error("fault 24: an id is too wide")]
    IdTooWide,
    /// An id is 0 or unknown, or something stands where it may not.
    #[error("fault 25: a bad reference")]
    BadReference,
    /// There is more of something than a script may have.
    #[error("fault 26: a limit is passed")]
    OverLimit,
    /// An allocation was refused.
    #[error("fault 27: no memory")]
    NoMemory,
}

impl ScriptFault {
    /// The number of the fault, 21 to 27, as programs print it.
    pub fn number(self) -> u16
        ensures { result ≡ script_fault_number self }
    {
        match self {
            ScriptFault::NotJson => 21,
            ScriptFault::Missing(_) => 22,
            ScriptFault::IdTwice => 23,
            ScriptFault::IdTooWide => 24,
            ScriptFault::BadReference => 25,
            ScriptFault::OverLimit => 26,
            ScriptFault::NoMemory => 27,
        }
    }
}

impl From<NoMemory> for ScriptFault {
    ghost from_gives = { λ _ e. e ≡ NoMemory };

    fn from(_error: NoMemory) -> ScriptFault {
        ScriptFault::NoMemory
    }
}

impl From<AllocError> for ScriptFault {
    ghost from_gives = { λ _ e. e ≡ NoMemory };

    fn from(_error: AllocError) -> ScriptFault {
        ScriptFault::NoMemory
    }
}

impl<T: Drop> From<AllocFailed<T>> for ScriptFault {
    ghost from_gives = { λ _ e. e ≡ NoMemory };

    fn from(_error: AllocFailed<T>) -> ScriptFault {
        ScriptFault::NoMemory
    }
}
