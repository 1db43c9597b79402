//! Why data could not be read or written.
ghost use Rattle.std.specs.Prelude.{◌≡◌};
ghost use Rattle.jdwp_wire.specs.declared.data_fault.DataFault.TheVariants.{NoMemory};
ghost use Rattle.jdwp_wire.specs.DataFaultNumbers.{data_fault_number};

use std::alloc::{AllocError, AllocFailed};
use thiserror::Error;

/// The first fault from left to right of data that were read, or of values that were to be written.
#[derive(Clone, Copy, Debug, PartialEq, Eq, Error)]
pub enum DataFault {
    /// More bytes are called for than there are: the length of the whole slice that was given.
    #[error("fault 11: {0} bytes are too few")]
    Short(usize),
    /// Bytes stand after the last item, which ends at this place, counted from 0.
    #[error("fault 12: bytes are left over at {0}")]
    Extra(usize),
    /// A tag or kind that the specification does not name, or a null location that is not all zero.
    #[error("fault 13: a bad tag")]
    BadTag,
    /// A length or count below 0.
    #[error("fault 14: a negative count")]
    NegativeCount,
    /// The bytes of a string are not UTF-8.
    #[error("fault 15: a string is not UTF-8")]
    NotUtf8,
    /// A length or count above 2,147,483,647 was to be written.
    #[error("fault 16: a length or count is too large")]
    BadSize,
    /// An id was to be written that its width does not hold.
    #[error("fault 17: an id is too wide")]
    IdTooWide,
    /// An allocation was refused.
    #[error("fault 18: no memory")]
    NoMemory,
}

impl DataFault {
    /// The number of the fault, 11 to 18, as programs print it.
    pub fn number(self) -> u16
        ensures { result ≡ data_fault_number self }
    {
        match self {
            DataFault::Short(_) => 11,
            DataFault::Extra(_) => 12,
            DataFault::BadTag => 13,
            DataFault::NegativeCount => 14,
            DataFault::NotUtf8 => 15,
            DataFault::BadSize => 16,
            DataFault::IdTooWide => 17,
            DataFault::NoMemory => 18,
        }
    }
}

impl From<AllocError> for DataFault {
    ghost from_gives = { λ _ e. e ≡ NoMemory };

    fn from(_error: AllocError) -> DataFault {
        DataFault::NoMemory
    }
}

impl<T: Drop> From<AllocFailed<T>> for DataFault {
    ghost from_gives = { λ _ e. e ≡ NoMemory };

    fn from(_error: AllocFailed<T>) -> DataFault {
        DataFault::NoMemory
    }
}
