//! Why a target, or a link, is not made.
ghost use Rattle.std.specs.Prelude.{◌≡◌};
ghost use Rattle.jdwp_target.specs.SetupNumbers.{setup_number};
ghost use Rattle.jdwp_target.specs.declared.setup.SetupFault.TheVariants as fault;

use jdwp_wire::NoMemory;
use thiserror::Error;

/// Why no target, or no link, is made of a machine within given limits.
#[derive(Clone, Copy, Debug, PartialEq, Eq, Error)]
pub enum SetupFault {
    /// More threads of the machine live than the limits let live.
    #[error("fault 61: more live threads than the limits let live")]
    TooManyThreads,
    /// An allocation was refused.
    #[error("no memory")]
    NoMemory,
}

impl SetupFault {
    /// The number of the fault: 61, or 62 for want of memory.
    pub fn number(self) -> u16
        ensures { result ≡ setup_number self }
    {
        match self {
            SetupFault::TooManyThreads => 61,
            SetupFault::NoMemory => 62,
        }
    }
}

impl From<NoMemory> for SetupFault {
    ghost from_gives = { λ _ e. e ≡ fault.NoMemory };

    fn from(_error: NoMemory) -> SetupFault {
        SetupFault::NoMemory
    }
}
