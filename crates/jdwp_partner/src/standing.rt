//! How a target stands that goes on while its debugger waits.
ghost use Rattle.std.specs.Prelude.{◌≡◌};
ghost use Rattle.jdwp_partner.specs.Standings.{standing_of};

use jdwp_target::TargetFault;

/// How a target stands that goes on while its debugger waits.
#[derive(Clone, Copy, Debug, PartialEq, Eq)]
pub enum Standing {
    /// It said something, or its session is over, or nobody waited yet since bytes came.
    Goes,
    /// Nothing more can happen: no message came whole, nothing is deferred, and no thread made a step.
    Still,
    /// All rounds were used.
    AllUsed,
    /// It refused what came. This is the number of the fault.
    Refused(u16),
    /// An allocation was refused.
    NoMemory,
}

impl Standing {
    /// That of a target whose call failed so.
    pub(crate) fn of(fault: TargetFault) -> Standing
        ensures { result ≡ standing_of fault }
    {
        match fault {
            TargetFault::Frame(fault) => Standing::Refused(fault.number()),
            TargetFault::NoMemory => Standing::NoMemory,
        }
    }
}
