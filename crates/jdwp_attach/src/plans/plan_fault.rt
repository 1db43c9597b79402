//! Why a plan is refused.
ghost use Rattle.std.specs.Prelude.{◌≡◌};
ghost use Rattle.jdwp_attach.specs.declared.plans.plan_fault.PlanFault.TheVariants as plan;
ghost use Rattle.jdwp_attach.specs.declared.plans.plan_fault.Refusal.TheVariants as refusal;

use std::alloc::{AllocError, AllocFailed};
use thiserror::Error;

/// What is wrong with a line of a plan: the first of these that is, in this order.
#[derive(Clone, Copy, Debug, PartialEq, Eq, Error)]
pub enum LineFault {
    /// It is empty.
    #[error("an empty line")]
    Blank,
    /// Two spaces stand side by side, or one stands before the first word or behind the last.
    #[error("words that are not parted by one space each")]
    Spacing,
    /// Its first word is not `ask`, `answers`, `events`, `mirror`, `lose` or `attach`.
    #[error("a first word that is not `ask`, `answers`, `events`, `mirror`, `lose` or `attach`")]
    FirstWord,
    /// More or fewer words follow the first than in `ask SET NUMBER`, `ask SET NUMBER HEX`, `answers`, `events N`, `mirror`, `lose target`,
    /// `lose debugger` and `attach`.
    #[error("no line `ask SET NUMBER`, `ask SET NUMBER HEX`, `answers`, `events N`, `mirror`, `lose target`, `lose debugger` or `attach`")]
    WordCount,
    /// The command set of `ask` is not a number from 0 to 255.
    #[error("a command set that is not a number from 0 to 255")]
    Set,
    /// The command of `ask` is not a number from 0 to 255.
    #[error("a command that is not a number from 0 to 255")]
    Number,
    /// The data of `ask` have an odd number of digits.
    #[error("data of an odd number of hex digits")]
    OddDigits,
    /// The data of `ask` have something else than hex digits.
    #[error("data that are not hex digits")]
    Digits,
    /// What `events` waits for is not a number below 2^32.
    #[error("a number of events that is not a number below 4294967296")]
    Count,
    /// What `lose` names is not `target` or `debugger`.
    #[error("an end that is not `target` or `debugger`")]
    End,
    /// It is a line of `pair` alone, in a plan of `attach`.
    #[error("a line of `pair` alone")]
    PairAlone,
}

/// Why a plan is refused.
#[derive(Clone, Copy, Debug, PartialEq, Eq, Error)]
pub enum PlanFault {
    /// The first line that is none of a plan: its number, from 1, and what is wrong with it.
    #[error("line {0} of the plan: {1}")]
    Line(usize, LineFault),
    /// An allocation was refused.
    #[error("no memory")]
    NoMemory,
}

/// Why a line was not read.
#[derive(Clone, Copy)]
pub(crate) enum Refusal {
    Fault(LineFault),
    NoMemory,
}

impl From<AllocError> for PlanFault {
    ghost from_gives = { λ _ f. f ≡ plan.NoMemory };

    fn from(_error: AllocError) -> PlanFault {
        PlanFault::NoMemory
    }
}

impl<T: Drop> From<AllocFailed<T>> for PlanFault {
    ghost from_gives = { λ _ f. f ≡ plan.NoMemory };

    fn from(_error: AllocFailed<T>) -> PlanFault {
        PlanFault::NoMemory
    }
}

impl From<AllocError> for Refusal {
    ghost from_gives = { λ _ f. f ≡ refusal.NoMemory };

    fn from(_error: AllocError) -> Refusal {
        Refusal::NoMemory
    }
}

impl From<LineFault> for Refusal {
    ghost from_gives = { λ e f. f ≡ refusal.Fault e };

    fn from(fault: LineFault) -> Refusal {
        Refusal::Fault(fault)
    }
}
