//! Why a plan is refused.
ghost use Rattle.std.specs.Prelude.{◌≡◌};
ghost use Rattle.jdwp_plan.specs.declared.plan_fault.PlanFault.TheVariants as plan;
ghost use Rattle.jdwp_plan.specs.declared.plan_fault.Refusal.TheVariants as refusal;

use std::alloc::{AllocError, AllocFailed};
use thiserror::Error;

/// What is to stand at a place of a line.
#[derive(Clone, Copy, Debug, PartialEq, Eq, Error)]
pub enum Expected {
    /// The first word of a line.
    #[error("`ask`, `let`, `expect`, `timeout`, `events`, `wait event`, `mirror` or `may end`")]
    Word,
    /// The first line of a plan.
    #[error("`plan 2`")]
    Version,
    /// The space before what a word is to be followed by.
    #[error("a space, and what belongs behind it")]
    Space,
    /// The name of a command.
    #[error("the name of a command, as VirtualMachine.Version")]
    Command,
    /// The name of a value.
    #[error("a name of letters, digits and `_`")]
    Name,
    /// What stands between a name and a path.
    #[error("`=` between two spaces, and a path")]
    Equals,
    /// A number of a path.
    #[error("a path of one to three numbers with dots between them, as 0.1")]
    Path,
    /// The text that is expected.
    #[error("a text")]
    Text,
    /// A number.
    #[error("a number from 0 to 4294967295")]
    Number,
    /// What is waited for.
    #[error("`event`")]
    Event,
    /// What may be.
    #[error("`end`")]
    MayEnd,
    /// The end of the line.
    #[error("the end of the line")]
    End,
}

/// Why a plan is refused.
#[derive(Clone, Copy, Debug, PartialEq, Eq, Error)]
pub enum PlanFault {
    /// The first line that says nothing: its number, from 1, the byte of it, from 0, at which it goes wrong, and what was expected there.
    #[error("line {line} of the plan: at byte {place}, counted from 0: expected {expected}")]
    Line {
        /// The line, counted from 1.
        line: usize,
        /// The byte of the line, counted from 0.
        place: usize,
        /// What was expected there.
        expected: Expected,
    },
    /// An allocation was refused.
    #[error("no memory")]
    NoMemory,
}

/// Where a line goes wrong, by how many bytes of it follow, and what was expected there.
#[derive(Clone, Copy, Debug, PartialEq, Eq)]
pub(crate) struct Stop {
    pub left: usize,
    pub expected: Expected,
}

/// Why a line was not read.
#[derive(Clone, Copy)]
pub(crate) enum Refusal {
    Stop(Stop),
    NoCommand,
    NoMemory,
}

impl From<AllocError> for PlanFault {
    ghost from_gives = { λ _ f. f ≡ plan.NoMemory };

    fn from(_error: AllocError) -> PlanFault {
        PlanFault::NoMemory
    }
}

impl<T: Drop> From<AllocFailed<T>> for PlanFault {
    ghost from_gives = { λ _ f. f ≡ plan.NoMemory };

    fn from(_error: AllocFailed<T>) -> PlanFault {
        PlanFault::NoMemory
    }
}

impl From<AllocError> for Refusal {
    ghost from_gives = { λ _ f. f ≡ refusal.NoMemory };

    fn from(_error: AllocError) -> Refusal {
        Refusal::NoMemory
    }
}

impl From<Stop> for Refusal {
    ghost from_gives = { λ e f. f ≡ refusal.Stop e };

    fn from(stop: Stop) -> Refusal {
        Refusal::Stop(stop)
    }
}
