//! How a run of a plan ends.
ghost use Rattle.std.specs.Prelude.{◌≡◌};

use jdwp_end::Ended;

/// How a run of a plan ended, and at which of its lines where one was refused.
#[derive(Clone, Copy, Debug, PartialEq, Eq)]
pub enum Attached {
    /// The session ended so. If it was refused, what the target sent was.
    Ended(Ended),
    /// The debugger refused the command of a line of the plan, or the line is one of `pair` alone.
    RefusedLine {
        /// The line, counted from 1.
        line: usize,
        /// The number of the refusal, 31 to 36, or 0 for a line of `pair` alone.
        number: u16,
    },
}

impl Attached {
    ghost use Rattle.jdwp_attach.specs.PlanRuns.{ended_of};

    /// How the session ended, whichever line was refused.
    pub fn ended(self) -> Ended
        ensures { result ≡ ended_of self }
    {
        match self {
            Attached::Ended(ended) => ended,
            Attached::RefusedLine { line: _, number } => Ended::Refused(number),
        }
    }
}
