//! How the run of a plan ends.
ghost use Rattle.std.specs.Prelude.{◌≡◌, ◌≤◌};
ghost use Rattle.jdwp_plan_run.specs.Endings.{status_of, verdict_of, verdict_of_error, verdict_of_stop};

use crate::stop::Stop;
use jdwp_client::ClientError;
use std::alloc::{AllocError, Global};

/// How the run of a plan ended.
#[derive(Debug, Drop)]
pub enum PlanEnded {
    /// All lines were carried out.
    Done,
    /// This line was not carried out, and those behind it were not reached.
    At {
        /// The line, counted from 1.
        line: usize,
        /// Whether a line `may end` stands before it.
        may_end: bool,
        /// Why.
        stop: Stop,
    },
}

/// What the run of a plan comes to.
#[derive(Clone, Copy, Debug, PartialEq, Eq)]
pub enum PlanVerdict {
    /// All lines were carried out, or the session might end before they were.
    Met,
    /// A line says nothing that can be done, or this debugger refused a command, or what the target sent.
    Refused,
    /// What was told could not be printed.
    NotPrinted,
    /// Memory was wanting.
    NoMemory,
    /// So much came that no more was read.
    TooMuch,
    /// Something else was told than was expected, or the session was over before the last line.
    NotMet,
}

impl PlanVerdict {
    /// The exit status, 0 to 5 in the order of the verdicts.
    pub fn status(self) -> u8
        ensures status { result ≡ status_of self }
        ensures bound { result ≤ 5 }
    {
        match self {
            PlanVerdict::Met => 0,
            PlanVerdict::Refused => 1,
            PlanVerdict::NotPrinted => 2,
            PlanVerdict::NoMemory => 3,
            PlanVerdict::TooMuch => 4,
            PlanVerdict::NotMet => 5,
        }
    }
}

impl PlanEnded {
    /// What the run comes to.
    pub fn verdict(&self) -> PlanVerdict
        ensures { result ≡ verdict_of self.now }
    {
        match self {
            PlanEnded::Done => PlanVerdict::Met,
            PlanEnded::At { may_end, stop, .. } => verdict_at(*may_end, stop),
        }
    }

    /// Why the run ended at a line, and at which, in words; None where all lines were carried out.
    ///
    /// # Errors
    /// `AllocError` where an allocation was refused.
    pub fn message(&self, alloc: Global) -> Result<Option<String>, AllocError> {
        match self {
            PlanEnded::Done => Ok(None),
            PlanEnded::At { line, stop, .. } => {
                let why = words_of(alloc, stop)?;
                Ok(Some(format!(in alloc; "line {line} of the plan{why}")?))
            }
        }
    }
}

/// What a run comes to that this stopped, behind a line `may end` or not.
fn verdict_at(may_end: bool, stop: &Stop) -> PlanVerdict
    ensures { result ≡ verdict_of_stop may_end stop.now }
{
    match stop {
        Stop::Differs { .. } => PlanVerdict::NotMet,
        Stop::Refused(_) => PlanVerdict::Refused,
        Stop::Client(error) => verdict_by(may_end, *error),
        Stop::NoMemory => PlanVerdict::NoMemory,
        Stop::NotPrinted => PlanVerdict::NotPrinted,
    }
}

/// The same of a call of the client that failed so.
fn verdict_by(may_end: bool, error: ClientError) -> PlanVerdict
    ensures { result ≡ verdict_of_error may_end error }
{
    match error {
        ClientError::Closed | ClientError::Lost(_) | ClientError::TooLate(_, _) => {
            if may_end {
                PlanVerdict::Met
            } else {
                PlanVerdict::NotMet
            }
        }
        ClientError::Refused(_) | ClientError::Fault(_) => PlanVerdict::Refused,
        ClientError::NoMemory => PlanVerdict::NoMemory,
        ClientError::TooManyEvents | ClientError::TooManySteps | ClientError::NotWaiting(_) => {
            PlanVerdict::TooMuch
        }
    }
}

/// Why a line was not carried out, behind its number.
fn words_of(alloc: Global, stop: &Stop) -> Result<String, AllocError> {
    match stop {
        Stop::Differs { expected, found } => {
            let expected = String::from_utf8_lossy(alloc, expected)?;
            let found = String::from_utf8_lossy(alloc, found)?;
            format!(in alloc; ": expected `{expected}`, found `{found}`")
        }
        Stop::Refused(refusal) => format!(in alloc; ": {refusal}"),
        Stop::Client(error) => format!(in alloc; " was not reached: {error}"),
        Stop::NoMemory => format!(in alloc; ": no memory"),
        Stop::NotPrinted => format!(in alloc; ": the output can't be written"),
    }
}
