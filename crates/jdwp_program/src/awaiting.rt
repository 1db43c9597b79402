//! What a plan waits for that stands still.
ghost use Rattle.std.specs.Prelude.{◌≡◌, map};
ghost use Rattle.jdwp_attach.specs.PlanLines.{said_by};
ghost use Rattle.jdwp_program.specs.Awaiting.{awaited_at, awaited_at_written, awaited_by, awaited_by_written};

use jdwp_attach::PlanLine;
use jdwp_plan::PlanLine as WrittenLine;
use std::fmt;

/// What a line of a plan waits for, or a plan behind its last line.
#[derive(Clone, Copy, Debug, PartialEq, Eq)]
pub enum Awaited {
    /// The widths of ids, for which each line waits at the beginning of a session.
    Widths,
    /// `answers`: the answers to what was asked.
    Answers,
    /// `events N`: so many composites, read in the session.
    Composites(u32),
    /// `wait event`: the next composite.
    NextComposite,
    /// `attach`: both ends closed, no command that waits, and a thread that lives.
    Ends,
    /// Behind the last line: the answers to what was asked.
    LastAnswers,
}

impl Awaited {
    /// What the line at this place of a plan waits for, counted from 1.
    pub fn at(plan: &[PlanLine], line: usize) -> Awaited
        ensures { result ≡ awaited_at (map said_by plan.now) line }
    {
        let Some(place) = line.checked_sub(1) else {
            return Awaited::LastAnswers;
        };
        match plan.get(place) {
            Some(line) => Awaited::by(line),
            None => Awaited::LastAnswers,
        }
    }

    /// What the line at this place of a plan in words waits for, counted from 1.
    pub fn at_written(plan: &[WrittenLine], line: usize) -> Awaited
        ensures { result ≡ awaited_at_written plan.now line }
    {
        let Some(place) = line.checked_sub(1) else {
            return Awaited::LastAnswers;
        };
        match plan.get(place) {
            Some(line) => Awaited::by_written(line),
            None => Awaited::LastAnswers,
        }
    }

    /// What this line of a plan in words waits for.
    fn by_written(line: &WrittenLine) -> Awaited
        ensures { result ≡ awaited_by_written line.now }
    {
        match line {
            WrittenLine::Ask { .. } => Awaited::Answers,
            WrittenLine::Events(count) => Awaited::Composites(*count),
            WrittenLine::WaitEvent => Awaited::NextComposite,
            WrittenLine::Nothing
            | WrittenLine::Version
            | WrittenLine::Let { .. }
            | WrittenLine::Expect(_)
            | WrittenLine::ExpectHeld(_)
            | WrittenLine::ExpectFree(_)
            | WrittenLine::Timeout(_)
            | WrittenLine::Mirror
            | WrittenLine::MayEnd => Awaited::Widths,
        }
    }

    /// What this line waits for.
    fn by(line: &PlanLine) -> Awaited
        ensures { result ≡ awaited_by (said_by line.now) }
    {
        match line {
            PlanLine::Answers => Awaited::Answers,
            PlanLine::Events(count) => Awaited::Composites(*count),
            PlanLine::Attach => Awaited::Ends,
            PlanLine::Ask { .. }
            | PlanLine::Mirror
            | PlanLine::LoseTarget
            | PlanLine::LoseDebugger => Awaited::Widths,
        }
    }
}

impl fmt::Display for Awaited {
    fn fmt<W: fmt::Write>(&self, f: &mut fmt::Formatter<W>) -> fmt::Result {
        match self {
            Awaited::Widths => f.write_str("the widths of ids"),
            Awaited::Answers | Awaited::LastAnswers => {
                f.write_str("the answers to what was asked")
            }
            Awaited::Composites(1) => f.write_str("1 composite of the session"),
            Awaited::Composites(count) => write!(f, "{count} composites of the session"),
            Awaited::NextComposite => f.write_str("the next composite"),
            Awaited::Ends => f.write_str(
                "both ends to be closed, with no command that waits, in a machine that lives",
            ),
        }
    }
}
