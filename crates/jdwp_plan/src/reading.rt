//! The text of a plan, read line by line.
ghost use Rattle.std.specs.Prelude.{◌≡◌, IfOk, IfErr, map};
ghost use Rattle.std.specs.Str.Lines.{lines};
ghost use Rattle.std.specs.Option.{option_map};
ghost use Rattle.std.specs.String.{string_bytes};
ghost use Rattle.jdwp_plan.specs.Lines.Said.{Ask};
ghost use Rattle.jdwp_plan.specs.Meanings.{meaning, said_by, texts_now};
ghost use Rattle.jdwp_plan.specs.Plans as plans;
ghost use Rattle.jdwp_plan.specs.Plans.{IsFirstFault, IsNoCommand, ReadsLine, Says};

use crate::commands::command_named;
use crate::parsing::says;
use crate::plan_fault::{Expected, PlanFault, Refusal};
use crate::plan_line::PlanLine;
use crate::spoken::Spoken;
use std::alloc::{AllocError, Global};

/// Where the name of a command stands in its line.
const BEHIND_ASK: usize = 4;

/// Whether the first line of a text is `plan 2`.
pub fn is_written(text: &str) -> bool
    ensures { result ≡ plans.is_written (lines text.now) }
{
    match text.lines().next() {
        Some(line) => line == "plan 2",
        None => false,
    }
}

/// Reads the plan that a text is, line by line as `str::lines` parts them. The plan has as many lines as the text: the line of the
/// number N is at N - 1.
///
/// # Errors
/// `Line` with the number of the first line that says nothing, the place in it, and what was expected there; `NoMemory` where an allocation was
/// refused, behind lines that have no fault.
pub fn read_written(alloc: Global, text: &str) -> Result<Vec<PlanLine>, PlanFault>
    ensures read { IfOk result (λ plan. Says (lines text.now) (map said_by plan.items)) }
    ensures fault { IfErr result (IsFirstFault (lines text.now)) }
{
    let mut plan = Vec::new(alloc);
    for line in text.lines() {
        match read_line(alloc, line) {
            Ok(line) => plan.push(line)?,
            Err(Refusal::Stop(stop)) => {
                return Err(PlanFault::Line {
                    line: plan.len() + 1,
                    place: line.len().saturating_sub(stop.left),
                    expected: stop.expected,
                });
            }
            Err(Refusal::NoCommand) => {
                return Err(PlanFault::Line {
                    line: plan.len() + 1,
                    place: BEHIND_ASK,
                    expected: Expected::Command,
                });
            }
            Err(Refusal::NoMemory) => return Err(PlanFault::NoMemory),
        }
    }
    Ok(plan)
}

/// Reads one line.
fn read_line(alloc: Global, line: &str) -> Result<PlanLine, Refusal>
    ensures { ReadsLine line.now result }
{
    let spoken = says(line)?;
    owned(alloc, spoken)
}

/// The line that says this, with texts of its own, and commands by their numbers.
fn owned(alloc: Global, spoken: Spoken<'_>) -> Result<PlanLine, Refusal>
    ensures ok { IfOk result (λ line. said_by line ≡ meaning spoken.entry) }
    ensures err { IfErr result (IsNoCommand (meaning spoken.entry)) }
{
    let line = match spoken {
        Spoken::Nothing => PlanLine::Nothing,
        Spoken::Version => PlanLine::Version,
        Spoken::Ask(name, data) => return owned_ask(alloc, name, data),
        Spoken::Let(name, path) => PlanLine::Let {
            name: String::from_str(alloc, name)?,
            path,
        },
        Spoken::Expect(text) => PlanLine::Expect(String::from_str(alloc, text)?),
        Spoken::ExpectHeld(text) => PlanLine::ExpectHeld(String::from_str(alloc, text)?),
        Spoken::ExpectFree(text) => PlanLine::ExpectFree(String::from_str(alloc, text)?),
        Spoken::Timeout(milliseconds) => PlanLine::Timeout(milliseconds),
        Spoken::Events(count) => PlanLine::Events(count),
        Spoken::WaitEvent => PlanLine::WaitEvent,
        Spoken::Mirror => PlanLine::Mirror,
        Spoken::MayEnd => PlanLine::MayEnd,
    };
    Ok(line)
}

/// The line that asks the command of this name.
fn owned_ask(alloc: Global, name: &str, data: Option<&str>) -> Result<PlanLine, Refusal>
    ensures ok { IfOk result (λ line. said_by line ≡ Ask name.now (texts_now «data».entry)) }
    ensures err { IfErr result (IsNoCommand (Ask name.now (texts_now «data».entry))) }
{
    let Some((set, number)) = command_named(name) else {
        return Err(Refusal::NoCommand);
    };
    let data = owned_text(alloc, data)?;
    Ok(PlanLine::Ask { set, number, data })
}

/// A text of its own, where there is one.
fn owned_text(alloc: Global, text: Option<&str>) -> Result<Option<String>, AllocError>
    ensures { IfOk result (λ own. option_map string_bytes own ≡ texts_now text.entry) }
{
    match text {
        Some(text) => Ok(Some(String::from_str(alloc, text)?)),
        None => Ok(None),
    }
}
