//! The text of a plan, read line by line.
ghost use Rattle.std.specs.Prelude.{◌≡◌, IfOk, IfErr, false, map};
ghost use Rattle.std.specs.List.{list_any};
ghost use Rattle.std.specs.Result.{IsErrOf};
ghost use Rattle.std.specs.Str.Lines.{lines};
ghost use Rattle.jdwp_attach.specs.declared.plans.plan_fault.Refusal.TheVariants as refusal;
ghost use Rattle.jdwp_attach.specs.Lines.{alone, ask_by, events_by, is_empty, line_by, line_of, lose_by, words_of};
ghost use Rattle.jdwp_attach.specs.Lines.Said.{Answers, Mirror};
ghost use Rattle.jdwp_attach.specs.PlanLines.{Gives, line_for, said_by, texts};
ghost use Rattle.jdwp_attach.specs.Plans.{IsFirstFault, IsFirstFaultBy, IsFirstFaultForAttach, Says, SaysBy, SaysForAttach};

use crate::plans::plan_fault::{LineFault, PlanFault, Refusal};
use crate::plans::plan_line::PlanLine;
use crate::plans::values::{byte_number, data, word_number};
use std::alloc::{AllocError, Global};

/// The command that a plan is read for.
#[derive(Clone, Copy)]
enum ProgramCommand {
    Attach,
    Pair,
}

/// Reads the plan that a text is, line by line as `str::lines` parts them. A text without a line is a plan without a line.
///
/// # Errors
/// `Line` with the number and the fault of the first line that is none of a plan; `NoMemory` where an allocation was refused, behind lines
/// that have no fault.
pub fn read_plan(alloc: Global, text: &str) -> Result<Vec<PlanLine>, PlanFault>
    ensures read { IfOk result (λ plan. Says (lines text.now) (map said_by plan.items)) }
    ensures fault { IfErr result (IsFirstFault (lines text.now)) }
{
    read_lines(alloc, text, ProgramCommand::Pair)
}

/// Reads the plan of `attach` that a text is, as `read_plan` does, but a line of `pair` alone is none of it.
///
/// # Errors
/// `Line` with the number and the fault of the first line that is none of a plan of `attach`; `NoMemory` where an allocation was refused,
/// behind lines that have no fault.
pub fn read_attach_plan(alloc: Global, text: &str) -> Result<Vec<PlanLine>, PlanFault>
    ensures read { IfOk result (λ plan. SaysForAttach (lines text.now) (map said_by plan.items)) }
    ensures fault { IfErr result (IsFirstFaultForAttach (lines text.now)) }
{
    read_lines(alloc, text, ProgramCommand::Attach)
}

/// Reads the plan that a text is for the command.
fn read_lines(
    alloc: Global,
    text: &str,
    command: ProgramCommand,
) -> Result<Vec<PlanLine>, PlanFault>
    ensures read { IfOk result (λ plan. SaysBy (line_for command) (lines text.now)
        (map said_by plan.items)) }
    ensures fault { IfErr result (IsFirstFaultBy (line_for command) (lines text.now)) }
{
    let mut plan = Vec::new(alloc);
    for line in text.lines() {
        match read_line_for(alloc, line, command) {
            Ok(line) => plan.push(line)?,
            Err(Refusal::Fault(fault)) => return Err(PlanFault::Line(plan.len() + 1, fault)),
            Err(Refusal::NoMemory) => return Err(PlanFault::NoMemory),
        }
    }
    Ok(plan)
}

/// Reads one line of a plan for the command.
fn read_line_for(alloc: Global, line: &str, command: ProgramCommand) -> Result<PlanLine, Refusal>
    ensures value { Gives said_by result (line_for command line.now) }
    ensures memory { IsErrOf result refusal.NoMemory → is_empty line.now ≡ false }
{
    let line = read_line(alloc, line)?;
    match command {
        ProgramCommand::Attach if line.is_of_pair() => Err(Refusal::Fault(LineFault::PairAlone)),
        ProgramCommand::Attach | ProgramCommand::Pair => Ok(line),
    }
}

/// Reads one line.
fn read_line(alloc: Global, line: &str) -> Result<PlanLine, Refusal>
    ensures value { Gives said_by result (line_of line.now) }
    ensures memory { IsErrOf result refusal.NoMemory → is_empty line.now ≡ false }
{
    if line.is_empty() {
        return Err(Refusal::Fault(LineFault::Blank));
    }
    let words = words(alloc, line)?;
    if has_empty(&words) {
        return Err(Refusal::Fault(LineFault::Spacing));
    }
    read_words(alloc, &words)
}

/// What stands between the spaces of a line.
fn words(alloc: Global, line: &str) -> Result<Vec<&str>, AllocError>
    ensures { IfOk result (λ words. texts words.items ≡ words_of line.now) }
{
    line.split(' ').collect(alloc)
}

/// Whether one of these words is empty.
fn has_empty(words: &[&str]) -> bool
    ensures { result ≡ list_any is_empty (texts words.now) }
{
    words.iter().any(|word| word.is_empty())
}

/// Reads a line of these words.
fn read_words(alloc: Global, words: &[&str]) -> Result<PlanLine, Refusal>
    ensures { Gives said_by result (line_by (texts words.now)) }
{
    let Some((first, others)) = words.split_first() else {
        return Err(Refusal::Fault(LineFault::FirstWord));
    };
    if *first == "ask" {
        read_ask(alloc, others)
    } else if *first == "answers" {
        read_alone(others, PlanLine::Answers)
    } else if *first == "events" {
        read_events(others)
    } else if *first == "mirror" {
        read_alone(others, PlanLine::Mirror)
    } else if *first == "lose" {
        read_lose(others)
    } else if *first == "attach" {
        read_alone(others, PlanLine::Attach)
    } else {
        Err(Refusal::Fault(LineFault::FirstWord))
    }
}

/// Reads what follows `ask`.
fn read_ask(alloc: Global, others: &[&str]) -> Result<PlanLine, Refusal>
    ensures { Gives said_by result (ask_by (texts others.now)) }
{
    let (set, number, digits) = match others {
        [set, number] => (*set, *number, None),
        [set, number, digits] => (*set, *number, Some(*digits)),
        _ => return Err(Refusal::Fault(LineFault::WordCount)),
    };
    let set = byte_number(set).ok_or(LineFault::Set)?;
    let number = byte_number(number).ok_or(LineFault::Number)?;
    let data = match digits {
        None => Vec::new(alloc),
        Some(digits) => data(alloc, digits)?,
    };
    Ok(PlanLine::Ask { set, number, data })
}

/// Reads what follows `events`.
fn read_events(others: &[&str]) -> Result<PlanLine, Refusal>
    ensures { Gives said_by result (events_by (texts others.now)) }
{
    match others {
        [count] => Ok(PlanLine::Events(word_number(count).ok_or(LineFault::Count)?)),
        _ => Err(Refusal::Fault(LineFault::WordCount)),
    }
}

/// Reads what follows `lose`.
fn read_lose(others: &[&str]) -> Result<PlanLine, Refusal>
    ensures { Gives said_by result (lose_by (texts others.now)) }
{
    let [end] = others else {
        return Err(Refusal::Fault(LineFault::WordCount));
    };
    if *end == "target" {
        Ok(PlanLine::LoseTarget)
    } else if *end == "debugger" {
        Ok(PlanLine::LoseDebugger)
    } else {
        Err(Refusal::Fault(LineFault::End))
    }
}

/// Reads what follows a word that stands alone.
fn read_alone(others: &[&str], line: PlanLine) -> Result<PlanLine, Refusal>
    ensures { Gives said_by result (alone (said_by line) (texts others.now)) }
{
    if others.is_empty() {
        Ok(line)
    } else {
        Err(Refusal::Fault(LineFault::WordCount))
    }
}
