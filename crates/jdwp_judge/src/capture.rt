//! Whole captures.
ghost use Rattle.std.specs.Prelude.{◌≡◌, ◌↔◌, [], ℕ, Some, None, IfOk, OnOk};
ghost use Rattle.std.specs.Str.Lines.{lines as lines_of};
ghost use Rattle.std.specs.String.{string_bytes};
ghost use Rattle.jdwp_judge.specs.LineJudges.{HasHeardLines, told_of};
ghost use Rattle.jdwp_show.specs.CaptureLines.{capture_lines, capture_lines_under};
ghost use Rattle.jdwp_show.specs.Sessions.{BeginsSession, BeginsSessionUnder, IsFirstFault, IsFirstFaultUnder, verdict, verdict_under, first_fault, first_fault_under};
ghost use Rattle.jdwp_show.specs.Transcripts.{Tells};
ghost use Rattle.jdwp_show.specs.declared.capture_fault.CaptureFault.{CaptureFault};
ghost use Rattle.jdwp_show.specs.declared.table.Table as tables;
ghost use Rattle.jdwp_show.specs.declared.verdict.Verdict as verdicts;

use crate::line_judge::LineJudge;
use jdwp_show::{CaptureFault, Shown, Table, Transcript, Verdict};
use jdwp_wire::NoMemory;
use std::alloc::Global;

/// Judges a capture: lines `> HEX`, bytes that the debugger sent, and `< HEX`, bytes that the target sent, cut anywhere.
///
/// A line that does not read is the first fault, wherever it stands. Else the messages and frame faults are judged in
/// the order of the lines that complete them. In one packet, its end is judged before its id, and its id before its data.
/// Data are judged by the layout of the command, under the widths of ids that the first reply to VirtualMachine.IDSizes
/// tells; data of commands that the table does not have or does not read are not judged, nor, where no widths are told,
/// any but those of replies to VirtualMachine.IDSizes and of replies with an error.
///
/// # Errors
/// `NoMemory` where an allocation was refused.
pub fn check(alloc: Global, text: &str) -> Result<Verdict, NoMemory>
    // Yes exactly where the capture begins a session.
    ensures yes { IfOk result (λ answer. (answer ≡ Verdict.Yes) ↔ BeginsSession text.now) }
    // No exactly with its first fault.
    ensures no { IfOk result (λ answer. (line : ℕ) (fault : CaptureFault)
        → (answer ≡ Verdict.No line fault) ↔ IsFirstFault text.now line fault) }
    // The same as a function.
    ensures value { IfOk result (λ answer. answer ≡ verdict text.now) }
{
    check_under(alloc, Table::Standard, text)
}

/// The same where data are read by the layouts of this table.
///
/// # Errors
/// `NoMemory` where an allocation was refused.
pub fn check_under(alloc: Global, table: Table, text: &str) -> Result<Verdict, NoMemory>
    // Yes exactly where the capture begins a session.
    ensures yes { IfOk result (λ answer. (answer ≡ Verdict.Yes) ↔ BeginsSessionUnder table text.now) }
    // No exactly with its first fault.
    ensures no { IfOk result (λ answer. (line : ℕ) (fault : CaptureFault)
        → (answer ≡ Verdict.No line fault) ↔ IsFirstFaultUnder table text.now line fault) }
    // The same as a function.
    ensures value { IfOk result (λ answer. answer ≡ verdict_under table text.now) }
{
    answer(alloc, table, text)
}

fn answer(alloc: Global, table: Table, text: &str) -> Result<Verdict, NoMemory>
    ensures { IfOk result (λ answer. answer ≡ verdict_under table text.now) }
{
    match judge(alloc, table, text, &mut Transcript::none(alloc))? {
        None => Ok(Verdict::Yes),
        Some((line, fault)) => Ok(Verdict::No(line, fault)),
    }
}

/// Shows a capture in words: each message before the first fault in a line of its own, and where there is no fault, how
/// many bytes of each end belong to no whole message.
///
/// The handshake is `> hello` from the debugger and `< hello` from the target, a command `> ID SET.COMMAND DATA`, its
/// reply `< ID reply SET.COMMAND ERROR DATA`, and a composite of events `< ID Event.Composite DATA`. Data that are not
/// read, since the command is not known or read by no one or the widths of ids are not told, are `raw HEX`.
///
/// # Errors
/// `NoMemory` where an allocation was refused.
pub fn show(alloc: Global, text: &str) -> Result<Shown, NoMemory>
    // There is no fault exactly where the capture begins a session.
    ensures begins { IfOk result (λ shown. (shown.fault ≡ None) ↔ BeginsSession text.now) }
    // There is one exactly where it is the first.
    ensures fault { IfOk result (λ shown. (line : ℕ) (fault : CaptureFault)
        → (shown.fault ≡ Some (line, fault)) ↔ IsFirstFault text.now line fault) }
    // The same as a function: it is the fault by which `check` judges the capture.
    ensures value { IfOk result (λ shown. shown.fault ≡ first_fault text.now) }
    // The lines are those of the messages before the fault, and where there is none, how much is left over.
    ensures lines { IfOk result (λ shown. string_bytes shown.lines ≡ capture_lines text.now) }
{
    show_under(alloc, Table::Standard, text)
}

/// The same where data are read by the layouts of this table.
///
/// # Errors
/// `NoMemory` where an allocation was refused.
pub fn show_under(alloc: Global, table: Table, text: &str) -> Result<Shown, NoMemory>
    // There is no fault exactly where the capture begins a session.
    ensures begins { IfOk result (λ shown. (shown.fault ≡ None)
        ↔ BeginsSessionUnder table text.now) }
    // There is one exactly where it is the first.
    ensures fault { IfOk result (λ shown. (line : ℕ) (fault : CaptureFault)
        → (shown.fault ≡ Some (line, fault)) ↔ IsFirstFaultUnder table text.now line fault) }
    // The same as a function: it is the fault by which `check_under` judges the capture.
    ensures value { IfOk result (λ shown. shown.fault ≡ first_fault_under table text.now) }
    // The lines are those of the messages before the fault, and where there is none, how much is left over.
    ensures lines { IfOk result (λ shown. string_bytes shown.lines
        ≡ capture_lines_under table text.now) }
{
    tell(alloc, table, text)
}

fn tell(alloc: Global, table: Table, text: &str) -> Result<Shown, NoMemory>
    ensures fault { IfOk result (λ shown. shown.fault ≡ first_fault_under table text.now) }
    ensures lines { IfOk result (λ shown. string_bytes shown.lines
        ≡ capture_lines_under table text.now) }
{
    let mut lines = Transcript::new(alloc);
    let fault = judge(alloc, table, text, &mut lines)?;
    let lines = lines.into_string()?;
    Ok(Shown { lines, fault })
}

/// The first fault of a capture. Appends its lines.
fn judge(
    alloc: Global,
    table: Table,
    text: &str,
    lines: &mut Transcript,
) -> Result<Option<(usize, CaptureFault)>, NoMemory>
    ensures fault { IfOk result (λ fault. fault ≡ first_fault_under table text.now) }
    ensures lines { OnOk result (Tells lines.old (capture_lines_under table text.now) lines.new) }
{
    let mut judge = LineJudge::under(alloc, table);
    hear_lines(text, &mut judge, lines)?;
    Ok(judge.finish(lines))
}

/// The judge hears the lines of a capture.
fn hear_lines(text: &str, judge: &mut LineJudge, lines: &mut Transcript) -> Result<(), NoMemory>
    ensures heard { (table : tables.Table) → HasHeardLines table judge.old [] → OnOk result
        (HasHeardLines table judge.new (lines_of text.now)) }
    ensures told { (table : tables.Table) → HasHeardLines table judge.old [] → OnOk result (Tells
        lines.old (told_of table (lines_of text.now)) lines.new) }
{
    for line in text.lines() {
        judge.hear(line.as_bytes(), lines)?;
    }
    Ok(())
}
