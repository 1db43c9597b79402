//! Captures, shown and judged on a writer.
ghost use Rattle.std.specs.Prelude.{◌≡◌, ◌++◌, IfOk, None, OnOk};
ghost use Rattle.std.specs.String.{string_bytes};
ghost use Rattle.jdwp_show.specs.Sessions.{first_fault_under};
ghost use Rattle.jdwp_program.specs.declared.captures.TellFault.TheVariants as fault;
ghost use Rattle.jdwp_program.specs.Captures.{Tells, fault_line, shown_text_under, verdict_text};
ghost use Rattle.jdwp_program.specs.Outputs.{LeavesTold};

use crate::printing::print;
use jdwp_judge::{check_under, show_under};
use jdwp_show::{CaptureFault, Table, Verdict};
use jdwp_wire::NoMemory;
use std::alloc::{AllocError, Global};
use std::io;
use std::io::{ErrorKind, Write};
use thiserror::Error;

/// What was told of a capture, or of the program's version, which has no fault.
#[derive(Clone, Copy, Debug, PartialEq, Eq)]
pub enum Told {
    /// There is no fault, and all was printed.
    Faultless,
    /// The capture has a fault, and all was printed, the fault with it.
    Faulty,
    /// Who reads the output went away before all was printed.
    Unread,
}

/// Why nothing was told, or not all.
#[derive(Clone, Copy, Debug, Error)]
pub enum TellFault {
    /// The output didn't take all of the text, for another cause than that its reader went away.
    #[error("the output can't be written: {0}")]
    Output(io::Error),
    /// An allocation was refused. Nothing was printed.
    #[error("no memory")]
    NoMemory,
}

impl From<NoMemory> for TellFault {
    ghost from_gives = { λ _ f. f ≡ fault.NoMemory };

    fn from(_error: NoMemory) -> TellFault {
        TellFault::NoMemory
    }
}

impl From<AllocError> for TellFault {
    ghost from_gives = { λ _ f. f ≡ fault.NoMemory };

    fn from(_error: AllocError) -> TellFault {
        TellFault::NoMemory
    }
}

/// Shows a capture whose data are read by this table: its lines, and then `line N: fault K` where it has a fault.
///
/// # Errors
/// `Output` where the output didn't take all of it; `NoMemory`, and then nothing was printed.
pub fn show_capture<O: Write>(
    alloc: Global,
    table: Table,
    capture: &str,
    out: &mut O,
) -> Result<Told, TellFault>
    ensures tells { Tells (first_fault_under table capture.now) (shown_text_under table capture.now)
        (O.contents out.old) (O.contents out.new) result }
    // The same by the exit status.
    ensures leaves { LeavesTold result (O.contents out.old) (O.contents out.new) }
{
    let shown = shown(alloc, table, capture)?;
    tell(out, shown.text.as_str(), shown.fault)
}

/// Judges a capture whose data are read by this table: `yes`, or `no: line N: fault K`.
///
/// # Errors
/// As those of `show_capture`.
pub fn check_capture<O: Write>(
    alloc: Global,
    table: Table,
    capture: &str,
    out: &mut O,
) -> Result<Told, TellFault>
    ensures tells { Tells (first_fault_under table capture.now)
        (verdict_text (first_fault_under table capture.now)) (O.contents out.old)
        (O.contents out.new) result }
    ensures leaves { LeavesTold result (O.contents out.old) (O.contents out.new) }
{
    let judged = judged(alloc, table, capture)?;
    tell(out, judged.text.as_str(), judged.fault)
}

/// Prints a capture as it stands.
///
/// # Errors
/// `Output` where the output didn't take all of it.
pub fn print_capture<O: Write>(capture: &str, out: &mut O) -> Result<Told, TellFault>
    ensures { Tells None capture.now (O.contents out.old) (O.contents out.new) result }
{
    tell(out, capture, None)
}

/// What is to be printed of a capture, and its first fault.
#[derive(Drop)]
struct Text {
    text: String,
    fault: Option<(usize, CaptureFault)>,
}

/// A capture in words.
fn shown(alloc: Global, table: Table, capture: &str) -> Result<Text, NoMemory>
    ensures fault { IfOk result (λ t. t.fault ≡ first_fault_under table capture.now) }
    ensures text { IfOk result (λ t. string_bytes t.text ≡ shown_text_under table capture.now) }
{
    let shown = show_under(alloc, table, capture)?;
    let mut text = shown.lines;
    let fault = shown.fault;
    if let Some((line, fault)) = fault {
        push_fault(&mut text, line, fault)?;
    }
    Ok(Text { text, fault })
}

/// The verdict on a capture.
fn judged(alloc: Global, table: Table, capture: &str) -> Result<Text, NoMemory>
    ensures fault { IfOk result (λ t. t.fault ≡ first_fault_under table capture.now) }
    ensures text { IfOk result (λ t. string_bytes t.text ≡ verdict_text t.fault) }
{
    let mut text = String::new(alloc);
    match check_under(alloc, table, capture)? {
        Verdict::Yes => {
            text.push_str("yes\n")?;
            Ok(Text { text, fault: None })
        }
        Verdict::No(line, fault) => {
            text.push_str("no: ")?;
            push_fault(&mut text, line, fault)?;
            let fault = Some((line, fault));
            Ok(Text { text, fault })
        }
    }
}

/// Appends the line and the number of a fault.
pub(crate) fn push_fault(
    text: &mut String,
    line: usize,
    fault: CaptureFault,
) -> Result<(), AllocError>
    ensures { OnOk result (string_bytes text.new ≡ string_bytes text.old ++ fault_line
        (line, fault)) }
{
    let number = fault.printed_number();
    writeln!(text, "line {line}: fault {number}")
}

/// Prints the text of a capture with this first fault or without one, in one piece where the output takes it so.
pub(crate) fn tell<O: Write>(
    out: &mut O,
    text: &str,
    fault: Option<(usize, CaptureFault)>,
) -> Result<Told, TellFault>
    ensures { Tells fault text.now (O.contents out.old) (O.contents out.new) result }
{
    match print(out, text.as_bytes()).1 {
        Ok(()) if fault.is_none() => Ok(Told::Faultless),
        Ok(()) => Ok(Told::Faulty),
        Err(error) if error.kind() == ErrorKind::BrokenPipe => Ok(Told::Unread),
        Err(error) => Err(TellFault::Output(error)),
    }
}
