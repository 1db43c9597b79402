//! Captures told while they are read.
ghost use Rattle.std.specs.Prelude.{◌≡◌, ◌<◌, ◌≤◌, ◌++◌, List, ℕ, length, IfOk};
ghost use Rattle.std.specs.Io.KnownBytes.{ReadConsumes};
ghost use Rattle.std.specs.String.{string_bytes};
ghost use Rattle.jdwp_judge.specs.CaptureJudges.{HasHeardText};
ghost use Rattle.jdwp_show.specs.declared.table.Table as tables;
ghost use Rattle.jdwp_program.specs.Captures.{fault_text, verdict_text};
ghost use Rattle.jdwp_program.specs.Streaming.{ShowsStream, JudgesStream, ShowsOnward, JudgesOnward, ShowsMore, ShowsRest, JudgesRest, Prints, is_stopped};

use crate::captures::{TellFault, Told, push_fault, tell};
use jdwp_judge::CaptureJudge;
use jdwp_show::{CaptureFault, Shown, Table, Transcript};
use std::alloc::{AllocError, Global};
use std::io;
use std::io::{ErrorKind, Read, Write};
use thiserror::Error;

/// How many bytes are asked for at once.
const BLOCK: usize = 65536;

/// How many blocks are read at most, and how often a call that was interrupted is made again. No program lives that long.
const TRIES: u64 = u64::MAX;

/// Why a capture that was read was not told to its end.
#[derive(Clone, Copy, Debug, Error)]
pub enum StreamFault {
    /// The input can't be read.
    #[error("the input can't be read: {0}")]
    Input(io::Error),
    /// The output didn't take all of the text, for another cause than that its reader went away.
    #[error("the output can't be written: {0}")]
    Output(io::Error),
    /// An allocation was refused.
    #[error("no memory")]
    NoMemory,
}

/// Shows a capture whose data are read by this table while it is read, of which these bytes were read already: its lines, as soon as nothing behind them can change them, and at
/// its end `line N: fault K` where it has a fault. A line that is not UTF-8 does not read. What is kept of it is a line, the messages whose
/// lines wait, and the commands that have no reply yet.
///
/// # Errors
/// `Input` where a read fails, behind the lines of what was read; `Output` where the output didn't take all of it; `NoMemory`.
pub fn show_stream<I: Read, O: Write>(
    alloc: Global,
    table: Table,
    begun: &[u8],
    input: &mut I,
    out: &mut O,
) -> Result<Told, StreamFault>
    ensures { ShowsStream table begun.now (I.remaining input.old) (I.remaining input.new)
        (O.contents out.old) (O.contents out.new) result }
{
    let mut judge = CaptureJudge::under(alloc, table);
    let told = show_more(&mut judge, begun, out);
    if stops(&told) {
        return told;
    }
    let Ok(mut block) = vec![in alloc; 0u8; BLOCK] else {
        return Err(StreamFault::NoMemory);
    };
    show_onward(judge, &mut block, input, out)
}

/// Shows what is still to be read of a capture, a block at a time.
fn show_onward<I: Read, O: Write>(
    mut judge: CaptureJudge,
    block: &mut [u8],
    input: &mut I,
    out: &mut O,
) -> Result<Told, StreamFault>
    requires { 0 < length block.old }
    ensures { (table : Table) (text : List ℕ) → HasHeardText table judge text → ShowsOnward table text (I.remaining input.old)
        (I.remaining input.new) (O.contents out.old) (O.contents out.new) result }
{
    'reads: for _ in 0..TRIES {
        let count = match read_some(input, block) {
            Ok(count) => count,
            Err(error) => return Err(StreamFault::Input(error)),
        };
        if count == 0 {
            return show_rest(judge, out);
        }
        let told = show_more(&mut judge, &block[..count], out);
        if stops(&told) {
            return told;
        }
    }
    Err(StreamFault::Input(io::Error::from(ErrorKind::TimedOut)))
}

/// Whether nothing more is told.
pub(crate) fn stops(told: &Result<Told, StreamFault>) -> bool
    ensures { result ≡ is_stopped told.now }
{
    match told {
        Ok(Told::Faultless | Told::Faulty) => false,
        Ok(Told::Unread) | Err(_) => true,
    }
}

/// Prints the lines that can be told now that these bytes of the capture were read.
pub(crate) fn show_more<O: Write>(
    judge: &mut CaptureJudge,
    bytes: &[u8],
    out: &mut O,
) -> Result<Told, StreamFault>
    ensures { (table : Table) (text : List ℕ) → HasHeardText table judge.old text → ShowsMore table text bytes.now judge.new
        (O.contents out.old) (O.contents out.new) result }
{
    let Ok(lines) = judge.feed(bytes) else {
        return Err(StreamFault::NoMemory);
    };
    print_text(out, lines.as_str(), None)
}

/// Prints what was not printed yet of a capture that was read to its end.
pub(crate) fn show_rest<O: Write>(judge: CaptureJudge, out: &mut O) -> Result<Told, StreamFault>
    ensures { (table : Table) (text : List ℕ) → HasHeardText table judge text → ShowsRest table text (O.contents out.old)
        (O.contents out.new) result }
{
    let Ok(shown) = judge.end() else {
        return Err(StreamFault::NoMemory);
    };
    let fault = shown.fault;
    let Ok(text) = shown_words(shown) else {
        return Err(StreamFault::NoMemory);
    };
    print_text(out, text.as_str(), fault)
}

/// The lines of a capture, and behind them its fault where it has one.
fn shown_words(shown: Shown) -> Result<String, AllocError>
    ensures { IfOk result (λ text. string_bytes text
        ≡ string_bytes shown.lines ++ fault_text shown.fault) }
{
    let mut text = shown.lines;
    if let Some((line, fault)) = shown.fault {
        push_fault(&mut text, line, fault)?;
    }
    Ok(text)
}

/// Judges a capture whose data are read by this table while it is read, of which these bytes were read already: `yes`, or `no: line N: fault K`, once it is read.
///
/// # Errors
/// As those of `show_stream`; nothing was printed before the last read.
pub fn check_stream<I: Read, O: Write>(
    alloc: Global,
    table: Table,
    begun: &[u8],
    input: &mut I,
    out: &mut O,
) -> Result<Told, StreamFault>
    ensures { JudgesStream table begun.now (I.remaining input.old) (I.remaining input.new)
        (O.contents out.old) (O.contents out.new) result }
{
    let mut judge = CaptureJudge::under(alloc, table);
    if judge.hear(begun, &mut Transcript::none(alloc)).is_err() {
        return Err(StreamFault::NoMemory);
    }
    let Ok(mut block) = vec![in alloc; 0u8; BLOCK] else {
        return Err(StreamFault::NoMemory);
    };
    check_onward(alloc, judge, &mut block, input, out)
}

/// Judges what is still to be read of a capture, a block at a time.
fn check_onward<I: Read, O: Write>(
    alloc: Global,
    mut judge: CaptureJudge,
    block: &mut [u8],
    input: &mut I,
    out: &mut O,
) -> Result<Told, StreamFault>
    requires { 0 < length block.old }
    ensures { (table : Table) (text : List ℕ) → HasHeardText table judge text → JudgesOnward table text (I.remaining input.old)
        (I.remaining input.new) (O.contents out.old) (O.contents out.new) result }
{
    let mut none = Transcript::none(alloc);
    'reads: for _ in 0..TRIES {
        let count = match read_some(input, block) {
            Ok(count) => count,
            Err(error) => return Err(StreamFault::Input(error)),
        };
        if count == 0 {
            return tell_verdict(alloc, judge, out);
        }
        if judge.hear(&block[..count], &mut none).is_err() {
            return Err(StreamFault::NoMemory);
        }
    }
    Err(StreamFault::Input(io::Error::from(ErrorKind::TimedOut)))
}

/// Prints the verdict on a capture that was read to its end.
fn tell_verdict<O: Write>(
    alloc: Global,
    judge: CaptureJudge,
    out: &mut O,
) -> Result<Told, StreamFault>
    ensures { (table : Table) (text : List ℕ) → HasHeardText table judge text → JudgesRest table text (O.contents out.old)
        (O.contents out.new) result }
{
    let Ok(fault) = judge.finish(&mut Transcript::none(alloc)) else {
        return Err(StreamFault::NoMemory);
    };
    let Ok(text) = verdict_words(alloc, fault) else {
        return Err(StreamFault::NoMemory);
    };
    print_text(out, text.as_str(), fault)
}

/// The verdict on a capture with this first fault or without one.
fn verdict_words(alloc: Global, fault: Option<(usize, CaptureFault)>) -> Result<String, AllocError>
    ensures { IfOk result (λ text. string_bytes text ≡ verdict_text fault) }
{
    let mut text = String::new(alloc);
    match fault {
        None => text.push_str("yes\n")?,
        Some((line, fault)) => {
            text.push_str("no: ")?;
            push_fault(&mut text, line, fault)?;
        }
    }
    Ok(text)
}

/// Prints this text of a capture with this first fault or without one.
fn print_text<O: Write>(
    out: &mut O,
    text: &str,
    fault: Option<(usize, CaptureFault)>,
) -> Result<Told, StreamFault>
    ensures { Prints fault text.now (O.contents out.old) (O.contents out.new) result }
{
    match tell(out, text, fault) {
        Ok(told) => Ok(told),
        Err(TellFault::Output(error)) => Err(StreamFault::Output(error)),
        Err(TellFault::NoMemory) => Err(StreamFault::NoMemory),
    }
}

/// Reads some bytes, or none at the end of the input. A read that was interrupted is made again.
fn read_some<I: Read>(input: &mut I, block: &mut [u8]) -> io::Result<usize>
    requires { 0 < length block.old }
    ensures length { length block.new ≡ length block.old }
    ensures bytes { ReadConsumes (I.remaining input.old) (I.remaining input.new) result block.new }
    ensures bound { IfOk result (λ count. count ≤ length block.new) }
{
    for _ in 0..TRIES {
        match input.read(block) {
            Err(error) if error.kind() == ErrorKind::Interrupted => {}
            result => return result,
        }
    }
    Err(io::Error::from(ErrorKind::Interrupted))
}
