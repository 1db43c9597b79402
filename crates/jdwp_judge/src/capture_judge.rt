//! Captures judged as they are read, cut anywhere.
ghost use Rattle.std.specs.Prelude.{◌≡◌, ◌++◌, ◌∷◌, [], List, ℕ, IfOk, OnOk, MatchOption};
ghost use Rattle.std.specs.String.{string_bytes};
ghost use Rattle.std.specs.Str.Lines.{strip_carriage_return};
ghost use Rattle.jdwp_judge.specs.CaptureJudges.{HasNoNewline, HasJudged, finished, unfinished};
ghost use Rattle.jdwp_judge.specs.LineJudges.{HasHeardLines};
ghost use Rattle.jdwp_show.specs.CaptureLines.{capture_lines_under};
ghost use Rattle.jdwp_show.specs.Sessions.{first_fault_under};

use crate::line_judge::LineJudge;
use jdwp_show::{CaptureFault, Shown, Table, Transcript};
use jdwp_wire::NoMemory;
use memchr::memchr;
use std::alloc::Global;

/// Judges a capture while it is read, and tells it in the lines of `show`.
///
/// It is fed with the bytes of the capture's text, cut anywhere, and each time tells the lines of `show` that nothing behind them can change. A
/// line that is not UTF-8 does not read. It keeps the line that is not over yet, and what `Judge` keeps; behind a line that does not read it
/// tells nothing more.
#[derive(Drop)]
pub struct CaptureJudge {
    alloc: Global,
    lines: LineJudge,
    /// What follows the last newline.
    unfinished: Vec<u8>,
}

impl CaptureJudge {
    ghost use Rattle.jdwp_show.specs.declared.table.Table.{Table};
    ghost use Rattle.jdwp_judge.specs.CaptureJudges.{HasHeardText, HasHeardMore, told_text, fault_so_far};

    /// Before the first byte of a capture whose data are read by this table.
    pub fn under(alloc: Global, table: Table) -> CaptureJudge
        ensures { HasHeardText table result [] }
    {
        CaptureJudge {
            alloc,
            lines: LineJudge::under(alloc, table),
            unfinished: Vec::new(alloc),
        }
    }

    /// These bytes more. Answers the lines that can be told now, each with a newline at its end.
    ///
    /// # Errors
    /// `NoMemory` where an allocation was refused, or at the 2^64th line; the judge is then of no use any more.
    pub fn feed(&mut self, bytes: &[u8]) -> Result<String, NoMemory>
        // It has heard these bytes more.
        ensures heard { (table : Table) (text : List ℕ) → HasHeardText table self.old text → IfOk result
            (λ told. HasHeardText table self.new (text ++ bytes.now)) }
        // What it told before and these lines are what can be told of the text so far, and no less.
        ensures told { (table : Table) (text : List ℕ) → HasHeardText table self.old text → IfOk result
            (λ told. told_text table text ++ string_bytes told ≡ told_text table (text ++ bytes.now)) }
    {
        let mut lines = Transcript::new(self.alloc);
        self.hear(bytes, &mut lines)?;
        lines.into_string()
    }

    /// These bytes more. Appends the lines that can be told now.
    ///
    /// # Errors
    /// As those of `feed`.
    pub fn hear(&mut self, bytes: &[u8], lines: &mut Transcript) -> Result<(), NoMemory>
        ensures { (table : Table) (text : List ℕ) → HasHeardText table self.old text → OnOk result (HasHeardMore table self.new
            text bytes.now lines.old lines.new) }
    {
        let mut rest = bytes;
        while let Some((line, behind)) = split_line(rest) {
            self.hear_line(line, lines)?;
            rest = behind;
        }
        self.unfinished.extend_from_slice(rest)?;
        Ok(())
    }

    /// The bytes up to a newline, and this newline.
    fn hear_line(&mut self, bytes: &[u8], lines: &mut Transcript) -> Result<(), NoMemory>
        ensures { (table : Table) (text : List ℕ) → HasHeardText table self.old text
            → HasNoNewline bytes.now → OnOk result (HasHeardMore table self.new text
            (bytes.now ++ 10 ∷ []) lines.old lines.new) }
    {
        self.unfinished.extend_from_slice(bytes)?;
        let line = without_return(&self.unfinished);
        self.lines.hear(line, lines)?;
        self.unfinished.clear();
        Ok(())
    }

    /// The first fault of the lines so far, and the number, from 1, of the line in which its last byte stands, as soon as it can be told. A line
    /// that does not read is the first fault, wherever it stands.
    pub fn fault(&self) -> Option<(usize, CaptureFault)>
        ensures { (table : Table) (text : List ℕ) → HasHeardText table self.now text → result ≡ fault_so_far table text }
    {
        self.lines.fault()
    }

    /// The capture has ended: the lines that waited, how many bytes of each end belong to no whole message where there is no fault, and the
    /// first fault.
    ///
    /// # Errors
    /// `NoMemory` where an allocation was refused.
    pub fn end(self) -> Result<Shown, NoMemory>
        // What it told before and these lines are what `show` says of the capture.
        ensures lines { (table : Table) (text : List ℕ) → HasHeardText table self text → IfOk result
            (λ shown. told_text table text ++ string_bytes shown.lines ≡ capture_lines_under table text) }
        // So is the fault.
        ensures fault { (table : Table) (text : List ℕ) → HasHeardText table self text → IfOk result
            (λ shown. shown.fault ≡ first_fault_under table text) }
    {
        let mut lines = Transcript::new(self.alloc);
        let fault = self.finish(&mut lines)?;
        let lines = lines.into_string()?;
        Ok(Shown { lines, fault })
    }

    /// The capture has ended. Answers the first fault, and appends the lines that waited, and how many bytes of each end belong to no whole
    /// message where there is no fault.
    ///
    /// # Errors
    /// As those of `end`.
    pub fn finish(self, lines: &mut Transcript) -> Result<Option<(usize, CaptureFault)>, NoMemory>
        ensures { (table : Table) (text : List ℕ) → HasHeardText table self text → IfOk result
            (λ fault. HasJudged table text fault lines.old lines.new) }
    {
        let CaptureJudge {
            lines: judge,
            unfinished,
            ..
        } = self;
        hear_last(judge, &unfinished, lines)
    }
}

/// The capture has ended behind these bytes of a line that no newline ends, or none.
fn hear_last(
    mut judge: LineJudge,
    line: &[u8],
    lines: &mut Transcript,
) -> Result<Option<(usize, CaptureFault)>, NoMemory>
    ensures { (table : Table) (text : List ℕ) → HasHeardLines table judge (finished text)
        → line.now ≡ unfinished text → IfOk result (λ fault. HasJudged table text fault lines.old
        lines.new) }
{
    if line.is_empty() {
        return Ok(judge.finish(lines));
    }
    judge.hear(line, lines)?;
    Ok(judge.finish(lines))
}

/// The bytes before the first newline, and those behind it.
fn split_line(bytes: &[u8]) -> Option<(&[u8], &[u8])>
    ensures { MatchOption result (HasNoNewline bytes.now) (λ parts. HasNoNewline parts.0.now
        × (bytes.now ≡ parts.0.now ++ 10 ∷ parts.1.now)) }
{
    match memchr(b'\n', bytes) {
        Some(end) => Some((&bytes[..end], &bytes[end + 1..])),
        None => None,
    }
}

/// A line without the carriage return at its end.
fn without_return(line: &[u8]) -> &[u8]
    ensures { result.now ≡ strip_carriage_return line.now }
{
    let count = line.len();
    if count > 0 && line[count - 1] == b'\r' {
        &line[..count - 1]
    } else {
        line
    }
}
