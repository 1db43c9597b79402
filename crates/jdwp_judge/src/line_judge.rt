//! Captures judged line by line.
ghost use Rattle.std.specs.Prelude.{◌≡◌, ◌++◌, ◌∷◌, [], List, ℕ, IfOk, OnOk};
ghost use Rattle.std.specs.String.{string_bytes};
ghost use Rattle.std.specs.Str.Lines.{lines};
ghost use Rattle.jdwp_show.specs.CaptureLines.{capture_lines_under};
ghost use Rattle.jdwp_show.specs.Sessions.{first_fault_under};

use crate::judge::Judge;
use jdwp_show::{CaptureFault, Shown, Table, Transcript, read_line};
use jdwp_wire::NoMemory;
use std::alloc::Global;

/// Judges a capture while its lines are read, and tells it in the lines of `show`.
///
/// It is fed with one line after the other, and each time tells the lines of `show` that nothing behind it can change. Behind a line that does
/// not read it keeps and tells nothing more.
#[derive(Drop)]
pub struct LineJudge {
    alloc: Global,
    judge: Judge,
    /// How many lines there were, up to the first that does not read.
    count: usize,
    /// The number of the first line that does not read.
    bad_line: Option<usize>,
    /// The bytes of a line.
    bytes: Vec<u8>,
}

impl LineJudge {
    ghost use Rattle.jdwp_show.specs.declared.table.Table.{Table};
    ghost use Rattle.jdwp_judge.specs.Judges.{HasFinishedUnder};
    ghost use Rattle.jdwp_judge.specs.LineJudges.{HasHeardLines, HasHeardLine, told_of, fault_among, pieces_in, bad_among};

    /// Before the first line of a capture whose data are read by this table.
    pub fn under(alloc: Global, table: Table) -> LineJudge
        ensures { HasHeardLines table result [] }
    {
        LineJudge {
            alloc,
            judge: Judge::under(alloc, table),
            count: 0,
            bad_line: None,
            bytes: Vec::new(alloc),
        }
    }

    /// One line more, without its end. Answers the lines that can be told now, each with a newline at its end.
    ///
    /// # Errors
    /// `NoMemory` where an allocation was refused, or at the 2^64th line; the judge is then of no use any more.
    pub fn feed(&mut self, line: &[u8]) -> Result<String, NoMemory>
        // It has heard one line more.
        ensures heard { (table : Table) (lines : List (List ℕ)) → HasHeardLines table self.old lines → IfOk result
            (λ told. HasHeardLines table self.new (lines ++ line.now ∷ [])) }
        // What it told before and these lines are what can be told of the lines so far, and no less.
        ensures told { (table : Table) (lines : List (List ℕ)) → HasHeardLines table self.old lines → IfOk result
            (λ told. told_of table lines ++ string_bytes told ≡ told_of table (lines ++ line.now ∷ [])) }
    {
        let mut lines = Transcript::new(self.alloc);
        self.hear(line, &mut lines)?;
        lines.into_string()
    }

    /// One line more, without its end. Appends the lines that can be told now.
    ///
    /// # Errors
    /// As those of `feed`.
    pub fn hear(&mut self, line: &[u8], lines: &mut Transcript) -> Result<(), NoMemory>
        ensures { (table : Table) (before : List (List ℕ)) → HasHeardLines table self.old before → OnOk result
            (HasHeardLine table self.new before line.now lines.old lines.new) }
    {
        if self.bad_line.is_some() {
            return Ok(());
        }
        let Some(number) = self.count.checked_add(1) else {
            return Err(NoMemory);
        };
        self.bytes.clear();
        let Some(sender) = read_line(line, &mut self.bytes)? else {
            self.bad_line = Some(number);
            return Ok(());
        };
        self.count = number;
        self.judge.hear(sender, &self.bytes, lines)
    }

    /// The first fault of the lines so far, and the number, from 1, of the line in which its last byte stands, as soon as it can be told. A line
    /// that does not read is the first fault, wherever it stands.
    pub fn fault(&self) -> Option<(usize, CaptureFault)>
        ensures { (table : Table) (lines : List (List ℕ)) → HasHeardLines table self.now lines → result
            ≡ fault_among table lines }
    {
        match self.bad_line {
            Some(line) => Some((line, CaptureFault::BadLine)),
            None => self.judge.fault(),
        }
    }

    /// The capture has ended: the lines that waited, how many bytes of each end belong to no whole message where there is no fault, and the
    /// first fault.
    ///
    /// # Errors
    /// `NoMemory` where an allocation was refused.
    pub fn end(self) -> Result<Shown, NoMemory>
        // What it told before and these lines are what `show` says of a capture of these lines.
        ensures lines { (table : Table) (text : List ℕ) → HasHeardLines table self (lines text) → IfOk result
            (λ shown. told_of table (lines text) ++ string_bytes shown.lines ≡ capture_lines_under table text) }
        // So is the fault.
        ensures fault { (table : Table) (text : List ℕ) → HasHeardLines table self (lines text) → IfOk result
            (λ shown. shown.fault ≡ first_fault_under table text) }
    {
        let mut lines = Transcript::new(self.alloc);
        let fault = self.finish(&mut lines);
        let lines = lines.into_string()?;
        Ok(Shown { lines, fault })
    }

    /// The capture has ended. Answers the first fault, and appends the lines that waited, and how many bytes of each end belong to no whole
    /// message where there is no fault.
    pub fn finish(self, lines: &mut Transcript) -> Option<(usize, CaptureFault)>
        ensures { (table : Table) (heard : List (List ℕ)) → HasHeardLines table self heard → HasFinishedUnder table (pieces_in heard)
            (bad_among heard) result lines.old lines.new }
    {
        let LineJudge {
            judge,
            bad_line,
            ..
        } = self;
        judge.finish(bad_line, lines)
    }
}
