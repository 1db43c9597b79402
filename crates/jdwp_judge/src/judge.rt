//! Sessions judged as they go on.
ghost use Rattle.std.specs.Prelude.{◌≡◌, ◌++◌, ◌∷◌, [], List, None, IfOk, OnOk};
ghost use Rattle.std.specs.String.{string_bytes};
ghost use Rattle.jdwp_judge.specs.Held.{IsHeld};
ghost use Rattle.jdwp_judge.specs.Told.{told_under, told_fault_under, whole_under, whole_fault_under};
ghost use Rattle.jdwp_show.specs.Lines.{Line};
ghost use Rattle.jdwp_show.specs.Sessions.{bad_or_broken};
ghost use Rattle.jdwp_show.specs.Transcripts.{Tells};

use crate::coming::Coming;
use crate::hearing::hear_all;
use crate::held::Held;
use crate::rulings::Rulings;
use jdwp_show::{CaptureFault, Sender, Shown, Table, Transcript};
use jdwp_wire::NoMemory;
use std::alloc::Global;

/// Judges a session while it goes on, and tells it in the lines of `show`.
///
/// It is fed with what each end sent, in pieces of any length, and each time tells the lines that nothing which may still
/// be sent can change. Before the widths of ids are sure those lines wait that want them, and all behind the first of
/// them; the lines of handshakes, of commands and replies without data, of those whose data no one reads and of replies
/// with an error do not want them.
///
/// It keeps the bytes of each end that belong to no whole message, the commands that wait for their replies, and the
/// messages whose lines wait. Behind a fault it keeps and tells nothing more.
#[derive(Drop)]
pub struct Judge {
    alloc: Global,
    /// How many pieces there were.
    pieces: usize,
    debugger: Coming,
    target: Coming,
    rulings: Rulings,
}

impl Judge {
    ghost use Rattle.jdwp_judge.specs.Judges.{HasHeard, HasHeardUnder, HasHeardPieceUnder, HasFinishedUnder};
    ghost use Rattle.jdwp_show.specs.declared.table.Table.{Table};

    /// Before the first piece of a session. Data are read by the standard's table.
    pub fn new(alloc: Global) -> Judge
        ensures { HasHeard result [] }
    {
        Judge::under(alloc, Table::Standard)
    }

    /// The same where data are read by this table.
    pub fn under(alloc: Global, table: Table) -> Judge
        ensures { HasHeardUnder table result [] }
    {
        Judge {
            alloc,
            pieces: 0,
            debugger: Coming::new(alloc),
            target: Coming::new(alloc),
            rulings: Rulings::new(alloc, table),
        }
    }

    /// One piece more, these bytes of this end. Answers the lines that can be told now, each with a newline at its end.
    ///
    /// # Errors
    /// `NoMemory` where an allocation was refused, or at the 2^64th piece; the judge is then of no use any more.
    pub fn feed(&mut self, sender: Sender, bytes: &[u8]) -> Result<String, NoMemory>
        // It has heard one piece more.
        ensures heard { (table : Table) (pieces : List Line) → HasHeardUnder table self.old pieces
            → IfOk result (λ lines. HasHeardUnder table self.new (pieces ++ record { sender = sender; bytes = bytes.now } ∷ [])) }
        // What it told before and these lines are what can be told of the whole so far, and no less.
        ensures told { (table : Table) (pieces : List Line) → HasHeardUnder table self.old pieces
            → IfOk result (λ lines. told_under table pieces ++ string_bytes lines
            ≡ told_under table (pieces ++ record { sender = sender; bytes = bytes.now } ∷ [])) }
    {
        let mut lines = Transcript::new(self.alloc);
        self.hear(sender, bytes, &mut lines)?;
        lines.into_string()
    }

    /// One piece more, these bytes of this end. Appends the lines that can be told now.
    pub(crate) fn hear(
        &mut self,
        sender: Sender,
        bytes: &[u8],
        lines: &mut Transcript,
    ) -> Result<(), NoMemory>
        ensures { (table : Table) (pieces : List Line) → HasHeardUnder table self.old pieces → OnOk
            result (HasHeardPieceUnder table self.new pieces (record { sender = sender; bytes = bytes.now }) lines.old lines.new) }
    {
        let Some(pieces) = self.pieces.checked_add(1) else {
            return Err(NoMemory);
        };
        self.pieces = pieces;
        if self.rulings.fault().is_some() {
            return Ok(());
        }
        let rulings = &mut self.rulings;
        match sender {
            Sender::Debugger => {
                let coming = &mut self.debugger;
                hear_all(coming, rulings, pieces, sender, bytes, lines)
            }
            Sender::Target => {
                let coming = &mut self.target;
                hear_all(coming, rulings, pieces, sender, bytes, lines)
            }
        }
    }

    /// The first fault, and the number, from 1, of the piece in which its last byte stands, as soon as it can be told.
    pub fn fault(&self) -> Option<(usize, CaptureFault)>
        ensures { (table : Table) (pieces : List Line) → HasHeardUnder table self.now pieces → result
            ≡ told_fault_under table pieces }
    {
        self.rulings.fault()
    }

    /// How much it keeps of the session so far, as long as no fault is told: the bytes of each end that belong to no whole message, fewer
    /// than 65,536; the messages whose lines wait, none once the widths of ids are sure; the commands that have no reply yet.
    pub fn held(&self) -> Held
        ensures { (table : Table) (pieces : List Line) → HasHeardUnder table self.now pieces
            → told_fault_under table pieces ≡ None → IsHeld table pieces result }
    {
        Held {
            debugger_bytes: self.debugger.left_over(),
            target_bytes: self.target.left_over(),
            messages: self.rulings.messages(),
            commands: self.rulings.commands(),
        }
    }

    /// The session has ended: the lines that waited, how many bytes of each end belong to no whole message where there is
    /// no fault, and the first fault.
    ///
    /// # Errors
    /// `NoMemory` where an allocation was refused.
    pub fn end(self) -> Result<Shown, NoMemory>
        // What it told before and these lines are what `show` says of a capture with these pieces as its lines.
        ensures lines { (table : Table) (pieces : List Line) → HasHeardUnder table self pieces → IfOk
            result (λ shown. told_under table pieces ++ string_bytes shown.lines ≡ whole_under table
            pieces) }
        // So is the fault.
        ensures fault { (table : Table) (pieces : List Line) → HasHeardUnder table self pieces → IfOk
            result (λ shown. shown.fault ≡ whole_fault_under table pieces) }
    {
        let mut lines = Transcript::new(self.alloc);
        let fault = self.finish(None, &mut lines);
        let lines = lines.into_string()?;
        Ok(Shown { lines, fault })
    }

    /// The session has ended, or with it the lines of a capture that read, and this is the number of the line that does not. Answers the
    /// first fault, and appends the lines that waited, and how many bytes of each end belong to no whole message where there is no fault.
    pub(crate) fn finish(
        self,
        bad_line: Option<usize>,
        lines: &mut Transcript,
    ) -> Option<(usize, CaptureFault)>
        ensures { (table : Table) (pieces : List Line) → HasHeardUnder table self pieces
            → HasFinishedUnder table pieces bad_line result lines.old lines.new }
    {
        let Judge {
            alloc: _,
            pieces: _,
            debugger,
            target,
            rulings,
        } = self;
        let mut rulings = rulings;
        rulings.end(lines);
        if let Some(line) = bad_line {
            return Some((line, CaptureFault::BadLine));
        }
        let fault = rulings.fault();
        if fault.is_some() {
            return fault;
        }
        lines.push_more(Sender::Debugger, debugger.left_over());
        lines.push_more(Sender::Target, target.left_over());
        None
    }
}
