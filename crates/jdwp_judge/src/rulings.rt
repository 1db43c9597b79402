//! Messages judged one by one: each is told, with those that waited, as soon as all that is to be told of it is known.
ghost use Rattle.std.specs.Prelude.{◌≡◌, [], List, length, None, OnOk};
ghost use Rattle.std.specs.Option.{option_flatten};

use crate::asked::Asked;
use crate::backlog::Backlog;
use crate::heard::Heard;
use crate::rules::widths_by;
use crate::telling::tell;
use crate::wanting::has_to_wait;
use jdwp_show::{CaptureFault, CommandNumber, Table, Terms, Transcript};
use jdwp_wire::{IdSizes, NoMemory};
use std::alloc::Global;

/// What is kept of the messages so far.
#[derive(Drop)]
pub(crate) struct Rulings {
    alloc: Global,
    /// The table of commands by which data are read.
    table: Table,
    asked: Asked,
    /// Which widths of ids hold, once that is sure.
    sizes: Option<Option<IdSizes>>,
    /// The messages of which all is not known yet.
    kept: Backlog,
    /// The first fault, and the piece in which its last byte stands.
    fault: Option<(usize, CaptureFault)>,
}

impl Rulings {
    ghost use Rattle.jdwp_judge.specs.Heard.{item_of, items_kept, AreKept};
    ghost use Rattle.jdwp_judge.specs.Standing.{count_in, kept_in, Follows, IsRecorded, IsTold, HasHeardOne, HasEnded};
    ghost use Rattle.jdwp_judge.specs.declared.rulings.Rulings.{Rulings};
    ghost use Rattle.jdwp_show.specs.Items.{Item};
    ghost use Rattle.jdwp_show.specs.Tables.{terms_by};
    ghost use Rattle.jdwp_show.specs.declared.table.Table.{Table};

    /// Before the first message.
    pub(crate) fn new(alloc: Global, table: Table) -> Rulings
        ensures { Follows table result [] }
    {
        Rulings {
            alloc,
            table,
            asked: Asked::new(alloc),
            sizes: None,
            kept: Backlog::new(alloc),
            fault: None,
        }
    }

    /// The first fault, if it is told.
    pub(crate) fn fault(&self) -> Option<(usize, CaptureFault)>
        ensures { result ≡ self.now.fault }
    {
        self.fault
    }

    /// How many messages wait until all of them is known.
    pub(crate) fn messages(&self) -> usize
        ensures { result ≡ length (kept_in self.now.kept) }
    {
        self.kept.count()
    }

    /// How many commands wait for their replies.
    pub(crate) fn commands(&self) -> usize
        ensures { result ≡ count_in self.now.asked }
    {
        self.asked.count()
    }

    /// One message more. Appends the lines that are told now.
    #[inline(always)]
    pub(crate) fn hear(&mut self, heard: &Heard, lines: &mut Transcript) -> Result<(), NoMemory>
        ensures { (table : Table) (items : List Item) → Follows table self.old items → OnOk result
            (HasHeardOne table items (item_of heard.now) self.new lines.old lines.new) }
    {
        if self.fault.is_some() {
            return Ok(());
        }
        let begun = self.asked.begun();
        let waits = self.asked.record(heard)?;
        if let Some(sizes) = &self.sizes {
            // Nothing waits.
            self.fault = tell(&self.terms(sizes), begun, waits, heard, lines);
            return Ok(());
        }
        self.hear_unsure(begun, waits, heard, lines)
    }

    /// By what data are read under these widths.
    #[inline(always)]
    fn terms(&self, sizes: &Option<IdSizes>) -> Terms
        ensures { result ≡ terms_by self.now.table sizes.now }
    {
        Terms {
            table: self.table,
            sizes: *sizes,
        }
    }

    /// The same before it is sure which widths of ids hold. Whether the debugger's handshake was before the message, and which command waits
    /// under its id, are given.
    fn hear_unsure(
        &mut self,
        begun: bool,
        waits: Option<CommandNumber>,
        heard: &Heard,
        lines: &mut Transcript,
    ) -> Result<(), NoMemory>
        requires unsure { self.old.sizes ≡ None }
        requires none { self.old.fault ≡ None }
        ensures { (old : Rulings) (table : Table) (items : List Item) → Follows table old items
            → IsRecorded old begun waits (item_of heard.now) self.old → OnOk result (HasHeardOne
            table items (item_of heard.now) self.new lines.old lines.new) }
    {
        let Some(sizes) = widths_by(begun, waits, heard) else {
            if has_to_wait(self.table, &self.kept, waits, heard) {
                return self.kept.push(heard, begun, waits);
            }
            self.fault = tell(&self.terms(&None), begun, waits, heard, lines);
            return Ok(());
        };
        self.sizes = Some(sizes);
        self.release(lines);
        if self.fault.is_some() {
            return Ok(());
        }
        self.fault = tell(&self.terms(&sizes), begun, waits, heard, lines);
        Ok(())
    }

    /// Tells what waits, under the widths that hold; where that is not sure, under none.
    fn release(&mut self, lines: &mut Transcript)
        requires { self.old.fault ≡ None }
        ensures told { (front : List Item) → AreKept front (kept_in self.old.kept) → IsTold
            (terms_by self.old.table (option_flatten self.old.sizes)) front (items_kept (kept_in self.old.kept))
            self.new.fault lines.old lines.new }
        ensures none_kept { kept_in self.new.kept ≡ [] }
        ensures table { self.new.table ≡ self.old.table }
        ensures asked { self.new.asked ≡ self.old.asked }
        ensures sizes { self.new.sizes ≡ self.old.sizes }
    {
        if self.kept.is_empty() {
            return;
        }
        let terms = self.terms(&self.sizes.flatten());
        self.fault = self.kept.tell(&terms, lines);
        self.kept = Backlog::new(self.alloc);
    }

    /// No more messages come. Appends the lines that waited.
    pub(crate) fn end(&mut self, lines: &mut Transcript)
        ensures { (table : Table) (items : List Item) → Follows table self.old items → HasEnded
            table items self.new lines.old lines.new }
    {
        if self.fault.is_some() {
            return;
        }
        self.release(lines);
    }
}
