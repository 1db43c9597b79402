//! Messages that wait until the widths of ids are sure.
ghost use Rattle.std.specs.Prelude.{◌≡◌, ◌==◌, ◌∷◌, ◌++◌, [], List, length, OnOk};
ghost use Rattle.jdwp_judge.specs.Entries.{total};

use crate::entry::{Entry, parts};
use crate::heard::Heard;
use crate::telling::tell;
use jdwp_show::{CaptureFault, CommandNumber, Terms, Transcript};
use jdwp_wire::NoMemory;
use std::alloc::Global;

/// The messages that wait, each with what those before it say of it.
#[derive(Drop)]
pub(crate) struct Backlog {
    entries: Vec<Entry>,
    /// Their data, one behind the other.
    bodies: Vec<u8>,
    ghost fits: { total entries.items ≡ length bodies.items },
}

impl Backlog {
    ghost use Rattle.jdwp_judge.specs.Heard.{item_of, items_kept, AreKept};
    ghost use Rattle.jdwp_judge.specs.Standing.{kept_in, IsTold};
    ghost use Rattle.jdwp_show.specs.Items.{Item};

    pub(crate) fn new(alloc: Global) -> Backlog
        ensures { kept_in result ≡ [] }
    {
        Backlog {
            entries: Vec::new(alloc),
            bodies: Vec::new(alloc),
        }
    }

    /// How many wait.
    pub(crate) fn count(&self) -> usize
        ensures { result ≡ length (kept_in self.now) }
    {
        self.entries.len()
    }

    /// Whether none waits.
    #[inline(always)]
    pub(crate) fn is_empty(&self) -> bool
        ensures { result ≡ (length (kept_in self.now) == 0) }
    {
        self.count() == 0
    }

    /// One message more waits.
    ///
    /// # Errors
    /// `NoMemory` where an allocation was refused.
    pub(crate) fn push(
        &mut self,
        heard: &Heard,
        begun: bool,
        waits: Option<CommandNumber>,
    ) -> Result<(), NoMemory>
        ensures { OnOk result (kept_in self.new ≡ kept_in self.old ++ record {
          item = item_of heard.now;
          begun = begun;
          waits = waits;
        } ∷ []) }
    {
        let (kind, body) = parts(&heard.found);
        let entry = Entry {
            piece: heard.piece,
            sender: heard.sender,
            kind,
            length: body.len(),
            begun,
            waits,
        };
        let before = self.bodies.len();
        self.bodies.extend_from_slice(body)?;
        match self.entries.push(entry) {
            Ok(()) => Ok(()),
            Err(_) => {
                self.bodies.truncate(before);
                Err(NoMemory)
            }
        }
    }

    /// Appends the lines of the messages where data are read so, up to the first that breaks a rule. Answers its fault, and the piece in which its
    /// last byte stands.
    pub(crate) fn tell(
        &self,
        terms: &Terms,
        lines: &mut Transcript,
    ) -> Option<(usize, CaptureFault)>
        ensures { (before : List Item) → AreKept before (kept_in self.now) → IsTold terms.now
            before (items_kept (kept_in self.now)) result lines.old lines.new }
    {
        let mut rest: &[u8] = &self.bodies;
        for entry in &self.entries {
            let (body, more) = rest.split_at(entry.length);
            let fault = tell(terms, entry.begun, entry.waits, &entry.with(body), lines);
            if fault.is_some() {
                return fault;
            }
            rest = more;
        }
        None
    }
}
