//! Event requests in the order in which they were asked.
ghost use Rattle.std.specs.Prelude.{◌≡◌, ◌++◌, ◌∷◌, ◌<◌, IfOk, OnErr, OnOk, [], length};
ghost use Rattle.std.specs.BTreeMap.{is_at};
ghost use Rattle.std.specs.List.{All, find};
ghost use Rattle.std.specs.List.Sorted.{IsStrictlySortedBy};
ghost use Rattle.std.specs.Map.{keys_of, remove_entry, values_of};
ghost use Rattle.std.specs.Map.Iter.{ShowsInOrder, deref};
ghost use Rattle.std.specs.Option.{option_map};
ghost use Rattle.std.specs.Ordering.{nat_cmp};
ghost use Rattle.jdwp_mirror.specs.Mirror.{Kept};
ghost use Rattle.jdwp_mirror.specs.Rows.{breakpoints_in, is_breakpoint_at, is_no_breakpoint_at, is_of_kind, kind_at, request_at, without_first};

use crate::kept::KeptRequests;
use crate::numbers::next_number;
use crate::requests::KeptRequest;
use jdwp_event::EventKind;
use jdwp_wire::NoMemory;
use std::alloc::Global;
use std::collections::{BTreeMap, BTreeSet};
use std::marker::Model;

/// Event requests, each under a number: these rise in the order in which they were asked. The numbers of the breakpoints stand besides, so
/// that to find these takes no walk over the others.
#[derive(Drop)]
pub(crate) struct Row {
    entries: BTreeMap<u64, KeptRequest>,
    /// The numbers of those of the kind BREAKPOINT.
    breakpoints: BTreeSet<u64>,
}

impl Model for Row {
    ghost use Rattle.jdwp_mirror.specs.Rows as spec;

    ghost Value = { spec.Row };

    ghost view = { λ r. r.entries.entries };

    ghost invariant = { λ r. spec.IsMarked r.entries.entries r.breakpoints.keys };
}

impl Row {
    /// No requests.
    pub fn new(alloc: Global) -> Row
        ensures { result ≡ [] }
    {
        Row {
            entries: BTreeMap::new(alloc),
            breakpoints: BTreeSet::new(alloc),
        }
    }

    /// All of them, the last one asked last.
    pub fn iter(&self) -> KeptRequests<'_>
        ensures all { result ≡ values_of self.now }
        ensures runs { ShowsInOrder (deref {X = Kept}) }
    {
        KeptRequests::of(&self.entries)
    }

    /// Whether a request of this kind stands under a number.
    pub fn has_kind(&self, number: u64, kind: u8) -> bool
        ensures has { result ≡ is_of_kind kind (kind_at self.now number) }
        ensures ordered { IsStrictlySortedBy nat_cmp (keys_of self.now) }
    {
        match self.entries.get(&number) {
            Some(request) => request.kind() == kind,
            None => false,
        }
    }

    /// Adds a request, as the last. Its number.
    ///
    /// # Errors
    /// `NoMemory` where an allocation was refused; nothing has changed.
    pub fn push(&mut self, request: KeptRequest) -> Result<u64, NoMemory>
        ensures ok { IfOk result (λ number. self.new ≡ self.old ++ (number, request) ∷ []) }
        ensures above { IfOk result (λ number. All (λ n. n < number) (keys_of self.old)) }
        ensures ordered { IsStrictlySortedBy nat_cmp (keys_of self.old) }
        ensures err { OnErr result (self.new ≡ self.old) }
    {
        let number = next_number(&self.entries)?;
        mark(&mut self.breakpoints, number, &request)?;
        match self.entries.insert(number, request) {
            Ok(_) => Ok(number),
            Err(_) => {
                let _ = self.breakpoints.remove(&number);
                Err(NoMemory)
            }
        }
    }

    /// Removes the request under a number.
    pub fn remove(&mut self, number: u64)
        ensures left { self.new ≡ remove_entry (is_at (nat_cmp number)) self.old }
        ensures ordered { IsStrictlySortedBy nat_cmp (keys_of self.old) }
    {
        let _ = self.entries.remove(&number);
        let _ = self.breakpoints.remove(&number);
    }

    /// How many are of the kind BREAKPOINT.
    pub fn breakpoints(&self) -> usize
        ensures { result ≡ length (breakpoints_in self.now) }
    {
        self.breakpoints.len()
    }

    /// Takes out the first of the kind BREAKPOINT.
    pub fn take_breakpoint(&mut self) -> Option<KeptRequest>
        ensures taken { result ≡ option_map request_at (find is_breakpoint_at self.old) }
        ensures left { self.new ≡ without_first is_no_breakpoint_at self.old }
        ensures ordered { IsStrictlySortedBy nat_cmp (keys_of self.old) }
    {
        match self.breakpoints.pop_first() {
            Some(number) => self.entries.remove(&number),
            None => None,
        }
    }

    /// Removes all of them.
    pub fn clear(&mut self)
        ensures { self.new ≡ [] }
    {
        self.entries.clear();
        self.breakpoints.clear();
    }
}

/// Adds the number of a request, where this is of the kind BREAKPOINT.
///
/// # Errors
/// `NoMemory` where an allocation was refused; nothing has changed.
fn mark(breakpoints: &mut BTreeSet<u64>, number: u64, request: &KeptRequest) -> Result<(), NoMemory>
    requires { All (λ n. n < number) breakpoints.old.keys }
    ensures ok { OnOk result (breakpoints.new.keys
        ≡ breakpoints.old.keys ++ breakpoints_in ((number, request.now) ∷ [])) }
    ensures err { OnErr result (breakpoints.new.keys ≡ breakpoints.old.keys) }
{
    if request.kind() != EventKind::Breakpoint.byte() {
        return Ok(());
    }
    match breakpoints.insert(number) {
        Ok(_) => Ok(()),
        Err(_) => Err(NoMemory),
    }
}
