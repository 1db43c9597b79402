//! What is known of each thread: of those that were named, one by one, and of all others at once.
ghost use Rattle.std.specs.Prelude.{◌≡◌, ℕ, [], map, OnErr, OnOk};
ghost use Rattle.std.specs.List.Sorted.{IsStrictlySortedBy};
ghost use Rattle.std.specs.Map.{keys_of};
ghost use Rattle.std.specs.Map.Iter.{GivesInOrder};
ghost use Rattle.std.specs.Ordering.{nat_cmp};
ghost use Rattle.jdwp_value.specs.declared.id.ObjectId.{ObjectId};
ghost use Rattle.jdwp_watch.specs.declared.standing.Change.TheVariants.{Keep};
ghost use Rattle.jdwp_watch.specs.Standings.{changed, first_standing};
ghost use Rattle.jdwp_watch.specs.Tables.{at, change_for, named};
ghost use Rattle.jdwp_watch.specs.Tables as spec;

use crate::moves::Moves;
use crate::named::NamedThreads;
use crate::standing::{Change, Standing};
use jdwp_value::ObjectId;
use jdwp_wire::NoMemory;
use std::alloc::Global;
use std::collections::BTreeMap;
use std::marker::Model;

/// A thread that was named, as it was when it was last written.
#[derive(Clone, Copy)]
pub(crate) struct Met {
    pub standing: Standing,
    /// How many moves of all threads had been made by then.
    pub time: usize,
}

/// What is known of each thread. A move of all threads takes no walk over those that were named: it is noted, and each of them is brought
/// up to it, in few steps, where it is looked at. Where more moves than named threads are noted, the next takes a walk, which writes all of
/// them and forgets the moves; so together it and the moves before it cost a few steps each.
#[derive(Drop)]
pub(crate) struct Standings {
    /// The threads that were named, by their ids.
    entries: BTreeMap<u64, Met>,
    /// What is known of each other thread.
    others: Standing,
    /// What became of all threads.
    moves: Moves,
}

impl Model for Standings {
    ghost use Rattle.jdwp_watch.specs.Tables.{AreBefore, Table, threads_seen};

    ghost Value = { Table };

    ghost view = { λ s. record { threads = threads_seen s.moves s.entries.entries; others = s.others } };

    ghost invariant = { λ s. AreBefore s.moves s.entries };
}

impl Standings {
    /// No thread was named.
    pub fn new(alloc: Global) -> Standings
        ensures { result ≡ record { threads = []; others = first_standing } }
    {
        Standings {
            entries: BTreeMap::new(alloc),
            others: Standing::new(),
            moves: Moves::new(alloc),
        }
    }

    /// The threads that were named, in the order of their ids.
    pub fn threads(&self) -> NamedThreads<'_>
        ensures all { result ≡ named self.now }
        ensures rising { IsStrictlySortedBy nat_cmp (keys_of self.now.threads) }
        ensures runs { GivesInOrder ObjectId }
    {
        NamedThreads::of(&self.entries)
    }

    /// What is known of a thread.
    pub fn of(&self, thread: ObjectId) -> Standing
        ensures { result ≡ at self.now thread.0 }
    {
        match self.entries.get(&thread.0) {
            Some(met) => met.seen(&self.moves),
            None => self.others,
        }
    }

    /// Changes what is known of a thread, which is named by that, and of all others.
    ///
    /// # Errors
    /// `NoMemory` where an allocation was refused; nothing has changed.
    pub fn change(
        &mut self,
        thread: Option<ObjectId>,
        own: Change,
        others: Change,
    ) -> Result<(), NoMemory>
        ensures ok { OnOk result ((t : ℕ) → at self.new t ≡ changed (change_for thread own others t) (at self.old t)) }
        ensures unnamed { OnOk result (self.new.others ≡ changed others self.old.others) }
        ensures err { OnErr result (self.new ≡ self.old) }
    {
        self.keep_few();
        match (thread, others) {
            (None, Change::Keep) => Ok(()),
            (Some(one), Change::Keep) => self.change_one(one, own),
            (None, _) => self.change_all(others),
            (Some(one), _) => self.change_both(one, own, others),
        }
    }

    /// Changes what is known of a thread.
    fn change_one(&mut self, thread: ObjectId, own: Change) -> Result<(), NoMemory>
        ensures ok { OnOk result ((t : ℕ) → at self.new t ≡ changed (change_for (Some thread) own Keep t) (at self.old t)) }
        ensures unnamed { OnOk result (self.new.others ≡ self.old.others) }
        ensures err { OnErr result (self.new ≡ self.old) }
    {
        let standing = self.of(thread).changed(own);
        let time = self.moves.len();
        self.entries.insert(thread.0, Met { standing, time })?;
        Ok(())
    }

    /// Changes what is known of all threads.
    fn change_all(&mut self, others: Change) -> Result<(), NoMemory>
        ensures ok { OnOk result ((t : ℕ) → at self.new t ≡ changed others (at self.old t)) }
        ensures unnamed { OnOk result (self.new.others ≡ changed others self.old.others) }
        ensures err { OnErr result (self.new ≡ self.old) }
    {
        self.moves.push(others)?;
        self.others = self.others.changed(others);
        Ok(())
    }

    /// Changes what is known of a thread, and of all others.
    fn change_both(&mut self, thread: ObjectId, own: Change, others: Change) -> Result<(), NoMemory>
        ensures ok { OnOk result ((t : ℕ) → at self.new t ≡ changed (change_for (Some thread) own others t) (at self.old t)) }
        ensures unnamed { OnOk result (self.new.others ≡ changed others self.old.others) }
        ensures err { OnErr result (self.new ≡ self.old) }
    {
        let standing = self.of(thread).changed(own);
        let moved = self.moves.len();
        self.moves.push(others)?;
        let time = self.moves.len();
        match self.entries.insert(thread.0, Met { standing, time }) {
            Ok(_) => {
                self.others = self.others.changed(others);
                Ok(())
            }
            Err(_) => {
                // The move is taken back, so that nothing has changed.
                self.moves.truncate(moved);
                Err(NoMemory)
            }
        }
    }

    /// Where more moves than named threads are noted, writes all of those.
    fn keep_few(&mut self)
        ensures { self.new ≡ self.old }
    {
        if self.moves.len() > self.entries.len() {
            self.write_all();
        }
    }

    /// Writes each thread that was named as it is, and forgets the moves.
    fn write_all(&mut self)
        ensures { self.new ≡ self.old }
    {
        write_entries(&mut self.entries, &self.moves);
        self.moves.clear();
    }
}

/// Writes all threads anew, each as it is where these moves were made.
fn write_entries(entries: &mut BTreeMap<u64, Met>, moves: &Moves)
    ensures { entries.new.entries ≡ map (λ e. (e.0, spec.anew moves.now e.1)) entries.old.entries }
{
    // All are retained: this says of each what it becomes.
    entries.retain(|_, met| {
        *met = met.anew(moves);
        true
    });
}

impl Met {
    /// The thread as it is, where these moves of all threads were made.
    fn seen(self, moves: &Moves) -> Standing
        ensures { result ≡ spec.seen moves.now self }
    {
        moves.after(self.time, self.standing)
    }

    /// The same thread, as it is, where the moves are counted anew.
    fn anew(self, moves: &Moves) -> Met
        ensures { result ≡ spec.anew moves.now self }
    {
        Met {
            standing: self.seen(moves),
            time: 0,
        }
    }
}
