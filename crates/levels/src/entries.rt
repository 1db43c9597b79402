//! What is kept of each thread. Each reading or writing of it is told in a history that only contracts see, but for the one call that reads
//! behind a shared reference, `at_untold`. A move of the base reaches it through a value that is lent, which counts its accesses.
ghost use Rattle.std.specs.Prelude.{◌≡◌, ◌++◌, ◌∷◌, [], ◌<◌, ◌≤◌, ◌+◌, ◌-◌, ◌^◌, IfErr, IfOk, OnErr, OnOk, length, set};
ghost use Rattle.std.specs.List.{remove};
ghost use Rattle.levels.specs.Levels.{AreLinked, ArePaired, AreRanksClosed, Fallen, Put, entry_at, last_entry, runs, seen, suspended_at};

use crate::order::{Order, Rank};
use std::alloc::{AllocError, Global};
use std::marker::Model;
use trace::Trace;

/// What is kept of one thread.
#[derive(Clone, Copy)]
pub(crate) struct Entry {
    /// Its count, where it is suspended, is the level above the base.
    level: u64,
    /// Where it stands in the order.
    rank: usize,
    /// Whether its count is above 0.
    is_suspended: bool,
}

impl Entry {
    pub fn level(self) -> u64
        ensures { result ≡ self.level }
    {
        self.level
    }

    pub fn rank(self) -> usize
        ensures { result ≡ self.rank }
    {
        self.rank
    }

    pub fn is_suspended(self) -> bool
        ensures { result ≡ self.is_suspended }
    {
        self.is_suspended
    }
}

/// The entries of all threads, by their places.
#[derive(Drop)]
pub(crate) struct Entries {
    list: Vec<Entry>,
    /// The places of the entries that were read or written, one look after the other.
    looks: Trace<usize>,
}

impl Model for Entries {
    ghost use Rattle.std.specs.Prelude.{length, vec_capacity};
    ghost use Rattle.levels.specs.Levels.{EntryList};

    ghost Value = { EntryList };

    ghost view = { λ e. record {
      list = e.list.items;
      capacity = vec_capacity e.list;
      looks = length e.looks.items;
    } };
}

/// Entries lent to one move of the base: each access adds one to the counter.
#[derive(Drop)]
pub(crate) struct Lent<'a> {
    entries: &'a mut Entries,
    visits: &'a mut u32,
}

impl<'a> Lent<'a> {
    /// Lends these entries; the counter starts from 0.
    pub fn of(entries: &'a mut Entries, visits: &'a mut u32) -> Lent<'a>
        ensures same { result.entries.ghost_name ≡ entries.entry.ghost_name }
        ensures counter { result.visits.ghost_name ≡ visits.entry.ghost_name }
        ensures entries { result.entries.now ≡ entries.old }
        ensures none { result.visits.now ≡ 0 }
    {
        *visits = 0;
        Lent { entries, visits }
    }

    /// The thread at a place becomes suspended, at this level.
    pub fn suspend(&mut self, place: usize, level: u64)
        requires within { place < length self.old.entries.now.list }
        requires few { self.old.visits.now < 2 ^ 32 - 1 }
        ensures same { self.new.entries.ghost_name ≡ self.old.entries.ghost_name }
        ensures counter { self.new.visits.ghost_name ≡ self.old.visits.ghost_name }
        ensures entries { self.new.entries.now ≡ record self.old.entries.now {
          list = set self.old.entries.now.list place
              (suspended_at level (entry_at self.old.entries.now.list place));
          looks = self.old.entries.now.looks + 1;
        } }
        ensures visits { self.new.visits.now ≡ self.old.visits.now + 1 }
    {
        *self.visits += 1;
        self.entries.suspend(place, level);
    }

    /// The thread at a place runs.
    pub fn run(&mut self, place: usize)
        requires within { place < length self.old.entries.now.list }
        requires few { self.old.visits.now < 2 ^ 32 - 1 }
        ensures same { self.new.entries.ghost_name ≡ self.old.entries.ghost_name }
        ensures counter { self.new.visits.ghost_name ≡ self.old.visits.ghost_name }
        ensures entries { self.new.entries.now ≡ record self.old.entries.now {
          list = set self.old.entries.now.list place
              (runs (entry_at self.old.entries.now.list place));
          looks = self.old.entries.now.looks + 1;
        } }
        ensures visits { self.new.visits.now ≡ self.old.visits.now + 1 }
    {
        *self.visits += 1;
        self.entries.run(place);
    }
}

impl Entries {
    /// No entries, with room for so many.
    pub fn with_capacity(alloc: Global, capacity: usize) -> Result<Entries, AllocError>
        requires { capacity < 2 ^ 32 }
        ensures none { IfOk result (λ e. e.list ≡ []) }
        ensures room { IfOk result (λ e. capacity ≤ e.capacity) }
        ensures memory { IfErr result (λ _. 0 < capacity) }
    {
        let mut list = Vec::new(alloc);
        list.reserve_exact(capacity)?;
        Ok(Entries {
            list,
            looks: Trace::new(),
        })
    }

    /// What is kept of the thread at a place.
    pub fn at(&mut self, place: usize) -> Entry
        requires { place < length self.old.list }
        ensures value { result ≡ entry_at self.old.list place }
        ensures after { self.new ≡ seen self.old }
    {
        self.looks.push(&place);
        self.list[place]
    }

    /// What is kept of the thread at a place. Behind a shared reference no look can be told: this is the one call that reads an entry
    /// untold, and only `Counts::count` makes it.
    pub fn at_untold(&self, place: usize) -> Entry
        requires { place < length self.now.list }
        ensures { result ≡ entry_at self.now.list place }
    {
        self.list[place]
    }

    /// Makes room for one more.
    ///
    /// # Errors
    /// Where an allocation was refused, and only where there was no room.
    pub fn make_room(&mut self) -> Result<(), AllocError>
        ensures same { self.new.list ≡ self.old.list }
        ensures kept { self.old.capacity ≤ self.new.capacity }
        ensures room { OnOk result (length self.new.list < self.new.capacity) }
        ensures memory { OnErr result (self.old.capacity ≤ length self.old.list) }
    {
        self.list.reserve(1)?;
        Ok(())
    }

    /// Adds a thread that runs, at this rank of the order; there is room for it.
    pub fn add(&mut self, rank: usize)
        requires { length self.old.list < self.old.capacity }
        ensures { self.new ≡ record self.old {
          list = self.old.list ++ last_entry rank ∷ [];
          looks = self.old.looks + 1;
        } }
    {
        let place = self.list.len();
        self.looks.push(&place);
        self.list.push_reserved(Entry {
            level: 0,
            rank,
            is_suspended: false,
        });
    }

    /// Puts a thread at a rank of the order, with a level, and who stands there at the thread's. It looks at both; how often is not told.
    pub fn put(
        &mut self,
        order: &mut Order,
        place: usize,
        to: usize,
        level: u64,
        is_suspended: bool,
    )
        requires linked { ArePaired self.old.list order.old.list }
        requires here { place < length self.old.list }
        requires there { to < length order.old.list }
        ensures is { Put place to level is_suspended self.old.list order.old.list
            self.new.list order.new.list }
        ensures capacity { self.new.capacity ≡ self.old.capacity }
        ensures room { order.new.capacity ≡ order.old.capacity }
    {
        let from = self.list[place].rank;
        let other = order.at(to);
        self.looks.push(&place);
        self.looks.push(&other.place);
        order.set(from, other);
        order.set(to, Rank { place, level });
        self.list[other.place].rank = from;
        self.list[place] = Entry {
            level,
            rank: to,
            is_suspended,
        };
    }

    /// All run. It looks at those that are suspended; how often is not told.
    pub fn stop_all(&mut self, order: &mut Order, suspended: usize)
        requires linked { AreLinked self.old.list order.old.list suspended }
        ensures fallen { Fallen suspended 0 self.old.list self.new.list }
        ensures capacity { self.new.capacity ≡ self.old.capacity }
        ensures order { order.new.list ≡ order.old.list }
        ensures room { order.new.capacity ≡ order.old.capacity }
    {
        let mut to = suspended;
        while to > 0 {
            to -= 1;
            let place = order.at(to).place;
            self.looks.push(&place);
            self.list[place].is_suspended = false;
        }
    }

    /// The thread at a place becomes suspended, at this level.
    fn suspend(&mut self, place: usize, level: u64)
        requires { place < length self.old.list }
        ensures { self.new ≡ record self.old {
          list = set self.old.list place (suspended_at level (entry_at self.old.list place));
          looks = self.old.looks + 1;
        } }
    {
        self.looks.push(&place);
        let entry = &mut self.list[place];
        entry.level = level;
        entry.is_suspended = true;
    }

    /// The thread at a place runs.
    fn run(&mut self, place: usize)
        requires { place < length self.old.list }
        ensures { self.new ≡ record self.old {
          list = set self.old.list place (runs (entry_at self.old.list place));
          looks = self.old.looks + 1;
        } }
    {
        self.looks.push(&place);
        self.list[place].is_suspended = false;
    }

    /// Takes out the entry at a place.
    pub fn remove(&mut self, place: usize)
        requires { place < length self.old.list }
        ensures { self.new ≡ record self.old {
          list = remove self.old.list place;
          looks = self.old.looks + 1;
        } }
    {
        self.looks.push(&place);
        let _ = self.list.remove(place);
    }

    /// Takes out all entries.
    pub fn remove_all(&mut self)
        ensures { self.new.list ≡ [] }
    {
        self.list.clear();
    }

    /// The ranks above one that is gone move down. It looks at all entries; how often is not told.
    pub fn close_ranks(&mut self, gone: usize)
        ensures closed { AreRanksClosed gone self.old.list self.new.list }
        ensures capacity { self.new.capacity ≡ self.old.capacity }
    {
        for place in 0..self.list.len() {
            self.looks.push(&place);
            let rank = self.list[place].rank;
            if rank > gone {
                self.list[place].rank = rank - 1;
            }
        }
    }
}
