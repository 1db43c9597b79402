//! Suspend counts, each a level above a base.
ghost use Rattle.std.specs.Prelude.{◌≡◌, ◌<◌, ◌≤◌, ◌^◌, ◌+◌, ◌==◌, [], IfErr, IfOk, OnErr, OnOk, get_or, length, map, not, replicate};
ghost use Rattle.std.specs.List.{All, list_any, remove};
ghost use Rattle.levels.specs.Counts.{but_looks, cleared, count_most, lowered, raised, standing, with_count, with_zero};

use crate::entries::{Entries, Lent};
use crate::level::{above, after, before};
use crate::moves::{fall, rise};
use crate::order::Order;
use std::alloc::{AllocError, Global};
use std::marker::Model;

/// The suspend counts of threads, by their places from 0 on, each 0 to 2,147,483,648; and how many threads the last move of all counts
/// visited, that is, whose own entry it read or wrote.
///
/// Contracts see how often an entry was read or written, and how often a rank of the order in which threads stand (`looks`, `rank_looks`):
/// a move of all counts looks as often as it visits, and at one rank more at the most. Two calls only read, and their looks are not told,
/// since nothing can be told behind a shared reference: `count`, of one entry, and `is_at_limit`, of the first rank.
#[derive(Drop)]
pub struct Counts {
    entries: Entries,
    /// Those that are suspended by falling level, and then the others.
    order: Order,
    /// How many are suspended.
    suspended: usize,
    base: u64,
    visits: u32,
}

impl Model for Counts {
    ghost use Rattle.levels.specs.Counts.{Counts, after_looks};
    ghost use Rattle.levels.specs.Levels.{IsRight, view_of};

    ghost Value = { Counts };

    ghost use Rattle.std.specs.Prelude.{min};

    ghost view = { λ c. after_looks c.entries.looks c.order.looks
        (view_of c.base c.entries.list c.visits (min c.entries.capacity c.order.capacity)) };

    ghost invariant = { λ c. IsRight c.base c.entries.list c.order.list c.suspended };
}

impl Counts {
    /// So many counts of 0, and no visits. All the room that they need is made here.
    ///
    /// # Errors
    /// Where an allocation was refused, and only where there are any.
    pub fn new(alloc: Global, count: usize) -> Result<Counts, AllocError>
        requires { count < 2 ^ 32 }
        ensures counts { IfOk result (λ c. c.counts ≡ replicate count 0) }
        ensures visits { IfOk result (λ c. c.visits ≡ 0) }
        ensures memory { IfErr result (λ _. 0 < count) }
    {
        let entries = Entries::with_capacity(alloc, count)?;
        let order = Order::with_capacity(alloc, count)?;
        let mut counts = Counts {
            entries,
            order,
            suspended: 0,
            base: 0,
            visits: 0,
        };
        for _ in 0..count {
            counts.add();
        }
        Ok(counts)
    }

    /// Makes room for one count more.
    ///
    /// # Errors
    /// Where an allocation was refused, and only where there was no room.
    pub fn make_room(&mut self) -> Result<(), AllocError>
        ensures same { self.new.counts ≡ self.old.counts }
        ensures visits { self.new.visits ≡ self.old.visits }
        ensures room { OnOk result (length self.new.counts < self.new.capacity) }
        ensures memory { OnErr result (self.old.capacity ≤ length self.old.counts) }
    {
        self.entries.make_room()?;
        self.order.make_room()
    }

    /// Adds a count of 0 at the end, for which there is room.
    pub fn add(&mut self)
        requires room { length self.old.counts < self.old.capacity }
        requires few { length self.old.counts + 1 < 2 ^ 32 }
        ensures { but_looks self.new ≡ with_zero (but_looks self.old) }
    {
        let last = self.order.len();
        self.entries.add(last);
        self.order.add(last);
    }

    /// Takes out the count at a place; those behind it move down. It looks at all of them.
    pub fn remove(&mut self, place: usize)
        requires { place < length self.old.counts }
        ensures { but_looks self.new
            ≡ record (but_looks self.old) { counts = remove self.old.counts place } }
    {
        let entry = self.entries.at(place);
        let gone = entry.rank();
        self.entries.remove(place);
        self.entries.close_ranks(gone);
        self.order.remove(gone);
        self.order.close_places(place);
        if gone < self.suspended {
            self.suspended -= 1;
        }
    }

    /// Takes out all counts; the visits stay.
    pub fn remove_all(&mut self)
        ensures counts { self.new.counts ≡ [] }
        ensures visits { self.new.visits ≡ self.old.visits }
    {
        self.entries.remove_all();
        self.order.remove_all();
        self.suspended = 0;
    }

    /// The count at a place.
    pub fn count(&self, place: usize) -> u32
        requires { place < length self.now.counts }
        ensures { result ≡ get_or self.now.counts place 0 }
    {
        let entry = self.entries.at_untold(place);
        if entry.is_suspended() {
            above(self.base, entry.level()) as u32
        } else {
            0
        }
    }

    /// How many threads the last move of all counts visited, 0 before the first.
    pub fn visits(&self) -> u32
        ensures { result ≡ self.now.visits }
    {
        self.visits
    }

    /// Each count rises by one. It visits those that were 0, and looks at nobody else.
    pub fn raise_all(&mut self)
        requires { All (λ n. n < count_most) self.old.counts }
        ensures counts { self.new.counts ≡ map raised self.old.counts }
        ensures visits { self.new.visits ≡ standing 0 self.old.counts }
        ensures looks { self.new.looks ≡ self.old.looks + self.new.visits }
        ensures ranks { self.new.rank_looks ≡ self.old.rank_looks + self.new.visits }
        ensures capacity { self.new.capacity ≡ self.old.capacity }
    {
        let level = self.base;
        let mut lent = Lent::of(&mut self.entries, &mut self.visits);
        rise(&mut lent, &mut self.order, self.suspended, level);
        self.suspended = self.order.len();
        self.base = before(level);
    }

    /// Each count that is above 0 falls by one. It visits those that were 1, and looks at one rank more at the most.
    pub fn lower_all(&mut self)
        ensures counts { self.new.counts ≡ map lowered self.old.counts }
        ensures visits { self.new.visits ≡ standing 1 self.old.counts }
        ensures looks { self.new.looks ≡ self.old.looks + self.new.visits }
        // It looks at the first of those that stay suspended, too, where there is one.
        ensures ranks { self.old.rank_looks + self.new.visits ≤ self.new.rank_looks }
        ensures one_more { self.new.rank_looks ≤ self.old.rank_looks + self.new.visits + 1 }
        ensures capacity { self.new.capacity ≡ self.old.capacity }
    {
        let base = after(self.base);
        let mut lent = Lent::of(&mut self.entries, &mut self.visits);
        let suspended = fall(&mut lent, &mut self.order, self.suspended, base);
        self.suspended = suspended;
        self.base = base;
    }

    /// One count rises by one; the visits stay. It looks at a number of others that is the logarithm of theirs.
    pub fn raise_one(&mut self, place: usize)
        requires within { place < length self.old.counts }
        requires below { get_or self.old.counts place 0 < count_most }
        ensures { but_looks self.new ≡ with_count place
            (raised (get_or self.old.counts place 0)) (but_looks self.old) }
    {
        let entry = self.entries.at(place);
        let suspended = self.suspended;
        if entry.is_suspended() {
            let more = above(self.base, entry.level()) + 1;
            let to = self.order.split(suspended, self.base, more);
            let level = after(entry.level());
            self.entries.put(&mut self.order, place, to, level, true);
        } else {
            let level = after(self.base);
            self.entries
                .put(&mut self.order, place, suspended, level, true);
            self.suspended = suspended + 1;
        }
    }

    /// One count that is above 0 falls by one; the visits stay. It looks at a number of others that is the logarithm of theirs.
    pub fn lower_one(&mut self, place: usize)
        requires within { place < length self.old.counts }
        ensures { but_looks self.new ≡ with_count place
            (lowered (get_or self.old.counts place 0)) (but_looks self.old) }
    {
        let entry = self.entries.at(place);
        if entry.is_suspended() {
            let count = above(self.base, entry.level());
            let to = self.order.split(self.suspended, self.base, count) - 1;
            let level = before(entry.level());
            self.entries
                .put(&mut self.order, place, to, level, count > 1);
            if count == 1 {
                self.suspended -= 1;
            }
        }
    }

    /// Each count becomes 0; the visits stay.
    pub fn clear(&mut self)
        ensures { but_looks self.new ≡ cleared (but_looks self.old) }
    {
        self.entries.stop_all(&mut self.order, self.suspended);
        self.suspended = 0;
    }

    /// Whether a count is this one, which is above 0 and below no count. It looks at one of them.
    pub fn is_at_limit(&self, limit: u32) -> bool
        requires positive { 1 ≤ limit }
        requires most { All (λ n. n ≤ limit) self.now.counts }
        ensures { result ≡ list_any (λ n. n == limit) self.now.counts }
    {
        self.suspended > 0 && above(self.base, self.order.first_untold().level) == limit as u64
    }

    /// Whether no count is 0. It looks at none of them.
    pub fn are_all_suspended(&self) -> bool
        ensures { result ≡ not (list_any (λ n. n == 0) self.now.counts) }
    {
        self.suspended >= self.order.len()
    }
}
