//! In which order threads stand: those that are suspended by falling level, and then those that run. Each reading or writing of a rank is
//! told in a history that only contracts see, but for the one call that reads behind a shared reference, `first_untold`.
ghost use Rattle.std.specs.Prelude.{◌≡◌, ◌++◌, ◌∷◌, [], ◌<◌, ◌≤◌, ◌+◌, ◌^◌, IfErr, IfOk, OnErr, OnOk, length, set};
ghost use Rattle.std.specs.List.{remove};
ghost use Rattle.levels.specs.declared.order.Rank.{Rank};
ghost use Rattle.levels.specs.Levels.{AreFalling, ArePlacesClosed, Splits, last_rank, lifted, rank_at, rank_seen};

use crate::level::above;
use std::alloc::{AllocError, Global};
use std::marker::Model;
use trace::Trace;

/// A rank in the order.
#[derive(Clone, Copy)]
pub(crate) struct Rank {
    /// The place of the thread that stands there.
    pub place: usize,
    /// Its level.
    pub level: u64,
}

/// The order: a list of ranks.
#[derive(Drop)]
pub(crate) struct Order {
    ranks: Vec<Rank>,
    /// The ranks that were read or written, one look after the other.
    looks: Trace<usize>,
}

impl Model for Order {
    ghost use Rattle.std.specs.Prelude.{length, vec_capacity};
    ghost use Rattle.levels.specs.Levels.{RankList};

    ghost Value = { RankList };

    ghost view = { λ o. record {
      list = o.ranks.items;
      capacity = vec_capacity o.ranks;
      looks = length o.looks.items;
    } };
}

impl Order {
    /// No ranks, with room for so many.
    pub fn with_capacity(alloc: Global, capacity: usize) -> Result<Order, AllocError>
        requires { capacity < 2 ^ 32 }
        ensures none { IfOk result (λ o. o.list ≡ []) }
        ensures room { IfOk result (λ o. capacity ≤ o.capacity) }
        ensures memory { IfErr result (λ _. 0 < capacity) }
    {
        let mut ranks = Vec::new(alloc);
        ranks.reserve_exact(capacity)?;
        Ok(Order {
            ranks,
            looks: Trace::new(),
        })
    }

    /// How many there are.
    pub fn len(&self) -> usize
        ensures { result ≡ length self.now.list }
    {
        self.ranks.len()
    }

    /// Who stands at a rank.
    pub fn at(&mut self, rank: usize) -> Rank
        requires { rank < length self.old.list }
        ensures value { result ≡ rank_at self.old.list rank }
        ensures after { self.new ≡ rank_seen self.old }
    {
        self.looks.push(&rank);
        self.ranks[rank]
    }

    /// Who stands at the first rank. Behind a shared reference no look can be told: this is the one call that reads a rank untold, and only
    /// `Counts::is_at_limit` makes it.
    pub fn first_untold(&self) -> Rank
        requires { 0 < length self.now.list }
        ensures { result ≡ rank_at self.now.list 0 }
    {
        self.ranks[0]
    }

    /// Another stands at a rank.
    pub fn set(&mut self, rank: usize, now: Rank)
        requires { rank < length self.old.list }
        ensures { self.new ≡ record self.old {
          list = set self.old.list rank now;
          looks = self.old.looks + 1;
        } }
    {
        self.looks.push(&rank);
        self.ranks[rank] = now;
    }

    /// Who stands at a rank has another level now: the place of the thread. It looks once.
    pub fn lift(&mut self, rank: usize, level: u64) -> usize
        requires { rank < length self.old.list }
        ensures place { result ≡ (rank_at self.old.list rank).place }
        ensures after { self.new ≡ record self.old {
          list = set self.old.list rank (lifted level (rank_at self.old.list rank));
          looks = self.old.looks + 1;
        } }
    {
        self.looks.push(&rank);
        let now = &mut self.ranks[rank];
        now.level = level;
        now.place
    }

    /// Makes room for one more.
    ///
    /// # Errors
    /// Where an allocation was refused, and only where there was no room.
    pub fn make_room(&mut self) -> Result<(), AllocError>
        ensures same { self.new.list ≡ self.old.list }
        ensures kept { self.old.capacity ≤ self.new.capacity }
        ensures room { OnOk result (length self.new.list < self.new.capacity) }
        ensures memory { OnErr result (self.old.capacity ≤ length self.old.list) }
    {
        self.ranks.reserve(1)?;
        Ok(())
    }

    /// One that runs is added at the end, for which there is room.
    pub fn add(&mut self, place: usize)
        requires { length self.old.list < self.old.capacity }
        ensures { self.new ≡ record self.old {
          list = self.old.list ++ last_rank place ∷ [];
          looks = self.old.looks + 1;
        } }
    {
        let rank = self.ranks.len();
        self.looks.push(&rank);
        self.ranks.push_reserved(Rank { place, level: 0 });
    }

    /// How many of the first `end`, which are those that are suspended, have this count or more. It looks at a number of ranks that is
    /// the logarithm of theirs; how often is not told.
    pub fn split(&mut self, end: usize, base: u64, least: u64) -> usize
        requires within { end ≤ length self.old.list }
        requires falling { AreFalling base self.old.list end }
        ensures splits { Splits base least result end self.old.list }
        ensures same { self.new.list ≡ self.old.list }
        ensures capacity { self.new.capacity ≡ self.old.capacity }
    {
        let mut low = 0;
        let mut high = end;
        while low < high {
            let middle = low + (high - low) / 2;
            self.looks.push(&middle);
            if above(base, self.ranks[middle].level) >= least {
                low = middle + 1;
            } else {
                high = middle;
            }
        }
        low
    }

    /// Takes a rank out.
    pub fn remove(&mut self, rank: usize)
        requires { rank < length self.old.list }
        ensures { self.new ≡ record self.old {
          list = remove self.old.list rank;
          looks = self.old.looks + 1;
        } }
    {
        self.looks.push(&rank);
        let _ = self.ranks.remove(rank);
    }

    /// Takes all ranks out.
    pub fn remove_all(&mut self)
        ensures { self.new.list ≡ [] }
    {
        self.ranks.clear();
    }

    /// The places above one that is gone move down. It looks at all ranks; how often is not told.
    pub fn close_places(&mut self, gone: usize)
        ensures closed { ArePlacesClosed gone self.old.list self.new.list }
        ensures capacity { self.new.capacity ≡ self.old.capacity }
    {
        for rank in 0..self.ranks.len() {
            self.looks.push(&rank);
            let place = self.ranks[rank].place;
            if place > gone {
                self.ranks[rank].place = place - 1;
            }
        }
    }
}
