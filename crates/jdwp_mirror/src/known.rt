//! The threads that a debugger knows, one after another.
ghost use Rattle.std.specs.Prelude.{◌≡◌, IfSome, Some, length, map};
ghost use Rattle.std.specs.Iterator.{UpTo, at_most};
ghost use Rattle.std.specs.Iterator.SizeHint.{IsWithinCount};
ghost use Rattle.std.specs.Map.Iter.{GivesInOrder, TakesFirst};
ghost use Rattle.std.specs.BTreeMap.{values};
ghost use Rattle.jdwp_mirror.specs.declared.threads.Known.{Known};
ghost use Rattle.jdwp_mirror.specs.Numbering.{seen};

use crate::met::Met;
use crate::moves::Moves;
use crate::threads::Known;
use std::alloc::Global;
use std::collections::BTreeMap;
use std::collections::btree_map::Values;
use std::marker::Model;

/// Known threads in the order in which they became known: those that are left.
#[derive(Drop)]
pub struct KnownThreads<'a> {
    rest: Values<'a, u64, Met>,
    /// The moves of all counts.
    moves: &'a Moves,
}

impl<'a> Model for KnownThreads<'a> {
    ghost use Rattle.std.specs.Prelude.{List, map};
    ghost use Rattle.jdwp_mirror.specs.declared.threads.Known.{Known};
    ghost use Rattle.jdwp_mirror.specs.Numbering.{seen};

    ghost Value = { List Known };

    ghost view = { λ k. map (seen k.moves.now) k.rest };
}

impl<'a> Iterator for KnownThreads<'a> {
    type Item = Known;

    ghost next_gives = { TakesFirst (λ k. k) };

    ghost remaining = { λ s. at_most (length s) };

    fn next(&mut self) -> Option<Known> {
        match self.rest.next() {
            Some(met) => Some(met.seen(self.moves)),
            None => None,
        }
    }

    /// Exactly how many are left.
    fn size_hint(&self) -> (usize, Option<usize>)
        ensures lower { IsWithinCount result.0 (at_most (length self.now)) }
        ensures upper { IfSome result.1 (UpTo (at_most (length self.now))) }
        ensures exact { result ≡ (length self.now, Some (length self.now)) }
    {
        let left = self.rest.len();
        (left, Some(left))
    }
}

impl<'a> ExactSizeIterator for KnownThreads<'a> {
    fn len(&self) -> usize {
        self.rest.len()
    }
}

impl<'a> KnownThreads<'a> {
    /// Those that stand in a map under the numbers with which they became known, where these moves of all counts were
    /// made.
    pub(crate) fn of(entries: &'a BTreeMap<u64, Met>, moves: &'a Moves) -> KnownThreads<'a>
        ensures all { result ≡ map (seen moves.now) (values entries.now) }
        ensures runs { GivesInOrder Known }
    {
        KnownThreads {
            rest: entries.values(),
            moves,
        }
    }
}
