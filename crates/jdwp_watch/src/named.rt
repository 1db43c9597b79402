//! The threads that were named, one after another.
ghost use Rattle.std.specs.Prelude.{◌≡◌, IfSome, Some, length, map};
ghost use Rattle.std.specs.BTreeMap.{keys};
ghost use Rattle.std.specs.Iterator.{UpTo, at_most};
ghost use Rattle.std.specs.Iterator.SizeHint.{IsWithinCount};
ghost use Rattle.std.specs.List.Sorted.{IsStrictlySortedBy};
ghost use Rattle.std.specs.Map.Iter.{GivesInOrder, TakesFirst};
ghost use Rattle.std.specs.Ordering.{nat_cmp};
ghost use Rattle.jdwp_event.specs.Told.{object_id};
ghost use Rattle.jdwp_value.specs.declared.id.ObjectId.{ObjectId};

use crate::standings::Met;
use jdwp_value::ObjectId;
use std::alloc::Global;
use std::collections::BTreeMap;
use std::collections::btree_map::Keys;
use std::marker::Model;

/// Threads that were named, in the order of their ids: those that are left.
#[derive(Drop)]
pub struct NamedThreads<'a> {
    rest: Keys<'a, u64, Met>,
}

impl<'a> Model for NamedThreads<'a> {
    ghost use Rattle.std.specs.Prelude.{List, map};
    ghost use Rattle.jdwp_event.specs.Told.{object_id};
    ghost use Rattle.jdwp_value.specs.declared.id.ObjectId.{ObjectId};

    ghost Value = { List ObjectId };

    ghost view = { λ n. map object_id n.rest };
}

impl<'a> Iterator for NamedThreads<'a> {
    type Item = ObjectId;

    ghost next_gives = { TakesFirst (λ n. n) };

    ghost remaining = { λ s. at_most (length s) };

    fn next(&mut self) -> Option<ObjectId> {
        match self.rest.next() {
            Some(id) => Some(ObjectId(*id)),
            None => None,
        }
    }

    /// Exactly how many are left.
    fn size_hint(&self) -> (usize, Option<usize>)
        ensures lower { IsWithinCount result.0 (at_most (length self.now)) }
        ensures upper { IfSome result.1 (UpTo (at_most (length self.now))) }
        ensures exact { result ≡ (length self.now, Some (length self.now)) }
    {
        let left = self.rest.len();
        (left, Some(left))
    }
}

impl<'a> ExactSizeIterator for NamedThreads<'a> {
    fn len(&self) -> usize {
        self.rest.len()
    }
}

impl<'a> NamedThreads<'a> {
    /// Those that stand in a map under their ids.
    pub(crate) fn of(entries: &'a BTreeMap<u64, Met>) -> NamedThreads<'a>
        ensures all { result ≡ map object_id (keys entries.now) }
        ensures rising { IsStrictlySortedBy nat_cmp (keys entries.now) }
        ensures runs { GivesInOrder ObjectId }
    {
        NamedThreads {
            rest: entries.keys(),
        }
    }
}
