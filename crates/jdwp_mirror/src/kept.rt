//! The event requests that a debugger knows, one after another.
ghost use Rattle.std.specs.Prelude.{◌≡◌, IfSome, Some, length};
ghost use Rattle.std.specs.Iterator.{UpTo, at_most};
ghost use Rattle.std.specs.Iterator.SizeHint.{IsWithinCount};
ghost use Rattle.std.specs.Map.Iter.{ShowsInOrder, TakesFirst, deref};
ghost use Rattle.std.specs.BTreeMap.{values};
ghost use Rattle.jdwp_mirror.specs.Mirror.{Kept};

use crate::requests::KeptRequest;
use std::collections::BTreeMap;
use std::collections::btree_map::Values;
use std::marker::Model;

/// Event requests, the last one asked last: those that are left.
#[derive(Drop)]
pub struct KeptRequests<'a> {
    rest: Values<'a, u64, KeptRequest>,
}

impl<'a> Model for KeptRequests<'a> {
    ghost use Rattle.std.specs.Prelude.{List};
    ghost use Rattle.jdwp_mirror.specs.Mirror.{Kept};

    ghost Value = { List Kept };

    ghost view = { λ k. k.rest };
}

impl<'a> Iterator for KeptRequests<'a> {
    type Item = &'a KeptRequest;

    ghost next_gives = { TakesFirst (deref {X = Kept}) };

    ghost remaining = { λ s. at_most (length s) };

    fn next(&mut self) -> Option<&'a KeptRequest> {
        self.rest.next()
    }

    /// Exactly how many are left.
    fn size_hint(&self) -> (usize, Option<usize>)
        ensures lower { IsWithinCount result.0 (at_most (length self.now)) }
        ensures upper { IfSome result.1 (UpTo (at_most (length self.now))) }
        ensures exact { result ≡ (length self.now, Some (length self.now)) }
    {
        let left = self.rest.len();
        (left, Some(left))
    }
}

impl<'a> ExactSizeIterator for KeptRequests<'a> {
    fn len(&self) -> usize {
        self.rest.len()
    }
}

impl<'a> KeptRequests<'a> {
    /// Those that stand in a map under numbers that rise in the order asked.
    pub(crate) fn of(entries: &'a BTreeMap<u64, KeptRequest>) -> KeptRequests<'a>
        ensures all { result ≡ values entries.now }
        ensures runs { ShowsInOrder (deref {X = Kept}) }
    {
        KeptRequests {
            rest: entries.values(),
        }
    }
}
