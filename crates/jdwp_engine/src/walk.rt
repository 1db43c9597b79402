//! A walk over live threads by rising id.
ghost use Rattle.std.specs.Prelude.{◌≡◌, ◌≤◌, ◌++◌, ◌∷◌, [], ℕ, List, None, Some, length, take, IfSome, IsTrue};
ghost use Rattle.jdwp_machine.specs.Meanings.{numbers};
ghost use Rattle.jdwp_engine.specs.Rounds.{AreBelow, AreRising, IsAhead, IsNext, id_in, is_above};

use jdwp_value::ObjectId;

/// How far a walk over the live threads has come, by rising id. Where the list has those that are to come by rising id, each is found at
/// once; where it has not, the whole list is looked at for each.
#[derive(Clone, Copy)]
pub struct ThreadWalk {
    /// The thread that came last; None before the first.
    pub last: Option<ObjectId>,
    /// The place in the list from which on all stand that are above `last`, by rising id; None where they stand in another way.
    pub place: Option<usize>,
}

impl ThreadWalk {
    /// The walk before the first of these threads.
    pub fn begin(threads: &[ObjectId]) -> ThreadWalk
        ensures last { result.last ≡ None }
        ensures ahead { IsAhead (numbers threads.now) (id_in result.last) result.place }
    {
        ThreadWalk {
            last: None,
            place: rising_place(threads, None),
        }
    }

    /// The next of these threads: of those above the last one, that of the least id. None where there is none, and then the walk stays.
    pub fn next(&mut self, threads: &[ObjectId]) -> Option<ObjectId>
        requires { IsAhead (numbers threads.now) (id_in self.old.last) self.old.place }
        ensures next { IsNext (numbers threads.now) (id_in self.old.last) (id_in result) }
        ensures last { IfSome result (λ thread. self.new.last ≡ Some thread) }
        ensures stays { result ≡ None → self.new ≡ self.old }
        ensures ahead { IsAhead (numbers threads.now) (id_in self.new.last) self.new.place }
    {
        let Some(place) = self.place else {
            let next = least_above(threads, self.last)?;
            self.last = Some(next);
            return Some(next);
        };
        if place < threads.len() {
            let next = threads[place];
            self.last = Some(next);
            self.place = Some(place + 1);
            Some(next)
        } else {
            None
        }
    }

    /// Goes on over these threads, whatever the list was before.
    pub fn renew(&mut self, threads: &[ObjectId])
        ensures last { self.new.last ≡ self.old.last }
        ensures ahead { IsAhead (numbers threads.now) (id_in self.new.last) self.new.place }
    {
        self.place = rising_place(threads, self.last);
    }
}

/// The place from which on all ids stand that are above `last`, by rising id; None where they stand in another way.
fn rising_place(threads: &[ObjectId], last: Option<ObjectId>) -> Option<usize>
    ensures { IsAhead (numbers threads.now) (id_in last) result }
{
    let place = passed(threads, last);
    if is_rising(&threads[place..], last) {
        Some(place)
    } else {
        None
    }
}

/// How many ids in front are not above `last`.
fn passed(threads: &[ObjectId], last: Option<ObjectId>) -> usize
    ensures within { result ≤ length threads.now }
    ensures below { AreBelow (id_in last) (numbers (take result threads.now)) }
{
    for (place, thread) in threads.iter().enumerate() {
        if is_above(last, *thread) {
            return place;
        }
    }
    threads.len()
}

/// Whether each id is above the one before it, and the first above `last`.
fn is_rising(threads: &[ObjectId], last: Option<ObjectId>) -> bool
    ensures { IsTrue result → AreRising (id_in last) (numbers threads.now) }
{
    let mut before = last;
    for thread in threads {
        if !is_above(before, *thread) {
            return false;
        }
        before = Some(*thread);
    }
    true
}

/// The least of these ids that is above `last`, or of all.
fn least_above(threads: &[ObjectId], last: Option<ObjectId>) -> Option<ObjectId>
    ensures { IsNext (numbers threads.now) (id_in last) (id_in result) }
{
    let mut found: Option<ObjectId> = None;
    for thread in threads {
        found = nearer(found, *thread, last);
    }
    found
}

/// The least above `last` of those of which `found` is, and this one.
fn nearer(found: Option<ObjectId>, thread: ObjectId, last: Option<ObjectId>) -> Option<ObjectId>
    ensures { (ids : List ℕ) → IsNext ids (id_in last) (id_in found)
        → IsNext (ids ++ thread.0 ∷ []) (id_in last) (id_in result) }
{
    if !is_above(last, thread) {
        return found;
    }
    match found {
        Some(other) if other.0 <= thread.0 => Some(other),
        _ => Some(thread),
    }
}

/// Whether the thread is above `last`, or there is none.
fn is_above(last: Option<ObjectId>, thread: ObjectId) -> bool
    ensures { result ≡ is_above (id_in last) thread.0 }
{
    match last {
        None => true,
        Some(last) => last.0 < thread.0,
    }
}
