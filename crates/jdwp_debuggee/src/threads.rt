//! The live threads and their suspend counts.
ghost use Rattle.jdwp_wire.specs.Numbers.{greatest_int};
ghost use Rattle.std.specs.Prelude.{◌≡◌, ◌≤◌, ◌<◌, ◌+◌, ◌^◌, ◌++◌, ◌∷◌, [], map, length, not, false, OnOk, IfOk};
ghost use Rattle.std.specs.List.{filter};
ghost use Rattle.jdwp_machine.specs.Meanings.{numbers};
ghost use Rattle.jdwp_debuggee.specs.Entries.{AllAtMost, all_marked, ids_of, least_of, place_from, stands_at, threads_of};
ghost use Rattle.jdwp_debuggee.specs.State as spec;
ghost use Rattle.jdwp_debuggee.specs.State.{changed, cleared, is_above_zero, is_marked_by, is_other, lowered, marked, only, raised, running, thread_in};
ghost use Rattle.jdwp_debuggee.specs.Refusals.{is_some_count};
ghost use Rattle.jdwp_debuggee.specs.Answers.{first_of, rising};
ghost use Rattle.jdwp_debuggee.specs.Sending.{place_in};
ghost use Rattle.jdwp_debuggee.specs.Visits.{turned};

use jdwp_value::ObjectId;
use jdwp_wire::NoMemory;
use levels::Counts;
use std::alloc::Global;
use std::marker::Model;

/// The most threads that there may be: visits are counted in 32 bits.
const MOST_THREADS: usize = 4_294_967_295;

/// A live thread, and whether its death was reported.
#[derive(Clone, Copy)]
struct ThreadEntry {
    id: ObjectId,
    death_reported: bool,
}

/// The live threads and their suspend counts.
#[derive(Drop)]
pub(crate) struct Threads {
    entries: Vec<ThreadEntry>,
    /// The suspend counts of the entries, by their places.
    counts: Counts,
}

impl Model for Threads {
    ghost use Rattle.std.specs.Prelude.{◌≡◌, length, min, vec_capacity};
    ghost use Rattle.jdwp_debuggee.specs.Entries.{LiveThreads, threads_of};

    ghost Value = { LiveThreads };

    ghost view = { λ t. record {
      list = threads_of t.entries.items t.counts.counts;
      visits = t.counts.visits;
      capacity = min (vec_capacity t.entries) t.counts.capacity;
    } };

    ghost invariant = { λ t. length t.counts.counts ≡ length t.entries.items };
}

/// The place of a thread, or None where it is not alive.
fn find(entries: &[ThreadEntry], thread: ObjectId) -> Option<usize>
    ensures { result ≡ place_from 0 thread.0 entries.now }
{
    for (place, entry) in entries.iter().enumerate() {
        if entry.id.0 == thread.0 {
            return Some(place);
        }
    }
    None
}

/// One thread's suspend count rises by one.
fn raise_one(entries: &[ThreadEntry], counts: &mut Counts, thread: ObjectId)
    requires same { length counts.old.counts ≡ length entries.now }
    requires most { AllAtMost greatest_int (threads_of entries.now counts.old.counts) }
    ensures same { length counts.new.counts ≡ length counts.old.counts }
    ensures list { threads_of entries.now counts.new.counts
        ≡ changed (only thread.0 raised) (threads_of entries.now counts.old.counts) }
    ensures visits { counts.new.visits ≡ counts.old.visits }
{
    for (place, entry) in entries.iter().enumerate() {
        if thread.0 == entry.id.0 {
            counts.raise_one(place);
        }
    }
}

/// One thread's suspend count falls by one, if it is positive.
fn lower_one(entries: &[ThreadEntry], counts: &mut Counts, thread: ObjectId)
    requires { length counts.old.counts ≡ length entries.now }
    ensures same { length counts.new.counts ≡ length counts.old.counts }
    ensures list { threads_of entries.now counts.new.counts
        ≡ changed (only thread.0 lowered) (threads_of entries.now counts.old.counts) }
    ensures visits { counts.new.visits ≡ counts.old.visits }
{
    for (place, entry) in entries.iter().enumerate() {
        if thread.0 == entry.id.0 {
            counts.lower_one(place);
        }
    }
}

/// Takes a thread out of the entries, and its count out of the counts.
fn remove_one(entries: &mut Vec<ThreadEntry>, counts: &mut Counts, thread: ObjectId)
    requires { length counts.old.counts ≡ length entries.old.items }
    ensures same { length counts.new.counts ≡ length entries.new.items }
    ensures list { threads_of entries.new.items counts.new.counts
        ≡ filter (is_other thread.0) (threads_of entries.old.items counts.old.counts) }
    ensures visits { counts.new.visits ≡ counts.old.visits }
{
    while let Some(place) = find(entries, thread) {
        let _ = entries.remove(place);
        counts.remove(place);
    }
}

/// Marks a thread's death as reported.
fn mark_one(entries: &mut [ThreadEntry], thread: ObjectId)
    ensures { entries.new ≡ all_marked thread.0 entries.old }
{
    for entry in entries.iter_mut() {
        if entry.id.0 == thread.0 {
            entry.death_reported = true;
        }
    }
}

/// The least of this id and those of the entries.
fn least_from(id: u64, entries: &[ThreadEntry]) -> u64
    ensures { result ≡ least_of id (ids_of entries.now) }
{
    let mut least = id;
    for entry in entries {
        if entry.id.0 < least {
            least = entry.id.0;
        }
    }
    least
}

/// Where an id stands among rising ones: before the first that is not less.
fn place_for(ids: &[u64], id: u64) -> usize
    ensures within { result ≤ length ids.now }
    ensures value { result ≡ place_in id ids.now }
{
    for (place, other) in ids.iter().enumerate() {
        if id <= *other {
            return place;
        }
    }
    ids.len()
}

/// The ids of the entries, by rising id: each is put at its place, from the last one on.
fn rising_ids(alloc: Global, entries: &[ThreadEntry]) -> Result<Vec<u64>, NoMemory>
    ensures { IfOk result (λ ids. ids.items ≡ rising (ids_of entries.now)) }
{
    let [first, others @ ..] = entries else {
        return Ok(Vec::new(alloc));
    };
    let mut ids = rising_ids(alloc, others)?;
    let place = place_for(&ids, first.id.0);
    ids.insert(place, first.id.0)?;
    Ok(ids)
}

impl Threads {
    /// These threads, which all run.
    ///
    /// # Errors
    /// `NoMemory` where an allocation was refused, and where there are more than 4,294,967,295 of them.
    pub(crate) fn new(alloc: Global, live: &[ObjectId]) -> Result<Threads, NoMemory>
        ensures list { IfOk result (λ threads. threads.list ≡ running (numbers live.now)) }
        ensures visits { IfOk result (λ threads. threads.visits ≡ 0) }
    {
        if live.len() > MOST_THREADS {
            return Err(NoMemory);
        }
        let mut entries = Vec::with_capacity(alloc, live.len())?;
        for id in live {
            entries.push(ThreadEntry {
                id: *id,
                death_reported: false,
            })?;
        }
        let counts = Counts::new(alloc, live.len())?;
        Ok(Threads { entries, counts })
    }

    /// How many there are.
    pub(crate) fn len(&self) -> usize
        ensures { result ≡ length self.now.list }
    {
        self.entries.len()
    }

    /// The suspend count of a thread, or None where it is not alive.
    pub(crate) fn count(&self, thread: ObjectId) -> Option<u32>
        ensures { result ≡ spec.count_in self.now.list thread.0 }
    {
        match find(&self.entries, thread) {
            Some(place) => Some(self.counts.count(place)),
            None => None,
        }
    }

    /// Whether a thread is alive.
    pub(crate) fn is_live(&self, thread: ObjectId) -> bool
        ensures { result ≡ is_some_count (spec.count_in self.now.list thread.0) }
    {
        self.count(thread).is_some()
    }

    /// Whether a thread is alive and suspended.
    pub(crate) fn is_suspended(&self, thread: ObjectId) -> bool
        ensures { result ≡ is_above_zero (spec.count_in self.now.list thread.0) }
    {
        match self.count(thread) {
            Some(count) => count != 0,
            None => false,
        }
    }

    /// Whether a thread's death was reported.
    pub(crate) fn is_marked(&self, thread: ObjectId) -> bool
        ensures { result ≡ is_marked_by (thread_in self.now.list thread.0) }
    {
        match find(&self.entries, thread) {
            Some(place) => self.entries[place].death_reported,
            None => false,
        }
    }

    /// How many of them the last move of all counts visited, 0 before the first.
    pub(crate) fn visits(&self) -> u32
        ensures { result ≡ self.now.visits }
    {
        self.counts.visits()
    }

    /// Whether a live thread stands at this limit, above which no suspend count is.
    pub(crate) fn stands_at(&self, limit: u32) -> bool
        requires within { AllAtMost limit self.now.list }
        requires positive { 1 ≤ limit }
        ensures { result ≡ stands_at limit self.now.list }
    {
        self.counts.is_at_limit(limit)
    }

    /// Whether each live thread is suspended. It looks at none of them.
    pub(crate) fn are_all_suspended(&self) -> bool
        ensures { result ≡ not (stands_at 0 self.now.list) }
    {
        self.counts.are_all_suspended()
    }

    /// The live thread of least id; 0 where none lives.
    pub(crate) fn least(&self) -> ObjectId
        ensures { result.0 ≡ first_of (rising (spec.ids self.now.list)) }
    {
        match self.entries.as_slice() {
            [] => ObjectId(0),
            [first, others @ ..] => ObjectId(least_from(first.id.0, others)),
        }
    }

    /// Their ids, by rising id.
    ///
    /// # Errors
    /// `NoMemory` where an allocation was refused.
    pub(crate) fn rising(&self, alloc: Global) -> Result<Vec<u64>, NoMemory>
        ensures { IfOk result (λ ids. ids.items ≡ rising (spec.ids self.now.list)) }
    {
        rising_ids(alloc, &self.entries)
    }

    /// Each thread's suspend count rises by one. It visits those that ran.
    pub(crate) fn raise_all(&mut self)
        requires { AllAtMost greatest_int self.old.list }
        ensures list { self.new.list ≡ changed raised self.old.list }
        ensures visits { self.new.visits ≡ turned self.old.list self.new.list }
    {
        self.counts.raise_all();
    }

    /// Each thread's suspend count falls by one, if it is positive. It visits those that run then.
    pub(crate) fn lower_all(&mut self)
        ensures list { self.new.list ≡ changed lowered self.old.list }
        ensures visits { self.new.visits ≡ turned self.old.list self.new.list }
    {
        self.counts.lower_all();
    }

    /// Each thread's suspend count is 0; the visits stay.
    pub(crate) fn clear_counts(&mut self)
        ensures list { self.new.list ≡ changed cleared self.old.list }
        ensures visits { self.new.visits ≡ self.old.visits }
    {
        self.counts.clear();
    }

    /// One thread's suspend count rises by one; the visits stay.
    pub(crate) fn raise(&mut self, thread: ObjectId)
        requires { AllAtMost greatest_int self.old.list }
        ensures list { self.new.list ≡ changed (only thread.0 raised) self.old.list }
        ensures visits { self.new.visits ≡ self.old.visits }
    {
        raise_one(&self.entries, &mut self.counts, thread);
    }

    /// One thread's suspend count falls by one, if it is positive; the visits stay.
    pub(crate) fn lower(&mut self, thread: ObjectId)
        ensures list { self.new.list ≡ changed (only thread.0 lowered) self.old.list }
        ensures visits { self.new.visits ≡ self.old.visits }
    {
        lower_one(&self.entries, &mut self.counts, thread);
    }

    /// Marks a thread's death as reported.
    pub(crate) fn mark(&mut self, thread: ObjectId)
        ensures list { self.new.list ≡ map (marked thread.0) self.old.list }
        ensures visits { self.new.visits ≡ self.old.visits }
    {
        mark_one(self.entries.as_mut_slice(), thread);
    }

    /// Makes room for one thread more.
    ///
    /// # Errors
    /// `NoMemory` where an allocation was refused.
    pub(crate) fn make_room(&mut self) -> Result<(), NoMemory>
        ensures same { self.new.list ≡ self.old.list }
        ensures visits { self.new.visits ≡ self.old.visits }
        ensures room { OnOk result (length self.new.list < self.new.capacity) }
    {
        self.entries.reserve(1)?;
        self.counts.make_room()?;
        Ok(())
    }

    /// Adds a thread at the end, for which there is room; it is not suspended.
    pub(crate) fn add(&mut self, thread: ObjectId)
        requires room { length self.old.list < self.old.capacity }
        requires few { length self.old.list + 1 < 2 ^ 32 }
        ensures list { self.new.list ≡ self.old.list
            ++ record { id = thread.0; suspend_count = 0; death_reported = false } ∷ [] }
        ensures visits { self.new.visits ≡ self.old.visits }
    {
        self.entries.push_reserved(ThreadEntry {
            id: thread,
            death_reported: false,
        });
        self.counts.add();
    }

    /// Removes a thread.
    pub(crate) fn remove(&mut self, thread: ObjectId)
        ensures list { self.new.list ≡ filter (is_other thread.0) self.old.list }
        ensures visits { self.new.visits ≡ self.old.visits }
    {
        remove_one(&mut self.entries, &mut self.counts, thread);
    }

    /// Removes all of them.
    pub(crate) fn clear(&mut self)
        ensures list { self.new.list ≡ [] }
        ensures visits { self.new.visits ≡ self.old.visits }
    {
        self.entries.clear();
        self.counts.remove_all();
    }
}
