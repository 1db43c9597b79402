//! All event requests of a session (JDWP specification, "Protocol Details": the set EventRequest).
ghost use Rattle.std.specs.Prelude.{◌≡◌, ◌≤◌, ◌==◌, false, length, take, drop, OnOk, IfErr, [], ◌∷◌, ◌++◌};
ghost use Rattle.jdwp_event.specs.Requests.{Request};
ghost use Rattle.jdwp_event.specs.Filters.{all_counted};
ghost use Rattle.jdwp_event.specs.KindsAsked.{any_has_count, asks_for};
ghost use Rattle.jdwp_event.specs.Occurrences.{occurrence_meaning};
ghost use Rattle.jdwp_event.specs.RequestLists.{placed, without, without_breakpoints, has_id, AllBelow, StartsAbove};

use crate::happening::{Happening, Occurrence};
use crate::kind::EventKind;
use crate::kinds_asked::KindsAsked;
use crate::request::Request;
use jdwp_wire::NoMemory;
use std::alloc::Global;
use std::marker::Model;

/// Event requests, by rising id, and which kinds of events they ask for.
#[derive(Drop)]
pub struct Requests {
    entries: Vec<Request>,
    kinds: KindsAsked,
}

impl Model for Requests {
    ghost use Rattle.std.specs.Prelude.{List};
    ghost use Rattle.jdwp_event.specs.Requests.{Request};
    ghost use Rattle.jdwp_event.specs.RequestLists.{AreRising};
    ghost use Rattle.jdwp_event.specs.KindsAsked.{AreAsked};

    ghost Value = { List Request };

    ghost view = { λ r. r.entries.items };

    ghost invariant = { λ r. AreRising r.entries.items × AreAsked r.kinds r.entries.items };
}

impl Requests {
    /// No requests. Takes no memory.
    pub fn new(alloc: Global) -> Requests
        ensures { result ≡ [] }
    {
        Requests {
            entries: Vec::new(alloc),
            kinds: KindsAsked::none(),
        }
    }

    /// How many there are, those among them whose Count is spent.
    pub fn len(&self) -> usize
        ensures { result ≡ length self.now }
    {
        self.entries.len()
    }

    /// Whether there are none.
    pub fn is_empty(&self) -> bool
        ensures { result ≡ (length self.now == 0) }
    {
        self.entries.is_empty()
    }

    /// All of them, by rising id.
    pub fn as_slice(&self) -> &[Request]
        ensures { result.now ≡ self.now }
    {
        self.entries.as_slice()
    }

    /// Whether a request is of a kind of what happened: one test, however many requests there are.
    pub(crate) fn ask_for(&self, occurrence: &Occurrence) -> bool
        ensures { result ≡ asks_for (occurrence_meaning occurrence.now) self.now }
    {
        self.kinds.has(occurrence)
    }

    /// Whether a request has a Count: one test too.
    pub(crate) fn have_count(&self) -> bool
        ensures { result ≡ any_has_count self.now }
    {
        self.kinds.has_count()
    }

    /// Adds a request under its id, in place of an older one of that id.
    ///
    /// # Errors
    /// `NoMemory` where an allocation was refused, and only where there is no older one; then nothing has changed.
    pub fn insert(&mut self, request: Request) -> Result<(), NoMemory>
        ensures ok { OnOk result (self.new ≡ placed request self.old) }
        ensures err { IfErr result (λ _. self.new ≡ self.old) }
        ensures memory { IfErr result (λ _. has_id request.asked.id self.old ≡ false) }
    {
        let place = place_for(&self.entries, request.id());
        if place < self.entries.len() && self.entries[place].id() == request.id() {
            self.entries[place] = request;
            self.kinds = KindsAsked::asked_by(&self.entries);
            return Ok(());
        }
        self.entries.insert(place, request)?;
        self.kinds = KindsAsked::asked_by(&self.entries);
        Ok(())
    }

    /// Removes the request of this kind and id, if there is one.
    pub fn remove(&mut self, kind: u8, id: i32)
        ensures { self.new ≡ without kind id self.old }
    {
        self.entries.retain(|request| {
            !(request.kind() == kind && i64::from(request.id()) == i64::from(id))
        });
        self.kinds = KindsAsked::asked_by(&self.entries);
    }

    /// Removes all requests of the kind BREAKPOINT.
    pub fn remove_breakpoints(&mut self)
        ensures { self.new ≡ without_breakpoints self.old }
    {
        self.entries
            .retain(|request| request.kind() != EventKind::Breakpoint.byte());
        self.kinds = KindsAsked::asked_by(&self.entries);
    }

    /// Removes all of them.
    pub fn clear(&mut self)
        ensures { self.new ≡ [] }
    {
        self.entries.clear();
        self.kinds = KindsAsked::none();
    }
}

/// How many of the requests have lesser ids.
fn place_for(entries: &[Request], id: u32) -> usize
    ensures within { result ≤ length entries.now }
    ensures below { AllBelow id (take result entries.now) }
    ensures above { StartsAbove id (drop result entries.now) }
{
    for (place, entry) in entries.iter().enumerate() {
        if entry.id() >= id {
            return place;
        }
    }
    entries.len()
}

/// Counts the happening in each request whose kind it has: each Count that it reaches, whether or not a later modifier passes.
/// A request that reports it takes the place as the origin of its steps. Takes no memory.
pub fn count_down(requests: &mut Requests, happening: &Happening)
    ensures { requests.new ≡ all_counted happening.now requests.old }
{
    if requests.ask_for(happening.occurrence()) {
        count_each(&mut requests.entries, happening);
    }
}

fn count_each(entries: &mut [Request], happening: &Happening)
    ensures { entries.new ≡ all_counted happening.now entries.old }
{
    for entry in entries.iter_mut() {
        entry.count(happening);
    }
}
