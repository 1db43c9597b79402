//! The threads that a debugger knows.
ghost use Rattle.std.specs.Prelude.{◌≡◌, ◌==◌, ◌&&◌, ◌++◌, ◌∷◌, ◌<◌, IfOk, IfSome, IsSome, None, OnErr, OnOk, [], map, not, true};
ghost use Rattle.std.specs.Bool.{OnFalse, OnTrue};
ghost use Rattle.std.specs.BTreeMap.{IsOrdered, get, keys};
ghost use Rattle.std.specs.BTreeSet.{contains};
ghost use Rattle.std.specs.List.{All};
ghost use Rattle.std.specs.Option.{option_map};
ghost use Rattle.std.specs.Map.Iter.{GivesInOrder};
ghost use Rattle.std.specs.Ordering.{nat_cmp};
ghost use Rattle.jdwp_mirror.specs.declared.threads.Known.{Known};
ghost use Rattle.jdwp_mirror.specs.CommandKinds.{lesson_of, lesson_of_event, own_change, others_change, ready_for, with_counted};
ghost use Rattle.jdwp_mirror.specs.KnownThreads.{AreSound, all_taught, change_of, count_in, is_held_in, is_of_id, only, taught_by, with_thread, without};
ghost use Rattle.jdwp_mirror.specs.Mirror.{counted, lists};
ghost use Rattle.jdwp_mirror.specs.Numbering as spec;
ghost use Rattle.jdwp_mirror.specs.Numbering.{anew, known_in, own_number_in, seen};

use crate::command::CommandKind;
use crate::drift::COUNT_MOST;
use crate::known::KnownThreads;
use crate::met::Met;
use crate::moves::Moves;
use crate::numbers::next_number;
use crate::reply::{count_in_reply, listed_in};
use jdwp_event::Policy;
use jdwp_layout::Data;
use jdwp_value::ObjectId;
use jdwp_wire::NoMemory;
use std::alloc::Global;
use std::collections::{BTreeMap, BTreeSet};
use std::marker::Model;

/// A thread that a debugger knows.
#[derive(Clone, Copy, Debug, PartialEq, Eq)]
pub struct Known {
    pub id: ObjectId,
    /// The suspend count, 0 to 2,147,483,647.
    pub count: u32,
    /// Whether it was shown alive since its count last rose above 0.
    pub held: bool,
}

/// What becomes of a suspend count.
#[derive(Clone, Copy)]
pub(crate) enum Change {
    Keep,
    /// One more.
    Raise,
    /// One less, where it is above 0.
    Lower,
    Set(u32),
}

impl Change {
    /// What a reply makes of the count of the thread that the command is about.
    fn of_own(kind: CommandKind, reply: &Data) -> Change
        ensures { result ≡ own_change kind reply.now }
    {
        match kind {
            CommandKind::SuspendThread => Change::Raise,
            CommandKind::ResumeThread => Change::Lower,
            CommandKind::SuspendCount => match count_in_reply(reply) {
                Some(count) => Change::Set(count),
                None => Change::Keep,
            },
            _ => Change::Keep,
        }
    }

    /// What a reply makes of the counts of all others.
    fn of_others(kind: CommandKind) -> Change
        ensures { result ≡ others_change kind }
    {
        match kind {
            CommandKind::Suspend => Change::Raise,
            CommandKind::Resume => Change::Lower,
            _ => Change::Keep,
        }
    }

    fn apply(self, count: u32) -> u32
        ensures { result ≡ change_of self count }
    {
        match self {
            Change::Keep => count,
            Change::Raise => count.saturating_add(1).min(COUNT_MOST),
            Change::Lower => count.saturating_sub(1),
            Change::Set(set) => set,
        }
    }
}

/// What a packet teaches of the threads that are known.
#[derive(Clone, Copy)]
pub(crate) struct Lesson {
    /// The thread that the packet is about, and shows alive.
    pub thread: Option<ObjectId>,
    /// What becomes of its count.
    pub own: Change,
    /// What becomes of the counts of the others.
    pub others: Change,
    /// Whether the packet shows all of them alive.
    pub shows_all: bool,
}

impl Lesson {
    /// What a reply without an error teaches.
    pub fn of_reply(kind: CommandKind, thread: Option<ObjectId>, reply: &Data) -> Lesson
        ensures { result ≡ lesson_of kind thread reply.now }
    {
        Lesson {
            thread,
            own: Change::of_own(kind, reply),
            others: Change::of_others(kind),
            shows_all: matches!(kind, CommandKind::AllThreads),
        }
    }

    /// What a composite with this policy teaches that is of this thread.
    pub fn of_event(thread: Option<ObjectId>, policy: u8) -> Lesson
        ensures { result ≡ lesson_of_event thread policy }
    {
        let suspends_all = policy == Policy::All.byte();
        let count = if suspends_all || policy == Policy::EventThread.byte() {
            1
        } else {
            0
        };
        Lesson {
            thread,
            own: Change::Set(count),
            others: if suspends_all {
                Change::Raise
            } else {
                Change::Keep
            },
            shows_all: false,
        }
    }

    fn is_about(self, id: ObjectId) -> bool
        ensures { result ≡ is_of_id self.thread id.0 }
    {
        match self.thread {
            Some(thread) => thread.0 == id.0,
            None => false,
        }
    }

    fn teach(self, known: Known) -> Known
        ensures { result ≡ taught_by self known }
    {
        let is_own = self.is_about(known.id);
        let change = if is_own { self.own } else { self.others };
        let count = change.apply(known.count);
        Known {
            id: known.id,
            count,
            held: count != 0 && (self.shows_all || is_own || known.held),
        }
    }
}

/// Known threads in the order in which they became known, each once, and found by their ids. To raise or lower all counts takes no walk
/// over them: these moves are noted, and each thread is kept as it was when it was last written. Where more moves than threads are noted, the
/// next takes a walk, which writes all threads and forgets the moves; so it costs no more than the moves before it did.
#[derive(Drop)]
pub(crate) struct Threads {
    /// Under the number with which each became known: these rise, so that the map has them in that order.
    entries: BTreeMap<u64, Met>,
    /// The number of each by its id.
    numbers: BTreeMap<u64, u64>,
    /// How all counts moved, since the first of the threads was written.
    moves: Moves,
}

impl Model for Threads {
    ghost use Rattle.std.specs.Prelude.{List};
    ghost use Rattle.std.specs.Map.{values_of};
    ghost use Rattle.jdwp_mirror.specs.declared.threads.Known.{Known};
    ghost use Rattle.jdwp_mirror.specs.Numbering.{AreKept, entries_seen};

    ghost Value = { List Known };

    ghost view = { λ t. values_of (entries_seen t.moves t.entries.entries) };

    ghost invariant = { λ t. AreKept t.moves t.entries.entries t.numbers };
}

impl Threads {
    /// No threads.
    pub fn new(alloc: Global) -> Threads
        ensures { result ≡ [] }
    {
        Threads {
            entries: BTreeMap::new(alloc),
            numbers: BTreeMap::new(alloc),
            moves: Moves::new(alloc),
        }
    }

    /// All of them, in the order in which they became known.
    pub fn iter(&self) -> KnownThreads<'_>
        ensures all { result ≡ self.now }
        ensures runs { GivesInOrder Known }
        ensures sound { AreSound self.now }
    {
        KnownThreads::of(&self.entries, &self.moves)
    }

    /// The count of a thread, or None where it is not known.
    pub fn count(&self, id: ObjectId) -> Option<u32>
        ensures { result ≡ count_in self.now id.0 }
    {
        match self.find(id) {
            Some(known) => Some(known.count),
            None => None,
        }
    }

    /// Whether a thread is held.
    pub fn is_held(&self, id: ObjectId) -> bool
        ensures { result ≡ is_held_in self.now id.0 }
    {
        match self.find(id) {
            Some(known) => known.held,
            None => false,
        }
    }

    /// A thread among them, or None where it is not known.
    fn find(&self, id: ObjectId) -> Option<Known>
        ensures { result ≡ known_in self.now id.0 }
    {
        match self.numbers.get(&id.0) {
            Some(number) => seen_at(&self.entries, *number, &self.moves),
            None => None,
        }
    }

    /// Makes a thread known, with a count of 0, where it is not.
    ///
    /// # Errors
    /// `NoMemory` where an allocation was refused, and only where it was not known; nothing has changed.
    pub fn meet(&mut self, id: ObjectId) -> Result<(), NoMemory>
        ensures ok { OnOk result (self.new ≡ with_thread id self.old) }
        ensures err { OnErr result (self.new ≡ self.old) }
        ensures memory { OnErr result (count_in self.old id.0 ≡ None) }
    {
        if self.numbers.contains_key(&id.0) {
            return Ok(());
        }
        self.add(Known {
            id,
            count: 0,
            held: false,
        })
    }

    /// Adds a thread that is not known, as the last.
    ///
    /// # Errors
    /// `NoMemory` where an allocation was refused; nothing has changed.
    fn add(&mut self, known: Known) -> Result<(), NoMemory>
        requires unknown { count_in self.old known.id.0 ≡ None }
        requires counted { known.held ≡ (not (known.count == 0) && known.held) }
        ensures ok { OnOk result (self.new ≡ self.old ++ known ∷ []) }
        ensures err { OnErr result (self.new ≡ self.old) }
    {
        let number = next_number(&self.entries)?;
        let met = Met::of(known, self.moves.len());
        self.numbers.insert(known.id.0, number)?;
        match self.entries.insert(number, met) {
            Ok(_) => Ok(()),
            Err(_) => {
                // Its number is taken back, so that nothing has changed.
                let _ = self.numbers.remove(&known.id.0);
                Err(NoMemory)
            }
        }
    }

    /// Changes counts, and holds what is shown alive. It goes over all threads only where it shows all alive, or where there is no room to
    /// note one more move.
    pub fn learn(&mut self, lesson: Lesson)
        ensures { self.new ≡ all_taught lesson self.old }
    {
        if !self.teach_alike(lesson) {
            self.teach_all(lesson);
        }
    }

    /// Changes all threads where no more than the one that a lesson is about has to be written. Whether it did so.
    fn teach_alike(&mut self, lesson: Lesson) -> bool
        ensures done { OnTrue result (self.new ≡ all_taught lesson self.old) }
        ensures other { OnFalse result (self.new ≡ self.old) }
    {
        if lesson.shows_all || self.moves.len() > self.entries.len() {
            return false;
        }
        let number = own_number(&self.numbers, lesson.thread);
        let own = taught_at(&self.entries, number, &self.moves, lesson);
        if !self.moves.note(lesson.others) {
            return false;
        }
        if let Some((number, taught)) = own {
            if let Some(met) = self.entries.get_mut(&number) {
                *met = Met::of(taught, self.moves.len());
            }
        }
        true
    }

    /// Changes all threads, one after the other.
    fn teach_all(&mut self, lesson: Lesson)
        ensures { self.new ≡ all_taught lesson self.old }
    {
        teach_entries(&mut self.entries, lesson, &self.moves);
        self.moves.clear();
    }

    /// What holds of all threads that are known. It does nothing.
    pub fn are_sound(&self)
        ensures { AreSound self.now }
    {
        let _entries = &self.entries;
    }

    /// Makes a thread known whose count was read, and forgets those that a reply says are not alive.
    ///
    /// # Errors
    /// `NoMemory` where an allocation was refused; nothing has changed.
    pub fn make_ready(
        &mut self,
        alloc: Global,
        kind: CommandKind,
        thread: Option<ObjectId>,
        reply: &Data,
    ) -> Result<(), NoMemory>
        ensures ok { OnOk result (self.new ≡ ready_for kind thread reply.now self.old) }
        ensures err { OnErr result (self.new ≡ self.old) }
    {
        match kind {
            CommandKind::SuspendCount => self.meet_counted(thread, reply),
            CommandKind::AllThreads => self.keep_listed(alloc, reply),
            CommandKind::Exit | CommandKind::Dispose => {
                self.clear();
                Ok(())
            }
            _ => Ok(()),
        }
    }

    fn meet_counted(&mut self, thread: Option<ObjectId>, reply: &Data) -> Result<(), NoMemory>
        ensures ok { OnOk result (self.new ≡ with_counted thread (counted reply.now) self.old) }
        ensures err { OnErr result (self.new ≡ self.old) }
    {
        match (thread, count_in_reply(reply)) {
            (Some(id), Some(_)) => self.meet(id),
            _ => Ok(()),
        }
    }

    fn keep_listed(&mut self, alloc: Global, reply: &Data) -> Result<(), NoMemory>
        ensures ok { OnOk result (self.new ≡ only (lists reply.now) self.old) }
        ensures err { OnErr result (self.new ≡ self.old) }
    {
        let listed = listed_in(alloc, reply)?;
        self.keep_only(&listed);
        Ok(())
    }

    /// Forgets all but those whose ids these are.
    fn keep_only(&mut self, ids: &BTreeSet<u64>)
        ensures { self.new ≡ only (contains nat_cmp ids.now) self.old }
    {
        self.entries.retain(|_, met| ids.contains(&met.id().0));
        self.numbers.retain(|id, _| ids.contains(id));
    }

    /// Forgets a thread.
    pub fn forget(&mut self, id: ObjectId)
        ensures { self.new ≡ without id.0 self.old }
    {
        if let Some(number) = self.numbers.remove(&id.0) {
            let _ = self.entries.remove(&number);
        }
    }

    /// Forgets all of them.
    pub fn clear(&mut self)
        ensures { self.new ≡ [] }
    {
        self.entries.clear();
        self.numbers.clear();
        self.moves.clear();
    }
}

/// The number of the thread that a packet is about, where it is known.
fn own_number(numbers: &BTreeMap<u64, u64>, thread: Option<ObjectId>) -> Option<u64>
    ensures { result ≡ own_number_in numbers.now thread }
{
    match thread {
        Some(id) => numbers.get(&id.0).copied(),
        None => None,
    }
}

/// The thread under a number, as it is where these moves of all counts were made.
fn seen_at(entries: &BTreeMap<u64, Met>, number: u64, moves: &Moves) -> Option<Known>
    ensures { result ≡ option_map (seen moves.now) (get nat_cmp entries.now number) }
{
    match entries.get(&number) {
        Some(met) => Some(met.seen(moves)),
        None => None,
    }
}

/// The thread under a number as a lesson leaves it, with the number.
fn taught_at(
    entries: &BTreeMap<u64, Met>,
    number: Option<u64>,
    moves: &Moves,
    lesson: Lesson,
) -> Option<(u64, Known)>
    ensures { result ≡ spec.taught_at moves.now entries.now lesson number }
{
    let number = number?;
    match entries.get(&number) {
        Some(met) => Some((number, lesson.teach(met.seen(moves)))),
        None => None,
    }
}

/// Writes all threads anew, each as a lesson leaves it.
fn teach_entries(entries: &mut BTreeMap<u64, Met>, lesson: Lesson, moves: &Moves)
    ensures entries { entries.new.entries ≡ map (λ e.
        (e.0, anew (taught_by lesson (seen moves.now e.1)))) entries.old.entries }
    ensures ordered { IsOrdered nat_cmp entries.new }
{
    // All are retained: this says of each what it becomes.
    entries.retain(|_, met| {
        *met = taught_anew(*met, lesson, moves);
        true
    });
}

fn taught_anew(met: Met, lesson: Lesson, moves: &Moves) -> Met
    ensures { result ≡ anew (taught_by lesson (seen moves.now met)) }
{
    Met::of(lesson.teach(met.seen(moves)), 0)
}
