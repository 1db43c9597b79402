//! Commands by the ids under which they wait.
ghost use Rattle.std.specs.Prelude.{◌≡◌, ◌+◌, ◌≤◌, ◌<◌, ◌^◌, ℕ, length, slice_index_or, slice_set, Option, None, is_some, IfOk, OnOk, ◌==◌, if◌then◌else◌};
ghost use Rattle.std.specs.BTreeMap.{get, btree_map_len};
ghost use Rattle.std.specs.Ordering.{nat_cmp};
ghost use Rattle.jdwp_judge.specs.Asking.{some_in};

use jdwp_show::CommandNumber;
use jdwp_wire::NoMemory;
use std::alloc::Global;
use std::collections::{BTreeMap, VecDeque};
use std::mem;

/// How long a row may be of which less than half wait.
const LONG_ROW: usize = 4096;

/// Which commands wait under which ids. Mostly ids are asked in order, and answered so, too: those that follow one another
/// stand in a row, unless it is long and few of them wait. The others are ordered, so that no choice of ids makes looking
/// them up slow.
#[derive(Drop)]
pub(crate) struct Waiting {
    /// The id that the row begins with.
    first: usize,
    /// What waits under this id and those behind it.
    row: VecDeque<Option<CommandNumber>>,
    /// How many wait in the row.
    in_row: usize,
    /// Those that do not stand in the row.
    others: BTreeMap<u32, CommandNumber>,
    ghost are_ids: { first + length row.items ≤ 2 ^ 32 },
    ghost counted: { in_row ≡ some_in row.items },
    ghost apart: { (id : ℕ) → first ≤ id → id < first + length row.items → get nat_cmp others
        id ≡ None },
}

impl Waiting {
    ghost use Rattle.jdwp_judge.specs.Standing.{waits_under, place_in, count_under};

    pub(crate) fn new(alloc: Global) -> Waiting
        ensures waits { (id : ℕ) → waits_under result id ≡ None }
        ensures count { count_under result ≡ 0 }
    {
        Waiting {
            first: 0,
            row: VecDeque::new(alloc),
            in_row: 0,
            others: BTreeMap::new(alloc),
        }
    }

    /// How many wait.
    pub(crate) fn count(&self) -> usize
        ensures { result ≡ count_under self.now }
    {
        self.in_row + self.others.len()
    }

    /// The command that waits under the id.
    #[inline(always)]
    pub(crate) fn get(&self, id: u32) -> Option<CommandNumber>
        ensures { result ≡ waits_under self.now id }
    {
        match self.place(id) {
            Some(place) => self.row[place],
            None => self.others.get(&id).copied(),
        }
    }

    /// Where the id stands in the row.
    #[inline(always)]
    fn place(&self, id: u32) -> Option<usize>
        ensures { result ≡ place_in self.now id }
    {
        let id = id as usize;
        if self.first <= id && id < self.first + self.row.len() {
            Some(id - self.first)
        } else {
            None
        }
    }

    /// The command waits under the id, and no other does. Answers the one that waited there before.
    #[inline(always)]
    pub(crate) fn insert(
        &mut self,
        id: u32,
        command: CommandNumber,
    ) -> Result<Option<CommandNumber>, NoMemory>
        ensures before { IfOk result (λ before. before ≡ waits_under self.old id) }
        ensures waits { OnOk result ((other : ℕ) → waits_under self.new other
            ≡ (if id == other then Some command else waits_under self.old other)) }
        ensures counted { IfOk result (λ before. count_under self.new ≡ count_under self.old
            + (if is_some before then 0 else 1)) }
    {
        match self.place(id) {
            Some(place) => Ok(self.put(place, Some(command))),
            None => self.insert_new(id, command),
        }
    }

    /// The same for an id that is not in the row.
    #[inline(always)]
    fn insert_new(
        &mut self,
        id: u32,
        command: CommandNumber,
    ) -> Result<Option<CommandNumber>, NoMemory>
        requires { place_in self.old id ≡ None }
        ensures before { IfOk result (λ before. before ≡ waits_under self.old id) }
        ensures waits { OnOk result ((other : ℕ) → waits_under self.new other
            ≡ (if id == other then Some command else waits_under self.old other)) }
        ensures counted { IfOk result (λ before. count_under self.new ≡ count_under self.old
            + (if is_some before then 0 else 1)) }
    {
        let next = id as usize;
        if self.row.is_empty() {
            self.first = next;
        }
        let count = self.row.len();
        if next == self.first + count && has_room(count, self.in_row) {
            let before = forget(&mut self.others, id);
            self.row.push_back(Some(command))?;
            self.in_row += 1;
            Ok(before)
        } else {
            Ok(self.others.insert(id, command)?)
        }
    }

    /// This stands at a place of the row. Answers what stood there before.
    #[inline(always)]
    fn put(&mut self, place: usize, waits: Option<CommandNumber>) -> Option<CommandNumber>
        requires { place < length self.old.row.items }
        ensures before { result ≡ slice_index_or self.old.row.items place None }
        ensures row { self.new.row.items ≡ slice_set self.old.row.items place waits }
        ensures first { self.new.first ≡ self.old.first }
        ensures others { self.new.others ≡ self.old.others }
        ensures counted { self.new.in_row + (if is_some result then 1 else 0) ≡ self.old.in_row
            + (if is_some waits then 1 else 0) }
    {
        let before = mem::replace(&mut self.row[place], waits);
        let more = usize::from(waits.is_some());
        let fewer = usize::from(before.is_some());
        self.in_row = self.in_row + more - fewer;
        before
    }

    /// No command waits under the id. Answers the one that waited there before.
    #[inline(always)]
    pub(crate) fn remove(&mut self, id: u32) -> Option<CommandNumber>
        ensures before { result ≡ waits_under self.old id }
        ensures waits { (other : ℕ) → waits_under self.new other
            ≡ (if id == other then None else waits_under self.old other) }
        ensures counted { count_under self.new + (if is_some result then 1 else 0) ≡ count_under
            self.old }
    {
        match self.place(id) {
            Some(place) => {
                let before = self.put(place, None);
                self.shorten();
                before
            }
            None => forget(&mut self.others, id),
        }
    }

    /// Takes from the front of the row the ids under which none waits.
    fn shorten(&mut self)
        ensures waits { (id : ℕ) → waits_under self.new id ≡ waits_under self.old id }
        ensures counted { count_under self.new ≡ count_under self.old }
    {
        while let Some(None) = self.row.front() {
            self.row.pop_front();
            self.first += 1;
        }
    }
}

/// Whether a row of so many ids, of which so many wait, may have one more.
fn has_room(count: usize, waiting: usize) -> bool {
    count < LONG_ROW || count / 2 <= waiting
}

/// No command is there under the id. Answers the one that was.
#[inline(always)]
fn forget(commands: &mut BTreeMap<u32, CommandNumber>, id: u32) -> Option<CommandNumber>
    ensures before { result ≡ get nat_cmp commands.old id }
    ensures others { (other : ℕ) → get nat_cmp commands.new other
        ≡ (if id == other then None else get nat_cmp commands.old other) }
    ensures counted { btree_map_len commands.new + (if is_some result then 1 else 0)
        ≡ btree_map_len commands.old }
{
    if commands.is_empty() {
        return None;
    }
    commands.remove(&id)
}
