//! Looking lines up in a line table (JDWP specification, "Method": LineTable).
ghost use Rattle.std.specs.Prelude.{◌≡◌, ◌<ℤ◌, ◌≤ℤ◌, ◌∷◌, ◌↔◌, ℕ, List, Option, IsTrue, MatchOption, pos};
ghost use Rattle.jdwp_answer.specs.declared.method.LineEntry.{LineEntry};
ghost use Rattle.jdwp_answer.specs.Lines.{BeginsAt, IsCodeIndex, IsEntryAt, IsLeast, IsLeft, IsLineAt, Nearest};

use crate::method::{LineEntry, LineTable};

impl LineTable {
    /// The least code index at which the line begins; None where no entry has the line, at a code index that is not below 0.
    pub fn code_index_of(&self, line: i32) -> Option<u64>
        ensures { BeginsAt line self.now.lines.items result }
    {
        let mut least = None;
        for entry in &self.lines {
            least = sooner(least, *entry, line);
        }
        least
    }

    /// Whether this is a code index of the method, from `start` to `end`.
    pub fn has_code_index(&self, index: u64) -> bool
        ensures { IsTrue result ↔ IsCodeIndex self.now index }
    {
        is_at_or_below(self.start, index) && is_at_or_above(self.end, index)
    }

    /// The line in which this code index is: that of the last entry which begins at or below it, and of the one that begins highest in a
    /// table that is not ordered. None where it is no code index of the method, or where each entry begins above it.
    pub fn line_at(&self, index: u64) -> Option<i32>
        ensures { IsLineAt self.now index result }
    {
        if !self.has_code_index(index) {
            return None;
        }
        match entry_at(&self.lines, index) {
            Some(entry) => Some(entry.line),
            None => None,
        }
    }
}

/// Of the entries that begin at or below this code index, the last of those that begin highest; None where each begins above it.
fn entry_at(entries: &[LineEntry], index: u64) -> Option<LineEntry>
    ensures { IsEntryAt index entries.now result }
{
    let mut best = None;
    for entry in entries {
        best = nearer(best, *entry, index);
    }
    best
}

/// The least code index at which the line begins, where this entry comes to those looked at.
fn sooner(least: Option<u64>, entry: LineEntry, line: i32) -> Option<u64>
    ensures { (xs : List LineEntry) (r : Option ℕ) → IsLeast (IsLeft line result xs) r
        → IsLeast (IsLeft line least (entry ∷ xs)) r }
{
    if !is_of(entry, line) {
        return least;
    }
    let Some(start) = start_of(entry) else {
        return least;
    };
    match least {
        Some(index) if index <= start => Some(index),
        _ => Some(start),
    }
}

/// The entry in which a code index is, where this one comes to those looked at.
fn nearer(best: Option<LineEntry>, entry: LineEntry, index: u64) -> Option<LineEntry>
    ensures { (xs : List LineEntry) (r : Option LineEntry) → Nearest index result xs r
        → Nearest index best (entry ∷ xs) r }
{
    if !begins_by(entry, index) {
        return best;
    }
    match best {
        Some(other) if begins_below(entry, other) => Some(other),
        _ => Some(entry),
    }
}

/// The code index at which an entry begins; None where it says a number below 0.
fn start_of(entry: LineEntry) -> Option<u64>
    ensures { MatchOption result (entry.code_index <ℤ pos 0) (λ start. entry.code_index ≡ pos start) }
{
    if entry.code_index < 0 {
        return None;
    }
    Some(entry.code_index as u64)
}

/// Whether an entry is of this line.
fn is_of(entry: LineEntry, line: i32) -> bool
    ensures { IsTrue result ↔ (entry.line ≡ line) }
{
    entry.line == line
}

/// Whether an entry begins at or below this code index.
fn begins_by(entry: LineEntry, index: u64) -> bool
    ensures { IsTrue result ↔ (entry.code_index ≤ℤ pos index) }
{
    is_at_or_below(entry.code_index, index)
}

/// Whether an entry begins below another.
#[tactic(auto, using(std::proofs::lemmas::Int::ints))]
fn begins_below(entry: LineEntry, other: LineEntry) -> bool
    ensures { IsTrue result ↔ (entry.code_index <ℤ other.code_index) }
{
    entry.code_index < other.code_index
}

/// Whether a code index of the table is at or below this one.
#[tactic(auto, using(std::proofs::lemmas::Int::ints))]
fn is_at_or_below(start: i64, index: u64) -> bool
    ensures { IsTrue result ↔ (start ≤ℤ pos index) }
{
    start < 0 || start as u64 <= index
}

/// Whether a code index of the table is at or above this one.
#[tactic(auto, using(std::proofs::lemmas::Int::ints))]
fn is_at_or_above(end: i64, index: u64) -> bool
    ensures { IsTrue result ↔ (pos index ≤ℤ end) }
{
    end >= 0 && index <= end as u64
}
