//! A process without memory, for tests: all the memory there is, taken, and given back a crumb at a time.
//!
//! While a call is repeated and one crumb more is given back each time, it is refused at one request for memory after the other, until it
//! meets no refusal. What a request finds is what others left, so one that needs less than what was freed before it is never the first to be
//! refused. Under address sanitizer (`rt try`) memory can't be taken so.

ghost use Rattle.std.specs.Prelude.{◌≡◌, ◌≤◌, ◌<◌, ◌-◌, ◌↔◌, IfOk, IsTrue, length};

use std::alloc::{AllocError, Global};
use std::marker::Model;

/// The size of the first block that is asked for, which no system gives.
const GREATEST: usize = 1 << 46;

/// The most blocks that are taken.
const MOST_BLOCKS: usize = 200_000;

/// The size of what is set aside at once.
const PAGE: usize = 4096;

/// The size of a crumb, the least that allocators keep.
const CRUMB: usize = 16;

/// An allocator may keep what was freed for requests of its very size, up to this one.
const GREATEST_KEPT: usize = 2048;

/// The most of these that are taken.
const MOST_KEPT: usize = 16_384;

/// All the memory that there is, but for pages that the process goes on with. Contracts see how many crumbs of those are taken, too. Dropped, it
/// gives everything back.
#[derive(Drop)]
pub struct Scarce {
    alloc: Global,
    blocks: Vec<Vec<u8>>,
    crumbs: Vec<Vec<u8>>,
    /// What the allocator kept for requests of its very size.
    kept: Vec<Vec<u8>>,
}

impl Model for Scarce {
    ghost use Rattle.std.specs.Prelude.{ℕ, length};

    ghost Value = { ℕ };

    ghost view = { λ s. length s.crumbs.items };
}

impl Scarce {
    /// Takes all memory, but for so many pages of 4,096 bytes. No crumb is taken yet.
    ///
    /// # Errors
    /// Where there is no room for the pages, or for the lists of what is taken.
    pub fn take(alloc: Global, pages: usize) -> Result<Scarce, AllocError>
        ensures { IfOk result (λ s. s ≡ 0) }
    {
        let aside = set_aside(alloc, pages)?;
        let crumbs = Vec::with_capacity(alloc, most_crumbs(pages))?;
        let kept = Vec::with_capacity(alloc, MOST_KEPT)?;
        let mut blocks = Vec::with_capacity(alloc, MOST_BLOCKS)?;
        take_blocks(alloc, &mut blocks);
        drop(aside);
        Ok(Scarce {
            alloc,
            blocks,
            crumbs,
            kept,
        })
    }

    /// Takes what is left, too, in crumbs of 16 bytes, and what the allocator kept for larger requests, which is held until all is given back.
    /// Whether nothing is left then: a request for a crumb was refused.
    pub fn starve(&mut self) -> bool
        ensures { self.old ≤ self.new }
    {
        let is_out = take_crumbs(self.alloc, CRUMB, &mut self.crumbs);
        for size in (2 * CRUMB..=GREATEST_KEPT).step_by(CRUMB) {
            take_crumbs(self.alloc, size, &mut self.kept);
        }
        is_out
    }

    /// Gives a crumb back. False, and nothing changes, where none is taken.
    pub fn give(&mut self) -> bool
        ensures given { IsTrue result ↔ 0 < self.old }
        ensures fewer { self.new ≡ self.old - 1 }
    {
        self.crumbs.pop().is_some()
    }

    /// Gives all crumbs back.
    pub fn relieve(&mut self)
        ensures { self.new ≡ 0 }
    {
        self.crumbs.clear();
        self.kept.clear();
    }

    /// How many crumbs are taken.
    pub fn crumbs(&self) -> usize
        ensures { result ≡ self.now }
    {
        self.crumbs.len()
    }
}

/// So many pages.
fn set_aside(alloc: Global, pages: usize) -> Result<Vec<Vec<u8>>, AllocError> {
    let mut aside = Vec::with_capacity(alloc, pages)?;
    for _ in 0..pages {
        aside.push(Vec::with_capacity(alloc, PAGE)?)?;
    }
    Ok(aside)
}

/// How many crumbs there is room for: more than so many pages have.
fn most_crumbs(pages: usize) -> usize {
    pages.saturating_mul(PAGE / CRUMB).saturating_add(PAGE)
}

/// Takes all memory in blocks of falling size, until a request for a crumb is refused.
fn take_blocks(alloc: Global, blocks: &mut Vec<Vec<u8>>) {
    let mut size = GREATEST;
    for _ in 0..MOST_BLOCKS {
        if size < CRUMB {
            return;
        }
        match Vec::with_capacity(alloc, size) {
            Ok(block) => {
                let Ok(()) = blocks.push(block) else {
                    return;
                };
            }
            Err(_) => size /= 2,
        }
    }
}

/// Takes crumbs of this size, as many as there is room for in the list. Whether a request for one was refused.
fn take_crumbs(alloc: Global, size: usize, crumbs: &mut Vec<Vec<u8>>) -> bool
    ensures { length crumbs.old.items ≤ length crumbs.new.items }
{
    for _ in crumbs.len()..crumbs.capacity() {
        match Vec::with_capacity(alloc, size) {
            Ok(crumb) => {
                let Ok(()) = crumbs.push(crumb) else {
                    return false;
                };
            }
            Err(_) => return true,
        }
    }
    false
}
