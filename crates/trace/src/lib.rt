//! Histories that only contracts read. They hold no bytes, and their methods do nothing when the program runs.
//!
//! A core keeps in them what happened in a session, so that its contracts can speak of the whole run: what was fed, handled, sent.
#![tactic(auto)]

ghost use Rattle.std.specs.Prelude.{◌≡◌, List, ℕ, [], ◌∷◌, ◌++◌};
ghost use Rattle.std.specs.Borrow.{ftrue};

use std::marker::{Model, PhantomData, Send};

/// A history of values, one at a time.
#[derive(Drop)]
pub struct Trace<T> {
    marker: PhantomData<T>,
    pub ghost items: { List T },
}

impl<T> Model for Trace<T> {
    ghost also_owns = { λ _. ftrue };
}

/// A trace owns nothing, so it may go to any thread.
unsafe impl<T> Send for Trace<T> {}

impl<T> Trace<T> {
    /// The empty history.
    pub fn new() -> Trace<T>
        ensures { result.items ≡ [] }
    {
        Trace {
            marker: PhantomData,
        }
    }

    /// Adds the item at the end.
    pub fn push(&mut self, _item: &T)
        ensures { self.new.items ≡ self.old.items ++ _item.now ∷ [] }
    {
        // Nothing runs: the item is only seen by contracts.
    }
}

/// A history of bytes, many at a time.
#[derive(Drop)]
pub struct History {
    marker: PhantomData<u8>,
    pub ghost bytes: { List ℕ },
}

impl Model for History {
    ghost also_owns = { λ _. ftrue };
}

/// A history owns nothing, so it may go to any thread.
unsafe impl Send for History {}

impl History {
    /// The empty history.
    pub fn new() -> History
        ensures { result.bytes ≡ [] }
    {
        History {
            marker: PhantomData,
        }
    }

    /// Adds the bytes at the end.
    pub fn extend(&mut self, _bytes: &[u8])
        ensures { self.new.bytes ≡ self.old.bytes ++ _bytes.now }
    {
        // Nothing runs: the bytes are only seen by contracts.
    }
}
