//! A queue of bytes with room that is made once, in which nothing moves when bytes are taken off the front.

ghost use Rattle.std.specs.Prelude.{◌≡◌, ◌+◌, ◌-◌, ◌*◌, ◌^◌, ◌<◌, ◌≤◌, ◌++◌, ◌==◌, [], length, drop, IfOk};

use std::alloc::{AllocError, Global};
use std::marker::Model;

/// Bytes in order, at most as many as its capacity.
#[derive(Drop)]
pub struct ByteQueue {
    /// What stands before `start` was taken off.
    bytes: Vec<u8>,
    start: usize,
    capacity: usize,
}

impl Model for ByteQueue {
    ghost use Rattle.jdwp_link.specs.Queue.{Queue, IsRoomy};
    ghost use Rattle.std.specs.Prelude.{drop, length, vec_capacity};

    ghost Value = { Queue };

    ghost view = { λ q. record { bytes = drop q.start q.bytes.items; capacity = q.capacity } };

    ghost invariant = { λ q. IsRoomy q.start (length q.bytes.items) q.capacity
        (vec_capacity q.bytes) };
}

impl ByteQueue {
    /// An empty queue with room for so many bytes.
    ///
    /// # Errors
    /// Where the allocation is refused.
    pub fn new(alloc: Global, capacity: usize) -> Result<ByteQueue, AllocError>
        requires { capacity < 2 ^ 32 }
        ensures { IfOk result (λ q. (q.bytes ≡ []) × (q.capacity ≡ capacity)) }
    {
        // Twice the capacity, so that the bytes move only after as many were taken off.
        let bytes = Vec::with_capacity(alloc, capacity * 2)?;
        Ok(ByteQueue {
            bytes,
            start: 0,
            capacity,
        })
    }

    /// How many bytes there are.
    pub fn len(&self) -> usize
        ensures count { result ≡ length self.now.bytes }
        ensures bound { result ≤ self.now.capacity }
    {
        self.bytes.len() - self.start
    }

    /// Whether there are none.
    pub fn is_empty(&self) -> bool
        ensures { result ≡ (length self.now.bytes == 0) }
    {
        self.bytes.len() == self.start
    }

    /// How many bytes more it takes.
    pub fn room(&self) -> usize
        ensures { result ≡ self.now.capacity - length self.now.bytes }
    {
        self.capacity - self.len()
    }

    /// The bytes.
    pub fn as_slice(&self) -> &[u8]
        ensures { result.now ≡ self.now.bytes }
    {
        &self.bytes[self.start..]
    }

    /// Adds bytes at the end. It takes no memory.
    pub fn append(&mut self, more: &[u8])
        requires { length self.old.bytes + length more.now ≤ self.old.capacity }
        ensures { self.new ≡ record self.old { bytes = self.old.bytes ++ more.now } }
    {
        if self.bytes.len() + more.len() > self.capacity * 2 {
            self.bytes.drain(..self.start);
            self.start = 0; // what was taken off is gone
        }
        self.bytes.extend_from_slice(more).unwrap();
    }

    /// Takes bytes off the front.
    pub fn drop_front(&mut self, count: usize)
        requires { count ≤ length self.old.bytes }
        ensures { self.new ≡ record self.old { bytes = drop count self.old.bytes } }
    {
        self.start += count;
        if self.start == self.bytes.len() {
            self.clear();
        }
    }

    /// Takes all bytes off.
    pub fn clear(&mut self)
        ensures { self.new ≡ record self.old { bytes = [] } }
    {
        self.bytes.clear();
        self.start = 0; // nothing is left
    }
}
