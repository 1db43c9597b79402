//! What an end sent that belongs to no message yet.
ghost use Rattle.std.specs.Prelude.{◌≡◌, ◌≤◌, ◌++◌, [], length, drop, OnOk, false, true};

use crate::front::{next_hello_found, next_packet_found};
use crate::heard::Found;
use jdwp_wire::NoMemory;
use std::alloc::Global;

/// The bytes of an end that belong to no message yet, and whether its handshake was before them.
#[derive(Drop)]
pub(crate) struct Coming {
    bytes: Vec<u8>,
    handshaken: bool,
}

impl Coming {
    ghost use Rattle.jdwp_judge.specs.Coming.{IsNext};

    pub(crate) fn new(alloc: Global) -> Coming
        ensures bytes { result.bytes.items ≡ [] }
        ensures fresh { result.handshaken ≡ false }
    {
        Coming {
            bytes: Vec::new(alloc),
            handshaken: false,
        }
    }

    /// How many bytes belong to no message yet.
    pub(crate) fn left_over(&self) -> usize
        ensures { result ≡ length self.now.bytes.items }
    {
        self.bytes.len()
    }

    /// These bytes have come.
    pub(crate) fn come(&mut self, bytes: &[u8]) -> Result<(), NoMemory>
        ensures bytes { OnOk result (self.new.bytes.items ≡ self.old.bytes.items ++ bytes.now) }
        ensures handshaken { self.new.handshaken ≡ self.old.handshaken }
    {
        Ok(self.bytes.extend_from_slice(bytes)?)
    }

    /// What stands behind so many bytes, if it is whole or shows a fault, and how many bytes it takes.
    #[inline(always)]
    pub(crate) fn next_found(&self, taken: usize) -> Option<(Found<'_>, usize)>
        requires { taken ≤ length self.now.bytes.items }
        ensures { IsNext self.now.handshaken (drop taken self.now.bytes.items) result }
    {
        let waiting = &self.bytes[taken..];
        if self.handshaken {
            next_packet_found(waiting)
        } else {
            next_hello_found(waiting)
        }
    }

    /// A message was found: the handshake, or it was before.
    pub(crate) fn begin(&mut self)
        ensures bytes { self.new.bytes ≡ self.old.bytes }
        ensures handshaken { self.new.handshaken ≡ true }
    {
        self.handshaken = true;
    }

    /// So many bytes in front belong to messages.
    pub(crate) fn take(&mut self, taken: usize)
        requires { taken ≤ length self.old.bytes.items }
        ensures bytes { self.new.bytes.items ≡ drop taken self.old.bytes.items }
        ensures handshaken { self.new.handshaken ≡ self.old.handshaken }
    {
        if taken == self.bytes.len() {
            self.bytes.clear();
        } else {
            self.bytes.drain(..taken);
        }
    }
}
