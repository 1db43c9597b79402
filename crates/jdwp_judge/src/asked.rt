//! The commands of the debugger that wait for their replies.
ghost use Rattle.std.specs.Prelude.{◌≡◌, ◌+◌, ℕ, IfOk, OnOk, None, false};

use crate::heard::{Found, Heard};
use crate::waiting::Waiting;
use jdwp_show::{CommandNumber, Sender};
use jdwp_wire::{NoMemory, PacketKind};
use std::alloc::Global;

/// What the items so far say: whether the debugger's handshake is among them, and which commands wait under which ids.
#[derive(Drop)]
pub(crate) struct Asked {
    begun: bool,
    commands: Waiting,
}

impl Asked {
    ghost use Rattle.jdwp_judge.specs.Heard.{thing, item_of};
    ghost use Rattle.jdwp_judge.specs.Standing.{waits_in, count_in, more_by, fewer_by, IsAfter};
    ghost use Rattle.jdwp_show.specs.Rules.{under};

    pub(crate) fn new(alloc: Global) -> Asked
        ensures begun { result.begun ≡ false }
        ensures waits { (id : ℕ) → waits_in result id ≡ None }
        ensures count { count_in result ≡ 0 }
    {
        Asked {
            begun: false,
            commands: Waiting::new(alloc),
        }
    }

    /// Whether the debugger's handshake is among the items.
    pub(crate) fn begun(&self) -> bool
        ensures { result ≡ self.now.begun }
    {
        self.begun
    }

    /// How many commands wait.
    pub(crate) fn count(&self) -> usize
        ensures { result ≡ count_in self.now }
    {
        self.commands.count()
    }

    /// One item more. Answers the command that waited under its id before.
    #[inline(always)]
    pub(crate) fn record(&mut self, item: &Heard) -> Result<Option<CommandNumber>, NoMemory>
        ensures waits { IfOk result (λ waits. waits ≡ under (waits_in self.old)
            (thing item.now.found)) }
        ensures after { OnOk result (IsAfter self.old (item_of item.now) self.new) }
        ensures counted { IfOk result (λ waits. count_in self.new + fewer_by waits item.now.sender
            (thing item.now.found) ≡ count_in self.old + more_by waits item.now.sender
            (thing item.now.found)) }
    {
        match item.found {
            Found::Fault(_) => Ok(None),
            Found::Handshake => {
                match item.sender {
                    Sender::Debugger => self.begun = true,
                    Sender::Target => {}
                }
                Ok(None)
            }
            Found::Packet(packet) => {
                let id = packet.header.id;
                match packet.header.kind {
                    PacketKind::Command { set, number } => match item.sender {
                        Sender::Debugger => self.commands.insert(id, CommandNumber { set, number }),
                        Sender::Target => Ok(self.commands.get(id)),
                    },
                    PacketKind::Reply { error: _ } => match item.sender {
                        Sender::Debugger => Ok(self.commands.get(id)),
                        Sender::Target => Ok(self.commands.remove(id)),
                    },
                }
            }
        }
    }
}
