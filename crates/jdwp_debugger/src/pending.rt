//! The commands that wait for replies.
ghost use Rattle.std.specs.Prelude.{◌≡◌, ◌<◌, ◌≤◌, ◌^◌, ◌++◌, ◌∷◌, [], IfSome, None, OnErr, OnOk, Some, drop, eqb, false, length, remove, slice_get};
ghost use Rattle.std.specs.Bool.{OnFalse, OnTrue};
ghost use Rattle.std.specs.Map.{lookup};
ghost use Rattle.jdwp_debugger.specs.Asking.{IsNextFree, is_outstanding};
ghost use Rattle.jdwp_debugger.specs.Debuggers.{at_place, has_tickets, seen_unanswered, unanswered};
ghost use Rattle.jdwp_debugger.specs.News.{place_of};
ghost use Rattle.jdwp_debugger.specs.PendingKept.{asked_of, bare, waiting_in};
ghost use Rattle.jdwp_debugger.specs.DebuggerTurns.{is_next};
ghost use Rattle.jdwp_debugger.specs.FollowingKept.{all_lowered};
ghost use Rattle.jdwp_watch.specs.Lowerings.{lowers_one};
ghost use Rattle.indexmap.specs.IndexMap.{set_value_at};

use indexmap::IndexMap;
use jdwp_layout::numbers::{ID_SIZES, VIRTUAL_MACHINE};
use jdwp_mirror::Command;
use jdwp_value::ObjectId;
use jdwp_watch::{is_invocation, lowers};
use jdwp_wire::{IdSizes, NoMemory};
use std::alloc::Global;
use std::marker::Model;

/// The name of a command that was asked. Tickets rise from 1 for the life of a debugger, and none is given twice.
#[derive(Clone, Copy, Debug, PartialEq, Eq, PartialOrd, Ord, Hash)]
pub struct Ticket(pub u64);

/// A command that waits for its reply.
#[derive(Drop)]
pub(crate) struct Asked {
    /// None for IDSizes, which a debugger asks by itself.
    pub ticket: Option<Ticket>,
    pub command: Command,
}

/// So many settled commands stay in front, where others wait.
const MOST_SETTLED: usize = 256;

/// The commands that wait for replies, in the order asked, and by the ids of their packets. One that is settled while it is the oldest leaves
/// its place in front, without its ticket and what it carried, until none waits, or until 256 are settled and as many as wait, and then
/// the places go together: to settle the oldest takes no walk over the others.
#[derive(Drop)]
pub(crate) struct Pending {
    alloc: Global,
    /// The places of those that were settled as the oldest, and behind them those that wait.
    commands: IndexMap<u32, Asked>,
    /// How many of them are settled.
    settled: usize,
}

impl Model for Pending {
    ghost use Rattle.std.specs.Prelude.{List};
    ghost use Rattle.jdwp_debugger.specs.Debuggers as debuggers;

    ghost Value = { List debuggers.Asked };

    ghost use Rattle.jdwp_debugger.specs.PendingKept.{KeepsNoSettled, waiting_in};

    ghost view = { λ p. waiting_in p.settled p.commands.entries };

    ghost invariant = { λ p. KeepsNoSettled p.settled p.commands.entries };
}

/// The command at this place is settled: its ticket and what it carried go, and IDSizes, which carries nothing, stands there.
fn settle(commands: &mut IndexMap<u32, Asked>, place: usize, alloc: Global)
    requires { place < length commands.old.entries }
    ensures { commands.new.entries ≡ set_value_at commands.old.entries place bare }
{
    if let Some(asked) = commands.get_index_mut(place) {
        *asked = Asked {
            ticket: None,
            command: Command::new(VIRTUAL_MACHINE, ID_SIZES, Vec::new(alloc)),
        };
    }
}

/// The settled ones, which stand in front, are taken out.
fn take_out(commands: &mut IndexMap<u32, Asked>, settled: &mut usize)
    requires { settled.old ≤ length commands.old.entries }
    ensures others { commands.new.entries ≡ drop settled.old commands.old.entries }
    ensures none { settled.new ≡ 0 }
{
    commands.drain(..*settled);
    *settled = 0;
}

/// Whether the id of a settled one is this, under which none waits. Where none is settled nothing is looked up.
fn is_settled(commands: &IndexMap<u32, Asked>, settled: usize, id: u32) -> bool
    requires { is_outstanding (waiting_in settled commands.now.entries) id ≡ false }
    ensures { OnFalse result (lookup (eqb id) commands.now.entries ≡ None) }
{
    settled != 0 && commands.contains_key(&id)
}

/// By how much a command that waits lowers the count of a thread, where ids are so wide.
fn lowered_by(command: &Command, thread: ObjectId, sizes: &IdSizes) -> u64
    ensures value { result ≡ lowers_one sizes.now command.now thread.0 }
    ensures small { result ≤ 1 }
{
    if lowers(command, sizes, thread) { 1 } else { 0 }
}

impl Pending {
    /// No command waits.
    pub fn new(alloc: Global) -> Pending
        ensures { result ≡ [] }
    {
        Pending {
            alloc,
            commands: IndexMap::new(alloc),
            settled: 0,
        }
    }

    /// How many wait.
    pub fn len(&self) -> usize
        ensures { result ≡ length self.now }
    {
        self.commands.len() - self.settled
    }

    /// Whether a command waits under this id.
    pub fn has_outstanding(&self, id: u32) -> bool
        ensures { result ≡ is_outstanding self.now id }
    {
        self.found_under(id).is_some()
    }

    /// The place of the command that waits under an id; None where none does. A target answers in the order asked as a rule, so the oldest is
    /// looked at first.
    pub fn place_under(&self, id: u32) -> Option<usize>
        ensures place { result ≡ place_of id self.now }
        ensures within { IfSome result (λ place. place < length self.now) }
    {
        if self.is_oldest(id) {
            Some(0)
        } else {
            self.found_under(id)
        }
    }

    /// Whether the oldest that waits does so under this id.
    fn is_oldest(&self, id: u32) -> bool
        ensures first { OnTrue result (place_of id self.now ≡ Some 0) }
        ensures some { OnTrue result (0 < length self.now) }
    {
        if self.len() == 0 {
            return false;
        }
        let (oldest, _) = self.at(0);
        oldest == id
    }

    /// The place of the command that waits under an id, found by the id; None where none does.
    fn found_under(&self, id: u32) -> Option<usize>
        ensures place { result ≡ place_of id self.now }
        ensures within { IfSome result (λ place. place < length self.now) }
    {
        let place = self.commands.get_index_of(&id)?;
        place.checked_sub(self.settled)
    }

    /// The command at a place, and the id of its packet.
    pub fn at(&self, place: usize) -> (u32, &Asked)
        requires { place < length self.now }
        ensures { slice_get self.now place ≡ Some (asked_of (result.0, result.1.now)) }
    {
        // `len` is called for its clause that a map is small, so that the sum does not wrap.
        let _kept = self.commands.len();
        match self.commands.get_index(self.settled + place) {
            Some((id, asked)) => (*id, asked),
            None => unreachable!(),
        }
    }

    /// One more waits, behind the others, under an id of its own.
    ///
    /// # Errors
    /// Where an allocation was refused; nothing has changed.
    pub fn push(
        &mut self,
        id: u32,
        ticket: Option<Ticket>,
        command: Command,
    ) -> Result<(), NoMemory>
        requires { is_outstanding self.old id ≡ false }
        ensures ok { OnOk result (self.new ≡ self.old
            ++ record { id = id; ticket = ticket; command = command } ∷ []) }
        ensures err { OnErr result (self.new ≡ self.old) }
    {
        if is_settled(&self.commands, self.settled, id) {
            take_out(&mut self.commands, &mut self.settled);
        }
        match self.commands.insert(id, Asked { ticket, command }) {
            Ok(_) => Ok(()),
            Err(_) => Err(NoMemory),
        }
    }

    /// The command at a place waits no more. The others keep their order.
    pub fn remove(&mut self, place: usize)
        requires { place < length self.old }
        ensures { self.new ≡ remove self.old place }
    {
        if place == 0 {
            self.settle_oldest();
        } else {
            self.remove_later(place);
        }
    }

    /// The oldest waits no more.
    fn settle_oldest(&mut self)
        requires { 0 < length self.old }
        ensures { self.new ≡ remove self.old 0 }
    {
        let kept = self.commands.len();
        settle(&mut self.commands, self.settled, self.alloc);
        self.settled += 1;
        if self.settled == kept {
            self.commands.clear();
            self.settled = 0;
        } else if self.settled >= MOST_SETTLED.max(kept - self.settled) {
            take_out(&mut self.commands, &mut self.settled);
        }
    }

    /// The command at a place waits no more: those behind it move up.
    fn remove_later(&mut self, place: usize)
        requires { place < length self.old }
        ensures { self.new ≡ remove self.old place }
    {
        // `len` is called for its clause that a map is small, so that the sum does not wrap.
        let _kept = self.commands.len();
        let _ = self.commands.shift_remove_index(self.settled + place);
    }

    /// No command waits any more. It takes no memory.
    pub fn clear(&mut self)
        ensures { self.new ≡ [] }
    {
        self.commands.clear();
        self.settled = 0;
    }

    /// Whether one of them has a ticket.
    pub fn has_tickets(&self) -> bool
        ensures { result ≡ has_tickets self.now }
    {
        for place in 0..self.len() {
            let (_, asked) = self.at(place);
            if asked.ticket.is_some() {
                return true;
            }
        }
        false
    }

    /// Whether each command before this place invokes a method.
    pub fn is_next(&self, place: usize) -> bool
        requires { place < length self.now }
        ensures { result ≡ is_next place self.now }
    {
        for earlier in 0..place {
            let (_, asked) = self.at(earlier);
            if !is_invocation(&asked.command) {
                return false;
            }
        }
        true
    }

    /// By how much they may lower the count of a thread, where ids are so wide.
    pub fn lowered(&self, thread: ObjectId, sizes: &IdSizes) -> u64
        ensures { result ≡ all_lowered sizes.now self.now thread.0 }
    {
        let mut lowered: u64 = 0;
        for place in 0..self.len() {
            let (_, asked) = self.at(place);
            lowered += lowered_by(&asked.command, thread, sizes);
        }
        lowered
    }

    /// The one at this place among those that have tickets, from 0; None past the last.
    pub fn unanswered_at(&self, place: usize) -> Option<(Ticket, &Command)>
        ensures { seen_unanswered result ≡ at_place (unanswered self.now) place }
    {
        let mut left = place;
        for next in 0..self.len() {
            let (_, asked) = self.at(next);
            if let Some(ticket) = asked.ticket {
                if left == 0 {
                    return Some((ticket, &asked.command));
                }
                left -= 1;
            }
        }
        None
    }

    /// The first id from this one on under which no command waits. 0 follows 4,294,967,295.
    pub fn next_free(&self, from: u32) -> u32
        requires { length self.now < 2 ^ 31 }
        ensures { IsNextFree self.now from result }
    {
        let mut id = from;
        for _ in 0..self.len() {
            if !self.has_outstanding(id) {
                return id;
            }
            id = id.wrapping_add(1);
        }
        id
    }
}
