//! What was told of the threads of a target, beside the commands that wait for replies.
ghost use Rattle.std.specs.Prelude.{◌≡◌, ◌+◌, ◌<◌, ◌^◌, ℕ, true, Contains, OnErr, OnOk, IsTrue, nat_lt};
ghost use Rattle.jdwp_action.specs.Actions.{action_of};
ghost use Rattle.jdwp_mirror.specs.CommandKinds.{kind_of};
ghost use Rattle.jdwp_apart.specs.Following.{made_by};
ghost use Rattle.std.specs.Map.Iter.{GivesInOrder};
ghost use Rattle.jdwp_event.specs.Told.{object_id};
ghost use Rattle.jdwp_value.specs.declared.id.ObjectId.{ObjectId};
ghost use Rattle.jdwp_watch.specs.Naming.{Covers, is_named_at};
ghost use Rattle.jdwp_watch.specs.Tables.{named};
ghost use Rattle.jdwp_watch.specs.Ledgers.{HasAnswered, HasReported, Teaches, bound_at, first_account, is_thread_kind, is_told};

use crate::made::{MadeRequests, request_made};
use crate::named::NamedThreads;
use crate::standing::{Change, Knows};
use crate::standings::Standings;
use crate::told::{Stops, Told};
use crate::watch::{later, next_packet, others_stopped, others_told};
use jdwp_event::Composite;
use jdwp_layout::Answer;
use jdwp_mirror::{Command, CommandKind};
use jdwp_value::ObjectId;
use jdwp_wire::NoMemory;
use std::alloc::Global;
use std::marker::Model;

/// So many commands are counted.
const MOST_ASKED: u64 = 1 << 62;

/// What was told of the threads of a target that sends each composite before the next event takes effect: with the commands that wait for
/// replies, which it does not keep, what a debugger follows of the session. So nothing takes memory but what tells of threads.
#[derive(Drop)]
pub struct Ledger {
    /// How many commands were asked, invocations apart, and how many of them were answered, which is the ticket of the last one.
    asked: u64,
    answered: u64,
    /// Each composite that is still to be read took effect after the command of this ticket.
    past: u64,
    standings: Standings,
    made: MadeRequests,
    /// How many packets told of threads: no number that is kept of a thread is greater by more than one count may be.
    packets: u64,
}

impl Model for Ledger {
    ghost use Rattle.jdwp_watch.specs.Ledgers.{Account, IsLedger};

    ghost Value = { Account };

    ghost view = { λ l. record { asked = l.asked; answered = l.answered; past = l.past; table = l.standings; made = l.made } };

    ghost invariant = { λ l. IsLedger l.packets l.asked l.answered l.standings };
}

impl Ledger {
    /// Nothing was asked or read, and no thread is known. Takes no memory.
    pub fn new(alloc: Global) -> Ledger
        ensures { result ≡ first_account }
    {
        Ledger {
            asked: 0,
            answered: 0,
            past: 0,
            standings: Standings::new(alloc),
            made: MadeRequests::new(),
            packets: 0,
        }
    }

    /// Whether one command more is counted: fewer than 2^62 were asked.
    pub fn has_room(&self) -> bool
        ensures { result ≡ nat_lt self.now.asked (2 ^ 62) }
    {
        self.asked < MOST_ASKED
    }

    /// A command was asked. Invocations of methods are not counted.
    pub fn on_ask(&mut self)
        requires { self.old.asked < 2 ^ 62 }
        ensures { self.new ≡ record self.old { asked = self.old.asked + 1 } }
    {
        self.asked += 1;
    }

    /// The answer to the command was read that waits longest, which is this one.
    ///
    /// # Errors
    /// `NoMemory` where an allocation was refused, or 2^62 packets told of threads; nothing has changed. Only an answer without an error to
    /// a Suspend, Resume or SuspendCount comes to that.
    pub fn on_answer(&mut self, command: &Command, answer: &Answer) -> Result<(), NoMemory>
        requires { self.old.answered < self.old.asked }
        ensures ok { OnOk result (HasAnswered command.now answer.now self.old self.new) }
        ensures counts { OnOk result ((self.new.asked ≡ self.old.asked) × (self.new.answered ≡ self.old.answered + 1)) }
        ensures err { OnErr result (self.new ≡ self.old) }
        ensures memory { OnErr result (is_told command.now answer.now ≡ true) }
    {
        let ticket = self.answered + 1;
        self.learn_told(ticket, command, answer)?;
        self.made.note(request_in(command, answer), ticket);
        self.answered = ticket;
        Ok(())
    }

    /// Learns what an answer under a ticket tells of threads.
    ///
    /// # Errors
    /// `NoMemory` where an allocation was refused, or 2^62 packets told of threads; nothing has changed.
    fn learn_told(
        &mut self,
        ticket: u64,
        command: &Command,
        answer: &Answer,
    ) -> Result<(), NoMemory>
        ensures ok { OnOk result (Teaches ticket command.now answer.now self.old.table self.new.table) }
        ensures others { OnOk result (self.new ≡ record self.old { table = self.new.table }) }
        ensures err { OnErr result (self.new ≡ self.old) }
        ensures memory { OnErr result (is_told command.now answer.now ≡ true) }
    {
        if !tells(command, answer) {
            return Ok(());
        }
        let packets = next_packet(self.packets)?;
        let told = Told::of(command, answer);
        let own = Change::Replied(ticket, told.own);
        let others = others_told(ticket, told.others);
        self.standings.change(told.thread, own, others)?;
        self.packets = packets;
        Ok(())
    }

    /// A composite was read.
    ///
    /// # Errors
    /// `NoMemory` where an allocation was refused, or 2^62 packets told of threads; nothing has changed.
    pub fn on_composite(&mut self, composite: &Composite) -> Result<(), NoMemory>
        ensures ok { OnOk result (HasReported composite.now self.old self.new) }
        ensures counts { OnOk result ((self.new.asked ≡ self.old.asked) × (self.new.answered ≡ self.old.answered)) }
        ensures err { OnErr result (self.new ≡ self.old) }
    {
        let packets = next_packet(self.packets)?;
        let after = later(self.past, self.made.since(composite));
        let stops = Stops::of(composite);
        let own = Change::Reported(after, stops.own, Some(self.asked));
        let others = others_stopped(after, stops.others);
        self.standings.change(stops.thread, own, others)?;
        self.past = later(after, self.answered);
        self.made.clear();
        self.packets = packets;
        Ok(())
    }

    /// The threads that were named, in the order of their ids: those of which a composite or a reply told. Each of whose count more than 0
    /// is told is among them. None is dropped as it ends.
    pub fn threads(&self) -> NamedThreads<'_>
        ensures all { result ≡ named self.now.table }
        ensures told { (t : ℕ) → 0 < bound_at self.now t → Contains result (object_id t) }
        ensures covers { Covers (is_named_at self.now) result }
        ensures runs { GivesInOrder ObjectId }
    {
        self.standings.threads()
    }

    /// Whether a thread was named: a composite of its own was read, or an answer without an error about it.
    pub fn is_named(&self, thread: ObjectId) -> bool
        ensures { result ≡ is_named_at self.now thread.0 }
    {
        match self.standings.of(thread).knows {
            Knows::Unseen => false,
            Knows::Counted(_) | Knows::Named(_) => true,
        }
    }

    /// What is told of the suspend count of a thread, from below, where nothing waits that lowers it.
    pub fn bound(&self, thread: ObjectId) -> u64
        ensures { result ≡ bound_at self.now thread.0 }
    {
        let standing = self.standings.of(thread);
        later(standing.told.value, standing.recounted.value)
    }
}

/// Whether an answer tells of threads.
fn tells(command: &Command, answer: &Answer) -> bool
    ensures { result ≡ is_told command.now answer.now }
{
    match answer {
        Answer::Data(_) => tells_of_threads(command.kind()),
        Answer::Error(_) => false,
    }
}

/// Whether answers to commands of a kind tell of threads.
pub fn tells_of_threads(kind: CommandKind) -> bool
    ensures { result ≡ is_thread_kind kind }
{
    matches!(
        kind,
        CommandKind::Suspend
            | CommandKind::Resume
            | CommandKind::SuspendThread
            | CommandKind::ResumeThread
            | CommandKind::SuspendCount
    )
}

/// The id of the request that an answer tells; None where it tells none.
fn request_in(command: &Command, answer: &Answer) -> Option<i32>
    ensures { result ≡ made_by (action_of command.now) answer.now }
{
    match answer {
        Answer::Data(data) => request_made(command.kind(), data.items()),
        Answer::Error(_) => None,
    }
}
