//! Who is surely suspended.
ghost use Rattle.std.specs.Prelude.{◌≡◌, ◌+◌, ◌<◌, ◌≤◌, ◌^◌, if◌then◌else◌, nat_lt, ℕ, Contains, IfOk, IsTrue, OnErr, OnOk};
ghost use Rattle.std.specs.Map.Iter.{GivesInOrder};
ghost use Rattle.jdwp_apart.specs.Messages.{Reply};
ghost use Rattle.jdwp_value.specs.declared.id.ObjectId.{ObjectId};
ghost use Rattle.jdwp_apart.specs.Watch as definition;
ghost use Rattle.jdwp_apart.specs.Watch.{asks, invokes, reads_composite, reads_reply, returns_from, start};
ghost use Rattle.jdwp_event.specs.Told.{object_id};
ghost use Rattle.jdwp_watch.specs.Targets.{CountsAtLeast, InEachTarget, IsSuspended};
ghost use Rattle.jdwp_watch.specs.Watching as spec;
ghost use Rattle.jdwp_watch.specs.Watching.{invocation_of, nobody, others_by, others_of, threads_of, watch_of};

use crate::invocation::Invocation;
use crate::named::NamedThreads;
use crate::standing::{Change, Telling};
use crate::standings::Standings;
use crate::told::{Stops, Told};
use crate::waiting::Waiting;
use jdwp_apart::shows_only_suspended_threads;
use jdwp_event::Composite;
use jdwp_layout::Answer;
use jdwp_mirror::Command;
use jdwp_value::ObjectId;
use jdwp_wire::NoMemory;
use std::alloc::Global;
use std::marker::Model;

/// So many packets are counted.
const MOST_PACKETS: u64 = 1 << 62;

/// What a debugger holds of a target whose replies and composites are sent by threads of their own, and come in any order among one another:
/// of each thread a number that its suspend count is surely no less than, once all that was asked is carried out.
///
/// What is sure holds of threads that live, in each target whose debugger asked and read what this watch was told, whatever else happened
/// there. It is not said of sessions in which Dispose, Exit or a command was asked that a target of this layer does not carry out, invocations
/// apart.
///
/// Nothing is kept of how threads end. One that ended stays among `threads`, and its number may stay above 0, or grow: each Suspend and each
/// event that stops all counts for every thread that was named. So a client requests THREAD_DEATH events (kind 7), which a thread reports before
/// it ends (JDWP specification, "Protocol Details": Event.Composite), and from the composite on in which `has_event_of` finds one it takes that
/// composite's thread as ended, whatever `is_sure` answers; likewise where a command that was asked about a named thread is answered
/// INVALID_THREAD. A SuspendCount of 0 shows no end, and until an end is told a thread that ended may be shown as suspended.
#[derive(Drop)]
pub struct Watch {
    /// Whether the target sends each composite before the next event takes effect.
    one_by_one: bool,
    /// How many commands were answered, which is the ticket of the last one, and those that were not.
    answered: u64,
    waiting: Waiting,
    /// Each composite that is still to be read took effect after the command of this ticket.
    past: u64,
    standings: Standings,
    /// How many packets were asked and read: no number that is kept of a thread is greater by more than one count may be.
    packets: u64,
}

impl Model for Watch {
    ghost use Rattle.jdwp_watch.specs.Watching.{IsKept, Watching};

    ghost Value = { Watching };

    ghost view = { λ w. record { one_by_one = w.one_by_one; answered = w.answered; pending = w.waiting; past = w.past; table = w.standings } };

    ghost invariant = { λ w. IsKept w.packets w.answered w.standings };
}

impl Watch {
    /// Nothing was asked or read, and no thread is known. `one_by_one` tells whether the target sends each composite before the next event
    /// takes effect. Takes no memory.
    pub fn new(alloc: Global, one_by_one: bool) -> Watch
        ensures { watch_of result ≡ start one_by_one nobody }
    {
        Watch {
            one_by_one,
            answered: 0,
            waiting: Waiting::new(alloc),
            past: 0,
            standings: Standings::new(alloc),
            packets: 0,
        }
    }

    /// A command was asked. The invocations of methods are no such commands: `on_invoke` takes them.
    ///
    /// # Errors
    /// `NoMemory` where an allocation was refused; nothing has changed.
    pub fn on_ask(&mut self, command: &Command) -> Result<(), NoMemory>
        ensures ok { OnOk result (watch_of self.new ≡ asks (watch_of self.old) command.now) }
        ensures err { OnErr result (self.new ≡ self.old) }
    {
        self.waiting.push(command)
    }

    /// A method was invoked.
    ///
    /// # Errors
    /// `NoMemory` where an allocation was refused, or 2^62 packets were counted; nothing has changed.
    pub fn on_invoke(&mut self, invocation: Invocation) -> Result<(), NoMemory>
        ensures ok { OnOk result (watch_of self.new ≡ invokes (watch_of self.old) (invocation_of invocation)) }
        ensures err { OnErr result (self.new ≡ self.old) }
    {
        let packets = next_packet(self.packets)?;
        let (thread, others) = resumed_by(invocation, Change::Invoked);
        self.standings.change(thread, Change::Invoked, others)?;
        self.packets = packets;
        Ok(())
    }

    /// The answer to an invocation was read, whatever it is.
    ///
    /// # Errors
    /// `NoMemory` where an allocation was refused, or 2^62 packets were counted; nothing has changed.
    pub fn on_return(&mut self, invocation: Invocation) -> Result<(), NoMemory>
        ensures ok { OnOk result (watch_of self.new ≡ returns_from (watch_of self.old) (invocation_of invocation)) }
        ensures err { OnErr result (self.new ≡ self.old) }
    {
        let packets = next_packet(self.packets)?;
        let (thread, others) = resumed_by(invocation, Change::Returned);
        self.standings.change(thread, Change::Returned, others)?;
        self.packets = packets;
        Ok(())
    }

    /// The answer to the command was read that waits longest, which is this one.
    ///
    /// # Errors
    /// `NoMemory` where an allocation was refused, or 2^62 packets were counted; nothing has changed.
    pub fn on_answer(&mut self, command: &Command, answer: &Answer) -> Result<(), NoMemory>
        ensures ok { OnOk result (watch_of self.new ≡ reads_reply (watch_of self.old) (record { command = command.now; answer = answer.now })) }
        ensures err { OnErr result (self.new ≡ self.old) }
    {
        let packets = next_packet(self.packets)?;
        let ticket = self.answered + 1;
        let told = Told::of(command, answer);
        let own = Change::Replied(ticket, told.own);
        let others = others_told(ticket, told.others);
        self.standings.change(told.thread, own, others)?;
        self.waiting.pop();
        self.answered = ticket;
        self.packets = packets;
        Ok(())
    }

    /// A composite was read, of whose events is known that so many commands were carried out before them: where the debugger knows the request
    /// that they report, the ticket of the EventRequest.Set that made it, and else 0.
    ///
    /// # Errors
    /// `NoMemory` where an allocation was refused, or 2^62 packets were counted; nothing has changed.
    pub fn on_composite(&mut self, composite: &Composite, since: u64) -> Result<(), NoMemory>
        ensures ok { OnOk result (watch_of self.new ≡ reads_composite (watch_of self.old) (record { meaning = composite.now; since = since })) }
        ensures err { OnErr result (self.new ≡ self.old) }
    {
        let packets = next_packet(self.packets)?;
        let asked = self.answered + self.waiting.len() as u64;
        let after = later(self.past, since);
        let stops = Stops::of(composite);
        let own = Change::Reported(after, stops.own, Some(asked));
        let others = others_stopped(after, stops.others);
        self.standings.change(stops.thread, own, others)?;
        let counted = counted_before(self.one_by_one, self.answered);
        let past = later(after, counted);
        self.past = past;
        self.packets = packets;
        Ok(())
    }

    /// The threads that were named, in the order of their ids: those of which a composite or a reply told, and those that were invoked by.
    /// Each thread that is surely suspended is among them; of all others the debugger knows the same. None is dropped as it ends.
    pub fn threads(&self) -> NamedThreads<'_>
        ensures all { result ≡ threads_of self.now }
        ensures sure { (t : ℕ) → 0 < definition.sure (watch_of self.now) t → Contains result (object_id t) }
        ensures runs { GivesInOrder ObjectId }
    {
        self.standings.threads()
    }

    /// What the suspend count of a thread is surely no less than, as long as the thread lives.
    pub fn sure(&self, thread: ObjectId) -> u64
        ensures value { result ≡ definition.sure (watch_of self.now) thread.0 }
        ensures covered { InEachTarget (watch_of self.now) (CountsAtLeast result thread.0) }
    {
        shows_only_suspended_threads();
        let standing = self.standings.of(thread);
        let bound = later(standing.told.value, standing.recounted.value);
        bound
            .saturating_sub(self.waiting.lowered(thread))
            .saturating_sub(standing.invoked)
    }

    /// Whether a thread is surely suspended, as long as it lives.
    pub fn is_sure(&self, thread: ObjectId) -> bool
        ensures value { result ≡ nat_lt 0 (definition.sure (watch_of self.now) thread.0) }
        ensures suspended { IsTrue result → InEachTarget (watch_of self.now) (IsSuspended thread.0) }
    {
        self.sure(thread) > 0
    }
}

/// The number of packets with one more.
///
/// # Errors
/// `NoMemory` exactly where no more are counted.
pub(crate) fn next_packet(packets: u64) -> Result<u64, NoMemory>
    ensures ok { IfOk result (λ next. next ≡ packets + 1) }
    ensures few { OnOk result (packets < 2 ^ 62) }
    ensures err { OnErr result (2 ^ 62 ≤ packets) }
{
    if packets < MOST_PACKETS {
        Ok(packets + 1)
    } else {
        Err(NoMemory)
    }
}

pub(crate) fn later(first: u64, second: u64) -> u64
    ensures { result ≡ definition.later first second }
{
    if first <= second { second } else { first }
}

/// So many commands were surely carried out before the events of the composites that are read later, where so many were answered.
fn counted_before(one_by_one: bool, answered: u64) -> u64
    ensures { result ≡ (if one_by_one then answered else 0) }
{
    if one_by_one { answered } else { 0 }
}

/// What becomes of the threads that a reply under a ticket is not about.
pub(crate) fn others_told(ticket: u64, others: Option<Telling>) -> Change
    ensures { result ≡ others_of ticket others }
{
    match others {
        Some(telling) => Change::Replied(ticket, telling),
        None => Change::Keep,
    }
}

/// What becomes of the threads that a composite is not of.
pub(crate) fn others_stopped(after: u64, stops: bool) -> Change
    ensures { result ≡ others_by after stops }
{
    if stops {
        Change::Reported(after, true, None)
    } else {
        Change::Keep
    }
}

/// The one thread that an invocation resumes, if it is one, and what becomes of all others.
fn resumed_by(invocation: Invocation, change: Change) -> (Option<ObjectId>, Change)
    ensures { result ≡ spec.resumed_by invocation change }
{
    match invocation {
        Invocation::ByThread(thread) => (Some(thread), Change::Keep),
        Invocation::ByAll => (None, change),
    }
}
