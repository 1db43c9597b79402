//! What each event does to a link.
ghost use Rattle.std.specs.Prelude.{◌≡◌, ◌≤◌, ◌+◌, ◌&&◌, [], OnErr, OnOk, false, if◌then◌else◌, not, true, vec_capacity, vec_len};
ghost use Rattle.jdwp_debugger.specs.declared.faults.DebuggerFault.TheVariants as fault;
ghost use Rattle.jdwp_debugger.specs.Debuggers as debuggers;
ghost use Rattle.jdwp_debugger.specs.Debuggers.{has_tickets, is_front};
ghost use Rattle.jdwp_end.specs.Ends.{front_of, is_open};
ghost use Rattle.jdwp_model.specs.Events as events;
ghost use Rattle.jdwp_target.specs.Targets as targets;
ghost use Rattle.jdwp_link.specs.Clauses.{Delivers, Goes, MayStop, carried_by};
ghost use Rattle.jdwp_link.specs.EventParts.{Stops, Tells};
ghost use Rattle.jdwp_link.specs.Insides.{DebuggerKeeps, TargetKeeps};
ghost use Rattle.jdwp_link.specs.Told.{event_meaning, step_did, turn_did};

use crate::byte_queue::ByteQueue;
use crate::events::{LinkEvent, Outcome};
use crate::laws;
use crate::link::Link;
use crate::moving::{
    lose_and_keep, pieces_to_debugger, pieces_to_target, queue_to_debugger, queue_to_target,
};
use crate::telling::{
    PENDING_MOST, TOLD_MOST, ask_debugger, have_tickets, lose_and_tell, read_nothing, settle,
    tell_read,
};
use crate::way::Way;
use jdwp_debugger::{Command, Debugger, DebuggerFault};
use jdwp_machine::Machine;
use jdwp_target::{Stepped, Target, TargetFault, Turn};
use jdwp_value::ObjectId;
use jdwp_wire::NoMemory;

impl<M: Machine + Drop> Link<M> {
    /// Does one event, and puts what is told of it behind what was told before.
    ///
    /// # Errors
    /// `NoMemory` where an allocation was refused; then nothing has changed.
    pub(crate) fn happen<W: Way>(
        &mut self,
        way: &mut W,
        event: &LinkEvent,
        outcomes: &mut Vec<Outcome>,
    ) -> Result<(), NoMemory>
        ensures ok { OnOk result (Tells M.meaning (event_meaning event.now) self.old self.new
            outcomes.old.items outcomes.new.items) }
        ensures err { OnErr result (Stops M.meaning (event_meaning event.now) self.old self.new
            outcomes.old.items outcomes.new.items) }
        ensures delivers { OnOk result (Delivers (event_meaning event.now) self.old self.new) }
        ensures carried { OnOk result (W.has_failed way.new ≡ false → W.story way.new ≡ carried_by
            (event_meaning event.now) self.old (W.story way.old)) }
        ensures uncarried { OnErr result (way.new ≡ way.old) }
        ensures failed { W.has_failed way.old ≡ true → way.new ≡ way.old }
    {
        match event {
            LinkEvent::Attach => self.attach(),
            LinkEvent::Ask(command) => return self.ask(command, outcomes),
            LinkEvent::ToTarget(most) => self.deliver_to_target(way, *most),
            LinkEvent::ToDebugger(most) => self.deliver_to_debugger(way, *most),
            LinkEvent::TargetTurn => return self.turn_at_target(),
            LinkEvent::DebuggerTurn => return self.turn_at_debugger(outcomes),
            LinkEvent::Step(thread) => return self.step(*thread),
            LinkEvent::TargetLoses => self.lose_at_target(),
            LinkEvent::DebuggerLoses => return self.lose_at_debugger(outcomes),
            LinkEvent::Defer(deferring) => self.set_deferring(*deferring),
            LinkEvent::Release(place) => return self.release(*place),
        }
        Ok(())
    }

    /// A new session begins, where both ends are closed, no ticket waits and the machine lives.
    pub(crate) fn attach(&mut self)
        ensures { Goes M.meaning events.Attach self.old self.new [] }
    {
        laws::of_sessions::<M>();
        let begun = begin_session(&mut self.target, &mut self.debugger);
        clear_where(begun, &mut self.to_target);
        clear_where(begun, &mut self.to_debugger);
        self.did = false;
        keeps(&self.target, &self.debugger);
    }

    /// A command is asked of the debugger.
    ///
    /// # Errors
    /// `NoMemory` where an allocation was refused; then nothing has changed.
    pub(crate) fn ask(
        &mut self,
        command: &Command,
        outcomes: &mut Vec<Outcome>,
    ) -> Result<(), NoMemory>
        ensures ok { OnOk result (Tells M.meaning (events.Ask command.now) self.old self.new
            outcomes.old.items outcomes.new.items) }
        ensures err { OnErr result (Stops M.meaning (events.Ask command.now) self.old self.new
            outcomes.old.items outcomes.new.items) }
    {
        laws::of_sessions::<M>();
        keeps(&self.target, &self.debugger);
        outcomes.reserve(1)?;
        let copy = command.copied(self.alloc)?;
        let outcome = ask_debugger(&mut self.debugger, self.alloc, copy)?;
        outcomes.push_reserved(outcome);
        self.did = false;
        keeps(&self.target, &self.debugger);
        Ok(())
    }

    /// At most so many of the bytes under way come to the target: first what a debugger that lost the connection had put, which is not
    /// carried, and then what waits at the debugger, carried by the way.
    pub(crate) fn deliver_to_target<W: Way>(&mut self, way: &mut W, most: usize)
        ensures goes { Goes M.meaning (events.ToTarget most) self.old self.new [] }
        ensures delivers { Delivers (events.ToTarget most) self.old self.new }
        ensures carried { W.has_failed way.new ≡ false → W.story way.new ≡ carried_by
            (events.ToTarget most) self.old (W.story way.old) }
        ensures failed { W.has_failed way.old ≡ true → way.new ≡ way.old }
    {
        laws::of_sessions::<M>();
        let kept = queue_to_target(&mut self.to_target, &mut self.target, most);
        let left = self
            .debugger
            .waiting()
            .min(self.target.room())
            .min(most - kept);
        pieces_to_target(&mut self.debugger, &mut self.target, way, left);
        self.did = false;
        keeps(&self.target, &self.debugger);
    }

    /// At most so many of the bytes under way come to the debugger: first what a target that lost the connection had put, which is not
    /// carried, and then what waits at the target, carried by the way.
    pub(crate) fn deliver_to_debugger<W: Way>(&mut self, way: &mut W, most: usize)
        ensures goes { Goes M.meaning (events.ToDebugger most) self.old self.new [] }
        ensures delivers { Delivers (events.ToDebugger most) self.old self.new }
        ensures carried { W.has_failed way.new ≡ false → W.story way.new ≡ carried_by
            (events.ToDebugger most) self.old (W.story way.old) }
        ensures failed { W.has_failed way.old ≡ true → way.new ≡ way.old }
    {
        laws::of_sessions::<M>();
        let kept = queue_to_debugger(&mut self.to_debugger, &mut self.debugger, most);
        let left = self
            .target
            .waiting()
            .min(self.debugger.room())
            .min(most - kept);
        pieces_to_debugger(&mut self.target, &mut self.debugger, way, left);
        self.did = false;
        keeps(&self.target, &self.debugger);
    }

    /// The target notices that the connection is lost.
    pub(crate) fn lose_at_target(&mut self)
        ensures { Goes M.meaning events.TargetLoses self.old self.new [] }
    {
        lose_and_keep(&mut self.target, &mut self.to_debugger);
        self.did = false;
        keeps(&self.target, &self.debugger);
    }

    /// A thread makes a step, if it may make one.
    ///
    /// # Errors
    /// `NoMemory` where an allocation was refused; then nothing has changed.
    pub(crate) fn step(&mut self, thread: ObjectId) -> Result<(), NoMemory>
        ensures ok { OnOk result (Goes M.meaning (events.Step thread.0) self.old self.new []) }
        ensures err { OnErr result ((self.new ≡ self.old)
            × MayStop M.meaning self.old (events.Step thread.0)) }
    {
        laws::of_sessions::<M>();
        keeps(&self.target, &self.debugger);
        match self.target.step(thread) {
            Ok(stepped) => {
                self.did = has_stepped(stepped);
                keeps(&self.target, &self.debugger);
                Ok(())
            }
            Err(TargetFault::NoMemory) => Err(NoMemory),
            Err(TargetFault::Frame(_)) => unreachable!(),
        }
    }

    /// The target handles the message in front of it, if one is whole.
    ///
    /// # Errors
    /// `NoMemory` where an allocation was refused; then nothing has changed.
    pub(crate) fn turn_at_target(&mut self) -> Result<(), NoMemory>
        ensures ok { OnOk result (Goes M.meaning events.TargetTurn self.old self.new []) }
        ensures err { OnErr result ((self.new ≡ self.old)
            × MayStop M.meaning self.old events.TargetTurn) }
    {
        laws::of_sessions::<M>();
        keeps(&self.target, &self.debugger);
        match self.target.turn() {
            Ok(turn) => {
                self.did = has_turned(turn);
                keeps(&self.target, &self.debugger);
                Ok(())
            }
            Err(TargetFault::NoMemory) => Err(NoMemory),
            Err(TargetFault::Frame(_)) => unreachable!(),
        }
    }

    /// From now on the target defers the replies that may come later, or it defers none.
    pub(crate) fn set_deferring(&mut self, deferring: bool)
        ensures { Goes M.meaning (events.Defer deferring) self.old self.new [] }
    {
        self.target.set_deferring(deferring);
        self.did = false;
        keeps(&self.target, &self.debugger);
    }

    /// The target answers the deferred command at this place, if one is deferred there.
    ///
    /// # Errors
    /// `NoMemory` where an allocation was refused; then nothing has changed.
    pub(crate) fn release(&mut self, place: usize) -> Result<(), NoMemory>
        ensures ok { OnOk result (Goes M.meaning (events.Release place) self.old self.new []) }
        ensures err { OnErr result ((self.new ≡ self.old)
            × MayStop M.meaning self.old (events.Release place)) }
    {
        laws::of_sessions::<M>();
        keeps(&self.target, &self.debugger);
        match self.target.release(place) {
            Ok(released) => {
                self.did = has_turned(released);
                keeps(&self.target, &self.debugger);
                Ok(())
            }
            Err(TargetFault::NoMemory) => Err(NoMemory),
            Err(TargetFault::Frame(_)) => unreachable!(),
        }
    }

    /// The debugger notices that the connection is lost.
    ///
    /// # Errors
    /// `NoMemory` where an allocation was refused; then nothing has changed.
    pub(crate) fn lose_at_debugger(&mut self, outcomes: &mut Vec<Outcome>) -> Result<(), NoMemory>
        ensures ok { OnOk result (Tells M.meaning events.DebuggerLoses self.old self.new
            outcomes.old.items outcomes.new.items) }
        ensures err { OnErr result (Stops M.meaning events.DebuggerLoses self.old self.new
            outcomes.old.items outcomes.new.items) }
    {
        laws::of_sessions::<M>();
        keeps(&self.target, &self.debugger);
        if have_tickets(&self.debugger) {
            outcomes.reserve(PENDING_MOST)?;
        }
        lose_and_tell(&mut self.debugger, &mut self.to_target, outcomes);
        self.did = false;
        keeps(&self.target, &self.debugger);
        Ok(())
    }

    /// The debugger handles the message in front of it, if one is whole.
    ///
    /// # Errors
    /// `NoMemory` where an allocation was refused; then nothing has changed.
    pub(crate) fn turn_at_debugger(&mut self, outcomes: &mut Vec<Outcome>) -> Result<(), NoMemory>
        ensures ok { OnOk result (Tells M.meaning events.DebuggerTurn self.old self.new
            outcomes.old.items outcomes.new.items) }
        ensures err { OnErr result (Stops M.meaning events.DebuggerTurn self.old self.new
            outcomes.old.items outcomes.new.items) }
    {
        if self.debugger.has_front() {
            outcomes.reserve(TOLD_MOST)?;
            return self.read_at_debugger(outcomes);
        }
        self.wait_at_debugger();
        Ok(())
    }

    /// The debugger has nothing to handle.
    fn wait_at_debugger(&mut self)
        requires { is_front (front_of self.old.debugger.end) ≡ false }
        ensures { Goes M.meaning events.DebuggerTurn self.old self.new [] }
    {
        laws::of_sessions::<M>();
        keeps(&self.target, &self.debugger);
        read_nothing(&mut self.debugger, self.alloc);
        self.did = false;
        keeps(&self.target, &self.debugger);
    }

    /// The debugger handles what is in front of it. There is room for what is told of it.
    ///
    /// # Errors
    /// `NoMemory` where an allocation was refused; then nothing has changed.
    fn read_at_debugger(&mut self, outcomes: &mut Vec<Outcome>) -> Result<(), NoMemory>
        requires { vec_len outcomes.old + TOLD_MOST ≤ vec_capacity outcomes.old }
        ensures ok { OnOk result (Tells M.meaning events.DebuggerTurn self.old self.new
            outcomes.old.items outcomes.new.items) }
        ensures err { OnErr result (Stops M.meaning events.DebuggerTurn self.old self.new
            outcomes.old.items outcomes.new.items) }
    {
        laws::of_sessions::<M>();
        keeps(&self.target, &self.debugger);
        match self.debugger.turn(self.alloc) {
            Ok(read) => {
                self.did = tell_read(read, outcomes);
                keeps(&self.target, &self.debugger);
                settle(&mut self.debugger, &mut self.to_target, outcomes);
                keeps(&self.target, &self.debugger);
                Ok(())
            }
            Err(fault) => Err(wanted(fault)),
        }
    }
}

/// The want of memory that is the fault of a turn: nothing that a target of the link sends is refused.
fn wanted(_fault: DebuggerFault) -> NoMemory
    requires { _fault ≡ fault.NoMemory }
{
    NoMemory
}

/// Begins a session at both ends, where neither is open and the machine lives. No ticket may wait at a closed debugger.
fn begin_session<M: Machine + Drop>(target: &mut Target<M>, debugger: &mut Debugger) -> bool
    requires { is_open debugger.old.end ≡ false → has_tickets debugger.old.pending ≡ false }
    ensures when { result ≡ (not (is_open target.old.end) &&
        (not (is_open debugger.old.end) && target.old.moment.state.alive)) }
    ensures begun { result ≡ true → (target.new ≡ targets.opened_target target.old)
        × (debugger.new ≡ debuggers.attached debugger.old) }
    ensures same { result ≡ false → (target.new ≡ target.old) × (debugger.new ≡ debugger.old) }
{
    if debugger.is_open() || !target.accept() {
        return false;
    }
    debugger.attach()
}

/// Empties a queue, where it is so.
fn clear_where(empties: bool, queue: &mut ByteQueue)
    ensures { queue.new ≡ (if empties then record queue.old { bytes = [] } else queue.old) }
{
    if empties {
        queue.clear();
    }
}

/// What holds of both ends, after every list of calls. It changes nothing.
pub(crate) fn keeps<M: Machine + Drop>(target: &Target<M>, debugger: &Debugger)
    ensures target { TargetKeeps target.now.end }
    ensures debugger { DebuggerKeeps debugger.now }
{
    target.session();
    debugger.session();
    let _from_target = target.waiting();
    let _from_debugger = debugger.waiting();
}

/// Whether a step was made.
fn has_stepped(stepped: Stepped) -> bool
    ensures { result ≡ step_did stepped }
{
    match stepped {
        Stepped::Frozen => false,
        Stepped::Quiet | Stepped::Reported | Stepped::Ended => true,
    }
}

/// Whether a turn handled a message, or a release answered a command.
fn has_turned(turn: Turn) -> bool
    ensures { result ≡ turn_did turn }
{
    match turn {
        Turn::Nothing => false,
        Turn::Hello | Turn::Replied(..) | Turn::Ignored | Turn::Deferred(_) => true,
    }
}
