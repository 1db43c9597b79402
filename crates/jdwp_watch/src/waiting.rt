//! The commands that wait for their answers.
ghost use Rattle.std.specs.Prelude.{◌≡◌, ◌<◌, ◌^◌, ◌++◌, ◌∷◌, [], count_by, length, OnErr, OnOk};
ghost use Rattle.jdwp_action.specs.Actions.{action_of};
ghost use Rattle.jdwp_apart.specs.Watch.{all_lower, rest};
ghost use Rattle.jdwp_apart.specs.Messages.{one_if};
ghost use Rattle.jdwp_watch.specs.Lowerings.{lowered_by, lowering_by, lowering_of, lowers_one};

use crate::invocation::Invocation;
use jdwp_mirror::{Command, CommandKind};
use jdwp_value::ObjectId;
use jdwp_wire::{IdSizes, NoMemory};
use std::alloc::Global;
use std::collections::VecDeque;
use std::marker::Model;
use trace::Trace;

/// Whom a command resumes.
#[derive(Clone, Copy)]
pub(crate) enum Lowering {
    Nobody,
    Thread(ObjectId),
    All,
}

impl Lowering {
    /// Whom this command resumes.
    fn of(command: &Command) -> Lowering
        ensures { result ≡ lowering_of (action_of command.now) }
    {
        Lowering::by(command.kind(), command.thread())
    }

    /// Whom a command of a kind resumes that is about a thread.
    fn by(kind: CommandKind, thread: Option<ObjectId>) -> Lowering
        ensures { result ≡ lowering_by kind thread }
    {
        match (kind, thread) {
            (CommandKind::Resume, _) => Lowering::All,
            (CommandKind::ResumeThread, Some(resumed)) => Lowering::Thread(resumed),
            _ => Lowering::Nobody,
        }
    }

    /// Whether it resumes a thread.
    fn lowers(self, thread: ObjectId) -> bool
        ensures { result ≡ lowered_by thread.0 self }
    {
        match self {
            Lowering::Nobody => false,
            Lowering::Thread(resumed) => resumed.0 == thread.0,
            Lowering::All => true,
        }
    }
}

/// Whether a command that waits lowers the count of a thread, where the count is positive: a Resume, or one that invokes a method.
pub fn lowers(command: &Command, sizes: &IdSizes, thread: ObjectId) -> bool
    ensures { one_if result ≡ lowers_one sizes.now command.now thread.0 }
{
    match Invocation::of(command, sizes) {
        Some(invocation) => invocation.releases(thread),
        None => Lowering::of(command).lowers(thread),
    }
}

/// The commands that wait for their answers, in the order asked. Of each is kept whom it resumes; the commands themselves are read by contracts
/// only.
#[derive(Drop)]
pub(crate) struct Waiting {
    lowerings: VecDeque<Lowering>,
    /// All commands that were asked, and one item for each that was answered.
    asked: Trace<Command>,
    answered: Trace<()>,
}

impl Model for Waiting {
    ghost use Rattle.std.specs.Prelude.{List, length, drop};
    ghost use Rattle.jdwp_action.specs.Actions as actions;

    ghost Value = { List actions.Command };

    ghost use Rattle.jdwp_watch.specs.Lowerings.{AreWaiting};

    ghost view = { λ w. drop (length w.answered.items) w.asked.items };

    ghost invariant = { λ w. AreWaiting (length w.answered.items) w.asked.items w.lowerings.items };
}

impl Waiting {
    /// No command waits.
    pub fn new(alloc: Global) -> Waiting
        ensures { result ≡ [] }
    {
        Waiting {
            lowerings: VecDeque::new(alloc),
            asked: Trace::new(),
            answered: Trace::new(),
        }
    }

    /// How many wait.
    pub fn len(&self) -> usize
        ensures len { result ≡ length self.now }
        ensures small { result < 2 ^ 63 }
    {
        self.lowerings.len()
    }

    /// One more waits, behind the others.
    ///
    /// # Errors
    /// `NoMemory` where an allocation was refused; nothing has changed.
    pub fn push(&mut self, command: &Command) -> Result<(), NoMemory>
        ensures ok { OnOk result (self.new ≡ self.old ++ command.now ∷ []) }
        ensures err { OnErr result (self.new ≡ self.old) }
    {
        self.lowerings.push_back(Lowering::of(command))?;
        self.asked.push(command);
        Ok(())
    }

    /// The one that waits longest waits no more, if there is one.
    pub fn pop(&mut self)
        ensures { self.new ≡ rest self.old }
    {
        match self.lowerings.pop_front() {
            Some(_) => self.answered.push(&()),
            None => {}
        }
    }

    /// By how much they may lower the count of a thread.
    pub fn lowered(&self, thread: ObjectId) -> u64
        ensures { result ≡ all_lower self.now thread.0 }
    {
        resumes_among(&self.lowerings, thread)
    }
}

/// How many of them resume a thread.
fn resumes_among(lowerings: &VecDeque<Lowering>, thread: ObjectId) -> u64
    ensures { result ≡ count_by (lowered_by thread.0) lowerings.now.items }
{
    let resumes = lowerings
        .iter()
        .filter(|lowering| lowering.lowers(thread))
        .count();
    resumes as u64
}
