//! Commands that a debugger asks.
ghost use Rattle.std.specs.Prelude.{◌≡◌, ◌==◌, ◌&&◌, IfOk};
ghost use Rattle.jdwp_action.specs.Actions as actions;
ghost use Rattle.jdwp_action.specs.Actions.{action_of, clear_action, first_object, object_in, set_action, thread_of};
ghost use Rattle.jdwp_mirror.specs.CommandKinds.{kind_of, other_kind_of, request_kind_of, thread_kind_of};
ghost use Rattle.jdwp_event.specs.Told.{id_found};
ghost use Rattle.jdwp_mirror.specs.Commands.{carried_meaning};
ghost use Rattle.jdwp_layout.specs.Meanings.{meanings};

use jdwp_layout::numbers::{
    ALL_THREADS, CLEAR_ALL_BREAKPOINTS, CLEAR_REQUEST, DISPOSE, EVENT_REQUEST, EXIT, ID_SIZES,
    RESUME, RESUME_THREAD, SET_REQUEST, STACK_FRAME, SUSPEND, SUSPEND_COUNT, SUSPEND_THREAD,
    THREAD_REFERENCE, VIRTUAL_MACHINE,
};
use jdwp_layout::{Data, Datum, Scalar};
use jdwp_value::ObjectId;
use jdwp_wire::NoMemory;
use std::alloc::Global;
use std::marker::Model;

/// What a command carries.
#[derive(Debug, Drop)]
pub enum Carried {
    /// Data in the layout of the command's row.
    Content(Data),
    /// Bytes, in a row whose data are not read.
    Raw(Vec<u8>),
}

/// A command: its set, its number and what it carries (JDWP specification, "Protocol Details").
#[derive(Debug, Drop)]
pub struct Command {
    set: u8,
    number: u8,
    carried: Carried,
}

impl Model for Command {
    ghost use Rattle.jdwp_action.specs.Actions as actions;

    ghost Value = { actions.Command };

    ghost use Rattle.jdwp_mirror.specs.Commands.{carried_meaning};

    ghost view = { λ c. record { set = c.set; number = c.number; carried = carried_meaning c.carried } };
}

/// What a command asks, as far as a mirror learns by its reply.
#[derive(Clone, Copy, Debug, PartialEq, Eq)]
pub enum CommandKind {
    /// VirtualMachine.Suspend.
    Suspend,
    /// VirtualMachine.Resume.
    Resume,
    /// VirtualMachine.Dispose.
    Dispose,
    /// VirtualMachine.Exit.
    Exit,
    /// EventRequest.Set with a kind, a policy and modifiers.
    Request,
    /// EventRequest.Clear with a kind and an id.
    Clear,
    /// EventRequest.ClearAllBreakpoints.
    ClearBreakpoints,
    /// ThreadReference.Suspend of a thread.
    SuspendThread,
    /// ThreadReference.Resume of a thread.
    ResumeThread,
    /// ThreadReference.SuspendCount of a thread.
    SuspendCount,
    /// VirtualMachine.AllThreads.
    AllThreads,
    /// VirtualMachine.IDSizes.
    IdSizes,
    /// Any other command: its reply teaches nothing.
    Other,
}

impl Command {
    /// A command that carries data.
    pub fn new(set: u8, number: u8, items: Vec<Datum>) -> Command
        ensures { result ≡ record {
          set = set;
          number = number;
          carried = actions.Content
              (meanings items.items);
        } }
    {
        Command {
            set,
            number,
            carried: Carried::Content(Data::new(items)),
        }
    }

    /// A command that carries bytes, of a row whose data are not read.
    pub fn raw(set: u8, number: u8, bytes: Vec<u8>) -> Command
        ensures { result ≡ record {
          set = set;
          number = number;
          carried = actions.Raw
              bytes.items;
        } }
    {
        Command {
            set,
            number,
            carried: Carried::Raw(bytes),
        }
    }

    /// The command set.
    pub fn set(&self) -> u8
        ensures { result ≡ self.now.set }
    {
        self.set
    }

    /// The command's number in its set.
    pub fn number(&self) -> u8
        ensures { result ≡ self.now.number }
    {
        self.number
    }

    /// What it carries.
    pub fn carried(&self) -> &Carried
        ensures { carried_meaning result.now ≡ self.now.carried }
    {
        &self.carried
    }

    /// Another command that asks the same.
    ///
    /// # Errors
    /// `NoMemory` where an allocation was refused.
    pub fn copied(&self, alloc: Global) -> Result<Command, NoMemory>
        ensures { IfOk result (λ copy. copy ≡ self.now) }
    {
        let carried = match &self.carried {
            Carried::Content(data) => Carried::Content(data.copied(alloc)?),
            Carried::Raw(bytes) => Carried::Raw(Vec::from_slice(alloc, bytes)?),
        };
        Ok(Command {
            set: self.set,
            number: self.number,
            carried,
        })
    }

    fn is(&self, set: u8, number: u8) -> bool
        ensures { result ≡ ((self.now.set == set) && (self.now.number == number)) }
    {
        self.set == set && self.number == number
    }

    /// The thread that a command of ThreadReference or StackFrame is about; None for any other command.
    pub fn thread(&self) -> Option<ObjectId>
        ensures { result ≡ id_found (thread_of self.now) }
    {
        if self.set == THREAD_REFERENCE || self.set == STACK_FRAME {
            first_object_of(&self.carried)
        } else {
            None
        }
    }

    /// What it asks, as far as a mirror learns by its reply.
    pub fn kind(&self) -> CommandKind
        ensures { result ≡ kind_of (action_of self.now) }
    {
        match self.thread() {
            Some(_) => self.thread_kind(),
            None => self.other_kind(),
        }
    }

    fn thread_kind(&self) -> CommandKind
        ensures { result ≡ thread_kind_of self.now }
    {
        if self.is(THREAD_REFERENCE, SUSPEND_THREAD) {
            CommandKind::SuspendThread
        } else if self.is(THREAD_REFERENCE, RESUME_THREAD) {
            CommandKind::ResumeThread
        } else if self.is(THREAD_REFERENCE, SUSPEND_COUNT) {
            CommandKind::SuspendCount
        } else {
            CommandKind::Other
        }
    }

    fn other_kind(&self) -> CommandKind
        ensures { result ≡ other_kind_of self.now }
    {
        if self.is(VIRTUAL_MACHINE, SUSPEND) {
            CommandKind::Suspend
        } else if self.is(VIRTUAL_MACHINE, RESUME) {
            CommandKind::Resume
        } else if self.is(VIRTUAL_MACHINE, DISPOSE) {
            CommandKind::Dispose
        } else if self.is(VIRTUAL_MACHINE, EXIT) {
            CommandKind::Exit
        } else if self.is(VIRTUAL_MACHINE, ALL_THREADS) {
            CommandKind::AllThreads
        } else if self.is(VIRTUAL_MACHINE, ID_SIZES) {
            CommandKind::IdSizes
        } else {
            self.request_kind()
        }
    }

    fn request_kind(&self) -> CommandKind
        ensures { result ≡ request_kind_of self.now }
    {
        if self.is(EVENT_REQUEST, SET_REQUEST) {
            set_kind(&self.carried)
        } else if self.is(EVENT_REQUEST, CLEAR_REQUEST) {
            clear_kind(&self.carried)
        } else if self.is(EVENT_REQUEST, CLEAR_ALL_BREAKPOINTS) {
            CommandKind::ClearBreakpoints
        } else {
            CommandKind::Other
        }
    }
}

fn first_object_of(carried: &Carried) -> Option<ObjectId>
    ensures { result ≡ id_found (object_in (carried_meaning carried.now)) }
{
    match carried {
        Carried::Content(data) => first_object_in(data.items()),
        Carried::Raw(_) => None,
    }
}

fn first_object_in(items: &[Datum]) -> Option<ObjectId>
    ensures { result ≡ id_found (first_object (meanings items.now)) }
{
    match items {
        [Datum::One(Scalar::ObjectId(id)), ..] => Some(*id),
        _ => None,
    }
}

fn set_kind(carried: &Carried) -> CommandKind
    ensures { result ≡ kind_of (set_action (carried_meaning carried.now)) }
{
    match carried {
        Carried::Content(data) => set_kind_in(data.items()),
        Carried::Raw(_) => CommandKind::Other,
    }
}

fn set_kind_in(items: &[Datum]) -> CommandKind
    ensures { result ≡ kind_of (set_action (actions.Content (meanings items.now))) }
{
    match items {
        [
            Datum::One(Scalar::Byte(_)),
            Datum::One(Scalar::Byte(_)),
            Datum::Many(_),
        ] => CommandKind::Request,
        _ => CommandKind::Other,
    }
}

fn clear_kind(carried: &Carried) -> CommandKind
    ensures { result ≡ kind_of (clear_action (carried_meaning carried.now)) }
{
    match carried {
        Carried::Content(data) => clear_kind_in(data.items()),
        Carried::Raw(_) => CommandKind::Other,
    }
}

fn clear_kind_in(items: &[Datum]) -> CommandKind
    ensures { result ≡ kind_of (clear_action (actions.Content (meanings items.now))) }
{
    match items {
        [Datum::One(Scalar::Byte(_)), Datum::One(Scalar::Int(_))] => CommandKind::Clear,
        _ => CommandKind::Other,
    }
}
