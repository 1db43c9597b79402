//! Commands whose replies are deferred.
ghost use Rattle.std.specs.Prelude.{◌≡◌, ◌≤◌, ◌<◌, ◌+◌, ◌++◌, ◌∷◌, ◌&&◌, [], false, nat_lt, length, IfOk, List, Some, if◌then◌else◌};
ghost use Rattle.jdwp_wire.specs.Streams.{Message};
ghost use Rattle.jdwp_debuggee.specs.Deferring.{MOST_DEFERRED, is_deferrable, released_at};
ghost use Rattle.jdwp_target.specs.Insides.{message_of};

use jdwp_layout::numbers::{METHOD, REFERENCE_TYPE};
use jdwp_wire::NoMemory;
use std::alloc::Global;
use std::marker::Model;
use trace::Trace;

/// A command whose reply is deferred.
#[derive(Drop)]
pub(crate) struct DeferredCommand {
    pub(crate) id: u32,
    pub(crate) set: u8,
    pub(crate) number: u8,
    pub(crate) body: Vec<u8>,
}

/// Whether replies are deferred, and the commands whose replies are, the oldest first: 16 at most, for which there is room from the
/// beginning.
#[derive(Drop)]
pub(crate) struct Deferral {
    on: bool,
    commands: Vec<DeferredCommand>,
    /// Whether replies were deferred when the session began, for contracts alone.
    began: Trace<bool>,
    /// The commands that were released in the session, for contracts alone.
    released: Trace<()>,
}

impl Model for Deferral {
    ghost use Rattle.std.specs.Prelude.{◌≤◌, length, vec_capacity};
    ghost use Rattle.jdwp_target.specs.Insides as spec;
    ghost use Rattle.jdwp_target.specs.Insides.{first_mark, messages_of};

    ghost Value = { spec.Deferral };

    ghost view = { λ d. record {
      on = d.on;
      commands = messages_of d.commands.items;
      began = first_mark d.began.items;
      released = length d.released.items;
    } };

    ghost invariant = { λ d. (length d.commands.items ≤ 16) × (16 ≤ vec_capacity d.commands) };
}

impl Deferral {
    /// Nothing is deferred.
    ///
    /// # Errors
    /// `NoMemory` where an allocation was refused.
    pub(crate) fn new(alloc: Global) -> Result<Deferral, NoMemory>
        ensures { IfOk result (λ d.
            d ≡ record { on = false; commands = []; began = false; released = 0 }) }
    {
        let commands = Vec::with_capacity(alloc, 16)?;
        Ok(Deferral {
            on: false,
            commands,
            began: Trace::new(),
            released: Trace::new(),
        })
    }

    /// Replies are deferred from now on, or they are not.
    pub(crate) fn set_on(&mut self, on: bool)
        ensures { self.new ≡ record self.old { on = on } }
    {
        self.on = on;
    }

    /// A session begins, in which nothing is deferred yet.
    pub(crate) fn begin(&mut self)
        ensures { self.new ≡ record {
          on = self.old.on;
          commands = [];
          began = self.old.on;
          released = 0;
        } }
    {
        self.commands.clear();
        self.began = Trace::new();
        self.began.push(&self.on);
        self.released = Trace::new();
    }

    /// How many commands are deferred.
    pub(crate) fn len(&self) -> usize
        ensures count { result ≡ length self.now.commands }
        ensures bound { result ≤ MOST_DEFERRED }
    {
        self.commands.len()
    }

    /// Whether the next command that may be deferred is.
    fn is_taking(&self) -> bool
        ensures { result ≡ (self.now.on && nat_lt (length self.now.commands) MOST_DEFERRED) }
    {
        self.on && self.commands.len() < 16
    }

    /// Whether the next command of this set is deferred.
    pub(crate) fn takes(&self, set: u8) -> bool
        ensures { result ≡ ((self.now.on && nat_lt (length self.now.commands) MOST_DEFERRED)
            && is_deferrable set) }
    {
        self.is_taking() && may_be_deferred(set)
    }

    /// The command at this place, 0 for the oldest.
    pub(crate) fn command(&self, place: usize) -> &DeferredCommand
        requires { place < length self.now.commands }
        ensures { (others : List Message) × (released_at place self.now.commands
            ≡ Some (message_of result.now, others)) }
    {
        &self.commands[place]
    }

    /// A command is deferred, too.
    pub(crate) fn push(&mut self, command: DeferredCommand)
        requires { length self.old.commands < MOST_DEFERRED }
        ensures { self.new
            ≡ record self.old { commands = self.old.commands ++ message_of command ∷ [] } }
    {
        self.commands.push_reserved(command);
    }

    /// The command at this place is released: it is not deferred any more.
    pub(crate) fn remove(&mut self, place: usize)
        requires { place < length self.old.commands }
        ensures { (message : Message) (others : List Message) → released_at place self.old.commands
            ≡ Some (message, others) → self.new ≡ record self.old {
              commands = others;
              released = self.old.released + 1;
            } }
    {
        let _ = self.commands.remove(place);
        self.released.push(&());
    }

    /// Nothing is deferred any more, unless the session goes on.
    pub(crate) fn keep_where(&mut self, goes_on: bool)
        ensures { self.new ≡ record self.old {
          commands = (if goes_on then self.old.commands else []);
        } }
    {
        if !goes_on {
            self.commands.clear();
        }
    }
}

/// Whether commands of this set may be deferred.
fn may_be_deferred(set: u8) -> bool
    ensures { result ≡ is_deferrable set }
{
    set == REFERENCE_TYPE || set == METHOD
}
