//! What a debugger knows of a target by what it read.
ghost use Rattle.std.specs.Prelude.{◌≡◌, OnErr, OnOk};
ghost use Rattle.std.specs.Map.Iter.{GivesInOrder, ShowsInOrder, deref};
ghost use Rattle.jdwp_action.specs.Actions.{action_of, thread_of};
ghost use Rattle.jdwp_event.specs.Told.{composite_thread, id_found};
ghost use Rattle.jdwp_mirror.specs.CommandKinds.{kind_of, requests_after_kind, requests_after_others, threads_after_data, threads_after_error, threads_after_event, threads_after_others};
ghost use Rattle.jdwp_mirror.specs.FaultParts.{IsData};
ghost use Rattle.jdwp_mirror.specs.declared.threads.Known.{Known};
ghost use Rattle.jdwp_mirror.specs.KnownThreads.{AreDistinct, IsOfUnknown, count_in, is_held_in};
ghost use Rattle.jdwp_mirror.specs.Mirror.{Kept};
ghost use Rattle.jdwp_mirror.specs.Messages.{Reply, Report, Ticket};
ghost use Rattle.jdwp_mirror.specs.Mirrors as mirrors;
ghost use Rattle.jdwp_mirror.specs.Mirrors.{Learned, empty_mirror};

use crate::command::{Command, CommandKind};
use crate::kept::KeptRequests;
use crate::known::KnownThreads;
use crate::requests::Requests;
use crate::threads::{Lesson, Threads};
use jdwp_event::{Composite, EventKind, Policy, has_event_of, thread_in};
use jdwp_layout::{Answer, Data};
use jdwp_value::ObjectId;
use jdwp_wire::{ErrorCode, NoMemory};
use std::alloc::Global;
use std::marker::Model;

/// The threads that a debugger knows, their suspend counts, which of them it holds for suspended, and the event requests: what the
/// packets say that it read, and nothing else.
#[derive(Drop)]
pub struct Mirror {
    threads: Threads,
    requests: Requests,
}

impl Model for Mirror {
    ghost use Rattle.jdwp_mirror.specs.Mirrors as mirrors;

    ghost Value = { mirrors.Mirror };

    ghost view = { λ m. record { threads = m.threads; requests = m.requests } };
}

impl Mirror {
    /// A mirror of nothing. Takes no memory.
    pub fn new(alloc: Global) -> Mirror
        ensures { result ≡ empty_mirror }
    {
        Mirror {
            threads: Threads::new(alloc),
            requests: Requests::new(alloc),
        }
    }

    /// The suspend count of a thread, 0 to 2,147,483,647; None where it is not known.
    pub fn count(&self, thread: ObjectId) -> Option<u32>
        ensures { result ≡ count_in self.now.threads thread.0 }
    {
        self.threads.count(thread)
    }

    /// Whether a thread is held for suspended. Such a thread is known with a count above 0.
    pub fn is_held(&self, thread: ObjectId) -> bool
        ensures { result ≡ is_held_in self.now.threads thread.0 }
    {
        self.threads.is_held(thread)
    }

    /// The threads that are known, each once, in the order in which they became known.
    pub fn known(&self) -> KnownThreads<'_>
        ensures all { result ≡ self.now.threads }
        ensures runs { GivesInOrder Known }
        ensures distinct { AreDistinct self.now.threads }
    {
        self.threads.iter()
    }

    /// The event requests, the last one asked last.
    pub fn requests(&self) -> KeptRequests<'_>
        ensures all { result ≡ self.now.requests }
        ensures runs { ShowsInOrder (deref {X = Kept}) }
    {
        self.requests.iter()
    }

    /// Forgets everything.
    pub fn clear(&mut self)
        ensures { self.new ≡ empty_mirror }
    {
        self.threads.clear();
        self.requests.clear();
    }

    /// Learns from the reply to a command.
    ///
    /// # Errors
    /// `NoMemory` where an allocation was refused; nothing has changed. A reply with an error takes no memory.
    pub fn learn_reply(
        &mut self,
        alloc: Global,
        command: &Command,
        answer: &Answer,
    ) -> Result<(), NoMemory>
        ensures ok { OnOk result ((ticket : Ticket)
            → Learned self.old (Reply ticket command.now answer.now) self.new) }
        ensures err { OnErr result (self.new ≡ self.old) }
        ensures memory { OnErr result (IsData answer.now) }
    {
        self.threads.are_sound();
        match answer {
            Answer::Error(error) => {
                self.learn_error(command, *error);
                Ok(())
            }
            Answer::Data(reply) => {
                self.learn_data(alloc, command, reply)?;
                Ok(())
            }
        }
    }

    fn learn_error(&mut self, command: &Command, error: ErrorCode)
        ensures { self.new ≡ record self.old {
          threads = threads_after_error
              (id_found (thread_of command.now)) error self.old.threads;
        } }
    {
        if let Some(thread) = command.thread() {
            if error == ErrorCode::INVALID_THREAD {
                self.threads.forget(thread);
            }
        }
    }

    fn learn_data(&mut self, alloc: Global, command: &Command, reply: &Data) -> Result<(), NoMemory>
        ensures threads { OnOk result (self.new.threads ≡ threads_after_data
            (kind_of (action_of command.now)) (id_found (thread_of command.now)) reply.now
            self.old.threads) }
        ensures requests { OnOk result (self.new.requests ≡ requests_after_kind
            (kind_of (action_of command.now)) command.now.carried reply.now self.old.requests) }
        ensures err { OnErr result (self.new ≡ self.old) }
    {
        match command.kind() {
            CommandKind::Request => self.requests.add(alloc, command.carried(), reply),
            kind => self.learn_others(alloc, kind, command, reply),
        }
    }

    fn learn_others(
        &mut self,
        alloc: Global,
        kind: CommandKind,
        command: &Command,
        reply: &Data,
    ) -> Result<(), NoMemory>
        ensures threads { OnOk result (self.new.threads ≡ threads_after_others kind
            (id_found (thread_of command.now)) reply.now self.old.threads) }
        ensures requests { OnOk result (self.new.requests
            ≡ requests_after_others kind command.now.carried reply.now self.old.requests) }
        ensures err { OnErr result (self.new ≡ self.old) }
    {
        let thread = command.thread();
        self.threads.make_ready(alloc, kind, thread, reply)?;
        self.threads.learn(Lesson::of_reply(kind, thread, reply));
        self.requests.remove_by(kind, command.carried());
        Ok(())
    }

    /// Learns from a composite.
    ///
    /// # Errors
    /// `NoMemory` where an allocation was refused, and only where the composite is of a thread that was not known; nothing has changed.
    pub fn learn_composite(&mut self, composite: &Composite) -> Result<(), NoMemory>
        ensures ok { OnOk result (Learned self.old (Report composite.now) self.new) }
        ensures err { OnErr result (self.new ≡ self.old) }
        ensures memory { OnErr result (IsOfUnknown self.old.threads
            (composite_thread composite.now)) }
    {
        self.threads.are_sound();
        if has_event_of(composite, EventKind::VmDeath) {
            self.clear();
            return Ok(());
        }
        self.learn_event(composite)?;
        Ok(())
    }

    fn learn_event(&mut self, composite: &Composite) -> Result<(), NoMemory>
        ensures ok { OnOk result (self.new ≡ record self.old {
          threads = threads_after_event
              (id_found (composite_thread composite.now)) composite.now self.old.threads;
        }) }
        ensures err { OnErr result (self.new ≡ self.old) }
        ensures memory { OnErr result (IsOfUnknown self.old.threads
            (composite_thread composite.now)) }
    {
        let thread = thread_in(composite);
        if has_event_of(composite, EventKind::ThreadDeath)
            && composite.policy() == Policy::None.byte()
        {
            if let Some(ended) = thread {
                self.threads.forget(ended);
            }
            return Ok(());
        }
        if let Some(seen) = thread {
            self.threads.meet(seen)?;
        }
        self.threads
            .learn(Lesson::of_event(thread, composite.policy()));
        Ok(())
    }
}
