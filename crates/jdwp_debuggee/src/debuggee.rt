//! The debuggee: its threads, its event requests, and the machine that it runs.
ghost use Rattle.std.specs.Prelude.{◌≡◌, ◌≤◌, ◌↔◌, ℕ, false, None, IfNone, IfOk, IfSome, IsSome, OnSome, is_some};
ghost use Rattle.jdwp_event.specs.Composites.{vm_start};
ghost use Rattle.jdwp_event.specs.Constants.{policy_byte};
ghost use Rattle.jdwp_machine.specs.Meanings.{has, numbers};
ghost use Rattle.jdwp_wire.specs.Numbers.{id_refusal};
ghost use Rattle.jdwp_debuggee.specs.Debuggees.{visiting, with_state};
ghost use Rattle.jdwp_debuggee.specs.Sending.{FitsPacket};
ghost use Rattle.jdwp_debuggee.specs.State as spec;
ghost use Rattle.jdwp_debuggee.specs.StepParts.{policy_at_start};
ghost use Rattle.jdwp_debuggee.specs.Steps.{handshaken, start_event};
ghost use Rattle.jdwp_debuggee.specs.Visits.{visits_greeted};

use crate::settings::Settings;
use crate::steps::suspend_by;
use crate::threads::Threads;
use jdwp_event::{Policy, Requests};
use jdwp_machine::{Machine, Profile};
use jdwp_value::ObjectId;
use jdwp_wire::{IdSizes, NoMemory};
use std::alloc::Global;
use std::marker::Model;

/// The debuggee behind a target: a machine, the suspend counts of its threads, and event requests.
///
/// Contracts see what it was made with, its moment, which is the state of the debuggee and that of the machine, and the visits.
#[derive(Drop)]
pub struct Debuggee<M: Machine> {
    pub(crate) settings: Settings,
    pub(crate) machine: M,
    pub(crate) threads: Threads,
    pub(crate) requests: Requests,
    pub(crate) held: bool,
    pub(crate) handshaken: bool,
    pub(crate) alive: bool,
    pub(crate) next_request: u32,
    pub(crate) next_packet: u32,
    /// The threads that an event stopped, and that are suspended since.
    pub(crate) stopped: Vec<ObjectId>,
}

impl<M: Machine> Model for Debuggee<M> {
    ghost use Rattle.jdwp_debuggee.specs.Debuggees.{Debuggee, IsKept};
    ghost use Rattle.jdwp_machine.specs.Meanings.{numbers};

    ghost Value = { Debuggee M };

    ghost view = { λ d. record {
      settings = d.settings;
      moment = record {
        state = record {
          threads = d.threads.list;
          requests = d.requests;
          held = d.held;
          handshaken = d.handshaken;
          alive = d.alive;
          next_request = d.next_request;
          next_packet = d.next_packet;
          stopped = numbers d.stopped.items;
        };
        machine = d.machine;
      };
      visits = d.threads.visits;
    } };

    ghost invariant = { λ d. IsKept M.meaning (record {
      settings = d.settings;
      moment = record {
        state = record {
          threads = d.threads.list;
          requests = d.requests;
          held = d.held;
          handshaken = d.handshaken;
          alive = d.alive;
          next_request = d.next_request;
          next_packet = d.next_packet;
          stopped = numbers d.stopped.items;
        };
        machine = d.machine;
      };
      visits = 0;
    }) };
}

impl<M: Machine> Debuggee<M> {
    /// The profile.
    pub fn profile(&self) -> Profile
        ensures { result ≡ self.now.settings.profile }
    {
        self.settings.profile()
    }

    /// A debuggee before its first session: all threads of the machine run.
    ///
    /// # Errors
    /// `NoMemory` where an allocation was refused, and where more than 4,294,967,295 threads live.
    pub fn new(alloc: Global, machine: M, settings: Settings) -> Result<Debuggee<M>, NoMemory>
    where
        M: Drop,
        ensures { IfOk result (λ d.
            d ≡ record {
              settings = settings;
              moment = record {
                state = spec.new_state
                    (M.meaning.live machine);
                machine = machine;
              };
              visits = 0;
            }) }
    {
        let threads = Threads::new(alloc, machine.live())?;
        settings.count_limit();
        settings.limits().packet();
        settings.limits().requests();
        Ok(Debuggee {
            settings,
            machine,
            threads,
            requests: Requests::new(alloc),
            held: false,
            handshaken: false,
            alive: true,
            next_request: 1,
            next_packet: 1,
            stopped: Vec::new(alloc),
        })
    }

    /// The suspend count of a thread, 0 to the count limit, or None where it is not alive.
    pub fn count(&self, thread: ObjectId) -> Option<u32>
        ensures value { result ≡ spec.count_of self.now.moment.state thread.0 }
        ensures bound { IfSome result (λ count. count ≤ self.now.settings.count_limit) }
    {
        self.threads.count(thread)
    }

    /// Whether the machine is alive.
    pub fn is_alive(&self) -> bool
        ensures { result ≡ self.now.moment.state.alive }
    {
        self.alive
    }

    /// How many threads the last of these visited that was not refused, 0 before the first: Suspend and Resume of all threads, and an
    /// event whose policy suspends all. They are exactly the threads that it turned, from running to suspended or the other way round.
    pub fn visits(&self) -> u32
        ensures { result ≡ self.now.visits }
    {
        self.threads.visits()
    }

    /// The id of the target's next packet.
    pub fn next_packet(&self) -> u32
        ensures { result ≡ self.now.moment.state.next_packet }
    {
        self.next_packet
    }

    /// The id of the target's next packet, which is taken: the packet after it has the next id.
    pub fn take_packet_id(&mut self) -> u32
        ensures id { result ≡ self.old.moment.state.next_packet }
        ensures after { self.new ≡ with_state (spec.with_packet self.old.moment.state) self.old }
    {
        let id = self.next_packet;
        self.next_packet = id.wrapping_add(1);
        id
    }

    /// The threads that live, in the machine's order: exactly those that have a count.
    pub fn live(&self) -> &[ObjectId]
        ensures live { numbers result.now ≡ M.meaning.live self.now.moment.machine }
        ensures counted { (t : ℕ) → has (numbers result.now) t
            ≡ is_some (spec.count_of self.now.moment.state t) }
    {
        self.machine.live()
    }

    /// The event requests, by rising id.
    pub fn requests(&self) -> &Requests
        ensures { result.now ≡ self.now.moment.state.requests }
    {
        &self.requests
    }

    /// How many bytes each kind of id takes.
    pub fn sizes(&self) -> IdSizes
        ensures { result ≡ M.meaning.sizes self.now.moment.machine }
    {
        self.machine.sizes()
    }

    /// The end of a session, by Dispose or by a loss: every suspend count is 0, no event stopped anybody, there are no requests, and events are not
    /// held.
    pub fn reset(&mut self)
        ensures { self.new ≡ with_state (spec.reset self.old.moment.state) self.old }
    {
        self.threads.clear_counts();
        self.requests.clear();
        self.stopped.clear();
        self.held = false;
    }

    /// A handshake is completed. The first of the target's life answers what VM_START says, whose policy ALL suspends every thread;
    /// the id of its thread fits the width of object ids, and the event can be written and fits a packet. A later one is None, and
    /// nothing changes.
    pub fn handshake(&mut self) -> Option<Start>
        ensures first { IsSome result ↔ self.old.moment.state.handshaken ≡ false }
        ensures later { IfNone result (self.new ≡ self.old) }
        ensures state { OnSome result (self.new
            ≡ visiting (visits_greeted self.old.settings self.old.moment.state self.old.visits)
            (with_state (handshaken self.old.settings self.old.moment.state) self.old)) }
        ensures says { IfSome result (λ start. vm_start (policy_byte start.policy) start.thread.0
            ≡ start_event self.old.settings self.old.moment.state) }
        ensures packet { IfSome result (λ start. start.packet ≡ self.old.moment.state.next_packet) }
        ensures fits { IfSome result (λ start.
            id_refusal (M.meaning.sizes self.old.moment.machine).object start.thread.0 ≡ None) }
        ensures report { OnSome result (FitsPacket (M.meaning.sizes self.old.moment.machine)
            self.old.settings.limits.packet (start_event self.old.settings self.old.moment.state)) }
    {
        if self.handshaken {
            return None;
        }
        let start = Start {
            policy: start_policy(self.settings.start_all()),
            thread: self.threads.least(),
            packet: self.next_packet,
        };
        suspend_by(&mut self.threads, start.policy.byte(), start.thread);
        self.handshaken = true;
        self.next_packet = self.next_packet.wrapping_add(1);
        Some(start)
    }
}

/// The policy of VM_START.
fn start_policy(start_all: bool) -> Policy
    ensures { policy_byte result ≡ policy_at_start start_all }
{
    if start_all { Policy::All } else { Policy::None }
}

/// What VM_START says: its policy, the live thread of least id, and the id of its packet.
#[derive(Clone, Copy, Debug, PartialEq, Eq)]
pub struct Start {
    /// ALL where all threads begin suspended, else NONE.
    pub policy: Policy,
    /// The live thread of least id.
    pub thread: ObjectId,
    /// The id of the packet.
    pub packet: u32,
}
