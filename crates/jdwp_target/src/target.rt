//! The debuggee's end of a session.
ghost use Rattle.std.specs.Prelude.{◌≡◌, ◌≤◌, ◌<◌, ◌++◌, ◌↔◌, ◌||◌, ℕ, [], true, false, Err, IfOk, IfSome, IsTrue, is_some, length, take, drop, min};
ghost use Rattle.jdwp_wire.specs.Bytes.{IsBytes};
ghost use Rattle.jdwp_wire.specs.Limits.{standard_limits};
ghost use Rattle.jdwp_wire.specs.Streams.{More};
ghost use Rattle.jdwp_end.specs.Ends as ends;
ghost use Rattle.jdwp_end.specs.Ends.{front_of, most_outgoing, room_of};
ghost use Rattle.jdwp_machine.specs.Meanings.{has, numbers};
ghost use Rattle.jdwp_debuggee.specs.State as spec;
ghost use Rattle.jdwp_debuggee.specs.StepParts.{is_still};
ghost use Rattle.jdwp_target.specs.Options.{Lives, LivesWithin, settings_at};
ghost use Rattle.jdwp_target.specs.declared.setup.SetupFault.TheVariants as setup;
ghost use Rattle.jdwp_target.specs.Deeds.{DefersFew};
ghost use Rattle.jdwp_target.specs.Protocol.{IsOver};
ghost use Rattle.jdwp_target.specs.Turns.{is_frozen};
ghost use Rattle.jdwp_target.specs.Targets.{Ran, full_standing, lost_target, new_target, opened_target, with_fed, with_taken};

use crate::deferral::Deferral;
use crate::options::TargetOptions;
use crate::setup::SetupFault;
use jdwp_debuggee::{Debuggee, Settings};
use jdwp_end::{End, Phase};
use jdwp_event::Requests;
use jdwp_machine::Machine;
use jdwp_value::ObjectId;
use jdwp_wire::{ErrorCode, FrameFault, Limits, NoMemory};
use std::alloc::Global;
use std::marker::Model;
use thiserror::Error;
use trace::Trace;

/// What a turn did.
#[derive(Clone, Copy, Debug, PartialEq, Eq)]
pub enum Turn {
    /// Nothing: the end is closed or paused, or no message is whole.
    Nothing,
    /// It handled the handshake.
    Hello,
    /// It replied to the command of this id with this error code.
    Replied(u32, ErrorCode),
    /// It took a reply packet off, which means nothing to a target.
    Ignored,
    /// It took the command of this id off, and deferred its reply: `release` sends it.
    Deferred(u32),
}

/// Why a turn or a release failed.
#[derive(Clone, Copy, Debug, PartialEq, Eq, Error)]
pub enum TargetFault {
    /// The bytes in front begin no message. The end is as after `lose`.
    #[error("{0}")]
    Frame(FrameFault),
    /// An allocation was refused. Nothing changed.
    #[error("no memory")]
    NoMemory,
}

impl From<NoMemory> for TargetFault {
    ghost use Rattle.jdwp_target.specs.declared.target.TargetFault.TheVariants as fault;

    ghost from_gives = { λ _ f. f ≡ fault.NoMemory };

    fn from(_error: NoMemory) -> TargetFault {
        TargetFault::NoMemory
    }
}

/// What a step of a thread did.
#[derive(Clone, Copy, Debug, PartialEq, Eq)]
pub enum Stepped {
    /// Nothing: the end is paused, or the thread may not step.
    Frozen,
    /// It made a step, and nothing was reported.
    Quiet,
    /// What it did was reported.
    Reported,
    /// It ended.
    Ended,
}

/// A target over a machine: the debuggee, and its end of a session.
#[derive(Drop)]
pub struct Target<M: Machine> {
    pub(crate) alloc: Global,
    pub(crate) debuggee: Debuggee<M>,
    pub(crate) deferral: Deferral,
    /// The debuggee as it was when the session began, for contracts alone.
    pub(crate) began: Trace<Debuggee<M>>,
    /// The phase in which the session began, for contracts alone.
    pub(crate) phases: Trace<Phase>,
    /// The steps that were made in the session, for contracts alone.
    pub(crate) steps: Trace<()>,
    pub(crate) end: End,
}

impl<M: Machine> Model for Target<M> {
    ghost use Rattle.std.specs.Prelude.{length};
    ghost use Rattle.jdwp_target.specs.Targets as targets;
    ghost use Rattle.jdwp_target.specs.Insides.{target_of, IsRightTarget};

    ghost Value = { targets.Target M };

    ghost view = { λ t. target_of t.debuggee t.deferral t.began.items t.phases.items (length t.steps.items) t.end };

    ghost invariant = { λ t. IsRightTarget M.meaning t.debuggee t.deferral t.began.items t.phases.items (length t.steps.items) t.end };
}

impl<M: Machine + Drop> Target<M> {
    /// A closed target over this machine, before its first session, within the standard limits. The machine has 1 to 64 live threads. All
    /// buffers of the target are made here.
    ///
    /// # Errors
    /// `NoMemory` where an allocation was refused.
    pub fn new(alloc: Global, machine: M, options: TargetOptions) -> Result<Target<M>, NoMemory>
        requires { LivesWithin M.meaning standard_limits machine }
        ensures { IfOk result (λ t. t ≡ new_target (settings_at standard_limits options)
            (record { state = spec.new_state (M.meaning.live machine); machine = machine })) }
    {
        Target::with_settings(alloc, machine, options.settings(Limits::standard()))
    }

    /// The same within these limits. At least one thread of the machine lives.
    ///
    /// # Errors
    /// `TooManyThreads` exactly where more threads live than `limits` let live, whatever memory there is; `NoMemory` where an allocation
    /// was refused.
    pub fn with_limits(
        alloc: Global,
        machine: M,
        options: TargetOptions,
        limits: Limits,
    ) -> Result<Target<M>, SetupFault>
        requires { Lives M.meaning machine }
        ensures target { IfOk result (λ t.
            t ≡ new_target (settings_at limits options) (record {
              state = spec.new_state
                  (M.meaning.live machine);
              machine = machine;
            })) }
        ensures threads { (result ≡ Err setup.TooManyThreads)
            ↔ (limits.live < length (M.meaning.live machine)) }
    {
        if machine.live().len() > limits.live() as usize {
            return Err(SetupFault::TooManyThreads);
        }
        match Target::with_settings(alloc, machine, options.settings(limits)) {
            Ok(target) => Ok(target),
            Err(NoMemory) => Err(SetupFault::NoMemory),
        }
    }

    /// The same with these settings, within their limits: the machine has 1 to `settings.limits().live()` live threads.
    ///
    /// # Errors
    /// `NoMemory` where an allocation was refused.
    pub fn with_settings(
        alloc: Global,
        machine: M,
        settings: Settings,
    ) -> Result<Target<M>, NoMemory>
        requires { LivesWithin M.meaning settings.limits machine }
        ensures { IfOk result (λ t.
            t ≡ new_target settings (record {
              state = spec.new_state
                  (M.meaning.live machine);
              machine = machine;
            })) }
    {
        let end = End::new(alloc, settings.limits())?;
        let deferral = Deferral::new(alloc)?;
        let debuggee = Debuggee::new(alloc, machine, settings)?;
        let mut began = Trace::new();
        began.push(&debuggee);
        let mut phases = Trace::new();
        phases.push(&Phase::Closed);
        let steps = Trace::new();
        Ok(Target {
            alloc,
            debuggee,
            deferral,
            began,
            phases,
            steps,
            end,
        })
    }

    /// Whether a session is open: accepted, and not closed since.
    pub fn is_open(&self) -> bool
        ensures { result ≡ ends.is_open self.now.end }
    {
        self.end.is_open()
    }

    /// Whether the machine lives: it does until a command or its last thread ends it.
    pub fn is_alive(&self) -> bool
        ensures { result ≡ self.now.moment.state.alive }
    {
        self.debuggee.is_alive()
    }

    /// Whether no thread may step, whichever it is, so that a step of each would be `Frozen`: where the end is paused, before the first
    /// handshake, where the machine is dead, where events are held, where each live thread is suspended, and where one stands at the count
    /// limit. However many threads live, it looks at one of them at the most.
    pub fn is_still(&self) -> bool
        ensures exact { result ≡ (ends.is_paused self.now.end
            || is_still self.now.settings self.now.moment.state) }
        ensures frozen { result ≡ true → (t : ℕ) → is_frozen M.meaning t self.now ≡ true }
    {
        self.end.is_paused() || self.debuggee.is_still()
    }

    /// Whether the target noticed that the connection is lost, in the session that is open, or else in the last one. `lose`, and bytes that
    /// begin no message, make it so, and `accept` begins without.
    pub fn has_lost(&self) -> bool
        ensures { result ≡ self.now.end.session.lost }
    {
        self.end.has_lost()
    }

    /// The suspend count of a thread, 0 to the count limit of the settings; None where it is not alive.
    pub fn count(&self, thread: ObjectId) -> Option<u32>
        ensures value { result ≡ spec.count_of self.now.moment.state thread.0 }
        ensures bound { IfSome result (λ count. count ≤ self.now.settings.count_limit) }
    {
        self.debuggee.count(thread)
    }

    /// How many threads the last of these visited that was not refused, 0 before the first: VirtualMachine's Suspend and Resume, and
    /// an event whose suspend policy is ALL, VM_START too (JDWP specification, "Protocol Details"). They are exactly the threads that
    /// it turned, from running to suspended or the other way round.
    pub fn visits(&self) -> u32
        ensures { result ≡ self.now.visits }
    {
        self.debuggee.visits()
    }

    /// The threads that live, in the machine's order: exactly those that have a count.
    pub fn live(&self) -> &[ObjectId]
        ensures live { numbers result.now ≡ M.meaning.live self.now.moment.machine }
        ensures counted { (t : ℕ) → has (numbers result.now) t
            ≡ is_some (spec.count_of self.now.moment.state t) }
    {
        self.debuggee.live()
    }

    /// The event requests, by rising id.
    pub fn requests(&self) -> &Requests
        ensures { result.now ≡ self.now.moment.state.requests }
    {
        self.debuggee.requests()
    }

    /// Begins a session: both buffers are empty, nothing is deferred, and the handshake is waited for. False, and nothing changes, where a session is
    /// open or the machine is dead.
    pub fn accept(&mut self) -> bool
        ensures when { IsTrue result ↔ ((ends.is_open self.old.end ≡ false)
            × (self.old.moment.state.alive ≡ true)) }
        ensures opened { IsTrue result → self.new ≡ opened_target self.old }
        ensures refused { result ≡ false → self.new ≡ self.old }

        // A session begins: no byte came, none waits to leave, no reply is deferred, and no loss is noticed.
        ensures unread { IsTrue result → self.new.end.incoming ≡ [] }
        ensures unsent { IsTrue result → self.new.end.outgoing ≡ [] }
        ensures none_deferred { IsTrue result → self.new.deferred ≡ [] }
        ensures unlost { IsTrue result → self.new.end.session.lost ≡ false }
        // The machine, the suspend counts of its threads and the event requests are as they were.
        ensures keeps { self.new.moment ≡ self.old.moment }
    {
        if self.end.is_open() || !self.debuggee.is_alive() {
            return false;
        }
        self.end.open();
        self.deferral.begin();
        self.began = Trace::new();
        self.began.push(&self.debuggee);
        self.phases = Trace::new();
        self.phases.push(&Phase::AwaitingHandshake);
        self.steps = Trace::new();
        true
    }

    /// How many bytes `feed` would take, 0 at a closed end.
    pub fn room(&self) -> usize
        ensures room { result ≡ room_of self.now.end }
        ensures bound { length self.now.end.incoming ≤ self.now.end.limits.packet }
    {
        self.end.room()
    }

    /// Takes as many of the bytes as fit, and answers how many.
    pub fn feed(&mut self, bytes: &[u8]) -> usize
        ensures count { result ≡ min (length bytes.now) (room_of self.old.end) }
        ensures fed { self.new ≡ with_fed (take result bytes.now) self.old }
        // They stand behind those that came before, in order, and nothing is carried out yet.
        ensures behind { self.new.end.incoming ≡ self.old.end.incoming ++ take result bytes.now }
        ensures keeps { self.new.moment ≡ self.old.moment }
    {
        self.end.feed(bytes)
    }

    /// How many bytes wait to leave.
    pub fn waiting(&self) -> usize
        ensures count { result ≡ length self.now.end.outgoing }
        ensures bound { result ≤ most_outgoing self.now.end.limits }
    {
        self.end.waiting()
    }

    /// All bytes that wait to leave, where they lie, in two pieces of which the first leaves first. It is empty only where none waits.
    pub fn waiting_slices(&self) -> (&[u8], &[u8])
        ensures all { result.0.now ++ result.1.now ≡ self.now.end.outgoing }
        ensures none { result.0.now ≡ [] → self.now.end.outgoing ≡ [] }
    {
        self.end.waiting_slices()
    }

    /// So many of the bytes that wait, the first, have left, or all where no more wait.
    pub fn leave(&mut self, count: usize)
        ensures { self.new ≡ with_taken (take count self.old.end.outgoing) self.old }
    {
        self.end.leave(count);
    }

    /// Moves as many of the bytes that wait to the front of `out` as fit, and answers how many.
    pub fn take(&mut self, out: &mut [u8]) -> usize
        ensures count { result ≡ min (length out.old) (length self.old.end.outgoing) }
        ensures bytes { out.new ≡ take result self.old.end.outgoing ++ drop result out.old }
        ensures taken { self.new ≡ with_taken (take result self.old.end.outgoing) self.old }
        // They are the beginning of what waited, and the rest still waits.
        ensures first { take result out.new ++ self.new.end.outgoing ≡ self.old.end.outgoing }
    {
        self.end.take(out)
    }

    /// The connection is lost: the end is closed, both buffers are empty, nothing is deferred, every suspend count is 0, there are no
    /// requests, and events are not held.
    pub fn lose(&mut self)
        ensures lost { self.new ≡ lost_target self.old }

        // Each live thread's suspend count is 0, there are no event requests, and the end is closed. The machine stays.
        ensures over { IsOver self.old self.new }
        // The loss is noticed; what came and was not handled is dropped, and what waited to leave never does.
        ensures noticed { self.new.end.session.lost ≡ true }
        ensures unread { self.new.end.incoming ≡ [] }
        ensures unsent { self.new.end.outgoing ≡ [] }
        ensures none_deferred { self.new.deferred ≡ [] }
    {
        self.debuggee.reset();
        self.deferral.keep_where(false);
        self.end.lose();
    }

    /// What holds after every list of calls in a session: the whole run; that all that is deferred are commands that may be, 16 at
    /// most, and none where no session is established; that what came are bytes; that an end at which nothing waits is not paused; and
    /// that an open end that is not paused and asks for more has room for a byte. It changes nothing.
    pub fn session(&self)
        ensures ran { Ran M.meaning self.now }
        ensures few { DefersFew (full_standing self.now) }
        ensures bytes { IsBytes self.now.end.incoming }
        ensures flows { self.now.end.outgoing ≡ [] → ends.is_paused self.now.end ≡ false }
        ensures room { front_of self.now.end ≡ More → ends.is_open self.now.end ≡ true
            → ends.is_paused self.now.end ≡ false → 0 < room_of self.now.end }
    {
        self.end.invariants();
    }
}
