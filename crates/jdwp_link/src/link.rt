//! A target and a debugger, and the bytes between them.
ghost use Rattle.std.specs.Prelude.{◌≡◌, ◌≤◌, ◌<◌, ◌↔◌, ◌++◌, [], Err, IfErr, IfOk, OnOk, false, get_or, length, take, true};
ghost use Rattle.jdwp_debuggee.specs.State as state;
ghost use Rattle.jdwp_debugger.specs.Debuggers.{new_debugger};
ghost use Rattle.jdwp_end.specs.Ends.{most_outgoing};
ghost use Rattle.jdwp_model.specs.Events.{Attach};
ghost use Rattle.jdwp_model.specs.World.{World, opening};
ghost use Rattle.jdwp_target.specs.Options.{Lives, LivesWithin, settings_at};
ghost use Rattle.jdwp_target.specs.Targets.{new_target};
ghost use Rattle.jdwp_target.specs.declared.setup.SetupFault.TheVariants as setup;
ghost use Rattle.jdwp_wire.specs.Limits.{standard_limits};
ghost use Rattle.jdwp_link.specs.Clauses.{CountsAtMost, HoldsSuspended, MayStop, MirrorsSeen, Ran, RanOver, StaysTrue};
ghost use Rattle.jdwp_link.specs.Links.{new_link, way_to_debugger};
ghost use Rattle.jdwp_link.specs.Outcomes.{MeetsNoFault};
ghost use Rattle.jdwp_link.specs.Stands.{IsLink, StandsFor};
ghost use Rattle.jdwp_link.specs.Told.{event_meanings};

use crate::byte_queue::ByteQueue;
use crate::events::{LinkEvent, Outcome, Stopped};
use crate::happening::keeps;
use crate::laws;
use crate::way::{Memory, Way};
use jdwp_debuggee::Settings;
use jdwp_debugger::Debugger;
use jdwp_machine::Machine;
use jdwp_target::{SetupFault, Target, TargetOptions};
use jdwp_wire::{Limits, NoMemory};
use std::alloc::Global;
use std::marker::Model;

/// A target and a debugger in one process, and the bytes between them.
#[derive(Drop)]
pub struct Link<M: Machine> {
    pub(crate) alloc: Global,
    pub(crate) target: Target<M>,
    pub(crate) debugger: Debugger,
    /// What a debugger that lost the connection had put, and did not come to the target.
    pub(crate) to_target: ByteQueue,
    /// What a target that lost the connection had put, and did not come to the debugger.
    pub(crate) to_debugger: ByteQueue,
    pub(crate) did: bool,
}

impl<M: Machine> Model for Link<M> {
    ghost use Rattle.jdwp_link.specs.Links as links;
    ghost use Rattle.jdwp_link.specs.Insides.{link_of, IsRightLink};

    ghost Value = { links.Link M };

    ghost view = { λ l. link_of l.target l.debugger l.to_target.bytes l.to_debugger.bytes l.did };

    ghost invariant = { λ l. IsRightLink M.meaning (link_of l.target l.debugger l.to_target.bytes l.to_debugger.bytes l.did) l.to_target.capacity l.to_debugger.capacity };
}

impl<M: Machine + Drop> Link<M> {
    /// A link of a target over this machine and a debugger, both before their first session, within the standard limits. The machine has 1
    /// to 64 live threads. All buffers of the link are made here.
    ///
    /// # Errors
    /// `NoMemory` where an allocation was refused.
    pub fn new(alloc: Global, machine: M, options: TargetOptions) -> Result<Link<M>, NoMemory>
        requires { LivesWithin M.meaning standard_limits machine }
        ensures link { IfOk result (λ l. l ≡ new_link (settings_at standard_limits options)
            (record { state = state.new_state (M.meaning.live machine); machine = machine })) }
        ensures stands { IfOk result (λ l. StandsFor M.meaning l (opening M.meaning machine)) }
    {
        Link::with_settings(alloc, machine, options.settings(Limits::standard()))
    }

    /// The same within these limits, which are those of both ends. At least one thread of the machine lives.
    ///
    /// # Errors
    /// `TooManyThreads` exactly where more threads live than `limits` let live, whatever memory there is; `NoMemory` where an allocation
    /// was refused.
    pub fn with_limits(
        alloc: Global,
        machine: M,
        options: TargetOptions,
        limits: Limits,
    ) -> Result<Link<M>, SetupFault>
        requires { Lives M.meaning machine }
        ensures link { IfOk result (λ l. l ≡ new_link (settings_at limits options)
            (record { state = state.new_state (M.meaning.live machine); machine = machine })) }
        ensures stands { IfOk result (λ l. StandsFor M.meaning l (opening M.meaning machine)) }
        ensures threads { (result ≡ Err setup.TooManyThreads)
            ↔ (limits.live < length (M.meaning.live machine)) }
    {
        if machine.live().len() > limits.live() as usize {
            return Err(SetupFault::TooManyThreads);
        }
        Ok(Link::with_settings(alloc, machine, options.settings(limits))?)
    }

    /// The same with these settings, within their limits: the machine has 1 to `settings.limits().live()` live threads.
    ///
    /// # Errors
    /// `NoMemory` where an allocation was refused.
    pub fn with_settings(alloc: Global, machine: M, settings: Settings) -> Result<Link<M>, NoMemory>
        requires { LivesWithin M.meaning settings.limits machine }
        ensures link { IfOk result (λ l.
            l ≡ new_link settings (record {
              state = state.new_state
                  (M.meaning.live machine);
              machine = machine;
            })) }
        ensures stands { IfOk result (λ l. StandsFor M.meaning l (opening M.meaning machine)) }
    {
        laws::may_begin(&machine, &settings);
        let kept = queues(alloc, settings.limits())?;
        let ends = ends(alloc, machine, settings)?;
        Ok(Link {
            alloc,
            target: ends.0,
            debugger: ends.1,
            to_target: kept.0,
            to_debugger: kept.1,
            did: false,
        })
    }

    /// Does these events, one after the other, and answers what is told of them, in order.
    ///
    /// # Errors
    /// `Stopped` where an event met want of memory; the link and what is told are those of the events before it. An `Ask` may stop a run;
    /// a turn of the target at a whole command that it defers, or whose data read and that is none of the twelve short ones; a release of
    /// a deferred command whose data read; a turn of the debugger at a whole message; a step at a target that is not paused and that nothing
    /// but a thread too many forbids; and a loss at the debugger where tickets wait. No other event does.
    pub fn run(&mut self, events: &[LinkEvent]) -> Result<Vec<Outcome>, Stopped>
        ensures ok { IfOk result (λ told. Ran M.meaning (event_meanings events.now) self.old
            self.new told.items) }
        ensures err { IfErr result (λ stopped. (stopped.event < length events.now)
            × Ran M.meaning (take stopped.event (event_meanings events.now)) self.old self.new
            stopped.outcomes.items) }
        ensures memory { IfErr result (λ stopped.
            MayStop M.meaning self.new (get_or (event_meanings events.now) stopped.event Attach)) }
        ensures mirror { (x : World M) → StandsFor M.meaning self.new x → MirrorsSeen self.new x }
        ensures held { HoldsSuspended self.new }
        ensures at_most { (x : World M) → StandsFor M.meaning self.new x → CountsAtMost self.new x }
        ensures stays { (x : World M) → StandsFor M.meaning self.new x
            → StaysTrue M.meaning self.new x }
    {
        self.run_over(&mut Memory::new(), events)
    }

    /// The same, where the bytes that come to an end are carried there by a way, a piece of at most 4,096 bytes at a time: each is carried
    /// whole before the end is fed with it, unless the way fails. What an end had put that lost the connection is not carried. What the way
    /// does changes nothing. A way that had failed before stays as it is.
    ///
    /// # Errors
    /// Those of `run`. Then the way carried what came to each end by the events before the one that met want of memory.
    pub fn run_over<W: Way>(
        &mut self,
        way: &mut W,
        events: &[LinkEvent],
    ) -> Result<Vec<Outcome>, Stopped>
        ensures ok { IfOk result (λ told. Ran M.meaning (event_meanings events.now) self.old
            self.new told.items) }
        ensures err { IfErr result (λ stopped. (stopped.event < length events.now)
            × Ran M.meaning (take stopped.event (event_meanings events.now)) self.old self.new
            stopped.outcomes.items) }
        ensures memory { IfErr result (λ stopped.
            MayStop M.meaning self.new (get_or (event_meanings events.now) stopped.event Attach)) }
        ensures mirror { (x : World M) → StandsFor M.meaning self.new x → MirrorsSeen self.new x }
        ensures held { HoldsSuspended self.new }
        ensures at_most { (x : World M) → StandsFor M.meaning self.new x → CountsAtMost self.new x }
        ensures stays { (x : World M) → StandsFor M.meaning self.new x
            → StaysTrue M.meaning self.new x }
        ensures carried { OnOk result (W.has_failed way.new ≡ false → RanOver M.meaning
            (event_meanings events.now) self.old self.new (W.story way.old) (W.story way.new)) }
        ensures carried_before { IfErr result (λ stopped. W.has_failed way.new ≡ false
            → RanOver M.meaning (take stopped.event (event_meanings events.now)) self.old self.new
            (W.story way.old) (W.story way.new)) }
        ensures failed { W.has_failed way.old ≡ true → way.new ≡ way.old }
    {
        let mut outcomes = Vec::new(self.alloc);
        for (place, event) in events.iter().enumerate() {
            if let Err(NoMemory) = self.happen(way, event, &mut outcomes) {
                self.session();
                return Err(Stopped {
                    event: place,
                    outcomes,
                });
            }
        }
        self.session();
        Ok(outcomes)
    }

    /// What holds of every link, whatever happened to it: it stands for a world that some list of events leads to, so that what is said of worlds
    /// and runs is said of it; what a debugger may rely on; and that neither end would refuse what stands in front of it. It changes nothing.
    pub fn session(&self)
        ensures stands { IsLink M.meaning self.now }
        ensures mirror { (x : World M) → StandsFor M.meaning self.now x → MirrorsSeen self.now x }
        ensures held { HoldsSuspended self.now }
        ensures at_most { (x : World M) → StandsFor M.meaning self.now x → CountsAtMost self.now x }
        ensures stays { (x : World M) → StandsFor M.meaning self.now x
            → StaysTrue M.meaning self.now x }
        ensures faultless { MeetsNoFault M.meaning self.now }
    {
        laws::of_sessions::<M>();
        keeps(&self.target, &self.debugger);
    }

    /// The target.
    pub fn target(&self) -> &Target<M>
        ensures { result.now ≡ self.now.target }
    {
        &self.target
    }

    /// The debugger.
    pub fn debugger(&self) -> &Debugger
        ensures { result.now ≡ self.now.debugger }
    {
        &self.debugger
    }

    /// The bytes under way to the debugger, where they lie, in three pieces of which the first comes first: what a target that lost the
    /// connection had put, and then what waits at the target.
    pub fn under_way_to_debugger(&self) -> (&[u8], &[u8], &[u8])
        ensures { result.0.now ++ (result.1.now ++ result.2.now) ≡ way_to_debugger self.now }
    {
        let (first, second) = self.target.waiting_slices();
        (self.to_debugger.as_slice(), first, second)
    }

    /// Whether the last event that `run` did was a turn that handled a message, a release that answered a command, or a step that was
    /// made; false before the first.
    pub fn did(&self) -> bool
        ensures { result ≡ self.now.did }
    {
        self.did
    }
}

/// Two empty queues, each with room for as much as an end may have put.
fn queues(alloc: Global, limits: Limits) -> Result<(ByteQueue, ByteQueue), NoMemory>
    ensures { IfOk result (λ kept. (kept.0.bytes ≡ []) × (kept.1.bytes ≡ [])
        × (kept.0.capacity ≡ most_outgoing limits) × (kept.1.capacity ≡ most_outgoing limits)) }
{
    let most = limits.packet() as usize * 2;
    let to_target = ByteQueue::new(alloc, most)?;
    let to_debugger = ByteQueue::new(alloc, most)?;
    Ok((to_target, to_debugger))
}

/// A target over this machine and a debugger, both before their first session.
fn ends<M: Machine + Drop>(
    alloc: Global,
    machine: M,
    settings: Settings,
) -> Result<(Target<M>, Debugger), NoMemory>
    requires { LivesWithin M.meaning settings.limits machine }
    ensures { IfOk result (λ ends. (ends.0 ≡ new_target settings (record {
      state = state.new_state (M.meaning.live machine);
      machine = machine;
    })) × (ends.1 ≡ new_debugger settings.limits 1)) }
{
    let debugger = Debugger::with_limits(alloc, 1, settings.limits())?;
    let target = Target::with_settings(alloc, machine, settings)?;
    Ok((target, debugger))
}
