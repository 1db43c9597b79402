//! Steps of threads: what happens, what is sent, and who is suspended by it (JDWP specification, "Protocol Details": the command
//! Composite of the set Event).
ghost use Rattle.jdwp_wire.specs.Numbers.{greatest_int};
ghost use Rattle.std.specs.Prelude.{◌≡◌, ◌≤◌, ◌==◌, true, false, length, IfOk, IfErr, OnOk, OnErr};
ghost use Rattle.std.specs.List.{filter};
ghost use Rattle.jdwp_event.specs.Composites.{gathered};
ghost use Rattle.jdwp_event.specs.Occurrences.{started, runs_out};
ghost use Rattle.jdwp_machine.specs.Meanings.{has};
ghost use Rattle.jdwp_debuggee.specs.Entries.{AllAtMost};
ghost use Rattle.jdwp_debuggee.specs.State.{changed, is_marked, is_other};
ghost use Rattle.jdwp_debuggee.specs.Steps.{may_step, raised_by};
ghost use Rattle.jdwp_debuggee.specs.Visits.{visits_at, visits_for};
ghost use Rattle.jdwp_debuggee.specs.StepParts.{AreFew, HasRoom, SendFits, Steps, StepsOrNot, is_full_by, is_ready, is_still, number_of, packet_after, raised_for, unless_last, with_new};

use crate::debuggee::Debuggee;
use crate::stopped::{make_stop_room, stop_for};
use crate::threads::Threads;
use jdwp_event::{Composite, Happening, Occurrence, Policy, Requests, count_gathered, gather};
use jdwp_machine::{Machine, has_run_out};
use jdwp_value::ObjectId;
use jdwp_wire::NoMemory;
use std::alloc::Global;

/// What a step did.
#[derive(Drop)]
pub struct StepDone {
    /// What is sent, if any request reports what happened.
    pub sends: Option<Composite>,
    /// Whether the thread ended.
    pub ends: bool,
    /// Whether it was the last, so that the machine died.
    pub dies: bool,
}

/// The thread that a happening starts.
fn thread_started(happening: &Happening) -> Option<ObjectId>
    ensures { number_of result ≡ started happening.now }
{
    match happening.occurrence() {
        Occurrence::Started => Some(happening.thread()),
        _ => None,
    }
}

/// Makes room for a thread that starts.
fn make_room(threads: &mut Threads, started: Option<ObjectId>) -> Result<(), NoMemory>
    ensures same { threads.new.list ≡ threads.old.list }
    ensures visits { threads.new.visits ≡ threads.old.visits }
    ensures room { OnOk result (HasRoom (number_of started) threads.new) }
{
    match started {
        Some(_) => threads.make_room(),
        None => Ok(()),
    }
}

/// Adds a thread that starts, for which there is room.
fn add_started(threads: &mut Threads, started: Option<ObjectId>)
    requires room { HasRoom (number_of started) threads.old }
    requires few { AreFew (number_of started) threads.old.list }
    ensures list { threads.new.list ≡ with_new (number_of started) threads.old.list }
    ensures visits { threads.new.visits ≡ threads.old.visits }
{
    if let Some(thread) = started {
        threads.add(thread);
    }
}

/// Suspends the threads that the policy of this byte suspends, where the event is of this thread.
pub(crate) fn suspend_by(threads: &mut Threads, policy: u8, event_thread: ObjectId)
    requires { AllAtMost greatest_int threads.old.list }
    ensures list { threads.new.list ≡ changed (raised_by policy event_thread.0) threads.old.list }
    ensures visits { threads.new.visits
        ≡ visits_at policy threads.old.list threads.new.list threads.old.visits }
{
    if policy == Policy::All.byte() {
        threads.raise_all();
    } else if policy == Policy::EventThread.byte() {
        threads.raise(event_thread);
    }
}

/// Suspends the threads that the policy of what is sent suspends.
fn suspend_for(threads: &mut Threads, sends: &Option<Composite>, event_thread: ObjectId)
    requires { AllAtMost greatest_int threads.old.list }
    ensures list { threads.new.list ≡ raised_for sends.now event_thread.0 threads.old.list }
    ensures visits { threads.new.visits
        ≡ visits_for sends.now threads.old.list threads.new.list threads.old.visits }
{
    if let Some(composite) = sends {
        suspend_by(threads, composite.policy(), event_thread);
    }
}

/// The id of the next packet, behind what is sent.
fn id_after(id: u32, sends: &Option<Composite>) -> u32
    ensures { result ≡ packet_after sends.now id }
{
    match sends {
        Some(_) => id.wrapping_add(1),
        None => id,
    }
}

/// Ends a live thread, and with the last one all event requests. Whether it was the last.
fn end_thread<M: Machine>(
    machine: &mut M,
    threads: &mut Threads,
    requests: &mut Requests,
    thread: ObjectId,
) -> bool
    requires { has (M.meaning.live machine.old) thread.0 ≡ true }
    ensures machine { machine.new ≡ M.meaning.ended machine.old thread.0 }
    ensures threads { threads.new.list ≡ filter (is_other thread.0) threads.old.list }
    ensures visits { threads.new.visits ≡ threads.old.visits }
    ensures last { result ≡ (length threads.new.list == 0) }
    ensures requests { requests.new ≡ unless_last result requests.old }
{
    machine.end(thread);
    threads.remove(thread);
    if threads.len() == 0 {
        requests.clear();
        return true;
    }
    false
}

impl<M: Machine> Debuggee<M> {
    /// One step of a thread, if it may make one: where the first handshake was completed, the machine is alive, events are not held, the
    /// thread is alive and not suspended, no live thread stands at the count limit, and no thread too many would start. What is sent can
    /// be written at the machine's widths, and fits a packet. A thread whose death was reported ends: it starts nobody.
    ///
    /// # Errors
    /// `NoMemory` where an allocation was refused; only where nothing but a thread too many could forbid the step, and not where the
    /// thread's death was reported; then nothing has changed.
    pub fn step(&mut self, alloc: Global, thread: ObjectId) -> Result<Option<StepDone>, NoMemory>
        ensures exact { IfOk result (λ done. StepsOrNot M.meaning thread.0 self.old self.new done) }
        ensures fits { IfOk result (λ done. SendFits (M.meaning.sizes self.old.moment.machine)
            self.old.settings.limits.packet done) }
        ensures unchanged { OnErr result (self.new ≡ self.old) }
        ensures memory { IfErr result (λ _.
            is_ready self.old.settings self.old.moment.state thread.0 ≡ true) }
        ensures unmarked { IfErr result (λ _. is_marked self.old.moment.state thread.0 ≡ false) }
    {
        if !self.is_ready(thread) {
            return Ok(None);
        }
        if self.threads.is_marked(thread) {
            return Ok(Some(self.end(thread)));
        }
        let happening = self.machine.next(thread)?;
        self.step_into(alloc, thread, &happening)
    }

    /// Whether no thread may step, whichever it is: before the first handshake, where the machine is dead, where events are held, where each
    /// live thread is suspended, and where one stands at the count limit. However many threads live, it looks at one of them at the most.
    pub fn is_still(&self) -> bool
        ensures { result ≡ is_still self.now.settings self.now.moment.state }
    {
        !self.handshaken
            || !self.alive
            || self.held
            || self.threads.are_all_suspended()
            || self.threads.stands_at(self.settings.count_limit())
    }

    /// Whether a thread may step but for a thread too many that would start.
    fn is_ready(&self, thread: ObjectId) -> bool
        ensures { result ≡ is_ready self.now.settings self.now.moment.state thread.0 }
    {
        self.handshaken
            && self.alive
            && !self.held
            && matches!(self.threads.count(thread), Some(0))
            && !self.threads.stands_at(self.settings.count_limit())
    }

    /// Whether one thread more than there may be would start.
    fn is_full(&self, happening: &Happening) -> bool
        ensures { result ≡ is_full_by (started happening.now) self.now.settings
            self.now.moment.state }
    {
        match thread_started(happening) {
            Some(_) => self.threads.len() >= self.settings.limits().live() as usize,
            None => false,
        }
    }

    /// The step of a thread whose death was reported: it ends.
    fn end(&mut self, thread: ObjectId) -> StepDone
        requires may { may_step M.meaning self.old.settings self.old.moment thread.0 ≡ true }
        requires marked { is_marked self.old.moment.state thread.0 ≡ true }
        ensures { Steps M.meaning thread.0 self.old self.new result }
    {
        let dies = end_thread(
            &mut self.machine,
            &mut self.threads,
            &mut self.requests,
            thread,
        );
        self.alive = !dies;
        StepDone {
            sends: None,
            ends: true,
            dies,
        }
    }

    /// The step of a thread that is ready and whose death was not reported, in which `happening` happens, unless one thread more than
    /// there may be would start.
    fn step_into(
        &mut self,
        alloc: Global,
        thread: ObjectId,
        happening: &Happening,
    ) -> Result<Option<StepDone>, NoMemory>
        requires ready { is_ready self.old.settings self.old.moment.state thread.0 ≡ true }
        requires unmarked { is_marked self.old.moment.state thread.0 ≡ false }
        requires next { happening.now ≡ M.meaning.next self.old.moment.machine thread.0 }
        ensures ok { IfOk result (λ done. StepsOrNot M.meaning thread.0 self.old self.new done) }
        ensures err { OnErr result (self.new ≡ self.old) }
    {
        if self.is_full(happening) {
            return Ok(None);
        }
        let sends = gather(alloc, &self.requests, happening)?;
        if has_run_out(happening) {
            return Ok(Some(self.run_out(thread, happening, sends)?));
        }
        self.advance(thread, happening, &sends)?;
        Ok(Some(StepDone {
            sends,
            ends: false,
            dies: false,
        }))
    }

    /// The step of a thread that has run out: it ends, or its death is reported.
    ///
    /// # Errors
    /// `NoMemory` where an allocation was refused; then nothing has changed.
    fn run_out(
        &mut self,
        thread: ObjectId,
        happening: &Happening,
        sends: Option<Composite>,
    ) -> Result<StepDone, NoMemory>
        requires may { may_step M.meaning self.old.settings self.old.moment thread.0 ≡ true }
        requires unmarked { is_marked self.old.moment.state thread.0 ≡ false }
        requires next { happening.now ≡ M.meaning.next self.old.moment.machine thread.0 }
        requires runs_out { runs_out happening.now ≡ true }
        requires sends { sends ≡ gathered happening.now self.old.moment.state.requests }
        ensures ok { IfOk result (λ done. Steps M.meaning thread.0 self.old self.new done) }
        ensures err { OnErr result (self.new ≡ self.old) }
    {
        make_stop_room(&mut self.stopped, &sends)?;
        count_gathered(&mut self.requests, happening, &sends);
        stop_for(&mut self.stopped, &sends, happening.thread());
        if let Some(composite) = sends {
            suspend_by(&mut self.threads, composite.policy(), happening.thread());
            self.threads.mark(thread);
            self.next_packet = self.next_packet.wrapping_add(1);
            return Ok(StepDone {
                sends: Some(composite),
                ends: false,
                dies: false,
            });
        }
        let dies = end_thread(
            &mut self.machine,
            &mut self.threads,
            &mut self.requests,
            thread,
        );
        self.alive = !dies;
        Ok(StepDone {
            sends: None,
            ends: true,
            dies,
        })
    }

    /// Any other step, by which `sends` is sent.
    fn advance(
        &mut self,
        thread: ObjectId,
        happening: &Happening,
        sends: &Option<Composite>,
    ) -> Result<(), NoMemory>
        requires may { may_step M.meaning self.old.settings self.old.moment thread.0 ≡ true }
        requires unmarked { is_marked self.old.moment.state thread.0 ≡ false }
        requires next { happening.now ≡ M.meaning.next self.old.moment.machine thread.0 }
        requires runs_on { runs_out happening.now ≡ false }
        requires sends { sends.now ≡ gathered happening.now self.old.moment.state.requests }
        ensures ok { OnOk result (Steps M.meaning thread.0 self.old self.new
            (record { sends = sends.now; ends = false; dies = false })) }
        ensures err { OnErr result (self.new ≡ self.old) }
    {
        let started = thread_started(happening);
        let _live = self.settings.limits().live();
        make_room(&mut self.threads, started)?;
        make_stop_room(&mut self.stopped, sends)?;
        self.machine.step(thread)?;
        add_started(&mut self.threads, started);
        count_gathered(&mut self.requests, happening, sends);
        suspend_for(&mut self.threads, sends, happening.thread());
        stop_for(&mut self.stopped, sends, happening.thread());
        self.next_packet = id_after(self.next_packet, sends);
        Ok(())
    }
}
