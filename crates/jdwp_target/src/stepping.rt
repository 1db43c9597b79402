//! Steps of a target over any machine.
ghost use Rattle.std.specs.Prelude.{◌≡◌, ◌<◌, ℕ, Some, Ok, true, IfOk, OnErr};
ghost use Rattle.jdwp_wire.specs.Streams.{AreSendable};
ghost use Rattle.jdwp_end.specs.Ends.{is_established};
ghost use Rattle.jdwp_end.specs.declared.phase.Phase.TheVariants.{Established};
ghost use Rattle.jdwp_event.specs.Composites.{CompositeMeaning, POLICY_ALL, POLICY_EVENT_THREAD, POLICY_NONE, gathered};
ghost use Rattle.jdwp_target.specs.Protocol.{IsReported, KeepsCounts, PutsReport, RaisesCountOf, RaisesCounts, count, requests};
ghost use Rattle.jdwp_target.specs.Sends.{EncodesSent, IsEncoded};
ghost use Rattle.jdwp_target.specs.Standings.{reports_step, stands, steps_in_session};
ghost use Rattle.jdwp_target.specs.StepParts.{CanTell, debuggee_after, end_after, step_of, told_of_done};
ghost use Rattle.jdwp_target.specs.Turns.{EncodesWhere, SendsWhere, StepsAt, is_frozen};

use crate::laws;
use crate::sending::{enqueue_death, enqueue_report};
use crate::target::{Stepped, Target, TargetFault};
use jdwp_debuggee::{Debuggee, StepDone};
use jdwp_end::End;
use jdwp_machine::Machine;
use jdwp_value::ObjectId;
use jdwp_wire::IdSizes;

impl<M: Machine + Drop> Target<M> {
    /// One step of a thread, if the end is not paused and the thread may make one. In a session whose handshake is done, what
    /// happened is reported, and where the last thread ended VM_DEATH; in any other nothing is sent. Where the last thread ended
    /// the session closes. What is reported is encoded by the bytes that are sent, so it can be read, and each packet that is sent is
    /// within the limit.
    ///
    /// # Errors
    /// `NoMemory` where an allocation was refused; only where nothing but a thread too many could forbid the step, and then nothing
    /// has changed.
    pub fn step(&mut self, thread: ObjectId) -> Result<Stepped, TargetFault>
        // The whole of it: what is told and left, by whether the thread may step. What is sent can be read, and fits the limit.
        ensures steps { StepsAt M.meaning thread.0 self.old result self.new }
        ensures encoded { IfOk result (λ stepped. EncodesWhere M.meaning thread.0 self.old
            (is_frozen M.meaning thread.0 self.old)) }
        ensures packets { IfOk result (λ stepped. SendsWhere M.meaning thread.0 self.old
            (is_frozen M.meaning thread.0 self.old)) }

        // A step of a thread that is suspended does nothing. Frozen, and want of memory, leave all as it was.
        ensures suspended { (n : ℕ) → count self.old thread.0 ≡ Some n → 0 < n
            → (result ≡ Ok Stepped.Frozen) × (self.new ≡ self.old) }
        ensures frozen { result ≡ Ok Stepped.Frozen → self.new ≡ self.old }
        ensures no_memory { OnErr result (self.new ≡ self.old) }

        // Event.Composite: what is reported is the one composite of all requests that the happening passes, with the most suspending of
        // their policies, and is sent in a session whose handshake is done.
        ensures reported { result ≡ Ok Stepped.Reported → (c : CompositeMeaning)
            × (gathered (M.meaning.next self.old.moment.machine thread.0) (requests self.old)
            ≡ Some c)
            × (is_established self.old.end ≡ true → PutsReport M.meaning c self.old self.new) }

        // Its policy: ALL raises the suspend count of each live thread by one, EVENT_THREAD that of the event's thread alone, and NONE, and
        // a step of which nothing is reported, nobody's.
        ensures policy_all { (c : CompositeMeaning)
            → IsReported M.meaning thread.0 c self.old result → c.policy ≡ POLICY_ALL
            → RaisesCounts self.old self.new }
        ensures policy_event_thread { (c : CompositeMeaning)
            → IsReported M.meaning thread.0 c self.old result → c.policy ≡ POLICY_EVENT_THREAD
            → RaisesCountOf (M.meaning.next self.old.moment.machine thread.0).thread self.old
            self.new }
        ensures policy_none { (c : CompositeMeaning)
            → IsReported M.meaning thread.0 c self.old result → c.policy ≡ POLICY_NONE
            → KeepsCounts self.old self.new }
        ensures quiet { result ≡ Ok Stepped.Quiet → KeepsCounts self.old self.new }
    {
        self.make_step(thread)
    }

    /// One step of a thread, if the end is not paused and the thread may make one.
    ///
    /// # Errors
    /// As those of `step`.
    fn make_step(&mut self, thread: ObjectId) -> Result<Stepped, TargetFault>
        ensures steps { StepsAt M.meaning thread.0 self.old result self.new }
        ensures encoded { IfOk result (λ stepped. EncodesWhere M.meaning thread.0 self.old
            (is_frozen M.meaning thread.0 self.old)) }
        ensures packets { IfOk result (λ stepped. SendsWhere M.meaning thread.0 self.old
            (is_frozen M.meaning thread.0 self.old)) }
    {
        if self.end.is_paused() {
            return Ok(Stepped::Frozen);
        }
        let packet = self.debuggee.next_packet();
        let sizes = self.debuggee.sizes();
        let done = match self.debuggee.step(self.alloc, thread) {
            Err(_) => return Err(TargetFault::NoMemory),
            Ok(None) => return Ok(Stepped::Frozen),
            Ok(Some(done)) => done,
        };
        fits_step(packet, &done, &sizes, &self.debuggee, &self.end);
        tell(packet, &done, &sizes, &mut self.debuggee, &mut self.end);
        self.deferral.keep_where(self.end.is_established());
        self.steps.push(&());
        Ok(told_of(&done))
    }
}

/// What a step reports, and VM_DEATH behind it, are packets within the limit. It changes nothing.
fn fits_step<M: Machine>(
    packet: u32,
    done: &StepDone,
    sizes: &IdSizes,
    debuggee: &Debuggee<M>,
    _end: &End,
)
    requires { CanTell sizes.now _end.now done.now }
    ensures { AreSendable _end.now.limits.packet (reports_step sizes.now packet
        (step_of debuggee.now done.now) (stands debuggee.now.moment _end.now.phase)).sends }
{
    jdwp_debuggee::laws::fits_vm_death();
    laws::fits_id(packet);
    laws::fits_id(debuggee.next_packet());
}

/// Puts what a step reports, if the session is established; where the machine died the session closes.
fn tell<M: Machine>(
    packet: u32,
    done: &StepDone,
    sizes: &IdSizes,
    debuggee: &mut Debuggee<M>,
    end: &mut End,
)
    requires { CanTell sizes.now end.old done.now }
    ensures debuggee { debuggee.new ≡ debuggee_after (reports_step sizes.now packet
        (step_of debuggee.old done.now) (stands debuggee.old.moment end.old.phase)) debuggee.old }
    ensures end { end.new ≡ end_after (reports_step sizes.now packet (step_of debuggee.old done.now)
        (stands debuggee.old.moment end.old.phase)) end.old }
    ensures encoded { EncodesSent sizes.now end.old.phase done.now.sends }
{
    if end.is_established() {
        report(packet, done, sizes, debuggee, end);
    } else if done.dies {
        end.close();
    }
}

/// Puts what a step reports in an established session; where the machine died VM_DEATH, which takes a packet id, and the session
/// closes.
fn report<M: Machine>(
    packet: u32,
    done: &StepDone,
    sizes: &IdSizes,
    debuggee: &mut Debuggee<M>,
    end: &mut End,
)
    requires established { end.old.phase ≡ Established }
    requires can { CanTell sizes.now end.old done.now }
    ensures debuggee { debuggee.new ≡ debuggee_after (steps_in_session sizes.now packet
        (step_of debuggee.old done.now) (stands debuggee.old.moment Established) done.now.dies)
        debuggee.old }
    ensures end { end.new ≡ end_after (steps_in_session sizes.now packet
        (step_of debuggee.old done.now) (stands debuggee.old.moment Established) done.now.dies)
        end.old }
    ensures encoded { IsEncoded sizes.now done.now.sends }
{
    if done.dies {
        let id = debuggee.take_packet_id();
        enqueue_death(id, sizes, end);
        end.close();
    } else if let Some(composite) = &done.sends {
        enqueue_report(packet, composite, sizes, end);
    }
}

/// What is told of a step.
fn told_of(done: &StepDone) -> Stepped
    ensures { result ≡ told_of_done done.now }
{
    if done.ends {
        Stepped::Ended
    } else if done.sends.is_some() {
        Stepped::Reported
    } else {
        Stepped::Quiet
    }
}
