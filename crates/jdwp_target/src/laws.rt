//! Laws: each function says what holds, in its contract, and does nothing; to call it is to cite it.
ghost use Rattle.std.specs.Prelude.{◌≡◌, ◌<◌, ℕ, Some, None, ◌^◌};
ghost use Rattle.jdwp_wire.specs.Numbers.{id_refusal};
ghost use Rattle.jdwp_wire.specs.Widths.{Widths};
ghost use Rattle.jdwp_event.specs.Composites.{vm_start, vm_death};
ghost use Rattle.jdwp_target.specs.Closings.{ClosesForReason};
ghost use Rattle.jdwp_target.specs.Deeds.{AnswersWhatCame, StaysFew};
ghost use Rattle.jdwp_target.specs.Lives.{NumbersComposites};
ghost use Rattle.jdwp_target.specs.Sends.{IsEncoded};
ghost use Rattle.jdwp_target.specs.Targets.{GoesOn};
ghost use Rattle.jdwp_target.specs.VisitLaws.{VisitsWhatTurns};

use jdwp_machine::Machine;

/// What was taken off, what was enqueued to leave and how a target stands are, after each call, those of a list of deeds: messages
/// handled or deferred, threads stepped, connections lost, deferred commands released.
pub fn goes_on_at_each_call<M: Machine>()
    ensures { GoesOn M.meaning }
{}

/// The messages that were taken off are those that were answered, at once or by a release, those that are deferred, and those that
/// were dropped as a session ended, each as often.
pub fn answers_what_came<M: Machine>()
    ensures { AnswersWhatCame M.meaning }
{}

/// All that is deferred are commands of the sets ReferenceType and Method, 16 at most, and none where no session is established.
pub fn few_are_deferred<M: Machine>()
    ensures { StaysFew M.meaning }
{}

/// Over the life of a target, session after session, the k-th composite that it sends has the id k, modulo 2^32.
pub fn numbers_composites_in_order<M: Machine>()
    ensures { NumbersComposites M.meaning }
{}

/// A session that is open closes only where Dispose was handled, the machine is dead (as after Exit, and after the last thread's end), or
/// the connection was lost.
pub fn closes_for_a_reason<M: Machine>()
    ensures { ClosesForReason M.meaning }
{}

/// A machine Suspend and a machine Resume that are not refused, and an event whose policy is ALL, VM_START too, visit exactly the threads
/// that they turn, from running to suspended or the other way round. Before the first there are no visits, and all else leaves them as
/// they were: other commands, those that are refused, other events, new sessions and losses.
pub fn visits_what_turns<M: Machine>()
    ensures { VisitsWhatTurns M.meaning }
{}

/// VM_START, where its thread's id fits, and VM_DEATH are encoded by the bytes that are sent for them.
pub fn encodes_start_and_death()
    ensures start { (w : Widths) (policy thread : ℕ) → policy < 256 → id_refusal w.object thread
        ≡ None → IsEncoded w (Some (vm_start policy thread)) }
    ensures death { (w : Widths) → IsEncoded w (Some vm_death) }
{}

/// The id of a packet fits its four bytes.
pub fn fits_id(_id: u32)
    ensures { _id < 2 ^ 32 }
{}
