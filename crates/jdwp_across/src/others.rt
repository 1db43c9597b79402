//! What a debugger may rely on where it and the target in another program had sessions with others before: each function is a theorem, and does nothing.
ghost use Rattle.jdwp_across.specs.OtherRuns.{HoldsOfServeAndAttachAfterOthers, HoldsOfTwoRunsAfterOthers, HoldsWithinAfterOthers};
ghost use Rattle.jdwp_across.specs.Others.{HoldsAfterOtherSessions, MergesAreSessions, SuspendsAfterOtherSessions};

use crate::laws;
use crate::runs::{attaches_by_acts, serves_by_acts};
use jdwp_machine::Machine;

/// A target that served others before, whoever they were and whatever bytes they sent, and a debugger that had sessions with other targets: from
/// the session on that begins at both, behind `accept` and `attach`, after every list of acts of theirs where each end was fed a beginning of
/// what the other had put by then, all holds that a debugger may rely on (`holds_in_two_programs`): what the mirror shows, that a held thread
/// is suspended, counts from above, frames that stay true, tickets that are settled once, answers that the target gave; and neither end
/// refuses what the other sent.
///
/// So it is where the former sessions are over at both ends, and the machine lives. Both ends have the same limits.
pub fn holds_after_other_sessions<M: Machine>()
    ensures relies { HoldsAfterOtherSessions M.meaning }
    ensures suspends { SuspendsAfterOtherSessions M.meaning }
{
    laws::of_sessions::<M>();
    laws::of_debuggees::<M>();
}

/// Each end of two programs whose acts are merged has had such sessions: so either may have its next ones with another.
pub fn merges_are_sessions_of_each<M: Machine>()
    ensures { MergesAreSessions M.meaning }
{}

/// The same of ends with limits of their own (`holds_within_own_limits`).
pub fn holds_within_after_others<M: Machine>()
    ensures { HoldsWithinAfterOthers M.meaning }
{
    laws::of_sessions::<M>();
    laws::of_debuggees::<M>();
}

/// So it is of what runs in each program, whatever loops over their calls run them: wherever their acts stand, in whatever order they came, as
/// long as behind each act what an end was fed is a beginning of what the other had put by then. The session may begin at one end before the
/// other: nothing comes to it until then, and the debugger holds nobody.
pub fn holds_of_two_runs_after_others<M: Machine>()
    ensures { HoldsOfTwoRunsAfterOthers M.meaning }
{
    jdwp_end::laws::finds_first_message();
    holds_within_after_others::<M>();
}

/// So it is of a target that `serve` runs, for this debugger now and for others before, and a debugger that `attach` runs.
pub fn holds_of_serve_and_attach_after_others<M: Machine>()
    ensures { HoldsOfServeAndAttachAfterOthers M.meaning }
{
    serves_by_acts::<M>();
    attaches_by_acts::<M>();
    holds_of_two_runs_after_others::<M>();
}
