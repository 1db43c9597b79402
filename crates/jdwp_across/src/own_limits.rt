//! What a debugger may rely on where it and the target in another program have limits of their own: each function is a theorem, and does nothing.
ghost use Rattle.jdwp_across.specs.OwnLimits.{HoldsWithinOwnLimits, RefusesLonger};
ghost use Rattle.jdwp_across.specs.OwnRuns.{HoldsOfServeAndAttachWithin, HoldsOfTwoRunsWithin};

use crate::laws;
use crate::runs::{attaches_by_acts, serves_by_acts};
use jdwp_machine::Machine;

/// After every list of acts of a target and a debugger in two programs, each within limits of its own: where the target's packets may be no
/// longer than the debugger's, and the target takes each command that was asked, all holds that a debugger may rely on
/// (`holds_in_two_programs`), as of two that have the target's limits and the debugger's number of commands that may wait. So a held thread
/// is suspended, and neither end refuses what the other sent. Where packets may be as long at both, the target takes each command. How many
/// threads and event requests there may be is the target's alone.
pub fn holds_within_own_limits<M: Machine>()
    ensures { HoldsWithinOwnLimits M.meaning }
{
    laws::of_sessions::<M>();
    jdwp_model::settles_each_command_once::<M>();
    jdwp_model::tells_what_was_given::<M>();
}

/// So it is wherever the acts of a target in one program and of a debugger in another stand, whatever loops over their calls run them.
pub fn holds_of_two_runs_within<M: Machine>()
    ensures { HoldsOfTwoRunsWithin M.meaning }
{
    jdwp_end::laws::finds_first_message();
    holds_within_own_limits::<M>();
}

/// So it is of a target that `serve` runs within its limits, and a debugger that `attach` runs within its own.
pub fn holds_of_serve_and_attach_within<M: Machine>()
    ensures { HoldsOfServeAndAttachWithin M.meaning }
{
    serves_by_acts::<M>();
    attaches_by_acts::<M>();
    holds_of_two_runs_within::<M>();
}

/// Else an end refuses what is longer than its packets may be: a target a command, and a debugger a reply or a composite, as the frame fault
/// 2 (`TooLong`); and its session is over.
pub fn refuses_longer_packets<M: Machine>()
    ensures { RefusesLonger M.meaning }
{}
