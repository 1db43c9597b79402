//! What the engines do, as acts, and what a debugger may rely on where they run: each function is a theorem, and does nothing.
ghost use Rattle.jdwp_across.specs.RunsHeadline.{AttachesByActs, HoldsOfServeAndAttach, HoldsOfTwoRuns, ServesByActs};

use jdwp_machine::Machine;

/// What `serve` does to its target, from its session's begin on, is a list of acts of a target: calls, as the theorem of two programs takes
/// them. The bytes that came by them are those that were read, and where no write failed those that left by them are those that were written.
pub fn serves_by_acts<M: Machine>()
    ensures { ServesByActs M.meaning }
{}

/// What `attach` does to its debugger, from its session's begin on, is a list of acts of a debugger, up to a turn that refused what came, where
/// one did. The bytes that came by them are those that were read.
pub fn attaches_by_acts<M: Machine>()
    ensures { AttachesByActs M.meaning }
{}

/// A target in one program and a debugger in another, with the same limits, whatever loops over their calls run them: wherever their acts stand,
/// in whatever order they came, as long as behind each act what an end was fed is a beginning of what the other had put by then, all holds
/// that a debugger may rely on (`MayRelyOn` of `jdwp_across`). So a thread that the debugger shows as held is suspended in the target now,
/// while the machine lives, the target noticed no loss, and neither a Dispose nor a Resume of the thread or of all is unanswered; and neither
/// end refuses what the other sent.
///
/// The session may begin at one end before the other: nothing comes to it until then, and the debugger holds nobody.
pub fn holds_of_two_runs<M: Machine>()
    ensures { HoldsOfTwoRuns M.meaning }
{
    jdwp_end::laws::finds_first_message();
    crate::across::holds_in_two_programs::<M>();
}

/// So it is of a target that `serve` runs in one program, and a debugger that `attach` runs in another: all that either does are such acts.
pub fn holds_of_serve_and_attach<M: Machine>()
    ensures { HoldsOfServeAndAttach M.meaning }
{
    serves_by_acts::<M>();
    attaches_by_acts::<M>();
    holds_of_two_runs::<M>();
}
