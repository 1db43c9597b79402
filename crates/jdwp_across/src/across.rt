//! What a debugger may rely on where the target is in another program, over every connection: each function is a theorem, and does nothing.
ghost use Rattle.jdwp_across.specs.Headline.{HoldsAcross, SuspendsWhatIsHeld};

use crate::laws;
use jdwp_machine::Machine;

/// After every list of acts of a target and a debugger in two programs, where each end was fed a beginning of what the other had put by then:
/// both stand for a world of the model of a session, and what a debugger may rely on there holds of them. So what the mirror shows, that a
/// held thread is suspended, counts from above, frames that stay true, tickets that are settled once, answers that the target gave; and
/// neither end refuses what the other sent.
///
/// Both ends have the same limits, and a session begins at both together.
pub fn holds_in_two_programs<M: Machine>()
    ensures { HoldsAcross M.meaning }
{
    laws::of_sessions::<M>();
    jdwp_model::settles_each_command_once::<M>();
    jdwp_model::tells_what_was_given::<M>();
}

/// So a thread that the debugger shows as held is suspended in the target of the other program now, whatever is under way between them: while
/// the machine lives, the target noticed no loss in this session, and neither a Dispose nor a Resume of the thread or of all is unanswered.
pub fn suspends_what_is_held<M: Machine>()
    ensures { SuspendsWhatIsHeld M.meaning }
{
    holds_in_two_programs::<M>();
}
