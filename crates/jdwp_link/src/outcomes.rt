//! What holds of what is told of each run of a link: each function is a theorem, and does nothing.
ghost use Rattle.jdwp_model.specs.Given.{GivesOnce};
ghost use Rattle.jdwp_link.specs.Outcomes.{SettlesEachOnce, TellsAsGiven};

use crate::laws;
use jdwp_machine::Machine;

/// Each ticket is answered or lost, once: those that a run answers or loses, and those that wait behind it, are those that waited before it and
/// those that were given in it. So from a new link on each ticket that was given was answered, or was lost, or waits, and stands there once.
///
/// It is said of every run that `Link::run` can answer, from a link that one was given, too: `Link::session` says that it is one.
pub fn settles_each_ticket_once<M: Machine>()
    ensures { SettlesEachOnce M.meaning }
{
    laws::of_sessions::<M>();
    jdwp_model::settles_each_command_once::<M>();
}

/// Each answer that a run tells of a ticket is the one that the target gave to that ticket, in it or before it, by the debuggee as it was then;
/// and the target gives no ticket two answers.
pub fn tells_what_the_target_gave<M: Machine>()
    ensures told { TellsAsGiven M.meaning }
    ensures once { GivesOnce M.meaning }
{
    jdwp_model::tells_what_was_given::<M>();
}
