//! Sessions that were worked out by hand, over a machine of two threads: the definitions give what was worked out.
ghost use Rattle.jdwp_model.specs.Worked.{CountsAsWorked, EndsAsWorked, CrossesAsWorked, LastsAsWorked, LosesAsWorked, LosesFirstAsWorked, HoldsAsWorked, DiesAsWorked, DefersAsWorked};
ghost use Rattle.jdwp_machine.specs.Laws.{IsLawful};
ghost use Rattle.jdwp_model.specs.Headline.{MayBegin};
ghost use Rattle.jdwp_model.specs.WorkedMachine.{small, small_opening, settings};

/// The machine of these sessions keeps every law of machines, and the sessions begin with the premises of the theorems: a state of the
/// machine in which a thread lives, and a count limit that there may be.
pub fn worked_machine_is_lawful()
    ensures lawful { IsLawful small }
    ensures begins { MayBegin small settings small_opening }
{}

/// A breakpoint with a Count of 2 reports the second time that it is reached, and never again; its request stays until it is cleared.
pub fn counted_breakpoint_reports_once()
    ensures { CountsAsWorked }
{}

/// A thread that ended unseen is not held after a Suspend, and a list of all threads holds those that live and forgets it.
pub fn suspend_holds_nobody_until_threads_are_listed()
    ensures { EndsAsWorked }
{}

/// An event that was sent before a Suspend was carried out, and is read after it was asked, counts before it.
pub fn event_counts_before_the_suspend_it_crossed()
    ensures { CrossesAsWorked }
{}

/// The frames of a suspended thread are read, the other thread is resumed and ends, and the same frames are read again.
pub fn frames_are_read_again()
    ensures { LastsAsWorked }
{}

/// A target that loses the connection forgets suspend counts and requests, and the replies under way can still be read.
pub fn loss_at_target_resets_and_keeps_what_is_under_way()
    ensures { LosesAsWorked }
{}

/// A command under way from a debugger that lost the connection is lost to it, and still carried out.
pub fn loss_at_debugger_loses_commands_that_are_carried_out()
    ensures { LosesFirstAsWorked }
{}

/// No thread steps while events are held, and it steps once they are released.
pub fn held_events_stop_threads()
    ensures { HoldsAsWorked }
{}

/// A thread whose death was reported is held until it is resumed; then it ends, and the debugger learns of it by an error.
pub fn reported_death_holds_until_resume()
    ensures { DiesAsWorked }
{}

/// Three commands that are deferred are answered after a fourth, the last one first; those that a loss drops are never answered; and of
/// seventeen the last is answered at once.
pub fn deferred_commands_are_answered_in_any_order()
    ensures { DefersAsWorked }
{}
