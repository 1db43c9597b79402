//! What a debugger of `Order::Apart` may rely on where the target is in another program: a function that is a theorem, and does nothing.
ghost use Rattle.jdwp_across.specs.Apart.{SuspendsWhatIsHeldApart};

use crate::laws;
use jdwp_machine::Machine;

/// A thread that lives and that a debugger of `Order::Apart` holds (`Debugger::is_held`) is suspended in the target of the other program now,
/// whatever is under way between them, and whatever is unanswered, a Resume too; and its suspend count there is no less than
/// `Debugger::at_least` says. So it is after every list of acts as in `holds_in_two_programs`, while the machine lives and the target noticed no
/// loss in this session, where the target did not begin to defer replies and no command was asked that invokes a method.
///
/// From Dispose, Exit or a command on that this target does not carry out, such a debugger holds nobody.
pub fn suspends_what_is_held_apart<M: Machine>()
    ensures { SuspendsWhatIsHeldApart M.meaning }
{
    laws::of_sessions::<M>();
    jdwp_orders::is_sure_of_suspended_threads_only::<M>();
}
