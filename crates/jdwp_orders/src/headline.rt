//! What holds of the model of both ends, of every machine and over every list of events: each function is a theorem, and does nothing.
ghost use Rattle.jdwp_orders.specs.Headline.{Always, ActsInOneOrder, SureIsSuspended, SureIsCovered, SureIsMirrored};

use crate::laws;
use jdwp_apart::shows_only_suspended_threads;
use jdwp_machine::Machine;

/// The model of both ends is one of a target whose replies and composites are sent by threads of their own: some run of that, in which each
/// packet is sent as the target acts, leaves the same threads with the same suspend counts, the same under way to both ends, and the
/// same watch at the debugger.
pub fn acts_in_one_order<M: Machine>()
    ensures { Always M.meaning ActsInOneOrder }
{
    laws::rests_on_laws::<M>();
}

/// So a thread that lives and that the debugger is sure of, by what it asked and read in this session alone, is suspended in the target
/// now, whatever is under way; its suspend count is no less than the number that the debugger is sure of; and no more is sure of a
/// thread than the mirror's count of it.
pub fn is_sure_of_suspended_threads_only<M: Machine>()
    ensures suspended { Always M.meaning SureIsSuspended }
    ensures covered { Always M.meaning SureIsCovered }
    ensures mirrored { Always M.meaning SureIsMirrored }
{
    laws::rests_on_laws::<M>();
    shows_only_suspended_threads();
}
