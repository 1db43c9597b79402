//! Laws: each function says what holds, in its contract, and does nothing; to call it is to cite it.
ghost use Rattle.jdwp_model.specs.Rests.{Rests};

use jdwp_machine::Machine;

/// What the theorems take from the laws of machines and of the debuggee.
pub(crate) fn rests_on_laws<M: Machine>()
    ensures { Rests M.meaning }
{
    jdwp_debuggee::laws::moves_counts_and_requests::<M>();
    jdwp_debuggee::laws::changes_machine_at_exit_slots_and_strings::<M>();
    jdwp_debuggee::laws::answers_id_sizes::<M>();
    jdwp_debuggee::laws::accepts_the_three_policies::<M>();
    jdwp_debuggee::laws::reports_one_thread::<M>();
    jdwp_debuggee::laws::steps_where_it_runs::<M>();
}
