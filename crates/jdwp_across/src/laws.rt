//! Laws: each function says what holds, in its contract, and does nothing; to call it is to cite it.
ghost use Rattle.jdwp_link.specs.Laws.{Laws};
ghost use Rattle.jdwp_model.specs.Rests.{Rests};

use jdwp_machine::Machine;

/// Each end finds the messages that the other sends, and reads what was sent; and what holds of every session.
pub(crate) fn of_sessions<M: Machine>()
    ensures { Laws M.meaning }
{
    jdwp_end::laws::finds_first_message();
    jdwp_wire::laws::finds_whole_messages();
    jdwp_debugger::laws::reads_what_was_asked();
    jdwp_debugger::laws::reads_what_was_answered();
    jdwp_debugger::laws::reads_what_was_reported();
    jdwp_debugger::laws::reads_id_sizes_at_any_widths();
    jdwp_debugger::laws::reads_widths();
    jdwp_debugger::laws::puts_id_sizes();
    jdwp_event::laws::composites_have_their_bytes();
    jdwp_target::laws::encodes_start_and_death();
    jdwp_debuggee::laws::answers_id_sizes::<M>();
    jdwp_debuggee::laws::moves_counts_and_requests::<M>();
    jdwp_model::stands_soundly::<M>();
    jdwp_model::meets_no_fault::<M>();
    jdwp_model::answers_one_that_waits::<M>();
    jdwp_model::defers_few_commands::<M>();
    jdwp_model::mirrors_what_was_seen::<M>();
    jdwp_model::holds_only_suspended_threads::<M>();
    jdwp_model::counts_at_most::<M>();
    jdwp_model::frames_read_stay_true::<M>();
}

/// What the debuggee does at each command and step.
pub(crate) fn of_debuggees<M: Machine>()
    ensures { Rests M.meaning }
{
    jdwp_debuggee::laws::moves_counts_and_requests::<M>();
    jdwp_debuggee::laws::changes_machine_at_exit_slots_and_strings::<M>();
    jdwp_debuggee::laws::answers_id_sizes::<M>();
    jdwp_debuggee::laws::accepts_the_three_policies::<M>();
    jdwp_debuggee::laws::reports_one_thread::<M>();
    jdwp_debuggee::laws::steps_where_it_runs::<M>();
}
