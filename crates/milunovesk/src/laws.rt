//! What holds of all of them: each function says it, in its contract, and does nothing; to call it is to cite it.
pub use jdwp_debuggee::laws::answers_invocations;
pub use jdwp_frames::laws::{frames_stay_true, keeps_what_each_call_keeps};
pub use jdwp_link::{settles_each_ticket_once, tells_what_the_target_gave};
pub use jdwp_model::{
    answers_one_that_waits, counts_at_most, defers_few_commands, frames_read_stay_true,
    holds_only_suspended_threads, idle_turns_change_nothing, meets_no_fault, mirrors_what_was_seen,
    settles_each_command_once, settles_in_order, stands_soundly, tells_what_was_given,
    turns_close_at_ends_alone,
};
pub use jdwp_script_machine::laws::{
    invocations_return_what_scripts_say, loops_go_on_for_ever, scripts_are_lawful,
    scripts_begin_soundly, scripts_go_on, strings_that_are_made_are_told,
};
pub use jdwp_target::laws::{closes_for_a_reason, visits_what_turns};
