//! A target and a debugger in one session, and what is under way between them.
#![tactic(auto)]

mod headline;
mod laws;
mod worked;

pub use headline::{
    answers_one_that_waits, answers_the_first_waiting, counts_at_most, defers_few_commands,
    frames_read_stay_true, holds_only_suspended_threads, idle_turns_change_nothing, meets_no_fault,
    mirrors_what_was_seen, settles_each_command_once, settles_in_order, stands_soundly,
    tells_what_was_given, turns_close_at_ends_alone,
};
pub use worked::{
    counted_breakpoint_reports_once, deferred_commands_are_answered_in_any_order,
    event_counts_before_the_suspend_it_crossed, frames_are_read_again, held_events_stop_threads,
    loss_at_debugger_loses_commands_that_are_carried_out,
    loss_at_target_resets_and_keeps_what_is_under_way, reported_death_holds_until_resume,
    suspend_holds_nobody_until_threads_are_listed, worked_machine_is_lawful,
};
