//! Machines that run a script: what a script means as a machine, and that it is lawful.
#![tactic(auto)]

mod answers;
mod arranging;
mod array_answers;
mod asked;
mod class_answers;
mod class_entries;
mod class_look_ups;
mod entries;
mod field_values;
mod frame_answers;
mod group_answers;
mod happening;
mod invocation_answers;
mod jdi_answers;
pub mod laws;
mod layers;
mod location_answers;
mod look_ups;
mod machine;
mod machine_answers;
mod making;
mod method_answers;
mod module_answers;
mod object_answers;
mod opening;
mod places;
mod replies;
mod requests;
mod sites;
mod slots;
mod state;
mod static_values;
mod steps;
mod thread_answers;
mod unnamed_module;
mod worked;

pub use machine::ScriptMachine;
pub use worked::definitions_give_worked_machine;
