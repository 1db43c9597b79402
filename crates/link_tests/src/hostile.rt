//! Peers that send what no peer may, and input that is deep or wide: what each end, the codec and the readers of texts answer, exactly, and
//! what is left then. Tests that call what anybody can call.
mod changed_answers;
mod changed_answers_tests;
mod changed_commands_tests;
mod debugger_tests;
mod debuggers;
mod fronts_tests;
mod recorded;
mod script_tests;
mod target_tests;
mod targets;
mod text_tests;
