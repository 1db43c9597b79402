//! Plans, the sessions that they run, captures told, and faults with their statuses: tests of `jdwp_attach` and `jdwp_program`, which call what
//! anybody can call.
mod apart_tests;
mod attaching_tests;
mod cutting_tests;
mod live_tests;
mod plan_tests;
mod port_tests;
mod program_tests;
mod session_tests;
mod stream_tests;
mod text_tests;
