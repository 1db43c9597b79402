//! Worked sessions of a debugger, what its mirror learns packet by packet, commands as a target reads them, and what an end holds: tests of
//! `jdwp_debugger`, `jdwp_mirror`, `jdwp_debuggee` and `jdwp_end`, which call what anybody can call.
mod apart_tests;
mod asking_tests;
mod boxed;
mod crowd_tests;
mod end_tests;
mod extreme_tests;
mod holding_tests;
mod judging_tests;
mod mirror_tests;
mod reading_tests;
mod turning_tests;
mod waiting_tests;
mod watch_tests;
