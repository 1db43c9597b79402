//! Data of commands as texts, read: tests of `jdwp_text`, which call what anybody can call.
mod right_tests;
mod round_tests;
mod wrong_tests;
