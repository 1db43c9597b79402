//! Plans that people write, read and run: tests of `jdwp_plan` and `jdwp_plan_run`, which call what anybody can call.
mod example_tests;
mod packets;
mod reading_tests;
mod run_tests;
