//! Worked sessions of a target, byte for byte, and how `serve` runs them: tests of `jdwp_target` and `jdwp_engine`, which call
//! what anybody can call.
mod deferred_tests;
mod engine_tests;
mod example_tests;
mod extreme_tests;
mod falling;
mod jdi_tests;
mod limit_tests;
mod many_tests;
mod module_tests;
mod release_tests;
mod request_tests;
mod round_tests;
mod serve_tests;
mod serving;
mod session_tests;
mod sessions;
mod visit_tests;
