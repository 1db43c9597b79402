//! Live sessions of a target on a reader that is told what to give: tests of `jdwp_engine` and `jdwp_port`, which call what anybody can call.
mod live_tests;
mod network;
mod pace_tests;
mod port_tests;
mod readers;
mod sessions;
