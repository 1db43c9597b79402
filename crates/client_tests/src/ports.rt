//! Sessions on ports of this machine, both ends in one process: tests of `jdwp_port`, which call what anybody can call. No other machine is
//! reached.
mod attaching_tests;
mod fakes;
mod fault_tests;
mod passing_tests;
mod peers;
mod serving_tests;
mod sessions;
mod socket_tests;
