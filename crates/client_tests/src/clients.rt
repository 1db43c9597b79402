//! Sessions of a client over readers that cut what comes anywhere, and writers that fail: tests of `jdwp_client`, which call what anybody can
//! call.
mod client_tests;
mod failing_tests;
mod frames_tests;
mod many_tests;
mod packets;
mod peers;
