//! Worked recordings and their captures: tests of `jdwp_recording`, which call what anybody can call.
mod recording_tests;
mod rows;
