//! Sessions that are judged as they go on: tests of `jdwp_judge`, which call what anybody can call.
mod cut_tests;
mod held_tests;
mod sessions;
mod text_tests;
mod told_tests;
