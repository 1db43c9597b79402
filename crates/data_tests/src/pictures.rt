//! Pictures of sessions: tests of `jdwp_draw`, which call what anybody can call.
mod picture_tests;
mod sessions;
