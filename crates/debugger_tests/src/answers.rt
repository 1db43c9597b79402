//! Tests of replies that are read as structs, of line tables, and of events by their fields. They stand apart from the crates that they try,
//! which are then proved once less.
mod event_tests;
mod line_tests;
mod reply_tests;
