//! Worked captures, judged and shown: tests of `jdwp_judge` and `jdwp_show`, which call what anybody can call.
mod check_tests;
mod extreme_tests;
pub(crate) mod row_tests;
mod show_tests;
mod table_tests;
