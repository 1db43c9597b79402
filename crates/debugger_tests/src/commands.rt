//! Commands by name against their bytes, and answers that are read: tests of `jdwp_command`, which call what anybody can call.
mod answer_tests;
mod command_bytes;
mod command_tests;
mod modifier_tests;
