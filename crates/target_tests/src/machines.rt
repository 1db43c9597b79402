//! Machine scripts, and the machines that run them: tests of `jdwp_script` and `jdwp_script_machine`, which call what anybody can call.
mod answer_tests;
mod class_tests;
mod data_words;
mod detail_tests;
mod extreme_tests;
mod limit_tests;
mod machine_tests;
mod module_tests;
mod script_tests;
