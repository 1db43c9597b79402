//! The program's command lines, on files and at ports, and how they are read: tests of `jdwp_files` and `jdwp_words`, which call what anybody
//! can call.
mod breaking_tests;
mod file_tests;
mod peer_tests;
mod recording_tests;
mod runs;
mod same_file_tests;
mod word_tests;
mod written_tests;
