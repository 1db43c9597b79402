//! Runs of both ends by plans; plans, captures and faults that are told; what stands between two ends and writes down what they say; the
//! program's command lines: tests of `jdwp_pair`, `jdwp_attach`, `jdwp_program`, `jdwp_words`, `jdwp_files` and `jdwp_record`, which call what
//! anybody can call.
#![tactic(auto)]

#[cfg(test)]
mod apart_tests;
#[cfg(test)]
mod asserts;
#[cfg(test)]
mod command_lines;
#[cfg(test)]
mod connection_tests;
#[cfg(test)]
mod deferring_tests;
#[cfg(test)]
mod loss_tests;
#[cfg(test)]
mod pair_tests;
#[cfg(test)]
mod programs;
#[cfg(test)]
mod random_plans;
#[cfg(test)]
mod relays;
#[cfg(test)]
mod runs;
#[cfg(test)]
mod use_tests;
