//! Calls whose requests for memory are refused: tests that call what anybody can call.
//!
//! A list of what is done goes once with memory, and once so that at each call nothing is left at first, and a crumb more is given back each
//! time it is done again. Each refused call answers its own want of memory and changes nothing that can be asked, and what comes in the end is
//! what came with memory. The tests whose names end in `bears_one_refusal` do the same with memory: they pass whichever one request of theirs
//! is refused from outside. Under address sanitizer (`rt try`) no memory can be taken, so the others fail there.
mod capture_tests;
mod debugger_tests;
mod debuggers;
mod link_tests;
mod links;
mod opening_tests;
mod paused_tests;
mod scarce_tests;
pub(crate) mod supply;
mod target_lists;
mod target_tests;
mod targets;
