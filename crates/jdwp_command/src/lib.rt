//! The commands that a debugger asks, by name: a module for each command set, and in it a function for each command that a target answers.
//! What these make is in the layout of the command, so a debugger refuses it as a bad command only where an id is wider than the target's
//! ids are, or a text or a list is longer than an int tells. That its packet is not too long is the debugger's to judge.
//!
//! `answers` reads what is answered, by its shape.
#![tactic(auto)]

pub mod answers;
pub mod array_reference;
pub mod class_type;
mod entries;
pub mod event_request;
mod made;
pub mod method;
mod modifiers;
pub mod module_reference;
pub mod object_reference;
pub mod reference_type;
pub mod stack_frame;
pub mod string_reference;
pub mod thread_group_reference;
pub mod thread_reference;
pub mod virtual_machine;
