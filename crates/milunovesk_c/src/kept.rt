//! What a handle keeps.
use crate::seat::Seat;
use jdwp_script_machine::ScriptMachine;
use jdwp_target::Target;

/// An end of a session.
#[derive(Drop)]
pub enum Kept {
    /// A debugger.
    Debugger(Seat),
    /// A target over the machine of a script.
    Target(Target<ScriptMachine>),
}
