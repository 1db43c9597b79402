//! The numbers of commands.

/// A command of a command set.
#[derive(Clone, Copy)]
pub struct CommandNumber {
    pub set: u8,
    pub number: u8,
}
