//! What a machine is asked.
use jdwp_layout::Data;

/// A question to a machine: a command of the table, with its data in the layout of the row's request. Where the table does not read them
/// (ClassPaths, and invocations of methods), they are bytes.
#[derive(Debug, Drop)]
pub struct Query {
    /// The command set.
    pub set: u8,
    /// The command.
    pub number: u8,
    /// Its data.
    pub content: Data,
}
