//! What commands are answered.
use jdwp_value::ObjectId;
use jdwp_wire::{ErrorCode, IdSizes};

/// What a command is answered, where that takes no memory.
#[derive(Clone, Copy, Debug, PartialEq, Eq)]
pub enum Reply {
    /// The command was carried out, and there is nothing to say.
    Done,
    /// A number, as an int: a suspend count, or the id of a request.
    Number(u32),
    /// The status of a live thread with this suspend count: it is running, and suspended where the count is not 0.
    Status(u32),
    /// How many bytes each kind of id takes.
    Sizes(IdSizes),
    /// The command was refused, and changed nothing.
    Refused(ErrorCode),
}

/// What a command is answered, ready to be sent.
#[derive(Drop)]
pub enum Sent {
    /// An answer that takes no memory.
    Short(Reply),
    /// Data, as they are written.
    Written(Vec<u8>),
    /// An object's id, which takes no memory either.
    Object(ObjectId),
}
