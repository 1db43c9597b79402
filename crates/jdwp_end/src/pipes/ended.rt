//! How the run of a core ends.

/// Why an engine ended.
#[derive(Clone, Copy, Debug, PartialEq, Eq)]
pub enum Ended {
    /// The debugger disposed of the session, or the machine is dead.
    Done,
    /// A read failed, or gave 0 where there was room for a byte: the end of the input.
    LostByRead,
    /// A write failed, or took 0 of some bytes, or a flush failed.
    LostByWrite,
    /// The core refused what came. This is the number of the fault.
    Refused(u16),
    /// An allocation was refused.
    NoMemory,
    /// All rounds were used.
    TurnLimit,
}
