//! How a run of both ends ends.

/// Why a run of both ends ended.
#[derive(Clone, Copy, Debug, PartialEq, Eq)]
pub enum PairEnded {
    /// The plan was carried out and what it asked was answered, or the debugger read that the session is over: it was disposed of, or the
    /// machine is dead.
    Done,
    /// The command of a line of the plan was refused.
    RefusedLine {
        /// The line, counted from 1.
        line: usize,
        /// The number of the refusal, 31 to 36.
        number: u16,
    },
    /// A write of what is printed failed, or took 0 of some bytes, or a flush failed.
    LostByWrite,
    /// What joins both ends failed, and `failure` of it says why. No line of a plan does that.
    LostConnection,
    /// An allocation was refused.
    NoMemory,
    /// All rounds were used, and something happened in each of them.
    TurnLimit,
    /// Nothing happened in a round, so nothing will in any other.
    Standstill {
        /// The line of the plan that waits, counted from 1; one more than there are lines where all were carried out, and a command waits for
        /// its answer.
        line: usize,
    },
}
