//! The lines of a plan.

/// The place of an item in an answer or in a composite of events, counted from 0.
#[derive(Clone, Copy, Debug, PartialEq, Eq)]
pub enum Path {
    /// `N`: the item N of the data, which is no list.
    Item(u32),
    /// `E.I`: of the first list of the data the entry E, and of that the item I. An element of an array region is an entry of one item.
    Entry(u32, u32),
    /// `N.E.I`: the same of the list that is the item N of the data.
    EntryOf(u32, u32, u32),
}

/// What one line of a plan says.
#[derive(Debug, Drop)]
pub enum PlanLine {
    /// An empty line, or one whose first character is `#`: nothing.
    Nothing,
    /// `plan 2`, the first line.
    Version,
    /// `ask NAME` or `ask NAME DATA`: the command is asked, and its answer waited for.
    Ask {
        /// The command set of the command of this name.
        set: u8,
        /// The number of the command of this name in its set.
        number: u8,
        /// The text of the data behind its space, with `$NAME` where a value stands. None where nothing stands behind the name.
        data: Option<String>,
    },
    /// `let NAME = PATH`: the item there is bound to the name.
    Let {
        /// Letters, digits and `_`.
        name: String,
        /// Where the item stands.
        path: Path,
    },
    /// `expect TEXT`: what was told last is this, where `_` stands for any item.
    Expect(String),
    /// `expect held T`: the thread is held for suspended.
    ExpectHeld(String),
    /// `expect free T`: it is not.
    ExpectFree(String),
    /// `timeout MS`: how many milliseconds a wait may take.
    Timeout(u32),
    /// `events N`: so many composites came in the session before the run goes on.
    Events(u32),
    /// `wait event`: the next composite that was not told yet.
    WaitEvent,
    /// `mirror`: what the debugger knows is told.
    Mirror,
    /// `may end`: the session may end before the plan does.
    MayEnd,
}
