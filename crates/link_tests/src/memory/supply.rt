//! The memory that calls find.
use jdwp_script::ScriptFault;
use jdwp_wire::NoMemory;
use std::alloc::{AllocError, AllocFailed, Global};
use std::fmt::Debug;
use test_parts::Scarce;

/// How often a call is done again at most.
pub(crate) const MOST_TIMES: u32 = 100_000;

/// What a process goes on with, in pages, while its memory is taken: so much that what lies in it here and there leaves room between for the
/// largest request of a call.
const PAGES: usize = 512;

/// Why a test does not go on.
#[derive(Clone, Copy, Debug)]
pub(crate) enum Stop {
    /// A request for memory of its own was refused.
    NoMemory,
    /// Memory is left that can't be taken.
    MemoryLeft,
    /// A call is refused however often it is done again.
    AlwaysRefused,
    /// A list of events does not end.
    Endless,
    /// A script is refused.
    Script,
    /// The count limit is refused.
    CountLimit,
    /// Bytes begin no message.
    FrameFault,
}

impl From<AllocError> for Stop {
    fn from(_error: AllocError) -> Stop {
        Stop::NoMemory
    }
}

impl<T: Drop> From<AllocFailed<T>> for Stop {
    fn from(_error: AllocFailed<T>) -> Stop {
        Stop::NoMemory
    }
}

impl From<NoMemory> for Stop {
    fn from(_error: NoMemory) -> Stop {
        Stop::NoMemory
    }
}

impl From<ScriptFault> for Stop {
    fn from(_error: ScriptFault) -> Stop {
        Stop::Script
    }
}

/// The memory that calls find: all that there is, or nothing at first and a crumb more each time.
#[derive(Drop)]
pub(crate) struct Supply {
    scarce: Option<Scarce>,
    refusals: u32,
}

impl Supply {
    /// All that there is.
    pub(crate) fn ample() -> Supply {
        Supply {
            scarce: None,
            refusals: 0,
        }
    }

    /// Nothing at first.
    pub(crate) fn scarce(alloc: Global) -> Result<Supply, Stop> {
        Ok(Supply {
            scarce: Some(Scarce::take(alloc, PAGES)?),
            refusals: 0,
        })
    }

    /// A call begins: nothing is left, where memory is scarce.
    pub(crate) fn starve(&mut self) -> Result<(), Stop> {
        if let Some(scarce) = &mut self.scarce {
            if !scarce.starve() {
                return Err(Stop::MemoryLeft);
            }
        }
        Ok(())
    }

    /// A call was refused, and is done again: a crumb more is there.
    pub(crate) fn give(&mut self) {
        self.refusals = self.refusals.saturating_add(1);
        if let Some(scarce) = &mut self.scarce {
            if !scarce.give() {
                scarce.relieve();
            }
        }
    }

    /// The same where nothing is left but so many crumbs: those that were given back by `give`, of which a test needs some in between.
    pub(crate) fn starve_to(&mut self, crumbs: u32) -> Result<(), Stop> {
        self.starve()?;
        if let Some(scarce) = &mut self.scarce {
            for _ in 0..crumbs {
                scarce.give();
            }
        }
        Ok(())
    }

    /// A call has ended: memory is there.
    pub(crate) fn relieve(&mut self) {
        if let Some(scarce) = &mut self.scarce {
            scarce.relieve();
        }
    }

    /// How many calls were refused.
    pub(crate) fn refusals(&self) -> u32 {
        self.refusals
    }
}

/// Appends a value in words, as a line.
pub(crate) fn push_line<T: Debug>(alloc: Global, log: &mut String, value: &T) -> Result<(), Stop> {
    let line = format!(in alloc; "{value:?}\n")?;
    log.push_str(line.as_str())?;
    Ok(())
}

/// A refused call that changes something that can be asked, in a log: it has this line, which no other has.
pub(crate) fn push_same(log: &mut String, same: bool) -> Result<(), Stop> {
    if !same {
        log.push_str("a refused call changed something\n")?;
    }
    Ok(())
}
