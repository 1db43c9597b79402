//! Until when reads and writes may wait.

use std::cell::Cell;
use std::io;
use std::io::ErrorKind;
use std::rt::Clock;
use std::time::{Duration, Instant};

/// When the time is over.
#[derive(Clone, Copy)]
enum Until {
    Never,
    At(Instant),
    /// It is over at once, since the clock can't be read.
    Unclocked,
}

/// Until when the halves of a connection may wait, and whether one failed for it.
#[derive(Drop)]
pub(crate) struct Limit {
    until: Cell<Until>,
    is_late: Cell<bool>,
}

impl Limit {
    /// No limit.
    pub fn none() -> Limit {
        Limit {
            until: Cell::new(Until::Never),
            is_late: Cell::new(false),
        }
    }

    /// So many milliseconds from now on; no limit at None.
    pub fn set<C: Clock>(&self, clock: &C, milliseconds: Option<u64>) {
        match milliseconds {
            None => self.until.set(Until::Never),
            Some(time) => {
                self.is_late.set(false);
                self.until.set(until_behind(clock, time));
            }
        }
    }

    /// How long a call may wait; None without limit.
    ///
    /// # Errors
    /// `TimedOut` where the time is over; the clock's.
    pub fn left<C: Clock>(&self, clock: &C) -> io::Result<Option<Duration>> {
        let until = match self.until.get() {
            Until::Never => return Ok(None),
            Until::At(until) => until,
            Until::Unclocked => return Err(io::Error::from(ErrorKind::Unsupported)),
        };
        let left = until.saturating_duration_since(Instant::now(clock)?);
        if left.is_zero() {
            self.is_late.set(true);
            return Err(io::Error::from(ErrorKind::TimedOut));
        }
        Ok(Some(left))
    }

    /// Whether a call failed since the time was over.
    pub fn is_late(&self) -> bool {
        self.is_late.get()
    }
}

/// When so many milliseconds are over from now on. No clock goes on for as long as would be too long.
fn until_behind<C: Clock>(clock: &C, milliseconds: u64) -> Until {
    let Ok(now) = Instant::now(clock) else {
        return Until::Unclocked;
    };
    match now.checked_add(Duration::from_millis(milliseconds)) {
        Some(until) => Until::At(until),
        None => Until::Never,
    }
}
