//! Standard streams that are closed.
use std::fs::OpenOptions;
use std::io;
use std::rt::Files;

/// What the system has for what nobody reads or writes.
const NULL_DEVICE: &str = "/dev/null";

/// How many standard streams there are.
const STANDARD_STREAMS: usize = 3;

/// Opens the null device as often as there are standard streams. The system gives each file the lowest number that is free, so while
/// these are open the three standard streams are, and no file or connection that is opened later is taken for one of them.
///
/// # Errors
/// What the system tells where the null device can't be opened.
pub fn fill_standard_streams<R: Files>(files: &R) -> io::Result<[R::File; STANDARD_STREAMS]> {
    let mut both_ways = OpenOptions::new();
    both_ways.read(true).write(true);
    Ok([
        both_ways.open(files, NULL_DEVICE)?,
        both_ways.open(files, NULL_DEVICE)?,
        both_ways.open(files, NULL_DEVICE)?,
    ])
}
