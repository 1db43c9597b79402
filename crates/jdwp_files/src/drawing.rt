//! Captures that are drawn, on their files.
ghost use Rattle.std.specs.Prelude.{MatchResult};
ghost use Rattle.jdwp_program.specs.Outputs.{LeavesCaptureTold};

use crate::files::{faulty_where, read_capture, session_in, text};
use jdwp_program::{Draw, Fault, TellFault, Told, draw_capture, is_recording};
use jdwp_recording::Capture;
use std::alloc::Global;
use std::io::Write;
use std::rt::Files;

/// Draws the capture of a file, or that of a session in a recording of the network.
///
/// # Errors
/// As those of `show_file`.
pub fn draw_file<'a, R: Files + AllocGlobal, O: Write, E: Write>(
    rt: &R,
    words: &Draw<'a>,
    out: &mut O,
    err: &mut E,
) -> Result<Told, Fault<'a>>
    ensures { LeavesCaptureTold result (O.contents out.old) (O.contents out.new) }
{
    let file = words.capture.file;
    let bytes = read_capture(rt, file)?;
    if is_recording(&bytes) {
        let found = session_in(rt.alloc(), &words.capture, &bytes, err)?;
        return draw_recorded(rt.alloc(), words, &found, out);
    }
    let capture = text(file, &bytes)?;
    draw_text(rt.alloc(), words, capture, out)
}

/// Draws a capture.
fn draw_text<'a, O: Write>(
    alloc: Global,
    words: &Draw<'a>,
    capture: &str,
    out: &mut O,
) -> Result<Told, Fault<'a>>
    ensures { LeavesCaptureTold result (O.contents out.old) (O.contents out.new) }
{
    match draw_capture(alloc, capture, first(words), words.count as usize, out) {
        Ok(told) => Ok(told),
        Err(TellFault::Output(error)) => Err(Fault::Output(error)),
        Err(TellFault::NoMemory) => Err(Fault::NoMemory),
    }
}

/// Draws the capture that a recording in the file of the words gave.
fn draw_recorded<'a, O: Write>(
    alloc: Global,
    words: &Draw<'a>,
    found: &Capture,
    out: &mut O,
) -> Result<Told, Fault<'a>>
    ensures { LeavesCaptureTold result (O.contents out.old) (O.contents out.new) }
{
    match draw_capture(
        alloc,
        found.text.as_str(),
        first(words),
        words.count as usize,
        out,
    ) {
        Ok(told) => faulty_where(words.capture.file, told, found.fault),
        Err(TellFault::Output(error)) => Err(Fault::Output(error)),
        Err(TellFault::NoMemory) => Err(Fault::NoMemory),
    }
}

/// The place of the first message that is drawn, from 0.
fn first(words: &Draw<'_>) -> usize {
    words.from.saturating_sub(1) as usize
}
