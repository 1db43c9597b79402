//! Captures on standard input.
ghost use Rattle.jdwp_program.specs.Outputs.{LeavesCaptureTold};

use crate::files::{check_recorded, session_in, show_recorded};
use jdwp_program::{
    CaptureFile, Fault, StreamFault, Told, check_stream, is_recording, show_stream,
};
use std::alloc::Global;
use std::fs;
use std::io::{Read, Write};
use std::rt::Files;

/// The file that standard input is.
const INPUT: &str = "/dev/stdin";

/// How many bytes in front show whether it is a recording of the network.
const FRONT: u64 = 4;

/// Shows the capture on standard input while it is read, or that of a session in a recording of the network, which is read whole before.
///
/// # Errors
/// `File` where it can't be read, behind the lines of what was read of a capture; `Recording` where it gives no capture, and, behind what was
/// told, where it gives not all of one; `Output` where the output can't be written; `NoMemory`.
pub(crate) fn show_input<'a, R: Files + AllocGlobal, O: Write, E: Write>(
    rt: &R,
    words: &CaptureFile<'a>,
    out: &mut O,
    err: &mut E,
) -> Result<Told, Fault<'a>>
    ensures { LeavesCaptureTold result (O.contents out.old) (O.contents out.new) }
{
    let mut input = open(rt, words.file)?;
    let begun = read_front(rt.alloc(), words.file, &mut input)?;
    if is_recording(&begun) {
        let bytes = read_rest(words.file, begun, &mut input)?;
        let found = session_in(rt.alloc(), words, &bytes, err)?;
        return show_recorded(rt.alloc(), words, &found, out);
    }
    show_read(rt.alloc(), words, &begun, &mut input, out)
}

/// Shows a capture of which these bytes were read while the rest is.
fn show_read<'a, I: Read, O: Write>(
    alloc: Global,
    words: &CaptureFile<'a>,
    begun: &[u8],
    input: &mut I,
    out: &mut O,
) -> Result<Told, Fault<'a>>
    ensures { LeavesCaptureTold result (O.contents out.old) (O.contents out.new) }
{
    match show_stream(alloc, words.table, begun, input, out) {
        Ok(told) => Ok(told),
        Err(StreamFault::Input(error)) => Err(Fault::of_file(words.file, error)),
        Err(StreamFault::Output(error)) => Err(Fault::Output(error)),
        Err(StreamFault::NoMemory) => Err(Fault::NoMemory),
    }
}

/// Judges the capture on standard input while it is read, or that of a session in a recording of the network, which is read whole before.
///
/// # Errors
/// As those of `show_input`; nothing of a capture was told before it was read.
pub(crate) fn check_input<'a, R: Files + AllocGlobal, O: Write, E: Write>(
    rt: &R,
    words: &CaptureFile<'a>,
    out: &mut O,
    err: &mut E,
) -> Result<Told, Fault<'a>>
    ensures { LeavesCaptureTold result (O.contents out.old) (O.contents out.new) }
{
    let mut input = open(rt, words.file)?;
    let begun = read_front(rt.alloc(), words.file, &mut input)?;
    if is_recording(&begun) {
        let bytes = read_rest(words.file, begun, &mut input)?;
        let found = session_in(rt.alloc(), words, &bytes, err)?;
        return check_recorded(rt.alloc(), words, &found, out);
    }
    check_read(rt.alloc(), words, &begun, &mut input, out)
}

/// Judges a capture of which these bytes were read while the rest is.
fn check_read<'a, I: Read, O: Write>(
    alloc: Global,
    words: &CaptureFile<'a>,
    begun: &[u8],
    input: &mut I,
    out: &mut O,
) -> Result<Told, Fault<'a>>
    ensures { LeavesCaptureTold result (O.contents out.old) (O.contents out.new) }
{
    match check_stream(alloc, words.table, begun, input, out) {
        Ok(told) => Ok(told),
        Err(StreamFault::Input(error)) => Err(Fault::of_file(words.file, error)),
        Err(StreamFault::Output(error)) => Err(Fault::Output(error)),
        Err(StreamFault::NoMemory) => Err(Fault::NoMemory),
    }
}

/// Standard input, which was named so.
fn open<'a, R: Files>(rt: &R, name: &'a str) -> Result<R::File, Fault<'a>> {
    fs::open(rt, INPUT).map_err(|error| Fault::of_file(name, error))
}

/// The first bytes of an input of this name, fewer where it ends before.
fn read_front<'a, I: Read>(
    alloc: Global,
    name: &'a str,
    input: &mut I,
) -> Result<Vec<u8>, Fault<'a>> {
    let mut front = Vec::new(alloc);
    match input.take(FRONT).read_to_end(&mut front) {
        Ok(_) => Ok(front),
        Err(error) => Err(Fault::of_file(name, error)),
    }
}

/// These bytes of an input of this name, and behind them what is still to be read of it.
fn read_rest<'a, I: Read>(
    name: &'a str,
    mut bytes: Vec<u8>,
    input: &mut I,
) -> Result<Vec<u8>, Fault<'a>> {
    match input.read_to_end(&mut bytes) {
        Ok(_) => Ok(bytes),
        Err(error) => Err(Fault::of_file(name, error)),
    }
}
