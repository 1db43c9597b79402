//! Text that goes out to a writer.
ghost use Rattle.std.specs.Prelude.{◌≡◌, ◌≢◌, ◌≤◌, ◌<◌, length, OnOk, OnErr, IfErr};
ghost use Rattle.std.specs.IoError.{error_kind};
ghost use Rattle.jdwp_program.specs.Printing.{AppendsFirst};

use std::io;
use std::io::{ErrorKind, Write};

/// Writes the text, and answers how many of its bytes were taken: all of them, or those before an error. A call that was interrupted
/// is made again.
pub(crate) fn print<W: Write>(out: &mut W, text: &[u8]) -> (usize, io::Result<()>)
    ensures appends { AppendsFirst (W.contents out.old) (W.contents out.new) result.0 text.now }
    ensures all { OnOk result.1 (result.0 ≡ length text.now) }
    ensures part { OnErr result.1 (result.0 < length text.now) }
{
    let mut sent = 0;
    'writes: for _ in 0..u64::MAX {
        if sent >= text.len() {
            break 'writes;
        }
        match out.write(&text[sent..]) {
            Ok(0) => return (sent, Err(io::Error::from(ErrorKind::WriteZero))),
            Ok(count) => sent += count,
            Err(error) => {
                if error.kind() != ErrorKind::Interrupted {
                    return (sent, Err(error));
                }
            }
        }
    }
    if sent >= text.len() {
        (sent, Ok(()))
    } else {
        (sent, Err(io::Error::from(ErrorKind::TimedOut)))
    }
}
