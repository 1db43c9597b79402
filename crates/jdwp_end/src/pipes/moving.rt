//! Bytes between an end of a session and a pipe.
ghost use Rattle.std.specs.Prelude.{◌≡◌, ◌<◌, ◌≤◌, [], false, length, IsTrue, OnErr, OnOk};
ghost use Rattle.jdwp_end.specs.Ends.{room_of};
ghost use Rattle.jdwp_end.specs.Moving.{ReadsMore, WritesAll, WritesPart};
ghost use Rattle.jdwp_end.specs.Story.{FailsFlush, FailsRead, FailsWrite, flushed, with_written};

use crate::pipes::pipe::Pipe;
use crate::session_end::SessionEnd;
use thiserror::Error;

/// How many bytes are read at once at most.
pub const CHUNK: usize = 4096;

/// No byte came: the read failed, or gave 0 where there was room for one, which is the end of the input.
#[derive(Clone, Copy, Debug, PartialEq, Eq, Error)]
#[error("no byte came")]
pub struct NoInput;

/// Writes all that waits to leave the end, each piece from where it lies, or says that a write failed. Then what was written before has
/// left the end. Nothing is flushed.
pub fn write_out<E: SessionEnd, P: Pipe>(end: &mut E, pipe: &mut P) -> bool
    ensures all { IsTrue result → WritesAll E.end E.with_taken end.old end.new (P.story pipe.old)
        (P.story pipe.new) }
    ensures fails { result ≡ false → WritesPart E.end E.with_taken end.old end.new
        (P.story pipe.old) (P.story pipe.new) }
    ensures rooms { (P.story pipe.new).rooms ≡ (P.story pipe.old).rooms }
{
    while end.waiting() > 0 {
        match pipe.write(end.waiting_slices().0) {
            Ok(0) | Err(_) => return false,
            Ok(count) => end.leave(count),
        }
    }
    true
}

/// Reads once, where all that was written has left: at most 4,096 bytes, and no more than the end has room for. All that came is fed.
///
/// # Errors
/// Where the read failed, or gave 0. Then nothing is fed.
pub fn read_and_feed<E: SessionEnd, P: Pipe>(
    end: &mut E,
    pipe: &mut P,
    buffer: &mut [u8; CHUNK],
) -> Result<(), NoInput>
    requires room { 0 < room_of (E.end end.old) }
    requires left { (P.story pipe.old).unflushed ≡ [] }
    ensures goes { OnOk result (ReadsMore E.end E.with_fed end.old end.new (P.story pipe.old)
        (P.story pipe.new)) }
    ensures kept { OnErr result (end.new ≡ end.old) }
    ensures fails { OnErr result (FailsRead (P.story pipe.old) (P.story pipe.new)) }
{
    let room = end.room().min(CHUNK);
    match pipe.read(&mut buffer[..room]) {
        Ok(0) | Err(_) => Err(NoInput),
        Ok(count) => {
            feed_all(end, &buffer[..count]);
            Ok(())
        }
    }
}

/// Feeds all of the bytes.
fn feed_all<E: SessionEnd>(end: &mut E, bytes: &[u8])
    requires { length bytes.now ≤ room_of (E.end end.old) }
    ensures { end.new ≡ E.with_fed bytes.now end.old }
{
    end.feed(bytes);
}

/// Writes all of the bytes, or says that a write failed. Then a beginning of them was written. Nothing is flushed.
pub fn write_all<P: Pipe>(pipe: &mut P, bytes: &[u8]) -> bool
    ensures all { IsTrue result → P.story pipe.new ≡ with_written bytes.now (P.story pipe.old) }
    ensures fails { result ≡ false → FailsWrite (P.story pipe.old) (P.story pipe.new) bytes.now }
    ensures rooms { (P.story pipe.new).rooms ≡ (P.story pipe.old).rooms }
{
    let mut rest = bytes;
    while !rest.is_empty() {
        match pipe.write(rest) {
            Ok(0) | Err(_) => return false,
            Ok(count) => rest = &rest[count..],
        }
    }
    true
}

/// Sees that all that was written leaves, or says that the flush failed.
pub fn flush_all<P: Pipe>(pipe: &mut P) -> bool
    ensures all { IsTrue result → P.story pipe.new ≡ flushed (P.story pipe.old) }
    ensures fails { result ≡ false → FailsFlush (P.story pipe.old) (P.story pipe.new) }
{
    pipe.flush().is_ok()
}
