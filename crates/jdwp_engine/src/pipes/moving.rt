//! Bytes between an end of a session and a live pipe.
ghost use Rattle.std.specs.Prelude.{◌≡◌, ◌<◌, [], false, IfOk, IsTrue, OnErr};
ghost use Rattle.jdwp_end.specs.Ends.{room_of};
ghost use Rattle.jdwp_engine.specs.LiveMoving.{ReadsOn, WritesAll, WritesPart};
ghost use Rattle.jdwp_engine.specs.LiveStory.{FailsFlush, FailsRead, flushed};

use crate::pipes::pipe::{Came, LivePipe, Patience};
use jdwp_end::{CHUNK, NoInput, SessionEnd};

/// Writes all that waits to leave the end, each piece from where it lies, or says that a write failed. Then what was written before has
/// left the end. Nothing is flushed.
pub fn write_out<E: SessionEnd, P: LivePipe>(end: &mut E, pipe: &mut P) -> bool
    ensures all { IsTrue result → WritesAll E.end E.with_taken end.old end.new (P.story pipe.old)
        (P.story pipe.new) }
    ensures fails { result ≡ false → WritesPart E.end E.with_taken end.old end.new
        (P.story pipe.old) (P.story pipe.new) }
{
    while end.waiting() > 0 {
        match pipe.write(end.waiting_slices().0) {
            Ok(0) | Err(_) => return false,
            Ok(count) => end.leave(count),
        }
    }
    true
}

/// Reads once with this patience, where all that was written has left: at most 4,096 bytes, and no more than the end has room for. All that
/// came is fed, and whether something did is answered.
///
/// # Errors
/// Where the read failed, or the input ended. Then nothing is fed.
pub fn read_and_feed<E: SessionEnd, P: LivePipe>(
    end: &mut E,
    pipe: &mut P,
    patience: Patience,
    buffer: &mut [u8; CHUNK],
) -> Result<bool, NoInput>
    requires room { 0 < room_of (E.end end.old) }
    requires left { (P.story pipe.old).through.unflushed ≡ [] }
    ensures reads { IfOk result (λ some. ReadsOn E.end E.with_fed patience some end.old end.new
        (P.story pipe.old) (P.story pipe.new)) }
    ensures kept { OnErr result (end.new ≡ end.old) }
    ensures fails { OnErr result (FailsRead patience (P.story pipe.old) (P.story pipe.new)) }
{
    let room = end.room().min(CHUNK);
    match pipe.read(patience, &mut buffer[..room]) {
        Ok(Came::Bytes(count)) => {
            end.feed(&buffer[..count]);
            Ok(true)
        }
        Ok(Came::Nothing) => Ok(false),
        Ok(Came::End) | Err(_) => Err(NoInput),
    }
}

/// Sees that all that was written leaves, or says that the flush failed.
pub fn flush_all<P: LivePipe>(pipe: &mut P) -> bool
    ensures all { IsTrue result → P.story pipe.new ≡ flushed (P.story pipe.old) }
    ensures fails { result ≡ false → FailsFlush (P.story pipe.old) (P.story pipe.new) }
{
    pipe.flush().is_ok()
}
