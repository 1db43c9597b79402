//! Bytes between a target and a pipe of memory.
ghost use Rattle.std.specs.Prelude.{◌≡◌, ◌≤◌, ◌+◌, ◌*◌, ◌++◌, [], false, true, length, take};
ghost use Rattle.jdwp_end.specs.Ends.{is_open};
ghost use Rattle.jdwp_end.specs.Story.{early_by, some_of, zero_of};
ghost use Rattle.jdwp_partner.specs.Keeping.{IsMoved, IsOfSession};
ghost use Rattle.jdwp_target.specs.Targets.{with_taken};

use crate::through::Through;
use jdwp_machine::Machine;
use jdwp_target::Target;

/// Moves as many of the bytes that wait at the target to the front of the buffer as fit, and answers how many.
fn take_from<M: Machine + Drop>(target: &mut Target<M>, buffer: &mut [u8]) -> usize
    ensures within { result ≤ length buffer.new }
    ensures taken { target.new ≡ with_taken (take result buffer.new) target.old }
    ensures none { target.old.end.outgoing ≡ [] → target.new ≡ target.old }
{
    target.take(buffer)
}

/// The same, which is noted.
pub(crate) fn read_from<M: Machine + Drop>(
    target: &mut Target<M>,
    through: &mut Through,
    buffer: &mut [u8],
) -> usize
    requires { IsMoved target.old through.old }
    ensures within { result ≤ length buffer.new }
    ensures session { IsOfSession target.old target.new }
    ensures moved { IsMoved target.new through.new }
    ensures none { target.old.end.outgoing ≡ [] → target.new ≡ target.old }
    ensures story { through.new ≡ record through.old {
      read = through.old.read ++ take result buffer.new;
      rooms = through.old.rooms + some_of buffer.new;
      early = through.old.early + early_by buffer.new through.old.unflushed;
      ends = through.old.ends + some_of buffer.new * zero_of result;
    } }
{
    let count = take_from(target, buffer);
    through.note_read(buffer, count);
    count
}

/// Feeds the target with as many of these bytes as it has room for, or drops all where its session is over. How many that are.
pub(crate) fn write_to<M: Machine + Drop>(
    target: &mut Target<M>,
    through: &mut Through,
    bytes: &[u8],
) -> usize
    requires { IsMoved target.old through.old }
    ensures within { result ≤ length bytes.now }
    ensures session { IsOfSession target.old target.new }
    ensures moved { IsMoved target.new through.new }
    ensures story { through.new ≡ record through.old {
      written = through.old.written ++ take result bytes.now;
      unflushed = through.old.unflushed ++ take result bytes.now;
      failed_writes = through.old.failed_writes + some_of bytes.now * zero_of result;
    } }
{
    if target.is_open() {
        feed_to(target, through, bytes)
    } else {
        drop_all(target, through, bytes)
    }
}

/// Feeds the target with as many of these bytes as it has room for, and answers how many.
fn feed_to<M: Machine + Drop>(target: &mut Target<M>, through: &mut Through, bytes: &[u8]) -> usize
    requires opened { is_open target.old.end ≡ true }
    requires moved { IsMoved target.old through.old }
    ensures within { result ≤ length bytes.now }
    ensures session { IsOfSession target.old target.new }
    ensures moved { IsMoved target.new through.new }
    ensures story { through.new ≡ record through.old {
      written = through.old.written ++ take result bytes.now;
      unflushed = through.old.unflushed ++ take result bytes.now;
      failed_writes = through.old.failed_writes + some_of bytes.now * zero_of result;
    } }
{
    let count = target.feed(bytes);
    through.note_write(bytes, count);
    count
}

/// All of these bytes are dropped, since the session of the target is over. How many they are.
fn drop_all<M: Machine + Drop>(target: &Target<M>, through: &mut Through, bytes: &[u8]) -> usize
    requires over { is_open target.now.end ≡ false }
    requires moved { IsMoved target.now through.old }
    ensures within { result ≤ length bytes.now }
    ensures moved { IsMoved target.now through.new }
    ensures story { through.new ≡ record through.old {
      written = through.old.written ++ take result bytes.now;
      unflushed = through.old.unflushed ++ take result bytes.now;
      failed_writes = through.old.failed_writes + some_of bytes.now * zero_of result;
    } }
{
    let count = bytes.len();
    through.note_write(bytes, count);
    count
}
