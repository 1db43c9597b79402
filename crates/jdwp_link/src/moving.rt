//! Bytes that go from one end of a link to the other, and bytes that are kept for an end that loses the connection.
ghost use Rattle.std.specs.Prelude.{◌≡◌, ◌≤◌, ◌+◌, ◌++◌, drop, false, length, min, take, true};
ghost use Rattle.jdwp_debugger.specs.Debuggers as debuggers;
ghost use Rattle.jdwp_end.specs.Ends.{room_of};
ghost use Rattle.jdwp_target.specs.Targets as targets;
ghost use Rattle.jdwp_link.specs.Ways.{with_carried};

use crate::byte_queue::ByteQueue;
use crate::delivery::deliver;
use crate::way::{Side, Way};
use jdwp_debugger::Debugger;
use jdwp_machine::Machine;
use jdwp_target::Target;

/// How many bytes are moved at once.
const PIECE: usize = 4_096;

/// Moves at most so many bytes of a queue to the target, as many as it has room for, and answers how many.
pub(crate) fn queue_to_target<M: Machine + Drop>(
    queue: &mut ByteQueue,
    target: &mut Target<M>,
    most: usize,
) -> usize
    ensures count { result ≡ min most (min (length queue.old.bytes) (room_of target.old.end)) }
    ensures left { queue.new ≡ record queue.old { bytes = drop result queue.old.bytes } }
    ensures fed { target.new ≡ targets.with_fed (take result queue.old.bytes) target.old }
{
    let count = most.min(queue.len().min(target.room()));
    target.feed(&queue.as_slice()[..count]);
    queue.drop_front(count);
    count
}

/// The same to the debugger.
pub(crate) fn queue_to_debugger(
    queue: &mut ByteQueue,
    debugger: &mut Debugger,
    most: usize,
) -> usize
    ensures count { result ≡ min most (min (length queue.old.bytes) (room_of debugger.old.end)) }
    ensures left { queue.new ≡ record queue.old { bytes = drop result queue.old.bytes } }
    ensures fed { debugger.new ≡ debuggers.with_fed (take result queue.old.bytes) debugger.old }
{
    let count = most.min(queue.len().min(debugger.room()));
    debugger.feed(&queue.as_slice()[..count]);
    queue.drop_front(count);
    count
}

/// Moves so many of the bytes that wait at the debugger to the target, which has room for them, over the way.
pub(crate) fn pieces_to_target<M: Machine + Drop, W: Way>(
    debugger: &mut Debugger,
    target: &mut Target<M>,
    way: &mut W,
    count: usize,
)
    requires waiting { count ≤ length debugger.old.end.outgoing }
    requires room { count ≤ room_of target.old.end }
    ensures taken { debugger.new ≡ debuggers.with_taken (take count debugger.old.end.outgoing)
        debugger.old }
    ensures fed { target.new ≡ targets.with_fed (take count debugger.old.end.outgoing) target.old }
    ensures carried { W.has_failed way.new ≡ false → W.story way.new ≡ with_carried Side.Debugger
        (take count debugger.old.end.outgoing) (W.story way.old) }
    ensures failed { W.has_failed way.old ≡ true → way.new ≡ way.old }
{
    let mut buffer = [0; PIECE];
    let mut left = count;
    while left > 0 {
        let piece = left.min(PIECE);
        deliver(debugger, target, way, Side::Debugger, &mut buffer[..piece]);
        left -= piece;
    }
}

/// The same the other way.
pub(crate) fn pieces_to_debugger<M: Machine + Drop, W: Way>(
    target: &mut Target<M>,
    debugger: &mut Debugger,
    way: &mut W,
    count: usize,
)
    requires waiting { count ≤ length target.old.end.outgoing }
    requires room { count ≤ room_of debugger.old.end }
    ensures taken { target.new ≡ targets.with_taken
        (take count target.old.end.outgoing) target.old }
    ensures fed { debugger.new ≡ debuggers.with_fed (take count target.old.end.outgoing)
        debugger.old }
    ensures carried { W.has_failed way.new ≡ false → W.story way.new ≡ with_carried Side.Target
        (take count target.old.end.outgoing) (W.story way.old) }
    ensures failed { W.has_failed way.old ≡ true → way.new ≡ way.old }
{
    let mut buffer = [0; PIECE];
    let mut left = count;
    while left > 0 {
        let piece = left.min(PIECE);
        deliver(target, debugger, way, Side::Target, &mut buffer[..piece]);
        left -= piece;
    }
}

/// Keeps what waits to leave the target behind what the queue has.
fn keep_target<M: Machine + Drop>(target: &mut Target<M>, queue: &mut ByteQueue)
    requires { length queue.old.bytes + length target.old.end.outgoing ≤ queue.old.capacity }
    ensures taken { target.new ≡ targets.with_taken target.old.end.outgoing target.old }
    ensures kept { queue.new ≡ record
        queue.old { bytes = queue.old.bytes ++ target.old.end.outgoing } }
{
    let mut buffer = [0; PIECE];
    let mut left = target.waiting();
    while left > 0 {
        let piece = target.take(&mut buffer);
        queue.append(&buffer[..piece]);
        left -= piece;
    }
}

/// Keeps what waits to leave the debugger behind what the queue has.
pub(crate) fn keep_debugger(debugger: &mut Debugger, queue: &mut ByteQueue)
    requires { length queue.old.bytes + length debugger.old.end.outgoing ≤ queue.old.capacity }
    ensures taken { debugger.new ≡ debuggers.with_taken debugger.old.end.outgoing debugger.old }
    ensures kept { queue.new ≡ record
        queue.old { bytes = queue.old.bytes ++ debugger.old.end.outgoing } }
{
    let mut buffer = [0; PIECE];
    let mut left = debugger.waiting();
    while left > 0 {
        let piece = debugger.take(&mut buffer);
        queue.append(&buffer[..piece]);
        left -= piece;
    }
}

/// The connection is lost at a target: what waits to leave is kept.
pub(crate) fn lose_and_keep<M: Machine + Drop>(target: &mut Target<M>, queue: &mut ByteQueue)
    requires { length queue.old.bytes + length target.old.end.outgoing ≤ queue.old.capacity }
    ensures lost { target.new
        ≡ targets.lost_target (targets.with_taken target.old.end.outgoing target.old) }
    ensures kept { queue.new ≡ record
        queue.old { bytes = queue.old.bytes ++ target.old.end.outgoing } }
{
    keep_target(target, queue);
    target.lose();
}
