//! Bytes that go from one end straight to the other.
ghost use Rattle.std.specs.Prelude.{◌≡◌, ◌≤◌, false, length, true};
ghost use Rattle.jdwp_link.specs.Moving.{moved};
ghost use Rattle.jdwp_link.specs.Ways.{with_carried};

use crate::way::{Side, Way};
use jdwp_end::SessionEnd;

/// Moves what waits at this end to the other, as much as a buffer of at most 4,096 bytes holds and the other end has room for. It is carried
/// whole by the way before it is fed, unless the way fails; and all of it is fed whatever the way does.
pub fn deliver<A: SessionEnd, B: SessionEnd, W: Way>(
    from: &mut A,
    to: &mut B,
    way: &mut W,
    side: Side,
    buffer: &mut [u8],
)
    requires { length buffer.old ≤ 4096 }
    ensures taken { from.new ≡ A.with_taken (moved (length buffer.old) (A.end from.old)
        (B.end to.old)) from.old }
    ensures fed { to.new ≡ B.with_fed (moved (length buffer.old) (A.end from.old)
        (B.end to.old)) to.old }
    ensures carried { W.has_failed way.new ≡ false → W.story way.new ≡ with_carried side
        (moved (length buffer.old) (A.end from.old) (B.end to.old)) (W.story way.old) }
    ensures failed { W.has_failed way.old ≡ true → way.new ≡ way.old }
{
    let most = buffer.len().min(to.room());
    let count = from.take(&mut buffer[..most]);
    way.carry(side, &buffer[..count]);
    to.feed(&buffer[..count]);
}
