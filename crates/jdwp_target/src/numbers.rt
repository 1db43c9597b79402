//! Numbers as they are enqueued to leave.
ghost use Rattle.std.specs.Prelude.{◌≡◌, ◌≤◌, ◌<◌, ◌+◌, ◌^◌, length, pos};
ghost use Rattle.jdwp_end.specs.Ends.{most_outgoing, with_enqueued};
ghost use Rattle.jdwp_wire.specs.Basic.{int_canonical};

use byteorder::{BigEndian, ByteOrder};
use jdwp_end::End;
use jdwp_wire::ErrorCode;

/// Enqueues a number as an int.
pub fn enqueue_int(number: u32, end: &mut End)
    requires { length end.old.outgoing + 4 ≤ most_outgoing end.old.limits }
    ensures { end.new ≡ with_enqueued (int_canonical (pos number)) end.old }
{
    let mut bytes = [0; 4];
    BigEndian::write_u32(&mut bytes, number);
    end.enqueue(&bytes);
}

/// An error code fits its two bytes.
pub fn fits_code(error: ErrorCode) -> u16
    ensures code { result ≡ error.0 }
    ensures fits { error.0 < 2 ^ 16 }
{
    error.0
}
