//! Bytes that wait in a piece of a buffer.
ghost use Rattle.std.specs.Prelude.{◌≡◌, ◌<◌, ◌≤◌, ◌-◌, length};
ghost use Rattle.jdwp_relay.specs.Spans.{ReadsBehind, span};

use crate::sides::{Came, Source};

/// Moves the bytes from one place up to another to the front, where no byte fits behind them, and says where they begin and end then.
#[tactic(auto, using(crate::proofs::Pieces::span_moved))]
pub(crate) fn make_room(bytes: &mut [u8], from: usize, to: usize) -> (usize, usize)
    requires order { from ≤ to }
    requires within { to ≤ length bytes.old }
    requires room { to - from < length bytes.old }
    ensures order { result.0 ≤ result.1 }
    ensures room { result.1 < length bytes.new }
    ensures same { span result.0 result.1 bytes.new ≡ span from to bytes.old }
{
    if to < bytes.len() {
        return (from, to);
    }
    bytes.copy_within(from..to, 0);
    (0, to - from)
}

/// Reads once, behind the bytes from one place up to another.
pub(crate) fn read_behind<S: Source>(
    source: &mut S,
    bytes: &mut [u8],
    from: usize,
    to: usize,
) -> Came
    requires order { from ≤ to }
    requires room { to < length bytes.old }
    ensures { ReadsBehind from to bytes.old (S.came source.old) result bytes.new (S.came source.new) }
{
    source.read(&mut bytes[to..])
}
