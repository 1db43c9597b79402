//! Histories, which only contracts read.
ghost use Rattle.std.specs.Prelude.{◌≡◌, ◌∷◌, []};

use crate::asserts::expect_same;
use std::mem::size_of;
use trace::{History, Trace};

/// A history of 1 and then 2.
fn one_and_two() -> Trace<u8>
    ensures { result.items ≡ 1 ∷ 2 ∷ [] }
{
    let mut history = Trace::new();
    history.push(&1);
    history.push(&2);
    history
}

/// A history of the bytes 1, 2 and 3, which came in two pieces.
fn one_to_three() -> History
    ensures { result.bytes ≡ 1 ∷ 2 ∷ 3 ∷ [] }
{
    let mut history = History::new();
    history.extend(&[1, 2]);
    history.extend(&[3]);
    history
}

#[test]
fn histories_hold_no_bytes(rt: HostRuntime) {
    let _items = one_and_two();
    let _bytes = one_to_three();
    expect_same(&rt, &size_of::<Trace<u64>>(), &0);
    expect_same(&rt, &size_of::<History>(), &0);
}
