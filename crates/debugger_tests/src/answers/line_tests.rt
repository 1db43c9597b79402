//! Lines, looked up in line tables.
use crate::asserts::expect_same;
use jdwp_answer::{LineEntry, LineTable};
use std::alloc::Global;
use std::process::Abort;

/// A line table with these entries, each a code index and a line.
fn table(
    rt: &impl Abort,
    alloc: Global,
    start: i64,
    end: i64,
    entries: &[(i64, i32)],
) -> LineTable {
    let mut lines = Vec::new(alloc);
    for &(code_index, line) in entries {
        lines
            .push(LineEntry { code_index, line })
            .expect(rt, "memory");
    }
    LineTable { start, end, lines }
}

/// In code from 0 to 9.
static ORDERED: [(i64, i32); 4] = [(1, 1), (3, 2), (5, 1), (7, 4)];

/// In code from 0 to 9, with an entry below it.
static UNORDERED: [(i64, i32); 4] = [(5, 1), (3, 2), (5, 6), (-1, 2)];

/// Each line, and where it begins.
static BEGINNINGS: [(bool, i32, Option<u64>); 9] = [
    (true, 1, Some(1)),
    (true, 2, Some(3)),
    (true, 3, None),
    (true, 4, Some(7)),
    (true, -1, None),
    (false, 1, Some(5)),
    (false, 2, Some(3)),
    (false, 6, Some(5)),
    (false, 4, None),
];

/// Each code index, and the line in which it is.
static PLACES: [(bool, u64, Option<i32>); 15] = [
    (true, 0, None),
    (true, 1, Some(1)),
    (true, 2, Some(1)),
    (true, 3, Some(2)),
    (true, 4, Some(2)),
    (true, 6, Some(1)),
    (true, 7, Some(4)),
    (true, 9, Some(4)),
    (true, 10, None),
    (true, u64::MAX, None),
    (false, 0, Some(2)),
    (false, 4, Some(2)),
    (false, 5, Some(6)),
    (false, 9, Some(6)),
    (false, 10, None),
];

#[test]
fn lines(rt: HostRuntime) {
    let ordered = table(&rt, rt.alloc(), 0, 9, &ORDERED);
    let unordered = table(&rt, rt.alloc(), 0, 9, &UNORDERED);
    for &(is_ordered, line, index) in BEGINNINGS.iter() {
        let of = if is_ordered { &ordered } else { &unordered };
        expect_same(&rt, &of.code_index_of(line), &index);
    }
    for &(is_ordered, index, line) in PLACES.iter() {
        let of = if is_ordered { &ordered } else { &unordered };
        expect_same(&rt, &of.line_at(index), &line);
    }
}

/// A native method has no code index.
#[test]
fn lines_of_a_native_method(rt: HostRuntime) {
    let native = table(&rt, rt.alloc(), -1, -1, &[]);
    expect_same(&rt, &native.has_code_index(0), &false);
    expect_same(&rt, &native.line_at(0), &None);
    expect_same(&rt, &native.code_index_of(1), &None);
}
