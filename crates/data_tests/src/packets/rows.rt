//! Tables as text, a row a line, so that a table is one literal, and what is told of a row is compared as text.
use crate::asserts::expect_same;
use jdwp_wire::{DataFault, IdSizes, Wire};
use std::alloc::Global;
use std::fmt::Debug;
use std::process::Abort;
use test_parts::bytes;

/// Each row holds, as `0102/aa = FieldId(258)`: bytes as hex digits, of which those up to a slash, or else all, are a value; and what is
/// told of them, as `told` says. No bytes are `-`; points part digits.
pub(crate) fn are_so<R: Abort, T: Wire + Debug + Drop>(
    rt: &R,
    alloc: Global,
    sizes: &IdSizes,
    table: &str,
) {
    for row in table.lines() {
        let (hex, wanted) = row.split_once(' ').expect(rt, "a row");
        let found = told_of_digits::<R, T>(rt, alloc, sizes, hex);
        expect_same(rt, &found.as_str(), &wanted);
    }
}

/// What is told of these digits.
fn told_of_digits<R: Abort, T: Wire + Debug + Drop>(
    rt: &R,
    alloc: Global,
    sizes: &IdSizes,
    hex: &str,
) -> String {
    let (front, _) = hex.split_once('/').unwrap_or((hex, ""));
    let front = bytes(alloc, front).expect(rt, "memory");
    let all = bytes(alloc, hex).expect(rt, "memory");
    told::<R, T>(rt, alloc, sizes, &all, &front)
}

/// What is told of all bytes: `= VALUE` where exactly those of the front are read as this value, which is written as the same bytes;
/// `> VALUE` where it is written as others; `! NUMBER FAULT` where they have this first fault, read and passed by.
pub(crate) fn told<R: Abort, T: Wire + Debug + Drop>(
    rt: &R,
    alloc: Global,
    sizes: &IdSizes,
    all: &[u8],
    front: &[u8],
) -> String {
    let text = match T::take(alloc, all, sizes) {
        Ok((value, used)) => {
            expect_same(rt, &used, &front.len());
            let put = written(rt, alloc, sizes, &value);
            let is_same = put.get(1..) == Some(front);
            let sign = if is_same { '=' } else { '>' };
            format!(in alloc; "{sign} {value:?}")
        }
        Err(fault) => {
            expect_same(
                rt,
                &T::pass_front(all, all.len(), sizes).err(),
                &Some(fault),
            );
            format!(in alloc; "! {} {fault:?}", fault.number())
        }
    };
    text.expect(rt, "memory")
}

/// What a value is as bytes, behind the byte ee: `size` counts them, `put` writes them behind it, and `pass_front` passes them by.
pub(crate) fn written<R: Abort, T: Wire>(
    rt: &R,
    alloc: Global,
    sizes: &IdSizes,
    value: &T,
) -> Vec<u8> {
    let mut put = vec![in alloc; 0xee].expect(rt, "memory");
    value
        .put(sizes, &mut put)
        .expect(rt, "the value is written");
    let (first, behind) = put.split_first().expect(rt, "a byte");
    expect_same(rt, first, &0xee);
    expect_same(rt, &value.size(sizes), &Some(behind.len()));
    let rest = T::pass_front(behind, put.len(), sizes).expect(rt, "the value is passed by");
    expect_same(rt, &rest.len(), &0);
    put
}

/// The value that these digits are where ids have 8 bytes is too wide where they have 1, and what was there is left; it would have so many
/// bytes.
pub(crate) fn is_too_wide<R: Abort, T: Wire + Drop>(rt: &R, alloc: Global, hex: &str, size: usize) {
    let wide = IdSizes::new(8, 8, 8, 8, 8).expect(rt, "widths");
    let narrow = IdSizes::new(1, 1, 1, 1, 1).expect(rt, "widths");
    let all = bytes(alloc, hex).expect(rt, "memory");
    let (value, _) = T::take(alloc, &all, &wide).expect(rt, "a value");
    let mut left = vec![in alloc; 7].expect(rt, "memory");
    let put = value.put(&narrow, &mut left);
    expect_same(rt, &put, &Err(DataFault::IdTooWide));
    expect_same(rt, &left.as_slice(), &[7].as_slice());
    expect_same(rt, &value.size(&narrow), &Some(size));
}
