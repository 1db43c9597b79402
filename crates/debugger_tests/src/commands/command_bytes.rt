//! What a command carries as bytes: ids have 8 bytes.
use crate::asserts::expect_same;
use jdwp_layout::{layout_of, write};
use jdwp_mirror::{Carried, Command};
use jdwp_wire::IdSizes;
use std::alloc::Global;
use std::process::Abort;
use test_parts::bytes;

/// The data of a command as bytes.
fn written(rt: &impl Abort, alloc: Global, command: &Command) -> Vec<u8> {
    let row = layout_of(command.set(), command.number()).expect(rt, "a row");
    let layouts = row.layouts.expect(rt, "a row with layouts");
    let Carried::Content(content) = command.carried() else {
        panic!(rt; "raw bytes");
    };
    let sizes = IdSizes::new(8, 8, 8, 8, 8).expect(rt, "widths");
    let mut bytes = Vec::new(alloc);
    let items = content.items();
    write(&layouts.request, &sizes, items, &mut bytes).expect(rt, "the data are written");
    bytes
}

/// The command has this set and this number, and these are its data.
pub(crate) fn is_written(
    rt: &impl Abort,
    alloc: Global,
    command: &Command,
    set: u8,
    number: u8,
    hex: &str,
) {
    expect_same(rt, &(command.set(), command.number()), &(set, number));
    let wanted = bytes(alloc, hex).expect(rt, "memory");
    expect_same(rt, &written(rt, alloc, command), &wanted);
}
