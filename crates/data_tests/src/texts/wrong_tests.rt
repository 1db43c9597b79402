//! Texts that say no data, and why not.
use crate::asserts::expect_same;
use crate::texts::right_tests::layout;
use jdwp_layout::Layout;
use jdwp_text::{Expected, TextFault, read_data};
use jdwp_wire::{DataFault, IdSizes};
use std::alloc::Global;
use std::process::Abort;

/// The set and the number of a command, whether it is its reply, a text, the place of its fault, and what is expected there.
static WRONG: [(u8, u8, bool, &str, usize, Expected); 46] = [
    (1, 8, false, " ", 0, Expected::End),
    (1, 8, false, " 1", 0, Expected::End),
    (1, 10, false, "", 0, Expected::Space),
    (1, 10, false, "1", 0, Expected::Space),
    (1, 10, false, " ", 1, Expected::Int),
    (1, 10, false, "  1", 1, Expected::Int),
    (1, 10, false, " +1", 1, Expected::Int),
    (1, 10, false, " -", 1, Expected::Int),
    (1, 10, false, " 2147483648", 1, Expected::Int),
    (1, 10, false, " -2147483649", 1, Expected::Int),
    (1, 10, false, " 99999999999999999999999", 1, Expected::Int),
    (1, 10, false, " 1 ", 2, Expected::End),
    (1, 10, false, " 1x", 2, Expected::End),
    (1, 10, false, " 01", 1, Expected::ShownForm),
    (1, 10, false, " -0", 1, Expected::ShownForm),
    (1, 2, false, " LMain;", 1, Expected::Text),
    (1, 2, false, " \"LMain;", 8, Expected::Quote),
    (1, 2, false, " \"a\\n\"", 3, Expected::Escape),
    (1, 2, false, " \"a\\x0\"", 3, Expected::Escape),
    (1, 2, false, " \"a\\x0A\"", 3, Expected::Escape),
    (1, 2, false, " \"a\\x41\"", 3, Expected::ShownForm),
    (1, 2, false, " \"a\u{9}\"", 3, Expected::ShownForm),
    (1, 2, false, " \"\\xff\"", 1, Expected::Text),
    (1, 2, false, " \"a\"b", 4, Expected::End),
    (11, 12, false, " 1", 1, Expected::Id),
    (11, 12, false, " #", 1, Expected::Id),
    (11, 12, false, " #x", 1, Expected::Id),
    (11, 12, false, " #18446744073709551616", 1, Expected::Id),
    (11, 12, false, " #007", 2, Expected::ShownForm),
    (15, 1, false, " 256 0 []", 1, Expected::Byte),
    (15, 1, false, " 2 0 ", 5, Expected::List),
    (15, 1, false, " 2 0 [", 6, Expected::ListEnd),
    (15, 1, false, " 2 0 [7]", 6, Expected::Entry),
    (15, 1, false, " 2 0 [(13, 1)]", 6, Expected::Kind),
    (15, 1, false, " 2 0 [(x)]", 7, Expected::Kind),
    (15, 1, false, " 2 0 [(7)]", 8, Expected::Separator),
    (15, 1, false, " 2 0 [(7, #10)]", 10, Expected::Location),
    (
        15,
        1,
        false,
        " 2 0 [(7, 4:#10:#20:3)]",
        10,
        Expected::Location,
    ),
    (
        15,
        1,
        false,
        " 2 0 [(7, 0:#10:#20:3)]",
        13,
        Expected::ShownForm,
    ),
    (15, 1, false, " 2 0 [(1, 2]", 11, Expected::EntryEnd),
    (15, 1, false, " 2 0 [(1, 2) (1, 2)]", 12, Expected::ListEnd),
    (
        15,
        1,
        false,
        " 2 0 [(8, #0, 1, false)]",
        14,
        Expected::Boolean,
    ),
    (16, 2, false, " #1 #30 [(0, 7)]", 13, Expected::Value),
    (16, 2, false, " #1 #30 [(0, Z:2)]", 13, Expected::Value),
    (13, 2, true, " V[]", 1, Expected::Region),
    (13, 2, true, " I[L#5]", 3, Expected::Element),
];

/// The text says no data, for this reason.
fn is_refused(rt: &impl Abort, alloc: Global, layout: &Layout, text: &str, fault: TextFault) {
    let sizes = IdSizes::new(8, 8, 8, 8, 8).expect(rt, "widths");
    let told = read_data(alloc, layout, &sizes, text).err();
    expect_same(rt, &told, &Some(fault));
}

#[test]
fn texts_that_say_none(rt: HostRuntime) {
    for (set, number, reply, text, place, expected) in &WRONG {
        let layout = layout(&rt, *set, *number, *reply);
        let fault = TextFault::At(*place, *expected);
        is_refused(&rt, rt.alloc(), &layout, text, fault);
    }
}

#[test]
fn ids_above_their_width(rt: HostRuntime) {
    let sizes = IdSizes::new(8, 8, 2, 8, 8).expect(&rt, "widths");
    let layout = layout(&rt, 11, 12, false);
    let told = read_data(rt.alloc(), &layout, &sizes, " #65536").err();
    let fault = TextFault::Unwritable(DataFault::IdTooWide);
    expect_same(&rt, &told, &Some(fault));
}

#[test]
fn faults_in_words(rt: HostRuntime) {
    let fault = TextFault::At(10, Expected::Location);
    let told = format!(in rt.alloc(); "{fault}").expect(&rt, "memory");
    let wanted = "at byte 10, counted from 0: expected a location, as 1:#10:#20:3";
    expect_same(&rt, &told.as_str(), &wanted);
}
