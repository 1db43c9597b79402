//! Data that read, cut short at each byte: the codec answers that they are short, and where.
use crate::asserts::{expect_same, expect_that_for};
use jdwp_layout::{Field, Item, Layout, layout_of, read};
use jdwp_wire::{DataFault, IdSizes};
use std::alloc::Global;
use std::process::Abort;
use test_parts::{bytes, commands};

/// Whose data they are.
#[derive(Clone, Copy)]
enum Of {
    /// This command.
    Command((u8, u8)),
    /// The reply to it.
    Reply((u8, u8)),
    /// A value alone.
    Value,
    /// A region of an array alone.
    Region,
    /// A location alone.
    Location,
}

static VALUE: [Item; 1] = [Item::One(Field::Value)];

static REGION: [Item; 1] = [Item::Region];

static LOCATION: [Item; 1] = [Item::One(Field::Location)];

/// The layout of a command's data, or of its reply's.
fn layout_in_row(rt: &impl Abort, (set, number): (u8, u8), is_reply: bool) -> Layout {
    let row = layout_of(set, number).expect(rt, "a row");
    let layouts = row.layouts.expect(rt, "layouts in the row");
    if is_reply {
        layouts.reply
    } else {
        layouts.request
    }
}

/// The layout of these data.
fn layout(rt: &impl Abort, of: Of) -> Layout {
    match of {
        Of::Command(command) => layout_in_row(rt, command, false),
        Of::Reply(command) => layout_in_row(rt, command, true),
        Of::Value => Layout { items: &VALUE },
        Of::Region => Layout { items: &REGION },
        Of::Location => Layout { items: &LOCATION },
    }
}

/// Whose data they are, how wide each id is, and the data.
type Vector = (Of, u32, &'static str);

/// Data of commands.
static COMMANDS: [Vector; 30] = [
    (Of::Command(commands::SUSPEND_COUNT), 8, "0000000000000001"),
    (Of::Command(commands::RESUME_THREAD), 8, "0000000000000002"),
    (Of::Command(commands::THREAD_NAME), 8, "0000000000000001"),
    (
        Of::Command(commands::FRAMES),
        8,
        "0000000000000001 00000000 ffffffff",
    ),
    (
        Of::Command(commands::FRAMES),
        8,
        "0000000000000001 00000002 ffffffff",
    ),
    (
        Of::Command(commands::FRAMES),
        8,
        "0000000000000001 00000001 00000001",
    ),
    (
        Of::Command(commands::CLASSES_BY_SIGNATURE),
        8,
        "00000006 4c4d61696e3b",
    ),
    (Of::Command(commands::EXIT), 8, "00000000"),
    (Of::Command(commands::SIGNATURE), 8, "000000000000000a"),
    (Of::Command(commands::CLASS_STATUS), 8, "000000000000000a"),
    (Of::Command(commands::CLASS_MODULE), 8, "000000000000000a"),
    (Of::Command(commands::MODULE_NAME), 8, "0000000000000006"),
    (Of::Command(commands::MODULE_NAME), 8, "0000000000000007"),
    (
        Of::Command(commands::SET_SLOTS),
        8,
        "0000000000000001 000000000000001e 00000001 00000000 49 00000005",
    ),
    (
        Of::Command(commands::GET_SLOTS),
        8,
        "0000000000000001 000000000000001e 00000001 00000000 49",
    ),
    (Of::Command(commands::CLEAR_REQUEST), 8, "02 00000001"),
    (Of::Command(commands::SET_REQUEST), 8, "14 03 00000000"),
    (Of::Command(commands::SET_REQUEST), 8, "7f 00 00000000"),
    (Of::Command(commands::SET_REQUEST), 8, "02 03 00000000"),
    (Of::Command(commands::SET_REQUEST), 8, "02 00 00000000"),
    (Of::Command(commands::SET_REQUEST), 8, "07 01 00000000"),
    (
        Of::Command(commands::SET_REQUEST),
        8,
        "06 00 00000001 05 00000001 2a",
    ),
    (
        Of::Command(commands::SET_REQUEST),
        8,
        "02 00 00000001 07 01 000000000000000a 0000000000000014 0000000000000003",
    ),
    (
        Of::Command(commands::SET_REQUEST),
        8,
        "02 02 00000001 07 01 000000000000000a 0000000000000014 0000000000000003",
    ),
    (
        Of::Command(commands::SET_REQUEST),
        8,
        "02 00 00000001 07 01 000000000000000a 0000000000000014 000000000000000a",
    ),
    (
        Of::Command(commands::SET_REQUEST),
        8,
        "02 00 00000002 07 01 000000000000000a 0000000000000014 0000000000000003 01 00000002",
    ),
    (
        Of::Command(commands::SET_REQUEST),
        8,
        "02 00 00000002 01 00000000 07 01 000000000000000a 0000000000000014 0000000000000003",
    ),
    (
        Of::Command(commands::SET_REQUEST),
        8,
        "01 00 00000001 0a 0000000000000001 00000001 00000000",
    ),
    (
        Of::Command(commands::SET_REQUEST),
        8,
        "04 00 00000001 08 0000000000000000 07 00",
    ),
    (
        Of::Command(commands::SET_REQUEST),
        8,
        "04 00 00000001 08 0000000000000000 01 00",
    ),
];

/// Data of replies.
static REPLIES: [Vector; 22] = [
    (
        Of::Reply(commands::ID_SIZES),
        8,
        "00000008 00000008 00000008 00000008 00000008",
    ),
    (
        Of::Reply(commands::ID_SIZES),
        1,
        "00000001 00000001 00000001 00000001 00000001",
    ),
    (
        Of::Reply(commands::ID_SIZES),
        8,
        "00000008 00000008 00000009 00000008 00000008",
    ),
    (Of::Reply(commands::SUSPEND_COUNT), 8, "00000001"),
    (Of::Reply(commands::SUSPEND_COUNT), 8, "00000000"),
    (Of::Reply(commands::SUSPEND_COUNT), 8, "ffffffff"),
    (Of::Reply(commands::THREAD_NAME), 8, "00000004 6d61696e"),
    (
        Of::Reply(commands::FRAMES),
        8,
        "00000001 000000000000001e 01 000000000000000a 0000000000000014 0000000000000000",
    ),
    (
        Of::Reply(commands::CLASSES_BY_SIGNATURE),
        8,
        "00000001 01 000000000000000a 00000003",
    ),
    (Of::Reply(commands::CLASSES_BY_SIGNATURE), 8, "00000000"),
    (
        Of::Reply(commands::ALL_THREADS),
        8,
        "00000001 0000000000000001",
    ),
    (
        Of::Reply(commands::ALL_THREADS),
        8,
        "00000002 0000000000000001 0000000000000002",
    ),
    (
        Of::Reply(commands::ALL_MODULES),
        8,
        "00000001 0000000000000006",
    ),
    (Of::Reply(commands::ALL_MODULES), 8, "00000000"),
    (Of::Reply(commands::SIGNATURE), 8, "00000006 4c4d61696e3b"),
    (Of::Reply(commands::CLASS_STATUS), 8, "00000003"),
    (Of::Reply(commands::CLASS_MODULE), 8, "0000000000000006"),
    (Of::Reply(commands::CLASS_MODULE), 8, "0000000000000000"),
    (Of::Reply(commands::SET_REQUEST), 8, "00000001"),
    (Of::Reply(commands::SET_REQUEST), 8, "00000002"),
    (Of::Reply(commands::GET_SLOTS), 8, "00000001 49 00000005"),
    (Of::Reply(commands::MODULE_NAME), 8, "00000003 617070"),
];

/// Composites, and values, regions and locations alone.
static OTHERS: [Vector; 18] = [
    (
        Of::Command(commands::COMPOSITE),
        8,
        "00 00000001 5a 00000000 0000000000000001",
    ),
    (
        Of::Command(commands::COMPOSITE),
        8,
        "02 00000001 5a 00000000 0000000000000001",
    ),
    (
        Of::Command(commands::COMPOSITE),
        8,
        "03 00000001 5a 00000000 0000000000000001",
    ),
    (
        Of::Command(commands::COMPOSITE),
        1,
        "02 00000001 5a 00000000 01",
    ),
    (
        Of::Command(commands::COMPOSITE),
        8,
        "00 00000001 63 00000000",
    ),
    (Of::Command(commands::COMPOSITE), 8, "00 00000000"),
    (
        Of::Command(commands::COMPOSITE),
        8,
        "01 00000001 07 00000001 0000000000000002",
    ),
    (
        Of::Command(commands::COMPOSITE),
        8,
        "00 00000001 01 00000001 0000000000000001
             01 000000000000000a 0000000000000014 0000000000000003",
    ),
    (
        Of::Command(commands::COMPOSITE),
        8,
        "00 00000001 02 00000001 0000000000000001
             01 000000000000000a 0000000000000014 0000000000000003",
    ),
    (
        Of::Command(commands::COMPOSITE),
        8,
        "02 00000002 02 00000001 0000000000000001
             01 000000000000000a 0000000000000014 0000000000000003
             02 00000002 0000000000000001
             01 000000000000000a 0000000000000014 0000000000000003",
    ),
    (
        Of::Command(commands::COMPOSITE),
        8,
        "01 00000002 01 00000001 0000000000000001
             01 000000000000000a 0000000000000014 0000000000000003
             02 00000002 0000000000000001
             01 000000000000000a 0000000000000014 0000000000000003",
    ),
    (Of::Value, 1, "49 ffffffff"),
    (Of::Value, 1, "73 05"),
    (Of::Region, 1, "49 00000002 00000001 00000002"),
    (Of::Region, 1, "4c 00000001 73 05"),
    (Of::Location, 1, "00 00000000000000000000"),
    (Of::Location, 1, "01 0a 14 0000000000000003"),
    (
        Of::Location,
        8,
        "01 000000000000000a 0000000000000014 0000000000000003",
    ),
];

/// The data read, and each proper front of them, the empty one too, is short at its own length.
fn is_short_at_each_front(
    rt: &impl Abort,
    alloc: Global,
    layout: &Layout,
    sizes: &IdSizes,
    data: &[u8],
) {
    expect_same(rt, &read(alloc, layout, sizes, data).err(), &None);
    for length in 0..data.len() {
        let found = read(alloc, layout, sizes, &data[..length]).err();
        expect_same(rt, &found, &Some(DataFault::Short(length)));
    }
}

/// The same of a row.
fn is_short(rt: &impl Abort, alloc: Global, vector: &Vector) {
    let (of, width, hex) = *vector;
    let sizes = IdSizes::new(width, width, width, width, width).expect(rt, "widths of ids");
    let data = bytes(alloc, hex).expect(rt, "memory");
    expect_that_for(rt, !data.is_empty(), hex);
    is_short_at_each_front(rt, alloc, &layout(rt, of), &sizes, &data);
}

/// The same of each row.
fn are_short(rt: &impl Abort, alloc: Global, vectors: &[Vector]) {
    for vector in vectors {
        is_short(rt, alloc, vector);
    }
}

#[test]
fn commands_cut_short(rt: HostRuntime) {
    are_short(&rt, rt.alloc(), &COMMANDS);
}

#[test]
fn replies_cut_short(rt: HostRuntime) {
    are_short(&rt, rt.alloc(), &REPLIES);
}

#[test]
fn composites_and_values_cut_short(rt: HostRuntime) {
    are_short(&rt, rt.alloc(), &OTHERS);
}

/// A signature of 65,521 bytes.
fn longest_signature(rt: &impl Abort, alloc: Global) -> Vec<u8> {
    let mut data = bytes(alloc, "0000fff1").expect(rt, "memory");
    for _ in 0..65_521u32 {
        data.push(b'x').expect(rt, "memory");
    }
    data
}

/// The data of the longest packet, at each of their 65,525 fronts.
#[test]
fn the_longest_command_cut_short(rt: HostRuntime) {
    let data = longest_signature(&rt, rt.alloc());
    let sizes = IdSizes::new(8, 8, 8, 8, 8).expect(&rt, "widths of ids");
    let layout = layout_in_row(&rt, commands::CLASSES_BY_SIGNATURE, false);
    is_short_at_each_front(&rt, rt.alloc(), &layout, &sizes, &data);
}

/// It has the number 11.
#[test]
fn short_data_have_their_number(rt: HostRuntime) {
    expect_same(&rt, &DataFault::Short(3).number(), &11);
}
