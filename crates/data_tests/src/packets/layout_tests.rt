//! Worked examples of data.
use crate::asserts::{expect_same, expect_that};
use crate::captures::row_tests::{WIDTHS, sample_of, sizes_of};
use jdwp_layout::{
    Data, Datum, Entry, Field, Layout, Scalar, data_size, entry_size, layout_of, pass_entries,
    pass_entry, read, read_entry, read_field, refusal, validate, write, write_entry,
};
use jdwp_show::composite_data_line;
use jdwp_value::ObjectId;
use jdwp_wire::{DataFault, IdSizes};
use std::alloc::Global;
use std::process::Abort;
use test_parts::{bytes, commands};

/// The bytes are read and judged with this fault.
fn has_fault(
    rt: &impl Abort,
    alloc: Global,
    layout: &Layout,
    sizes: &IdSizes,
    bytes: &[u8],
    fault: DataFault,
) {
    expect_same(rt, &read(alloc, layout, sizes, bytes).err(), &Some(fault));
    expect_same(rt, &validate(layout, sizes, bytes), &Err(fault));
}

/// The data are written as these bytes.
fn written_as(
    rt: &impl Abort,
    alloc: Global,
    layout: &Layout,
    sizes: &IdSizes,
    values: &[Datum],
    bytes: &[u8],
) {
    let mut output = vec![in alloc; 7].expect(rt, "memory");
    write(layout, sizes, values, &mut output).expect(rt, "the data are written");
    expect_same(rt, &output.get(1..), &Some(bytes));
    expect_same(rt, &data_size(values, sizes), &Some(bytes.len()));
    expect_same(rt, &refusal(layout, sizes, values), &None);
}

/// The slice is read as this text and written back as these bytes.
fn read_as(
    rt: &impl Abort,
    alloc: Global,
    layout: &Layout,
    sizes: &IdSizes,
    bytes: &[u8],
    canonical: &[u8],
    text: Option<&str>,
) {
    expect_same(rt, &validate(layout, sizes, bytes), &Ok(()));
    let values = read(alloc, layout, sizes, bytes).expect(rt, "the bytes are read");
    shown_and_written_as(rt, alloc, layout, sizes, &values, canonical, text);
}

/// The data are this text, and are written as these bytes.
fn shown_and_written_as(
    rt: &impl Abort,
    alloc: Global,
    layout: &Layout,
    sizes: &IdSizes,
    values: &[Datum],
    canonical: &[u8],
    text: Option<&str>,
) {
    if let Some(text) = text {
        is_shown(rt, alloc, values, text);
    }
    written_as(rt, alloc, layout, sizes, values, canonical);
}

/// The data are this text.
fn is_shown(rt: &impl Abort, alloc: Global, values: &[Datum], text: &str) {
    let line = composite_data_line(alloc, 0, values).expect(rt, "memory");
    let words = line.as_str().strip_prefix("< 0 Event.Composite ");
    expect_same(rt, &words, &Some(text));
}

/// Each proper front of the slice is too short, and one byte more is too many.
fn ends_there(rt: &impl Abort, alloc: Global, layout: &Layout, sizes: &IdSizes, bytes: &[u8]) {
    for length in 0..bytes.len() {
        let (front, _) = bytes.split_at(length);
        has_fault(rt, alloc, layout, sizes, front, DataFault::Short(length));
    }
    let more = followed_by_zero(rt, alloc, bytes);
    let extra = DataFault::Extra(bytes.len());
    has_fault(rt, alloc, layout, sizes, &more, extra);
}

/// The bytes, and a zero behind them.
fn followed_by_zero(rt: &impl Abort, alloc: Global, bytes: &[u8]) -> Vec<u8> {
    let mut more = Vec::new(alloc);
    more.extend_from_slice(bytes).expect(rt, "memory");
    more.push(0).expect(rt, "memory");
    more
}

/// The slice is read as this text and written back as these bytes; each proper front is too short, and one byte more is
/// too many.
fn accepted(
    rt: &impl Abort,
    alloc: Global,
    layout: &Layout,
    sizes: &IdSizes,
    bytes: &[u8],
    canonical: &[u8],
    text: Option<&str>,
) {
    read_as(rt, alloc, layout, sizes, bytes, canonical, text);
    ends_there(rt, alloc, layout, sizes, bytes);
}

/// The layout of a request.
fn request_of(rt: &impl Abort, (set, number): (u8, u8)) -> Layout {
    let row = layout_of(set, number).expect(rt, "a row");
    row.layouts.expect(rt, "a row with layouts").request
}

/// The layout of a reply.
fn reply_of(rt: &impl Abort, (set, number): (u8, u8)) -> Layout {
    let row = layout_of(set, number).expect(rt, "a row");
    row.layouts.expect(rt, "a row with layouts").reply
}

/// Ids of 8 bytes.
fn eight(rt: &impl Abort) -> IdSizes {
    IdSizes::new(8, 8, 8, 8, 8).expect(rt, "widths")
}

/// Ids of one byte.
fn one(rt: &impl Abort) -> IdSizes {
    IdSizes::new(1, 1, 1, 1, 1).expect(rt, "widths")
}

/// A request's data: its set and number, the bytes, as which bytes they are written, and as text.
static EXAMPLES: [((u8, u8), &str, &str, &str); 8] = [
    // Each byte but 0 is true, which is written as 1.
    (
        commands::SET_REQUEST,
        "04 00 00000001 08 0000000000000000 07 00",
        "04 00 00000001 08 0000000000000000 01 00",
        "4 0 [(8, #0, true, false)]",
    ),
    (
        commands::SET_REQUEST,
        "02 02 00000001 07 01 000000000000000a 0000000000000014 0000000000000003",
        "02 02 00000001 07 01 000000000000000a 0000000000000014 0000000000000003",
        "2 2 [(7, 1:#10:#20:3)]",
    ),
    (
        commands::COMPOSITE,
        "02 00000002 02 00000001 0000000000000001 01 000000000000000a 0000000000000014 0000000000000003 02 00000002 0000000000000001 01 000000000000000a 0000000000000014 0000000000000003",
        "02 00000002 02 00000001 0000000000000001 01 000000000000000a 0000000000000014 0000000000000003 02 00000002 0000000000000001 01 000000000000000a 0000000000000014 0000000000000003",
        "2 [(2, 1, #1, 1:#10:#20:3), (2, 2, #1, 1:#10:#20:3)]",
    ),
    (
        commands::COMPOSITE,
        "00 00000001 5a 00000000 0000000000000001",
        "00 00000001 5a 00000000 0000000000000001",
        "0 [(90, 0, #1)]",
    ),
    (
        commands::COMPOSITE,
        "00 00000001 63 00000000",
        "00 00000001 63 00000000",
        "0 [(99, 0)]",
    ),
    (
        commands::CLASSES_BY_SIGNATURE,
        "00000006 4c4d61696e3b",
        "00000006 4c4d61696e3b",
        "\"LMain;\"",
    ),
    (
        commands::SET_SLOTS,
        "0000000000000001 000000000000001e 00000001 00000000 49 00000005",
        "0000000000000001 000000000000001e 00000001 00000000 49 00000005",
        "#1 #30 [(0, I:5)]",
    ),
    (
        commands::FRAMES,
        "0000000000000001 00000000 ffffffff",
        "0000000000000001 00000000 ffffffff",
        "#1 0 -1",
    ),
];

/// The layout's data are accepted at widths of 8 bytes.
fn is_accepted(
    rt: &impl Abort,
    alloc: Global,
    layout: &Layout,
    hex: &str,
    canonical: &str,
    text: &str,
) {
    let sizes = eight(rt);
    let data = bytes(alloc, hex).expect(rt, "memory");
    let canonical = bytes(alloc, canonical).expect(rt, "memory");
    accepted(rt, alloc, layout, &sizes, &data, &canonical, Some(text));
}

#[test]
fn examples(rt: HostRuntime) {
    for &(command, hex, canonical, text) in EXAMPLES.iter() {
        let layout = request_of(&rt, command);
        is_accepted(&rt, rt.alloc(), &layout, hex, canonical, text);
    }
}

/// A reply's data: its set and number, the bytes, and as text.
static REPLIES: [((u8, u8), &str, &str); 7] = [
    (
        commands::ID_SIZES,
        "00000008 00000008 00000008 00000008 00000008",
        "8 8 8 8 8",
    ),
    (
        commands::CLASSES_BY_SIGNATURE,
        "00000001 01 000000000000000a 00000003",
        "[(1, #10, 3)]",
    ),
    (
        commands::FRAMES,
        "00000001 000000000000001e 01 000000000000000a 0000000000000014 0000000000000000",
        "[(#30, 1:#10:#20:0)]",
    ),
    (
        commands::GET_ELEMENTS,
        "49 00000002 00000001 00000002",
        "I[1, 2]",
    ),
    (
        commands::GET_ELEMENTS,
        "4c 00000002 73 0000000000000005 4c 0000000000000000",
        "L[s#5, L#0]",
    ),
    (commands::GET_SLOTS, "00000001 49 00000005", "[I:5]"),
    (commands::SUSPEND_COUNT, "00000001", "1"),
];

#[test]
fn replies(rt: HostRuntime) {
    for &(command, hex, text) in REPLIES.iter() {
        let layout = reply_of(&rt, command);
        is_accepted(&rt, rt.alloc(), &layout, hex, hex, text);
    }
}

/// A request's data: its set and number, the bytes, and their first fault.
static FAULTS: [((u8, u8), &str, DataFault); 16] = [
    (
        commands::CLASSES_BY_SIGNATURE,
        "ffffffff",
        DataFault::NegativeCount,
    ),
    (
        commands::CLASSES_BY_SIGNATURE,
        "00000001 ff",
        DataFault::NotUtf8,
    ),
    // A count calls for its own bytes alone.
    (commands::SET_REQUEST, "04 00 7fffffff", DataFault::Short(6)),
    (
        commands::SET_REQUEST,
        "04 00 80000000",
        DataFault::NegativeCount,
    ),
    // A kind is judged before what follows it.
    (
        commands::SET_REQUEST,
        "04 00 00000001 0d",
        DataFault::BadTag,
    ),
    (
        commands::SET_REQUEST,
        "04 00 00000001 00",
        DataFault::BadTag,
    ),
    (commands::COMPOSITE, "00 00000001 03", DataFault::BadTag),
    (commands::COMPOSITE, "00 00000001 05", DataFault::BadTag),
    (commands::COMPOSITE, "00 00000001 0a", DataFault::BadTag),
    (commands::COMPOSITE, "00 00000001 1e", DataFault::BadTag),
    // A type tag is judged before what follows it, and the null location once it is whole.
    (
        commands::SET_REQUEST,
        "02 00 00000001 07 04",
        DataFault::BadTag,
    ),
    (
        commands::SET_REQUEST,
        "02 00 00000001 07 00 0000000000000000 0000000000000000 0000000000000001",
        DataFault::BadTag,
    ),
    (
        commands::SET_REQUEST,
        "02 00 00000001 07 00 0000000000000000 0000000000000001 00000000000000",
        DataFault::Short(31),
    ),
    (
        commands::SET_SLOTS,
        "0000000000000001 000000000000001e 00000001 00000000 41 00000005",
        DataFault::BadTag,
    ),
    (commands::EXIT, "00000000 00", DataFault::Extra(4)),
    (commands::SUSPEND, "00", DataFault::Extra(0)),
];

/// A region's data: the bytes, and their first fault.
static REGION_FAULTS: [(&str, DataFault); 3] = [
    ("49 7fffffff", DataFault::Short(5)),
    ("56 00000000", DataFault::BadTag),
    ("4c 00000001 49 00000001", DataFault::BadTag),
];

/// The bytes are read and judged with this fault.
fn refused(rt: &impl Abort, alloc: Global, layout: &Layout, hex: &str, fault: DataFault) {
    let bytes = bytes(alloc, hex).expect(rt, "memory");
    has_fault(rt, alloc, layout, &eight(rt), &bytes, fault);
}

#[test]
fn faults(rt: HostRuntime) {
    for &(command, hex, fault) in FAULTS.iter() {
        refused(&rt, rt.alloc(), &request_of(&rt, command), hex, fault);
    }
    for &(hex, fault) in REGION_FAULTS.iter() {
        refused(
            &rt,
            rt.alloc(),
            &reply_of(&rt, commands::GET_ELEMENTS),
            hex,
            fault,
        );
    }
}

/// The data can't be written at widths of one byte, for this reason, and nothing is.
fn not_written(
    rt: &impl Abort,
    alloc: Global,
    layout: &Layout,
    values: &[Datum],
    fault: DataFault,
) {
    let sizes = one(rt);
    let mut output = vec![in alloc; 7].expect(rt, "memory");
    let written = write(layout, &sizes, values, &mut output);
    expect_same(rt, &written, &Err(fault));
    expect_same(rt, &refusal(layout, &sizes, values), &Some(fault));
    expect_same(rt, &output.as_slice(), &[7].as_slice());
}

/// The same of the data of a request for a thread's suspend count.
fn no_thread(rt: &impl Abort, alloc: Global, values: &[Datum], fault: DataFault) {
    not_written(
        rt,
        alloc,
        &request_of(rt, commands::SUSPEND_COUNT),
        values,
        fault,
    );
}

#[test]
fn refusals(rt: HostRuntime) {
    let alloc = rt.alloc();
    no_thread(
        &rt,
        alloc,
        &[Datum::One(Scalar::ObjectId(ObjectId(256)))],
        DataFault::IdTooWide,
    );
    no_thread(
        &rt,
        alloc,
        &[Datum::One(Scalar::Int(1))],
        DataFault::BadSize,
    );
    no_thread(&rt, alloc, &[], DataFault::BadSize);
    let one_more = [
        Datum::One(Scalar::ObjectId(ObjectId(1))),
        Datum::One(Scalar::Int(1)),
    ];
    no_thread(&rt, alloc, &one_more, DataFault::BadSize);
}

/// A list of one modifier of this kind, with no field.
fn modifiers_of(rt: &impl Abort, alloc: Global, kind: u8) -> Datum {
    let modifier = vec![in alloc; Scalar::Byte(kind)].expect(rt, "memory");
    Datum::Many(vec![in alloc; modifier].expect(rt, "memory"))
}

#[test]
fn a_kind_of_modifier_that_there_is_not(rt: HostRuntime) {
    let alloc = rt.alloc();
    let set = request_of(&rt, commands::SET_REQUEST);
    let modifiers = modifiers_of(&rt, alloc, 13);
    let unknown_kind = [
        Datum::One(Scalar::Byte(2)),
        Datum::One(Scalar::Byte(0)),
        modifiers,
    ];
    not_written(&rt, alloc, &set, &unknown_kind, DataFault::BadSize);
}

#[test]
fn the_greatest_id_of_one_byte(rt: HostRuntime) {
    let fits = [Datum::One(Scalar::ObjectId(ObjectId(255)))];
    let layout = request_of(&rt, commands::SUSPEND_COUNT);
    written_as(&rt, rt.alloc(), &layout, &one(&rt), &fits, &[255]);
}

/// The entry of these bytes, which `entry_size` counts.
fn entry_of(rt: &impl Abort, alloc: Global, entry: Entry, bytes: &[u8]) -> Vec<Scalar> {
    let sizes = eight(rt);
    let read = read_entry(alloc, entry, bytes, bytes.len(), &sizes);
    let (scalars, rest) = read.expect(rt, "an entry");
    expect_same(rt, &rest.len(), &0);
    expect_same(rt, &entry_size(&scalars, &sizes), &Some(bytes.len()));
    scalars
}

/// The bytes of the entry that these bytes are, twice.
fn twice(rt: &impl Abort, alloc: Global, entry: Entry, bytes: &[u8]) -> Vec<u8> {
    let scalars = entry_of(rt, alloc, entry, bytes);
    written_twice(rt, alloc, entry, &scalars)
}

/// The bytes of the entry, twice.
fn written_twice(rt: &impl Abort, alloc: Global, entry: Entry, scalars: &[Scalar]) -> Vec<u8> {
    let sizes = eight(rt);
    let mut twice = Vec::new(alloc);
    write_entry(entry, scalars, &sizes, &mut twice).expect(rt, "the entry is written");
    write_entry(entry, scalars, &sizes, &mut twice).expect(rt, "the entry is written");
    twice
}

/// These bytes hold one entry, with these bytes behind it.
fn is_passed(rt: &impl Abort, entry: Entry, bytes: &[u8], behind: &[u8]) {
    let sizes = eight(rt);
    let rest = pass_entry(entry, bytes, bytes.len(), &sizes).expect(rt, "an entry");
    expect_same(rt, &rest, &behind);
    let rest = pass_entries(1, entry, bytes, bytes.len(), &sizes).expect(rt, "an entry");
    expect_same(rt, &rest, &behind);
}

/// The bytes are an entry, and twice the bytes are two.
fn is_an_entry(rt: &impl Abort, alloc: Global, entry: Entry, bytes: &[u8]) {
    is_passed(rt, entry, bytes, &[]);
    let twice = twice(rt, alloc, entry, bytes);
    are_two(rt, entry, &twice, bytes);
}

/// These bytes are twice an entry of those bytes.
fn are_two(rt: &impl Abort, entry: Entry, twice: &[u8], bytes: &[u8]) {
    is_passed(rt, entry, twice, bytes);
    let rest = pass_entries(2, entry, twice, twice.len(), &eight(rt)).expect(rt, "two entries");
    expect_same(rt, &rest.len(), &0);
}

/// An exception of any type, where it is caught and where it isn't; a place in a class; VM_DEATH.
static ENTRIES: [(Entry, &str); 3] = [
    (Entry::Modifier, "08 0000000000000000 01 01"),
    (
        Entry::Modifier,
        "07 01 000000000000000a 0000000000000014 0000000000000003",
    ),
    (Entry::Event, "63 00000000"),
];

#[test]
fn entries_one_by_one(rt: HostRuntime) {
    for (entry, hex) in ENTRIES.iter() {
        let bytes = bytes(rt.alloc(), hex).expect(&rt, "memory");
        is_an_entry(&rt, rt.alloc(), *entry, &bytes);
    }
}

/// The bytes end in the midst of an entry.
fn is_cut_off(rt: &impl Abort, entry: Entry, bytes: &[u8]) {
    let found = pass_entry(entry, bytes, bytes.len(), &eight(rt)).err();
    expect_same(rt, &found, &Some(DataFault::Short(bytes.len())));
}

#[test]
fn entries_that_are_cut_off(rt: HostRuntime) {
    // Two bytes of an exception's filter, and of a VM_DEATH.
    is_cut_off(&rt, Entry::Modifier, &[8, 0]);
    is_cut_off(&rt, Entry::Event, &[99, 0]);
}

/// The field in front of these bytes, and how many bytes are behind it.
fn field_of(rt: &impl Abort, alloc: Global, field: Field, hex: &str) -> (Scalar, usize) {
    let bytes = bytes(alloc, hex).expect(rt, "memory");
    let read = read_field(alloc, field, &bytes, bytes.len(), &eight(rt));
    let (scalar, rest) = read.expect(rt, "a field");
    (scalar, rest.len())
}

#[test]
fn fields_one_by_one(rt: HostRuntime) {
    let alloc = rt.alloc();
    is_field(
        &rt,
        alloc,
        Field::Boolean,
        "02 07",
        (Scalar::Boolean(true), 1),
    );
    is_field(&rt, alloc, Field::Int, "ffffffff", (Scalar::Int(-1), 0));
    let thread = Scalar::ObjectId(ObjectId(9));
    is_field(
        &rt,
        alloc,
        Field::ObjectId,
        "0000000000000009 0000",
        (thread, 2),
    );
}

/// The field in front of these bytes holds this, with so many bytes behind it.
fn is_field(rt: &impl Abort, alloc: Global, field: Field, hex: &str, want: (Scalar, usize)) {
    expect_same(rt, &field_of(rt, alloc, field, hex), &want);
}

#[test]
fn a_field_that_is_cut_off(rt: HostRuntime) {
    // One byte of an int.
    let found = read_field(rt.alloc(), Field::Int, &[0], 1, &eight(&rt)).err();
    expect_same(&rt, &found, &Some(DataFault::Short(1)));
}

#[test]
fn data_are_kept_as_they_are(rt: HostRuntime) {
    let items = vec![in rt.alloc(); Datum::One(Scalar::Int(1))].expect(&rt, "memory");
    let data = Data::new(items);
    expect_that(&rt, are_one(data.items()));
    expect_that(&rt, are_one(&data.into_items()));
}

/// Whether the data are the int 1.
fn are_one(items: &[Datum]) -> bool {
    matches!(items, [Datum::One(Scalar::Int(1))])
}

/// Each law is called once, which shows that it can be: it answers nothing that could be compared.
#[test]
fn laws(_rt: HostRuntime) {
    jdwp_layout::laws::reads_what_is_encoded();
    jdwp_layout::laws::reads_only_encoded();
    jdwp_layout::laws::encodes_one_list();
    jdwp_layout::laws::writes_what_is_encoded();
    jdwp_layout::laws::answers_first_fault();
}

/// A sample of the layout is accepted.
fn sample_is_accepted(rt: &impl Abort, alloc: Global, layout: &Layout, sizes: &IdSizes) {
    let bytes = sample_of(rt, alloc, layout, sizes).bytes;
    accepted(rt, alloc, layout, sizes, &bytes, &bytes, None);
}

/// Every row, modifier and event at these widths.
fn every_layout_at(rt: &impl Abort, alloc: Global, sizes: &IdSizes) {
    for set in 0..65u32 {
        for command in 0..101u32 {
            if let Some(row) = layout_of(set as u8, command as u8) {
                if let Some(layouts) = row.layouts {
                    sample_is_accepted(rt, alloc, &layouts.request, sizes);
                    sample_is_accepted(rt, alloc, &layouts.reply, sizes);
                }
            }
        }
    }
}

#[test]
fn every_layout(rt: HostRuntime) {
    for widths in WIDTHS.iter() {
        every_layout_at(&rt, rt.alloc(), &sizes_of(&rt, widths));
    }
}
