//! Captures of every command, modifier and event, at several widths of ids.
use crate::asserts::expect_same;
use jdwp_judge::{check, show};
use jdwp_layout::{
    CommandRow, Entry, Field, Item, Layout, Layouts, fields_of_event, fields_of_modifier, layout_of,
};
use jdwp_show::{CaptureFault, Verdict};
use jdwp_wire::{DataFault, IdSizes};
use std::alloc::Global;
use std::process::Abort;

/// Data, and the words in which they are shown, each after a space.
#[derive(Drop)]
pub(crate) struct Sample {
    pub bytes: Vec<u8>,
    pub words: String,
}

/// A capture, and the words in which it is shown.
#[derive(Drop)]
struct Shown {
    text: String,
    words: String,
}

/// A modifier of each kind.
const MODIFIERS: &str =
    " [(1, -2), (2, -2), (3, #5), (4, #10), (5, \"h\u{e9}\"), (6, \"h\u{e9}\"), (7, 2:#10:#20:3), (8, #10, true, true), (9, #10, #30), (10, #5, -2, -2), (11, #5), (12, \"h\u{e9}\")]";

/// An event of each kind.
const EVENTS: &str =
    " [(1, -2, #5, 2:#10:#20:3), (2, -2, #5, 2:#10:#20:3), (4, -2, #5, 2:#10:#20:3, L#5, 2:#10:#20:3), (6, -2, #5), (7, -2, #5), (8, -2, #5, 7, #10, \"h\u{e9}\", -2), (9, -2, \"h\u{e9}\"), (20, -2, #5, 2:#10:#20:3, 7, #10, #30, L#5), (21, -2, #5, 2:#10:#20:3, 7, #10, #30, L#5, I:9), (40, -2, #5, 2:#10:#20:3), (41, -2, #5, 2:#10:#20:3), (42, -2, #5, 2:#10:#20:3, I:9), (43, -2, #5, L#5, 2:#10:#20:3), (44, -2, #5, L#5, 2:#10:#20:3), (45, -2, #5, L#5, 2:#10:#20:3, -9223372036854775805), (46, -2, #5, L#5, 2:#10:#20:3, true), (90, -2, #5), (99, -2)]";

/// Adds an id of so many bytes.
fn push_id(rt: &impl Abort, width: u8, id: u8, bytes: &mut Vec<u8>) {
    for _ in 1..width {
        push(rt, &[0], bytes);
    }
    push(rt, &[id], bytes);
}

/// Adds these bytes.
fn push(rt: &impl Abort, more: &[u8], bytes: &mut Vec<u8>) {
    bytes.extend_from_slice(more).expect(rt, "memory");
}

/// Adds this text.
fn say(rt: &impl Abort, more: &str, words: &mut String) {
    words.push_str(more).expect(rt, "memory");
}

/// Adds a sample of a field.
fn push_field(rt: &impl Abort, field: Field, sizes: &IdSizes, bytes: &mut Vec<u8>) {
    match field {
        Field::Byte => push(rt, &[7], bytes),
        Field::Boolean => push(rt, &[1], bytes),
        Field::Int => push(rt, &[0xff, 0xff, 0xff, 0xfe], bytes),
        Field::Long => push(rt, &[0x80, 0, 0, 0, 0, 0, 0, 3], bytes),
        Field::String => push(rt, &[0, 0, 0, 3, 0x68, 0xc3, 0xa9], bytes),
        Field::ObjectId => push_id(rt, sizes.object(), 5, bytes),
        Field::ReferenceTypeId => push_id(rt, sizes.reference(), 10, bytes),
        Field::MethodId => push_id(rt, sizes.method(), 20, bytes),
        Field::FieldId => push_id(rt, sizes.field(), 30, bytes),
        Field::FrameId => push_id(rt, sizes.frame(), 40, bytes),
        Field::Location => push_location(rt, sizes, bytes),
        Field::Value => push(rt, &[0x49, 0, 0, 0, 9], bytes),
        Field::TaggedId => {
            push(rt, &[0x4c], bytes);
            push_id(rt, sizes.object(), 5, bytes);
        }
    }
}

/// Adds a sample of a location.
fn push_location(rt: &impl Abort, sizes: &IdSizes, bytes: &mut Vec<u8>) {
    push(rt, &[2], bytes);
    push_id(rt, sizes.reference(), 10, bytes);
    push_id(rt, sizes.method(), 20, bytes);
    push_id(rt, 8, 3, bytes);
}

/// The words of what `push_field` pushes.
fn word(field: Field) -> &'static str {
    match field {
        Field::Byte => "7",
        Field::Boolean => "true",
        Field::Int => "-2",
        Field::Long => "-9223372036854775805",
        Field::String => "\"h\u{e9}\"",
        Field::ObjectId => "#5",
        Field::ReferenceTypeId => "#10",
        Field::MethodId => "#20",
        Field::FieldId => "#30",
        Field::FrameId => "#40",
        Field::Location => "2:#10:#20:3",
        Field::Value => "I:9",
        Field::TaggedId => "L#5",
    }
}

/// The fields of a kind of event, or of modifier.
fn fields_of(events: bool, kind: u8) -> Option<&'static [Field]> {
    if events {
        fields_of_event(kind)
    } else {
        fields_of_modifier(kind)
    }
}

/// An entry of each kind.
fn push_kinds(rt: &impl Abort, events: bool, sizes: &IdSizes, bytes: &mut Vec<u8>) {
    push(rt, &[0, 0, 0, if events { 18 } else { 12 }], bytes);
    for kind in 0..=255u8 {
        if let Some(fields) = fields_of(events, kind) {
            push(rt, &[kind], bytes);
            for field in fields {
                push_field(rt, *field, sizes, bytes);
            }
        }
    }
}

/// Two entries of these fields.
fn push_entries(rt: &impl Abort, fields: &[Field], sizes: &IdSizes, sample: &mut Sample) {
    push(rt, &[0, 0, 0, 2], &mut sample.bytes);
    say(rt, " [", &mut sample.words);
    push_fields(rt, fields, sizes, sample);
    say(rt, ", ", &mut sample.words);
    push_fields(rt, fields, sizes, sample);
    say(rt, "]", &mut sample.words);
}

/// One entry of these fields, in brackets where they are several.
fn push_fields(rt: &impl Abort, fields: &[Field], sizes: &IdSizes, sample: &mut Sample) {
    let (open, close) = if fields.len() > 1 {
        ("(", ")")
    } else {
        ("", "")
    };
    say(rt, open, &mut sample.words);
    for (index, field) in fields.iter().enumerate() {
        if index > 0 {
            say(rt, ", ", &mut sample.words);
        }
        push_field(rt, *field, sizes, &mut sample.bytes);
        say(rt, word(*field), &mut sample.words);
    }
    say(rt, close, &mut sample.words);
}

/// Data of the layout: each list has two entries, and a list of modifiers or events one of each kind.
pub(crate) fn sample_of(
    rt: &impl Abort,
    alloc: Global,
    layout: &Layout,
    sizes: &IdSizes,
) -> Sample {
    let mut sample = Sample {
        bytes: Vec::new(alloc),
        words: String::new(alloc),
    };
    for item in layout.items {
        push_item(rt, *item, sizes, &mut sample);
    }
    sample
}

/// Adds data of one item of a layout.
fn push_item(rt: &impl Abort, item: Item, sizes: &IdSizes, sample: &mut Sample) {
    match item {
        Item::One(field) => {
            push_field(rt, field, sizes, &mut sample.bytes);
            say(rt, " ", &mut sample.words);
            say(rt, word(field), &mut sample.words);
        }
        Item::Many(Entry::Modifier) => {
            push_kinds(rt, false, sizes, &mut sample.bytes);
            say(rt, MODIFIERS, &mut sample.words);
        }
        Item::Many(Entry::Event) => {
            push_kinds(rt, true, sizes, &mut sample.bytes);
            say(rt, EVENTS, &mut sample.words);
        }
        Item::Many(Entry::Fields(fields)) => push_entries(rt, fields, sizes, sample),
        Item::Region => {
            push(rt, &[0x53, 0, 0, 0, 2, 0, 1, 0, 2], &mut sample.bytes);
            say(rt, " S[1, 2]", &mut sample.words);
        }
    }
}

/// Appends a line of one packet: its id is 2, and what stands between the id and the data is given.
fn push_packet(
    rt: &impl Abort,
    alloc: Global,
    text: &mut String,
    mark: char,
    kind: &[u8],
    data: &[u8],
) {
    let packet = packet(rt, alloc, kind, data);
    let digits = hex::encode(alloc, &packet).expect(rt, "memory");
    write!(text, "{mark} {digits}\n").expect(rt, "memory");
}

/// The packet with the id 2.
fn packet(rt: &impl Abort, alloc: Global, kind: &[u8], data: &[u8]) -> Vec<u8> {
    let length = data.len().saturating_add(11);
    let mut packet = Vec::new(alloc);
    let (high, low) = ((length / 256 % 256) as u8, (length % 256) as u8);
    push(rt, &[0, 0, high, low], &mut packet);
    push(rt, &[0, 0, 0, 2], &mut packet);
    push(rt, kind, &mut packet);
    push(rt, data, &mut packet);
    packet
}

/// A capture that tells these widths.
fn beginning(rt: &impl Abort, alloc: Global, sizes: &IdSizes) -> String {
    let (field, method, object) = (sizes.field(), sizes.method(), sizes.object());
    let (reference, frame) = (sizes.reference(), sizes.frame());
    let text = format!(in alloc;
        "> 4a4457502d48616e647368616b65\n< 4a4457502d48616e647368616b65\n> 0000000b00000001000107\n< 0000001f00000001800000{field:08}{method:08}{object:08}{reference:08}{frame:08}\n"
    );
    text.expect(rt, "memory")
}

/// The same in words.
fn beginning_words(rt: &impl Abort, alloc: Global, sizes: &IdSizes) -> String {
    let (field, method, object) = (sizes.field(), sizes.method(), sizes.object());
    let (reference, frame) = (sizes.reference(), sizes.frame());
    let text = format!(in alloc;
        "> hello\n< hello\n> 1 VirtualMachine.IDSizes\n< 1 reply VirtualMachine.IDSizes 0 {field} {method} {object} {reference} {frame}\n"
    );
    text.expect(rt, "memory")
}

/// Appends the request's packet, and the words in which it is shown.
fn push_request(
    rt: &impl Abort,
    alloc: Global,
    shown: &mut Shown,
    (set, number): (u8, u8),
    row: &CommandRow,
    request: &Sample,
) {
    let mark = if set == 64 { '<' } else { '>' };
    let kind = [0, set, number];
    push_packet(rt, alloc, &mut shown.text, mark, &kind, &request.bytes);
    let (set_name, name, data) = (row.set_name, row.name, request.words.as_str());
    write!(shown.words, "{mark} 2 {set_name}.{name}{data}\n").expect(rt, "memory");
}

/// Appends the reply's packet, and the words in which it is shown.
fn push_reply(rt: &impl Abort, alloc: Global, shown: &mut Shown, row: &CommandRow, reply: &Sample) {
    push_packet(rt, alloc, &mut shown.text, '<', &[0x80, 0, 0], &reply.bytes);
    let (set_name, name, data) = (row.set_name, row.name, reply.words.as_str());
    write!(shown.words, "< 2 reply {set_name}.{name} 0{data}\n").expect(rt, "memory");
}

/// The reply's data and a byte more.
fn followed(rt: &impl Abort, alloc: Global, reply: &[u8]) -> Vec<u8> {
    let mut more = Vec::new(alloc);
    push(rt, reply, &mut more);
    push(rt, &[0], &mut more);
    more
}

/// With a byte more the reply behind this text is a fault of its line.
fn longer_reply_is_refused(rt: &impl Abort, alloc: Global, text: &str, reply: &[u8]) {
    let mut faulty = String::from_str(alloc, text).expect(rt, "memory");
    let longer = followed(rt, alloc, reply);
    push_packet(rt, alloc, &mut faulty, '<', &[0x80, 0, 0], &longer);
    let fault = CaptureFault::BadData(DataFault::Extra(reply.len()));
    is_judged(rt, alloc, faulty.as_str(), Verdict::No(6, fault));
}

/// The capture is judged so.
fn is_judged(rt: &impl Abort, alloc: Global, text: &str, wanted: Verdict) {
    let verdict = check(alloc, text).expect(rt, "memory");
    expect_same(rt, &verdict, &wanted);
}

/// The capture has no fault and is shown in these words.
fn is_shown_as(rt: &impl Abort, alloc: Global, text: &str, words: &str) {
    is_judged(rt, alloc, text, Verdict::Yes);
    let shown = show(alloc, text).expect(rt, "memory");
    expect_same(rt, &shown.lines.as_str(), &words);
    expect_same(rt, &shown.fault, &None);
}

/// The command and its reply are shown in these words and begin a session; with a byte more they don't.
fn shown_and_judged(
    rt: &impl Abort,
    alloc: Global,
    sizes: &IdSizes,
    command: (u8, u8),
    row: &CommandRow,
    layouts: &Layouts,
) {
    let mut shown = Shown {
        text: beginning(rt, alloc, sizes),
        words: beginning_words(rt, alloc, sizes),
    };
    let request = sample_of(rt, alloc, &layouts.request, sizes);
    push_request(rt, alloc, &mut shown, command, row, &request);
    if command.0 != 64 {
        let reply = sample_of(rt, alloc, &layouts.reply, sizes);
        longer_reply_is_refused(rt, alloc, shown.text.as_str(), &reply.bytes);
        push_reply(rt, alloc, &mut shown, row, &reply);
    }
    is_shown_as(rt, alloc, shown.text.as_str(), shown.words.as_str());
}

/// How many rows there are of this set, each of which is shown and judged at these widths.
fn every_row_of(rt: &impl Abort, alloc: Global, sizes: &IdSizes, set: u8) -> u32 {
    let mut rows = 0u32;
    for number in 0..101u8 {
        if let Some(row) = layout_of(set, number) {
            rows = rows.saturating_add(1);
            // each capture begins with IDSizes
            let is_told = set == 1 && number == 7;
            if let (false, Some(layouts)) = (is_told, &row.layouts) {
                shown_and_judged(rt, alloc, sizes, (set, number), row, layouts);
            }
        }
    }
    rows
}

/// How many rows there are, each of which is shown and judged at these widths.
fn every_row_at(rt: &impl Abort, alloc: Global, sizes: &IdSizes) -> u32 {
    let mut rows = 0u32;
    for set in 0..65u8 {
        rows = rows.saturating_add(every_row_of(rt, alloc, sizes, set));
    }
    rows
}

/// Widths of fields, methods, objects, reference types and frames.
pub(crate) static WIDTHS: [[u32; 5]; 4] = [
    [1, 2, 3, 4, 5],
    [8, 7, 6, 5, 4],
    [1, 1, 1, 1, 1],
    [8, 8, 8, 8, 8],
];

/// These widths.
pub(crate) fn sizes_of(rt: &impl Abort, widths: &[u32; 5]) -> IdSizes {
    let [field, method, object, reference, frame] = *widths;
    IdSizes::new(field, method, object, reference, frame).expect(rt, "widths")
}

#[test]
fn every_row(rt: HostRuntime) {
    for widths in WIDTHS.iter() {
        let rows = every_row_at(&rt, rt.alloc(), &sizes_of(&rt, widths));
        expect_same(&rt, &rows, &94);
    }
}
