//! Modifiers, events and composites as bytes, row by row of the specification's listings, at two sets of widths.
use crate::asserts::{expect_same, expect_that};
use crate::packets::rows::{are_so, told, written};
use jdwp_event::{Composite, Event, Modifier};
use jdwp_layout::{Data, Datum, Scalar};
use jdwp_value::{
    ArrayRegion, FieldId, Location, MethodId, ObjectId, ObjectTag, ReferenceTypeId, Tag, TaggedId,
    TypeTag, Value,
};
use jdwp_wire::{DataFault, IdSizes, Wire};
use std::alloc::Global;
use std::process::Abort;
use test_parts::bytes;

const PLACE: Location = Location::At {
    tag: TypeTag::Class,
    class: ReferenceTypeId(10),
    method: MethodId(20),
    index: 3,
};

/// All ids of 8 bytes.
fn wide(rt: &impl Abort) -> IdSizes {
    IdSizes::new(8, 8, 8, 8, 8).expect(rt, "widths")
}

/// Fields of 1 byte, methods of 2, objects of 3, reference types of 4.
fn narrow(rt: &impl Abort) -> IdSizes {
    IdSizes::new(1, 2, 3, 4, 5).expect(rt, "widths")
}

/// The bytes as hexadecimal digits.
fn digits(rt: &impl Abort, alloc: Global, bytes: &[u8]) -> String {
    let mut text = String::new(alloc);
    for byte in bytes {
        write!(text, "{byte:02x}").expect(rt, "memory");
    }
    text
}

/// The text as a `String`.
fn text(rt: &impl Abort, alloc: Global, text: &str) -> String {
    String::from_str(alloc, text).expect(rt, "memory")
}

/// The value is written as these digits, and read back from them; fewer bytes are none.
fn goes_there_and_back<R: Abort, T: Wire + std::fmt::Debug + Drop>(
    rt: &R,
    alloc: Global,
    value: &T,
    sizes: &IdSizes,
    hex: &str,
) {
    let put = written(rt, alloc, sizes, value);
    let written = put.get(1..).expect(rt, "a byte");
    expect_same(rt, &digits(rt, alloc, written).as_str(), &hex);
    let wanted = format!(in alloc; "= {value:?}").expect(rt, "memory");
    let read = told::<R, T>(rt, alloc, sizes, written, written);
    expect_same(rt, &read.as_str(), &wanted.as_str());
    no_beginning_reads::<R, T>(rt, alloc, written, sizes);
}

/// Fewer of these bytes are no value.
fn no_beginning_reads<R: Abort, T: Wire + Drop>(
    rt: &R,
    alloc: Global,
    bytes: &[u8],
    sizes: &IdSizes,
) {
    for length in 0..bytes.len() {
        let found = T::take(alloc, &bytes[..length], sizes).err();
        expect_same(rt, &found, &Some(DataFault::Short(length)));
    }
}

/// Modifiers where ids have 8 bytes, and bytes that are none.
const MODIFIERS: &str = "01.00000005 = Count(5)
02.00000006 = Conditional(6)
03.0000000000000007 = ThreadOnly(ObjectId(7))
04.000000000000000a = ClassOnly(ReferenceTypeId(10))
05.00000003.612e2a = ClassMatch(\"a.*\")
06.00000001.2a = ClassExclude(\"*\")
07.01.000000000000000a.0000000000000014.0000000000000003 = \
    LocationOnly(At { tag: Class, class: ReferenceTypeId(10), method: MethodId(20), index: 3 })
08.000000000000000a.01.00 = ExceptionOnly { class: ReferenceTypeId(10), caught: true, uncaught: false }
09.000000000000000a.0000000000000028 = FieldOnly { class: ReferenceTypeId(10), field: FieldId(40) }
0a.0000000000000001.00000001.00000002 = Step { thread: ObjectId(1), size: 1, depth: 2 }
0b.0000000000000009 = InstanceOnly(ObjectId(9))
0c.00000006.412e6a617661 = SourceNameMatch(\"A.java\")
00 ! 13 BadTag
0d ! 13 BadTag
ff ! 13 BadTag";

/// The same modifiers at the other widths.
const NARROW_MODIFIERS: &str = "01.00000005 = Count(5)
02.00000006 = Conditional(6)
03.000007 = ThreadOnly(ObjectId(7))
04.0000000a = ClassOnly(ReferenceTypeId(10))
05.00000003.612e2a = ClassMatch(\"a.*\")
06.00000001.2a = ClassExclude(\"*\")
07.01.0000000a.0014.0000000000000003 = \
    LocationOnly(At { tag: Class, class: ReferenceTypeId(10), method: MethodId(20), index: 3 })
08.0000000a.01.00 = ExceptionOnly { class: ReferenceTypeId(10), caught: true, uncaught: false }
09.0000000a.28 = FieldOnly { class: ReferenceTypeId(10), field: FieldId(40) }
0a.000001.00000001.00000002 = Step { thread: ObjectId(1), size: 1, depth: 2 }
0b.000009 = InstanceOnly(ObjectId(9))
0c.00000006.412e6a617661 = SourceNameMatch(\"A.java\")";

/// Of each row, also fewer bytes are no modifier.
#[test]
fn modifiers_are_their_bytes(rt: HostRuntime) {
    for (sizes, table) in [(wide(&rt), MODIFIERS), (narrow(&rt), NARROW_MODIFIERS)] {
        are_so::<_, Modifier>(&rt, rt.alloc(), &sizes, table);
        for row in table.lines() {
            is_no_modifier_in_part(&rt, rt.alloc(), &sizes, row);
        }
    }
}

/// Fewer bytes than a row has are no modifier.
fn is_no_modifier_in_part<R: Abort>(rt: &R, alloc: Global, sizes: &IdSizes, row: &str) {
    let (hex, _) = row.split_once(' ').expect(rt, "a row");
    let all = bytes(alloc, hex).expect(rt, "memory");
    no_beginning_reads::<R, Modifier>(rt, alloc, &all, sizes);
}

/// The value is written as these digits where ids have 8 bytes, and as those at the other widths.
fn is_written<R: Abort, T: Wire + std::fmt::Debug + Drop>(
    rt: &R,
    alloc: Global,
    value: &T,
    at_eight: &str,
    at_others: &str,
) {
    goes_there_and_back(rt, alloc, value, &wide(rt), at_eight);
    goes_there_and_back(rt, alloc, value, &narrow(rt), at_others);
}

/// The scalar of a letter of a row.
fn scalar(rt: &impl Abort, alloc: Global, letter: char) -> Scalar {
    match letter {
        'B' => Scalar::Byte(1),
        'Z' => Scalar::Boolean(true),
        'I' => Scalar::Int(11),
        'J' => Scalar::Long(-2),
        'S' => Scalar::String(text(rt, alloc, "LMain;")),
        'O' => Scalar::ObjectId(ObjectId(7)),
        'R' => Scalar::ReferenceTypeId(ReferenceTypeId(10)),
        'F' => Scalar::FieldId(FieldId(40)),
        'L' => Scalar::Location(PLACE),
        'V' => Scalar::Value(Value::Int(5)),
        _ => Scalar::TaggedId(TaggedId {
            tag: ObjectTag::Object,
            id: ObjectId(9),
        }),
    }
}

/// Its digits where ids have 8 bytes, and at the other widths.
fn scalar_digits(letter: char) -> (&'static str, &'static str) {
    match letter {
        'B' | 'Z' => ("01", "01"),
        'I' => ("0000000b", "0000000b"),
        'J' => ("fffffffffffffffe", "fffffffffffffffe"),
        'S' => ("000000064c4d61696e3b", "000000064c4d61696e3b"),
        'O' => ("0000000000000007", "000007"),
        'R' => ("000000000000000a", "0000000a"),
        'F' => ("0000000000000028", "28"),
        'L' => (
            "01000000000000000a00000000000000140000000000000003",
            "010000000a00140000000000000003",
        ),
        'V' => ("4900000005", "4900000005"),
        _ => ("4c0000000000000009", "4c000009"),
    }
}

/// Each kind of event, and the letters of its fields.
static EVENTS: [(u8, &str); 18] = [
    (1, "IOL"),
    (2, "IOL"),
    (4, "IOLTL"),
    (6, "IO"),
    (7, "IO"),
    (8, "IOBRSI"),
    (9, "IS"),
    (20, "IOLBRFT"),
    (21, "IOLBRFTV"),
    (40, "IOL"),
    (41, "IOL"),
    (42, "IOLV"),
    (43, "IOTL"),
    (44, "IOTL"),
    (45, "IOTLJ"),
    (46, "IOTLZ"),
    (90, "IO"),
    (99, "I"),
];

#[test]
fn events_are_their_bytes(rt: HostRuntime) {
    for &(kind, letters) in EVENTS.iter() {
        event_is_written(&rt, rt.alloc(), kind, letters);
    }
}

/// The event of this kind with fields of these letters is written as their digits.
fn event_is_written<R: Abort>(rt: &R, alloc: Global, kind: u8, letters: &str) {
    let at_eight = digits_of(rt, alloc, kind, letters, true);
    let at_others = digits_of(rt, alloc, kind, letters, false);
    let event = event_of(rt, alloc, kind, letters);
    is_written(rt, alloc, &event, &at_eight, &at_others);
}

/// The event of this kind with fields of these letters.
fn event_of(rt: &impl Abort, alloc: Global, kind: u8, letters: &str) -> Event {
    let mut fields = vec![in alloc; Scalar::Byte(kind)].expect(rt, "memory");
    for letter in letters.chars() {
        let field = scalar(rt, alloc, letter);
        fields.push(field).expect(rt, "memory");
    }
    Event::new(fields)
}

/// The digits of a kind and of fields of these letters, where ids have 8 bytes or at the other widths.
fn digits_of(rt: &impl Abort, alloc: Global, kind: u8, letters: &str, is_wide: bool) -> String {
    let mut text = digits(rt, alloc, &[kind]);
    for letter in letters.chars() {
        let (at_eight, at_others) = scalar_digits(letter);
        let more = if is_wide { at_eight } else { at_others };
        text.push_str(more).expect(rt, "memory");
    }
    text
}

/// The fault of bytes that are no event.
fn fault_of_event(rt: &impl Abort, alloc: Global, bytes: &[u8]) -> Option<DataFault> {
    Event::take(alloc, bytes, &wide(rt)).err()
}

#[test]
fn what_is_no_event_is_refused(rt: HostRuntime) {
    for kind in [0u8, 3, 5, 10, 30, 255] {
        let found = fault_of_event(&rt, rt.alloc(), &[kind]);
        expect_same(&rt, &found, &Some(DataFault::BadTag));
    }
}

/// What comes of writing the event behind the byte 1, and what stands there then.
fn put_behind(rt: &impl Abort, alloc: Global, event: Event) -> (Result<(), DataFault>, Vec<u8>) {
    let mut bytes = vec![in alloc; 1u8].expect(rt, "memory");
    let put = event.put(&wide(rt), &mut bytes);
    (put, bytes)
}

#[test]
fn an_event_with_other_fields_is_not_written(rt: HostRuntime) {
    let alloc = rt.alloc();
    let fields = vec![in alloc; Scalar::Byte(99), Scalar::Long(1)].expect(&rt, "memory");
    let (put, bytes) = put_behind(&rt, alloc, Event::new(fields));
    expect_same(&rt, &put, &Err(DataFault::BadSize));
    expect_same(&rt, &bytes.as_slice(), &[1u8].as_slice());
}

/// An event of this kind at a place, under this request.
fn event_at_place(rt: &impl Abort, alloc: Global, kind: u8, request: i32) -> Event {
    let fields = vec![in alloc;
        Scalar::Byte(kind),
        Scalar::Int(request),
        Scalar::ObjectId(ObjectId(1)),
        Scalar::Location(PLACE),
    ];
    Event::new(fields.expect(rt, "memory"))
}

/// So many of a step and a breakpoint of one place, under the requests 1 and 2.
fn events(rt: &impl Abort, alloc: Global, count: u8) -> Vec<Event> {
    let mut events = Vec::new(alloc);
    for kind in 1..=count {
        let event = event_at_place(rt, alloc, kind, i32::from(kind));
        events.push(event).expect(rt, "memory");
    }
    events
}

/// A composite of so many of these events is written as these digits.
fn composite_is<R: Abort>(
    rt: &R,
    alloc: Global,
    (policy, count): (u8, u8),
    sizes: &IdSizes,
    hex: &str,
) {
    let composite = Composite::new(policy, events(rt, alloc, count));
    goes_there_and_back(rt, alloc, &composite, sizes, hex);
}

#[test]
fn composites_are_their_bytes(rt: HostRuntime) {
    let alloc = rt.alloc();
    composite_is(&rt, alloc, (2, 0), &wide(&rt), "0200000000");
    composite_is(
        &rt,
        alloc,
        (0, 1),
        &wide(&rt),
        "0000000001\
         0100000001000000000000000101000000000000000a00000000000000140000000000000003",
    );
    composite_is(
        &rt,
        alloc,
        (1, 2),
        &wide(&rt),
        "0100000002\
         0100000001000000000000000101000000000000000a00000000000000140000000000000003\
         0200000002000000000000000101000000000000000a00000000000000140000000000000003",
    );
    composite_is(
        &rt,
        alloc,
        (1, 2),
        &narrow(&rt),
        "0100000002\
         0100000001000001010000000a00140000000000000003\
         0200000002000001010000000a00140000000000000003",
    );
}

/// The composite that the data of this one make, as text.
fn made_again(rt: &impl Abort, alloc: Global, composite: Composite) -> String {
    let data = composite.into_data(alloc).expect(rt, "memory");
    let made = Composite::of_data(alloc, data).expect(rt, "memory");
    let again = made.expect(rt, "a composite");
    format!(in alloc; "{again:?}").expect(rt, "memory")
}

/// Whether these data make a composite.
fn is_composite(rt: &impl Abort, alloc: Global, items: Vec<Datum>) -> bool {
    let made = Composite::of_data(alloc, Data::new(items));
    made.expect(rt, "memory").is_some()
}

#[test]
fn a_composite_is_made_of_its_data(rt: HostRuntime) {
    let two = Composite::new(1, events(&rt, rt.alloc(), 2));
    let wanted = format!(in rt.alloc(); "{two:?}").expect(&rt, "memory");
    let found = made_again(&rt, rt.alloc(), two);
    expect_same(&rt, &found.as_str(), &wanted.as_str());
}

#[test]
fn other_data_are_no_composite(rt: HostRuntime) {
    let alloc = rt.alloc();
    let one = vec![in alloc; Datum::One(Scalar::Byte(1))].expect(&rt, "memory");
    expect_that(&rt, !is_composite(&rt, alloc, one));
    let int = vec![in alloc; Datum::One(Scalar::Int(1)), Datum::Many(Vec::new(alloc))];
    let int = int.expect(&rt, "memory");
    expect_that(&rt, !is_composite(&rt, alloc, int));
}

/// A number, a list of an id and a text, and a region.
fn data_of_each_form(rt: &impl Abort, alloc: Global) -> Data {
    let number = Datum::One(Scalar::Byte(1));
    let list = list_of_one(rt, alloc);
    let region = region_of_one(rt, alloc);
    let items = vec![in alloc; number, list, region];
    Data::new(items.expect(rt, "memory"))
}

/// A list of an id and a text.
fn list_of_one(rt: &impl Abort, alloc: Global) -> Datum {
    let name = Scalar::String(text(rt, alloc, "main"));
    let entry = vec![in alloc; Scalar::ObjectId(ObjectId(5)), name].expect(rt, "memory");
    Datum::Many(vec![in alloc; entry].expect(rt, "memory"))
}

/// A region of one int.
fn region_of_one(rt: &impl Abort, alloc: Global) -> Datum {
    let elements = vec![in alloc; Value::Int(7)].expect(rt, "memory");
    let region = ArrayRegion::new(Tag::Int, elements);
    Datum::Region(region.expect(rt, "a region"))
}

#[test]
fn copied_data_are_the_same(rt: HostRuntime) {
    let first = data_of_each_form(&rt, rt.alloc());
    let copy = first.copied(rt.alloc()).expect(&rt, "memory");
    expect_same(&rt, &copy.items(), &first.items());
}
