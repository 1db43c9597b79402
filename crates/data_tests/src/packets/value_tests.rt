//! Worked examples of values.
use crate::asserts::{expect_same, expect_that};
use crate::packets::rows::{are_so, is_too_wide, written};
use jdwp_value::{
    ArrayRegion, FieldId, FrameId, Location, MethodId, ObjectId, ReferenceTypeId, Tag, TaggedId,
    TypeTag, Value, pass_untagged, put_untagged, take_untagged, untagged_size,
};
use jdwp_wire::{DataFault, IdSizes, Wire};
use std::alloc::Global;
use std::process::Abort;
use test_parts::bytes;

/// All ids of 1 byte.
fn narrow(rt: &impl Abort) -> IdSizes {
    IdSizes::new(1, 1, 1, 1, 1).expect(rt, "widths")
}

/// Fields of 2 bytes, methods of 4, objects of 8, reference types of 3, frames of 5.
fn several(rt: &impl Abort) -> IdSizes {
    IdSizes::new(2, 4, 8, 3, 5).expect(rt, "widths")
}

/// At widths of one byte.
const VALUES: &str = "49.ffffffff = Int(4294967295)
73.05 = Object(TaggedId { tag: String, id: ObjectId(5) })
42.c8 = Byte(200)
43.0102 = Char(258)
53.ffff = Short(65535)
46.3f800000 = Float(1065353216)
44.3ff0000000000000 = Double(4607182418800017408)
4a.0000000000000100 = Long(256)
56 = Void
5a.00 = Boolean(false)
5a.01 = Boolean(true)
4c.00 = Object(TaggedId { tag: Object, id: ObjectId(0) })";

/// Another true, and what is no value.
const OTHER_VALUES: &str = "5a.80 > Boolean(true)
01 ! 13 BadTag
49.0102 ! 11 Short(3)
- ! 11 Short(0)";

#[test]
fn values(rt: HostRuntime) {
    let narrow = narrow(&rt);
    are_so::<_, Value>(&rt, rt.alloc(), &narrow, VALUES);
    are_so::<_, Value>(&rt, rt.alloc(), &narrow, OTHER_VALUES);
    for row in VALUES.lines() {
        begins_with_its_tag(&rt, rt.alloc(), &narrow, row);
    }
}

/// The first byte of a row's value is its tag.
fn begins_with_its_tag(rt: &impl Abort, alloc: Global, sizes: &IdSizes, row: &str) {
    let (hex, _) = row.split_once(' ').expect(rt, "a row");
    let all = bytes(alloc, hex).expect(rt, "memory");
    let (value, _) = Value::take(alloc, &all, sizes).expect(rt, "a value");
    expect_same(rt, &all.first().copied(), &Some(value.tag().byte()));
}

/// Whether the byte is a tag, which takes it alone; where it is none, that is its fault.
fn is_tag(rt: &impl Abort, alloc: Global, byte: u8) -> bool {
    match Tag::take(alloc, &[byte, 9], &narrow(rt)) {
        Ok((tag, used)) => {
            expect_same(rt, &used, &1);
            expect_same(rt, &tag.byte(), &byte);
            true
        }
        Err(fault) => {
            expect_same(rt, &fault, &DataFault::BadTag);
            false
        }
    }
}

#[test]
fn every_tag(rt: HostRuntime) {
    for byte in 0..=255u8 {
        let is_listed = b"[BCLFDIJSVZstglc".contains(&byte);
        expect_same(&rt, &is_tag(&rt, rt.alloc(), byte), &is_listed);
    }
}

/// At widths of one byte.
const LOCATIONS: &str = "00.00.00.0000000000000000 = Null
01.0a.14.8000000000000003 = At { tag: Class, class: ReferenceTypeId(10), method: MethodId(20), index: 9223372036854775811 }
04 ! 13 BadTag
00.01 ! 11 Short(2)
00.01.00.0000000000000000 ! 13 BadTag
03.01.00.00000000000000 ! 11 Short(10)";

/// At several widths.
const WIDE_LOCATIONS: &str = "03.000102.00000001.0000000000000007 = \
    At { tag: Array, class: ReferenceTypeId(258), method: MethodId(1), index: 7 }";

#[test]
fn locations(rt: HostRuntime) {
    are_so::<_, Location>(&rt, rt.alloc(), &narrow(&rt), LOCATIONS);
    are_so::<_, Location>(&rt, rt.alloc(), &several(&rt), WIDE_LOCATIONS);
}

/// At several widths, alone and before another byte.
const FIELDS: &str = "0102 = FieldId(258)
0102/aa = FieldId(258)";

const METHODS: &str = "00000102 = MethodId(258)
00000102/aa = MethodId(258)";

const OBJECTS: &str = "0000000000000102 = ObjectId(258)
0000000000000102/aa = ObjectId(258)";

const CLASSES: &str = "000102 = ReferenceTypeId(258)
000102/aa = ReferenceTypeId(258)";

const FRAMES: &str = "0000000102 = FrameId(258)
0000000102/aa = FrameId(258)";

#[test]
fn ids_in_their_widths(rt: HostRuntime) {
    let sizes = several(&rt);
    are_so::<_, FieldId>(&rt, rt.alloc(), &sizes, FIELDS);
    are_so::<_, MethodId>(&rt, rt.alloc(), &sizes, METHODS);
    are_so::<_, ObjectId>(&rt, rt.alloc(), &sizes, OBJECTS);
    are_so::<_, ReferenceTypeId>(&rt, rt.alloc(), &sizes, CLASSES);
    are_so::<_, FrameId>(&rt, rt.alloc(), &sizes, FRAMES);
}

/// At several widths.
const TAGGED: &str = "74.0000000000000102 = TaggedId { tag: Thread, id: ObjectId(258) }
49.00000001 ! 13 BadTag";

const WIDE_VALUES: &str =
    "74.0000000000000201 = Object(TaggedId { tag: Thread, id: ObjectId(513) })";

const TAGS: &str = "56 = Void";

const WIDE_REGIONS: &str = "74.00000001.74.0000000000000201 = ArrayRegion { tag: Object(Thread), \
    elements: [Object(TaggedId { tag: Thread, id: ObjectId(513) })] }";

#[test]
fn several_widths(rt: HostRuntime) {
    let sizes = several(&rt);
    are_so::<_, TaggedId>(&rt, rt.alloc(), &sizes, TAGGED);
    are_so::<_, Value>(&rt, rt.alloc(), &sizes, WIDE_VALUES);
    are_so::<_, Tag>(&rt, rt.alloc(), &sizes, TAGS);
    are_so::<_, ArrayRegion>(&rt, rt.alloc(), &sizes, WIDE_REGIONS);
}

/// Ids of 256, the last in a region behind one that is not too wide.
#[test]
fn an_id_too_wide_leaves_the_bytes(rt: HostRuntime) {
    let alloc = rt.alloc();
    is_too_wide::<_, ObjectId>(&rt, alloc, "0000000000000100", 1);
    is_too_wide::<_, TaggedId>(&rt, alloc, "74.0000000000000100", 2);
    is_too_wide::<_, Value>(&rt, alloc, "74.0000000000000100", 2);
    let place = "01.0000000000000001.0000000000000100.0000000000000000";
    is_too_wide::<_, Location>(&rt, alloc, place, 11);
    let region = "4c.00000002.4c.0000000000000001.74.0000000000000100";
    is_too_wide::<_, ArrayRegion>(&rt, alloc, region, 9);
}

/// At widths of one byte.
const REGIONS: &str =
    "49.00000002.00000001.00000002 = ArrayRegion { tag: Int, elements: [Int(1), Int(2)] }
4c.00000001.73.05 = ArrayRegion { tag: Object(Object), elements: [Object(TaggedId { tag: String, id: ObjectId(5) })] }
5a.00000000 = ArrayRegion { tag: Boolean, elements: [] }
56.00000000 ! 13 BadTag
49.7fffffff ! 11 Short(5)
49.80000000 ! 14 NegativeCount
49.00000002.00000001.00 ! 11 Short(10)
4c.00000001.49 ! 13 BadTag
4c.00000001.49.00000001 ! 13 BadTag
4c.00000002.73.05 ! 11 Short(7)
4c.0000 ! 11 Short(3)
49.0000 ! 11 Short(3)";

#[test]
fn regions(rt: HostRuntime) {
    are_so::<_, ArrayRegion>(&rt, rt.alloc(), &narrow(&rt), REGIONS);
}

/// Elements of another tag are no region, and void is the tag of none.
#[test]
fn what_is_no_region(rt: HostRuntime) {
    let elements = vec![in rt.alloc(); Value::Byte(1)].expect(&rt, "memory");
    expect_that(&rt, ArrayRegion::new(Tag::Int, elements).is_none());
    let none = Vec::new(rt.alloc());
    expect_that(&rt, ArrayRegion::new(Tag::Void, none).is_none());
}

/// A region of 40,000 ints.
fn long_region(rt: &impl Abort, alloc: Global) -> Vec<u8> {
    let mut bytes = vec![in alloc; 0x49, 0, 0, 0x9c, 0x40].expect(rt, "memory");
    for number in 0..40_000u32 {
        let element = number.to_be_bytes();
        bytes.extend_from_slice(&element).expect(rt, "memory");
    }
    bytes
}

/// The region that these bytes are.
fn region_of(rt: &impl Abort, alloc: Global, sizes: &IdSizes, bytes: &[u8]) -> ArrayRegion {
    let (region, used) = ArrayRegion::take(alloc, bytes, sizes).expect(rt, "a region");
    expect_same(rt, &used, &bytes.len());
    region
}

#[test]
fn a_long_region(rt: HostRuntime) {
    let sizes = IdSizes::new(8, 8, 8, 8, 8).expect(&rt, "widths");
    let bytes = long_region(&rt, rt.alloc());
    let region = region_of(&rt, rt.alloc(), &sizes, &bytes);
    expect_same(&rt, &region.elements().len(), &40_000);
    expect_same(&rt, &region.elements().last(), &Some(&Value::Int(39_999)));
    let put = written(&rt, rt.alloc(), &sizes, &region);
    expect_same(&rt, &put.get(1..), &Some(bytes.as_slice()));
}

/// Whether regions of these bytes, in hex digits, are equal.
fn are_equal(rt: &impl Abort, alloc: Global, one: &str, other: &str) -> bool {
    let one = bytes(alloc, one).expect(rt, "memory");
    let other = bytes(alloc, other).expect(rt, "memory");
    let one = region_of(rt, alloc, &narrow(rt), &one);
    let other = region_of(rt, alloc, &narrow(rt), &other);
    one == other
}

/// The shorts 1 and 2.
const SHORTS: &str = "53.00000002.0001.0002";

/// The same, another last short, and chars.
static COMPARED: [(&str, bool); 3] = [
    (SHORTS, true),
    ("53.00000002.0001.0003", false),
    ("43.00000002.0001.0002", false),
];

#[test]
fn regions_are_compared_by_their_elements(rt: HostRuntime) {
    for (other, wanted) in COMPARED.iter() {
        let found = are_equal(&rt, rt.alloc(), SHORTS, other);
        expect_same(&rt, &found, wanted);
    }
}

#[test]
fn a_region_gives_its_elements(rt: HostRuntime) {
    let bytes = bytes(rt.alloc(), SHORTS).expect(&rt, "memory");
    let elements = region_of(&rt, rt.alloc(), &narrow(&rt), &bytes).into_elements();
    let wanted = [Value::Short(1), Value::Short(2)];
    expect_same(&rt, &elements.as_slice(), &wanted.as_slice());
}

#[test]
fn type_tags(rt: HostRuntime) {
    let bytes = (
        TypeTag::Class.byte(),
        TypeTag::Interface.byte(),
        TypeTag::Array.byte(),
    );
    expect_same(&rt, &bytes, &(1, 2, 3));
}

/// At several widths: the byte of a tag, the bytes of a value behind it, and the value.
const UNTAGGED: &str = "42 c8 Byte(200)
43 0102 Char(258)
44 3ff0000000000000 Double(4607182418800017408)
46 3f800000 Float(1065353216)
49 ffffffff Int(4294967295)
4a 0000000000000100 Long(256)
53 ffff Short(65535)
56 - Void
5a 01 Boolean(true)
74 0000000000000201 Object(TaggedId { tag: Thread, id: ObjectId(513) })";

/// The tag of this byte, in hex digits.
fn tag_of(rt: &impl Abort, alloc: Global, hex: &str) -> Tag {
    let byte = bytes(alloc, hex).expect(rt, "memory");
    let (tag, _) = Tag::take(alloc, &byte, &narrow(rt)).expect(rt, "a tag");
    tag
}

/// The value of this tag that these bytes are, which are also passed by.
fn taken_untagged(rt: &impl Abort, tag: Tag, bytes: &[u8]) -> Value {
    let sizes = several(rt);
    expect_same(rt, &untagged_size(tag, &sizes), &bytes.len());
    let passed = pass_untagged(tag, bytes, bytes.len(), &sizes);
    expect_same(rt, &passed.expect(rt, "the value is passed by").len(), &0);
    let taken = take_untagged(tag, bytes, bytes.len(), &sizes);
    let (found, rest) = taken.expect(rt, "a value");
    expect_same(rt, &rest.len(), &0);
    found
}

/// The value is read of the bytes behind its tag, and written as them.
fn is_untagged(rt: &impl Abort, alloc: Global, row: &str) {
    let (tag, behind) = row.split_once(' ').expect(rt, "a tag");
    let (hex, wanted) = behind.split_once(' ').expect(rt, "bytes");
    let bytes = bytes(alloc, hex).expect(rt, "memory");
    let tag = tag_of(rt, alloc, tag);
    let value = taken_untagged(rt, tag, &bytes);
    expect_same(rt, &value.tag(), &tag);
    let found = format!(in alloc; "{value:?}").expect(rt, "memory");
    expect_same(rt, &found.as_str(), &wanted);
    let mut put = Vec::new(alloc);
    put_untagged(&value, &several(rt), &mut put).expect(rt, "the value is written");
    expect_same(rt, &put, &bytes);
}

#[test]
fn values_without_their_tags(rt: HostRuntime) {
    for row in UNTAGGED.lines() {
        is_untagged(&rt, rt.alloc(), row);
    }
}

/// Each law is called once at a type, which shows that it can be: it answers nothing that could be compared.
#[test]
fn laws_at_types(_rt: HostRuntime) {
    jdwp_wire::laws::reads_what_is_encoded::<ArrayRegion>();
    jdwp_wire::laws::reads_only_encoded::<Location>();
    jdwp_wire::laws::answers_first_fault::<Value>();
    jdwp_wire::laws::begins_with_one_value::<TaggedId>();
    jdwp_wire::laws::begins_with_one_fault::<ObjectId>();
}
