//! Answers that are read by their shape.
use crate::asserts::expect_same;
use jdwp_command::answers;
use jdwp_layout::{Answer, Data, Scalar, layout_of, read};
use jdwp_wire::{ErrorCode, IdSizes};
use std::alloc::Global;
use std::fmt::Debug;
use std::process::Abort;
use test_parts::{bytes, commands};

/// A command, the data of its reply, and what is read of them by each of the ways to read an answer that reads something. Ids have 8 bytes.
static ANSWERS: [((u8, u8), &str, &str); 17] = [
    (commands::SUSPEND, "", " done"),
    // A number, which may be negative.
    (commands::SUSPEND_COUNT, "00000001", " int: 1"),
    (commands::SUSPEND_COUNT, "fffffffb", " int: -5"),
    (commands::IS_COLLECTED, "01", " boolean: true"),
    // One text, and two.
    (
        commands::THREAD_NAME,
        "00000004 6d61696e",
        " text: \"main\"",
    ),
    (
        commands::SIGNATURE_WITH_GENERIC,
        "00000003 4c413b 00000000",
        " texts: (\"LA;\", \"\")",
    ),
    // An object, a class, and an object behind its tag.
    (
        commands::THREAD_GROUP,
        "0000000000000005",
        " object: ObjectId(5)",
    ),
    (
        commands::SUPERCLASS,
        "000000000000000a",
        " class: ReferenceTypeId(10)",
    ),
    (
        commands::THIS_OBJECT,
        "4c 0000000000000007",
        " tagged: TaggedId { tag: Object, id: ObjectId(7) }",
    ),
    // Elements of an array.
    (
        commands::GET_ELEMENTS,
        "49 00000002 00000003 00000004",
        " region: ArrayRegion { tag: Int, elements: [Int(3), Int(4)] }",
    ),
    // Two numbers, and a type tag with a class.
    (
        commands::THREAD_STATUS,
        "00000001 00000000",
        " ints: (1, 0)",
    ),
    // ObjectReference.ReferenceType.
    (
        (9, 1),
        "02 000000000000000a",
        " typed: (2, ReferenceTypeId(10))",
    ),
    // A list of frames, and two lists.
    (
        commands::FRAMES,
        "00000001 000000000000001e 00 0000000000000000 0000000000000000 0000000000000000",
        " list: 1 frame: (FrameId(30), Null)",
    ),
    (
        commands::GROUP_CHILDREN,
        "00000001 0000000000000001 00000000",
        " lists: (1, 0)",
    ),
    // Entries of one field.
    (
        commands::ALL_THREADS,
        "00000001 0000000000000001",
        " list: 1 object: ObjectId(1)",
    ),
    (
        commands::INTERFACES,
        "00000001 000000000000000a",
        " list: 1 class: ReferenceTypeId(10)",
    ),
    (
        commands::GET_SLOTS,
        "00000001 49 00000003",
        " list: 1 value: Int(3)",
    ),
];

/// Appends what was read under a name, if it was.
fn say<T: Debug>(rt: &impl Abort, name: &str, read: &Option<T>, text: &mut String) {
    if let Some(read) = read {
        write!(text, " {name}: {read:?}").expect(rt, "memory");
    }
}

/// Appends what is read of an entry of a list.
fn say_entry(rt: &impl Abort, entry: &[Scalar], text: &mut String) {
    say(rt, "object", &answers::object_in(entry), text);
    say(rt, "class", &answers::class_in(entry), text);
    say(rt, "value", &answers::value_in(entry), text);
    say(rt, "frame", &answers::frame_in(entry), text);
}

/// Appends what is read as lists.
fn say_lists(rt: &impl Abort, answer: &Answer, text: &mut String) {
    if let Some(list) = answers::one_list(answer) {
        say(rt, "list", &Some(list.len()), text);
        for entry in list {
            say_entry(rt, entry, text);
        }
    }
    if let Some((first, second)) = answers::two_lists(answer) {
        say(rt, "lists", &Some((first.len(), second.len())), text);
    }
}

/// What is read of an answer.
fn told(rt: &impl Abort, alloc: Global, answer: &Answer) -> String {
    let mut text = String::new(alloc);
    if answers::is_done(answer) {
        text.push_str(" done").expect(rt, "memory");
    }
    say(rt, "int", &answers::one_int(answer), &mut text);
    say(rt, "text", &answers::one_text(answer), &mut text);
    say(rt, "boolean", &answers::one_boolean(answer), &mut text);
    say(rt, "object", &answers::one_object(answer), &mut text);
    say(rt, "class", &answers::one_class(answer), &mut text);
    say(rt, "tagged", &answers::one_tagged(answer), &mut text);
    say(rt, "region", &answers::one_region(answer), &mut text);
    say(rt, "ints", &answers::two_ints(answer), &mut text);
    say(rt, "texts", &answers::two_texts(answer), &mut text);
    say(rt, "typed", &answers::type_and_class(answer), &mut text);
    say_lists(rt, answer, &mut text);
    text
}

/// The answer to a command whose reply has these data.
fn answer_of(rt: &impl Abort, alloc: Global, (set, number): (u8, u8), hex: &str) -> Answer {
    let layouts = layout_of(set, number).expect(rt, "a row").layouts;
    let layout = layouts.expect(rt, "a row with layouts").reply;
    let sizes = IdSizes::new(8, 8, 8, 8, 8).expect(rt, "widths");
    let data = bytes(alloc, hex).expect(rt, "memory");
    let items = read(alloc, &layout, &sizes, &data).expect(rt, "data that read");
    Answer::Data(Data::new(items))
}

/// Each way to read an answer reads those of its shape, and no other; and nothing is read of an error.
#[test]
fn answers_are_read_by_their_shape(rt: HostRuntime) {
    for &(command, hex, wanted) in ANSWERS.iter() {
        let answer = answer_of(&rt, rt.alloc(), command, hex);
        let found = told(&rt, rt.alloc(), &answer);
        expect_same(&rt, &(command, found.as_str()), &(command, wanted));
    }
    let error = told(&rt, rt.alloc(), &Answer::Error(ErrorCode(10)));
    expect_same(&rt, &error.as_str(), &"");
}
