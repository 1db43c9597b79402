//! Each command that a target answers, by its name: its set, its number and its data as bytes.
use crate::asserts::expect_same;
use crate::commands::command_bytes::is_written;
use jdwp_command::{
    array_reference, class_type, event_request, method, module_reference, object_reference,
    reference_type, stack_frame, string_reference, thread_group_reference, thread_reference,
    virtual_machine,
};
use jdwp_event::{EventKind, Modifier, Policy};
use jdwp_layout::layout_of;
use jdwp_mirror::Command;
use jdwp_value::{
    FieldId, FrameId, Location, MethodId, ObjectId, ObjectTag, ReferenceTypeId, Tag, TypeTag, Value,
};
use std::alloc::Global;
use std::process::Abort;

const THREAD: ObjectId = ObjectId(1);

const GROUP: ObjectId = ObjectId(5);

const MODULE: ObjectId = ObjectId(6);

const CLASS: ReferenceTypeId = ReferenceTypeId(10);

const METHOD: MethodId = MethodId(20);

const FRAME: FrameId = FrameId(30);

const OBJECT: ObjectId = ObjectId(100);

const STRING: ObjectId = ObjectId(101);

const ARRAY: ObjectId = ObjectId(102);

/// The commands that a target answers, with their data: ids have 8 bytes, counts and lengths 4.
static COMMANDS: [(u8, u8, &str); 62] = [
    (1, 1, ""),
    (1, 2, "00000006 4c4d61696e3b"),
    (1, 3, ""),
    (1, 4, ""),
    (1, 5, ""),
    (1, 6, ""),
    (1, 7, ""),
    (1, 8, ""),
    (1, 9, ""),
    (1, 10, "fffffffe"),
    (1, 12, ""),
    (
        1,
        14,
        "00000002 0000000000000064 00000001 0000000000000065 00000003",
    ),
    (1, 15, ""),
    (1, 16, ""),
    (1, 17, ""),
    (1, 20, ""),
    (1, 22, ""),
    (2, 1, "000000000000000a"),
    (2, 2, "000000000000000a"),
    (2, 3, "000000000000000a"),
    (2, 4, "000000000000000a"),
    (2, 5, "000000000000000a"),
    (
        2,
        6,
        "000000000000000a 00000002 0000000000000028 0000000000000029",
    ),
    (2, 7, "000000000000000a"),
    (2, 9, "000000000000000a"),
    (2, 10, "000000000000000a"),
    (2, 13, "000000000000000a"),
    (2, 14, "000000000000000a"),
    (2, 15, "000000000000000a"),
    (2, 19, "000000000000000a"),
    (3, 1, "000000000000000a"),
    (6, 1, "000000000000000a 0000000000000014"),
    (6, 2, "000000000000000a 0000000000000014"),
    (6, 4, "000000000000000a 0000000000000014"),
    (6, 5, "000000000000000a 0000000000000014"),
    (9, 1, "0000000000000064"),
    (9, 2, "0000000000000064 00000001 0000000000000028"),
    (9, 7, "0000000000000064"),
    (9, 8, "0000000000000064"),
    (9, 9, "0000000000000064"),
    (10, 1, "0000000000000065"),
    (11, 1, "0000000000000001"),
    (11, 2, "0000000000000001"),
    (11, 3, "0000000000000001"),
    (11, 4, "0000000000000001"),
    (11, 5, "0000000000000001"),
    (11, 6, "0000000000000001 00000002 ffffffff"),
    (11, 7, "0000000000000001"),
    (11, 12, "0000000000000001"),
    (12, 1, "0000000000000005"),
    (12, 2, "0000000000000005"),
    (12, 3, "0000000000000005"),
    (13, 1, "0000000000000066"),
    (13, 2, "0000000000000066 00000003 00000004"),
    (
        15,
        1,
        "02 01 00000002 07 01 000000000000000a 0000000000000014 0000000000000003 01 00000005",
    ),
    (15, 2, "01 00000007"),
    (15, 3, ""),
    (
        16,
        1,
        "0000000000000001 000000000000001e 00000002 00000000 49 00000002 73",
    ),
    (
        16,
        2,
        "0000000000000001 000000000000001e 00000002 00000001 49 00000007 00000003 5a 01",
    ),
    (16, 3, "0000000000000001 000000000000001e"),
    (18, 1, "0000000000000006"),
    (18, 2, "0000000000000006"),
];

/// A command of the set VirtualMachine that has data, by its number.
fn of_machine_with_data(rt: &impl Abort, alloc: Global, number: u8) -> Option<Command> {
    let command = match number {
        2 => virtual_machine::classes_by_signature(alloc, "LMain;"),
        10 => virtual_machine::exit(alloc, -2),
        14 => virtual_machine::dispose_objects(alloc, &[(OBJECT, 1), (STRING, 3)]),
        _ => return None,
    };
    Some(command.expect(rt, "memory"))
}

/// A command of the set VirtualMachine by its number.
fn of_machine(rt: &impl Abort, alloc: Global, number: u8) -> Option<Command> {
    let command = match number {
        1 => virtual_machine::version(alloc),
        3 => virtual_machine::all_classes(alloc),
        4 => virtual_machine::all_threads(alloc),
        5 => virtual_machine::top_level_thread_groups(alloc),
        6 => virtual_machine::dispose(alloc),
        7 => virtual_machine::id_sizes(alloc),
        8 => virtual_machine::suspend(alloc),
        9 => virtual_machine::resume(alloc),
        12 => virtual_machine::capabilities(alloc),
        15 => virtual_machine::hold_events(alloc),
        16 => virtual_machine::release_events(alloc),
        17 => virtual_machine::capabilities_new(alloc),
        20 => virtual_machine::all_classes_with_generic(alloc),
        22 => virtual_machine::all_modules(alloc),
        _ => return of_machine_with_data(rt, alloc, number),
    };
    Some(command)
}

/// A command of the set ReferenceType by its number.
fn of_class(rt: &impl Abort, alloc: Global, number: u8) -> Option<Command> {
    let command = match number {
        1 => reference_type::signature(alloc, CLASS),
        2 => reference_type::class_loader(alloc, CLASS),
        3 => reference_type::modifiers(alloc, CLASS),
        4 => reference_type::fields(alloc, CLASS),
        5 => reference_type::methods(alloc, CLASS),
        6 => reference_type::get_values(alloc, CLASS, &[FieldId(40), FieldId(41)]),
        7 => reference_type::source_file(alloc, CLASS),
        9 => reference_type::status(alloc, CLASS),
        10 => reference_type::interfaces(alloc, CLASS),
        13 => reference_type::signature_with_generic(alloc, CLASS),
        14 => reference_type::fields_with_generic(alloc, CLASS),
        15 => reference_type::methods_with_generic(alloc, CLASS),
        19 => reference_type::module(alloc, CLASS),
        _ => return None,
    };
    Some(command.expect(rt, "memory"))
}

/// A command of the set Method by its number.
fn of_method(rt: &impl Abort, alloc: Global, number: u8) -> Option<Command> {
    let command = match number {
        1 => method::line_table(alloc, CLASS, METHOD),
        2 => method::variable_table(alloc, CLASS, METHOD),
        4 => method::is_obsolete(alloc, CLASS, METHOD),
        5 => method::variable_table_with_generic(alloc, CLASS, METHOD),
        _ => return None,
    };
    Some(command.expect(rt, "memory"))
}

/// A command of the set ObjectReference by its number.
fn of_object(rt: &impl Abort, alloc: Global, number: u8) -> Option<Command> {
    let command = match number {
        1 => object_reference::reference_type(alloc, OBJECT),
        2 => object_reference::get_values(alloc, OBJECT, &[FieldId(40)]),
        7 => object_reference::disable_collection(alloc, OBJECT),
        8 => object_reference::enable_collection(alloc, OBJECT),
        9 => object_reference::is_collected(alloc, OBJECT),
        _ => return None,
    };
    Some(command.expect(rt, "memory"))
}

/// A command of the set ThreadReference by its number.
fn of_thread(rt: &impl Abort, alloc: Global, number: u8) -> Option<Command> {
    let command = match number {
        1 => thread_reference::name(alloc, THREAD),
        2 => thread_reference::suspend(alloc, THREAD),
        3 => thread_reference::resume(alloc, THREAD),
        4 => thread_reference::status(alloc, THREAD),
        5 => thread_reference::thread_group(alloc, THREAD),
        6 => thread_reference::frames(alloc, THREAD, 2, -1),
        7 => thread_reference::frame_count(alloc, THREAD),
        12 => thread_reference::suspend_count(alloc, THREAD),
        _ => return None,
    };
    Some(command.expect(rt, "memory"))
}

/// A command of the set ThreadGroupReference by its number.
fn of_group(rt: &impl Abort, alloc: Global, number: u8) -> Option<Command> {
    let command = match number {
        1 => thread_group_reference::name(alloc, GROUP),
        2 => thread_group_reference::parent(alloc, GROUP),
        3 => thread_group_reference::children(alloc, GROUP),
        _ => return None,
    };
    Some(command.expect(rt, "memory"))
}

/// A breakpoint at index 3 of the method that suspends its thread, the fifth time that it is reached.
fn breakpoint(rt: &impl Abort, alloc: Global) -> Command {
    let place = Location::At {
        tag: TypeTag::Class,
        class: CLASS,
        method: METHOD,
        index: 3,
    };
    let modifiers = vec![in alloc; Modifier::LocationOnly(place), Modifier::Count(5)];
    let modifiers = modifiers.expect(rt, "memory");
    let set = event_request::set(alloc, EventKind::Breakpoint, Policy::EventThread, modifiers);
    set.expect(rt, "memory")
}

/// A command of the set EventRequest by its number.
fn of_request(rt: &impl Abort, alloc: Global, number: u8) -> Option<Command> {
    match number {
        1 => Some(breakpoint(rt, alloc)),
        2 => Some(event_request::clear(alloc, EventKind::SingleStep, 7).expect(rt, "memory")),
        3 => Some(event_request::clear_all_breakpoints(alloc)),
        _ => None,
    }
}

/// A command of the set StackFrame by its number.
fn of_frame(rt: &impl Abort, alloc: Global, number: u8) -> Option<Command> {
    let command = match number {
        1 => {
            let slots = [(0, Tag::Int), (2, Tag::Object(ObjectTag::String))];
            stack_frame::get_values(alloc, THREAD, FRAME, &slots)
        }
        2 => {
            let values = [(1, Value::Int(7)), (3, Value::Boolean(true))];
            stack_frame::set_values(alloc, THREAD, FRAME, &values)
        }
        3 => stack_frame::this_object(alloc, THREAD, FRAME),
        _ => return None,
    };
    Some(command.expect(rt, "memory"))
}

/// A command of the sets that have one or two.
fn of_small_set(rt: &impl Abort, alloc: Global, set: u8, number: u8) -> Option<Command> {
    let command = match (set, number) {
        (3, 1) => class_type::superclass(alloc, CLASS),
        (10, 1) => string_reference::value(alloc, STRING),
        (13, 1) => array_reference::length(alloc, ARRAY),
        (13, 2) => array_reference::get_values(alloc, ARRAY, 3, 4),
        (18, 1) => module_reference::name(alloc, MODULE),
        (18, 2) => module_reference::class_loader(alloc, MODULE),
        _ => return None,
    };
    Some(command.expect(rt, "memory"))
}

/// The command of a set and a number, where there is one by name.
fn named(rt: &impl Abort, alloc: Global, set: u8, number: u8) -> Option<Command> {
    match set {
        1 => of_machine(rt, alloc, number),
        2 => of_class(rt, alloc, number),
        6 => of_method(rt, alloc, number),
        9 => of_object(rt, alloc, number),
        11 => of_thread(rt, alloc, number),
        12 => of_group(rt, alloc, number),
        15 => of_request(rt, alloc, number),
        16 => of_frame(rt, alloc, number),
        _ => of_small_set(rt, alloc, set, number),
    }
}

#[test]
fn each_command_has_its_bytes(rt: HostRuntime) {
    for &(set, number, hex) in COMMANDS.iter() {
        let command = named(&rt, rt.alloc(), set, number).expect(&rt, "a command by name");
        is_written(&rt, rt.alloc(), &command, set, number, hex);
    }
}

/// Whether a target answers the command, and reads its data.
fn is_answered(set: u8, number: u8) -> bool {
    match layout_of(set, number) {
        Some(row) => set < 64 && !row.starred && row.layouts.is_some(),
        None => false,
    }
}

/// Where a target answers the command, it is made by name, and else none is.
fn is_named_where_answered(rt: &impl Abort, alloc: Global, set: u8, number: u8) {
    let named = named(rt, alloc, set, number);
    let found = named
        .as_ref()
        .map(|command| (command.set(), command.number()));
    let wanted = is_answered(set, number).then_some((set, number));
    expect_same(rt, &found, &wanted);
}

#[test]
fn each_command_that_is_answered_has_a_name(rt: HostRuntime) {
    for set in 0..=255u8 {
        for number in 0..=255u8 {
            is_named_where_answered(&rt, rt.alloc(), set, number);
        }
    }
}
