//! Each reply, read as a struct. A field's id has 1 byte, a method's 2, an object's 3, a reference type's 4 and a frame's 5.
use crate::asserts::expect_same;
use jdwp_answer::{
    Capabilities, CapabilitiesNew, Children, ClassEntry, FieldEntry, FrameEntry, GenericClass,
    GenericField, GenericMethod, GenericVariableTable, LineTable, MethodEntry, NamedClass, Reply,
    Signatures, SizesOfIds, TaggedType, ThreadStatus, VariableTable, Version,
};
use jdwp_layout::{Data, read};
use jdwp_value::{ObjectId, ReferenceTypeId, TaggedId};
use jdwp_wire::{DataFault, IdSizes};
use std::alloc::Global;
use std::fmt::Debug;
use std::process::Abort;

/// The widths of ids.
fn sizes(rt: &impl Abort) -> IdSizes {
    IdSizes::new(1, 2, 3, 4, 5).expect(rt, "widths")
}

/// The bytes are a reply that is told so, also where they are first read by the layout.
fn is_read<R: Reply + Debug>(rt: &impl Abort, alloc: Global, bytes: &[u8], wanted: &str) {
    let items = read(alloc, R::layout(), &sizes(rt), bytes).expect(rt, "data in the layout");
    let of_data = R::of_data(alloc, Data::new(items)).expect(rt, "memory");
    is_told::<R>(rt, alloc, &of_data.expect(rt, "a reply"), wanted);
    let of_bytes = R::read(alloc, &sizes(rt), bytes).expect(rt, "a reply");
    is_told::<R>(rt, alloc, &of_bytes, wanted);
}

/// The reply is told so.
fn is_told<R: Debug>(rt: &impl Abort, alloc: Global, reply: &R, wanted: &str) {
    let found = format!(in alloc; "{reply:?}").expect(rt, "memory");
    expect_same(rt, &found.as_str(), &wanted);
}

/// The bytes are no reply, and have this fault.
fn is_refused<R: Reply>(rt: &impl Abort, alloc: Global, bytes: &[u8], fault: DataFault) {
    let found = R::read(alloc, &sizes(rt), bytes)
        .err()
        .expect(rt, "a fault");
    expect_same(rt, &found, &fault);
}

#[test]
fn of_machines(rt: HostRuntime) {
    let alloc = rt.alloc();
    let bytes = b"\0\0\0\x10scripted machine\0\0\0\x0b\0\0\0\0\0\0\0\x0211\0\0\0\x01A";
    let wanted =
        "Version { description: \"scripted machine\", major: 11, minor: 0, vm_version: \"11\", vm_name: \"A\" }";
    is_read::<Version>(&rt, alloc, bytes, wanted);
    let bytes = b"\0\0\0\x01\0\0\0\x02\0\0\0\x03\0\0\0\x04\0\0\0\x05";
    let wanted = "SizesOfIds { field: 1, method: 2, object: 3, reference_type: 4, frame: 5 }";
    is_read::<SizesOfIds>(&rt, alloc, bytes, wanted);
}

#[test]
fn capabilities(rt: HostRuntime) {
    let alloc = rt.alloc();
    let bytes = b"\x01\0\x02\0\xff\0\0";
    let wanted =
        "Capabilities { can_watch_field_modification: true, can_watch_field_access: false, can_get_bytecodes: \
        true, can_get_synthetic_attribute: false, can_get_owned_monitor_info: true, \
        can_get_current_contended_monitor: false, can_get_monitor_info: false }";
    is_read::<Capabilities>(&rt, alloc, bytes, wanted);
    is_refused::<Capabilities>(&rt, alloc, &bytes[..6], DataFault::Short(6));
    let bytes = b"\x01\0\0\0\0\0\x01\x01\0\0\0\0\0\0\0\0\0\0\0\0\x01\x01\0\0\0\0\0\0\0\0\0\x01";
    let wanted =
        "CapabilitiesNew { can_watch_field_modification: true, can_watch_field_access: false, \
        can_get_bytecodes: false, can_get_synthetic_attribute: false, can_get_owned_monitor_info: false, \
        can_get_current_contended_monitor: false, can_get_monitor_info: true, can_redefine_classes: true, \
        can_add_method: false, can_unrestrictedly_redefine_classes: false, can_pop_frames: false, \
        can_use_instance_filters: false, can_get_source_debug_extension: false, can_request_vm_death_event: \
        false, can_set_default_stratum: false, can_get_instance_info: false, can_request_monitor_events: \
        false, can_get_monitor_frame_info: false, can_use_source_name_filters: false, can_get_constant_pool: \
        false, can_force_early_return: true, reserved22: true, reserved23: false, reserved24: false, \
        reserved25: false, reserved26: false, reserved27: false, reserved28: false, reserved29: false, \
        reserved30: false, reserved31: false, reserved32: true }";
    is_read::<CapabilitiesNew>(&rt, alloc, bytes, wanted);
    is_refused::<CapabilitiesNew>(&rt, alloc, &bytes[..31], DataFault::Short(31));
    let longer = [0; 33];
    is_refused::<CapabilitiesNew>(&rt, alloc, &longer, DataFault::Extra(32));
}

#[test]
fn lists_of_classes(rt: HostRuntime) {
    let alloc = rt.alloc();
    let bytes = b"\0\0\0\x02\x01\0\0\0\x0a\0\0\0\x03\x02\0\0\0\x0b\0\0\0\0";
    let wanted = "[ClassEntry { tag: 1, id: ReferenceTypeId(10), status: 3 }, \
        ClassEntry { tag: 2, id: ReferenceTypeId(11), status: 0 }]";
    for (bytes, wanted) in [(bytes.as_slice(), wanted), (b"\0\0\0\0", "[]")] {
        is_read::<Vec<ClassEntry>>(&rt, alloc, bytes, wanted);
    }
    let bytes = b"\0\0\0\x01\x01\0\0\0\x0a\0\0\0\x06LMain;\0\0\0\x03";
    let wanted =
        "[NamedClass { tag: 1, id: ReferenceTypeId(10), signature: \"LMain;\", status: 3 }]";
    is_read::<Vec<NamedClass>>(&rt, alloc, bytes, wanted);
    let bytes = b"\0\0\0\x01\x03\0\0\0\x0a\0\0\0\x02[I\0\0\0\x01g\0\0\0\x08";
    let wanted =
        "[GenericClass { tag: 3, id: ReferenceTypeId(10), signature: \"[I\", generic_signature: \"g\", status: 8 }]";
    is_read::<Vec<GenericClass>>(&rt, alloc, bytes, wanted);
}

#[test]
fn fields(rt: HostRuntime) {
    let alloc = rt.alloc();
    let bytes = b"\0\0\0\x01\x07\0\0\0\x01f\0\0\0\x01I\0\0\0\x09";
    let wanted = "[FieldEntry { id: FieldId(7), name: \"f\", signature: \"I\", modifiers: 9 }]";
    is_read::<Vec<FieldEntry>>(&rt, alloc, bytes, wanted);
    let bytes = b"\0\0\0\x01\x07\0\0\0\x01f\0\0\0\x01I\0\0\0\x02TT\0\0\0\x09";
    let wanted =
        "[GenericField { id: FieldId(7), name: \"f\", signature: \"I\", generic_signature: \"TT\", modifiers: 9 }]";
    is_read::<Vec<GenericField>>(&rt, alloc, bytes, wanted);
}

#[test]
fn methods(rt: HostRuntime) {
    let alloc = rt.alloc();
    let bytes = b"\0\0\0\x01\0\x14\0\0\0\x03run\0\0\0\x03()V\0\0\0\x01";
    let wanted =
        "[MethodEntry { id: MethodId(20), name: \"run\", signature: \"()V\", modifiers: 1 }]";
    is_read::<Vec<MethodEntry>>(&rt, alloc, bytes, wanted);
    let bytes = b"\0\0\0\x01\0\x14\0\0\0\x03run\0\0\0\x03()V\0\0\0\0\0\0\0\x01";
    let wanted =
        "[GenericMethod { id: MethodId(20), name: \"run\", signature: \"()V\", generic_signature: \"\", modifiers: 1 }]";
    is_read::<Vec<GenericMethod>>(&rt, alloc, bytes, wanted);
}

#[test]
fn line_and_variable_tables(rt: HostRuntime) {
    let alloc = rt.alloc();
    let bytes = b"\0\0\0\0\0\0\0\0\0\0\0\0\0\0\0\x09\0\0\0\x02\
        \0\0\0\0\0\0\0\0\0\0\0\x01\0\0\0\0\0\0\0\x03\0\0\0\x02";
    let wanted = "LineTable { start: 0, end: 9, lines: [LineEntry { code_index: 0, line: 1 }, \
        LineEntry { code_index: 3, line: 2 }] }";
    is_read::<LineTable>(&rt, alloc, bytes, wanted);
    let bytes = b"\0\0\0\x02\0\0\0\x01\0\0\0\0\0\0\0\x04\0\0\0\x01v\0\0\0\x01J\0\0\0\x05\0\0\0\x01";
    let wanted =
        "VariableTable { arg_count: 2, slots: [VariableEntry { code_index: 4, name: \"v\", \
        signature: \"J\", length: 5, slot: 1 }] }";
    is_read::<VariableTable>(&rt, alloc, bytes, wanted);
    let bytes = b"\0\0\0\x02\0\0\0\x01\0\0\0\0\0\0\0\x04\
        \0\0\0\x01v\0\0\0\x01J\0\0\0\x01g\0\0\0\x05\0\0\0\x01";
    let wanted =
        "GenericVariableTable { arg_count: 2, slots: [GenericVariable { code_index: 4, name: \"v\", \
        signature: \"J\", generic_signature: \"g\", length: 5, slot: 1 }] }";
    is_read::<GenericVariableTable>(&rt, alloc, bytes, wanted);
}

#[test]
fn of_types_and_threads(rt: HostRuntime) {
    let alloc = rt.alloc();
    let wanted = "Signatures { signature: \"LA;\", generic_signature: \"G\" }";
    is_read::<Signatures>(&rt, alloc, b"\0\0\0\x03LA;\0\0\0\x01G", wanted);
    let wanted = "TaggedType { tag: 1, id: ReferenceTypeId(10) }";
    is_read::<TaggedType>(&rt, alloc, b"\x01\0\0\0\x0a", wanted);
    let wanted = "ThreadStatus { thread_status: 1, suspend_status: 0 }";
    is_read::<ThreadStatus>(&rt, alloc, b"\0\0\0\x01\0\0\0\0", wanted);
    let bytes = b"\0\0\0\x01\0\0\0\0\x1e\x01\0\0\0\x0a\0\x14\0\0\0\0\0\0\0\x03";
    let wanted =
        "[FrameEntry { id: FrameId(30), location: At { tag: Class, class: ReferenceTypeId(10), \
        method: MethodId(20), index: 3 } }]";
    is_read::<Vec<FrameEntry>>(&rt, alloc, bytes, wanted);
    let bytes = b"\0\0\0\x02\0\0\x01\0\0\x02\0\0\0\x01\0\0\x05";
    let wanted = "Children { threads: [ObjectId(1), ObjectId(2)], groups: [ObjectId(5)] }";
    is_read::<Children>(&rt, alloc, bytes, wanted);
}

#[test]
fn single_values(rt: HostRuntime) {
    let alloc = rt.alloc();
    is_read::<String>(&rt, alloc, b"\0\0\0\x04main", "\"main\"");
    is_read::<i32>(&rt, alloc, b"\xff\xff\xff\xfe", "-2");
    is_read::<bool>(&rt, alloc, b"\x02", "true");
    is_read::<ObjectId>(&rt, alloc, b"\0\x01\x02", "ObjectId(258)");
    is_read::<ReferenceTypeId>(&rt, alloc, b"\0\0\x01\x02", "ReferenceTypeId(258)");
    let wanted = "TaggedId { tag: String, id: ObjectId(7) }";
    is_read::<TaggedId>(&rt, alloc, b"s\0\0\x07", wanted);
}

#[test]
fn lists_of_single_values(rt: HostRuntime) {
    let bytes = b"\0\0\0\x02\0\0\x01\0\0\x02";
    is_read::<Vec<ObjectId>>(&rt, rt.alloc(), bytes, "[ObjectId(1), ObjectId(2)]");
    let bytes = b"\0\0\0\x01\0\0\0\x0a";
    is_read::<Vec<ReferenceTypeId>>(&rt, rt.alloc(), bytes, "[ReferenceTypeId(10)]");
}

/// Something of each fault.
#[test]
fn wrong_replies(rt: HostRuntime) {
    is_refused::<Version>(&rt, rt.alloc(), b"\0\0\0\x01d", DataFault::Short(5));
    is_refused::<ThreadStatus>(
        &rt,
        rt.alloc(),
        b"\0\0\0\x01\0\0\0\0\0",
        DataFault::Extra(8),
    );
    is_refused::<Vec<ClassEntry>>(
        &rt,
        rt.alloc(),
        b"\xff\xff\xff\xff",
        DataFault::NegativeCount,
    );
    is_refused::<String>(&rt, rt.alloc(), b"\0\0\0\x01\xff", DataFault::NotUtf8);
    is_refused::<TaggedId>(&rt, rt.alloc(), b"I\0\0\x07", DataFault::BadTag);
    is_refused::<LineTable>(&rt, rt.alloc(), b"", DataFault::Short(0));
}

/// Data of another command are none.
#[test]
fn data_of_another_reply(rt: HostRuntime) {
    let bytes = b"\0\0\0\x01\0\0\0\0";
    let items = read(rt.alloc(), ThreadStatus::layout(), &sizes(&rt), bytes).expect(
        &rt, "two ints",
    );
    let found = Signatures::of_data(rt.alloc(), Data::new(items)).expect(&rt, "memory");
    expect_same(&rt, &found, &None);
}
