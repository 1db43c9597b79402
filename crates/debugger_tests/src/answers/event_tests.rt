//! Each kind of event, read by its fields. A field's id has 1 byte, a method's 2, an object's 3 and a reference type's 4.
use crate::asserts::expect_same;
use jdwp_event::{Composite, Policy};
use jdwp_event_fields::{Event, EventSet};
use jdwp_layout::numbers::{COMPOSITE, EVENT};
use jdwp_layout::{Scalar, layout_of, read};
use jdwp_wire::{DataFault, IdSizes, Wire};
use std::alloc::Global;
use std::process::Abort;
use test_parts::bytes;

/// The widths of ids.
fn sizes(rt: &impl Abort) -> IdSizes {
    IdSizes::new(1, 2, 3, 4, 5).expect(rt, "widths")
}

/// The composite that is the bytes.
fn composite(rt: &impl Abort, alloc: Global, bytes: &[u8]) -> Composite {
    let (composite, used) = Composite::take(alloc, bytes, &sizes(rt)).expect(rt, "a composite");
    expect_same(rt, &used, &bytes.len());
    composite
}

/// The events of the composite that these digits are; None where there is no such set.
fn set_of(rt: &impl Abort, alloc: Global, hex: &str) -> Option<EventSet> {
    let all = bytes(alloc, hex).expect(rt, "memory");
    EventSet::of_composite(alloc, &composite(rt, alloc, &all)).expect(rt, "memory")
}

/// Events as bytes, the kind, the thread, and the event. Each is of the request 7.
const EVENTS: &str =
    "5a.00000007.000001 VmStart Some(ObjectId(1)) VmStart { request: 7, thread: ObjectId(1) }
06.00000007.000001 ThreadStart Some(ObjectId(1)) ThreadStart { request: 7, thread: ObjectId(1) }
07.00000007.000001 ThreadDeath Some(ObjectId(1)) ThreadDeath { request: 7, thread: ObjectId(1) }
63.00000007 VmDeath None VmDeath { request: 7 }
01.00000007.000001.01.0000000a.0014.0000000000000003 SingleStep Some(ObjectId(1)) SingleStep { request: 7, thread: ObjectId(1), \
    location: At { tag: Class, class: ReferenceTypeId(10), method: MethodId(20), index: 3 } }
02.00000007.000001.01.0000000a.0014.0000000000000003 Breakpoint Some(ObjectId(1)) Breakpoint { request: 7, thread: ObjectId(1), \
    location: At { tag: Class, class: ReferenceTypeId(10), method: MethodId(20), index: 3 } }
28.00000007.000001.01.0000000a.0014.0000000000000003 MethodEntry Some(ObjectId(1)) MethodEntry { request: 7, thread: ObjectId(1), \
    location: At { tag: Class, class: ReferenceTypeId(10), method: MethodId(20), index: 3 } }
29.00000007.000001.01.0000000a.0014.0000000000000003 MethodExit Some(ObjectId(1)) MethodExit { request: 7, thread: ObjectId(1), \
    location: At { tag: Class, class: ReferenceTypeId(10), method: MethodId(20), index: 3 } }
2a.00000007.000001.01.0000000a.0014.0000000000000003.49.00000009 MethodExitWithReturnValue Some(ObjectId(1)) \
    MethodExitWithReturnValue { request: 7, thread: ObjectId(1), \
    location: At { tag: Class, class: ReferenceTypeId(10), method: MethodId(20), index: 3 }, value: Int(9) }
04.00000007.000001.01.0000000a.0014.0000000000000003.4c.000005.00.00000000.0000.0000000000000000 Exception Some(ObjectId(1)) \
    Exception { request: 7, thread: ObjectId(1), \
    location: At { tag: Class, class: ReferenceTypeId(10), method: MethodId(20), index: 3 }, \
    exception: TaggedId { tag: Object, id: ObjectId(5) }, catch_location: Null }
2b.00000007.000001.4c.000005.01.0000000a.0014.0000000000000003 MonitorContendedEnter Some(ObjectId(1)) \
    MonitorContendedEnter { request: 7, thread: ObjectId(1), object: TaggedId { tag: Object, id: ObjectId(5) }, \
    location: At { tag: Class, class: ReferenceTypeId(10), method: MethodId(20), index: 3 } }
2c.00000007.000001.4c.000005.01.0000000a.0014.0000000000000003 MonitorContendedEntered Some(ObjectId(1)) \
    MonitorContendedEntered { request: 7, thread: ObjectId(1), object: TaggedId { tag: Object, id: ObjectId(5) }, \
    location: At { tag: Class, class: ReferenceTypeId(10), method: MethodId(20), index: 3 } }
2d.00000007.000001.4c.000005.01.0000000a.0014.0000000000000003.00000000000003e8 MonitorWait Some(ObjectId(1)) \
    MonitorWait { request: 7, thread: ObjectId(1), object: TaggedId { tag: Object, id: ObjectId(5) }, \
    location: At { tag: Class, class: ReferenceTypeId(10), method: MethodId(20), index: 3 }, timeout: 1000 }
2e.00000007.000001.4c.000005.01.0000000a.0014.0000000000000003.01 MonitorWaited Some(ObjectId(1)) \
    MonitorWaited { request: 7, thread: ObjectId(1), object: TaggedId { tag: Object, id: ObjectId(5) }, \
    location: At { tag: Class, class: ReferenceTypeId(10), method: MethodId(20), index: 3 }, timed_out: true }
08.00000007.000001.02.0000000b.00000003.4c413b.00000003 ClassPrepare Some(ObjectId(1)) ClassPrepare { request: 7, \
    thread: ObjectId(1), ref_type_tag: 2, type_id: ReferenceTypeId(11), signature: \"LA;\", status: 3 }
09.00000007.00000003.4c413b ClassUnload None ClassUnload { request: 7, signature: \"LA;\" }
14.00000007.000001.01.0000000a.0014.0000000000000003.01.0000000b.08.4c.000005 FieldAccess Some(ObjectId(1)) \
    FieldAccess { request: 7, thread: ObjectId(1), \
    location: At { tag: Class, class: ReferenceTypeId(10), method: MethodId(20), index: 3 }, ref_type_tag: 1, \
    type_id: ReferenceTypeId(11), field_id: FieldId(8), object: TaggedId { tag: Object, id: ObjectId(5) } }
15.00000007.000001.01.0000000a.0014.0000000000000003.01.0000000b.08.4c.000000.5a.01 FieldModification Some(ObjectId(1)) \
    FieldModification { request: 7, thread: ObjectId(1), \
    location: At { tag: Class, class: ReferenceTypeId(10), method: MethodId(20), index: 3 }, ref_type_tag: 1, \
    type_id: ReferenceTypeId(11), field_id: FieldId(8), object: TaggedId { tag: Object, id: ObjectId(0) }, value_to_be: Boolean(true) }";

#[test]
fn each_kind_of_event(rt: HostRuntime) {
    for row in EVENTS.lines() {
        let (hex, wanted) = row.split_once(' ').expect(&rt, "a row");
        is_read(&rt, rt.alloc(), hex, wanted);
    }
}

/// A composite of these bytes alone, of the policy ALL, is this event alone.
fn is_read(rt: &impl Abort, alloc: Global, hex: &str, wanted: &str) {
    let all = format!(in alloc; "02.00000001.{hex}").expect(rt, "memory");
    let set = set_of(rt, alloc, &all).expect(rt, "a set");
    expect_same(rt, &set.policy, &Policy::All);
    expect_same(rt, &set.events.len(), &1);
    let event = set.events.first().expect(rt, "an event");
    expect_same(rt, &event.request(), &7);
    let found = format!(in alloc; "{:?} {:?} {event:?}", event.kind(), event.thread());
    expect_same(rt, &found.expect(rt, "memory").as_str(), &wanted);
}

/// Composites as bytes, and what is read of them: events in order, with either policy; no event; a policy byte that is none.
const SETS: &str =
    "01.00000002.06.00000007.000001.63.00000000 Some(EventSet { policy: EventThread, \
    events: [ThreadStart { request: 7, thread: ObjectId(1) }, VmDeath { request: 0 }] })
00.00000000 Some(EventSet { policy: None, events: [] })
03.00000001.63.00000007 None";

#[test]
fn several_events(rt: HostRuntime) {
    for row in SETS.lines() {
        let (hex, wanted) = row.split_once(' ').expect(&rt, "a row");
        let found = format!(in rt.alloc(); "{:?}", set_of(&rt, rt.alloc(), hex));
        expect_same(&rt, &found.expect(&rt, "memory").as_str(), &wanted);
    }
}

/// Where the policy byte is none, each event is still read.
#[test]
fn another_policy(rt: HostRuntime) {
    let composite = composite(&rt, rt.alloc(), b"\x03\0\0\0\x01\x63\0\0\0\x07");
    expect_same(&rt, &composite.events().len(), &1);
    for event in composite.events() {
        let found = Event::of_fields(rt.alloc(), event.fields()).expect(&rt, "memory");
        expect_same(&rt, &found, &Some(Event::VmDeath { request: 7 }));
    }
}

/// A byte is left over behind the events. By the layout that is a fault; what is taken from the front is the same as without it.
#[test]
fn an_unread_rest(rt: HostRuntime) {
    let bytes = b"\x02\0\0\0\x01\x63\0\0\0\x07\0";
    expect_same(
        &rt,
        &fault_of(&rt, rt.alloc(), bytes),
        &Some(DataFault::Extra(10)),
    );
    let taken = Composite::take(rt.alloc(), bytes, &sizes(&rt));
    let (composite, used) = taken.expect(&rt, "a composite");
    expect_same(&rt, &used, &10);
    let found = EventSet::of_composite(rt.alloc(), &composite).expect(&rt, "memory");
    let found = format!(in rt.alloc(); "{found:?}").expect(&rt, "memory");
    let wanted = "Some(EventSet { policy: All, events: [VmDeath { request: 7 }] })";
    expect_same(&rt, &found.as_str(), &wanted);
}

/// The fault of the data of a composite by the layout.
fn fault_of(rt: &impl Abort, alloc: Global, bytes: &[u8]) -> Option<DataFault> {
    let row = layout_of(EVENT, COMPOSITE).expect(rt, "a row");
    let layouts = row.layouts.as_ref().expect(rt, "layouts");
    read(alloc, &layouts.request, &sizes(rt), bytes).err()
}

/// Composites that no bytes are: an event without its fields, of a kind that none has, or of no kind.
#[test]
fn fields_of_no_event(rt: HostRuntime) {
    let short = vec![in rt.alloc(); Scalar::Byte(2), Scalar::Int(7)].expect(&rt, "memory");
    let popped = vec![in rt.alloc(); Scalar::Byte(3), Scalar::Int(7)].expect(&rt, "memory");
    let kindless = vec![in rt.alloc(); Scalar::Int(7)].expect(&rt, "memory");
    for fields in [short.as_slice(), popped.as_slice(), kindless.as_slice()] {
        is_no_event(&rt, rt.alloc(), fields);
    }
    let event = jdwp_event::Event::new(popped);
    let composite = Composite::new(2, vec![in rt.alloc(); event].expect(&rt, "memory"));
    let found = EventSet::of_composite(rt.alloc(), &composite).expect(&rt, "memory");
    expect_same(&rt, &found, &None);
}

/// These fields are no event.
fn is_no_event(rt: &impl Abort, alloc: Global, fields: &[Scalar]) {
    let found = Event::of_fields(alloc, fields).expect(rt, "memory");
    expect_same(rt, &found, &None);
}
