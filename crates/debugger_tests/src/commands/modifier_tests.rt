//! Each kind of modifier in a request, as bytes.
use crate::commands::command_bytes::is_written;
use jdwp_command::event_request;
use jdwp_event::{EventKind, Modifier, Policy};
use jdwp_mirror::Command;
use jdwp_value::{FieldId, Location, ObjectId, ReferenceTypeId};
use std::alloc::Global;
use std::process::Abort;

/// The requests of METHOD_ENTRY with the policy ALL and one modifier, by rising kind.
static REQUESTS: [&str; 12] = [
    "28 02 00000001 01 00000003",
    "28 02 00000001 02 00000004",
    "28 02 00000001 03 0000000000000001",
    "28 02 00000001 04 000000000000000a",
    "28 02 00000001 05 00000002 412a",
    "28 02 00000001 06 00000002 2a42",
    "28 02 00000001 07 00 0000000000000000 0000000000000000 0000000000000000",
    "28 02 00000001 08 000000000000000a 01 00",
    "28 02 00000001 09 000000000000000a 0000000000000028",
    "28 02 00000001 0a 0000000000000001 00000001 00000002",
    "28 02 00000001 0b 0000000000000064",
    "28 02 00000001 0c 00000001 43",
];

/// A modifier that holds no text, by its kind.
fn plain_modifier(kind: usize) -> Option<Modifier> {
    let class = ReferenceTypeId(10);
    let modifier = match kind {
        1 => Modifier::Count(3),
        2 => Modifier::Conditional(4),
        3 => Modifier::ThreadOnly(ObjectId(1)),
        4 => Modifier::ClassOnly(class),
        7 => Modifier::LocationOnly(Location::Null),
        8 => Modifier::ExceptionOnly {
            class,
            caught: true,
            uncaught: false,
        },
        9 => Modifier::FieldOnly {
            class,
            field: FieldId(40),
        },
        10 => Modifier::Step {
            thread: ObjectId(1),
            size: 1,
            depth: 2,
        },
        11 => Modifier::InstanceOnly(ObjectId(100)),
        _ => return None,
    };
    Some(modifier)
}

/// The text of a pattern.
fn pattern(rt: &impl Abort, alloc: Global, text: &str) -> String {
    String::from_str(alloc, text).expect(rt, "memory")
}

/// A modifier that holds a pattern, by its kind.
fn pattern_modifier(rt: &impl Abort, alloc: Global, kind: usize) -> Modifier {
    match kind {
        5 => Modifier::ClassMatch(pattern(rt, alloc, "A*")),
        6 => Modifier::ClassExclude(pattern(rt, alloc, "*B")),
        12 => Modifier::SourceNameMatch(pattern(rt, alloc, "C")),
        _ => panic!(rt; "no such kind"),
    }
}

/// A modifier by its kind.
fn modifier(rt: &impl Abort, alloc: Global, kind: usize) -> Modifier {
    match plain_modifier(kind) {
        Some(modifier) => modifier,
        None => pattern_modifier(rt, alloc, kind),
    }
}

/// A request with one modifier, by its kind.
fn request(rt: &impl Abort, alloc: Global, kind: usize) -> Command {
    let modifiers = vec![in alloc; modifier(rt, alloc, kind)].expect(rt, "memory");
    event_request::set(alloc, EventKind::MethodEntry, Policy::All, modifiers).expect(rt, "memory")
}

#[test]
fn each_modifier_has_its_bytes(rt: HostRuntime) {
    for (index, hex) in REQUESTS.iter().enumerate() {
        let command = request(&rt, rt.alloc(), index.saturating_add(1));
        is_written(&rt, rt.alloc(), &command, 15, 1, hex);
    }
}
