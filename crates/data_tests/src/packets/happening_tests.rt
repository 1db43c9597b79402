use crate::asserts::{expect_same, expect_that};
use jdwp_event::{EventKind, Happening, Occurrence};
use jdwp_value::ObjectId;

/// The byte of each kind.
static KINDS: [(u8, EventKind); 22] = [
    (1, EventKind::SingleStep),
    (2, EventKind::Breakpoint),
    (3, EventKind::FramePop),
    (4, EventKind::Exception),
    (5, EventKind::UserDefined),
    (6, EventKind::ThreadStart),
    (7, EventKind::ThreadDeath),
    (8, EventKind::ClassPrepare),
    (9, EventKind::ClassUnload),
    (10, EventKind::ClassLoad),
    (20, EventKind::FieldAccess),
    (21, EventKind::FieldModification),
    (30, EventKind::ExceptionCatch),
    (40, EventKind::MethodEntry),
    (41, EventKind::MethodExit),
    (42, EventKind::MethodExitWithReturnValue),
    (43, EventKind::MonitorContendedEnter),
    (44, EventKind::MonitorContendedEntered),
    (45, EventKind::MonitorWait),
    (46, EventKind::MonitorWaited),
    (90, EventKind::VmStart),
    (99, EventKind::VmDeath),
];

#[test]
fn kinds_have_their_bytes(rt: HostRuntime) {
    for (byte, kind) in KINDS.iter() {
        expect_same(&rt, &kind.byte(), byte);
        expect_same(&rt, &EventKind::of_byte(*byte), &Some(*kind));
    }
}

#[test]
fn other_bytes_are_no_kinds(rt: HostRuntime) {
    for byte in [0u8, 11, 19, 22, 29, 31, 39, 47, 89, 91, 98, 100, 127, 255] {
        expect_that(&rt, EventKind::of_byte(byte).is_none());
    }
}

#[test]
fn a_happening_names_its_thread(rt: HostRuntime) {
    let happening = Happening::new(ObjectId(7), Occurrence::Started);
    expect_same(&rt, &happening.thread(), &ObjectId(7));
    let is_start = matches!(happening.occurrence(), Occurrence::Started);
    expect_that(&rt, is_start);
}
