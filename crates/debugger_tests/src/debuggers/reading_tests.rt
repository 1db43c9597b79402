//! Commands that are read, by worked examples: ids have 8 bytes.
use crate::asserts::{expect_same, expect_that};
use jdwp_debuggee::{Action, ParsedCommand, read_command};
use jdwp_event::Modifier;
use jdwp_layout::{Scalar, layout_of, write};
use jdwp_machine::{Profile, Query};
use jdwp_value::{FrameId, ObjectId, Value};
use jdwp_wire::IdSizes;
use std::alloc::Global;
use std::process::Abort;
use test_parts::{bytes, commands};

/// Ids of 8 bytes.
fn sizes(rt: &impl Abort) -> IdSizes {
    IdSizes::new(8, 8, 8, 8, 8).expect(rt, "widths in range")
}

/// What is read of the command whose data are these bytes.
fn asked(rt: &impl Abort, alloc: Global, (set, number): (u8, u8), hex: &str) -> ParsedCommand {
    let data = bytes(alloc, hex).expect(rt, "memory");
    let asked = read_command(alloc, Profile::Standard, set, number, &sizes(rt), &data);
    asked.expect(rt, "memory")
}

/// Whether the question is this command, with data that are written as these bytes.
fn is_question(
    rt: &impl Abort,
    alloc: Global,
    query: &Query,
    command: (u8, u8),
    hex: &str,
) -> bool {
    (query.set, query.number) == command && is_written(rt, alloc, query, hex)
}

/// Whether the data of a question are written as these bytes.
fn is_written(rt: &impl Abort, alloc: Global, query: &Query, hex: &str) -> bool {
    let wanted = bytes(alloc, hex).expect(rt, "memory");
    written(rt, alloc, query).as_slice() == wanted.as_slice()
}

/// The data of a question as bytes.
fn written(rt: &impl Abort, alloc: Global, query: &Query) -> Vec<u8> {
    let row = layout_of(query.set, query.number).expect(rt, "a row");
    let layouts = row.layouts.expect(rt, "a row with layouts");
    let mut bytes = Vec::new(alloc);
    let data = query.content.items();
    let wrote = write(&layouts.request, &sizes(rt), data, &mut bytes);
    wrote.expect(rt, "data that fit the layout");
    bytes
}

/// The error with which a command is refused; None where it is carried out.
fn refused(asked: &ParsedCommand) -> Option<u16> {
    match asked {
        ParsedCommand::Refuses(error) => Some(error.0),
        ParsedCommand::Carries(_) => None,
    }
}

/// The name of the action.
fn name_of(action: &Action) -> &'static str {
    match action {
        Action::Suspend => "Suspend",
        Action::Resume => "Resume",
        Action::Dispose => "Dispose",
        Action::Exit => "Exit",
        Action::HoldEvents => "HoldEvents",
        Action::ReleaseEvents => "ReleaseEvents",
        Action::SetRequest { .. } => "SetRequest",
        Action::ClearRequest { .. } => "ClearRequest",
        Action::ClearBreakpoints => "ClearBreakpoints",
        Action::SuspendThread(_) => "SuspendThread",
        Action::ResumeThread(_) => "ResumeThread",
        Action::SuspendCount(_) => "SuspendCount",
        Action::ThreadStatus(_) => "ThreadStatus",
        Action::SetSlots { .. } => "SetSlots",
        Action::AskFrames(..) => "AskFrames",
        Action::AskThread(..) => "AskThread",
        Action::AllThreads => "AllThreads",
        Action::IdSizes => "IdSizes",
        Action::Ask(_) => "Ask",
    }
}

/// The thread that the action names, if it names one.
fn thread_of(action: &Action) -> Option<ObjectId> {
    match action {
        Action::SuspendThread(thread)
        | Action::ResumeThread(thread)
        | Action::SuspendCount(thread)
        | Action::ThreadStatus(thread)
        | Action::SetSlots { thread, .. }
        | Action::AskFrames(thread, _)
        | Action::AskThread(thread, _) => Some(*thread),
        _ => None,
    }
}

/// The question of the action, if it has one.
fn query_of(action: &Action) -> Option<&Query> {
    match action {
        Action::AskFrames(_, query) | Action::AskThread(_, query) | Action::Ask(query) => {
            Some(query)
        }
        _ => None,
    }
}

/// The action that a command is, which has this name and names this thread.
fn action_of(
    rt: &impl Abort,
    alloc: Global,
    command: (u8, u8),
    hex: &str,
    name: &str,
    thread: Option<ObjectId>,
) -> Action {
    let ParsedCommand::Carries(action) = asked(rt, alloc, command, hex) else {
        panic!(rt; "a command that is carried out");
    };
    expect_same(rt, &name_of(&action), &name);
    expect_same(rt, &thread_of(&action), &thread);
    action
}

/// The command is this action, which names this thread and has no question.
fn is_named(
    rt: &impl Abort,
    alloc: Global,
    command: (u8, u8),
    hex: &str,
    name: &str,
    thread: Option<ObjectId>,
) {
    let action = action_of(rt, alloc, command, hex, name, thread);
    expect_that(rt, query_of(&action).is_none());
}

static OF_NO_THREAD: [((u8, u8), &str, &str); 9] = [
    (commands::SUSPEND, "", "Suspend"),
    (commands::RESUME, "", "Resume"),
    (commands::DISPOSE, "", "Dispose"),
    (commands::EXIT, "00000005", "Exit"),
    (commands::HOLD_EVENTS, "", "HoldEvents"),
    (commands::RELEASE_EVENTS, "", "ReleaseEvents"),
    (commands::ID_SIZES, "", "IdSizes"),
    (commands::ALL_THREADS, "", "AllThreads"),
    (commands::CLEAR_ALL_BREAKPOINTS, "", "ClearBreakpoints"),
];

#[test]
fn commands_of_no_thread(rt: HostRuntime) {
    for &(command, hex, name) in OF_NO_THREAD.iter() {
        is_named(&rt, rt.alloc(), command, hex, name, None);
    }
}

#[test]
fn commands_of_a_thread(rt: HostRuntime) {
    for (command, name) in [
        (commands::SUSPEND_THREAD, "SuspendThread"),
        (commands::RESUME_THREAD, "ResumeThread"),
        (commands::THREAD_STATUS, "ThreadStatus"),
        (commands::SUSPEND_COUNT, "SuspendCount"),
    ] {
        let hex = "0000000000000007";
        let thread = Some(ObjectId(7));
        is_named(&rt, rt.alloc(), command, hex, name, thread);
    }
}

/// Questions: the command, the data, the action, and the thread that it names.
static QUESTIONS: [((u8, u8), &str, &str, Option<ObjectId>); 6] = [
    (
        commands::FRAMES,
        "0000000000000007 00000000 ffffffff",
        "AskFrames",
        Some(ObjectId(7)),
    ),
    (
        commands::FRAME_COUNT,
        "0000000000000007",
        "AskFrames",
        Some(ObjectId(7)),
    ),
    (
        commands::THIS_OBJECT,
        "0000000000000007 0000000000000009",
        "AskFrames",
        Some(ObjectId(7)),
    ),
    (
        commands::THREAD_NAME,
        "0000000000000007",
        "AskThread",
        Some(ObjectId(7)),
    ),
    (commands::SIGNATURE, "00000000000000aa", "Ask", None),
    (commands::VERSION, "", "Ask", None),
];

/// The command is this action, which names this thread and has the command as its question.
fn asks(
    rt: &impl Abort,
    alloc: Global,
    command: (u8, u8),
    hex: &str,
    name: &str,
    thread: Option<ObjectId>,
) {
    let action = action_of(rt, alloc, command, hex, name, thread);
    let query = query_of(&action).expect(rt, "a question");
    expect_that(rt, is_question(rt, alloc, query, command, hex));
}

#[test]
fn questions(rt: HostRuntime) {
    for &(command, hex, name, thread) in QUESTIONS.iter() {
        asks(&rt, rt.alloc(), command, hex, name, thread);
    }
}

/// The kind and the id of the request that a command clears; None where it is another command.
fn cleared(asked: &ParsedCommand) -> Option<(u8, i32)> {
    match asked {
        ParsedCommand::Carries(Action::ClearRequest { kind, id }) => Some((*kind, *id)),
        _ => None,
    }
}

#[test]
fn a_request_that_is_cleared(rt: HostRuntime) {
    let asked = asked(&rt, rt.alloc(), commands::CLEAR_REQUEST, "02 00000003");
    expect_same(&rt, &cleared(&asked), &Some((2, 3)));
}

/// The kind, the policy and the entries of the modifiers of a Set.
fn request(rt: &impl Abort, alloc: Global, hex: &str) -> (u8, u8, Vec<Vec<Scalar>>) {
    match asked(rt, alloc, commands::SET_REQUEST, hex) {
        ParsedCommand::Carries(
            Action::SetRequest {
                kind,
                policy,
                modifiers,
            },
        ) => (kind, policy, modifiers),
        _ => panic!(rt; "no Set"),
    }
}

/// A ThreadOnly of thread 7, and a Count of 1.
const TWO_MODIFIERS: &str = "06 01 00000002 03 0000000000000007 01 00000001";

/// Whether these are the entries of TWO_MODIFIERS.
fn are_two_entries(entries: &[Vec<Scalar>]) -> bool {
    match entries {
        [first, second] => {
            matches!(
                first.as_slice(),
                [Scalar::Byte(3), Scalar::ObjectId(ObjectId(7))]
            ) && matches!(second.as_slice(), [Scalar::Byte(1), Scalar::Int(1)])
        }
        _ => false,
    }
}

#[test]
fn a_request_that_is_set(rt: HostRuntime) {
    let (kind, policy, entries) = request(&rt, rt.alloc(), TWO_MODIFIERS);
    expect_same(&rt, &(kind, policy), &(6, 1));
    expect_that(&rt, are_two_entries(&entries));
}

/// The modifiers of a Set.
fn modifiers(rt: &impl Abort, alloc: Global, hex: &str) -> Vec<Modifier> {
    let (_, _, entries) = request(rt, alloc, hex);
    Modifier::of_entries(alloc, entries).expect(rt, "memory")
}

#[test]
fn modifiers_of_a_request(rt: HostRuntime) {
    let modifiers = modifiers(&rt, rt.alloc(), TWO_MODIFIERS);
    let are_both = matches!(
        modifiers.as_slice(),
        [Modifier::ThreadOnly(ObjectId(7)), Modifier::Count(1)]
    );
    expect_that(&rt, are_both);
}

/// Whether these are the slot 1, an int, and the slot 2, which is true.
fn are_two_slots(values: &[(i32, Value)]) -> bool {
    matches!(values, [(1, Value::Int(0x2a)), (2, Value::Boolean(true))])
}

/// The thread, the frame and the values of the slots that a command sets; None where it is another command.
fn slots_of(asked: &ParsedCommand) -> Option<(ObjectId, FrameId, &[(i32, Value)])> {
    match asked {
        ParsedCommand::Carries(
            Action::SetSlots {
                thread,
                frame,
                values,
            },
        ) => Some((*thread, *frame, values.as_slice())),
        _ => None,
    }
}

#[test]
fn slots(rt: HostRuntime) {
    let data = "0000000000000007 0000000000000009 00000002 00000001 49 0000002a 00000002 5a 01";
    let asked = asked(&rt, rt.alloc(), commands::SET_SLOTS, data);
    let (thread, frame, values) = slots_of(&asked).expect(&rt, "SetValues");
    expect_same(&rt, &(thread, frame), &(ObjectId(7), FrameId(9)));
    expect_that(&rt, are_two_slots(values));
}

/// NOT_IMPLEMENTED is 99, and ILLEGAL_ARGUMENT is 103.
static REFUSALS: [((u8, u8), &str, u16); 23] = [
    // no such set, no such command, commands of the other end, and those that targets do not implement
    ((7, 1), "", 99),
    ((128, 1), "", 99),
    ((1, 23), "", 99),
    ((1, 0), "00", 99),
    (commands::COMPOSITE, "", 99),
    ((11, 10), "", 99),
    ((1, 13), "", 99),
    ((3, 3), "00", 99),
    // bytes too few, or left over
    (commands::SUSPEND, "00", 103),
    (commands::ALL_THREADS, "00", 103),
    (commands::EXIT, "000000", 103),
    (commands::EXIT, "0000000000", 103),
    (commands::CLEAR_ALL_BREAKPOINTS, "00", 103),
    (commands::CLEAR_REQUEST, "02 000000", 103),
    (commands::CLEAR_REQUEST, "02 00000003 00", 103),
    (commands::CLEAR_REQUEST, "", 103),
    (commands::SUSPEND_THREAD, "00000000000007", 103),
    (commands::RESUME_THREAD, "000000000000000700", 103),
    (commands::THREAD_STATUS, "", 103),
    (commands::SUSPEND_COUNT, "00", 103),
    (
        commands::FRAMES,
        "0000000000000007 00000000 ffffffff 00",
        103,
    ),
    // a modifier of no kind, and a negative count of modifiers
    (commands::SET_REQUEST, "06 01 00000001 0d", 103),
    (commands::SET_REQUEST, "06 01 ffffffff", 103),
];

/// The command is refused with this error.
fn is_refused(rt: &impl Abort, alloc: Global, command: (u8, u8), hex: &str, error: u16) {
    let asked = asked(rt, alloc, command, hex);
    expect_same(rt, &refused(&asked), &Some(error));
}

#[test]
fn refusals(rt: HostRuntime) {
    for &(command, hex, error) in REFUSALS.iter() {
        is_refused(&rt, rt.alloc(), command, hex, error);
    }
}
