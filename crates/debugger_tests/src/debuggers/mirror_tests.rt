//! What a mirror learns, packet by packet, and what it shows then.
use crate::asserts::expect_same;
use jdwp_debugger::{Command, Mirror};
use jdwp_event::{Composite, Event, Modifier};
use jdwp_layout::{Answer, Data, Datum, Scalar, numbers};
use jdwp_value::ObjectId;
use jdwp_wire::ErrorCode;
use std::alloc::Global;
use std::process::Abort;
use test_parts::commands;

const NONE: u8 = 0;

const EVENT_THREAD: u8 = 1;

const ALL: u8 = 2;

const THREAD_START: u8 = 6;

const THREAD_DEATH: u8 = 7;

const VM_DEATH: u8 = 99;

/// A command of ThreadReference about a thread.
pub(crate) fn of_thread(
    rt: &impl Abort,
    alloc: Global,
    (set, number): (u8, u8),
    thread: u64,
) -> Command {
    let items = vec![in alloc; Datum::One(Scalar::ObjectId(ObjectId(thread)))];
    Command::new(set, number, items.expect(rt, "memory"))
}

/// A command without data.
pub(crate) fn plain(alloc: Global, (set, number): (u8, u8)) -> Command {
    Command::new(set, number, Vec::new(alloc))
}

/// The answer without data.
fn done(alloc: Global) -> Answer {
    Answer::Data(Data::new(Vec::new(alloc)))
}

/// The answer whose data are an int.
pub(crate) fn with_int(rt: &impl Abort, alloc: Global, int: i32) -> Answer {
    let items = vec![in alloc; Datum::One(Scalar::Int(int))];
    Answer::Data(Data::new(items.expect(rt, "memory")))
}

/// A composite of one event with these fields.
fn of_one(rt: &impl Abort, alloc: Global, policy: u8, fields: Vec<Scalar>) -> Composite {
    let events = vec![in alloc; Event::new(fields)];
    Composite::new(policy, events.expect(rt, "memory"))
}

/// An event of a thread.
pub(crate) fn event(
    rt: &impl Abort,
    alloc: Global,
    kind: u8,
    policy: u8,
    thread: u64,
) -> Composite {
    let fields = vec![in alloc;
        Scalar::Byte(kind),
        Scalar::Int(0),
        Scalar::ObjectId(ObjectId(thread)),
    ];
    of_one(rt, alloc, policy, fields.expect(rt, "memory"))
}

/// An event of no thread.
pub(crate) fn event_of_none(rt: &impl Abort, alloc: Global, kind: u8) -> Composite {
    let fields = vec![in alloc; Scalar::Byte(kind), Scalar::Int(0)];
    of_one(rt, alloc, NONE, fields.expect(rt, "memory"))
}

/// EventRequest.Set of a kind, with a Count of 3.
fn set_request(rt: &impl Abort, alloc: Global, kind: u8) -> Command {
    let modifiers = three_times(rt, alloc);
    let items = vec![in alloc;
        Datum::One(Scalar::Byte(kind)),
        Datum::One(Scalar::Byte(ALL)),
        modifiers,
    ];
    Command::new(
        numbers::EVENT_REQUEST,
        numbers::SET_REQUEST,
        items.expect(rt, "memory"),
    )
}

/// The modifiers, which are a Count of 3.
fn three_times(rt: &impl Abort, alloc: Global) -> Datum {
    let count = vec![in alloc; Scalar::Byte(1), Scalar::Int(3)].expect(rt, "memory");
    Datum::Many(vec![in alloc; count].expect(rt, "memory"))
}

/// What a mirror learns, or what it shows.
#[derive(Clone, Copy)]
enum Act {
    /// An event of a kind, with a policy, of a thread.
    Event(u8, u8, u64),
    /// The machine's death, which is of no thread.
    Death,
    /// A reply without data to a command that has none.
    Done((u8, u8)),
    /// The same with an error.
    Fails((u8, u8), ErrorCode),
    /// A reply without data to a command of ThreadReference about a thread.
    ThreadDone((u8, u8), u64),
    /// The same with an error.
    ThreadFails((u8, u8), u64, ErrorCode),
    /// The suspend count of a thread.
    Count(u64, i32),
    /// All threads.
    Lists(u64, u64),
    /// The id of a request of a kind.
    Sets(u8, i32),
    /// A request of a kind is refused.
    SetFails(u8, ErrorCode),
    /// A request of a kind and an id is cleared.
    Clears(u8, i32),
    /// It is emptied.
    Empties,
    /// The threads that it knows, each with its count, and whether it is held.
    Knows(&'static [(u64, u32, bool)]),
    /// The count of a thread, and whether it is held.
    Shows(u64, Option<u32>, bool),
    /// The ids and kinds of the requests that it keeps, each with the policy ALL and a Count of 3.
    Keeps(&'static [(i32, u8)]),
}

/// Whether it learns or shows this.
fn comes(rt: &impl Abort, alloc: Global, mirror: &mut Mirror, act: &Act) -> bool {
    match act {
        Act::Event(kind, policy, thread) => {
            sees(rt, mirror, &event(rt, alloc, *kind, *policy, *thread))
        }
        Act::Death => sees(rt, mirror, &event_of_none(rt, alloc, VM_DEATH)),
        Act::Empties => {
            mirror.clear();
            true
        }
        Act::Knows(known) => knows(mirror, known),
        Act::Shows(thread, count, held) => {
            mirror.count(ObjectId(*thread)) == *count && mirror.is_held(ObjectId(*thread)) == *held
        }
        Act::Keeps(asked) => keeps(mirror, asked),
        _ => hears(rt, alloc, mirror, act),
    }
}

/// True, once the mirror has learnt the composite.
fn sees(rt: &impl Abort, mirror: &mut Mirror, composite: &Composite) -> bool {
    mirror.learn_composite(composite).expect(rt, "memory");
    true
}

/// True, once the mirror has learnt the reply that this is.
fn hears(rt: &impl Abort, alloc: Global, mirror: &mut Mirror, act: &Act) -> bool {
    let command = asked(rt, alloc, act);
    let answer = answered(rt, alloc, act);
    let learnt = mirror.learn_reply(alloc, &command, &answer);
    learnt.expect(rt, "memory");
    true
}

/// The command that is replied to.
fn asked(rt: &impl Abort, alloc: Global, act: &Act) -> Command {
    match act {
        Act::Done(command) | Act::Fails(command, _) => plain(alloc, *command),
        Act::ThreadDone(command, thread) | Act::ThreadFails(command, thread, _) => {
            of_thread(rt, alloc, *command, *thread)
        }
        Act::Count(thread, _) => of_thread(rt, alloc, commands::SUSPEND_COUNT, *thread),
        Act::Lists(_, _) => plain(alloc, commands::ALL_THREADS),
        Act::Sets(kind, _) | Act::SetFails(kind, _) => set_request(rt, alloc, *kind),
        Act::Clears(kind, id) => clear(rt, alloc, *kind, *id),
        _ => panic!(rt; "no reply"),
    }
}

/// The answer in the reply.
fn answered(rt: &impl Abort, alloc: Global, act: &Act) -> Answer {
    match act {
        Act::Fails(_, error) | Act::ThreadFails(_, _, error) | Act::SetFails(_, error) => {
            Answer::Error(*error)
        }
        Act::Count(_, int) | Act::Sets(_, int) => with_int(rt, alloc, *int),
        Act::Lists(one, other) => threads(rt, alloc, *one, *other),
        _ => done(alloc),
    }
}

/// The reply of AllThreads with two threads.
fn threads(rt: &impl Abort, alloc: Global, one: u64, other: u64) -> Answer {
    let first = entry(rt, alloc, one);
    let second = entry(rt, alloc, other);
    let listed = vec![in alloc; first, second].expect(rt, "memory");
    let items = vec![in alloc; Datum::Many(listed)];
    Answer::Data(Data::new(items.expect(rt, "memory")))
}

/// The entry of a thread in the list of all.
fn entry(rt: &impl Abort, alloc: Global, thread: u64) -> Vec<Scalar> {
    vec![in alloc; Scalar::ObjectId(ObjectId(thread))].expect(rt, "memory")
}

/// EventRequest.Clear of a kind and an id.
fn clear(rt: &impl Abort, alloc: Global, kind: u8, id: i32) -> Command {
    let items = vec![in alloc; Datum::One(Scalar::Byte(kind)), Datum::One(Scalar::Int(id))];
    Command::new(
        numbers::EVENT_REQUEST,
        numbers::CLEAR_REQUEST,
        items.expect(rt, "memory"),
    )
}

/// Whether these are the threads that it knows, each with its count, and whether it is held.
fn knows(mirror: &Mirror, wanted: &[(u64, u32, bool)]) -> bool {
    for (known, (id, count, held)) in mirror.known().zip(wanted) {
        if known.id.0 != *id || known.count != *count || known.held != *held {
            return false;
        }
    }
    mirror.known().len() == wanted.len()
}

/// Whether these are the ids and kinds of the requests that it keeps, each with the policy ALL and a Count of 3.
fn keeps(mirror: &Mirror, wanted: &[(i32, u8)]) -> bool {
    for (request, (id, kind)) in mirror.requests().zip(wanted) {
        if request.id() != *id
            || request.kind() != *kind
            || request.policy() != ALL
            || !matches!(request.modifiers(), [Modifier::Count(3)])
        {
            return false;
        }
    }
    mirror.requests().len() == wanted.len()
}

/// The place, from 0, of the first act of which something else comes; None where all is as it is to be.
fn first_wrong(rt: &impl Abort, alloc: Global, mirror: &mut Mirror, acts: &[Act]) -> Option<usize> {
    for (place, act) in acts.iter().enumerate() {
        if !comes(rt, alloc, mirror, act) {
            return Some(place);
        }
    }
    None
}

/// Of each act comes what it says, from an empty mirror on.
fn goes_as_told(rt: &impl Abort, alloc: Global, name: &str, acts: &[Act]) {
    let mut mirror = Mirror::new(alloc);
    let found = first_wrong(rt, alloc, &mut mirror, acts);
    expect_same(rt, &(name, found), &(name, None));
}

/// Thread 1 becomes known with count 1, held.
const FIRST: Act = Act::Event(THREAD_START, EVENT_THREAD, 1);

/// Thread 2 becomes known with count 0.
const SECOND: Act = Act::Event(THREAD_START, NONE, 2);

static EVENTS_TEACH_THEIR_THREAD: [Act; 8] = [
    Act::Shows(1, None, false),
    FIRST,
    SECOND,
    Act::Knows(&[(1, 1, true), (2, 0, false)]),
    Act::Event(THREAD_START, ALL, 2),
    Act::Knows(&[(1, 2, true), (2, 1, true)]),
    Act::Shows(1, Some(2), true),
    Act::Shows(2, Some(1), true),
];

static SUSPENDS_AND_RESUMES_CHANGE_COUNTS: [Act; 12] = [
    FIRST,
    SECOND,
    Act::Done(commands::SUSPEND),
    Act::Knows(&[(1, 2, true), (2, 1, false)]),
    Act::Done(commands::RESUME),
    Act::Knows(&[(1, 1, true), (2, 0, false)]),
    Act::Done(commands::RESUME),
    Act::Knows(&[(1, 0, false), (2, 0, false)]),
    Act::ThreadDone(commands::SUSPEND_THREAD, 2),
    Act::ThreadDone(commands::SUSPEND_THREAD, 2),
    Act::ThreadDone(commands::RESUME_THREAD, 2),
    Act::Knows(&[(1, 0, false), (2, 1, true)]),
];

static REPLIES_SHOW_THREADS_ALIVE: [Act; 12] = [
    FIRST,
    SECOND,
    Act::Done(commands::SUSPEND),
    Act::Shows(2, Some(1), false),
    Act::ThreadDone(commands::THREAD_STATUS, 2),
    Act::Shows(2, Some(1), true),
    Act::Count(3, 4),
    Act::Knows(&[(1, 2, true), (2, 1, true), (3, 4, true)]),
    Act::Count(3, 0),
    Act::Shows(3, Some(0), false),
    Act::Count(9, -1),
    Act::Shows(9, None, false),
];

static LISTS_OF_ALL_THREADS_FORGET_THE_OTHERS: [Act; 5] = [
    FIRST,
    SECOND,
    Act::Done(commands::SUSPEND),
    Act::Lists(2, 3),
    Act::Knows(&[(2, 1, true)]),
];

static THREADS_THAT_ARE_NOT_ALIVE_ARE_FORGOTTEN: [Act; 12] = [
    FIRST,
    SECOND,
    Act::ThreadFails(commands::FRAMES, 1, ErrorCode::THREAD_NOT_SUSPENDED),
    Act::ThreadFails(commands::FRAMES, 1, ErrorCode::INTERNAL),
    Act::Fails(commands::SUSPEND, ErrorCode::INVALID_THREAD),
    Act::Knows(&[(1, 1, true), (2, 0, false)]),
    Act::ThreadFails(commands::FRAMES, 1, ErrorCode::INVALID_THREAD),
    Act::Knows(&[(2, 0, false)]),
    Act::Event(THREAD_DEATH, EVENT_THREAD, 2),
    Act::Knows(&[(2, 1, true)]),
    Act::Event(THREAD_DEATH, NONE, 2),
    Act::Knows(&[]),
];

static THREADS_BEHIND_A_FORGOTTEN_ONE_ARE_FOUND: [Act; 11] = [
    FIRST,
    SECOND,
    Act::Event(THREAD_START, EVENT_THREAD, 3),
    Act::Event(THREAD_DEATH, NONE, 1),
    Act::Shows(1, None, false),
    Act::Shows(2, Some(0), false),
    Act::Shows(3, Some(1), true),
    Act::ThreadDone(commands::SUSPEND_THREAD, 2),
    Act::Knows(&[(2, 1, true), (3, 1, true)]),
    FIRST,
    Act::Knows(&[(2, 1, true), (3, 1, true), (1, 1, true)]),
];

static REQUESTS_ARE_KEPT_AS_ASKED: [Act; 15] = [
    FIRST,
    SECOND,
    Act::Sets(2, 1),
    Act::Sets(1, -5),
    Act::Sets(2, 3),
    Act::SetFails(1, ErrorCode::INTERNAL),
    Act::Keeps(&[(1, 2), (-5, 1), (3, 2)]),
    Act::Sets(1, 1),
    Act::Keeps(&[(-5, 1), (3, 2), (1, 1)]),
    Act::Clears(1, -5),
    Act::Keeps(&[(3, 2), (1, 1)]),
    Act::Done(commands::CLEAR_ALL_BREAKPOINTS),
    Act::Keeps(&[(1, 1)]),
    Act::Event(1, ALL, 1),
    Act::Keeps(&[(1, 1)]),
];

static A_REQUEST_IS_ASKED_AGAIN_AMONG_MANY: [Act; 12] = [
    Act::Sets(1, 10),
    Act::Sets(2, 20),
    Act::Sets(1, 30),
    Act::Sets(2, 40),
    Act::Sets(1, 50),
    Act::Keeps(&[(10, 1), (20, 2), (30, 1), (40, 2), (50, 1)]),
    Act::Sets(2, 30),
    Act::Keeps(&[(10, 1), (20, 2), (40, 2), (50, 1), (30, 2)]),
    Act::Sets(2, 30),
    Act::Keeps(&[(10, 1), (20, 2), (40, 2), (50, 1), (30, 2)]),
    Act::Sets(1, 10),
    Act::Keeps(&[(20, 2), (40, 2), (50, 1), (30, 2), (10, 1)]),
];

static A_REQUEST_IN_THE_MIDST_IS_CLEARED: [Act; 13] = [
    Act::Sets(1, 10),
    Act::Sets(2, 20),
    Act::Sets(1, 30),
    Act::Clears(1, 20),
    Act::Clears(2, 40),
    Act::Keeps(&[(10, 1), (20, 2), (30, 1)]),
    Act::Clears(2, 20),
    Act::Keeps(&[(10, 1), (30, 1)]),
    Act::Clears(2, 20),
    Act::Keeps(&[(10, 1), (30, 1)]),
    Act::Sets(2, 20),
    Act::Clears(1, 10),
    Act::Keeps(&[(30, 1), (20, 2)]),
];

static BREAKPOINTS_ARE_CLEARED_FROM_AMONG_OTHERS: [Act; 15] = [
    Act::Sets(2, 1),
    Act::Sets(1, 2),
    Act::Sets(2, 3),
    Act::Sets(2, 4),
    Act::Sets(40, 5),
    Act::Done(commands::CLEAR_ALL_BREAKPOINTS),
    Act::Keeps(&[(2, 1), (5, 40)]),
    Act::Done(commands::CLEAR_ALL_BREAKPOINTS),
    Act::Keeps(&[(2, 1), (5, 40)]),
    // An id of a breakpoint that is gone, one that is no breakpoint any more, and one that is one now.
    Act::Sets(1, 3),
    Act::Sets(2, 6),
    Act::Sets(1, 6),
    Act::Sets(2, 2),
    Act::Done(commands::CLEAR_ALL_BREAKPOINTS),
    Act::Keeps(&[(5, 40), (3, 1), (6, 1)]),
];

/// A command of VirtualMachine that ends the session, or the machine, empties a mirror once it is done.
fn ends(rt: &impl Abort, alloc: Global, command: (u8, u8)) {
    let acts = [
        FIRST,
        SECOND,
        Act::Sets(2, 1),
        Act::Fails(command, ErrorCode::INTERNAL),
        Act::Knows(&[(1, 1, true), (2, 0, false)]),
        Act::Done(command),
        Act::Knows(&[]),
        Act::Keeps(&[]),
    ];
    goes_as_told(rt, alloc, "made", &acts);
}

#[test]
fn ends_empty_the_mirror(rt: HostRuntime) {
    ends(&rt, rt.alloc(), commands::DISPOSE);
    ends(&rt, rt.alloc(), commands::EXIT);
}

static DEATH: [Act; 5] = [
    FIRST,
    Act::Sets(2, 1),
    Act::Death,
    Act::Knows(&[]),
    Act::Keeps(&[]),
];

static EMPTIED: [Act; 3] = [FIRST, Act::Empties, Act::Knows(&[])];

/// Each session: what it shows, and its acts.
fn sessions() -> [(&'static str, &'static [Act]); 12] {
    [
        ("events teach their thread", &EVENTS_TEACH_THEIR_THREAD),
        (
            "suspends and resumes change counts",
            &SUSPENDS_AND_RESUMES_CHANGE_COUNTS,
        ),
        ("replies show threads alive", &REPLIES_SHOW_THREADS_ALIVE),
        (
            "lists of all threads forget the others",
            &LISTS_OF_ALL_THREADS_FORGET_THE_OTHERS,
        ),
        (
            "threads that are not alive are forgotten",
            &THREADS_THAT_ARE_NOT_ALIVE_ARE_FORGOTTEN,
        ),
        (
            "threads behind a forgotten one are found",
            &THREADS_BEHIND_A_FORGOTTEN_ONE_ARE_FOUND,
        ),
        ("requests are kept as asked", &REQUESTS_ARE_KEPT_AS_ASKED),
        (
            "a request is asked again among many",
            &A_REQUEST_IS_ASKED_AGAIN_AMONG_MANY,
        ),
        (
            "a request in the midst is cleared",
            &A_REQUEST_IN_THE_MIDST_IS_CLEARED,
        ),
        (
            "breakpoints are cleared from among others",
            &BREAKPOINTS_ARE_CLEARED_FROM_AMONG_OTHERS,
        ),
        ("a death empties the mirror", &DEATH),
        ("a mirror is emptied", &EMPTIED),
    ]
}

#[test]
fn each_session_goes_as_told(rt: HostRuntime) {
    for (name, acts) in sessions() {
        goes_as_told(&rt, rt.alloc(), name, acts);
    }
}
