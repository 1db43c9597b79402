//! Whom a debugger holds of a target that sends replies and composites by threads of their own, in sessions that were worked out by hand.
use crate::asserts::{expect_same, expect_that};
use crate::debuggers::boxed::{debugger, debugger_apart};
use crate::debuggers::turning_tests::{Act, HELLO, SIZES, Tells, Wanted, goes_on_as_told};
use jdwp_value::ObjectId;
use std::alloc::Global;
use std::process::Abort;
use test_parts::commands;

/// Breakpoints of request 7: of thread 1 with the policies ALL and EVENT_THREAD, and of thread 2 with NONE and ALL.
const ALL_OF_1: &str = "00000036 00000001 00 40 64 02 00000001 02 00000007 0000000000000001
     01 000000000000000a 0000000000000014 0000000000000003";

const ONE_OF_1: &str = "00000036 00000001 00 40 64 01 00000001 02 00000007 0000000000000001
     01 000000000000000a 0000000000000014 0000000000000003";

const NONE_OF_2: &str = "00000036 00000001 00 40 64 00 00000001 02 00000007 0000000000000002
     01 000000000000000a 0000000000000014 0000000000000003";

const ALL_OF_2: &str = "00000036 00000001 00 40 64 02 00000001 02 00000007 0000000000000002
     01 000000000000000a 0000000000000014 0000000000000003";

const RESUMES: Act = Act::Asks(Wanted::Plain(commands::RESUME), 1);

const RESUMED: Act = Act::Reads("0000000b 00000002 80 0000", Tells::Answered(1), &[2]);

/// All threads are stopped and resumed, and the next composite is read before the answer to the Resume,
static CROSSED: [Act; 8] = [
    Act::Reads(ALL_OF_1, Tells::Seen, &[1]),
    Act::Holds(&[(1, 1), (2, 0)]),
    RESUMES,
    Act::Holds(&[(1, 0)]),
    Act::Reads(ALL_OF_1, Tells::Seen, &[1]),
    Act::Holds(&[(1, 1)]),
    RESUMED,
    Act::Holds(&[(1, 1)]),
];

/// or behind it.
static IN_ORDER: [Act; 6] = [
    Act::Reads(ALL_OF_1, Tells::Seen, &[1]),
    RESUMES,
    RESUMED,
    Act::Holds(&[(1, 0)]),
    Act::Reads(ALL_OF_1, Tells::Seen, &[1]),
    Act::Holds(&[(1, 1)]),
];

/// A Resume finds nothing: nobody can tell whether the event that is read behind it came before it. A SuspendCount tells,
static COUNTED: [Act; 7] = [
    RESUMES,
    RESUMED,
    Act::Reads(ONE_OF_1, Tells::Seen, &[1]),
    Act::Holds(&[(1, 0)]),
    Act::Asks(Wanted::OfThread(commands::SUSPEND_COUNT, 1), 2),
    Act::Reads(
        "0000000f 00000003 80 0000 00000001",
        Tells::Answered(2),
        &[3],
    ),
    Act::Holds(&[(1, 1)]),
];

/// and so does the next composite, since its event took effect when the one before it was sent,
static NEXT_BUT_ONE: [Act; 5] = [
    RESUMES,
    RESUMED,
    Act::Reads(ONE_OF_1, Tells::Seen, &[1]),
    Act::Reads(ALL_OF_2, Tells::Seen, &[1]),
    Act::Holds(&[(1, 1), (2, 1)]),
];

/// and the first of a request that was made behind the Resume,
static MADE_ANEW: [Act; 6] = [
    RESUMES,
    RESUMED,
    Act::Asks(Wanted::Request(2), 2),
    Act::Reads(
        "0000000f 00000003 80 0000 00000007",
        Tells::Answered(2),
        &[3],
    ),
    Act::Reads(ONE_OF_1, Tells::Seen, &[1]),
    Act::Holds(&[(1, 1)]),
];

/// but not of another.
static ANOTHER_MADE: [Act; 6] = [
    RESUMES,
    RESUMED,
    Act::Asks(Wanted::Request(2), 2),
    Act::Reads(
        "0000000f 00000003 80 0000 00000008",
        Tells::Answered(2),
        &[3],
    ),
    Act::Reads(ONE_OF_1, Tells::Seen, &[1]),
    Act::Holds(&[(1, 0)]),
];

/// Thread 1 invokes a method alone (ClassType.InvokeMethod with INVOKE_SINGLE_THREADED), and then all run (ObjectReference.InvokeMethod
/// without options), which is refused.
static INVOKED: [Act; 11] = [
    Act::Reads(NONE_OF_2, Tells::Seen, &[1]),
    Act::Reads(ALL_OF_1, Tells::Seen, &[1]),
    Act::Holds(&[(1, 1), (2, 1)]),
    Act::Asks(
        Wanted::Raw(
            (3, 3),
            "000000000000000a 0000000000000001 0000000000000014 00000000 00000001",
        ),
        1,
    ),
    Act::Holds(&[(1, 0), (2, 1)]),
    Act::Asks(
        Wanted::Raw(
            (9, 6),
            "000000000000001e 0000000000000002 000000000000000a 0000000000000014 00000000 00000000",
        ),
        2,
    ),
    Act::Holds(&[(1, 0), (2, 0)]),
    Act::Reads("0000000b 00000003 80 000d", Tells::Answered(2), &[3]),
    Act::Holds(&[(1, 0), (2, 1)]),
    Act::Reads(
        "0000001d 00000002 80 0000 49 00000005 4c 0000000000000000 00000000",
        Tells::Answered(1),
        &[2],
    ),
    Act::Holds(&[(1, 1), (2, 1)]),
];

/// Nobody can be told from Dispose on,
static DISPOSED: [Act; 5] = [
    Act::Reads(ALL_OF_1, Tells::Seen, &[1]),
    Act::Asks(Wanted::Plain(commands::DISPOSE), 1),
    Act::Holds(&[(1, 0)]),
    Act::Reads(ALL_OF_1, Tells::Seen, &[1]),
    Act::Holds(&[(1, 0)]),
];

/// from VirtualMachine.RedefineClasses on,
static REDEFINED: [Act; 5] = [
    Act::Reads(ALL_OF_1, Tells::Seen, &[1]),
    Act::Asks(Wanted::Raw((1, 18), "00000000"), 1),
    Act::Holds(&[(1, 0)]),
    Act::Reads("0000000b 00000002 80 0000", Tells::Answered(1), &[2]),
    Act::Holds(&[(1, 0)]),
];

/// and from an answer on that is given out of turn.
static OUT_OF_TURN: [Act; 5] = [
    Act::Reads(ALL_OF_1, Tells::Seen, &[1]),
    Act::Asks(Wanted::OfThread(commands::SUSPEND_COUNT, 1), 1),
    Act::Asks(Wanted::OfThread(commands::SUSPEND_COUNT, 1), 2),
    Act::Reads(
        "0000000f 00000003 80 0000 00000001",
        Tells::Answered(2),
        &[3],
    ),
    Act::Holds(&[(1, 0)]),
];

/// A loss ends what is known, and a new session begins anew.
static LOST: [Act; 10] = [
    Act::Reads(ALL_OF_1, Tells::Seen, &[1]),
    Act::Asks(Wanted::Plain(commands::DISPOSE), 1),
    Act::Loses(&[1]),
    Act::Holds(&[(1, 0)]),
    Act::Attaches(true),
    Act::Reads(HELLO, Tells::Hello, &[]),
    Act::Reads(ALL_OF_1, Tells::Parked, &[]),
    Act::Holds(&[(1, 0)]),
    Act::Reads(
        "0000001f 00000003 80 0000 00000008 00000008 00000008 00000008 00000008",
        Tells::Sizes(1),
        &[1, 3],
    ),
    Act::Holds(&[(1, 1)]),
];

/// A session in which these acts follow the widths of ids goes as it was worked out.
fn goes(rt: &impl Abort, alloc: Global, acts: &[Act]) {
    let opening = [
        Act::Attaches(true),
        Act::Reads(HELLO, Tells::Hello, &[]),
        Act::Reads(SIZES, Tells::Sizes(0), &[1]),
    ];
    let mut debugger = debugger_apart(rt, alloc);
    goes_on_as_told(rt, alloc, &mut debugger, &opening);
    goes_on_as_told(rt, alloc, &mut debugger, acts);
}

fn sessions() -> [&'static [Act]; 11] {
    [
        &CROSSED,
        &IN_ORDER,
        &COUNTED,
        &NEXT_BUT_ONE,
        &MADE_ANEW,
        &ANOTHER_MADE,
        &INVOKED,
        &DISPOSED,
        &REDEFINED,
        &OUT_OF_TURN,
        &LOST,
    ]
}

#[test]
fn each_session_goes_as_it_was_worked_out(rt: HostRuntime) {
    for acts in sessions() {
        goes(&rt, rt.alloc(), acts);
    }
}

#[test]
fn threads_that_were_named_are_shown_in_order(rt: HostRuntime) {
    let acts = [
        Act::Attaches(true),
        Act::Reads(HELLO, Tells::Hello, &[]),
        Act::Reads(SIZES, Tells::Sizes(0), &[1]),
        Act::Reads(NONE_OF_2, Tells::Seen, &[1]),
        Act::Reads(ALL_OF_1, Tells::Seen, &[1]),
    ];
    let mut debugger = debugger_apart(&rt, rt.alloc());
    expect_that(&rt, debugger.named_threads().is_none());
    goes_on_as_told(&rt, rt.alloc(), &mut debugger, &acts);
    let mut threads = debugger.named_threads().expect(&rt, "what is followed");
    expect_same(&rt, &threads.next(), &Some(ObjectId(1)));
    expect_same(&rt, &threads.next(), &Some(ObjectId(2)));
    expect_same(&rt, &threads.next(), &None);
}

/// Where packets come in the order of the acts, the mirror says who is held.
static HELD_BY_THE_MIRROR: [Act; 5] = [
    Act::Attaches(true),
    Act::Reads(HELLO, Tells::Hello, &[]),
    Act::Reads(SIZES, Tells::Sizes(0), &[1]),
    Act::Reads(ALL_OF_1, Tells::Seen, &[1]),
    Act::Holds(&[(1, 1), (2, 0)]),
];

#[test]
fn the_mirror_holds(rt: HostRuntime) {
    let mut debugger = debugger(&rt, rt.alloc(), 1);
    goes_on_as_told(&rt, rt.alloc(), &mut debugger, &HELD_BY_THE_MIRROR);
}
