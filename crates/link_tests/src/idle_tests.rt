//! Events where they do nothing, and commands that are not asked.
use crate::acts::{ALL, Act, Wanted};
use crate::machine_a::go_on_a;
use crate::sessions::{Line, Session, Shown};
use crate::told::{BEGUN, Reply, Report, Told};
use jdwp_debugger::Refused;
use jdwp_layout::numbers::SUSPEND;

/// Before the first session nothing is done but that an `Ask` is refused, and an `Attach` begins one.
static CLOSED: [Line; 22] = [
    Line::Did(false),
    Line::Open(false, false),
    Line::Counts(Some(0), Some(0)),
    Line::Shows(Shown::Unknown, Shown::Unknown),
    Line::Does(Act::Ask(Wanted::OfMachine(SUSPEND))),
    Line::Tells(&[Told::Refused(Refused::Closed)]),
    Line::Does(Act::ToTarget(ALL)),
    Line::Does(Act::ToDebugger(ALL)),
    Line::Does(Act::TargetTurn),
    Line::Did(false),
    Line::Does(Act::DebuggerTurn),
    Line::Did(false),
    Line::Does(Act::Step(1)),
    Line::Did(false),
    Line::Does(Act::TargetLoses),
    Line::Does(Act::DebuggerLoses),
    Line::Tells(&[]),
    Line::Open(false, false),
    Line::Waits(0, 0),
    Line::Does(Act::Attach),
    Line::Open(true, true),
    Line::Waits(14, 0),
];

/// In an open session: a second `Attach`, turns at nothing and at a part of a message, deliveries of nothing, steps that no thread may make.
static OPEN: [Line; 44] = [
    Line::Does(Act::Attach),
    Line::Did(false),
    Line::Does(Act::Ask(Wanted::OfMachine(SUSPEND))),
    Line::Tells(&[Told::Refused(Refused::NotReady)]),
    Line::Does(Act::Step(1)),
    Line::Did(false),
    Line::Does(Act::ToTarget(13)),
    Line::Waits(1, 0),
    Line::Does(Act::TargetTurn),
    Line::Did(false),
    Line::Does(Act::Attach),
    Line::Open(true, true),
    Line::Waits(1, 0),
    Line::Does(Act::ToTarget(0)),
    Line::Waits(1, 0),
    Line::Does(Act::ToTarget(1)),
    Line::Did(false),
    Line::Does(Act::TargetTurn),
    Line::Did(true),
    Line::Waits(0, 43),
    Line::Does(Act::ToDebugger(14)),
    Line::Does(Act::DebuggerTurn),
    Line::Did(true),
    Line::Does(Act::DebuggerTurn),
    Line::Did(false),
    Line::Waits(11, 29),
    Line::Does(Act::ToTarget(ALL)),
    Line::Does(Act::TargetTurn),
    Line::Does(Act::ToDebugger(ALL)),
    Line::Does(Act::DebuggerTurn),
    Line::Did(true),
    Line::Tells(&[]),
    Line::Shows(Shown::Unknown, Shown::Unknown),
    Line::Does(Act::DebuggerTurn),
    Line::Tells(&[BEGUN]),
    Line::Shows(Shown::Free(0), Shown::Unknown),
    Line::Does(Act::ToTarget(ALL)),
    Line::Does(Act::ToDebugger(ALL)),
    Line::Does(Act::TargetTurn),
    Line::Did(false),
    Line::Does(Act::Step(3)),
    Line::Did(false),
    Line::Does(Act::Ask(Wanted::Unfit)),
    Line::Tells(&[Told::Refused(Refused::BadCommand)]),
];

/// A session begins only where both ends are closed; nothing comes to an end that is.
static HALF_CLOSED: [Line; 25] = [
    Line::Does(Act::Greet),
    Line::Tells(&[BEGUN]),
    Line::Does(Act::Ask(Wanted::OfMachine(SUSPEND))),
    Line::Does(Act::TargetLoses),
    Line::Does(Act::ToTarget(ALL)),
    Line::Waits(11, 0),
    Line::Does(Act::TargetTurn),
    Line::Did(false),
    Line::Does(Act::Attach),
    Line::Open(false, true),
    Line::Waits(11, 0),
    Line::Does(Act::DebuggerLoses),
    Line::Tells(&[Told::Asked(1), Told::Lost(1)]),
    Line::Does(Act::Greet),
    Line::Does(Act::DebuggerLoses),
    Line::Does(Act::Attach),
    Line::Open(true, false),
    Line::Does(Act::Step(1)),
    Line::Did(true),
    Line::Does(Act::ToDebugger(ALL)),
    Line::Does(Act::DebuggerTurn),
    Line::Did(false),
    Line::Does(Act::TargetLoses),
    Line::Tells(&[]),
    Line::Open(false, false),
];

/// No session begins with a machine that died.
static DEAD: [Line; 14] = [
    Line::Does(Act::Greet),
    Line::Tells(&[BEGUN]),
    Line::Does(Act::Round(Wanted::Exit)),
    Line::Tells(&[Told::Asked(1), Told::Answered(1, Reply::Done)]),
    Line::Open(false, true),
    Line::Counts(None, None),
    Line::Does(Act::DebuggerTurn),
    Line::Tells(&[Told::Seen(Report::Died)]),
    Line::Open(false, false),
    Line::Does(Act::Attach),
    Line::Open(false, false),
    Line::Waits(0, 0),
    Line::Does(Act::Step(1)),
    Line::Did(false),
];

/// What does nothing, each in a session.
fn idle() -> [Session; 4] {
    [
        ("a closed link does nothing", CLOSED.as_slice()),
        ("an open link does only what can be done", OPEN.as_slice()),
        ("one closed end begins no session", HALF_CLOSED.as_slice()),
        ("a dead machine begins no session", DEAD.as_slice()),
    ]
}

#[test]
fn events_do_nothing_where_they_cannot(rt: HostRuntime) {
    go_on_a(&rt, rt.alloc(), &idle());
}
