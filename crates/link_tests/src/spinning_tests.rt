//! A link over another machine than that of a script.
use crate::acts::{ALL, Act, Wanted};
use crate::sessions::{Line, Shown, goes_as_told};
use crate::spinning::Spinning;
use crate::told::{BEGUN, Reply, Report, Told};
use jdwp_layout::numbers::{RESUME, RESUME_THREAD};

/// Each step of thread 1 is reported, and holds it until it is resumed. The session is lost with a report under way, and begins anew without
/// the request; thread 2 ends in it.
static SPINS: [Line; 46] = [
    Line::Does(Act::Greet),
    Line::Tells(&[BEGUN]),
    Line::Does(Act::Step(1)),
    Line::Did(true),
    Line::Waits(0, 0),
    Line::Does(Act::Round(Wanted::StepsOf(1, 1))),
    Line::Tells(&[Told::Asked(1), Told::Answered(1, Reply::Number(1))]),
    Line::Does(Act::Step(1)),
    Line::Did(true),
    Line::Counts(Some(1), Some(0)),
    Line::Waits(0, 44),
    Line::Does(Act::Step(1)),
    Line::Did(false),
    Line::Waits(0, 44),
    Line::Does(Act::ToDebugger(ALL)),
    Line::Does(Act::DebuggerTurn),
    Line::Tells(&[Told::Seen(Report::Stepped(1, 1, 1))]),
    Line::Shows(Shown::Held(1), Shown::Unknown),
    Line::Does(Act::Round(Wanted::OfThread(RESUME_THREAD, 1))),
    Line::Tells(&[Told::Asked(2), Told::Answered(2, Reply::Done)]),
    Line::Shows(Shown::Free(0), Shown::Unknown),
    Line::Does(Act::Step(1)),
    Line::Counts(Some(1), Some(0)),
    Line::Does(Act::TargetLoses),
    Line::Does(Act::DebuggerLoses),
    Line::Tells(&[]),
    Line::Open(false, false),
    Line::Counts(Some(0), Some(0)),
    Line::Shows(Shown::Unknown, Shown::Unknown),
    Line::Requests(0, 0),
    Line::Does(Act::Greet),
    Line::Does(Act::Step(1)),
    Line::Did(true),
    Line::Waits(0, 0),
    Line::Does(Act::Round(Wanted::StepsOf(1, 2))),
    Line::Tells(&[Told::Asked(3), Told::Answered(3, Reply::Number(2))]),
    Line::Does(Act::Step(1)),
    Line::Does(Act::ToDebugger(ALL)),
    Line::Does(Act::DebuggerTurn),
    Line::Tells(&[Told::Seen(Report::Stepped(2, 2, 1))]),
    Line::Counts(Some(1), Some(1)),
    Line::Shows(Shown::Held(1), Shown::Unknown),
    Line::Does(Act::Round(Wanted::OfMachine(RESUME))),
    Line::Tells(&[Told::Asked(4), Told::Answered(4, Reply::Done)]),
    Line::Does(Act::Step(2)),
    Line::Counts(Some(0), None),
];

#[test]
fn a_machine_of_its_own_steps_and_is_lost(rt: HostRuntime) {
    let alloc = rt.alloc();
    let machine = Spinning::new(alloc).expect(&rt, "memory");
    goes_as_told(&rt, alloc, machine, &SPINS);
}
