//! Who is surely suspended, in sessions that were worked out by hand: of a target that sends replies and composites by threads of their own.
use crate::asserts::{expect_same, expect_that};
use crate::debuggers::mirror_tests::{event, of_thread, plain, with_int};
use jdwp_layout::{Answer, Data};
use jdwp_mirror::Command;
use jdwp_value::ObjectId;
use jdwp_watch::{Invocation, Watch};
use jdwp_wire::ErrorCode;
use std::alloc::Global;
use std::process::Abort;
use test_parts::commands;

const NONE: u8 = 0;

const EVENT_THREAD: u8 = 1;

const ALL: u8 = 2;

const BREAKPOINT: u8 = 2;

/// A command that is asked.
#[derive(Clone, Copy)]
pub(crate) enum Asked {
    Suspend,
    Resume,
    AllThreads,
    SuspendThread(u64),
    ResumeThread(u64),
    SuspendCount(u64),
}

/// What a debugger does, and what it reads.
#[derive(Clone, Copy)]
pub(crate) enum Step {
    Asks(Asked),
    /// An answer without data, or with data that tell nothing of suspension.
    IsDone(Asked),
    IsRefused(Asked),
    IsTold(u64, i32),
    /// A breakpoint of a thread: the policy, since which command, and the thread.
    Reads(u8, u64, u64),
    Invokes(Invocation),
    Returns(Invocation),
}

impl Asked {
    fn command(self, rt: &impl Abort, alloc: Global) -> Command {
        match self {
            Asked::Suspend => plain(alloc, commands::SUSPEND),
            Asked::Resume => plain(alloc, commands::RESUME),
            Asked::AllThreads => plain(alloc, commands::ALL_THREADS),
            Asked::SuspendThread(thread) => of_thread(rt, alloc, commands::SUSPEND_THREAD, thread),
            Asked::ResumeThread(thread) => of_thread(rt, alloc, commands::RESUME_THREAD, thread),
            Asked::SuspendCount(thread) => of_thread(rt, alloc, commands::SUSPEND_COUNT, thread),
        }
    }
}

fn answer(rt: &impl Abort, alloc: Global, watch: &mut Watch, asked: Asked, answer: &Answer) {
    let command = asked.command(rt, alloc);
    watch.on_answer(&command, answer).expect(rt, "memory");
}

pub(crate) fn take_step(rt: &impl Abort, alloc: Global, watch: &mut Watch, next: Step) {
    match next {
        Step::Asks(asked) => {
            let command = asked.command(rt, alloc);
            watch.on_ask(&command).expect(rt, "memory");
        }
        Step::IsDone(asked) => {
            let done = Answer::Data(Data::new(Vec::new(alloc)));
            answer(rt, alloc, watch, asked, &done);
        }
        Step::IsRefused(asked) => {
            let refused = Answer::Error(ErrorCode::INVALID_THREAD);
            answer(rt, alloc, watch, asked, &refused);
        }
        Step::IsTold(thread, count) => {
            let told = with_int(rt, alloc, count);
            answer(rt, alloc, watch, Asked::SuspendCount(thread), &told);
        }
        Step::Reads(policy, since, thread) => {
            let composite = event(rt, alloc, BREAKPOINT, policy, thread);
            watch.on_composite(&composite, since).expect(rt, "memory");
        }
        Step::Invokes(invocation) => watch.on_invoke(invocation).expect(rt, "memory"),
        Step::Returns(invocation) => watch.on_return(invocation).expect(rt, "memory"),
    }
}

/// What the debugger is sure of the threads 0 and 1 after these steps.
fn sure_after(rt: &impl Abort, alloc: Global, watch: &mut Watch, steps: &[Step]) -> (u64, u64) {
    for next in steps {
        take_step(rt, alloc, watch, *next);
    }
    let sure = (watch.sure(ObjectId(0)), watch.sure(ObjectId(1)));
    expect_that(rt, watch.is_sure(ObjectId(0)) == (sure.0 > 0));
    sure
}

/// One that knows thread 0 by an event that stopped nobody.
fn of_first(rt: &impl Abort, alloc: Global, one_by_one: bool) -> Watch {
    let mut watch = Watch::new(alloc, one_by_one);
    take_step(rt, alloc, &mut watch, Step::Reads(NONE, 0, 0));
    watch
}

const STOPPED: Step = Step::Reads(ALL, 0, 0);

const RESUMES: Step = Step::Asks(Asked::Resume);

const RESUMED: Step = Step::IsDone(Asked::Resume);

const SUSPENDS: Step = Step::Asks(Asked::Suspend);

const SUSPENDED: Step = Step::IsDone(Asked::Suspend);

/// An event of its own stops thread 0, and thread 1.
const OWN: Step = Step::Reads(EVENT_THREAD, 0, 0);

const OWN_OF_1: Step = Step::Reads(EVENT_THREAD, 0, 1);

const RESUMES_1: Step = Step::Asks(Asked::ResumeThread(1));

const COUNTS_1: Step = Step::Asks(Asked::SuspendCount(1));

const INVOKES: Step = Step::Invokes(Invocation::ByAll);

const INVOKES_ALONE: Step = Step::Invokes(Invocation::ByThread(ObjectId(1)));

/// What is known before a session's steps.
#[derive(Clone, Copy)]
enum Known {
    /// Both threads, by events that stopped nobody.
    Both,
    /// Both, and composites are sent one by one.
    Spaced,
    /// Thread 0; thread 1 begins later.
    First,
}

/// What is known, the steps, and what the counts of both threads are surely no less than behind them.
static SESSIONS: [(Known, &[Step], (u64, u64)); 27] = [
    // All are stopped and resumed, and the next event's composite is read before the answer to the Resume, or behind it.
    (
        Known::Both,
        &[STOPPED, RESUMES, Step::Reads(ALL, 0, 1)],
        (1, 1),
    ),
    (
        Known::Both,
        &[STOPPED, RESUMES, RESUMED, Step::Reads(ALL, 0, 1)],
        (1, 1),
    ),
    // A Suspend absorbs a Resume.
    (
        Known::Both,
        &[SUSPENDS, RESUMES, SUSPENDED, RESUMED, OWN],
        (1, 0),
    ),
    // A Resume in vain is settled
    (Known::Both, &[RESUMES, RESUMED, OWN], (0, 0)),
    // by a SuspendCount,
    (
        Known::Both,
        &[
            RESUMES,
            RESUMED,
            OWN,
            Step::Asks(Asked::SuspendCount(0)),
            Step::IsTold(0, 1),
        ],
        (1, 0),
    ),
    // and by an event of a request that was made after it.
    (
        Known::Both,
        &[
            RESUMES,
            Step::Asks(Asked::AllThreads),
            RESUMED,
            Step::IsDone(Asked::AllThreads),
            Step::Reads(EVENT_THREAD, 2, 0),
        ],
        (1, 0),
    ),
    // A Resume counts while it waits.
    (Known::Both, &[STOPPED, RESUMES], (0, 0)),
    (Known::Both, &[STOPPED, RESUMES_1], (1, 0)),
    // One that is refused keeps what there was.
    (
        Known::Both,
        &[STOPPED, RESUMES_1, Step::IsRefused(Asked::ResumeThread(1))],
        (1, 1),
    ),
    (
        Known::Both,
        &[STOPPED, RESUMES_1, Step::IsDone(Asked::ResumeThread(1))],
        (1, 0),
    ),
    // A count lowers nothing.
    (
        Known::Both,
        &[
            STOPPED,
            Step::Asks(Asked::SuspendCount(0)),
            Step::IsTold(0, 0),
        ],
        (1, 1),
    ),
    (
        Known::Both,
        &[Step::Asks(Asked::SuspendCount(0)), Step::IsTold(0, -1)],
        (0, 0),
    ),
    // Threads that begin are counted from then.
    (Known::First, &[STOPPED], (1, 0)),
    (
        Known::First,
        &[STOPPED, COUNTS_1, Step::IsTold(1, 1)],
        (1, 1),
    ),
    // A Suspend is asked that comes before thread 1 begins, whose own event stops it.
    (Known::First, &[SUSPENDS, OWN_OF_1, SUSPENDED], (1, 1)),
    // A Suspend that is asked later counts for it, and so does the event of another thread.
    (
        Known::First,
        &[SUSPENDS, OWN_OF_1, SUSPENDED, SUSPENDS, SUSPENDED, STOPPED],
        (3, 3),
    ),
    (
        Known::First,
        &[STOPPED, COUNTS_1, SUSPENDS, Step::IsTold(1, 0), SUSPENDED],
        (2, 1),
    ),
    (
        Known::First,
        &[
            Step::Asks(Asked::SuspendThread(1)),
            Step::IsRefused(Asked::SuspendThread(1)),
        ],
        (0, 0),
    ),
    // Composites that are sent one by one leave one event unknown.
    (Known::Spaced, &[RESUMES, RESUMED, OWN], (0, 0)),
    (
        Known::Spaced,
        &[RESUMES, RESUMED, OWN, Step::Reads(ALL, 0, 1)],
        (1, 1),
    ),
    (
        Known::Both,
        &[RESUMES, RESUMED, OWN, Step::Reads(ALL, 0, 1)],
        (0, 0),
    ),
    (Known::Spaced, &[OWN, RESUMES, RESUMED, OWN], (1, 0)),
    // Invocations come to nothing.
    (Known::Both, &[STOPPED, INVOKES], (0, 0)),
    // A breakpoint in the method stops all again.
    (Known::Both, &[STOPPED, INVOKES, STOPPED], (1, 1)),
    (
        Known::Both,
        &[
            STOPPED,
            INVOKES,
            STOPPED,
            RESUMES,
            Step::Returns(Invocation::ByAll),
            RESUMED,
        ],
        (1, 1),
    ),
    (Known::Both, &[STOPPED, INVOKES_ALONE], (1, 0)),
    (
        Known::Both,
        &[
            STOPPED,
            INVOKES_ALONE,
            Step::Returns(Invocation::ByThread(ObjectId(1))),
        ],
        (1, 1),
    ),
];

/// What is surely known behind these steps.
fn sure_of(rt: &impl Abort, alloc: Global, known: Known, steps: &[Step]) -> (u64, u64) {
    let mut watch = of_first(rt, alloc, matches!(known, Known::Spaced));
    if !matches!(known, Known::First) {
        take_step(rt, alloc, &mut watch, Step::Reads(NONE, 0, 1));
    }
    sure_after(rt, alloc, &mut watch, steps)
}

#[test]
fn each_session_goes_as_it_was_worked_out(rt: HostRuntime) {
    for (place, &(known, steps, sure)) in SESSIONS.iter().enumerate() {
        let found = sure_of(&rt, rt.alloc(), known, steps);
        expect_same(&rt, &(place, found), &(place, sure));
    }
}

#[test]
fn threads_that_were_named_are_shown_in_order(rt: HostRuntime) {
    let mut watch = of_first(&rt, rt.alloc(), false);
    let steps = [
        Step::Asks(Asked::SuspendCount(2)),
        Step::IsTold(2, 1),
        Step::Invokes(Invocation::ByThread(ObjectId(1))),
        STOPPED,
    ];
    for next in steps {
        take_step(&rt, rt.alloc(), &mut watch, next);
    }
    let mut threads = watch.threads();
    expect_same(&rt, &threads.len(), &3);
    for id in 0..3 {
        expect_same(&rt, &threads.next(), &Some(ObjectId(id)));
    }
    expect_same(&rt, &threads.next(), &None);
}
