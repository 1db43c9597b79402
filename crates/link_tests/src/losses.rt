//! A session that is lost after any byte, at one end and then at the other, and what a new one finds. All of it for any machine whose threads
//! are 1 and 2, of which the second makes no step.
ghost use Rattle.jdwp_target.specs.Options.{LivesWithin};
ghost use Rattle.jdwp_wire.specs.Limits.{standard_limits};

use crate::acts::{ALL, Act, Wanted, push_events};
use crate::sessions::{Shown, Standing, linked, run_events, standing_of};
use crate::told::{BEGUN, Reply, Told, are_told};
use jdwp_layout::numbers::{SUSPEND, SUSPEND_COUNT};
use jdwp_link::{Link, LinkEvent, Outcome};
use jdwp_machine::Machine;
use std::alloc::Global;
use std::process::Abort;

/// How both ends come to notice that the connection is lost: what is done before the target does, and behind it.
#[derive(Clone, Copy)]
pub(crate) struct Way {
    pub(crate) name: &'static str,
    before: &'static [Act],
    behind: &'static [Act],
    /// Whether the target handles what the debugger put, before it notices the loss.
    pub(crate) handles: bool,
}

/// Each end first, and what is under way is dropped, or comes and is read or handled.
pub(crate) static WAYS: [Way; 4] = [
    Way {
        name: "the target loses first",
        before: &[],
        behind: &[Act::DebuggerLoses],
        handles: false,
    },
    Way {
        name: "the target loses first, and what it put is read",
        before: &[],
        behind: &[
            Act::ToDebugger(ALL),
            Act::DebuggerTurn,
            Act::DebuggerTurn,
            Act::DebuggerTurn,
            Act::DebuggerLoses,
        ],
        handles: false,
    },
    Way {
        name: "the debugger loses first",
        before: &[Act::DebuggerLoses],
        behind: &[],
        handles: false,
    },
    Way {
        name: "the debugger loses first, and what it put is handled",
        before: &[
            Act::DebuggerLoses,
            Act::ToTarget(ALL),
            Act::TargetTurn,
            Act::TargetTurn,
            Act::TargetTurn,
        ],
        behind: &[],
        handles: true,
    },
];

/// Where a session is lost.
#[derive(Clone, Copy)]
pub(crate) struct Loss {
    /// How many events are done before.
    pub(crate) events: usize,
    /// The next event is a delivery: so many of its bytes come.
    pub(crate) bytes: usize,
    pub(crate) way: Way,
    /// Whether the target handles the handshake before it notices the loss, so that VM_START does not come again.
    pub(crate) begun: bool,
}

/// A new session begins behind a loss.
static GREETING: [Act; 1] = [Act::Greet];

/// What is asked again.
static AGAIN: [Act; 3] = [
    Act::Round(Wanted::OfThread(SUSPEND_COUNT, 2)),
    Act::Round(Wanted::Breakpoint(1)),
    Act::Round(Wanted::OfMachine(SUSPEND)),
];

/// Does these acts, and appends what is told of them.
fn do_all<M: Machine + Drop>(
    rt: &impl Abort,
    alloc: Global,
    link: &mut Link<M>,
    acts: &[Act],
    told: &mut Vec<Outcome>,
) {
    let mut events = Vec::new(alloc);
    for act in acts {
        push_events(alloc, act, &mut events).expect(rt, "memory");
    }
    run_events(rt, link, &events, told);
}

/// A session goes on up to its loss, which only the target has still to notice.
fn go_on<M: Machine + Drop>(
    rt: &impl Abort,
    alloc: Global,
    link: &mut Link<M>,
    events: &[LinkEvent],
    loss: &Loss,
    told: &mut Vec<Outcome>,
) {
    let (front, behind) = events.split_at(loss.events.min(events.len()));
    run_events(rt, link, front, told);
    let delivery = match behind.first() {
        Some(LinkEvent::ToTarget(_)) => Act::ToTarget(loss.bytes),
        Some(LinkEvent::ToDebugger(_)) => Act::ToDebugger(loss.bytes),
        _ => panic!(rt; "no delivery"),
    };
    do_all(rt, alloc, link, &[delivery], told);
    do_all(rt, alloc, link, loss.way.before, told);
}

/// Both ends are closed, nobody is suspended, nothing is requested, known, under way, deferred or unanswered.
fn is_empty(standing: &Standing) -> bool {
    standing.open == (false, false)
        && standing.counts == (Some(0), Some(0))
        && standing.shown == (Shown::Unknown, Shown::Unknown)
        && standing.requests == (0, 0)
        && standing.waits == (0, 0)
        && standing.room == (0, 0)
        && standing.threads == (2, 0)
        && standing.unanswered.is_none()
        && standing.deferred == 0
        && !standing.did
}

/// How many commands were asked; None unless each was answered or lost.
fn settled(told: &[Outcome]) -> Option<u64> {
    let mut asked = 0u64;
    let mut settled = 0u64;
    for outcome in told {
        match outcome {
            Outcome::Asked(_) => asked = asked.saturating_add(1),
            Outcome::Answered(..) | Outcome::Lost(_) => settled = settled.saturating_add(1),
            _ => {}
        }
    }
    if asked == settled { Some(asked) } else { None }
}

/// Whether both ends notice the loss, and nothing is left; how many requests there were before, and how many commands were asked.
fn is_lost<M: Machine + Drop>(
    rt: &impl Abort,
    alloc: Global,
    link: &mut Link<M>,
    events: &[LinkEvent],
    loss: &Loss,
) -> Option<(usize, u64)> {
    let mut told = Vec::new(alloc);
    go_on(rt, alloc, link, events, loss, &mut told);
    let requests = link.target().requests().len();
    do_all(rt, alloc, link, &[Act::TargetLoses], &mut told);
    do_all(rt, alloc, link, loss.way.behind, &mut told);
    match settled(&told) {
        Some(asked) if is_empty(&standing_of(link)) => Some((requests, asked)),
        _ => None,
    }
}

/// Whether a new session begins, with VM_START where it did not come before.
fn begins<M: Machine + Drop>(
    rt: &impl Abort,
    alloc: Global,
    link: &mut Link<M>,
    loss: &Loss,
) -> bool {
    let mut told = Vec::new(alloc);
    do_all(rt, alloc, link, &GREETING, &mut told);
    if loss.begun {
        told.is_empty()
    } else {
        are_told(&told, &[BEGUN])
    }
}

/// Whether what is asked again is answered: under the next tickets, and the request under the next id.
fn answers_again<M: Machine + Drop>(
    rt: &impl Abort,
    alloc: Global,
    link: &mut Link<M>,
    requests: usize,
    asked: u64,
) -> bool {
    let mut told = Vec::new(alloc);
    do_all(rt, alloc, link, &AGAIN, &mut told);
    let first = asked.saturating_add(1);
    let second = asked.saturating_add(2);
    let third = asked.saturating_add(3);
    let id = if requests == 0 { 1 } else { 2 };
    let expected = [
        Told::Asked(first),
        Told::Answered(first, Reply::Number(0)),
        Told::Asked(second),
        Told::Answered(second, Reply::Number(id)),
        Told::Asked(third),
        Told::Answered(third, Reply::Done),
    ];
    are_told(&told, &expected)
}

/// Whether a link stands as it is to stand when all was asked again: both threads are suspended, and the mirror knows of the first only
/// from VM_START.
fn stands_again<M: Machine + Drop>(link: &Link<M>, loss: &Loss) -> bool {
    let standing = standing_of(link);
    let first = if loss.begun {
        Shown::Unknown
    } else {
        Shown::Free(1)
    };
    standing.counts == (Some(1), Some(1))
        && standing.shown == (first, Shown::Free(1))
        && standing.requests == (1, 1)
        && standing.open == (true, true)
        && standing.waits == (0, 0)
}

/// Whether a session that is lost so leaves nothing, and a new one goes as the first did.
fn begins_anew<M: Machine + Drop>(
    rt: &impl Abort,
    alloc: Global,
    link: &mut Link<M>,
    events: &[LinkEvent],
    loss: &Loss,
) -> bool {
    let Some((requests, asked)) = is_lost(rt, alloc, link, events, loss) else {
        return false;
    };
    let is = begins(rt, alloc, link, loss) && answers_again(rt, alloc, link, requests, asked);
    is && stands_again(link, loss)
}

/// The same in a link over this machine.
pub(crate) fn begins_anew_over<M: Machine + Drop>(
    rt: &impl Abort,
    alloc: Global,
    machine: M,
    events: &[LinkEvent],
    loss: &Loss,
) -> bool
    requires { LivesWithin M.meaning standard_limits machine }
{
    let mut link = linked(rt, alloc, machine);
    begins_anew(rt, alloc, &mut link, events, loss)
}
