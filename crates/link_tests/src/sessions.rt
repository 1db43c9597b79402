//! Sessions of a link as lists of lines: what is done, and what is to come of it. All of it for any machine, so that it is proved once, and
//! of none in particular.
ghost use Rattle.jdwp_target.specs.Options.{LivesWithin};
ghost use Rattle.jdwp_wire.specs.Limits.{standard_limits};

use crate::acts::{Act, push_events};
use crate::asserts::expect_same;
use crate::told::{Told, are_told};
use jdwp_debugger::Mirror;
use jdwp_link::{Link, LinkEvent, Outcome};
use jdwp_machine::Machine;
use jdwp_target::TargetOptions;
use jdwp_value::ObjectId;
use std::alloc::Global;
use std::process::Abort;

/// What a mirror shows of a thread.
#[derive(Clone, Copy, Debug, PartialEq, Eq)]
pub(crate) enum Shown {
    Unknown,
    /// It has this suspend count, and is not held.
    Free(u32),
    /// It is held, with this suspend count.
    Held(u32),
}

/// What is done with a link, or what is to hold then.
#[derive(Clone, Copy)]
pub(crate) enum Line {
    Does(Act),
    /// The same so many times.
    Repeats(u32, Act),
    /// This was told since the last such line, and nothing else.
    Tells(&'static [Told]),
    /// The suspend counts of threads 1 and 2 in the target; None where they do not live.
    Counts(Option<u32>, Option<u32>),
    /// What the mirror shows of threads 1 and 2.
    Shows(Shown, Shown),
    /// How many event requests there are in the target, and in the mirror.
    Requests(usize, usize),
    /// How many bytes wait to leave the debugger, and the target.
    Waits(usize, usize),
    /// Whether the target is open, and whether the debugger is.
    Open(bool, bool),
    /// How many commands the target defers.
    Deferred(usize),
    /// Whether the last event was a turn that handled a message, a release that answered a command, or a step that was made.
    Did(bool),
}

/// What a session shows, and its lines.
pub(crate) type Session = (&'static str, &'static [Line]);

/// The session of these lines, which shows this. A table whose rows go through a call is proved in a part of the time.
pub(crate) fn session(shows: &'static str, lines: &'static [Line]) -> Session {
    (shows, lines)
}

/// All that can be asked of a link whose threads are 1 and 2, but the data of requests.
#[derive(Clone, Copy, Debug, PartialEq, Eq)]
pub(crate) struct Standing {
    pub(crate) counts: (Option<u32>, Option<u32>),
    pub(crate) shown: (Shown, Shown),
    pub(crate) requests: (usize, usize),
    pub(crate) waits: (usize, usize),
    pub(crate) open: (bool, bool),
    /// How many bytes would fit into the target, and the debugger.
    pub(crate) room: (usize, usize),
    /// How many threads live, and how many are known.
    pub(crate) threads: (usize, usize),
    /// The first ticket that is unanswered.
    pub(crate) unanswered: Option<u64>,
    /// How many commands are deferred.
    pub(crate) deferred: usize,
    pub(crate) did: bool,
}

/// What a mirror shows of a thread.
fn shown_of(mirror: &Mirror, thread: u64) -> Shown {
    match mirror.count(ObjectId(thread)) {
        None => Shown::Unknown,
        Some(count) if mirror.is_held(ObjectId(thread)) => Shown::Held(count),
        Some(count) => Shown::Free(count),
    }
}

/// The suspend counts of threads 1 and 2 in the target.
fn counts<M: Machine + Drop>(link: &Link<M>) -> (Option<u32>, Option<u32>) {
    let target = link.target();
    (target.count(ObjectId(1)), target.count(ObjectId(2)))
}

/// What the mirror shows of threads 1 and 2.
fn both_shown<M: Machine + Drop>(link: &Link<M>) -> (Shown, Shown) {
    let mirror = link.debugger().mirror();
    (shown_of(mirror, 1), shown_of(mirror, 2))
}

/// How many event requests there are in the target, and in the mirror.
fn requests<M: Machine + Drop>(link: &Link<M>) -> (usize, usize) {
    let kept = link.debugger().mirror().requests().len();
    (link.target().requests().len(), kept)
}

/// How many bytes wait to leave the debugger, and the target.
fn waits<M: Machine + Drop>(link: &Link<M>) -> (usize, usize) {
    (link.debugger().waiting(), link.target().waiting())
}

/// Whether the target is open, and whether the debugger is.
fn open<M: Machine + Drop>(link: &Link<M>) -> (bool, bool) {
    (link.target().is_open(), link.debugger().is_open())
}

/// How many bytes would fit into the target, and the debugger.
fn room<M: Machine + Drop>(link: &Link<M>) -> (usize, usize) {
    (link.target().room(), link.debugger().room())
}

/// How many threads live, and how many are known.
fn threads<M: Machine + Drop>(link: &Link<M>) -> (usize, usize) {
    let known = link.debugger().mirror().known().len();
    (link.target().live().len(), known)
}

/// The first ticket that is unanswered.
fn unanswered<M: Machine + Drop>(link: &Link<M>) -> Option<u64> {
    match link.debugger().unanswered(0) {
        Some((ticket, _)) => Some(ticket.0),
        None => None,
    }
}

/// How a link stands.
pub(crate) fn standing_of<M: Machine + Drop>(link: &Link<M>) -> Standing {
    Standing {
        counts: counts(link),
        shown: both_shown(link),
        requests: requests(link),
        waits: waits(link),
        open: open(link),
        room: room(link),
        threads: threads(link),
        unanswered: unanswered(link),
        deferred: link.target().deferred(),
        did: link.did(),
    }
}

/// A link over this machine, in which no thread is suspended as the first session begins.
pub(crate) fn linked<M: Machine + Drop>(rt: &impl Abort, alloc: Global, machine: M) -> Box<Link<M>>
    requires { LivesWithin M.meaning standard_limits machine }
{
    let options = TargetOptions::new(false, 65_535).expect(rt, "the count limit is accepted");
    let link = Link::new(alloc, machine, options).expect(rt, "memory");
    Box::new(alloc, link).expect(rt, "memory")
}

/// Does these events, and appends what is told of them.
pub(crate) fn run_events<M: Machine + Drop>(
    rt: &impl Abort,
    link: &mut Link<M>,
    events: &[LinkEvent],
    told: &mut Vec<Outcome>,
) {
    let mut outcomes = link.run(events).expect(rt, "memory");
    told.append(&mut outcomes).expect(rt, "memory");
}

/// Does an act, and appends what is told of it.
fn does<M: Machine + Drop>(
    rt: &impl Abort,
    alloc: Global,
    link: &mut Link<M>,
    act: &Act,
    told: &mut Vec<Outcome>,
) {
    let mut events = Vec::new(alloc);
    push_events(alloc, act, &mut events).expect(rt, "memory");
    run_events(rt, link, &events, told);
}

/// Whether a line holds: what is done comes to pass, and what is to hold does.
fn holds<M: Machine + Drop>(
    rt: &impl Abort,
    alloc: Global,
    link: &mut Link<M>,
    line: &Line,
    told: &mut Vec<Outcome>,
) -> bool {
    match line {
        Line::Does(act) => {
            does(rt, alloc, link, act, told);
            true
        }
        Line::Repeats(times, act) => {
            for _ in 0..*times {
                does(rt, alloc, link, act, told);
            }
            true
        }
        Line::Tells(expected) => {
            let are = are_told(told, expected);
            told.clear();
            are
        }
        _ => is_so(link, line),
    }
}

/// Whether a line that asks how the link stands holds.
fn is_so<M: Machine + Drop>(link: &Link<M>, line: &Line) -> bool {
    match *line {
        Line::Counts(first, second) => counts(link) == (first, second),
        Line::Shows(first, second) => both_shown(link) == (first, second),
        Line::Requests(target, mirror) => requests(link) == (target, mirror),
        Line::Waits(debugger, target) => waits(link) == (debugger, target),
        Line::Open(target, debugger) => open(link) == (target, debugger),
        Line::Deferred(count) => link.target().deferred() == count,
        Line::Did(did) => link.did() == did,
        Line::Does(_) | Line::Repeats(..) | Line::Tells(_) => false,
    }
}

/// The place, from 0, of the first line that does not hold; the number of lines where something is told that none has; None where all hold.
pub(crate) fn first_wrong<M: Machine + Drop>(
    rt: &impl Abort,
    alloc: Global,
    link: &mut Link<M>,
    lines: &[Line],
) -> Option<usize> {
    let mut told = Vec::new(alloc);
    let mut wrong = None;
    for (place, line) in lines.iter().enumerate() {
        if !holds(rt, alloc, link, line, &mut told) {
            wrong = Some(place);
            break;
        }
    }
    if wrong.is_none() && !told.is_empty() {
        wrong = Some(lines.len());
    }
    wrong
}

/// The same in a link over this machine, before its first session.
pub(crate) fn first_wrong_over<M: Machine + Drop>(
    rt: &impl Abort,
    alloc: Global,
    machine: M,
    lines: &[Line],
) -> Option<usize>
    requires { LivesWithin M.meaning standard_limits machine }
{
    let mut link = linked(rt, alloc, machine);
    first_wrong(rt, alloc, &mut link, lines)
}

/// Each line holds, in a link over this machine, before its first session.
pub(crate) fn goes_as_told<M: Machine + Drop>(
    rt: &impl Abort,
    alloc: Global,
    machine: M,
    lines: &[Line],
)
    requires { LivesWithin M.meaning standard_limits machine }
{
    let found = first_wrong_over(rt, alloc, machine, lines);
    expect_same(rt, &found, &None);
}

/// The events of a session's acts.
pub(crate) fn events_of(rt: &impl Abort, alloc: Global, lines: &[Line]) -> Vec<LinkEvent> {
    let mut events = Vec::new(alloc);
    for line in lines {
        match line {
            Line::Does(act) => push_events(alloc, act, &mut events).expect(rt, "memory"),
            Line::Repeats(times, act) => {
                for _ in 0..*times {
                    push_events(alloc, act, &mut events).expect(rt, "memory");
                }
            }
            _ => {}
        }
    }
    events
}

/// All that is told in a session.
pub(crate) fn told_in(rt: &impl Abort, alloc: Global, lines: &[Line]) -> Vec<Told> {
    let mut all = Vec::new(alloc);
    for line in lines {
        if let Line::Tells(told) = line {
            all.extend_from_slice(told).expect(rt, "memory");
        }
    }
    all
}

/// Does these events in two runs, of which the first has at most so many, and answers how the link stands then; None where something else
/// is told of them.
pub(crate) fn stands_after<M: Machine + Drop>(
    rt: &impl Abort,
    alloc: Global,
    link: &mut Link<M>,
    events: &[LinkEvent],
    cut: usize,
    expected: &[Told],
) -> Option<Standing> {
    let (front, back) = events.split_at(cut.min(events.len()));
    let mut told = Vec::new(alloc);
    run_events(rt, link, front, &mut told);
    run_events(rt, link, back, &mut told);
    if are_told(&told, expected) {
        Some(standing_of(link))
    } else {
        None
    }
}

/// The same in a link over this machine, before its first session.
pub(crate) fn stands_after_over<M: Machine + Drop>(
    rt: &impl Abort,
    alloc: Global,
    machine: M,
    events: &[LinkEvent],
    cut: usize,
    expected: &[Told],
) -> Option<Standing>
    requires { LivesWithin M.meaning standard_limits machine }
{
    let mut link = linked(rt, alloc, machine);
    stands_after(rt, alloc, &mut link, events, cut, expected)
}

/// How many bytes wait to leave the debugger, and the target, after these events.
fn waits_after<M: Machine + Drop>(
    rt: &impl Abort,
    alloc: Global,
    link: &mut Link<M>,
    events: &[LinkEvent],
) -> (usize, usize) {
    let mut told = Vec::new(alloc);
    run_events(rt, link, events, &mut told);
    waits(link)
}

/// The same in a link over this machine, before its first session.
pub(crate) fn waits_after_over<M: Machine + Drop>(
    rt: &impl Abort,
    alloc: Global,
    machine: M,
    events: &[LinkEvent],
) -> (usize, usize)
    requires { LivesWithin M.meaning standard_limits machine }
{
    let mut link = linked(rt, alloc, machine);
    waits_after(rt, alloc, &mut link, events)
}
