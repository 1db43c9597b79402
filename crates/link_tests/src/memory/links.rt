//! Runs of a link, and the memory that they find. All of it for any machine but the calls at the end, so that it is proved once.
ghost use Rattle.jdwp_target.specs.Options.{LivesWithin};
ghost use Rattle.jdwp_wire.specs.Limits.{standard_limits};

use crate::memory::supply::{MOST_TIMES, Stop, Supply, push_line, push_same};
use jdwp_debugger::Mirror;
use jdwp_link::{Link, LinkEvent, Outcome};
use jdwp_machine::Machine;
use jdwp_script_machine::ScriptMachine;
use jdwp_target::TargetOptions;
use jdwp_value::ObjectId;
use std::alloc::Global;
use test_parts::MACHINE_A;

/// How a list of events is run.
#[derive(Clone, Copy, Debug, PartialEq, Eq)]
pub(crate) enum Ways {
    /// In one run, with memory.
    WithMemory,
    /// Each event in a run of its own, which finds nothing at first.
    EventByEvent,
    /// All events that are left in a run, which finds nothing at first.
    AllAtOnce,
}

/// What a mirror shows of a thread: its count, and whether it is held.
type Shown = Option<(u32, bool)>;

/// All that can be asked of a link whose threads are 1 and 2, but the data of requests.
#[derive(Clone, Copy, Debug, PartialEq, Eq)]
pub(crate) struct Standing {
    counts: (Option<u32>, Option<u32>),
    shown: (Shown, Shown),
    requests: (usize, usize),
    waits: (usize, usize),
    open: (bool, bool),
    room: (usize, usize),
    threads: (usize, usize),
    unanswered: Option<u64>,
    did: bool,
}

fn shown_of(mirror: &Mirror, thread: u64) -> Shown {
    match mirror.count(ObjectId(thread)) {
        Some(count) => Some((count, mirror.is_held(ObjectId(thread)))),
        None => None,
    }
}

fn unanswered<M: Machine + Drop>(link: &Link<M>) -> Option<u64> {
    match link.debugger().unanswered(0) {
        Some((ticket, _)) => Some(ticket.0),
        None => None,
    }
}

/// How a link stands. It takes no memory.
fn standing_of<M: Machine + Drop>(link: &Link<M>) -> Standing {
    let target = link.target();
    let debugger = link.debugger();
    let mirror = debugger.mirror();
    Standing {
        counts: (target.count(ObjectId(1)), target.count(ObjectId(2))),
        shown: (shown_of(mirror, 1), shown_of(mirror, 2)),
        requests: (target.requests().len(), mirror.requests().len()),
        waits: (debugger.waiting(), target.waiting()),
        open: (target.is_open(), debugger.is_open()),
        room: (target.room(), debugger.room()),
        threads: (target.live().len(), mirror.known().len()),
        unanswered: unanswered(link),
        did: link.did(),
    }
}

/// A link over this machine, in which no thread is suspended as the first session begins.
fn linked<M: Machine + Drop>(alloc: Global, machine: M) -> Result<Box<Link<M>>, Stop>
    requires { LivesWithin M.meaning standard_limits machine }
{
    let Some(options) = TargetOptions::new(false, 65_535) else {
        return Err(Stop::CountLimit);
    };
    let link = Link::new(alloc, machine, options)?;
    Ok(Box::new(alloc, link)?)
}

/// A run of the first of these events, done again until one is done: how many were done, and what was told of them; and whether no run that
/// was stopped at its first event told or changed anything.
fn part<M: Machine + Drop>(
    link: &mut Link<M>,
    events: &[LinkEvent],
    supply: &mut Supply,
) -> Result<(usize, Vec<Outcome>, bool), Stop> {
    let before = standing_of(link);
    let mut same = true;
    supply.starve()?;
    for _ in 0..MOST_TIMES {
        match link.run(events) {
            Ok(told) => {
                supply.relieve();
                return Ok((events.len(), told, same));
            }
            Err(stopped) => {
                supply.give();
                if stopped.event > 0 {
                    supply.relieve();
                    return Ok((stopped.event, stopped.outcomes, same));
                }
                same = same && stopped.outcomes.is_empty() && standing_of(link) == before;
            }
        }
    }
    Err(Stop::AlwaysRefused)
}

/// Appends what was told of events, behind a line of its own where the link does not stand as it did with memory.
fn push_told(alloc: Global, told: &[Outcome], stands: bool, log: &mut String) -> Result<(), Stop> {
    push_same(log, stands)?;
    for outcome in told {
        push_line(alloc, log, outcome)?;
    }
    Ok(())
}

/// A run of the first of these events, and what was told of them in a log. The link stood as the first of these standings tells, and it has to
/// stand behind each event as the next one tells. How many events were done.
fn push_part<M: Machine + Drop>(
    alloc: Global,
    link: &mut Link<M>,
    events: &[LinkEvent],
    standings: &[Standing],
    supply: &mut Supply,
    log: &mut String,
) -> Result<usize, Stop> {
    let (count, told, same) = part(link, events, supply)?;
    let stands = same && standings.get(count) == Some(&standing_of(link));
    push_told(alloc, told.as_slice(), stands, log)?;
    Ok(count)
}

/// All of these events, in runs of at most so many; what was told of them in words, with a line of its own where the link does not stand after
/// a run as it stood there with memory.
fn run_all<M: Machine + Drop>(
    alloc: Global,
    link: &mut Link<M>,
    events: &[LinkEvent],
    standings: &[Standing],
    most: usize,
    supply: &mut Supply,
) -> Result<String, Stop> {
    let mut log = String::new(alloc);
    let mut left = events;
    let mut ahead = standings;
    for _ in 0..MOST_TIMES {
        if left.is_empty() {
            return Ok(log);
        }
        let (front, _) = left.split_at(most.min(left.len()));
        let count = push_part(alloc, link, front, ahead, supply, &mut log)?;
        let (_, events_behind) = left.split_at(count.min(left.len()));
        let (_, standings_behind) = ahead.split_at(count.min(ahead.len()));
        left = events_behind;
        ahead = standings_behind;
    }
    Err(Stop::Endless)
}

/// Appends how a link stands before these events and after each.
fn push_standings<M: Machine + Drop>(
    link: &mut Link<M>,
    events: &[LinkEvent],
    supply: &mut Supply,
    standings: &mut Vec<Standing>,
) -> Result<(), Stop> {
    standings.push(standing_of(link))?;
    for (place, _) in events.iter().enumerate() {
        let (_, behind) = events.split_at(place.min(events.len()));
        let (one, _) = behind.split_at(1.min(behind.len()));
        part(link, one, supply)?;
        standings.push(standing_of(link))?;
    }
    Ok(())
}

/// How a link stands before these events and after each, with memory.
fn stand<M: Machine + Drop>(
    alloc: Global,
    link: &mut Link<M>,
    events: &[LinkEvent],
) -> Result<Vec<Standing>, Stop> {
    let mut standings = Vec::new(alloc);
    push_standings(link, events, &mut Supply::ample(), &mut standings)?;
    Ok(standings)
}

/// The same over this machine, before its first session.
fn stands_over<M: Machine + Drop>(
    alloc: Global,
    machine: M,
    events: &[LinkEvent],
) -> Result<Vec<Standing>, Stop>
    requires { LivesWithin M.meaning standard_limits machine }
{
    let mut link = linked(alloc, machine)?;
    stand(alloc, &mut link, events)
}

/// All events in this link, which is new; what was told in words, and how many runs were stopped.
fn run_in<M: Machine + Drop>(
    alloc: Global,
    link: &mut Link<M>,
    events: &[LinkEvent],
    standings: &[Standing],
    ways: Ways,
) -> Result<(String, u32), Stop> {
    let (most, mut supply) = match ways {
        Ways::WithMemory => (events.len(), Supply::ample()),
        Ways::EventByEvent => (1, Supply::scarce(alloc)?),
        Ways::AllAtOnce => (events.len(), Supply::scarce(alloc)?),
    };
    let log = run_all(alloc, link, events, standings, most, &mut supply)?;
    Ok((log, supply.refusals()))
}

/// The same in a link over this machine.
fn run_over<M: Machine + Drop>(
    alloc: Global,
    machine: M,
    events: &[LinkEvent],
    standings: &[Standing],
    ways: Ways,
) -> Result<(String, u32), Stop>
    requires { LivesWithin M.meaning standard_limits machine }
{
    let mut link = linked(alloc, machine)?;
    run_in(alloc, &mut link, events, standings, ways)
}

/// How a link over machine A stands before these events and after each, with memory.
pub(crate) fn stands_on_a(alloc: Global, events: &[LinkEvent]) -> Result<Vec<Standing>, Stop> {
    let machine = ScriptMachine::read(alloc, MACHINE_A)?;
    stands_over(alloc, machine, events)
}

/// What is told of these events in a link over machine A, in words, and how many runs were stopped.
pub(crate) fn run_on_a(
    alloc: Global,
    events: &[LinkEvent],
    standings: &[Standing],
    ways: Ways,
) -> Result<(String, u32), Stop> {
    let machine = ScriptMachine::read(alloc, MACHINE_A)?;
    run_over(alloc, machine, events, standings, ways)
}
