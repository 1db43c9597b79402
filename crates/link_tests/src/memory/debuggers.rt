//! Sessions of a debugger, and the memory that its calls find.
use crate::memory::supply::{MOST_TIMES, Stop, Supply, push_line, push_same};
use jdwp_debugger::{Command, Debugger, DebuggerFault, Order, Read, Refused, Ticket};
use jdwp_layout::{Datum, Scalar, numbers};
use jdwp_value::ObjectId;
use jdwp_wire::Limits;
use std::alloc::Global;
use test_parts::bytes;

/// A command.
#[derive(Clone, Copy)]
pub(crate) enum Wanted {
    /// Without data.
    Plain((u8, u8)),
    /// On a thread.
    OfThread((u8, u8), u64),
    /// EventRequest.Set of a kind, with the policy ALL and no modifier.
    Request(u8),
    /// EventRequest.Clear of a kind and an id.
    Clear(u8, i32),
    /// ThreadReference.SuspendCount without data, which is none.
    Unfit,
}

/// A closed debugger of a target of this order, on the heap.
pub(crate) fn debugger(alloc: Global, order: Order) -> Result<Box<Debugger>, Stop> {
    let debugger = Debugger::with_order(alloc, 1, Limits::standard(), order)?;
    Ok(Box::new(alloc, debugger)?)
}

/// What is done with a debugger.
#[derive(Clone, Copy)]
pub(crate) enum Act {
    /// A session begins.
    Attaches,
    /// These bytes come, and a turn reads them.
    Reads(&'static str),
    /// A command is asked.
    Asks(Wanted),
    /// The connection is lost.
    Loses,
}

/// What a mirror shows of a thread: its count, and whether it is held.
type Shown = Option<(u32, bool)>;

/// All that can be asked of a debugger whose threads are 1 to 3, but the modifiers of requests and the commands that wait.
#[derive(Clone, Copy, Debug, PartialEq, Eq)]
struct Standing {
    threads: (Shown, Shown, Shown),
    /// What their counts are no less than.
    least: (u64, u64, u64),
    known: usize,
    requests: usize,
    /// The newest request: its id, kind and policy.
    newest: Option<(i32, u8, u8)>,
    /// The first and the third ticket that are unanswered.
    unanswered: (Option<u64>, Option<u64>),
    waiting: usize,
    room: usize,
    is_open: bool,
    is_measured: bool,
    /// How many messages the last turn read.
    read: usize,
}

fn shown(debugger: &Debugger, thread: u64) -> Shown {
    let mirror = debugger.mirror();
    match mirror.count(ObjectId(thread)) {
        Some(count) => Some((count, mirror.is_held(ObjectId(thread)))),
        None => None,
    }
}

fn least(debugger: &Debugger, thread: u64) -> u64 {
    debugger.at_least(ObjectId(thread))
}

fn unanswered(debugger: &Debugger, place: usize) -> Option<u64> {
    match debugger.unanswered(place) {
        Some((ticket, _)) => Some(ticket.0),
        None => None,
    }
}

fn newest(debugger: &Debugger) -> Option<(i32, u8, u8)> {
    match debugger.mirror().requests().last() {
        Some(request) => Some((request.id(), request.kind(), request.policy())),
        None => None,
    }
}

fn standing_of(debugger: &Debugger) -> Standing {
    Standing {
        threads: (shown(debugger, 1), shown(debugger, 2), shown(debugger, 3)),
        least: (least(debugger, 1), least(debugger, 2), least(debugger, 3)),
        known: debugger.mirror().known().len(),
        requests: debugger.mirror().requests().len(),
        newest: newest(debugger),
        unanswered: (unanswered(debugger, 0), unanswered(debugger, 2)),
        waiting: debugger.waiting(),
        room: debugger.room(),
        is_open: debugger.is_open(),
        is_measured: debugger.sizes().is_some(),
        read: debugger.last().len(),
    }
}

fn with_one(alloc: Global, (set, number): (u8, u8), scalar: Scalar) -> Result<Command, Stop> {
    let items = vec![in alloc; Datum::One(scalar)]?;
    Ok(Command::new(set, number, items))
}

fn request(alloc: Global, kind: u8) -> Result<Command, Stop> {
    let items = vec![in alloc;
        Datum::One(Scalar::Byte(kind)),
        Datum::One(Scalar::Byte(2)),
        Datum::Many(Vec::new(alloc)),
    ]?;
    Ok(Command::new(numbers::EVENT_REQUEST, numbers::SET_REQUEST, items))
}

fn clear(alloc: Global, kind: u8, id: i32) -> Result<Command, Stop> {
    let items = vec![in alloc; Datum::One(Scalar::Byte(kind)), Datum::One(Scalar::Int(id))]?;
    Ok(Command::new(numbers::EVENT_REQUEST, numbers::CLEAR_REQUEST, items))
}

fn command(alloc: Global, wanted: Wanted) -> Result<Command, Stop> {
    match wanted {
        Wanted::Plain((set, number)) => Ok(Command::new(set, number, Vec::new(alloc))),
        Wanted::OfThread(command, thread) => {
            with_one(alloc, command, Scalar::ObjectId(ObjectId(thread)))
        }
        Wanted::Request(kind) => request(alloc, kind),
        Wanted::Clear(kind, id) => clear(alloc, kind, id),
        Wanted::Unfit => Ok(Command::new(
            numbers::THREAD_REFERENCE,
            numbers::SUSPEND_COUNT,
            Vec::new(alloc),
        )),
    }
}

/// A turn, done again until it isn't refused; and whether none that was changed anything.
fn turned(
    alloc: Global,
    debugger: &mut Debugger,
    supply: &mut Supply,
) -> Result<(Result<Read, DebuggerFault>, bool), Stop> {
    let before = standing_of(debugger);
    let mut same = true;
    supply.starve()?;
    for _ in 0..MOST_TIMES {
        match debugger.turn(alloc) {
            Err(DebuggerFault::NoMemory) => same = same && standing_of(debugger) == before,
            told => {
                supply.relieve();
                return Ok((told, same));
            }
        }
        supply.give();
    }
    Err(Stop::AlwaysRefused)
}

/// A command is asked in the same way. It is made anew each time, with memory.
fn asked(
    alloc: Global,
    debugger: &mut Debugger,
    wanted: Wanted,
    supply: &mut Supply,
) -> Result<(Result<Ticket, Refused>, bool), Stop> {
    let before = standing_of(debugger);
    let mut same = true;
    for crumbs in 0..MOST_TIMES {
        let command = command(alloc, wanted)?;
        supply.starve_to(crumbs)?;
        let told = debugger.ask(alloc, command);
        supply.relieve();
        match told {
            Err(Refused::NoMemory) => same = same && standing_of(debugger) == before,
            told => return Ok((told, same)),
        }
        supply.give();
    }
    Err(Stop::AlwaysRefused)
}

/// What waits to leave, at most 256 bytes, in a log; it is taken.
fn push_sent(alloc: Global, debugger: &mut Debugger, log: &mut String) -> Result<(), Stop> {
    let mut buffer = [0; 256];
    let count = debugger.take(&mut buffer);
    push_line(alloc, log, &&buffer[..count])
}

/// These bytes come, and a turn reads them; what it told, in a log.
fn push_read(
    alloc: Global,
    debugger: &mut Debugger,
    input: &str,
    supply: &mut Supply,
    log: &mut String,
) -> Result<(), Stop> {
    debugger.feed(&bytes(alloc, input)?);
    let (told, same) = turned(alloc, debugger, supply)?;
    push_same(log, same)?;
    push_line(alloc, log, &told)
}

/// A command is asked; what that told, in a log.
fn push_asked(
    alloc: Global,
    debugger: &mut Debugger,
    wanted: Wanted,
    supply: &mut Supply,
    log: &mut String,
) -> Result<(), Stop> {
    let (told, same) = asked(alloc, debugger, wanted, supply)?;
    push_same(log, same)?;
    push_line(alloc, log, &told)
}

/// Does an act; what came of it, in a log.
fn push_done(
    alloc: Global,
    debugger: &mut Debugger,
    act: Act,
    supply: &mut Supply,
    log: &mut String,
) -> Result<(), Stop> {
    match act {
        Act::Attaches => push_line(alloc, log, &debugger.attach()),
        Act::Reads(input) => push_read(alloc, debugger, input, supply, log),
        Act::Asks(wanted) => push_asked(alloc, debugger, wanted, supply, log),
        Act::Loses => {
            let lost = debugger.lose().as_slice().len();
            push_line(alloc, log, &lost)
        }
    }
}

/// Does these acts with a new debugger, and answers what came of them, in words.
pub(crate) fn done(
    alloc: Global,
    debugger: &mut Debugger,
    acts: &[Act],
    supply: &mut Supply,
) -> Result<String, Stop> {
    let mut log = String::new(alloc);
    for act in acts {
        push_done(alloc, debugger, *act, supply, &mut log)?;
        push_sent(alloc, debugger, &mut log)?;
        push_line(alloc, &mut log, &standing_of(debugger))?;
    }
    Ok(log)
}
