//! What asking does, why it is refused, and whether something stands in front.
use crate::asserts::expect_same;
use crate::debuggers::boxed::{debugger, debugger_within};
use jdwp_debugger::{Command, Debugger, Refused, Ticket};
use jdwp_layout::{Datum, Scalar};
use jdwp_value::ObjectId;
use jdwp_wire::{HANDSHAKE, Limits};
use std::alloc::Global;
use std::process::Abort;
use test_parts::commands;

/// Makes a turn, whatever it tells.
fn turn(rt: &impl Abort, alloc: Global, debugger: &mut Debugger) {
    debugger.turn(alloc).expect(rt, "a turn");
}

/// Begins the session, up to the widths of ids, which are all this, and takes what it puts. The next id is 1, nothing waits, and the last
/// turn read nothing.
fn begin(rt: &impl Abort, alloc: Global, debugger: &mut Debugger, width: u8) {
    debugger.attach();
    debugger.feed(&HANDSHAKE);
    turn(rt, alloc, debugger);
    debugger.feed(&[
        0, 0, 0, 31, 0, 0, 0, 1, 0x80, 0, 0, 0, 0, 0, width, 0, 0, 0, width, 0, 0, 0, width, 0, 0,
        0, width, 0, 0, 0, width,
    ]);
    turn(rt, alloc, debugger);
    turn(rt, alloc, debugger);
    let mut out = [0; 32];
    debugger.take(&mut out);
    debugger.set_next_id(1);
}

/// A command without data.
fn plain(alloc: Global, (set, number): (u8, u8)) -> Command {
    Command::new(set, number, Vec::new(alloc))
}

/// A command with one item as its data.
fn with_one(rt: &impl Abort, alloc: Global, (set, number): (u8, u8), scalar: Scalar) -> Command {
    let items = vec![in alloc; Datum::One(scalar)].expect(rt, "memory");
    Command::new(set, number, items)
}

/// VirtualMachine.ClassesBySignature with a signature of so many bytes.
fn class_of(rt: &impl Abort, alloc: Global, length: usize) -> Command {
    let mut signature = String::new(alloc);
    for _ in 0..length {
        signature.push('x').expect(rt, "memory");
    }
    with_one(
        rt,
        alloc,
        commands::CLASSES_BY_SIGNATURE,
        Scalar::String(signature),
    )
}

/// Bytes as the command's data.
fn raw(rt: &impl Abort, alloc: Global, (set, number): (u8, u8), length: usize) -> Command {
    let mut bytes = Vec::new(alloc);
    for _ in 0..length {
        bytes.push(0).expect(rt, "memory");
    }
    Command::raw(set, number, bytes)
}

/// A command that is asked.
#[derive(Clone, Copy)]
enum Asks {
    /// One without data, of a set and a number.
    Plain((u8, u8)),
    /// The suspend count of a thread.
    Count(u64),
    /// The classes of a signature of so many bytes.
    Class(usize),
    /// So many bytes as the data of a set and a number.
    Raw((u8, u8), usize),
}

/// What is done with a debugger, and what comes of it.
#[derive(Clone, Copy)]
enum Act {
    /// The next packet has this id.
    Next(u32),
    /// A command is asked under this ticket.
    Gives(Asks, u64),
    /// A command is refused.
    Refuses(Asks, Refused),
    /// 64 commands are asked.
    Fills,
    /// These bytes leave.
    Leaves(&'static [u8]),
    /// The same, from where they lie.
    LeavesFromThere(&'static [u8]),
    /// So many bytes wait.
    Waits(usize),
    /// Whether a session begins.
    Attaches(bool),
    /// These bytes come, and all are taken.
    Comes(&'static [u8]),
    /// Whether there is something to handle.
    HasFront(bool),
    /// The connection is lost, with these tickets.
    Loses(&'static [Ticket]),
    /// The connection is lost, with so many tickets.
    LosesSoMany(usize),
    /// The last turn read nothing, and no thread is known.
    KnowsNothing,
}

/// The command that is asked; the suspend count is ThreadReference.SuspendCount.
fn command(rt: &impl Abort, alloc: Global, asks: Asks) -> Command {
    match asks {
        Asks::Plain(command) => plain(alloc, command),
        Asks::Count(thread) => with_one(
            rt,
            alloc,
            commands::SUSPEND_COUNT,
            Scalar::ObjectId(ObjectId(thread)),
        ),
        Asks::Class(length) => class_of(rt, alloc, length),
        Asks::Raw(command, length) => raw(rt, alloc, command, length),
    }
}

/// Whether this comes of it.
fn comes(rt: &impl Abort, alloc: Global, debugger: &mut Debugger, act: &Act) -> bool {
    match act {
        Act::Next(id) => {
            debugger.set_next_id(*id);
            true
        }
        Act::Gives(asks, ticket) => is_answered(rt, alloc, debugger, *asks, Ok(Ticket(*ticket))),
        Act::Refuses(asks, refused) => is_answered(rt, alloc, debugger, *asks, Err(*refused)),
        Act::Fills => fills(alloc, debugger),
        Act::Leaves(bytes) => leaves(debugger, bytes),
        Act::LeavesFromThere(bytes) => leaves_from_there(debugger, bytes),
        Act::Waits(count) => debugger.waiting() == *count,
        Act::Attaches(attaches) => debugger.attach() == *attaches,
        Act::Comes(bytes) => debugger.feed(bytes) == bytes.len(),
        Act::HasFront(has_front) => debugger.has_front() == *has_front,
        Act::Loses(tickets) => loses(debugger, tickets),
        Act::LosesSoMany(count) => debugger.lose().as_slice().len() == *count,
        Act::KnowsNothing => debugger.last().is_empty() && debugger.mirror().known().len() == 0,
    }
}

/// Whether asking this command is answered so.
fn is_answered(
    rt: &impl Abort,
    alloc: Global,
    debugger: &mut Debugger,
    asks: Asks,
    wanted: Result<Ticket, Refused>,
) -> bool {
    let command = command(rt, alloc, asks);
    debugger.ask(alloc, command) == wanted
}

/// Whether these tickets wait, the connection is lost with them, and none waits then.
fn loses(debugger: &mut Debugger, tickets: &[Ticket]) -> bool {
    let unanswered = tickets.len();
    let waits = unanswered == 0 || debugger.unanswered(unanswered - 1).is_some();
    waits && debugger.lose().as_slice() == tickets && debugger.unanswered(0).is_none()
}

/// Whether 64 commands are asked under the tickets from 1 on.
fn fills(alloc: Global, debugger: &mut Debugger) -> bool {
    for ticket in 1..65u64 {
        if debugger.ask(alloc, plain(alloc, commands::SUSPEND)) != Ok(Ticket(ticket)) {
            return false;
        }
    }
    true
}

/// Whether what waits to leave is these bytes; they are taken.
fn leaves(debugger: &mut Debugger, bytes: &[u8]) -> bool {
    let mut out = [0; 64];
    let count = debugger.take(&mut out);
    &out[..count] == bytes
}

/// The same, where they are read from where they lie.
fn leaves_from_there(debugger: &mut Debugger, bytes: &[u8]) -> bool {
    let (first, second) = debugger.waiting_slices();
    let lies = first == bytes && second.is_empty();
    let count = debugger.waiting();
    debugger.leave(count);
    lies && debugger.waiting() == 0
}

/// The place, from 0, of the first act of which something else comes; None where all is as it is to be. If a width is given, the session
/// is begun before, with ids of this width.
fn first_wrong(
    rt: &impl Abort,
    alloc: Global,
    debugger: &mut Debugger,
    width: Option<u8>,
    acts: &[Act],
) -> Option<usize> {
    if let Some(width) = width {
        begin(rt, alloc, debugger, width);
    }
    for (place, act) in acts.iter().enumerate() {
        if !comes(rt, alloc, debugger, act) {
            return Some(place);
        }
    }
    None
}

/// Of each act comes what it says, with a debugger that knows the widths of ids, which are all this, or that is closed.
fn goes_as_told(rt: &impl Abort, alloc: Global, name: &str, width: Option<u8>, acts: &[Act]) {
    let mut debugger = debugger(rt, alloc, 1);
    let found = first_wrong(rt, alloc, &mut debugger, width, acts);
    expect_same(rt, &(name, found), &(name, None));
}

static PACKETS: [Act; 8] = [
    Act::Next(2),
    Act::Gives(Asks::Plain(commands::SUSPEND), 1),
    Act::Gives(Asks::Count(1), 2),
    Act::Leaves(&[
        0, 0, 0, 11, 0, 0, 0, 2, 0, 1, 8, 0, 0, 0, 19, 0, 0, 0, 3, 0, 11, 12, 0, 0, 0, 0, 0, 0, 0,
        1,
    ]),
    Act::KnowsNothing,
    Act::Loses(&[Ticket(1), Ticket(2)]),
    Act::Attaches(true),
    Act::LeavesFromThere(&HANDSHAKE),
];

static IDS_WRAP_AND_SKIP_THOSE_THAT_WAIT: [Act; 8] = [
    Act::Next(4_294_967_295),
    Act::Gives(Asks::Plain(commands::SUSPEND), 1),
    Act::Gives(Asks::Plain(commands::SUSPEND), 2),
    Act::Gives(Asks::Plain(commands::SUSPEND), 3),
    Act::Leaves(&[
        0, 0, 0, 11, 255, 255, 255, 255, 0, 1, 8, 0, 0, 0, 11, 0, 0, 0, 0, 0, 1, 8, 0, 0, 0, 11, 0,
        0, 0, 1, 0, 1, 8,
    ]),
    Act::Next(4_294_967_295),
    Act::Gives(Asks::Plain(commands::SUSPEND), 4),
    Act::Leaves(&[0, 0, 0, 11, 0, 0, 0, 2, 0, 1, 8]),
];

static CLOSED_AND_UNREADY: [Act; 6] = [
    Act::Refuses(Asks::Plain(commands::SUSPEND), Refused::Closed),
    Act::Attaches(true),
    Act::Refuses(Asks::Plain((1, 99)), Refused::NotReady),
    Act::Waits(14),
    Act::Loses(&[]),
    Act::Refuses(Asks::Plain((1, 99)), Refused::Closed),
];

static FULL: [Act; 4] = [
    Act::Fills,
    Act::Refuses(Asks::Plain((1, 99)), Refused::Busy),
    Act::Waits(64 * 11),
    Act::LosesSoMany(64),
];

/// One command waits, and the one behind it is refused.
static ONE_WAITS: [Act; 4] = [
    Act::Gives(Asks::Plain(commands::SUSPEND), 1),
    Act::Refuses(Asks::Plain(commands::RESUME), Refused::Busy),
    Act::Waits(11),
    Act::LosesSoMany(1),
];

#[test]
fn as_many_commands_wait_as_the_limits_let(rt: HostRuntime) {
    let limits = Limits::new(2048, 2, 1, 1).expect(&rt, "limits in range");
    let mut debugger = debugger_within(&rt, rt.alloc(), limits);
    let found = first_wrong(&rt, rt.alloc(), &mut debugger, Some(8), &ONE_WAITS);
    expect_same(&rt, &found, &None);
}

static ONLY_SO_MANY_BYTES_WAIT: [Act; 5] = [
    Act::Refuses(Asks::Class(65_522), Refused::TooLong),
    Act::Waits(0),
    Act::Gives(Asks::Class(65_521), 1),
    Act::Waits(65_536),
    Act::Refuses(Asks::Plain(commands::SUSPEND), Refused::Busy),
];

static DATA_HAVE_TO_FIT_THE_COMMAND: [Act; 12] = [
    Act::Refuses(Asks::Plain((1, 99)), Refused::BadCommand),
    Act::Refuses(Asks::Plain(commands::COMPOSITE), Refused::BadCommand),
    Act::Refuses(Asks::Plain(commands::SUSPEND_COUNT), Refused::BadCommand),
    Act::Refuses(Asks::Count(256), Refused::BadCommand),
    Act::Refuses(Asks::Raw(commands::SUSPEND, 0), Refused::BadCommand),
    Act::Refuses(
        Asks::Raw(commands::SUSPEND_COUNT, 70_000),
        Refused::BadCommand,
    ),
    Act::Refuses(Asks::Plain((3, 3)), Refused::BadCommand),
    Act::Waits(0),
    Act::Refuses(Asks::Raw((3, 3), 65_526), Refused::TooLong),
    Act::Gives(Asks::Raw((3, 3), 2), 1),
    Act::Gives(Asks::Count(255), 2),
    Act::Leaves(&[
        0, 0, 0, 13, 0, 0, 0, 1, 0, 3, 3, 0, 0, 0, 0, 0, 12, 0, 0, 0, 2, 0, 11, 12, 255,
    ]),
];

static A_WHOLE_MESSAGE_IN_FRONT: [Act; 9] = [
    Act::HasFront(false),
    Act::Attaches(true),
    Act::HasFront(false),
    Act::Comes(b"JDWP-Handshak"),
    Act::HasFront(false),
    Act::Comes(b"e"),
    Act::HasFront(true),
    Act::Loses(&[]),
    Act::HasFront(false),
];

/// A length below 11 is a fault, and with 65,536 bytes that wait to leave the end is paused.
static A_FAULT_IN_FRONT: [Act; 5] = [
    Act::HasFront(false),
    Act::Comes(&[0, 0, 0, 10]),
    Act::HasFront(true),
    Act::Gives(Asks::Class(65_521), 1),
    Act::HasFront(false),
];

/// The number of each refusal.
static NUMBERS: [(Refused, u16); 6] = [
    (Refused::NotReady, 31),
    (Refused::Busy, 32),
    (Refused::Closed, 33),
    (Refused::TooLong, 34),
    (Refused::NoMemory, 35),
    (Refused::BadCommand, 36),
];

#[test]
fn refusals_have_their_numbers(rt: HostRuntime) {
    for (refused, number) in NUMBERS.iter() {
        expect_same(&rt, &refused.number(), number);
    }
    let text = format!(in rt.alloc(); "{}", Refused::BadCommand).expect(&rt, "memory");
    let said = "fault 36: a command that no target has, or data that do not read in its layout";
    expect_same(&rt, &text.as_str(), &said);
}

/// Each session: what it shows, the width of ids or none where the debugger is closed, and its acts.
fn sessions() -> [(&'static str, Option<u8>, &'static [Act]); 8] {
    [
        ("packets leave in the order asked", Some(8), &PACKETS),
        (
            "ids wrap and skip those that wait",
            Some(8),
            &IDS_WRAP_AND_SKIP_THOSE_THAT_WAIT,
        ),
        (
            "closed and unready ends ask nothing",
            None,
            &CLOSED_AND_UNREADY,
        ),
        ("only so many commands wait", Some(8), &FULL),
        ("only so many bytes wait", Some(8), &ONLY_SO_MANY_BYTES_WAIT),
        (
            "data have to fit the command",
            Some(1),
            &DATA_HAVE_TO_FIT_THE_COMMAND,
        ),
        ("a whole message in front", None, &A_WHOLE_MESSAGE_IN_FRONT),
        ("a fault in front", Some(8), &A_FAULT_IN_FRONT),
    ]
}

#[test]
fn each_session_goes_as_told(rt: HostRuntime) {
    for (name, width, acts) in sessions() {
        goes_as_told(&rt, rt.alloc(), name, width, acts);
    }
}
