//! What turns do with a target's bytes.
use crate::asserts::expect_same;
use crate::debuggers::boxed::debugger;
use jdwp_debugger::{Command, Debugger, DebuggerFault, Head, KnownThreads, Read, Ticket};
use jdwp_layout::{Datum, Scalar, numbers};
use jdwp_value::ObjectId;
use std::alloc::Global;
use std::process::Abort;
use test_parts::{bytes, commands};

pub(crate) const HELLO: &str = "4a4457502d48616e647368616b65";

/// The reply to IDSizes under id 1, ids 8 bytes wide.
pub(crate) const SIZES: &str =
    "0000001f 00000001 80 0000 00000008 00000008 00000008 00000008 00000008";

/// VM_START of thread 1, policy NONE.
pub(crate) const VM_START: &str =
    "0000001d 00000001 00 40 64 00 00000001 5a 00000000 0000000000000001";

/// What a turn tells.
#[derive(Clone, Copy, Debug, PartialEq, Eq)]
pub(crate) enum Tells {
    Nothing,
    Hello,
    Parked,
    /// The widths of ids, behind so many composites.
    Sizes(usize),
    /// The answer under this ticket.
    Answered(u64),
    Seen,
    /// A fault of this number.
    Fails(u16),
}

/// What a turn with this result tells.
fn outcome(told: &Result<Read, DebuggerFault>) -> Tells {
    match told {
        Ok(Read::Nothing) => Tells::Nothing,
        Ok(Read::Hello) => Tells::Hello,
        Ok(Read::Parked) => Tells::Parked,
        Ok(Read::Sizes(composites)) => Tells::Sizes(composites.len()),
        Ok(Read::Answered(ticket, _)) => Tells::Answered(ticket.0),
        Ok(Read::Seen(_)) => Tells::Seen,
        Err(fault) => Tells::Fails(fault.number()),
    }
}

/// A command.
#[derive(Clone, Copy)]
pub(crate) enum Wanted {
    /// Without data.
    Plain((u8, u8)),
    /// VirtualMachine.Exit with this status.
    Exit(i32),
    /// On a thread.
    OfThread((u8, u8), u64),
    /// EventRequest.Set of a kind, with the policy ALL and no modifier.
    Request(u8),
    /// EventRequest.Clear of a kind and an id.
    Clear(u8, i32),
    /// With these bytes as its data.
    Raw((u8, u8), &'static str),
}

/// The command that is wanted.
fn command(rt: &impl Abort, alloc: Global, wanted: Wanted) -> Command {
    match wanted {
        Wanted::Plain((set, number)) => Command::new(set, number, Vec::new(alloc)),
        Wanted::Exit(status) => with_one(rt, alloc, commands::EXIT, Scalar::Int(status)),
        Wanted::OfThread(command, thread) => {
            with_one(rt, alloc, command, Scalar::ObjectId(ObjectId(thread)))
        }
        Wanted::Request(kind) => request(rt, alloc, kind),
        Wanted::Clear(kind, id) => clear(rt, alloc, kind, id),
        Wanted::Raw((set, number), data) => Command::raw(
            set,
            number,
            bytes(alloc, data).expect(rt, "memory"),
        ),
    }
}

/// A command with one item as its data.
fn with_one(rt: &impl Abort, alloc: Global, (set, number): (u8, u8), scalar: Scalar) -> Command {
    let items = vec![in alloc; Datum::One(scalar)];
    Command::new(set, number, items.expect(rt, "memory"))
}

/// EventRequest.Set of a kind, with the policy ALL and no modifier.
fn request(rt: &impl Abort, alloc: Global, kind: u8) -> Command {
    let items = vec![in alloc;
        Datum::One(Scalar::Byte(kind)),
        Datum::One(Scalar::Byte(2)),
        Datum::Many(Vec::new(alloc)),
    ];
    Command::new(
        numbers::EVENT_REQUEST,
        numbers::SET_REQUEST,
        items.expect(rt, "memory"),
    )
}

/// EventRequest.Clear of a kind and an id.
fn clear(rt: &impl Abort, alloc: Global, kind: u8, id: i32) -> Command {
    let items = vec![in alloc; Datum::One(Scalar::Byte(kind)), Datum::One(Scalar::Int(id))];
    Command::new(
        numbers::EVENT_REQUEST,
        numbers::CLEAR_REQUEST,
        items.expect(rt, "memory"),
    )
}

/// What is done with a debugger, and what comes of it.
#[derive(Clone, Copy)]
pub(crate) enum Act {
    /// Whether a session begins.
    Attaches(bool),
    /// These bytes come, and a turn tells this; what it read are packets with these ids, or the handshake.
    Reads(&'static str, Tells, &'static [u32]),
    /// A command is asked under this ticket.
    Asks(Wanted, u64),
    /// The next id is to be this.
    NextId(u32),
    /// These bytes wait to leave; they are taken.
    Sends(&'static str),
    /// What the counts of threads are no less than; those above 0 are held.
    Holds(&'static [(u64, u64)]),
    /// The known threads with their counts, and whether they are held.
    Knows(&'static [(u64, u32, bool)]),
    /// The ids and kinds of the event requests.
    Requests(&'static [(i32, u8)]),
    /// Whether the session is open, and whether the widths of ids are known.
    Stands(bool, bool),
    /// The tickets that are unanswered.
    Waits(&'static [u64]),
    /// The connection is lost, and with it the answers to these tickets.
    Loses(&'static [u64]),
}

/// Whether this comes of it.
fn comes(rt: &impl Abort, alloc: Global, debugger: &mut Debugger, act: &Act) -> bool {
    match act {
        Act::Attaches(attaches) => debugger.attach() == *attaches,
        Act::Reads(input, told, ids) => reads(rt, alloc, debugger, input, *told, ids),
        Act::Asks(wanted, ticket) => is_asked(rt, alloc, debugger, *wanted, *ticket),
        Act::NextId(id) => {
            debugger.set_next_id(*id);
            true
        }
        Act::Sends(output) => sends(rt, alloc, debugger, output),
        Act::Holds(counts) => are_held(debugger, counts),
        Act::Knows(threads) => are_known(debugger.mirror().known(), threads),
        Act::Requests(requests) => are_requested(debugger, requests),
        Act::Stands(open, measured) => {
            debugger.is_open() == *open && debugger.sizes().is_some() == *measured
        }
        Act::Waits(tickets) => are_unanswered(debugger, tickets),
        Act::Loses(tickets) => are_tickets(debugger.lose().as_slice(), tickets),
    }
}

/// Whether a turn tells this once these bytes came, and has read packets with these ids, or the handshake.
fn reads(
    rt: &impl Abort,
    alloc: Global,
    debugger: &mut Debugger,
    input: &str,
    told: Tells,
    ids: &[u32],
) -> bool {
    debugger.feed(&bytes(alloc, input).expect(rt, "memory"));
    let found = turned(alloc, debugger);
    found == told && have_been_read(debugger.last(), told, ids)
}

/// What a turn tells.
fn turned(alloc: Global, debugger: &mut Debugger) -> Tells {
    outcome(&debugger.turn(alloc))
}

/// Whether the command is asked under this ticket.
fn is_asked(
    rt: &impl Abort,
    alloc: Global,
    debugger: &mut Debugger,
    wanted: Wanted,
    ticket: u64,
) -> bool {
    let command = command(rt, alloc, wanted);
    debugger.ask(alloc, command) == Ok(Ticket(ticket))
}

/// Whether a turn that tells this read the handshake, or packets with these ids.
fn have_been_read(heads: &[Head], told: Tells, ids: &[u32]) -> bool {
    if told == Tells::Hello {
        return heads.len() == 1 && matches!(heads[0], Head::Hello);
    }
    if heads.len() != ids.len() {
        return false;
    }
    for (head, id) in heads.iter().zip(ids) {
        match head {
            Head::Composite(header) | Head::Reply { header, .. } if header.id == *id => {}
            _ => return false,
        }
    }
    true
}

/// Whether these bytes wait to leave, at most 256; they are taken.
fn sends(rt: &impl Abort, alloc: Global, debugger: &mut Debugger, output: &str) -> bool {
    let wanted = bytes(alloc, output).expect(rt, "memory");
    let mut buffer = [0; 256];
    let count = debugger.take(&mut buffer);
    &buffer[..count] == wanted.as_slice()
}

/// Whether the counts of these threads are no less than this, and those above 0 are held.
fn are_held(debugger: &Debugger, counts: &[(u64, u64)]) -> bool {
    for (thread, least) in counts {
        let thread = ObjectId(*thread);
        if debugger.at_least(thread) != *least || debugger.is_held(thread) != (*least > 0) {
            return false;
        }
    }
    true
}

/// Whether these are the known threads with their counts, and whether they are held.
fn are_known(known: KnownThreads<'_>, threads: &[(u64, u32, bool)]) -> bool {
    if known.len() != threads.len() {
        return false;
    }
    for (one, (id, count, held)) in known.zip(threads) {
        if one.id.0 != *id || one.count != *count || one.held != *held {
            return false;
        }
    }
    true
}

/// Whether these are the ids and kinds of the event requests, each with the policy ALL.
fn are_requested(debugger: &Debugger, requests: &[(i32, u8)]) -> bool {
    let kept = debugger.mirror().requests();
    if kept.len() != requests.len() {
        return false;
    }
    for (request, (id, kind)) in kept.zip(requests) {
        if request.id() != *id || request.kind() != *kind || request.policy() != 2 {
            return false;
        }
    }
    true
}

/// Whether these tickets, and no more, are unanswered.
fn are_unanswered(debugger: &Debugger, tickets: &[u64]) -> bool {
    for (place, ticket) in tickets.iter().enumerate() {
        match debugger.unanswered(place) {
            Some((waiting, _)) if waiting.0 == *ticket => {}
            _ => return false,
        }
    }
    debugger.unanswered(tickets.len()).is_none()
}

/// Whether what was lost are these tickets.
fn are_tickets(lost: &[Ticket], tickets: &[u64]) -> bool {
    if lost.len() != tickets.len() {
        return false;
    }
    for (one, ticket) in lost.iter().zip(tickets) {
        if one.0 != *ticket {
            return false;
        }
    }
    true
}

/// The place, from 0, of the first of these acts of which something else comes; None where all is as it is to be.
fn first_wrong(
    rt: &impl Abort,
    alloc: Global,
    debugger: &mut Debugger,
    acts: &[Act],
) -> Option<usize> {
    for (place, act) in acts.iter().enumerate() {
        if !comes(rt, alloc, debugger, act) {
            return Some(place);
        }
    }
    None
}

/// Of each of these acts comes what it says, with a debugger whose first packet has this id.
fn goes_as_told(rt: &impl Abort, alloc: Global, name: &str, first_id: u32, acts: &[Act]) {
    let found = first_wrong(rt, alloc, &mut debugger(rt, alloc, first_id), acts);
    expect_same(rt, &(name, found), &(name, None));
}

/// Of each of these acts comes what it says.
pub(crate) fn goes_on_as_told(
    rt: &impl Abort,
    alloc: Global,
    debugger: &mut Debugger,
    acts: &[Act],
) {
    let found = first_wrong(rt, alloc, debugger, acts);
    expect_same(rt, &found, &None);
}

static HANDSHAKE_PUTS_ID_SIZES: [Act; 8] = [
    Act::Reads("", Tells::Nothing, &[]),
    Act::Attaches(true),
    Act::Attaches(false),
    Act::Reads("4a4457502d48616e647368616b", Tells::Nothing, &[]),
    Act::Reads("65", Tells::Hello, &[]),
    Act::Sends("4a4457502d48616e647368616b65 0000000b 00000001 00 01 07"),
    Act::Waits(&[]),
    Act::Reads("", Tells::Nothing, &[]),
];

/// VM_START with ids one byte wide comes before the widths are known.
static EVENTS_THAT_WAITED_ARE_READ_WITH_THE_WIDTHS: [Act; 7] = [
    Act::Attaches(true),
    Act::Reads(HELLO, Tells::Hello, &[]),
    Act::Reads(
        "00000016 00000009 00 40 64 02 00000001 5a 00000000 01",
        Tells::Parked,
        &[],
    ),
    Act::Knows(&[]),
    Act::Reads(
        "0000001f 00000001 80 0000 00000001 00000001 00000001 00000001 00000001",
        Tells::Sizes(1),
        &[9, 1],
    ),
    Act::Knows(&[(1, 1, true)]),
    Act::Stands(true, true),
];

/// VM_DEATH waits, too: the session ends as the widths become known, which stay until it is lost.
static A_DEATH_THAT_WAITED_ENDS_THE_SESSION: [Act; 9] = [
    Act::Attaches(true),
    Act::Reads(HELLO, Tells::Hello, &[]),
    Act::Reads(VM_START, Tells::Parked, &[]),
    Act::Reads(
        "00000015 00000002 00 40 64 00 00000001 63 00000000",
        Tells::Parked,
        &[],
    ),
    Act::Reads(SIZES, Tells::Sizes(2), &[1, 2, 1]),
    Act::Knows(&[]),
    Act::Stands(false, true),
    Act::Loses(&[]),
    Act::Stands(false, false),
];

static EVENTS_AND_REPLIES_CHANGE_COUNTS: [Act; 25] = [
    Act::Attaches(true),
    Act::Reads(HELLO, Tells::Hello, &[]),
    Act::Reads(SIZES, Tells::Sizes(0), &[1]),
    Act::Reads(
        "0000001d 00000001 00 40 64 01 00000001 06 00000000 0000000000000001",
        Tells::Seen,
        &[1],
    ),
    Act::Reads(
        "0000001d 00000002 00 40 64 00 00000001 06 00000000 0000000000000002",
        Tells::Seen,
        &[2],
    ),
    Act::Knows(&[(1, 1, true), (2, 0, false)]),
    Act::Reads(
        "0000001d 00000003 00 40 64 02 00000001 06 00000000 0000000000000002",
        Tells::Seen,
        &[3],
    ),
    Act::Knows(&[(1, 2, true), (2, 1, true)]),
    Act::Reads(
        "0000001a 00000004 00 40 64 02 00000001 09 00000000 00000001 41",
        Tells::Seen,
        &[4],
    ),
    Act::Knows(&[(1, 3, true), (2, 2, true)]),
    Act::Asks(Wanted::Plain(commands::RESUME), 1),
    Act::Knows(&[(1, 3, true), (2, 2, true)]),
    Act::Reads("0000000b 00000002 80 0000", Tells::Answered(1), &[2]),
    Act::Knows(&[(1, 2, true), (2, 1, true)]),
    Act::Asks(Wanted::Plain(commands::SUSPEND), 2),
    Act::Reads("0000000b 00000003 80 0000", Tells::Answered(2), &[3]),
    Act::Knows(&[(1, 3, true), (2, 2, true)]),
    Act::Asks(Wanted::OfThread(commands::RESUME_THREAD, 2), 3),
    Act::Asks(Wanted::OfThread(commands::RESUME_THREAD, 2), 4),
    Act::Reads("0000000b 00000005 80 0000", Tells::Answered(4), &[5]),
    Act::Reads("0000000b 00000004 80 0000", Tells::Answered(3), &[4]),
    Act::Knows(&[(1, 3, true), (2, 0, false)]),
    Act::Asks(Wanted::OfThread(commands::SUSPEND_THREAD, 2), 5),
    Act::Reads("0000000b 00000006 80 0000", Tells::Answered(5), &[6]),
    Act::Knows(&[(1, 3, true), (2, 1, true)]),
];

static REPLIES_TEACH_AND_FORGET_THREADS: [Act; 21] = [
    Act::Attaches(true),
    Act::Reads(HELLO, Tells::Hello, &[]),
    Act::Reads(VM_START, Tells::Parked, &[]),
    Act::Reads(SIZES, Tells::Sizes(1), &[1, 1]),
    Act::Knows(&[(1, 0, false)]),
    Act::Asks(Wanted::OfThread(commands::SUSPEND_COUNT, 3), 1),
    Act::Reads(
        "0000000f 00000002 80 0000 00000004",
        Tells::Answered(1),
        &[2],
    ),
    Act::Knows(&[(1, 0, false), (3, 4, true)]),
    Act::Asks(Wanted::OfThread(commands::THREAD_NAME, 1), 2),
    Act::Reads("0000000b 00000003 80 0071", Tells::Answered(2), &[3]),
    Act::Knows(&[(1, 0, false), (3, 4, true)]),
    Act::Asks(Wanted::OfThread(commands::THREAD_NAME, 1), 3),
    Act::Reads("0000000b 00000004 80 000a", Tells::Answered(3), &[4]),
    Act::Knows(&[(3, 4, true)]),
    Act::Asks(Wanted::OfThread(commands::SUSPEND_COUNT, 2), 4),
    Act::Reads(
        "0000000f 00000005 80 0000 00000000",
        Tells::Answered(4),
        &[5],
    ),
    Act::Asks(Wanted::Plain(commands::ALL_THREADS), 5),
    Act::Reads(
        "00000017 00000006 80 0000 00000001 0000000000000002",
        Tells::Answered(5),
        &[6],
    ),
    Act::Knows(&[(2, 0, false)]),
    Act::Reads(
        "0000001d 00000002 00 40 64 00 00000001 07 00000000 0000000000000002",
        Tells::Seen,
        &[2],
    ),
    Act::Knows(&[]),
];

static REQUESTS_ARE_SET_AND_CLEARED: [Act; 20] = [
    Act::Attaches(true),
    Act::Reads(HELLO, Tells::Hello, &[]),
    Act::Reads(VM_START, Tells::Parked, &[]),
    Act::Reads(SIZES, Tells::Sizes(1), &[1, 1]),
    Act::Asks(Wanted::Request(2), 1),
    Act::Asks(Wanted::Request(6), 2),
    Act::Asks(Wanted::Request(7), 3),
    Act::Requests(&[]),
    Act::Reads(
        "0000000f 00000002 80 0000 00000001",
        Tells::Answered(1),
        &[2],
    ),
    Act::Reads(
        "0000000f 00000003 80 0000 00000002",
        Tells::Answered(2),
        &[3],
    ),
    Act::Requests(&[(1, 2), (2, 6)]),
    Act::Reads(
        "0000000f 00000004 80 0000 00000002",
        Tells::Answered(3),
        &[4],
    ),
    Act::Requests(&[(1, 2), (2, 7)]),
    Act::Asks(Wanted::Clear(7, 2), 4),
    Act::Reads("0000000b 00000005 80 0000", Tells::Answered(4), &[5]),
    Act::Requests(&[(1, 2)]),
    Act::Asks(Wanted::Plain(commands::CLEAR_ALL_BREAKPOINTS), 5),
    Act::Reads("0000000b 00000006 80 0000", Tells::Answered(5), &[6]),
    Act::Requests(&[]),
    Act::Knows(&[(1, 0, false)]),
];

static ENDS_EMPTY_THE_MIRROR: [Act; 25] = [
    Act::Attaches(true),
    Act::Reads(HELLO, Tells::Hello, &[]),
    Act::Reads(VM_START, Tells::Parked, &[]),
    Act::Reads(SIZES, Tells::Sizes(1), &[1, 1]),
    Act::Asks(Wanted::Exit(3), 1),
    Act::Reads("0000000b 00000002 80 0000", Tells::Answered(1), &[2]),
    Act::Knows(&[]),
    Act::Stands(true, true),
    Act::Reads(
        "00000015 00000002 00 40 64 00 00000001 63 00000000",
        Tells::Seen,
        &[2],
    ),
    Act::Stands(false, false),
    Act::Attaches(true),
    Act::NextId(1),
    Act::Reads(HELLO, Tells::Hello, &[]),
    Act::Reads(VM_START, Tells::Parked, &[]),
    Act::Reads(SIZES, Tells::Sizes(1), &[1, 1]),
    Act::Asks(Wanted::Plain(commands::DISPOSE), 2),
    Act::Asks(Wanted::Plain(commands::SUSPEND), 3),
    Act::Knows(&[(1, 0, false)]),
    Act::Reads("0000000b 00000002 80 0000", Tells::Answered(2), &[2]),
    Act::Knows(&[]),
    Act::Stands(false, false),
    Act::Waits(&[3]),
    Act::Attaches(false),
    Act::Loses(&[3]),
    Act::Waits(&[]),
];

/// An event that the target reported before it handled a Suspend is read before the reply to it.
static AN_EVENT_CROSSES_A_SUSPEND: [Act; 11] = [
    Act::Attaches(true),
    Act::Reads(HELLO, Tells::Hello, &[]),
    Act::Reads(VM_START, Tells::Parked, &[]),
    Act::Reads(SIZES, Tells::Sizes(1), &[1, 1]),
    Act::Asks(Wanted::OfThread(commands::SUSPEND_COUNT, 2), 1),
    Act::Reads(
        "0000000f 00000002 80 0000 00000000",
        Tells::Answered(1),
        &[2],
    ),
    Act::Asks(Wanted::Plain(commands::SUSPEND), 2),
    Act::Reads(
        "00000036 00000002 00 40 64 01 00000001 02 00000001 0000000000000001
             01 000000000000000a 0000000000000014 0000000000000003",
        Tells::Seen,
        &[2],
    ),
    Act::Knows(&[(1, 1, true), (2, 0, false)]),
    Act::Reads("0000000b 00000003 80 0000", Tells::Answered(2), &[3]),
    Act::Knows(&[(1, 2, true), (2, 1, false)]),
];

/// A thread whose death is reported is suspended by the report; once it is resumed it ends.
static A_DEATH_HOLDS_ITS_THREAD: [Act; 11] = [
    Act::Attaches(true),
    Act::Reads(HELLO, Tells::Hello, &[]),
    Act::Reads(SIZES, Tells::Sizes(0), &[1]),
    Act::Reads(
        "0000001d 00000002 00 40 64 01 00000001 07 00000001 0000000000000002",
        Tells::Seen,
        &[2],
    ),
    Act::Knows(&[(2, 1, true)]),
    Act::Asks(Wanted::OfThread(commands::RESUME_THREAD, 2), 1),
    Act::Reads("0000000b 00000002 80 0000", Tells::Answered(1), &[2]),
    Act::Knows(&[(2, 0, false)]),
    Act::Asks(Wanted::OfThread(commands::SUSPEND_COUNT, 2), 2),
    Act::Reads("0000000b 00000003 80 000a", Tells::Answered(2), &[3]),
    Act::Knows(&[]),
];

/// Ids go on modulo 2^32 and skip those that wait; replies in any order reach their tickets.
static REPLIES_REACH_THEIR_TICKETS: [Act; 17] = [
    Act::Attaches(true),
    Act::Reads(HELLO, Tells::Hello, &[]),
    Act::Sends("4a4457502d48616e647368616b65 0000000b fffffffe 00 01 07"),
    Act::Reads(
        "0000001f fffffffe 80 0000 00000008 00000008 00000008 00000008 00000008",
        Tells::Sizes(0),
        &[4294967294],
    ),
    Act::Asks(Wanted::Plain(commands::SUSPEND), 1),
    Act::Asks(Wanted::Plain(commands::RESUME), 2),
    Act::Asks(Wanted::Plain(commands::SUSPEND), 3),
    Act::NextId(4294967295),
    Act::Asks(Wanted::Plain(commands::RESUME), 4),
    Act::Sends(
        "0000000b ffffffff 00 01 08 0000000b 00000000 00 01 09
             0000000b 00000001 00 01 08 0000000b 00000002 00 01 09",
    ),
    Act::Waits(&[1, 2, 3, 4]),
    Act::Reads("0000000b 00000001 80 0000", Tells::Answered(3), &[1]),
    Act::Reads(
        "0000000b ffffffff 80 0000",
        Tells::Answered(1),
        &[4294967295],
    ),
    Act::Reads("0000000b 00000002 80 0071", Tells::Answered(4), &[2]),
    Act::Waits(&[2]),
    Act::Reads("0000000b 00000000 80 0000", Tells::Answered(2), &[0]),
    Act::Waits(&[]),
];

/// What is refused before the widths of ids are known.
static FAULTS_BEFORE_THE_WIDTHS_ARE_KNOWN: [Act; 27] = [
    Act::Attaches(true),
    Act::Reads("4a4457502d48616e647368616b45", Tells::Fails(41), &[]),
    Act::Stands(false, false),
    Act::Sends(HELLO),
    Act::Attaches(true),
    Act::Reads(HELLO, Tells::Hello, &[]),
    Act::Reads("0000000b 00000001 80 0071", Tells::Fails(43), &[]),
    Act::Loses(&[]),
    Act::Attaches(true),
    Act::NextId(1),
    Act::Reads(HELLO, Tells::Hello, &[]),
    Act::Reads(
        "0000001f 00000001 80 0000 00000009 00000008 00000008 00000008 00000008",
        Tells::Fails(43),
        &[],
    ),
    Act::Attaches(true),
    Act::Reads(HELLO, Tells::Hello, &[]),
    Act::Reads("0000000b 00000009 00 40 64", Tells::Parked, &[]),
    Act::Reads(VM_START, Tells::Parked, &[]),
    Act::Reads(VM_START, Tells::Parked, &[]),
    Act::Reads(VM_START, Tells::Parked, &[]),
    Act::Reads(VM_START, Tells::Fails(44), &[]),
    Act::Stands(false, false),
    Act::Attaches(true),
    Act::NextId(1),
    Act::Reads(HELLO, Tells::Hello, &[]),
    Act::Reads(VM_START, Tells::Parked, &[]),
    Act::Reads("0000000b 00000009 00 40 64", Tells::Parked, &[]),
    Act::Reads("", Tells::Nothing, &[]),
    Act::Stands(true, false),
];

/// What a target sends once the widths are known, and the number of the fault that it is.
static FAULTY: [(&str, u16); 12] = [
    ("0000000b 00000009 80 0000", 42),
    ("0000000f 00000002 80 0000 ffffffff", 43),
    ("0000000b 00000002 80 0000", 43),
    ("0000000c 00000002 80 000a 00", 43),
    ("0000000b 00000002 00 40 64", 45),
    ("00000010 00000002 00 40 64 00 00000000", 45),
    (
        "0000001d 00000002 00 40 64 03 00000001 06 00000000 0000000000000002",
        45,
    ),
    (
        "0000001d 00000002 00 40 64 00 00000001 06 00000000 0000000000000001",
        45,
    ),
    (
        "0000002a 00000002 00 40 64 00 00000002 06 00000000 0000000000000002
             06 00000000 0000000000000003",
        45,
    ),
    ("00000015 00000002 00 40 64 02 00000001 63 00000000", 45),
    ("0000000b 00000002 00 01 08", 45),
    ("0000000b 00000002 01 0000", 41),
];

/// The session that comes to these bytes ends with this fault; the ticket waits for the loss.
fn fails_with(rt: &impl Abort, alloc: Global, input: &'static str, number: u16) {
    let acts = [
        Act::Attaches(true),
        Act::Reads(HELLO, Tells::Hello, &[]),
        Act::Reads(SIZES, Tells::Sizes(0), &[1]),
        Act::Reads(
            "0000001d 00000001 00 40 64 02 00000001 06 00000000 0000000000000001",
            Tells::Seen,
            &[1],
        ),
        Act::Asks(Wanted::OfThread(commands::SUSPEND_COUNT, 1), 1),
        Act::Reads(input, Tells::Fails(number), &[]),
        Act::Knows(&[]),
        Act::Stands(false, false),
        Act::Reads("", Tells::Nothing, &[]),
        Act::Waits(&[1]),
        Act::Loses(&[1]),
    ];
    goes_as_told(rt, alloc, "made", 1, &acts);
}

#[test]
fn faults_once_the_widths_are_known(rt: HostRuntime) {
    for &(input, number) in FAULTY.iter() {
        fails_with(&rt, rt.alloc(), input, number);
    }
}

/// How many turns tell something as these bytes come in two pieces, of which the first has so many. At most 16 turns are made behind each.
fn turns_in_pieces(alloc: Global, debugger: &mut Debugger, bytes: &[u8], first: usize) -> u32 {
    let first = first.min(bytes.len());
    let mut count = 0u32;
    for piece in [&bytes[..first], &bytes[first..]] {
        debugger.feed(piece);
        for _ in 0..16u32 {
            if turned(alloc, debugger) == Tells::Nothing {
                break;
            }
            count = count.saturating_add(1);
        }
    }
    count
}

/// How many turns tell something as the bytes of these digits come in two pieces.
fn turns(rt: &impl Abort, alloc: Global, debugger: &mut Debugger, hex: &str, first: usize) -> u32 {
    let bytes = bytes(alloc, hex).expect(rt, "memory");
    turns_in_pieces(alloc, debugger, &bytes, first)
}

/// The handshake, VM_START and the reply to IDSizes.
const OPENING: &str = "4a4457502d48616e647368616b65
    0000001d 00000001 00 40 64 00 00000001 5a 00000000 0000000000000001
    0000001f 00000001 80 0000 00000008 00000008 00000008 00000008 00000008";

/// The reply to Suspend under id 2, and to SuspendCount under id 3.
const REPLIES: &str = "0000000b 00000002 80 0000 0000000f 00000003 80 0000 00000001";

/// Whether a session goes as it is to go, where what comes is cut behind so many bytes.
fn goes_in_pieces(rt: &impl Abort, alloc: Global, debugger: &mut Debugger, first: usize) -> bool {
    debugger.attach();
    if turns(rt, alloc, debugger, OPENING, first) != 3 {
        return false;
    }
    let asks = is_asked(rt, alloc, debugger, Wanted::Plain(commands::SUSPEND), 1)
        && is_asked(
            rt,
            alloc,
            debugger,
            Wanted::OfThread(commands::SUSPEND_COUNT, 1),
            2,
        );
    let answered = turns(rt, alloc, debugger, REPLIES, first);
    asks && answered == 2 && are_known(debugger.mirror().known(), &[(1, 1, true)])
}

/// The same of a new debugger.
fn goes_in_pieces_from_new(rt: &impl Abort, alloc: Global, first: usize) -> bool {
    let mut debugger = debugger(rt, alloc, 1);
    goes_in_pieces(rt, alloc, &mut debugger, first)
}

#[test]
fn a_session_cut_anywhere(rt: HostRuntime) {
    for first in 0..75usize {
        let goes = goes_in_pieces_from_new(&rt, rt.alloc(), first);
        expect_same(&rt, &goes, &true);
    }
}

/// Each session: what it shows, the id of the debugger's first packet, and its acts.
fn sessions() -> [(&'static str, u32, &'static [Act]); 11] {
    [
        ("handshake puts id sizes", 1, &HANDSHAKE_PUTS_ID_SIZES),
        (
            "events that waited are read with the widths",
            1,
            &EVENTS_THAT_WAITED_ARE_READ_WITH_THE_WIDTHS,
        ),
        (
            "a death that waited ends the session",
            1,
            &A_DEATH_THAT_WAITED_ENDS_THE_SESSION,
        ),
        (
            "events and replies change counts",
            1,
            &EVENTS_AND_REPLIES_CHANGE_COUNTS,
        ),
        (
            "replies teach and forget threads",
            1,
            &REPLIES_TEACH_AND_FORGET_THREADS,
        ),
        (
            "requests are set and cleared",
            1,
            &REQUESTS_ARE_SET_AND_CLEARED,
        ),
        ("ends empty the mirror", 1, &ENDS_EMPTY_THE_MIRROR),
        ("an event crosses a suspend", 1, &AN_EVENT_CROSSES_A_SUSPEND),
        ("a death holds its thread", 1, &A_DEATH_HOLDS_ITS_THREAD),
        (
            "replies reach their tickets",
            4294967294,
            &REPLIES_REACH_THEIR_TICKETS,
        ),
        (
            "faults before the widths are known",
            1,
            &FAULTS_BEFORE_THE_WIDTHS_ARE_KNOWN,
        ),
    ]
}

#[test]
fn each_session_goes_as_told(rt: HostRuntime) {
    for (name, first_id, acts) in sessions() {
        goes_as_told(&rt, rt.alloc(), name, first_id, acts);
    }
}
