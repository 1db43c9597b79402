//! What a debugger answers to a target that keeps no rule, and how it stands then.
use crate::asserts::{expect_same, expect_that_for};
use crate::hostile::debuggers::debugger;
use jdwp_debugger::{Command, Debugger, DebuggerFault, Read, Ticket};
use jdwp_layout::{Answer, Datum, Scalar, numbers};
use jdwp_value::ObjectId;
use jdwp_wire::FrameFault;
use std::alloc::Global;
use std::process::Abort;
use test_parts::bytes;

/// The reply to IDSizes, ids 8 bytes wide.
const SIZES: &str = "0000001f 00000001 80 0000 00000008 00000008 00000008 00000008 00000008";

/// VM_START of thread 1 with the policy NONE, with ALL and with none that there is.
const START: &str = "0000001d 00000001 00 40 64 00 00000001 5a 00000000 0000000000000001";

const START_ALL: &str = "0000001d 00000001 00 40 64 02 00000001 5a 00000000 0000000000000001";

const START_BAD: &str = "0000001d 00000001 00 40 64 03 00000001 5a 00000000 0000000000000001";

/// What a turn tells that reads something.
#[derive(Clone, Copy)]
enum Tells {
    Parked,
    Seen,
}

/// What the target sends in a session.
#[derive(Clone, Copy)]
struct Row {
    /// Packets that are read, and what each tells.
    read: &'static [(&'static str, Tells)],
    /// The packet that is refused, and the fault.
    refused: &'static str,
    fault: DebuggerFault,
}

/// Before the widths of ids are known.
static EARLY: [Row; 3] = [
    Row {
        read: &[],
        refused: "0000000c 00000001 80 0071 00",
        fault: DebuggerFault::BadReply,
    },
    Row {
        read: &[],
        refused: "0000001f 00000001 80 0000 00000008 00000008 00000009 00000008 00000008",
        fault: DebuggerFault::BadReply,
    },
    Row {
        read: &[
            (START, Tells::Parked),
            (START, Tells::Parked),
            (START, Tells::Parked),
            (START, Tells::Parked),
        ],
        refused: START,
        fault: DebuggerFault::TooManyParked,
    },
];

/// Behind them, where SuspendCount of thread 1, Suspend and Resume are asked, under the ids 2, 3 and 4.
static LATE: [Row; 7] = [
    Row {
        read: &[],
        refused: "0000000b 00000009 80 0000",
        fault: DebuggerFault::UnknownReply,
    },
    Row {
        read: &[],
        refused: "00000010 00000002 00 40 64 00 00000000",
        fault: DebuggerFault::BadEvent,
    },
    Row {
        read: &[],
        refused: START_BAD,
        fault: DebuggerFault::BadEvent,
    },
    Row {
        read: &[(START_ALL, Tells::Seen)],
        refused: START_ALL,
        fault: DebuggerFault::BadEvent,
    },
    Row {
        read: &[],
        refused: "0000000b 00000002 00 01 08",
        fault: DebuggerFault::BadEvent,
    },
    Row {
        read: &[],
        refused: "0000000f 00000002 80 0000 ffffffff",
        fault: DebuggerFault::BadReply,
    },
    Row {
        read: &[],
        refused: "0000000b 00000002 01",
        fault: DebuggerFault::Frame(FrameFault::BadFlags),
    },
];

/// Whether a turn reads these bytes, and tells this.
fn reads(
    rt: &impl Abort,
    alloc: Global,
    debugger: &mut Debugger,
    input: &str,
    told: Tells,
) -> bool {
    debugger.feed(&bytes(alloc, input).expect(rt, "memory"));
    match debugger.turn(alloc) {
        Ok(Read::Parked) => matches!(told, Tells::Parked),
        Ok(Read::Seen(_)) => matches!(told, Tells::Seen),
        _ => false,
    }
}

/// Begins a session, up to the target's handshake.
fn greets(alloc: Global, debugger: &mut Debugger) -> bool {
    debugger.set_next_id(1);
    debugger.attach()
        && debugger.feed(b"JDWP-Handshake") == 14
        && matches!(debugger.turn(alloc), Ok(Read::Hello))
}

/// Reads the widths of ids, and asks the three commands, the first of them under this ticket.
fn measures(rt: &impl Abort, alloc: Global, debugger: &mut Debugger, first: u64) -> bool {
    debugger.feed(&bytes(alloc, SIZES).expect(rt, "memory"));
    let is_measured = matches!(debugger.turn(alloc), Ok(Read::Sizes(_)));
    let thread = vec![in alloc; Datum::One(Scalar::ObjectId(ObjectId(1)))].expect(rt, "memory");
    let count = Command::new(numbers::THREAD_REFERENCE, numbers::SUSPEND_COUNT, thread);
    let ticket = debugger
        .ask(alloc, count)
        .expect(rt, "SuspendCount is asked");
    let suspend = Command::new(numbers::VIRTUAL_MACHINE, numbers::SUSPEND, Vec::new(alloc));
    debugger.ask(alloc, suspend).expect(rt, "Suspend is asked");
    let resume = Command::new(numbers::VIRTUAL_MACHINE, numbers::RESUME, Vec::new(alloc));
    debugger.ask(alloc, resume).expect(rt, "Resume is asked");
    is_measured && ticket == Ticket(first)
}

/// Whether the session is closed, the mirror empty, and no byte taken; the tickets are lost in the order asked.
fn is_left(debugger: &mut Debugger, lost: &[Ticket]) -> bool {
    let is = !debugger.is_open()
        && debugger.mirror().known().len() == 0
        && debugger.mirror().requests().len() == 0
        && debugger.sizes().is_none()
        && debugger.room() == 0
        && debugger.feed(&[0]) == 0
        && !debugger.has_front();
    is && debugger.lose().as_slice() == lost && debugger.waiting() == 0
}

/// Whether a packet is refused with this fault, and the session left so.
fn refuses(
    rt: &impl Abort,
    alloc: Global,
    debugger: &mut Debugger,
    row: &Row,
    lost: &[Ticket],
) -> bool {
    debugger.feed(&bytes(alloc, row.refused).expect(rt, "memory"));
    let is_refused = debugger.turn(alloc).err() == Some(row.fault);
    is_refused && debugger.last().is_empty() && is_left(debugger, lost)
}

/// Whether what is read tells what the row says, and then a packet is refused.
fn goes(
    rt: &impl Abort,
    alloc: Global,
    debugger: &mut Debugger,
    row: &Row,
    lost: &[Ticket],
) -> bool {
    for (input, told) in row.read.iter() {
        if !reads(rt, alloc, debugger, input, *told) {
            return false;
        }
    }
    refuses(rt, alloc, debugger, row, lost)
}

/// The same in a session in which the widths of ids are not known.
fn goes_early(rt: &impl Abort, alloc: Global, debugger: &mut Debugger, row: &Row) -> bool {
    greets(alloc, debugger) && goes(rt, alloc, debugger, row, &[])
}

/// The same in one in which they are. Its commands have the tickets from this one on.
fn goes_late(
    rt: &impl Abort,
    alloc: Global,
    debugger: &mut Debugger,
    row: &Row,
    first: u64,
) -> bool {
    let tickets = [
        Ticket(first),
        Ticket(first.saturating_add(1)),
        Ticket(first.saturating_add(2)),
    ];
    greets(alloc, debugger)
        && measures(rt, alloc, debugger, first)
        && goes(rt, alloc, debugger, row, &tickets)
}

/// Each row, in sessions of one debugger.
fn all_go(rt: &impl Abort, alloc: Global) {
    let mut debugger = debugger(rt, alloc);
    for row in EARLY.iter() {
        let is = goes_early(rt, alloc, &mut debugger, row);
        expect_that_for(rt, is, row.refused);
    }
    let mut first = 1u64;
    for row in LATE.iter() {
        let is = goes_late(rt, alloc, &mut debugger, row, first);
        expect_that_for(rt, is, row.refused);
        first = first.saturating_add(3);
    }
}

#[test]
fn what_no_target_may_send(rt: HostRuntime) {
    all_go(&rt, rt.alloc());
}

/// The number of each fault, and that of a fault of the bytes.
#[test]
fn faults_have_their_numbers(rt: HostRuntime) {
    let rows = [
        (DebuggerFault::Frame(FrameFault::BadFlags), 41),
        (DebuggerFault::UnknownReply, 42),
        (DebuggerFault::BadReply, 43),
        (DebuggerFault::TooManyParked, 44),
        (DebuggerFault::BadEvent, 45),
    ];
    for (fault, number) in rows {
        expect_same(&rt, &fault.number(), &number);
    }
    let text = FrameFault::BadFlags.number();
    expect_same(&rt, &text, &3);
}

/// How many bytes came, and how many more are taken of two.
static ROOMS: [(usize, usize); 4] = [(65_534, 2), (65_535, 1), (65_536, 0), (65_537, 0)];

/// How many of two bytes a new session takes behind so many.
fn taken_behind(debugger: &mut Debugger, count: usize) -> usize {
    debugger.lose();
    debugger.attach();
    let block = [0; 4096];
    let mut left = count;
    for _ in 0..17u32 {
        let some = left.min(4096);
        left = left.saturating_sub(debugger.feed(&block[..some]));
    }
    debugger.feed(&[0, 0])
}

/// The same of each row, in sessions of one debugger.
fn rooms_are_so(rt: &impl Abort, alloc: Global) {
    let mut debugger = debugger(rt, alloc);
    for &(count, want) in ROOMS.iter() {
        let taken = taken_behind(&mut debugger, count);
        expect_same(rt, &(count, taken), &(count, want));
    }
}

/// The inbox has room for 65,536 bytes.
#[test]
fn as_many_bytes_as_fit(rt: HostRuntime) {
    rooms_are_so(&rt, rt.alloc());
}

/// A reply under the id 2 that lists so many threads, from id 1 on: a header and a count, and 8 bytes for each.
fn listing(rt: &impl Abort, alloc: Global, count: u32) -> Vec<u8> {
    let length = count.saturating_mul(8).saturating_add(15);
    let mut packet = Vec::from_slice(alloc, &length.to_be_bytes()).expect(rt, "memory");
    let head = [0, 0, 0, 2, 0x80, 0, 0];
    packet.extend_from_slice(&head).expect(rt, "memory");
    packet
        .extend_from_slice(&count.to_be_bytes())
        .expect(rt, "memory");
    for before in 0..u64::from(count) {
        let id = before.saturating_add(1).to_be_bytes();
        packet.extend_from_slice(&id).expect(rt, "memory");
    }
    packet
}

/// Whether this is a list of so many threads, from id 1 on.
fn are_listed(items: &[Datum], count: u32) -> bool {
    let [Datum::Many(entries)] = items else {
        return false;
    };
    let mut next = 0u64;
    for entry in entries {
        next = next.saturating_add(1);
        if !matches!(entry.as_slice(), [Scalar::ObjectId(id)] if id.0 == next) {
            return false;
        }
    }
    next == u64::from(count)
}

/// Whether the answer in front is this list, under this ticket.
fn is_answered(alloc: Global, debugger: &mut Debugger, ticket: Ticket, count: u32) -> bool {
    match debugger.turn(alloc) {
        Ok(Read::Answered(told, Answer::Data(data))) => {
            told == ticket && are_listed(data.items(), count)
        }
        _ => false,
    }
}

/// Whether AllThreads, under this ticket, is answered with so many threads in a session in which thread 1 is known, and is known
/// behind it only where it is listed.
fn lists(rt: &impl Abort, alloc: Global, debugger: &mut Debugger, ticket: u64, count: u32) -> bool {
    let begun = greets(alloc, debugger);
    debugger.feed(&bytes(alloc, SIZES).expect(rt, "memory"));
    let is_measured = matches!(debugger.turn(alloc), Ok(Read::Sizes(_)));
    let is_seen = reads(rt, alloc, debugger, START_ALL, Tells::Seen);
    let all = Command::new(
        numbers::VIRTUAL_MACHINE,
        numbers::ALL_THREADS,
        Vec::new(alloc),
    );
    let is_asked = debugger.ask(alloc, all) == Ok(Ticket(ticket));
    let reply = listing(rt, alloc, count);
    let is_fed = debugger.feed(&reply) == reply.len();
    let is_answered = is_answered(alloc, debugger, Ticket(ticket), count);
    let known = if count == 0 { None } else { Some(1) };
    let is_kept = debugger.mirror().count(ObjectId(1)) == known;
    debugger.lose();
    begun && is_measured && is_seen && is_asked && is_fed && is_answered && is_kept
}

/// The same of lists of each length, in sessions of one debugger: 8,190 threads fill the longest packet.
#[test]
fn lists_of_very_many_threads(rt: HostRuntime) {
    let mut debugger = debugger(&rt, rt.alloc());
    let mut ticket = 0u64;
    for count in [0u32, 64, 65, 1_024, 1_025, 8_190] {
        ticket = ticket.saturating_add(1);
        let is = lists(&rt, rt.alloc(), &mut debugger, ticket, count);
        expect_same(&rt, &(count, is), &(count, true));
    }
}
