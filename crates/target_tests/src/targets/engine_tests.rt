//! How `serve` runs a target, call by call of its reader and writer, and round by round.
ghost use Rattle.std.specs.Prelude.{◌≤◌};

use crate::asserts::{expect_same, expect_same_for, expect_that};
use crate::targets::serving::{
    ANSWERS, ANSWERS_SUSPENDED, AfterServing, Event, Plan, ROUNDS, SESSION, UNDISTURBED, Writer,
    reading, serve_on, served_on, writing,
};
use crate::targets::sessions::{Target, target};
use jdwp_end::Ended;
use std::alloc::Global;
use std::io::{BufWriter, Write};
use std::process::Abort;
use test_parts::MACHINE_A;

/// A first session of machine A, and what is to come of it.
#[derive(Clone, Copy)]
struct Serving {
    /// Whether every thread starts suspended.
    start_all: bool,
    /// What comes, and how many bytes of it.
    input: &'static [u8],
    comes: usize,
    /// How many bytes a call of the reader moves at most, and one of the writer.
    most: (usize, usize),
    read: Plan,
    write: Plan,
    flush: Plan,
    /// Whether the writer keeps what it is given until it is flushed.
    keeps: bool,
    rounds: u64,
    ended: Ended,
    /// How many bytes are written of those that are answered to the session, and which behind them.
    written: usize,
    behind: &'static [u8],
    /// How often the reader is called, how often the writer is, and how often it is flushed, where that is compared.
    reads: Option<u32>,
    writes: Option<u32>,
    flushes: Option<u32>,
    /// Whether the session is open behind it, and the count of thread 1 then, where that is compared.
    stands: Option<(bool, Option<u32>)>,
}

/// The session, at once, where no thread is suspended: it is done.
const ONE: Serving = Serving {
    start_all: false,
    input: &SESSION,
    comes: usize::MAX,
    most: (66, 5000),
    read: UNDISTURBED,
    write: UNDISTURBED,
    flush: UNDISTURBED,
    keeps: false,
    rounds: ROUNDS,
    ended: Ended::Done,
    written: 111,
    behind: &[],
    reads: None,
    writes: None,
    flushes: None,
    stands: None,
};

/// The same where every thread starts suspended.
const SUSPENDED: Serving = Serving {
    start_all: true,
    ..ONE
};

/// How a session went, but for its writer.
#[derive(Clone, Copy)]
struct Course {
    ended: Ended,
    reads: u32,
    stands: (bool, Option<u32>),
}

fn way_of<W>(session: &AfterServing<'_, W>) -> Course {
    Course {
        ended: session.ended,
        reads: session.reader.calls,
        stands: (session.is_open, session.count),
    }
}

/// Whether it is this, where that is compared.
fn is_number(found: u32, wanted: Option<u32>) -> bool {
    match wanted {
        Some(wanted) => found == wanted,
        None => true,
    }
}

/// Whether it stands so, where that is compared.
fn stands_so(found: (bool, Option<u32>), wanted: Option<(bool, Option<u32>)>) -> bool {
    match wanted {
        Some(wanted) => found == wanted,
        None => true,
    }
}

/// These are the bytes that a session is to write.
fn is_written(rt: &impl Abort, bytes: &[u8], serving: &Serving) {
    let answers = if serving.start_all {
        &ANSWERS_SUSPENDED
    } else {
        &ANSWERS
    };
    let (front, behind) = bytes.split_at(serving.written.min(bytes.len()));
    expect_same(rt, &front, &&answers[..serving.written.min(111)]);
    expect_same(rt, &behind, &serving.behind);
}

/// A session went as it was to go.
fn goes_as_said(rt: &impl Abort, session: Course, writer: &Writer, serving: &Serving, note: usize) {
    expect_same_for(rt, &session.ended, &serving.ended, &note);
    is_written(rt, &writer.bytes, serving);
    let is = is_number(session.reads, serving.reads)
        && is_number(writer.calls, serving.writes)
        && is_number(writer.flushes, serving.flushes)
        && stands_so(session.stands, serving.stands);
    expect_same_for(rt, &is, &true, &note);
}

/// Serves a session on this writer.
fn serve_one<W: Write + Drop>(
    rt: &impl Abort,
    alloc: Global,
    serving: &Serving,
    writer: W,
) -> AfterServing<'static, W> {
    let input = &serving.input[..serving.comes.min(serving.input.len())];
    let reader = reading(input, serving.most.0, serving.read);
    served_on(rt, alloc, serving.start_all, reader, writer, serving.rounds)
}

/// A session goes as it is to go.
fn goes(rt: &impl Abort, alloc: Global, serving: &Serving, note: usize) {
    let mut writer = writing(alloc, serving.most.1, serving.write);
    writer.flush_plan = serving.flush;
    if serving.keeps {
        let writer = BufWriter::new(alloc, writer).expect(rt, "memory");
        let session = serve_one(rt, alloc, serving, writer);
        goes_as_said(
            rt,
            way_of(&session),
            session.writer.get_ref(),
            serving,
            note,
        );
    } else {
        let session = serve_one(rt, alloc, serving, writer);
        goes_as_said(rt, way_of(&session), &session.writer, serving, note);
    }
}

/// EventRequest.Set of breakpoints at index 3 under the ids 2 and 3.
const TWO_BREAKPOINTS: &[u8] = b"JDWP-Handshake\
        \x00\x00\x00\x2b\x00\x00\x00\x02\x00\x0f\x01\x02\x00\x00\x00\x00\x01\x07\x01\
        \x00\x00\x00\x00\x00\x00\x00\x0a\x00\x00\x00\x00\x00\x00\x00\x14\x00\x00\x00\x00\x00\x00\x00\x03\
        \x00\x00\x00\x2b\x00\x00\x00\x03\x00\x0f\x01\x02\x02\x00\x00\x00\x01\x07\x01\
        \x00\x00\x00\x00\x00\x00\x00\x0a\x00\x00\x00\x00\x00\x00\x00\x14\x00\x00\x00\x00\x00\x00\x00\x03";

/// What is sent for them, and as they are reached.
const BREAKPOINTS_TOLD: &[u8] = b"\x00\x00\x00\x0f\x00\x00\x00\x02\x80\x00\x00\x00\x00\x00\x01\
        \x00\x00\x00\x0f\x00\x00\x00\x03\x80\x00\x00\x00\x00\x00\x02\
        \x00\x00\x00\x5c\x00\x00\x00\x02\x00\x40\x64\x02\x00\x00\x00\x02\
        \x02\x00\x00\x00\x01\x00\x00\x00\x00\x00\x00\x00\x01\x01\
        \x00\x00\x00\x00\x00\x00\x00\x0a\x00\x00\x00\x00\x00\x00\x00\x14\x00\x00\x00\x00\x00\x00\x00\x03\
        \x02\x00\x00\x00\x02\x00\x00\x00\x00\x00\x00\x00\x01\x01\
        \x00\x00\x00\x00\x00\x00\x00\x0a\x00\x00\x00\x00\x00\x00\x00\x14\x00\x00\x00\x00\x00\x00\x00\x03";

static SERVED: [Serving; 43] = [
    // A target that starts every thread suspended answers however the session is cut. Where none is suspended the threads step once all
    // that was read is handled, and so the session is read whole.
    Serving {
        most: (1, 1),
        ..SUSPENDED
    },
    Serving {
        most: (2, 2),
        ..SUSPENDED
    },
    Serving {
        most: (13, 13),
        ..SUSPENDED
    },
    Serving {
        most: (66, 66),
        ..SUSPENDED
    },
    Serving {
        most: (5000, 5000),
        ..SUSPENDED
    },
    Serving {
        most: (66, 66),
        ..ONE
    },
    Serving {
        most: (5000, 5000),
        ..ONE
    },
    // Each write may fail.
    Serving {
        most: (1, 5000),
        write: Plan {
            call: 1,
            event: Event::Fails,
        },
        ended: Ended::LostByWrite,
        written: 0,
        ..SUSPENDED
    },
    Serving {
        most: (1, 5000),
        write: Plan {
            call: 1,
            event: Event::Stops,
        },
        ended: Ended::LostByWrite,
        written: 0,
        ..SUSPENDED
    },
    Serving {
        most: (1, 5000),
        write: Plan {
            call: 2,
            event: Event::Fails,
        },
        ended: Ended::LostByWrite,
        written: 43,
        ..SUSPENDED
    },
    Serving {
        most: (1, 5000),
        write: Plan {
            call: 2,
            event: Event::Stops,
        },
        ended: Ended::LostByWrite,
        written: 43,
        ..SUSPENDED
    },
    Serving {
        most: (1, 5000),
        write: Plan {
            call: 3,
            event: Event::Fails,
        },
        ended: Ended::LostByWrite,
        written: 74,
        ..SUSPENDED
    },
    Serving {
        most: (1, 5000),
        write: Plan {
            call: 3,
            event: Event::Stops,
        },
        ended: Ended::LostByWrite,
        written: 74,
        ..SUSPENDED
    },
    Serving {
        most: (1, 5000),
        write: Plan {
            call: 4,
            event: Event::Fails,
        },
        ended: Ended::LostByWrite,
        written: 85,
        ..SUSPENDED
    },
    Serving {
        most: (1, 5000),
        write: Plan {
            call: 4,
            event: Event::Stops,
        },
        ended: Ended::LostByWrite,
        written: 85,
        ..SUSPENDED
    },
    Serving {
        most: (1, 5000),
        write: Plan {
            call: 5,
            event: Event::Fails,
        },
        ended: Ended::LostByWrite,
        written: 100,
        ..SUSPENDED
    },
    Serving {
        most: (1, 5000),
        write: Plan {
            call: 5,
            event: Event::Stops,
        },
        ended: Ended::LostByWrite,
        written: 100,
        ..SUSPENDED
    },
    Serving {
        most: (1, 5000),
        write: Plan {
            call: 6,
            event: Event::Fails,
        },
        ..SUSPENDED
    },
    Serving {
        most: (1, 5000),
        write: Plan {
            call: 6,
            event: Event::Stops,
        },
        ..SUSPENDED
    },
    // A call that is interrupted is made again.
    Serving {
        most: (20, 5000),
        read: Plan {
            call: 1,
            event: Event::Interrupted,
        },
        write: Plan {
            call: 1,
            event: Event::Interrupted,
        },
        ..SUSPENDED
    },
    Serving {
        most: (20, 5000),
        read: Plan {
            call: 2,
            event: Event::Interrupted,
        },
        write: Plan {
            call: 2,
            event: Event::Interrupted,
        },
        ..SUSPENDED
    },
    Serving {
        most: (20, 5000),
        read: Plan {
            call: 5,
            event: Event::Interrupted,
        },
        write: Plan {
            call: 5,
            event: Event::Interrupted,
        },
        ..SUSPENDED
    },
    // The first flush stands before the one read, and the second at the end. One that was interrupted is made again.
    Serving {
        flush: Plan {
            call: 1,
            event: Event::Fails,
        },
        ended: Ended::LostByWrite,
        written: 0,
        flushes: Some(2),
        ..ONE
    },
    Serving {
        flush: Plan {
            call: 2,
            event: Event::Fails,
        },
        ended: Ended::LostByWrite,
        flushes: Some(2),
        ..ONE
    },
    Serving {
        flush: Plan {
            call: 3,
            event: Event::Fails,
        },
        flushes: Some(2),
        ..ONE
    },
    Serving {
        flush: Plan {
            call: 1,
            event: Event::Interrupted,
        },
        flushes: Some(3),
        ..ONE
    },
    Serving {
        flush: Plan {
            call: 2,
            event: Event::Interrupted,
        },
        flushes: Some(3),
        ..ONE
    },
    // What was written leaves the writer's own buffer at the end, and in few writes.
    Serving {
        keeps: true,
        writes: Some(1),
        ..ONE
    },
    // Bytes that begin no message are refused.
    Serving {
        input: b"JDWP-HandshakE",
        most: (5000, 5000),
        ended: Ended::Refused(4),
        written: 0,
        ..ONE
    },
    Serving {
        input: b"JDWP-Handshake\x00\x00\x00\x0a",
        most: (5000, 5000),
        ended: Ended::Refused(1),
        written: 43,
        ..ONE
    },
    Serving {
        input: b"JDWP-Handshake\x00\x01\x00\x01",
        most: (5000, 5000),
        ended: Ended::Refused(2),
        written: 43,
        ..ONE
    },
    Serving {
        input: b"JDWP-Handshake\x00\x00\x00\x0b\x00\x00\x00\x01\x01",
        most: (5000, 5000),
        ended: Ended::Refused(3),
        written: 43,
        ..ONE
    },
    // Commands that there are not are answered.
    Serving {
        input: b"JDWP-Handshake\x00\x00\x00\x0b\x00\x00\x00\x05\x00\x40\x64\x00\x00\x00\x0b\x00\x00\x00\x06\x00\x01\x63",
        most: (5000, 5000),
        ended: Ended::LostByRead,
        written: 43,
        behind: b"\x00\x00\x00\x0b\x00\x00\x00\x05\x80\x00\x63\x00\x00\x00\x0b\x00\x00\x00\x06\x80\x00\x63",
        ..SUSPENDED
    },
    // An empty input is lost.
    Serving {
        input: b"",
        most: (5000, 5000),
        ended: Ended::LostByRead,
        written: 0,
        ..ONE
    },
    // One read and five turns take six rounds.
    Serving {
        rounds: 0,
        ended: Ended::TurnLimit,
        written: 0,
        ..ONE
    },
    Serving {
        rounds: 1,
        ended: Ended::TurnLimit,
        written: 0,
        ..ONE
    },
    Serving {
        rounds: 2,
        ended: Ended::TurnLimit,
        written: 43,
        ..ONE
    },
    Serving {
        rounds: 3,
        ended: Ended::TurnLimit,
        written: 74,
        ..ONE
    },
    Serving {
        rounds: 4,
        ended: Ended::TurnLimit,
        written: 85,
        ..ONE
    },
    Serving {
        rounds: 5,
        ended: Ended::TurnLimit,
        written: 100,
        ..ONE
    },
    Serving { rounds: 6, ..ONE },
    // A loss lowers the counts.
    Serving {
        comes: 36,
        ended: Ended::LostByRead,
        written: 85,
        stands: Some((false, Some(0))),
        ..SUSPENDED
    },
    // Breakpoints at index 3 are requested twice, with the policies NONE and ALL. Both Sets are handled before a thread steps; then thread
    // 1 calls and comes there, both requests report it in one composite, and nobody steps any more.
    Serving {
        input: TWO_BREAKPOINTS,
        most: (5000, 5000),
        ended: Ended::LostByRead,
        written: 43,
        behind: BREAKPOINTS_TOLD,
        ..ONE
    },
];

#[test]
fn sessions_are_served(rt: HostRuntime) {
    for (place, serving) in SERVED.iter().enumerate() {
        goes(&rt, rt.alloc(), serving, place);
    }
}

/// How many bytes are written once so many of the session's were read.
fn written_after(read: u32) -> usize
    ensures { result ≤ 111 }
{
    if read < 14 {
        0
    } else if read < 25 {
        43
    } else if read < 36 {
        74
    } else if read < 55 {
        85
    } else if read < 66 {
        100
    } else {
        111
    }
}

/// The session where this comes at a call of the reader, which gives one byte a call. Every thread starts suspended.
fn read_until(call: u32, event: Event) -> Serving {
    Serving {
        most: (1, 5000),
        read: Plan { call, event },
        ended: if call < 67 {
            Ended::LostByRead
        } else {
            Ended::Done
        },
        written: written_after(call.saturating_sub(1)),
        ..SUSPENDED
    }
}

#[test]
fn each_read_may_fail(rt: HostRuntime) {
    for call in 1u32..68 {
        goes(&rt, rt.alloc(), &read_until(call, Event::Fails), 0);
        goes(&rt, rt.alloc(), &read_until(call, Event::Stops), 1);
    }
}

/// The session where this call of a writer fails, which takes one byte a call.
fn written_until(call: u32) -> Serving {
    let event = Event::Fails;
    Serving {
        most: (66, 1),
        write: Plan { call, event },
        ended: if call < 112 {
            Ended::LostByWrite
        } else {
            Ended::Done
        },
        written: (call as usize).saturating_sub(1).min(111),
        ..ONE
    }
}

#[test]
fn each_write_of_a_byte_may_fail(rt: HostRuntime) {
    for call in 1u32..113 {
        goes(&rt, rt.alloc(), &written_until(call), 0);
    }
}

/// How many bytes are written before the reader would have to wait at this call, which is its last.
static WAITS: [(u32, usize); 3] = [(1, 0), (2, 43), (4, 100)];

/// Only a call that was interrupted is made again.
#[test]
fn a_read_that_would_block_is_a_failed_read(rt: HostRuntime) {
    for &(call, written) in WAITS.iter() {
        let serving = Serving {
            most: (20, 5000),
            read: Plan {
                call,
                event: Event::WouldBlock,
            },
            ended: Ended::LostByRead,
            written,
            reads: Some(call),
            ..SUSPENDED
        };
        goes(&rt, rt.alloc(), &serving, 0);
    }
}

/// How many writes leave before the reader's call of this number.
fn writes_before(call: u32) -> u32 {
    if call <= 14 {
        0
    } else if call <= 25 {
        1
    } else if call <= 36 {
        2
    } else if call <= 55 {
        3
    } else {
        4
    }
}

/// Nothing waits in the writer's own buffer while the reader is asked for more.
#[test]
fn answers_leave_before_a_read(rt: HostRuntime) {
    for call in 1u32..67 {
        let serving = Serving {
            keeps: true,
            writes: Some(writes_before(call)),
            ..read_until(call, Event::Fails)
        };
        goes(&rt, rt.alloc(), &serving, 0);
    }
}

/// The handshake, and a packet of 65,536 bytes.
fn greatest_packet(rt: &impl Abort, alloc: Global) -> Vec<u8> {
    let head = b"JDWP-Handshake\x00\x01\x00\x00\x00\x00\x00\x05\x00\x40\x64";
    let mut input = Vec::new(alloc);
    input.extend_from_slice(head).expect(rt, "memory");
    let block = [0; 4096];
    for _ in 0..16u32 {
        input.extend_from_slice(&block).expect(rt, "memory");
    }
    input.truncate(65550);
    input
}

/// 4,096 bytes are asked for at once, and the last time 14, and the packet's command is not known.
fn asks_for_what_has_room(rt: &impl Abort, session: &AfterServing<'_, Writer>) {
    expect_same(rt, &session.ended, &Ended::TurnLimit);
    expect_same(rt, &session.reader.most_asked, &4096);
    expect_same(rt, &session.reader.least_asked, &14);
    let reply = b"\x00\x00\x00\x0b\x00\x00\x00\x05\x80\x00\x63";
    expect_that(rt, session.writer.bytes.as_slice().ends_with(reply));
}

/// A packet of 65,536 bytes behind the handshake: 4,096 bytes are asked for at once, and at the end the 14 for which there is room.
#[test]
fn reads_are_of_what_there_is_room_for(rt: HostRuntime) {
    let alloc = rt.alloc();
    let input = greatest_packet(&rt, alloc);
    let reader = reading(&input, 5000, UNDISTURBED);
    let writer = writing(alloc, 5000, UNDISTURBED);
    let session = served_on(&rt, alloc, true, reader, writer, 19);
    asks_for_what_has_room(&rt, &session);
}

/// Opens a target, and serves the session on it.
fn serve_while_open(
    rt: &impl Abort,
    alloc: Global,
    target: &mut Target,
) -> AfterServing<'static, Writer> {
    if !target.accept() {
        panic!(rt; "a session begins");
    }
    let reader = reading(&SESSION, 66, UNDISTURBED);
    let writer = writing(alloc, 5000, UNDISTURBED);
    serve_on(target, reader, writer, ROUNDS)
}

/// Serves the session on a target that is open already.
fn served_while_open(rt: &impl Abort, alloc: Global) -> AfterServing<'static, Writer> {
    let mut target = target(rt, alloc, MACHINE_A, false, 65535);
    serve_while_open(rt, alloc, &mut target)
}

/// The session is refused, and neither the reader nor the writer is called.
fn is_not_touched(rt: &impl Abort, session: &AfterServing<'_, Writer>) {
    expect_same(rt, &session.ended, &Ended::Refused(0));
    expect_that(rt, session.is_open);
    expect_same(rt, &session.reader.calls, &0);
    expect_same(rt, &session.writer.calls, &0);
    expect_same(rt, &session.writer.flushes, &0);
}

#[test]
fn an_open_target_is_refused(rt: HostRuntime) {
    is_not_touched(&rt, &served_while_open(&rt, rt.alloc()));
}

/// Serves the handshake for so many rounds, and the whole session behind it for none.
fn serve_twice(
    alloc: Global,
    target: &mut Target,
    rounds: u64,
) -> (AfterServing<'static, Writer>, AfterServing<'static, Writer>) {
    let reader = reading(&SESSION[..14], 66, UNDISTURBED);
    let writer = writing(alloc, 5000, UNDISTURBED);
    let first = serve_on(target, reader, writer, rounds);
    let reader = reading(&SESSION, 66, UNDISTURBED);
    let writer = writing(alloc, 5000, UNDISTURBED);
    (first, serve_on(target, reader, writer, 0))
}

/// The same of a new target.
fn served_twice(
    rt: &impl Abort,
    alloc: Global,
    rounds: u64,
) -> (AfterServing<'static, Writer>, AfterServing<'static, Writer>) {
    let mut target = target(rt, alloc, MACHINE_A, false, 65535);
    serve_twice(alloc, &mut target, rounds)
}

/// VM_DEATH under the id 2.
const VM_DEATH: &[u8] =
    b"\x00\x00\x00\x15\x00\x00\x00\x02\x00\x40\x64\x00\x00\x00\x00\x01\x63\x00\x00\x00\x00";

/// The first session of a machine ends so, behind one read, and its bytes are these behind the greeting.
fn ends_by_steps(
    rt: &impl Abort,
    first: &AfterServing<'_, Writer>,
    ended: Ended,
    behind: &'static [u8],
) {
    let serving = Serving {
        ended,
        written: 43,
        behind,
        reads: Some(1),
        ..ONE
    };
    goes_as_said(rt, way_of(first), &first.writer, &serving, 0);
}

/// A session of a machine that died is done, and neither its reader nor its writer is called.
fn is_done_at_once(rt: &impl Abort, second: &AfterServing<'_, Writer>) {
    expect_same(rt, &second.ended, &Ended::Done);
    expect_same(rt, &second.reader.calls, &0);
    expect_same(rt, &second.writer.flushes, &0);
}

/// Where nothing is to be handled each live thread steps once a round: the read, the handshake, seven steps of thread 1 beside the end
/// of thread 2, and the end of thread 1, with which the machine dies. From then on a session is done at once. A flush stands before each
/// read, before the steps of each round, and at the end.
#[test]
fn threads_step_until_the_machine_dies(rt: HostRuntime) {
    let (first, second) = served_twice(&rt, rt.alloc(), 10);
    ends_by_steps(&rt, &first, Ended::Done, VM_DEATH);
    expect_same(&rt, &first.lives, &0);
    expect_same(&rt, &first.writer.flushes, &10);
    is_done_at_once(&rt, &second);
}

/// One round fewer, and thread 1 still lives.
#[test]
fn threads_step_once_a_round(rt: HostRuntime) {
    let (first, _) = served_twice(&rt, rt.alloc(), 9);
    ends_by_steps(&rt, &first, Ended::TurnLimit, &[]);
    expect_same(&rt, &first.lives, &1);
}
