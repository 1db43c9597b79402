//! Live sessions at a port, one after the other, by a clock of the test's own.
use crate::asserts::expect_same;
use crate::live::network::{Asked, Comes, Listener, Network, Peer, Record};
use crate::live::pace_tests::{ASKS_FOR_DEATHS, ASKS_FOR_STARTS, STARTING};
use crate::live::sessions::{Target, target};
use jdwp_end::Ended;
use jdwp_port::{LiveNotice, Notice, PortFault, PortListener, serve_live_sessions};
use std::alloc::Global;
use std::net::Shutdown;
use std::process::Abort;
use std::time::Duration;
use test_parts::MACHINE_A;

const PORT: u16 = 8000;

const HANDSHAKE: &[u8] = b"JDWP-Handshake";

/// ThreadReference.SuspendCount of thread 1 with id 2, VirtualMachine.Suspend with id 3, the count once more with id 4, and
/// VirtualMachine.Dispose with id 5.
const COUNT_BEFORE: &[u8] = &[
    0x00, 0x00, 0x00, 0x13, 0x00, 0x00, 0x00, 0x02, 0x00, 0x0b, 0x0c, //
    0x00, 0x00, 0x00, 0x00, 0x00, 0x00, 0x00, 0x01,
];

const SUSPEND: &[u8] = &[
    0x00, 0x00, 0x00, 0x0b, 0x00, 0x00, 0x00, 0x03, 0x00, 0x01, 0x08,
];

const COUNT_BEHIND: &[u8] = &[
    0x00, 0x00, 0x00, 0x13, 0x00, 0x00, 0x00, 0x04, 0x00, 0x0b, 0x0c, //
    0x00, 0x00, 0x00, 0x00, 0x00, 0x00, 0x00, 0x01,
];

const DISPOSE: &[u8] = &[
    0x00, 0x00, 0x00, 0x0b, 0x00, 0x00, 0x00, 0x05, 0x00, 0x01, 0x06,
];

/// What answers them behind the handshake and VM_START: the count 0; Suspend; the count 1; Dispose.
const ANSWERS: [u8; 52] = [
    0x00, 0x00, 0x00, 0x0f, 0x00, 0x00, 0x00, 0x02, 0x80, 0x00, 0x00, 0x00, 0x00, 0x00, 0x00, //
    0x00, 0x00, 0x00, 0x0b, 0x00, 0x00, 0x00, 0x03, 0x80, 0x00, 0x00, //
    0x00, 0x00, 0x00, 0x0f, 0x00, 0x00, 0x00, 0x04, 0x80, 0x00, 0x00, 0x00, 0x00, 0x00, 0x01, //
    0x00, 0x00, 0x00, 0x0b, 0x00, 0x00, 0x00, 0x05, 0x80, 0x00, 0x00,
];

/// The handshake and Dispose with id 1.
const GREETS_AND_DISPOSES: &[u8] = &[
    0x4a, 0x44, 0x57, 0x50, 0x2d, 0x48, 0x61, 0x6e, 0x64, 0x73, 0x68, 0x61, 0x6b, 0x65, //
    0x00, 0x00, 0x00, 0x0b, 0x00, 0x00, 0x00, 0x01, 0x00, 0x01, 0x06,
];

/// How many bytes answer them: the handshake, VM_START in the first session, and the reply.
const DISPOSED_FIRST: usize = 54;

const DISPOSED: usize = 25;

/// What was told, in words.
fn words(rt: &impl Abort, alloc: Global, told: &[LiveNotice]) -> Vec<String> {
    let mut all = Vec::new(alloc);
    for notice in told {
        let text = match notice {
            LiveNotice::Port(Notice::Refused(number)) => format!(in alloc; "refused {number}"),
            LiveNotice::Port(Notice::Lost(cause)) => format!(in alloc; "lost: {cause}"),
            LiveNotice::Port(Notice::Again(cause)) => format!(in alloc; "again: {cause}"),
            LiveNotice::NoHandshake => format!(in alloc; "no handshake"),
        };
        all.push(text.expect(rt, "memory")).expect(rt, "memory");
    }
    all
}

/// How sessions of a closed target with these peers ended, with so many milliseconds between two steps, and what was told on the way.
fn serves(
    rt: &impl Abort,
    alloc: Global,
    record: &Record,
    target: &mut Target,
    pace: u64,
) -> (Result<Ended, PortFault>, Vec<LiveNotice>) {
    if target.is_open() {
        panic!(rt; "the target is open");
    }
    let mut told = Vec::new(alloc);
    let network = Network { record };
    let listener = PortListener::new(Listener::new(record), PORT);
    let pace = Duration::from_millis(pace);
    let ended = serve_live_sessions(
        alloc,
        &network,
        record,
        target,
        listener,
        pace,
        u64::MAX,
        |notice| {
            let _ = told.push(notice);
        },
    );
    (ended, told)
}

/// How it ended, in words.
fn end_of(
    rt: &impl Abort,
    alloc: Global,
    record: &Record,
    target: &mut Target,
    pace: u64,
    want: &[&str],
) -> String {
    let (ended, told) = serves(rt, alloc, record, target, pace);
    let words = words(rt, alloc, told.as_slice());
    expect_same(rt, &words.len(), &want.len());
    for (found, want) in words.iter().zip(want.iter()) {
        expect_same(rt, &found.as_str(), want);
    }
    let text = match ended {
        Ok(ended) => format!(in alloc; "{ended:?}"),
        Err(fault) => format!(in alloc; "{fault}"),
    };
    text.expect(rt, "memory")
}

/// Where no further peer comes to the port.
const NO_PEER: &str = "port 8000: not allowed";

/// Sessions of a target over this script with these peers, so many milliseconds between two steps at least, and calls to listen that fail so.
#[derive(Clone, Copy)]
struct Sessions {
    script: &'static str,
    peers: &'static [Peer],
    pace: u64,
    listens: &'static [Option<i32>],
}

/// They end so, this is told on the way, and this was asked of the network and the clock.
fn expect_sessions(
    rt: &impl Abort,
    alloc: Global,
    sessions: Sessions,
    told: &[&str],
    asked: &[Asked],
    end: &str,
) -> Vec<u8> {
    let record = Record::new(Vec::new(alloc), Vec::new(alloc), sessions.peers);
    record.fail(sessions.listens);
    let mut target = target(rt, alloc, sessions.script);
    let ended = end_of(rt, alloc, &record, &mut target, sessions.pace, told);
    expect_same(rt, &ended.as_str(), &end);
    let found = record.asked().expect(rt, "what was asked");
    expect_same(rt, &found.as_slice(), &asked);
    record.written().expect(rt, "what was written")
}

/// A debugger that suspends all threads while they run; and one that disposes of its session at once.
static SUSPENDS_THEN_DISPOSES: [Peer; 2] = [
    &[
        Comes::Bytes(0, HANDSHAKE),
        Comes::Bytes(15, COUNT_BEFORE),
        Comes::Bytes(25, SUSPEND),
        Comes::Bytes(35, COUNT_BEHIND),
        Comes::Bytes(1000, DISPOSE),
    ],
    &[Comes::Bytes(0, GREETS_AND_DISPOSES)],
];

/// A thread that runs is free, and is held behind a Suspend; behind the session the next debugger is served. Meanwhile nobody listens, and the
/// port is listened on anew before a connection is ended.
#[test]
fn a_suspend_meets_a_thread_that_runs_at_a_port(rt: HostRuntime) {
    let sessions = Sessions {
        script: MACHINE_A,
        peers: &SUSPENDS_THEN_DISPOSES,
        pace: 10,
        listens: &[],
    };
    let asked = [
        Asked::Takes,
        Asked::Stops,
        Asked::Wrote(0, 43),
        Asked::Wrote(15, 15),
        Asked::Wrote(25, 11),
        Asked::Wrote(35, 15),
        Asked::Wrote(1000, 11),
        Asked::Listens(PORT),
        Asked::Ends(Shutdown::Write),
        Asked::Takes,
        Asked::Stops,
        Asked::Wrote(1000, DISPOSED),
        Asked::Listens(PORT),
        Asked::Ends(Shutdown::Write),
        Asked::Stops,
    ];
    let written = expect_sessions(&rt, rt.alloc(), sessions, &[], &asked, NO_PEER);
    expect_same(&rt, &written.len(), &120);
    expect_same(&rt, &written.get(43..95), &Some(&ANSWERS[..]));
}

/// The handshake does not come, not whole, and just in time.
static GREETINGS: [Peer; 3] = [
    &[Comes::Bytes(5000, HANDSHAKE)],
    &[
        Comes::Bytes(0, b"JDWP-"),
        Comes::Bytes(1990, b"Hand"),
        Comes::Bytes(2001, b"shake"),
    ],
    &[Comes::Bytes(1999, GREETS_AND_DISPOSES)],
];

/// A peer whose handshake is not done 2 seconds behind the beginning of its connection is let go and told, and the next one is served.
#[test]
fn handshakes_come_within_two_seconds(rt: HostRuntime) {
    let sessions = Sessions {
        script: MACHINE_A,
        peers: &GREETINGS,
        pace: 0,
        listens: &[],
    };
    let told = ["no handshake", "no handshake"];
    let asked = [
        Asked::Takes,
        Asked::Stops,
        Asked::Listens(PORT),
        Asked::Takes,
        Asked::Stops,
        Asked::Listens(PORT),
        Asked::Takes,
        Asked::Stops,
        Asked::Wrote(5999, DISPOSED_FIRST),
        Asked::Listens(PORT),
        Asked::Ends(Shutdown::Write),
        Asked::Stops,
    ];
    let _ = expect_sessions(&rt, rt.alloc(), sessions, &told, &asked, NO_PEER);
}

/// ThreadReference.SuspendCount of thread 5.
const COUNT: &[u8] = &[
    0x00, 0x00, 0x00, 0x13, 0x00, 0x00, 0x00, 0x04, 0x00, 0x0b, 0x0c, //
    0x00, 0x00, 0x00, 0x00, 0x00, 0x00, 0x00, 0x05,
];

/// A debugger that asks every 30 ms.
static OFTEN: [Peer; 1] = [&[
    Comes::Bytes(0, HANDSHAKE),
    Comes::Bytes(0, ASKS_FOR_STARTS),
    Comes::Bytes(0, ASKS_FOR_DEATHS),
    Comes::Bytes(30, COUNT),
    Comes::Bytes(60, COUNT),
    Comes::Bytes(90, COUNT),
    Comes::Bytes(120, COUNT),
    Comes::Bytes(150, COUNT),
    Comes::Bytes(180, COUNT),
    Comes::Bytes(210, COUNT),
    Comes::Bytes(240, COUNT),
    Comes::Bytes(270, COUNT),
    Comes::Bytes(300, COUNT),
    Comes::Bytes(9000, DISPOSE),
]];

/// Threads step every 100 ms, however often something comes, and what comes is answered at once. The machine's death is the end.
#[test]
fn steps_are_apart(rt: HostRuntime) {
    let sessions = Sessions {
        script: STARTING,
        peers: &OFTEN,
        pace: 100,
        listens: &[],
    };
    let asked = [
        Asked::Takes,
        Asked::Stops,
        Asked::Wrote(0, 43),
        Asked::Wrote(0, 15),
        Asked::Wrote(0, 15),
        Asked::Wrote(30, 15),
        Asked::Wrote(60, 15),
        Asked::Wrote(90, 15),
        Asked::Wrote(100, 58),
        Asked::Wrote(120, 15),
        Asked::Wrote(150, 15),
        Asked::Wrote(180, 15),
        Asked::Wrote(200, 29),
        Asked::Wrote(210, 15),
        Asked::Wrote(240, 15),
        Asked::Wrote(270, 15),
        Asked::Wrote(300, 15),
        Asked::Wrote(300, 58),
        Asked::Wrote(400, 21),
        Asked::Ends(Shutdown::Write),
    ];
    let _ = expect_sessions(&rt, rt.alloc(), sessions, &[], &asked, "Done");
}

/// Connections that fail behind the handshake, that begin with something else, and of which a read was interrupted.
static FAILING: [Peer; 3] = [
    &[Comes::Bytes(0, HANDSHAKE), Comes::Fails(5, 104)],
    &[Comes::Bytes(0, b"GET / HTTP/1.1")],
    &[Comes::Fails(0, 4), Comes::Bytes(0, GREETS_AND_DISPOSES)],
];

/// A session that is lost or refused is told, and the next debugger is served.
#[test]
fn lost_sessions_are_told(rt: HostRuntime) {
    let sessions = Sessions {
        script: MACHINE_A,
        peers: &FAILING,
        pace: 1000,
        listens: &[],
    };
    let told = ["lost: Connection reset by peer (os error 104)", "refused 4"];
    let asked = [
        Asked::Takes,
        Asked::Stops,
        Asked::Wrote(0, 43),
        Asked::Listens(PORT),
        Asked::Takes,
        Asked::Stops,
        Asked::Listens(PORT),
        Asked::Ends(Shutdown::Write),
        Asked::Takes,
        Asked::Stops,
        Asked::Wrote(5, DISPOSED),
        Asked::Listens(PORT),
        Asked::Ends(Shutdown::Write),
        Asked::Stops,
    ];
    let _ = expect_sessions(&rt, rt.alloc(), sessions, &told, &asked, NO_PEER);
}

/// Two debuggers that dispose of their sessions at once.
static TWICE: [Peer; 2] = [
    &[Comes::Bytes(0, GREETS_AND_DISPOSES)],
    &[Comes::Bytes(0, GREETS_AND_DISPOSES)],
];

/// Where the port can't be listened on anew for a cause that passes, it is tried again, a little later each time.
#[test]
fn the_port_is_listened_on_anew(rt: HostRuntime) {
    let sessions = Sessions {
        script: MACHINE_A,
        peers: &TWICE,
        pace: 0,
        listens: &[Some(24), Some(24), Some(24), None],
    };
    let told = [
        "again: Too many open files (os error 24)",
        "again: Too many open files (os error 24)",
    ];
    let asked = [
        Asked::Takes,
        Asked::Stops,
        Asked::Wrote(0, DISPOSED_FIRST),
        Asked::Listens(PORT),
        Asked::Ends(Shutdown::Write),
        Asked::Listens(PORT),
        Asked::Sleeps(10),
        Asked::Listens(PORT),
        Asked::Sleeps(20),
        Asked::Listens(PORT),
        Asked::Takes,
        Asked::Stops,
        Asked::Wrote(30, DISPOSED),
        Asked::Listens(PORT),
        Asked::Ends(Shutdown::Write),
        Asked::Stops,
    ];
    let _ = expect_sessions(&rt, rt.alloc(), sessions, &told, &asked, NO_PEER);
}

/// Where somebody else listens there meanwhile, it is the end.
#[test]
fn the_port_is_taken_meanwhile(rt: HostRuntime) {
    let sessions = Sessions {
        script: MACHINE_A,
        peers: &TWICE,
        pace: 0,
        listens: &[Some(98), Some(98)],
    };
    let asked = [
        Asked::Takes,
        Asked::Stops,
        Asked::Wrote(0, DISPOSED_FIRST),
        Asked::Listens(PORT),
        Asked::Ends(Shutdown::Write),
        Asked::Listens(PORT),
    ];
    let end = "port 8000: address in use";
    let _ = expect_sessions(&rt, rt.alloc(), sessions, &[], &asked, end);
}
