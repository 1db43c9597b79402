//! A thread steps where nothing came in the time between two steps, and in a session alone: seen by what is reported.
use crate::asserts::{expect_same, expect_same_for};
use crate::live::readers::Gives;
use crate::live::sessions::{expect_served, served, target};
use jdwp_end::Ended;
use jdwp_engine::Patience;
use std::alloc::Global;
use std::process::Abort;

const ROUNDS: u64 = 1000;

/// The handshake in two parts; then EventRequest.Set of THREAD_START and of THREAD_DEATH with the policy NONE, under the ids 2 and 3.
const GREETS: &[u8] = b"JDWP-";

const ENDS_GREETING: &[u8] = b"Handshake";

pub(crate) const ASKS_FOR_STARTS: &[u8] = &[
    0x00, 0x00, 0x00, 0x11, 0x00, 0x00, 0x00, 0x02, 0x00, 0x0f, 0x01, 0x06, 0x00, 0x00, 0x00, 0x00,
    0x00,
];

pub(crate) const ASKS_FOR_DEATHS: &[u8] = &[
    0x00, 0x00, 0x00, 0x11, 0x00, 0x00, 0x00, 0x03, 0x00, 0x0f, 0x01, 0x07, 0x00, 0x00, 0x00, 0x00,
    0x00,
];

/// How many bytes answer these: the handshake, VM_START and two request ids; and where the handshake is not the first, so many.
const GREETED: usize = 73;

const GREETED_AGAIN: usize = 44;

/// Thread 5 starts thread 9, then thread 2; both have run out where they begin.
pub(crate) const STARTING: &str = "{\"name\":\"S\",\"sizes\":[8,8,8,8,8],
\"groups\":[{\"id\":3,\"name\":\"main\",\"parent\":0}],\"classes\":[],\"objects\":[],
\"threads\":[{\"id\":9,\"name\":\"c\",\"group\":3,\"steps\":[]},
 {\"id\":5,\"name\":\"b\",\"group\":3,\"steps\":[[\"start\",9],[\"start\",2]]},
 {\"id\":2,\"name\":\"a\",\"group\":3,\"steps\":[]}]}";

/// What is reported in four times in which nothing comes: two, one, two and one, as the kind, the request and the thread.
const REPORTED: [(u8, u8, Option<u8>); 6] = [
    (6, 1, Some(9)),
    (7, 2, Some(9)),
    (6, 1, Some(2)),
    (7, 2, Some(2)),
    (7, 2, Some(5)),
    (99, 0, None),
];

/// The composites that report these, under the ids from 2 on.
fn composites(rt: &impl Abort, alloc: Global, reports: &[(u8, u8, Option<u8>)]) -> Vec<u8> {
    let mut bytes = Vec::new(alloc);
    let mut id = 2u8;
    for (kind, request, thread) in reports {
        let length = if thread.is_some() { 29 } else { 21 };
        let head = [0, 0, 0, length, 0, 0, 0, id, 0, 64, 100, 0, 0, 0, 0, 1];
        bytes.extend_from_slice(&head).expect(rt, "memory");
        let event = [*kind, 0, 0, 0, *request];
        bytes.extend_from_slice(&event).expect(rt, "memory");
        if let Some(thread) = *thread {
            let number = [0, 0, 0, 0, 0, 0, 0, thread];
            bytes.extend_from_slice(&number).expect(rt, "memory");
        }
        id = id.saturating_add(1);
    }
    bytes
}

/// These are written behind so many bytes.
fn expect_reports(
    rt: &impl Abort,
    alloc: Global,
    written: &[u8],
    behind: usize,
    reports: &[(u8, u8, Option<u8>)],
    note: &u32,
) {
    let want = composites(rt, alloc, reports);
    expect_same_for(
        rt,
        &Some(written.len()),
        &behind.checked_add(want.len()),
        note,
    );
    assert!(rt; written.ends_with(&want));
}

/// Nothing steps while bytes come; each time that nothing does, each live thread makes one step.
#[test]
fn each_time_that_nothing_comes_the_threads_step(rt: HostRuntime) {
    let gives = [
        Gives::Bytes(GREETS),
        Gives::Bytes(ENDS_GREETING),
        Gives::Bytes(ASKS_FOR_STARTS),
        Gives::Bytes(ASKS_FOR_DEATHS),
        Gives::Nothing,
        Gives::Nothing,
        Gives::Nothing,
        Gives::Nothing,
    ];
    let asked = [
        Patience::Handshake,
        Patience::Handshake,
        Patience::Step,
        Patience::Step,
        Patience::Step,
        Patience::Step,
        Patience::Step,
        Patience::Step,
        Patience::Step,
    ];
    // How many times nothing comes, how the session ends, how many reads there are, and how much is reported.
    let rows: [(u32, usize, Ended, usize, usize); 5] = [
        (0, 4, Ended::LostByRead, 5, 0),
        (1, 5, Ended::LostByRead, 6, 2),
        (2, 6, Ended::LostByRead, 7, 3),
        (3, 7, Ended::LostByRead, 8, 5),
        (4, 8, Ended::Done, 8, 6),
    ];
    for (times, given, ended, reads, reports) in rows {
        let mut target = target(&rt, rt.alloc(), STARTING);
        let served = served(rt.alloc(), &mut target, &gives[..given.min(8)], ROUNDS);
        expect_served(&rt, &served, ended, &asked[..reads.min(9)], &times);
        let reported = &REPORTED[..reports.min(6)];
        expect_reports(&rt, rt.alloc(), &served.written, GREETED, reported, &times);
    }
}

/// Threads that are not suspended stay where they are behind a session, and until the handshake of the next one is done.
#[test]
fn nothing_steps_outside_a_session(rt: HostRuntime) {
    let mut target = target(&rt, rt.alloc(), STARTING);
    let first = [Gives::Bytes(GREETS), Gives::Bytes(ENDS_GREETING)];
    let served_first = served(rt.alloc(), &mut target, &first, ROUNDS);
    let asked = [Patience::Handshake, Patience::Handshake, Patience::Step];
    expect_served(&rt, &served_first, Ended::LostByRead, &asked, &1);
    expect_same(&rt, &target.live().len(), &1);
    let second = [
        Gives::Bytes(GREETS),
        Gives::Bytes(ENDS_GREETING),
        Gives::Bytes(ASKS_FOR_STARTS),
        Gives::Bytes(ASKS_FOR_DEATHS),
        Gives::Nothing,
    ];
    let served_second = served(rt.alloc(), &mut target, &second, ROUNDS);
    let asked = [
        Patience::Handshake,
        Patience::Handshake,
        Patience::Step,
        Patience::Step,
        Patience::Step,
        Patience::Step,
    ];
    expect_served(&rt, &served_second, Ended::LostByRead, &asked, &2);
    let reported = &REPORTED[..2];
    expect_reports(
        &rt,
        rt.alloc(),
        &served_second.written,
        GREETED_AGAIN,
        reported,
        &2,
    );
}

/// Where all rounds are used, the session stays open.
#[test]
fn all_rounds_are_used(rt: HostRuntime) {
    let mut target = target(&rt, rt.alloc(), STARTING);
    let gives = [Gives::Bytes(GREETS), Gives::Bytes(ENDS_GREETING)];
    let served = served(rt.alloc(), &mut target, &gives, 3);
    let asked = [Patience::Handshake, Patience::Handshake];
    expect_served(&rt, &served, Ended::TurnLimit, &asked, &3);
    expect_same(&rt, &target.is_open(), &true);
}
