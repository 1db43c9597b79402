//! Which threads a round steps, and in which order: seen by what is reported of them.
use crate::asserts::{expect_same, expect_same_for, expect_that};
use crate::targets::falling::Falling;
use jdwp_debuggee::Settings;
use jdwp_end::{Ended, Streams};
use jdwp_engine::{serve_script, serve_session};
use jdwp_wire::Limits;
use std::alloc::Global;
use std::process::Abort;

/// The handshake, and EventRequest.Set of THREAD_START and of THREAD_DEATH with the policy NONE, under the ids 2 and 3.
const REQUESTS: [u8; 48] = [
    0x4a, 0x44, 0x57, 0x50, 0x2d, 0x48, 0x61, 0x6e, 0x64, 0x73, 0x68, 0x61, 0x6b, 0x65, //
    0x00, 0x00, 0x00, 0x11, 0x00, 0x00, 0x00, 0x02, 0x00, 0x0f, 0x01, 0x06, 0x00, 0x00, 0x00, 0x00,
    0x00, //
    0x00, 0x00, 0x00, 0x11, 0x00, 0x00, 0x00, 0x03, 0x00, 0x0f, 0x01, 0x07, 0x00, 0x00, 0x00, 0x00,
    0x00, //
];

/// How many bytes are answered to these: the handshake, VM_START and two request ids.
const GREETED: usize = 73;

/// What is reported.
#[derive(Clone, Copy, Debug)]
enum Report {
    /// THREAD_START of this thread, by request 1.
    Began(u64),
    /// THREAD_DEATH of this thread, by request 2.
    Ended(u64),
    /// VM_DEATH.
    Died,
}

/// Appends the composite of this id that reports it, with the policy NONE.
fn push_report(rt: &impl Abort, bytes: &mut Vec<u8>, id: u8, report: Report) {
    let (length, kind, request, thread) = match report {
        Report::Began(thread) => (29, 6, 1, Some(thread)),
        Report::Ended(thread) => (29, 7, 2, Some(thread)),
        Report::Died => (21, 99, 0, None),
    };
    let head = [0, 0, 0, length, 0, 0, 0, id, 0, 64, 100, 0, 0, 0, 0, 1];
    bytes.extend_from_slice(&head).expect(rt, "memory");
    bytes
        .extend_from_slice(&[kind, 0, 0, 0, request])
        .expect(rt, "memory");
    if let Some(thread) = thread {
        bytes
            .extend_from_slice(&thread.to_be_bytes())
            .expect(rt, "memory");
    }
}

/// The composites that report these, under the ids from 2 on.
fn composites(rt: &impl Abort, alloc: Global, reports: &[Report]) -> Vec<u8> {
    let mut bytes = Vec::new(alloc);
    let mut id = 2u8;
    for report in reports {
        push_report(rt, &mut bytes, id, *report);
        id = id.saturating_add(1);
    }
    bytes
}

/// Serves the requests over the machine of this script, where no thread is suspended at the start.
fn served(rt: &impl Abort, alloc: Global, script: &str, rounds: u32) -> (Ended, Vec<u8>) {
    let settings = Settings::new(false, 65535, Limits::standard()).expect(rt, "a count limit");
    let mut pipe = Streams::new(REQUESTS.as_slice(), Vec::new(alloc));
    let ended = serve_script(alloc, script, settings, false, &mut pipe, rounds);
    let (_, bytes) = pipe.into_parts();
    (ended.expect(rt, "the script is read"), bytes)
}

/// These are reported behind what is answered, and nothing else.
fn reports(rt: &impl Abort, alloc: Global, written: &[u8], expected: &[Report]) {
    let want = composites(rt, alloc, expected);
    expect_same(rt, &Some(written.len()), &GREETED.checked_add(want.len()));
    expect_that(rt, written.ends_with(&want));
}

/// The session of this script ends so behind so many rounds, and these are reported.
fn ends_with_reports(
    rt: &impl Abort,
    alloc: Global,
    script: &str,
    rounds: u32,
    want: Ended,
    expected: &[Report],
) {
    let (ended, written) = served(rt, alloc, script, rounds);
    expect_same_for(rt, &ended, &want, &rounds);
    reports(rt, alloc, &written, expected);
}

/// Four threads that have run out. They do not stand by rising id, and two ids are 2^63 and above.
const HIGH_IDS: &str = "{\"name\":\"H\",\"sizes\":[8,8,8,8,8],
\"groups\":[{\"id\":5,\"name\":\"main\",\"parent\":0}],\"classes\":[],\"objects\":[],
\"threads\":[{\"id\":18446744073709551615,\"name\":\"d\",\"group\":5,\"steps\":[]},
 {\"id\":1,\"name\":\"a\",\"group\":5,\"steps\":[]},
 {\"id\":9223372036854775808,\"name\":\"c\",\"group\":5,\"steps\":[]},
 {\"id\":9223372036854775807,\"name\":\"b\",\"group\":5,\"steps\":[]}]}";

/// What is reported of them.
const HIGH_DEATHS: [Report; 5] = [
    Report::Ended(1),
    Report::Ended(9_223_372_036_854_775_807),
    Report::Ended(9_223_372_036_854_775_808),
    Report::Ended(18_446_744_073_709_551_615),
    Report::Died,
];

/// Behind one read and three turns all four step in a round, by rising id, up to the greatest that there is: it reports their deaths. In
/// the next they end, and with the last the machine dies.
#[test]
fn a_round_steps_every_id_in_order(rt: HostRuntime) {
    let rows: [(u32, Ended, usize); 3] = [
        (4, Ended::TurnLimit, 0),
        (5, Ended::TurnLimit, 4),
        (6, Ended::Done, 5),
    ];
    for (rounds, want, count) in rows {
        let expected = &HIGH_DEATHS[..count.min(5)];
        ends_with_reports(&rt, rt.alloc(), HIGH_IDS, rounds, want, expected);
    }
}

/// Thread 5 starts thread 9, then thread 2; both have run out where they begin.
const STARTING: &str = "{\"name\":\"S\",\"sizes\":[8,8,8,8,8],
\"groups\":[{\"id\":3,\"name\":\"main\",\"parent\":0}],\"classes\":[],\"objects\":[],
\"threads\":[{\"id\":9,\"name\":\"c\",\"group\":3,\"steps\":[]},
 {\"id\":5,\"name\":\"b\",\"group\":3,\"steps\":[[\"start\",9],[\"start\",2]]},
 {\"id\":2,\"name\":\"a\",\"group\":3,\"steps\":[]}]}";

/// What is reported in four rounds of steps: two, one, two and one.
const STARTED: [Report; 6] = [
    Report::Began(9),
    Report::Ended(9),
    Report::Began(2),
    Report::Ended(2),
    Report::Ended(5),
    Report::Died,
];

/// A thread that is started steps in the same round where its id is higher, else in the next.
#[test]
fn a_thread_that_starts_steps_behind_the_one_that_started_it(rt: HostRuntime) {
    let rows: [(u32, Ended, usize); 5] = [
        (4, Ended::TurnLimit, 0),
        (5, Ended::TurnLimit, 2),
        (6, Ended::TurnLimit, 3),
        (7, Ended::TurnLimit, 5),
        (8, Ended::Done, 6),
    ];
    for (rounds, want, count) in rows {
        let expected = &STARTED[..count.min(6)];
        ends_with_reports(&rt, rt.alloc(), STARTING, rounds, want, expected);
    }
}

/// A machine of the threads 101 to 164, which have run out.
fn of_64_threads(rt: &impl Abort, alloc: Global) -> String {
    let mut text = String::from_str(
        alloc,
        "{\"name\":\"M\",\"sizes\":[8,8,8,8,8],\"groups\":[{\"id\":5,\"name\":\"main\",\"parent\":0}],\"classes\":[],\"objects\":[],\"threads\":[",
    )
    .expect(rt, "memory");
    for id in 101..165u32 {
        let separator = if id == 101 { "" } else { "," };
        write!(
            text,
            "{separator}{{\"id\":{id},\"name\":\"\",\"group\":5,\"steps\":[]}}"
        )
        .expect(rt, "memory");
    }
    text.push_str("]}").expect(rt, "memory");
    text
}

/// Their deaths, by rising id, and that of the machine.
fn all_deaths(rt: &impl Abort, alloc: Global) -> Vec<Report> {
    let mut deaths = Vec::new(alloc);
    for id in 101..165u64 {
        deaths.push(Report::Ended(id)).expect(rt, "memory");
    }
    deaths.push(Report::Died).expect(rt, "memory");
    deaths
}

/// As many threads as may live step in one round: it reports the deaths of all, and the next ends them.
#[test]
fn sixty_four_threads_step_in_a_round(rt: HostRuntime) {
    let alloc = rt.alloc();
    let script = of_64_threads(&rt, alloc);
    let deaths = all_deaths(&rt, alloc);
    let rows: [(u32, Ended, usize); 3] = [
        (4, Ended::TurnLimit, 0),
        (5, Ended::TurnLimit, 64),
        (6, Ended::Done, 65),
    ];
    for (rounds, want, count) in rows {
        let expected = &deaths[..count.min(deaths.len())];
        ends_with_reports(&rt, alloc, &script, rounds, want, expected);
    }
}

/// Serves the requests over a machine whose list of threads falls, for so many rounds.
fn served_falling(rt: &impl Abort, alloc: Global, prepares: bool, rounds: u32) -> (Ended, Vec<u8>) {
    let settings = Settings::new(false, 65535, Limits::standard()).expect(rt, "a count limit");
    let mut pipe = Streams::new(REQUESTS.as_slice(), Vec::new(alloc));
    let machine = Falling::new(alloc, prepares).expect(rt, "memory");
    let ended = serve_session(alloc, machine, settings, false, &mut pipe, rounds);
    let (_, bytes) = pipe.into_parts();
    (ended.expect(rt, "memory"), bytes)
}

/// The order is that of the ids, and not that of the machine's list.
#[test]
fn a_list_that_falls_is_stepped_by_rising_id(rt: HostRuntime) {
    let alloc = rt.alloc();
    let (ended, written) = served_falling(&rt, alloc, false, 6);
    expect_same(&rt, &ended, &Ended::Done);
    let expected = [
        Report::Ended(2),
        Report::Ended(9_223_372_036_854_775_808),
        Report::Ended(18_446_744_073_709_551_615),
        Report::Died,
    ];
    reports(&rt, alloc, &written, &expected);
}

/// The first thread that steps prepares the class, which no request asks for; so the others report their deaths before it.
#[test]
fn the_least_id_makes_the_first_step(rt: HostRuntime) {
    let alloc = rt.alloc();
    let (ended, written) = served_falling(&rt, alloc, true, 7);
    expect_same(&rt, &ended, &Ended::Done);
    let expected = [
        Report::Ended(9_223_372_036_854_775_808),
        Report::Ended(18_446_744_073_709_551_615),
        Report::Ended(2),
        Report::Died,
    ];
    reports(&rt, alloc, &written, &expected);
}
