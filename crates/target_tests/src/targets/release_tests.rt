//! How `serve` runs a target that defers: a round that handles nothing releases the newest deferred command, and no thread steps and nothing
//! is read until none is deferred.
use crate::asserts::{expect_same, expect_same_for, expect_that};
use crate::targets::serving::{
    ANSWERS_SUSPENDED, AfterServing, Event, Plan, ROUNDS, Reader, UNDISTURBED, Writer, reading,
    serve_on, writing,
};
use crate::targets::sessions::{GREETING, target};
use jdwp_end::Ended;
use std::alloc::Global;
use std::process::Abort;
use test_parts::{MACHINE_A, bytes, push_bytes};

/// The handshake, Signature with id 2, Status with id 3 and IsObsolete with id 4: commands of the sets ReferenceType and Method.
const ASKED: &str = "4a4457502d48616e647368616b65 00000013 00000002 00 02 01 000000000000000a
 00000013 00000003 00 02 09 000000000000000a 0000001b 00000004 00 06 04 000000000000000a 0000000000000014";

/// The answers to them.
const SECOND: &str = "00000015 00000002 80 0000 00000006 4c4d61696e3b";

const THIRD: &str = "0000000f 00000003 80 0000 00000003";

const FOURTH: &str = "0000000c 00000004 80 0000 00";

/// Serves one session of a target that defers.
fn served_late<'a>(
    rt: &impl Abort,
    alloc: Global,
    start_all: bool,
    reader: Reader<'a>,
    writer: Writer,
    rounds: u64,
) -> AfterServing<'a, Writer> {
    let mut target = target(rt, alloc, MACHINE_A, start_all, 65535);
    target.set_deferring(true);
    serve_on(&mut target, reader, writer, rounds)
}

/// The session ended so, and what was written is the answer to the handshake, and these replies.
fn replies(
    rt: &impl Abort,
    alloc: Global,
    session: &AfterServing<'_, Writer>,
    want: Ended,
    greeting: &[u8],
    behind: &[&str],
) {
    let expected = expected(rt, alloc, greeting, behind);
    expect_same_for(rt, &session.ended, &want, &behind);
    expect_same_for(
        rt,
        &session.writer.bytes.as_slice(),
        &expected.as_slice(),
        &behind,
    );
}

/// These bytes, and these replies behind them.
fn expected(rt: &impl Abort, alloc: Global, greeting: &[u8], behind: &[&str]) -> Vec<u8> {
    let mut all = Vec::new(alloc);
    all.extend_from_slice(greeting).expect(rt, "memory");
    for reply in behind {
        push_bytes(&mut all, reply).expect(rt, "memory");
    }
    all
}

/// The rounds, how many replies are written, how many threads live, and how many flushes there are with the last. One read and four turns
/// come before the releases; in the ninth round both threads step, and the second ends.
static RELEASES: [(u64, usize, usize, u32); 5] = [
    (5, 0, 2, 2),
    (6, 1, 2, 3),
    (7, 2, 2, 4),
    (8, 3, 2, 5),
    (9, 3, 1, 6),
];

#[test]
fn the_newest_is_released_before_a_thread_steps(rt: HostRuntime) {
    let alloc = rt.alloc();
    let input = bytes(alloc, ASKED).expect(&rt, "memory");
    let greeting = bytes(alloc, GREETING).expect(&rt, "memory");
    let late = [FOURTH, THIRD, SECOND];
    for (rounds, count, lives, flushes) in RELEASES.iter() {
        let reader = reading(&input, 5000, UNDISTURBED);
        let writer = writing(alloc, 5000, UNDISTURBED);
        let session = served_late(&rt, alloc, false, reader, writer, *rounds);
        let behind = &late[..(*count).min(3)];
        replies(&rt, alloc, &session, Ended::TurnLimit, &greeting, behind);
        expect_same_for(&rt, &session.lives, lives, rounds);
        expect_same_for(&rt, &session.writer.flushes, flushes, rounds);
        expect_same(&rt, &session.reader.calls, &1);
    }
}

/// The input ends behind one read: the next comes once all three are answered.
#[test]
fn all_are_released_before_the_input_ends(rt: HostRuntime) {
    let alloc = rt.alloc();
    let input = bytes(alloc, ASKED).expect(&rt, "memory");
    let reader = reading(&input, 5000, UNDISTURBED);
    let writer = writing(alloc, 5000, UNDISTURBED);
    let session = served_late(&rt, alloc, true, reader, writer, ROUNDS);
    let greeting = &ANSWERS_SUSPENDED[..43];
    let late = [FOURTH, THIRD, SECOND];
    replies(&rt, alloc, &session, Ended::LostByRead, greeting, &late);
    expect_same(&rt, &session.reader.calls, &2);
}

/// Where a read gives one byte, each is released before the next is read.
#[test]
fn one_is_released_before_more_is_read(rt: HostRuntime) {
    let alloc = rt.alloc();
    let input = bytes(alloc, ASKED).expect(&rt, "memory");
    let reader = reading(&input, 1, UNDISTURBED);
    let writer = writing(alloc, 5000, UNDISTURBED);
    let session = served_late(&rt, alloc, true, reader, writer, ROUNDS);
    let greeting = &ANSWERS_SUSPENDED[..43];
    let prompt = [SECOND, THIRD, FOURTH];
    replies(&rt, alloc, &session, Ended::LostByRead, greeting, &prompt);
}

/// The flush before the second release fails.
#[test]
fn a_failed_flush_drops_what_is_deferred(rt: HostRuntime) {
    let alloc = rt.alloc();
    let input = bytes(alloc, ASKED).expect(&rt, "memory");
    let reader = reading(&input, 5000, UNDISTURBED);
    let mut writer = writing(alloc, 5000, UNDISTURBED);
    writer.flush_plan = Plan {
        call: 3,
        event: Event::Fails,
    };
    let session = served_late(&rt, alloc, true, reader, writer, ROUNDS);
    let greeting = &ANSWERS_SUSPENDED[..43];
    replies(
        &rt,
        alloc,
        &session,
        Ended::LostByWrite,
        greeting,
        &[FOURTH],
    );
    expect_that(&rt, !session.is_open);
}

/// Dispose behind them is answered, and they are not.
#[test]
fn dispose_ends_a_session_that_defers(rt: HostRuntime) {
    let alloc = rt.alloc();
    let mut input = bytes(alloc, ASKED).expect(&rt, "memory");
    push_bytes(&mut input, "0000000b 00000005 00 01 06").expect(&rt, "memory");
    let reader = reading(&input, 5000, UNDISTURBED);
    let writer = writing(alloc, 5000, UNDISTURBED);
    let session = served_late(&rt, alloc, true, reader, writer, ROUNDS);
    let greeting = &ANSWERS_SUSPENDED[..43];
    let disposed = ["0000000b 00000005 80 0000"];
    replies(&rt, alloc, &session, Ended::Done, greeting, &disposed);
}
