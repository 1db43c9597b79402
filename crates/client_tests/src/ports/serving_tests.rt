//! Sessions of a target on a port.
use crate::asserts::expect_same;
use crate::ports::peers::{caller, reads};
use crate::ports::sessions::{
    ANSWERS, NO_HANDSHAKE, SESSION, Target, refused, serves_all, serves_one, target,
};
use jdwp_end::Ended;
use jdwp_port::{PortListener, bind};
use std::alloc::Global;
use std::io::{Read, Write};
use std::net::{Net, OpenListener, OpenStream};
use std::process::Abort;
use std::rt::Clock;

/// A session of a new target on this port ends so; one that used up its rounds is open still.
fn ends_so<L: OpenListener, C: Clock + Abort>(
    rt: &C,
    alloc: Global,
    listener: &PortListener<L>,
    rounds: u64,
    want: Ended,
)
where
    L::Stream: Read + Write + OpenStream,
{
    let mut target = target(rt, alloc);
    let session = serves_one(rt, alloc, &mut target, listener, rounds).expect(rt, "a session");
    expect_same(rt, &session.how, &want);
    expect_same(rt, &session.failure.is_some(), &false);
    expect_same(rt, &target.is_open(), &(want == Ended::TurnLimit));
}

/// A session of a new target in at most so many rounds, in which these bytes come, ends so, and these bytes are read at the other end,
/// whether that end says behind its bytes that no more come or not.
fn is_served<R: Net + Clock + AllocGlobal + Abort>(
    rt: &R,
    bytes: &[u8],
    rounds: u64,
    want: Ended,
    answers: &[u8],
) {
    for ends in [true, false] {
        is_served_so(rt, bytes, ends, rounds, want, answers);
    }
}

/// The same where that end says so, or does not.
fn is_served_so<R: Net + Clock + AllocGlobal + Abort>(
    rt: &R,
    bytes: &[u8],
    ends: bool,
    rounds: u64,
    want: Ended,
    answers: &[u8],
) {
    let listener = bind(rt, 0).expect(rt, "a port");
    let near = caller(rt, listener.port(), bytes, ends);
    ends_so(rt, rt.alloc(), &listener, rounds, want);
    reads(rt, rt.alloc(), near, answers);
}

#[test]
fn a_session_is_served(rt: HostRuntime) {
    is_served(&rt, &SESSION, 6, Ended::Done, &ANSWERS);
    is_served(&rt, &SESSION, 5, Ended::TurnLimit, &ANSWERS[..100]);
    is_served(&rt, &NO_HANDSHAKE, 6, Ended::Refused(4), &[]);
    is_served_so(
        &rt,
        &SESSION[..65],
        true,
        9,
        Ended::LostByRead,
        &ANSWERS[..100],
    );
}

/// What the debugger says behind Dispose is not read by the session; the answers come whole all the same.
#[test]
fn answers_come_though_more_was_said(rt: HostRuntime) {
    let mut said = SESSION.to_vec(rt.alloc()).expect(&rt, "memory");
    said.resize(50_066, 0).expect(&rt, "memory");
    is_served(&rt, &said, 1000, Ended::Done, &ANSWERS);
}

/// Sessions of the target on this port end so, those that were refused have these numbers, and the target is closed behind them.
fn end_so<L: OpenListener, C: Clock + Abort>(
    rt: &C,
    alloc: Global,
    target: &mut Target,
    listener: &PortListener<L>,
    rounds: u64,
    want: Ended,
    faults: &[u16],
)
where
    L::Stream: Read + Write + OpenStream,
{
    let (ended, told) = serves_all(rt, alloc, target, listener, rounds);
    expect_same(rt, &ended.expect(rt, "sessions"), &want);
    expect_same(rt, &refused(rt, alloc, told.as_slice()).as_slice(), &faults);
    expect_same(rt, &target.is_open(), &false);
}

/// Those of a new target, which is served once more where its machine is dead: nobody is awaited then.
fn of_a_new_target_end_so<L: OpenListener, C: Clock + Abort>(
    rt: &C,
    alloc: Global,
    listener: &PortListener<L>,
    rounds: u64,
    want: Ended,
    faults: &[u16],
)
where
    L::Stream: Read + Write + OpenStream,
{
    let mut target = target(rt, alloc);
    end_so(rt, alloc, &mut target, listener, rounds, want, faults);
    if want == Ended::Done {
        end_so(rt, alloc, &mut target, listener, rounds, want, &[]);
    }
}

/// On one port, with one target: a session that is refused, one in which nothing is said, one that is answered, and one of whose words none
/// is read, since no thread is suspended any more: all run to their ends, and the machine dies.
fn four_sessions<R: Net + Clock + AllocGlobal + Abort>(rt: &R) {
    let listener = bind(rt, 0).expect(rt, "a port");
    let port = listener.port();
    let wrong = caller(rt, port, &NO_HANDSHAKE, true);
    let silent = caller(rt, port, &[], true);
    let answered = caller(rt, port, &SESSION, true);
    let unread = caller(rt, port, &SESSION, false);
    of_a_new_target_end_so(rt, rt.alloc(), &listener, 1000, Ended::Done, &[4]);
    reads(rt, rt.alloc(), wrong, &[]);
    reads(rt, rt.alloc(), silent, &[]);
    reads(rt, rt.alloc(), answered, &ANSWERS);
    reads(rt, rt.alloc(), unread, &[]);
}

#[test]
fn sessions_are_served_one_after_the_other(rt: HostRuntime) {
    four_sessions(&rt);
}

/// A session that uses up its rounds is the last one, and it is lost.
fn a_session_is_cut<R: Net + Clock + AllocGlobal + Abort>(rt: &R) {
    let listener = bind(rt, 0).expect(rt, "a port");
    let wrong = caller(rt, listener.port(), &NO_HANDSHAKE, false);
    let cut = caller(rt, listener.port(), &SESSION, true);
    of_a_new_target_end_so(rt, rt.alloc(), &listener, 5, Ended::TurnLimit, &[4]);
    reads(rt, rt.alloc(), wrong, &[]);
    reads(rt, rt.alloc(), cut, &ANSWERS[..100]);
}

#[test]
fn rounds_that_are_used_up_end_it(rt: HostRuntime) {
    a_session_is_cut(&rt);
}
