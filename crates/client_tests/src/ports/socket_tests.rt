//! What is asked of sockets: where they listen and what they reach, their options, and how a connection is closed.
use crate::asserts::expect_same;
use crate::ports::fakes::{Asked, Behind, Listener, Network, Record, address};
use crate::ports::sessions::{NO_HANDSHAKE, SESSION, serves_by, target};
use jdwp_port::{PortListener, bind, connect};
use std::alloc::Global;
use std::net::Shutdown;
use std::process::Abort;
use std::time::Duration;

/// What was asked is this.
fn was_asked(rt: &impl Abort, record: &Record, want: &[Asked]) {
    let asked = record.asked().expect(rt, "what was asked");
    expect_same(rt, &asked.as_slice(), &want);
}

/// Nothing but this machine itself is listened to or reached, at the port that is named.
#[test]
fn sockets_are_of_this_machine_alone(rt: HostRuntime) {
    let record = Record::new(Vec::new(rt.alloc()), &[], Behind::End);
    let network = Network { record: &record };
    let named = bind(&network, 8000).expect(&rt, "a port");
    expect_same(&rt, &named.port(), &8000);
    let chosen = bind(&network, 0).expect(&rt, "a port");
    expect_same(&rt, &chosen.port(), &40_000);
    let _ = connect(&network, 8001).expect(&rt, "a connection");
    let want = [
        Asked::Bind(address(8000)),
        Asked::Bind(address(0)),
        Asked::Connect(address(8001)),
    ];
    was_asked(&rt, &record, &want);
}

/// One session that a target serves, of these bytes and what comes behind them, asks this of its socket.
fn asks(rt: &impl Abort, alloc: Global, record: &Record, want: &[Asked]) {
    let mut target = target(rt, alloc);
    let listener = PortListener::new(Listener::new(record, &[None]), 8000);
    let (ended, _) = serves_by(rt, alloc, record, &mut target, &listener, 1000);
    if ended.is_ok() {
        panic!(rt; "a listener that fails goes on");
    }
    was_asked(rt, record, want);
}

/// The system does not wait for more to write, and has two halves.
const OPENED: [Asked; 2] = [Asked::NoDelay(true), Asked::Clone];

/// That a read waits for so many milliseconds at most.
const fn timeout(millis: u64) -> Asked {
    Asked::Timeout(Some(Duration::from_millis(millis)))
}

/// A session that was not lost, whether it was refused or not: the writing half is ended, and what still comes is read up to its end.
#[test]
fn a_connection_is_ended(rt: HostRuntime) {
    let want = [
        OPENED[0],
        OPENED[1],
        Asked::Shutdown(Shutdown::Write),
        timeout(200),
        Asked::Read(4096),
    ];
    for input in [&SESSION[..], &NO_HANDSHAKE[..]] {
        let record = Record::new(Vec::new(rt.alloc()), input, Behind::End);
        asks(&rt, rt.alloc(), &record, &want);
    }
}

/// A connection that was lost is closed, and nothing else is asked.
#[test]
fn a_lost_connection_is_closed(rt: HostRuntime) {
    let record = Record::new(Vec::new(rt.alloc()), &SESSION[..65], Behind::Bytes);
    asks(&rt, rt.alloc(), &record, &OPENED);
}

/// Behind a session 64 reads are made at most, of 4,096 bytes each.
#[test]
fn sixty_four_reads_are_made_at_most(rt: HostRuntime) {
    let record = Record::new(Vec::new(rt.alloc()), &SESSION, Behind::Bytes);
    let mut want = Vec::new(rt.alloc());
    want.extend_from_slice(&OPENED).expect(&rt, "memory");
    want.push(Asked::Shutdown(Shutdown::Write))
        .expect(&rt, "memory");
    for _ in 0..64 {
        want.push(timeout(200)).expect(&rt, "memory");
        want.push(Asked::Read(4096)).expect(&rt, "memory");
    }
    asks(&rt, rt.alloc(), &record, want.as_slice());
}

/// They wait for 200 ms in all, however slowly bytes come.
#[test]
fn reads_wait_for_a_fifth_of_a_second_in_all(rt: HostRuntime) {
    let slowly = Behind::Slowly(Duration::from_millis(60));
    let record = Record::new(Vec::new(rt.alloc()), &SESSION, slowly);
    let want = [
        OPENED[0],
        OPENED[1],
        Asked::Shutdown(Shutdown::Write),
        timeout(200),
        Asked::Read(4096),
        timeout(140),
        Asked::Read(4096),
        timeout(80),
        Asked::Read(4096),
        timeout(20),
        Asked::Read(4096),
    ];
    asks(&rt, rt.alloc(), &record, &want);
}

/// Where nobody tells the time, nothing is read.
#[test]
fn nothing_is_read_without_a_clock(rt: HostRuntime) {
    let record = Record::new(Vec::new(rt.alloc()), &SESSION, Behind::Bytes);
    record.stop_clock();
    let want = [OPENED[0], OPENED[1], Asked::Shutdown(Shutdown::Write)];
    asks(&rt, rt.alloc(), &record, &want);
}
