//! Connections that can't be taken, for causes that pass and for others, and connections that fail.
use crate::asserts::{expect_same, expect_same_for};
use crate::ports::fakes::{Asked, Behind, Listener, Record};
use crate::ports::peers::{caller, reads};
use crate::ports::sessions::{ANSWERS, NO_HANDSHAKE, SESSION, serves_all, serves_by, target};
use jdwp_port::{Notice, PortListener};
use std::alloc::Global;
use std::cell::Cell;
use std::io;
use std::io::{Read, Write};
use std::net::{Ipv4Addr, OpenListener, OpenStream, SocketAddr, TcpListener, TcpStream};
use std::process::Abort;
use std::rt::Clock;
use std::time::Duration;

/// A listener whose calls fail with these errors of the system, one after the other; where there is none for a call, it is made.
#[derive(Drop)]
struct Failing {
    listener: TcpListener,
    calls: Cell<usize>,
    errors: &'static [Option<i32>],
}

impl OpenListener for Failing {
    type Stream = TcpStream;

    fn accept(&self) -> io::Result<(TcpStream, SocketAddr)> {
        let call = self.calls.get();
        self.calls.set(call.saturating_add(1));
        match self.errors.get(call) {
            Some(Some(number)) => Err(io::Error::from_raw_os_error(*number)),
            _ => self.listener.accept(),
        }
    }
}

/// Calls that were interrupted or found a connection gone, before the first debugger and between two, and then one that fails: ECONNABORTED,
/// EINTR, and EBUSY at last.
static ERRORS: [Option<i32>; 6] = [Some(103), None, Some(4), Some(103), None, Some(16)];

/// What was told, in words.
fn words(rt: &impl Abort, alloc: Global, told: &[Notice]) -> Vec<String> {
    let mut all = Vec::new(alloc);
    for notice in told {
        let text = match notice {
            Notice::Refused(number) => format!(in alloc; "refused {number}"),
            Notice::Lost(cause) => format!(in alloc; "lost: {cause}"),
            Notice::Again(cause) => format!(in alloc; "again: {cause}"),
        };
        all.push(text.expect(rt, "memory")).expect(rt, "memory");
    }
    all
}

/// Sessions of a new target by this clock end with this fault, and this was told on the way.
fn end_with<L: OpenListener + Drop, C: Clock>(
    rt: &impl Abort,
    alloc: Global,
    clock: &C,
    listener: L,
    port: u16,
    fault: &str,
    want: &[&str],
)
where
    L::Stream: Read + Write + OpenStream,
{
    let mut target = target(rt, alloc);
    let listener = PortListener::new(listener, port);
    let (ended, told) = serves_by(rt, alloc, clock, &mut target, &listener, 1000);
    let words = words(rt, alloc, told.as_slice());
    expect_same(rt, &words.len(), &want.len());
    for (found, want) in words.iter().zip(want.iter()) {
        expect_same(rt, &found.as_str(), want);
    }
    match ended {
        Ok(_) => panic!(rt; "a listener that fails goes on"),
        Err(found) => {
            let found = format!(in alloc; "{found}").expect(rt, "memory");
            expect_same(rt, &found.as_str(), &fault);
        }
    }
}

/// The next debugger is awaited, at sockets of the system.
#[test]
fn the_next_debugger_is_awaited(rt: HostRuntime) {
    let address = SocketAddr::from((Ipv4Addr::LOCALHOST, 0));
    let listener = TcpListener::bind(&rt, address).expect(&rt, "a port");
    let port = listener.local_addr().expect(&rt, "an address").port();
    let refused = caller(&rt, port, &NO_HANDSHAKE, true);
    let answered = caller(&rt, port, &SESSION, true);
    let listener = Failing {
        listener,
        calls: Cell::new(0),
        errors: &ERRORS,
    };
    let mut target = target(&rt, rt.alloc());
    let listener = PortListener::new(listener, port);
    let (ended, told) = serves_all(&rt, rt.alloc(), &mut target, &listener, 1000);
    expect_same(&rt, &ended.is_err(), &true);
    expect_same(&rt, &told.len(), &4);
    reads(&rt, rt.alloc(), refused, &[]);
    reads(&rt, rt.alloc(), answered, &ANSWERS);
}

/// One session that is not refused or lost.
const SERVED: Option<i32> = None;

/// The errors that pass, as accept(2) names them: EPERM, EINTR, ENOMEM, ENFILE, EMFILE, ENONET, EPROTO, ENOPROTOOPT, EOPNOTSUPP, ENETDOWN,
/// ENETUNREACH, ECONNABORTED, ENOBUFS, EHOSTDOWN, EHOSTUNREACH.
static PASSING: [[Option<i32>; 1]; 15] = [
    [Some(1)],
    [Some(4)],
    [Some(12)],
    [Some(23)],
    [Some(24)],
    [Some(64)],
    [Some(71)],
    [Some(92)],
    [Some(95)],
    [Some(100)],
    [Some(101)],
    [Some(103)],
    [Some(105)],
    [Some(112)],
    [Some(113)],
];

/// Some that do not: EBADF, EAGAIN, EACCES, EINVAL, ENOTSOCK.
static OTHERS: [[Option<i32>; 1]; 5] = [[Some(9)], [Some(11)], [Some(13)], [Some(22)], [Some(88)]];

/// How many calls of a listener with these errors were told of and made again.
fn told_of(rt: &impl Abort, alloc: Global, errors: &'static [Option<i32>]) -> usize {
    let record = Record::new(Vec::new(alloc), &SESSION, Behind::End);
    let mut target = target(rt, alloc);
    let listener = PortListener::new(Listener::new(&record, errors), 8000);
    let (ended, told) = serves_by(rt, alloc, &record, &mut target, &listener, 1000);
    expect_same(rt, &ended.is_err(), &true);
    told.len()
}

/// Errors that pass are told, and another call is made; others end it.
#[test]
fn errors_pass_or_end_it(rt: HostRuntime) {
    for errors in PASSING.iter() {
        expect_same_for(&rt, &told_of(&rt, rt.alloc(), errors), &1, errors);
    }
    for errors in OTHERS.iter() {
        expect_same_for(&rt, &told_of(&rt, rt.alloc(), errors), &0, errors);
    }
}

/// The calls sleep for so many milliseconds each, in order.
fn slept(rt: &impl Abort, record: &Record, want: &[u64]) {
    let asked = record.asked().expect(rt, "what was asked");
    let mut place = 0usize;
    for asked in asked.iter() {
        if let Asked::Sleep(time) = asked {
            let millis = want.get(place).expect(rt, "no more sleep");
            expect_same(rt, time, &Duration::from_millis(*millis));
            place = place.saturating_add(1);
        }
    }
    expect_same(rt, &place, &want.len());
}

const FILES: &str = "again: Too many open files (os error 24)";

/// Each call in a row that finds no connection waits longer, and a session makes an end of the row.
#[test]
fn calls_wait_longer_in_a_row(rt: HostRuntime) {
    static ROW: [Option<i32>; 4] = [Some(24), Some(24), SERVED, Some(24)];
    let record = Record::new(Vec::new(rt.alloc()), &NO_HANDSHAKE, Behind::End);
    let listener = Listener::new(&record, &ROW);
    let want = [FILES, FILES, "refused 4", FILES];
    let fault = "port 8000: not allowed";
    end_with(&rt, rt.alloc(), &record, listener, 8000, fault, &want);
    slept(&rt, &record, &[10, 20, 10]);
}

/// A hundred and one in a row are too many.
#[test]
fn a_row_has_an_end(rt: HostRuntime) {
    static ROW: [Option<i32>; 200] = [Some(24); 200];
    let record = Record::new(Vec::new(rt.alloc()), &SESSION, Behind::End);
    let listener = Listener::new(&record, &ROW);
    let want = [FILES; 100];
    let fault = "port 8000: Too many open files (os error 24)";
    end_with(&rt, rt.alloc(), &record, listener, 8000, fault, &want);
    let mut waits = [1000; 100];
    waits[..7].copy_from_slice(&[10, 20, 40, 80, 160, 320, 640]);
    slept(&rt, &record, &waits);
}

/// Where the system gives no second half of a connection since too many files are open, that connection is let go.
#[test]
fn a_connection_may_be_let_go(rt: HostRuntime) {
    static ROW: [Option<i32>; 2] = [SERVED; 2];
    let record = Record::new(Vec::new(rt.alloc()), &NO_HANDSHAKE, Behind::End);
    record.refuse(1);
    let listener = Listener::new(&record, &ROW);
    let fault = "port 8000: not allowed";
    end_with(
        &rt,
        rt.alloc(),
        &record,
        listener,
        8000,
        fault,
        &[FILES, "refused 4"],
    );
}

/// Why the connection of a session failed is told; where the other end closed it, nothing is.
#[test]
fn a_lost_connection_is_told(rt: HostRuntime) {
    static ROW: [Option<i32>; 1] = [SERVED];
    let fault = "port 8000: not allowed";
    let record = Record::new(Vec::new(rt.alloc()), &SESSION[..65], Behind::End);
    let listener = Listener::new(&record, &ROW);
    end_with(&rt, rt.alloc(), &record, listener, 8000, fault, &[]);
    let record = Record::new(Vec::new(rt.alloc()), &SESSION[..65], Behind::End);
    record.fail(104);
    let listener = Listener::new(&record, &ROW);
    let want = ["lost: Connection reset by peer (os error 104)"];
    end_with(&rt, rt.alloc(), &record, listener, 8000, fault, &want);
}
