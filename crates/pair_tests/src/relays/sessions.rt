//! Sessions at a port, one after the other, each in a file of its own.
use super::packets::{ANSWERS, ASKS};
use crate::asserts::expect_same;
use jdwp_port::PortListener;
use jdwp_record::{RecordFault, RecordNotice, Recorder, Recording};
use std::alloc::Global;
use std::cell::Cell;
use std::io::{ErrorKind, Read, Write};
use std::net::{Net, OpenListener, OpenStream, Shutdown, SocketAddr, TcpListener, TcpStream};
use std::os::fd::{AsRawFd, RawFd};
use std::process::Abort;
use std::rt::{Clock, Files};
use std::{fs, io};

/// EBUSY, as Linux numbers it: an error of `accept` that does not pass.
const BUSY: i32 = 16;

/// A listener that gives so many connections, and then fails.
#[derive(Drop)]
struct Listener<'a> {
    listener: &'a TcpListener,
    left: Cell<u32>,
}

impl OpenListener for Listener<'_> {
    type Stream = TcpStream;

    fn accept(&self) -> io::Result<(TcpStream, SocketAddr)> {
        let Some(left) = self.left.get().checked_sub(1) else {
            return Err(io::Error::from_raw_os_error(BUSY));
        };
        self.left.set(left);
        self.listener.accept()
    }
}

impl AsRawFd for Listener<'_> {
    fn as_raw_fd(&self) -> RawFd {
        -1
    }
}

/// A network whose target says all that it has to say as soon as it is connected.
#[derive(Drop)]
struct Network<'a, R> {
    rt: &'a R,
    target: &'a TcpListener,
    /// How many connections to the target are refused before the first that is not.
    refuses: Cell<u32>,
}

impl<'a, R: Net<Stream = TcpStream, Listener = TcpListener> + Drop> Net for Network<'a, R> {
    type Stream = TcpStream;

    type Listener = Listener<'a>;

    fn bind(&self, _address: SocketAddr) -> io::Result<Listener<'a>> {
        Err(io::Error::from(ErrorKind::Unsupported))
    }

    fn connect(&self, address: SocketAddr) -> io::Result<TcpStream> {
        if let Some(refuses) = self.refuses.get().checked_sub(1) {
            self.refuses.set(refuses);
            return Err(io::Error::from(ErrorKind::ConnectionRefused));
        }
        let near = self.rt.connect(address)?;
        let (mut far, _) = self.target.accept()?;
        far.write_all(&ANSWERS)?;
        far.shutdown(Shutdown::Write)?;
        Ok(near)
    }
}

/// A listener at a port that the system chose, and the port.
fn listens<R: Net<Stream = TcpStream, Listener = TcpListener> + Abort>(
    rt: &R,
) -> (TcpListener, u16) {
    let listener = rt
        .bind(SocketAddr::from(([127, 0, 0, 1], 0)))
        .expect(rt, "a port");
    let port = listener.local_addr().expect(rt, "an address").port();
    (listener, port)
}

/// A connection to this port on which a debugger said all that it has to say.
fn caller<R: Net<Stream = TcpStream, Listener = TcpListener> + Abort>(
    rt: &R,
    port: u16,
) -> TcpStream {
    let mut stream = jdwp_port::connect(rt, port).expect(rt, "a connection");
    stream.write_all(&ASKS).expect(rt, "all is written");
    stream.shutdown(Shutdown::Write).expect(rt, "an end");
    stream
}

/// A file holds the capture of the session, with the lines of both ends in whatever order they came, and is removed.
fn holds_capture<R: Files + AllocGlobal + Abort>(rt: &R, file: &str) {
    let text = fs::read_to_string(rt, file).expect(rt, "the file is read");
    fs::remove_file(rt, file).expect(rt, "the file is removed");
    is_capture(rt, rt.alloc(), text.as_bytes());
}

/// This is the capture of the session, with the lines of both ends in whatever order they came.
fn is_capture(rt: &impl Abort, alloc: Global, text: &[u8]) {
    let up = "> 4a4457502d48616e647368616b650000000b00000001000107\n";
    let down =
        "< 4a4457502d48616e647368616b650000001f000000018000000000000800000008000000080000000800000008\n";
    let first = format!(in alloc; "{up}{down}").expect(rt, "memory");
    let second = format!(in alloc; "{down}{up}").expect(rt, "memory");
    assert!(rt; text == first.as_bytes() || text == second.as_bytes());
}

/// A debugger reads what the target said, up to its end.
fn reads_answers(rt: &impl Abort, alloc: Global, mut debugger: TcpStream) {
    let mut all = Vec::new(alloc);
    debugger.read_to_end(&mut all).expect(rt, "all is read");
    expect_same(rt, &all.as_slice(), &ANSWERS.as_slice());
}

/// A session is recorded turn by turn, and the lines that its turns wrote are those of its capture.
fn by_turns<S: Read + Write + OpenStream + AsRawFd + Drop, W: Write + Drop>(
    rt: &impl Abort,
    alloc: Global,
    mut session: Recording<S, W>,
) -> Result<(), RecordFault> {
    let mut lines = Vec::new(alloc);
    for _ in 0..1000 {
        let goes_on = match session.step() {
            Ok(goes_on) => goes_on,
            Err(fault) => return Err(session.broken_off(fault)),
        };
        lines
            .extend_from_slice(session.fresh())
            .expect(rt, "memory");
        if !goes_on {
            is_capture(rt, alloc, &lines);
            return Ok(());
        }
    }
    panic!(rt; "it goes on")
}

/// A recorder that takes so many connections, the first of which find no target, and goes on until none is taken any more: how many targets were
/// not reached, the numbers of the sessions that were recorded, one after the other as digits, and why it ended.
fn records<R>(
    rt: &R,
    connections: u32,
    refuses: u32,
    to: &str,
    listener: &TcpListener,
    target: &TcpListener,
) -> (u32, u32, RecordFault)
where
    R: Files + Clock + AllocGlobal + Abort + Drop,
    R: Net<Stream = TcpStream, Listener = TcpListener>,
{
    let net = Network {
        rt,
        target,
        refuses: Cell::new(refuses),
    };
    let left = Cell::new(connections);
    let listener = PortListener::new(Listener { listener, left }, 8000);
    let port = target.local_addr().expect(rt, "an address").port();
    let mut recorder = Recorder::new(port, to);
    let (mut unreached, mut recorded): (u32, u32) = (0, 0);
    for _ in 0..10 {
        match recorder.begin_next(rt, &net, &listener) {
            Ok(RecordNotice::Unreached(_, _)) => unreached = unreached.saturating_add(1),
            Ok(RecordNotice::Begun(number, session)) => {
                recorded = recorded.saturating_mul(10).saturating_add(number);
                let run = if number == 1 {
                    session.run()
                } else {
                    by_turns(rt, rt.alloc(), session)
                };
                if let Err(fault) = run {
                    return (unreached, recorded, fault);
                }
            }
            Ok(RecordNotice::Again(_)) => {}
            Err(fault) => return (unreached, recorded, fault),
        }
    }
    panic!(rt; "it goes on")
}

/// A debugger whose target is not reached, and then two sessions, each in a file of its own.
fn records_each<R>(rt: &R)
where
    R: Files + Clock + AllocGlobal + Abort + Drop,
    R: Net<Stream = TcpStream, Listener = TcpListener>,
{
    let (target, _) = listens(rt);
    let (listener, port) = listens(rt);
    let _unreached = caller(rt, port);
    let first = caller(rt, port);
    let second = caller(rt, port);
    let (unreached, recorded, fault) = records(rt, 3, 1, "each.capture", &listener, &target);
    expect_same(rt, &(unreached, recorded), &(1, 12));
    let ended = matches!(fault, RecordFault::Port(8000, _));
    expect_same(rt, &ended, &true);
    holds_capture(rt, "each.capture");
    holds_capture(rt, "each.capture.2");
    reads_answers(rt, rt.alloc(), first);
    reads_answers(rt, rt.alloc(), second);
}

/// Where the file can't be made no session is recorded, and the fault names it.
fn records_nowhere<R>(rt: &R)
where
    R: Files + Clock + AllocGlobal + Abort + Drop,
    R: Net<Stream = TcpStream, Listener = TcpListener>,
{
    let (target, _) = listens(rt);
    let (listener, port) = listens(rt);
    let _debugger = caller(rt, port);
    let (unreached, recorded, fault) = records(rt, 2, 0, "no folder/f", &listener, &target);
    expect_same(rt, &(unreached, recorded), &(0, 0));
    match fault {
        RecordFault::NoFile(name, _) => expect_same(rt, &name.as_str(), &"no folder/f"),
        _ => panic!(rt; "a file is made in no folder"),
    }
}

#[test]
fn each_session_has_its_file(rt: HostRuntime) {
    records_each(&rt);
    records_nowhere(&rt);
}
