//! Runs over connections that fail, and over one whose answers are long.
ghost use Rattle.std.specs.Prelude.{◌≡◌, is_some, true, refl};

use crate::asserts::{expect_same, expect_same_for};
use crate::runs::{READY, Writer, run_script, run_text, standard};
use jdwp_attach::{PlanLine, read_plan};
use jdwp_debugger::Order;
use jdwp_link::{Memory, Side, Way};
use jdwp_pair::{Connection, Loopback, PairEnded};
use jdwp_port::PortFault;
use std::alloc::Global;
use std::io;
use std::io::ErrorKind;
use std::net::{Net, SocketAddr, TcpListener, TcpStream};
use std::process::Abort;

/// A connection that fails at a piece, or as a session begins.
#[derive(Drop)]
struct Failing {
    carried: Memory,
    pieces: u32,
    /// At which piece it fails, from 1; 0 for none.
    fails_at: u32,
    sessions: u32,
    /// As which session begins it fails, from 1; 0 for none.
    ends_at: u32,
    failure: Option<PortFault>,
}

impl Failing {
    fn at(fails_at: u32, ends_at: u32) -> Failing {
        Failing {
            carried: Memory::new(),
            pieces: 0,
            fails_at,
            sessions: 0,
            ends_at,
            failure: None,
        }
    }

    fn fail(&mut self)
        ensures { is_some self.new.failure ≡ true }
    {
        let error = io::Error::from(ErrorKind::ConnectionReset);
        self.failure = Some(PortFault::of_port(7, error));
    }
}

impl Way for Failing {
    ghost story = { λ f. f.carried };

    ghost has_failed = { λ f. is_some f.failure };

    fn carry(&mut self, from: Side, piece: &[u8]) {
        if self.failure.is_some() {
            return;
        }
        self.pieces = self.pieces.saturating_add(1);
        if self.pieces == self.fails_at {
            self.fail();
        } else {
            self.carried.carry(from, piece);
        }
    }
}

impl Connection for Failing {
    ghost failed_by = { λ f. f.failure };

    fn failure(&self) -> Option<PortFault> {
        self.failure
    }

    fn lose(&mut self, _side: Side) {}

    fn attach(&mut self) {
        self.sessions = self.sessions.saturating_add(1);
        if self.sessions == self.ends_at {
            self.fail();
        }
    }

    ghost fails_so = { λ f. refl };
}

/// A run of the plan over a connection that fails so ends as this, and prints this.
fn fails(
    rt: &impl Abort,
    alloc: Global,
    mut connection: Failing,
    plan: &str,
    want: PairEnded,
    told: &str,
) {
    let writer = Writer::failing(alloc, 0, 0);
    let (ended, lines) = run_text(rt, alloc, &mut connection, true, plan, writer, 1000);
    expect_same_for(rt, &ended, &want, &connection.pieces);
    expect_same_for(rt, &lines.as_slice(), &told.as_bytes(), &connection.pieces);
}

/// The handshakes, IDSizes and its reply pass a connection in four pieces, and a command and its reply in two more.
#[test]
fn a_connection_that_fails_ends_a_run(rt: HostRuntime) {
    let lost = PairEnded::LostConnection;
    let told = ["", "", "< hello\n", "< hello\n", READY, READY];
    for (place, told) in told.iter().enumerate() {
        let connection = Failing::at(place as u32 + 1, 0);
        fails(&rt, rt.alloc(), connection, "ask 1 8\nmirror", lost, told);
    }
    let (connection, done) = (Failing::at(5, 0), PairEnded::Done);
    fails(&rt, rt.alloc(), connection, "", done, READY);
}

/// It may fail as a session begins, the first or another.
#[test]
fn a_connection_that_is_not_made_ends_a_run(rt: HostRuntime) {
    let lost = PairEnded::LostConnection;
    let plan = "lose target\nlose debugger\nmirror\nattach\nmirror";
    fails(&rt, rt.alloc(), Failing::at(0, 1), plan, lost, "");
    fails(&rt, rt.alloc(), Failing::at(0, 2), plan, lost, READY);
}

/// A system that gives no ports.
struct Closed;

impl Net for Closed {
    type Stream = TcpStream;

    type Listener = TcpListener;

    fn bind(&self, _address: SocketAddr) -> io::Result<TcpListener> {
        Err(io::Error::from(ErrorKind::PermissionDenied))
    }

    fn connect(&self, _address: SocketAddr) -> io::Result<TcpStream> {
        Err(io::Error::from(ErrorKind::ConnectionRefused))
    }
}

#[test]
fn a_system_without_ports_is_told(rt: HostRuntime) {
    let mut loopback = Loopback::new(&Closed);
    let writer = Writer::failing(rt.alloc(), 0, 0);
    let (ended, lines) = run_text(&rt, rt.alloc(), &mut loopback, true, "", writer, 1000);
    expect_same(&rt, &ended, &PairEnded::LostConnection);
    expect_same(&rt, &lines.as_slice(), &b"".as_slice());
    let fault = loopback.failure().expect(&rt, "a failure");
    let told = format!(in rt.alloc(); "{fault}").expect(&rt, "memory");
    expect_same(&rt, &told.as_str(), &"port 0: not allowed");
}

/// A system on which so many strangers come to a port before whoever connects to it.
#[derive(Drop)]
struct Visited<'a, R: Net> {
    net: &'a R,
    strangers: u32,
}

impl<'a, R: Net> Net for Visited<'a, R> {
    type Stream = R::Stream;

    type Listener = R::Listener;

    fn bind(&self, address: SocketAddr) -> io::Result<R::Listener> {
        self.net.bind(address)
    }

    fn connect(&self, address: SocketAddr) -> io::Result<R::Stream> {
        for _ in 0..self.strangers {
            self.net.connect(address)?;
        }
        self.net.connect(address)
    }
}

/// A run over a system with so many strangers ends and prints so.
fn is_visited<R: AllocGlobal + Abort + Net>(rt: &R, strangers: u32, want: PairEnded, told: &str) {
    let visited = Visited { net: rt, strangers };
    let mut loopback = Loopback::new(&visited);
    let writer = Writer::failing(rt.alloc(), 0, 0);
    let (ended, lines) = run_text(rt, rt.alloc(), &mut loopback, true, "", writer, 1000);
    expect_same_for(rt, &ended, &want, &strangers);
    expect_same_for(rt, &lines.as_slice(), &told.as_bytes(), &strangers);
}

/// A stranger that came first is let go; sixteen of them end a run.
#[test]
fn a_stranger_is_let_go(rt: HostRuntime) {
    for strangers in [0, 1, 15] {
        is_visited(&rt, strangers, PairEnded::Done, READY);
    }
    is_visited(&rt, 16, PairEnded::LostConnection, "");
}

/// How many letters the text of an object has.
const LETTERS: usize = 9_000;

/// So many letters.
fn letters(rt: &impl Abort, alloc: Global, count: usize) -> String {
    let mut text = String::new(alloc);
    for _ in 0..count {
        text.push('m').expect(rt, "memory");
    }
    text
}

/// The machine of one thread and one object, which has this text.
fn machine_of(rt: &impl Abort, alloc: Global, text: &str) -> String {
    format!(in alloc;
        "{{\"name\":\"B\",\"sizes\":[8,8,8,8,8],
\"groups\":[{{\"id\":5,\"name\":\"main\",\"parent\":0}}],
\"classes\":[{{\"id\":10,\"tag\":1,\"signature\":\"LText;\",\"modifiers\":1,
 \"super\":0,\"interfaces\":[],\"source\":null,\"fields\":[],\"methods\":[]}}],
\"objects\":[{{\"id\":40,\"class\":10,\"fields\":[],\"text\":\"{text}\",\"array\":null}}],
\"threads\":[{{\"id\":1,\"name\":\"main\",\"group\":5,\"steps\":[]}}]}}"
    )
    .expect(rt, "memory")
}

/// The commands that ask the text have the ids from 2 to below this one.
const END_OF_IDS: u32 = 22;

/// The plan that asks the text of the object once for each id.
fn plan_of_texts(rt: &impl Abort, alloc: Global) -> Vec<PlanLine> {
    let mut plan = String::new(alloc);
    for _ in 2..END_OF_IDS {
        plan.push_str("ask 10 1 0000000000000028\n")
            .expect(rt, "memory");
    }
    read_plan(alloc, &plan).expect(rt, "a plan")
}

/// The lines of its run, where this is the text.
fn lines_of_texts(rt: &impl Abort, alloc: Global, text: &str) -> String {
    let mut lines = String::new(alloc);
    lines.push_str(READY).expect(rt, "memory");
    for id in 2..END_OF_IDS {
        write!(lines, "< {id} reply StringReference.Value 0 \"{text}\"\n").expect(rt, "memory");
    }
    lines
}

/// A text is asked again and again; each answer passes in three pieces.
#[test]
fn long_answers_pass_a_connection(rt: HostRuntime) {
    let alloc = rt.alloc();
    let text = letters(&rt, alloc, LETTERS);
    let script = machine_of(&rt, alloc, &text);
    let plan = plan_of_texts(&rt, alloc);
    let writer = Writer::failing(alloc, 0, 0);
    let mut loopback = Loopback::new(&rt);
    let settings = standard(&rt, true);
    let (ended, told) = run_script(
        &rt,
        alloc,
        &mut loopback,
        &script,
        settings,
        false,
        Order::One,
        &plan,
        writer,
        100,
    );
    expect_same(&rt, &ended, &PairEnded::Done);
    let lines = lines_of_texts(&rt, alloc, &text);
    expect_same(&rt, &told.as_slice(), &lines.as_bytes());
}
