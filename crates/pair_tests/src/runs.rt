//! Plans over the machine of a script, and what is to come of them.
use crate::asserts::expect_same_for;
use jdwp_attach::{PlanLine, read_plan};
use jdwp_debuggee::Settings;
use jdwp_debugger::Order;
use jdwp_end::Streams;
use jdwp_link::Memory;
use jdwp_pair::{Connection, PairEnded, pair_script};
use jdwp_wire::Limits;
use std::alloc::Global;
use std::io;
use std::io::{Empty, ErrorKind, Write};
use std::process::Abort;
use test_parts::MACHINE_A;

/// What is printed until the widths of ids are known.
pub(crate) const READY: &str = "< hello
< 1 Event.Composite 2 [(90, 0, #1)]
< 1 reply VirtualMachine.IDSizes 0 8 8 8 8 8
";

/// What is done, and what comes of it.
#[derive(Clone, Copy)]
pub(crate) struct Case {
    pub start_all: bool,
    /// Whether the target defers replies.
    pub defer: bool,
    /// In which order the debugger takes it to send.
    pub order: Order,
    pub plan: &'static str,
    pub rounds: u32,
    /// Which write fails, from 1; 0 for none.
    pub write_fails: u32,
    /// Which flush fails, from 1; 0 for none.
    pub flush_fails: u32,
    pub ended: PairEnded,
    pub lines: &'static str,
}

/// All threads begin suspended, no reply is deferred, each packet is sent as the target acts, there are rounds enough, and no write fails.
pub(crate) const CASE: Case = Case {
    start_all: true,
    defer: false,
    order: Order::One,
    plan: "",
    rounds: 1000,
    write_fails: 0,
    flush_fails: 0,
    ended: PairEnded::Done,
    lines: "",
};

/// Keeps what is written, and fails at one call, and at one flush.
#[derive(Drop)]
pub(crate) struct Writer {
    bytes: Vec<u8>,
    calls: u32,
    fails: u32,
    flushes: u32,
    flush_fails: u32,
}

impl Writer {
    pub fn failing(alloc: Global, fails: u32, flush_fails: u32) -> Writer {
        Writer {
            bytes: Vec::new(alloc),
            calls: 0,
            fails,
            flushes: 0,
            flush_fails,
        }
    }
}

impl Write for Writer {
    fn write(&mut self, bytes: &[u8]) -> io::Result<usize> {
        self.calls = self.calls.saturating_add(1);
        if self.calls == self.fails {
            return Err(io::Error::from(ErrorKind::BrokenPipe));
        }
        self.bytes.extend_from_slice(bytes)?;
        Ok(bytes.len())
    }

    fn flush(&mut self) -> io::Result<()> {
        self.flushes = self.flushes.saturating_add(1);
        if self.flushes == self.flush_fails {
            return Err(io::Error::from(ErrorKind::BrokenPipe));
        }
        Ok(())
    }
}

/// Settings within the standard limits.
pub(crate) fn standard(rt: &impl Abort, start_all: bool) -> Settings {
    Settings::new(start_all, 65_535, Limits::standard()).expect(rt, "a count limit")
}

/// How a run over the machine of this script ends, and what it prints.
pub(crate) fn run_script<C: Connection>(
    rt: &impl Abort,
    alloc: Global,
    connection: &mut C,
    script: &str,
    settings: Settings,
    defer: bool,
    order: Order,
    plan: &[PlanLine],
    writer: Writer,
    rounds: u32,
) -> (PairEnded, Vec<u8>) {
    let mut out: Streams<Empty, Writer> = Streams::new(io::empty(), writer);
    let ended = pair_script(
        alloc, script, settings, defer, order, connection, plan, &mut out, rounds,
    )
    .expect(rt, "a script that is read");
    let (_, writer) = out.into_parts();
    (ended, writer.bytes)
}

/// The same over machine A, by a plan that a text is, where no reply is deferred.
pub(crate) fn run_text<C: Connection>(
    rt: &impl Abort,
    alloc: Global,
    connection: &mut C,
    start_all: bool,
    plan: &str,
    writer: Writer,
    rounds: u32,
) -> (PairEnded, Vec<u8>) {
    let settings = standard(rt, start_all);
    let plan = read_plan(alloc, plan).expect(rt, "a plan");
    run_script(
        rt,
        alloc,
        connection,
        MACHINE_A,
        settings,
        false,
        Order::One,
        &plan,
        writer,
        rounds,
    )
}

/// A case comes to what it says over memory.
pub(crate) fn passes(rt: &impl Abort, alloc: Global, case: &Case) {
    passes_over(rt, alloc, &mut Memory::new(), case);
}

/// A case comes to what it says over this connection.
pub(crate) fn passes_over<C: Connection>(
    rt: &impl Abort,
    alloc: Global,
    connection: &mut C,
    case: &Case,
) {
    let (ended, lines) = run_case(rt, alloc, connection, case);
    expect_same_for(rt, &ended, &case.ended, &case.plan);
    expect_same_for(rt, &lines.as_slice(), &case.lines.as_bytes(), &case.plan);
}

/// How the run of a case ends over this connection, and what it prints.
pub(crate) fn run_case<C: Connection>(
    rt: &impl Abort,
    alloc: Global,
    connection: &mut C,
    case: &Case,
) -> (PairEnded, Vec<u8>) {
    let settings = standard(rt, case.start_all);
    let plan = read_plan(alloc, case.plan).expect(rt, "a plan");
    let writer = Writer::failing(alloc, case.write_fails, case.flush_fails);
    let (defer, order, rounds) = (case.defer, case.order, case.rounds);
    run_script(
        rt, alloc, connection, MACHINE_A, settings, defer, order, &plan, writer, rounds,
    )
}
