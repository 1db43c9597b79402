//! A session of a debugger at a port.
use crate::asserts::expect_same;
use crate::ports::peers::{reads, says};
use crate::ports::sessions::{ANSWERS, SESSION};
use jdwp_attach::{Attached, read_plan};
use jdwp_debugger::Debugger;
use jdwp_end::{Ended, Streams};
use jdwp_port::{attach_stream, bind, connect};
use std::alloc::Global;
use std::io;
use std::io::{Read, Write};
use std::net::{Net, OpenStream};
use std::process::Abort;
use std::rt::Clock;

const PLAN: &str = "ask 1 8\nask 11 12 0000000000000001\nask 1 6\nanswers\n";

const PRINTED: &str = "< hello
< 1 Event.Composite 0 [(90, 0, #1)]
< 1 reply VirtualMachine.IDSizes 0 8 8 8 8 8
< 2 reply VirtualMachine.Suspend 0
< 3 reply ThreadReference.SuspendCount 0 1
< 4 reply VirtualMachine.Dispose 0
";

/// A closed debugger, on the heap.
fn debugger(rt: &impl Abort, alloc: Global) -> Box<Debugger> {
    let debugger = Debugger::new(alloc).expect(rt, "memory");
    Box::new(alloc, debugger).expect(rt, "memory")
}

/// How a session of a new debugger by the plan ended on a connection at this port, and what was printed.
fn attaches<S: Read + Write + OpenStream + Drop, C: Clock + Abort>(
    rt: &C,
    alloc: Global,
    port: u16,
    stream: S,
) -> (Attached, Vec<u8>) {
    let plan = read_plan(alloc, PLAN).expect(rt, "the plan is read");
    let mut debugger = debugger(rt, alloc);
    let mut out = Streams::new(io::empty(), Vec::new(alloc));
    let session = attach_stream(
        alloc,
        rt,
        &mut debugger,
        port,
        stream,
        plan.as_slice(),
        &mut out,
        1000,
    )
    .expect(rt, "a session");
    let (_, printed) = out.into_parts();
    expect_same(rt, &session.failure.is_some(), &false);
    (session.how, printed)
}

/// The target's bytes come first, and then a debugger asks by the plan: what it sends is read at the other end, and what it reads is printed.
/// What the target says is ended or not.
fn is_attached<R: Net + Clock + AllocGlobal + Abort>(rt: &R, ends: bool) {
    let listener = bind(rt, 0).expect(rt, "a port");
    let port = listener.port();
    let near = connect(rt, port).expect(rt, "a connection");
    let far = listener.accept().expect(rt, "the other end");
    let far = says(rt, far, &ANSWERS, ends);
    let (how, printed) = attaches(rt, rt.alloc(), port, near);
    expect_same(rt, &how, &Attached::Ended(Ended::Done));
    expect_same(rt, &printed.as_slice(), &PRINTED.as_bytes());
    reads(rt, rt.alloc(), far, &SESSION);
}

#[test]
fn a_debugger_is_attached(rt: HostRuntime) {
    is_attached(&rt, true);
    is_attached(&rt, false);
}
