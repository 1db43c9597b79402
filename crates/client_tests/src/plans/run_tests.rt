//! Plans, run by a client over the bytes of a peer.
use super::packets::{beginning, push_breakpoint, push_int_reply};
use crate::asserts::{expect_same, expect_same_for};
use jdwp_client::{Client, Options};
use jdwp_debugger::Order;
use jdwp_end::Streams;
use jdwp_plan::read_written;
use jdwp_plan_run::{PlanEnded, Unlimited, junit_text, run_plan};
use std::alloc::Global;
use std::io;
use std::io::{Read, Write};
use std::process::Abort;

/// Gives these bytes, and then the end.
#[derive(Drop)]
struct Peer<'a>(&'a [u8]);

impl<'a> Read for Peer<'a> {
    fn read(&mut self, buffer: &mut [u8]) -> io::Result<usize> {
        let count = buffer.len().min(self.0.len());
        buffer[..count].copy_from_slice(&self.0[..count]);
        self.0 = &self.0[count..];
        Ok(count)
    }
}

/// Takes what it is given.
#[derive(Drop)]
pub(crate) struct Sink(pub(crate) Vec<u8>);

impl Write for Sink {
    fn write(&mut self, bytes: &[u8]) -> io::Result<usize> {
        self.0.extend_from_slice(bytes)?;
        Ok(bytes.len())
    }

    fn flush(&mut self) -> io::Result<()> {
        Ok(())
    }
}

/// How the plan ends with a peer that tells a breakpoint of thread 1, and answers the first command, if there is one, with the int 1; what is printed;
/// and what JUnit is told.
fn run(rt: &impl Abort, alloc: Global, text: &str) -> (PlanEnded, Vec<u8>, String) {
    let mut bytes = beginning(rt, alloc);
    push_breakpoint(rt, &mut bytes, 1, 5);
    if text.contains("ask") {
        push_int_reply(rt, &mut bytes, 2, 1);
    }
    let plan = read_written(alloc, text).expect(rt, "a plan");
    let pipe = Unlimited {
        pipe: Streams::new(Peer(&bytes), Sink(Vec::new(alloc))),
    };
    let client = Client::new(alloc, pipe, Options::new(Order::Apart)).expect(rt, "memory");
    let mut client = Box::new(alloc, client).expect(rt, "memory");
    let mut out = Streams::new(io::empty(), Sink(Vec::new(alloc)));
    let ended = run_plan(alloc, &mut client, &plan, &mut out);
    let told = junit_text(alloc, "a.plan", &plan, &ended).expect(rt, "memory");
    let (_, printed) = out.into_parts();
    (ended, printed.0, told)
}

/// The line at which a run ended.
pub(crate) fn line_of(ended: &PlanEnded) -> Option<usize> {
    match ended {
        PlanEnded::Done => None,
        PlanEnded::At { line, .. } => Some(*line),
    }
}

/// A plan that goes with the peer.
const PLAN: &str =
    "plan 2\n# where the thread stands\n\ntimeout 1000\nwait event\nlet thread = 0.2\nexpect held $thread\n\
    mirror\nexpect thread 1 1+ held\nask ThreadReference.SuspendCount $thread\nlet count = 0\nexpect 0 $count\nexpect _ 1\n";

/// What is printed by it.
const PRINTED: &str =
    "< Event.Composite 1 [(2, 5, #1, 1:#10:#20:3)]\nthread 1 1+ held\n< reply ThreadReference.SuspendCount 0 1\n";

#[test]
fn a_plan_is_carried_out(rt: HostRuntime) {
    let alloc = rt.alloc();
    let (ended, printed, _) = run(&rt, alloc, PLAN);
    expect_same(
        &rt,
        &(ended.verdict().status(), line_of(&ended)),
        &(0, None),
    );
    expect_same(&rt, &printed.as_slice(), &PRINTED.as_bytes());
}

/// Plans that end before their last line, the status, and the line.
const ENDS: [(&str, u8, Option<usize>); 18] = [
    (
        "plan 2\nevents 1\nexpect 1 [(2, 5, #2, _)]\nmirror",
        5,
        Some(3),
    ),
    ("plan 2\nwait event\nexpect 1 [(2, 5, #1)]", 5, Some(3)),
    ("plan 2\nwait event\nexpect free #1\n", 5, Some(3)),
    ("plan 2\nwait event\nexpect held #2\n", 5, Some(3)),
    ("plan 2\nmirror\nexpect thread 1 1+ held", 5, Some(3)),
    ("plan 2\nevents 2\nmirror", 5, Some(2)),
    ("plan 2\nmay end\nevents 2\nmirror", 0, Some(3)),
    ("plan 2\nevents 2\nmay end", 5, Some(2)),
    ("plan 2\nmay end\nwait event\nexpect 0", 5, Some(4)),
    ("plan 2\nask ThreadReference.SuspendCount 1\n", 1, Some(2)),
    ("plan 2\nask ThreadReference.SuspendCount $t\n", 1, Some(2)),
    ("plan 2\nask ClassType.InvokeMethod #1\n", 1, Some(2)),
    ("plan 2\nexpect 0", 1, Some(2)),
    ("plan 2\nlet t = 0\n", 1, Some(2)),
    ("plan 2\nwait event\nlet t = 0.7", 1, Some(3)),
    ("plan 2\nmirror\nlet t = 0", 1, Some(3)),
    ("plan 2\nexpect held 1\n", 1, Some(2)),
    ("plan 2\nexpect held #18446744073709551616\n", 1, Some(2)),
];

#[test]
fn a_plan_ends_at_a_line(rt: HostRuntime) {
    let alloc = rt.alloc();
    for (text, status, line) in ENDS {
        let (ended, _, _) = run(&rt, alloc, text);
        expect_same_for(
            &rt,
            &(ended.verdict().status(), line_of(&ended)),
            &(status, line),
            &text,
        );
    }
}

/// What systems that read JUnit's XML are told of a plan whose second expectation is not met.
const JUNIT: &str = "<?xml version=\"1.0\" encoding=\"UTF-8\"?>\n\
    <testsuite name=\"a.plan\" tests=\"3\" failures=\"1\" errors=\"0\" skipped=\"1\">\n\
    <testcase name=\"line 3: expect 1 _\"/>\n\
    <testcase name=\"line 4: expect free #1\"><failure>found held</failure></testcase>\n\
    <testcase name=\"line 5: expect &quot;&lt;&quot;\"><skipped/></testcase>\n\
    </testsuite>\n";

#[test]
fn expectations_are_test_cases(rt: HostRuntime) {
    let text = "plan 2\nwait event\nexpect 1 _\nexpect free #1\nexpect \"<\"\n";
    let (_, _, told) = run(&rt, rt.alloc(), text);
    expect_same(&rt, &told.as_str(), &JUNIT);
}
