//! Runs of both ends by plans over machine A, line for line.
use crate::asserts::expect_same;
use crate::loss_tests;
use crate::runs::{CASE, Case, READY, Writer, passes, passes_over, run_script, run_text};
use jdwp_attach::read_plan;
use jdwp_debuggee::Settings;
use jdwp_debugger::Order;
use jdwp_link::Memory;
use jdwp_pair::{Connection, Loopback, PairEnded};
use jdwp_wire::Limits;
use std::alloc::Global;
use std::process::Abort;
use test_parts::MACHINE_A;

/// A breakpoint is set at index 3, and all threads are resumed.
const BREAKPOINT: &str = "ask 15 1 0202000000010701000000000000000a00000000000000140000000000000003
ask 1 9
events 2
mirror
";

/// The run in full: thread 1 steps twice, and thread 2 ends.
pub(crate) const WHOLE: Case = Case {
    plan: BREAKPOINT,
    lines: "< hello
< 1 Event.Composite 2 [(90, 0, #1)]
< 1 reply VirtualMachine.IDSizes 0 8 8 8 8 8
< 2 reply EventRequest.Set 0 1
< 3 reply VirtualMachine.Resume 0
< 2 Event.Composite 2 [(2, 1, #1, 1:#10:#20:3)]
thread 1 1 held
request 1 2 2
",
    ..CASE
};

/// Runs that are done.
pub(crate) static DONE: [Case; 9] = [
    WHOLE,
    Case {
        lines: READY,
        ..CASE
    },
    // What was asked last is answered before the run is done.
    Case {
        plan: "ask 1 8",
        lines: "< hello
< 1 Event.Composite 2 [(90, 0, #1)]
< 1 reply VirtualMachine.IDSizes 0 8 8 8 8 8
< 2 reply VirtualMachine.Suspend 0
",
        ..CASE
    },
    Case {
        plan: "mirror\nanswers\nevents 1\nmirror",
        lines: "< hello
< 1 Event.Composite 2 [(90, 0, #1)]
< 1 reply VirtualMachine.IDSizes 0 8 8 8 8 8
thread 1 1 held
thread 1 1 held
",
        ..CASE
    },
    // No thread begins suspended. Dispose ends the session.
    Case {
        start_all: false,
        plan: "ask 1 8\nask 11 12 0000000000000001\nask 1 6\nanswers\n",
        lines: "< hello
< 1 Event.Composite 0 [(90, 0, #1)]
< 1 reply VirtualMachine.IDSizes 0 8 8 8 8 8
< 2 reply VirtualMachine.Suspend 0
< 3 reply ThreadReference.SuspendCount 0 1
< 4 reply VirtualMachine.Dispose 0
",
        ..CASE
    },
    // It does so whatever lines are left.
    Case {
        plan: "ask 1 6\nask 1 8\nevents 9\nmirror\n",
        lines: "< hello
< 1 Event.Composite 2 [(90, 0, #1)]
< 1 reply VirtualMachine.IDSizes 0 8 8 8 8 8
< 2 reply VirtualMachine.Dispose 0
",
        ..CASE
    },
    // So does the death of the machine, by Exit, or where its last thread has run out.
    Case {
        plan: "ask 1 10 00000000\nmirror\nask 1 8",
        lines: "< hello
< 1 Event.Composite 2 [(90, 0, #1)]
< 1 reply VirtualMachine.IDSizes 0 8 8 8 8 8
< 2 reply VirtualMachine.Exit 0
< 2 Event.Composite 0 [(99, 0)]
",
        ..CASE
    },
    Case {
        plan: "ask 1 9\nevents 5\nmirror",
        lines: "< hello
< 1 Event.Composite 2 [(90, 0, #1)]
< 1 reply VirtualMachine.IDSizes 0 8 8 8 8 8
< 2 reply VirtualMachine.Resume 0
< 2 Event.Composite 0 [(99, 0)]
",
        ..CASE
    },
    Case {
        start_all: false,
        plan: "events 2",
        lines: "< hello
< 1 Event.Composite 0 [(90, 0, #1)]
< 1 reply VirtualMachine.IDSizes 0 8 8 8 8 8
< 2 Event.Composite 0 [(99, 0)]
",
        ..CASE
    },
];

/// Commands that are refused, at their lines.
pub(crate) static REFUSED: [Case; 4] = [
    // a command that no target has
    Case {
        plan: "ask 1 8\nask 1 99\nanswers",
        ended: PairEnded::RefusedLine {
            line: 2,
            number: 36,
        },
        lines: "< hello
< 1 Event.Composite 2 [(90, 0, #1)]
< 1 reply VirtualMachine.IDSizes 0 8 8 8 8 8
< 2 reply VirtualMachine.Suspend 0
",
        ..CASE
    },
    // data that the layout refuses
    Case {
        plan: "mirror\nanswers\nask 1 8 00",
        ended: PairEnded::RefusedLine {
            line: 3,
            number: 36,
        },
        lines: "< hello
< 1 Event.Composite 2 [(90, 0, #1)]
< 1 reply VirtualMachine.IDSizes 0 8 8 8 8 8
thread 1 1 held
",
        ..CASE
    },
    // A command of the sets that go to a debugger. The last flush fails, and the refusal is told.
    Case {
        plan: "ask 64 100 00",
        flush_fails: 1,
        ended: PairEnded::RefusedLine {
            line: 1,
            number: 36,
        },
        lines: READY,
        ..CASE
    },
    Case {
        plan: "ask 11 12 00000000000001",
        ended: PairEnded::RefusedLine {
            line: 1,
            number: 36,
        },
        lines: READY,
        ..CASE
    },
];

/// Runs whose rounds are used, and runs in which nothing happens any more.
pub(crate) static LIMITED: [Case; 6] = [
    Case {
        rounds: 0,
        ended: PairEnded::TurnLimit,
        ..CASE
    },
    Case {
        rounds: 1,
        ended: PairEnded::TurnLimit,
        lines: "< hello\n",
        ..CASE
    },
    // The end of the plan takes no round.
    Case {
        rounds: 2,
        lines: READY,
        ..CASE
    },
    Case {
        plan: BREAKPOINT,
        rounds: 7,
        ended: PairEnded::TurnLimit,
        lines: "< hello
< 1 Event.Composite 2 [(90, 0, #1)]
< 1 reply VirtualMachine.IDSizes 0 8 8 8 8 8
< 2 reply EventRequest.Set 0 1
< 3 reply VirtualMachine.Resume 0
< 2 Event.Composite 2 [(2, 1, #1, 1:#10:#20:3)]
",
        ..CASE
    },
    Case { rounds: 8, ..WHOLE },
    // All threads are suspended, and no event comes.
    Case {
        plan: "events 2",
        ended: PairEnded::Standstill { line: 1 },
        lines: READY,
        ..CASE
    },
];

/// Writes and flushes that fail.
static UNWRITTEN: [Case; 5] = [
    Case {
        write_fails: 1,
        ended: PairEnded::LostByWrite,
        ..CASE
    },
    Case {
        write_fails: 2,
        ended: PairEnded::LostByWrite,
        lines: "< hello\n",
        ..CASE
    },
    // that of the mirror
    Case {
        plan: "mirror\nask 1 8",
        write_fails: 3,
        ended: PairEnded::LostByWrite,
        lines: READY,
        ..CASE
    },
    Case {
        flush_fails: 1,
        ended: PairEnded::LostByWrite,
        lines: READY,
        ..CASE
    },
    Case {
        rounds: 1,
        flush_fails: 1,
        ended: PairEnded::LostByWrite,
        lines: "< hello\n",
        ..CASE
    },
];

/// These runs end and print as they say over memory, and so they do over a connection.
#[test]
fn each_run_comes_to_what_is_said(rt: HostRuntime) {
    for cases in [
        DONE.as_slice(),
        REFUSED.as_slice(),
        LIMITED.as_slice(),
        UNWRITTEN.as_slice(),
        loss_tests::DONE.as_slice(),
        loss_tests::UNDONE.as_slice(),
    ] {
        for case in cases {
            passes(&rt, rt.alloc(), case);
            passes_over(&rt, rt.alloc(), &mut Loopback::new(&rt), case);
        }
    }
}

/// A plan that asks RedefineClasses with so many bytes of data.
fn long_plan(rt: &impl Abort, alloc: Global, count: usize) -> String {
    let mut plan = String::new(alloc);
    plan.push_str("ask 1 18 ").expect(rt, "memory");
    for _ in 0..count {
        plan.push_str("00").expect(rt, "memory");
    }
    plan
}

/// A plan with a command of so many bytes of data ends so, and prints this.
fn is_run_long<C: Connection>(
    rt: &impl Abort,
    alloc: Global,
    connection: &mut C,
    count: usize,
    want: PairEnded,
    told: &str,
) {
    let plan = long_plan(rt, alloc, count);
    let writer = Writer::failing(alloc, 0, 0);
    let (ended, lines) = run_text(rt, alloc, connection, true, &plan, writer, 3);
    expect_same(rt, &ended, &want);
    expect_same(rt, &lines.as_slice(), &told.as_bytes());
}

/// What a target answers that redefines no classes.
const NOT_IMPLEMENTED: &str = "< hello
< 1 Event.Composite 2 [(90, 0, #1)]
< 1 reply VirtualMachine.IDSizes 0 8 8 8 8 8
< 2 reply VirtualMachine.RedefineClasses 99
";

/// Bytes come by at most 4,096 at once, and all of them in one round.
#[test]
fn long_commands_come_in_one_round(rt: HostRuntime) {
    let (alloc, done) = (rt.alloc(), PairEnded::Done);
    for count in [4_085, 4_086, 65_525] {
        is_run_long(&rt, alloc, &mut Memory::new(), count, done, NOT_IMPLEMENTED);
        let mut loopback = Loopback::new(&rt);
        is_run_long(&rt, alloc, &mut loopback, count, done, NOT_IMPLEMENTED);
    }
}

#[test]
fn a_command_that_is_too_long_is_refused(rt: HostRuntime) {
    let refused = PairEnded::RefusedLine {
        line: 1,
        number: 34,
    };
    is_run_long(&rt, rt.alloc(), &mut Memory::new(), 65_526, refused, READY);
}

/// How the breakpoint's run ends within these limits, and what it prints.
fn run_within(rt: &impl Abort, alloc: Global, limits: Limits) -> (PairEnded, Vec<u8>) {
    let settings = Settings::new(true, 65_535, limits).expect(rt, "a count limit");
    let plan = read_plan(alloc, BREAKPOINT).expect(rt, "a plan");
    let writer = Writer::failing(alloc, 0, 0);
    run_script(
        rt,
        alloc,
        &mut Memory::new(),
        MACHINE_A,
        settings,
        false,
        Order::One,
        &plan,
        writer,
        1000,
    )
}

/// Within limits that are large enough the lines are the same.
#[test]
fn both_ends_keep_the_limits(rt: HostRuntime) {
    let limits = Limits::new(4096, 8, 2, 4).expect(&rt, "limits");
    let (ended, lines) = run_within(&rt, rt.alloc(), limits);
    expect_same(&rt, &ended, &PairEnded::Done);
    expect_same(&rt, &lines.as_slice(), &WHOLE.lines.as_bytes());
}
