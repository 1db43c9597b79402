//! Plans in which an end loses the connection, and in which sessions follow one another, line for line.
use crate::runs::{CASE, Case, READY};
use jdwp_pair::PairEnded;

/// All threads are suspended; both ends lose the connection; and in the next session nobody is.
const LOST: Case = Case {
    start_all: false,
    plan: "ask 1 8
answers
lose target
lose debugger
attach
ask 11 12 0000000000000001
answers
mirror
",
    lines: "< hello
< 1 Event.Composite 0 [(90, 0, #1)]
< 1 reply VirtualMachine.IDSizes 0 8 8 8 8 8
< 2 reply VirtualMachine.Suspend 0
< hello
< 3 reply VirtualMachine.IDSizes 0 8 8 8 8 8
< 4 reply ThreadReference.SuspendCount 0 0
thread 1 0 free
",
    ..CASE
};

/// Runs behind losses that are done.
pub(crate) static DONE: [Case; 6] = [
    LOST,
    // The end of a plan loses what was lost before.
    Case {
        plan: "lose debugger\nlose target\nlose target\nlose debugger\nmirror",
        lines: READY,
        ..CASE
    },
    // A command that a target without a session does not get is lost with the debugger's.
    Case {
        start_all: false,
        plan: "lose target
ask 1 8
lose debugger
attach
ask 11 12 0000000000000001
mirror
",
        lines: "< hello
< 1 Event.Composite 0 [(90, 0, #1)]
< 1 reply VirtualMachine.IDSizes 0 8 8 8 8 8
lost 1
< hello
< 3 reply VirtualMachine.IDSizes 0 8 8 8 8 8
< 4 reply ThreadReference.SuspendCount 0 0
thread 1 0 free
",
        ..CASE
    },
    // Each of two is, by its ticket, and so at the end of a plan that waits for neither.
    Case {
        plan: "lose target\nask 1 8\nask 1 9\nlose debugger",
        lines: "< hello
< 1 Event.Composite 2 [(90, 0, #1)]
< 1 reply VirtualMachine.IDSizes 0 8 8 8 8 8
lost 1
lost 2
",
        ..CASE
    },
    // The events of the last session are not counted: the first of this one is a breakpoint.
    Case {
        plan: "events 1
lose target
lose debugger
attach
ask 1 8
ask 15 1 0202000000010701000000000000000a00000000000000140000000000000003
ask 1 9
events 1
mirror
",
        lines: "< hello
< 1 Event.Composite 2 [(90, 0, #1)]
< 1 reply VirtualMachine.IDSizes 0 8 8 8 8 8
< hello
< 2 reply VirtualMachine.IDSizes 0 8 8 8 8 8
< 3 reply VirtualMachine.Suspend 0
< 4 reply EventRequest.Set 0 1
< 5 reply VirtualMachine.Resume 0
< 2 Event.Composite 2 [(2, 1, #1, 1:#10:#20:3)]
thread 1 1 held
request 1 2 2
",
        ..CASE
    },
    // Three sessions. Events of a debugger that lost the connection are not read, and a command that came is carried out.
    Case {
        plan: "lose debugger
lose target
attach
ask 1 8
lose debugger
lose target
attach
ask 1 6
",
        lines: "< hello
< 1 Event.Composite 2 [(90, 0, #1)]
< 1 reply VirtualMachine.IDSizes 0 8 8 8 8 8
< hello
< 2 reply VirtualMachine.IDSizes 0 8 8 8 8 8
< 3 reply VirtualMachine.Suspend 0
< hello
< 4 reply VirtualMachine.IDSizes 0 8 8 8 8 8
< 5 reply VirtualMachine.Dispose 0
",
        ..CASE
    },
];

/// Runs behind losses that end otherwise.
pub(crate) static UNDONE: [Case; 6] = [
    // A command is refused at a debugger that is in no session.
    Case {
        plan: "lose debugger\nask 1 8",
        ended: PairEnded::RefusedLine {
            line: 2,
            number: 33,
        },
        lines: READY,
        ..CASE
    },
    // Nobody will answer.
    Case {
        plan: "lose target\nask 1 8\nanswers",
        ended: PairEnded::Standstill { line: 3 },
        lines: READY,
        ..CASE
    },
    // No session begins while an end is open, or once the machine is dead.
    Case {
        plan: "lose debugger\nattach",
        ended: PairEnded::Standstill { line: 2 },
        lines: READY,
        ..CASE
    },
    Case {
        plan: "lose target\nattach",
        ended: PairEnded::Standstill { line: 2 },
        lines: READY,
        ..CASE
    },
    Case {
        plan: "lose target\nlose debugger\nevents 2\nattach",
        ended: PairEnded::Standstill { line: 3 },
        lines: READY,
        ..CASE
    },
    // The ticket that is lost is not printed.
    Case {
        plan: "lose target\nask 1 8\nlose debugger",
        write_fails: 3,
        ended: PairEnded::LostByWrite,
        lines: READY,
        ..CASE
    },
];
