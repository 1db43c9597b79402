//! Plans whose target defers replies, line for line.
use crate::runs::{CASE, Case, passes, passes_over};
use jdwp_pair::{Loopback, PairEnded};

/// The signature and the status of a class are asked, and then which threads there are.
const THREE: &str = "ask 2 1 000000000000000a
ask 2 9 000000000000000a
ask 1 4
answers
";

/// The replies to the first two are deferred, and the newest leaves first.
const DEFERRED: Case = Case {
    defer: true,
    plan: THREE,
    lines: "< hello
< 1 Event.Composite 2 [(90, 0, #1)]
< 1 reply VirtualMachine.IDSizes 0 8 8 8 8 8
< 4 reply VirtualMachine.AllThreads 0 [#1, #2]
< 3 reply ReferenceType.Status 0 3
< 2 reply ReferenceType.Signature 0 \"LMain;\"
",
    ..CASE
};

/// A target that defers none answers them in the order in which they were asked.
const ANSWERED: Case = Case {
    plan: THREE,
    lines: "< hello
< 1 Event.Composite 2 [(90, 0, #1)]
< 1 reply VirtualMachine.IDSizes 0 8 8 8 8 8
< 2 reply ReferenceType.Signature 0 \"LMain;\"
< 3 reply ReferenceType.Status 0 3
< 4 reply VirtualMachine.AllThreads 0 [#1, #2]
",
    ..CASE
};

#[test]
fn the_newest_is_answered_first(rt: HostRuntime) {
    for case in [&DEFERRED, &ANSWERED] {
        passes(&rt, rt.alloc(), case);
        passes_over(&rt, rt.alloc(), &mut Loopback::new(&rt), case);
    }
}

/// A command that is deferred when the target loses the connection is never answered, and the target defers in the next session, too.
const LOST: Case = Case {
    defer: true,
    plan: "ask 2 9 000000000000000a
lose target
lose debugger
attach
ask 2 9 000000000000000a
ask 11 12 0000000000000001
",
    lines: "< hello
< 1 Event.Composite 2 [(90, 0, #1)]
< 1 reply VirtualMachine.IDSizes 0 8 8 8 8 8
lost 1
< hello
< 3 reply VirtualMachine.IDSizes 0 8 8 8 8 8
< 5 reply ThreadReference.SuspendCount 0 0
< 4 reply ReferenceType.Status 0 3
",
    ..CASE
};

/// Nor is one that is deferred when the debugger disposes of the session.
const DISPOSED: Case = Case {
    defer: true,
    plan: "ask 2 9 000000000000000a\nask 1 6",
    lines: "< hello
< 1 Event.Composite 2 [(90, 0, #1)]
< 1 reply VirtualMachine.IDSizes 0 8 8 8 8 8
< 3 reply VirtualMachine.Dispose 0
lost 1
",
    ..CASE
};

#[test]
fn what_is_deferred_is_lost_with_the_session(rt: HostRuntime) {
    for case in [&LOST, &DISPOSED] {
        passes(&rt, rt.alloc(), case);
        passes_over(&rt, rt.alloc(), &mut Loopback::new(&rt), case);
    }
}

/// The status of a class is asked, and the machine runs until it dies. Two rounds open the session, one asks, and eight steps of thread 1
/// end the machine.
const STEPPED: Case = Case {
    start_all: false,
    plan: "ask 2 9 000000000000000a\nevents 2",
    rounds: 11,
    lines: "< hello
< 1 Event.Composite 0 [(90, 0, #1)]
< 1 reply VirtualMachine.IDSizes 0 8 8 8 8 8
< 2 reply ReferenceType.Status 0 3
< 2 Event.Composite 0 [(99, 0)]
",
    ..CASE
};

/// The round that releases the command makes no step.
pub(crate) static RELEASED: [Case; 4] = [
    STEPPED,
    Case {
        defer: true,
        rounds: 12,
        ..STEPPED
    },
    Case {
        defer: true,
        ended: PairEnded::TurnLimit,
        lines: "< hello
< 1 Event.Composite 0 [(90, 0, #1)]
< 1 reply VirtualMachine.IDSizes 0 8 8 8 8 8
< 2 reply ReferenceType.Status 0 3
",
        ..STEPPED
    },
    Case {
        defer: true,
        rounds: 3,
        ended: PairEnded::TurnLimit,
        lines: "< hello
< 1 Event.Composite 0 [(90, 0, #1)]
< 1 reply VirtualMachine.IDSizes 0 8 8 8 8 8
",
        ..STEPPED
    },
];

#[test]
fn a_release_comes_in_place_of_steps(rt: HostRuntime) {
    for case in RELEASED.iter() {
        passes(&rt, rt.alloc(), case);
    }
}
