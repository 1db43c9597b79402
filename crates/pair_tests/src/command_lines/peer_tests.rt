//! Runs of the program without files between its ends.
use crate::command_lines::runs::{Holds, MACHINE, SCENE, Scene, Tells, go};
use crate::command_lines::written_tests::{PLAN as WORDS, PRINTED as TOLD};

/// A breakpoint that suspends all threads, then Resume; and the mirror once it was reached.
const PLAN: &str = "ask 15 1 0202000000010701000000000000000a00000000000000140000000000000003
ask 1 9
events 2
mirror
";

/// What is printed of it.
const PRINTED: &str = "< hello
< 1 Event.Composite 2 [(90, 0, #1)]
< 1 reply VirtualMachine.IDSizes 0 8 8 8 8 8
< 2 reply EventRequest.Set 0 1
< 3 reply VirtualMachine.Resume 0
< 2 Event.Composite 2 [(2, 1, #1, 1:#10:#20:3)]
thread 1 1 held
request 1 2 2
";

/// The same where the target is taken to send replies and events by threads of their own.
const APART: &str = "< hello
< 1 Event.Composite 2 [(90, 0, #1)]
< 1 reply VirtualMachine.IDSizes 0 8 8 8 8 8
< 2 reply EventRequest.Set 0 1
< 3 reply VirtualMachine.Resume 0
< 2 Event.Composite 2 [(2, 1, #1, 1:#10:#20:3)]
thread 1 1+ held
request 1 2 2
";

/// All threads are suspended; both ends lose the connection; and in the next session nobody is.
const LOSSES: &str = "ask 1 8
answers
lose target
lose debugger
attach
ask 11 12 0000000000000001
answers
mirror
";

/// What is printed of it.
const LOST: &str = "< hello
< 1 Event.Composite 0 [(90, 0, #1)]
< 1 reply VirtualMachine.IDSizes 0 8 8 8 8 8
< 2 reply VirtualMachine.Suspend 0
< hello
< 3 reply VirtualMachine.IDSizes 0 8 8 8 8 8
< 4 reply ThreadReference.SuspendCount 0 0
thread 1 0 free
";

/// The signature and the status of a class are asked, and then which threads there are.
const THREE: &str = "ask 2 1 000000000000000a
ask 2 9 000000000000000a
ask 1 4
answers
";

/// What is printed of it where the target defers replies.
const DEFERRED: &str = "< hello
< 1 Event.Composite 2 [(90, 0, #1)]
< 1 reply VirtualMachine.IDSizes 0 8 8 8 8 8
< 4 reply VirtualMachine.AllThreads 0 [#1, #2]
< 3 reply ReferenceType.Status 0 3
< 2 reply ReferenceType.Signature 0 \"LMain;\"
";

/// A command that no target has is told with its line.
const REFUSED: &str = "ask 1 8\nanswers\nask 1 99\n";

const PRINTED_BEFORE: &str = "< hello
< 1 Event.Composite 0 [(90, 0, #1)]
< 1 reply VirtualMachine.IDSizes 0 8 8 8 8 8
< 2 reply VirtualMachine.Suspend 0
";

/// What is told of the expectations of `WORDS` as test cases.
const CASES: &str = "<?xml version=\"1.0\" encoding=\"UTF-8\"?>
<testsuite name=\"words_plan\" tests=\"2\" failures=\"0\" errors=\"0\" skipped=\"0\">
<testcase name=\"line 4: expect 0 1\"/>
<testcase name=\"line 5: expect held #1\"/>
</testsuite>
";

/// VM_START of a target that suspends all threads.
const BEGUN: &str = "< Event.Composite 2 [(90, 0, #1)]\n";

/// Runs of both ends, over memory and over a connection.
static BOTH_ENDS: [Scene; 17] = [
    Scene {
        files: &[
            ("pair_machine", Holds::Text(MACHINE)),
            ("pair_plan", Holds::Text(PLAN)),
        ],
        words: "pair pair_machine pair_plan --memory --start all",
        prints: Some(PRINTED),
        ..SCENE
    },
    Scene {
        files: &[
            ("pair_machine", Holds::Text(MACHINE)),
            ("pair_plan", Holds::Text(PLAN)),
        ],
        words: "pair pair_machine pair_plan",
        prints: Some(PRINTED),
        ..SCENE
    },
    Scene {
        files: &[
            ("pair_machine", Holds::Text(MACHINE)),
            ("pair_plan", Holds::Text(PLAN)),
        ],
        words: "pair pair_machine pair_plan --order apart",
        prints: Some(APART),
        ..SCENE
    },
    Scene {
        files: &[
            ("loss_machine", Holds::Text(MACHINE)),
            ("loss_plan", Holds::Text(LOSSES)),
        ],
        words: "pair loss_machine loss_plan --start none",
        prints: Some(LOST),
        ..SCENE
    },
    Scene {
        files: &[
            ("loss_machine", Holds::Text(MACHINE)),
            ("loss_plan", Holds::Text(LOSSES)),
        ],
        words: "pair loss_machine loss_plan --start none --memory",
        prints: Some(LOST),
        ..SCENE
    },
    Scene {
        files: &[
            ("defer_machine", Holds::Text(MACHINE)),
            ("defer_plan", Holds::Text(THREE)),
        ],
        words: "pair defer_machine defer_plan --start all --defer",
        prints: Some(DEFERRED),
        ..SCENE
    },
    Scene {
        files: &[
            ("defer_machine", Holds::Text(MACHINE)),
            ("defer_plan", Holds::Text(THREE)),
        ],
        words: "pair defer_machine defer_plan --memory --defer",
        prints: Some(DEFERRED),
        ..SCENE
    },
    Scene {
        files: &[
            ("pair_other_machine", Holds::Text(MACHINE)),
            ("pair_other_plan", Holds::Text(REFUSED)),
        ],
        words: "pair pair_other_machine pair_other_plan --memory --start none",
        status: 1,
        prints: Some(PRINTED_BEFORE),
        tells: Tells::Exactly(
            "jdwp: line 3 of the plan: fault 36: a command that no target has, or data that do not read in its layout\n",
        ),
        ..SCENE
    },
    // A script and a plan that are refused are told with their files, the script first.
    Scene {
        files: &[
            ("pair_bad_machine", Holds::Text("{")),
            ("pair_bad_plan", Holds::Text("asks\n")),
        ],
        words: "pair pair_bad_machine pair_bad_plan --memory",
        status: 1,
        tells: Tells::All(&["pair_bad_machine: fault 21: "]),
        ..SCENE
    },
    Scene {
        files: &[
            ("pair_bad_machine", Holds::Text(MACHINE)),
            ("pair_bad_plan", Holds::Text("asks\n")),
        ],
        words: "pair pair_bad_machine pair_bad_plan --memory",
        status: 1,
        tells: Tells::All(&["pair_bad_plan: line 1 of the plan: "]),
        ..SCENE
    },
    // Plans in words.
    Scene {
        files: &[
            ("words_machine", Holds::Text(MACHINE)),
            ("words_plan", Holds::Text(WORDS)),
        ],
        words: "pair words_machine words_plan --start none --junit words_cases",
        prints: Some(TOLD),
        leaves: &[("words_cases", Some(Holds::Text(CASES)))],
        ..SCENE
    },
    Scene {
        files: &[
            ("words_machine", Holds::Text(MACHINE)),
            (
                "words_plan",
                Holds::Text("plan 2\nwait event\nexpect 0 [(90, 0, #2)]\nmirror\n"),
            ),
        ],
        words: "pair words_machine words_plan --start none --memory",
        status: 5,
        prints: Some("< Event.Composite 0 [(90, 0, #1)]\n"),
        tells: Tells::Exactly(
            "jdwp: line 3 of the plan: expected `0 [(90, 0, #2)]`, found `0 [(90, 0, #1)]`\n",
        ),
        ..SCENE
    },
    // All threads are suspended behind VM_START.
    Scene {
        files: &[
            ("words_machine", Holds::Text(MACHINE)),
            (
                "words_plan",
                Holds::Text("plan 2\nwait event\n\nwait event\n"),
            ),
        ],
        words: "pair words_machine words_plan",
        status: 5,
        prints: Some(BEGUN),
        tells: Tells::Exactly(
            "jdwp: nothing more can happen: line 4 of the plan waits for the next composite\n",
        ),
        ..SCENE
    },
    Scene {
        files: &[
            ("words_machine", Holds::Text(MACHINE)),
            ("words_plan", Holds::Text("plan 2\nevents 2\n")),
        ],
        words: "pair words_machine words_plan --turns 2",
        status: 5,
        prints: Some(BEGUN),
        tells: Tells::Exactly(
            "jdwp: the turn limit of --turns is reached: line 2 of the plan waits for 2 composites of the session\n",
        ),
        ..SCENE
    },
    Scene {
        files: &[
            ("words_machine", Holds::Text(MACHINE)),
            ("words_plan", Holds::Text("plan 2\nmay end\nevents 2\n")),
        ],
        words: "pair words_machine words_plan --turns 2",
        prints: Some(BEGUN),
        ..SCENE
    },
    Scene {
        files: &[
            ("words_machine", Holds::Text(MACHINE)),
            ("words_plan", Holds::Text("plan 2\nmay end\nevents 2\n")),
        ],
        words: "pair words_machine words_plan",
        prints: Some(BEGUN),
        ..SCENE
    },
    Scene {
        files: &[
            ("words_machine", Holds::Text(MACHINE)),
            ("words_plan", Holds::Text("mirror\n")),
        ],
        words: "pair words_machine words_plan --memory --junit words_cases",
        status: 1,
        tells: Tells::Exactly(
            "jdwp: words_cases: only a plan in words, whose first line is `plan 2`, has expectations\n",
        ),
        spares: &["words_cases"],
        ..SCENE
    },
];

#[test]
fn both_ends_run_a_plan(rt: HostRuntime) {
    go(&rt, &BOTH_ENDS);
}

/// Plans that stand still: the line of the plan that waits is told, and for what.
static STANDSTILLS: [Scene; 8] = [
    Scene {
        files: &[
            ("still_machine", Holds::Text(MACHINE)),
            ("still_plan", Holds::Text("events 9\n")),
        ],
        words: "pair still_machine still_plan",
        status: 4,
        prints: None,
        tells: Tells::Exactly(
            "jdwp: nothing more can happen: line 1 of the plan waits for 9 composites of the session\n",
        ),
        ..SCENE
    },
    Scene {
        files: &[
            ("still_machine", Holds::Text(MACHINE)),
            ("still_plan", Holds::Text("events 9\n")),
        ],
        words: "pair still_machine still_plan --memory",
        status: 4,
        prints: None,
        tells: Tells::Exactly(
            "jdwp: nothing more can happen: line 1 of the plan waits for 9 composites of the session\n",
        ),
        ..SCENE
    },
    Scene {
        files: &[
            ("still_machine", Holds::Text(MACHINE)),
            ("still_plan", Holds::Text("lose target\nask 1 4\nanswers\n")),
        ],
        words: "pair still_machine still_plan",
        status: 4,
        prints: None,
        tells: Tells::Exactly(
            "jdwp: nothing more can happen: line 3 of the plan waits for the answers to what was asked\n",
        ),
        ..SCENE
    },
    Scene {
        files: &[
            ("still_machine", Holds::Text(MACHINE)),
            ("still_plan", Holds::Text("lose target\nask 1 4\nanswers\n")),
        ],
        words: "pair still_machine still_plan --memory",
        status: 4,
        prints: None,
        tells: Tells::Exactly(
            "jdwp: nothing more can happen: line 3 of the plan waits for the answers to what was asked\n",
        ),
        ..SCENE
    },
    Scene {
        files: &[
            ("still_machine", Holds::Text(MACHINE)),
            ("still_plan", Holds::Text("lose target\nattach\n")),
        ],
        words: "pair still_machine still_plan",
        status: 4,
        prints: None,
        tells: Tells::Exactly(
            "jdwp: nothing more can happen: line 2 of the plan waits for both ends to be closed, with no command that waits, in a machine that lives\n",
        ),
        ..SCENE
    },
    Scene {
        files: &[
            ("still_machine", Holds::Text(MACHINE)),
            ("still_plan", Holds::Text("lose target\nattach\n")),
        ],
        words: "pair still_machine still_plan --memory",
        status: 4,
        prints: None,
        tells: Tells::Exactly(
            "jdwp: nothing more can happen: line 2 of the plan waits for both ends to be closed, with no command that waits, in a machine that lives\n",
        ),
        ..SCENE
    },
    Scene {
        files: &[
            ("still_machine", Holds::Text(MACHINE)),
            ("still_plan", Holds::Text("lose target\nask 1 4\n")),
        ],
        words: "pair still_machine still_plan",
        status: 4,
        prints: None,
        tells: Tells::Exactly(
            "jdwp: nothing more can happen: behind its last line the plan waits for the answers to what was asked\n",
        ),
        ..SCENE
    },
    Scene {
        files: &[
            ("still_machine", Holds::Text(MACHINE)),
            ("still_plan", Holds::Text("lose target\nask 1 4\n")),
        ],
        words: "pair still_machine still_plan --memory",
        status: 4,
        prints: None,
        tells: Tells::Exactly(
            "jdwp: nothing more can happen: behind its last line the plan waits for the answers to what was asked\n",
        ),
        ..SCENE
    },
];

#[test]
fn a_plan_that_stands_still_is_told(rt: HostRuntime) {
    go(&rt, &STANDSTILLS);
}

/// At a port where nobody listens there is no session: the first one is the system's own, which no test takes.
static NOBODY: [Scene; 1] = [Scene {
    files: &[("port_plan", Holds::Text("ask 1 8\n"))],
    words: "attach port_plan --port 1",
    status: 2,
    tells: Tells::Exactly("jdwp: port 1: connection refused\n"),
    ..SCENE
}];

#[test]
fn a_port_where_nobody_listens_is_told(rt: HostRuntime) {
    go(&rt, &NOBODY);
}
