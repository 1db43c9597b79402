//! Runs of plans in words.
use crate::command_lines::runs::{
    ANSWERS, SESSION, file_holds, is_not_made, is_run, remove, write,
};
use std::net::{Ipv4Addr, Net, OpenListener, SocketAddr};
use std::process::Abort;

pub(crate) const PLAN: &str = "plan 2
ask VirtualMachine.Suspend
ask ThreadReference.SuspendCount #1
expect 0 1
expect held #1
ask VirtualMachine.Dispose
";

/// What is printed as it is carried out.
pub(crate) const PRINTED: &str = "< reply VirtualMachine.Suspend 0
< reply ThreadReference.SuspendCount 0 1
< reply VirtualMachine.Dispose 0
";

/// The handshake, VM_START, and the answer to IDSizes.
const BEGINNING: usize = 74;

/// Plans, how many of the bytes of the answers come, the status, what is printed, and what is told.
static ENDS: [(&str, usize, u8, &str, &str); 7] = [
    (PLAN, 111, 0, PRINTED, ""),
    (
        "plan 2\nwait event\nexpect 0 [(90, 0, #2)]\nmirror\n",
        BEGINNING,
        5,
        "< Event.Composite 0 [(90, 0, #1)]\n",
        "jdwp: line 3 of the plan: expected `0 [(90, 0, #2)]`, found `0 [(90, 0, #1)]`\n",
    ),
    (
        "plan 2\nevents 2\n",
        BEGINNING,
        5,
        "< Event.Composite 0 [(90, 0, #1)]\n",
        "jdwp: line 2 of the plan was not reached: the connection is lost: a read failed, or the input ended\n",
    ),
    (
        "plan 2\nmay end\nevents 2\n",
        BEGINNING,
        0,
        "< Event.Composite 0 [(90, 0, #1)]\n",
        "",
    ),
    // The next answer is to a command that was not asked.
    (
        "plan 2\nmay end\nevents 2\n",
        111,
        1,
        "< Event.Composite 0 [(90, 0, #1)]\n",
        "jdwp: line 3 of the plan was not reached: this debugger refused what the target sent: fault 42: a reply to no command that waits\n",
    ),
    (
        "plan 2\nwait event\nask ThreadReference.Name $thread\n",
        BEGINNING,
        1,
        "< Event.Composite 0 [(90, 0, #1)]\n",
        "jdwp: line 3 of the plan: at byte 0, counted from 0: expected a name that a line `let` above has bound\n",
    ),
    (
        "plan 2\nmirror\n\nexpect\n",
        BEGINNING,
        1,
        "",
        "jdwp: written_plan: line 4 of the plan: at byte 6, counted from 0: expected a space, and what belongs behind it\n",
    ),
];

#[test]
fn a_plan_in_words_is_run(rt: HostRuntime) {
    let (plan, from, to) = ("written_plan", "written_from", "written_to");
    for &(text, count, status, out, err) in ENDS.iter() {
        write(&rt, plan, text.as_bytes());
        write(&rt, from, &ANSWERS[..count.min(ANSWERS.len())]);
        is_run(
            &rt,
            &["attach", plan, "--from", from, "--to", to],
            status,
            out,
            err,
        );
    }
    remove(&rt, &[plan, from, to]);
}

/// The plan's expectations as test cases.
const CASES: &str = "<?xml version=\"1.0\" encoding=\"UTF-8\"?>
<testsuite name=\"cases_plan\" tests=\"2\" failures=\"0\" errors=\"0\" skipped=\"0\">
<testcase name=\"line 4: expect 0 1\"/>
<testcase name=\"line 5: expect held #1\"/>
</testsuite>
";

#[test]
fn expectations_are_written(rt: HostRuntime) {
    let (plan, from, to, cases) = ("cases_plan", "cases_from", "cases_to", "cases.xml");
    write(&rt, plan, PLAN.as_bytes());
    write(&rt, from, &ANSWERS);
    let words = ["attach", plan, "--from", from, "--to", to, "--junit", cases];
    is_run(&rt, &words, 0, PRINTED, "");
    file_holds(&rt, to, &SESSION);
    file_holds(&rt, cases, CASES.as_bytes());
    let same = [
        "attach",
        plan,
        "--from",
        from,
        "--to",
        to,
        "--junit",
        "./cases_plan",
    ];
    is_run(
        &rt,
        &same,
        1,
        "",
        "jdwp: ./cases_plan: a file that is read, too: writing to it would empty it\n",
    );
    let twice = [
        "attach",
        plan,
        "--from",
        from,
        "--to",
        to,
        "--junit",
        "./cases_to",
    ];
    is_run(
        &rt,
        &twice,
        1,
        "",
        "jdwp: ./cases_to: a file that is written to already\n",
    );
    let folder = ["attach", plan, "--from", from, "--to", to, "--junit", "."];
    is_run(&rt, &folder, 2, PRINTED, "jdwp: .: a folder, not a file\n");
    remove(&rt, &[plan, from, to, cases]);
}

/// A plan that is not in words has no test cases, and no session begins.
#[test]
fn other_plans_have_no_expectations(rt: HostRuntime) {
    let (plan, from, to, cases) = ("other_plan", "other_from", "other_to", "other.xml");
    write(&rt, plan, b"ask 1 8\n");
    write(&rt, from, &ANSWERS);
    let told =
        "jdwp: other.xml: only a plan in words, whose first line is `plan 2`, has expectations\n";
    let words = ["attach", plan, "--from", from, "--to", to, "--junit", cases];
    is_run(&rt, &words, 1, "", told);
    let words = ["attach", plan, "--port", "1", "--junit", cases];
    is_run(&rt, &words, 1, "", told);
    is_not_made(&rt, to);
    is_not_made(&rt, cases);
    remove(&rt, &[plan, from]);
}

/// Plans for a target that says nothing, the status, and what is told behind the plan's name or the port.
static SILENCES: [(&str, u8, &str); 3] = [
    (
        "plan 2\nask VirtualMachine.Suspend\n",
        5,
        "jdwp: line 2 of the plan was not reached: the beginning of the session did not come in time, and the session is lost\n",
    ),
    ("plan 2\n\ntimeout 20\nmay end\nwait event\n", 0, ""),
    ("plan 2\n# nothing is asked\nmirror\n", 0, ""),
];

/// At a port whose connections are never taken nothing comes.
#[test]
fn a_target_that_is_silent_is_given_up(rt: HostRuntime) {
    let at = SocketAddr::from((Ipv4Addr::LOCALHOST, 0));
    let listener = rt.bind(at).expect(&rt, "a port");
    let port = listener.local_addr().expect(&rt, "its number").port();
    let shown = format!(in rt.alloc(); "{port}").expect(&rt, "memory");
    let words = [
        "attach",
        "silent_plan",
        "--port",
        shown.as_str(),
        "--timeout",
        "30",
    ];
    for &(plan, status, told) in SILENCES.iter() {
        write(&rt, "silent_plan", plan.as_bytes());
        is_run(&rt, &words, status, "", told);
    }
    write(&rt, "silent_plan", b"ask 1 8\n");
    let told = format!(in rt.alloc(); "jdwp: port {port}: nothing came for 30 ms\n").expect(
        &rt, "memory",
    );
    is_run(&rt, &words, 2, "", told.as_str());
    remove(&rt, &["silent_plan"]);
}
