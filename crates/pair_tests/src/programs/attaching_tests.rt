//! Sessions of a debugger by a plan, byte for byte and line for line.
use crate::asserts::{expect_same, expect_same_for, expect_that};
use jdwp_attach::{Attached, LineFault, PlanFault, read_plan};
use jdwp_debugger::Order;
use jdwp_end::{Ended, Streams};
use jdwp_program::{Fault, Outcome, attach_plan, attach_session, report_fault, report_outcome};
use jdwp_wire::Limits;
use std::alloc::Global;
use std::io;
use std::io::Cursor;
use std::process::Abort;

/// The handshake, VM_START of thread 1 that suspends nothing, and the replies to IDSizes, Suspend, SuspendCount of thread 1 and Dispose.
const FROM: [u8; 111] = [
    0x4a, 0x44, 0x57, 0x50, 0x2d, 0x48, 0x61, 0x6e, 0x64, 0x73, 0x68, 0x61, 0x6b, 0x65, //
    0x00, 0x00, 0x00, 0x1d, 0x00, 0x00, 0x00, 0x01, 0x00, 0x40, 0x64, 0x00, 0x00, 0x00, 0x00, 0x01,
    0x5a, 0x00, 0x00, 0x00, 0x00, 0x00, 0x00, 0x00, 0x00, 0x00, 0x00, 0x00, 0x01, //
    0x00, 0x00, 0x00, 0x1f, 0x00, 0x00, 0x00, 0x01, 0x80, 0x00, 0x00, 0x00, 0x00, 0x00, 0x08, 0x00,
    0x00, 0x00, 0x08, 0x00, 0x00, 0x00, 0x08, 0x00, 0x00, 0x00, 0x08, 0x00, 0x00, 0x00, 0x08, //
    0x00, 0x00, 0x00, 0x0b, 0x00, 0x00, 0x00, 0x02, 0x80, 0x00, 0x00, //
    0x00, 0x00, 0x00, 0x0f, 0x00, 0x00, 0x00, 0x03, 0x80, 0x00, 0x00, 0x00, 0x00, 0x00, 0x01, //
    0x00, 0x00, 0x00, 0x0b, 0x00, 0x00, 0x00, 0x04, 0x80, 0x00, 0x00, //
];

/// The handshake, IDSizes, Suspend, SuspendCount of thread 1 and Dispose, under the ids 1 to 4.
const TO: [u8; 66] = [
    0x4a, 0x44, 0x57, 0x50, 0x2d, 0x48, 0x61, 0x6e, 0x64, 0x73, 0x68, 0x61, 0x6b, 0x65, //
    0x00, 0x00, 0x00, 0x0b, 0x00, 0x00, 0x00, 0x01, 0x00, 0x01, 0x07, //
    0x00, 0x00, 0x00, 0x0b, 0x00, 0x00, 0x00, 0x02, 0x00, 0x01, 0x08, //
    0x00, 0x00, 0x00, 0x13, 0x00, 0x00, 0x00, 0x03, 0x00, 0x0b, 0x0c, 0x00, 0x00, 0x00, 0x00, 0x00,
    0x00, 0x00, 0x01, //
    0x00, 0x00, 0x00, 0x0b, 0x00, 0x00, 0x00, 0x04, 0x00, 0x01, 0x06, //
];

const PLAN: &str = "ask 1 8\nask 11 12 0000000000000001\nask 1 6\nanswers\n";

const LINES: &str = "< hello
< 1 Event.Composite 0 [(90, 0, #1)]
< 1 reply VirtualMachine.IDSizes 0 8 8 8 8 8
< 2 reply VirtualMachine.Suspend 0
< 3 reply ThreadReference.SuspendCount 0 1
< 4 reply VirtualMachine.Dispose 0
";

/// What came of a plan, and what was sent and printed.
#[derive(Drop)]
struct Ran {
    result: Result<Attached, PlanFault>,
    to: Vec<u8>,
    lines: Vec<u8>,
}

/// What came of this plan within the standard limits.
fn run(alloc: Global, plan: &str, from: &[u8], turns: u32) -> Ran {
    run_within(alloc, Limits::standard(), plan, from, turns)
}

/// The same within these limits.
fn run_within(alloc: Global, limits: Limits, plan: &str, from: &[u8], turns: u32) -> Ran {
    let mut pipe = Streams::new(from, Cursor::new(Vec::new(alloc)));
    let mut out = Streams::new(io::empty(), Cursor::new(Vec::new(alloc)));
    let result = attach_plan(alloc, limits, Order::One, plan, &mut pipe, &mut out, turns);
    let (_, to) = pipe.into_parts();
    let (_, lines) = out.into_parts();
    Ran {
        result,
        to: to.into_inner(),
        lines: lines.into_inner(),
    }
}

/// Bytes are the first so many of others.
fn is_part(rt: &impl Abort, bytes: &[u8], whole: &[u8], count: usize, place: usize) {
    expect_same_for(rt, &Some(bytes), &whole.get(..count), &place);
}

/// The run ends so, and so many bytes of the session were sent and printed.
fn has_run(rt: &impl Abort, ran: &Ran, how: Attached, sent: usize, printed: usize) {
    expect_same_for(rt, &ran.result, &Ok(how), &sent);
    is_part(rt, &ran.to, &TO, sent, sent);
    is_part(rt, &ran.lines, LINES.as_bytes(), printed, sent);
}

#[test]
fn a_plan_is_run_to_its_end(rt: HostRuntime) {
    let ran = run(rt.alloc(), PLAN, &FROM, 1000);
    let done = Attached::Ended(Ended::Done);
    has_run(&rt, &ran, done, TO.len(), LINES.len());
}

/// Three commands, the last of which no target has, and Dispose.
const THIRD_IS_NONE: &str = "ask 1 8\nask 11 12 0000000000000001\nask 1 99\nask 1 6";

/// The command of the first line is refused by 36.
const AT_1: Attached = Attached::RefusedLine {
    line: 1,
    number: 36,
};

/// The same of the third line, and of the fourth.
const AT_3: Attached = Attached::RefusedLine {
    line: 3,
    number: 36,
};

const AT_4: Attached = Attached::RefusedLine {
    line: 4,
    number: 36,
};

/// The plan, how many of the target's bytes come, the turns, and the end; how many bytes are sent and printed.
static ENDS: [(&str, usize, u32, Attached, usize, usize); 9] = [
    // No turn is left: the handshake was written.
    (PLAN, 111, 0, Attached::Ended(Ended::TurnLimit), 14, 0),
    // The input ends before the reply to Dispose, before the widths of ids, and before the handshake.
    (PLAN, 110, 1000, Attached::Ended(Ended::LostByRead), 66, 167),
    (PLAN, 43, 1000, Attached::Ended(Ended::LostByRead), 25, 8),
    (PLAN, 0, 1000, Attached::Ended(Ended::LostByRead), 14, 0),
    // A command that no target has, in the first line, in the third, and where the second asks nothing.
    ("ask 1 99", 111, 1000, AT_1, 25, 89),
    (THIRD_IS_NONE, 111, 1000, AT_3, 55, 89),
    (
        "ask 1 8\nanswers\nask 1 99\nask 1 6",
        111,
        1000,
        AT_3,
        36,
        124,
    ),
    // Data that the layout refuses, in the first line and in the last.
    ("ask 1 8 00", 111, 1000, AT_1, 25, 89),
    (
        "answers\nanswers\nanswers\nask 1 8 00",
        74,
        1000,
        AT_4,
        25,
        89,
    ),
];

#[test]
fn ends_of_runs(rt: HostRuntime) {
    for &(plan, count, turns, how, sent, printed) in ENDS.iter() {
        let from = &FROM[..count.min(FROM.len())];
        has_run(&rt, &run(rt.alloc(), plan, from, turns), how, sent, printed);
    }
}

/// So many lines that suspend all threads.
fn suspends(rt: &impl Abort, alloc: Global, times: u32) -> String {
    let mut plan = String::new(alloc);
    for _ in 0..times {
        plan.push_str("ask 1 8\n").expect(rt, "memory");
    }
    plan
}

/// 64 commands may wait for their answers: the 65th line is refused, and what the lines before it ask was sent.
#[test]
fn the_65th_command_is_refused(rt: HostRuntime) {
    let plan = suspends(&rt, rt.alloc(), 65);
    let ran = run(rt.alloc(), &plan, &FROM, 1000);
    let how = Attached::RefusedLine {
        line: 65,
        number: 32,
    };
    expect_same(&rt, &ran.result, &Ok(how));
    expect_same(&rt, &ran.to.len(), &(14 + 11 + 64 * 11));
}

/// A reply with an error that has data, under the id 2.
const BAD_REPLY: [u8; 12] = [
    0x00, 0x00, 0x00, 0x0c, 0x00, 0x00, 0x00, 0x02, 0x80, 0x00, 0x71, 0x00,
];

/// VM_START of thread 1 that suspends nothing.
const VM_START: [u8; 29] = [
    0x00, 0x00, 0x00, 0x1d, 0x00, 0x00, 0x00, 0x01, 0x00, 0x40, 0x64, 0x00, 0x00, 0x00, 0x00, 0x01,
    0x5a, 0x00, 0x00, 0x00, 0x00, 0x00, 0x00, 0x00, 0x00, 0x00, 0x00, 0x00, 0x01,
];

/// The first so many bytes of a session, and others as often.
fn followed(rt: &impl Abort, alloc: Global, count: usize, bad: &[u8], times: u32) -> Vec<u8> {
    let mut from = Vec::new(alloc);
    from.extend_from_slice(&FROM[..count.min(FROM.len())])
        .expect(rt, "memory");
    for _ in 0..times {
        from.extend_from_slice(bad).expect(rt, "memory");
    }
    from
}

/// An end that is refused is told by the status 1 and this text.
fn is_told(rt: &impl Abort, alloc: Global, number: u16, told: &str) {
    let mut err = Cursor::new(Vec::new(alloc));
    let outcome = Outcome::Session(Ended::Refused(number));
    expect_same(rt, &report_outcome(outcome, &mut err), &1);
    expect_same(rt, &err.into_inner().as_slice(), &told.as_bytes());
}

/// The run is refused by what the target sent; what was sent and printed before is of the session.
fn is_refused(
    rt: &impl Abort,
    alloc: Global,
    plan: &str,
    from: &[u8],
    number: u16,
    sent: usize,
    printed: usize,
) {
    let ran = run(alloc, plan, from, 1000);
    let how = Attached::Ended(Ended::Refused(number));
    has_run(rt, &ran, how, sent, printed);
}

#[test]
fn a_bad_reply_is_refused(rt: HostRuntime) {
    // A bad reply, to Suspend.
    let from = followed(&rt, rt.alloc(), 74, &BAD_REPLY, 1);
    is_refused(&rt, rt.alloc(), "ask 1 8\nanswers", &from, 43, 36, 89);
    let told = "jdwp: fault 43: a reply whose data do not read, or an error reply with data\n";
    is_told(&rt, rt.alloc(), 43, told);
}

/// Four composites wait for the widths of ids, and a fifth comes, behind so many bytes of a session.
fn is_one_too_many(rt: &impl Abort, alloc: Global, count: usize, times: u32) {
    let from = followed(rt, alloc, count, &VM_START, times);
    is_refused(rt, alloc, PLAN, &from, 44, 25, 8);
}

#[test]
fn composites_too_many_are_refused(rt: HostRuntime) {
    is_one_too_many(&rt, rt.alloc(), 14, 5);
    is_one_too_many(&rt, rt.alloc(), 43, 4);
    let told = "jdwp: fault 44: more composites than may wait for the widths of ids\n";
    is_told(&rt, rt.alloc(), 44, told);
}

#[test]
fn a_command_that_no_target_has_is_told(rt: HostRuntime) {
    let told =
        "jdwp: fault 36: a command that no target has, or data that do not read in its layout\n";
    is_told(&rt, rt.alloc(), 36, told);
}

/// 5,000 bytes: 0 to 249, again and again.
fn long_data(rt: &impl Abort, alloc: Global) -> Vec<u8> {
    let mut bytes = Vec::new(alloc);
    for _ in 0..20u32 {
        for byte in 0..250u8 {
            bytes.push(byte).expect(rt, "memory");
        }
    }
    bytes
}

/// The same in hex digits.
fn digits_of(rt: &impl Abort, alloc: Global, bytes: &[u8]) -> String {
    let mut digits = String::new(alloc);
    for byte in bytes {
        write!(digits, "{byte:02x}").expect(rt, "memory");
    }
    digits
}

/// A packet under the id 2 with this kind and these 5,000 bytes.
fn long_packet(rt: &impl Abort, alloc: Global, kind: [u8; 3], data: &[u8]) -> Vec<u8> {
    let start = [0, 0, 0x13, 0x93, 0, 0, 0, 2];
    let mut packet = Vec::from_slice(alloc, &start).expect(rt, "memory");
    packet.extend_from_slice(&kind).expect(rt, "memory");
    packet.extend_from_slice(data).expect(rt, "memory");
    packet
}

/// What came of VirtualMachine.ClassPaths, asked with these data and answered with the same.
fn run_raw(rt: &impl Abort, alloc: Global, data: &[u8], digits: &str) -> Ran {
    let plan = format!(in alloc; "ask 1 13 {digits}").expect(rt, "memory");
    let reply = long_packet(rt, alloc, [0x80, 0, 0], data);
    let from = followed(rt, alloc, 74, &reply, 1);
    run(alloc, &plan, &from, 1000)
}

/// VirtualMachine.ClassPaths, whose data are not read: both ends send more than is written or read at once.
#[test]
fn raw_data_longer_than_a_read(rt: HostRuntime) {
    let alloc = rt.alloc();
    let data = long_data(&rt, alloc);
    let digits = digits_of(&rt, alloc, &data);
    let ran = run_raw(&rt, alloc, &data, &digits);
    expect_same(&rt, &ran.result, &Ok(Attached::Ended(Ended::Done)));
    let asked = long_packet(&rt, alloc, [0, 1, 13], &data);
    expect_same(&rt, &ran.to.get(25..), &Some(asked.as_slice()));
    let line = format!(in alloc; "< 2 reply VirtualMachine.ClassPaths 0 raw {digits}\n");
    let line = line.expect(&rt, "memory");
    expect_same(&rt, &ran.lines.get(89..), &Some(line.as_bytes()));
}

/// Plans with a fault, the line and what is wrong with it, and what is told of the plan of the file p.
static NO_PLANS: [(&str, usize, LineFault, &str); 4] = [
    (
        "ask 1 8\nanswer\n",
        2,
        LineFault::FirstWord,
        "jdwp: p: line 2 of the plan: a first word that is not `ask`, `answers`, `events`, `mirror`, `lose` or `attach`\n",
    ),
    (
        "lose target\nask 1 8",
        1,
        LineFault::PairAlone,
        "jdwp: p: line 1 of the plan: a line of `pair` alone\n",
    ),
    (
        "ask 1 8\nlose debugger",
        2,
        LineFault::PairAlone,
        "jdwp: p: line 2 of the plan: a line of `pair` alone\n",
    ),
    (
        "ask 1 8\nanswers\nattach\nanswer\n",
        3,
        LineFault::PairAlone,
        "jdwp: p: line 3 of the plan: a line of `pair` alone\n",
    ),
];

/// The plan is refused for this line, and nothing was sent or printed.
fn begins_no_session(rt: &impl Abort, alloc: Global, plan: &str, line: usize, fault: LineFault) {
    let ran = run(alloc, plan, &FROM, 1000);
    expect_same_for(rt, &ran.result, &Err(PlanFault::Line(line, fault)), &plan);
    expect_that(rt, ran.to.is_empty() && ran.lines.is_empty());
}

#[test]
fn plans_with_a_fault_begin_no_session(rt: HostRuntime) {
    for &(plan, line, fault, _) in NO_PLANS.iter() {
        begins_no_session(&rt, rt.alloc(), plan, line, fault);
    }
}

/// The fault of the plan of the file p is told by the status 1 and this text.
fn is_told_of_plan(rt: &impl Abort, alloc: Global, plan: &str, fault: PlanFault, told: &str) {
    let mut err = Cursor::new(Vec::new(alloc));
    let fault = Fault::of_plan("p", plan, fault);
    expect_same_for(rt, &report_fault(&fault, &mut err), &1, &plan);
    expect_same_for(rt, &err.into_inner().as_slice(), &told.as_bytes(), &plan);
}

#[test]
fn faults_of_plans_are_told(rt: HostRuntime) {
    for &(plan, line, fault, told) in NO_PLANS.iter() {
        is_told_of_plan(&rt, rt.alloc(), plan, PlanFault::Line(line, fault), told);
    }
}

/// What came of the lines of a plan of `pair`.
fn run_lines(rt: &impl Abort, alloc: Global, plan: &str, from: &[u8]) -> Ran {
    let plan = read_plan(alloc, plan).expect(rt, "a plan");
    let mut pipe = Streams::new(from, Cursor::new(Vec::new(alloc)));
    let mut out = Streams::new(io::empty(), Cursor::new(Vec::new(alloc)));
    let limits = Limits::standard();
    let ran = attach_session(
        alloc,
        limits,
        Order::One,
        plan.as_slice(),
        &mut pipe,
        &mut out,
        1000,
    );
    let (_, to) = pipe.into_parts();
    let (_, lines) = out.into_parts();
    Ran {
        result: Ok(ran.expect(rt, "memory")),
        to: to.into_inner(),
        lines: lines.into_inner(),
    }
}

/// A plan with a line of `pair` alone, this line, and how many bytes are sent and printed before it.
static OF_PAIR: [(&str, usize, usize, usize); 4] = [
    ("lose target", 1, 25, 89),
    ("ask 1 8\nlose debugger\nask 1 6", 2, 36, 89),
    ("ask 1 8\nanswers\nattach\nlose target", 3, 36, 124),
    ("ask 1 8\nask 11 12 0000000000000001\nattach", 3, 55, 89),
];

/// The engine refuses such a line by 0, and what the lines before it ask was sent.
#[test]
fn lines_of_pair_are_refused(rt: HostRuntime) {
    for &(plan, line, sent, printed) in OF_PAIR.iter() {
        let how = Attached::RefusedLine { line, number: 0 };
        let ran = run_lines(&rt, rt.alloc(), plan, &FROM);
        has_run(&rt, &ran, how, sent, printed);
    }
}

/// Where one command may wait, the first line of this plan is asked and the second is refused; two may wait where the limits say so.
#[test]
fn as_many_wait_as_the_limits_let(rt: HostRuntime) {
    let one = Limits::new(2048, 2, 1, 1).expect(&rt, "limits");
    let ran = run_within(rt.alloc(), one, PLAN, &FROM, 100_000);
    let refused = Attached::RefusedLine {
        line: 2,
        number: 32,
    };
    expect_same(&rt, &ran.result, &Ok(refused));
    let two = Limits::new(2048, 2, 1, 3).expect(&rt, "limits");
    let ran = run_within(rt.alloc(), two, PLAN, &FROM, 100_000);
    expect_same(&rt, &ran.result, &Ok(Attached::Ended(Ended::Done)));
    expect_same(&rt, &ran.to.as_slice(), &TO.as_slice());
}
