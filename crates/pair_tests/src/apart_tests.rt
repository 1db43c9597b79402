//! Plans whose target is taken to send replies and events by threads of their own.
use crate::asserts::expect_same_for;
use crate::random_plans::{Numbers, TWO_THREADS, random_plan};
use crate::runs::{CASE, Case, Writer, passes, passes_over, run_case, run_script};
use crate::{deferring_tests, loss_tests, pair_tests};
use jdwp_attach::read_plan;
use jdwp_debuggee::Settings;
use jdwp_debugger::Order;
use jdwp_link::Memory;
use jdwp_pair::{Loopback, PairEnded};
use jdwp_wire::Limits;
use std::alloc::Global;
use std::process::Abort;

/// VM_START suspends the thread, one Resume follows, and then the breakpoint suspends it: so its count is 1 at least, in whatever order the
/// event and the Resume came.
const STOPPED: Case = Case {
    order: Order::Apart,
    lines: "< hello
< 1 Event.Composite 2 [(90, 0, #1)]
< 1 reply VirtualMachine.IDSizes 0 8 8 8 8 8
< 2 reply EventRequest.Set 0 1
< 3 reply VirtualMachine.Resume 0
< 2 Event.Composite 2 [(2, 1, #1, 1:#10:#20:3)]
thread 1 1+ held
request 1 2 2
",
    ..pair_tests::WHOLE
};

/// Nothing suspended the thread before the Resume, so it may have taken back what the breakpoint did. The count is asked, and settles it.
const IN_VAIN: Case = Case {
    order: Order::Apart,
    start_all: false,
    plan: "ask 15 1 0202000000010701000000000000000a00000000000000140000000000000003
ask 11 3 0000000000000001
events 2
answers
mirror
",
    lines: "< hello
< 1 Event.Composite 0 [(90, 0, #1)]
< 1 reply VirtualMachine.IDSizes 0 8 8 8 8 8
< 2 reply EventRequest.Set 0 1
< 3 reply ThreadReference.Resume 0
< 2 Event.Composite 2 [(2, 1, #1, 1:#10:#20:3)]
< 4 reply ThreadReference.SuspendCount 0 1
thread 1 1+ held
request 1 2 2
",
    ..CASE
};

/// Nobody is held in the session behind a loss of the connection, until something is told of it.
const BEGUN_ANEW: Case = Case {
    order: Order::Apart,
    plan: "mirror
lose target
lose debugger
mirror
attach
mirror
ask 11 12 0000000000000001
answers
mirror
ask 11 2 0000000000000001
answers
mirror
",
    lines: "< hello
< 1 Event.Composite 2 [(90, 0, #1)]
< 1 reply VirtualMachine.IDSizes 0 8 8 8 8 8
thread 1 1+ held
< hello
< 2 reply VirtualMachine.IDSizes 0 8 8 8 8 8
< 3 reply ThreadReference.SuspendCount 0 0
thread 1 0+ free
< 4 reply ThreadReference.Suspend 0
thread 1 1+ held
",
    ..CASE
};

#[test]
fn a_thread_is_shown_as_surely_suspended(rt: HostRuntime) {
    for case in [&STOPPED, &IN_VAIN, &BEGUN_ANEW] {
        passes(&rt, rt.alloc(), case);
        passes_over(&rt, rt.alloc(), &mut Loopback::new(&rt), case);
    }
}

/// Whether a line is one that `mirror` prints.
fn is_known(line: &str) -> bool {
    line.starts_with("thread ") || line.starts_with("request ")
}

/// The lines of a text but those that `mirror` prints.
fn messages(rt: &impl Abort, alloc: Global, text: &str) -> String {
    let mut lines = String::new(alloc);
    for line in text.lines() {
        if !is_known(line) {
            lines.push_str(line).expect(rt, "memory");
            lines.push_str("\n").expect(rt, "memory");
        }
    }
    lines
}

/// A run of the case in this order ends as it says, and prints the messages that it says.
fn says_the_same(rt: &impl Abort, alloc: Global, case: &Case) {
    let apart = Case {
        order: Order::Apart,
        ..*case
    };
    let (ended, lines) = run_case(rt, alloc, &mut Memory::new(), &apart);
    expect_same_for(rt, &ended, &case.ended, &case.plan);
    let text = str::from_utf8(&lines).expect(rt, "text");
    let told = messages(rt, alloc, text);
    let want = messages(rt, alloc, case.lines);
    begins_so(rt, &told, &want);
}

/// The lines begin with these, and others are of counts.
fn begins_so(rt: &impl Abort, told: &str, want: &str) {
    let rest = told.strip_prefix(want).expect(rt, "the same messages");
    for line in rest.lines() {
        assert!(rt; is_count(line), "{line}");
    }
}

/// The messages are those of the other order, and a count may be asked behind the last event.
#[test]
fn messages_are_the_same(rt: HostRuntime) {
    for cases in [
        pair_tests::DONE.as_slice(),
        pair_tests::REFUSED.as_slice(),
        pair_tests::LIMITED.as_slice(),
        loss_tests::DONE.as_slice(),
        loss_tests::UNDONE.as_slice(),
        deferring_tests::RELEASED.as_slice(),
    ] {
        for case in cases {
            says_the_same(&rt, rt.alloc(), case);
        }
    }
}

/// What the run of a plan over the machine of two threads prints.
fn printed(
    rt: &impl Abort,
    alloc: Global,
    start_all: bool,
    order: Order,
    plan: &str,
) -> (PairEnded, Vec<u8>) {
    let lines = read_plan(alloc, plan).expect(rt, "a plan");
    let limits = Limits::new(4096, 8, 4, 8).expect(rt, "limits");
    let settings = Settings::new(start_all, 65_535, limits).expect(rt, "a count limit");
    let writer = Writer::failing(alloc, 0, 0);
    let mut memory = Memory::new();
    run_script(
        rt,
        alloc,
        &mut memory,
        TWO_THREADS,
        settings,
        false,
        order,
        &lines,
        writer,
        300,
    )
}

/// The thread and the least count of a line `thread T N+ held`.
fn least_of(line: &str) -> Option<(u64, u64)> {
    let rest = line.strip_prefix("thread ")?;
    let (thread, rest) = rest.split_once(' ')?;
    let (count, rest) = rest.split_once('+')?;
    if rest != " held" {
        return None;
    }
    Some((number(thread)?, number(count)?))
}

/// The thread and the count of a line `thread T COUNT held`, or `free`.
fn count_of(line: &str) -> Option<(u64, u64)> {
    let rest = line.strip_prefix("thread ")?;
    let (thread, rest) = rest.split_once(' ')?;
    let (count, _) = rest.split_once(' ')?;
    Some((number(thread)?, number(count)?))
}

fn number(text: &str) -> Option<u64> {
    match text.parse::<u64>() {
        Ok(number) => Some(number),
        Err(_) => None,
    }
}

/// The count that the lines between these places have of a thread; None where they have none, as of one that was found to have ended.
fn known_count(lines: &[&str], from: usize, to: usize, thread: u64) -> Option<u64> {
    for place in from..to {
        match line_at(lines, place).and_then(count_of) {
            Some((other, count)) if other == thread => return Some(count),
            _ => {}
        }
    }
    None
}

/// The line at a place, if there is one.
fn line_at<'a>(lines: &[&'a str], place: usize) -> Option<&'a str> {
    if place < lines.len() {
        Some(lines[place])
    } else {
        None
    }
}

/// Where the lines of a mirror end that begin at this place.
fn known_to(lines: &[&str], from: usize) -> usize {
    for place in from..lines.len() {
        if !is_known(lines[place]) {
            return place;
        }
    }
    from.max(lines.len())
}

/// No thread that is held in the lines of `apart` between these places has fewer in those of `one`, whose counts are the target's, as long as it
/// lives.
fn are_at_most(
    rt: &impl Abort,
    one: &[&str],
    (i, known): (usize, usize),
    apart: &[&str],
    (j, sure): (usize, usize),
    plan: &str,
) {
    for place in j..sure {
        if let Some((thread, least)) = line_at(apart, place).and_then(least_of) {
            let count = known_count(one, i, known, thread).unwrap_or(least);
            assert!(rt; least <= count, "{plan}: {thread}");
        }
    }
}

/// Until a count is asked that the plan doesn't ask, both runs print the same messages, and no thread that is held has fewer in the mirror.
/// Whether none is asked.
fn agree(rt: &impl Abort, alloc: Global, one: &str, apart: &str, plan: &str) -> bool {
    let one = one.lines().collect::<Vec<&str>>(alloc).expect(rt, "memory");
    let apart = apart
        .lines()
        .collect::<Vec<&str>>(alloc)
        .expect(rt, "memory");
    let (mut i, mut j): (usize, usize) = (0, 0);
    for _ in 0..=one.len() {
        let (known, sure) = (known_to(&one, i), known_to(&apart, j));
        are_at_most(rt, &one, (i, known), &apart, (j, sure), plan);
        match (line_at(&one, known), line_at(&apart, sure)) {
            (None, None) => return true,
            (Some(left), Some(right)) if is_same(left, right) => {}
            (_, Some(right)) if is_of_count(right) => return false,
            _ => panic!(rt; "{plan}: another message"),
        }
        i = known.saturating_add(1);
        j = sure.saturating_add(1);
    }
    panic!(rt; "{plan}: more messages than there are");
}

fn is_same(left: &str, right: &str) -> bool {
    left == right
}

/// Whether a line is a reply to SuspendCount, or tells of a command that is lost, which may be one.
fn is_of_count(line: &str) -> bool {
    is_count(line) || line.starts_with("lost ")
}

/// Whether a line is a reply to SuspendCount.
fn is_count(line: &str) -> bool {
    line.find("ThreadReference.SuspendCount").is_some()
}

/// A thread that is held is suspended, as its status tells, which is asked behind each `mirror`: of thread 1, and then of thread 2. Whether
/// one was held.
fn holds_suspended(rt: &impl Abort, apart: &str, plan: &str) -> bool {
    let mut held = [false, false];
    let mut any = false;
    let mut statuses: usize = 0;
    for line in apart.lines() {
        match least_of(line) {
            Some((1, _)) => held[0] = true,
            Some((2, _)) => held[1] = true,
            _ => {}
        }
        any = any || held[0] || held[1];
        if line.find("ThreadReference.Status").is_some() {
            let place = statuses % 2;
            let runs = line.find("Status 0 ").is_some() && line.find("Status 0 1 1").is_none();
            assert!(rt; !(held[place] && runs), "{plan}: {line}");
            held[place] = false;
            statuses = statuses.saturating_add(1);
        }
    }
    any
}

/// How many plans are made of a seed.
const PLANS: u32 = 250;

/// Runs of plans that are drawn from this seed: one holds a thread, and in one a count is asked.
fn hold_suspended_threads_alone<R: AllocGlobal + Abort>(rt: &R, seed: u64) {
    let mut numbers = Numbers::from_seed(seed);
    let (mut held, mut counted) = (false, false);
    for _ in 0..PLANS {
        let alloc = rt.alloc();
        let plan = random_plan(rt, alloc, &mut numbers);
        let start_all = numbers.below(2) == 0;
        let (ended, one) = printed(rt, alloc, start_all, Order::One, &plan);
        let (also, apart) = printed(rt, alloc, start_all, Order::Apart, &plan);
        let one = str::from_utf8(&one).expect(rt, "text");
        let apart = str::from_utf8(&apart).expect(rt, "text");
        held = holds_suspended(rt, apart, &plan) || held;
        if agree(rt, alloc, one, apart, &plan) {
            expect_same_for(rt, &also, &ended, &plan);
        } else {
            counted = true;
        }
    }
    assert!(rt; held && counted);
}

#[test]
fn first_plans_hold_suspended_threads_alone(rt: HostRuntime) {
    hold_suspended_threads_alone(&rt, 20_240_607);
}

#[test]
fn second_plans_hold_suspended_threads_alone(rt: HostRuntime) {
    hold_suspended_threads_alone(&rt, 1_000_003);
}

#[test]
fn third_plans_hold_suspended_threads_alone(rt: HostRuntime) {
    hold_suspended_threads_alone(&rt, 77_777_777);
}

#[test]
fn fourth_plans_hold_suspended_threads_alone(rt: HostRuntime) {
    hold_suspended_threads_alone(&rt, 4_294_967_291);
}

#[test]
fn fifth_plans_hold_suspended_threads_alone(rt: HostRuntime) {
    hold_suspended_threads_alone(&rt, 31_415_926);
}

#[test]
fn sixth_plans_hold_suspended_threads_alone(rt: HostRuntime) {
    hold_suspended_threads_alone(&rt, 27_182_818);
}

#[test]
fn seventh_plans_hold_suspended_threads_alone(rt: HostRuntime) {
    hold_suspended_threads_alone(&rt, 16_180_339);
}

#[test]
fn eighth_plans_hold_suspended_threads_alone(rt: HostRuntime) {
    hold_suspended_threads_alone(&rt, 14_142_135);
}
