//! Captures and plans of very many digits and lines: the fault and its line, or what is told.
use crate::asserts::{expect_same, expect_same_for};
use jdwp_attach::{LineFault, PlanFault, PlanLine, read_plan};
use jdwp_judge::{check, show};
use jdwp_show::{CaptureFault, Verdict};
use jdwp_wire::FrameFault;
use std::alloc::Global;
use std::process::Abort;

/// A front, a piece, how many of them, and a back.
type Pieces = (&'static str, &'static str, usize, &'static str);

/// The text of these pieces.
fn text_of(rt: &impl Abort, alloc: Global, pieces: &Pieces) -> String {
    let (front, piece, count, back) = *pieces;
    let middle = piece.repeat(alloc, count).expect(rt, "memory");
    let mut text = String::from_str(alloc, front).expect(rt, "memory");
    text.push_str(middle.as_str()).expect(rt, "memory");
    text.push_str(back).expect(rt, "memory");
    text
}

/// Captures, the number of the line in which the first fault stands, and the fault.
static CAPTURES: [(Pieces, usize, CaptureFault); 8] = [
    (
        ("> ", "4a", 500_000, ""),
        1,
        CaptureFault::Frame(FrameFault::BadHandshake(1)),
    ),
    (
        ("> 4a4457502d48616e647368616b65", "00", 500_000, "\n"),
        1,
        CaptureFault::Frame(FrameFault::ShortLength),
    ),
    (("> ", "4a", 500_000, "4"), 1, CaptureFault::BadLine),
    (("> ", "4a", 500_000, "\n< 4z"), 2, CaptureFault::BadLine),
    (("> ", " ", 1_000_000, "\n"), 1, CaptureFault::BadLine),
    (("", "x", 1_000_000, "\n"), 1, CaptureFault::BadLine),
    (
        ("", "> 4a\n", 100_000, "> "),
        100_001,
        CaptureFault::BadLine,
    ),
    (
        ("> 4a4457502d48616e647368616b65\n", "> 00\n", 100_000, ""),
        5,
        CaptureFault::Frame(FrameFault::ShortLength),
    ),
];

/// The capture has the fault of the row, checked and shown.
fn is_judged(rt: &impl Abort, alloc: Global, row: &(Pieces, usize, CaptureFault)) {
    let (pieces, line, fault) = row;
    let text = text_of(rt, alloc, pieces);
    let verdict = check(alloc, text.as_str()).expect(rt, "memory");
    expect_same_for(rt, &verdict, &Verdict::No(*line, *fault), row);
    let shown = show(alloc, text.as_str()).expect(rt, "memory");
    expect_same_for(rt, &shown.fault, &Some((*line, *fault)), row);
}

#[test]
fn captures_of_many_digits(rt: HostRuntime) {
    for row in CAPTURES.iter() {
        is_judged(&rt, rt.alloc(), row);
    }
}

/// The handshakes, and in one line 45,454 commands, none of which is answered: VirtualMachine.Suspend under the ids from 1 on.
fn commands_in_one_line(rt: &impl Abort, alloc: Global) -> String {
    let front = "> 4a4457502d48616e647368616b65\n< 4a4457502d48616e647368616b65\n> ";
    let mut text = String::from_str(alloc, front).expect(rt, "memory");
    for id in 1..45_455u32 {
        write!(text, "0000000b{id:08x}000108").expect(rt, "memory");
    }
    text
}

/// The same in words.
fn commands_in_words(rt: &impl Abort, alloc: Global) -> String {
    let mut text = String::from_str(alloc, "> hello\n< hello\n").expect(rt, "memory");
    for id in 1..45_455u32 {
        write!(text, "> {id} VirtualMachine.Suspend\n").expect(rt, "memory");
    }
    text
}

/// A line of a million digits.
#[test]
fn commands_of_a_million_digits(rt: HostRuntime) {
    let text = commands_in_one_line(&rt, rt.alloc());
    let verdict = check(rt.alloc(), text.as_str()).expect(&rt, "memory");
    expect_same(&rt, &verdict, &Verdict::Yes);
    let words = commands_in_words(&rt, rt.alloc());
    let shown = show(rt.alloc(), text.as_str()).expect(&rt, "memory");
    expect_same(&rt, &(shown.lines.as_str() == words.as_str()), &true);
    expect_same(&rt, &shown.fault, &None);
}

/// Plans, the number of the first line that is none, and why.
static PLANS: [(Pieces, usize, LineFault); 8] = [
    (
        ("", "mirror\n", 100_000, "look"),
        100_001,
        LineFault::FirstWord,
    ),
    (
        ("", "answers\n", 99_999, "events"),
        100_000,
        LineFault::WordCount,
    ),
    (("events ", "1", 1_000_000, ""), 1, LineFault::Count),
    (("ask ", "0", 1_000_000, "256 1"), 1, LineFault::Set),
    (("ask 1 8 ", "00", 500_000, "0"), 1, LineFault::OddDigits),
    (("ask 1 8 ", "00", 500_000, "0x"), 1, LineFault::Digits),
    (("", "x", 1_000_000, ""), 1, LineFault::FirstWord),
    (("mirror\n", " ", 1_000_000, ""), 2, LineFault::Spacing),
];

/// The plan is refused as the row says.
fn is_refused(rt: &impl Abort, alloc: Global, row: &(Pieces, usize, LineFault)) {
    let (pieces, line, fault) = row;
    let text = text_of(rt, alloc, pieces);
    let found = read_plan(alloc, text.as_str()).err();
    expect_same_for(rt, &found, &Some(PlanFault::Line(*line, *fault)), row);
}

#[test]
fn plans_of_many_lines_that_are_refused(rt: HostRuntime) {
    for row in PLANS.iter() {
        is_refused(&rt, rt.alloc(), row);
    }
}

/// How many lines a plan has that say this.
fn lines_that_say(plan: &[PlanLine], events: u32) -> usize {
    let mut count = 0usize;
    for line in plan {
        if matches!(line, PlanLine::Events(found) if *found == events) {
            count = count.saturating_add(1);
        }
    }
    count
}

#[test]
fn a_plan_of_many_lines(rt: HostRuntime) {
    let text = text_of(&rt, rt.alloc(), &("", "events 7\n", 100_000, "mirror"));
    let plan = read_plan(rt.alloc(), text.as_str()).expect(&rt, "the plan is read");
    expect_same(&rt, &plan.len(), &100_001);
    expect_same(&rt, &lines_that_say(&plan, 7), &100_000);
}

/// How many bytes the first line of a plan asks with, and whether all are this.
fn is_asked_with(plan: &[PlanLine], byte: u8) -> Option<usize> {
    match plan {
        [PlanLine::Ask { data, .. }] if data.iter().all(|it| *it == byte) => Some(data.len()),
        _ => None,
    }
}

#[test]
fn a_command_of_a_million_digits(rt: HostRuntime) {
    let text = text_of(&rt, rt.alloc(), &("ask 1 8 ", "a5", 500_000, ""));
    let plan = read_plan(rt.alloc(), text.as_str()).expect(&rt, "the plan is read");
    expect_same(&rt, &is_asked_with(&plan, 0xa5), &Some(500_000));
}
