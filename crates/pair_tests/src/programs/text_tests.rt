//! The texts of faults, each.
use crate::asserts::expect_same;
use jdwp_attach::{LineFault, PlanFault};
use jdwp_debugger::{DebuggerFault, Refused};
use std::alloc::Global;
use std::process::Abort;

/// What is wrong with a line, in words.
static LINES: [(LineFault, &str); 11] = [
    (LineFault::Blank, "an empty line"),
    (
        LineFault::Spacing,
        "words that are not parted by one space each",
    ),
    (
        LineFault::FirstWord,
        "a first word that is not `ask`, `answers`, `events`, `mirror`, `lose` or `attach`",
    ),
    (
        LineFault::WordCount,
        "no line `ask SET NUMBER`, `ask SET NUMBER HEX`, `answers`, `events N`, `mirror`, `lose target`, `lose debugger` or `attach`",
    ),
    (
        LineFault::Set,
        "a command set that is not a number from 0 to 255",
    ),
    (
        LineFault::Number,
        "a command that is not a number from 0 to 255",
    ),
    (LineFault::OddDigits, "data of an odd number of hex digits"),
    (LineFault::Digits, "data that are not hex digits"),
    (
        LineFault::Count,
        "a number of events that is not a number below 4294967296",
    ),
    (LineFault::End, "an end that is not `target` or `debugger`"),
    (LineFault::PairAlone, "a line of `pair` alone"),
];

/// A fault of a line of a plan, in words behind the line's number.
fn is_told_of_line(rt: &impl Abort, alloc: Global, fault: LineFault, words: &str) {
    let told = PlanFault::Line(7, fault)
        .to_string(alloc)
        .expect(rt, "memory");
    let wanted = format!(in alloc; "line 7 of the plan: {words}").expect(rt, "memory");
    expect_same(rt, &told.as_str(), &wanted.as_str());
}

#[test]
fn faults_of_lines_in_words(rt: HostRuntime) {
    for &(fault, words) in LINES.iter() {
        is_told_of_line(&rt, rt.alloc(), fault, words);
    }
}

/// Why a debugger refuses a command, in words.
static REFUSALS: [(Refused, &str); 6] = [
    (
        Refused::NotReady,
        "fault 31: the widths of ids are not known yet",
    ),
    (Refused::Busy, "fault 32: too much waits"),
    (Refused::Closed, "fault 33: the session is closed"),
    (
        Refused::TooLong,
        "fault 34: a command longer than a packet may be",
    ),
    (Refused::NoMemory, "fault 35: no memory"),
    (
        Refused::BadCommand,
        "fault 36: a command that no target has, or data that do not read in its layout",
    ),
];

#[test]
fn refusals_of_commands_in_words(rt: HostRuntime) {
    for &(refused, words) in REFUSALS.iter() {
        let told = refused.to_string(rt.alloc()).expect(&rt, "memory");
        expect_same(&rt, &told.as_str(), &words);
    }
}

/// Why a debugger's turn failed, in words.
static TURNS: [(DebuggerFault, &str); 5] = [
    (
        DebuggerFault::UnknownReply,
        "fault 42: a reply to no command that waits",
    ),
    (
        DebuggerFault::BadReply,
        "fault 43: a reply whose data do not read, or an error reply with data",
    ),
    (
        DebuggerFault::TooManyParked,
        "fault 44: more composites than may wait for the widths of ids",
    ),
    (
        DebuggerFault::BadEvent,
        "fault 45: events that don't fit the suspend counts known, or another command",
    ),
    (DebuggerFault::NoMemory, "no memory"),
];

#[test]
fn faults_of_turns_in_words(rt: HostRuntime) {
    for &(fault, words) in TURNS.iter() {
        let told = fault.to_string(rt.alloc()).expect(&rt, "memory");
        expect_same(&rt, &told.as_str(), &words);
    }
}
