//! Scripts that are deep, long or wide: the fault, or none.
use crate::asserts::expect_same_for;
use jdwp_script::{Member, Script, ScriptFault};
use std::alloc::Global;
use std::process::Abort;
use test_parts::MACHINE_A;

/// Pieces: a front, one that stands so many times, a middle, another that stands as often, and a back.
type Pieces = (
    &'static str,
    &'static str,
    usize,
    &'static str,
    &'static str,
    &'static str,
);

/// Appends a piece, so many times.
fn push_times(rt: &impl Abort, alloc: Global, text: &mut String, piece: &str, count: usize) {
    let all = piece.repeat(alloc, count).expect(rt, "memory");
    text.push_str(all.as_str()).expect(rt, "memory");
}

/// Appends all pieces.
fn push_all(rt: &impl Abort, alloc: Global, text: &mut String, pieces: &Pieces) {
    let (front, piece, count, middle, other, back) = *pieces;
    text.push_str(front).expect(rt, "memory");
    push_times(rt, alloc, text, piece, count);
    text.push_str(middle).expect(rt, "memory");
    push_times(rt, alloc, text, other, count);
    text.push_str(back).expect(rt, "memory");
}

/// What a script is that says this alone.
fn fault(rt: &impl Abort, alloc: Global, pieces: &Pieces) -> Option<ScriptFault> {
    let mut text = String::new(alloc);
    push_all(rt, alloc, &mut text, pieces);
    Script::read(alloc, text.as_str()).err()
}

/// What machine A is with these in place of the first `old`.
fn fault_in(rt: &impl Abort, alloc: Global, old: &str, pieces: &Pieces) -> Option<ScriptFault> {
    let (front, back) = MACHINE_A.split_once(old).expect(rt, "the text is there");
    let mut text = String::from_str(alloc, front).expect(rt, "memory");
    push_all(rt, alloc, &mut text, pieces);
    text.push_str(back).expect(rt, "memory");
    Script::read(alloc, text.as_str()).err()
}

const NO_JSON: Option<ScriptFault> = Some(ScriptFault::NotJson);

const OVER: Option<ScriptFault> = Some(ScriptFault::OverLimit);

/// Nested a million times, closed or not.
static DEEP: [Pieces; 6] = [
    ("", "[", 1_000_000, "", "", ""),
    ("", "[", 1_000_000, "", "]", ""),
    ("", "{\"name\":", 1_000_000, "0", "}", ""),
    ("{\"name\":", "[", 1_000_000, "", "]", "}"),
    ("", "[{\"sizes\":", 1_000_000, "0", "}]", ""),
    ("", "[]", 1_000_000, "", "", ""),
];

#[test]
fn nested_a_million_times(rt: HostRuntime) {
    for pieces in DEEP.iter() {
        let found = fault(&rt, rt.alloc(), pieces);
        expect_same_for(&rt, &found, &NO_JSON, pieces);
    }
}

/// What gives way in machine A, what comes for it, and the outcome.
type Edit = (&'static str, Pieces, Option<ScriptFault>);

/// Each edit has its outcome.
fn are_outcomes(rt: &impl Abort, alloc: Global, edits: &[Edit]) {
    for (old, pieces, wanted) in edits {
        let found = fault_in(rt, alloc, old, pieces);
        expect_same_for(rt, &found, wanted, &(old, pieces));
    }
}

/// A member that is no script's, nested as deep as the whole may be, 127, and deeper.
static NESTED: [Edit; 3] = [
    (
        "\"name\":\"A\"",
        ("\"name\":\"A\",\"deep\":", "[", 126, "", "]", ""),
        None,
    ),
    (
        "\"name\":\"A\"",
        ("\"name\":\"A\",\"deep\":", "[", 127, "", "]", ""),
        NO_JSON,
    ),
    (
        "\"name\":\"A\"",
        ("\"name\":\"A\",\"deep\":", "[", 1_000_000, "", "]", ""),
        NO_JSON,
    ),
];

#[test]
fn a_member_that_is_deep(rt: HostRuntime) {
    are_outcomes(&rt, rt.alloc(), &NESTED);
}

/// Numbers of a million digits.
static LONG_NUMBERS: [Edit; 5] = [
    (
        "\"modifiers\":1",
        ("\"modifiers\":", "1", 1_000_000, "", "", ""),
        NO_JSON,
    ),
    (
        "\"modifiers\":1",
        ("\"modifiers\":-", "9", 1_000_000, "", "", ""),
        NO_JSON,
    ),
    (
        "\"modifiers\":1",
        ("\"modifiers\":0.", "1", 1_000_000, "", "", ""),
        Some(ScriptFault::Missing(Member::Modifiers)),
    ),
    (
        "\"modifiers\":1",
        ("\"modifiers\":1e", "9", 1_000_000, "", "", ""),
        NO_JSON,
    ),
    (
        "\"modifiers\":1",
        ("\"modifiers\":1e-", "9", 1_000_000, "", "", ""),
        Some(ScriptFault::Missing(Member::Modifiers)),
    ),
];

#[test]
fn numbers_of_a_million_digits(rt: HostRuntime) {
    are_outcomes(&rt, rt.alloc(), &LONG_NUMBERS);
}

/// Texts of 65,000 bytes and more.
static LONG_TEXTS: [Edit; 6] = [
    (
        "\"name\":\"A\"",
        ("\"name\":\"", "x", 65_000, "", "", "\""),
        OVER,
    ),
    (
        "\"name\":\"main\"",
        ("\"name\":\"", "x", 65_000, "", "", "\""),
        OVER,
    ),
    (
        "\"signature\":\"LMain;\"",
        ("\"signature\":\"", "x", 65_000, "", "", "\""),
        OVER,
    ),
    (
        "\"source\":\"Main.java\"",
        ("\"source\":\"", "\\u0000", 1_000_000, "", "", "\""),
        OVER,
    ),
    (
        "\"name\":\"A\"",
        ("\"name\":\"A\",\"more\":\"", "x", 10_000_000, "", "", "\""),
        None,
    ),
    (
        "\"name\":\"A\"",
        ("\"name\":\"A", "x", 1_000_000, "", "", ""),
        NO_JSON,
    ),
];

#[test]
fn texts_of_many_bytes(rt: HostRuntime) {
    are_outcomes(&rt, rt.alloc(), &LONG_TEXTS);
}

/// Lists and objects of very many parts.
static WIDE: [Edit; 5] = [
    (
        "[8,8,8,8,8]",
        ("[8", ",8", 1_000_000, "", "", "]"),
        Some(ScriptFault::Missing(Member::Sizes)),
    ),
    (
        "\"name\":\"A\"",
        ("\"name\":\"A\"", ",\"name\":\"A\"", 100_000, "", "", ""),
        None,
    ),
    (
        "\"interfaces\":[]",
        ("\"interfaces\":[0", ",0", 1_000_000, "", "", "]"),
        OVER,
    ),
    (
        "[\"go\",3],[\"return\"",
        ("[\"go\",3]", ",[\"go\",3]", 100_000, "", "", ",[\"return\""),
        OVER,
    ),
    (
        "\"objects\":[]",
        ("\"objects\":[0", ",0", 1_000_000, "", "", "]"),
        Some(ScriptFault::Missing(Member::Id)),
    ),
];

#[test]
fn lists_of_very_many(rt: HostRuntime) {
    are_outcomes(&rt, rt.alloc(), &WIDE);
}
