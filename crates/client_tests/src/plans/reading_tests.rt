//! Lines of plans, read, filled and compared.
use crate::asserts::{expect_same, expect_same_for};
use jdwp_plan::{Expected, FillFault, PlanFault, Values, is_expected, is_written, read_written};

/// Lines that say something.
const GOOD: [&str; 20] = [
    "plan 2",
    "",
    "# a comment",
    "ask VirtualMachine.Version",
    "ask VirtualMachine.ClassesBySignature \"LMain;\"",
    "ask EventRequest.Set 2 1 [(7, 1:#10:#20:3)]",
    "ask ThreadReference.Name $thread",
    "let main = 0.1",
    "let count = 0",
    "let path_2 = 2.0.1",
    "expect 0 \"main\"",
    "expect _",
    "expect held #1",
    "expect free $main",
    "timeout 1000",
    "events 0",
    "events 4294967295",
    "wait event",
    "mirror",
    "may end",
];

/// Lines that say nothing, the place at which each goes wrong, and what is expected there.
const BAD: [(&str, usize, Expected); 20] = [
    (" ask VirtualMachine.Version", 0, Expected::Word),
    ("answers", 0, Expected::Word),
    ("plan 3", 5, Expected::Version),
    ("ask", 3, Expected::Space),
    ("ask VirtualMachine.Versions", 4, Expected::Command),
    ("ask Version", 4, Expected::Command),
    ("ask  VirtualMachine.Version", 4, Expected::Command),
    ("let = 0", 4, Expected::Name),
    ("let a 0", 6, Expected::Equals),
    ("let a-b = 0", 4, Expected::Name),
    ("let a = ", 8, Expected::Path),
    ("let a = 0.x", 10, Expected::Path),
    ("let a = 0.1.2.3", 12, Expected::Path),
    ("expect ", 7, Expected::Text),
    ("expect held", 11, Expected::Space),
    ("timeout 1s", 8, Expected::Number),
    ("events 4294967296", 7, Expected::Number),
    ("wait events", 5, Expected::Event),
    ("mirror all", 7, Expected::End),
    ("may fail", 4, Expected::MayEnd),
];

#[test]
fn lines_are_read(rt: HostRuntime) {
    let alloc = rt.alloc();
    for line in GOOD {
        let read = read_written(alloc, line).expect(&rt, "a plan");
        expect_same_for(&rt, &read.len(), &usize::from(!line.is_empty()), &line);
    }
    for (line, place, expected) in BAD {
        let refused = read_written(alloc, line).err();
        let fault = PlanFault::Line {
            line: 1,
            place,
            expected,
        };
        expect_same_for(&rt, &refused, &Some(fault), &line);
    }
    expect_same(&rt, &is_written("plan 2\nmirror"), &true);
    expect_same(&rt, &is_written("ask 1 8\nanswers"), &false);
}

/// Expected texts, texts, and whether the second is the first.
const TEXTS: [(&str, &str, bool); 12] = [
    ("0 #1", "0 #1", true),
    ("0 #1", "0 #12", false),
    ("0 _", "0 #12", true),
    ("0 _", "0 [#1, #2]", true),
    ("0 [_, #2]", "0 [#1, #2]", true),
    ("0 [_]", "0 [#1, #2]", false),
    ("0 _", "0 ", false),
    ("2 [(2, _, #1, _)]", "2 [(2, 5, #1, 1:#10:#20:3)]", true),
    ("0 \"a_b\" _", "0 \"a_b\" 7", true),
    ("0 \"_\"", "0 \"x\"", false),
    ("0 _ 1", "0 \"a, ] \\\" b\" 1", true),
    ("_", "(1, [2])", true),
];

#[test]
fn texts_are_compared(rt: HostRuntime) {
    for (expected, text, same) in TEXTS {
        expect_same_for(
            &rt,
            &is_expected(expected.as_bytes(), text.as_bytes()),
            &same,
            &text,
        );
    }
}

#[test]
fn values_stand_in_the_place_of_names(rt: HostRuntime) {
    let alloc = rt.alloc();
    let mut values = Values::new(alloc);
    for (name, text) in [(b"a", b"#1"), (b"a", b"#5"), (b"b", b"17")] {
        let name = name.to_vec(alloc).expect(&rt, "memory");
        let text = text.to_vec(alloc).expect(&rt, "memory");
        expect_same(&rt, &values.bind(name, text).is_ok(), &true);
    }
    let filled = values
        .fill(alloc, b"1:$a:#2:$b \"LA$a;\"")
        .expect(&rt, "values");
    expect_same(&rt, &filled.as_slice(), &b"1:#5:#2:17 \"LA$a;\"".as_slice());
    let fault = values.fill(alloc, b"$a $ab").err();
    expect_same(&rt, &fault, &Some(FillFault::NoValue(3)));
}
