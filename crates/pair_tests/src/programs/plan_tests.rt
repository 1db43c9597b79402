//! Plans as texts.
use crate::asserts::{expect_same, expect_same_for, expect_that};
use jdwp_attach::{LineFault, PlanFault, PlanLine, read_attach_plan, read_plan};
use std::alloc::Global;
use std::process::Abort;

/// What a line is to say.
#[derive(Clone, Copy)]
enum Form {
    Ask(u8, u8, &'static [u8]),
    Answers,
    Events(u32),
    Mirror,
    LoseTarget,
    LoseDebugger,
    Attach,
}

/// Whether the line says this.
fn is_of_form(line: &PlanLine, form: &Form) -> bool {
    match (line, form) {
        (PlanLine::Ask { set, number, data }, Form::Ask(of_set, of_number, bytes)) => {
            set == of_set && number == of_number && data.as_slice() == *bytes
        }
        (PlanLine::Answers, Form::Answers) => true,
        (PlanLine::Events(count), Form::Events(of_count)) => count == of_count,
        (PlanLine::Mirror, Form::Mirror)
        | (PlanLine::LoseTarget, Form::LoseTarget)
        | (PlanLine::LoseDebugger, Form::LoseDebugger)
        | (PlanLine::Attach, Form::Attach) => true,
        _ => false,
    }
}

/// Whether these are all the lines of the plan.
fn has_forms(plan: &[PlanLine], forms: &[Form]) -> bool {
    let same = plan
        .iter()
        .zip(forms)
        .all(|(line, form)| is_of_form(line, form));
    same && plan.len() == forms.len()
}

/// Whether the text is a plan of these lines.
fn says(rt: &impl Abort, alloc: Global, text: &str, forms: &[Form]) -> bool {
    has_forms(&read_plan(alloc, text).expect(rt, "a plan"), forms)
}

/// What is wrong with the text as a plan.
fn fault(alloc: Global, text: &str) -> Option<PlanFault> {
    read_plan(alloc, text).err()
}

/// Plans, and what their lines say.
static PLANS: [(&str, &[Form]); 9] = [
    ("", &[]),
    ("mirror", &[Form::Mirror]),
    (
        "events 4294967295\nevents 0",
        &[Form::Events(4294967295), Form::Events(0)],
    ),
    (
        "ask 1 9\r\nevents 2\r\nmirror\r\n",
        &[Form::Ask(1, 9, &[]), Form::Events(2), Form::Mirror],
    ),
    ("ask 0 255 aBc0", &[Form::Ask(0, 255, &[0xab, 0xc0])]),
    ("ask 255 007 00", &[Form::Ask(255, 7, &[0])]),
    (
        "ask 1 8\nask 11 12 0000000000000001\nask 1 6\nanswers\n",
        &[
            Form::Ask(1, 8, &[]),
            Form::Ask(11, 12, &[0, 0, 0, 0, 0, 0, 0, 1]),
            Form::Ask(1, 6, &[]),
            Form::Answers,
        ],
    ),
    ("lose target", &[Form::LoseTarget]),
    (
        "lose target\nlose debugger\nattach\nmirror\n",
        &[
            Form::LoseTarget,
            Form::LoseDebugger,
            Form::Attach,
            Form::Mirror,
        ],
    ),
];

#[test]
fn plans_are_read(rt: HostRuntime) {
    for (text, forms) in PLANS.iter() {
        expect_same_for(&rt, &says(&rt, rt.alloc(), text, forms), &true, text);
    }
}

/// The text is no plan: this is wrong with this line of it.
fn is_no_plan(rt: &impl Abort, alloc: Global, text: &str, line: usize, wanted: LineFault) {
    let wanted = Some(PlanFault::Line(line, wanted));
    expect_same_for(rt, &fault(alloc, text), &wanted, &text);
}

/// Plans with a fault, in which line, and which: of empty lines, of spaces, of first words, and of
/// how many words there are.
static FAULTS: [(&str, usize, LineFault); 20] = [
    ("\n", 1, LineFault::Blank),
    ("mirror\n\nmirror", 2, LineFault::Blank),
    (" ", 1, LineFault::Spacing),
    ("mirror\n mirror", 2, LineFault::Spacing),
    ("mirror \nmirror", 1, LineFault::Spacing),
    ("ask  1 8", 1, LineFault::Spacing),
    ("ask 1 8 ", 1, LineFault::Spacing),
    ("look  1", 1, LineFault::Spacing),
    ("# what is asked", 1, LineFault::FirstWord),
    ("Ask 1 8", 1, LineFault::FirstWord),
    ("asks 1 8", 1, LineFault::FirstWord),
    ("ask\t1 8", 1, LineFault::FirstWord),
    ("mirror\r", 1, LineFault::FirstWord),
    ("ask", 1, LineFault::WordCount),
    ("ask 1", 1, LineFault::WordCount),
    ("ask 1 8 00 00", 1, LineFault::WordCount),
    ("answers all", 1, LineFault::WordCount),
    ("events", 1, LineFault::WordCount),
    ("events 1 2", 1, LineFault::WordCount),
    ("mirror now", 1, LineFault::WordCount),
];

#[test]
fn faults_in_their_lines(rt: HostRuntime) {
    for &(text, line, wanted) in FAULTS.iter() {
        is_no_plan(&rt, rt.alloc(), text, line, wanted);
    }
}

/// The same of words that are no numbers or no data.
static FAULTS_OF_WORDS: [(&str, usize, LineFault); 11] = [
    ("ask 256 x", 1, LineFault::Set),
    ("ask +1 8", 1, LineFault::Set),
    ("ask 1 -8", 1, LineFault::Number),
    ("ask 1 0x8 0", 1, LineFault::Number),
    ("ask 1 8 0", 1, LineFault::OddDigits),
    ("ask 1 8 x", 1, LineFault::OddDigits),
    ("ask 1 8 0x", 1, LineFault::Digits),
    ("ask 1 8 0\u{e9}0", 1, LineFault::Digits),
    ("events 4294967296", 1, LineFault::Count),
    ("events +1", 1, LineFault::Count),
    ("answers\nmirror\nevents one\nask", 3, LineFault::Count),
];

#[test]
fn faults_of_words_in_their_lines(rt: HostRuntime) {
    for &(text, line, wanted) in FAULTS_OF_WORDS.iter() {
        is_no_plan(&rt, rt.alloc(), text, line, wanted);
    }
}

/// The same of lines of `pair` alone, and of lines that are almost such.
static FAULTS_FOR_PAIR: [(&str, usize, LineFault); 12] = [
    ("lose", 1, LineFault::WordCount),
    ("lose ", 1, LineFault::Spacing),
    ("lose  target", 1, LineFault::Spacing),
    ("lose link", 1, LineFault::End),
    ("lose Target", 1, LineFault::End),
    ("lose targets", 1, LineFault::End),
    ("attach\nlose debuggee\nlose", 2, LineFault::End),
    ("lose target now", 1, LineFault::WordCount),
    ("lose link now", 1, LineFault::WordCount),
    ("lost target", 1, LineFault::FirstWord),
    ("attach 1", 1, LineFault::WordCount),
    ("attached", 1, LineFault::FirstWord),
];

#[test]
fn faults_in_lines_of_pair(rt: HostRuntime) {
    for &(text, line, wanted) in FAULTS_FOR_PAIR.iter() {
        is_no_plan(&rt, rt.alloc(), text, line, wanted);
    }
}

/// Plans of `attach` with a fault: in which line, and which. A line of `pair` alone is one, where no line before it has another.
static FAULTS_FOR_ATTACH: [(&str, usize, LineFault); 9] = [
    ("lose target", 1, LineFault::PairAlone),
    ("answers\nlose debugger", 2, LineFault::PairAlone),
    (
        "ask 1 8\nanswers\nattach\nmirror\n",
        3,
        LineFault::PairAlone,
    ),
    ("mirror\nattach\nlose target", 2, LineFault::PairAlone),
    ("attach\n\nmirror", 1, LineFault::PairAlone),
    ("mirror\n\nattach", 2, LineFault::Blank),
    ("lose link\nattach", 1, LineFault::End),
    ("attach 1", 1, LineFault::WordCount),
    ("ask 1 8\nanswer", 2, LineFault::FirstWord),
];

#[test]
fn faults_in_plans_of_attach(rt: HostRuntime) {
    for &(text, line, wanted) in FAULTS_FOR_ATTACH.iter() {
        let wanted = Some(PlanFault::Line(line, wanted));
        let found = read_attach_plan(rt.alloc(), text).err();
        expect_same_for(&rt, &found, &wanted, &text);
    }
}

/// The lines of a plan of `attach`.
fn attach_plan(rt: &impl Abort, alloc: Global, text: &str) -> Vec<PlanLine> {
    read_attach_plan(alloc, text).expect(rt, "a plan of `attach`")
}

/// Each line that `attach` carries out, in one plan.
#[test]
fn plans_of_attach_are_read(rt: HostRuntime) {
    let plan = attach_plan(
        &rt,
        rt.alloc(),
        "ask 0 255 aBc0\nanswers\nevents 2\nmirror\n",
    );
    let forms = [
        Form::Ask(0, 255, &[0xab, 0xc0]),
        Form::Answers,
        Form::Events(2),
        Form::Mirror,
    ];
    expect_that(&rt, has_forms(&plan, &forms));
    expect_same(&rt, &attach_plan(&rt, rt.alloc(), "").len(), &0);
}

/// The fault in words.
fn is_told(rt: &impl Abort, alloc: Global, fault: PlanFault, words: &str) {
    let told = format!(in alloc; "{}", fault).expect(rt, "memory");
    expect_same(rt, &told.as_str(), &words);
}

#[test]
fn faults_in_words(rt: HostRuntime) {
    let words = "line 3 of the plan: a number of events that is not a number below 4294967296";
    let count = PlanFault::Line(3, LineFault::Count);
    is_told(&rt, rt.alloc(), count, words);
    is_told(&rt, rt.alloc(), PlanFault::NoMemory, "no memory");
}
