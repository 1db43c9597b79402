//! Scripts that are read and scripts that are refused.
use crate::asserts::{expect_same, expect_same_for};
use jdwp_script::{Class, Literal, Member, Method, Script, ScriptFault, Step, Thread};
use jdwp_value::{ObjectTag, Tag, Value};
use std::alloc::Global;
use std::process::Abort;
use test_parts::MACHINE_A;

/// A script with something of each kind.
pub(crate) const MACHINE_B: &str = "{\"name\":\"B\",\"sizes\":[8,8,8,8,8],
\"groups\":[{\"id\":5,\"name\":\"main\",\"parent\":0},{\"id\":6,\"name\":\"pool\",\"parent\":5}],
\"classes\":[{\"id\":10,\"tag\":2,\"signature\":\"LJob;\",\"modifiers\":1537,
 \"super\":0,\"interfaces\":[],\"source\":null,\"fields\":[],\"methods\":[]},
 {\"id\":11,\"tag\":1,\"signature\":\"LMain;\",\"modifiers\":1,
 \"super\":0,\"interfaces\":[10],\"source\":\"Main.java\",
 \"fields\":[{\"id\":40,\"name\":\"count\",\"signature\":\"I\",\"modifiers\":8,\"value\":[\"I\",7]},
  {\"id\":41,\"name\":\"next\",\"signature\":\"LMain;\",\"modifiers\":0,\"value\":null}],
 \"methods\":[{\"id\":20,\"name\":\"run\",\"signature\":\"()V\",\"modifiers\":1,
  \"args\":1,\"last\":9,\"lines\":[[0,1],[3,2]],
  \"slots\":[{\"from\":0,\"name\":\"this\",\"signature\":\"LMain;\",\"length\":10,\"slot\":0}]}]}],
\"objects\":[{\"id\":50,\"class\":11,\"fields\":[[40,[\"I\",1]],[41,[\"L\",51]]],\"text\":null,\"array\":null},
 {\"id\":51,\"class\":11,\"fields\":[],\"text\":\"hello\",\"array\":[\"L\",[50,0]]}],
\"threads\":[{\"id\":1,\"name\":\"main\",\"group\":5,\"steps\":[[\"prepare\",11],[\"start\",2],
 [\"call\",30,11,20,50,[[0,[\"L\",50]]]],[\"go\",3],[\"throw\",51,[11,20,9]],[\"throw\",50,null],
 [\"return\",[\"V\",0]]]},
 {\"id\":2,\"name\":\"work\",\"group\":6,\"steps\":[]}]}";

/// The script with `new` in place of the first `old`.
pub(crate) fn edited(rt: &impl Abort, alloc: Global, script: &str, old: &str, new: &str) -> String {
    let (front, back) = script.split_once(old).expect(rt, "the text is there");
    format!(in alloc; "{front}{new}{back}").expect(rt, "memory")
}

/// The fault by which the text is refused, or none.
pub(crate) fn fault(alloc: Global, text: &str) -> Option<ScriptFault> {
    match Script::read(alloc, text) {
        Ok(_) => None,
        Err(fault) => Some(fault),
    }
}

/// What gives way, what comes for it, and the outcome: a fault, or none.
pub(crate) type Edit = (&'static str, &'static str, Option<ScriptFault>);

/// The script with `new` in place of the first `old` has this outcome.
fn has_outcome(
    rt: &impl Abort,
    alloc: Global,
    script: &str,
    old: &str,
    new: &str,
    wanted: &Option<ScriptFault>,
) {
    let text = edited(rt, alloc, script, old, new);
    expect_same_for(rt, &fault(alloc, text.as_str()), wanted, &(old, new));
}

/// Each edit of the script has its outcome.
pub(crate) fn are_outcomes(rt: &impl Abort, alloc: Global, script: &str, edits: &[Edit]) {
    for (old, new, wanted) in edits {
        has_outcome(rt, alloc, script, old, new, wanted);
    }
}

#[test]
fn texts_that_are_no_scripts(rt: HostRuntime) {
    let name = Some(ScriptFault::Missing(Member::Name));
    expect_same(&rt, &fault(rt.alloc(), "{"), &Some(ScriptFault::NotJson));
    expect_same(&rt, &fault(rt.alloc(), ""), &Some(ScriptFault::NotJson));
    expect_same(&rt, &fault(rt.alloc(), "{}"), &name);
    expect_same(&rt, &fault(rt.alloc(), "[]"), &name);
    expect_same(&rt, &fault(rt.alloc(), "{\"name\":null}"), &name);
}

/// Machine A with a small edit: what gives way, what comes for it, and the outcome.
static SMALL_EDITS: [Edit; 8] = [
    ("\"id\":2,", "\"id\":5,", Some(ScriptFault::IdTwice)),
    ("[8,8,8,8,8]", "[0,8,8,8,8]", Some(ScriptFault::IdTooWide)),
    (
        "[\"go\",3],[\"return\"",
        "[\"go\",10],[\"return\"",
        Some(ScriptFault::BadReference),
    ),
    ("[\"V\",0]]]", "[\"V\",0]],[\"again\",7]]", None),
    ("[\"return\",[\"V\",0]]]", "[\"again\",5]]", None),
    ("\"name\":\"A\"", "\"name\":\"A\",\"more\":[1e3]", None),
    ("\"name\":\"A\"", "\"name\":5,\"name\":\"A\"", None),
    (
        "\"name\":\"A\"",
        "\"name\":\"A\",\"name\":5",
        Some(ScriptFault::Missing(Member::Name)),
    ),
];

#[test]
fn small_edits_of_machine_a(rt: HostRuntime) {
    are_outcomes(&rt, rt.alloc(), MACHINE_A, &SMALL_EDITS);
}

/// Edits of the script with something of each kind that make a bad reference, a line each: what gives way, and what comes
/// for it.
const BAD_REFERENCES: &str = "\"id\":6, => \"id\":0,
\"id\":6,\"name\":\"pool\",\"parent\":5 => \"id\":6,\"name\":\"pool\",\"parent\":6
\"super\":0,\"interfaces\":[],\"source\":null => \"super\":11,\"interfaces\":[],\"source\":null
\"interfaces\":[10] => \"interfaces\":[11]
\"interfaces\":[10] => \"interfaces\":[0]
\"id\":10,\"tag\" => \"id\":0,\"tag\"
[\"I\",7] => [\"I\",4294967296]
[\"I\",7] => [\"B\",256]
[\"I\",7] => [\"S\",65536]
[\"I\",7] => [\"Z\",2]
[\"I\",7] => [\"V\",1]
[\"I\",7] => [\"L\",99]
\"id\":40, => \"id\":0,
\"id\":20, => \"id\":0,
[3,2]] => [10,2]]
[[0,1], => [[3,1],
\"id\":50,\"class\":11 => \"id\":50,\"class\":12
\"id\":51, => \"id\":0,
[40,[\"I\",1]] => [42,[\"I\",1]]
[41,[\"L\",51]] => [40,[\"L\",51]]
[41,[\"L\",51]] => [41,[\"L\",52]]
[50,0] => [50,52]
\"group\":6 => \"group\":7
\"id\":2,\"name\":\"work\" => \"id\":0,\"name\":\"work\"
[\"call\",30 => [\"call\",0
30,11,20,50 => 30,12,20,50
30,11,20,50 => 30,10,20,50
30,11,20,50 => 30,11,21,50
30,11,20,50 => 30,11,20,5
[[0,[\"L\",50]]] => [[0,[\"L\",50]],[0,[\"I\",1]]]
[[0,[\"L\",50]]] => [[0,[\"L\",99]]]
[\"go\",3] => [\"go\",10]
[\"prepare\",11] => [\"go\",0]
[\"prepare\",11] => [\"return\",[\"V\",0]],[\"return\",[\"V\",0]],[\"prepare\",11]
[\"prepare\",11] => [\"return\",[\"V\",0]]
[\"prepare\",11] => [\"throw\",50,null]
[\"throw\",51 => [\"throw\",5
[11,20,9] => [11,20,10]
[11,20,9] => [10,20,9]
[\"prepare\",11] => [\"prepare\",12]
[\"prepare\",11] => [\"prepare\",11],[\"prepare\",11]
[\"start\",2] => [\"start\",3]
[\"start\",2] => [\"start\",2],[\"start\",2]
[\"start\",2] => [\"start\",2],[\"start\",1]
[\"V\",0]]] => [\"C\",65536]]]";

/// The script with something of each kind has this outcome with the edit of each line, which says
/// what gives way and what comes for it.
fn lines_have_outcome(rt: &impl Abort, alloc: Global, lines: &str, wanted: &Option<ScriptFault>) {
    for line in lines.lines() {
        let (old, new) = line.split_once(" => ").expect(rt, "an edit");
        has_outcome(rt, alloc, MACHINE_B, old, new, wanted);
    }
}

#[test]
fn bad_references(rt: HostRuntime) {
    let bad = Some(ScriptFault::BadReference);
    lines_have_outcome(&rt, rt.alloc(), BAD_REFERENCES, &bad);
}

/// Edits by which an id stands twice.
static IDS_TWICE: [Edit; 4] = [
    ("\"id\":51,", "\"id\":5,", Some(ScriptFault::IdTwice)),
    (
        "\"id\":11,\"tag\"",
        "\"id\":10,\"tag\"",
        Some(ScriptFault::IdTwice),
    ),
    ("\"id\":41,", "\"id\":40,", Some(ScriptFault::IdTwice)),
    (
        "[\"go\",3]",
        "[\"call\",30,11,20,0,[]]",
        Some(ScriptFault::IdTwice),
    ),
];

#[test]
fn ids_that_stand_twice(rt: HostRuntime) {
    are_outcomes(&rt, rt.alloc(), MACHINE_B, &IDS_TWICE);
}

/// Members, and edits by each of which the member is missing, a line each: what gives way, and what
/// comes for it.
static MISSING_MEMBERS: [(Member, &str); 22] = [
    (
        Member::Last,
        "\"last\":9 => \"last\":9.0
\"last\":9 => \"last\":1e3
\"last\":9 => \"last\":-0
\"last\":9 => \"last\":18446744073709551616",
    ),
    (
        Member::Tag,
        "\"tag\":2 => \"tag\":4
\"tag\":2 => \"tag\":0",
    ),
    (
        Member::Source,
        "\"source\":null => \"source\":5
\"source\":null, => ",
    ),
    (
        Member::Value,
        "[\"I\",7] => [\"I\"]
[\"I\",7] => [\"Q\",7]
[\"I\",7] => [\"II\",7]
[\"I\",7] => [\"I\",-7]",
    ),
    (
        Member::Lines,
        "[3,2]] => [3]]
[3,2]] => [3,2147483648]]",
    ),
    (Member::Length, "\"length\":10 => \"length\":2147483648"),
    (
        Member::Steps,
        "[\"go\",3] => [\"go\"]
[\"go\",3] => [\"jump\",3]
[\"go\",3] => []
[\"go\",3] => [\"go\",3,3]
[\"go\",3] => [\"again\"]
[\"go\",3] => [\"again\",2147483648]
[11,20,9] => [11,20]
[[0,[\"L\",50]]] => [[0]]",
    ),
    (
        Member::Array,
        "[\"L\",[50,0]] => [\"V\",[]]
[\"L\",[50,0]] => [\"I\",[-1]]",
    ),
    (Member::Text, "\"text\":\"hello\" => \"text\":5"),
    (
        Member::Fields,
        "[41,[\"L\",51]] => [41]
\"fields\":[],\"methods\" => \"fields\":{},\"methods\"",
    ),
    (
        Member::Sizes,
        "[8,8,8,8,8] => [8,8,8,8]
[8,8,8,8,8] => [8,8,8,8,2147483648]",
    ),
    (Member::Parent, "\"parent\":0 => \"parent\":null"),
    (Member::Group, "\"group\":6 => \"group\":\"6\""),
    (Member::Slot, "\"slot\":0 => \"slots\":0"),
    (Member::Id, "{\"id\":6,\"name\":\"pool\",\"parent\":5} => 6"),
    (
        Member::Interfaces,
        "\"interfaces\":[10] => \"interfaces\":[\"10\"]",
    ),
    (Member::Args, "\"args\":1 => \"args\":true"),
    (Member::From, "\"from\":0 => \"from\":[0]"),
    (Member::Methods, "\"methods\":[] => \"methods\":null"),
    (Member::Signature, "\"signature\":\"I\" => \"signature\":1"),
    (
        Member::Modifiers,
        "\"modifiers\":8 => \"modifiers\":4294967296",
    ),
    (
        Member::Super,
        "\"super\":0,\"interfaces\":[10] => \"super\":-1,\"interfaces\":[10]",
    ),
];

/// Edits of members by which none is missing, a line each.
const MEMBERS_THAT_ARE_THERE: &str = "\"last\":9 => \"last\":18446744073709551615
\"tag\":2 => \"tag\":3
\"length\":10 => \"length\":2147483647
[\"L\",[50,0]] => [\"I\",[]]";

#[test]
fn missing_members(rt: HostRuntime) {
    for (member, lines) in MISSING_MEMBERS.iter() {
        let missing = Some(ScriptFault::Missing(*member));
        lines_have_outcome(&rt, rt.alloc(), lines, &missing);
    }
    lines_have_outcome(&rt, rt.alloc(), MEMBERS_THAT_ARE_THERE, &None);
}

/// Edits of the widths, and of what has none.
static WIDTHS: [Edit; 4] = [
    ("[8,8,8,8,8]", "[9,8,8,8,8]", Some(ScriptFault::IdTooWide)),
    ("[8,8,8,8,8]", "[8,8,8,8,0]", Some(ScriptFault::IdTooWide)),
    ("[8,8,8,8,8]", "[1,1,1,1,1]", None),
    ("[\"L\",[50,0]]", "[\"I\",[4294967295]]", None),
];

#[test]
fn widths(rt: HostRuntime) {
    are_outcomes(&rt, rt.alloc(), MACHINE_B, &WIDTHS);
}

/// Ids that are too wide, a line each: the widths, what gives way, and what comes for it.
const WIDE_IDS: &str = "[1,8,8,8,8] => \"id\":40, => \"id\":256,
[8,1,8,8,8] => 30,11,20,50 => 30,11,256,50
[8,8,1,8,8] => [\"I\",7] => [\"L\",256]
[8,8,1,8,8] => [\"L\",[50,0]] => [\"L\",[256]]
[8,8,8,1,8] => \"interfaces\":[10] => \"interfaces\":[256]
[8,8,8,1,8] => [\"prepare\",11] => [\"prepare\",256]
[8,8,8,8,1] => [\"call\",30 => [\"call\",256
[8,8,1,8,8] => [\"start\",2] => [\"start\",256]
[8,8,1,8,8] => [\"throw\",51 => [\"throw\",256
[8,8,1,8,8] => \"group\":6 => \"group\":256
[8,1,8,8,8] => [11,20,9] => [11,256,9]";

/// Widths, what gives way, what comes for it, and the outcome: no fault, or the first of several.
static FIRST_FAULTS: [(&str, &str, &str, Option<ScriptFault>); 5] = [
    ("[8,8,1,8,8]", "[\"L\",[50,0]]", "[\"J\",[256]]", None),
    (
        "[0,8,8,8,8]",
        "\"last\":9",
        "\"last\":null",
        Some(ScriptFault::Missing(Member::Last)),
    ),
    (
        "[0,8,8,8,8]",
        "\"id\":51,",
        "\"id\":5,",
        Some(ScriptFault::IdTwice),
    ),
    (
        "[0,8,8,8,8]",
        "[\"go\",3]",
        "[\"go\",10]",
        Some(ScriptFault::IdTooWide),
    ),
    (
        "[\"8\"]",
        "\"name\":\"main\"",
        "\"name\":5",
        Some(ScriptFault::Missing(Member::Sizes)),
    ),
];

/// An id is too wide with the edit of the row: widths, what gives way, and what comes for it.
fn is_too_wide(rt: &impl Abort, alloc: Global, row: &str) {
    let (sizes, edit) = row.split_once(" => ").expect(rt, "widths");
    let (old, new) = edit.split_once(" => ").expect(rt, "an edit");
    has_outcome_at(rt, alloc, sizes, old, new, &Some(ScriptFault::IdTooWide));
}

#[test]
fn wide_ids_and_the_order_of_faults(rt: HostRuntime) {
    for row in WIDE_IDS.lines() {
        is_too_wide(&rt, rt.alloc(), row);
    }
    for (sizes, old, new, wanted) in FIRST_FAULTS.iter() {
        has_outcome_at(&rt, rt.alloc(), sizes, old, new, wanted);
    }
}

/// The script with something of each kind has this outcome with these widths and this edit.
fn has_outcome_at(
    rt: &impl Abort,
    alloc: Global,
    sizes: &str,
    old: &str,
    new: &str,
    wanted: &Option<ScriptFault>,
) {
    let text = edited(rt, alloc, MACHINE_B, "[8,8,8,8,8]", sizes);
    has_outcome(rt, alloc, text.as_str(), old, new, wanted);
}

/// Appends a step in words.
fn step_words(rt: &impl Abort, step: &Step, text: &mut String) {
    let written = match step {
        Step::Call(call) => write!(
            text,
            "call {} {} {} {} {};",
            call.frame.0,
            call.class.0,
            call.method.0,
            call.this.0,
            call.slots.len()
        ),
        Step::Go(index) => write!(text, "go {index};"),
        Step::Return(value) => write!(text, "return {value:?};"),
        Step::Throw(throw) => write!(text, "throw {} {:?};", throw.object.0, throw.caught),
        Step::Prepare(class) => write!(text, "prepare {};", class.0),
        Step::Start(thread) => write!(text, "start {};", thread.0),
        Step::Again(back) => write!(text, "again {back};"),
    };
    written.expect(rt, "memory");
}

/// Appends a class in words, with its methods.
fn class_words(rt: &impl Abort, class: &Class, text: &mut String) {
    write!(
        text,
        "class {} {:?} {} {} {} {} {} {:?};",
        class.id.0,
        class.tag,
        class.signature,
        class.modifiers,
        class.superclass.0,
        class.interfaces.len(),
        class.fields.len(),
        class.source
    )
    .expect(rt, "memory");
    for method in &class.methods {
        method_words(rt, method, text);
    }
}

/// Appends a method in words, with its lines.
fn method_words(rt: &impl Abort, method: &Method, text: &mut String) {
    write!(
        text,
        "method {} {} {} {} {} {} {};",
        method.id.0,
        method.name,
        method.signature,
        method.modifiers,
        method.args,
        method.last,
        method.slots.len()
    )
    .expect(rt, "memory");
    for line in &method.lines {
        write!(text, "{} {};", line.index, line.line).expect(rt, "memory");
    }
}

/// Appends a thread in words, with its steps.
fn thread_words(rt: &impl Abort, thread: &Thread, text: &mut String) {
    write!(
        text,
        "thread {} {} {};",
        thread.id.0, thread.name, thread.group.0
    )
    .expect(rt, "memory");
    for step in &thread.steps {
        step_words(rt, step, text);
    }
}

/// Appends a script's groups, classes and threads in words.
fn words(rt: &impl Abort, script: &Script, text: &mut String) {
    for group in &script.groups {
        write!(
            text,
            "group {} {} {};",
            group.id.0, group.name, group.parent.0
        )
        .expect(rt, "memory");
    }
    for class in &script.classes {
        class_words(rt, class, text);
    }
    for thread in &script.threads {
        thread_words(rt, thread, text);
    }
}

/// The script in words.
fn read_as_words(rt: &impl Abort, alloc: Global, script: &str) -> String {
    let script = Script::read(alloc, script).expect(rt, "the script is read");
    let mut text = String::new(alloc);
    words(rt, &script, &mut text);
    text
}

#[test]
fn machine_a_in_words(rt: HostRuntime) {
    let text = read_as_words(&rt, rt.alloc(), MACHINE_A);
    expect_same(
        &rt,
        &text.as_str(),
        &"group 5 main 0;class 10 Class LMain; 1 0 0 0 Some(\"Main.java\");method 20 run ()V 1 0 9 0;0 1;3 2;4 3;thread 1 main 5;call 30 10 20 0 0;go 3;go 4;go 3;go 4;go 3;return Literal { tag: Void, bits: 0 };thread 2 work 5;",
    );
}

/// The name is A, each width 8, and the lists have these lengths.
fn is_machine_a(rt: &impl Abort, script: &Script) {
    let sizes = script.sizes;
    expect_same(rt, &script.name.as_str(), &"A");
    expect_same(
        rt,
        &(
            sizes.field,
            sizes.method,
            sizes.object,
            sizes.reference,
            sizes.frame,
        ),
        &(8, 8, 8, 8, 8),
    );
    expect_same(
        rt,
        &(
            script.groups.len(),
            script.classes.len(),
            script.objects.len(),
            script.threads.len(),
        ),
        &(1, 1, 0, 2),
    );
}

#[test]
fn machine_a_in_numbers(rt: HostRuntime) {
    let script = Script::read(rt.alloc(), MACHINE_A).expect(&rt, "the script is read");
    is_machine_a(&rt, &script);
}

#[test]
fn literals(rt: HostRuntime) {
    let literal = |tag, bits| Literal { tag, bits }.value();
    expect_same(&rt, &literal(Tag::Byte, 255), &Value::Byte(255));
    expect_same(&rt, &literal(Tag::Boolean, 1), &Value::Boolean(true));
    expect_same(&rt, &literal(Tag::Boolean, 0), &Value::Boolean(false));
    expect_same(
        &rt,
        &literal(Tag::Int, 4_294_967_295),
        &Value::Int(4_294_967_295),
    );
    expect_same(
        &rt,
        &literal(Tag::Object(ObjectTag::String), 7).tag(),
        &Tag::Object(ObjectTag::String),
    );
}

/// Each fault, its number, and its words.
static FAULTS: [(ScriptFault, u16, &str); 7] = [
    (ScriptFault::NotJson, 21, "fault 21: the text is not JSON"),
    (
        ScriptFault::Missing(Member::Last),
        22,
        "fault 22: the member last is missing or of another type",
    ),
    (ScriptFault::IdTwice, 23, "fault 23: an id stands twice"),
    (ScriptFault::IdTooWide, 24, "fault 24: an id is too wide"),
    (ScriptFault::BadReference, 25, "fault 25: a bad reference"),
    (ScriptFault::OverLimit, 26, "fault 26: a limit is passed"),
    (ScriptFault::NoMemory, 27, "fault 27: no memory"),
];

#[test]
fn faults_in_words(rt: HostRuntime) {
    for (fault, number, words) in FAULTS.iter() {
        expect_same(&rt, &fault.number(), number);
        let told = fault.to_string(rt.alloc()).expect(&rt, "memory");
        expect_same(&rt, &told.as_str(), words);
    }
}
