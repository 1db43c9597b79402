//! Machines of scripts: their threads, their steps, and the faults of their texts.
use crate::asserts::{expect_same, expect_same_for, expect_that};
use crate::machines::data_words::{push_location, push_scalar, text_of};
use crate::machines::script_tests::edited;
use jdwp_event::{ClassSeen, Happening, Occurrence, Place, PreparedClass, ThrownException};
use jdwp_layout::{Answer, Data, Scalar, layout_of, read};
use jdwp_machine::{Machine, Query, has_run_out, is_among};
use jdwp_script::{Member, ScriptFault};
use jdwp_script_machine::ScriptMachine;
use jdwp_value::{FrameId, ObjectId, ObjectTag, ReferenceTypeId, TaggedId, Value};
use jdwp_wire::{IdSizes, Limits};
use std::alloc::Global;
use std::process::Abort;
use test_parts::{MACHINE_A, bytes, commands};

/// A step of each kind, by thread 1 of a script whose lists fall.
const EACH_KIND: &str = "{\"name\":\"B\",\"sizes\":[8,8,8,8,8],
\"groups\":[{\"id\":5,\"name\":\"main\",\"parent\":0}],
\"classes\":[{\"id\":12,\"tag\":2,\"signature\":\"LJob;\",\"modifiers\":1537,
 \"super\":0,\"interfaces\":[],\"source\":null,\"fields\":[],\"methods\":[]},
 {\"id\":11,\"tag\":1,\"signature\":\"LMain;\",\"modifiers\":1,
 \"super\":0,\"interfaces\":[12],\"source\":null,\"fields\":[],
 \"methods\":[{\"id\":20,\"name\":\"run\",\"signature\":\"()V\",\"modifiers\":1,
  \"args\":0,\"last\":9,\"lines\":[],\"slots\":[]}]}],
\"objects\":[{\"id\":50,\"class\":11,\"fields\":[],\"text\":\"hello\",\"array\":null}],
\"threads\":[{\"id\":2,\"name\":\"work\",\"group\":5,\"steps\":[]},
 {\"id\":1,\"name\":\"main\",\"group\":5,\"steps\":[[\"prepare\",11],[\"start\",2],
 [\"call\",30,11,20,0,[[0,[\"I\",7]]]],[\"throw\",50,[11,20,9]],[\"throw\",50,null],
 [\"return\",[\"I\",7]]]}]}";

/// Interfaces that extend two others each, which extend two others in turn, and a thread in a class that implements the
/// last two.
const DIAMONDS: &str = "{\"name\":\"D\",\"sizes\":[8,8,8,8,8],
\"groups\":[{\"id\":5,\"name\":\"main\",\"parent\":0}],
\"classes\":[{\"id\":16,\"tag\":2,\"signature\":\"LA;\",\"modifiers\":1537,
 \"super\":0,\"interfaces\":[],\"source\":null,\"fields\":[],\"methods\":[]},
 {\"id\":12,\"tag\":2,\"signature\":\"LB;\",\"modifiers\":1537,
 \"super\":0,\"interfaces\":[16],\"source\":null,\"fields\":[],\"methods\":[]},
 {\"id\":14,\"tag\":2,\"signature\":\"LC;\",\"modifiers\":1537,
 \"super\":0,\"interfaces\":[16],\"source\":null,\"fields\":[],\"methods\":[]},
 {\"id\":15,\"tag\":2,\"signature\":\"LD;\",\"modifiers\":1537,
 \"super\":0,\"interfaces\":[12,14],\"source\":null,\"fields\":[],\"methods\":[]},
 {\"id\":13,\"tag\":2,\"signature\":\"LE;\",\"modifiers\":1537,
 \"super\":0,\"interfaces\":[12,14],\"source\":null,\"fields\":[],\"methods\":[]},
 {\"id\":17,\"tag\":1,\"signature\":\"LOther;\",\"modifiers\":1,
 \"super\":0,\"interfaces\":[13],\"source\":null,\"fields\":[],\"methods\":[]},
 {\"id\":11,\"tag\":1,\"signature\":\"LMain;\",\"modifiers\":1,
 \"super\":0,\"interfaces\":[13,15],\"source\":null,\"fields\":[],
 \"methods\":[{\"id\":20,\"name\":\"run\",\"signature\":\"()V\",\"modifiers\":1,
  \"args\":0,\"last\":9,\"lines\":[],\"slots\":[]}]}],
\"objects\":[],
\"threads\":[{\"id\":1,\"name\":\"main\",\"group\":5,\"steps\":[
 [\"call\",30,11,20,0,[]],[\"return\",[\"V\",0]]]}]}";

/// Objects, fields, text and an array, with ids of one byte. After three steps thread 1 has two frames.
pub(crate) const OBJECTS: &str = "{\"name\":\"C\",\"sizes\":[1,1,1,1,1],
\"groups\":[{\"id\":5,\"name\":\"main\",\"parent\":0},{\"id\":6,\"name\":\"pool\",\"parent\":5}],
\"classes\":[{\"id\":10,\"tag\":1,\"signature\":\"LMain;\",\"modifiers\":1,
 \"super\":0,\"interfaces\":[],\"source\":\"Main.java\",
 \"fields\":[{\"id\":40,\"name\":\"count\",\"signature\":\"I\",\"modifiers\":0,\"value\":null}],
 \"methods\":[{\"id\":20,\"name\":\"run\",\"signature\":\"()V\",\"modifiers\":1,
  \"args\":0,\"last\":9,\"lines\":[[0,1],[3,2]],\"slots\":[]}]}],
\"objects\":[{\"id\":50,\"class\":10,\"fields\":[[40,[\"I\",7]]],\"text\":null,\"array\":null},
 {\"id\":51,\"class\":10,\"fields\":[],\"text\":\"hello\",\"array\":null},
 {\"id\":52,\"class\":10,\"fields\":[],\"text\":null,\"array\":[\"L\",[50,51,0]]}],
\"threads\":[{\"id\":1,\"name\":\"first\",\"group\":5,\"steps\":[[\"call\",30,10,20,0,[]],
 [\"call\",31,10,20,51,[[0,[\"I\",7]],[2,[\"L\",50]]]],[\"go\",3]]},
 {\"id\":2,\"name\":\"work\",\"group\":5,\"steps\":[]}]}";

/// What is tried of a machine.
#[derive(Clone, Copy)]
pub(crate) enum Act {
    /// These threads live.
    Lives(&'static [u64]),
    /// The next step of the thread is this.
    Shows(u64, &'static str),
    /// It is this, and the thread makes it.
    Steps(u64, &'static str),
    /// The thread makes its next step.
    Goes(u64),
    /// The thread ends.
    Ends(u64),
    /// A command with its data is answered by this text.
    Answers((u8, u8), &'static str, &'static str),
    /// The data are read as those of one command, asked as those of another, and answered by this text.
    AnswersAs((u8, u8), &'static str, (u8, u8), &'static str),
    /// Slots of a frame of a thread are written, with this error, or with 0.
    Writes(u64, u64, &'static [(i32, Value)], u16),
}

/// The machine of the script in this text.
pub(crate) fn machine(rt: &impl Abort, alloc: Global, text: &str) -> ScriptMachine {
    ScriptMachine::read(alloc, text).expect(rt, "the script is read")
}

/// Appends the ids, each behind a space.
fn push_ids(rt: &impl Abort, ids: &[ReferenceTypeId], text: &mut String) {
    for id in ids {
        write!(text, " {}", id.0).expect(rt, "memory");
    }
}

/// Appends the signature of the class and the types that it reaches.
fn push_class(rt: &impl Abort, class: &ClassSeen, text: &mut String) {
    write!(text, " {}", class.signature).expect(rt, "memory");
    push_ids(rt, &class.reaches, text);
}

/// Appends the place behind these words.
fn push_place(rt: &impl Abort, alloc: Global, words: &str, place: &Place, text: &mut String) {
    text.push_str(words).expect(rt, "memory");
    push_location(rt, alloc, place.location, text);
    match place.line {
        Some(line) => write!(text, " line {line}").expect(rt, "memory"),
        None => text.push_str(" no line").expect(rt, "memory"),
    }
    write!(text, " frames {}", place.frames).expect(rt, "memory");
    push_class(rt, &place.class, text);
}

/// Appends what happens.
fn push_occurrence(rt: &impl Abort, alloc: Global, occurrence: &Occurrence, text: &mut String) {
    match occurrence {
        Occurrence::Moved(place) => push_place(rt, alloc, " moves to ", place, text),
        Occurrence::Entered(place) => push_place(rt, alloc, " enters ", place, text),
        Occurrence::Left(place, value) => push_leaving(rt, alloc, place, value, text),
        Occurrence::Threw(place, thrown) => push_throw(rt, alloc, place, thrown, text),
        Occurrence::Prepared(class) => push_prepared(rt, class, text),
        Occurrence::Started => text.push_str(" starts").expect(rt, "memory"),
        Occurrence::RanOut => text.push_str(" has run out").expect(rt, "memory"),
    }
}

/// Appends the place that is left, and with which value.
fn push_leaving(rt: &impl Abort, alloc: Global, place: &Place, value: &Value, text: &mut String) {
    push_place(rt, alloc, " leaves ", place, text);
    text.push_str(" with ").expect(rt, "memory");
    push_scalar(rt, alloc, Scalar::Value(*value), text);
}

/// Appends the exception, where it is thrown and where it is caught.
fn push_throw(
    rt: &impl Abort,
    alloc: Global,
    place: &Place,
    thrown: &ThrownException,
    text: &mut String,
) {
    write!(text, " throws {}", thrown.exception.id.0).expect(rt, "memory");
    push_place(rt, alloc, " at ", place, text);
    text.push_str(" of").expect(rt, "memory");
    push_ids(rt, &thrown.reaches, text);
    text.push_str(" caught at ").expect(rt, "memory");
    push_location(rt, alloc, thrown.caught_at, text);
}

/// Appends the class that is prepared, and its status.
fn push_prepared(rt: &impl Abort, class: &PreparedClass, text: &mut String) {
    write!(text, " prepares {} {}", class.tag.byte(), class.id.0).expect(rt, "memory");
    push_class(rt, &class.class, text);
    write!(text, " status {}", class.status).expect(rt, "memory");
}

/// The next step of a thread that lives.
fn next_of(rt: &impl Abort, machine: &ScriptMachine, thread: u64) -> Happening {
    if !is_among(ObjectId(thread), machine.live()) {
        panic!(rt; "the thread does not live");
    }
    machine.next(ObjectId(thread)).expect(rt, "memory")
}

/// The next step of a thread that lives, as text.
fn shown(rt: &impl Abort, alloc: Global, machine: &ScriptMachine, thread: u64) -> String {
    let happening = next_of(rt, machine, thread);
    let mut text = String::new(alloc);
    push_happening(rt, alloc, &happening, &mut text);
    text
}

/// Appends the thread and what happens to it.
fn push_happening(rt: &impl Abort, alloc: Global, happening: &Happening, text: &mut String) {
    write!(text, "{}", happening.thread().0).expect(rt, "memory");
    push_occurrence(rt, alloc, happening.occurrence(), text);
}

/// A step of a thread that lives and has not run out.
fn step(rt: &impl Abort, machine: &mut ScriptMachine, thread: u64) {
    if !is_among(ObjectId(thread), machine.live()) {
        panic!(rt; "the thread does not live");
    }
    let happening = machine.next(ObjectId(thread)).expect(rt, "memory");
    if has_run_out(&happening) {
        panic!(rt; "the thread has run out");
    }
    machine.step(ObjectId(thread)).expect(rt, "memory");
}

/// The end of a thread that lives.
fn end(rt: &impl Abort, machine: &mut ScriptMachine, thread: u64) {
    if !is_among(ObjectId(thread), machine.live()) {
        panic!(rt; "the thread does not live");
    }
    machine.end(ObjectId(thread));
}

/// Whether the threads that live are these.
fn live_are(machine: &ScriptMachine, ids: &[u64]) -> bool {
    let live = machine.live();
    live.len() == ids.len() && live.iter().zip(ids).all(|(live, id)| live.0 == *id)
}

/// The next step of the thread is shown so.
fn is_shown(rt: &impl Abort, alloc: Global, machine: &ScriptMachine, thread: u64, wanted: &str) {
    let text = shown(rt, alloc, machine, thread);
    expect_same(rt, &text.as_str(), &wanted);
}

/// Of the act comes what it says.
fn carry_out(rt: &impl Abort, alloc: Global, machine: &mut ScriptMachine, act: &Act) {
    match *act {
        Act::Lives(ids) => expect_that(rt, live_are(machine, ids)),
        Act::Shows(thread, wanted) => is_shown(rt, alloc, machine, thread, wanted),
        Act::Steps(thread, wanted) => {
            is_shown(rt, alloc, machine, thread, wanted);
            step(rt, machine, thread);
        }
        Act::Goes(thread) => step(rt, machine, thread),
        Act::Ends(thread) => end(rt, machine, thread),
        Act::Answers(command, data, answer) => {
            is_answered(rt, alloc, machine, command, data, command, answer);
        }
        Act::AnswersAs(row, data, command, answer) => {
            is_answered(rt, alloc, machine, row, data, command, answer);
        }
        Act::Writes(thread, frame, slots, error) => {
            is_written(rt, machine, thread, frame, slots, error);
        }
    }
}

/// Of each act comes what it says.
fn run(rt: &impl Abort, alloc: Global, machine: &mut ScriptMachine, acts: &[Act]) {
    for act in acts {
        carry_out(rt, alloc, machine, act);
    }
}

/// Of each act comes what it says, from the beginning of this machine on.
pub(crate) fn goes_as_told(rt: &impl Abort, alloc: Global, text: &str, acts: &[Act]) {
    let mut machine = machine(rt, alloc, text);
    run(rt, alloc, &mut machine, acts);
}

/// Machine A to its end.
static STEPS_OF_A: [Act; 14] = [
    Act::Lives(&[1, 2]),
    Act::Shows(2, "2 has run out"),
    Act::Steps(1, "1 enters 1:#10:#20:0 line 1 frames 1 LMain; 10"),
    Act::Steps(1, "1 moves to 1:#10:#20:3 line 2 frames 1 LMain; 10"),
    Act::Steps(1, "1 moves to 1:#10:#20:4 line 3 frames 1 LMain; 10"),
    Act::Steps(1, "1 moves to 1:#10:#20:3 line 2 frames 1 LMain; 10"),
    Act::Steps(1, "1 moves to 1:#10:#20:4 line 3 frames 1 LMain; 10"),
    Act::Steps(1, "1 moves to 1:#10:#20:3 line 2 frames 1 LMain; 10"),
    Act::Steps(1, "1 leaves 1:#10:#20:3 line 2 frames 1 LMain; 10 with V"),
    Act::Shows(1, "1 has run out"),
    Act::Ends(1),
    Act::Lives(&[2]),
    Act::Ends(2),
    Act::Lives(&[]),
];

/// A step of each kind.
static EACH_STEP: [Act; 9] = [
    Act::Lives(&[1]),
    Act::Steps(1, "1 prepares 1 11 LMain; 11 12 status 3"),
    Act::Steps(1, "2 starts"),
    Act::Lives(&[1, 2]),
    Act::Steps(1, "1 enters 1:#11:#20:0 no line frames 1 LMain; 11 12"),
    Act::Steps(
        1,
        "1 throws 50 at 1:#11:#20:0 no line frames 1 LMain; 11 12 of 11 12 caught at 1:#11:#20:9",
    ),
    Act::Steps(
        1,
        "1 throws 50 at 1:#11:#20:0 no line frames 1 LMain; 11 12 of 11 12 caught at 0:#0:#0:0",
    ),
    Act::Steps(
        1,
        "1 leaves 1:#11:#20:0 no line frames 1 LMain; 11 12 with I:7",
    ),
    Act::Shows(1, "1 has run out"),
];

/// How the first thread of machine A goes on after its first move.
const REST_OF_A: &str = "[\"go\",4],[\"go\",3],[\"go\",4],
 [\"go\",3],[\"return\",[\"V\",0]]]";

/// A loop of machine A: how its first thread goes on in place of that, how often it steps before the loop, and what happens in one round.
static LOOPS: [(&str, usize, &[Act]); 2] = [
    (
        "[\"return\",[\"V\",0]],[\"again\",3]]",
        0,
        &[
            Act::Steps(1, "1 enters 1:#10:#20:0 line 1 frames 1 LMain; 10"),
            Act::Steps(1, "1 moves to 1:#10:#20:3 line 2 frames 1 LMain; 10"),
            Act::Answers(
                commands::FRAMES,
                "01 00000000 ffffffff",
                "[(#30, 1:#10:#20:3)]",
            ),
            Act::Steps(1, "1 leaves 1:#10:#20:3 line 2 frames 1 LMain; 10 with V"),
            Act::Answers(commands::FRAMES, "01 00000000 ffffffff", "[]"),
        ],
    ),
    (
        "[\"go\",4],[\"again\",2]]",
        1,
        &[
            Act::Steps(1, "1 moves to 1:#10:#20:3 line 2 frames 1 LMain; 10"),
            Act::Steps(1, "1 moves to 1:#10:#20:4 line 3 frames 1 LMain; 10"),
            Act::Answers(
                commands::FRAMES,
                "01 00000000 ffffffff",
                "[(#30, 1:#10:#20:4)]",
            ),
        ],
    ),
];

#[test]
fn loops_that_are_gone_round(rt: HostRuntime) {
    for (rest, before, round) in LOOPS.iter() {
        let text = edited(&rt, rt.alloc(), MACHINE_A, REST_OF_A, rest);
        let mut machine = machine(&rt, rt.alloc(), text.as_str());
        for _ in 0..*before {
            step(&rt, &mut machine, 1);
        }
        for _ in 0..3 {
            run(&rt, rt.alloc(), &mut machine, round);
        }
    }
}

/// The one step of the machine of the diamonds.
static A_CALL: [Act; 1] = [Act::Shows(
    1,
    "1 enters 1:#11:#20:0 no line frames 1 LMain; 11 12 13 14 15 16",
)];

/// The query of a command, whose data are read as those of the command of the row.
pub(crate) fn query_of(
    rt: &impl Abort,
    alloc: Global,
    row: (u8, u8),
    data: &str,
    command: (u8, u8),
) -> Query {
    let sizes = IdSizes::new(1, 1, 1, 1, 1).expect(rt, "widths");
    let bytes = bytes(alloc, data).expect(rt, "memory");
    let layouts = layout_of(row.0, row.1).expect(rt, "a row").layouts;
    let layout = layouts.expect(rt, "a row with layouts").request;
    let items = read(alloc, &layout, &sizes, &bytes).expect(rt, "the data are read");
    Query {
        set: command.0,
        number: command.1,
        content: Data::new(items),
    }
}

/// The answer as text.
fn answer_text(rt: &impl Abort, alloc: Global, answer: &Answer) -> String {
    match answer {
        Answer::Data(data) => text_of(rt, alloc, data.items()),
        Answer::Error(error) => format!(in alloc; "error {}", error.0).expect(rt, "memory"),
    }
}

/// The answer to a command, as text.
fn answer_of(
    rt: &impl Abort,
    alloc: Global,
    machine: &ScriptMachine,
    row: (u8, u8),
    data: &str,
    command: (u8, u8),
) -> String {
    let query = query_of(rt, alloc, row, data, command);
    let answer = machine.query(&query).expect(rt, "memory");
    answer_text(rt, alloc, &answer)
}

/// The command is answered by this text.
fn is_answered(
    rt: &impl Abort,
    alloc: Global,
    machine: &ScriptMachine,
    row: (u8, u8),
    data: &str,
    command: (u8, u8),
    answer: &str,
) {
    let text = answer_of(rt, alloc, machine, row, data, command);
    expect_same_for(rt, &text.as_str(), &answer, &(row, command));
}

const OBJECT_60: Value = Value::Object(TaggedId {
    tag: ObjectTag::Object,
    id: ObjectId(60),
});

/// The error by which slots that are written are refused, or 0.
fn written(
    rt: &impl Abort,
    machine: &mut ScriptMachine,
    thread: u64,
    frame: u64,
    slots: &[(i32, Value)],
) -> u16 {
    let written = machine.write_slots(ObjectId(thread), FrameId(frame), slots);
    match written.expect(rt, "memory") {
        Answer::Data(_) => 0,
        Answer::Error(error) => error.0,
    }
}

/// Slots of the frame are written with this error, or with 0.
fn is_written(
    rt: &impl Abort,
    machine: &mut ScriptMachine,
    thread: u64,
    frame: u64,
    slots: &[(i32, Value)],
    error: u16,
) {
    let found = written(rt, machine, thread, frame, slots);
    expect_same_for(rt, &found, &error, &frame);
}

/// Slots of the newest frame, of others, and what slot 0 of the newest holds then.
static SLOTS: [Act; 13] = [
    Act::Goes(1),
    Act::Goes(1),
    Act::Goes(1),
    Act::Ends(2),
    Act::Writes(1, 32, &[(0, Value::Int(5))], 30),
    Act::Writes(2, 31, &[(0, Value::Int(5))], 30),
    Act::Writes(3, 31, &[(0, Value::Int(5))], 20),
    Act::Writes(1, 31, &[(0, Value::Int(6)), (1, Value::Int(5))], 35),
    Act::Writes(1, 31, &[(0, Value::Int(6)), (0, Value::Long(5))], 34),
    Act::Writes(1, 31, &[(0, Value::Int(6)), (2, OBJECT_60)], 20),
    Act::Answers(commands::GET_SLOTS, "01 1f 00000001 00000000 49", "[I:7]"),
    Act::Writes(1, 31, &[(0, Value::Int(5)), (0, Value::Int(8))], 0),
    Act::Answers(commands::GET_SLOTS, "01 1f 00000001 00000000 49", "[I:8]"),
];

/// The fault by which the text is refused, or none.
fn fault(alloc: Global, text: &str) -> Option<ScriptFault> {
    match ScriptMachine::read(alloc, text) {
        Ok(_) => None,
        Err(fault) => Some(fault),
    }
}

/// The fault of machine A with `new` in place of the first `old`.
fn fault_with(rt: &impl Abort, alloc: Global, old: &str, new: &str) -> Option<ScriptFault> {
    let text = edited(rt, alloc, MACHINE_A, old, new);
    fault(alloc, text.as_str())
}

/// What gives way in machine A, what comes for it, and the fault.
static EDITS: [(&str, &str, ScriptFault); 3] = [
    ("{\"id\":2,", "{\"id\":5,", ScriptFault::IdTwice),
    ("[8,8,8,8,8]", "[0,8,8,8,8]", ScriptFault::IdTooWide),
    ("[\"go\",3]", "[\"go\",10]", ScriptFault::BadReference),
];

#[test]
fn texts_that_are_refused(rt: HostRuntime) {
    let name = ScriptFault::Missing(Member::Name);
    let not_json = ScriptFault::NotJson;
    expect_same(&rt, &fault(rt.alloc(), "{"), &Some(not_json));
    expect_same(&rt, &fault(rt.alloc(), "{}"), &Some(name));
    for (old, new, wanted) in EDITS.iter() {
        expect_same(&rt, &fault_with(&rt, rt.alloc(), old, new), &Some(*wanted));
    }
}

#[test]
fn one_thread_too_many(rt: HostRuntime) {
    let one = Limits::new(2048, 1, 1, 1).expect(&rt, "limits");
    let read = ScriptMachine::read_with(rt.alloc(), MACHINE_A, &one);
    expect_that(&rt, matches!(read, Err(ScriptFault::OverLimit)));
}

#[test]
fn threads_that_are_listed(rt: HostRuntime) {
    let live = [ObjectId(2), ObjectId(1)];
    expect_that(&rt, is_among(ObjectId(1), &live));
    expect_that(&rt, is_among(ObjectId(2), &live));
    expect_that(&rt, !is_among(ObjectId(3), &live));
    expect_that(&rt, !is_among(ObjectId(1), &live[..1]));
}

/// Each session: the script of its machine, and its acts.
fn sessions() -> [(&'static str, &'static [Act]); 4] {
    [
        (MACHINE_A, &STEPS_OF_A),
        (EACH_KIND, &EACH_STEP),
        (DIAMONDS, &A_CALL),
        (OBJECTS, &SLOTS),
    ]
}

#[test]
fn each_session_goes_as_told(rt: HostRuntime) {
    for (script, acts) in sessions() {
        goes_as_told(&rt, rt.alloc(), script, acts);
    }
}
