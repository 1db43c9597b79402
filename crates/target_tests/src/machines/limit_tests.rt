//! Scripts at a limit, and one past it.
use crate::asserts::expect_same_for;
use crate::machines::detail_tests::told_with;
use crate::machines::script_tests::{MACHINE_B, edited};
use jdwp_machine::Machine;
use jdwp_script::ScriptFault;
use jdwp_script_machine::ScriptMachine;
use jdwp_wire::Limits;
use std::alloc::Global;
use std::process::Abort;

/// The piece with this number in place of its `#`, if it has one, behind the text.
fn push_piece(rt: &impl Abort, text: &mut String, piece: &str, number: usize) {
    match piece.split_once("#") {
        Some((front, back)) => write!(text, "{front}{number}{back}").expect(rt, "memory"),
        None => text.push_str(piece).expect(rt, "memory"),
    }
}

/// The front, so many of the piece, one after another, and the back. Each `#` of a piece is a number of its own, from 1000 on.
fn replacement(
    rt: &impl Abort,
    alloc: Global,
    front: &str,
    piece: &str,
    count: usize,
    back: &str,
) -> String {
    let mut text = String::from_str(alloc, front).expect(rt, "memory");
    for place in 0..count {
        push_piece(rt, &mut text, piece, place.saturating_add(1000));
    }
    text.push_str(back).expect(rt, "memory");
    text
}

/// What has a limit: what gives way in a script, and what comes for it at the limit: the front, the piece, how many of them, and the back;
/// and what is told one past it.
type Bound = (
    &'static str,
    &'static str,
    &'static str,
    usize,
    &'static str,
    &'static str,
);

/// The script with so many of the bound's pieces.
fn with_so_many(
    rt: &impl Abort,
    alloc: Global,
    script: &str,
    bound: &Bound,
    count: usize,
) -> String {
    let (old, front, piece, _, back, _) = *bound;
    let new = replacement(rt, alloc, front, piece, count, back);
    edited(rt, alloc, script, old, new.as_str())
}

/// The machine of the script at the bound is read.
fn is_read(rt: &impl Abort, alloc: Global, script: &str, bound: &Bound) {
    let text = with_so_many(rt, alloc, script, bound, bound.3);
    let found = ScriptMachine::read(alloc, text.as_str()).err();
    expect_same_for(rt, &found, &None, bound);
}

/// One past the bound a limit is passed, and what is told is that of the bound.
fn is_refused(rt: &impl Abort, alloc: Global, script: &str, bound: &Bound) {
    let text = with_so_many(rt, alloc, script, bound, bound.3.saturating_add(1));
    is_over(rt, alloc, text.as_str(), 64, bound.5);
}

/// The text passes a limit where so many threads may live at the beginning, and is told in these words.
fn is_over(rt: &impl Abort, alloc: Global, text: &str, live: u32, words: &str) {
    let told = told_with(rt, alloc, text, live);
    let wanted = format!(in alloc; "fault 26: a limit is passed: {words}").expect(rt, "memory");
    expect_same_for(rt, &told, &wanted, &live);
}

/// The script is read at each bound, and refused one past it.
fn are_bounds(rt: &impl Abort, alloc: Global, script: &str, bounds: &[Bound]) {
    for bound in bounds {
        is_read(rt, alloc, script, bound);
        is_refused(rt, alloc, script, bound);
    }
}

/// Texts.
static TEXTS: [Bound; 13] = [
    (
        "\"name\":\"B\"",
        "\"name\":\"",
        "x",
        512,
        "\"",
        "a text of more than 512 bytes",
    ),
    (
        "\"name\":\"pool\"",
        "\"name\":\"",
        "x",
        512,
        "\"",
        "a text of more than 512 bytes, in groups[1]",
    ),
    (
        "\"name\":\"count\"",
        "\"name\":\"",
        "x",
        512,
        "\"",
        "a text of more than 512 bytes, in classes[1].fields[0]",
    ),
    (
        "\"signature\":\"I\"",
        "\"signature\":\"",
        "x",
        512,
        "\"",
        "a text of more than 512 bytes, in classes[1].fields[0]",
    ),
    (
        "\"signature\":\"LJob;\"",
        "\"signature\":\"",
        "x",
        512,
        "\"",
        "a text of more than 512 bytes, in classes[0]",
    ),
    (
        "\"source\":null",
        "\"source\":\"",
        "x",
        512,
        "\"",
        "a text of more than 512 bytes, in classes[0]",
    ),
    (
        "\"name\":\"run\"",
        "\"name\":\"",
        "x",
        512,
        "\"",
        "a text of more than 512 bytes, in classes[1].methods[0]",
    ),
    (
        "\"signature\":\"()V\"",
        "\"signature\":\"",
        "x",
        512,
        "\"",
        "a text of more than 512 bytes, in classes[1].methods[0]",
    ),
    (
        "\"name\":\"this\"",
        "\"name\":\"",
        "x",
        512,
        "\"",
        "a text of more than 512 bytes, in classes[1].methods[0].slots[0]",
    ),
    (
        "\"name\":\"this\",\"signature\":\"LMain;\"",
        "\"name\":\"this\",\"signature\":\"",
        "x",
        512,
        "\"",
        "a text of more than 512 bytes, in classes[1].methods[0].slots[0]",
    ),
    (
        "\"name\":\"work\"",
        "\"name\":\"",
        "x",
        512,
        "\"",
        "a text of more than 512 bytes, in threads[1]",
    ),
    (
        "\"threads\":[",
        "\"modules\":[{\"id\":7,\"name\":\"",
        "x",
        512,
        "\"}],\"threads\":[",
        "a text of more than 512 bytes, in modules[0]",
    ),
    (
        "\"text\":\"hello\"",
        "\"text\":\"",
        "x",
        65000,
        "\"",
        "a text of more than 65000 bytes, in objects[1]",
    ),
];

/// Groups, classes, objects and modules.
static PARTS: [Bound; 4] = [
    (
        "\"groups\":[",
        "\"groups\":[",
        "{\"id\":#,\"name\":\"\",\"parent\":0},",
        1022,
        "",
        "more than 1024 entries of groups",
    ),
    (
        "\"classes\":[",
        "\"classes\":[",
        "{\"id\":#,\"tag\":1,\"signature\":\"\",\"modifiers\":0,\"super\":0,\"interfaces\":[],\"source\":null,\"fields\":[],\"methods\":[]},",
        1022,
        "",
        "more than 1024 entries of classes",
    ),
    (
        "\"objects\":[",
        "\"objects\":[",
        "{\"id\":#,\"class\":11,\"fields\":[],\"text\":null,\"array\":null},",
        1022,
        "",
        "more than 1024 entries of objects",
    ),
    (
        "\"threads\":[",
        "\"modules\":[",
        "{\"id\":#,\"name\":\"\"},",
        1023,
        "{\"id\":7,\"name\":\"\"}],\"threads\":[",
        "more than 1024 entries of modules",
    ),
];

/// Lists of a part.
static LISTS: [Bound; 6] = [
    (
        "\"fields\":[{",
        "\"fields\":[",
        "{\"id\":#,\"name\":\"\",\"signature\":\"\",\"modifiers\":0,\"value\":null},",
        254,
        "{",
        "more than 256 entries of fields, in classes[1]",
    ),
    (
        "\"methods\":[{",
        "\"methods\":[",
        "{\"id\":#,\"name\":\"\",\"signature\":\"\",\"modifiers\":0,\"args\":0,\"last\":0,\"lines\":[],\"slots\":[]},",
        255,
        "{",
        "more than 256 entries of methods, in classes[1]",
    ),
    (
        "\"last\":9,\"lines\":[",
        "\"last\":1500,\"lines\":[[0,1],[3,2],",
        "[#,3],",
        253,
        "[1500,4]],\"unread\":[",
        "more than 256 entries of lines, in classes[1].methods[0]",
    ),
    (
        "\"slots\":[",
        "\"slots\":[",
        "{\"from\":0,\"name\":\"\",\"signature\":\"\",\"length\":0,\"slot\":0},",
        255,
        "",
        "more than 256 entries of slots, in classes[1].methods[0]",
    ),
    (
        "\"interfaces\":[10]",
        "\"interfaces\":[",
        "10,",
        255,
        "10]",
        "more than 256 entries of interfaces, in classes[1]",
    ),
    (
        "[[0,[\"L\",50]]]",
        "[",
        "[#,[\"I\",1]],",
        255,
        "[0,[\"L\",50]]]",
        "more than 256 entries of slots, in threads[0].steps[2]",
    ),
];

/// Frames, steps and elements.
static STEPS: [Bound; 3] = [
    (
        "[\"go\",3]",
        "",
        "[\"call\",#,11,20,0,[]],",
        255,
        "[\"go\",3]",
        "more than 256 frames at once, in threads[0]",
    ),
    (
        "[\"go\",3]",
        "",
        "[\"go\",3],",
        65529,
        "[\"go\",3]",
        "more than 65536 entries of steps, in threads[0]",
    ),
    (
        "[50,0]",
        "[",
        "0,",
        4095,
        "50]",
        "more than 4096 entries of array, in objects[1]",
    ),
];

#[test]
fn limits_of_texts_and_lists(rt: HostRuntime) {
    for bounds in [TEXTS.as_slice(), PARTS.as_slice(), LISTS.as_slice()] {
        are_bounds(&rt, rt.alloc(), MACHINE_B, bounds);
    }
}

#[test]
fn limits_of_steps(rt: HostRuntime) {
    are_bounds(&rt, rt.alloc(), MACHINE_B, &STEPS);
}

/// Fields of an object: of the fields 40, 41, and those from 1000 on.
static HELD: [Bound; 1] = [(
    "[[40,[\"I\",1]],",
    "[[40,[\"I\",1]],",
    "[#,[\"I\",1]],",
    254,
    "",
    "more than 256 entries of fields, in objects[0]",
)];

/// A class of 256 fields has room for an object that lists as many.
#[test]
fn limits_of_fields_of_objects(rt: HostRuntime) {
    let script = with_so_many(&rt, rt.alloc(), MACHINE_B, &LISTS[0], 254);
    are_bounds(&rt, rt.alloc(), script.as_str(), &HELD);
}

/// What makes more threads of machine B, and what starts them.
static THREADS: Bound = (
    "\"threads\":[",
    "\"threads\":[",
    "{\"id\":#,\"name\":\"\",\"group\":5,\"steps\":[]},",
    1022,
    "",
    "more than 1024 entries of threads",
);

static STARTS: Bound = ("[\"start\",2],", "", "[\"start\",#],", 1022, "", "");

/// How many threads there are beside the two of machine B, how many of them a step starts, how many may live; and how many do, or what is
/// told.
type Living = (usize, usize, u32, Result<usize, &'static str>);

/// Threads that live at the beginning: all that no step starts. There may be 1,024 in all.
static LIVING: [Living; 14] = [
    (0, 0, 1, Err("more than 1 threads at the beginning")),
    (0, 0, 2, Ok(2)),
    (62, 0, 64, Ok(64)),
    (63, 0, 64, Err("more than 64 threads at the beginning")),
    (63, 1, 64, Ok(64)),
    (63, 0, 65, Ok(65)),
    (64, 0, 65, Err("more than 65 threads at the beginning")),
    (1022, 0, 1024, Ok(1024)),
    (
        1022,
        0,
        1023,
        Err("more than 1023 threads at the beginning"),
    ),
    (1022, 1, 1023, Ok(1023)),
    (1022, 960, 64, Ok(64)),
    (1022, 959, 64, Err("more than 64 threads at the beginning")),
    (1022, 1022, 64, Ok(2)),
    (1023, 1023, 64, Err("more than 1024 entries of threads")),
];

/// The script of the row.
fn with_threads(rt: &impl Abort, alloc: Global, row: &Living) -> String {
    let script = with_so_many(rt, alloc, MACHINE_B, &STARTS, row.1);
    with_so_many(rt, alloc, script.as_str(), &THREADS, row.0)
}

/// How many threads of the machine live at the beginning, where so many may.
fn living(rt: &impl Abort, alloc: Global, text: &str, live: u32) -> Result<usize, ScriptFault> {
    let limits = Limits::new(65_536, live, 64, 64).expect(rt, "limits");
    let machine = ScriptMachine::read_with(alloc, text, &limits)?;
    Ok(machine.live().len())
}

/// As many threads live as the row says, or a limit is passed, and told.
fn is_so(rt: &impl Abort, alloc: Global, row: &Living) {
    let text = with_threads(rt, alloc, row);
    let found = living(rt, alloc, text.as_str(), row.2);
    match row.3 {
        Ok(count) => expect_same_for(rt, &found, &Ok(count), row),
        Err(words) => {
            expect_same_for(rt, &found, &Err(ScriptFault::OverLimit), row);
            is_over(rt, alloc, text.as_str(), row.2, words);
        }
    }
}

#[test]
fn live_threads_by_limits(rt: HostRuntime) {
    for row in LIVING.iter() {
        is_so(&rt, rt.alloc(), row);
    }
}
