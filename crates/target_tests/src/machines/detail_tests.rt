//! What is told of scripts that are refused, beside their faults.
use crate::asserts::expect_same_for;
use crate::machines::script_tests::{MACHINE_B, edited};
use jdwp_script::{Cause, Detail, IdKind, Path, Script};
use jdwp_wire::Limits;
use std::alloc::Global;
use std::process::Abort;

/// The fault of a text in words with what is known beside it, where so many threads may live at the beginning.
pub(crate) fn told_with(rt: &impl Abort, alloc: Global, text: &str, live: u32) -> String {
    let limits = Limits::new(65_536, live, 64, 64).expect(rt, "limits");
    match Script::read_with(alloc, text, &limits) {
        Ok(_) => panic!(rt; "a script that reads"),
        Err(fault) => {
            let detail = fault.detail(alloc, text, &limits);
            format!(in alloc; "{fault}{detail}").expect(rt, "memory")
        }
    }
}

/// The fault of the text is told in these words.
fn is_told(rt: &impl Abort, alloc: Global, text: &str, words: &str) {
    let told = told_with(rt, alloc, text, 64);
    expect_same_for(rt, &told.as_str(), &words, &words);
}

/// What gives way in a script, what comes for it, and what is told.
pub(crate) type Edit = (&'static str, &'static str, &'static str);

/// Each edit of the script is told in its words.
pub(crate) fn are_told(rt: &impl Abort, alloc: Global, script: &str, edits: &[Edit]) {
    for (old, new, words) in edits {
        let text = edited(rt, alloc, script, old, new);
        is_told(rt, alloc, text.as_str(), words);
    }
}

#[test]
fn texts_that_are_no_json(rt: HostRuntime) {
    let mark = "fault 21: the text is not JSON: it begins with a byte order mark";
    is_told(&rt, rt.alloc(), "\u{feff}{}", mark);
    let place = "fault 21: the text is not JSON: line 2, column 3";
    is_told(&rt, rt.alloc(), "[1,\n2 3]", place);
}

/// Members that are missing or of another type, a line each: what gives way, what comes for it, and
/// what is told.
const MISSING: &str = "\"name\":\"B\" => \"name\":5 => name is missing or of another type
\"threads\": => \"thread\": => threads is missing or of another type
\"name\":\"pool\", =>  => name is missing or of another type, in groups[1]
\"signature\":\"LJob;\", =>  => signature is missing or of another type, in classes[0]
\"interfaces\":[10] => \"interfaces\":[\"LJob;\"] => interfaces is missing or of another type, in classes[1].interfaces[0]
\"id\":41, => \"id\":\"41\", => id is missing or of another type, in classes[1].fields[1]
\"name\":\"run\",\"signature\":\"()V\" => \"name\":\"run\" => signature is missing or of another type, in classes[1].methods[0]
\"last\":9, =>  => last is missing or of another type, in classes[1].methods[0]
[3,2]] => [3]] => lines is missing or of another type, in classes[1].methods[0].lines[1]
\"slot\":0} => \"slot\":-1} => slot is missing or of another type, in classes[1].methods[0].slots[0]
[40,[\"I\",1]] => [40] => fields is missing or of another type, in objects[0].fields[0]
\"text\":\"hello\" => \"text\":1 => text is missing or of another type, in objects[1]
\"group\":6, =>  => group is missing or of another type, in threads[1]
[\"go\",3] => [\"goes\",3] => steps is missing or of another type, in threads[0].steps[3]";

#[test]
fn missing_members_are_told_with_their_place(rt: HostRuntime) {
    lines_are_told(&rt, rt.alloc(), "fault 22: the member ", MISSING);
}

/// Ids that stand twice, the first of their lists and others, a line each: what gives way, what comes for it, and what is told.
const TWICE: &str = "\"id\":51, => \"id\":5, => 5 of a thread, group or object
\"id\":11,\"tag\" => \"id\":10,\"tag\" => 10 of a class
\"id\":41, => \"id\":40, => 40 of a field
\"fields\":[],\"methods\":[] => \"fields\":[],\"methods\":[{\"id\":20,\"name\":\"run\",\"signature\":\"()V\",\"modifiers\":1,\"args\":0,\"last\":0,\"lines\":[],\"slots\":[]}] => 20 of a method
[\"go\",3] => [\"call\",30,11,20,0,[]] => 30 of a frame
\"id\":51, => \"id\":6, => 6 of a thread, group or object
\"fields\":[],\"methods\":[]} => \"fields\":[],\"methods\":[]},{\"id\":12,\"tag\":1,\"signature\":\"\",\"modifiers\":0,\"super\":0,\"interfaces\":[],\"source\":null,\"fields\":[],\"methods\":[]},{\"id\":12,\"tag\":1,\"signature\":\"\",\"modifiers\":0,\"super\":0,\"interfaces\":[],\"source\":null,\"fields\":[],\"methods\":[]} => 12 of a class
\"fields\":[{ => \"fields\":[{\"id\":43,\"name\":\"\",\"signature\":\"\",\"modifiers\":0,\"value\":null},{\"id\":42,\"name\":\"\",\"signature\":\"\",\"modifiers\":0,\"value\":null},{\"id\":42,\"name\":\"\",\"signature\":\"\",\"modifiers\":0,\"value\":null},{ => 42 of a field
\"methods\":[{ => \"methods\":[{\"id\":22,\"name\":\"\",\"signature\":\"\",\"modifiers\":0,\"args\":0,\"last\":0,\"lines\":[],\"slots\":[]},{\"id\":21,\"name\":\"\",\"signature\":\"\",\"modifiers\":0,\"args\":0,\"last\":0,\"lines\":[],\"slots\":[]},{\"id\":21,\"name\":\"\",\"signature\":\"\",\"modifiers\":0,\"args\":0,\"last\":0,\"lines\":[],\"slots\":[]},{ => 21 of a method
[\"go\",3] => [\"call\",32,11,20,0,[]],[\"call\",31,11,20,0,[]],[\"call\",31,11,20,0,[]] => 31 of a frame
\"threads\":[ => \"modules\":[{\"id\":7,\"name\":\"\"},{\"id\":8,\"name\":\"\"},{\"id\":8,\"name\":\"\"}],\"threads\":[ => 8 of a module";

#[test]
fn ids_that_stand_twice_are_told(rt: HostRuntime) {
    lines_are_told(&rt, rt.alloc(), "fault 23: an id stands twice: ", TWICE);
}

/// Widths, ids that do not fit them, and where.
static WIDE: [(&str, Edit); 11] = [
    (
        "[8,0,8,9,8]",
        (
            "\"name\":\"B\"",
            "\"name\":\"B\"",
            "fault 24: an id is too wide: a width of 0 in place of 1 to 8",
        ),
    ),
    (
        "[8,8,8,8,9]",
        (
            "\"name\":\"B\"",
            "\"name\":\"B\"",
            "fault 24: an id is too wide: a width of 9 in place of 1 to 8",
        ),
    ),
    (
        "[8,8,1,8,8]",
        (
            "\"id\":6,",
            "\"id\":256,",
            "fault 24: an id is too wide, in groups[1]",
        ),
    ),
    (
        "[1,8,8,8,8]",
        (
            "\"id\":41,",
            "\"id\":256,",
            "fault 24: an id is too wide, in classes[1].fields[1]",
        ),
    ),
    (
        "[8,1,8,8,8]",
        (
            "\"id\":20,",
            "\"id\":256,",
            "fault 24: an id is too wide, in classes[1].methods[0]",
        ),
    ),
    (
        "[8,8,1,8,8]",
        (
            "[41,[\"L\",51]]",
            "[41,[\"L\",256]]",
            "fault 24: an id is too wide, in objects[0].fields[1]",
        ),
    ),
    (
        "[8,8,1,8,8]",
        (
            "\"id\":51,",
            "\"id\":256,",
            "fault 24: an id is too wide, in objects[1]",
        ),
    ),
    (
        "[8,8,1,8,8]",
        (
            "\"id\":2,\"name\":\"work\"",
            "\"id\":256,\"name\":\"work\"",
            "fault 24: an id is too wide, in threads[1]",
        ),
    ),
    (
        "[8,8,8,1,8]",
        (
            "\"interfaces\":[10]",
            "\"interfaces\":[10,256]",
            "fault 24: an id is too wide, in classes[1].interfaces[1]",
        ),
    ),
    (
        "[8,8,8,1,8]",
        (
            "\"id\":11,\"tag\"",
            "\"id\":256,\"tag\"",
            "fault 24: an id is too wide, in classes[1]",
        ),
    ),
    (
        "[8,8,8,8,1]",
        (
            "[\"call\",30",
            "[\"call\",256",
            "fault 24: an id is too wide, in threads[0].steps[2]",
        ),
    ),
];

#[test]
fn wide_ids_are_told_with_their_place(rt: HostRuntime) {
    for (sizes, edit) in WIDE.iter() {
        let script = edited(&rt, rt.alloc(), MACHINE_B, "[8,8,8,8,8]", sizes);
        are_told(&rt, rt.alloc(), script.as_str(), &[*edit]);
    }
}

/// Bad references, a line each: what gives way, what comes for it, and what is told.
const BAD: &str = "\"id\":6, => \"id\":0, => the group has id 0, in groups[1]
\"id\":6,\"name\":\"pool\",\"parent\":5 => \"id\":6,\"name\":\"pool\",\"parent\":6 => no group 6 is known here, in groups[1]
\"id\":10,\"tag\" => \"id\":0,\"tag\" => the class has id 0, in classes[0]
\"super\":0,\"interfaces\":[],\"source\":null => \"super\":11,\"interfaces\":[],\"source\":null => no class 11 is known here, in classes[0]
\"interfaces\":[10] => \"interfaces\":[11] => no class 11 is known here, in classes[1]
\"interfaces\":[10] => \"interfaces\":[0] => no class 0 is known here, in classes[1]
[\"I\",7] => [\"I\",4294967296] => bits 4294967296 past the width of their tag, in classes[1].fields[0]
[\"I\",7] => [\"L\",99] => no thread, group or object 99 is known here, in classes[1].fields[0]
\"id\":40, => \"id\":0, => the field has id 0, in classes[1].fields[0]
\"id\":20, => \"id\":0, => the method has id 0, in classes[1].methods[0]
[3,2]] => [10,2]] => lines that don't rise up to the method's last index, in classes[1].methods[0]
\"id\":50,\"class\":11 => \"id\":50,\"class\":12 => no class 12 is known here, in objects[0]
\"id\":50,\"class\" => \"id\":0,\"class\" => the object has id 0, in objects[0]
[40,[\"I\",1]] => [42,[\"I\",1]] => no field 42 is known here, in objects[0].fields[0]
[41,[\"L\",51]] => [40,[\"L\",51]] => 40 of a field, in objects[0]
[41,[\"L\",51]] => [41,[\"L\",52]] => no thread, group or object 52 is known here, in objects[0].fields[1]
[50,0] => [50,52] => no thread, group or object 52 is known here, in objects[1]
\"group\":6 => \"group\":7 => no group 7 is known here, in threads[1]
\"id\":2,\"name\":\"work\" => \"id\":0,\"name\":\"work\" => no thread 2 is known here, in threads[0].steps[1]
\"id\":1,\"name\":\"main\" => \"id\":0,\"name\":\"main\" => the thread has id 0, in threads[0]
[\"call\",30 => [\"call\",0 => the frame has id 0, in threads[0].steps[2]
30,11,20,50 => 30,12,20,50 => no class 12 is known here, in threads[0].steps[2]
30,11,20,50 => 30,11,21,50 => no method 21 is known here, in threads[0].steps[2]
30,11,20,50 => 30,11,20,5 => no object 5 is known here, in threads[0].steps[2]
[[0,[\"L\",50]]] => [[0,[\"L\",50]],[0,[\"I\",1]]] => the slot 0 stands twice, in threads[0].steps[2]
[[0,[\"L\",50]]] => [[0,[\"L\",99]]] => no thread, group or object 99 is known here, in threads[0].steps[2]
[\"go\",3] => [\"go\",10] => an index 10 past the method's last, in threads[0].steps[3]
[\"prepare\",11] => [\"go\",0] => a step without a frame, in threads[0].steps[0]
[\"prepare\",11] => [\"return\",[\"V\",0]] => a step without a frame, in threads[0].steps[0]
[\"throw\",51 => [\"throw\",5 => no object 5 is known here, in threads[0].steps[4]
[11,20,9] => [11,20,10] => an index 10 past the method's last, in threads[0].steps[4]
[11,20,9] => [10,20,9] => no method 20 is known here, in threads[0].steps[4]
[\"prepare\",11] => [\"prepare\",12] => no class 12 is known here, in threads[0].steps[0]
[\"prepare\",11] => [\"prepare\",11],[\"prepare\",11] => the class 11 begins a second time
[\"start\",2] => [\"start\",2],[\"start\",2] => the thread 2 begins a second time
[\"start\",2] => [\"start\",2],[\"start\",1] => no thread lives at the beginning
[[0,[\"L\",50]]] => [[0,[\"L\",50]],[3,[\"I\",1]],[5,[\"I\",1]],[3,[\"I\",2]]] => the slot 3 stands twice, in threads[0].steps[2]
[[0,[\"L\",50]]] => [[0,[\"L\",50]],[7,[\"I\",1]],[7,[\"I\",1]]] => the slot 7 stands twice, in threads[0].steps[2]
[[0,[\"L\",50]]] => [[0,[\"L\",50]],[1,[\"L\",99]]] => no thread, group or object 99 is known here, in threads[0].steps[2]
[41,[\"L\",51]] => [41,[\"L\",51]],[41,[\"L\",0]] => 41 of a field, in objects[0]
[41,[\"L\",51]] => [42,[\"L\",51]] => no field 42 is known here, in objects[0].fields[1]
\"interfaces\":[10] => \"interfaces\":[10,9] => no class 9 is known here, in classes[1]
[\"L\",[50,0]] => [\"B\",[1,256]] => bits 256 past the width of their tag, in objects[1]
\"modifiers\":0,\"value\":null => \"modifiers\":0,\"value\":[\"L\",99] => no thread, group or object 99 is known here, in classes[1].fields[1]
\"id\":41, => \"id\":0, => the field has id 0, in classes[1].fields[1]
\"group\":6,\"steps\":[] => \"group\":6,\"steps\":[[\"go\",0]] => a step without a frame, in threads[1].steps[0]
[\"prepare\",11] => [\"prepare\",10],[\"prepare\",11],[\"prepare\",11] => the class 11 begins a second time
[\"start\",2] => [\"start\",1],[\"start\",2],[\"start\",2] => the thread 2 begins a second time
[\"V\",0]]] => [\"V\",0]],[\"again\",0]] => it goes back by 0 where 7 stand before it, in threads[0].steps[7]
[\"V\",0]]] => [\"V\",0]],[\"again\",8]] => it goes back by 8 where 7 stand before it, in threads[0].steps[7]
[\"V\",0]]] => [\"V\",0]],[\"again\",7]] => the class 11 begins a second time, in threads[0].steps[7]
[\"V\",0]]] => [\"V\",0]],[\"again\",6]] => the thread 2 begins a second time, in threads[0].steps[7]
[\"V\",0]]] => [\"V\",0]],[\"again\",4]] => it goes back to other frames, in threads[0].steps[7]
[\"return\",[\"V\",0]]] => [\"again\",4]] => it goes back to other frames, in threads[0].steps[6]
[\"V\",0]]] => [\"V\",0]],[\"again\",5],[\"prepare\",10]] => a step behind an again is never made, in threads[0].steps[8]
\"group\":6,\"steps\":[] => \"group\":6,\"steps\":[[\"again\",1]] => it goes back by 1 where 0 stand before it, in threads[1].steps[0]";

/// The row says what gives way in machine B, what comes for it and what is told behind `front`, and
/// that is told.
fn row_is_told(rt: &impl Abort, alloc: Global, front: &str, row: &str) {
    let (old, behind) = row.split_once(" => ").expect(rt, "an edit");
    let (new, words) = behind.split_once(" => ").expect(rt, "words");
    let script = edited(rt, alloc, MACHINE_B, old, new);
    let told = format!(in alloc; "{front}{words}").expect(rt, "memory");
    is_told(rt, alloc, script.as_str(), told.as_str());
}

/// Each line is a row that is told so.
fn lines_are_told(rt: &impl Abort, alloc: Global, front: &str, lines: &str) {
    for row in lines.lines() {
        row_is_told(rt, alloc, front, row);
    }
}

#[test]
fn bad_references_are_told_with_their_place(rt: HostRuntime) {
    lines_are_told(&rt, rt.alloc(), "fault 25: a bad reference: ", BAD);
}

/// Of a fault of which nothing is known, nothing is told.
#[test]
fn nothing_is_told_where_nothing_is_known(rt: HostRuntime) {
    let told = Detail::UNSAID.to_string(rt.alloc()).expect(&rt, "memory");
    expect_same_for(&rt, &told.as_str(), &"", &"unsaid");
    let twice = Detail {
        cause: Cause::Twice(IdKind::Class, 7),
        path: Path::ROOT,
    };
    let told = twice.to_string(rt.alloc()).expect(&rt, "memory");
    expect_same_for(&rt, &told.as_str(), &": 7 of a class", &"twice");
}
