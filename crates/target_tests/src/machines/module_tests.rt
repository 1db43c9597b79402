//! Scripts with modules: how they are read, which are refused, and what is answered of modules.
use crate::asserts::expect_same;
use crate::machines::detail_tests::{Edit as Telling, are_told};
use crate::machines::machine_tests::{Act, goes_as_told};
use crate::machines::script_tests::{Edit, MACHINE_B, are_outcomes, edited};
use jdwp_script::{Member, Script, ScriptFault};
use jdwp_wire::Limits;
use std::alloc::Global;
use std::process::Abort;
use test_parts::{MACHINE_A, commands};

/// Machine A with an object, two modules whose ids fall, a class in one of them, and a class in none.
const MODULES: &str = "{\"name\":\"A\",\"sizes\":[8,8,8,8,8],
\"groups\":[{\"id\":5,\"name\":\"main\",\"parent\":0}],
\"classes\":[{\"id\":10,\"tag\":1,\"signature\":\"LMain;\",\"modifiers\":1,
 \"super\":0,\"interfaces\":[],\"source\":\"Main.java\",\"fields\":[],
 \"methods\":[{\"id\":20,\"name\":\"run\",\"signature\":\"()V\",\"modifiers\":1,
  \"args\":0,\"last\":9,\"lines\":[[0,1],[3,2],[4,3]],\"slots\":[]}],\"module\":6},
 {\"id\":11,\"tag\":1,\"signature\":\"LOther;\",\"modifiers\":1,
 \"super\":0,\"interfaces\":[],\"source\":null,\"fields\":[],\"methods\":[]}],
\"objects\":[{\"id\":50,\"class\":10,\"fields\":[],\"text\":\"hello\",\"array\":null}],
\"threads\":[{\"id\":1,\"name\":\"main\",\"group\":5,\"steps\":[
 [\"call\",30,10,20,0,[]],[\"go\",3],[\"return\",[\"L\",50]]]},
 {\"id\":2,\"name\":\"work\",\"group\":5,\"steps\":[]}],
\"modules\":[{\"id\":7,\"name\":\"base\"},{\"id\":6,\"name\":\"app\"}]}";

/// Appends a script's modules in words, in the order of its text, and the module of each class.
fn words(rt: &impl Abort, script: &Script, text: &mut String) {
    for module in &script.modules {
        write!(text, "module {} {};", module.id.0, module.name).expect(rt, "memory");
    }
    for class in &script.classes {
        write!(text, "class {} in {};", class.id.0, class.module.0).expect(rt, "memory");
    }
}

/// The script is read, and its modules are these.
fn has_modules(rt: &impl Abort, alloc: Global, script: &str, wanted: &str) {
    let script = Script::read(alloc, script).expect(rt, "the script is read");
    let mut text = String::new(alloc);
    words(rt, &script, &mut text);
    expect_same(rt, &text.as_str(), &wanted);
}

#[test]
fn modules_are_read(rt: HostRuntime) {
    let read = "module 7 base;module 6 app;class 10 in 6;class 11 in 0;";
    has_modules(&rt, rt.alloc(), MODULES, read);
}

/// Where the text has no `modules` there are none, and where a class has no `module` it is in none.
#[test]
fn scripts_without_modules_are_read(rt: HostRuntime) {
    has_modules(&rt, rt.alloc(), MACHINE_A, "class 10 in 0;");
    has_modules(&rt, rt.alloc(), MACHINE_B, "class 10 in 0;class 11 in 0;");
}

const NO_MODULE: Option<ScriptFault> = Some(ScriptFault::Missing(Member::Module));

const NO_MODULES: Option<ScriptFault> = Some(ScriptFault::Missing(Member::Modules));

/// Members that are absent, that are there with another type, and what is missing first.
static MEMBERS: [Edit; 23] = [
    ("\"module\":6", "\"module\":0", None),
    ("\"module\":6", "\"other\":6", None),
    ("\"module\":6", "\"module\":null,\"module\":6", None),
    ("\"module\":6", "\"module\":null", NO_MODULE),
    ("\"module\":6", "\"module\":\"6\"", NO_MODULE),
    ("\"module\":6", "\"module\":[6]", NO_MODULE),
    ("\"module\":6", "\"module\":{}", NO_MODULE),
    ("\"module\":6", "\"module\":true", NO_MODULE),
    ("\"module\":6", "\"module\":-1", NO_MODULE),
    ("\"module\":6", "\"module\":6.0", NO_MODULE),
    ("\"module\":6", "\"module\":18446744073709551616", NO_MODULE),
    ("\"module\":6", "\"module\":6,\"module\":null", NO_MODULE),
    (
        "\"name\":\"app\"}]",
        "\"name\":\"app\"}],\"modules\":null",
        NO_MODULES,
    ),
    (
        "\"name\":\"app\"}]",
        "\"name\":\"app\"}],\"modules\":{}",
        NO_MODULES,
    ),
    (
        "\"name\":\"app\"}]",
        "\"name\":\"app\"}],\"modules\":6",
        NO_MODULES,
    ),
    (
        "\"name\":\"app\"}]",
        "\"name\":\"app\"}],\"modules\":\"app\"",
        NO_MODULES,
    ),
    (
        "{\"id\":7,\"name\":\"base\"}",
        "7",
        Some(ScriptFault::Missing(Member::Id)),
    ),
    ("{\"id\":7,", "{", Some(ScriptFault::Missing(Member::Id))),
    (
        "\"name\":\"base\"",
        "\"name\":null",
        Some(ScriptFault::Missing(Member::Name)),
    ),
    (
        ",\"name\":\"base\"",
        "",
        Some(ScriptFault::Missing(Member::Name)),
    ),
    // the last member of a class
    (
        "\"methods\":[]}",
        "\"methods\":5,\"module\":5.5}",
        Some(ScriptFault::Missing(Member::Methods)),
    ),
    // the last member of the script
    (
        "\"name\":\"app\"}]",
        "\"name\":\"app\"}],\"modules\":5,\"threads\":5",
        Some(ScriptFault::Missing(Member::Threads)),
    ),
    // before every other fault
    (
        "\"name\":\"app\"}]",
        "\"name\":\"app\"}],\"modules\":5,\"sizes\":[0,8,8,8,8]",
        NO_MODULES,
    ),
];

#[test]
fn members_of_modules(rt: HostRuntime) {
    are_outcomes(&rt, rt.alloc(), MODULES, &MEMBERS);
}

const NO_OBJECTS: Option<ScriptFault> = Some(ScriptFault::Missing(Member::Objects));

/// Where `objects` is of another type: the module of a class is read before, and the modules behind.
static AROUND_OBJECTS: [Edit; 2] = [
    ("\"module\":6", "\"module\":null", NO_MODULE),
    ("\"modules\":[", "\"modules\":5,\"others\":[", NO_OBJECTS),
];

#[test]
fn the_first_member_that_is_missing(rt: HostRuntime) {
    let text = edited(
        &rt,
        rt.alloc(),
        MODULES,
        "\"objects\":[",
        "\"objects\":5,\"others\":[",
    );
    are_outcomes(&rt, rt.alloc(), text.as_str(), &AROUND_OBJECTS);
}

const TWICE: Option<ScriptFault> = Some(ScriptFault::IdTwice);

const BAD: Option<ScriptFault> = Some(ScriptFault::BadReference);

/// One space of ids with threads, groups and objects; a class may have the id of a module.
static IDS: [Edit; 5] = [
    ("{\"id\":7,", "{\"id\":6,", TWICE),
    ("{\"id\":7,", "{\"id\":5,", TWICE),
    ("{\"id\":7,", "{\"id\":1,", TWICE),
    ("{\"id\":7,", "{\"id\":50,", TWICE),
    ("{\"id\":7,", "{\"id\":10,", None),
];

#[test]
fn ids_of_modules(rt: HostRuntime) {
    are_outcomes(&rt, rt.alloc(), MODULES, &IDS);
}

/// What a class may name as its module, and who may not name a module.
static REFERENCES: [Edit; 11] = [
    ("{\"id\":7,", "{\"id\":0,", BAD),
    ("\"module\":6", "\"module\":7", None),
    ("\"module\":6", "\"module\":8", BAD),
    ("\"module\":6", "\"module\":5", BAD),
    ("\"module\":6", "\"module\":1", BAD),
    ("\"module\":6", "\"module\":50", BAD),
    ("\"modules\":", "\"others\":", BAD),
    ("[\"L\",50]", "[\"L\",6]", BAD),
    ("30,10,20,0", "30,10,20,6", BAD),
    ("\"work\",\"group\":5", "\"work\",\"group\":6", BAD),
    (
        "\"work\",\"group\":5,\"steps\":[]",
        "\"work\",\"group\":5,\"steps\":[[\"start\",6]]",
        BAD,
    ),
];

#[test]
fn references_to_modules(rt: HostRuntime) {
    are_outcomes(&rt, rt.alloc(), MODULES, &REFERENCES);
}

const WIDE: Option<ScriptFault> = Some(ScriptFault::IdTooWide);

/// Where ids of objects have one byte: an id that a module gets and one that a class names.
static WIDE_IDS: [Edit; 4] = [
    ("{\"id\":7,", "{\"id\":255,", None),
    ("{\"id\":7,", "{\"id\":256,", WIDE),
    ("\"module\":6", "\"module\":256", WIDE),
    ("\"module\":6", "\"module\":255", BAD),
];

#[test]
fn wide_ids_of_modules(rt: HostRuntime) {
    let narrow = edited(&rt, rt.alloc(), MODULES, "[8,8,8,8,8]", "[8,8,1,8,8]");
    are_outcomes(&rt, rt.alloc(), narrow.as_str(), &WIDE_IDS);
}

/// What is told of scripts with modules that are refused.
static TOLD: [Telling; 8] = [
    (
        "\"module\":6",
        "\"module\":null",
        "fault 22: the member module is missing or of another type, in classes[0]",
    ),
    (
        "\"name\":\"app\"}]",
        "\"name\":\"app\"}],\"modules\":null",
        "fault 22: the member modules is missing or of another type",
    ),
    (
        "\"name\":\"app\"",
        "\"name\":6",
        "fault 22: the member name is missing or of another type, in modules[1]",
    ),
    (
        "{\"id\":7,",
        "{\"id\":5,",
        "fault 23: an id stands twice: 5 of a module",
    ),
    (
        "\"id\":50,",
        "\"id\":5,",
        "fault 23: an id stands twice: 5 of a thread, group or object",
    ),
    (
        "\"module\":6",
        "\"module\":8",
        "fault 25: a bad reference: no module 8 is known here, in classes[0]",
    ),
    (
        "{\"id\":7,",
        "{\"id\":0,",
        "fault 25: a bad reference: the module has id 0, in modules[0]",
    ),
    (
        "[\"L\",50]",
        "[\"L\",6]",
        "fault 25: a bad reference: no thread, group or object 6 is known here, in threads[0].steps[2]",
    ),
];

/// The same where ids of objects have one byte.
static TOLD_OF_WIDE: [Telling; 2] = [
    (
        "{\"id\":6,",
        "{\"id\":256,",
        "fault 24: an id is too wide, in modules[1]",
    ),
    (
        "\"module\":6",
        "\"module\":256",
        "fault 24: an id is too wide, in classes[0]",
    ),
];

#[test]
fn faults_of_modules_are_told(rt: HostRuntime) {
    are_told(&rt, rt.alloc(), MODULES, &TOLD);
    let narrow = edited(&rt, rt.alloc(), MODULES, "[8,8,8,8,8]", "[8,8,1,8,8]");
    are_told(&rt, rt.alloc(), narrow.as_str(), &TOLD_OF_WIDE);
}

/// The script with its modules, between which so many times this piece comes.
fn with_modules(rt: &impl Abort, alloc: Global, piece: &str, count: usize) -> String {
    let front = "\"modules\":[{\"id\":6,\"name\":\"app\"},";
    let mut modules = String::from_str(alloc, front).expect(rt, "memory");
    for _ in 0..count {
        modules.push_str(piece).expect(rt, "memory");
    }
    let back = "{\"id\":7,\"name\":\"base\"}],\"others\":[";
    modules.push_str(back).expect(rt, "memory");
    edited(rt, alloc, MODULES, "\"modules\":[", modules.as_str())
}

/// The fault of the text in words, with what is known beside it.
fn told(rt: &impl Abort, alloc: Global, text: &str) -> String {
    let limits = Limits::standard();
    match Script::read(alloc, text) {
        Ok(_) => panic!(rt; "a script that reads"),
        Err(fault) => {
            let detail = fault.detail(alloc, text, &limits);
            format!(in alloc; "{fault}{detail}").expect(rt, "memory")
        }
    }
}

/// The script with its modules, between which so many times this piece comes, is told so.
fn limit_is_told(rt: &impl Abort, alloc: Global, piece: &str, count: usize, words: &str) {
    let text = with_modules(rt, alloc, piece, count);
    let told = told(rt, alloc, text.as_str());
    expect_same(rt, &told.as_str(), &words);
}

/// A module whose name has 513 letters.
fn long_module(rt: &impl Abort, alloc: Global) -> String {
    let mut long = String::from_str(alloc, "{\"id\":9,\"name\":\"").expect(rt, "memory");
    for _ in 0..513 {
        long.push_str("x").expect(rt, "memory");
    }
    long.push_str("\"},").expect(rt, "memory");
    long
}

#[test]
fn limits_of_modules_are_told(rt: HostRuntime) {
    limit_is_told(
        &rt,
        rt.alloc(),
        "{\"id\":9,\"name\":\"\"},",
        1023,
        "fault 26: a limit is passed: more than 1024 entries of modules",
    );
    let long = long_module(&rt, rt.alloc());
    limit_is_told(
        &rt,
        rt.alloc(),
        long.as_str(),
        1,
        "fault 26: a limit is passed: a text of more than 512 bytes, in modules[1]",
    );
}

/// AllModules, Module, Name and ClassLoader: an id that is no module's, 0 too, is 42; a module is no group, object or thread.
static ANSWERS: [Act; 24] = [
    Act::Answers(commands::ALL_MODULES, "", "[#6, #7]"),
    Act::Answers(commands::CLASS_MODULE, "0a", "#6"),
    Act::Answers(commands::CLASS_MODULE, "0b", "#0"),
    Act::Answers(commands::CLASS_MODULE, "0c", "error 21"),
    Act::Answers(commands::CLASS_MODULE, "06", "error 21"),
    Act::Answers(commands::MODULE_NAME, "06", "\"app\""),
    Act::Answers(commands::MODULE_NAME, "07", "\"base\""),
    Act::Answers(commands::MODULE_NAME, "08", "error 42"),
    Act::Answers(commands::MODULE_NAME, "05", "error 42"),
    Act::Answers(commands::MODULE_NAME, "01", "error 42"),
    Act::Answers(commands::MODULE_NAME, "32", "error 42"),
    Act::Answers(commands::MODULE_NAME, "0a", "error 42"),
    Act::Answers(commands::MODULE_NAME, "00", "error 42"),
    Act::Answers(commands::MODULE_CLASS_LOADER, "06", "#0"),
    Act::Answers(commands::MODULE_CLASS_LOADER, "08", "error 42"),
    Act::Answers(commands::MODULE_CLASS_LOADER, "00", "error 42"),
    Act::Answers(commands::OBJECT_TYPE, "06", "error 20"),
    Act::Answers(commands::STRING_VALUE, "06", "error 20"),
    Act::Answers(commands::ARRAY_LENGTH, "06", "error 20"),
    Act::Answers(commands::GROUP_NAME, "06", "error 11"),
    Act::AnswersAs(
        commands::CLASS_MODULE,
        "0a",
        commands::ALL_MODULES,
        "error 103",
    ),
    Act::AnswersAs(
        commands::INSTANCES,
        "0a 00000001",
        commands::CLASS_MODULE,
        "error 103",
    ),
    Act::AnswersAs(commands::VERSION, "", commands::MODULE_NAME, "error 103"),
    Act::AnswersAs(commands::MODULE_NAME, "06", (18, 3), "error 99"),
];

/// A script without modules has none.
static NO_ANSWERS: [Act; 4] = [
    Act::Answers(commands::ALL_MODULES, "", "[]"),
    Act::Answers(commands::CLASS_MODULE, "0a", "#0"),
    Act::Answers(commands::MODULE_NAME, "06", "error 42"),
    Act::Answers(commands::MODULE_CLASS_LOADER, "00", "error 42"),
];

/// Each session: the script of its machine, and its acts.
fn sessions() -> [(&'static str, &'static [Act]); 2] {
    [(MODULES, &ANSWERS), (MACHINE_A, &NO_ANSWERS)]
}

#[test]
fn each_session_goes_as_told(rt: HostRuntime) {
    for (script, acts) in sessions() {
        goes_as_told(&rt, rt.alloc(), script, acts);
    }
}
