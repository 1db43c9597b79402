//! What a target answers in the profile for debuggers over the Java Debug Interface, and in the standard one.
use crate::asserts::expect_same_for;
use crate::targets::sessions::{Target, greet, sends};
use jdwp_machine::Profile;
use jdwp_script_machine::ScriptMachine;
use jdwp_target::{Stepped, TargetOptions, Turn};
use jdwp_value::ObjectId;
use jdwp_wire::Limits;
use std::alloc::Global;
use std::process::Abort;
use test_parts::bytes;

/// Threads and groups with a class and without one, two classes of a name, classes in a module and in none, and no id above 50.
const MIRRORS: &str = "{\"name\":\"jdi\",\"sizes\":[8,8,8,8,8],
\"groups\":[{\"id\":5,\"name\":\"main\",\"parent\":0},{\"id\":4,\"name\":\"pool\",\"parent\":5,\"class\":13}],
\"classes\":[{\"id\":14,\"tag\":1,\"signature\":\"Ljava/lang/Thread;\",\"modifiers\":1,
 \"super\":0,\"interfaces\":[],\"source\":null,\"fields\":[],\"methods\":[]},
 {\"id\":11,\"tag\":1,\"signature\":\"Ljava/lang/Thread;\",\"modifiers\":1,
 \"super\":0,\"interfaces\":[],\"source\":null,\"fields\":[],\"methods\":[]},
 {\"id\":12,\"tag\":1,\"signature\":\"Ljava/lang/ThreadGroup;\",\"modifiers\":1,
 \"super\":0,\"interfaces\":[],\"source\":null,\"fields\":[],\"methods\":[]},
 {\"id\":13,\"tag\":2,\"signature\":\"LOther;\",\"modifiers\":1537,
 \"super\":0,\"interfaces\":[],\"source\":null,\"fields\":[],\"methods\":[]},
 {\"id\":10,\"tag\":1,\"signature\":\"LMain;\",\"modifiers\":1,
 \"super\":0,\"interfaces\":[],\"source\":null,\"fields\":[],
 \"methods\":[{\"id\":20,\"name\":\"run\",\"signature\":\"()V\",\"modifiers\":1,
  \"args\":0,\"last\":9,\"lines\":[[0,1],[3,2],[4,3]],\"slots\":[]}],\"module\":6}],
\"objects\":[{\"id\":50,\"class\":10,\"fields\":[],\"text\":null,\"array\":null}],
\"threads\":[{\"id\":1,\"name\":\"main\",\"group\":5,\"steps\":[]},
 {\"id\":2,\"name\":\"work\",\"group\":4,\"steps\":[],\"class\":13}],
\"modules\":[{\"id\":7,\"name\":\"base\"},{\"id\":6,\"name\":\"app\"}]}";

/// A machine of ids of objects with one byte, of which the greatest is in use, and no class Thread.
const NARROW: &str = "{\"name\":\"narrow\",\"sizes\":[8,8,1,8,8],
\"groups\":[{\"id\":5,\"name\":\"main\",\"parent\":0}],
\"classes\":[{\"id\":10,\"tag\":1,\"signature\":\"LMain;\",\"modifiers\":1,
 \"super\":0,\"interfaces\":[],\"source\":null,\"fields\":[],\"methods\":[]}],
\"objects\":[],
\"threads\":[{\"id\":255,\"name\":\"main\",\"group\":5,\"steps\":[]}]}";

/// Methods that say what they return and one that does not, of a class and of an interface; a thread that comes to a breakpoint, and one
/// that does nothing.
const INVOKED: &str = "{\"name\":\"invoked\",\"sizes\":[8,8,8,8,8],
\"groups\":[{\"id\":5,\"name\":\"main\",\"parent\":0}],
\"classes\":[{\"id\":10,\"tag\":1,\"signature\":\"LMain;\",\"modifiers\":1,
 \"super\":0,\"interfaces\":[],\"source\":null,\"fields\":[],
 \"methods\":[{\"id\":20,\"name\":\"run\",\"signature\":\"()V\",\"modifiers\":1,
  \"args\":0,\"last\":9,\"lines\":[[0,1],[3,2],[4,3]],\"slots\":[]},
  {\"id\":21,\"name\":\"sum\",\"signature\":\"(I)I\",\"modifiers\":9,
  \"args\":1,\"last\":9,\"lines\":[],\"slots\":[],\"returns\":[\"I\",7]},
  {\"id\":22,\"name\":\"toString\",\"signature\":\"()Ljava/lang/String;\",\"modifiers\":1,
  \"args\":0,\"last\":9,\"lines\":[],\"slots\":[],\"returns\":[\"s\",50]}]},
 {\"id\":11,\"tag\":2,\"signature\":\"LOther;\",\"modifiers\":1537,
 \"super\":0,\"interfaces\":[],\"source\":null,\"fields\":[],
 \"methods\":[{\"id\":23,\"name\":\"stop\",\"signature\":\"()V\",\"modifiers\":9,
  \"args\":0,\"last\":9,\"lines\":[],\"slots\":[],\"returns\":[\"V\",0]}]}],
\"objects\":[{\"id\":50,\"class\":10,\"fields\":[],\"text\":\"it\",\"array\":null}],
\"threads\":[{\"id\":1,\"name\":\"main\",\"group\":5,\"steps\":[
 [\"call\",30,10,20,0,[]],[\"go\",3],[\"go\",4]]},
 {\"id\":2,\"name\":\"work\",\"group\":5,\"steps\":[]}]}";

/// A class of strings and one string, and no id above 3.
const STRINGS: &str = "{\"name\":\"strings\",\"sizes\":[8,8,8,8,8],
\"groups\":[{\"id\":2,\"name\":\"main\",\"parent\":0}],
\"classes\":[{\"id\":9,\"tag\":1,\"signature\":\"Ljava/lang/String;\",\"modifiers\":1,
 \"super\":0,\"interfaces\":[],\"source\":null,\"fields\":[],\"methods\":[]}],
\"objects\":[{\"id\":3,\"class\":9,\"fields\":[],\"text\":\"old\",\"array\":null}],
\"threads\":[{\"id\":1,\"name\":\"main\",\"group\":2,\"steps\":[]}]}";

/// A command, what it is answered in the standard profile, and what in that for the Java Debug Interface.
type Row = (&'static str, &'static str, &'static str);

/// Of machine `MIRRORS`.
static ROWS: [Row; 29] = [
    // EventRequest.Set of CLASS_UNLOAD: alone, with a ClassMatch, and with a LocationOnly, a ThreadOnly and a ClassOnly, which it does not allow
    (
        "00000011 00000010 00 0f 01 09 00 00000000",
        "0000000b 00000010 80 0063",
        "0000000f 00000010 80 0000 00000001",
    ),
    (
        "0000001b 00000011 00 0f 01 09 02 00000001 05 00000005 44656d6f2a",
        "0000000b 00000011 80 0063",
        "0000000f 00000011 80 0000 00000002",
    ),
    (
        "0000002b 00000012 00 0f 01 09 00 00000001 07 01 000000000000000a 0000000000000014 0000000000000003",
        "0000000b 00000012 80 0063",
        "0000000b 00000012 80 0067",
    ),
    (
        "0000001a 00000014 00 0f 01 09 00 00000001 03 0000000000000001",
        "0000000b 00000014 80 0063",
        "0000000b 00000014 80 0067",
    ),
    (
        "0000001a 00000015 00 0f 01 09 00 00000001 04 000000000000000a",
        "0000000b 00000015 80 0063",
        "0000000b 00000015 80 0067",
    ),
    // a kind that is implemented in neither
    (
        "00000011 00000013 00 0f 01 14 00 00000000",
        "0000000b 00000013 80 0063",
        "0000000b 00000013 80 0063",
    ),
    // ObjectReference.ReferenceType of threads 1 and 2, groups 5 and 4, object 50, nothing, and of too much
    (
        "00000013 00000020 00 09 01 0000000000000001",
        "0000000b 00000020 80 0014",
        "00000014 00000020 80 0000 01 000000000000000b",
    ),
    (
        "00000013 00000021 00 09 01 0000000000000002",
        "0000000b 00000021 80 0014",
        "00000014 00000021 80 0000 02 000000000000000d",
    ),
    (
        "00000013 00000022 00 09 01 0000000000000005",
        "0000000b 00000022 80 0014",
        "00000014 00000022 80 0000 01 000000000000000c",
    ),
    (
        "00000013 00000023 00 09 01 0000000000000004",
        "0000000b 00000023 80 0014",
        "00000014 00000023 80 0000 02 000000000000000d",
    ),
    (
        "00000013 00000024 00 09 01 0000000000000032",
        "00000014 00000024 80 0000 01 000000000000000a",
        "00000014 00000024 80 0000 01 000000000000000a",
    ),
    (
        "00000013 00000025 00 09 01 0000000000000033",
        "0000000b 00000025 80 0014",
        "0000000b 00000025 80 0014",
    ),
    (
        "00000014 00000026 00 09 01 0000000000000001 00",
        "0000000b 00000026 80 0067",
        "0000000b 00000026 80 0067",
    ),
    // ReferenceType.Module of a class in none and of one in a module, and VirtualMachine.AllModules
    (
        "00000013 00000030 00 02 13 000000000000000b",
        "00000013 00000030 80 0000 0000000000000000",
        "00000013 00000030 80 0000 0000000000000033",
    ),
    (
        "00000013 00000031 00 02 13 000000000000000a",
        "00000013 00000031 80 0000 0000000000000006",
        "00000013 00000031 80 0000 0000000000000006",
    ),
    (
        "0000000b 00000032 00 01 16",
        "0000001f 00000032 80 0000 00000002 0000000000000006 0000000000000007",
        "00000027 00000032 80 0000 00000003 0000000000000006 0000000000000007 0000000000000033",
    ),
    // ModuleReference.Name and ClassLoader of the unnamed module, and Name of another
    (
        "00000013 00000033 00 12 01 0000000000000033",
        "0000000b 00000033 80 002a",
        "0000000f 00000033 80 0000 00000000",
    ),
    (
        "00000013 00000034 00 12 02 0000000000000033",
        "0000000b 00000034 80 002a",
        "00000013 00000034 80 0000 0000000000000000",
    ),
    (
        "00000013 00000035 00 12 01 0000000000000006",
        "00000012 00000035 80 0000 00000003 617070",
        "00000012 00000035 80 0000 00000003 617070",
    ),
    (
        "00000013 00000036 00 12 01 0000000000000000",
        "0000000b 00000036 80 002a",
        "0000000b 00000036 80 002a",
    ),
    // ThreadReference.OwnedMonitors, of a thread that is not alive too, and CurrentContendedMonitor
    (
        "00000013 00000040 00 0b 08 0000000000000001",
        "0000000b 00000040 80 0063",
        "0000000f 00000040 80 0000 00000000",
    ),
    (
        "00000013 00000041 00 0b 08 0000000000000003",
        "0000000b 00000041 80 0063",
        "0000000b 00000041 80 000a",
    ),
    (
        "00000013 00000042 00 0b 09 0000000000000001",
        "0000000b 00000042 80 0063",
        "00000014 00000042 80 0000 4c 0000000000000000",
    ),
    // ReferenceType.SourceDebugExtension of a class, and with no data
    (
        "00000013 00000043 00 02 0c 000000000000000a",
        "0000000b 00000043 80 0063",
        "0000000b 00000043 80 0065",
    ),
    (
        "0000000b 00000044 00 02 0c",
        "0000000b 00000044 80 0063",
        "0000000b 00000044 80 0067",
    ),
    // VirtualMachine.ClassPaths, whose data nobody reads, and RedefineClasses
    (
        "0000000b 00000046 00 01 0d",
        "0000000b 00000046 80 0063",
        "00000018 00000046 80 0000 00000001 2f 00000000 00000000",
    ),
    (
        "0000000d 00000047 00 01 0d ab01",
        "0000000b 00000047 80 0063",
        "00000018 00000047 80 0000 00000001 2f 00000000 00000000",
    ),
    (
        "0000000f 00000048 00 01 12 00000000",
        "0000000b 00000048 80 0063",
        "0000000b 00000048 80 0063",
    ),
    // ClassObjectReference.ReflectedType
    (
        "00000013 00000045 00 11 01 0000000000000032",
        "0000000b 00000045 80 0063",
        "0000000b 00000045 80 0063",
    ),
];

/// Of machine `NARROW`: no id is left for the unnamed module, and a thread has no class.
static NARROW_ROWS: [Row; 5] = [
    (
        "00000013 00000010 00 02 13 000000000000000a",
        "0000000c 00000010 80 0000 00",
        "0000000c 00000010 80 0000 00",
    ),
    (
        "0000000b 00000011 00 01 16",
        "0000000f 00000011 80 0000 00000000",
        "0000000f 00000011 80 0000 00000000",
    ),
    (
        "0000000c 00000012 00 12 01 00",
        "0000000b 00000012 80 002a",
        "0000000b 00000012 80 002a",
    ),
    (
        "0000000c 00000013 00 09 01 ff",
        "0000000b 00000013 80 0014",
        "0000000b 00000013 80 0014",
    ),
    (
        "0000000b 00000014 00 01 0d",
        "0000000b 00000014 80 0063",
        "00000018 00000014 80 0000 00000001 2f 00000000 00000000",
    ),
];

/// Of machine `INVOKED`, where thread 1 has come to its breakpoint.
static INVOKED_ROWS: [Row; 20] = [
    // ClassType.InvokeMethod: with an argument and the option INVOKE_SINGLE_THREADED, and without
    (
        "00000030 00000010 00 03 03 000000000000000a 0000000000000001 0000000000000015 00000001 49 00000003 00000001",
        "0000000b 00000010 80 0063",
        "00000019 00000010 80 0000 49 00000007 4c 0000000000000000",
    ),
    (
        "0000002b 00000011 00 03 03 000000000000000a 0000000000000001 0000000000000016 00000000 00000000",
        "0000000b 00000011 80 0063",
        "0000001d 00000011 80 0000 73 0000000000000032 4c 0000000000000000",
    ),
    // of a method that does not say what it returns, of no method, and of no class
    (
        "0000002b 00000012 00 03 03 000000000000000a 0000000000000001 0000000000000014 00000000 00000000",
        "0000000b 00000012 80 0063",
        "0000000b 00000012 80 0063",
    ),
    (
        "0000002b 00000013 00 03 03 000000000000000a 0000000000000001 0000000000000017 00000000 00000000",
        "0000000b 00000013 80 0063",
        "0000000b 00000013 80 0017",
    ),
    (
        "0000002b 00000014 00 03 03 000000000000000c 0000000000000001 0000000000000015 00000000 00000000",
        "0000000b 00000014 80 0063",
        "0000000b 00000014 80 0015",
    ),
    // by a thread that no event stopped, by none, and with data that do not read
    (
        "0000002b 00000015 00 03 03 000000000000000a 0000000000000002 0000000000000015 00000000 00000000",
        "0000000b 00000015 80 0063",
        "0000000b 00000015 80 000d",
    ),
    (
        "0000002b 00000016 00 03 03 000000000000000a 0000000000000009 0000000000000015 00000000 00000000",
        "0000000b 00000016 80 0063",
        "0000000b 00000016 80 000a",
    ),
    (
        "00000027 00000017 00 03 03 000000000000000a 0000000000000001 0000000000000015 00000000",
        "0000000b 00000017 80 0063",
        "0000000b 00000017 80 0067",
    ),
    // InterfaceType.InvokeMethod
    (
        "0000002b 00000018 00 05 01 000000000000000b 0000000000000001 0000000000000017 00000000 00000000",
        "0000000b 00000018 80 0063",
        "00000015 00000018 80 0000 56 4c 0000000000000000",
    ),
    // ObjectReference.InvokeMethod of an object, of a thread, and of nothing
    (
        "00000033 00000019 00 09 06 0000000000000032 0000000000000001 000000000000000a 0000000000000016 00000000 00000000",
        "0000000b 00000019 80 0063",
        "0000001d 00000019 80 0000 73 0000000000000032 4c 0000000000000000",
    ),
    (
        "00000033 0000001a 00 09 06 0000000000000001 0000000000000001 000000000000000a 0000000000000016 00000000 00000000",
        "0000000b 0000001a 80 0063",
        "0000001d 0000001a 80 0000 73 0000000000000032 4c 0000000000000000",
    ),
    (
        "00000033 0000001b 00 09 06 0000000000000033 0000000000000001 000000000000000a 0000000000000016 00000000 00000000",
        "0000000b 0000001b 80 0063",
        "0000000b 0000001b 80 0014",
    ),
    // no count has moved: ThreadReference.SuspendCount of both
    (
        "00000013 0000001c 00 0b 0c 0000000000000001",
        "0000000f 0000001c 80 0000 00000001",
        "0000000f 0000001c 80 0000 00000001",
    ),
    (
        "00000013 0000001d 00 0b 0c 0000000000000002",
        "0000000f 0000001d 80 0000 00000000",
        "0000000f 0000001d 80 0000 00000000",
    ),
    // suspended once more and resumed once, the thread is suspended by the event still
    (
        "0000000b 0000001e 00 01 08",
        "0000000b 0000001e 80 0000",
        "0000000b 0000001e 80 0000",
    ),
    (
        "0000000b 0000001f 00 01 09",
        "0000000b 0000001f 80 0000",
        "0000000b 0000001f 80 0000",
    ),
    (
        "0000002b 00000020 00 03 03 000000000000000a 0000000000000001 0000000000000015 00000000 00000000",
        "0000000b 00000020 80 0063",
        "00000019 00000020 80 0000 49 00000007 4c 0000000000000000",
    ),
    // resumed, and suspended by no event
    (
        "0000000b 00000021 00 01 09",
        "0000000b 00000021 80 0000",
        "0000000b 00000021 80 0000",
    ),
    (
        "0000000b 00000022 00 01 08",
        "0000000b 00000022 80 0000",
        "0000000b 00000022 80 0000",
    ),
    (
        "0000002b 00000023 00 03 03 000000000000000a 0000000000000001 0000000000000015 00000000 00000000",
        "0000000b 00000023 80 0063",
        "0000000b 00000023 80 000d",
    ),
];

/// Of machine `STRINGS`: VirtualMachine.CreateString, and what is asked of the strings that are made.
static STRING_ROWS: [Row; 9] = [
    (
        "00000011 00000010 00 01 0b 00000002 6869",
        "0000000b 00000010 80 0063",
        "00000013 00000010 80 0000 0000000000000005",
    ),
    (
        "0000000f 00000011 00 01 0b 00000000",
        "0000000b 00000011 80 0063",
        "00000013 00000011 80 0000 0000000000000006",
    ),
    // its data leave a byte over
    (
        "00000012 00000012 00 01 0b 00000002 686900",
        "0000000b 00000012 80 0063",
        "0000000b 00000012 80 0067",
    ),
    // StringReference.Value of both, of that of the script, and of one that was not made
    (
        "00000013 00000013 00 0a 01 0000000000000005",
        "0000000b 00000013 80 0014",
        "00000011 00000013 80 0000 00000002 6869",
    ),
    (
        "00000013 00000014 00 0a 01 0000000000000006",
        "0000000b 00000014 80 0014",
        "0000000f 00000014 80 0000 00000000",
    ),
    (
        "00000013 00000015 00 0a 01 0000000000000003",
        "00000012 00000015 80 0000 00000003 6f6c64",
        "00000012 00000015 80 0000 00000003 6f6c64",
    ),
    (
        "00000013 00000016 00 0a 01 0000000000000007",
        "0000000b 00000016 80 0014",
        "0000000b 00000016 80 0014",
    ),
    // ObjectReference.ReferenceType and IsCollected
    (
        "00000013 00000017 00 09 01 0000000000000005",
        "0000000b 00000017 80 0014",
        "00000014 00000017 80 0000 01 0000000000000009",
    ),
    (
        "00000013 00000018 00 09 09 0000000000000005",
        "0000000b 00000018 80 0014",
        "0000000c 00000018 80 0000 00",
    ),
];

/// Of machine `MIRRORS`, which has no class of strings.
static NO_STRING: [Row; 1] = [(
    "00000011 00000010 00 01 0b 00000002 6869",
    "0000000b 00000010 80 0063",
    "0000000b 00000010 80 0063",
)];

/// Behind 1,024 strings there is no memory for another.
static NO_MORE: [Row; 1] = [(
    "00000011 00000011 00 01 0b 00000002 6869",
    "0000000b 00000011 80 0063",
    "0000000b 00000011 80 006e",
)];

/// A closed target over this script in this profile.
fn target_in(rt: &impl Abort, alloc: Global, script: &str, profile: Profile) -> Box<Target> {
    let options = TargetOptions::new(false, 65535).expect(rt, "the count limit is taken");
    let limits = Limits::standard();
    let machine = ScriptMachine::read_as(alloc, profile, script, &limits).expect(
        rt,
        "the script is read",
    );
    let target = Target::new(alloc, machine, options.with_profile(profile)).expect(rt, "memory");
    Box::new(alloc, target).expect(rt, "memory")
}

/// Each command is answered as its row says of this profile.
fn answers_rows(
    rt: &impl Abort,
    alloc: Global,
    target: &mut Target,
    profile: Profile,
    rows: &[Row],
) {
    for (command, standard, jdi) in rows {
        target.feed(&bytes(alloc, command).expect(rt, "memory"));
        if target.turn() == Ok(Turn::Nothing) {
            panic!(rt; "a command");
        }
        let wanted = match profile {
            Profile::Standard => *standard,
            Profile::Jdi => *jdi,
        };
        let is_sent = sends(rt, alloc, target, wanted);
        expect_same_for(rt, &is_sent, &true, command);
    }
}

/// In this profile each command is answered as its row says.
fn answers(rt: &impl Abort, alloc: Global, script: &str, profile: Profile, rows: &[Row]) {
    let mut target = target_in(rt, alloc, script, profile);
    greet(rt, alloc, &mut target);
    answers_rows(rt, alloc, &mut target, profile, rows);
}

/// A breakpoint with policy EVENT_THREAD, and its reply.
static BREAKPOINT: [Row; 1] = [(
    "0000002b 00000001 00 0f 01 02 01 00000001 07 01 000000000000000a 0000000000000014 0000000000000003",
    "0000000f 00000001 80 0000 00000001",
    "0000000f 00000001 80 0000 00000001",
)];

/// The event at the breakpoint.
const AT_BREAKPOINT: &str =
    "00000036 00000002 00 40 64 01 00000001 02 00000001 0000000000000001 01 000000000000000a 0000000000000014 0000000000000003";

/// The same where an event stopped thread 1.
fn answers_stopped(rt: &impl Abort, alloc: Global, profile: Profile) {
    let mut target = target_in(rt, alloc, INVOKED, profile);
    greet(rt, alloc, &mut target);
    answers_rows(rt, alloc, &mut target, profile, &BREAKPOINT);
    for _ in 0..2u32 {
        if target.step(ObjectId(1)) == Ok(Stepped::Ended) {
            panic!(rt; "a thread that goes on");
        }
    }
    let is_sent = sends(rt, alloc, &mut target, AT_BREAKPOINT);
    expect_same_for(rt, &is_sent, &true, &AT_BREAKPOINT);
    answers_rows(rt, alloc, &mut target, profile, &INVOKED_ROWS);
}

#[test]
fn profiles_answer_as_their_rows_say(rt: HostRuntime) {
    answers(&rt, rt.alloc(), MIRRORS, Profile::Standard, &ROWS);
    answers(&rt, rt.alloc(), MIRRORS, Profile::Jdi, &ROWS);
    answers(&rt, rt.alloc(), NARROW, Profile::Standard, &NARROW_ROWS);
    answers(&rt, rt.alloc(), NARROW, Profile::Jdi, &NARROW_ROWS);
}

#[test]
fn invocations_are_answered_as_their_rows_say(rt: HostRuntime) {
    answers_stopped(&rt, rt.alloc(), Profile::Standard);
    answers_stopped(&rt, rt.alloc(), Profile::Jdi);
}

/// So many strings are made, each answered with an id.
fn makes(rt: &impl Abort, alloc: Global, target: &mut Target, count: u32) {
    let command = bytes(alloc, NO_STRING[0].0).expect(rt, "memory");
    let mut reply = [0; 64];
    for _ in 0..count {
        target.feed(&command);
        if target.turn() == Ok(Turn::Nothing) {
            panic!(rt; "a command");
        }
        if target.take(&mut reply) != 19 {
            panic!(rt; "an id");
        }
    }
}

#[test]
fn strings_are_made_as_their_rows_say(rt: HostRuntime) {
    answers(&rt, rt.alloc(), STRINGS, Profile::Standard, &STRING_ROWS);
    answers(&rt, rt.alloc(), STRINGS, Profile::Jdi, &STRING_ROWS);
    answers(&rt, rt.alloc(), MIRRORS, Profile::Jdi, &NO_STRING);
    let mut target = target_in(&rt, rt.alloc(), STRINGS, Profile::Jdi);
    greet(&rt, rt.alloc(), &mut target);
    makes(&rt, rt.alloc(), &mut target, 1_024);
    answers_rows(&rt, rt.alloc(), &mut target, Profile::Jdi, &NO_MORE);
}
