//! The module commands, byte for byte.
use crate::targets::sessions::{Act, goes_as_told};
use test_parts::MACHINE_A;

/// Machine A with a module named `app`, and its class in it.
const WITH_A_MODULE: &str = "{\"name\":\"A\",\"sizes\":[8,8,8,8,8],
\"groups\":[{\"id\":5,\"name\":\"main\",\"parent\":0}],
\"classes\":[{\"id\":10,\"tag\":1,\"signature\":\"LMain;\",\"modifiers\":1,
 \"super\":0,\"interfaces\":[],\"source\":\"Main.java\",\"fields\":[],
 \"methods\":[{\"id\":20,\"name\":\"run\",\"signature\":\"()V\",\"modifiers\":1,
  \"args\":0,\"last\":9,\"lines\":[[0,1],[3,2],[4,3]],\"slots\":[]}],\"module\":6}],
\"objects\":[],
\"threads\":[{\"id\":1,\"name\":\"main\",\"group\":5,\"steps\":[
 [\"call\",30,10,20,0,[]],[\"go\",3],[\"go\",4],[\"go\",3],[\"go\",4],
 [\"go\",3],[\"return\",[\"V\",0]]]},
 {\"id\":2,\"name\":\"work\",\"group\":5,\"steps\":[]}],
\"modules\":[{\"id\":6,\"name\":\"app\"}]}";

/// AllModules, ReferenceType.Module, and Name of a module and of none; then ClassLoader of both, Name of 0, and data that don't read.
static MODULE_COMMANDS: [Act; 9] = [
    Act::Says(
        "0000000b 00000002 00 01 16",
        "00000017 00000002 80 0000 00000001 0000000000000006",
    ),
    Act::Says(
        "00000013 00000003 00 02 13 000000000000000a",
        "00000013 00000003 80 0000 0000000000000006",
    ),
    Act::Says(
        "00000013 00000004 00 12 01 0000000000000006",
        "00000012 00000004 80 0000 00000003 617070",
    ),
    Act::Says(
        "00000013 00000005 00 12 01 0000000000000007",
        "0000000b 00000005 80 002a",
    ),
    Act::Says(
        "00000013 00000006 00 12 02 0000000000000006",
        "00000013 00000006 80 0000 0000000000000000",
    ),
    Act::Says(
        "00000013 00000007 00 12 02 0000000000000007",
        "0000000b 00000007 80 002a",
    ),
    Act::Says(
        "00000013 00000008 00 12 01 0000000000000000",
        "0000000b 00000008 80 002a",
    ),
    Act::Says(
        "00000013 00000009 00 02 13 000000000000000b",
        "0000000b 00000009 80 0015",
    ),
    Act::Says("0000000c 0000000a 00 01 16 00", "0000000b 0000000a 80 0067"),
];

/// A script that says nothing of modules has none, and its class is in none.
static COMMANDS_WITHOUT_MODULES: [Act; 3] = [
    Act::Says(
        "0000000b 00000002 00 01 16",
        "0000000f 00000002 80 0000 00000000",
    ),
    Act::Says(
        "00000013 00000003 00 02 13 000000000000000a",
        "00000013 00000003 80 0000 0000000000000000",
    ),
    Act::Says(
        "00000013 00000004 00 12 01 0000000000000006",
        "0000000b 00000004 80 002a",
    ),
];

/// Each session: what it shows, the script of its machine, the count limit, and its acts.
fn sessions() -> [(&'static str, &'static str, u32, &'static [Act]); 2] {
    [
        ("module commands", WITH_A_MODULE, 65535, &MODULE_COMMANDS),
        (
            "commands without modules",
            MACHINE_A,
            65535,
            &COMMANDS_WITHOUT_MODULES,
        ),
    ]
}

#[test]
fn each_session_goes_as_told(rt: HostRuntime) {
    for (name, script, count_limit, acts) in sessions() {
        goes_as_told(&rt, rt.alloc(), name, script, count_limit, acts);
    }
}
