//! What machines of scripts answer.
use crate::machines::machine_tests::{Act, OBJECTS, goes_as_told};
use test_parts::commands;

/// Class 12 has the signature of class 11, and is not prepared at the beginning. Ids have one byte.
const CLASSES: &str = "{\"name\":\"small\",\"sizes\":[1,1,1,1,1],
\"groups\":[{\"id\":5,\"name\":\"main\",\"parent\":0},{\"id\":6,\"name\":\"pool\",\"parent\":5},
 {\"id\":7,\"name\":\"system\",\"parent\":0}],
\"classes\":[{\"id\":10,\"tag\":2,\"signature\":\"LJob;\",\"modifiers\":1537,
 \"super\":0,\"interfaces\":[],\"source\":null,\"fields\":[],
 \"methods\":[{\"id\":20,\"name\":\"act\",\"signature\":\"(I)V\",\"modifiers\":1025,
  \"args\":2,\"last\":0,\"lines\":[],\"slots\":[]}]},
 {\"id\":11,\"tag\":1,\"signature\":\"LMain;\",\"modifiers\":1,
 \"super\":0,\"interfaces\":[10],\"source\":\"Main.java\",
 \"fields\":[{\"id\":40,\"name\":\"count\",\"signature\":\"I\",\"modifiers\":8,\"value\":[\"I\",7]},
  {\"id\":41,\"name\":\"next\",\"signature\":\"LMain;\",\"modifiers\":0,\"value\":null},
  {\"id\":42,\"name\":\"done\",\"signature\":\"Z\",\"modifiers\":9,\"value\":[\"Z\",1]}],
 \"methods\":[{\"id\":21,\"name\":\"run\",\"signature\":\"()V\",\"modifiers\":1,
  \"args\":1,\"last\":9,\"lines\":[[0,5],[3,6]],
  \"slots\":[{\"from\":2,\"name\":\"this\",\"signature\":\"LMain;\",\"length\":8,\"slot\":0}]}]},
 {\"id\":12,\"tag\":1,\"signature\":\"LMain;\",\"modifiers\":0,
 \"super\":11,\"interfaces\":[],\"source\":null,\"fields\":[],\"methods\":[]}],
\"objects\":[],
\"threads\":[{\"id\":1,\"name\":\"main\",\"group\":5,\"steps\":[[\"prepare\",12]]}]}";

static THREADS: [Act; 19] = [
    Act::Goes(1),
    Act::Goes(1),
    Act::Goes(1),
    Act::Ends(2),
    Act::Answers(commands::THREAD_NAME, "01", "\"first\""),
    Act::Answers(commands::THREAD_GROUP, "01", "#5"),
    Act::Answers(commands::FRAME_COUNT, "01", "2"),
    Act::Answers(commands::FRAME_COUNT, "03", "error 20"),
    Act::Answers(
        commands::FRAMES,
        "01 00000000 ffffffff",
        "[(#31, 1:#10:#20:3), (#30, 1:#10:#20:0)]",
    ),
    Act::Answers(
        commands::FRAMES,
        "01 00000000 00000002",
        "[(#31, 1:#10:#20:3), (#30, 1:#10:#20:0)]",
    ),
    Act::Answers(
        commands::FRAMES,
        "01 00000001 00000001",
        "[(#30, 1:#10:#20:0)]",
    ),
    Act::Answers(commands::FRAMES, "01 00000002 ffffffff", "[]"),
    Act::Answers(commands::FRAMES, "01 00000002 00000000", "[]"),
    Act::Answers(commands::FRAMES, "01 00000003 00000000", "error 503"),
    Act::Answers(commands::FRAMES, "01 ffffffff 00000001", "error 503"),
    Act::Answers(commands::FRAMES, "01 00000001 00000002", "error 504"),
    Act::Answers(commands::FRAMES, "01 00000000 fffffffe", "error 504"),
    Act::AnswersAs(
        commands::FRAMES,
        "01 00000000 00000001",
        commands::FRAME_COUNT,
        "error 103",
    ),
    Act::AnswersAs(
        commands::FRAME_COUNT,
        "01",
        commands::OWNED_MONITORS,
        "error 99",
    ),
];

static FRAMES: [Act; 16] = [
    Act::Goes(1),
    Act::Goes(1),
    Act::Goes(1),
    Act::Ends(2),
    Act::Answers(commands::GET_SLOTS, "01 1f 00000001 00000000 49", "[I:7]"),
    Act::Answers(
        commands::GET_SLOTS,
        "01 1f 00000001 00000001 4a",
        "error 35",
    ),
    Act::Answers(
        commands::GET_SLOTS,
        "01 1f 00000001 00000000 4a",
        "error 34",
    ),
    Act::Answers(
        commands::GET_SLOTS,
        "01 1f 00000001 00000000 56",
        "error 34",
    ),
    Act::Answers(
        commands::GET_SLOTS,
        "01 1f 00000001 00000000 01",
        "error 34",
    ),
    Act::Answers(commands::THIS_OBJECT, "01 1f", "s#51"),
    Act::Answers(commands::THIS_OBJECT, "01 1e", "L#0"),
    Act::Answers(commands::THIS_OBJECT, "01 20", "error 30"),
    // the test of a breakpoint's location: the last index, one more, the null location, a class that there is not
    Act::Answers(
        commands::SET_REQUEST,
        "02 00 00000001 07 01 0a 14 0000000000000009",
        "0",
    ),
    Act::Answers(
        commands::SET_REQUEST,
        "02 00 00000001 07 01 0a 14 000000000000000a",
        "error 24",
    ),
    Act::Answers(
        commands::SET_REQUEST,
        "02 00 00000001 07 00 00 00 0000000000000000",
        "error 24",
    ),
    Act::Answers(
        commands::SET_REQUEST,
        "02 00 00000001 07 01 0b 14 0000000000000000",
        "error 21",
    ),
];

/// Of objects and strings.
static ANSWERS_OF_OBJECTS: [Act; 12] = [
    Act::Goes(1),
    Act::Goes(1),
    Act::Goes(1),
    Act::Ends(2),
    Act::Answers(commands::OBJECT_TYPE, "32", "1 #10"),
    Act::Answers(commands::GET_FIELDS, "32 00000001 28", "[I:7]"),
    Act::Answers(commands::GET_FIELDS, "32 00000001 29", "error 25"),
    Act::Answers(commands::DISABLE_COLLECTION, "32", ""),
    Act::Answers(commands::ENABLE_COLLECTION, "01", "error 20"),
    Act::Answers(commands::IS_COLLECTED, "32", "false"),
    Act::Answers(commands::STRING_VALUE, "33", "\"hello\""),
    Act::Answers(commands::STRING_VALUE, "32", "error 506"),
];

/// Of arrays and of groups.
static ANSWERS_OF_GROUPS: [Act; 16] = [
    Act::Goes(1),
    Act::Goes(1),
    Act::Goes(1),
    Act::Ends(2),
    Act::Answers(commands::ARRAY_LENGTH, "34", "3"),
    Act::Answers(commands::ARRAY_LENGTH, "32", "error 508"),
    Act::Answers(
        commands::GET_ELEMENTS,
        "34 00000000 00000003",
        "L[L#50, s#51, L#0]",
    ),
    Act::Answers(commands::GET_ELEMENTS, "34 00000003 00000000", "L[]"),
    Act::Answers(commands::GET_ELEMENTS, "34 00000004 00000000", "error 503"),
    Act::Answers(commands::GET_ELEMENTS, "34 ffffffff 00000001", "error 503"),
    Act::Answers(commands::GET_ELEMENTS, "34 00000001 00000003", "error 504"),
    Act::Answers(commands::GET_ELEMENTS, "34 00000000 ffffffff", "error 504"),
    Act::Answers(commands::GROUP_NAME, "06", "\"pool\""),
    Act::Answers(commands::GROUP_PARENT, "06", "#5"),
    Act::Answers(commands::GROUP_PARENT, "01", "error 11"),
    Act::Answers(commands::GROUP_CHILDREN, "05", "[#1] [#6]"),
];

static WHOLE: [Act; 14] = [
    Act::Answers(
        commands::VERSION,
        "",
        "\"scripted machine\" 11 0 \"11\" \"small\"",
    ),
    Act::Answers(
        commands::CLASSES_BY_SIGNATURE,
        "00000006 4c4d61696e3b",
        "[(1, #11, 3), (1, #12, 0)]",
    ),
    Act::Answers(
        commands::CLASSES_BY_SIGNATURE,
        "00000005 4c4a6f623b",
        "[(2, #10, 3)]",
    ),
    Act::Answers(
        commands::CLASSES_BY_SIGNATURE,
        "00000007 4c4f746865723b",
        "[]",
    ),
    Act::Answers(
        commands::ALL_CLASSES,
        "",
        "[(2, #10, \"LJob;\", 3), (1, #11, \"LMain;\", 3), (1, #12, \"LMain;\", 0)]",
    ),
    Act::Answers(commands::TOP_LEVEL_THREAD_GROUPS, "", "[#5, #7]"),
    Act::Answers(
        commands::CAPABILITIES,
        "",
        "false false false false false false false",
    ),
    Act::Answers(commands::DISPOSE_OBJECTS, "00000000", ""),
    Act::Answers(
        commands::ALL_CLASSES_WITH_GENERIC,
        "",
        "[(2, #10, \"LJob;\", \"\", 3), (1, #11, \"LMain;\", \"\", 3), (1, #12, \"LMain;\", \"\", 0)]",
    ),
    Act::AnswersAs(
        commands::VERSION,
        "",
        commands::CLASSES_BY_SIGNATURE,
        "error 103",
    ),
    Act::AnswersAs(
        commands::CLASSES_BY_SIGNATURE,
        "00000005 4c4a6f623b",
        commands::VERSION,
        "error 103",
    ),
    Act::AnswersAs(commands::VERSION, "", commands::ALL_THREADS, "error 99"),
    Act::AnswersAs(
        commands::VERSION,
        "",
        commands::DISPOSE_OBJECTS,
        "error 103",
    ),
    // a set that the machine is not asked about
    Act::AnswersAs(commands::VERSION, "", commands::NEW_ARRAY, "error 99"),
];

static ANSWERS_OF_CLASSES: [Act; 27] = [
    Act::Answers(commands::SIGNATURE, "0b", "\"LMain;\""),
    Act::Answers(commands::SIGNATURE, "0d", "error 21"),
    Act::Answers(commands::CLASS_LOADER, "0b", "#0"),
    Act::Answers(commands::MODIFIERS, "0a", "1537"),
    Act::Answers(
        commands::FIELDS,
        "0b",
        "[(#40, \"count\", \"I\", 8), (#41, \"next\", \"LMain;\", 0), (#42, \"done\", \"Z\", 9)]",
    ),
    Act::Answers(commands::FIELDS, "0c", "error 22"),
    Act::Answers(commands::FIELDS, "0d", "error 21"),
    Act::Answers(commands::METHODS, "0b", "[(#21, \"run\", \"()V\", 1)]"),
    Act::Answers(commands::METHODS, "0c", "error 22"),
    Act::Answers(commands::SOURCE_FILE, "0b", "\"Main.java\""),
    Act::Answers(commands::SOURCE_FILE, "0a", "error 101"),
    Act::Answers(commands::CLASS_STATUS, "0b", "3"),
    Act::Answers(commands::CLASS_STATUS, "0c", "0"),
    Act::Answers(commands::INTERFACES, "0b", "[#10]"),
    Act::Answers(commands::INTERFACES, "0c", "error 22"),
    Act::Answers(commands::SIGNATURE_WITH_GENERIC, "0b", "\"LMain;\" \"\""),
    Act::Answers(
        commands::FIELDS_WITH_GENERIC,
        "0b",
        "[(#40, \"count\", \"I\", \"\", 8), (#41, \"next\", \"LMain;\", \"\", 0), (#42, \"done\", \"Z\", \"\", 9)]",
    ),
    Act::Answers(commands::FIELDS_WITH_GENERIC, "0c", "error 22"),
    Act::Answers(
        commands::METHODS_WITH_GENERIC,
        "0a",
        "[(#20, \"act\", \"(I)V\", \"\", 1025)]",
    ),
    Act::Answers(commands::METHODS_WITH_GENERIC, "0c", "error 22"),
    Act::Answers(commands::SUPERCLASS, "0b", "#0"),
    Act::Answers(commands::SUPERCLASS, "0c", "#11"),
    Act::Answers(commands::SUPERCLASS, "0d", "error 21"),
    Act::AnswersAs(commands::VERSION, "", commands::SIGNATURE, "error 103"),
    Act::AnswersAs(
        commands::SIGNATURE,
        "0b",
        commands::GET_STATICS,
        "error 103",
    ),
    Act::AnswersAs(
        commands::SIGNATURE,
        "0b",
        commands::NESTED_TYPES,
        "error 99",
    ),
    Act::AnswersAs(
        commands::SUPERCLASS,
        "0b",
        commands::SET_STATICS,
        "error 99",
    ),
];

static STATIC_FIELDS: [Act; 9] = [
    Act::Answers(commands::GET_STATICS, "0b 00000002 2a 28", "[Z:1, I:7]"),
    Act::Answers(commands::GET_STATICS, "0b 00000002 28 28", "[I:7, I:7]"),
    Act::Answers(commands::GET_STATICS, "0b 00000002 28 29", "error 25"),
    Act::Answers(commands::GET_STATICS, "0b 00000002 2b 28", "error 25"),
    Act::Answers(commands::GET_STATICS, "0a 00000002 28 28", "error 25"),
    Act::Answers(commands::GET_STATICS, "0c 00000002 28 28", "error 22"),
    Act::Answers(commands::GET_STATICS, "0d 00000002 28 28", "error 21"),
    Act::AnswersAs(
        commands::GET_STATICS,
        "0b 00000001 28",
        commands::CLASS_STATUS,
        "error 103",
    ),
    Act::AnswersAs(
        commands::GET_STATICS,
        "0d 00000001 28",
        commands::CLASS_STATUS,
        "error 21",
    ),
];

static METHODS: [Act; 11] = [
    Act::Answers(commands::LINE_TABLE, "0b 15", "0 9 [(0, 5), (3, 6)]"),
    Act::Answers(commands::LINE_TABLE, "0a 14", "error 101"),
    Act::Answers(commands::LINE_TABLE, "0b 14", "error 23"),
    Act::Answers(commands::LINE_TABLE, "0d 15", "error 21"),
    Act::Answers(
        commands::VARIABLE_TABLE,
        "0b 15",
        "1 [(2, \"this\", \"LMain;\", 8, 0)]",
    ),
    Act::Answers(commands::VARIABLE_TABLE, "0a 14", "2 []"),
    Act::Answers(commands::IS_OBSOLETE, "0b 15", "false"),
    Act::Answers(commands::IS_OBSOLETE, "0c 15", "error 23"),
    Act::Answers(
        commands::VARIABLE_TABLE_WITH_GENERIC,
        "0b 15",
        "1 [(2, \"this\", \"LMain;\", \"\", 8, 0)]",
    ),
    Act::AnswersAs(commands::SIGNATURE, "0b", commands::LINE_TABLE, "error 103"),
    Act::AnswersAs(
        commands::LINE_TABLE,
        "0b 15",
        commands::BYTECODES,
        "error 99",
    ),
];

/// Each session: the script of its machine, and its acts.
fn sessions() -> [(&'static str, &'static [Act]); 8] {
    [
        (OBJECTS, &THREADS),
        (OBJECTS, &FRAMES),
        (OBJECTS, &ANSWERS_OF_OBJECTS),
        (OBJECTS, &ANSWERS_OF_GROUPS),
        (CLASSES, &WHOLE),
        (CLASSES, &ANSWERS_OF_CLASSES),
        (CLASSES, &STATIC_FIELDS),
        (CLASSES, &METHODS),
    ]
}

#[test]
fn each_session_goes_as_told(rt: HostRuntime) {
    for (script, acts) in sessions() {
        goes_as_told(&rt, rt.alloc(), script, acts);
    }
}
