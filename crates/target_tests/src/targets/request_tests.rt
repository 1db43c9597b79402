//! Event requests at a target over machine scripts: which are refused, and what is sent for those that stand.
use crate::targets::sessions::{Act, HANDSHAKE, goes_as_told};
use jdwp_target::Stepped;
use test_parts::{ALL_KINDS, MACHINE_A};

/// A machine whose thread 1 calls a second method from line 1 of the first, moves in it, returns and goes on.
const A_CALL: &str = "{\"name\":\"call\",\"sizes\":[8,8,8,8,8],
\"groups\":[{\"id\":5,\"name\":\"main\",\"parent\":0}],
\"classes\":[{\"id\":10,\"tag\":1,\"signature\":\"LMain;\",\"modifiers\":1,
 \"super\":0,\"interfaces\":[],\"source\":null,\"fields\":[],
 \"methods\":[{\"id\":20,\"name\":\"run\",\"signature\":\"()V\",\"modifiers\":1,
  \"args\":0,\"last\":9,\"lines\":[[0,1],[3,2],[4,3]],\"slots\":[]},
  {\"id\":21,\"name\":\"help\",\"signature\":\"()V\",\"modifiers\":1,
  \"args\":0,\"last\":9,\"lines\":[[0,7],[5,8]],\"slots\":[]}]}],
\"objects\":[],
\"threads\":[{\"id\":1,\"name\":\"main\",\"group\":5,\"steps\":[
 [\"call\",30,10,20,0,[]],[\"call\",31,10,21,0,[]],[\"go\",5],[\"go\",6],[\"return\",[\"V\",0]],
 [\"go\",1],[\"go\",3],[\"go\",4]]},
 {\"id\":2,\"name\":\"work\",\"group\":5,\"steps\":[]}]}";

/// A kind that there is not is 102, one that no request may have 99, and a policy that there is not 103, in this order.
static KINDS_AND_POLICIES_THAT_ARE_REFUSED: [Act; 21] = [
    Act::Refuses("00 00 00000000", 102),
    Act::Refuses("0b 00 00000000", 102),
    Act::Refuses("7f 03 00000000", 102),
    Act::Refuses("03 00 00000000", 99),
    Act::Refuses("05 00 00000000", 99),
    Act::Refuses("09 00 00000000", 99),
    Act::Refuses("0a 00 00000000", 99),
    Act::Refuses("14 00 00000000", 99),
    Act::Refuses("15 00 00000000", 99),
    Act::Refuses("1e 00 00000000", 99),
    Act::Refuses("2b 00 00000000", 99),
    Act::Refuses("2c 00 00000000", 99),
    Act::Refuses("2d 00 00000000", 99),
    Act::Refuses("2e 00 00000000", 99),
    Act::Refuses("5a 00 00000000", 99),
    Act::Refuses("63 00 00000000", 99),
    Act::Refuses("63 03 00000000", 99),
    Act::Refuses("28 03 00000000", 103),
    Act::Refuses("28 ff 00000000", 103),
    Act::Refuses("28 03 00000001 02 00000001", 103),
    Act::Requests(0),
];

static MODIFIERS_THAT_ARE_REFUSED: [Act; 19] = [
    Act::Refuses("28 00 00000001 02 00000001", 99),
    Act::Refuses("28 00 00000001 09 000000000000000a 0000000000000001", 99),
    Act::Refuses("28 00 00000001 0b 0000000000000001", 99),
    Act::Refuses("28 00 00000001 0c 00000001 2a", 99),
    Act::Refuses("28 00 00000001 01 00000000", 512),
    Act::Refuses("28 00 00000001 01 ffffffff", 512),
    Act::Refuses("28 00 00000001 03 0000000000000003", 10),
    Act::Refuses("01 00 00000001 0a 0000000000000003 00000000 00000000", 10),
    Act::Refuses(
        "02 00 00000001 07 00 0000000000000000 0000000000000000 0000000000000000",
        24,
    ),
    Act::Refuses("28 00 00000001 04 000000000000000b", 21),
    Act::Refuses(
        "02 00 00000001 07 01 000000000000000b 0000000000000014 0000000000000003",
        21,
    ),
    Act::Refuses("04 00 00000001 08 000000000000000b 01 01", 21),
    Act::Refuses(
        "02 00 00000001 07 01 000000000000000a 0000000000000015 0000000000000003",
        23,
    ),
    Act::Refuses(
        "02 00 00000001 07 01 000000000000000a 0000000000000014 000000000000000a",
        24,
    ),
    Act::Refuses("02 00 00000001 0a 0000000000000001 00000000 00000000", 103),
    Act::Refuses("01 00 00000001 0a 0000000000000001 00000002 00000000", 103),
    Act::Refuses("01 00 00000001 0a 0000000000000001 00000000 00000003", 103),
    Act::Refuses("01 00 00000001 0a 0000000000000001 ffffffff 00000000", 103),
    Act::Requests(0),
];

static MODIFIERS_THAT_A_KIND_DOES_NOT_ALLOW: [Act; 21] = [
    Act::Refuses("06 00 00000001 04 000000000000000a", 103),
    Act::Refuses("06 00 00000001 05 00000004 4d61696e", 103),
    Act::Refuses("06 00 00000001 06 00000004 4d61696e", 103),
    Act::Refuses(
        "06 00 00000001 07 01 000000000000000a 0000000000000014 0000000000000003",
        103,
    ),
    Act::Refuses("07 00 00000001 04 000000000000000a", 103),
    Act::Refuses("07 00 00000001 05 00000004 4d61696e", 103),
    Act::Refuses("07 00 00000001 06 00000004 4d61696e", 103),
    Act::Refuses(
        "07 00 00000001 07 01 000000000000000a 0000000000000014 0000000000000003",
        103,
    ),
    Act::Refuses(
        "08 00 00000001 07 01 000000000000000a 0000000000000014 0000000000000003",
        103,
    ),
    Act::Refuses(
        "28 00 00000001 07 01 000000000000000a 0000000000000014 0000000000000003",
        103,
    ),
    Act::Refuses(
        "29 00 00000001 07 01 000000000000000a 0000000000000014 0000000000000003",
        103,
    ),
    Act::Refuses(
        "2a 00 00000001 07 01 000000000000000a 0000000000000014 0000000000000003",
        103,
    ),
    Act::Refuses("01 00 00000001 08 0000000000000000 01 01", 103),
    Act::Refuses("02 00 00000001 08 0000000000000000 01 01", 103),
    Act::Refuses("06 00 00000001 08 0000000000000000 01 01", 103),
    Act::Refuses("07 00 00000001 08 0000000000000000 01 01", 103),
    Act::Refuses("08 00 00000001 08 0000000000000000 01 01", 103),
    Act::Refuses("28 00 00000001 08 0000000000000000 01 01", 103),
    Act::Refuses("29 00 00000001 08 0000000000000000 01 01", 103),
    Act::Refuses("2a 00 00000001 08 0000000000000000 01 01", 103),
    Act::Requests(0),
];

/// A BREAKPOINT has a LocationOnly, and a SINGLE_STEP exactly one Step.
static WHAT_A_KIND_MUST_HAVE: [Act; 6] = [
    Act::Refuses("02 00 00000000", 103),
    Act::Refuses("02 00 00000002 01 00000001 03 0000000000000001", 103),
    Act::Refuses("01 00 00000000", 103),
    Act::Refuses("01 00 00000001 03 0000000000000001", 103),
    Act::Refuses(
        "01 00 00000002 0a 0000000000000001 00000000 00000000 0a 0000000000000001 00000000 00000000",
        103,
    ),
    Act::Requests(0),
];

/// The modifiers are tested in the order sent, each in the order of its rules, and what the kind must have comes last.
static THE_FIRST_REFUSAL_IS_TOLD: [Act; 14] = [
    Act::Refuses("02 00 00000002 02 00000001 01 00000000", 99),
    Act::Refuses("02 00 00000002 01 00000000 02 00000001", 512),
    Act::Refuses(
        "02 00 00000002 03 0000000000000003 07 00 0000000000000000 0000000000000000 0000000000000000",
        10,
    ),
    Act::Refuses(
        "02 00 00000002 07 00 0000000000000000 0000000000000000 0000000000000000 03 0000000000000003",
        24,
    ),
    Act::Refuses(
        "02 00 00000001 07 01 000000000000000b 0000000000000015 000000000000000a",
        21,
    ),
    Act::Refuses(
        "02 00 00000001 07 01 000000000000000a 0000000000000015 000000000000000a",
        23,
    ),
    Act::Refuses("06 00 00000001 04 000000000000000b", 21),
    Act::Refuses(
        "06 00 00000001 07 00 0000000000000000 0000000000000000 0000000000000000",
        24,
    ),
    Act::Refuses("02 00 00000001 08 000000000000000b 01 01", 21),
    Act::Refuses("02 00 00000001 0a 0000000000000003 00000002 00000000", 10),
    Act::Refuses("02 00 00000001 01 00000000", 512),
    Act::Refuses(
        "01 00 00000002 0a 0000000000000001 00000002 00000000 0a 0000000000000003 00000000 00000000",
        103,
    ),
    Act::Refuses(
        "02 00 00000002 07 01 000000000000000a 0000000000000014 0000000000000003 01 00000000",
        512,
    ),
    Act::Requests(0),
];

/// By thread, by class (also one that is reached), by patterns of the name, and by counting.
static EACH_FILTER_OF_A_METHOD_ENTRY: [Act; 14] = [
    Act::Grants("28 00 00000001 03 0000000000000001", 1),
    Act::Grants("28 00 00000001 04 000000000000000a", 2),
    Act::Grants("28 00 00000001 04 000000000000000d", 3),
    Act::Grants("28 00 00000001 04 000000000000001e", 4),
    Act::Grants("28 00 00000001 05 00000008 6170702e4d61696e", 5),
    Act::Grants("28 00 00000001 05 00000005 6170702e2a", 6),
    Act::Grants("28 00 00000001 05 00000006 2a2e4d61696e", 7),
    Act::Grants("28 00 00000001 05 00000004 4d61696e", 8),
    Act::Grants("28 00 00000001 06 00000005 6170702e2a", 9),
    Act::Grants("28 00 00000001 06 00000006 6a6176612e2a", 10),
    Act::Grants("28 00 00000001 01 00000001", 11),
    Act::Grants("28 00 00000001 01 00000002", 12),
    Act::Steps(
        1,
        1,
        Stepped::Reported,
        "00000140 00000002 00 40 64 00 00000008 28 00000001 0000000000000001 01 000000000000000a 0000000000000014 0000000000000000 28 00000002 0000000000000001 01 000000000000000a 0000000000000014 0000000000000000 28 00000003 0000000000000001 01 000000000000000a 0000000000000014 0000000000000000 28 00000005 0000000000000001 01 000000000000000a 0000000000000014 0000000000000000 28 00000006 0000000000000001 01 000000000000000a 0000000000000014 0000000000000000 28 00000007 0000000000000001 01 000000000000000a 0000000000000014 0000000000000000 28 0000000a 0000000000000001 01 000000000000000a 0000000000000014 0000000000000000 28 0000000b 0000000000000001 01 000000000000000a 0000000000000014 0000000000000000",
    ),
    Act::Requests(12),
];

static EXCEPTIONS_BY_CLASS_AND_BY_WHETHER_THEY_ARE_CAUGHT: [Act; 9] = [
    Act::Grants("04 00 00000001 08 0000000000000000 01 00", 1),
    Act::Grants("04 00 00000001 08 0000000000000000 00 01", 2),
    Act::Grants("04 00 00000001 08 000000000000001f 01 01", 3),
    Act::Grants("04 00 00000001 08 000000000000001e 01 01", 4),
    Act::Grants("04 00 00000001 08 000000000000000d 01 01", 5),
    Act::Grants("04 00 00000001 08 000000000000001e 00 00", 6),
    Act::Steps(1, 1, Stepped::Quiet, ""),
    Act::Steps(
        1,
        1,
        Stepped::Reported,
        "000000e8 00000002 00 40 64 00 00000003 04 00000001 0000000000000001 01 000000000000000a 0000000000000014 0000000000000000 4c 0000000000000028 01 000000000000000a 0000000000000014 0000000000000004 04 00000003 0000000000000001 01 000000000000000a 0000000000000014 0000000000000000 4c 0000000000000028 01 000000000000000a 0000000000000014 0000000000000004 04 00000004 0000000000000001 01 000000000000000a 0000000000000014 0000000000000000 4c 0000000000000028 01 000000000000000a 0000000000000014 0000000000000004",
    ),
    Act::Steps(
        1,
        1,
        Stepped::Reported,
        "000000e8 00000003 00 40 64 00 00000003 04 00000002 0000000000000001 01 000000000000000a 0000000000000014 0000000000000000 4c 0000000000000028 00 0000000000000000 0000000000000000 0000000000000000 04 00000003 0000000000000001 01 000000000000000a 0000000000000014 0000000000000000 4c 0000000000000028 00 0000000000000000 0000000000000000 0000000000000000 04 00000004 0000000000000001 01 000000000000000a 0000000000000014 0000000000000000 4c 0000000000000028 00 0000000000000000 0000000000000000 0000000000000000",
    ),
];

/// Composites are numbered in the order sent, VM_START and VM_DEATH among them.
static EACH_KIND_IS_REPORTED_ONCE: [Act; 22] = [
    Act::Grants("28 00 00000000", 1),
    Act::Grants("04 00 00000000", 2),
    Act::Grants("08 00 00000000", 3),
    Act::Grants("06 00 00000000", 4),
    Act::Grants("29 00 00000000", 5),
    Act::Grants("2a 00 00000000", 6),
    Act::Grants("07 00 00000000", 7),
    Act::Steps(
        1,
        1,
        Stepped::Reported,
        "00000036 00000002 00 40 64 00 00000001 28 00000001 0000000000000001 01 000000000000000a 0000000000000014 0000000000000000",
    ),
    Act::Steps(
        1,
        1,
        Stepped::Reported,
        "00000058 00000003 00 40 64 00 00000001 04 00000002 0000000000000001 01 000000000000000a 0000000000000014 0000000000000000 4c 0000000000000028 01 000000000000000a 0000000000000014 0000000000000004",
    ),
    Act::Steps(
        1,
        1,
        Stepped::Reported,
        "00000058 00000004 00 40 64 00 00000001 04 00000002 0000000000000001 01 000000000000000a 0000000000000014 0000000000000000 4c 0000000000000028 00 0000000000000000 0000000000000000 0000000000000000",
    ),
    Act::Steps(
        1,
        1,
        Stepped::Reported,
        "00000034 00000005 00 40 64 00 00000001 08 00000003 0000000000000001 01 000000000000000c 00000006 4c4c6174653b 00000003",
    ),
    Act::Lives(1),
    Act::Steps(
        1,
        1,
        Stepped::Reported,
        "0000001d 00000006 00 40 64 00 00000001 06 00000004 0000000000000002",
    ),
    Act::Lives(2),
    Act::Steps(
        1,
        1,
        Stepped::Reported,
        "00000061 00000007 00 40 64 00 00000002 29 00000005 0000000000000001 01 000000000000000a 0000000000000014 0000000000000000 2a 00000006 0000000000000001 01 000000000000000a 0000000000000014 0000000000000000 49 00000005",
    ),
    Act::Steps(
        1,
        1,
        Stepped::Reported,
        "0000001d 00000008 00 40 64 00 00000001 07 00000007 0000000000000001",
    ),
    Act::Lives(2),
    Act::Steps(1, 1, Stepped::Ended, ""),
    Act::Steps(
        2,
        1,
        Stepped::Reported,
        "0000001d 00000009 00 40 64 00 00000001 07 00000007 0000000000000002",
    ),
    Act::Steps(
        2,
        1,
        Stepped::Ended,
        "00000015 0000000a 00 40 64 00 00000001 63 00000000",
    ),
    Act::Open(false),
    Act::Requests(0),
];

/// EVENT_THREAD suspends the thread that began, and not the one that began it.
static A_NEW_THREAD_IS_SUSPENDED_BY_ITS_START: [Act; 5] = [
    Act::Grants("06 01 00000000", 1),
    Act::Steps(1, 4, Stepped::Quiet, ""),
    Act::Counts(Some(0), None),
    Act::Steps(
        1,
        1,
        Stepped::Reported,
        "0000001d 00000002 00 40 64 01 00000001 06 00000001 0000000000000002",
    ),
    Act::Counts(Some(0), Some(1)),
];

/// The new thread, too.
static ALL_ARE_SUSPENDED_BY_A_START: [Act; 6] = [
    Act::Grants("06 02 00000000", 1),
    Act::Steps(1, 4, Stepped::Quiet, ""),
    Act::Steps(
        1,
        1,
        Stepped::Reported,
        "0000001d 00000002 00 40 64 02 00000001 06 00000001 0000000000000002",
    ),
    Act::Counts(Some(1), Some(1)),
    Act::Steps(1, 1, Stepped::Frozen, ""),
    Act::Steps(2, 1, Stepped::Frozen, ""),
];

/// Thread 1 goes to the indexes 3, 4, 3, 4 and 3. A Count is reached where the kind and the modifiers before it pass, and each counts for itself.
static A_COUNT_IS_COUNTED_THOUGH_A_LATER_MODIFIER_FAILS: [Act; 14] = [
    Act::Grants(
        "02 00 00000002 01 00000002 07 01 000000000000000a 0000000000000014 0000000000000003",
        1,
    ),
    Act::Grants(
        "02 00 00000002 01 00000003 07 01 000000000000000a 0000000000000014 0000000000000003",
        2,
    ),
    Act::Grants(
        "02 00 00000003 07 01 000000000000000a 0000000000000014 0000000000000003 01 00000003 01 00000001",
        3,
    ),
    Act::Grants(
        "02 00 00000002 07 01 000000000000000a 0000000000000014 0000000000000003 01 00000003",
        4,
    ),
    Act::Grants(
        "02 00 00000003 07 01 000000000000000a 0000000000000014 0000000000000003 01 00000001 01 00000003",
        5,
    ),
    Act::Grants(
        "02 00 00000003 01 00000001 01 00000001 07 01 000000000000000a 0000000000000014 0000000000000003",
        6,
    ),
    Act::Grants(
        "02 00 00000002 07 01 000000000000000a 0000000000000014 0000000000000003 03 0000000000000002",
        7,
    ),
    Act::Steps(1, 1, Stepped::Quiet, ""),
    Act::Steps(
        1,
        1,
        Stepped::Reported,
        "00000036 00000002 00 40 64 00 00000001 02 00000006 0000000000000001 01 000000000000000a 0000000000000014 0000000000000003",
    ),
    Act::Steps(1, 1, Stepped::Quiet, ""),
    Act::Steps(
        1,
        1,
        Stepped::Reported,
        "00000036 00000003 00 40 64 00 00000001 02 00000002 0000000000000001 01 000000000000000a 0000000000000014 0000000000000003",
    ),
    Act::Steps(1, 1, Stepped::Quiet, ""),
    Act::Steps(
        1,
        1,
        Stepped::Reported,
        "0000005c 00000004 00 40 64 00 00000002 02 00000003 0000000000000001 01 000000000000000a 0000000000000014 0000000000000003 02 00000004 0000000000000001 01 000000000000000a 0000000000000014 0000000000000003",
    ),
    Act::Requests(7),
];

/// Neither the call nor the way back to its line is reported; each report is where the next step begins.
static A_STEP_OVER_A_CALL: [Act; 6] = [
    Act::Steps(1, 1, Stepped::Quiet, ""),
    Act::Grants("01 00 00000001 0a 0000000000000001 00000001 00000001", 1),
    Act::Steps(1, 4, Stepped::Quiet, ""),
    Act::Steps(1, 1, Stepped::Quiet, ""),
    Act::Steps(
        1,
        1,
        Stepped::Reported,
        "00000036 00000002 00 40 64 00 00000001 01 00000001 0000000000000001 01 000000000000000a 0000000000000014 0000000000000003",
    ),
    Act::Steps(
        1,
        1,
        Stepped::Reported,
        "00000036 00000003 00 40 64 00 00000001 01 00000001 0000000000000001 01 000000000000000a 0000000000000014 0000000000000004",
    ),
];

/// The first place of a caller is reported, and then none, since it has no caller; a step by the least size reports each place.
static A_STEP_OUT_OF_A_CALL: [Act; 8] = [
    Act::Steps(1, 2, Stepped::Quiet, ""),
    Act::Grants("01 00 00000001 0a 0000000000000001 00000000 00000002", 1),
    Act::Grants("01 00 00000001 0a 0000000000000001 00000000 00000000", 2),
    Act::Steps(
        1,
        1,
        Stepped::Reported,
        "00000036 00000002 00 40 64 00 00000001 01 00000002 0000000000000001 01 000000000000000a 0000000000000015 0000000000000005",
    ),
    Act::Steps(
        1,
        1,
        Stepped::Reported,
        "00000036 00000003 00 40 64 00 00000001 01 00000002 0000000000000001 01 000000000000000a 0000000000000015 0000000000000006",
    ),
    Act::Steps(1, 1, Stepped::Quiet, ""),
    Act::Steps(
        1,
        1,
        Stepped::Reported,
        "0000005c 00000004 00 40 64 00 00000002 01 00000001 0000000000000001 01 000000000000000a 0000000000000014 0000000000000001 01 00000002 0000000000000001 01 000000000000000a 0000000000000014 0000000000000001",
    ),
    Act::Steps(
        1,
        1,
        Stepped::Reported,
        "00000036 00000005 00 40 64 00 00000001 01 00000002 0000000000000001 01 000000000000000a 0000000000000014 0000000000000003",
    ),
];

/// No id is used again, not in a later session either; a Dispose ends all requests.
static REQUESTS_ARE_CLEARED_BY_KIND_AND_ID: [Act; 18] = [
    Act::Grants(
        "02 00 00000001 07 01 000000000000000a 0000000000000014 0000000000000003",
        1,
    ),
    Act::Grants("28 00 00000000", 2),
    Act::Grants(
        "02 00 00000001 07 01 000000000000000a 0000000000000014 0000000000000003",
        3,
    ),
    Act::Says(
        "00000010 00000009 00 0f 02 28 00000001",
        "0000000b 00000009 80 0000",
    ),
    Act::Requests(3),
    Act::Says(
        "00000010 00000009 00 0f 02 02 00000002",
        "0000000b 00000009 80 0000",
    ),
    Act::Requests(3),
    Act::Says(
        "00000010 00000009 00 0f 02 02 00000001",
        "0000000b 00000009 80 0000",
    ),
    Act::Requests(2),
    Act::Says("0000000b 00000009 00 0f 03", "0000000b 00000009 80 0000"),
    Act::Requests(1),
    Act::Grants(
        "02 00 00000001 07 01 000000000000000a 0000000000000014 0000000000000003",
        4,
    ),
    Act::Says("0000000b 00000009 00 01 06", "0000000b 00000009 80 0000"),
    Act::Requests(0),
    Act::Accepts(true),
    Act::Says(HANDSHAKE, HANDSHAKE),
    Act::Grants("28 00 00000000", 5),
    Act::Steps(
        1,
        1,
        Stepped::Reported,
        "00000036 00000002 00 40 64 00 00000001 28 00000005 0000000000000001 01 000000000000000a 0000000000000014 0000000000000000",
    ),
];

/// The thread ends at its next step, though the session in which its death was reported is over; and events are held no longer.
static A_REPORTED_DEATH_OUTLASTS_A_LOSS: [Act; 15] = [
    Act::Grants("07 01 00000000", 1),
    Act::Says("0000000b 00000009 00 01 0f", "0000000b 00000009 80 0000"),
    Act::Steps(2, 1, Stepped::Frozen, ""),
    Act::Says("0000000b 00000009 00 01 10", "0000000b 00000009 80 0000"),
    Act::Steps(
        2,
        1,
        Stepped::Reported,
        "0000001d 00000002 00 40 64 01 00000001 07 00000001 0000000000000002",
    ),
    Act::Counts(Some(0), Some(1)),
    Act::Says("0000000b 00000009 00 01 0f", "0000000b 00000009 80 0000"),
    Act::Loses,
    Act::Requests(0),
    Act::Counts(Some(0), Some(0)),
    Act::Accepts(true),
    Act::Says(HANDSHAKE, HANDSHAKE),
    Act::Steps(2, 1, Stepped::Ended, ""),
    Act::Counts(Some(0), None),
    Act::Steps(1, 1, Stepped::Quiet, ""),
];

/// The 65th request is refused, and so is one that is wrong besides; a place that was cleared is free again, and no id is used twice.
static REQUESTS_UP_TO_THE_LIMIT: [Act; 10] = [
    Act::GrantsSoMany("28 00 00000000", 64),
    Act::Requests(64),
    Act::Refuses("28 00 00000000", 113),
    Act::Refuses("28 03 00000000", 103),
    Act::Refuses("28 00 00000001 01 00000000", 113),
    Act::Requests(64),
    Act::Says(
        "00000010 00000009 00 0f 02 28 00000040",
        "0000000b 00000009 80 0000",
    ),
    Act::Requests(63),
    Act::Grants("28 00 00000000", 65),
    Act::Refuses("28 00 00000000", 113),
];

/// Each session: what it shows, the script of its machine, the count limit, and its acts.
fn sessions() -> [(&'static str, &'static str, u32, &'static [Act]); 16] {
    [
        (
            "kinds and policies that are refused",
            MACHINE_A,
            65535,
            &KINDS_AND_POLICIES_THAT_ARE_REFUSED,
        ),
        (
            "modifiers that are refused",
            MACHINE_A,
            65535,
            &MODIFIERS_THAT_ARE_REFUSED,
        ),
        (
            "modifiers that a kind does not allow",
            MACHINE_A,
            65535,
            &MODIFIERS_THAT_A_KIND_DOES_NOT_ALLOW,
        ),
        (
            "what a kind must have",
            MACHINE_A,
            65535,
            &WHAT_A_KIND_MUST_HAVE,
        ),
        (
            "the first refusal is told",
            MACHINE_A,
            65535,
            &THE_FIRST_REFUSAL_IS_TOLD,
        ),
        (
            "each filter of a method entry",
            ALL_KINDS,
            65535,
            &EACH_FILTER_OF_A_METHOD_ENTRY,
        ),
        (
            "exceptions by class and by whether they are caught",
            ALL_KINDS,
            65535,
            &EXCEPTIONS_BY_CLASS_AND_BY_WHETHER_THEY_ARE_CAUGHT,
        ),
        (
            "each kind is reported once",
            ALL_KINDS,
            65535,
            &EACH_KIND_IS_REPORTED_ONCE,
        ),
        (
            "a new thread is suspended by its start",
            ALL_KINDS,
            65535,
            &A_NEW_THREAD_IS_SUSPENDED_BY_ITS_START,
        ),
        (
            "all are suspended by a start",
            ALL_KINDS,
            65535,
            &ALL_ARE_SUSPENDED_BY_A_START,
        ),
        (
            "a count is counted though a later modifier fails",
            MACHINE_A,
            65535,
            &A_COUNT_IS_COUNTED_THOUGH_A_LATER_MODIFIER_FAILS,
        ),
        ("a step over a call", A_CALL, 65535, &A_STEP_OVER_A_CALL),
        ("a step out of a call", A_CALL, 65535, &A_STEP_OUT_OF_A_CALL),
        (
            "requests are cleared by kind and id",
            MACHINE_A,
            65535,
            &REQUESTS_ARE_CLEARED_BY_KIND_AND_ID,
        ),
        (
            "a reported death outlasts a loss",
            MACHINE_A,
            65535,
            &A_REPORTED_DEATH_OUTLASTS_A_LOSS,
        ),
        (
            "requests up to the limit",
            MACHINE_A,
            65535,
            &REQUESTS_UP_TO_THE_LIMIT,
        ),
    ]
}

#[test]
fn each_session_goes_as_told(rt: HostRuntime) {
    for (name, script, count_limit, acts) in sessions() {
        goes_as_told(&rt, rt.alloc(), name, script, count_limit, acts);
    }
}
