//! Runs of the program on files.
use crate::asserts::expect_same;
use crate::command_lines::runs::{
    ANSWERS, AT_LIMIT, Holds, MACHINE, SCENE, SESSION, Scene, Tells, file_holds, go, is_refused,
    is_run, remove, write,
};
use jdwp_files::fill_standard_streams;
use std::io::{Read, Write};
use std::net::Net;
use std::process::Abort;
use std::rt::{Clock, Files};

pub(crate) const PLAN: &str = "ask 1 8\nask 11 12 0000000000000001\nask 1 6\nanswers\n";

/// What is printed as the plan is carried out.
pub(crate) const PRINTED: &str = "< hello
< 1 Event.Composite 0 [(90, 0, #1)]
< 1 reply VirtualMachine.IDSizes 0 8 8 8 8 8
< 2 reply VirtualMachine.Suspend 0
< 3 reply ThreadReference.SuspendCount 0 1
< 4 reply VirtualMachine.Dispose 0
";

#[test]
fn closed_streams_have_the_null_device(rt: HostRuntime) {
    let [first, second, third] = fill_standard_streams(&rt).expect(&rt, "the null device");
    for mut file in [first, second, third] {
        expect_same(&rt, &file.write(b"lost").expect(&rt, "what is written"), &4);
        expect_same(&rt, &file.read(&mut [0; 4]).expect(&rt, "the end"), &0);
    }
}

/// Plans and sessions of files.
static OF_FILES: [Scene; 5] = [
    Scene {
        files: &[
            ("attach_plan", Holds::Text(PLAN)),
            ("attach_from", Holds::Bytes(&ANSWERS)),
        ],
        words: "attach attach_plan --from attach_from --to attach_to --turns 1000",
        prints: Some(PRINTED),
        leaves: &[("attach_to", Some(Holds::Bytes(&SESSION)))],
        ..SCENE
    },
    Scene {
        files: &[
            ("refused_plan", Holds::Text("ask 1 8\n\nanswers\n")),
            ("plan_from", Holds::Bytes(&ANSWERS)),
        ],
        words: "attach refused_plan --from plan_from --to plan_to",
        status: 1,
        tells: Tells::All(&["refused_plan: line 2 of the plan: an empty line"]),
        ..SCENE
    },
    Scene {
        files: &[
            ("refused_plan", Holds::Text("ask 1 8\n\nanswers\n")),
            ("plan_from", Holds::Bytes(&ANSWERS)),
        ],
        words: "attach refused_plan --from plan_from --to plan_to --turns +5",
        status: 1,
        tells: Tells::All(&["error: ", "jdwp attach"]),
        ..SCENE
    },
    Scene {
        files: &[
            ("session_machine", Holds::Text(MACHINE)),
            ("session_from", Holds::Bytes(&SESSION)),
        ],
        words: "serve-script session_machine --start none --from session_from --to session_to",
        leaves: &[("session_to", Some(Holds::Bytes(&ANSWERS)))],
        ..SCENE
    },
    Scene {
        files: &[
            ("limit_machine", Holds::Text(MACHINE)),
            ("limit_from", Holds::Bytes(&SESSION)),
        ],
        words: "serve-script --to limit_to --from limit_from --count-limit 1 limit_machine",
        leaves: &[("limit_to", Some(Holds::Bytes(&AT_LIMIT)))],
        ..SCENE
    },
];

#[test]
fn plans_and_sessions_of_files(rt: HostRuntime) {
    go(&rt, &OF_FILES);
}

const LOST: &str = "jdwp: ends_from: the file ended before the session did\n";

const LIMIT: &str = "jdwp: the turn limit of --turns is reached\n";

/// The session without its last byte.
const CUT_OFF: [u8; 65] = [
    0x4a, 0x44, 0x57, 0x50, 0x2d, 0x48, 0x61, 0x6e, 0x64, 0x73, 0x68, 0x61, 0x6b, 0x65, //
    0x00, 0x00, 0x00, 0x0b, 0x00, 0x00, 0x00, 0x01, 0x00, 0x01, 0x07, //
    0x00, 0x00, 0x00, 0x0b, 0x00, 0x00, 0x00, 0x02, 0x00, 0x01, 0x08, //
    0x00, 0x00, 0x00, 0x13, 0x00, 0x00, 0x00, 0x03, 0x00, 0x0b, 0x0c, 0x00, 0x00, 0x00, 0x00, 0x00,
    0x00, 0x00, 0x01, //
    0x00, 0x00, 0x00, 0x0b, 0x00, 0x00, 0x00, 0x04, 0x00, 0x01, //
];

/// What comes, the turns, the status, what is told, and how many bytes are written.
static ENDS: [(&[u8], &str, u8, &str, usize); 10] = [
    (
        b"JDWP-HandshakE",
        "9",
        1,
        "jdwp: fault 4: not the handshake\n",
        0,
    ),
    (
        b"JDWP-Handshake\x00\x00\x00\x0a",
        "9",
        1,
        "jdwp: fault 1: a packet length below 11\n",
        43,
    ),
    (
        b"JDWP-Handshake\x00\x01\x00\x01",
        "9",
        1,
        "jdwp: fault 2: a packet length above the limit\n",
        43,
    ),
    (
        b"JDWP-Handshake\x00\x00\x00\x0b\x00\x00\x00\x01\x01",
        "9",
        1,
        "jdwp: fault 3: packet flags other than 00 and 80\n",
        43,
    ),
    (b"", "9", 2, LOST, 0),
    (&CUT_OFF, "9", 2, LOST, 100),
    (&SESSION, "0", 4, LIMIT, 0),
    (&SESSION, "5", 4, LIMIT, 100),
    (&SESSION, "6", 0, "", 111),
    (&SESSION, "4294967295", 0, "", 111),
];

/// A session to which this comes ends so.
fn ends_so<R: Files + Clock + Net + AllocGlobal + Abort>(
    rt: &R,
    input: &[u8],
    turns: &str,
    status: u8,
    told: &str,
    written: usize,
) {
    let (machine, from, to) = ("ends_machine", "ends_from", "ends_to");
    write(rt, from, input);
    let words = [
        "serve-script",
        machine,
        "--from",
        from,
        "--to",
        to,
        "--start",
        "none",
        "--turns",
        turns,
    ];
    is_run(rt, &words, status, "", told);
    file_holds(rt, to, &ANSWERS[..written.min(111)]);
}

#[test]
fn each_end_has_its_status(rt: HostRuntime) {
    write(&rt, "ends_machine", MACHINE.as_bytes());
    for &(input, turns, status, told, written) in ENDS.iter() {
        ends_so(&rt, input, turns, status, told, written);
    }
    remove(&rt, &["ends_machine", "ends_from", "ends_to"]);
}

pub(crate) const CAPTURE: &str = "> 4a4457502d48616e647368616b65
< 4a4457502d48616e647368616b65
> 0000000b00000001000107
< 0000001f000000018000000000000800000008000000080000000800000008
> 0000001300000003000b0c0000000000000001
< 0000000f0000000380000000000001
";

pub(crate) const SHOWN: &str = "> hello
< hello
> 1 VirtualMachine.IDSizes
< 1 reply VirtualMachine.IDSizes 0 8 8 8 8 8
> 3 ThreadReference.SuspendCount #1
< 3 reply ThreadReference.SuspendCount 0 1
";

/// A capture that ends in the midst of a packet.
const SHORT: &str = "> 4a4457502d48616e647368616b65\n> 0000000a\n";

/// The words `show` and `check` without a file that they can show or judge.
const UNSHOWN: &[(&str, Holds)] = &[
    ("no_folder", Holds::Folder),
    ("no_text", Holds::Bytes(b"> 4a\n> \xff")),
];

/// Captures that are shown and judged, and that can't be used.
static CAPTURES: [Scene; 12] = [
    Scene {
        files: &[("capture", Holds::Text(CAPTURE))],
        words: "show capture",
        prints: Some(SHOWN),
        ..SCENE
    },
    Scene {
        files: &[("capture", Holds::Text(CAPTURE))],
        words: "check capture",
        prints: Some("yes\n"),
        ..SCENE
    },
    Scene {
        files: &[("capture", Holds::Text(SHORT))],
        words: "show capture",
        status: 1,
        prints: Some("> hello\nline 2: fault 1\n"),
        ..SCENE
    },
    Scene {
        files: &[("capture", Holds::Text(SHORT))],
        words: "check capture",
        status: 1,
        prints: Some("no: line 2: fault 1\n"),
        ..SCENE
    },
    Scene {
        words: "show",
        status: 1,
        tells: Tells::All(&[]),
        ..SCENE
    },
    Scene {
        words: "check capture capture",
        status: 1,
        tells: Tells::All(&[]),
        ..SCENE
    },
    Scene {
        words: "show no_file",
        status: 1,
        tells: Tells::All(&["no_file: no such file or folder\n"]),
        ..SCENE
    },
    Scene {
        words: "check no_file",
        status: 1,
        tells: Tells::All(&["no_file: no such file or folder\n"]),
        ..SCENE
    },
    Scene {
        files: UNSHOWN,
        words: "show no_folder",
        status: 1,
        tells: Tells::All(&["no_folder: a folder, not a file\n"]),
        ..SCENE
    },
    Scene {
        files: UNSHOWN,
        words: "check no_folder",
        status: 1,
        tells: Tells::All(&["no_folder: a folder, not a file\n"]),
        ..SCENE
    },
    Scene {
        files: UNSHOWN,
        words: "show no_text",
        status: 1,
        tells: Tells::All(&["no_text: not UTF-8 at byte 7, counted from 0\n"]),
        ..SCENE
    },
    Scene {
        files: UNSHOWN,
        words: "check no_text",
        status: 1,
        tells: Tells::All(&["no_text: not UTF-8 at byte 7, counted from 0\n"]),
        ..SCENE
    },
];

#[test]
fn captures_are_shown_and_checked(rt: HostRuntime) {
    go(&rt, &CAPTURES);
}

/// Beginnings of recordings of the network: pcap in both orders of bytes, with times in microseconds and in nanoseconds, and pcapng.
static RECORDINGS: [[u8; 4]; 5] = [
    [0xd4, 0xc3, 0xb2, 0xa1],
    [0xa1, 0xb2, 0xc3, 0xd4],
    [0x4d, 0x3c, 0xb2, 0xa1],
    [0xa1, 0xb2, 0x3c, 0x4d],
    [0x0a, 0x0d, 0x0d, 0x0a],
];

/// A capture in this file can't be used, for this reason.
fn is_no_capture<R: Files + Clock + Net + AllocGlobal + Abort>(rt: &R, file: &str, text: &str) {
    assert!(rt; is_refused(rt, &["show", file], &[text]));
    assert!(rt; is_refused(rt, &["check", file], &[text]));
}

#[test]
fn a_recording_that_is_cut_off_gives_no_capture(rt: HostRuntime) {
    let text = "recording: fault 73: the file ends in the midst of what follows packet 0\n";
    for bytes in RECORDINGS.iter() {
        write(&rt, "recording", bytes);
        is_no_capture(&rt, "recording", text);
        assert!(rt; is_refused(&rt, &["capture", "recording"], &[text]));
    }
    let text = "recording: fault 71: a file that begins neither as pcap nor as pcapng\n";
    write(&rt, "recording", b"> 4a\n");
    assert!(rt; is_refused(&rt, &["capture", "recording"], &[text]));
    remove(&rt, &["recording"]);
}

/// Files that can't be used: the first of them is named, in the order in which they are opened.
const UNUSED: &[(&str, Holds)] = &[
    ("named_folder", Holds::Folder),
    ("named_other", Holds::Bytes(b"> 4a\n> \xff")),
];

static NAMED: [Scene; 8] = [
    Scene {
        files: UNUSED,
        words: "serve-script named_absent --from named_other --to named_to",
        status: 1,
        tells: Tells::All(&["named_absent: no such file or folder\n"]),
        spares: &["named_to"],
        ..SCENE
    },
    Scene {
        files: UNUSED,
        words: "serve-script named_folder --from named_other --to named_to",
        status: 1,
        tells: Tells::All(&["named_folder: a folder, not a file\n"]),
        spares: &["named_to"],
        ..SCENE
    },
    Scene {
        files: UNUSED,
        words: "serve-script named_other --from named_absent --to named_to",
        status: 1,
        tells: Tells::All(&["named_absent: no such file or folder\n"]),
        spares: &["named_to"],
        ..SCENE
    },
    Scene {
        files: UNUSED,
        words: "serve-script named_other --from named_folder --to named_to",
        status: 1,
        tells: Tells::All(&["named_folder: a folder, not a file\n"]),
        spares: &["named_to"],
        ..SCENE
    },
    Scene {
        files: UNUSED,
        words: "serve-script named_absent --from named_folder --to named_to",
        status: 1,
        tells: Tells::All(&["named_absent: no such file or folder\n"]),
        spares: &["named_to"],
        ..SCENE
    },
    Scene {
        files: UNUSED,
        words: "serve-script named_other --from named_other --to named_folder",
        status: 1,
        tells: Tells::All(&["named_folder: a folder, not a file\n"]),
        spares: &["named_to"],
        ..SCENE
    },
    Scene {
        files: UNUSED,
        words: "serve-script named_other --from named_other --to named_absent/to",
        status: 1,
        tells: Tells::All(&["named_absent/to: no such file or folder\n"]),
        spares: &["named_to"],
        ..SCENE
    },
    Scene {
        files: &[("text_other", Holds::Bytes(b"> 4a\n> \xff"))],
        words: "serve-script text_other --from text_other --to text_to",
        status: 1,
        tells: Tells::All(&["text_other: not UTF-8 at byte 7, counted from 0\n"]),
        leaves: &[("text_to", None)],
        ..SCENE
    },
];

#[test]
fn a_file_that_can_not_be_used_is_named(rt: HostRuntime) {
    go(&rt, &NAMED);
}

/// A part of the machine, what stands for it, and what is told behind the file's name.
static SCRIPTS: [(&str, &str, &str); 7] = [
    (
        "\"name\":\"A\",",
        "\"name\":\"A\"",
        "refused_machine: fault 21: the text is not JSON: line 1, column 12\n",
    ),
    (
        "{\"name\"",
        "\u{feff}{\"name\"",
        "refused_machine: fault 21: the text is not JSON: it begins with a byte order mark\n",
    ),
    (
        "\"last\":9,",
        "",
        "refused_machine: fault 22: the member last is missing or of another type, in classes[0].methods[0]\n",
    ),
    (
        "{\"id\":2,",
        "{\"id\":1,",
        "refused_machine: fault 23: an id stands twice: 1 of a thread, group or object\n",
    ),
    (
        "[8,8,8,8,8]",
        "[8,8,8,8,9]",
        "refused_machine: fault 24: an id is too wide: a width of 9 in place of 1 to 8\n",
    ),
    (
        "\"super\":0",
        "\"super\":7",
        "refused_machine: fault 25: a bad reference: no class 7 is known here, in classes[0]\n",
    ),
    (
        "[\"go\",3],[\"return\"",
        "[\"go\",10],[\"return\"",
        "refused_machine: fault 25: a bad reference: an index 10 past the method's last, in threads[0].steps[5]\n",
    ),
];

/// Machine A with another text in place of a part is refused, and told so.
fn is_no_script<R: Files + Clock + Net + AllocGlobal + Abort>(
    rt: &R,
    part: &str,
    other: &str,
    text: &str,
) {
    let (machine, from, to) = ("refused_machine", "refused_from", "refused_to");
    let script = MACHINE
        .replacen(rt.alloc(), part, other, 1)
        .expect(rt, "memory");
    write(rt, machine, script.as_str().as_bytes());
    let words = ["serve-script", machine, "--from", from, "--to", to];
    assert!(rt; is_refused(rt, &words, &[text]), "{text}");
    file_holds(rt, to, &[]);
}

/// A script that is refused is told by its file, its fault's number and words, and what is known of the place; nothing is sent.
#[test]
fn a_script_that_is_refused_is_told(rt: HostRuntime) {
    write(&rt, "refused_from", &SESSION);
    for &(part, other, text) in SCRIPTS.iter() {
        is_no_script(&rt, part, other, text);
    }
    remove(&rt, &["refused_machine", "refused_from", "refused_to"]);
}

/// How plans end is told; one that is finished without Dispose has status 0. The target's bytes are those up to the widths of ids.
static TOLD_OF_PLANS: [Scene; 5] = [
    Scene {
        files: &[
            ("told_plan", Holds::Text("answers\n")),
            ("told_from", Holds::Front(&ANSWERS, 74)),
        ],
        words: "attach told_plan --from told_from --to told_to",
        status: 0,
        prints: None,
        tells: Tells::Exactly(""),
        leaves: &[("told_to", None)],
        ..SCENE
    },
    Scene {
        files: &[
            ("told_plan", Holds::Text("\u{feff}answers\n")),
            ("told_from", Holds::Front(&ANSWERS, 74)),
        ],
        words: "attach told_plan --from told_from --to told_to",
        status: 1,
        prints: None,
        tells: Tells::Exactly(
            "jdwp: told_plan: a byte order mark stands before the first line of the plan\n",
        ),
        leaves: &[("told_to", None)],
        ..SCENE
    },
    Scene {
        files: &[
            ("told_plan", Holds::Text("ask 1 99\n")),
            ("told_from", Holds::Front(&ANSWERS, 74)),
        ],
        words: "attach told_plan --from told_from --to told_to",
        status: 1,
        prints: None,
        tells: Tells::Exactly(
            "jdwp: line 1 of the plan: fault 36: a command that no target has, or data that do not read in its layout\n",
        ),
        leaves: &[("told_to", None)],
        ..SCENE
    },
    Scene {
        files: &[
            (
                "told_plan",
                Holds::Text("ask 1 8\nmirror\nask 1 8 00\nask 1 6\n"),
            ),
            ("told_from", Holds::Front(&ANSWERS, 74)),
        ],
        words: "attach told_plan --from told_from --to told_to",
        status: 1,
        prints: None,
        tells: Tells::Exactly(
            "jdwp: line 3 of the plan: fault 36: a command that no target has, or data that do not read in its layout\n",
        ),
        leaves: &[("told_to", None)],
        ..SCENE
    },
    Scene {
        files: &[
            ("told_plan", Holds::Text("events 5\n")),
            ("told_from", Holds::Front(&ANSWERS, 74)),
        ],
        words: "attach told_plan --from told_from --to told_to",
        status: 2,
        prints: None,
        tells: Tells::Exactly("jdwp: told_from: the file ended before the session did\n"),
        leaves: &[("told_to", None)],
        ..SCENE
    },
];

/// Plans with a line of `pair` alone: nothing is sent or printed, and the plan is told before a port at which nobody listens.
static OF_PAIR: [Scene; 6] = [
    Scene {
        files: &[
            ("of_pair_plan", Holds::Text("lose target\n")),
            ("of_pair_from", Holds::Bytes(&ANSWERS)),
        ],
        words: "attach of_pair_plan --from of_pair_from --to of_pair_to",
        status: 1,
        tells: Tells::Exactly("jdwp: of_pair_plan: line 1 of the plan: a line of `pair` alone\n"),
        leaves: &[("of_pair_to", Some(Holds::Text("")))],
        ..SCENE
    },
    Scene {
        files: &[("of_pair_plan", Holds::Text("lose target\n"))],
        words: "attach of_pair_plan --port 1",
        status: 1,
        tells: Tells::Exactly("jdwp: of_pair_plan: line 1 of the plan: a line of `pair` alone\n"),
        ..SCENE
    },
    Scene {
        files: &[
            ("of_pair_plan", Holds::Text("ask 1 8\nlose debugger\n")),
            ("of_pair_from", Holds::Bytes(&ANSWERS)),
        ],
        words: "attach of_pair_plan --from of_pair_from --to of_pair_to",
        status: 1,
        tells: Tells::Exactly("jdwp: of_pair_plan: line 2 of the plan: a line of `pair` alone\n"),
        leaves: &[("of_pair_to", Some(Holds::Text("")))],
        ..SCENE
    },
    Scene {
        files: &[("of_pair_plan", Holds::Text("ask 1 8\nlose debugger\n"))],
        words: "attach of_pair_plan --port 1",
        status: 1,
        tells: Tells::Exactly("jdwp: of_pair_plan: line 2 of the plan: a line of `pair` alone\n"),
        ..SCENE
    },
    Scene {
        files: &[
            (
                "of_pair_plan",
                Holds::Text("ask 1 8\nanswers\nattach\nanswer\n"),
            ),
            ("of_pair_from", Holds::Bytes(&ANSWERS)),
        ],
        words: "attach of_pair_plan --from of_pair_from --to of_pair_to",
        status: 1,
        tells: Tells::Exactly("jdwp: of_pair_plan: line 3 of the plan: a line of `pair` alone\n"),
        leaves: &[("of_pair_to", Some(Holds::Text("")))],
        ..SCENE
    },
    Scene {
        files: &[(
            "of_pair_plan",
            Holds::Text("ask 1 8\nanswers\nattach\nanswer\n"),
        )],
        words: "attach of_pair_plan --port 1",
        status: 1,
        tells: Tells::Exactly("jdwp: of_pair_plan: line 3 of the plan: a line of `pair` alone\n"),
        ..SCENE
    },
];

/// 64 commands may wait: the line of the 65th is told. Where what the target sent is refused, no line is.
static TOO_MANY: [Scene; 2] = [
    Scene {
        files: &[
            ("by_lines_plan", Holds::Repeated("ask 1 8\n", 65)),
            ("by_lines_from", Holds::Bytes(&ANSWERS)),
        ],
        words: "attach by_lines_plan --from by_lines_from --to by_lines_to",
        status: 1,
        prints: None,
        tells: Tells::Exactly(
            "jdwp: line 65 of the plan: fault 32: too much waits: 64 commands at most\n",
        ),
        leaves: &[("by_lines_to", None)],
        ..SCENE
    },
    Scene {
        files: &[
            ("by_lines_plan", Holds::Repeated("ask 1 8\n", 65)),
            ("by_lines_from", Holds::Bytes(b"JDWP-HandshakE")),
        ],
        words: "attach by_lines_plan --from by_lines_from --to by_lines_to",
        status: 1,
        prints: None,
        tells: Tells::Exactly("jdwp: fault 4: not the handshake\n"),
        leaves: &[("by_lines_to", None)],
        ..SCENE
    },
];

#[test]
fn ends_of_plans_are_told(rt: HostRuntime) {
    go(&rt, &TOLD_OF_PLANS);
    go(&rt, &OF_PAIR);
    go(&rt, &TOO_MANY);
}
