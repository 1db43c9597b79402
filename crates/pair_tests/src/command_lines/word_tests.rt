//! Words that the program takes, and words that it refuses.
use crate::asserts::expect_same_for;
use crate::command_lines::runs::{
    MACHINE, SESSION, is_not_made, is_refused, is_run, remove, status_of, write,
};
use jdwp_debuggee::Settings;
use jdwp_debugger::Order;
use jdwp_machine::Profile;
use jdwp_program::{Attach, Between, Fault, Pair, Peer, ServeScript, SessionFiles, Words};
use jdwp_wire::Limits;
use std::alloc::Global;
use std::net::Net;
use std::process::Abort;
use std::rt::{Clock, Files};

/// Words that are refused.
static REFUSED: [&[&str]; 17] = [
    &[],
    &["--help"],
    &["help"],
    &["-h"],
    &["--versions"],
    &["show", "--version"],
    &["serve"],
    &["serve-script"],
    &["serve-script", "--help"],
    &["serve-script", "words_machine"],
    &["serve-script", "words_machine", "--from", "words_from"],
    &["serve-script", "words_machine", "--to", "words_to"],
    &["serve-script", "--from", "words_from", "--to", "words_to"],
    &[
        "serve-script",
        "words_machine",
        "words_from",
        "--from",
        "words_from",
        "--to",
        "words_to",
    ],
    &[
        "serve-script",
        "words_machine",
        "--from",
        "words_from",
        "--to",
    ],
    &[
        "serve-script",
        "words_machine",
        "--from",
        "words_from",
        "--from",
        "words_from",
        "--to",
        "words_to",
    ],
    &[
        "serve-script",
        "words_machine",
        "--from",
        "words_from",
        "--to",
        "words_to",
        "--to",
        "words_to",
    ],
];

/// Options that are refused behind words that are not, a line each, with a `|` between its words.
const OPTIONS: &str = "--port|5
--start
--start|
--start|some
--start|ALL
--start|all|--start|all
--count-limit
--count-limit|
--count-limit|0
--count-limit|2147483648
--count-limit|4294967297
--count-limit|+5
--count-limit|-5
--count-limit| 5
--count-limit|5\u{20}
--count-limit|0x5
--count-limit|5|--count-limit|5
--limits
--limits|65536,64,64
--limits|2047,64,3,64
--limits|2048,64,4,64
--limits|4096,8,2,4|--limits|4096,8,2,4
--profile
--profile|
--profile|JDI
--profile|standard |
--profile|jdi|--profile|jdi
--defer|--defer
--defer=true
--turns
--turns|
--turns|4294967296
--turns|18446744073709551617
--turns|+5
--turns=+5
--turns|-5
--turns|5.0
--turns|1_000
--turns|five
--turns|5|--turns|5";

/// Options that are taken, written so, too.
const TAKEN: &str = "--start|all
--start=none
--count-limit|2147483647
--limits|4096,8,2,4
--profile|standard
--profile=jdi
--defer
--turns|007";

/// Words that are taken.
const WORDS: [&str; 6] = [
    "serve-script",
    "words_machine",
    "--from",
    "words_from",
    "--to",
    "words_to",
];

/// The words, and this option behind them, have this status.
fn has_status<R: Files + Clock + Net + AllocGlobal + Abort>(rt: &R, option: &str, status: u8) {
    let mut words = Vec::new(rt.alloc());
    words.extend_from_slice(&WORDS).expect(rt, "memory");
    for word in option.split('|') {
        words.push(word).expect(rt, "memory");
    }
    expect_same_for(rt, &status_of(rt, words.as_slice()), &status, &option);
}

#[test]
fn other_words_are_refused(rt: HostRuntime) {
    write(&rt, "words_machine", MACHINE.as_bytes());
    write(&rt, "words_from", &SESSION);
    for words in REFUSED.iter() {
        expect_same_for(&rt, &status_of(&rt, words), &1, words);
    }
    for option in OPTIONS.lines() {
        has_status(&rt, option, 1);
    }
    is_not_made(&rt, "words_to");
    for option in TAKEN.lines() {
        has_status(&rt, option, 0);
    }
    remove(&rt, &["words_machine", "words_from", "words_to"]);
}

/// Words that are refused, with a space between them, and the texts that are told, with a `|`.
static HELP: [(&str, &str); 26] = [
    (
        "",
        "error: 'jdwp' requires a subcommand but one was not provided|show, check, capture, draw, serve-script, attach|Usage: jdwp ",
    ),
    (
        "--help",
        "Ends of the Java Debug Wire Protocol|Usage: jdwp |\n  show |\n  check |\n  capture |\n  draw |\n  serve-script |\n  attach |--help",
    ),
    (
        "serve-script --help",
        "Serves|Usage: jdwp serve-script |<MACHINE>|--from <FILE>|--to <FILE>|--port <N>|--live|--pace <MS>|--start <WHICH>|--count-limit <N>|--profile <PROFILE>|[default: standard]|standard, jdi|--defer|--turns <N>",
    ),
    (
        "attach --help",
        "Runs a plan|Usage: jdwp attach |<PLAN>|--from <FILE>|--to <FILE>|--order <ORDER>|[default: one]|one, apart|--turns <N>|--timeout <MS>",
    ),
    (
        "pair --help",
        "Runs a plan|Usage: jdwp pair |<MACHINE>|<PLAN>|a connection at 127.0.0.1|--memory|--order <ORDER>|[default: one]|one, apart|--start <WHICH>|--defer|--turns <N>|--junit <FILE>",
    ),
    (
        "show --help",
        "Shows a capture|Usage: |<FILE>|--profile <PROFILE>|[default: standard]|standard, jdi",
    ),
    (
        "check --help",
        "Judges a capture|Usage: |<FILE>|--profile <PROFILE>|[default: standard]|standard, jdi",
    ),
    (
        "capture --help",
        "Makes the capture|Usage: jdwp capture |<FILE>|--target-port <N>|--stream <N>|[default: 1]",
    ),
    (
        "draw --help",
        "Draws a capture|Usage: jdwp draw |<FILE>|--target-port <N>|--from <N>|--count <N>|[default: 200]",
    ),
    (
        "draw f --from 0",
        "error: invalid value '0' for '--from <N>': 0 is not in 1..=2147483647",
    ),
    (
        "capture f --stream 0",
        "error: invalid value '0' for '--stream <N>': 0 is not in 1..=2147483647",
    ),
    ("shows", "error: unrecognized subcommand 'shows'|Usage: "),
    ("show", "error: |<FILE>|Usage: "),
    (
        "show f --port",
        "error: unexpected argument '--port'|Usage: ",
    ),
    (
        "attach p --port 80 --defer",
        "error: unexpected argument '--defer'|Usage: ",
    ),
    ("serve-script m --from f", "error: |--to <FILE>|Usage: "),
    (
        "serve-script m",
        "error: the following required arguments were not provided: --from <FILE> and --to <FILE>, or --port <N>\n|Usage: jdwp serve-script ",
    ),
    (
        "attach p",
        "error: the following required arguments were not provided: --from <FILE> and --to <FILE>, or --port <N>\n|Usage: jdwp attach ",
    ),
    (
        "attach p --to t",
        "error: the following required arguments were not provided: --from <FILE>\n|Usage: jdwp attach ",
    ),
    (
        "attach p --port 80 --limits 65536,64,64",
        "error: invalid value '65536,64,64' for '--limits <PACKET,LIVE,REQUESTS,PENDING>': PACKET is 2048 to 1048576, the others are 1 to 1024, and 16 + 542 * REQUESTS is at most PACKET|Usage: jdwp attach ",
    ),
    (
        "attach p --port 80 --order both",
        "error: invalid value 'both' for '--order <ORDER>'|one, apart",
    ),
    (
        "pair m p --order both",
        "error: invalid value 'both' for '--order <ORDER>'|one, apart",
    ),
    (
        "serve-script m --from f --to t --start some",
        "error: invalid value 'some' for '--start <WHICH>'|all, none",
    ),
    (
        "serve-script m --from f --to t --count-limit 0",
        "error: invalid value '0' for '--count-limit <N>': 0 is not in 1..=2147483647",
    ),
    (
        "serve-script m --from f --to t --turns five",
        "error: invalid value 'five' for '--turns <N>'",
    ),
    (
        "serve-script m --from f --to t --turns +5",
        "error: invalid value '+5' for '--turns <N>': a number is digits alone|Usage: jdwp serve-script ",
    ),
];

/// The words of a row are refused, and each of its texts is told.
pub(crate) fn is_helped<R: Files + Clock + Net + AllocGlobal + Abort>(
    rt: &R,
    words: &str,
    texts: &str,
) {
    let alloc = rt.alloc();
    let all: Vec<&str> = words.split_whitespace().collect(alloc).expect(rt, "memory");
    let told: Vec<&str> = texts.split('|').collect(alloc).expect(rt, "memory");
    assert!(rt; is_refused(rt, all.as_slice(), told.as_slice()), "{words}");
}

/// Words that are refused are told with the usage, and `--help` tells each command and option.
#[test]
fn words_help(rt: HostRuntime) {
    for &(words, texts) in HELP.iter() {
        is_helped(&rt, words, texts);
    }
}

/// The program's name and version are printed.
#[test]
fn the_version_is_printed(rt: HostRuntime) {
    for word in ["--version", "-V"] {
        is_run(&rt, &[word], 0, "jdwp 0.1.0\n", "");
    }
}

/// The program is `jdwp` in usage, by whatever name it was called.
#[test]
fn usage_names_the_program(rt: HostRuntime) {
    for words in [["/opt/jdwp-1/bin/run", "--help"], ["run", "attach"]] {
        let Err(Fault::Words(told)) = jdwp_files::read(rt.alloc(), &words) else {
            panic!(&rt; "words that are refused");
        };
        assert!(&rt; told.as_str().find("Usage: jdwp ").is_some());
        assert!(&rt; told.as_str().find("run").is_none());
    }
}

/// Options of `serve-script`, whether all threads start suspended, the count limit, the profile, and the turns.
static DEFAULTS: [(&[&str], bool, u32, Profile, u32); 7] = [
    (&[], true, 65535, Profile::Standard, 100000),
    (
        &["--start", "none"],
        false,
        65535,
        Profile::Standard,
        100000,
    ),
    (&["--start=all"], true, 65535, Profile::Standard, 100000),
    (
        &["--count-limit", "2147483647"],
        true,
        2147483647,
        Profile::Standard,
        100000,
    ),
    (
        &["--profile", "standard"],
        true,
        65535,
        Profile::Standard,
        100000,
    ),
    (&["--profile=jdi"], true, 65535, Profile::Jdi, 100000),
    (&["--turns", "007"], true, 65535, Profile::Standard, 7),
];

/// Options of `attach`, the order, and the turns.
static DEFAULTS_OF_ATTACH: [(&[&str], Order, u32); 4] = [
    (&[], Order::One, 100000),
    (&["--turns", "007"], Order::One, 7),
    (&["--order", "one"], Order::One, 100000),
    (&["--order=apart"], Order::Apart, 100000),
];

/// The words are read so.
pub(crate) fn are_read(rt: &impl Abort, alloc: Global, words: &[&str], want: &Words<'_>) {
    let found = jdwp_files::read(alloc, words).expect(rt, "words that read");
    expect_same_for(rt, &found, want, &words);
}

/// With these options behind them, the words of `serve-script` are read so.
fn serves(
    rt: &impl Abort,
    alloc: Global,
    more: &[&str],
    start_all: bool,
    count_limit: u32,
    profile: Profile,
    turns: u32,
) {
    let (machine, from, to) = ("m", "f", "t");
    let mut words = Vec::new(alloc);
    let first = ["jdwp", "serve-script", machine, "--from", from, "--to", to];
    words.extend_from_slice(&first).expect(rt, "memory");
    words.extend_from_slice(more).expect(rt, "memory");
    let standard = Limits::standard();
    let settings = Settings::new(start_all, count_limit, standard).expect(rt, "a count limit");
    let want = Words::ServeScript(ServeScript {
        machine,
        peer: Peer::Files(SessionFiles { from, to }),
        settings: settings.with_profile(profile),
        defer: false,
        turns,
        live: None,
    });
    are_read(rt, alloc, words.as_slice(), &want);
}

/// With these options behind them, the words of `attach` are read so.
fn attaches(rt: &impl Abort, alloc: Global, more: &[&str], order: Order, turns: u32) {
    let (plan, from, to) = ("p", "f", "t");
    let mut words = Vec::new(alloc);
    let first = ["jdwp", "attach", plan, "--from", from, "--to", to];
    words.extend_from_slice(&first).expect(rt, "memory");
    words.extend_from_slice(more).expect(rt, "memory");
    let want = Words::Attach(Attach {
        plan,
        peer: Peer::Files(SessionFiles { from, to }),
        order,
        limits: Limits::standard(),
        turns,
        timeout: None,
        junit: None,
    });
    are_read(rt, alloc, words.as_slice(), &want);
}

#[test]
fn options_have_defaults(rt: HostRuntime) {
    for &(more, start_all, count_limit, profile, turns) in DEFAULTS.iter() {
        serves(
            &rt,
            rt.alloc(),
            more,
            start_all,
            count_limit,
            profile,
            turns,
        );
    }
    for &(more, order, turns) in DEFAULTS_OF_ATTACH.iter() {
        attaches(&rt, rt.alloc(), more, order, turns);
    }
}

/// The words of `serve-script` at this port are read so.
fn serves_at(rt: &impl Abort, alloc: Global, words: &[&str], port: u16, defer: bool) {
    let standard = Limits::standard();
    let settings = Settings::new(true, 65535, standard).expect(rt, "a count limit");
    let want = Words::ServeScript(ServeScript {
        machine: "m",
        peer: Peer::Port(port),
        settings,
        defer,
        turns: 100000,
        live: None,
    });
    are_read(rt, alloc, words, &want);
}

/// The words of `attach` at this port are read so.
fn attaches_at(rt: &impl Abort, alloc: Global, words: &[&str], port: u16) {
    let want = Words::Attach(Attach {
        plan: "p",
        peer: Peer::Port(port),
        order: Order::One,
        limits: Limits::standard(),
        turns: 5,
        timeout: Some(2147483647),
        junit: None,
    });
    are_read(rt, alloc, words, &want);
}

/// A port in place of files.
#[test]
fn ports_are_read(rt: HostRuntime) {
    serves_at(
        &rt,
        rt.alloc(),
        &["jdwp", "serve-script", "m", "--port", "8000"],
        8000,
        false,
    );
    attaches_at(
        &rt,
        rt.alloc(),
        &[
            "jdwp",
            "attach",
            "p",
            "--port=65535",
            "--turns",
            "5",
            "--timeout",
            "2147483647",
        ],
        65535,
    );
}

/// Both ends in one process, with options.
#[test]
fn words_of_pair_are_read(rt: HostRuntime) {
    let rows: [(&[&str], Between, bool, u32); 4] = [
        (&[], Between::Loopback, true, 100000),
        (&["--memory"], Between::Memory, true, 100000),
        (&["--start", "none"], Between::Loopback, false, 100000),
        (&["--turns", "7", "--memory"], Between::Memory, true, 7),
    ];
    for (more, between, start_all, turns) in rows {
        pairs(&rt, rt.alloc(), more, between, start_all, turns, false);
    }
}

/// The order of `pair`.
#[test]
fn orders_of_pair_are_read(rt: HostRuntime) {
    let words = ["jdwp", "pair", "m", "p", "--order", "one"];
    pairs_in(&rt, rt.alloc(), &words, Order::One);
    let words = ["jdwp", "pair", "m", "p", "--order=apart"];
    pairs_in(&rt, rt.alloc(), &words, Order::Apart);
}

/// These words of `pair` are read as of this order.
fn pairs_in(rt: &impl Abort, alloc: Global, words: &[&str], order: Order) {
    let standard = Limits::standard();
    let settings = Settings::new(true, 65535, standard).expect(rt, "a count limit");
    let want = Words::Pair(Pair {
        machine: "m",
        plan: "p",
        between: Between::Loopback,
        order,
        settings,
        defer: false,
        turns: 100000,
        junit: None,
    });
    are_read(rt, alloc, words, &want);
}

/// `--defer` at both commands that have a target.
#[test]
fn defer_is_read(rt: HostRuntime) {
    let alloc = rt.alloc();
    let words = ["jdwp", "serve-script", "m", "--port", "80", "--defer"];
    serves_at(&rt, alloc, &words, 80, true);
    serves_at(&rt, alloc, &words[..5], 80, false);
    let words = ["--defer", "--memory"];
    pairs(&rt, alloc, &words, Between::Memory, true, 100000, true);
    pairs(
        &rt,
        alloc,
        &words[1..],
        Between::Memory,
        true,
        100000,
        false,
    );
}

/// With these options behind them, the words of `pair` are read so.
fn pairs(
    rt: &impl Abort,
    alloc: Global,
    more: &[&str],
    between: Between,
    start_all: bool,
    turns: u32,
    defer: bool,
) {
    let mut words = Vec::new(alloc);
    words
        .extend_from_slice(&["jdwp", "pair", "m", "p"])
        .expect(rt, "memory");
    words.extend_from_slice(more).expect(rt, "memory");
    let standard = Limits::standard();
    let settings = Settings::new(start_all, 65535, standard).expect(rt, "a count limit");
    let want = Words::Pair(Pair {
        machine: "m",
        plan: "p",
        between,
        order: Order::One,
        settings,
        defer,
        turns,
        junit: None,
    });
    are_read(rt, alloc, words.as_slice(), &want);
}

/// Words about ports and about both ends that are refused.
static REFUSED_PEERS: [&[&str]; 20] = [
    &["serve-script", "m", "--port"],
    &["serve-script", "m", "--port", "0"],
    &["serve-script", "m", "--port", "65536"],
    &["serve-script", "m", "--port", "+80"],
    &["serve-script", "m", "--port", "80", "--port", "80"],
    &["serve-script", "m", "--port", "80", "--from", "f"],
    &[
        "serve-script",
        "m",
        "--port",
        "80",
        "--from",
        "f",
        "--to",
        "t",
    ],
    &["attach", "p", "--port", "80", "--to", "t"],
    &["attach", "p"],
    &["pair", "m"],
    &["pair", "m", "--memory"],
    &["pair", "m", "p", "--memory", "--memory"],
    &["pair", "m", "p", "--port", "80"],
    &["pair", "m", "p", "--memory", "--count-limit", "5"],
    &["pair", "m", "p", "--memory", "--profile", "jdi"],
    &["pair", "m", "p", "--memory", "--defer", "--defer"],
    &["attach", "p", "--port", "80", "--defer"],
    &["attach", "p", "--port", "80", "--timeout", "0"],
    &["attach", "p", "--port", "80", "--timeout", "+5"],
    &["attach", "p", "--from", "f", "--to", "t", "--timeout", "5"],
];

#[test]
fn other_words_of_peers_are_refused(rt: HostRuntime) {
    for words in REFUSED_PEERS.iter() {
        expect_same_for(&rt, &status_of(&rt, words), &1, words);
    }
}

/// Words of live sessions, the port, and the milliseconds between two steps.
static LIVE: [(&[&str], u16, u32); 4] = [
    (&["--port", "8000", "--live"], 8000, 0),
    (&["--live", "--port=0"], 0, 0),
    (&["--port", "0", "--live", "--pace", "0"], 0, 0),
    (
        &["--pace=4294967295", "--live", "--port", "65535"],
        65535,
        4294967295,
    ),
];

/// The words of live sessions are read so.
fn are_live(rt: &impl Abort, alloc: Global, more: &[&str], port: u16, pace: u32) {
    let mut words = Vec::new(alloc);
    words
        .extend_from_slice(&["jdwp", "serve-script", "m"])
        .expect(rt, "memory");
    words.extend_from_slice(more).expect(rt, "memory");
    let standard = Limits::standard();
    let settings = Settings::new(true, 65535, standard).expect(rt, "a count limit");
    let want = Words::ServeScript(ServeScript {
        machine: "m",
        peer: Peer::Port(port),
        settings,
        defer: false,
        turns: 100000,
        live: Some(pace),
    });
    are_read(rt, alloc, words.as_slice(), &want);
}

/// `--live` and `--pace` at a port.
#[test]
fn live_sessions_are_read(rt: HostRuntime) {
    for &(more, port, pace) in LIVE.iter() {
        are_live(&rt, rt.alloc(), more, port, pace);
    }
}

/// Words of live sessions that are refused, and the texts that are told, as those of `HELP`.
static NOT_LIVE: [(&str, &str); 14] = [
    (
        "serve-script m --live",
        "error: the following required arguments were not provided:|--port <N>|Usage: jdwp serve-script ",
    ),
    (
        "serve-script m --live --from f --to t",
        "error: |'--live'|--from <FILE>|Usage: jdwp serve-script ",
    ),
    (
        "serve-script m --live --port 80 --from f",
        "error: |--from <FILE>|Usage: jdwp serve-script ",
    ),
    (
        "serve-script m --port 80 --live --turns 5",
        "error: |'--live'|--turns <N>|Usage: jdwp serve-script ",
    ),
    (
        "serve-script m --port 80 --live --live",
        "error: |'--live'|Usage: jdwp serve-script ",
    ),
    (
        "serve-script m --port 80 --live=yes",
        "error: |yes|--live|Usage: jdwp serve-script ",
    ),
    (
        "serve-script m --port 80 --pace 5",
        "error: the following required arguments were not provided:|--live|Usage: jdwp serve-script ",
    ),
    (
        "serve-script m --port 80 --pace 5 --turns 5",
        "error: |--pace <MS>|--turns <N>|Usage: jdwp serve-script ",
    ),
    (
        "serve-script m --from f --to t --pace 5",
        "error: |--pace <MS>|--from <FILE>|Usage: jdwp serve-script ",
    ),
    (
        "serve-script m --port 80 --live --pace +5",
        "error: invalid value '+5' for '--pace <MS>': a number is digits alone|Usage: jdwp serve-script ",
    ),
    (
        "serve-script m --port 80 --live --pace 4294967296",
        "error: invalid value '4294967296' for '--pace <MS>'",
    ),
    (
        "serve-script m --port 0",
        "error: invalid value '0' for '--port <N>': 0 is not in 1..=65535",
    ),
    (
        "attach p --port 80 --live",
        "error: unexpected argument '--live'|Usage: ",
    ),
    (
        "pair m p --pace 5",
        "error: unexpected argument '--pace'|Usage: ",
    ),
];

/// `--live` is for a port, and stands with no rounds; `--pace` and port 0 are for live sessions.
#[test]
fn other_words_of_live_sessions_are_refused(rt: HostRuntime) {
    for &(words, texts) in NOT_LIVE.iter() {
        is_helped(&rt, words, texts);
    }
}

/// The words of `serve-script` at port 80 are read so, with these limits.
fn serves_within(rt: &impl Abort, alloc: Global, words: &[&str], limits: Limits) {
    let settings = Settings::new(true, 65535, limits).expect(rt, "a count limit");
    let want = Words::ServeScript(ServeScript {
        machine: "m",
        peer: Peer::Port(80),
        settings,
        defer: false,
        turns: 100000,
        live: None,
    });
    are_read(rt, alloc, words, &want);
}

/// The words of `attach` at port 80 are read so, with these limits.
fn attaches_within(rt: &impl Abort, alloc: Global, words: &[&str], limits: Limits) {
    let want = Words::Attach(Attach {
        plan: "p",
        peer: Peer::Port(80),
        order: Order::One,
        limits,
        turns: 100000,
        timeout: None,
        junit: None,
    });
    are_read(rt, alloc, words, &want);
}

/// These words of `pair` are read so, with these limits.
fn pairs_within(rt: &impl Abort, alloc: Global, words: &[&str], limits: Limits) {
    let settings = Settings::new(true, 65535, limits).expect(rt, "a count limit");
    let want = Words::Pair(Pair {
        machine: "m",
        plan: "p",
        between: Between::Loopback,
        order: Order::One,
        settings,
        defer: false,
        turns: 100000,
        junit: None,
    });
    are_read(rt, alloc, words, &want);
}

/// `--limits` behind each command that has a session.
#[test]
fn limits_are_read(rt: HostRuntime) {
    let limits = Limits::new(4096, 8, 2, 4).expect(&rt, "limits");
    let words = [
        "jdwp",
        "serve-script",
        "m",
        "--port",
        "80",
        "--limits",
        "4096,8,2,4",
    ];
    serves_within(&rt, rt.alloc(), &words, limits);
    let words = ["jdwp", "attach", "p", "--port", "80", "--limits=4096,8,2,4"];
    attaches_within(&rt, rt.alloc(), &words, limits);
    let words = ["jdwp", "pair", "m", "p", "--limits", "4096,8,2,4"];
    pairs_within(&rt, rt.alloc(), &words, limits);
}
