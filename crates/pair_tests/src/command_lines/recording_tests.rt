//! Words of a recorder.
use crate::command_lines::word_tests::{are_read, is_helped};
use jdwp_program::{Record, Words};
use std::alloc::Global;
use std::process::Abort;

/// Words behind `record`, and what they say: the ports of debuggers and of the target, and whether sessions are shown, and one is wanted.
static TAKEN: [(&[&str], u16, u16, bool, bool); 4] = [
    (
        &["--listen", "8001", "--port", "8000", "--to", "f"],
        8001,
        8000,
        false,
        false,
    ),
    (
        &["--to=f", "--port=1", "--listen=0", "--show"],
        0,
        1,
        true,
        false,
    ),
    (
        &[
            "--once", "--listen", "65535", "--to", "f", "--port", "65535",
        ],
        65535,
        65535,
        false,
        true,
    ),
    (
        &[
            "--listen", "1", "--port", "2", "--to", "f", "--show", "--once",
        ],
        1,
        2,
        true,
        true,
    ),
];

/// The words behind `record` are read so.
fn records(rt: &impl Abort, alloc: Global, more: &[&str], record: Record<'_>) {
    let want = Words::Record(record);
    let mut words = Vec::new(alloc);
    words
        .extend_from_slice(&["jdwp", "record"])
        .expect(rt, "memory");
    words.extend_from_slice(more).expect(rt, "memory");
    are_read(rt, alloc, words.as_slice(), &want);
}

/// Words of a recorder that are refused, and the texts that are told, as those of other words.
static REFUSED: [(&str, &str); 11] = [
    (
        "record --help",
        "Stands between|Usage: jdwp record |--listen <N>|--port <N>|--to <FILE>|--show|--once",
    ),
    (
        "--help",
        "Ends of the Java Debug Wire Protocol|\n  record |",
    ),
    (
        "record --port 80 --to f",
        "error: the following required arguments were not provided:|--listen <N>|Usage: jdwp record ",
    ),
    (
        "record --listen 0 --to f",
        "error: the following required arguments were not provided:|--port <N>|Usage: jdwp record ",
    ),
    (
        "record --listen 0 --port 80",
        "error: the following required arguments were not provided:|--to <FILE>|Usage: jdwp record ",
    ),
    (
        "record --listen 0 --port 0 --to f",
        "error: invalid value '0' for '--port <N>': 0 is not in 1..=65535",
    ),
    (
        "record --listen 65536 --port 80 --to f",
        "error: invalid value '65536' for '--listen <N>': 65536 is not in 0..=65535",
    ),
    (
        "record --listen +8 --port 80 --to f",
        "error: invalid value '+8' for '--listen <N>': a number is digits alone|Usage: jdwp record ",
    ),
    (
        "record --listen 0 --port 80 --to f --once --once",
        "error: |'--once'|Usage: jdwp record ",
    ),
    (
        "record --listen 0 --port 80 --to f --live",
        "error: unexpected argument '--live'|Usage: ",
    ),
    (
        "record --listen 0 --port 80 --to f g",
        "error: unexpected argument 'g'|Usage: ",
    ),
];

/// The words of a recorder are read, and others refused with the usage.
#[test]
fn words_of_a_recorder_are_read(rt: HostRuntime) {
    for &(more, listen, port, show, once) in TAKEN.iter() {
        let record = Record {
            listen,
            port,
            to: "f",
            show,
            once,
        };
        records(&rt, rt.alloc(), more, record);
    }
    for &(words, texts) in REFUSED.iter() {
        is_helped(&rt, words, texts);
    }
}
