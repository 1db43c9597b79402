//! What is told, on writers in memory.
use crate::asserts::{expect_same, expect_same_for, expect_that};
use jdwp_attach::{LineFault, PlanFault};
use jdwp_end::Ended;
use jdwp_port::{PortCause, PortFault};
use jdwp_program::{
    Fault, FileCause, Loss, Outcome, Side, TellFault, Told, Watched, check_capture, decimal,
    is_all, limits, report_fault, report_outcome, show_capture, text_of,
};
use jdwp_script::{Cause, Detail, Entry, Member, Path, ScriptFault};
use jdwp_show::Table;
use jdwp_wire::Limits;
use std::alloc::Global;
use std::io;
use std::io::{ErrorKind, Write};
use std::process::Abort;

/// Takes so many bytes a call at most. The call of this number, counted from 1, fails.
#[derive(Drop)]
pub(super) struct Output {
    pub(super) bytes: Vec<u8>,
    most: usize,
    calls: usize,
    fails_at: usize,
    kind: ErrorKind,
}

impl Output {
    pub(super) fn new(alloc: Global, most: usize, fails_at: usize, kind: ErrorKind) -> Output {
        Output {
            bytes: Vec::new(alloc),
            most,
            calls: 0,
            fails_at,
            kind,
        }
    }
}

impl Write for Output {
    fn write(&mut self, bytes: &[u8]) -> io::Result<usize> {
        self.calls = self.calls.saturating_add(1);
        if self.calls == self.fails_at {
            return match self.kind {
                ErrorKind::WriteZero => Ok(0),
                kind => Err(io::Error::from(kind)),
            };
        }
        let count = self.most.min(bytes.len());
        self.bytes.extend_from_slice(&bytes[..count])?;
        Ok(count)
    }

    fn flush(&mut self) -> io::Result<()> {
        Ok(())
    }
}

const CAPTURE: &str = "> 4a4457502d48616e647368616b65
< 4a4457502d48616e647368616b65
> 0000000b00000001000107
< 0000001f000000018000000000000800000008000000080000000800000008
> 0000001300000003000b0c0000000000000001
< 0000000f0000000380000000000001
";

const SHOWN: &str = "> hello
< hello
> 1 VirtualMachine.IDSizes
< 1 reply VirtualMachine.IDSizes 0 8 8 8 8 8
> 3 ThreadReference.SuspendCount #1
< 3 reply ThreadReference.SuspendCount 0 1
";

/// A capture, what is shown of it, what is judged of it, and what is told.
static CAPTURES: [(&str, &str, &str, Told); 6] = [
    (CAPTURE, SHOWN, "yes\n", Told::Faultless),
    ("", "", "yes\n", Told::Faultless),
    ("> 4a44", "> more 2\n", "yes\n", Told::Faultless),
    (
        "> 4a4",
        "line 1: fault 51\n",
        "no: line 1: fault 51\n",
        Told::Faulty,
    ),
    (
        "> 4a4457502d48616e647368616b65\n< 4a4457502d48616e647368616b65\n> 0000000a\n",
        "> hello\n< hello\nline 3: fault 1\n",
        "no: line 3: fault 1\n",
        Told::Faulty,
    ),
    (
        "> 4a4457502d48616e647368616b65\n< 4a4457502d48616e647368616b65\n> 0000000b00000001000108\n> 0000000b00000001000109\n",
        "> hello\n< hello\n> 1 VirtualMachine.Suspend\nline 4: fault 53\n",
        "no: line 4: fault 53\n",
        Told::Faulty,
    ),
];

/// An output that takes all.
fn whole(alloc: Global) -> Output {
    Output::new(alloc, 1000, 0, ErrorKind::Other)
}

/// The capture is shown so.
fn is_shown(rt: &impl Abort, alloc: Global, capture: &str, shown: &str, told: &Told) {
    let mut out = whole(alloc);
    let found = show_capture(alloc, Table::Standard, capture, &mut out).expect(
        rt,
        "a capture that is shown",
    );
    expect_same(rt, &found, told);
    expect_same_for(rt, &out.bytes.as_slice(), &shown.as_bytes(), &capture);
}

/// The capture is judged so.
fn is_judged(rt: &impl Abort, alloc: Global, capture: &str, judged: &str, told: &Told) {
    let mut out = whole(alloc);
    let found = check_capture(alloc, Table::Standard, capture, &mut out).expect(
        rt,
        "a capture that is judged",
    );
    expect_same(rt, &found, told);
    expect_same_for(rt, &out.bytes.as_slice(), &judged.as_bytes(), &capture);
}

#[test]
fn captures_are_told(rt: HostRuntime) {
    for (capture, shown, judged, told) in CAPTURES.iter() {
        is_shown(&rt, rt.alloc(), capture, shown, told);
        is_judged(&rt, rt.alloc(), capture, judged, told);
    }
}

/// How the telling ends, as a name.
fn end(told: Result<Told, TellFault>) -> &'static str {
    match told {
        Ok(Told::Faultless) => "faultless",
        Ok(Told::Faulty) => "faulty",
        Ok(Told::Unread) => "unread",
        Err(TellFault::Output(_)) => "output",
        Err(TellFault::NoMemory) => "no memory",
    }
}

/// The capture is shown so, where an output that takes so many bytes a call breaks at this call.
fn breaks(rt: &impl Abort, alloc: Global, most: usize, call: usize, kind: ErrorKind, want: &str) {
    let before = most.saturating_mul(call.saturating_sub(1));
    let is_broken = before < SHOWN.len() && want != "faultless";
    let mut out = Output::new(alloc, most, call, kind);
    let ended = end(show_capture(alloc, Table::Standard, CAPTURE, &mut out));
    expect_same(rt, &ended, &if is_broken { want } else { "faultless" });
    let taken = if is_broken { before } else { SHOWN.len() };
    expect_same(
        rt,
        &out.bytes.as_slice(),
        &&SHOWN.as_bytes()[..taken.min(SHOWN.len())],
    );
}

#[test]
fn an_output_that_breaks(rt: HostRuntime) {
    for (kind, want) in [
        (ErrorKind::BrokenPipe, "unread"),
        (ErrorKind::StorageFull, "output"),
        (ErrorKind::WriteZero, "output"),
        (ErrorKind::Interrupted, "faultless"),
    ] {
        for most in [1, 7, 1000] {
            for call in 1..20usize {
                breaks(&rt, rt.alloc(), most, call, kind, want);
            }
        }
    }
}

/// The fault is told by this status and this text.
fn is_told(rt: &impl Abort, alloc: Global, fault: Fault, status: u8, text: &str) {
    let mut err = whole(alloc);
    expect_same_for(rt, &report_fault(&fault, &mut err), &status, &text);
    expect_same_for(rt, &err.bytes.as_slice(), &text.as_bytes(), &text);
    // A standard error that breaks changes no status.
    let mut err = Output::new(alloc, 1, 3, ErrorKind::BrokenPipe);
    expect_same_for(rt, &report_fault(&fault, &mut err), &status, &text);
}

/// A fault of the file a/b is told by the status 1 and this text.
fn is_told_of_file(rt: &impl Abort, alloc: Global, cause: FileCause, text: &str) {
    is_told(rt, alloc, Fault::File("a/b", cause), 1, text);
}

#[test]
fn faults_of_files_are_told(rt: HostRuntime) {
    let alloc = rt.alloc();
    let absent = "jdwp: a/b: no such file or folder\n";
    is_told_of_file(&rt, alloc, FileCause::Absent, absent);
    let not_allowed = "jdwp: a/b: not allowed\n";
    is_told_of_file(&rt, alloc, FileCause::NotAllowed, not_allowed);
    let folder = "jdwp: a/b: a folder, not a file\n";
    is_told_of_file(&rt, alloc, FileCause::Folder, folder);
    let no_text = "jdwp: a/b: not UTF-8 at byte 7, counted from 0\n";
    is_told_of_file(&rt, alloc, FileCause::NotUtf8(7), no_text);
    let also_read = "jdwp: a/b: a file that is read, too: writing to it would empty it\n";
    is_told_of_file(&rt, alloc, FileCause::AlsoRead, also_read);
    let full = io::Error::from(ErrorKind::StorageFull);
    let no_space = "jdwp: a/b: no storage space\n";
    is_told_of_file(&rt, alloc, FileCause::Other(full), no_space);
}

/// The fault of the script a/b is told so where nothing more is known.
fn is_told_of_script(rt: &impl Abort, alloc: Global, fault: ScriptFault, status: u8, text: &str) {
    let fault = Fault::of_script("a/b", fault, Detail::UNSAID);
    is_told(rt, alloc, fault, status, text);
}

#[test]
fn faults_of_scripts_are_told(rt: HostRuntime) {
    let alloc = rt.alloc();
    let missing = ScriptFault::Missing(Member::Last);
    let text = "jdwp: a/b: fault 22: the member last is missing or of another type\n";
    is_told_of_script(&rt, alloc, missing, 1, text);
    let text = "jdwp: a/b: fault 25: a bad reference\n";
    is_told_of_script(&rt, alloc, ScriptFault::BadReference, 1, text);
    let text = "jdwp: no memory\n";
    is_told_of_script(&rt, alloc, ScriptFault::NoMemory, 3, text);
}

/// A fault of a script is followed by what is known beside it.
#[test]
fn details_of_scripts_are_told(rt: HostRuntime) {
    let class = Entry {
        list: Member::Classes,
        place: 0,
    };
    let method = Entry {
        list: Member::Methods,
        place: 2,
    };
    let detail = Detail {
        cause: Cause::Long(512),
        path: Path {
            outer: Some(class),
            middle: Some(method),
            inner: None,
        },
    };
    let fault = Fault::of_script("M.json", ScriptFault::OverLimit, detail);
    let text =
        "jdwp: M.json: fault 26: a limit is passed: a text of more than 512 bytes, in classes[0].methods[2]\n";
    is_told(&rt, rt.alloc(), fault, 1, text);
}

/// The fault of the plan p, whose text begins so, is told by this status and this text.
fn is_told_of_plan(rt: &impl Abort, alloc: Global, begin: &str, status: u8, text: &str) {
    let fault = PlanFault::Line(1, LineFault::Blank);
    is_told(rt, alloc, Fault::of_plan("p", begin, fault), status, text);
}

#[test]
fn faults_of_plans_name_the_file(rt: HostRuntime) {
    let alloc = rt.alloc();
    let text = "jdwp: p: line 1 of the plan: an empty line\n";
    is_told_of_plan(&rt, alloc, "\nmirror\n", 1, text);
    is_told_of_plan(&rt, alloc, "", 1, text);
    is_told_of_plan(&rt, alloc, "mirror\n\u{feff}", 1, text);
    let mark = "jdwp: p: a byte order mark stands before the first line of the plan\n";
    is_told_of_plan(&rt, alloc, "\u{feff}mirror\n", 1, mark);
    let fault = Fault::of_plan("p", "\u{feff}", PlanFault::NoMemory);
    is_told(&rt, alloc, fault, 3, "jdwp: no memory\n");
}

#[test]
fn faults_of_words_are_told(rt: HostRuntime) {
    let words = "error: two\n\nlines"
        .to_string(rt.alloc())
        .expect(&rt, "memory");
    let text = "jdwp: error: two\n\nlines\n";
    is_told(&rt, rt.alloc(), Fault::Words(words), 1, text);
    let text = "jdwp: a word is not UTF-8\n";
    is_told(&rt, rt.alloc(), Fault::NotText, 1, text);
}

#[test]
fn faults_of_the_program_are_told(rt: HostRuntime) {
    let full = io::Error::from(ErrorKind::StorageFull);
    let text = "jdwp: the output can't be written: no storage space\n";
    is_told(&rt, rt.alloc(), Fault::Output(full), 2, text);
    is_told(&rt, rt.alloc(), Fault::NoMemory, 3, "jdwp: no memory\n");
}

/// How a run ends, its status, and what is told.
static ENDS: [(Outcome<'static>, u8, &str); 25] = [
    (Outcome::Session(Ended::Done), 0, ""),
    (
        Outcome::Session(Ended::Refused(0)),
        1,
        "jdwp: fault 0: the session is open already\n",
    ),
    (
        Outcome::Session(Ended::Refused(1)),
        1,
        "jdwp: fault 1: a packet length below 11\n",
    ),
    (
        Outcome::Session(Ended::Refused(2)),
        1,
        "jdwp: fault 2: a packet length above the limit\n",
    ),
    (
        Outcome::Session(Ended::Refused(3)),
        1,
        "jdwp: fault 3: packet flags other than 00 and 80\n",
    ),
    (
        Outcome::Session(Ended::Refused(4)),
        1,
        "jdwp: fault 4: not the handshake\n",
    ),
    (
        Outcome::Session(Ended::Refused(31)),
        1,
        "jdwp: fault 31: the widths of ids are not known yet\n",
    ),
    (
        Outcome::Session(Ended::Refused(32)),
        1,
        "jdwp: fault 32: too much waits\n",
    ),
    (
        Outcome::Session(Ended::Refused(33)),
        1,
        "jdwp: fault 33: the session is closed\n",
    ),
    (
        Outcome::Session(Ended::Refused(34)),
        1,
        "jdwp: fault 34: a command longer than a packet may be\n",
    ),
    (
        Outcome::Session(Ended::Refused(36)),
        1,
        "jdwp: fault 36: a command that no target has, or data that do not read in its layout\n",
    ),
    (
        Outcome::Session(Ended::Refused(42)),
        1,
        "jdwp: fault 42: a reply to no command that waits\n",
    ),
    (
        Outcome::Session(Ended::Refused(43)),
        1,
        "jdwp: fault 43: a reply whose data do not read, or an error reply with data\n",
    ),
    (
        Outcome::Session(Ended::Refused(44)),
        1,
        "jdwp: fault 44: more composites than may wait for the widths of ids\n",
    ),
    (
        Outcome::Session(Ended::Refused(45)),
        1,
        "jdwp: fault 45: events that don't fit the suspend counts known, or another command\n",
    ),
    (
        Outcome::Session(Ended::LostByRead),
        2,
        "jdwp: the connection is lost at a read\n",
    ),
    (
        Outcome::Session(Ended::LostByWrite),
        2,
        "jdwp: the connection is lost at a write\n",
    ),
    (Outcome::Session(Ended::NoMemory), 3, "jdwp: no memory\n"),
    (
        Outcome::Session(Ended::TurnLimit),
        4,
        "jdwp: the turn limit of --turns is reached\n",
    ),
    (
        Outcome::Lost(Loss::FileEnded("F")),
        2,
        "jdwp: F: the file ended before the session did\n",
    ),
    (
        Outcome::Lost(Loss::Port(40_000, PortCause::Refused)),
        2,
        "jdwp: port 40000: connection refused\n",
    ),
    (Outcome::Lost(Loss::ReaderGone), 2, ""),
    (Outcome::Capture(Told::Faultless), 0, ""),
    (Outcome::Capture(Told::Faulty), 1, ""),
    (Outcome::Capture(Told::Unread), 2, ""),
];

/// The end of a run is told by this status and this text.
fn has_ended(rt: &impl Abort, alloc: Global, outcome: Outcome<'_>, status: u8, text: &str) {
    let mut err = whole(alloc);
    expect_same_for(rt, &report_outcome(outcome, &mut err), &status, &text);
    expect_same_for(rt, &err.bytes.as_slice(), &text.as_bytes(), &text);
}

/// A connection that failed is told with its port, and want of memory alone.
#[test]
fn ports_of_lost_sessions_are_told(rt: HostRuntime) {
    let rows = [
        (
            ErrorKind::ConnectionReset,
            2,
            "jdwp: port 40000: connection reset\n",
        ),
        (
            ErrorKind::PermissionDenied,
            2,
            "jdwp: port 40000: not allowed\n",
        ),
        (ErrorKind::OutOfMemory, 3, "jdwp: no memory\n"),
    ];
    for (kind, status, text) in rows {
        let fault = PortFault::of_port(40_000, io::Error::from(kind));
        has_ended(&rt, rt.alloc(), Outcome::lost_port(fault), status, text);
    }
}

#[test]
fn ends_are_told(rt: HostRuntime) {
    for &(outcome, status, text) in ENDS.iter() {
        has_ended(&rt, rt.alloc(), outcome, status, text);
    }
}

/// The error of a file is told so.
fn is_cause(rt: &impl Abort, alloc: Global, kind: ErrorKind, text: &str) {
    let fault = Fault::of_file("f", io::Error::from(kind));
    let told = fault.to_string(alloc).expect(rt, "memory");
    expect_same(rt, &told.as_str(), &text);
}

#[test]
fn causes_of_files(rt: HostRuntime) {
    for (kind, text) in [
        (ErrorKind::NotFound, "f: no such file or folder"),
        (ErrorKind::PermissionDenied, "f: not allowed"),
        (ErrorKind::IsADirectory, "f: a folder, not a file"),
        (ErrorKind::StorageFull, "f: no storage space"),
        (ErrorKind::OutOfMemory, "no memory"),
    ] {
        is_cause(&rt, rt.alloc(), kind, text);
    }
}

/// The text of bytes, or the place of the first that is of none.
fn read_text<'a>(rt: &impl Abort, bytes: &'a [u8]) -> Result<&'a str, usize> {
    match text_of(bytes) {
        Ok(text) => Ok(text),
        Err(FileCause::NotUtf8(place)) => Err(place),
        Err(_) => panic!(rt; "another cause"),
    }
}

#[test]
fn texts_of_files(rt: HostRuntime) {
    expect_same(&rt, &read_text(&rt, b""), &Ok(""));
    expect_same(&rt, &read_text(&rt, b"> 4a\n"), &Ok("> 4a\n"));
    expect_same(&rt, &read_text(&rt, "\u{e9}".as_bytes()), &Ok("\u{e9}"));
    expect_same(&rt, &read_text(&rt, b"> \xff"), &Err(2));
    expect_same(&rt, &read_text(&rt, b"> 4a\n\xc3"), &Err(5));
}

/// A word, and the number that it is, if it is one.
static NUMBERS: [(&str, Option<u32>); 19] = [
    ("0", Some(0)),
    ("7", Some(7)),
    ("007", Some(7)),
    ("65535", Some(65535)),
    ("4294967295", Some(4294967295)),
    ("4294967296", None),
    ("18446744073709551617", None),
    ("", None),
    ("+", None),
    ("+5", None),
    ("-5", None),
    ("-0", None),
    (" 5", None),
    ("5 ", None),
    ("5.0", None),
    ("0x5", None),
    ("1_000", None),
    ("five", None),
    ("\u{663}", None),
];

/// A word, and whether it says that all threads start suspended, if it says one or the other.
static STARTS: [(&str, Option<bool>); 6] = [
    ("all", Some(true)),
    ("none", Some(false)),
    ("", None),
    ("ALL", None),
    ("some", None),
    ("all ", None),
];

#[test]
fn numbers_are_digits_alone(rt: HostRuntime) {
    for (text, number) in NUMBERS.iter() {
        expect_same_for(&rt, &decimal(text), number, text);
    }
    for (text, start) in STARTS.iter() {
        expect_same_for(&rt, &is_all(text), start, text);
    }
}

/// Texts that say limits, and these.
static LIMITS: [(&str, (u32, u32, u32, u32)); 4] = [
    ("2048,64,3,64", (2048, 64, 3, 64)),
    ("4096,8,2,4", (4096, 8, 2, 4)),
    ("1048576,1024,1024,1024", (1048576, 1024, 1024, 1024)),
    ("065536,1,01,64", (65536, 1, 1, 64)),
];

/// Texts that say none.
static NO_LIMITS: [&str; 19] = [
    "",
    ",",
    ",,,",
    "65536",
    "65536,64,64",
    "65536,64,64,",
    ",64,64,64",
    "65536,,64,64",
    "65536,64,64,64,",
    "65536,64,64,64,64",
    "65536, 64, 64, 64",
    "+65536,64,64,64",
    "65536,64,64,-64",
    "4295032832,64,64,64",
    "2048,64,4,64",
    "2047,64,3,64",
    "1048577,64,64,64",
    "65536,0,64,64",
    "65536,64,64,1025",
];

#[test]
fn limits_are_four_numbers(rt: HostRuntime) {
    for &(text, (packet, live, requests, pending)) in LIMITS.iter() {
        let wanted = Limits::new(packet, live, requests, pending).expect(&rt, "limits");
        expect_same_for(&rt, &limits(text), &Some(wanted), &text);
    }
    for text in NO_LIMITS.iter() {
        expect_same_for(&rt, &limits(text), &None, text);
    }
}

/// Gives no byte: its reads fail so, or it is at its end.
#[derive(Drop)]
struct Dry {
    kind: Option<ErrorKind>,
}

impl io::Read for Dry {
    fn read(&mut self, _buffer: &mut [u8]) -> io::Result<usize> {
        match self.kind {
            Some(kind) => Err(io::Error::from(kind)),
            None => Ok(0),
        }
    }
}

/// The file F that reads failed on so, if they did.
fn read_side(kind: Option<ErrorKind>) -> Side<'static> {
    let mut reader = Watched::new(Dry { kind });
    let mut buffer = [0u8; 4];
    let _ = io::Read::read(&mut reader, &mut buffer);
    Side {
        path: "F",
        failure: reader.failure(),
    }
}

/// The error of a writer to which three bytes were written one by one, where the call of this number failed so.
fn write_failure(alloc: Global, call: usize, kind: ErrorKind) -> Option<io::Error> {
    let mut writer = Watched::new(Output::new(alloc, 1, call, kind));
    for byte in [1u8, 2, 3] {
        let _ = writer.write(&[byte]);
    }
    writer.failure()
}

/// Where a session was lost, as it is told.
fn is_lost(
    rt: &impl Abort,
    alloc: Global,
    ended: Ended,
    sides: (Side<'_>, Side<'_>),
    output: Option<io::Error>,
    text: &str,
) {
    let outcome = Outcome::of_session(ended, sides.0, sides.1, output);
    has_ended(rt, alloc, outcome, 2, text);
}

/// A read at the end of the file is told apart from one that failed.
#[test]
fn losses_at_a_read_are_told(rt: HostRuntime) {
    let to = Side {
        path: "T",
        failure: None,
    };
    let ended = "jdwp: F: the file ended before the session did\n";
    let sides = (read_side(None), to);
    is_lost(&rt, rt.alloc(), Ended::LostByRead, sides, None, ended);
    let interrupted = (read_side(Some(ErrorKind::Interrupted)), to);
    is_lost(&rt, rt.alloc(), Ended::LostByRead, interrupted, None, ended);
    let failed = (read_side(Some(ErrorKind::PermissionDenied)), to);
    let text = "jdwp: F: can't be read: permission denied\n";
    is_lost(&rt, rt.alloc(), Ended::LostByRead, failed, None, text);
}

/// A write that failed is that to the file where it failed, and else that to the output.
#[test]
fn losses_at_a_write_are_told(rt: HostRuntime) {
    let alloc = rt.alloc();
    let full = write_failure(alloc, 2, ErrorKind::StorageFull);
    let gone = write_failure(alloc, 1, ErrorKind::BrokenPipe);
    let from = read_side(None);
    let kept = Side {
        path: "T",
        failure: write_failure(alloc, 2, ErrorKind::Interrupted),
    };
    let failed = Side {
        path: "T",
        failure: full,
    };
    let by_write = Ended::LostByWrite;
    let text = "jdwp: T: can't be written: no storage space\n";
    is_lost(&rt, alloc, by_write, (from, failed), None, text);
    is_lost(&rt, alloc, by_write, (from, failed), gone, text);
    let text = "jdwp: the output can't be written: no storage space\n";
    is_lost(&rt, alloc, by_write, (from, kept), full, text);
    is_lost(&rt, alloc, by_write, (from, kept), gone, "");
    let text = "jdwp: the connection is lost at a write\n";
    is_lost(&rt, alloc, by_write, (from, kept), None, text);
    let none_taken = write_failure(alloc, 3, ErrorKind::WriteZero);
    expect_that(&rt, none_taken.is_some());
}

/// A line, the number of its refusal, and how it is told where so many commands may wait.
static REFUSED_LINES: [(usize, u16, u32, &str); 4] = [
    (
        3,
        36,
        64,
        "jdwp: line 3 of the plan: fault 36: a command that no target has, or data that do not read in its layout\n",
    ),
    (
        65,
        32,
        64,
        "jdwp: line 65 of the plan: fault 32: too much waits: 64 commands at most\n",
    ),
    (
        2,
        32,
        1,
        "jdwp: line 2 of the plan: fault 32: too much waits: 1 command at most\n",
    ),
    (
        2,
        0,
        64,
        "jdwp: line 2 of the plan: a line of `pair` alone\n",
    ),
];

#[test]
fn refused_lines_are_told(rt: HostRuntime) {
    for &(line, number, most, text) in REFUSED_LINES.iter() {
        let outcome = Outcome::RefusedLine(line, number, most);
        has_ended(&rt, rt.alloc(), outcome, 1, text);
    }
}

/// Only a loss is told by the files.
#[test]
fn other_ends_are_told_without_files(rt: HostRuntime) {
    let from = read_side(Some(ErrorKind::PermissionDenied));
    let output = write_failure(rt.alloc(), 1, ErrorKind::StorageFull);
    let outcome = Outcome::of_session(Ended::Done, from, from, output);
    has_ended(&rt, rt.alloc(), outcome, 0, "");
}
