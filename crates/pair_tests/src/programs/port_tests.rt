//! What is told of sessions at a port and of plans that stand still, of the version, and of recordings of the network.
use crate::asserts::{expect_same, expect_same_for};
use jdwp_attach::{Attached, read_plan};
use jdwp_end::Ended;
use jdwp_port::{AtPort, Notice, PortCause};
use jdwp_program::{
    Awaited, Lines, Outcome, Told, VERSION, is_recording, report_outcome, tell_version,
};
use jdwp_wire::Limits;
use std::alloc::Global;
use std::io;
use std::io::{ErrorKind, Write};
use std::process::Abort;

/// An outcome has this status and is told so.
fn is_told(rt: &impl Abort, alloc: Global, outcome: Outcome<'_>, status: u8, text: &str) {
    let mut err = Vec::new(alloc);
    expect_same_for(rt, &report_outcome(outcome, &mut err), &status, &text);
    expect_same(rt, &err.as_slice(), &text.as_bytes());
}

/// Which line of a plan waits, for what, and what is told.
static STANDSTILLS: [(usize, Awaited, &str); 6] = [
    (
        1,
        Awaited::Widths,
        "jdwp: nothing more can happen: line 1 of the plan waits for the widths of ids\n",
    ),
    (
        2,
        Awaited::Answers,
        "jdwp: nothing more can happen: line 2 of the plan waits for the answers to what was asked\n",
    ),
    (
        3,
        Awaited::Composites(1),
        "jdwp: nothing more can happen: line 3 of the plan waits for 1 composite of the session\n",
    ),
    (
        40,
        Awaited::Composites(4_294_967_295),
        "jdwp: nothing more can happen: line 40 of the plan waits for 4294967295 composites of the session\n",
    ),
    (
        5,
        Awaited::Ends,
        "jdwp: nothing more can happen: line 5 of the plan waits for both ends to be closed, with no command that waits, in a machine that lives\n",
    ),
    (
        6,
        Awaited::LastAnswers,
        "jdwp: nothing more can happen: behind its last line the plan waits for the answers to what was asked\n",
    ),
];

#[test]
fn a_plan_that_stands_still_is_told(rt: HostRuntime) {
    for &(line, awaited, text) in STANDSTILLS.iter() {
        is_told(&rt, rt.alloc(), Outcome::Standstill(line, awaited), 4, text);
    }
}

/// A plan, and what each of its lines waits for.
const PLAN: &str = "ask 1 8\nanswers\nevents 2\nmirror\nlose target\nlose debugger\nattach\n";

static AWAITED: [Awaited; 9] = [
    Awaited::LastAnswers,
    Awaited::Widths,
    Awaited::Answers,
    Awaited::Composites(2),
    Awaited::Widths,
    Awaited::Widths,
    Awaited::Widths,
    Awaited::Ends,
    Awaited::LastAnswers,
];

#[test]
fn lines_wait(rt: HostRuntime) {
    let plan = read_plan(rt.alloc(), PLAN).expect(&rt, "a plan");
    for (line, want) in AWAITED.iter().enumerate() {
        let found = Awaited::at(plan.as_slice(), line);
        expect_same_for(&rt, &found, want, &line);
    }
}

/// How a session at port 8000 ended, at which error its connection failed, at which one the output, the status, and what is told.
static ENDS: [(Attached, Option<ErrorKind>, Option<ErrorKind>, u8, &str); 9] = [
    (Attached::Ended(Ended::Done), None, None, 0, ""),
    (
        Attached::Ended(Ended::LostByRead),
        None,
        None,
        2,
        "jdwp: port 8000: the connection ended before the session did\n",
    ),
    (
        Attached::Ended(Ended::LostByRead),
        Some(ErrorKind::ConnectionReset),
        None,
        2,
        "jdwp: port 8000: connection reset\n",
    ),
    (
        Attached::Ended(Ended::LostByWrite),
        Some(ErrorKind::BrokenPipe),
        None,
        2,
        "jdwp: port 8000: broken pipe\n",
    ),
    (
        Attached::Ended(Ended::LostByWrite),
        Some(ErrorKind::TimedOut),
        Some(ErrorKind::StorageFull),
        2,
        "jdwp: port 8000: timed out\n",
    ),
    (
        Attached::Ended(Ended::LostByWrite),
        None,
        Some(ErrorKind::StorageFull),
        2,
        "jdwp: the output can't be written: no storage space\n",
    ),
    (
        Attached::Ended(Ended::LostByWrite),
        None,
        Some(ErrorKind::BrokenPipe),
        2,
        "",
    ),
    (
        Attached::RefusedLine {
            line: 3,
            number: 33,
        },
        None,
        None,
        1,
        "jdwp: line 3 of the plan: fault 33: the session is closed\n",
    ),
    (
        Attached::Ended(Ended::TurnLimit),
        None,
        None,
        4,
        "jdwp: the turn limit of --turns is reached\n",
    ),
];

/// The error of this kind, if there is one.
fn error_of(kind: Option<ErrorKind>) -> Option<io::Error> {
    match kind {
        Some(kind) => Some(io::Error::from(kind)),
        None => None,
    }
}

/// The cause that an error of this kind is, if there is one.
fn cause_of(kind: Option<ErrorKind>) -> Option<PortCause> {
    match kind {
        Some(kind) => Some(PortCause::of(io::Error::from(kind))),
        None => None,
    }
}

#[test]
fn sessions_at_a_port_are_told(rt: HostRuntime) {
    for &(how, connection, output, status, text) in ENDS.iter() {
        let failure = cause_of(connection);
        let session = AtPort { how, failure };
        let outcome = Outcome::at_port(session, 8000, Limits::standard(), error_of(output));
        is_told(&rt, rt.alloc(), outcome, status, text);
    }
}

/// A writer of which some calls take nothing.
#[derive(Drop)]
struct Full {
    bytes: Vec<u8>,
    calls: usize,
    /// Whether each call takes all of its bytes, in order; each further one does.
    takes: &'static [bool],
}

impl Write for Full {
    fn write(&mut self, bytes: &[u8]) -> io::Result<usize> {
        let call = self.calls;
        self.calls = self.calls.saturating_add(1);
        if self.takes.get(call) == Some(&false) {
            return Err(io::Error::from(ErrorKind::WouldBlock));
        }
        self.bytes.extend_from_slice(bytes)?;
        Ok(bytes.len())
    }

    fn flush(&mut self) -> io::Result<()> {
        Ok(())
    }
}

/// Each line is one write; one that is not taken is dropped and counted, and the next one that is taken says how many were.
#[test]
fn lines_that_are_not_taken_are_counted(rt: HostRuntime) {
    let mut err = Full {
        bytes: Vec::new(rt.alloc()),
        calls: 0,
        takes: &[true, false, false, true, true, false],
    };
    let mut lines = Lines::new(rt.alloc(), &mut err, 8000);
    let cause = PortCause::of(io::Error::from(ErrorKind::ConnectionReset));
    for (notice, dropped) in [
        (Notice::Refused(4), 0),
        (Notice::Refused(4), 1),
        (Notice::Refused(2), 2),
        (Notice::Lost(cause), 0),
        (Notice::Again(cause), 0),
        (Notice::Refused(1), 1),
    ] {
        lines.tell(notice);
        expect_same(&rt, &lines.dropped(), &dropped);
    }
    lines.end();
    expect_same(&rt, &lines.dropped(), &0);
    let text = "jdwp: fault 4: not the handshake
jdwp: lines before this one that were dropped: 2
jdwp: port 8000: connection reset
jdwp: port 8000: no connection is taken, and another call is made: connection reset
jdwp: lines before this one that were dropped: 1
";
    expect_same(&rt, &err.bytes.as_slice(), &text.as_bytes());
}

/// The version is told in a line, and whoever doesn't take it is told apart.
#[test]
fn the_version_is_told(rt: HostRuntime) {
    let mut out = Vec::new(rt.alloc());
    let told = tell_version(&mut out).expect(&rt, "an output");
    expect_same(&rt, &told, &Told::Faultless);
    expect_same(&rt, &out.as_slice(), &b"jdwp 0.1.0\n".as_slice());
    expect_same(&rt, &VERSION, &"0.1.0");
    is_told(&rt, rt.alloc(), Outcome::Version(Told::Faultless), 0, "");
    is_told(&rt, rt.alloc(), Outcome::Version(Told::Unread), 2, "");
    let mut full = Full {
        bytes: Vec::new(rt.alloc()),
        calls: 0,
        takes: &[false],
    };
    expect_same(&rt, &tell_version(&mut full).is_err(), &true);
}

/// Beginnings of recordings of the network, in five forms.
static RECORDINGS: [[u8; 6]; 5] = [
    [0xd4, 0xc3, 0xb2, 0xa1, 0x02, 0x00],
    [0xa1, 0xb2, 0xc3, 0xd4, 0x00, 0x02],
    [0x4d, 0x3c, 0xb2, 0xa1, 0x02, 0x00],
    [0xa1, 0xb2, 0x3c, 0x4d, 0x00, 0x02],
    [0x0a, 0x0d, 0x0d, 0x0a, 0x1c, 0x00],
];

/// Beginnings of other files.
static OTHERS: [&[u8]; 6] = [
    b"",
    b"> 4a44",
    b"\n\r\r",
    &[0xd4, 0xc3, 0xb2],
    &[0xd4, 0xc3, 0xb2, 0xa2],
    &[0x00, 0xa1, 0xb2, 0xc3, 0xd4],
];

#[test]
fn recordings_are_told_apart(rt: HostRuntime) {
    for bytes in RECORDINGS.iter() {
        expect_same_for(&rt, &is_recording(bytes), &true, bytes);
        expect_same_for(&rt, &is_recording(&bytes[..4]), &true, bytes);
    }
    for bytes in OTHERS.iter() {
        expect_same_for(&rt, &is_recording(bytes), &false, bytes);
    }
}
