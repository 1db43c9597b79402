//! Runs of a debugger by plans, byte for byte and line for line.
ghost use Rattle.std.specs.Prelude.{◌≤◌, IfOk, IfSome, ◌≡◌};

use crate::asserts::{expect_same, expect_that};
use jdwp_attach::{PlanLine, attach};
use jdwp_debugger::Debugger;
use jdwp_end::{Ended, Streams};
use std::alloc::Global;
use std::io;
use std::io::{ErrorKind, Read, Write};
use std::process::Abort;
use test_parts::push_bytes;

const HANDSHAKE: &str = "4a4457502d48616e647368616b65";

/// IDSizes under the id 1, as a debugger asks it by itself.
const ASKS_SIZES: &str = "0000000b 00000001 00 01 07";

/// Its answer: 8 for all.
const EIGHT: &str = "0000001f 00000001 80 0000 00000008 00000008 00000008 00000008 00000008";

/// VM_START of thread 1 that suspends nothing, ids 8 bytes wide.
const VM_START: &str = "0000001d 00000001 00 40 64 00 00000001 5a 00000000 0000000000000001";

const VM_DEATH: &str = "00000015 00000002 00 40 64 00 00000001 63 00000000";

/// The line of a plan.
#[derive(Clone, Copy)]
enum Line {
    Ask(u8, u8, &'static str),
    Answers,
    Events(u32),
    Mirror,
    LoseTarget,
    LoseDebugger,
    Attach,
}

/// What is done, and what comes of it.
#[derive(Clone, Copy)]
struct Case {
    /// What the target sends, in hex.
    from: &'static [&'static str],
    plan: &'static [Line],
    turns: u64,
    /// Which write to the target fails, from 1; 0 for none.
    write_fails: u32,
    /// Which write of lines fails, from 1; 0 for none.
    print_fails: u32,
    /// Which flush of what is sent to the target fails, from 1; 0 for none.
    write_flush_fails: u32,
    /// Which flush of the lines fails, from 1; 0 for none.
    print_flush_fails: u32,
    ended: Ended,
    /// What the debugger sends, in hex.
    to: &'static [&'static str],
    lines: &'static str,
}

/// No write fails, and there are turns enough.
const CASE: Case = Case {
    from: &[],
    plan: &[],
    turns: 1000,
    write_fails: 0,
    print_fails: 0,
    write_flush_fails: 0,
    print_flush_fails: 0,
    ended: Ended::Done,
    to: &[],
    lines: "",
};

/// Gives so many bytes a call at most.
#[derive(Drop)]
struct Reader<'a> {
    bytes: &'a [u8],
    most: usize,
}

impl<'a> Read for Reader<'a> {
    fn read(&mut self, buffer: &mut [u8]) -> io::Result<usize> {
        let count = self.most.min(buffer.len()).min(self.bytes.len());
        buffer[..count].copy_from_slice(&self.bytes[..count]);
        self.bytes = &self.bytes[count..];
        Ok(count)
    }
}

/// Takes so many bytes a call at most, and fails at one call, and at one flush.
#[derive(Drop)]
struct Writer {
    bytes: Vec<u8>,
    most: usize,
    calls: u32,
    fails: u32,
    flushes: u32,
    flush_fails: u32,
}

impl Writer {
    fn failing(alloc: Global, most: usize, fails: u32, flush_fails: u32) -> Writer {
        Writer {
            bytes: Vec::new(alloc),
            most,
            calls: 0,
            fails,
            flushes: 0,
            flush_fails,
        }
    }
}

impl Write for Writer {
    fn write(&mut self, bytes: &[u8]) -> io::Result<usize> {
        self.calls = self.calls.saturating_add(1);
        if self.calls == self.fails {
            return Err(io::Error::from(ErrorKind::ConnectionReset));
        }
        let count = self.most.min(bytes.len());
        self.bytes.extend_from_slice(&bytes[..count])?;
        Ok(count)
    }

    fn flush(&mut self) -> io::Result<()> {
        self.flushes = self.flushes.saturating_add(1);
        if self.flushes == self.flush_fails {
            return Err(io::Error::from(ErrorKind::ConnectionReset));
        }
        Ok(())
    }
}

/// The bytes that these texts spell in hex, one after the other.
fn hex(rt: &impl Abort, alloc: Global, texts: &[&str]) -> Vec<u8> {
    let mut bytes = Vec::new(alloc);
    for text in texts {
        push_bytes(&mut bytes, text).expect(rt, "memory");
    }
    bytes
}

/// The plan of these lines.
fn plan(rt: &impl Abort, alloc: Global, lines: &[Line]) -> Vec<PlanLine> {
    let mut plan = Vec::new(alloc);
    for line in lines {
        plan.push(plan_line(rt, alloc, line)).expect(rt, "memory");
    }
    plan
}

/// The line as a plan has it.
fn plan_line(rt: &impl Abort, alloc: Global, line: &Line) -> PlanLine {
    match *line {
        Line::Ask(set, number, data) => PlanLine::Ask {
            set,
            number,
            data: hex(rt, alloc, &[data]),
        },
        Line::Answers => PlanLine::Answers,
        Line::Events(count) => PlanLine::Events(count),
        Line::Mirror => PlanLine::Mirror,
        Line::LoseTarget => PlanLine::LoseTarget,
        Line::LoseDebugger => PlanLine::LoseDebugger,
        Line::Attach => PlanLine::Attach,
    }
}

/// What came of a run: how it ended, what the debugger sent, what was printed, how often what was printed was flushed, and whether it may
/// attach again.
#[derive(Drop)]
struct Outcome {
    ended: Ended,
    to: Vec<u8>,
    lines: Vec<u8>,
    print_flushes: u32,
    attaches_again: bool,
}

/// A closed debugger, on the heap: where a function holds one itself, each part of it is proved to be let go there.
fn debugger(rt: &impl Abort, alloc: Global) -> Box<Debugger> {
    let debugger = Debugger::new(alloc).expect(rt, "memory");
    Box::new(alloc, debugger).expect(rt, "memory")
}

/// Runs a new debugger by a plan.
fn run_on<'a, 'p>(
    rt: &impl Abort,
    alloc: Global,
    input: Reader<'a>,
    target: Writer,
    plan: &'p [PlanLine],
    printer: Writer,
    turns: u64,
) -> Outcome {
    let mut debugger = debugger(rt, alloc);
    let mut pipe = Streams::new(input, target);
    let mut out = Streams::new(
        Reader {
            bytes: &[],
            most: 1,
        },
        printer,
    );
    let ended = attach(alloc, &mut debugger, &mut pipe, plan, &mut out, turns);
    let (_, to) = pipe.into_parts();
    let (_, lines) = out.into_parts();
    Outcome {
        ended,
        to: to.bytes,
        lines: lines.bytes,
        print_flushes: lines.flushes,
        attaches_again: debugger.attach(),
    }
}

/// Runs a case in which so many bytes are read and written at once at most.
fn run(rt: &impl Abort, alloc: Global, case: &Case, most: usize) -> Outcome {
    let from = hex(rt, alloc, case.from);
    let lines = plan(rt, alloc, case.plan);
    let input = Reader { bytes: &from, most };
    let target = Writer::failing(alloc, most, case.write_fails, case.write_flush_fails);
    let printer = Writer::failing(alloc, most, case.print_fails, case.print_flush_fails);
    run_on(rt, alloc, input, target, &lines, printer, case.turns)
}

/// Whether a case comes to what it says.
fn passes(rt: &impl Abort, alloc: Global, case: &Case, most: usize) -> bool {
    let to = hex(rt, alloc, case.to);
    is_as_said(&run(rt, alloc, case, most), case, &to)
}

/// Whether what came of a run is what the case says, where the debugger sent these bytes. What was printed is flushed at the end of each
/// run, behind a flush of what was sent that failed, too.
fn is_as_said(outcome: &Outcome, case: &Case, to: &[u8]) -> bool {
    let stays_open = case.ended == Ended::TurnLimit;
    outcome.ended == case.ended
        && outcome.to.as_slice() == to
        && outcome.lines.as_slice() == case.lines.as_bytes()
        && outcome.print_flushes == 1
        && outcome.attaches_again != stays_open
}

/// What the target sends in a session of four commands.
const ANSWERS: [&str; 6] = [
    HANDSHAKE,
    VM_START,
    EIGHT,
    "0000000b 00000002 80 0000",
    "0000000f 00000003 80 0000 00000001",
    "0000000b 00000004 80 0000",
];

/// What the debugger sends in it.
const COMMANDS: [&str; 5] = [
    HANDSHAKE,
    ASKS_SIZES,
    "0000000b 00000002 00 01 08",
    "00000013 00000003 00 0b 0c 0000000000000001",
    "0000000b 00000004 00 01 06",
];

static SESSION: [Case; 1] = [Case {
    from: &ANSWERS,
    plan: &[
        Line::Ask(1, 8, ""),
        Line::Ask(11, 12, "0000000000000001"),
        Line::Ask(1, 6, ""),
        Line::Answers,
    ],
    to: &COMMANDS,
    lines: "< hello
< 1 Event.Composite 0 [(90, 0, #1)]
< 1 reply VirtualMachine.IDSizes 0 8 8 8 8 8
< 2 reply VirtualMachine.Suspend 0
< 3 reply ThreadReference.SuspendCount 0 1
< 4 reply VirtualMachine.Dispose 0
",
    ..CASE
}];

/// The widths are known, and nothing more comes.
const READY: [&str; 2] = [HANDSHAKE, EIGHT];

const READY_LINES: &str = "< hello
< 1 reply VirtualMachine.IDSizes 0 8 8 8 8 8
";

/// A plan that is carried out whole.
static FINISHED: [Case; 7] = [
    Case {
        from: &READY,
        to: &[HANDSHAKE, ASKS_SIZES],
        lines: READY_LINES,
        ..CASE
    },
    // A composite that waited is told at the turn that reads the widths of ids, before them, and learned.
    Case {
        from: &[
            HANDSHAKE,
            "00000016 00000001 00 40 64 02 00000001 5a 00000000 01",
            "0000001f 00000001 80 0000 00000001 00000001 00000001 00000001 00000001",
        ],
        plan: &[Line::Events(1), Line::Mirror],
        to: &[HANDSHAKE, ASKS_SIZES],
        lines: "< hello
< 1 Event.Composite 2 [(90, 0, #1)]
< 1 reply VirtualMachine.IDSizes 0 1 1 1 1 1
thread 1 1 held
",
        ..CASE
    },
    // Four that waited are told in the order in which they came.
    Case {
        from: &[
            HANDSHAKE,
            "0000001d 00000001 00 40 64 00 00000001 5a 00000000 0000000000000001",
            "0000001d 00000002 00 40 64 00 00000001 06 00000000 0000000000000002",
            "0000001d 00000003 00 40 64 00 00000001 06 00000000 0000000000000003",
            "0000001d 00000004 00 40 64 00 00000001 07 00000000 0000000000000002",
            EIGHT,
        ],
        plan: &[Line::Events(4)],
        to: &[HANDSHAKE, ASKS_SIZES],
        lines: "< hello
< 1 Event.Composite 0 [(90, 0, #1)]
< 2 Event.Composite 0 [(6, 0, #2)]
< 3 Event.Composite 0 [(6, 0, #3)]
< 4 Event.Composite 0 [(7, 0, #2)]
< 1 reply VirtualMachine.IDSizes 0 8 8 8 8 8
",
        ..CASE
    },
    // Replies that come in another order are told under the commands that they answer.
    Case {
        from: &[
            HANDSHAKE,
            EIGHT,
            "0000000f 00000003 80 0000 00000001",
            "0000000b 00000002 80 0000",
        ],
        plan: &[
            Line::Ask(1, 8, ""),
            Line::Ask(11, 12, "0000000000000001"),
            Line::Answers,
        ],
        to: &[
            HANDSHAKE,
            ASKS_SIZES,
            "0000000b 00000002 00 01 08",
            "00000013 00000003 00 0b 0c 0000000000000001",
        ],
        lines: "< hello
< 1 reply VirtualMachine.IDSizes 0 8 8 8 8 8
< 3 reply ThreadReference.SuspendCount 0 1
< 2 reply VirtualMachine.Suspend 0
",
        ..CASE
    },
    // Data that are not read are told as they are.
    Case {
        from: &[HANDSHAKE, EIGHT, "0000000d 00000002 80 0000 0a0b"],
        plan: &[Line::Ask(1, 18, "00000000"), Line::Answers],
        to: &[HANDSHAKE, ASKS_SIZES, "0000000f 00000002 00 01 12 00000000"],
        lines: "< hello
< 1 reply VirtualMachine.IDSizes 0 8 8 8 8 8
< 2 reply VirtualMachine.RedefineClasses 0 raw 0a0b
",
        ..CASE
    },
    // An event request is told behind the threads, by rising id, and the answer to a command that a target refused has no data.
    Case {
        from: &[
            HANDSHAKE,
            EIGHT,
            "0000000f 00000002 80 0000 00000007",
            "0000000f 00000003 80 0000 00000002",
            "0000000b 00000004 80 0070",
            "0000000f 00000005 80 0000 00000000",
        ],
        plan: &[
            Line::Ask(15, 1, "06 02 00000000"),
            Line::Ask(15, 1, "07 00 00000000"),
            Line::Ask(1, 9, ""),
            Line::Ask(11, 12, "0000000000000003"),
            Line::Answers,
            Line::Mirror,
        ],
        to: &[
            HANDSHAKE,
            ASKS_SIZES,
            "00000011 00000002 00 0f 01 06 02 00000000",
            "00000011 00000003 00 0f 01 07 00 00000000",
            "0000000b 00000004 00 01 09",
            "00000013 00000005 00 0b 0c 0000000000000003",
        ],
        lines: "< hello
< 1 reply VirtualMachine.IDSizes 0 8 8 8 8 8
< 2 reply EventRequest.Set 0 7
< 3 reply EventRequest.Set 0 2
< 4 reply VirtualMachine.Resume 112
< 5 reply ThreadReference.SuspendCount 0 0
thread 3 0 free
request 2 7 0
request 7 6 2
",
        ..CASE
    },
    // The death of the machine ends the session, whatever lines are left. It came before the first line, and no line makes a turn
    // before `events`, so all that is asked before is written.
    Case {
        from: &[HANDSHAKE, EIGHT, VM_DEATH],
        plan: &[
            Line::Ask(1, 8, ""),
            Line::Ask(1, 9, ""),
            Line::Mirror,
            Line::Events(5),
            Line::Ask(1, 9, ""),
        ],
        to: &[
            HANDSHAKE,
            ASKS_SIZES,
            "0000000b 00000002 00 01 08",
            "0000000b 00000003 00 01 09",
        ],
        lines: "< hello
< 1 reply VirtualMachine.IDSizes 0 8 8 8 8 8
< 2 Event.Composite 0 [(99, 0)]
",
        ..CASE
    },
];

/// A run that is refused: by what the target sent, or by the debugger at a line of the plan.
static REFUSED: [Case; 14] = [
    // no handshake
    Case {
        from: &["4a4457502d48616e647368616b66"],
        ended: Ended::Refused(4),
        to: &[HANDSHAKE],
        ..CASE
    },
    // a reply to no command
    Case {
        from: &[HANDSHAKE, EIGHT, "0000000b 00000009 80 0000"],
        plan: &[Line::Events(1)],
        ended: Ended::Refused(42),
        to: &[HANDSHAKE, ASKS_SIZES],
        lines: READY_LINES,
        ..CASE
    },
    // a bad reply: an error with data, behind an answer that was told
    Case {
        from: &[
            HANDSHAKE,
            EIGHT,
            "0000000b 00000002 80 0000",
            "0000000c 00000003 80 0071 00",
        ],
        plan: &[Line::Ask(1, 8, ""), Line::Ask(1, 9, ""), Line::Answers],
        ended: Ended::Refused(43),
        to: &[
            HANDSHAKE,
            ASKS_SIZES,
            "0000000b 00000002 00 01 08",
            "0000000b 00000003 00 01 09",
        ],
        lines: "< hello
< 1 reply VirtualMachine.IDSizes 0 8 8 8 8 8
< 2 reply VirtualMachine.Suspend 0
",
        ..CASE
    },
    // a bad reply: data that end before those of the layout, where the lines of the plan have ended
    Case {
        from: &[HANDSHAKE, EIGHT, "0000000e 00000002 80 0000 000000"],
        plan: &[Line::Ask(11, 12, "0000000000000001")],
        ended: Ended::Refused(43),
        to: &[
            HANDSHAKE,
            ASKS_SIZES,
            "00000013 00000002 00 0b 0c 0000000000000001",
        ],
        lines: READY_LINES,
        ..CASE
    },
    // a bad reply: ids that are nine bytes wide
    Case {
        from: &[
            HANDSHAKE,
            "0000001f 00000001 80 0000 00000008 00000008 00000009 00000008 00000008",
        ],
        ended: Ended::Refused(43),
        to: &[HANDSHAKE, ASKS_SIZES],
        lines: "< hello\n",
        ..CASE
    },
    // Four composites wait for the widths of ids, and a fifth is one too many: none of them is told.
    Case {
        from: &[HANDSHAKE, VM_START, VM_START, VM_START, VM_START, VM_START],
        plan: &[Line::Ask(1, 8, "")],
        ended: Ended::Refused(44),
        to: &[HANDSHAKE, ASKS_SIZES],
        lines: "< hello\n",
        ..CASE
    },
    // a command that is no composite
    Case {
        from: &[HANDSHAKE, EIGHT, "0000000b 00000002 00 01 08"],
        plan: &[Line::Events(1)],
        ended: Ended::Refused(45),
        to: &[HANDSHAKE, ASKS_SIZES],
        lines: READY_LINES,
        ..CASE
    },
    // data that do not read by the layout of the request: the line before it was asked
    Case {
        from: &READY,
        plan: &[Line::Ask(1, 8, ""), Line::Ask(11, 12, "00000000000001")],
        ended: Ended::Refused(36),
        to: &[HANDSHAKE, ASKS_SIZES, "0000000b 00000002 00 01 08"],
        lines: READY_LINES,
        ..CASE
    },
    // no command that there is
    Case {
        from: &READY,
        plan: &[Line::Ask(11, 99, "")],
        ended: Ended::Refused(36),
        to: &[HANDSHAKE, ASKS_SIZES],
        lines: READY_LINES,
        ..CASE
    },
    // a set that goes to the debugger
    Case {
        from: &READY,
        plan: &[Line::Ask(64, 100, "00 00000000")],
        ended: Ended::Refused(36),
        to: &[HANDSHAKE, ASKS_SIZES],
        lines: READY_LINES,
        ..CASE
    },
    // The last flush fails behind a refusal, of the lines or of what is sent, which is flushed before each read, too: the run stays refused.
    Case {
        from: &["4a4457502d48616e647368616b66"],
        print_flush_fails: 1,
        ended: Ended::Refused(4),
        to: &[HANDSHAKE],
        ..CASE
    },
    Case {
        from: &["4a4457502d48616e647368616b66"],
        write_flush_fails: 2,
        ended: Ended::Refused(4),
        to: &[HANDSHAKE],
        ..CASE
    },
    Case {
        from: &READY,
        plan: &[Line::Ask(64, 100, "00 00000000")],
        print_flush_fails: 1,
        ended: Ended::Refused(36),
        to: &[HANDSHAKE, ASKS_SIZES],
        lines: READY_LINES,
        ..CASE
    },
    Case {
        from: &READY,
        plan: &[Line::Ask(64, 100, "00 00000000")],
        write_flush_fails: 2,
        print_flush_fails: 1,
        ended: Ended::Refused(36),
        to: &[HANDSHAKE, ASKS_SIZES],
        lines: READY_LINES,
        ..CASE
    },
];

/// A run that is lost, or that used all turns.
static LOST: [Case; 11] = [
    Case {
        ended: Ended::LostByRead,
        to: &[HANDSHAKE],
        ..CASE
    },
    Case {
        from: &READY,
        plan: &[Line::Ask(1, 9, ""), Line::Answers],
        ended: Ended::LostByRead,
        to: &[HANDSHAKE, ASKS_SIZES, "0000000b 00000002 00 01 09"],
        lines: READY_LINES,
        ..CASE
    },
    Case {
        from: &READY,
        write_fails: 1,
        ended: Ended::LostByWrite,
        ..CASE
    },
    Case {
        from: &READY,
        print_fails: 1,
        ended: Ended::LostByWrite,
        to: &[HANDSHAKE, ASKS_SIZES],
        ..CASE
    },
    Case {
        from: &READY,
        turns: 0,
        ended: Ended::TurnLimit,
        to: &[HANDSHAKE],
        ..CASE
    },
    // a turn that asks for bytes, and one that reads the handshake
    Case {
        from: &[HANDSHAKE],
        turns: 2,
        ended: Ended::TurnLimit,
        to: &[HANDSHAKE, ASKS_SIZES],
        lines: "< hello\n",
        ..CASE
    },
    // A flush that fails at the end: a run that was done is lost, and so is one that used all turns.
    Case {
        from: &READY,
        print_flush_fails: 1,
        ended: Ended::LostByWrite,
        to: &[HANDSHAKE, ASKS_SIZES],
        lines: READY_LINES,
        ..CASE
    },
    Case {
        turns: 0,
        print_flush_fails: 1,
        ended: Ended::LostByWrite,
        to: &[HANDSHAKE],
        ..CASE
    },
    // The same of what is sent to the target, which is flushed before each read, too: there nothing was read yet.
    Case {
        from: &READY,
        write_flush_fails: 1,
        ended: Ended::LostByWrite,
        to: &[HANDSHAKE],
        ..CASE
    },
    Case {
        from: &READY,
        write_flush_fails: 2,
        ended: Ended::LostByWrite,
        to: &[HANDSHAKE, ASKS_SIZES],
        lines: READY_LINES,
        ..CASE
    },
    Case {
        turns: 0,
        write_flush_fails: 1,
        ended: Ended::LostByWrite,
        to: &[HANDSHAKE],
        ..CASE
    },
];

/// A run that is refused at a line of `pair` alone: what the lines before it asked is written, and no more.
static OF_PAIR: [Case; 5] = [
    Case {
        from: &READY,
        plan: &[Line::LoseTarget],
        ended: Ended::Refused(0),
        to: &[HANDSHAKE, ASKS_SIZES],
        lines: READY_LINES,
        ..CASE
    },
    Case {
        from: &READY,
        plan: &[Line::Ask(1, 8, ""), Line::LoseDebugger, Line::Ask(1, 9, "")],
        ended: Ended::Refused(0),
        to: &[HANDSHAKE, ASKS_SIZES, "0000000b 00000002 00 01 08"],
        lines: READY_LINES,
        ..CASE
    },
    Case {
        from: &[HANDSHAKE, EIGHT, "0000000b 00000002 80 0000"],
        plan: &[Line::Ask(1, 8, ""), Line::Answers, Line::Attach],
        ended: Ended::Refused(0),
        to: &[HANDSHAKE, ASKS_SIZES, "0000000b 00000002 00 01 08"],
        lines: "< hello
< 1 reply VirtualMachine.IDSizes 0 8 8 8 8 8
< 2 reply VirtualMachine.Suspend 0
",
        ..CASE
    },
    // The last flush fails behind it: the run stays refused.
    Case {
        from: &READY,
        plan: &[Line::Attach],
        print_flush_fails: 1,
        ended: Ended::Refused(0),
        to: &[HANDSHAKE, ASKS_SIZES],
        lines: READY_LINES,
        ..CASE
    },
    // The session ends before the line is reached.
    Case {
        from: &[HANDSHAKE, EIGHT, VM_DEATH],
        plan: &[Line::Events(1), Line::LoseTarget],
        to: &[HANDSHAKE, ASKS_SIZES],
        lines: "< hello
< 1 reply VirtualMachine.IDSizes 0 8 8 8 8 8
< 2 Event.Composite 0 [(99, 0)]
",
        ..CASE
    },
];

/// Each of these comes to what it says, where so many bytes are read and written at once at most.
fn all_pass(rt: &impl Abort, alloc: Global, cases: &[Case], most: usize) {
    for case in cases {
        expect_that(rt, passes(rt, alloc, case, most));
    }
}

/// Plans are carried out to their end, whole and in pieces, and faults, losses, the limit and lines of `pair` end a run.
#[test]
fn each_run_comes_to_what_is_said(rt: HostRuntime) {
    for most in [4096, 1, 7] {
        all_pass(&rt, rt.alloc(), &SESSION, most);
    }
    all_pass(&rt, rt.alloc(), &FINISHED, 4096);
    all_pass(&rt, rt.alloc(), &FINISHED, 1);
    all_pass(&rt, rt.alloc(), &REFUSED, 4096);
    all_pass(&rt, rt.alloc(), &LOST, 4096);
    all_pass(&rt, rt.alloc(), &OF_PAIR, 4096);
}

static TOO_MANY: Case = Case {
    from: &READY,
    plan: &[Line::Ask(1, 8, ""); 65],
    lines: READY_LINES,
    ..CASE
};

/// The run is refused at its last command, and all others were sent.
fn is_one_too_many(rt: &impl Abort, outcome: &Outcome) {
    expect_same(rt, &outcome.ended, &Ended::Refused(32));
    expect_same(rt, &outcome.to.len(), &(14 + 11 + 64 * 11));
    expect_same(rt, &outcome.lines.as_slice(), &READY_LINES.as_bytes());
    expect_that(rt, outcome.attaches_again);
}

/// 64 commands may wait for their answers: one more is refused, and what was asked before it is written.
#[test]
fn command_too_many_is_refused(rt: HostRuntime) {
    is_one_too_many(&rt, &run(&rt, rt.alloc(), &TOO_MANY, 4096));
}

/// Nothing comes, and what is written is kept.
fn quiet(alloc: Global) -> Streams<Reader<'static>, Writer> {
    let reader = Reader {
        bytes: &[],
        most: 1,
    };
    Streams::new(reader, Writer::failing(alloc, 1, 0, 0))
}

/// How the run of a debugger without a plan ends, and whether nothing was sent.
fn run_of_none(alloc: Global, debugger: &mut Debugger) -> (Ended, bool) {
    let mut pipe = quiet(alloc);
    let mut out = quiet(alloc);
    let ended = attach(alloc, debugger, &mut pipe, &[], &mut out, 10);
    let (_, to) = pipe.into_parts();
    (ended, to.bytes.is_empty())
}

/// A debugger whose session is open is refused, and nothing is touched.
#[test]
fn open_debugger_is_refused(rt: HostRuntime) {
    let mut debugger = debugger(&rt, rt.alloc());
    expect_that(&rt, debugger.attach());
    let ran = run_of_none(rt.alloc(), &mut debugger);
    expect_same(&rt, &ran, &(Ended::Refused(0), true));
    expect_that(&rt, debugger.is_open());
}
