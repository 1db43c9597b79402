//! What the words led to, and the exit status.
ghost use Rattle.std.specs.Prelude.{◌≡◌, ◌≤◌};
ghost use Rattle.jdwp_program.specs.Losses.{IsEndAtPort, IsEndOf, IsEndOfPlan, IsEndWithoutFiles, is_late, lost_port, told_within};
ghost use Rattle.jdwp_program.specs.Statuses.{status_of_end, status_of_fault, status_of_told, status_of_outcome};

use crate::awaiting::Awaited;
use crate::captures::Told;
use crate::fault::Fault;
use crate::losing::{Loss, Side};
use jdwp_attach::{Attached, LineFault};
use jdwp_debugger::{DebuggerFault, Refused};
use jdwp_end::Ended;
use jdwp_plan_run::{PlanEnded, PlanVerdict};
use jdwp_port::{AtPort, PortCause, PortFault};
use jdwp_wire::{FrameFault, Limits};
use std::alloc::Global;
use std::io::{ErrorKind, Write};
use std::{fmt, io};

/// What the words led to.
#[derive(Clone, Copy, Debug)]
pub enum Outcome<'a> {
    /// A session ended so.
    Session(Ended),
    /// A session was lost here.
    Lost(Loss<'a>),
    /// The command of a line of a plan was refused: the number of the line, counted from 1, that of the refusal, and how many commands may
    /// wait.
    RefusedLine(usize, u16, u32),
    /// Nothing more can happen: the line of a plan waits, counted from 1, one more than there are lines where all were carried out; and for
    /// what.
    Standstill(usize, Awaited),
    /// The same of a plan in words, which did not come to its end.
    Unreached(usize, Awaited),
    /// All rounds were used, and a plan in words did not come to its end: as before, which line waits, and for what.
    UsedUp(usize, Awaited),
    /// A plan in words came to this, and why is told.
    Planned(PlanVerdict),
    /// This was told of a capture.
    Capture(Told),
    /// This was told of the program's version.
    Version(Told),
}

impl<'a> Outcome<'a> {
    /// Of a session that ended so, which read from the file `from`, wrote to the file `to` and printed on an output that failed with
    /// `output`, if it did. Where the session was lost at a read, the file ended if no read of it failed; where it was lost at a write, the
    /// file's failure is told, and that of the output where the file had none.
    pub fn of_session(
        ended: Ended,
        from: Side<'a>,
        to: Side<'a>,
        output: Option<io::Error>,
    ) -> Outcome<'a>
        ensures { IsEndOf ended from.entry to.entry output result }
    {
        match ended {
            Ended::LostByRead => Outcome::Lost(match from.failure {
                None => Loss::FileEnded(from.path),
                Some(error) => Loss::Unread(from.path, error),
            }),
            Ended::LostByWrite => match (to.failure, output) {
                (Some(error), _) => Outcome::Lost(Loss::Unwritten(to.path, error)),
                (None, Some(error)) if error.kind() == ErrorKind::BrokenPipe => {
                    Outcome::Lost(Loss::ReaderGone)
                }
                (None, Some(error)) => Outcome::Lost(Loss::Output(error)),
                (None, None) => Outcome::Session(ended),
            },
            Ended::Done | Ended::Refused(_) | Ended::NoMemory | Ended::TurnLimit => {
                Outcome::Session(ended)
            }
        }
    }

    /// Of the session of a plan within these limits, as `of_session`; where the command of a line was refused, this line is told.
    pub fn of_plan(
        how: Attached,
        limits: Limits,
        from: Side<'a>,
        to: Side<'a>,
        output: Option<io::Error>,
    ) -> Outcome<'a>
        ensures { IsEndOfPlan how limits from.entry to.entry output result }
    {
        match how {
            Attached::RefusedLine { line, number } => {
                Outcome::RefusedLine(line, number, limits.pending())
            }
            Attached::Ended(ended) => Outcome::of_session(ended, from, to, output),
        }
    }

    /// Of the session of a plan within these limits that no file was read or written in, and which printed on an output that failed with `output`, if it did.
    /// Where the command of a line was refused, this line is told; where the session was lost at a write and the output failed, that is
    /// told, and no connection is blamed.
    pub fn without_files(how: Attached, limits: Limits, output: Option<io::Error>) -> Outcome<'a>
        ensures { IsEndWithoutFiles how limits output result }
    {
        match how {
            Attached::RefusedLine { line: at, number } => {
                Outcome::RefusedLine(at, number, limits.pending())
            }
            Attached::Ended(Ended::LostByWrite) => match output {
                Some(error) if error.kind() == ErrorKind::BrokenPipe => {
                    Outcome::Lost(Loss::ReaderGone)
                }
                Some(error) => Outcome::Lost(Loss::Output(error)),
                None => Outcome::Session(Ended::LostByWrite),
            },
            Attached::Ended(ended) => Outcome::Session(ended),
        }
    }

    /// Of the session of a plan within these limits at this port, which printed on an output that failed with `output`, if it did. Where the
    /// command of a line was refused, this line is told; where the connection failed, why; and where the other end closed it, that it did.
    /// Where the session was lost at a write and the output failed, and no connection did, the output is told.
    pub fn at_port(
        session: AtPort<Attached>,
        port: u16,
        limits: Limits,
        output: Option<io::Error>,
    ) -> Outcome<'a>
        ensures { IsEndAtPort session port limits output result }
    {
        match session.how {
            Attached::Ended(Ended::LostByRead) => match session.failure {
                Some(cause) => Outcome::Lost(Loss::Port(port, cause)),
                None => Outcome::Lost(Loss::PortEnded(port)),
            },
            Attached::Ended(Ended::LostByWrite) => match session.failure {
                Some(cause) => Outcome::Lost(Loss::Port(port, cause)),
                None => {
                    let how = Attached::Ended(Ended::LostByWrite);
                    Outcome::without_files(how, limits, output)
                }
            },
            Attached::Ended(ended) => {
                Outcome::without_files(Attached::Ended(ended), limits, output)
            }
            Attached::RefusedLine { line, number } => {
                let how = Attached::RefusedLine { line, number };
                Outcome::without_files(how, limits, output)
            }
        }
    }

    /// The same, where a read waited for so many milliseconds at most: a connection that failed as such a read does was silent for so long.
    pub fn within(self, milliseconds: u32) -> Outcome<'a>
        ensures { result ≡ told_within milliseconds self.entry }
    {
        match self {
            Outcome::Lost(Loss::Port(port, PortCause::Other(error))) if is_late(error) => {
                Outcome::Lost(Loss::Silent(port, milliseconds))
            }
            outcome => outcome,
        }
    }

    /// Of a session that was lost since its connection at a port failed so. Want of memory is told alone.
    pub fn lost_port(fault: PortFault) -> Outcome<'a>
        ensures { result ≡ lost_port fault }
    {
        match fault {
            PortFault::Port(port, cause) => Outcome::Lost(Loss::Port(port, cause)),
            PortFault::NoMemory => Outcome::Session(Ended::NoMemory),
        }
    }
}

/// What is told where all rounds or turns were used.
const TURN_LIMIT: &str = "the turn limit of --turns is reached";

/// Whether a read failed so since it waited for as long as it may.
fn is_late(error: io::Error) -> bool
    ensures { result ≡ is_late error }
{
    match error.kind() {
        ErrorKind::WouldBlock => true,
        _ => false,
    }
}

/// Tells a fault in words behind `jdwp: `, and answers its exit status.
pub fn report_fault<E: Write>(fault: &Fault<'_>, err: &mut E) -> u8
    ensures status { result ≡ status_of_fault fault.now }
    ensures bound { result ≤ 4 }
{
    // What standard error doesn't take is lost.
    let _ = writeln!(err, "jdwp: {fault}");
    fault.status()
}

/// Tells the outcome in a line that begins with `jdwp: ` where it isn't told yet and isn't 0, and answers its exit status. That who reads the
/// output went away is not told.
pub fn report_outcome<E: Write>(outcome: Outcome<'_>, err: &mut E) -> u8
    ensures status { result ≡ status_of_outcome outcome.entry }
    ensures bound { result ≤ 5 }
{
    match outcome {
        Outcome::Session(ended) => {
            report_end(ended, err);
            status_of_session(ended)
        }
        Outcome::Lost(loss) => {
            report_loss(loss, err);
            2
        }
        Outcome::RefusedLine(line, number, most) => {
            report_line(line, number, most, err);
            1
        }
        Outcome::Standstill(line, awaited) => {
            report_standstill(line, awaited, err);
            4
        }
        Outcome::Unreached(line, awaited) => {
            report_standstill(line, awaited, err);
            5
        }
        Outcome::UsedUp(line, awaited) => {
            report_waiting(TURN_LIMIT, line, awaited, err);
            5
        }
        Outcome::Planned(verdict) => verdict.status(),
        Outcome::Capture(told) | Outcome::Version(told) => status_of_told(told),
    }
}

/// Tells why a plan in words was not carried out, in a line that begins with `jdwp: `; nothing where the session might end before it was, or
/// what was told could not be printed, of which the outcome tells more. What standard error doesn't take is lost.
pub fn report_plan<E: Write>(alloc: Global, ended: &PlanEnded, err: &mut E) {
    if matches!(ended.verdict(), PlanVerdict::Met | PlanVerdict::NotPrinted) {
        return;
    }
    let _ = match ended.message(alloc) {
        Ok(Some(message)) => writeln!(err, "jdwp: {message}"),
        Ok(None) => Ok(()),
        Err(_) => writeln!(err, "jdwp: no memory"),
    };
}

/// The exit status of what was told of a capture or of the program's version.
fn status_of_told(told: Told) -> u8
    ensures status { result ≡ status_of_told told }
    ensures bound { result ≤ 4 }
{
    match told {
        Told::Faultless => 0,
        Told::Faulty => 1,
        Told::Unread => 2,
    }
}

/// The exit status of a session.
fn status_of_session(ended: Ended) -> u8
    ensures status { result ≡ status_of_end ended }
    ensures bound { result ≤ 4 }
{
    match ended {
        Ended::Done => 0,
        Ended::Refused(_) => 1,
        Ended::LostByRead | Ended::LostByWrite => 2,
        Ended::NoMemory => 3,
        Ended::TurnLimit => 4,
    }
}

/// Tells how a session ended where it wasn't done. What standard error doesn't take is lost.
fn report_end<E: Write>(ended: Ended, err: &mut E) {
    let _ = match ended {
        Ended::Done => Ok(()),
        Ended::Refused(number) => writeln!(err, "jdwp: {}", Refusal(number)),
        Ended::LostByRead => writeln!(err, "jdwp: the connection is lost at a read"),
        Ended::LostByWrite => writeln!(err, "jdwp: the connection is lost at a write"),
        Ended::NoMemory => writeln!(err, "jdwp: no memory"),
        Ended::TurnLimit => writeln!(err, "jdwp: {TURN_LIMIT}"),
    };
}

/// Tells which line of a plan was refused, and why, where so many commands may wait. What standard error doesn't take is lost.
fn report_line<E: Write>(line: usize, number: u16, most: u32, err: &mut E) {
    let _ = if number == Refused::Busy.number() {
        let busy = Refused::Busy;
        let commands = if most == 1 { "command" } else { "commands" };
        writeln!(
            err,
            "jdwp: line {line} of the plan: {busy}: {most} {commands} at most"
        )
    } else if number == 0 {
        writeln!(
            err,
            "jdwp: line {line} of the plan: {}",
            LineFault::PairAlone
        )
    } else {
        writeln!(err, "jdwp: line {line} of the plan: {}", Refusal(number))
    };
}

/// Tells that nothing more can happen, and what waits for what. What standard error doesn't take is lost.
fn report_standstill<E: Write>(line: usize, awaited: Awaited, err: &mut E) {
    report_waiting("nothing more can happen", line, awaited, err);
}

/// Tells why a plan goes on no more, and what waits for what. What standard error doesn't take is lost.
fn report_waiting<E: Write>(why: &str, line: usize, awaited: Awaited, err: &mut E) {
    let _ = match awaited {
        Awaited::LastAnswers => writeln!(
            err,
            "jdwp: {why}: behind its last line the plan waits for {awaited}"
        ),
        awaited => writeln!(
            err,
            "jdwp: {why}: line {line} of the plan waits for {awaited}"
        ),
    };
}

/// Tells where a session was lost. What standard error doesn't take is lost.
fn report_loss<E: Write>(loss: Loss<'_>, err: &mut E) {
    let _ = match loss {
        Loss::ReaderGone => Ok(()),
        loss => writeln!(err, "jdwp: {loss}"),
    };
}

/// A fault at which a session is refused, by its number.
#[derive(Clone, Copy)]
struct Refusal(u16);

/// Faults of the bytes that are told by their number alone.
const FRAME_FAULTS: [FrameFault; 3] = [
    FrameFault::ShortLength,
    FrameFault::TooLong,
    FrameFault::BadFlags,
];

/// Why a debugger refuses a command.
const REFUSED: [Refused; 6] = [
    Refused::NotReady,
    Refused::Busy,
    Refused::Closed,
    Refused::TooLong,
    Refused::NoMemory,
    Refused::BadCommand,
];

/// What a debugger refuses of what it reads.
const DEBUGGER_FAULTS: [DebuggerFault; 4] = [
    DebuggerFault::UnknownReply,
    DebuggerFault::BadReply,
    DebuggerFault::TooManyParked,
    DebuggerFault::BadEvent,
];

impl fmt::Display for Refusal {
    fn fmt<W: fmt::Write>(&self, f: &mut fmt::Formatter<W>) -> fmt::Result {
        let number = self.0;
        for fault in &FRAME_FAULTS {
            if fault.number() == number {
                return write!(f, "{fault}");
            }
        }
        for refused in &REFUSED {
            if refused.number() == number {
                return write!(f, "{refused}");
            }
        }
        for fault in &DEBUGGER_FAULTS {
            if fault.number() == number {
                return write!(f, "{fault}");
            }
        }
        write!(f, "fault {number}: {}", words_of(number))
    }
}

/// The words of a fault of which its number alone is known, and which its type tells with more.
fn words_of(number: u16) -> &'static str {
    match number {
        0 => "the session is open already",
        4 => "not the handshake",
        _ => "the bytes are refused",
    }
}
