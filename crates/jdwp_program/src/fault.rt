//! What goes wrong before a session begins or a capture is told.
ghost use Rattle.std.specs.Prelude.{◌≡◌, ◌≤◌, MatchResult};
ghost use Rattle.std.specs.Str.{IsUtf8};
ghost use Rattle.jdwp_program.specs.Files.{IsNotText, begins_as_recording, begins_with_mark};
ghost use Rattle.jdwp_program.specs.Statuses.{status_of_recorder};
ghost use Rattle.jdwp_program.specs.declared.fault.Fault.TheVariants as fault;

use crate::captures::TellFault;
use jdwp_attach::PlanFault;
use jdwp_port::{PortCause, PortFault};
use jdwp_record::RecordFault;
use jdwp_recording::RecordingFault;
use jdwp_script::{Detail, ScriptFault};
use jdwp_wire::NoMemory;
use std::alloc::AllocError;
use std::io;
use std::io::ErrorKind;
use thiserror::Error;

/// Why no session began, or no capture was told.
#[derive(Debug, Drop, Error)]
pub enum Fault<'a> {
    /// The words are no command with its files and options, or ask for help. What is told of them.
    #[error("{0}")]
    Words(String),
    /// A word is not UTF-8.
    #[error("a word is not UTF-8")]
    NotText,
    /// A file that can't be used, as it was named, and why.
    #[error("{0}: {1}")]
    File(&'a str, FileCause),
    /// The script of this file is refused, and what is known beside its fault.
    #[error("{0}: {1}{2}")]
    Script(&'a str, ScriptFault, Detail),
    /// The plan of this file is refused.
    #[error("{0}: {1}")]
    Plan(&'a str, PlanFault),
    /// The plan in words of this file is refused.
    #[error("{0}: {1}")]
    Written(&'a str, jdwp_plan::PlanFault),
    /// The recording of the network in this file gives no capture, or only a part of one.
    #[error("{0}: {1}")]
    Recording(&'a str, RecordingFault),
    /// A port that can't be taken, reached or used, and why.
    #[error("port {0}: {1}")]
    Port(u16, PortCause),
    /// No further session is recorded.
    #[error("{0}")]
    Recorder(RecordFault),
    /// The output can't be written.
    #[error("the output can't be written: {0}")]
    Output(io::Error),
    /// A standard stream is closed, and nothing can be opened in its place.
    #[error("a standard stream is closed, and the null device can't be opened in its place: {0}")]
    Closed(io::Error),
    /// An allocation was refused.
    #[error("no memory")]
    NoMemory,
}

/// Why a file can't be used.
#[derive(Clone, Copy, Debug, Error)]
pub enum FileCause {
    /// There is no such file, or no such folder to make it in.
    #[error("no such file or folder")]
    Absent,
    /// The system doesn't allow it.
    #[error("not allowed")]
    NotAllowed,
    /// It is a folder.
    #[error("a folder, not a file")]
    Folder,
    /// It is not UTF-8. This is the place, counted from 0, of the first byte that begins no character.
    #[error("not UTF-8 at byte {0}, counted from 0")]
    NotUtf8(usize),
    /// It is no plan, since a byte order mark stands before its first line.
    #[error("a byte order mark stands before the first line of the plan")]
    ByteOrderMark,
    /// It is to be written to and is read, too.
    #[error("a file that is read, too: writing to it would empty it")]
    AlsoRead,
    /// It is to be written to for two ends.
    #[error("a file that is written to already")]
    AlsoWritten,
    /// It is to hold the test cases of a plan that has none.
    #[error("only a plan in words, whose first line is `plan 2`, has expectations")]
    NoCases,
    /// Another cause, as the system tells it.
    #[error("{0}")]
    Other(io::Error),
}

impl<'a> Fault<'a> {
    ghost use Rattle.jdwp_program.specs.Files.{IsUnusable, fault_of_plan, fault_of_recording, fault_of_script, fault_of_written};
    ghost use Rattle.jdwp_program.specs.Statuses.{status_of_fault};

    /// Of a file of this name, whose opening or reading failed so.
    pub fn of_file(path: &'a str, error: io::Error) -> Fault<'a>
        ensures { IsUnusable path.entry error result }
    {
        let cause = match error.kind() {
            ErrorKind::OutOfMemory => return Fault::NoMemory,
            ErrorKind::NotFound => FileCause::Absent,
            ErrorKind::PermissionDenied => FileCause::NotAllowed,
            ErrorKind::IsADirectory => FileCause::Folder,
            _ => FileCause::Other(error),
        };
        Fault::File(path, cause)
    }

    /// Of the script of a file of this name that has this fault, with what is known beside it. Want of memory is told alone.
    pub fn of_script(path: &'a str, fault: ScriptFault, detail: Detail) -> Fault<'a>
        ensures { result ≡ fault_of_script path.entry fault detail }
    {
        match fault {
            ScriptFault::NoMemory => Fault::NoMemory,
            fault => Fault::Script(path, fault, detail),
        }
    }

    /// Of the plan of a file of this name that has this fault. Want of memory is told alone; and where the text begins with a byte order
    /// mark, this is told.
    pub fn of_plan(path: &'a str, text: &str, fault: PlanFault) -> Fault<'a>
        ensures { result ≡ fault_of_plan path.entry text.now fault }
    {
        match fault {
            PlanFault::NoMemory => Fault::NoMemory,
            PlanFault::Line(_, _) if begins_with_mark(text) => {
                Fault::File(path, FileCause::ByteOrderMark)
            }
            fault => Fault::Plan(path, fault),
        }
    }

    /// Of the plan in words of a file of this name that has this fault. Want of memory is told alone.
    pub fn of_written(path: &'a str, fault: jdwp_plan::PlanFault) -> Fault<'a>
        ensures { result ≡ fault_of_written path.entry fault }
    {
        match fault {
            jdwp_plan::PlanFault::NoMemory => Fault::NoMemory,
            fault => Fault::Written(path, fault),
        }
    }

    /// Of a recording in a file of this name that has this fault. Want of memory is told alone.
    pub fn of_recording(path: &'a str, fault: RecordingFault) -> Fault<'a>
        ensures { result ≡ fault_of_recording path.entry fault }
    {
        match fault {
            RecordingFault::NoMemory => Fault::NoMemory,
            fault => Fault::Recording(path, fault),
        }
    }

    /// The exit status: 2 for a port that can't be used, a capture or output that can't be written and a standard stream that is closed, 3 for want of
    /// memory, else 1.
    pub fn status(&self) -> u8
        ensures status { result ≡ status_of_fault self.now }
        ensures bound { result ≤ 4 }
    {
        match self {
            Fault::Words(_)
            | Fault::NotText
            | Fault::File(_, _)
            | Fault::Script(_, _, _)
            | Fault::Plan(_, _)
            | Fault::Written(_, _)
            | Fault::Recording(_, _) => 1,
            Fault::Recorder(fault) => status_of_recorder(fault),
            Fault::Port(_, _) | Fault::Output(_) | Fault::Closed(_) => 2,
            Fault::NoMemory => 3,
        }
    }
}

/// The exit status where no further session is recorded for this cause.
fn status_of_recorder(fault: &RecordFault) -> u8
    ensures status { result ≡ status_of_recorder fault.now }
    ensures bound { result ≤ 3 }
{
    match fault {
        RecordFault::NoFile(_, _) => 1,
        RecordFault::Port(_, _) | RecordFault::Unwritten(_, _) | RecordFault::Waiting(_) => 2,
        RecordFault::NoMemory => 3,
    }
}

impl<'a> From<RecordFault> for Fault<'a> {
    ghost use Rattle.jdwp_program.specs.Files.{fault_of_recorder};

    ghost from_gives = { λ r f. f ≡ fault_of_recorder r };

    fn from(error: RecordFault) -> Fault<'a> {
        match error {
            RecordFault::Port(port, cause) => Fault::Port(port, cause),
            RecordFault::NoMemory => Fault::NoMemory,
            fault => Fault::Recorder(fault),
        }
    }
}

impl<'a> From<TellFault> for Fault<'a> {
    ghost use Rattle.jdwp_program.specs.Files.{fault_of_telling};

    ghost from_gives = { λ t f. f ≡ fault_of_telling t };

    fn from(error: TellFault) -> Fault<'a> {
        match error {
            TellFault::Output(error) => Fault::Output(error),
            TellFault::NoMemory => Fault::NoMemory,
        }
    }
}

impl<'a> From<PortFault> for Fault<'a> {
    ghost use Rattle.jdwp_program.specs.Files.{fault_of_port};

    ghost from_gives = { λ p f. f ≡ fault_of_port p };

    fn from(error: PortFault) -> Fault<'a> {
        match error {
            PortFault::Port(port, cause) => Fault::Port(port, cause),
            PortFault::NoMemory => Fault::NoMemory,
        }
    }
}

impl<'a> From<NoMemory> for Fault<'a> {
    ghost from_gives = { λ _ f. f ≡ fault.NoMemory };

    fn from(_error: NoMemory) -> Fault<'a> {
        Fault::NoMemory
    }
}

impl<'a> From<AllocError> for Fault<'a> {
    ghost from_gives = { λ _ f. f ≡ fault.NoMemory };

    fn from(_error: AllocError) -> Fault<'a> {
        Fault::NoMemory
    }
}

/// The bytes of a file as text.
///
/// # Errors
/// `NotUtf8` where they are not UTF-8.
pub fn text_of(bytes: &[u8]) -> Result<&str, FileCause>
    ensures { MatchResult result (λ text. (text.now ≡ bytes.now)
        × IsUtf8 bytes.now) (IsNotText bytes.now) }
{
    match std::str::from_utf8(bytes) {
        Ok(text) => Ok(text),
        Err(error) => Err(FileCause::NotUtf8(error.valid_up_to())),
    }
}

/// Whether a file of these bytes begins as a recording of the network does: pcap in either order of bytes, with times in microseconds or
/// nanoseconds, or pcapng.
pub fn is_recording(bytes: &[u8]) -> bool
    ensures { result ≡ begins_as_recording bytes.now }
{
    match bytes {
        [0xd4, 0xc3, 0xb2, 0xa1, ..] | [0xa1, 0xb2, 0xc3, 0xd4, ..] => true,
        [0x4d, 0x3c, 0xb2, 0xa1, ..] | [0xa1, 0xb2, 0x3c, 0x4d, ..] => true,
        [0x0a, 0x0d, 0x0d, 0x0a, ..] => true,
        _ => false,
    }
}

/// Whether a text begins with a byte order mark.
fn begins_with_mark(text: &str) -> bool
    ensures { result ≡ begins_with_mark text.now }
{
    match text.as_bytes() {
        [0xef, 0xbb, 0xbf, ..] => true,
        _ => false,
    }
}
