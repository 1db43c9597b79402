//! What is to come of a changed byte in what the target sends, at the debugger, message by message.
use crate::hostile::recorded::{ANSWERED, ANSWERS_BEGIN, place_in};
use jdwp_debugger::DebuggerFault;
use jdwp_wire::FrameFault;

/// What is to come of a changed byte.
#[derive(Clone, Copy)]
pub(crate) enum Comes {
    /// The session is closed with this fault; so many messages were read before.
    Fails(u32, DebuggerFault),
    /// So many messages are read, and the session is open then or not.
    Goes(u32, bool),
    /// The messages behind it begin elsewhere: any of it.
    Shifts,
}

/// All six messages are read, the last of which closes the session.
const ALL: Comes = Comes::Goes(6, false);

/// The message of this number is refused.
fn refused(message: u32, fault: DebuggerFault) -> Comes {
    Comes::Fails(message, fault)
}

fn refused_frame(message: u32, fault: FrameFault) -> Comes {
    Comes::Fails(message, DebuggerFault::Frame(fault))
}

/// Another value of the length's last byte, where so many bytes come from the length on.
fn of_length(message: u32, value: u8, rest: usize) -> Comes {
    if value < 11 {
        refused_frame(message, FrameFault::ShortLength)
    } else if usize::from(value) > rest {
        Comes::Goes(message, true)
    } else if message == 1 {
        Comes::Shifts
    } else {
        refused(message, DebuggerFault::BadReply)
    }
}

/// Another byte of VM_START behind its length. Its id is any, as are the request and the thread; as a reply, it is one to IDSizes, with an
/// error and data. Its data are read with the widths of ids: two policies more, and two kinds with the same fields.
fn of_start(at: usize, value: u8) -> Comes {
    match (at, value) {
        (8, 0x80) => refused(1, DebuggerFault::BadReply),
        (8, _) => refused_frame(1, FrameFault::BadFlags),
        (9 | 10, _) => refused(1, DebuggerFault::BadEvent),
        (11, 0..=2) => ALL,
        (16, 6 | 7 | 90) => ALL,
        (11..=16, _) => refused(2, DebuggerFault::BadEvent),
        _ => ALL,
    }
}

/// Another byte of a width: 1 to 8 may be, but VM_START, which waits, has a thread id of 8 bytes.
fn of_width(at: usize, value: u8) -> Comes {
    match (at, value) {
        (22, 1..=8) => refused(2, DebuggerFault::BadEvent),
        (14 | 18 | 26 | 30, 1..=8) => ALL,
        _ => refused(2, DebuggerFault::BadReply),
    }
}

/// Another byte of a reply's id, flags or error code, where a command may wait under these ids; an error has no data.
fn of_reply(message: u32, at: usize, value: u8, has_data: bool) -> Comes {
    match (at, value) {
        (4..=7, _) => refused(message, DebuggerFault::UnknownReply),
        (8, 0) => refused(message, DebuggerFault::BadEvent),
        (8, _) => refused_frame(message, FrameFault::BadFlags),
        _ if has_data => refused(message, DebuggerFault::BadReply),
        _ => Comes::Goes(6, message == 5),
    }
}

/// The reply to Suspend as one to SuspendCount, which has to have data, or to Dispose.
fn of_suspended(at: usize, value: u8) -> Comes {
    match (at, value) {
        (7, 3) => refused(3, DebuggerFault::BadReply),
        (7, 4) => Comes::Goes(4, false),
        _ => of_reply(3, at, value, false),
    }
}

/// The reply to SuspendCount as one to Dispose, which has no data; a count below 0, and any other.
fn of_counted(at: usize, value: u8) -> Comes {
    match (at, value) {
        (7, 4) | (11, 128..=255) => refused(4, DebuggerFault::BadReply),
        (11..=14, _) => ALL,
        _ => of_reply(4, at, value, true),
    }
}

/// What is to come of another value behind a length.
fn of_message(message: usize, at: usize, value: u8) -> Comes {
    match message {
        1 => of_start(at, value),
        2 if at >= 11 => of_width(at, value),
        2 => of_reply(2, at, value, true),
        3 => of_suspended(at, value),
        4 => of_counted(at, value),
        _ => of_reply(5, at, value, false),
    }
}

/// What is to come of another value at a place. In each message the first two bytes of the length are 0, and any other is too long; the
/// third is 0, and any other is more than comes.
pub(crate) fn expected(place: usize, value: u8) -> Comes {
    let (message, at) = place_in(&ANSWERS_BEGIN, place);
    let before = u32::try_from(message).unwrap_or(0);
    if message == 0 {
        return refused_frame(0, FrameFault::BadHandshake(place));
    }
    match at {
        0 | 1 => refused_frame(before, FrameFault::TooLong),
        2 => Comes::Goes(before, true),
        3 => {
            let rest = ANSWERED.len().saturating_sub(place.saturating_sub(at));
            of_length(before, value, rest)
        }
        _ => of_message(message, at, value),
    }
}
