//! What a turn of a debugger read, as C sees it.
ghost use Rattle.std.specs.Prelude.{◌≡◌};
ghost use Rattle.jdwp_debugger.specs.DebuggerTurns.{read_meaning};
ghost use Rattle.milunovesk_c.specs.Telling as telling;

use jdwp_debugger::{DebuggerFault, Read};
use jdwp_layout::Answer;

/// What a turn of a debugger read, in numbers.
#[repr(C)]
#[derive(Clone, Copy)]
pub struct Heard {
    /// 0 nothing, 1 the handshake, 2 a composite that waits for the widths of ids, 3 the widths of ids, 4 an answer, 5 a composite.
    pub kind: u8,
    /// The error code of an answer, 0 where it has none.
    pub error: u16,
    /// Why the turn failed, 41 to 46; 0 where it did not.
    pub fault: u16,
    /// Behind a fault of 41 the number of the frame's fault, 1 to 4; else 0.
    pub frame: u16,
    /// The ticket of an answer; else 0.
    pub ticket: u64,
    /// How many data there are to be asked for.
    pub items: usize,
}

impl Heard {
    /// What was read.
    pub(crate) fn of_read(read: &Read) -> Heard
        ensures { result ≡ telling.heard (read_meaning read.now) }
    {
        match read {
            Read::Nothing => plain(0, 0),
            Read::Hello => plain(1, 0),
            Read::Parked => plain(2, 0),
            Read::Sizes(composites) => plain(3, composites.len()),
            Read::Answered(ticket, Answer::Data(_)) => answered(ticket.0, 0, 1),
            Read::Answered(ticket, Answer::Error(error)) => answered(ticket.0, error.0, 0),
            Read::Seen(_) => plain(5, 1),
        }
    }

    /// Nothing was read, for this fault.
    pub(crate) fn of_fault(fault: DebuggerFault) -> Heard
        ensures { result ≡ telling.heard_fault fault }
    {
        let frame = match fault {
            DebuggerFault::Frame(frame) => frame.number(),
            _ => 0,
        };
        Heard {
            kind: 0,
            error: 0,
            fault: fault.number(),
            frame,
            ticket: 0,
            items: 0,
        }
    }
}

/// An answer under this ticket, with an error or with data.
fn answered(ticket: u64, error: u16, items: usize) -> Heard
    ensures { result ≡ record {
      kind = 4;
      error = error;
      fault = 0;
      frame = 0;
      ticket = ticket;
      items = items;
    } }
{
    Heard {
        kind: 4,
        error,
        fault: 0,
        frame: 0,
        ticket,
        items,
    }
}

/// What is no answer, with so many data.
fn plain(kind: u8, items: usize) -> Heard
    ensures { result ≡ record {
      kind = kind;
      error = 0;
      fault = 0;
      frame = 0;
      ticket = 0;
      items = items;
    } }
{
    Heard {
        kind,
        error: 0,
        fault: 0,
        frame: 0,
        ticket: 0,
        items,
    }
}
