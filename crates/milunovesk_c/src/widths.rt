//! What calls on a debugger say, as C sees it.
ghost use Rattle.std.specs.Prelude.{◌≡◌, None, Some};
ghost use Rattle.milunovesk_c.specs.Seats.{request_told, unanswered_told, widths_told};

use jdwp_debugger::{Command, KeptRequest, Ticket};
use jdwp_wire::IdSizes;

/// How many bytes each kind of id has: all 0 where that is not known.
#[repr(C)]
#[derive(Clone, Copy)]
pub struct IdWidths {
    pub field: u8,
    pub method: u8,
    pub object: u8,
    pub reference: u8,
    pub frame: u8,
}

impl IdWidths {
    /// These widths.
    pub(crate) fn of(sizes: Option<IdSizes>) -> IdWidths
        ensures { result ≡ widths_told sizes }
    {
        match sizes {
            None => IdWidths {
                field: 0,
                method: 0,
                object: 0,
                reference: 0,
                frame: 0,
            },
            Some(sizes) => IdWidths {
                field: sizes.field(),
                method: sizes.method(),
                object: sizes.object(),
                reference: sizes.reference(),
                frame: sizes.frame(),
            },
        }
    }
}

/// A command that waits for its answer: all 0 where there is none.
#[repr(C)]
#[derive(Clone, Copy)]
pub struct Asked {
    pub ticket: u64,
    pub set: u8,
    pub number: u8,
}

impl Asked {
    /// No command.
    pub(crate) fn none() -> Asked
        ensures { result ≡ unanswered_told None }
    {
        Asked {
            ticket: 0,
            set: 0,
            number: 0,
        }
    }

    /// This command, which was asked under this ticket.
    pub(crate) fn of(ticket: Ticket, command: &Command) -> Asked
        ensures { result ≡ unanswered_told (Some (record {
          ticket = ticket.0;
          command = command.now;
        })) }
    {
        Asked {
            ticket: ticket.0,
            set: command.set(),
            number: command.number(),
        }
    }
}

/// An event request of the target, as the debugger keeps it.
#[repr(C)]
#[derive(Clone, Copy)]
pub struct Request {
    /// The id in the target's reply.
    pub id: i32,
    /// The byte of the event kind.
    pub kind: u8,
    /// The byte of the suspend policy.
    pub policy: u8,
}

impl Request {
    /// This request.
    pub(crate) fn of(kept: &KeptRequest) -> Request
        ensures { result ≡ request_told kept.now }
    {
        Request {
            id: kept.id(),
            kind: kept.kind(),
            policy: kept.policy(),
        }
    }
}
