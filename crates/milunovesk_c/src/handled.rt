//! What a turn of a target did, as C sees it.
ghost use Rattle.std.specs.Prelude.{◌≡◌};
ghost use Rattle.milunovesk_c.specs.Targets as targets;

use jdwp_target::Turn;

/// What a turn of a target did, in numbers.
#[repr(C)]
#[derive(Clone, Copy)]
pub struct Handled {
    /// 0 nothing, 1 the handshake, 2 a command was replied to, 3 a reply, which means nothing, 4 a command was deferred.
    pub kind: u8,
    /// The error code of the reply, 0 where it has none.
    pub error: u16,
    /// Why the bytes in front begin no message, 1 to 4; else 0.
    pub fault: u16,
    /// The id of the command.
    pub id: u32,
}

impl Handled {
    /// What was done.
    pub(crate) fn of(turn: Turn) -> Handled
        ensures { result ≡ targets.handled turn }
    {
        match turn {
            Turn::Nothing => parts(0, 0, 0),
            Turn::Hello => parts(1, 0, 0),
            Turn::Replied(id, error) => parts(2, error.0, id),
            Turn::Ignored => parts(3, 0, 0),
            Turn::Deferred(id) => parts(4, 0, id),
        }
    }

    /// Nothing was done, for this fault.
    pub(crate) fn of_fault(number: u16) -> Handled
        ensures { result ≡ targets.handled_fault number }
    {
        Handled {
            kind: 0,
            error: 0,
            fault: number,
            id: 0,
        }
    }
}

fn parts(kind: u8, error: u16, id: u32) -> Handled
    ensures { result ≡ record {
      kind = kind;
      error = error;
      fault = 0;
      id = id;
    } }
{
    Handled {
        kind,
        error,
        fault: 0,
        id,
    }
}
