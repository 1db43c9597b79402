//! Messages as lines.
ghost use Rattle.std.specs.Prelude.{◌≡◌};
ghost use Rattle.jdwp_judge.specs.Heard.{item_of, fault_by, line_by, thing};
ghost use Rattle.jdwp_show.specs.MessageLines.{found_line};
ghost use Rattle.jdwp_show.specs.Rules.{Holds};
ghost use Rattle.jdwp_show.specs.Transcripts.{Tells};

use crate::heard::{Found, Heard};
use crate::rules::item_fault;
use jdwp_show::{CaptureFault, CommandNumber, Terms, Transcript};

/// Appends the line of a message, if it breaks no rule where data are read so. Answers its fault, and the piece in which its last byte stands.
///
/// Whether the debugger's handshake was before it, and which command waits under its id, are given.
#[inline(always)]
pub(crate) fn tell(
    terms: &Terms,
    begun: bool,
    waits: Option<CommandNumber>,
    heard: &Heard,
    lines: &mut Transcript,
) -> Option<(usize, CaptureFault)>
    ensures fault { result ≡ fault_by terms.now begun waits (item_of heard.now) }
    ensures line { Tells lines.old (line_by terms.now begun waits (item_of heard.now)) lines.new }
{
    match item_fault(*terms, begun, waits, heard) {
        Some(fault) => Some((heard.piece, fault)),
        None => {
            show(terms, waits, heard, lines);
            None
        }
    }
}

/// Appends the line of a message that breaks no rule; a frame fault has none.
#[inline(always)]
fn show(terms: &Terms, waits: Option<CommandNumber>, heard: &Heard, lines: &mut Transcript)
    requires { Holds terms.now waits heard.now.sender (thing heard.now.found) }
    ensures { Tells lines.old (found_line terms.now waits heard.now.sender (thing heard.now.found))
        lines.new }
{
    match heard.found {
        Found::Fault(_) => {}
        Found::Handshake => lines.push_hello(heard.sender),
        Found::Packet(packet) => lines.push_packet(*terms, waits, heard.sender, &packet),
    }
}
