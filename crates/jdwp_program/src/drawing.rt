//! Captures, drawn on a writer.
ghost use Rattle.std.specs.Prelude.{◌≡◌, IfOk};
ghost use Rattle.std.specs.String.{string_bytes};
ghost use Rattle.jdwp_show.specs.Sessions.{first_fault};
ghost use Rattle.jdwp_program.specs.Drawings.{Draws, IsDrawing};
ghost use Rattle.jdwp_program.specs.Outputs.{LeavesTold};

use crate::captures::{TellFault, Told, tell};
use jdwp_draw::{Picture, svg};
use jdwp_show::CaptureFault;
use jdwp_wire::NoMemory;
use std::alloc::Global;
use std::io::Write;

/// Draws a capture as a document of SVG: `count` of its messages at most, from the message `from` on, the first being 0.
///
/// # Errors
/// `Output` where the output didn't take all of it; `NoMemory`, and then nothing was printed.
pub fn draw_capture<O: Write>(
    alloc: Global,
    capture: &str,
    from: usize,
    count: usize,
    out: &mut O,
) -> Result<Told, TellFault>
    ensures draws { Draws capture.now from count (O.contents out.old) (O.contents out.new) result }
    // The same by the exit status.
    ensures leaves { LeavesTold result (O.contents out.old) (O.contents out.new) }
{
    let drawing = drawn(alloc, capture, from, count)?;
    tell(out, drawing.text.as_str(), drawing.fault)
}

/// What is to be printed of a capture that is drawn, and its first fault.
#[derive(Drop)]
struct Drawing {
    text: String,
    fault: Option<(usize, CaptureFault)>,
}

fn drawn(alloc: Global, capture: &str, from: usize, count: usize) -> Result<Drawing, NoMemory>
    ensures fault { IfOk result (λ drawing. drawing.fault ≡ first_fault capture.now) }
    ensures text { IfOk result (λ drawing. IsDrawing capture.now from count
        (string_bytes drawing.text)) }
{
    let picture = Picture::read(alloc, capture)?;
    let text = svg(alloc, &picture, from, count)?;
    Ok(Drawing {
        text,
        fault: picture.fault,
    })
}
