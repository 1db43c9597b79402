//! A debugger that asks.
ghost use Rattle.std.specs.Prelude.{◌≡◌, ◌+◌, pos, negsuc, IfOk, OnErr};
ghost use Rattle.milunovesk.specs.Command.Asks.{command_with};
ghost use Rattle.milunovesk.specs.Command.Contents.{of_range};
ghost use Rattle.milunovesk.specs.Debugger.Asking.{HasAsked};
ghost use Rattle.milunovesk.specs.Layout.CommandNumbers.{FRAMES};

use milunovesk::commands::thread_reference;
use milunovesk::{Debugger, ObjectId, Refused, Ticket};
use std::alloc::Global;

/// Asks for all frames of a thread: from the first on, and as many as there are. The answer comes under the ticket, from a later turn of the
/// debugger.
///
/// # Errors
/// Those of `Debugger::ask`; nothing has changed.
pub fn ask_for_frames(
    alloc: Global,
    debugger: &mut Debugger,
    thread: ObjectId,
) -> Result<Ticket, Refused>
    ensures asked { IfOk result (λ ticket. (ticket.0 ≡ debugger.old.tickets + 1)
        × HasAsked (command_with FRAMES (of_range thread (pos 0) (negsuc 0))) debugger.old debugger.new) }
    ensures refused { OnErr result (debugger.new ≡ debugger.old) }
{
    let command = thread_reference::frames(alloc, thread, 0, -1)?;
    debugger.ask(alloc, command)
}
