//! Turns of a debugger of which what they tell is kept.
ghost use Rattle.std.specs.Prelude.{◌≡◌, [], IfErr, IfOk, true};
ghost use Rattle.jdwp_end.specs.Ends as ends;
ghost use Rattle.jdwp_client.specs.Turning.{FailsKept, TurnsKept};

use crate::errors::ClientError;
use crate::kept::Kept;
use jdwp_debugger::{Debugger, DebuggerFault, Read};
use std::alloc::Global;

/// One turn, where so many composites may be kept at most: what it tells is kept. Whether it handled something.
///
/// # Errors
/// `TooManyEvents` where fewer than four more composites may be kept, and `NoMemory`: no turn was made, and nothing has changed. `Fault` where
/// the turn refused what is in front.
pub(crate) fn turn_and_keep(
    alloc: Global,
    debugger: &mut Debugger,
    kept: &mut Kept,
    most: usize,
) -> Result<bool, ClientError>
    requires is_open { ends.is_open debugger.old.end ≡ true }
    requires written { debugger.old.end.outgoing ≡ [] }
    ensures ok { IfOk result (λ handled. TurnsKept handled debugger.old kept.old.events.items
        kept.old.answers.items.items debugger.new kept.new.events.items kept.new.answers.items.items) }
    ensures err { IfErr result (λ e. FailsKept most e debugger.old kept.old.events.items
        kept.old.answers.items.items debugger.new kept.new.events.items kept.new.answers.items.items) }
{
    kept.make_room(most)?;
    debugger.session();
    match debugger.turn(alloc) {
        Ok(Read::Nothing) => Ok(false),
        Ok(read) => {
            kept.keep(read);
            Ok(true)
        }
        Err(DebuggerFault::NoMemory) => Err(ClientError::NoMemory),
        Err(fault) => Err(ClientError::Fault(fault)),
    }
}
