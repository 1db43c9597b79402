//! Commands that wait for their answers.
ghost use Rattle.std.specs.Prelude.{◌≡◌, ◌==◌};
ghost use Rattle.std.specs.List.{list_any};
ghost use Rattle.jdwp_debugger.specs.Debuggers.{Unanswered, unanswered};

use jdwp_debugger::{Debugger, Ticket};

/// No more commands wait for answers, whatever the limits.
pub(crate) const MOST_PENDING: usize = 1_024;

/// Whether a command waits for its answer under this ticket.
pub(crate) fn is_unanswered(debugger: &Debugger, ticket: Ticket) -> bool
    ensures { result ≡ list_any (λ (u : Unanswered). u.ticket == ticket.0)
        (unanswered debugger.now.pending) }
{
    debugger.session();
    for place in 0..MOST_PENDING {
        match debugger.unanswered(place) {
            Some((waits, _)) if waits == ticket => return true,
            Some(_) => {}
            None => return false,
        }
    }
    false
}
