//! What the definitions say of sessions that were worked out by hand. The theorems don't rest on them.
ghost use Rattle.jdwp_orders.specs.Worked.{IsSureAsWorked};

/// An event that crosses a Suspend shows its thread at once, and the reply to the Suspend shows the other, whose count was asked before; an
/// unanswered Resume takes one off each; and nobody is sure in a session that begins anew.
pub fn is_sure_as_worked_out()
    ensures { IsSureAsWorked }
{}
