//! Merges that were worked out by hand. The theorems don't rest on them.
ghost use Rattle.jdwp_across.specs.Headline.{MayStart};
ghost use Rattle.jdwp_across.specs.Worked.{MergesAsWorked};
ghost use Rattle.jdwp_across.specs.WorkedLimits.{StartsAsWorked};
ghost use Rattle.jdwp_across.specs.WorkedOthers.{MeetsAsWorked};
ghost use Rattle.jdwp_model.specs.WorkedMachine.{settings, small, small_opening};

/// There are merges: of no acts, and of a session that begins at both ends; the target handles the debugger's handshake, which came in two
/// pieces, and is asked for the widths of ids; a breakpoint is asked for and reached, and its thread is held and suspended; a loss is
/// noticed at both ends, with a command under way whose ticket is lost; and a session begins anew. They start as the theorems ask, over a
/// machine that is lawful (`jdwp_model::worked_machine_is_lawful`).
pub fn merges_as_worked_out()
    ensures start { MayStart small settings small_opening 1 }
    ensures merges { MergesAsWorked }
{
    jdwp_model::worked_machine_is_lawful();
}

/// Programs whose limits differ may start: a debugger that takes longer packets than the target, lets more commands wait, and has less room for
/// all that the target alone counts; a session begins at both; and what asks for breakpoints fits the target.
pub fn own_limits_as_worked_out()
    ensures { StartsAsWorked }
{
    jdwp_model::worked_machine_is_lawful();
}

/// A target whose session with a debugger was lost, in which a breakpoint was asked for, may meet a new debugger: both handshakes come, and no
/// VM_START; the ids of the target's requests go on.
pub fn other_sessions_as_worked_out()
    ensures { MeetsAsWorked }
{
    jdwp_model::worked_machine_is_lawful();
}
