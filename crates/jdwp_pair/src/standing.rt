//! How a link stands.
ghost use Rattle.std.specs.Prelude.{◌≡◌};
ghost use Rattle.jdwp_debugger.specs.Debuggers.{has_tickets};
ghost use Rattle.jdwp_end.specs.Ends.{is_open};
ghost use Rattle.jdwp_port.specs.Served.{lives};
ghost use Rattle.jdwp_pair.specs.Lines.{may_begin};

use jdwp_debugger::Debugger;
use jdwp_link::Link;
use jdwp_machine::Machine;
use jdwp_target::Target;

/// Whether a session may begin: both ends are closed, no command waits for its answer, and a thread of the machine lives.
pub(crate) fn may_begin<M: Machine + Drop>(link: &Link<M>) -> bool
    ensures { result ≡ may_begin M.meaning link.now }
{
    let (target, debugger) = (link.target(), link.debugger());
    !target.is_open() && !debugger.is_open() && !awaits_answers(debugger) && lives(target)
}

/// Whether the link's debugger is in a session.
pub(crate) fn is_debugger_open<M: Machine + Drop>(link: &Link<M>) -> bool
    ensures { result ≡ is_open link.now.debugger.end }
{
    link.debugger().is_open()
}

/// Whether a command waits for its answer.
pub(crate) fn awaits_answers(debugger: &Debugger) -> bool
    ensures { result ≡ has_tickets debugger.now.pending }
{
    debugger.unanswered(0).is_some()
}

/// Whether a thread of the machine lives.
fn lives<M: Machine + Drop>(target: &Target<M>) -> bool
    ensures { result ≡ lives M.meaning target.now }
{
    !target.live().is_empty()
}
