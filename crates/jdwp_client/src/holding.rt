//! Who is suspended for sure.
ghost use Rattle.std.specs.Prelude.{◌≡◌};
ghost use Rattle.std.specs.List.{list_any};
ghost use Rattle.jdwp_debugger.specs.Debuggers.{Unanswered, unanswered};
ghost use Rattle.jdwp_client.specs.Holding as spec;

use crate::unanswered::MOST_PENDING;
use jdwp_debugger::{Command, Debugger};
use jdwp_mirror::CommandKind;
use jdwp_value::ObjectId;
use jdwp_watch::is_invocation;

/// Whether a thread is suspended for sure: it is held, and no command is unanswered that may let it run, as Dispose, a Resume of it or of all,
/// or one that invokes a method.
pub fn is_surely_suspended(debugger: &Debugger, thread: ObjectId) -> bool
    ensures { result ≡ spec.is_surely_suspended debugger.now thread.0 }
{
    debugger.is_held(thread) && !may_be_freed(debugger, thread)
}

/// Whether a command is unanswered that may let the thread run.
fn may_be_freed(debugger: &Debugger, thread: ObjectId) -> bool
    ensures { result ≡ list_any (λ (u : Unanswered). spec.may_free thread.0 u.command)
        (unanswered debugger.now.pending) }
{
    debugger.session();
    for place in 0..MOST_PENDING {
        match debugger.unanswered(place) {
            Some((_, command)) if may_free(command, thread) => return true,
            Some(_) => {}
            None => return false,
        }
    }
    false
}

/// Whether a command may let a thread run: Dispose, a Resume of it or of all, or one that invokes a method.
pub fn may_free(command: &Command, thread: ObjectId) -> bool
    ensures { result ≡ spec.may_free thread.0 command.now }
{
    if is_invocation(command) {
        return true;
    }
    frees(command.kind(), command.thread(), thread)
}

/// Whether a command of this kind, which is about a thread or not, resumes the thread.
fn frees(kind: CommandKind, about: Option<ObjectId>, thread: ObjectId) -> bool
    ensures { result ≡ spec.frees_by kind about thread.0 }
{
    match (kind, about) {
        (CommandKind::Dispose | CommandKind::Resume, _) => true,
        (CommandKind::ResumeThread, Some(resumed)) => resumed.0 == thread.0,
        _ => false,
    }
}
