//! Which commands may change what was answered of a thread's frames.
ghost use Rattle.std.specs.Prelude.{◌≡◌};
ghost use Rattle.std.specs.List.{list_any};
ghost use Rattle.jdwp_debugger.specs.Debuggers.{Unanswered, unanswered};
ghost use Rattle.jdwp_frames.specs.Changing as spec;

use jdwp_client::may_free;
use jdwp_debugger::{Command, Debugger};
use jdwp_value::ObjectId;

/// No more commands wait for answers, whatever the limits.
const MOST_PENDING: usize = 1_024;

/// Whether what is answered of a thread's frames lasts: the thread is held, and no command is unanswered that may change it.
pub fn do_frames_last(debugger: &Debugger, thread: ObjectId) -> bool
    ensures { result ≡ spec.do_frames_last debugger.now thread.0 }
{
    debugger.is_held(thread) && !may_be_changed(debugger, thread)
}

/// Whether a command is unanswered that may change what was answered of the thread's frames.
fn may_be_changed(debugger: &Debugger, thread: ObjectId) -> bool
    ensures { result ≡ list_any (λ (u : Unanswered). spec.may_change thread.0 u.command)
        (unanswered debugger.now.pending) }
{
    debugger.session();
    for place in 0..MOST_PENDING {
        match debugger.unanswered(place) {
            Some((_, command)) if may_change(command, thread) => return true,
            Some(_) => {}
            None => return false,
        }
    }
    false
}

/// Whether a command may change what was answered of a thread's frames: it may let the thread run, as Dispose, a Resume of it or of all, or one
/// that invokes a method; or it is VirtualMachine.Exit or RedefineClasses, ThreadReference.ForceEarlyReturn, StackFrame.SetValues or PopFrames,
/// or of a set that the standard does not have.
pub fn may_change(command: &Command, thread: ObjectId) -> bool
    ensures { result ≡ spec.may_change thread.0 command.now }
{
    may_free(command, thread) || rewrites(command.set(), command.number())
}

/// Whether a command of this number ends the machine, or may change frames though their thread stays suspended.
fn rewrites(set: u8, number: u8) -> bool
    ensures { result ≡ spec.rewrites set number }
{
    (set == 1 && (number == 10 || number == 18))
        || (set == 11 && number == 14)
        || (set == 16 && (number == 2 || number == 4))
        || set > 17
}
