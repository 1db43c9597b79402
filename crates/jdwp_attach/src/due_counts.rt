//! The suspend counts that an engine asks for by itself.
ghost use Rattle.std.specs.Prelude.{◌≡◌, List, None, Option, OnErr, OnOk, if◌then◌else◌, is_some, true};
ghost use Rattle.jdwp_debugger.specs.declared.asking.Refused as asking;
ghost use Rattle.jdwp_debugger.specs.Asking.{IsRefusal};
ghost use Rattle.jdwp_debugger.specs.DebuggerTurns.{read_meaning};
ghost use Rattle.jdwp_debugger.specs.FollowingKept.{following};
ghost use Rattle.jdwp_event.specs.Told.{composite_thread, id_found};
ghost use Rattle.jdwp_attach.specs.OwnCounts.{AsksDue, Step, due_count, suspends_thread, unsure};

use jdwp_command::thread_reference::suspend_count;
use jdwp_debugger::{Debugger, Order, Read, Refused};
use jdwp_event::{Composite, Policy, thread_in};
use jdwp_value::ObjectId;
use jdwp_wire::NoMemory;
use std::alloc::Global;

/// Asks for the suspend count that is due behind a turn, if one is. A command that the debugger refuses is passed over.
///
/// # Errors
/// `NoMemory` where one is due and an allocation was refused; nothing has changed.
pub(crate) fn ask_due_count(
    alloc: Global,
    debugger: &mut Debugger,
    turn: &Read,
) -> Result<(), NoMemory>
    ensures ok { OnOk result ((own : List Step) × AsksDue (due_count (read_meaning turn.now)
        debugger.old) debugger.old debugger.new own) }
    ensures due { OnErr result (is_some (due_count (read_meaning turn.now) debugger.old) ≡ true) }
    ensures err { OnErr result (debugger.new ≡ debugger.old) }
{
    let Some(thread) = due_count(debugger, turn) else {
        return Ok(());
    };
    let command = suspend_count(alloc, thread)?;
    match debugger.ask(alloc, command) {
        Ok(_) => Ok(()),
        Err(refused) => pass_over(refused),
    }
}

/// A refusal is passed over.
///
/// # Errors
/// `NoMemory` where memory was wanting.
fn pass_over(refused: Refused) -> Result<(), NoMemory>
    ensures { OnOk result ((refusal : Option asking.Refused) → IsRefusal refused refusal
        → is_some refusal ≡ true) }
{
    match refused {
        Refused::NoMemory => Err(NoMemory),
        Refused::Closed
        | Refused::NotReady
        | Refused::Busy
        | Refused::BadCommand
        | Refused::TooLong => Ok(()),
    }
}

/// The thread whose suspend count is due behind a turn, if one is: that of a composite that suspends its thread and leaves it unsure, where
/// the target sends replies and composites by threads of their own, as long as anybody can be told.
pub fn due_count(debugger: &Debugger, turn: &Read) -> Option<ObjectId>
    ensures { result ≡ id_found (due_count (read_meaning turn.now) debugger.now) }
{
    match (debugger.order(), turn) {
        (Order::Apart, Read::Seen(composite)) => unsure_thread(debugger, composite),
        _ => None,
    }
}

/// The thread that a composite suspends, where it isn't surely suspended.
fn unsure_thread(debugger: &Debugger, composite: &Composite) -> Option<ObjectId>
    ensures { result ≡ id_found (if suspends_thread composite.now then unsure debugger.now (composite_thread composite.now) else None) }
{
    if !suspends_thread(composite) {
        return None;
    }
    let thread = thread_in(composite)?;
    if debugger.is_held(thread) || !is_following(debugger) {
        None
    } else {
        Some(thread)
    }
}

/// Whether anybody can be told.
fn is_following(debugger: &Debugger) -> bool
    ensures { result ≡ is_some (following debugger.now) }
{
    debugger.named_threads().is_some()
}

/// Whether the events of a composite suspend their thread.
fn suspends_thread(composite: &Composite) -> bool
    ensures { result ≡ suspends_thread composite.now }
{
    composite.policy() == Policy::EventThread.byte() || composite.policy() == Policy::All.byte()
}
