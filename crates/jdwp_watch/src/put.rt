//! What commands are to one who follows the threads.
ghost use Rattle.std.specs.Prelude.{◌≡◌, ◌==◌, ◌&&◌, not};
ghost use Rattle.jdwp_action.specs.Actions.{carries_out};
ghost use Rattle.jdwp_layout.specs.CommandTable.{row_at};
ghost use Rattle.jdwp_apart.specs.Messages as messages;
ghost use Rattle.jdwp_watch.specs.Ledgers.{is_end_kind, put_of};

use crate::invocation::is_invocation;
use jdwp_layout::layout_of;
use jdwp_layout::numbers::EVENT;
use jdwp_mirror::{Command, CommandKind};

/// What a command is to one who follows the threads.
#[derive(Clone, Copy, Debug, PartialEq, Eq)]
pub enum Put {
    /// It invokes a method.
    Invokes,
    /// Any other that a target of this layer carries out, but for Dispose and Exit.
    Asks,
    /// One that may do more to threads than is followed.
    Outside,
}

impl Put {
    /// What this command is.
    pub fn of(command: &Command) -> Put
        ensures { result ≡ put_of command.now }
    {
        if is_invocation(command) {
            Put::Invokes
        } else if may_ask(command) {
            Put::Asks
        } else {
            Put::Outside
        }
    }
}

/// Whether a command is followed that is no invocation.
fn may_ask(command: &Command) -> bool
    ensures { result ≡ messages.may_ask command.now }
{
    is_implemented(command.set(), command.number()) && !ends(command.kind())
}

/// Whether a target of this layer carries out the command of this set and number.
fn is_implemented(set: u8, number: u8) -> bool
    ensures { result ≡ (carries_out (row_at set number) && not (set == 64)) }
{
    match layout_of(set, number) {
        Some(row) => !row.starred && row.layouts.is_some() && set != EVENT,
        None => false,
    }
}

/// Whether a command of this kind ends the session, or the target's machine.
fn ends(kind: CommandKind) -> bool
    ensures { result ≡ is_end_kind kind }
{
    matches!(kind, CommandKind::Dispose | CommandKind::Exit)
}
