//! What a debugger follows of its target: it keeps a ledger.
ghost use Rattle.std.specs.Prelude.{◌≡◌, ◌<◌, IfOk, OnErr, OnOk, is_some, true};
ghost use Rattle.jdwp_apart.specs.Messages as messages;
ghost use Rattle.jdwp_mirror.specs.Messages.{id_sizes};
ghost use Rattle.jdwp_watch.specs.Ledgers.{is_told, put_of};
ghost use Rattle.jdwp_debugger.specs.FollowingKept.{AreReported, HasRoom, IsAnswered, IsDue, IsFirstOf, IsReported, ledger_put};
ghost use Rattle.jdwp_debugger.specs.Debuggers.{first_in};

use crate::order::Order;
use jdwp_event::Composite;
use jdwp_layout::Answer;
use jdwp_mirror::Command;
use jdwp_watch::{Ledger, Put, is_invocation};
use jdwp_wire::NoMemory;
use std::alloc::Global;

/// As a session begins with a target of this order. Takes no memory.
pub(crate) fn begin(order: Order, alloc: Global) -> Option<Ledger>
    ensures { result ≡ first_in order }
{
    match order {
        Order::One => None,
        Order::Apart => Some(Ledger::new(alloc)),
    }
}

/// Whether one command more is counted.
///
/// # Errors
/// `NoMemory` where 2^62 were asked in the session.
pub(crate) fn check_room(ledger: &Option<Ledger>) -> Result<(), NoMemory>
    ensures { OnOk result (HasRoom ledger.now) }
{
    match ledger {
        Some(kept) if !kept.has_room() => Err(NoMemory),
        _ => Ok(()),
    }
}

/// What a command is that is put, where that is followed.
pub(crate) fn put_where_followed(ledger: &Option<Ledger>, command: &Command) -> Put
    ensures { ledger_put result ledger.now ≡ ledger_put (put_of command.now) ledger.now }
{
    match ledger {
        Some(_) => Put::of(command),
        None => Put::Asks,
    }
}

/// A command was put.
pub(crate) fn note_put(ledger: &mut Option<Ledger>, put: Put)
    requires { HasRoom ledger.old }
    ensures { ledger.new ≡ ledger_put put ledger.old }
{
    match put {
        Put::Invokes => {}
        Put::Asks => {
            if let Some(kept) = ledger {
                kept.on_ask();
            }
        }
        Put::Outside => *ledger = None,
    }
}

/// The answer to a command was read, which is that to the next one or not.
///
/// # Errors
/// `NoMemory` where an allocation was refused; nothing has changed. Only an answer that tells of threads comes to that.
pub(crate) fn note_answer(
    ledger: &mut Option<Ledger>,
    is_next: bool,
    command: &Command,
    answer: &Answer,
) -> Result<(), NoMemory>
    requires { IsDue (messages.is_invocation command.now) is_next ledger.old }
    ensures ok { OnOk result (IsAnswered (messages.is_invocation command.now) is_next command.now answer.now ledger.old ledger.new) }
    ensures err { OnErr result (ledger.new ≡ ledger.old) }
    ensures memory { OnErr result ((is_told command.now answer.now ≡ true) × (is_some ledger.old ≡ true)) }
{
    if is_invocation(command) {
        return Ok(());
    }
    if !is_next {
        *ledger = None;
        return Ok(());
    }
    match ledger {
        Some(kept) => kept.on_answer(command, answer),
        None => Ok(()),
    }
}

/// A composite was read.
///
/// # Errors
/// `NoMemory` where an allocation was refused; nothing has changed.
pub(crate) fn note_composite(
    ledger: &mut Option<Ledger>,
    composite: &Composite,
) -> Result<(), NoMemory>
    ensures ok { OnOk result (IsReported composite.now ledger.old ledger.new) }
    ensures err { OnErr result (ledger.new ≡ ledger.old) }
{
    match ledger {
        Some(kept) => kept.on_composite(composite),
        None => Ok(()),
    }
}

/// Composites were read, in order.
///
/// # Errors
/// `NoMemory` where an allocation was refused.
fn note_each(ledger: &mut Option<Ledger>, composites: &[Composite]) -> Result<(), NoMemory>
    ensures { OnOk result (AreReported composites.now ledger.old ledger.new) }
{
    match composites {
        [] => Ok(()),
        [first, rest @ ..] => {
            note_composite(ledger, first)?;
            note_each(ledger, rest)
        }
    }
}

/// As the widths of ids become known: IDSizes was put, these composites came, and then its answer.
///
/// # Errors
/// `NoMemory` where an allocation was refused.
pub(crate) fn follow_waited(
    order: Order,
    alloc: Global,
    sizes_command: &Command,
    answer: &Answer,
    composites: &[Composite],
) -> Result<Option<Ledger>, NoMemory>
    requires { sizes_command.now ≡ id_sizes }
    ensures { IfOk result (λ ledger. IsFirstOf order answer.now composites.now ledger) }
{
    let mut ledger = begin(order, alloc);
    note_put(&mut ledger, Put::Asks);
    note_each(&mut ledger, composites)?;
    note_answer(&mut ledger, true, sizes_command, answer)?;
    Ok(ledger)
}
