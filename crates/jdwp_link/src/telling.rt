//! What is told of events.
ghost use Rattle.std.specs.Prelude.{◌≡◌, ◌<◌, ◌≤◌, ◌+◌, ◌++◌, IfOk, Ok, OnErr, false, length, true, vec_capacity, vec_len};
ghost use Rattle.jdwp_end.specs.Ends.{front_of};
ghost use Rattle.jdwp_debugger.specs.Debuggers as debuggers;
ghost use Rattle.jdwp_debugger.specs.Debuggers.{has_tickets, is_front, tickets_of};
ghost use Rattle.jdwp_debugger.specs.DebuggerTurns as turns;
ghost use Rattle.jdwp_debugger.specs.DebuggerTurns.{TurnsAt};
ghost use Rattle.jdwp_debugger.specs.declared.turning.Read.TheVariants as read;
ghost use Rattle.jdwp_link.specs.EventParts.{AsksSo, is_left, lost_of, lost_where, outcomes_of, seen_of, settled_bytes, settled_debugger, told_did};
ghost use Rattle.jdwp_link.specs.Told.{told_outcomes};

use crate::byte_queue::ByteQueue;
use crate::events::Outcome;
use crate::moving::keep_debugger;
use jdwp_debugger::{Command, Debugger, Read, Refused, Ticket};
use jdwp_event::Composite;
use jdwp_wire::NoMemory;
use std::alloc::Global;

/// How many commands may wait for replies, whatever the limits.
pub(crate) const PENDING_MOST: usize = 1_024;

/// How many outcomes a turn of the debugger may have: the composites that waited for the widths of ids, or what was read; and the
/// tickets that are lost.
pub(crate) const TOLD_MOST: usize = 4 + PENDING_MOST;

/// Asks a command of the debugger, and answers what is told of it.
///
/// # Errors
/// `NoMemory` where an allocation was refused; then nothing has changed.
pub(crate) fn ask_debugger(
    debugger: &mut Debugger,
    alloc: Global,
    command: Command,
) -> Result<Outcome, NoMemory>
    ensures ok { IfOk result (λ outcome. AsksSo command debugger.old outcome debugger.new) }
    ensures err { OnErr result (debugger.new ≡ debugger.old) }
{
    match debugger.ask(alloc, command) {
        Ok(ticket) => Ok(Outcome::Asked(ticket)),
        Err(Refused::NoMemory) => Err(NoMemory),
        Err(refused) => Ok(Outcome::Refused(refused)),
    }
}

/// A turn of a debugger at which there is nothing to handle. It takes no memory.
pub(crate) fn read_nothing(debugger: &mut Debugger, alloc: Global)
    requires { is_front (front_of debugger.old.end) ≡ false }
    ensures { TurnsAt (front_of debugger.old.end) debugger.old (Ok read.Nothing) debugger.new }
{
    match debugger.turn(alloc) {
        Ok(_) => {}
        Err(_) => unreachable!(),
    }
}

/// Tells what a turn read, and answers whether it handled a message. It takes no memory.
pub(crate) fn tell_read(read: Read, outcomes: &mut Vec<Outcome>) -> bool
    requires { vec_len outcomes.old + length (outcomes_of (turns.read_meaning read))
        ≤ vec_capacity outcomes.old }
    ensures items { outcomes.new.items ≡ outcomes.old.items ++ told_outcomes
        (outcomes_of (turns.read_meaning read)) }
    ensures len { vec_len outcomes.new ≡ vec_len outcomes.old + length
        (outcomes_of (turns.read_meaning read)) }
    ensures capacity { vec_capacity outcomes.new ≡ vec_capacity outcomes.old }
    ensures did { result ≡ told_did (turns.read_meaning read) }
{
    match read {
        Read::Nothing => false,
        Read::Hello | Read::Parked => true,
        Read::Sizes(composites) => {
            tell_seen(composites, outcomes);
            true
        }
        Read::Answered(ticket, answer) => {
            outcomes.push_reserved(Outcome::Answered(ticket, answer));
            true
        }
        Read::Seen(composite) => {
            outcomes.push_reserved(Outcome::Seen(composite));
            true
        }
    }
}

/// Tells these composites. It takes no memory.
fn tell_seen(composites: Vec<Composite>, outcomes: &mut Vec<Outcome>)
    requires { vec_len outcomes.old + length composites.items ≤ vec_capacity outcomes.old }
    ensures items { outcomes.new.items ≡ outcomes.old.items ++ seen_of composites.items }
    ensures len { vec_len outcomes.new ≡ vec_len outcomes.old + length composites.items }
    ensures capacity { vec_capacity outcomes.new ≡ vec_capacity outcomes.old }
{
    for composite in composites {
        outcomes.push_reserved(Outcome::Seen(composite));
    }
}

/// Where tickets wait at an end that closed, they are lost and told, and what waits to leave is kept. It takes no memory.
pub(crate) fn settle(debugger: &mut Debugger, queue: &mut ByteQueue, outcomes: &mut Vec<Outcome>)
    requires kept { is_left debugger.old ≡ true
        → length queue.old.bytes + length debugger.old.end.outgoing ≤ queue.old.capacity }
    requires told { vec_len outcomes.old + PENDING_MOST ≤ vec_capacity outcomes.old }
    ensures debugger { debugger.new ≡ settled_debugger (is_left debugger.old) debugger.old }
    ensures queue { queue.new ≡ record queue.old {
      bytes = settled_bytes (is_left debugger.old)
          debugger.old queue.old.bytes;
    } }
    ensures told { outcomes.new.items ≡ outcomes.old.items ++ lost_where (is_left debugger.old)
        debugger.old }
{
    if has_left(debugger) {
        lose_and_tell(debugger, queue, outcomes);
    }
}

/// The connection is lost at a debugger: what waits to leave is kept, and its tickets are told. It takes no memory.
pub(crate) fn lose_and_tell(
    debugger: &mut Debugger,
    queue: &mut ByteQueue,
    outcomes: &mut Vec<Outcome>,
)
    requires kept { length queue.old.bytes + length debugger.old.end.outgoing ≤ queue.old.capacity }
    requires told { has_tickets debugger.old.pending ≡ true → vec_len outcomes.old + PENDING_MOST
        ≤ vec_capacity outcomes.old }
    ensures debugger { debugger.new ≡ debuggers.lost_debugger (debuggers.with_taken debugger.old.end.outgoing
        debugger.old) }
    ensures queue { queue.new
        ≡ record queue.old { bytes = queue.old.bytes ++ debugger.old.end.outgoing } }
    ensures told { outcomes.new.items ≡ outcomes.old.items ++ lost_of
        (tickets_of debugger.old.pending) }
{
    keep_debugger(debugger, queue);
    let lost = debugger.lose();
    tell_lost(lost.as_slice(), outcomes);
}

/// Whether tickets wait at a debugger whose end closed.
fn has_left(debugger: &Debugger) -> bool
    ensures { result ≡ is_left debugger.now }
{
    !debugger.is_open() && have_tickets(debugger)
}

/// Whether tickets wait at a debugger.
pub(crate) fn have_tickets(debugger: &Debugger) -> bool
    ensures { result ≡ has_tickets debugger.now.pending }
{
    debugger.unanswered(0).is_some()
}

/// Tells the tickets that are lost. It takes no memory.
fn tell_lost(tickets: &[Ticket], outcomes: &mut Vec<Outcome>)
    requires { 0 < length tickets.now → vec_len outcomes.old + length tickets.now
        ≤ vec_capacity outcomes.old }
    ensures { outcomes.new.items ≡ outcomes.old.items ++ lost_of tickets.now }
{
    for ticket in tickets {
        outcomes.push_reserved(Outcome::Lost(*ticket));
    }
}
