//! What is told of what the debugger read.
ghost use Rattle.std.specs.Prelude.{◌≡◌, ◌++◌, IfErr, IfOk, OnOk};
ghost use Rattle.std.specs.String.{string_bytes};
ghost use Rattle.jdwp_debugger.specs.declared.order.Order as orders;
ghost use Rattle.jdwp_end.specs.Story.{with_written};
ghost use Rattle.jdwp_attach.specs.Telling.{widths_line};
ghost use Rattle.jdwp_pair.specs.Events.{is_seen, seen_in};
ghost use Rattle.jdwp_pair.specs.Followers.{Followed};
ghost use Rattle.jdwp_pair.specs.Lines.{FailsToTellKnown, PrintsKnown, TellsBy};
ghost use Rattle.jdwp_pair.specs.Telling.{FailsToTell, heads_text, lost_line, lost_text, told_line, turn_text, untold_line};

use crate::ended::PairEnded;
use jdwp_attach::{answered_line, hello_line, known_text, mirror_text, seen_line, sizes_line};
use jdwp_debugger::{Debugger, Head, Mirror};
use jdwp_end::{Pipe, write_all};
use jdwp_link::{Link, Outcome};
use jdwp_machine::Machine;
use jdwp_wire::{IdSizes, NoMemory};
use std::alloc::Global;

/// Prints what is told of a turn of the debugger, and of the tickets that are lost with it.
///
/// # Errors
/// `LostByWrite` where a write failed; `NoMemory` where an allocation was refused, and then nothing was printed.
pub(crate) fn tell_turn<W: Pipe>(
    alloc: Global,
    debugger: &Debugger,
    outcomes: &[Outcome],
    out: &mut W,
) -> Result<(), PairEnded>
    ensures tells { OnOk result (W.story out.new
        ≡ with_written (turn_text debugger.now outcomes.now) (W.story out.old)) }
    ensures ends { IfErr result (λ ended. FailsToTell (turn_text debugger.now outcomes.now) ended
        (W.story out.old) (W.story out.new)) }
{
    match turn_text(alloc, debugger, outcomes) {
        Ok(text) => print(out, &text),
        Err(NoMemory) => Err(PairEnded::NoMemory),
    }
}

/// How many composites are told of.
pub(crate) fn seen_in(outcomes: &[Outcome]) -> u64
    ensures { result ≡ seen_in outcomes.now }
{
    let mut seen: usize = 0;
    for outcome in outcomes {
        if is_seen(outcome) {
            seen += 1;
        }
    }
    seen as u64
}

/// Whether a composite is told of.
fn is_seen(outcome: &Outcome) -> bool
    ensures { result ≡ is_seen outcome.now }
{
    match outcome {
        Outcome::Seen(_) => true,
        Outcome::Asked(_) | Outcome::Refused(_) | Outcome::Answered(..) | Outcome::Lost(_) => false,
    }
}

/// Prints the tickets that are lost.
///
/// # Errors
/// `LostByWrite` where a write failed; `NoMemory` where an allocation was refused, and then nothing was printed.
pub(crate) fn tell_lost<W: Pipe>(
    alloc: Global,
    outcomes: &[Outcome],
    out: &mut W,
) -> Result<(), PairEnded>
    ensures tells { OnOk result (W.story out.new
        ≡ with_written (lost_text outcomes.now) (W.story out.old)) }
    ensures ends { IfErr result (λ ended. FailsToTell (lost_text outcomes.now) ended
        (W.story out.old) (W.story out.new)) }
{
    match tickets_text(alloc, outcomes) {
        Ok(text) => print(out, &text),
        Err(NoMemory) => Err(PairEnded::NoMemory),
    }
}

/// Prints what the debugger knows, or the follower, where there is one.
///
/// # Errors
/// `LostByWrite` where a write failed; `NoMemory` where an allocation was refused, and then nothing was printed.
pub(crate) fn tell_known<M: Machine + Drop, W: Pipe>(
    alloc: Global,
    link: &Link<M>,
    follower: &Option<Debugger>,
    out: &mut W,
) -> Result<(), PairEnded>
    ensures tells { OnOk result ((order : orders.Order)
        → Followed M.meaning order link.now follower.now
        → PrintsKnown M.meaning order link.now (W.story out.old) (W.story out.new)) }
    ensures ends { IfErr result (λ ended. (order : orders.Order)
        → Followed M.meaning order link.now follower.now
        → FailsToTellKnown M.meaning order link.now ended (W.story out.old) (W.story out.new)) }
{
    match what_is_known(alloc, link, follower) {
        Ok(text) => print(out, text.as_str()),
        Err(NoMemory) => Err(PairEnded::NoMemory),
    }
}

/// What is told of what the debugger knows, or the follower, where there is one.
///
/// # Errors
/// `NoMemory` where an allocation was refused.
fn what_is_known<M: Machine + Drop>(
    alloc: Global,
    link: &Link<M>,
    follower: &Option<Debugger>,
) -> Result<String, NoMemory>
    ensures { IfOk result (λ text. (order : orders.Order)
        → Followed M.meaning order link.now follower.now
        → TellsBy M.meaning order link.now (string_bytes text)) }
{
    match follower {
        None => mirror_text(alloc, mirror_of(link)),
        Some(debugger) => known_text(alloc, debugger),
    }
}

/// The mirror of a link's debugger.
fn mirror_of<M: Machine + Drop>(link: &Link<M>) -> &Mirror
    ensures { result.now ≡ link.now.debugger.mirror }
{
    link.debugger().mirror()
}

/// Prints a text.
///
/// # Errors
/// `LostByWrite` where a write failed.
fn print<W: Pipe>(out: &mut W, text: &str) -> Result<(), PairEnded>
    ensures tells { OnOk result (W.story out.new ≡ with_written text.now (W.story out.old)) }
    ensures ends { IfErr result (λ ended. FailsToTell text.now ended (W.story out.old)
        (W.story out.new)) }
{
    if write_all(out, text.as_bytes()) {
        Ok(())
    } else {
        Err(PairEnded::LostByWrite)
    }
}

/// What is told of a turn: the messages that it read, each with what is told of it, and the tickets that are lost with them.
fn turn_text(alloc: Global, debugger: &Debugger, outcomes: &[Outcome]) -> Result<String, NoMemory>
    ensures { IfOk result (λ text. string_bytes text ≡ turn_text debugger.now outcomes.now) }
{
    let text = heads_text(alloc, debugger.sizes(), debugger.last(), outcomes)?;
    joined(text, &tickets_text(alloc, outcomes)?)
}

/// The lines of messages, each with what is told of it, one after the other.
fn heads_text(
    alloc: Global,
    sizes: Option<IdSizes>,
    heads: &[Head],
    outcomes: &[Outcome],
) -> Result<String, NoMemory>
    ensures { IfOk result (λ text. string_bytes text ≡ heads_text sizes heads.now outcomes.now) }
{
    match heads {
        [] => Ok(String::new(alloc)),
        [head, later @ ..] => match outcomes {
            [] => {
                let line = untold_line(alloc, sizes, head)?;
                joined(line, &heads_text(alloc, sizes, later, &[])?)
            }
            [told, others @ ..] => {
                let line = told_line(alloc, sizes, head, told)?;
                joined(line, &heads_text(alloc, sizes, later, others)?)
            }
        },
    }
}

/// A text, and another behind it.
fn joined(mut text: String, more: &str) -> Result<String, NoMemory>
    ensures { IfOk result (λ both. string_bytes both ≡ string_bytes text ++ more.now) }
{
    text.push_str(more)?;
    Ok(text)
}

/// The line of a message with what is told of it.
fn told_line(
    alloc: Global,
    sizes: Option<IdSizes>,
    head: &Head,
    told: &Outcome,
) -> Result<String, NoMemory>
    ensures { IfOk result (λ line. string_bytes line ≡ told_line sizes head.now told.now) }
{
    match (head, told) {
        (Head::Composite(header), Outcome::Seen(composite)) => {
            seen_line(alloc, header.id, composite)
        }
        (
            Head::Reply {
                header,
                set,
                number,
            },
            Outcome::Answered(_, answer),
        ) => answered_line(alloc, header.id, *set, *number, answer),
        _ => untold_line(alloc, sizes, head),
    }
}

/// The line of a message of which nothing is told: a composite that waits for the widths of ids has none, and the reply to IDSizes has them.
fn untold_line(alloc: Global, sizes: Option<IdSizes>, head: &Head) -> Result<String, NoMemory>
    ensures { IfOk result (λ line. string_bytes line ≡ untold_line sizes head.now) }
{
    match head {
        Head::Hello => hello_line(alloc),
        Head::Composite(_) => Ok(String::new(alloc)),
        Head::Reply { header, .. } => widths_line(alloc, header.id, sizes),
    }
}

/// The line of the widths of ids, under the id of the reply that had them.
fn widths_line(alloc: Global, id: u32, sizes: Option<IdSizes>) -> Result<String, NoMemory>
    ensures { IfOk result (λ line. string_bytes line ≡ widths_line sizes id) }
{
    match sizes {
        Some(sizes) => sizes_line(alloc, id, &sizes),
        None => Ok(String::new(alloc)),
    }
}

/// The lines of the tickets that are lost.
fn tickets_text(alloc: Global, outcomes: &[Outcome]) -> Result<String, NoMemory>
    ensures { IfOk result (λ text. string_bytes text ≡ lost_text outcomes.now) }
{
    let mut text = String::new(alloc);
    for outcome in outcomes {
        text.push_str(&lost_line(alloc, outcome)?)?;
    }
    Ok(text)
}

/// The line of a ticket that is lost: `lost TICKET`; of anything else there is none.
fn lost_line(alloc: Global, outcome: &Outcome) -> Result<String, NoMemory>
    ensures { IfOk result (λ line. string_bytes line ≡ lost_line outcome.now) }
{
    match outcome {
        Outcome::Lost(ticket) => {
            let number = ticket.0;
            let line = format!(in alloc; "lost {number}\n")?;
            Ok(line)
        }
        Outcome::Asked(_) | Outcome::Refused(_) | Outcome::Answered(..) | Outcome::Seen(_) => {
            Ok(String::new(alloc))
        }
    }
}
