//! Which replies and composites are refused.
ghost use Rattle.std.specs.Prelude.{◌≡◌, ◌∷◌, []};
ghost use Rattle.jdwp_layout.specs.Meanings.{datum_meaning, meanings};
ghost use Rattle.jdwp_mirror.specs.Faults.{is_bad_event, is_bad_reply, is_of_two};
ghost use Rattle.jdwp_mirror.specs.FaultParts as parts;
ghost use Rattle.jdwp_mirror.specs.FaultParts.{is_bad_of_kind, is_sizes_kind};
ghost use Rattle.jdwp_mirror.specs.KnownThreads.{count_in};
ghost use Rattle.jdwp_mirror.specs.Widths.{width_said, widths_in, widths_if};

use crate::command::{Command, CommandKind};
use crate::mirror::Mirror;
use crate::reply::{count_in_reply, id_in_reply};
use jdwp_event::{Composite, Event, EventKind, Policy, has_event_of, thread_in, thread_of_event};
use jdwp_layout::{Answer, Data, Datum, Scalar};
use jdwp_value::ObjectId;
use jdwp_wire::IdSizes;

/// Whether a reply says nothing that a debugger can use.
pub fn is_bad_answer(command: &Command, answer: &Answer) -> bool
    ensures { result ≡ is_bad_reply command.now answer.now }
{
    let kind = command.kind();
    match answer {
        Answer::Data(reply) => is_bad_for(kind, reply),
        Answer::Error(_) => is_of_sizes(kind),
    }
}

/// Whether the command is IDSizes, which is never refused.
fn is_of_sizes(kind: CommandKind) -> bool
    ensures { result ≡ is_sizes_kind kind }
{
    matches!(kind, CommandKind::IdSizes)
}

fn is_bad_for(kind: CommandKind, reply: &Data) -> bool
    ensures { result ≡ is_bad_of_kind kind reply.now }
{
    match kind {
        CommandKind::SuspendCount => count_in_reply(reply).is_none(),
        CommandKind::Request => id_in_reply(reply).is_none(),
        CommandKind::IdSizes => widths_in_items(reply.items()).is_none(),
        _ => false,
    }
}

/// The widths in the answer to IDSizes; None where they are no widths.
pub fn widths_in_answer(answer: &Answer) -> Option<IdSizes>
    ensures { result ≡ widths_in answer.now }
{
    match answer {
        Answer::Data(reply) => widths_in_items(reply.items()),
        Answer::Error(_) => None,
    }
}

fn widths_in_items(items: &[Datum]) -> Option<IdSizes>
    ensures { result ≡ widths_if (meanings items.now) }
{
    if items.len() != 5 {
        return None;
    }
    widths_of(&items[0], &items[1], &items[2], &items[3], &items[4])
}

/// The widths that these are, in the order of the IDSizes reply; None where one of them is no width.
fn widths_of(
    field: &Datum,
    method: &Datum,
    object: &Datum,
    reference: &Datum,
    frame: &Datum,
) -> Option<IdSizes>
    ensures { result ≡ widths_if (datum_meaning field.now ∷ datum_meaning method.now ∷ datum_meaning
        object.now ∷ datum_meaning reference.now ∷ datum_meaning frame.now ∷ []) }
{
    match IdSizes::new(
        width_in(field),
        width_in(method),
        width_in(object),
        width_in(reference),
        width_in(frame),
    ) {
        Ok(sizes) => Some(sizes),
        Err(_) => None,
    }
}

/// The width that an int says, 0 where it is negative.
fn width_in(item: &Datum) -> u32
    ensures { result ≡ width_said (datum_meaning item.now) }
{
    match item {
        Datum::One(Scalar::Int(width)) => u32::try_from(*width).unwrap_or(0),
        _ => 0,
    }
}

/// Whether no target may send this composite to a debugger with this mirror.
pub fn is_bad_composite(mirror: &Mirror, composite: &Composite) -> bool
    ensures { result ≡ is_bad_event (count_in mirror.now.threads) composite.now }
{
    composite.events().is_empty()
        || composite.policy() > Policy::All.byte()
        || are_of_two(composite.events())
        || is_suspended(mirror, composite)
        || is_bad_death(composite)
}

/// Whether the thread of a composite is known with a count above 0, so that it can't have run.
fn is_suspended(mirror: &Mirror, composite: &Composite) -> bool
    ensures { result ≡ parts.is_suspended (count_in mirror.now.threads) composite.now }
{
    match thread_in(composite) {
        Some(thread) => mirror.count(thread).is_some_and(|count| count > 0),
        None => false,
    }
}

/// Whether VM_DEATH stands beside another event, or suspends.
fn is_bad_death(composite: &Composite) -> bool
    ensures { result ≡ parts.is_bad_death composite.now }
{
    has_event_of(composite, EventKind::VmDeath)
        && (composite.events().len() != 1 || composite.policy() != Policy::None.byte())
}

/// Whether two of the events have different threads.
fn are_of_two(events: &[Event]) -> bool
    ensures { result ≡ is_of_two events.now }
{
    let mut before: Option<ObjectId> = None;
    for event in events {
        match (before, thread_of_event(event)) {
            (Some(one), Some(other)) if one.0 != other.0 => return true,
            (None, Some(other)) => before = Some(other),
            (Some(_), Some(_)) | (_, None) => {}
        }
    }
    false
}
