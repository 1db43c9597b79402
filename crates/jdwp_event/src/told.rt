//! What composites tell whoever reads them: the thread that they are of, and whether they have an event of a kind (JDWP specification,
//! "Protocol Details": the command Composite of the set Event).
ghost use Rattle.std.specs.Prelude.{◌≡◌};
ghost use Rattle.std.specs.List.{list_any};
ghost use Rattle.jdwp_layout.specs.Meanings.{scalar_meanings};
ghost use Rattle.jdwp_event.specs.Told.{composite_thread, event_thread, events_thread, has_event, id_found, is_event_of};

use crate::event::{Composite, Event};
use crate::kind::EventKind;
use jdwp_layout::Scalar;
use jdwp_value::ObjectId;

/// The thread that a composite is of; None where none of its events has one.
pub fn thread_in(composite: &Composite) -> Option<ObjectId>
    ensures { result ≡ id_found (composite_thread composite.now) }
{
    thread_in_events(composite.events())
}

fn thread_in_events(events: &[Event]) -> Option<ObjectId>
    ensures { result ≡ id_found (events_thread events.now) }
{
    for event in events {
        let thread = thread_of_event(event);
        if thread.is_some() {
            return thread;
        }
    }
    None
}

/// The thread of an event; None where it has none.
pub fn thread_of_event(event: &Event) -> Option<ObjectId>
    ensures { result ≡ id_found (event_thread event.now) }
{
    thread_in_fields(event.fields())
}

fn thread_in_fields(fields: &[Scalar]) -> Option<ObjectId>
    ensures { result ≡ id_found (event_thread (scalar_meanings fields.now)) }
{
    match fields {
        [
            Scalar::Byte(_),
            Scalar::Int(_),
            Scalar::ObjectId(thread),
            ..
        ] => Some(*thread),
        _ => None,
    }
}

/// Whether a composite has an event of this kind.
pub fn has_event_of(composite: &Composite, kind: EventKind) -> bool
    ensures { result ≡ has_event kind composite.now }
{
    is_in_events(composite.events(), kind)
}

fn is_in_events(events: &[Event], kind: EventKind) -> bool
    ensures { result ≡ list_any (is_event_of kind) events.now }
{
    for event in events {
        if is_of_kind(event.fields(), kind) {
            return true;
        }
    }
    false
}

fn is_of_kind(fields: &[Scalar], kind: EventKind) -> bool
    ensures { result ≡ is_event_of kind (scalar_meanings fields.now) }
{
    match fields {
        [Scalar::Byte(byte), ..] => *byte == kind.byte(),
        _ => false,
    }
}
