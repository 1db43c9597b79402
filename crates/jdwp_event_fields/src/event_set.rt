//! Composites of events by kind (JDWP specification, "Protocol Details": the command Composite of the set Event).
ghost use Rattle.std.specs.Prelude.{◌≡◌, [], map, IfOk, IfErr};
ghost use Rattle.jdwp_event_fields.specs.Events.{event_says, ReadAs};
ghost use Rattle.jdwp_event_fields.specs.EventSets.{set_says, AreEvents, IsEventSet};

use crate::event::Event;
use jdwp_event::{Composite, Policy};
use jdwp_wire::NoMemory;
use std::alloc::Global;

/// What is reported at once, event by event, and which threads that suspends.
#[derive(Debug, PartialEq, Drop)]
pub struct EventSet {
    /// Which threads it suspends.
    pub policy: Policy,
    /// The events, in order.
    pub events: Vec<Event>,
}

impl EventSet {
    /// What a composite says. None exactly where the byte of its policy is none of the specification's, or an event has not the fields of
    /// its kind.
    ///
    /// Each event of a composite that was read from bytes has the fields of its kind, so that None tells there of the policy alone. The
    /// events of such a composite are read by `Event::of_fields`, one by one.
    ///
    /// # Errors
    /// `NoMemory` where an allocation was refused, and only where it has an event.
    pub fn of_composite(alloc: Global, composite: &Composite) -> Result<Option<EventSet>, NoMemory>
        // Nothing is lost: what is read says just what the composite does.
        ensures value { IfOk result (ReadAs set_says IsEventSet composite.now) }
        ensures memory { IfErr result (λ _. composite.now.events ≡ [] → ⊥) }
    {
        let Some(policy) = Policy::of_byte(composite.policy()) else {
            return Ok(None);
        };
        match events_of(alloc, composite.events())? {
            Some(events) => Ok(Some(EventSet { policy, events })),
            None => Ok(None),
        }
    }
}

/// These events, each by its kind; None exactly where one has not the fields of its kind.
///
/// # Errors
/// `NoMemory` where an allocation was refused, and only where there are any.
fn events_of(alloc: Global, events: &[jdwp_event::Event]) -> Result<Option<Vec<Event>>, NoMemory>
    ensures value { IfOk result (ReadAs (λ v. map event_says v.items) AreEvents events.now) }
    ensures memory { IfErr result (λ _. events.now ≡ [] → ⊥) }
{
    let mut made = Vec::with_capacity(alloc, events.len())?;
    for event in events {
        match Event::of_fields(alloc, event.fields())? {
            Some(event) => made.push_reserved(event),
            None => return Ok(None),
        }
    }
    Ok(Some(made))
}
