//! Laws: each function says what holds, in its contract, and does nothing; to call it is to cite it.
ghost use Rattle.std.specs.Prelude.{ℕ, List};
ghost use Rattle.jdwp_wire.specs.Widths.{Widths};
ghost use Rattle.jdwp_event.specs.Composites.{CompositeMeaning};
ghost use Rattle.jdwp_event.specs.CompositeBytes.{EncodesComposite};
ghost use Rattle.jdwp_event_fields.specs.declared.event.Event.{Event};
ghost use Rattle.jdwp_event_fields.specs.declared.event_set.EventSet.{EventSet};
ghost use Rattle.jdwp_event_fields.specs.Events.{event_says, IsEvent};
ghost use Rattle.jdwp_event_fields.specs.EventSets.{set_says, AreEvents, IsEventSet};

/// What an event says are the fields of its kind.
pub fn events_have_their_fields()
    ensures { (e : Event) → IsEvent (event_says e) }
{}

/// What a set of events says is a composite that is one.
pub fn event_sets_are_composites()
    ensures { (s : EventSet) → IsEventSet (set_says s) }
{}

/// Each event of a composite that bytes encode, and so of one that is read, has the fields of its kind: of such a composite
/// `EventSet::of_composite` is None for its policy alone.
pub fn read_composites_have_events()
    ensures { (w : Widths) (c : CompositeMeaning) (code : List ℕ) → EncodesComposite w c code
        → AreEvents c.events }
{}
