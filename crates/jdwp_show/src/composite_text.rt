//! Composites of events in words.
ghost use Rattle.jdwp_event.specs.Composites.{composite_data};
ghost use Rattle.jdwp_show.specs.DataText.{listed, entry_text, list_text, data_text};
ghost use Rattle.jdwp_show.specs.Telling.{Grows};

use crate::data_text::{push_entry, push_number, push_separator};
use crate::text::Text;
use jdwp_event::{Composite, Event};

/// Appends the suspend policy and the events, each after a space.
pub(crate) fn push_composite(text: &mut Text, composite: &Composite)
    ensures { Grows text.old (data_text (composite_data composite.now)) text.new }
{
    text.push_str(" ");
    push_number(text, composite.policy());
    text.push_str(" ");
    push_events(text, composite.events());
}

fn push_events(text: &mut Text, events: &[Event])
    ensures { Grows text.old (list_text events.now) text.new }
{
    text.push_str("[");
    push_all_events(text, events);
    text.push_str("]");
}

fn push_all_events(text: &mut Text, events: &[Event])
    ensures { Grows text.old (listed entry_text events.now) text.new }
{
    for (index, event) in events.iter().enumerate() {
        push_separator(text, index);
        push_entry(text, event.fields());
    }
}
