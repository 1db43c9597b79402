//! Whether a happening passes a modifier (JDWP specification, "Protocol Details": the modifiers of EventRequest.Set).
ghost use Rattle.std.specs.Prelude.{◌≡◌, ℕ};
ghost use Rattle.jdwp_event.specs.Occurrences.{occurrence_meaning, class_meaning, place_meaning};
ghost use Rattle.jdwp_event.specs.ModifierMeanings.{modifier_meaning, IsNoCount};
ghost use Rattle.jdwp_event.specs.RequestParts.{origin_meaning, seen_class, seen_place, ids_meaning, passes_step_at};
ghost use Rattle.jdwp_event.specs.Filters.{is_of_kind, place_of, class_of, thrown_of, reaches_class, passes_modifier, passes_class_only, passes_pattern, passes_exclusion, passes_location, is_caught, passes_exception, passes_depth, passes_size, passes_step};

use crate::happening::{ClassSeen, Happening, Occurrence, Place};
use crate::kind::EventKind;
use crate::modifier::Modifier;
use crate::pattern;
use crate::policy::{StepDepth, StepSize};
use crate::request::StepOrigin;
use jdwp_value::{Location, ObjectId, ReferenceTypeId};

/// Whether the happening passes the modifier, which is no Count.
pub(crate) fn passes(modifier: &Modifier, origin: StepOrigin, happening: &Happening) -> bool
    requires { IsNoCount (modifier_meaning modifier.now) }
    ensures { (times : ℕ) → result ≡ passes_modifier (origin_meaning origin)
        happening.now (modifier_meaning modifier.now) times }
{
    let occurrence = happening.occurrence();
    match modifier {
        Modifier::ThreadOnly(thread) => happening.thread() == *thread,
        Modifier::ClassOnly(class) => is_in_class(*class, class_seen(occurrence)),
        Modifier::ClassMatch(pattern) => fits_name(pattern, class_seen(occurrence)),
        Modifier::ClassExclude(pattern) => fits_no_name(pattern, class_seen(occurrence)),
        Modifier::LocationOnly(location) => is_at(location, place_seen(occurrence)),
        Modifier::ExceptionOnly {
            class,
            caught,
            uncaught,
        } => is_exception(*class, *caught, *uncaught, occurrence),
        Modifier::Step {
            thread,
            size,
            depth,
        } => {
            happening.thread() == *thread && is_step(*size, *depth, origin, place_seen(occurrence))
        }
        _ => false,
    }
}

/// Whether the happening has an event of the kind of this byte.
pub(crate) fn is_kind(occurrence: &Occurrence, byte: u8) -> bool
    ensures { result ≡ is_of_kind (occurrence_meaning occurrence.now) byte }
{
    match occurrence {
        Occurrence::Moved(_) => {
            byte == EventKind::SingleStep.byte() || byte == EventKind::Breakpoint.byte()
        }
        Occurrence::Entered(_) => byte == EventKind::MethodEntry.byte(),
        Occurrence::Left(..) => {
            byte == EventKind::MethodExit.byte()
                || byte == EventKind::MethodExitWithReturnValue.byte()
        }
        Occurrence::Threw(..) => byte == EventKind::Exception.byte(),
        Occurrence::Prepared(_) => byte == EventKind::ClassPrepare.byte(),
        Occurrence::Started => byte == EventKind::ThreadStart.byte(),
        Occurrence::RanOut => byte == EventKind::ThreadDeath.byte(),
    }
}

/// The place of the happening, if it has one.
pub(crate) fn place_seen(occurrence: &Occurrence) -> Option<&Place>
    ensures { seen_place result ≡ place_of (occurrence_meaning occurrence.now) }
{
    match occurrence {
        Occurrence::Moved(place)
        | Occurrence::Entered(place)
        | Occurrence::Left(place, _)
        | Occurrence::Threw(place, _) => Some(place),
        _ => None,
    }
}

/// The class of the happening, if it has one.
fn class_seen(occurrence: &Occurrence) -> Option<&ClassSeen>
    ensures { seen_class result ≡ class_of (occurrence_meaning occurrence.now) }
{
    match occurrence {
        Occurrence::Moved(place)
        | Occurrence::Entered(place)
        | Occurrence::Left(place, _)
        | Occurrence::Threw(place, _) => Some(&place.class),
        Occurrence::Prepared(prepared) => Some(&prepared.class),
        _ => None,
    }
}

fn is_in_class(class: ReferenceTypeId, seen: Option<&ClassSeen>) -> bool
    ensures { result ≡ passes_class_only class.0 (seen_class seen.entry) }
{
    match seen {
        None => false,
        Some(seen) => is_among(class, &seen.reaches),
    }
}

/// Whether the class is one of these.
fn is_among(class: ReferenceTypeId, reached: &[ReferenceTypeId]) -> bool
    ensures { result ≡ reaches_class class.0 (ids_meaning reached.now) }
{
    for id in reached {
        if *id == class {
            return true;
        }
    }
    false
}

fn fits_name(pattern: &str, seen: Option<&ClassSeen>) -> bool
    ensures { result ≡ passes_pattern pattern.now (seen_class seen.entry) }
{
    match seen {
        None => false,
        Some(seen) => pattern::fits(pattern.as_bytes(), seen.signature.as_bytes()),
    }
}

fn fits_no_name(pattern: &str, seen: Option<&ClassSeen>) -> bool
    ensures { result ≡ passes_exclusion pattern.now (seen_class seen.entry) }
{
    match seen {
        None => false,
        Some(seen) => !pattern::fits(pattern.as_bytes(), seen.signature.as_bytes()),
    }
}

/// Whether class, method and index are equal.
fn is_at(wanted: &Location, seen: Option<&Place>) -> bool
    ensures { result ≡ passes_location wanted.now (seen_place seen.entry) }
{
    let Some(place) = seen else {
        return false;
    };
    match (wanted, &place.location) {
        (
            Location::At {
                class,
                method,
                index,
                ..
            },
            Location::At {
                class: other_class,
                method: other_method,
                index: other_index,
                ..
            },
        ) => *class == *other_class && *method == *other_method && *index == *other_index,
        _ => false,
    }
}

fn is_exception(
    class: ReferenceTypeId,
    caught: bool,
    uncaught: bool,
    occurrence: &Occurrence,
) -> bool
    ensures { result ≡ passes_exception class.0 caught uncaught
        (thrown_of (occurrence_meaning occurrence.now)) }
{
    match occurrence {
        Occurrence::Threw(_, thrown) => {
            let wanted = match thrown.caught_at {
                Location::At { .. } => caught,
                Location::Null => uncaught,
            };
            wanted && (class == ReferenceTypeId(0) || is_among(class, &thrown.reaches))
        }
        _ => false,
    }
}

/// Whether a move to this place is a step of this size and depth from the origin.
fn is_step(size: i32, depth: i32, origin: StepOrigin, seen: Option<&Place>) -> bool
    ensures { result ≡ passes_step_at (origin_meaning origin) size depth (seen_place seen.entry) }
{
    match seen {
        None => false,
        Some(place) => {
            is_of_depth(depth, origin.frames, place.frames) && is_of_size(size, origin, place)
        }
    }
}

fn is_of_depth(depth: i32, before: u32, now: u32) -> bool
    ensures { result ≡ passes_depth depth before now }
{
    match StepDepth::of_number(depth) {
        Some(StepDepth::Into) => true,
        Some(StepDepth::Over) => now <= before,
        Some(StepDepth::Out) => now < before,
        None => false,
    }
}

fn is_of_size(size: i32, origin: StepOrigin, place: &Place) -> bool
    ensures { result ≡ passes_size size (origin_meaning origin) (place_meaning place.now) }
{
    match StepSize::of_number(size) {
        Some(StepSize::Min) => true,
        Some(StepSize::Line) => place.line != origin.line || place.frames != origin.frames,
        None => false,
    }
}
