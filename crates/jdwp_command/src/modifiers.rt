//! The entries of modifiers.
ghost use Rattle.std.specs.Prelude.{◌≡◌, ◌∷◌, [], IfOk, map};
ghost use Rattle.jdwp_layout.specs.Meanings.{Byte, entry_meaning, entry_meanings, scalar_meaning};
ghost use Rattle.jdwp_event.specs.ModifierBytes.{modifier_entry};
ghost use Rattle.jdwp_event.specs.ModifierMeanings.{modifier_meaning};
ghost use Rattle.jdwp_event.specs.RequestParts.{modifiers_meaning};

use jdwp_event::Modifier;
use jdwp_layout::Scalar;
use jdwp_layout::modifier_kinds::{
    CLASS_EXCLUDE, CLASS_MATCH, CLASS_ONLY, CONDITIONAL, COUNT, EXCEPTION_ONLY, FIELD_ONLY,
    INSTANCE_ONLY, LOCATION_ONLY, SOURCE_NAME_MATCH, STEP, THREAD_ONLY,
};
use jdwp_wire::NoMemory;
use std::alloc::Global;

/// The entries of modifiers, in their order.
pub(crate) fn modifier_entries(
    alloc: Global,
    modifiers: Vec<Modifier>,
) -> Result<Vec<Vec<Scalar>>, NoMemory>
    ensures { IfOk result
        (λ made. entry_meanings made.items ≡ map modifier_entry (modifiers_meaning modifiers)) }
{
    let mut entries = Vec::with_capacity(alloc, modifiers.len())?;
    for modifier in modifiers {
        entries.push_reserved(entry_of(alloc, modifier)?);
    }
    Ok(entries)
}

/// The kind of a modifier, and what the fields of that kind hold.
fn entry_of(alloc: Global, modifier: Modifier) -> Result<Vec<Scalar>, NoMemory>
    ensures { IfOk result
        (λ made. entry_meaning made ≡ modifier_entry (modifier_meaning modifier)) }
{
    match modifier {
        Modifier::Count(n) => one(alloc, COUNT, Scalar::Int(n)),
        Modifier::Conditional(n) => one(alloc, CONDITIONAL, Scalar::Int(n)),
        Modifier::ThreadOnly(thread) => one(alloc, THREAD_ONLY, Scalar::ObjectId(thread)),
        Modifier::ClassOnly(class) => one(alloc, CLASS_ONLY, Scalar::ReferenceTypeId(class)),
        Modifier::ClassMatch(pattern) => one(alloc, CLASS_MATCH, Scalar::String(pattern)),
        Modifier::ClassExclude(pattern) => one(alloc, CLASS_EXCLUDE, Scalar::String(pattern)),
        Modifier::LocationOnly(location) => one(alloc, LOCATION_ONLY, Scalar::Location(location)),
        Modifier::InstanceOnly(object) => one(alloc, INSTANCE_ONLY, Scalar::ObjectId(object)),
        Modifier::SourceNameMatch(pattern) => {
            one(alloc, SOURCE_NAME_MATCH, Scalar::String(pattern))
        }
        Modifier::ExceptionOnly {
            class,
            caught,
            uncaught,
        } => Ok(vec![in alloc;
            Scalar::Byte(EXCEPTION_ONLY),
            Scalar::ReferenceTypeId(class),
            Scalar::Boolean(caught),
            Scalar::Boolean(uncaught),
        ]?),
        Modifier::FieldOnly { class, field } => Ok(vec![in alloc;
            Scalar::Byte(FIELD_ONLY),
            Scalar::ReferenceTypeId(class),
            Scalar::FieldId(field),
        ]?),
        Modifier::Step {
            thread,
            size,
            depth,
        } => Ok(vec![in alloc;
            Scalar::Byte(STEP),
            Scalar::ObjectId(thread),
            Scalar::Int(size),
            Scalar::Int(depth),
        ]?),
    }
}

/// A kind, and what its one field holds.
fn one(alloc: Global, kind: u8, field: Scalar) -> Result<Vec<Scalar>, NoMemory>
    ensures { IfOk result
        (λ made. entry_meaning made ≡ Byte kind ∷ scalar_meaning field ∷ []) }
{
    Ok(vec![in alloc; Scalar::Byte(kind), field]?)
}
