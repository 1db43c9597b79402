//! The entries of lists that commands carry.
ghost use Rattle.std.specs.Prelude.{◌≡◌, IfOk, map};
ghost use Rattle.jdwp_layout.specs.Meanings.{entry_meanings};
ghost use Rattle.jdwp_command.specs.Contents.{disposed_entry, field_entry, slot_entry, written_entry};

use jdwp_layout::Scalar;
use jdwp_value::{FieldId, ObjectId, Tag, Value};
use jdwp_wire::NoMemory;
use std::alloc::Global;

/// Fields whose values are asked.
pub(crate) fn field_entries(alloc: Global, fields: &[FieldId]) -> Result<Vec<Vec<Scalar>>, NoMemory>
    ensures { IfOk result (λ made. entry_meanings made.items ≡ map field_entry fields.now) }
{
    let mut entries = Vec::with_capacity(alloc, fields.len())?;
    for field in fields {
        entries.push_reserved(vec![in alloc; Scalar::FieldId(*field)]?);
    }
    Ok(entries)
}

/// Slots whose values are asked, with the tags that these are to have.
pub(crate) fn slot_entries(
    alloc: Global,
    slots: &[(i32, Tag)],
) -> Result<Vec<Vec<Scalar>>, NoMemory>
    ensures { IfOk result (λ made. entry_meanings made.items ≡ map slot_entry slots.now) }
{
    let mut entries = Vec::with_capacity(alloc, slots.len())?;
    for (slot, tag) in slots {
        entries.push_reserved(vec![in alloc; Scalar::Int(*slot), Scalar::Byte(tag.byte())]?);
    }
    Ok(entries)
}

/// Slots with the values that they get.
pub(crate) fn written_entries(
    alloc: Global,
    values: &[(i32, Value)],
) -> Result<Vec<Vec<Scalar>>, NoMemory>
    ensures { IfOk result (λ made. entry_meanings made.items ≡ map written_entry values.now) }
{
    let mut entries = Vec::with_capacity(alloc, values.len())?;
    for (slot, value) in values {
        entries.push_reserved(vec![in alloc; Scalar::Int(*slot), Scalar::Value(*value)]?);
    }
    Ok(entries)
}

/// Objects, and how many times each is given up.
pub(crate) fn disposed_entries(
    alloc: Global,
    objects: &[(ObjectId, i32)],
) -> Result<Vec<Vec<Scalar>>, NoMemory>
    ensures { IfOk result (λ made. entry_meanings made.items ≡ map disposed_entry objects.now) }
{
    let mut entries = Vec::with_capacity(alloc, objects.len())?;
    for (object, count) in objects {
        entries.push_reserved(vec![in alloc; Scalar::ObjectId(*object), Scalar::Int(*count)]?);
    }
    Ok(entries)
}
