//! Judging data by a layout, with nothing kept of them.
ghost use Rattle.std.specs.Prelude.{◌≡◌, ◌↔◌, List, IfErr, IsOk};
ghost use Rattle.std.specs.Result.{IsErrOf};
ghost use Rattle.jdwp_wire.specs.declared.data_fault.DataFault.TheVariants.{NoMemory};
ghost use Rattle.jdwp_wire.specs.Reading.{Gives, passed};
ghost use Rattle.jdwp_wire.specs.Each.{each_at, times_at};
ghost use Rattle.jdwp_layout.specs.Shapes.{item_shape, entry_shape, shapes, shape, found_fields};
ghost use Rattle.jdwp_layout.specs.Meanings.{DatumMeaning};
ghost use Rattle.jdwp_layout.specs.ModifiersAndEvents.{modifier_fields, event_fields};
ghost use Rattle.jdwp_layout.specs.Grammar.{EncodesData, DataFaults};
ghost use Rattle.jdwp_layout.specs.Reads.{field_at, fields_at, fields_of_at, entry_at, item_at, items_at, data_at};
ghost use Rattle.jdwp_layout.specs.Skips.{Judges};

use crate::item::{Entry, Field, Item, Layout, fields_of_kind};
use jdwp_value::{
    ArrayRegion, FieldId, FrameId, Location, MethodId, ObjectId, ReferenceTypeId, TaggedId, Value,
};
use jdwp_wire::number::{take_byte, take_count};
use jdwp_wire::{DataFault, IdSizes, Wire};

/// Whether the whole slice encodes data under the layout. It takes no memory.
///
/// # Errors
/// The fault that `read` answers, and never `NoMemory`.
pub fn validate(layout: &Layout, sizes: &IdSizes, bytes: &[u8]) -> Result<(), DataFault>
    ensures accepted { IsOk result
        ↔ ((xs : List DatumMeaning) × EncodesData sizes.now (shape layout.now) xs bytes.now) }
    // The fault is the first from the left.
    ensures fault { IfErr result (λ f. DataFaults sizes.now (shape layout.now) bytes.now f) }
    // It is that of reading.
    ensures value { Judges result (data_at sizes.now (shape layout.now) bytes.now) }
    ensures memory { IsErrOf result NoMemory → ⊥ }
{
    skip_whole(layout.items, sizes, bytes)
}

/// Whether the whole slice encodes data under these items.
fn skip_whole(items: &[Item], sizes: &IdSizes, bytes: &[u8]) -> Result<(), DataFault>
    ensures value { Judges result (data_at sizes.now (shapes items.now) bytes.now) }
    ensures memory { IsErrOf result NoMemory → ⊥ }
{
    let rest = skip_items(items, bytes, bytes.len(), sizes)?;
    if !rest.is_empty() {
        return Err(DataFault::Extra(bytes.len() - rest.len()));
    }
    Ok(())
}

/// What follows the items, at the front of the rest of a slice of `whole` bytes.
fn skip_items<'a>(
    items: &[Item],
    bytes: &'a [u8],
    whole: usize,
    sizes: &IdSizes,
) -> Result<&'a [u8], DataFault>
    ensures value { Gives (λ after. after.now) result
        (passed (items_at sizes.now whole (shapes items.now) bytes.now)) }
    ensures memory { IsErrOf result NoMemory → ⊥ }
{
    let mut rest = bytes;
    for item in items {
        let after = skip_item(*item, rest, whole, sizes)?;
        rest = after;
    }
    Ok(rest)
}

/// What follows the item.
fn skip_item<'a>(
    item: Item,
    rest: &'a [u8],
    whole: usize,
    sizes: &IdSizes,
) -> Result<&'a [u8], DataFault>
    ensures value { Gives (λ after. after.now) result
        (passed (item_at sizes.now whole (item_shape item) rest.now)) }
    ensures memory { IsErrOf result NoMemory → ⊥ }
{
    match item {
        Item::One(field) => skip_field(field, rest, whole, sizes),
        Item::Many(entry) => {
            let (count, rest) = take_count(rest, whole)?;
            skip_entries(count, entry, rest, whole, sizes)
        }
        Item::Region => ArrayRegion::pass_front(rest, whole, sizes),
    }
}

/// What follows `count` entries.
pub fn skip_entries<'a>(
    count: usize,
    entry: Entry,
    bytes: &'a [u8],
    whole: usize,
    sizes: &IdSizes,
) -> Result<&'a [u8], DataFault>
    ensures value { Gives (λ after. after.now) result
        (passed (times_at (entry_at sizes.now whole (entry_shape entry)) count bytes.now)) }
    ensures memory { IsErrOf result NoMemory → ⊥ }
{
    let mut rest = bytes;
    for _ in 0..count {
        let after = skip_entry(entry, rest, whole, sizes)?;
        rest = after;
    }
    Ok(rest)
}

/// What follows the entry.
pub fn skip_entry<'a>(
    entry: Entry,
    rest: &'a [u8],
    whole: usize,
    sizes: &IdSizes,
) -> Result<&'a [u8], DataFault>
    ensures value { Gives (λ after. after.now) result
        (passed (entry_at sizes.now whole (entry_shape entry) rest.now)) }
    ensures memory { IsErrOf result NoMemory → ⊥ }
{
    match entry {
        Entry::Fields(fields) => skip_fields(fields, rest, whole, sizes),
        Entry::Modifier | Entry::Event => {
            let (kind, rest) = take_byte(rest, whole)?;
            skip_fields_of(kind, fields_of_kind(entry, kind), rest, whole, sizes)
        }
    }
}

/// What follows the fields that were found for a kind.
fn skip_fields_of<'a>(
    kind: u8,
    found: Option<&'static [Field]>,
    rest: &'a [u8],
    whole: usize,
    sizes: &IdSizes,
) -> Result<&'a [u8], DataFault>
    ensures value { Gives (λ after. after.now) result
        (passed (fields_of_at sizes.now whole kind (found_fields found.entry) rest.now)) }
    ensures memory { IsErrOf result NoMemory → ⊥ }
{
    match found {
        None => Err(DataFault::BadTag),
        Some(fields) => skip_fields(fields, rest, whole, sizes),
    }
}

/// What follows the fields.
fn skip_fields<'a>(
    fields: &[Field],
    bytes: &'a [u8],
    whole: usize,
    sizes: &IdSizes,
) -> Result<&'a [u8], DataFault>
    ensures value { Gives (λ after. after.now) result
        (passed (fields_at sizes.now whole fields.now bytes.now)) }
    ensures memory { IsErrOf result NoMemory → ⊥ }
{
    let mut rest = bytes;
    for field in fields {
        let after = skip_field(*field, rest, whole, sizes)?;
        rest = after;
    }
    Ok(rest)
}

/// What follows the field.
fn skip_field<'a>(
    field: Field,
    rest: &'a [u8],
    whole: usize,
    sizes: &IdSizes,
) -> Result<&'a [u8], DataFault>
    ensures value { Gives (λ after. after.now) result
        (passed (field_at sizes.now whole field rest.now)) }
    ensures memory { IsErrOf result NoMemory → ⊥ }
{
    match field {
        Field::Byte => u8::pass_front(rest, whole, sizes),
        Field::Boolean => bool::pass_front(rest, whole, sizes),
        Field::Int => i32::pass_front(rest, whole, sizes),
        Field::Long => i64::pass_front(rest, whole, sizes),
        Field::String => String::pass_front(rest, whole, sizes),
        Field::ObjectId => ObjectId::pass_front(rest, whole, sizes),
        Field::ReferenceTypeId => ReferenceTypeId::pass_front(rest, whole, sizes),
        Field::MethodId => MethodId::pass_front(rest, whole, sizes),
        Field::FieldId => FieldId::pass_front(rest, whole, sizes),
        Field::FrameId => FrameId::pass_front(rest, whole, sizes),
        Field::Location => Location::pass_front(rest, whole, sizes),
        Field::Value => Value::pass_front(rest, whole, sizes),
        Field::TaggedId => TaggedId::pass_front(rest, whole, sizes),
    }
}
