//! Reading data by a layout.
ghost use Rattle.std.specs.Prelude.{◌≡◌, List, map, IfOk, IfErr, Ok, Some};
ghost use Rattle.std.specs.Result.{IsErrOf};
ghost use Rattle.jdwp_wire.specs.declared.data_fault.DataFault.TheVariants.{NoMemory};
ghost use Rattle.jdwp_wire.specs.Reading.{Gives, Blames};
ghost use Rattle.jdwp_wire.specs.Each.{each_at, times_at, with_front};
ghost use Rattle.jdwp_layout.specs.Shapes.{item_shape, entry_shape, shapes, shape, found_fields};
ghost use Rattle.jdwp_layout.specs.Meanings.{DatumMeaning, scalar_meaning, scalar_meanings, entry_meaning, entry_meanings, datum_meaning, meanings};
ghost use Rattle.jdwp_layout.specs.ModifiersAndEvents.{modifier_fields, event_fields};
ghost use Rattle.jdwp_layout.specs.Grammar.{EncodesData, DataFaults};
ghost use Rattle.jdwp_layout.specs.declared.item.Field.{Field};
ghost use Rattle.jdwp_layout.specs.Keeping.{FieldIsKept, FieldsAreKept, EntryIsKept, EntriesAreKept, ItemIsKept, DataAreKept};
ghost use Rattle.jdwp_layout.specs.Reads.{field_at, fields_at, fields_of_at, entry_at, item_at, items_at, data_at};

use crate::datum::{Datum, Scalar};
use crate::held::Held;
use crate::item::{Entry, Field, Item, Layout, fields_of_kind};
use crate::validation::validate;
use jdwp_value::{
    ArrayRegion, FieldId, FrameId, Location, MethodId, ObjectId, ReferenceTypeId, TaggedId, Value,
};
use jdwp_wire::number::take_count;
use jdwp_wire::{DataFault, IdSizes, Wire};
use std::alloc::Global;

/// The data that the whole slice encodes under the layout.
///
/// Lists are read entry by entry, and nothing is reserved by a count.
///
/// # Errors
/// The first fault from the left: `Short` with the length of the slice where an item calls for more bytes than are
/// left, `BadTag`, `NegativeCount` or `NotUtf8`; where each item is encoded and bytes are left over, `Extra` with the
/// number of bytes used. `NoMemory` where an allocation was refused, and only where the whole slice encodes data of at
/// least one item: where memory is wanted the data are judged, so that it hides no fault.
pub fn read(
    alloc: Global,
    layout: &Layout,
    sizes: &IdSizes,
    bytes: &[u8],
) -> Result<Vec<Datum>, DataFault>
    // What is read is what the slice encodes.
    ensures found { IfOk result
        (λ v. EncodesData sizes.now (shape layout.now) (meanings v.items) bytes.now) }
    // What the slice encodes is read, unless memory runs out, and nothing else is.
    ensures only { (xs : List DatumMeaning) → EncodesData sizes.now (shape layout.now) xs bytes.now
        → Gives (λ v. meanings v.items) result (Ok xs) }
    // The fault is the first from the left.
    ensures fault { IfErr result
        (λ f. Blames (DataFaults sizes.now (shape layout.now)) bytes.now f) }
    // All of this as a function of the slice.
    ensures value { Gives (λ v. meanings v.items) result
        (data_at sizes.now (shape layout.now) bytes.now) }
    // Memory is wanted only where something stands in front that has to be kept, and never in place of a fault.
    ensures memory { IsErrOf result NoMemory → DataAreKept sizes.now (shape layout.now) bytes.now }
    ensures hides { IsErrOf result NoMemory
        → (xs : List DatumMeaning) × EncodesData sizes.now (shape layout.now) xs bytes.now }
{
    match read_whole(alloc, layout.items, sizes, bytes) {
        Ok(items) => Ok(items),
        Err(DataFault::NoMemory) => {
            validate(layout, sizes, bytes)?;
            Err(DataFault::NoMemory)
        }
        Err(fault) => Err(fault),
    }
}

/// The data that the whole slice encodes under these items.
fn read_whole(
    alloc: Global,
    items: &[Item],
    sizes: &IdSizes,
    bytes: &[u8],
) -> Result<Vec<Datum>, DataFault>
    ensures value { Gives (λ v. meanings v.items) result
        (data_at sizes.now (shapes items.now) bytes.now) }
    ensures memory { IsErrOf result NoMemory → DataAreKept sizes.now (shapes items.now) bytes.now }
{
    let (held, rest) = take_items(alloc, items, bytes, bytes.len(), sizes)?;
    if !rest.is_empty() {
        return Err(DataFault::Extra(bytes.len() - rest.len()));
    }
    Ok(held)
}

/// What each item holds, at the front of the rest of a slice of `whole` bytes, and what follows it all.
fn take_items<'a>(
    alloc: Global,
    items: &[Item],
    bytes: &'a [u8],
    whole: usize,
    sizes: &IdSizes,
) -> Result<(Vec<Datum>, &'a [u8]), DataFault>
    ensures value { Gives (λ x. (meanings x.0.items, x.1.now)) result
        (items_at sizes.now whole (shapes items.now) bytes.now) }
    ensures memory { IsErrOf result NoMemory → DataAreKept sizes.now (shapes items.now) bytes.now }
{
    let mut held = Vec::new(alloc);
    let mut rest = bytes;
    for item in items {
        let (datum, after) = take_item(alloc, *item, rest, whole, sizes)?;
        held.push(datum)?;
        rest = after;
    }
    Ok((held, rest))
}

/// What the item holds, and what follows it.
fn take_item<'a>(
    alloc: Global,
    item: Item,
    rest: &'a [u8],
    whole: usize,
    sizes: &IdSizes,
) -> Result<(Datum, &'a [u8]), DataFault>
    ensures value { Gives (λ x. (datum_meaning x.0, x.1.now)) result
        (item_at sizes.now whole (item_shape item) rest.now) }
    ensures memory { IsErrOf result NoMemory → ItemIsKept sizes.now (item_shape item) rest.now }
{
    match item {
        Item::One(field) => {
            let (scalar, rest) = read_field(alloc, field, rest, whole, sizes)?;
            Ok((Datum::One(scalar), rest))
        }
        Item::Many(entry) => {
            let (count, rest) = take_count(rest, whole)?;
            let (entries, rest) = take_entries(alloc, count, entry, rest, whole, sizes)?;
            Ok((Datum::Many(entries), rest))
        }
        Item::Region => {
            let (region, rest) = ArrayRegion::take_front(alloc, rest, whole, sizes)?;
            Ok((Datum::Region(region), rest))
        }
    }
}

/// `count` entries, and what follows them.
fn take_entries<'a>(
    alloc: Global,
    count: usize,
    entry: Entry,
    bytes: &'a [u8],
    whole: usize,
    sizes: &IdSizes,
) -> Result<(Vec<Vec<Scalar>>, &'a [u8]), DataFault>
    ensures value { Gives (λ x. (entry_meanings x.0.items, x.1.now)) result
        (times_at (entry_at sizes.now whole (entry_shape entry)) count bytes.now) }
    ensures memory { IsErrOf result NoMemory
        → EntriesAreKept sizes.now (entry_shape entry) count bytes.now }
{
    let mut entries = Vec::new(alloc);
    let mut rest = bytes;
    for _ in 0..count {
        let (scalars, after) = take_entry(alloc, entry, rest, whole, sizes)?;
        entries.push(scalars)?;
        rest = after;
    }
    Ok((entries, rest))
}

/// What the entry's fields hold, and what follows them.
pub fn take_entry<'a>(
    alloc: Global,
    entry: Entry,
    rest: &'a [u8],
    whole: usize,
    sizes: &IdSizes,
) -> Result<(Vec<Scalar>, &'a [u8]), DataFault>
    ensures value { Gives (λ x. (entry_meaning x.0, x.1.now)) result
        (entry_at sizes.now whole (entry_shape entry) rest.now) }
    ensures memory { IsErrOf result NoMemory → EntryIsKept sizes.now (entry_shape entry) rest.now }
{
    match entry {
        Entry::Fields(fields) => {
            let mut scalars = Vec::new(alloc);
            let rest = take_fields(alloc, fields, &mut scalars, rest, whole, sizes)?;
            Ok((scalars, rest))
        }
        Entry::Modifier | Entry::Event => {
            let (kind, rest) = u8::take_front(alloc, rest, whole, sizes)?;
            take_fields_of(alloc, kind, fields_of_kind(entry, kind), rest, whole, sizes)
        }
    }
}

/// What follows a kind byte, with the kind in front.
fn take_fields_of<'a>(
    alloc: Global,
    kind: u8,
    found: Option<&'static [Field]>,
    rest: &'a [u8],
    whole: usize,
    sizes: &IdSizes,
) -> Result<(Vec<Scalar>, &'a [u8]), DataFault>
    ensures value { Gives (λ x. (entry_meaning x.0, x.1.now)) result
        (fields_of_at sizes.now whole kind (found_fields found.entry) rest.now) }
    ensures memory { IsErrOf result NoMemory → (fields : List Field)
        × (found_fields found.entry ≡ Some fields) }
{
    match found {
        None => Err(DataFault::BadTag),
        Some(fields) => {
            let mut scalars = Vec::new(alloc);
            scalars.push(Scalar::Byte(kind))?;
            let rest = take_fields(alloc, fields, &mut scalars, rest, whole, sizes)?;
            Ok((scalars, rest))
        }
    }
}

/// Reads the fields behind what stands in the vector.
fn take_fields<'a>(
    alloc: Global,
    fields: &[Field],
    scalars: &mut Vec<Scalar>,
    bytes: &'a [u8],
    whole: usize,
    sizes: &IdSizes,
) -> Result<&'a [u8], DataFault>
    ensures value { Gives (λ x. (scalar_meanings scalars.new.items, x.now)) result
        (with_front (scalar_meanings scalars.old.items)
        (fields_at sizes.now whole fields.now bytes.now)) }
    ensures memory { IsErrOf result NoMemory → FieldsAreKept sizes.now fields.now bytes.now }
{
    let mut rest = bytes;
    for field in fields {
        let (scalar, after) = read_field(alloc, *field, rest, whole, sizes)?;
        scalars.push(scalar)?;
        rest = after;
    }
    Ok(rest)
}

/// What the field at the front of the rest of a slice of `whole` bytes holds, and what follows it.
///
/// # Errors
/// The fault of the field: `Short` with `whole`, `BadTag`, `NegativeCount` or `NotUtf8`. `NoMemory` where an allocation was
/// refused, and only where the field is a string, and one of at least one byte stands in front.
pub fn read_field<'a>(
    alloc: Global,
    field: Field,
    rest: &'a [u8],
    whole: usize,
    sizes: &IdSizes,
) -> Result<(Scalar, &'a [u8]), DataFault>
    ensures value { Gives (λ x. (scalar_meaning x.0, x.1.now)) result
        (field_at sizes.now whole field rest.now) }
    ensures memory { IsErrOf result NoMemory → FieldIsKept field rest.now }
{
    match field {
        Field::Byte => take_scalar::<u8>(alloc, rest, whole, sizes),
        Field::Boolean => take_scalar::<bool>(alloc, rest, whole, sizes),
        Field::Int => take_scalar::<i32>(alloc, rest, whole, sizes),
        Field::Long => take_scalar::<i64>(alloc, rest, whole, sizes),
        Field::String => take_scalar::<String>(alloc, rest, whole, sizes),
        Field::ObjectId => take_scalar::<ObjectId>(alloc, rest, whole, sizes),
        Field::ReferenceTypeId => take_scalar::<ReferenceTypeId>(alloc, rest, whole, sizes),
        Field::MethodId => take_scalar::<MethodId>(alloc, rest, whole, sizes),
        Field::FieldId => take_scalar::<FieldId>(alloc, rest, whole, sizes),
        Field::FrameId => take_scalar::<FrameId>(alloc, rest, whole, sizes),
        Field::Location => take_scalar::<Location>(alloc, rest, whole, sizes),
        Field::Value => take_scalar::<Value>(alloc, rest, whole, sizes),
        Field::TaggedId => take_scalar::<TaggedId>(alloc, rest, whole, sizes),
    }
}

/// What a field of such a type holds, and what follows it.
fn take_scalar<'a, T: Held>(
    alloc: Global,
    rest: &'a [u8],
    whole: usize,
    sizes: &IdSizes,
) -> Result<(Scalar, &'a [u8]), DataFault>
    ensures value { Gives (λ x. (scalar_meaning x.0, x.1.now)) result
        (field_at sizes.now whole T.of_field rest.now) }
    ensures memory { IsErrOf result NoMemory → FieldIsKept T.of_field rest.now }
{
    let (value, rest) = T::take_front(alloc, rest, whole, sizes)?;
    Ok((value.into_scalar(), rest))
}
