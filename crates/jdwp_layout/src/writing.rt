//! Writing data by a layout.
ghost use Rattle.std.specs.Prelude.{◌≡◌, ◌+◌, ◌≤◌, ◌<◌, ◌^◌, ◌∷◌, length, take, map, OnOk, IfErr, vec_len, vec_capacity};
ghost use Rattle.std.specs.List.{flat_map};
ghost use Rattle.std.specs.Result.{IsErrOf};
ghost use Rattle.jdwp_wire.specs.declared.data_fault.DataFault.TheVariants.{NoMemory};
ghost use Rattle.jdwp_wire.specs.Writing.{Appends, Leaves, LeavesInFront, HasRoom};
ghost use Rattle.jdwp_wire.specs.Each.{EncodesAll};
ghost use Rattle.jdwp_wire.specs.Listed.{EncodesList, list_canonical, list_refusal, first_refusal};
ghost use Rattle.jdwp_layout.specs.Shapes.{item_shape, entry_shape, shapes, shape, found_fields};
ghost use Rattle.jdwp_layout.specs.Meanings.{Byte, scalar_meaning, scalar_meanings, entry_meaning, entry_meanings, datum_meaning, meanings};
ghost use Rattle.jdwp_layout.specs.ModifiersAndEvents.{modifier_fields, event_fields};
ghost use Rattle.jdwp_layout.specs.Grammar.{EncodesField, EncodesFields, EncodesFieldsOf, EncodesKind, EncodesEntry, EncodesItem, EncodesData};
ghost use Rattle.jdwp_layout.specs.Writes.{scalar_canonical, entry_canonical, datum_canonical, data_canonical, field_refusal, fields_refusal, fields_of_refusal, kind_refusal, entry_refusal, item_refusal, data_refusal};

use crate::datum::{Datum, Scalar};
use crate::item::{Entry, Field, Item, Layout, fields_of_kind};
use jdwp_wire::number::put_count;
use jdwp_wire::{DataFault, IdSizes, Wire, all_or_nothing};

/// Appends the data of the layout's items. Of several encodings the canonical one is written: true as 1.
///
/// # Errors
/// The refusal of the first item from the left that can't be written: `BadSize` where the data have not the layout's
/// shape, that is where an item has no datum, a datum no item, or a datum is of another kind than its item (a modifier
/// or an event begins with its kind), and where a length or count is above 2,147,483,647; `IdTooWide` for an id that
/// its width does not hold. `NoMemory` where the vector was to grow and an allocation was refused, and never where its
/// spare room holds the data. After an error the vector's bytes are as they were.
pub fn write(
    layout: &Layout,
    sizes: &IdSizes,
    values: &[Datum],
    output: &mut Vec<u8>,
) -> Result<(), DataFault>
    // The canonical encoding is appended, and it encodes the data.
    ensures ok { Appends (EncodesData sizes.now (shape layout.now)) (data_canonical sizes.now)
        (meanings values.now) result output.old output.new }
    ensures err { Leaves (data_refusal sizes.now (shape layout.now) (meanings values.now))
        result output.old output.new }
    ensures room { HasRoom (data_canonical sizes.now (meanings values.now)) output.old
        → IsErrOf result NoMemory → ⊥ }
    ensures capacity { vec_capacity output.old ≤ vec_capacity output.new }
{
    let before = output.len();
    let done = put_items(layout.items, values, sizes, output);
    all_or_nothing(done, before, output)
}

/// Appends one datum for each item, and may stop on the way.
fn put_items(
    items: &[Item],
    values: &[Datum],
    sizes: &IdSizes,
    output: &mut Vec<u8>,
) -> Result<(), DataFault>
    ensures ok { Appends (EncodesData sizes.now (shapes items.now)) (data_canonical sizes.now)
        (meanings values.now) result output.old output.new }
    ensures err { LeavesInFront (data_refusal sizes.now (shapes items.now) (meanings values.now))
        result output.old output.new }
    ensures room { HasRoom (data_canonical sizes.now (meanings values.now)) output.old
        → IsErrOf result NoMemory → ⊥ }
    ensures capacity { vec_capacity output.old ≤ vec_capacity output.new }
{
    let mut left = values;
    for item in items {
        match left {
            [] => return Err(DataFault::BadSize),
            [value, rest @ ..] => {
                put_item(*item, value, sizes, output)?;
                left = rest;
            }
        }
    }
    if !left.is_empty() {
        return Err(DataFault::BadSize);
    }
    Ok(())
}

/// Appends what an item holds, and may stop on the way.
fn put_item(
    item: Item,
    value: &Datum,
    sizes: &IdSizes,
    output: &mut Vec<u8>,
) -> Result<(), DataFault>
    ensures ok { Appends (EncodesItem sizes.now (item_shape item)) (datum_canonical sizes.now)
        (datum_meaning value.now) result output.old output.new }
    ensures err { LeavesInFront (item_refusal sizes.now (item_shape item) (datum_meaning value.now))
        result output.old output.new }
    ensures room { HasRoom (datum_canonical sizes.now (datum_meaning value.now)) output.old
        → IsErrOf result NoMemory → ⊥ }
    ensures capacity { vec_capacity output.old ≤ vec_capacity output.new }
{
    match (item, value) {
        (Item::One(field), Datum::One(scalar)) => put_field(field, scalar, sizes, output),
        (Item::Many(entry), Datum::Many(entries)) => put_list(entry, entries, sizes, output),
        (Item::Region, Datum::Region(region)) => region.put(sizes, output),
        _ => Err(DataFault::BadSize),
    }
}

/// Appends a count and the entries, and may stop on the way.
fn put_list(
    entry: Entry,
    entries: &[Vec<Scalar>],
    sizes: &IdSizes,
    output: &mut Vec<u8>,
) -> Result<(), DataFault>
    ensures ok { Appends (EncodesList (EncodesEntry sizes.now (entry_shape entry)))
        (list_canonical (entry_canonical sizes.now)) (entry_meanings entries.now)
        result output.old output.new }
    ensures err { LeavesInFront
        (list_refusal (entry_refusal sizes.now (entry_shape entry)) (entry_meanings entries.now))
        result output.old output.new }
    ensures room { HasRoom (list_canonical (entry_canonical sizes.now) (entry_meanings entries.now))
        output.old → IsErrOf result NoMemory → ⊥ }
    ensures capacity { vec_capacity output.old ≤ vec_capacity output.new }
{
    put_count(entries.len(), output)?;
    put_entries(entry, entries, sizes, output)
}

/// Appends the entries, and may stop on the way.
fn put_entries(
    entry: Entry,
    entries: &[Vec<Scalar>],
    sizes: &IdSizes,
    output: &mut Vec<u8>,
) -> Result<(), DataFault>
    ensures ok { Appends (EncodesAll (EncodesEntry sizes.now (entry_shape entry)))
        (flat_map (entry_canonical sizes.now)) (entry_meanings entries.now)
        result output.old output.new }
    ensures err { LeavesInFront
        (first_refusal (entry_refusal sizes.now (entry_shape entry)) (entry_meanings entries.now))
        result output.old output.new }
    ensures room { HasRoom (flat_map (entry_canonical sizes.now) (entry_meanings entries.now))
        output.old → IsErrOf result NoMemory → ⊥ }
    ensures capacity { vec_capacity output.old ≤ vec_capacity output.new }
{
    for scalars in entries {
        put_entry(entry, scalars, sizes, output)?;
    }
    Ok(())
}

/// Appends an entry, and may stop on the way.
pub fn put_entry(
    entry: Entry,
    scalars: &[Scalar],
    sizes: &IdSizes,
    output: &mut Vec<u8>,
) -> Result<(), DataFault>
    ensures ok { Appends (EncodesEntry sizes.now (entry_shape entry)) (entry_canonical sizes.now)
        (scalar_meanings scalars.now) result output.old output.new }
    ensures err { LeavesInFront
        (entry_refusal sizes.now (entry_shape entry) (scalar_meanings scalars.now))
        result output.old output.new }
    ensures room { HasRoom (entry_canonical sizes.now (scalar_meanings scalars.now)) output.old
        → IsErrOf result NoMemory → ⊥ }
    ensures capacity { vec_capacity output.old ≤ vec_capacity output.new }
{
    match entry {
        Entry::Fields(fields) => put_fields(fields, scalars, sizes, output),
        Entry::Modifier | Entry::Event => match scalars {
            [Scalar::Byte(kind), rest @ ..] => {
                put_fields_of(*kind, fields_of_kind(entry, *kind), rest, sizes, output)
            }
            _ => Err(DataFault::BadSize),
        },
    }
}

/// Appends a kind byte and the fields of that kind, and may stop on the way.
fn put_fields_of(
    kind: u8,
    found: Option<&'static [Field]>,
    scalars: &[Scalar],
    sizes: &IdSizes,
    output: &mut Vec<u8>,
) -> Result<(), DataFault>
    ensures ok { Appends (EncodesFieldsOf sizes.now kind (found_fields found.entry))
        (entry_canonical sizes.now) (Byte kind ∷ scalar_meanings scalars.now)
        result output.old output.new }
    ensures err { LeavesInFront
        (fields_of_refusal sizes.now (found_fields found.entry) (scalar_meanings scalars.now))
        result output.old output.new }
    ensures room { HasRoom (entry_canonical sizes.now (Byte kind ∷ scalar_meanings scalars.now))
        output.old → IsErrOf result NoMemory → ⊥ }
    ensures capacity { vec_capacity output.old ≤ vec_capacity output.new }
{
    match found {
        None => Err(DataFault::BadSize),
        Some(fields) => {
            output.push(kind)?;
            put_fields(fields, scalars, sizes, output)
        }
    }
}

/// Appends one scalar for each field, and may stop on the way.
fn put_fields(
    fields: &[Field],
    scalars: &[Scalar],
    sizes: &IdSizes,
    output: &mut Vec<u8>,
) -> Result<(), DataFault>
    ensures ok { Appends (EncodesFields sizes.now fields.now) (entry_canonical sizes.now)
        (scalar_meanings scalars.now) result output.old output.new }
    ensures err { LeavesInFront (fields_refusal sizes.now fields.now (scalar_meanings scalars.now))
        result output.old output.new }
    ensures room { HasRoom (entry_canonical sizes.now (scalar_meanings scalars.now)) output.old
        → IsErrOf result NoMemory → ⊥ }
    ensures capacity { vec_capacity output.old ≤ vec_capacity output.new }
{
    let mut left = scalars;
    for field in fields {
        match left {
            [] => return Err(DataFault::BadSize),
            [scalar, rest @ ..] => {
                put_field(*field, scalar, sizes, output)?;
                left = rest;
            }
        }
    }
    if left.is_empty() {
        Ok(())
    } else {
        Err(DataFault::BadSize)
    }
}

/// Appends what a field holds.
fn put_field(
    field: Field,
    scalar: &Scalar,
    sizes: &IdSizes,
    output: &mut Vec<u8>,
) -> Result<(), DataFault>
    ensures ok { Appends (EncodesField sizes.now field) (scalar_canonical sizes.now)
        (scalar_meaning scalar.now) result output.old output.new }
    ensures err { LeavesInFront (field_refusal sizes.now field (scalar_meaning scalar.now))
        result output.old output.new }
    ensures room { HasRoom (scalar_canonical sizes.now (scalar_meaning scalar.now)) output.old
        → IsErrOf result NoMemory → ⊥ }
    ensures capacity { vec_capacity output.old ≤ vec_capacity output.new }
{
    match (field, scalar) {
        (Field::Byte, Scalar::Byte(byte)) => byte.put(sizes, output),
        (Field::Boolean, Scalar::Boolean(truth)) => truth.put(sizes, output),
        (Field::Int, Scalar::Int(number)) => number.put(sizes, output),
        (Field::Long, Scalar::Long(number)) => number.put(sizes, output),
        (Field::String, Scalar::String(text)) => text.put(sizes, output),
        (Field::ObjectId, Scalar::ObjectId(id)) => id.put(sizes, output),
        (Field::ReferenceTypeId, Scalar::ReferenceTypeId(id)) => id.put(sizes, output),
        (Field::MethodId, Scalar::MethodId(id)) => id.put(sizes, output),
        (Field::FieldId, Scalar::FieldId(id)) => id.put(sizes, output),
        (Field::FrameId, Scalar::FrameId(id)) => id.put(sizes, output),
        (Field::Location, Scalar::Location(location)) => location.put(sizes, output),
        (Field::Value, Scalar::Value(value)) => value.put(sizes, output),
        (Field::TaggedId, Scalar::TaggedId(tagged)) => tagged.put(sizes, output),
        _ => Err(DataFault::BadSize),
    }
}
