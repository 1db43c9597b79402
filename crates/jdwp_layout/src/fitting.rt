//! Whether data can be written under a layout, and how many bytes they take, before they are. Nothing here takes memory.
ghost use Rattle.std.specs.Prelude.{◌≡◌, length};
ghost use Rattle.std.specs.List.{flat_map};
ghost use Rattle.jdwp_wire.specs.Reading.{in_usize};
ghost use Rattle.jdwp_wire.specs.Numbers.{count_refusal, id_refusal};
ghost use Rattle.jdwp_wire.specs.Listed.{list_refusal};
ghost use Rattle.jdwp_value.specs.Locations.{location_refusal};
ghost use Rattle.jdwp_value.specs.Values.{value_refusal};
ghost use Rattle.jdwp_value.specs.Regions.{region_refusal};
ghost use Rattle.jdwp_layout.specs.Shapes.{entry_shape, found_fields, item_shape, shape, shapes};
ghost use Rattle.jdwp_layout.specs.Meanings.{datum_meaning, entry_meanings, meanings, scalar_meaning, scalar_meanings};
ghost use Rattle.jdwp_layout.specs.Writes.{data_canonical, data_refusal, datum_canonical, entry_canonical, entry_refusal, field_refusal, fields_of_refusal, fields_refusal, item_refusal};

use crate::datum::{Datum, Scalar};
use crate::entry::{entry_size, scalar_size};
use crate::item::{Entry, Field, Item, Layout, fields_of_kind};
use jdwp_value::{ArrayRegion, Location, Value};
use jdwp_wire::number::{GREATEST_INT, fits};
use jdwp_wire::{DataFault, IdKind, IdSizes, Width, Wire};

/// Why `write` would refuse the data, want of memory aside; None where it would not.
pub fn refusal(layout: &Layout, sizes: &IdSizes, values: &[Datum]) -> Option<DataFault>
    ensures { result ≡ data_refusal sizes.now (shape layout.now) (meanings values.now) }
{
    refusal_in_items(layout.items, sizes, values)
}

/// How many bytes the data take, whether or not `write` would refuse them; None past `usize`.
pub fn data_size(values: &[Datum], sizes: &IdSizes) -> Option<usize>
    ensures { result ≡ in_usize (length (data_canonical sizes.now (meanings values.now))) }
{
    let mut total: usize = 0;
    for value in values {
        let size = datum_size(value, sizes)?;
        total = total.checked_add(size)?;
    }
    Some(total)
}

/// How many bytes an item takes; None past `usize`.
fn datum_size(value: &Datum, sizes: &IdSizes) -> Option<usize>
    ensures { result ≡ in_usize (length (datum_canonical sizes.now (datum_meaning value.now))) }
{
    match value {
        Datum::One(scalar) => scalar_size(scalar, sizes),
        Datum::Many(entries) => {
            let size = entries_size(entries, sizes)?;
            size.checked_add(4)
        }
        Datum::Region(region) => region.size(sizes),
        Datum::Raw(bytes) => Some(bytes.len()),
    }
}

/// How many bytes the entries of a list take; None past `usize`.
fn entries_size(entries: &[Vec<Scalar>], sizes: &IdSizes) -> Option<usize>
    ensures { result ≡ in_usize (length (flat_map (entry_canonical sizes.now)
        (entry_meanings entries.now))) }
{
    let mut total: usize = 0;
    for scalars in entries {
        let size = entry_size(scalars, sizes)?;
        total = total.checked_add(size)?;
    }
    Some(total)
}

/// The first refusal of one datum for each item.
fn refusal_in_items(items: &[Item], sizes: &IdSizes, values: &[Datum]) -> Option<DataFault>
    ensures { result ≡ data_refusal sizes.now (shapes items.now) (meanings values.now) }
{
    let mut left = values;
    for item in items {
        match left {
            [] => return Some(DataFault::BadSize),
            [value, rest @ ..] => {
                let refused = refusal_of_item(*item, sizes, value);
                if refused.is_some() {
                    return refused;
                }
                left = rest;
            }
        }
    }
    if left.is_empty() {
        None
    } else {
        Some(DataFault::BadSize)
    }
}

fn refusal_of_item(item: Item, sizes: &IdSizes, value: &Datum) -> Option<DataFault>
    ensures { result ≡ item_refusal sizes.now (item_shape item) (datum_meaning value.now) }
{
    match (item, value) {
        (Item::One(field), Datum::One(scalar)) => refusal_of_field(field, sizes, scalar),
        (Item::Many(entry), Datum::Many(entries)) => refusal_of_list(entry, sizes, entries),
        (Item::Region, Datum::Region(region)) => refusal_of_region(sizes, region),
        _ => Some(DataFault::BadSize),
    }
}

fn refusal_of_list(entry: Entry, sizes: &IdSizes, entries: &[Vec<Scalar>]) -> Option<DataFault>
    ensures { result ≡ list_refusal (entry_refusal sizes.now (entry_shape entry))
        (entry_meanings entries.now) }
{
    if entries.len() > GREATEST_INT as usize {
        return Some(DataFault::BadSize);
    }
    for scalars in entries {
        let refused = refusal_of_entry(entry, sizes, scalars);
        if refused.is_some() {
            return refused;
        }
    }
    None
}

fn refusal_of_entry(entry: Entry, sizes: &IdSizes, scalars: &[Scalar]) -> Option<DataFault>
    ensures { result ≡ entry_refusal sizes.now (entry_shape entry) (scalar_meanings scalars.now) }
{
    match entry {
        Entry::Fields(fields) => refusal_in_fields(fields, sizes, scalars),
        Entry::Modifier | Entry::Event => match scalars {
            [Scalar::Byte(kind), rest @ ..] => {
                refusal_of_kind(fields_of_kind(entry, *kind), sizes, rest)
            }
            _ => Some(DataFault::BadSize),
        },
    }
}

fn refusal_of_kind(
    found: Option<&'static [Field]>,
    sizes: &IdSizes,
    scalars: &[Scalar],
) -> Option<DataFault>
    ensures { result ≡ fields_of_refusal sizes.now (found_fields found.entry)
        (scalar_meanings scalars.now) }
{
    match found {
        None => Some(DataFault::BadSize),
        Some(fields) => refusal_in_fields(fields, sizes, scalars),
    }
}

/// The first refusal of one scalar for each field.
fn refusal_in_fields(fields: &[Field], sizes: &IdSizes, scalars: &[Scalar]) -> Option<DataFault>
    ensures { result ≡ fields_refusal sizes.now fields.now (scalar_meanings scalars.now) }
{
    let mut left = scalars;
    for field in fields {
        match left {
            [] => return Some(DataFault::BadSize),
            [scalar, rest @ ..] => {
                let refused = refusal_of_field(*field, sizes, scalar);
                if refused.is_some() {
                    return refused;
                }
                left = rest;
            }
        }
    }
    if left.is_empty() {
        None
    } else {
        Some(DataFault::BadSize)
    }
}

fn refusal_of_field(field: Field, sizes: &IdSizes, scalar: &Scalar) -> Option<DataFault>
    ensures { result ≡ field_refusal sizes.now field (scalar_meaning scalar.now) }
{
    match (field, scalar) {
        (Field::Byte, Scalar::Byte(_))
        | (Field::Boolean, Scalar::Boolean(_))
        | (Field::Int, Scalar::Int(_))
        | (Field::Long, Scalar::Long(_)) => None,
        (Field::String, Scalar::String(text)) => refusal_of_count(text.len()),
        (Field::ObjectId, Scalar::ObjectId(id)) => refusal_of_id(sizes.width(IdKind::Object), id.0),
        (Field::ReferenceTypeId, Scalar::ReferenceTypeId(id)) => {
            refusal_of_id(sizes.width(IdKind::ReferenceType), id.0)
        }
        (Field::MethodId, Scalar::MethodId(id)) => refusal_of_id(sizes.width(IdKind::Method), id.0),
        (Field::FieldId, Scalar::FieldId(id)) => refusal_of_id(sizes.width(IdKind::Field), id.0),
        (Field::FrameId, Scalar::FrameId(id)) => refusal_of_id(sizes.width(IdKind::Frame), id.0),
        (Field::Location, Scalar::Location(location)) => refusal_of_location(sizes, location),
        (Field::Value, Scalar::Value(value)) => refusal_of_value(sizes, value),
        (Field::TaggedId, Scalar::TaggedId(tagged)) => {
            refusal_of_id(sizes.width(IdKind::Object), tagged.id.0)
        }
        _ => Some(DataFault::BadSize),
    }
}

fn refusal_of_count(count: usize) -> Option<DataFault>
    ensures { result ≡ count_refusal count }
{
    if count > GREATEST_INT as usize {
        Some(DataFault::BadSize)
    } else {
        None
    }
}

fn refusal_of_id(width: Width, number: u64) -> Option<DataFault>
    ensures { result ≡ id_refusal width number }
{
    if fits(number, width.bytes()) {
        None
    } else {
        Some(DataFault::IdTooWide)
    }
}

fn refusal_of_value(sizes: &IdSizes, value: &Value) -> Option<DataFault>
    ensures { result ≡ value_refusal sizes.now value.now }
{
    match value {
        Value::Object(tagged) => refusal_of_id(sizes.width(IdKind::Object), tagged.id.0),
        _ => None,
    }
}

fn refusal_of_location(sizes: &IdSizes, location: &Location) -> Option<DataFault>
    ensures { result ≡ location_refusal sizes.now location.now }
{
    let (class, method) = match *location {
        Location::Null => (0, 0),
        Location::At { class, method, .. } => (class.0, method.0),
    };
    let refused = refusal_of_id(sizes.width(IdKind::ReferenceType), class);
    if refused.is_some() {
        return refused;
    }
    refusal_of_id(sizes.width(IdKind::Method), method)
}

fn refusal_of_region(sizes: &IdSizes, region: &ArrayRegion) -> Option<DataFault>
    ensures { result ≡ region_refusal sizes.now region.now }
{
    let elements = region.elements();
    if elements.len() > GREATEST_INT as usize {
        return Some(DataFault::BadSize);
    }
    for value in elements {
        let refused = refusal_of_value(sizes, value);
        if refused.is_some() {
            return refused;
        }
    }
    None
}
