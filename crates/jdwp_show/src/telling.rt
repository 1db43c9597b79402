//! Data of packets in words, told as they are read: nothing of a list is kept.
ghost use Rattle.std.specs.Prelude.{◌≡◌, IfOk, List, Ok, OnOk};
ghost use Rattle.jdwp_wire.specs.Each.{times_at};
ghost use Rattle.jdwp_layout.specs.Meanings.{DatumMeaning};
ghost use Rattle.jdwp_layout.specs.Shapes.{item_shape, entry_shape, shapes};
ghost use Rattle.jdwp_layout.specs.Reads.{field_at, fields_at, entry_at, item_at, items_at, data_at};
ghost use Rattle.jdwp_show.specs.DataText.{listed, scalar_text, entry_text, datum_text, data_text};
ghost use Rattle.jdwp_show.specs.Telling.{Grows, IsTold};

use crate::data_text::{push_entry, push_region, push_scalar, push_separator};
use crate::text::Text;
use jdwp_layout::{Entry, Field, Item, read_entry, read_field};
use jdwp_value::ArrayRegion;
use jdwp_wire::number::take_count;
use jdwp_wire::{DataFault, IdSizes, Wire};
use std::alloc::Global;

/// Appends the data that the whole slice encodes under these items, each after a space.
///
/// # Errors
/// A fault of the data where they do not read, and `NoMemory` where an allocation was refused in reading. The text may then
/// have grown.
pub(crate) fn tell_data(
    alloc: Global,
    text: &mut Text,
    items: &[Item],
    sizes: &IdSizes,
    bytes: &[u8],
) -> Result<(), DataFault>
    ensures { OnOk result ((told : List DatumMeaning)
        × (data_at sizes.now (shapes items.now) bytes.now ≡ Ok told)
        × Grows text.old (data_text told) text.new) }
{
    let rest = tell_items(alloc, text, items, bytes, bytes.len(), sizes)?;
    if rest.is_empty() {
        Ok(())
    } else {
        Err(DataFault::Extra(bytes.len().saturating_sub(rest.len())))
    }
}

/// Appends what each item holds, at the front of the rest of a slice of `whole` bytes, and answers what follows it all.
fn tell_items<'a>(
    alloc: Global,
    text: &mut Text,
    items: &[Item],
    bytes: &'a [u8],
    whole: usize,
    sizes: &IdSizes,
) -> Result<&'a [u8], DataFault>
    ensures { IfOk result (λ rest. IsTold data_text text.old text.new (items_at sizes.now whole
        (shapes items.now) bytes.now) rest.now) }
{
    let mut rest = bytes;
    for item in items {
        text.push_str(" ");
        let after = tell_item(alloc, text, *item, rest, whole, sizes)?;
        rest = after;
    }
    Ok(rest)
}

fn tell_item<'a>(
    alloc: Global,
    text: &mut Text,
    item: Item,
    rest: &'a [u8],
    whole: usize,
    sizes: &IdSizes,
) -> Result<&'a [u8], DataFault>
    ensures { IfOk result (λ after. IsTold datum_text text.old text.new (item_at sizes.now whole
        (item_shape item) rest.now) after.now) }
{
    match item {
        Item::One(field) => tell_field(alloc, text, field, rest, whole, sizes),
        Item::Many(entry) => {
            let (count, rest) = take_count(rest, whole)?;
            text.push_str("[");
            let rest = tell_entries(alloc, text, count, entry, rest, whole, sizes)?;
            text.push_str("]");
            Ok(rest)
        }
        Item::Region => {
            let (region, rest) = ArrayRegion::take_front(alloc, rest, whole, sizes)?;
            push_region(text, &region);
            Ok(rest)
        }
    }
}

/// Appends `count` entries.
fn tell_entries<'a>(
    alloc: Global,
    text: &mut Text,
    count: usize,
    entry: Entry,
    bytes: &'a [u8],
    whole: usize,
    sizes: &IdSizes,
) -> Result<&'a [u8], DataFault>
    ensures { IfOk result (λ rest. IsTold (listed entry_text) text.old text.new
        (times_at (entry_at sizes.now whole (entry_shape entry)) count bytes.now) rest.now) }
{
    let mut rest = bytes;
    for index in 0..count {
        push_separator(text, index);
        let after = tell_entry(alloc, text, entry, rest, whole, sizes)?;
        rest = after;
    }
    Ok(rest)
}

fn tell_entry<'a>(
    alloc: Global,
    text: &mut Text,
    entry: Entry,
    rest: &'a [u8],
    whole: usize,
    sizes: &IdSizes,
) -> Result<&'a [u8], DataFault>
    ensures { IfOk result (λ after. IsTold entry_text text.old text.new (entry_at sizes.now whole
        (entry_shape entry) rest.now) after.now) }
{
    if let Entry::Fields(fields) = entry {
        return tell_fields(alloc, text, fields, rest, whole, sizes);
    }
    let (scalars, rest) = read_entry(alloc, entry, rest, whole, sizes)?;
    push_entry(text, &scalars);
    Ok(rest)
}

/// Appends an entry of these fields; of one field it has no round brackets.
fn tell_fields<'a>(
    alloc: Global,
    text: &mut Text,
    fields: &[Field],
    rest: &'a [u8],
    whole: usize,
    sizes: &IdSizes,
) -> Result<&'a [u8], DataFault>
    ensures { IfOk result (λ after. IsTold entry_text text.old text.new
        (fields_at sizes.now whole fields.now rest.now) after.now) }
{
    if fields.len() == 1 {
        return tell_field(alloc, text, fields[0], rest, whole, sizes);
    }
    text.push_str("(");
    let rest = tell_each(alloc, text, fields, rest, whole, sizes)?;
    text.push_str(")");
    Ok(rest)
}

fn tell_each<'a>(
    alloc: Global,
    text: &mut Text,
    fields: &[Field],
    bytes: &'a [u8],
    whole: usize,
    sizes: &IdSizes,
) -> Result<&'a [u8], DataFault>
    ensures { IfOk result (λ rest. IsTold (listed scalar_text) text.old text.new
        (fields_at sizes.now whole fields.now bytes.now) rest.now) }
{
    let mut rest = bytes;
    for (index, field) in fields.iter().enumerate() {
        push_separator(text, index);
        let after = tell_field(alloc, text, *field, rest, whole, sizes)?;
        rest = after;
    }
    Ok(rest)
}

fn tell_field<'a>(
    alloc: Global,
    text: &mut Text,
    field: Field,
    rest: &'a [u8],
    whole: usize,
    sizes: &IdSizes,
) -> Result<&'a [u8], DataFault>
    ensures { IfOk result (λ after. IsTold scalar_text text.old text.new
        (field_at sizes.now whole field rest.now) after.now) }
{
    let (scalar, rest) = read_field(alloc, field, rest, whole, sizes)?;
    push_scalar(text, &scalar);
    Ok(rest)
}
