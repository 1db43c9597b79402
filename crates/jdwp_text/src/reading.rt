//! Data of a command, read in the words of `show`.
ghost use Rattle.std.specs.Prelude.{List, ℕ, IfOk};
ghost use Rattle.jdwp_layout.specs.Grammar.{EncodesData};
ghost use Rattle.jdwp_layout.specs.Meanings.{DatumMeaning, meanings};
ghost use Rattle.jdwp_layout.specs.Shapes.{shape};
ghost use Rattle.jdwp_text.specs.Says.{Says};

use crate::comparing::expect_shown;
use crate::fields::{expect, read_field};
use crate::lists::{read_entries, read_region};
use crate::text_fault::{Expected, Stop, TextFault};
use jdwp_layout::{Datum, Item, Layout, write};
use jdwp_wire::{DataFault, IdSizes};
use std::alloc::Global;

/// The data that a text says under a layout, as the bytes of a packet with ids of these widths. The text is what `show` prints of the data: each
/// item behind a space, and nothing where there is none.
///
/// # Errors
/// `At` with the place in the text from which on it says no data, and what was expected there; `Unwritable` where it has the layout's form and an id is
/// above its width; `NoMemory` where an allocation was refused.
pub fn read_data(
    alloc: Global,
    layout: &Layout,
    sizes: &IdSizes,
    text: &str,
) -> Result<Vec<u8>, TextFault>
    ensures { IfOk result (λ bytes. (items : List DatumMeaning)
        × Says sizes.now (shape layout.now) text.now items bytes.items) }
{
    let read = read_both(alloc, layout, sizes, text)?;
    Ok(read.1)
}

/// The same data as items.
///
/// # Errors
/// As `read_data`.
pub fn read_items(
    alloc: Global,
    layout: &Layout,
    sizes: &IdSizes,
    text: &str,
) -> Result<Vec<Datum>, TextFault>
    ensures { IfOk result (λ items. (bytes : List ℕ)
        × Says sizes.now (shape layout.now) text.now (meanings items.items) bytes) }
{
    let read = read_both(alloc, layout, sizes, text)?;
    Ok(read.0)
}

/// The data that a text says, as items and as bytes.
fn read_both(
    alloc: Global,
    layout: &Layout,
    sizes: &IdSizes,
    text: &str,
) -> Result<(Vec<Datum>, Vec<u8>), TextFault>
    ensures { IfOk result (λ x. Says sizes.now (shape layout.now) text.now
        (meanings x.0.items) x.1.items) }
{
    let items = read_whole(alloc, layout.items, text)?;
    expect_shown(alloc, items.as_slice(), text)?;
    let bytes = write_all(alloc, layout, sizes, items.as_slice())?;
    Ok((items, bytes))
}

/// The bytes of these data.
fn write_all(
    alloc: Global,
    layout: &Layout,
    sizes: &IdSizes,
    items: &[Datum],
) -> Result<Vec<u8>, TextFault>
    ensures { IfOk result (λ bytes. EncodesData sizes.now (shape layout.now)
        (meanings items.now) bytes.items) }
{
    let mut bytes = Vec::new(alloc);
    match write(layout, sizes, items, &mut bytes) {
        Ok(()) => Ok(bytes),
        Err(DataFault::NoMemory) => Err(TextFault::NoMemory),
        Err(fault) => Err(TextFault::Unwritable(fault)),
    }
}

/// What is read of a text.
fn read_whole(alloc: Global, items: &[Item], text: &str) -> Result<Vec<Datum>, TextFault> {
    match read_all(alloc, items, text.as_bytes()) {
        Ok(data) => Ok(data),
        Err(Stop::NoMemory) => Err(TextFault::NoMemory),
        Err(Stop::Expected(left, expected)) => {
            let place = text.len().saturating_sub(left);
            Err(TextFault::At(place, expected))
        }
    }
}

/// What each item holds, and no more.
fn read_all(alloc: Global, items: &[Item], bytes: &[u8]) -> Result<Vec<Datum>, Stop> {
    let (data, rest) = read_each(alloc, items, bytes)?;
    if rest.is_empty() {
        Ok(data)
    } else {
        Err(Stop::Expected(rest.len(), Expected::End))
    }
}

/// What each item holds, each behind a space, and what follows them.
fn read_each<'a>(
    alloc: Global,
    items: &[Item],
    bytes: &'a [u8],
) -> Result<(Vec<Datum>, &'a [u8]), Stop> {
    let mut held = Vec::new(alloc);
    let mut rest = bytes;
    for item in items {
        let (datum, behind) = read_spaced(alloc, *item, rest)?;
        held.push(datum)?;
        rest = behind;
    }
    Ok((held, rest))
}

/// What the item behind a space holds, and what follows it.
fn read_spaced(alloc: Global, item: Item, bytes: &[u8]) -> Result<(Datum, &[u8]), Stop> {
    let rest = expect(bytes, b' ', Expected::Space)?;
    read_item(alloc, item, rest)
}

/// What the item in front holds, and what follows it.
fn read_item(alloc: Global, item: Item, bytes: &[u8]) -> Result<(Datum, &[u8]), Stop> {
    match item {
        Item::One(field) => {
            let (scalar, rest) = read_field(alloc, field, bytes)?;
            Ok((Datum::One(scalar), rest))
        }
        Item::Many(entry) => {
            let rest = expect(bytes, b'[', Expected::List)?;
            let (entries, rest) = read_entries(alloc, entry, rest)?;
            Ok((Datum::Many(entries), rest))
        }
        Item::Region => {
            let (region, rest) = read_region(alloc, bytes)?;
            Ok((Datum::Region(region), rest))
        }
    }
}
