//! Items of data at a path, and data as texts.
ghost use Rattle.std.specs.Prelude.{◌≡◌, IfOk};
ghost use Rattle.std.specs.Option.{option_map};
ghost use Rattle.jdwp_layout.specs.Meanings.{datum_meaning, meanings, scalar_meaning, scalar_meanings};
ghost use Rattle.jdwp_show.specs.DataText as data_text;
ghost use Rattle.jdwp_plan.specs.Items as paths;

use crate::plan_line::Path;
use jdwp_layout::{Datum, Scalar};
use jdwp_show::composite_data_line;
use jdwp_wire::NoMemory;
use std::alloc::Global;

/// How many bytes stand before the data in the line of a composite under the id 0, `< 0 Event.Composite`.
const BEFORE_DATA: usize = 19;

/// The item of data at a path, which holds the same; None where none stands there.
///
/// # Errors
/// `NoMemory` where an allocation was refused.
pub fn item_at(alloc: Global, path: Path, data: &[Datum]) -> Result<Option<Scalar>, NoMemory>
    ensures { IfOk result (λ found. option_map scalar_meaning found
        ≡ paths.item_at path (meanings «data».now)) }
{
    match path {
        Path::Item(item) => alone(alloc, data.get(item as usize)),
        Path::Entry(entry, place) => in_list(alloc, first_list(data), entry, place),
        Path::EntryOf(item, entry, place) => {
            in_list(alloc, data.get(item as usize), entry, place)
        }
    }
}

/// The item that a datum is.
fn alone(alloc: Global, datum: Option<&Datum>) -> Result<Option<Scalar>, NoMemory>
    ensures { IfOk result (λ found. option_map scalar_meaning found
        ≡ paths.alone (option_map (λ d. datum_meaning d.now) datum.entry)) }
{
    match datum {
        Some(Datum::One(scalar)) => Ok(Some(scalar.copied(alloc)?)),
        _ => Ok(None),
    }
}

/// The first list of data.
fn first_list(data: &[Datum]) -> Option<&Datum>
    ensures { option_map (λ d. datum_meaning d.now) result
        ≡ paths.first_list (meanings «data».now) }
{
    for datum in data {
        if is_list(datum) {
            return Some(datum);
        }
    }
    None
}

/// Whether a datum is a list or an array region.
fn is_list(datum: &Datum) -> bool
    ensures { result ≡ paths.is_list (datum_meaning datum.now) }
{
    match datum {
        Datum::Many(_) | Datum::Region(_) => true,
        Datum::One(_) | Datum::Raw(_) => false,
    }
}

/// An item of an entry of a list.
fn in_list(
    alloc: Global,
    datum: Option<&Datum>,
    entry: u32,
    place: u32,
) -> Result<Option<Scalar>, NoMemory>
    ensures { IfOk result (λ found. option_map scalar_meaning found
        ≡ paths.in_list entry place (option_map (λ d. datum_meaning d.now) datum.entry)) }
{
    match datum {
        Some(Datum::Many(entries)) => match entries.get(entry as usize) {
            Some(entry) => in_entry(alloc, entry.as_slice(), place),
            None => Ok(None),
        },
        Some(Datum::Region(region)) => {
            if place > 0 {
                return Ok(None);
            }
            match region.elements().get(entry as usize) {
                Some(value) => Ok(Some(Scalar::Value(*value))),
                None => Ok(None),
            }
        }
        _ => Ok(None),
    }
}

/// An item of an entry.
fn in_entry(alloc: Global, entry: &[Scalar], place: u32) -> Result<Option<Scalar>, NoMemory>
    ensures { IfOk result (λ found. option_map scalar_meaning found
        ≡ paths.in_entry place (scalar_meanings entry.now)) }
{
    match entry.get(place as usize) {
        Some(scalar) => Ok(Some(scalar.copied(alloc)?)),
        None => Ok(None),
    }
}

/// What `show` prints of data: each item behind a space.
///
/// # Errors
/// `NoMemory` where an allocation was refused.
#[tactic(auto, using(crate::proofs::ShownLaws::behind_start, crate::proofs::ShownLaws::start_long))]
pub fn items_text(alloc: Global, data: &[Datum]) -> Result<Vec<u8>, NoMemory>
    ensures { IfOk result (λ text. text.items ≡ data_text.data_text (meanings «data».now)) }
{
    let line = composite_data_line(alloc, 0, data)?;
    let text = Vec::from_slice(alloc, &line.as_bytes()[BEFORE_DATA..])?;
    Ok(text)
}

/// What `show` prints of one item.
///
/// # Errors
/// `NoMemory` where an allocation was refused.
#[tactic(auto, using(crate::proofs::ShownLaws::behind_one, crate::proofs::ShownLaws::one_long))]
pub fn scalar_text(alloc: Global, item: Scalar) -> Result<Vec<u8>, NoMemory>
    ensures { IfOk result (λ text. text.items ≡ data_text.scalar_text (scalar_meaning item)) }
{
    let items = [Datum::One(item)];
    let line = composite_data_line(alloc, 0, &items)?;
    let text = Vec::from_slice(alloc, &line.as_bytes()[BEFORE_DATA + 1..])?;
    Ok(text)
}
