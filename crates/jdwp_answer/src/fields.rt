//! Structs of values, each of one field.
ghost use Rattle.std.specs.Prelude.{◌≡◌, List, map, [], ◌∷◌, IfOk};
ghost use Rattle.std.specs.List.{AllByRecursion};
ghost use Rattle.jdwp_layout.specs.declared.item.Field.{Field};
ghost use Rattle.jdwp_layout.specs.Shapes.{ListOf, Fields, shape as shape_of};
ghost use Rattle.jdwp_layout.specs.Meanings.{ScalarMeaning, One, datum_meaning, entry_meaning, entry_meanings, meanings, scalar_meaning};
ghost use Rattle.jdwp_answer.specs.Shaped.{HasFields, HasItems, Converted, IsOne, AreOnes, one_each, one_list as list_alone, ones};
ghost use Rattle.jdwp_answer.specs.ShapedLaws.{all_have};

use crate::items::only_item;
use crate::reply::Reply;
use jdwp_layout::{Datum, Layout, Scalar};
use jdwp_wire::NoMemory;
use std::alloc::Global;

/// A struct of values, each of one field: an entry of a list, or a reply without a list.
pub trait Record: Drop {
    /// The fields, in order.
    ghost kinds: { List Field };

    /// What they hold.
    ghost fields: { Self → List ScalarMeaning };

    /// The struct of these values, which takes no memory; None exactly where they are not of its fields.
    fn of_fields(alloc: Global, scalars: Vec<Scalar>) -> Option<Self>
        ensures { Converted fields (HasFields kinds) (entry_meaning scalars) result };

    /// What it holds is of its fields.
    ghost has: { (x : Self) → HasFields kinds (fields x) };
}

/// A struct that lists are made of which are a reply.
pub trait Listed: Record {
    /// The layout of a reply that is one list of such structs.
    fn list() -> &'static Layout
        ensures { shape_of result.now ≡ ListOf (Fields Self.kinds) ∷ [] };
}

impl<E: Listed> Reply for Vec<E> {
    ghost shape = { ListOf (Fields E.kinds) ∷ [] };

    ghost says = { λ v. list_alone (map E.fields v.items) };

    fn layout() -> &'static Layout {
        E::list()
    }

    fn of_items(alloc: Global, items: Vec<Datum>) -> Result<Option<Vec<E>>, NoMemory> {
        match only_item(items) {
            Some(entries) => match entries_of(alloc, entries) {
                Ok(Some(made)) => Ok(Some(made)),
                Ok(None) => Ok(None),
                Err(NoMemory) => Err(NoMemory),
            },
            None => Ok(None),
        }
    }

    ghost fits = { λ v. (all_have E.kinds E.fields E.has v.items, tt) };
}

/// The structs of the entries of a list; None where an entry is not of its fields.
///
/// # Errors
/// `NoMemory` where an allocation was refused, and only where there are any.
pub(crate) fn entries_of<E: Record>(
    alloc: Global,
    entries: Vec<Vec<Scalar>>,
) -> Result<Option<Vec<E>>, NoMemory>
    ensures { IfOk result (Converted (λ v. map E.fields v.items)
        (AllByRecursion (HasFields E.kinds)) (entry_meanings entries.items)) }
{
    let mut made = Vec::with_capacity(alloc, entries.len())?;
    for scalars in entries {
        match E::of_fields(alloc, scalars) {
            Some(entry) => made.push_reserved(entry),
            None => return Ok(None),
        }
    }
    Ok(Some(made))
}

/// The struct that data without a list are; None where they are not of its fields.
///
/// # Errors
/// `NoMemory` where an allocation was refused.
pub(crate) fn record_of<R: Record>(alloc: Global, items: Vec<Datum>) -> Result<Option<R>, NoMemory>
    ensures { IfOk result (Converted (λ r. ones (R.fields r)) (HasItems (one_each R.kinds))
        (meanings items.items)) }
{
    match values_of(alloc, items) {
        Ok(Some(scalars)) => match R::of_fields(alloc, scalars) {
            Some(record) => Ok(Some(record)),
            None => Ok(None),
        },
        Ok(None) => Ok(None),
        Err(NoMemory) => Err(NoMemory),
    }
}

/// The values of data without a list; None where an item is no value.
///
/// # Errors
/// `NoMemory` where an allocation was refused.
fn values_of(alloc: Global, items: Vec<Datum>) -> Result<Option<Vec<Scalar>>, NoMemory>
    ensures { IfOk result (Converted (λ scalars. ones (entry_meaning scalars)) AreOnes
        (meanings items.items)) }
{
    let mut made = Vec::with_capacity(alloc, items.len())?;
    for item in items {
        match one_of(item) {
            Some(scalar) => made.push_reserved(scalar),
            None => return Ok(None),
        }
    }
    Ok(Some(made))
}

/// The value that an item is; None where it is something else.
fn one_of(item: Datum) -> Option<Scalar>
    ensures { Converted (λ scalar. One (scalar_meaning scalar)) IsOne (datum_meaning item) result }
{
    match item {
        Datum::One(scalar) => Some(scalar),
        _ => None,
    }
}
