//! What items are, as types of their own, and how data are taken apart into them.
ghost use Rattle.std.specs.Prelude.{◌≡◌, List, [], ◌∷◌, MatchOption};
ghost use Rattle.std.specs.Vec.Iter.{into_iter_items};
ghost use Rattle.jdwp_layout.specs.declared.item.Field.TheVariants as held;
ghost use Rattle.jdwp_layout.specs.Shapes.{OneOf, RegionOf};
ghost use Rattle.jdwp_layout.specs.Meanings.{DatumMeaning, One, Many, Elements, Int, Long, datum_meaning, entry_meanings, meanings};
ghost use Rattle.jdwp_answer.specs.Shaped.{Converted, HasItem, IsList, Are, AreNone, Begins};

use crate::rows::Held;
use jdwp_layout::{Datum, Scalar};
use jdwp_value::ArrayRegion;
use std::vec::IntoIter;

/// What an item of one kind is.
pub(crate) trait Item: Drop {
    /// An item of the kind.
    ghost fits: { DatumMeaning → Type 0 };

    /// What it says.
    ghost says: { Self → DatumMeaning };

    /// The one that an item is; None exactly where it is of another kind.
    fn of_datum(datum: Datum) -> Option<Self>
        ensures { Converted says fits (datum_meaning datum) result };
}

/// What items are, one after the other: `()` of none, and `(A, R)` what one is and those after it.
pub(crate) trait Items: Drop {
    /// Items of these kinds.
    ghost fits: { List DatumMeaning → Type 0 };

    /// What they say.
    ghost says: { Self → List DatumMeaning };

    /// What these items are; None exactly where they are not of its kinds.
    fn of_rest(rest: IntoIter<Datum>) -> Option<Self>
        ensures { Converted says fits (meanings (into_iter_items rest)) result };
}

impl Items for () {
    ghost fits = { AreNone };

    ghost says = { λ _. [] };

    fn of_rest(mut rest: IntoIter<Datum>) -> Option<()> {
        match rest.next() {
            Some(_) => None,
            None => Some(()),
        }
    }
}

impl<A: Item, R: Items> Items for (A, R) {
    ghost fits = { Are A.fits R.fits };

    ghost says = { λ p. A.says p.0 ∷ R.says p.1 };

    fn of_rest(mut rest: IntoIter<Datum>) -> Option<(A, R)> {
        match first_of(&mut rest) {
            Some(first) => match R::of_rest(rest) {
                Some(others) => Some((first, others)),
                None => None,
            },
            None => None,
        }
    }
}

/// What the first of the items is, taken from them; None exactly where there are none, or it is of another kind.
fn first_of<A: Item>(items: &mut IntoIter<Datum>) -> Option<A>
    ensures { MatchOption result
        (Begins A.fits (meanings (into_iter_items items.old)) → ⊥)
        (λ x. A.says x ∷ meanings (into_iter_items items.new) ≡ meanings (into_iter_items items.old)) }
{
    match items.next() {
        Some(datum) => A::of_datum(datum),
        None => None,
    }
}

/// What data are, item by item; None exactly where they are not of these kinds.
pub(crate) fn items_of<R: Items>(items: Vec<Datum>) -> Option<R>
    ensures { Converted R.says R.fits (meanings items.items) result }
{
    R::of_rest(items.into_iter())
}

/// What data of one item are; None exactly where they are something else.
pub(crate) fn only_item<A: Item>(items: Vec<Datum>) -> Option<A>
    ensures { Converted (λ x. A.says x ∷ []) (Are A.fits AreNone) (meanings items.items) result }
{
    match items_of::<(A, ())>(items) {
        Some((item, ())) => Some(item),
        None => None,
    }
}

/// What the one value of an item is; None exactly where it is of another kind, or the item is something else.
fn held_of<A: Held>(datum: Datum) -> Option<A>
    ensures { Converted (λ x. One (A.says x)) (HasItem (OneOf A.kind)) (datum_meaning datum) result }
{
    match datum {
        Datum::One(scalar) => A::of_scalar(scalar),
        _ => None,
    }
}

impl Item for i32 {
    ghost fits = { HasItem (OneOf held.Int) };

    ghost says = { λ n. One (Int n) };

    fn of_datum(datum: Datum) -> Option<i32> {
        held_of(datum)
    }
}

impl Item for i64 {
    ghost fits = { HasItem (OneOf held.Long) };

    ghost says = { λ n. One (Long n) };

    fn of_datum(datum: Datum) -> Option<i64> {
        held_of(datum)
    }
}

/// The entries of a list.
impl Item for Vec<Vec<Scalar>> {
    ghost fits = { IsList };

    ghost says = { λ entries. Many (entry_meanings entries.items) };

    fn of_datum(datum: Datum) -> Option<Vec<Vec<Scalar>>> {
        match datum {
            Datum::Many(entries) => Some(entries),
            _ => None,
        }
    }
}

impl Item for ArrayRegion {
    ghost fits = { HasItem RegionOf };

    ghost says = { λ region. Elements region };

    fn of_datum(datum: Datum) -> Option<ArrayRegion> {
        match datum {
            Datum::Region(region) => Some(region),
            _ => None,
        }
    }
}
