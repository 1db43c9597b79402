//! What fields hold, as types of their own, and how values are taken apart into them.
ghost use Rattle.std.specs.Prelude.{◌≡◌, List, [], ◌∷◌, MatchOption};
ghost use Rattle.std.specs.String.{string_bytes};
ghost use Rattle.std.specs.Vec.Iter.{into_iter_items};
ghost use Rattle.jdwp_layout.specs.declared.item.Field.{Field};
ghost use Rattle.jdwp_layout.specs.declared.item.Field.TheVariants as held;
ghost use Rattle.jdwp_layout.specs.Grammar.{kind_of};
ghost use Rattle.jdwp_layout.specs.Meanings.{ScalarMeaning, Boolean, Byte, Int, Long, Text, Object, ReferenceType, Method, OfField, Frame, Located, Valued, Tagged, entry_meaning, scalar_meaning, scalar_meanings};
ghost use Rattle.jdwp_answer.specs.Shaped.{Converted, HasFields};

use jdwp_layout::Scalar;
use jdwp_value::{
    FieldId, FrameId, Location, MethodId, ObjectId, ReferenceTypeId, TaggedId, Value,
};
use std::vec::IntoIter;

/// What a field of one kind holds.
pub(crate) trait Held: Drop {
    /// The kind of the field.
    ghost kind: { Field };

    /// What it says.
    ghost says: { Self → ScalarMeaning };

    /// The one that a value is; None exactly where it is of another kind.
    fn of_scalar(scalar: Scalar) -> Option<Self>
        ensures { Converted says (λ x. kind_of x ≡ kind) (scalar_meaning scalar) result };
}

/// What fields hold, one after the other: `()` of none, and `(A, R)` what one holds and those after it.
pub(crate) trait Row: Drop {
    /// The kinds of the fields, in order.
    ghost kinds: { List Field };

    /// What they say.
    ghost says: { Self → List ScalarMeaning };

    /// The row that these values are; None exactly where they are not of its kinds.
    fn of_rest(rest: IntoIter<Scalar>) -> Option<Self>
        ensures { Converted says (HasFields kinds) (scalar_meanings (into_iter_items rest)) result };
}

impl Row for () {
    ghost kinds = { [] };

    ghost says = { λ _. [] };

    fn of_rest(mut rest: IntoIter<Scalar>) -> Option<()> {
        match rest.next() {
            Some(_) => None,
            None => Some(()),
        }
    }
}

impl<A: Held, R: Row> Row for (A, R) {
    ghost kinds = { A.kind ∷ R.kinds };

    ghost says = { λ p. A.says p.0 ∷ R.says p.1 };

    fn of_rest(mut rest: IntoIter<Scalar>) -> Option<(A, R)> {
        match first_of(&mut rest) {
            Some(first) => match R::of_rest(rest) {
                Some(others) => Some((first, others)),
                None => None,
            },
            None => None,
        }
    }
}

/// What the first of the values is, taken from them; None exactly where there are none, or it is of another kind.
fn first_of<A: Held>(values: &mut IntoIter<Scalar>) -> Option<A>
    ensures { MatchOption result
        ((kinds : List Field) → HasFields (A.kind ∷ kinds) (scalar_meanings (into_iter_items values.old)) → ⊥)
        (λ x. A.says x ∷ scalar_meanings (into_iter_items values.new) ≡ scalar_meanings (into_iter_items values.old)) }
{
    match values.next() {
        Some(scalar) => A::of_scalar(scalar),
        None => None,
    }
}

/// The row that an entry is; None exactly where it is not of its kinds.
pub(crate) fn row_of<R: Row>(scalars: Vec<Scalar>) -> Option<R>
    ensures { Converted R.says (HasFields R.kinds) (entry_meaning scalars) result }
{
    R::of_rest(scalars.into_iter())
}

/// The one value that an entry is; None exactly where it is something else.
pub(crate) fn only<A: Held>(scalars: Vec<Scalar>) -> Option<A>
    ensures { Converted (λ x. A.says x ∷ []) (HasFields (A.kind ∷ [])) (entry_meaning scalars) result }
{
    match row_of::<(A, ())>(scalars) {
        Some((value, ())) => Some(value),
        None => None,
    }
}

impl Held for u8 {
    ghost kind = { held.Byte };

    ghost says = { λ n. Byte n };

    fn of_scalar(scalar: Scalar) -> Option<u8> {
        match scalar {
            Scalar::Byte(byte) => Some(byte),
            _ => None,
        }
    }
}

impl Held for bool {
    ghost kind = { held.Boolean };

    ghost says = { λ b. Boolean b };

    fn of_scalar(scalar: Scalar) -> Option<bool> {
        match scalar {
            Scalar::Boolean(truth) => Some(truth),
            _ => None,
        }
    }
}

impl Held for i32 {
    ghost kind = { held.Int };

    ghost says = { λ n. Int n };

    fn of_scalar(scalar: Scalar) -> Option<i32> {
        match scalar {
            Scalar::Int(int) => Some(int),
            _ => None,
        }
    }
}

impl Held for i64 {
    ghost kind = { held.Long };

    ghost says = { λ n. Long n };

    fn of_scalar(scalar: Scalar) -> Option<i64> {
        match scalar {
            Scalar::Long(long) => Some(long),
            _ => None,
        }
    }
}

impl Held for String {
    ghost kind = { held.String };

    ghost says = { λ t. Text (string_bytes t) };

    fn of_scalar(scalar: Scalar) -> Option<String> {
        match scalar {
            Scalar::String(text) => Some(text),
            _ => None,
        }
    }
}

impl Held for ObjectId {
    ghost kind = { held.ObjectId };

    ghost says = { λ o. Object o.0 };

    fn of_scalar(scalar: Scalar) -> Option<ObjectId> {
        match scalar {
            Scalar::ObjectId(id) => Some(id),
            _ => None,
        }
    }
}

impl Held for ReferenceTypeId {
    ghost kind = { held.ReferenceTypeId };

    ghost says = { λ r. ReferenceType r.0 };

    fn of_scalar(scalar: Scalar) -> Option<ReferenceTypeId> {
        match scalar {
            Scalar::ReferenceTypeId(id) => Some(id),
            _ => None,
        }
    }
}

impl Held for MethodId {
    ghost kind = { held.MethodId };

    ghost says = { λ m. Method m.0 };

    fn of_scalar(scalar: Scalar) -> Option<MethodId> {
        match scalar {
            Scalar::MethodId(id) => Some(id),
            _ => None,
        }
    }
}

impl Held for FieldId {
    ghost kind = { held.FieldId };

    ghost says = { λ f. OfField f.0 };

    fn of_scalar(scalar: Scalar) -> Option<FieldId> {
        match scalar {
            Scalar::FieldId(id) => Some(id),
            _ => None,
        }
    }
}

impl Held for FrameId {
    ghost kind = { held.FrameId };

    ghost says = { λ f. Frame f.0 };

    fn of_scalar(scalar: Scalar) -> Option<FrameId> {
        match scalar {
            Scalar::FrameId(id) => Some(id),
            _ => None,
        }
    }
}

impl Held for Location {
    ghost kind = { held.Location };

    ghost says = { λ l. Located l };

    fn of_scalar(scalar: Scalar) -> Option<Location> {
        match scalar {
            Scalar::Location(location) => Some(location),
            _ => None,
        }
    }
}

impl Held for Value {
    ghost kind = { held.Value };

    ghost says = { λ v. Valued v };

    fn of_scalar(scalar: Scalar) -> Option<Value> {
        match scalar {
            Scalar::Value(value) => Some(value),
            _ => None,
        }
    }
}

impl Held for TaggedId {
    ghost kind = { held.TaggedId };

    ghost says = { λ t. Tagged t };

    fn of_scalar(scalar: Scalar) -> Option<TaggedId> {
        match scalar {
            Scalar::TaggedId(tagged) => Some(tagged),
            _ => None,
        }
    }
}
