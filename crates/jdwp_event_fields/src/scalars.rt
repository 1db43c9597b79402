//! What single fields hold.
ghost use Rattle.std.specs.Prelude.{◌≡◌};
ghost use Rattle.jdwp_layout.specs.declared.item.Field.TheVariants as held;
ghost use Rattle.jdwp_layout.specs.Grammar.{kind_of};
ghost use Rattle.jdwp_layout.specs.Meanings.{Byte, Int, Located, Object, OfField, ReferenceType, Tagged, Valued, scalar_meaning};
ghost use Rattle.jdwp_event_fields.specs.Events.{ReadAs};

use jdwp_layout::Scalar;
use jdwp_value::{FieldId, Location, ObjectId, ReferenceTypeId, TaggedId, Value};

/// The byte that a field holds; None where it holds something else.
pub(crate) fn byte_in(scalar: &Scalar) -> Option<u8>
    ensures { ReadAs (λ byte. Byte byte) (λ x. kind_of x ≡ held.Byte) (scalar_meaning scalar.now)
        result }
{
    match scalar {
        Scalar::Byte(byte) => Some(*byte),
        _ => None,
    }
}

/// The int that a field holds; None where it holds something else.
pub(crate) fn int_in(scalar: &Scalar) -> Option<i32>
    ensures { ReadAs (λ int. Int int) (λ x. kind_of x ≡ held.Int) (scalar_meaning scalar.now) result }
{
    match scalar {
        Scalar::Int(int) => Some(*int),
        _ => None,
    }
}

/// The object that a field holds; None where it holds something else.
pub(crate) fn object_in(scalar: &Scalar) -> Option<ObjectId>
    ensures { ReadAs (λ id. Object id.0) (λ x. kind_of x ≡ held.ObjectId) (scalar_meaning scalar.now)
        result }
{
    match scalar {
        Scalar::ObjectId(id) => Some(*id),
        _ => None,
    }
}

/// The reference type that a field holds; None where it holds something else.
pub(crate) fn type_in(scalar: &Scalar) -> Option<ReferenceTypeId>
    ensures { ReadAs (λ id. ReferenceType id.0) (λ x. kind_of x ≡ held.ReferenceTypeId)
        (scalar_meaning scalar.now) result }
{
    match scalar {
        Scalar::ReferenceTypeId(id) => Some(*id),
        _ => None,
    }
}

/// The id of a field of a type that a field holds; None where it holds something else.
pub(crate) fn field_in(scalar: &Scalar) -> Option<FieldId>
    ensures { ReadAs (λ id. OfField id.0) (λ x. kind_of x ≡ held.FieldId) (scalar_meaning scalar.now)
        result }
{
    match scalar {
        Scalar::FieldId(id) => Some(*id),
        _ => None,
    }
}

/// The location that a field holds; None where it holds something else.
pub(crate) fn location_in(scalar: &Scalar) -> Option<Location>
    ensures { ReadAs (λ place. Located place) (λ x. kind_of x ≡ held.Location)
        (scalar_meaning scalar.now) result }
{
    match scalar {
        Scalar::Location(location) => Some(*location),
        _ => None,
    }
}

/// The object with its tag that a field holds; None where it holds something else.
pub(crate) fn tagged_in(scalar: &Scalar) -> Option<TaggedId>
    ensures { ReadAs (λ tagged. Tagged tagged) (λ x. kind_of x ≡ held.TaggedId)
        (scalar_meaning scalar.now) result }
{
    match scalar {
        Scalar::TaggedId(tagged) => Some(*tagged),
        _ => None,
    }
}

/// The value that a field holds; None where it holds something else.
pub(crate) fn value_in(scalar: &Scalar) -> Option<Value>
    ensures { ReadAs (λ value. Valued value) (λ x. kind_of x ≡ held.Value) (scalar_meaning scalar.now)
        result }
{
    match scalar {
        Scalar::Value(value) => Some(*value),
        _ => None,
    }
}
