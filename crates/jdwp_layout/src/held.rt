//! The types of what fields hold.
ghost use Rattle.std.specs.Prelude.{◌≡◌, ℕ, List, refl};
ghost use Rattle.std.specs.String.{string_bytes};
ghost use Rattle.jdwp_wire.specs.Sequence.{mapped};
ghost use Rattle.jdwp_wire.specs.Widths.{Widths};
ghost use Rattle.jdwp_layout.specs.declared.item.Field.{Field};
ghost use Rattle.jdwp_layout.specs.declared.item.Field.TheVariants as field;
ghost use Rattle.jdwp_layout.specs.Keeping.{FieldIsKept};
ghost use Rattle.jdwp_layout.specs.Meanings.{ScalarMeaning, scalar_meaning, Byte, Boolean, Int, Long, Text, Object, ReferenceType, Method, OfField, Frame, Located, Valued, Tagged};
ghost use Rattle.jdwp_layout.specs.Reads.{field_at};

use crate::datum::Scalar;
use jdwp_value::{
    FieldId, FrameId, Location, MethodId, ObjectId, ReferenceTypeId, TaggedId, Value,
};
use jdwp_wire::Wire;

/// A type of what a field holds.
pub(crate) trait Held: Wire {
    /// The field that holds such values.
    ghost of_field: { Field };

    /// What the field holds with this value.
    ghost held: { Self → ScalarMeaning };

    /// The scalar that holds the value.
    fn into_scalar(self) -> Scalar
        ensures { scalar_meaning result ≡ held self };

    /// The field is read as the value is.
    ghost reads: { (hold : Self.Wire.Meaning → ScalarMeaning)
        × ((x : Self) → hold (Self.Wire.meaning x) ≡ held x)
        × ((w : Widths) (whole : ℕ) (bytes : List ℕ)
        → mapped hold (Self.Wire.decoded w whole) bytes ≡ field_at w whole of_field bytes) };

    /// The field is kept in memory where the value is.
    ghost keeps: { (w : Widths) (bytes : List ℕ)
        → Self.Wire.takes_memory w bytes → FieldIsKept of_field bytes };
}

impl Held for u8 {
    ghost of_field = { field.Byte };

    ghost held = { λ n. Byte n };

    fn into_scalar(self) -> Scalar {
        Scalar::Byte(self)
    }

    ghost reads = { (λ n. Byte n, λ _. refl, λ _ _ _. refl) };

    ghost keeps = { λ _ _ kept. kept };
}

impl Held for bool {
    ghost of_field = { field.Boolean };

    ghost held = { λ b. Boolean b };

    fn into_scalar(self) -> Scalar {
        Scalar::Boolean(self)
    }

    ghost reads = { (λ b. Boolean b, λ _. refl, λ _ _ _. refl) };

    ghost keeps = { λ _ _ kept. kept };
}

impl Held for i32 {
    ghost of_field = { field.Int };

    ghost held = { λ z. Int z };

    fn into_scalar(self) -> Scalar {
        Scalar::Int(self)
    }

    ghost reads = { (λ z. Int z, λ _. refl, λ _ _ _. refl) };

    ghost keeps = { λ _ _ kept. kept };
}

impl Held for i64 {
    ghost of_field = { field.Long };

    ghost held = { λ z. Long z };

    fn into_scalar(self) -> Scalar {
        Scalar::Long(self)
    }

    ghost reads = { (λ z. Long z, λ _. refl, λ _ _ _. refl) };

    ghost keeps = { λ _ _ kept. kept };
}

impl Held for String {
    ghost of_field = { field.String };

    ghost held = { λ s. Text (string_bytes s) };

    fn into_scalar(self) -> Scalar {
        Scalar::String(self)
    }

    ghost reads = { (λ s. Text s, λ _. refl, λ _ _ _. refl) };

    ghost keeps = { λ _ _ kept. kept };
}

impl Held for ObjectId {
    ghost of_field = { field.ObjectId };

    ghost held = { λ n. Object n.0 };

    fn into_scalar(self) -> Scalar {
        Scalar::ObjectId(self)
    }

    ghost reads = { (λ n. Object n, λ _. refl, λ _ _ _. refl) };

    ghost keeps = { λ _ _ kept. kept };
}

impl Held for ReferenceTypeId {
    ghost of_field = { field.ReferenceTypeId };

    ghost held = { λ n. ReferenceType n.0 };

    fn into_scalar(self) -> Scalar {
        Scalar::ReferenceTypeId(self)
    }

    ghost reads = { (λ n. ReferenceType n, λ _. refl, λ _ _ _. refl) };

    ghost keeps = { λ _ _ kept. kept };
}

impl Held for MethodId {
    ghost of_field = { field.MethodId };

    ghost held = { λ n. Method n.0 };

    fn into_scalar(self) -> Scalar {
        Scalar::MethodId(self)
    }

    ghost reads = { (λ n. Method n, λ _. refl, λ _ _ _. refl) };

    ghost keeps = { λ _ _ kept. kept };
}

impl Held for FieldId {
    ghost of_field = { field.FieldId };

    ghost held = { λ n. OfField n.0 };

    fn into_scalar(self) -> Scalar {
        Scalar::FieldId(self)
    }

    ghost reads = { (λ n. OfField n, λ _. refl, λ _ _ _. refl) };

    ghost keeps = { λ _ _ kept. kept };
}

impl Held for FrameId {
    ghost of_field = { field.FrameId };

    ghost held = { λ n. Frame n.0 };

    fn into_scalar(self) -> Scalar {
        Scalar::FrameId(self)
    }

    ghost reads = { (λ n. Frame n, λ _. refl, λ _ _ _. refl) };

    ghost keeps = { λ _ _ kept. kept };
}

impl Held for Location {
    ghost of_field = { field.Location };

    ghost held = { λ p. Located p };

    fn into_scalar(self) -> Scalar {
        Scalar::Location(self)
    }

    ghost reads = { (λ p. Located p, λ _. refl, λ _ _ _. refl) };

    ghost keeps = { λ _ _ kept. kept };
}

impl Held for Value {
    ghost of_field = { field.Value };

    ghost held = { λ v. Valued v };

    fn into_scalar(self) -> Scalar {
        Scalar::Value(self)
    }

    ghost reads = { (λ v. Valued v, λ _. refl, λ _ _ _. refl) };

    ghost keeps = { λ _ _ kept. kept };
}

impl Held for TaggedId {
    ghost of_field = { field.TaggedId };

    ghost held = { λ t. Tagged t };

    fn into_scalar(self) -> Scalar {
        Scalar::TaggedId(self)
    }

    ghost reads = { (λ t. Tagged t, λ _. refl, λ _ _ _. refl) };

    ghost keeps = { λ _ _ kept. kept };
}
