//! What commands of the set ReferenceType are answered (JDWP specification, "ReferenceType").
ghost use Rattle.std.specs.Prelude.{[], ◌∷◌, refl};
ghost use Rattle.std.specs.String.{string_bytes};
ghost use Rattle.jdwp_layout.specs.declared.item.Field.TheVariants as held;
ghost use Rattle.jdwp_layout.specs.Shapes.{OneOf};
ghost use Rattle.jdwp_layout.specs.Meanings.{One, Byte, Int, Text, ReferenceType, Method, OfField};

use crate::fields::{Listed, Record, record_of};
use crate::reply::Reply;
use crate::rows::row_of;
use crate::table::reply_of;
use jdwp_layout::numbers::{
    FIELDS, FIELDS_WITH_GENERIC, METHODS, METHODS_WITH_GENERIC, OBJECT_REFERENCE, OBJECT_TYPE,
    REFERENCE_TYPE, SIGNATURE_WITH_GENERIC,
};
use jdwp_layout::{Datum, Layout, Scalar};
use jdwp_value::{FieldId, MethodId, ReferenceTypeId};
use jdwp_wire::NoMemory;
use std::alloc::Global;

/// A field, in what Fields is answered.
#[derive(Debug, PartialEq, Drop)]
pub struct FieldEntry {
    /// The field.
    pub id: FieldId,
    /// Its name.
    pub name: String,
    /// The JNI signature.
    pub signature: String,
    /// The modifier bits.
    pub modifiers: i32,
}

impl Record for FieldEntry {
    ghost kinds = { held.FieldId ∷ held.String ∷ held.String ∷ held.Int ∷ [] };

    ghost fields = { λ f. OfField f.id.0 ∷ Text (string_bytes f.name)
        ∷ Text (string_bytes f.signature) ∷ Int f.modifiers ∷ [] };

    fn of_fields(_alloc: Global, scalars: Vec<Scalar>) -> Option<FieldEntry> {
        match row_of(scalars) {
            Some((id, (name, (signature, (modifiers, ()))))) => Some(FieldEntry {
                id,
                name,
                signature,
                modifiers,
            }),
            None => None,
        }
    }

    ghost has = { λ f. refl };
}

impl Listed for FieldEntry {
    fn list() -> &'static Layout {
        reply_of(REFERENCE_TYPE, FIELDS)
    }
}

/// A field, in what FieldsWithGeneric is answered.
#[derive(Debug, PartialEq, Drop)]
pub struct GenericField {
    /// The field.
    pub id: FieldId,
    /// Its name.
    pub name: String,
    /// The JNI signature.
    pub signature: String,
    /// The generic signature; empty where there is none.
    pub generic_signature: String,
    /// The modifier bits.
    pub modifiers: i32,
}

impl Record for GenericField {
    ghost kinds = { held.FieldId ∷ held.String ∷ held.String ∷ held.String ∷ held.Int ∷ [] };

    ghost fields = { λ f. OfField f.id.0 ∷ Text (string_bytes f.name)
        ∷ Text (string_bytes f.signature) ∷ Text (string_bytes f.generic_signature)
        ∷ Int f.modifiers ∷ [] };

    fn of_fields(_alloc: Global, scalars: Vec<Scalar>) -> Option<GenericField> {
        match row_of(scalars) {
            Some((id, (name, (signature, (generic_signature, (modifiers, ())))))) => Some(
                GenericField {
                    id,
                    name,
                    signature,
                    generic_signature,
                    modifiers,
                },
            ),
            None => None,
        }
    }

    ghost has = { λ f. refl };
}

impl Listed for GenericField {
    fn list() -> &'static Layout {
        reply_of(REFERENCE_TYPE, FIELDS_WITH_GENERIC)
    }
}

/// A method, in what Methods is answered.
#[derive(Debug, PartialEq, Drop)]
pub struct MethodEntry {
    /// The method.
    pub id: MethodId,
    /// Its name.
    pub name: String,
    /// The JNI signature.
    pub signature: String,
    /// The modifier bits.
    pub modifiers: i32,
}

impl Record for MethodEntry {
    ghost kinds = { held.MethodId ∷ held.String ∷ held.String ∷ held.Int ∷ [] };

    ghost fields = { λ m. Method m.id.0 ∷ Text (string_bytes m.name)
        ∷ Text (string_bytes m.signature) ∷ Int m.modifiers ∷ [] };

    fn of_fields(_alloc: Global, scalars: Vec<Scalar>) -> Option<MethodEntry> {
        match row_of(scalars) {
            Some((id, (name, (signature, (modifiers, ()))))) => Some(MethodEntry {
                id,
                name,
                signature,
                modifiers,
            }),
            None => None,
        }
    }

    ghost has = { λ m. refl };
}

impl Listed for MethodEntry {
    fn list() -> &'static Layout {
        reply_of(REFERENCE_TYPE, METHODS)
    }
}

/// A method, in what MethodsWithGeneric is answered.
#[derive(Debug, PartialEq, Drop)]
pub struct GenericMethod {
    /// The method.
    pub id: MethodId,
    /// Its name.
    pub name: String,
    /// The JNI signature.
    pub signature: String,
    /// The generic signature; empty where there is none.
    pub generic_signature: String,
    /// The modifier bits.
    pub modifiers: i32,
}

impl Record for GenericMethod {
    ghost kinds = { held.MethodId ∷ held.String ∷ held.String ∷ held.String ∷ held.Int ∷ [] };

    ghost fields = { λ m. Method m.id.0 ∷ Text (string_bytes m.name)
        ∷ Text (string_bytes m.signature) ∷ Text (string_bytes m.generic_signature)
        ∷ Int m.modifiers ∷ [] };

    fn of_fields(_alloc: Global, scalars: Vec<Scalar>) -> Option<GenericMethod> {
        match row_of(scalars) {
            Some((id, (name, (signature, (generic_signature, (modifiers, ())))))) => Some(
                GenericMethod {
                    id,
                    name,
                    signature,
                    generic_signature,
                    modifiers,
                },
            ),
            None => None,
        }
    }

    ghost has = { λ m. refl };
}

impl Listed for GenericMethod {
    fn list() -> &'static Layout {
        reply_of(REFERENCE_TYPE, METHODS_WITH_GENERIC)
    }
}

/// What SignatureWithGeneric is answered.
#[derive(Debug, PartialEq, Drop)]
pub struct Signatures {
    /// The JNI signature.
    pub signature: String,
    /// The generic signature; empty where there is none.
    pub generic_signature: String,
}

impl Record for Signatures {
    ghost kinds = { held.String ∷ held.String ∷ [] };

    ghost fields = { λ s. Text (string_bytes s.signature) ∷ Text (string_bytes s.generic_signature)
        ∷ [] };

    fn of_fields(_alloc: Global, scalars: Vec<Scalar>) -> Option<Signatures> {
        match row_of(scalars) {
            Some((signature, (generic_signature, ()))) => Some(Signatures {
                signature,
                generic_signature,
            }),
            None => None,
        }
    }

    ghost has = { λ s. refl };
}

impl Reply for Signatures {
    ghost shape = { OneOf held.String ∷ OneOf held.String ∷ [] };

    ghost says = { λ s. One (Text (string_bytes s.signature))
        ∷ One (Text (string_bytes s.generic_signature)) ∷ [] };

    fn layout() -> &'static Layout {
        reply_of(REFERENCE_TYPE, SIGNATURE_WITH_GENERIC)
    }

    fn of_items(alloc: Global, items: Vec<Datum>) -> Result<Option<Signatures>, NoMemory> {
        record_of::<Signatures>(alloc, items)
    }

    ghost fits = { λ s. (refl, (refl, tt)) };
}

/// A reference type and what it is: what ReferenceType of the set ObjectReference is answered.
#[derive(Clone, Copy, Debug, PartialEq, Eq)]
pub struct TaggedType {
    /// Whether it is a class, 1, an interface, 2, or an array, 3.
    pub tag: u8,
    /// The reference type.
    pub id: ReferenceTypeId,
}

impl Record for TaggedType {
    ghost kinds = { held.Byte ∷ held.ReferenceTypeId ∷ [] };

    ghost fields = { λ t. Byte t.tag ∷ ReferenceType t.id.0 ∷ [] };

    fn of_fields(_alloc: Global, scalars: Vec<Scalar>) -> Option<TaggedType> {
        match row_of(scalars) {
            Some((tag, (id, ()))) => Some(TaggedType { tag, id }),
            None => None,
        }
    }

    ghost has = { λ t. refl };
}

impl Reply for TaggedType {
    ghost shape = { OneOf held.Byte ∷ OneOf held.ReferenceTypeId ∷ [] };

    ghost says = { λ t. One (Byte t.tag) ∷ One (ReferenceType t.id.0) ∷ [] };

    fn layout() -> &'static Layout {
        reply_of(OBJECT_REFERENCE, OBJECT_TYPE)
    }

    fn of_items(alloc: Global, items: Vec<Datum>) -> Result<Option<TaggedType>, NoMemory> {
        record_of::<TaggedType>(alloc, items)
    }

    ghost fits = { λ t. (refl, (refl, tt)) };
}
