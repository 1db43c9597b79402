//! What commands of the set VirtualMachine are answered (JDWP specification, "VirtualMachine").
ghost use Rattle.std.specs.Prelude.{[], ◌∷◌, refl};
ghost use Rattle.std.specs.String.{string_bytes};
ghost use Rattle.jdwp_layout.specs.declared.item.Field.TheVariants as held;
ghost use Rattle.jdwp_layout.specs.Shapes.{OneOf};
ghost use Rattle.jdwp_layout.specs.Meanings.{One, Byte, Int, Text, ReferenceType};

use crate::fields::{Listed, Record, record_of};
use crate::reply::Reply;
use crate::rows::row_of;
use crate::table::reply_of;
use jdwp_layout::numbers::{
    ALL_CLASSES, ALL_CLASSES_WITH_GENERIC, CLASSES_BY_SIGNATURE, ID_SIZES, VERSION, VIRTUAL_MACHINE,
};
use jdwp_layout::{Datum, Layout, Scalar};
use jdwp_value::ReferenceTypeId;
use jdwp_wire::NoMemory;
use std::alloc::Global;

/// What Version is answered.
#[derive(Debug, PartialEq, Drop)]
pub struct Version {
    /// What the machine says of itself.
    pub description: String,
    /// The major version of the protocol.
    pub major: i32,
    /// The minor version of the protocol.
    pub minor: i32,
    /// The version of the Java runtime, as its property `java.version`.
    pub vm_version: String,
    /// The name of the machine, as its property `java.vm.name`.
    pub vm_name: String,
}

impl Record for Version {
    ghost kinds = { held.String ∷ held.Int ∷ held.Int ∷ held.String ∷ held.String ∷ [] };

    ghost fields = { λ v. Text (string_bytes v.description) ∷ Int v.major ∷ Int v.minor
        ∷ Text (string_bytes v.vm_version) ∷ Text (string_bytes v.vm_name) ∷ [] };

    fn of_fields(_alloc: Global, scalars: Vec<Scalar>) -> Option<Version> {
        match row_of(scalars) {
            Some((description, (major, (minor, (vm_version, (vm_name, ())))))) => Some(Version {
                description,
                major,
                minor,
                vm_version,
                vm_name,
            }),
            None => None,
        }
    }

    ghost has = { λ v. refl };
}

impl Reply for Version {
    ghost shape = { OneOf held.String ∷ OneOf held.Int ∷ OneOf held.Int ∷ OneOf held.String
        ∷ OneOf held.String ∷ [] };

    ghost says = { λ v. One (Text (string_bytes v.description)) ∷ One (Int v.major)
        ∷ One (Int v.minor) ∷ One (Text (string_bytes v.vm_version))
        ∷ One (Text (string_bytes v.vm_name)) ∷ [] };

    fn layout() -> &'static Layout {
        reply_of(VIRTUAL_MACHINE, VERSION)
    }

    fn of_items(alloc: Global, items: Vec<Datum>) -> Result<Option<Version>, NoMemory> {
        record_of::<Version>(alloc, items)
    }

    ghost fits = { λ v. (refl, (refl, (refl, (refl, (refl, tt))))) };
}

/// What IDSizes is answered: how many bytes each kind of id takes, as it is told.
#[derive(Clone, Copy, Debug, PartialEq, Eq)]
pub struct SizesOfIds {
    /// Of the id of a field.
    pub field: i32,
    /// Of the id of a method.
    pub method: i32,
    /// Of the id of an object.
    pub object: i32,
    /// Of the id of a reference type.
    pub reference_type: i32,
    /// Of the id of a frame.
    pub frame: i32,
}

impl Record for SizesOfIds {
    ghost kinds = { held.Int ∷ held.Int ∷ held.Int ∷ held.Int ∷ held.Int ∷ [] };

    ghost fields = { λ s. Int s.field ∷ Int s.method ∷ Int s.object ∷ Int s.reference_type
        ∷ Int s.frame ∷ [] };

    fn of_fields(_alloc: Global, scalars: Vec<Scalar>) -> Option<SizesOfIds> {
        match row_of(scalars) {
            Some((field, (method, (object, (reference_type, (frame, ())))))) => Some(SizesOfIds {
                field,
                method,
                object,
                reference_type,
                frame,
            }),
            None => None,
        }
    }

    ghost has = { λ s. refl };
}

impl Reply for SizesOfIds {
    ghost shape = { OneOf held.Int ∷ OneOf held.Int ∷ OneOf held.Int ∷ OneOf held.Int
        ∷ OneOf held.Int ∷ [] };

    ghost says = { λ s. One (Int s.field) ∷ One (Int s.method) ∷ One (Int s.object)
        ∷ One (Int s.reference_type) ∷ One (Int s.frame) ∷ [] };

    fn layout() -> &'static Layout {
        reply_of(VIRTUAL_MACHINE, ID_SIZES)
    }

    fn of_items(alloc: Global, items: Vec<Datum>) -> Result<Option<SizesOfIds>, NoMemory> {
        record_of::<SizesOfIds>(alloc, items)
    }

    ghost fits = { λ s. (refl, (refl, (refl, (refl, (refl, tt))))) };
}

/// A class of this signature, in what ClassesBySignature is answered.
#[derive(Clone, Copy, Debug, PartialEq, Eq)]
pub struct ClassEntry {
    /// Whether it is a class, 1, an interface, 2, or an array, 3.
    pub tag: u8,
    /// The class.
    pub id: ReferenceTypeId,
    /// The status bits: 1 verified, 2 prepared, 4 initialized, 8 error.
    pub status: i32,
}

impl Record for ClassEntry {
    ghost kinds = { held.Byte ∷ held.ReferenceTypeId ∷ held.Int ∷ [] };

    ghost fields = { λ c. Byte c.tag ∷ ReferenceType c.id.0 ∷ Int c.status ∷ [] };

    fn of_fields(_alloc: Global, scalars: Vec<Scalar>) -> Option<ClassEntry> {
        match row_of(scalars) {
            Some((tag, (id, (status, ())))) => Some(ClassEntry { tag, id, status }),
            None => None,
        }
    }

    ghost has = { λ c. refl };
}

impl Listed for ClassEntry {
    fn list() -> &'static Layout {
        reply_of(VIRTUAL_MACHINE, CLASSES_BY_SIGNATURE)
    }
}

/// A class, in what AllClasses is answered.
#[derive(Debug, PartialEq, Drop)]
pub struct NamedClass {
    /// Whether it is a class, 1, an interface, 2, or an array, 3.
    pub tag: u8,
    /// The class.
    pub id: ReferenceTypeId,
    /// The JNI signature.
    pub signature: String,
    /// The status bits: 1 verified, 2 prepared, 4 initialized, 8 error.
    pub status: i32,
}

impl Record for NamedClass {
    ghost kinds = { held.Byte ∷ held.ReferenceTypeId ∷ held.String ∷ held.Int ∷ [] };

    ghost fields = { λ c. Byte c.tag ∷ ReferenceType c.id.0 ∷ Text (string_bytes c.signature)
        ∷ Int c.status ∷ [] };

    fn of_fields(_alloc: Global, scalars: Vec<Scalar>) -> Option<NamedClass> {
        match row_of(scalars) {
            Some((tag, (id, (signature, (status, ()))))) => Some(NamedClass {
                tag,
                id,
                signature,
                status,
            }),
            None => None,
        }
    }

    ghost has = { λ c. refl };
}

impl Listed for NamedClass {
    fn list() -> &'static Layout {
        reply_of(VIRTUAL_MACHINE, ALL_CLASSES)
    }
}

/// A class, in what AllClassesWithGeneric is answered.
#[derive(Debug, PartialEq, Drop)]
pub struct GenericClass {
    /// Whether it is a class, 1, an interface, 2, or an array, 3.
    pub tag: u8,
    /// The class.
    pub id: ReferenceTypeId,
    /// The JNI signature.
    pub signature: String,
    /// The generic signature; empty where there is none.
    pub generic_signature: String,
    /// The status bits: 1 verified, 2 prepared, 4 initialized, 8 error.
    pub status: i32,
}

impl Record for GenericClass {
    ghost kinds = { held.Byte ∷ held.ReferenceTypeId ∷ held.String ∷ held.String ∷ held.Int ∷ [] };

    ghost fields = { λ c. Byte c.tag ∷ ReferenceType c.id.0 ∷ Text (string_bytes c.signature)
        ∷ Text (string_bytes c.generic_signature) ∷ Int c.status ∷ [] };

    fn of_fields(_alloc: Global, scalars: Vec<Scalar>) -> Option<GenericClass> {
        match row_of(scalars) {
            Some((tag, (id, (signature, (generic_signature, (status, ())))))) => Some(
                GenericClass {
                    tag,
                    id,
                    signature,
                    generic_signature,
                    status,
                },
            ),
            None => None,
        }
    }

    ghost has = { λ c. refl };
}

impl Listed for GenericClass {
    fn list() -> &'static Layout {
        reply_of(VIRTUAL_MACHINE, ALL_CLASSES_WITH_GENERIC)
    }
}
