//! Data: what stands in a packet under a layout.
ghost use Rattle.std.specs.Prelude.{◌≡◌, IfOk};
ghost use Rattle.jdwp_layout.specs.Meanings.{datum_meaning, entry_meaning, entry_meanings, meanings, scalar_meaning, scalar_meanings};

use jdwp_value::{
    ArrayRegion, FieldId, FrameId, Location, MethodId, ObjectId, ReferenceTypeId, TaggedId, Value,
};
use jdwp_wire::NoMemory;
use std::alloc::Global;

/// What a field holds.
#[derive(Debug, PartialEq, Drop)]
pub enum Scalar {
    Byte(u8),
    Boolean(bool),
    Int(i32),
    Long(i64),
    String(String),
    ObjectId(ObjectId),
    ReferenceTypeId(ReferenceTypeId),
    MethodId(MethodId),
    FieldId(FieldId),
    FrameId(FrameId),
    Location(Location),
    Value(Value),
    TaggedId(TaggedId),
}

/// What an item holds.
#[derive(Debug, PartialEq, Drop)]
pub enum Datum {
    /// What one field holds.
    One(Scalar),
    /// The entries of a list, each with what its fields hold. An entry that is a modifier or an event begins with its
    /// kind as a byte.
    Many(Vec<Vec<Scalar>>),
    /// An array region.
    Region(ArrayRegion),
    /// Data that are not read, as they are: alone in the answer to a command whose data are not read. No layout has such
    /// an item.
    Raw(Vec<u8>),
}

impl Scalar {
    /// Another one that holds the same.
    ///
    /// # Errors
    /// `NoMemory` where an allocation was refused.
    pub fn copied(&self, alloc: Global) -> Result<Scalar, NoMemory>
        ensures { IfOk result (λ copy. scalar_meaning copy ≡ scalar_meaning self.now) }
    {
        let copy = match self {
            Scalar::String(text) => Scalar::String(String::from_str(alloc, text)?),
            Scalar::Byte(byte) => Scalar::Byte(*byte),
            Scalar::Boolean(boolean) => Scalar::Boolean(*boolean),
            Scalar::Int(int) => Scalar::Int(*int),
            Scalar::Long(long) => Scalar::Long(*long),
            Scalar::ObjectId(id) => Scalar::ObjectId(*id),
            Scalar::ReferenceTypeId(id) => Scalar::ReferenceTypeId(*id),
            Scalar::MethodId(id) => Scalar::MethodId(*id),
            Scalar::FieldId(id) => Scalar::FieldId(*id),
            Scalar::FrameId(id) => Scalar::FrameId(*id),
            Scalar::Location(location) => Scalar::Location(*location),
            Scalar::Value(value) => Scalar::Value(*value),
            Scalar::TaggedId(tagged) => Scalar::TaggedId(*tagged),
        };
        Ok(copy)
    }
}

impl Datum {
    /// Another one that holds the same.
    ///
    /// # Errors
    /// `NoMemory` where an allocation was refused.
    pub fn copied(&self, alloc: Global) -> Result<Datum, NoMemory>
        ensures { IfOk result (λ copy. datum_meaning copy ≡ datum_meaning self.now) }
    {
        let copy = match self {
            Datum::One(scalar) => Datum::One(scalar.copied(alloc)?),
            Datum::Many(entries) => Datum::Many(copy_entries(alloc, entries)?),
            Datum::Region(region) => Datum::Region(region.copied(alloc)?),
            Datum::Raw(bytes) => Datum::Raw(Vec::from_slice(alloc, bytes)?),
        };
        Ok(copy)
    }
}

/// Other items that hold the same.
pub(crate) fn copy_items(alloc: Global, items: &[Datum]) -> Result<Vec<Datum>, NoMemory>
    ensures { IfOk result (λ copy. meanings copy.items ≡ meanings items.now) }
{
    let mut copy = Vec::with_capacity(alloc, items.len())?;
    for item in items {
        copy.push_reserved(item.copied(alloc)?);
    }
    Ok(copy)
}

fn copy_entries(alloc: Global, entries: &[Vec<Scalar>]) -> Result<Vec<Vec<Scalar>>, NoMemory>
    ensures { IfOk result (λ copy. entry_meanings copy.items ≡ entry_meanings entries.now) }
{
    let mut copy = Vec::with_capacity(alloc, entries.len())?;
    for entry in entries {
        copy.push_reserved(copy_entry(alloc, entry)?);
    }
    Ok(copy)
}

/// Another entry whose fields hold the same.
///
/// # Errors
/// `NoMemory` where an allocation was refused.
pub fn copy_entry(alloc: Global, entry: &[Scalar]) -> Result<Vec<Scalar>, NoMemory>
    ensures { IfOk result (λ copy. entry_meaning copy ≡ scalar_meanings entry.now) }
{
    let mut copy = Vec::with_capacity(alloc, entry.len())?;
    for field in entry {
        copy.push_reserved(field.copied(alloc)?);
    }
    Ok(copy)
}
