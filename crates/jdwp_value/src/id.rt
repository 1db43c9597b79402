//! Ids, each kind of its own width (JDWP specification, "Data Types": objectID, referenceTypeID, methodID, fieldID, frameID).
ghost use Rattle.std.specs.Prelude.{ℕ};
ghost use Rattle.byteorder.specs.Endian.{big_bytes};
ghost use Rattle.jdwp_wire.specs.Numbers.{EncodesNumber, NumberFault, number_at, id_refusal};
ghost use Rattle.jdwp_wire.specs.NumberLaws.{number_codes, id_unrefused};

use jdwp_wire::number::{pass_bytes, put_number, take_number};
use jdwp_wire::{DataFault, IdKind, IdSizes, Wire};
use std::alloc::Global;

/// An object id: an object, and so a thread, thread group, string, class loader or class object; 0 is null.
#[derive(Clone, Copy, Debug, PartialEq, Eq, PartialOrd, Ord, Hash)]
pub struct ObjectId(pub u64);

impl Wire for ObjectId {
    ghost Meaning = { ℕ };

    ghost meaning = { λ id. id.0 };

    ghost encodes = { λ w. EncodesNumber w.object };

    ghost canonical = { λ w. big_bytes w.object };

    ghost refusal = { λ w. id_refusal w.object };

    ghost faults = { λ w. NumberFault w.object };

    ghost decoded = { λ w. number_at w.object };

    ghost takes_memory = { λ _ _. ⊥ };

    fn size(&self, sizes: &IdSizes) -> Option<usize> {
        Some(sizes.object() as usize)
    }

    fn put(&self, sizes: &IdSizes, output: &mut Vec<u8>) -> Result<(), DataFault> {
        put_number(self.0, sizes.width(IdKind::Object), output)
    }

    fn take_front<'a>(
        _alloc: Global,
        rest: &'a [u8],
        whole: usize,
        sizes: &IdSizes,
    ) -> Result<(ObjectId, &'a [u8]), DataFault> {
        let (id, rest) = take_number(rest, whole, sizes.width(IdKind::Object))?;
        Ok((ObjectId(id), rest))
    }

    fn pass_front<'a>(
        rest: &'a [u8],
        whole: usize,
        sizes: &IdSizes,
    ) -> Result<&'a [u8], DataFault> {
        pass_bytes(rest, whole, sizes.object() as usize)
    }

    ghost found = { λ w whole. (number_codes w.object whole).found };

    ghost again = { λ w whole. (number_codes w.object whole).again };

    ghost blamed = { λ w whole. (number_codes w.object whole).blamed };

    ghost judged = { λ w whole. (number_codes w.object whole).judged };

    ghost unrefused = { λ w. id_unrefused w.object };
}

/// A reference type id: a class, an interface or an array type.
#[derive(Clone, Copy, Debug, PartialEq, Eq, PartialOrd, Ord, Hash)]
pub struct ReferenceTypeId(pub u64);

impl Wire for ReferenceTypeId {
    ghost Meaning = { ℕ };

    ghost meaning = { λ id. id.0 };

    ghost encodes = { λ w. EncodesNumber w.reference };

    ghost canonical = { λ w. big_bytes w.reference };

    ghost refusal = { λ w. id_refusal w.reference };

    ghost faults = { λ w. NumberFault w.reference };

    ghost decoded = { λ w. number_at w.reference };

    ghost takes_memory = { λ _ _. ⊥ };

    fn size(&self, sizes: &IdSizes) -> Option<usize> {
        Some(sizes.reference() as usize)
    }

    fn put(&self, sizes: &IdSizes, output: &mut Vec<u8>) -> Result<(), DataFault> {
        put_number(self.0, sizes.width(IdKind::ReferenceType), output)
    }

    fn take_front<'a>(
        _alloc: Global,
        rest: &'a [u8],
        whole: usize,
        sizes: &IdSizes,
    ) -> Result<(ReferenceTypeId, &'a [u8]), DataFault> {
        let (id, rest) = take_number(rest, whole, sizes.width(IdKind::ReferenceType))?;
        Ok((ReferenceTypeId(id), rest))
    }

    fn pass_front<'a>(
        rest: &'a [u8],
        whole: usize,
        sizes: &IdSizes,
    ) -> Result<&'a [u8], DataFault> {
        pass_bytes(rest, whole, sizes.reference() as usize)
    }

    ghost found = { λ w whole. (number_codes w.reference whole).found };

    ghost again = { λ w whole. (number_codes w.reference whole).again };

    ghost blamed = { λ w whole. (number_codes w.reference whole).blamed };

    ghost judged = { λ w whole. (number_codes w.reference whole).judged };

    ghost unrefused = { λ w. id_unrefused w.reference };
}

/// A method id, of one reference type.
#[derive(Clone, Copy, Debug, PartialEq, Eq, PartialOrd, Ord, Hash)]
pub struct MethodId(pub u64);

impl Wire for MethodId {
    ghost Meaning = { ℕ };

    ghost meaning = { λ id. id.0 };

    ghost encodes = { λ w. EncodesNumber w.method };

    ghost canonical = { λ w. big_bytes w.method };

    ghost refusal = { λ w. id_refusal w.method };

    ghost faults = { λ w. NumberFault w.method };

    ghost decoded = { λ w. number_at w.method };

    ghost takes_memory = { λ _ _. ⊥ };

    fn size(&self, sizes: &IdSizes) -> Option<usize> {
        Some(sizes.method() as usize)
    }

    fn put(&self, sizes: &IdSizes, output: &mut Vec<u8>) -> Result<(), DataFault> {
        put_number(self.0, sizes.width(IdKind::Method), output)
    }

    fn take_front<'a>(
        _alloc: Global,
        rest: &'a [u8],
        whole: usize,
        sizes: &IdSizes,
    ) -> Result<(MethodId, &'a [u8]), DataFault> {
        let (id, rest) = take_number(rest, whole, sizes.width(IdKind::Method))?;
        Ok((MethodId(id), rest))
    }

    fn pass_front<'a>(
        rest: &'a [u8],
        whole: usize,
        sizes: &IdSizes,
    ) -> Result<&'a [u8], DataFault> {
        pass_bytes(rest, whole, sizes.method() as usize)
    }

    ghost found = { λ w whole. (number_codes w.method whole).found };

    ghost again = { λ w whole. (number_codes w.method whole).again };

    ghost blamed = { λ w whole. (number_codes w.method whole).blamed };

    ghost judged = { λ w whole. (number_codes w.method whole).judged };

    ghost unrefused = { λ w. id_unrefused w.method };
}

/// A field id, of one reference type.
#[derive(Clone, Copy, Debug, PartialEq, Eq, PartialOrd, Ord, Hash)]
pub struct FieldId(pub u64);

impl Wire for FieldId {
    ghost Meaning = { ℕ };

    ghost meaning = { λ id. id.0 };

    ghost encodes = { λ w. EncodesNumber w.field };

    ghost canonical = { λ w. big_bytes w.field };

    ghost refusal = { λ w. id_refusal w.field };

    ghost faults = { λ w. NumberFault w.field };

    ghost decoded = { λ w. number_at w.field };

    ghost takes_memory = { λ _ _. ⊥ };

    fn size(&self, sizes: &IdSizes) -> Option<usize> {
        Some(sizes.field() as usize)
    }

    fn put(&self, sizes: &IdSizes, output: &mut Vec<u8>) -> Result<(), DataFault> {
        put_number(self.0, sizes.width(IdKind::Field), output)
    }

    fn take_front<'a>(
        _alloc: Global,
        rest: &'a [u8],
        whole: usize,
        sizes: &IdSizes,
    ) -> Result<(FieldId, &'a [u8]), DataFault> {
        let (id, rest) = take_number(rest, whole, sizes.width(IdKind::Field))?;
        Ok((FieldId(id), rest))
    }

    fn pass_front<'a>(
        rest: &'a [u8],
        whole: usize,
        sizes: &IdSizes,
    ) -> Result<&'a [u8], DataFault> {
        pass_bytes(rest, whole, sizes.field() as usize)
    }

    ghost found = { λ w whole. (number_codes w.field whole).found };

    ghost again = { λ w whole. (number_codes w.field whole).again };

    ghost blamed = { λ w whole. (number_codes w.field whole).blamed };

    ghost judged = { λ w whole. (number_codes w.field whole).judged };

    ghost unrefused = { λ w. id_unrefused w.field };
}

/// A frame id, of one thread.
#[derive(Clone, Copy, Debug, PartialEq, Eq, PartialOrd, Ord, Hash)]
pub struct FrameId(pub u64);

impl Wire for FrameId {
    ghost Meaning = { ℕ };

    ghost meaning = { λ id. id.0 };

    ghost encodes = { λ w. EncodesNumber w.frame };

    ghost canonical = { λ w. big_bytes w.frame };

    ghost refusal = { λ w. id_refusal w.frame };

    ghost faults = { λ w. NumberFault w.frame };

    ghost decoded = { λ w. number_at w.frame };

    ghost takes_memory = { λ _ _. ⊥ };

    fn size(&self, sizes: &IdSizes) -> Option<usize> {
        Some(sizes.frame() as usize)
    }

    fn put(&self, sizes: &IdSizes, output: &mut Vec<u8>) -> Result<(), DataFault> {
        put_number(self.0, sizes.width(IdKind::Frame), output)
    }

    fn take_front<'a>(
        _alloc: Global,
        rest: &'a [u8],
        whole: usize,
        sizes: &IdSizes,
    ) -> Result<(FrameId, &'a [u8]), DataFault> {
        let (id, rest) = take_number(rest, whole, sizes.width(IdKind::Frame))?;
        Ok((FrameId(id), rest))
    }

    fn pass_front<'a>(
        rest: &'a [u8],
        whole: usize,
        sizes: &IdSizes,
    ) -> Result<&'a [u8], DataFault> {
        pass_bytes(rest, whole, sizes.frame() as usize)
    }

    ghost found = { λ w whole. (number_codes w.frame whole).found };

    ghost again = { λ w whole. (number_codes w.frame whole).again };

    ghost blamed = { λ w whole. (number_codes w.frame whole).blamed };

    ghost judged = { λ w whole. (number_codes w.frame whole).judged };

    ghost unrefused = { λ w. id_unrefused w.frame };
}
