//! Locations (JDWP specification, "Data Types": location).
ghost use Rattle.std.specs.Prelude.{◌≡◌, ◌≤◌, ◌+◌, length, take, OnOk, IfOk, IfErr, vec_len, vec_capacity};
ghost use Rattle.std.specs.Result.{IsErrOf};
ghost use Rattle.jdwp_wire.specs.declared.data_fault.DataFault.TheVariants.{NoMemory};
ghost use Rattle.jdwp_wire.specs.Reading.{Gives};
ghost use Rattle.jdwp_wire.specs.Writing.{Appends, LeavesInFront, HasRoom};
ghost use Rattle.jdwp_value.specs.declared.location.Location.{Location};
ghost use Rattle.jdwp_value.specs.Locations.{EncodesLocation, location_canonical, location_refusal, LocationFault, type_tag_byte, location_at};
ghost use Rattle.jdwp_value.specs.LocationLaws.{location_codes, location_unrefused};

use crate::id::{MethodId, ReferenceTypeId};
use jdwp_wire::number::{put_long, take_byte, take_number};
use jdwp_wire::{DataFault, IdKind, IdSizes, Width, Wire, all_or_nothing};
use std::alloc::Global;

/// What declares a method (JDWP specification, "TypeTag Constants").
#[derive(Clone, Copy, Debug, PartialEq, Eq)]
pub enum TypeTag {
    /// 1
    Class,
    /// 2
    Interface,
    /// 3
    Array,
}

impl TypeTag {
    /// The byte of the tag, 1 to 3.
    pub fn byte(self) -> u8
        ensures { result ≡ type_tag_byte self }
    {
        match self {
            TypeTag::Class => 1,
            TypeTag::Interface => 2,
            TypeTag::Array => 3,
        }
    }
}

/// A place in a method, or none.
#[derive(Clone, Copy, Debug, PartialEq, Eq)]
pub enum Location {
    /// No place: all bytes are zero.
    Null,
    /// A place in the code of a method.
    At {
        /// What declares the method: a class, an interface or an array type.
        tag: TypeTag,
        /// The type that declares it.
        class: ReferenceTypeId,
        /// The method.
        method: MethodId,
        /// The code index, from 0.
        index: u64,
    },
}

/// A type tag, the ids of a class and a method, and an unsigned index of 8 bytes.
///
/// A tag above 3 is `BadTag` once its byte is there. Tag 0 is the null location alone: other bytes that are not
/// zero are `BadTag` once all are there.
impl Wire for Location {
    ghost Meaning = { Location };

    ghost meaning = { λ location. location };

    ghost encodes = { EncodesLocation };

    ghost canonical = { location_canonical };

    ghost refusal = { location_refusal };

    ghost faults = { LocationFault };

    ghost decoded = { location_at };

    ghost takes_memory = { λ _ _. ⊥ };

    fn size(&self, sizes: &IdSizes) -> Option<usize> {
        Some(9 + sizes.reference() as usize + sizes.method() as usize)
    }

    fn put(&self, sizes: &IdSizes, output: &mut Vec<u8>) -> Result<(), DataFault> {
        let before = output.len();
        let done = put_parts(self, sizes, output);
        all_or_nothing(done, before, output)
    }

    fn take_front<'a>(
        _alloc: Global,
        rest: &'a [u8],
        whole: usize,
        sizes: &IdSizes,
    ) -> Result<(Location, &'a [u8]), DataFault> {
        take_location(rest, whole, sizes)
    }

    fn pass_front<'a>(
        rest: &'a [u8],
        whole: usize,
        sizes: &IdSizes,
    ) -> Result<&'a [u8], DataFault> {
        let (_location, rest) = take_location(rest, whole, sizes)?;
        Ok(rest)
    }

    ghost found = { λ w whole. (location_codes w whole).found };

    ghost again = { λ w whole. (location_codes w whole).again };

    ghost blamed = { λ w whole. (location_codes w whole).blamed };

    ghost judged = { λ w whole. (location_codes w whole).judged };

    ghost unrefused = { location_unrefused };
}

/// The location at the front of the rest of a slice of `whole` bytes, and what follows it.
fn take_location<'a>(
    rest: &'a [u8],
    whole: usize,
    sizes: &IdSizes,
) -> Result<(Location, &'a [u8]), DataFault>
    ensures value { Gives (λ x. (x.0, x.1.now)) result (location_at sizes.now whole rest.now) }
    ensures shorter { IfOk result (λ x. length x.1.now ≤ length rest.now) }
    ensures memory { IsErrOf result NoMemory → ⊥ }
{
    let (tag, rest) = take_byte(rest, whole)?;
    if tag > 3 {
        return Err(DataFault::BadTag);
    }
    let (class, rest) = take_number(rest, whole, sizes.width(IdKind::ReferenceType))?;
    let (method, rest) = take_number(rest, whole, sizes.width(IdKind::Method))?;
    let (index, rest) = take_number(rest, whole, Width::LONG)?;
    let tag = match tag {
        0 => {
            if class == 0 && (method == 0 && index == 0) {
                return Ok((Location::Null, rest));
            }
            return Err(DataFault::BadTag);
        }
        1 => TypeTag::Class,
        2 => TypeTag::Interface,
        _ => TypeTag::Array,
    };
    let location = Location::At {
        tag,
        class: ReferenceTypeId(class),
        method: MethodId(method),
        index,
    };
    Ok((location, rest))
}

/// Appends the parts, and may stop on the way.
fn put_parts(location: &Location, sizes: &IdSizes, output: &mut Vec<u8>) -> Result<(), DataFault>
    ensures ok { Appends (EncodesLocation sizes.now) (location_canonical sizes.now) location.now
        result output.old output.new }
    ensures err { LeavesInFront (location_refusal sizes.now location.now)
        result output.old output.new }
    ensures room { HasRoom (location_canonical sizes.now location.now) output.old
        → IsErrOf result NoMemory → ⊥ }
    ensures capacity { vec_capacity output.old ≤ vec_capacity output.new }
{
    let (tag, class, method, index) = match *location {
        Location::Null => (0, ReferenceTypeId(0), MethodId(0), 0),
        Location::At {
            tag,
            class,
            method,
            index,
        } => (tag.byte(), class, method, index),
    };
    output.push(tag)?;
    class.put(sizes, output)?;
    method.put(sizes, output)?;
    put_long(index, output)
}
