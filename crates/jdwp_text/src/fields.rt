//! Fields and entries at the front of a text.

use crate::numbers::{after, after_separator, id, int, long, number};
use crate::strings::read_string;
use crate::text_fault::{Expected, Stop};
use crate::values::{location, tagged, value};
use jdwp_layout::{Entry, Field, Scalar, fields_of_event, fields_of_modifier};
use jdwp_value::{FieldId, FrameId, MethodId, ObjectId, ReferenceTypeId};
use std::alloc::Global;

/// What the field in front holds, and what follows it.
pub(crate) fn read_field(
    alloc: Global,
    field: Field,
    bytes: &[u8],
) -> Result<(Scalar, &[u8]), Stop> {
    if is_string(field) {
        let (string, rest) = read_string(alloc, bytes)?;
        return Ok((Scalar::String(string), rest));
    }
    match plain(field, bytes) {
        Some((scalar, rest)) => Ok((scalar, rest)),
        None => Err(Stop::Expected(bytes.len(), Expected::of(field))),
    }
}

fn is_string(field: Field) -> bool {
    match field {
        Field::String => true,
        _ => false,
    }
}

/// What the field in front holds, where it is no string, and what follows it.
fn plain(field: Field, bytes: &[u8]) -> Option<(Scalar, &[u8])> {
    match field {
        Field::Byte => {
            let (byte, rest) = number(bytes, 0xff)?;
            Some((Scalar::Byte(byte as u8), rest))
        }
        Field::Boolean => {
            let (truth, rest) = boolean(bytes)?;
            Some((Scalar::Boolean(truth), rest))
        }
        Field::Int => {
            let (number, rest) = int(bytes)?;
            Some((Scalar::Int(number), rest))
        }
        Field::Long => {
            let (number, rest) = long(bytes)?;
            Some((Scalar::Long(number), rest))
        }
        Field::String => None,
        Field::Location => {
            let (location, rest) = location(bytes)?;
            Some((Scalar::Location(location), rest))
        }
        Field::Value => {
            let (value, rest) = value(bytes)?;
            Some((Scalar::Value(value), rest))
        }
        Field::TaggedId => {
            let (tagged, rest) = tagged(bytes)?;
            Some((Scalar::TaggedId(tagged), rest))
        }
        Field::ObjectId => {
            let (id, rest) = id(bytes)?;
            Some((Scalar::ObjectId(ObjectId(id)), rest))
        }
        Field::ReferenceTypeId => {
            let (id, rest) = id(bytes)?;
            Some((Scalar::ReferenceTypeId(ReferenceTypeId(id)), rest))
        }
        Field::MethodId => {
            let (id, rest) = id(bytes)?;
            Some((Scalar::MethodId(MethodId(id)), rest))
        }
        Field::FieldId => {
            let (id, rest) = id(bytes)?;
            Some((Scalar::FieldId(FieldId(id)), rest))
        }
        Field::FrameId => {
            let (id, rest) = id(bytes)?;
            Some((Scalar::FrameId(FrameId(id)), rest))
        }
    }
}

/// `true` or `false` in front, and what follows it.
fn boolean(bytes: &[u8]) -> Option<(bool, &[u8])> {
    if let Some(rest) = after_true(bytes) {
        return Some((true, rest));
    }
    let rest = after_false(bytes)?;
    Some((false, rest))
}

/// What follows `true`.
fn after_true(bytes: &[u8]) -> Option<&[u8]> {
    let rest = after(bytes, b't')?;
    let rest = after(rest, b'r')?;
    let rest = after(rest, b'u')?;
    after(rest, b'e')
}

/// What follows `false`.
fn after_false(bytes: &[u8]) -> Option<&[u8]> {
    let rest = after(bytes, b'f')?;
    let rest = after(rest, b'a')?;
    let rest = after(rest, b'l')?;
    let rest = after(rest, b's')?;
    after(rest, b'e')
}

/// What the entry in front holds, and what follows it.
pub(crate) fn read_entry(
    alloc: Global,
    entry: Entry,
    bytes: &[u8],
) -> Result<(Vec<Scalar>, &[u8]), Stop> {
    match entry {
        Entry::Fields(fields) => read_fields(alloc, fields, bytes),
        Entry::Modifier => read_modifier(alloc, bytes),
        Entry::Event => read_event(alloc, bytes),
    }
}

/// What an entry of these fields holds.
fn read_fields<'a>(
    alloc: Global,
    fields: &[Field],
    bytes: &'a [u8],
) -> Result<(Vec<Scalar>, &'a [u8]), Stop> {
    match fields {
        [] => {
            let rest = expect(bytes, b'(', Expected::Entry)?;
            let rest = expect(rest, b')', Expected::EntryEnd)?;
            Ok((Vec::new(alloc), rest))
        }
        [first, others @ ..] => {
            if others.is_empty() {
                return read_one(alloc, *first, bytes);
            }
            read_several(alloc, *first, others, bytes)
        }
    }
}

/// What follows this byte, or what was expected in its place.
pub(crate) fn expect(bytes: &[u8], byte: u8, expected: Expected) -> Result<&[u8], Stop> {
    match after(bytes, byte) {
        Some(rest) => Ok(rest),
        None => Err(Stop::Expected(bytes.len(), expected)),
    }
}

/// What an entry of one field holds.
fn read_one(alloc: Global, field: Field, bytes: &[u8]) -> Result<(Vec<Scalar>, &[u8]), Stop> {
    let (scalar, rest) = read_field(alloc, field, bytes)?;
    let mut held = Vec::new(alloc);
    held.push(scalar)?;
    Ok((held, rest))
}

/// What an entry of several fields holds.
fn read_several<'a>(
    alloc: Global,
    first: Field,
    others: &[Field],
    bytes: &'a [u8],
) -> Result<(Vec<Scalar>, &'a [u8]), Stop> {
    let rest = expect(bytes, b'(', Expected::Entry)?;
    let (scalar, rest) = read_field(alloc, first, rest)?;
    read_others(alloc, scalar, others, rest)
}

/// What a modifier holds.
fn read_modifier(alloc: Global, bytes: &[u8]) -> Result<(Vec<Scalar>, &[u8]), Stop> {
    let (kind, rest) = read_kind(bytes)?;
    match fields_of_modifier(kind) {
        Some(fields) => read_others(alloc, Scalar::Byte(kind), fields, rest),
        None => Err(Stop::Expected(bytes.len(), Expected::Kind)),
    }
}

/// What an event holds.
fn read_event(alloc: Global, bytes: &[u8]) -> Result<(Vec<Scalar>, &[u8]), Stop> {
    let (kind, rest) = read_kind(bytes)?;
    match fields_of_event(kind) {
        Some(fields) => read_others(alloc, Scalar::Byte(kind), fields, rest),
        None => Err(Stop::Expected(bytes.len(), Expected::Kind)),
    }
}

/// The opening bracket and the number of a kind.
fn read_kind(bytes: &[u8]) -> Result<(u8, &[u8]), Stop> {
    let rest = expect(bytes, b'(', Expected::Entry)?;
    match number(rest, 0xff) {
        Some((kind, rest)) => Ok((kind as u8, rest)),
        None => Err(Stop::Expected(rest.len(), Expected::Kind)),
    }
}

/// What an entry holds of which the first scalar was read: that, and behind it the others.
fn read_others<'a>(
    alloc: Global,
    first: Scalar,
    fields: &[Field],
    bytes: &'a [u8],
) -> Result<(Vec<Scalar>, &'a [u8]), Stop> {
    let mut held = Vec::new(alloc);
    held.push(first)?;
    let rest = push_fields(alloc, fields, &mut held, bytes)?;
    let rest = expect(rest, b')', Expected::EntryEnd)?;
    Ok((held, rest))
}

/// Reads these fields, each behind `, `, and appends what they hold.
fn push_fields<'a>(
    alloc: Global,
    fields: &[Field],
    held: &mut Vec<Scalar>,
    bytes: &'a [u8],
) -> Result<&'a [u8], Stop> {
    let mut rest = bytes;
    for field in fields {
        let (scalar, behind) = read_separated(alloc, *field, rest)?;
        held.push(scalar)?;
        rest = behind;
    }
    Ok(rest)
}

/// What the field behind `, ` holds, and what follows it.
fn read_separated(alloc: Global, field: Field, bytes: &[u8]) -> Result<(Scalar, &[u8]), Stop> {
    let Some(rest) = after_separator(bytes) else {
        return Err(Stop::Expected(bytes.len(), Expected::Separator));
    };
    read_field(alloc, field, rest)
}
