//! Lists at the front of a text.

use crate::fields::read_entry;
use crate::numbers::{after, after_separator};
use crate::text_fault::{Expected, Stop};
use crate::values::{element, tag};
use jdwp_layout::{Entry, Scalar};
use jdwp_value::{ArrayRegion, Tag, Value};
use std::alloc::Global;

/// The entries of a list behind its opening bracket, and what follows the closing one.
pub(crate) fn read_entries(
    alloc: Global,
    entry: Entry,
    bytes: &[u8],
) -> Result<(Vec<Vec<Scalar>>, &[u8]), Stop> {
    match after(bytes, b']') {
        Some(rest) => Ok((Vec::new(alloc), rest)),
        None => read_more_entries(alloc, entry, bytes, bytes.len()),
    }
}

/// At least one entry and at most so many, and what follows the closing bracket.
fn read_more_entries(
    alloc: Global,
    entry: Entry,
    bytes: &[u8],
    most: usize,
) -> Result<(Vec<Vec<Scalar>>, &[u8]), Stop> {
    let mut held = Vec::new(alloc);
    let mut rest = bytes;
    for _ in 0..most {
        let (scalars, behind) = read_entry(alloc, entry, rest)?;
        held.push(scalars)?;
        if let Some(end) = after(behind, b']') {
            return Ok((held, end));
        }
        let Some(next) = after_separator(behind) else {
            return Err(Stop::Expected(behind.len(), Expected::ListEnd));
        };
        rest = next;
    }
    Err(Stop::Expected(rest.len(), Expected::ListEnd))
}

/// The array region in front, and what follows it.
pub(crate) fn read_region(alloc: Global, bytes: &[u8]) -> Result<(ArrayRegion, &[u8]), Stop> {
    let wrong = Stop::Expected(bytes.len(), Expected::Region);
    let Some((tag, rest)) = tag(bytes) else {
        return Err(wrong);
    };
    let Some(rest) = after(rest, b'[') else {
        return Err(wrong);
    };
    let (elements, rest) = read_elements(alloc, tag, rest)?;
    match ArrayRegion::new(tag, elements) {
        Some(region) => Ok((region, rest)),
        None => Err(wrong),
    }
}

/// The elements of a region behind its opening bracket, and what follows the closing one.
fn read_elements(alloc: Global, tag: Tag, bytes: &[u8]) -> Result<(Vec<Value>, &[u8]), Stop> {
    match after(bytes, b']') {
        Some(rest) => Ok((Vec::new(alloc), rest)),
        None => read_more_elements(alloc, tag, bytes, bytes.len()),
    }
}

/// At least one element and at most so many, and what follows the closing bracket.
fn read_more_elements(
    alloc: Global,
    tag: Tag,
    bytes: &[u8],
    most: usize,
) -> Result<(Vec<Value>, &[u8]), Stop> {
    let mut held = Vec::new(alloc);
    let mut rest = bytes;
    for _ in 0..most {
        let Some((value, behind)) = element(tag, rest) else {
            return Err(Stop::Expected(rest.len(), Expected::Element));
        };
        held.push(value)?;
        if let Some(end) = after(behind, b']') {
            return Ok((held, end));
        }
        let Some(next) = after_separator(behind) else {
            return Err(Stop::Expected(behind.len(), Expected::ListEnd));
        };
        rest = next;
    }
    Err(Stop::Expected(rest.len(), Expected::ListEnd))
}
