//! Strings at the front of a text.
ghost use Rattle.std.specs.Prelude.{◌<◌, IfSome};

use crate::numbers::after;
use crate::text_fault::{Expected, Stop};
use std::alloc::Global;

/// The string between double quotes in front, and what follows it.
pub(crate) fn read_string(alloc: Global, bytes: &[u8]) -> Result<(String, &[u8]), Stop> {
    let Some(rest) = after(bytes, b'"') else {
        return Err(Stop::Expected(bytes.len(), Expected::Text));
    };
    let (held, rest) = read_quoted(alloc, rest)?;
    match String::from_utf8(held) {
        Ok(string) => Ok((string, rest)),
        Err(_) => Err(Stop::Expected(bytes.len(), Expected::Text)),
    }
}

/// What stands before the closing quote, and what follows it.
fn read_quoted(alloc: Global, bytes: &[u8]) -> Result<(Vec<u8>, &[u8]), Stop> {
    read_pieces(alloc, bytes, bytes.len())
}

/// The same, where at most so many bytes stand before the quote.
fn read_pieces(alloc: Global, bytes: &[u8], most: usize) -> Result<(Vec<u8>, &[u8]), Stop> {
    let mut held = Vec::new(alloc);
    let mut rest = bytes;
    for _ in 0..most {
        let (piece, behind) = read_piece(rest)?;
        let Some(byte) = piece else {
            return Ok((held, behind));
        };
        held.push(byte)?;
        rest = behind;
    }
    Err(Stop::Expected(rest.len(), Expected::Quote))
}

/// One byte of a string, or none at the closing quote, and what follows it.
fn read_piece(bytes: &[u8]) -> Result<(Option<u8>, &[u8]), Stop> {
    match bytes {
        [] => Err(Stop::Expected(0, Expected::Quote)),
        [first, rest @ ..] => {
            if *first == b'"' {
                return Ok((None, rest));
            }
            if *first != b'\\' {
                return Ok((Some(*first), rest));
            }
            match escaped(rest) {
                Some((byte, rest)) => Ok((Some(byte), rest)),
                None => Err(Stop::Expected(bytes.len(), Expected::Escape)),
            }
        }
    }
}

/// The byte that a double quote, a backslash, or `x` and two hex digits behind a backslash stand for, and what follows them.
fn escaped(bytes: &[u8]) -> Option<(u8, &[u8])> {
    match bytes {
        [] => None,
        [first, rest @ ..] => {
            if *first == b'"' || *first == b'\\' {
                Some((*first, rest))
            } else if *first == b'x' {
                hex(rest)
            } else {
                None
            }
        }
    }
}

/// The byte of two hex digits, and what follows them.
fn hex(bytes: &[u8]) -> Option<(u8, &[u8])> {
    match bytes {
        [] => None,
        [_] => None,
        [high, low, rest @ ..] => {
            let high = hex_value(*high)?;
            let low = hex_value(*low)?;
            Some((high * 16 + low, rest))
        }
    }
}

/// The value of `0` to `9` and `a` to `f`.
fn hex_value(digit: u8) -> Option<u8>
    ensures small { IfSome result (λ v. v < 16) }
{
    match digit {
        b'0'..=b'9' => Some(digit - b'0'),
        b'a'..=b'f' => Some(digit - b'a' + 10),
        _ => None,
    }
}
