//! Numbers and data in a line.
ghost use Rattle.std.specs.Prelude.{◌≡◌, ◌^◌};
ghost use Rattle.jdwp_attach.specs.Lines.{number_of, data_of};
ghost use Rattle.jdwp_attach.specs.PlanLines.{Gives, bytes_of};

use crate::plans::plan_fault::{LineFault, Refusal};
use hex::FromHexError;
use std::alloc::Global;

/// A decimal number from 0 to 255, of digits alone.
pub(crate) fn byte_number(text: &str) -> Option<u8>
    ensures { result ≡ number_of (2 ^ 8) text.now }
{
    if text.as_bytes().first() == Some(&b'+') {
        return None;
    }
    text.parse::<u8>().ok()
}

/// A decimal number below 2^32, of digits alone.
pub(crate) fn word_number(text: &str) -> Option<u32>
    ensures { result ≡ number_of (2 ^ 32) text.now }
{
    if text.as_bytes().first() == Some(&b'+') {
        return None;
    }
    text.parse::<u32>().ok()
}

/// The bytes of hex digits.
///
/// # Errors
/// `OddDigits` and `Digits`, or want of memory.
pub(crate) fn data(alloc: Global, digits: &str) -> Result<Vec<u8>, Refusal>
    ensures { Gives bytes_of result (data_of digits.now) }
{
    match hex::decode(alloc, digits.as_bytes()) {
        Ok(bytes) => Ok(bytes),
        Err(FromHexError::OutOfMemory) => Err(Refusal::NoMemory),
        Err(FromHexError::OddLength) => Err(Refusal::Fault(LineFault::OddDigits)),
        Err(_) => Err(Refusal::Fault(LineFault::Digits)),
    }
}
