//! A type of one's own that packets carry, made of what `jdwp_wire` has: the first and the last code index of a method
//! (JDWP specification, "Method": LineTable).
ghost use Rattle.std.specs.Prelude.{◌≡◌, ◌≤◌, ℕ, ◌++◌, None, length, IfOk, refl};
ghost use Rattle.std.specs.Result.{IsErrOf};
ghost use Rattle.byteorder.specs.Endian.{big_bytes};
ghost use Rattle.jdwp_wire.specs.declared.data_fault.DataFault.TheVariants.{NoMemory};
ghost use Rattle.jdwp_wire.specs.Reading.{Gives};
ghost use Rattle.jdwp_wire.specs.Sequence.{seq, Then, FirstFault, mapped, Made};
ghost use Rattle.jdwp_wire.specs.Numbers.{EncodesNumber, NumberFault, number_at};
ghost use Rattle.jdwp_wire.specs.NumberLaws.{number_codes};
ghost use Rattle.jdwp_wire.specs.Codes.{seq_codes, mapped_codes};

use jdwp_wire::number::{put_long, take_number};
use jdwp_wire::{DataFault, IdSizes, Width, Wire, all_or_nothing};
use std::alloc::Global;

/// The code indexes of a method.
#[derive(Clone, Copy, Debug, PartialEq, Eq)]
pub struct CodeRange {
    /// The first code index.
    pub first: u64,
    /// The last.
    pub last: u64,
}

impl Wire for CodeRange {
    ghost Meaning = { ℕ × ℕ };

    ghost meaning = { λ range. (range.first, range.last) };

    ghost encodes = { λ _. Then (EncodesNumber 8)
        (λ first. Made (λ (last : ℕ). (first, last)) (EncodesNumber 8)) };

    ghost canonical = { λ _ range. big_bytes 8 range.0 ++ big_bytes 8 range.1 };

    ghost refusal = { λ _ _. None };

    ghost faults = { λ _ whole. FirstFault (EncodesNumber 8) (NumberFault 8 whole)
        (λ _. NumberFault 8 whole) };

    ghost decoded = { λ _ whole. seq (number_at 8 whole)
        (λ first. mapped (λ (last : ℕ). (first, last)) (number_at 8 whole)) };

    ghost takes_memory = { λ _ _. ⊥ };

    fn size(&self, _sizes: &IdSizes) -> Option<usize> {
        Some(16)
    }

    fn put(&self, _sizes: &IdSizes, output: &mut Vec<u8>) -> Result<(), DataFault> {
        let before = output.len();
        put_long(self.first, output)?;
        let done = put_long(self.last, output);
        all_or_nothing(done, before, output)
    }

    fn take_front<'a>(
        _alloc: Global,
        rest: &'a [u8],
        whole: usize,
        _sizes: &IdSizes,
    ) -> Result<(CodeRange, &'a [u8]), DataFault> {
        take_range(rest, whole)
    }

    fn pass_front<'a>(
        rest: &'a [u8],
        whole: usize,
        _sizes: &IdSizes,
    ) -> Result<&'a [u8], DataFault> {
        let (_range, rest) = take_range(rest, whole)?;
        Ok(rest)
    }

    ghost found = { λ _ whole. (seq_codes (number_codes 8 whole)
        (λ first. mapped_codes (λ (last : ℕ). (first, last)) (number_codes 8 whole))).found };

    ghost again = { λ _ whole. (seq_codes (number_codes 8 whole)
        (λ first. mapped_codes (λ (last : ℕ). (first, last)) (number_codes 8 whole))).again };

    ghost blamed = { λ _ whole. (seq_codes (number_codes 8 whole)
        (λ first. mapped_codes (λ (last : ℕ). (first, last)) (number_codes 8 whole))).blamed };

    ghost judged = { λ _ whole. (seq_codes (number_codes 8 whole)
        (λ first. mapped_codes (λ (last : ℕ). (first, last)) (number_codes 8 whole))).judged };

    ghost unrefused = { λ _ _ _ _. refl };
}

fn take_range(rest: &[u8], whole: usize) -> Result<(CodeRange, &[u8]), DataFault>
    ensures value { Gives (λ x. ((x.0.first, x.0.last), x.1.now)) result
        (seq {B = ℕ × ℕ} (number_at 8 whole)
        (λ first. mapped (λ (last : ℕ). (first, last)) (number_at 8 whole)) rest.now) }
    ensures shorter { IfOk result (λ x. length x.1.now ≤ length rest.now) }
    ensures memory { IsErrOf result NoMemory → ⊥ }
{
    let (first, rest) = take_number(rest, whole, Width::LONG)?;
    let (last, rest) = take_number(rest, whole, Width::LONG)?;
    Ok((CodeRange { first, last }, rest))
}
