//! Bytes, booleans, ints, longs and strings (JDWP specification, "Data Types").
ghost use Rattle.std.specs.Prelude.{◌≤◌, ℕ, ℤ, Bool, List, [], ◌∷◌, None, length, refl, IfOk};
ghost use Rattle.std.specs.Result.{IsErrOf};
ghost use Rattle.jdwp_wire.specs.declared.data_fault.DataFault.TheVariants.{NoMemory};
ghost use Rattle.jdwp_wire.specs.Reading.{Gives};
ghost use Rattle.std.specs.String.{string_bytes};
ghost use Rattle.jdwp_wire.specs.Numbers.{NumberFault};
ghost use Rattle.jdwp_wire.specs.Basic.{EncodesByte, ByteFault, byte_at, EncodesBool, bool_canonical, bool_at, EncodesInt, int_canonical, int_at, EncodesLong, long_canonical, long_at};
ghost use Rattle.jdwp_wire.specs.BasicLaws.{byte_codes, bool_codes, int_codes, long_codes};
ghost use Rattle.jdwp_wire.specs.Text.{EncodesText, TextFault, TextIsKept, text_canonical, text_at, text_refusal};
ghost use Rattle.jdwp_wire.specs.TextLaws.{text_codes, text_unrefused};

use crate::data_fault::DataFault;
use crate::id_sizes::IdSizes;
use crate::number::{pass_bytes, put_count, take_bool, take_byte, take_count};
use crate::wire::Wire;
use crate::writing::all_or_nothing;
use byteorder::{BigEndian, ByteOrder};
use std::alloc::Global;

/// How many bytes a boolean takes.
const BOOLEAN_SIZE: usize = 1;

/// A byte.
impl Wire for u8 {
    ghost Meaning = { ℕ };

    ghost meaning = { λ n. n };

    ghost encodes = { λ _. EncodesByte };

    ghost canonical = { λ _ n. n ∷ [] };

    ghost refusal = { λ _ _. None };

    ghost faults = { λ _. ByteFault };

    ghost decoded = { λ _. byte_at };

    ghost takes_memory = { λ _ _. ⊥ };

    fn size(&self, _sizes: &IdSizes) -> Option<usize> {
        Some(1)
    }

    fn put(&self, _sizes: &IdSizes, output: &mut Vec<u8>) -> Result<(), DataFault> {
        output.push(*self)?;
        Ok(())
    }

    fn take_front<'a>(
        _alloc: Global,
        rest: &'a [u8],
        whole: usize,
        _sizes: &IdSizes,
    ) -> Result<(u8, &'a [u8]), DataFault> {
        take_byte(rest, whole)
    }

    fn pass_front<'a>(
        rest: &'a [u8],
        whole: usize,
        _sizes: &IdSizes,
    ) -> Result<&'a [u8], DataFault> {
        pass_bytes(rest, whole, 1)
    }

    ghost found = { λ _ whole. (byte_codes whole).found };

    ghost again = { λ _ whole. (byte_codes whole).again };

    ghost blamed = { λ _ whole. (byte_codes whole).blamed };

    ghost judged = { λ _ whole. (byte_codes whole).judged };

    ghost unrefused = { λ _ _ _ _. refl };
}

/// A boolean: one byte, 0 for false, any other for true. True is written as 1.
impl Wire for bool {
    ghost Meaning = { Bool };

    ghost meaning = { λ b. b };

    ghost encodes = { λ _. EncodesBool };

    ghost canonical = { λ _. bool_canonical };

    ghost refusal = { λ _ _. None };

    ghost faults = { λ _. ByteFault };

    ghost decoded = { λ _. bool_at };

    ghost takes_memory = { λ _ _. ⊥ };

    fn size(&self, _sizes: &IdSizes) -> Option<usize> {
        Some(BOOLEAN_SIZE)
    }

    fn put(&self, _sizes: &IdSizes, output: &mut Vec<u8>) -> Result<(), DataFault> {
        output.push(if *self { 1 } else { 0 })?;
        Ok(())
    }

    fn take_front<'a>(
        _alloc: Global,
        rest: &'a [u8],
        whole: usize,
        _sizes: &IdSizes,
    ) -> Result<(bool, &'a [u8]), DataFault> {
        take_bool(rest, whole)
    }

    fn pass_front<'a>(
        rest: &'a [u8],
        whole: usize,
        _sizes: &IdSizes,
    ) -> Result<&'a [u8], DataFault> {
        pass_bytes(rest, whole, 1)
    }

    ghost found = { λ _ whole. (bool_codes whole).found };

    ghost again = { λ _ whole. (bool_codes whole).again };

    ghost blamed = { λ _ whole. (bool_codes whole).blamed };

    ghost judged = { λ _ whole. (bool_codes whole).judged };

    ghost unrefused = { λ _ _ _ _. refl };
}

/// An int: 4 bytes, signed.
impl Wire for i32 {
    ghost Meaning = { ℤ };

    ghost meaning = { λ z. z };

    ghost encodes = { λ _. EncodesInt };

    ghost canonical = { λ _. int_canonical };

    ghost refusal = { λ _ _. None };

    ghost faults = { λ _. NumberFault 4 };

    ghost decoded = { λ _. int_at };

    ghost takes_memory = { λ _ _. ⊥ };

    fn size(&self, _sizes: &IdSizes) -> Option<usize> {
        Some(4)
    }

    fn put(&self, _sizes: &IdSizes, output: &mut Vec<u8>) -> Result<(), DataFault> {
        let mut bytes = [0; 4];
        BigEndian::write_i32(&mut bytes, *self);
        output.extend_from_slice(&bytes)?;
        Ok(())
    }

    fn take_front<'a>(
        _alloc: Global,
        rest: &'a [u8],
        whole: usize,
        _sizes: &IdSizes,
    ) -> Result<(i32, &'a [u8]), DataFault> {
        if rest.len() < 4 {
            return Err(DataFault::Short(whole));
        }
        let number = BigEndian::read_i32(rest);
        Ok((number, &rest[4..]))
    }

    fn pass_front<'a>(
        rest: &'a [u8],
        whole: usize,
        _sizes: &IdSizes,
    ) -> Result<&'a [u8], DataFault> {
        pass_bytes(rest, whole, 4)
    }

    ghost found = { λ _ whole. (int_codes whole).found };

    ghost again = { λ _ whole. (int_codes whole).again };

    ghost blamed = { λ _ whole. (int_codes whole).blamed };

    ghost judged = { λ _ whole. (int_codes whole).judged };

    ghost unrefused = { λ _ _ _ _. refl };
}

/// A long: 8 bytes, signed.
impl Wire for i64 {
    ghost Meaning = { ℤ };

    ghost meaning = { λ z. z };

    ghost encodes = { λ _. EncodesLong };

    ghost canonical = { λ _. long_canonical };

    ghost refusal = { λ _ _. None };

    ghost faults = { λ _. NumberFault 8 };

    ghost decoded = { λ _. long_at };

    ghost takes_memory = { λ _ _. ⊥ };

    fn size(&self, _sizes: &IdSizes) -> Option<usize> {
        Some(8)
    }

    fn put(&self, _sizes: &IdSizes, output: &mut Vec<u8>) -> Result<(), DataFault> {
        let mut bytes = [0; 8];
        BigEndian::write_i64(&mut bytes, *self);
        output.extend_from_slice(&bytes)?;
        Ok(())
    }

    fn take_front<'a>(
        _alloc: Global,
        rest: &'a [u8],
        whole: usize,
        _sizes: &IdSizes,
    ) -> Result<(i64, &'a [u8]), DataFault> {
        if rest.len() < 8 {
            return Err(DataFault::Short(whole));
        }
        let number = BigEndian::read_i64(rest);
        Ok((number, &rest[8..]))
    }

    fn pass_front<'a>(
        rest: &'a [u8],
        whole: usize,
        _sizes: &IdSizes,
    ) -> Result<&'a [u8], DataFault> {
        pass_bytes(rest, whole, 8)
    }

    ghost found = { λ _ whole. (long_codes whole).found };

    ghost again = { λ _ whole. (long_codes whole).again };

    ghost blamed = { λ _ whole. (long_codes whole).blamed };

    ghost judged = { λ _ whole. (long_codes whole).judged };

    ghost unrefused = { λ _ _ _ _. refl };
}

/// A string: its length in bytes as an int, and its UTF-8.
impl Wire for String {
    ghost Meaning = { List ℕ };

    ghost meaning = { λ s. string_bytes s };

    ghost encodes = { λ _. EncodesText };

    ghost canonical = { λ _. text_canonical };

    ghost refusal = { λ _. text_refusal };

    ghost faults = { λ _. TextFault };

    ghost decoded = { λ _. text_at };

    ghost takes_memory = { λ _. TextIsKept };

    fn size(&self, _sizes: &IdSizes) -> Option<usize> {
        self.len().checked_add(4)
    }

    fn put(&self, _sizes: &IdSizes, output: &mut Vec<u8>) -> Result<(), DataFault> {
        let before = output.len();
        put_count(self.len(), output)?;
        let done = match output.extend_from_slice(self.as_bytes()) {
            Ok(()) => Ok(()),
            Err(_) => Err(DataFault::NoMemory),
        };
        all_or_nothing(done, before, output)
    }

    fn take_front<'a>(
        alloc: Global,
        rest: &'a [u8],
        whole: usize,
        _sizes: &IdSizes,
    ) -> Result<(String, &'a [u8]), DataFault> {
        let (text, after) = take_text(rest, whole)?;
        if text.is_empty() {
            return Ok((String::new(alloc), after));
        }
        Ok((String::from_str(alloc, text)?, after))
    }

    fn pass_front<'a>(
        rest: &'a [u8],
        whole: usize,
        _sizes: &IdSizes,
    ) -> Result<&'a [u8], DataFault> {
        let (_text, after) = take_text(rest, whole)?;
        Ok(after)
    }

    ghost found = { λ _ whole. (text_codes whole).found };

    ghost again = { λ _ whole. (text_codes whole).again };

    ghost blamed = { λ _ whole. (text_codes whole).blamed };

    ghost judged = { λ _ whole. (text_codes whole).judged };

    ghost unrefused = { λ _. text_unrefused };
}

/// The string at the front of the rest of a slice of `whole` bytes, where it lies, and what follows it.
fn take_text(rest: &[u8], whole: usize) -> Result<(&str, &[u8]), DataFault>
    ensures value { Gives (λ x. (x.0.now, x.1.now)) result (text_at whole rest.now) }
    ensures shorter { IfOk result (λ x. length x.1.now ≤ length rest.now) }
    ensures memory { IsErrOf result NoMemory → ⊥ }
{
    let (length, rest) = take_count(rest, whole)?;
    if rest.len() < length {
        return Err(DataFault::Short(whole));
    }
    let (text, after) = rest.split_at(length);
    match str::from_utf8(text) {
        Ok(text) => Ok((text, after)),
        Err(_) => Err(DataFault::NotUtf8),
    }
}
