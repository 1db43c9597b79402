//! What data are as bytes (JDWP specification, "Data Types").
ghost use Rattle.std.specs.Prelude.{◌≡◌, ℕ, ◌≤◌, ◌++◌, List, length, take, Result, Ok, Err, Option, Some, None, OnOk, IfOk, IfErr, ◌+◌, vec_len, vec_capacity};
ghost use Rattle.std.specs.Result.{IsErrOf};
ghost use Rattle.jdwp_wire.specs.declared.data_fault.DataFault.TheVariants.{NoMemory};
ghost use Rattle.jdwp_wire.specs.declared.data_fault.DataFault.{DataFault};
ghost use Rattle.jdwp_wire.specs.Widths.{Widths};
ghost use Rattle.jdwp_wire.specs.Bytes.{IsBytes};
ghost use Rattle.jdwp_wire.specs.Reading.{Gives, Takes, Blames, used, passed, in_usize, Written, Refused};

use crate::data_fault::DataFault;
use crate::id_sizes::IdSizes;
use std::alloc::Global;

/// A value that packets carry.
///
/// `encodes` says which bytes are the value: mostly one list of bytes, but for a boolean, where each byte other
/// than 0 is true. `canonical` is the one that is written. `faults` says which fault is the first in bytes that
/// begin with no value. The laws, below, tie `decoded`, which computes what is read, to both.
pub trait Wire: Sized {
    /// What the value is, apart from where it lies in memory.
    ghost Meaning: { Type 0 };

    ghost meaning: { Self → Meaning };

    /// These bytes encode the value.
    ghost encodes: { Widths → Meaning → List ℕ → Type 0 };

    /// The bytes that are written for the value.
    ghost canonical: { Widths → Meaning → List ℕ };

    /// Why the value can't be written, if it can't: the first item from the left decides.
    ghost refusal: { Widths → Meaning → Option DataFault };

    /// At the front of these bytes, the rest of a slice of so many, this fault is the first from the left.
    ghost faults: { Widths → ℕ → List ℕ → DataFault → Type 0 };

    /// The value at the front of the rest of a slice of so many bytes, and what follows it; or the first fault.
    ghost decoded: { Widths → ℕ → List ℕ → Result (Meaning × List ℕ) DataFault };

    /// At the front of these bytes stands something that has to be kept in memory.
    ghost takes_memory: { Widths → List ℕ → Type 0 };

    /// How many bytes the value takes, whether or not `put` would refuse it; None past `usize`.
    fn size(&self, sizes: &IdSizes) -> Option<usize>
        ensures { result ≡ in_usize (length (canonical sizes.now (meaning self.now))) };

    /// Appends the value.
    ///
    /// # Errors
    /// The refusal of the first item from the left that can't be written: `IdTooWide` for an id that its width
    /// does not hold, `BadSize` for a length or count above 2,147,483,647. `NoMemory` where the vector was to grow
    /// and an allocation was refused, and never where its spare room holds `size`. After an error the vector's
    /// bytes are as they were.
    fn put(&self, sizes: &IdSizes, output: &mut Vec<u8>) -> Result<(), DataFault>
        ensures ok { OnOk result (Written (encodes sizes.now (meaning self.now))
            (canonical sizes.now (meaning self.now)) output.old.items output.new.items) }
        ensures err { IfErr result (λ e. (output.new.items ≡ output.old.items)
            × Refused e (refusal sizes.now (meaning self.now))) }
        ensures room { vec_len output.old + length (canonical sizes.now (meaning self.now))
            ≤ vec_capacity output.old → IsErrOf result NoMemory → ⊥ }
        ensures capacity { vec_capacity output.old ≤ vec_capacity output.new };

    /// The value at the front of the rest of a slice of `whole` bytes, and what follows it.
    ///
    /// # Errors
    /// The first fault from the left. The place of `Short` is `whole`.
    fn take_front<'a>(
        alloc: Global,
        rest: &'a [u8],
        whole: usize,
        sizes: &IdSizes,
    ) -> Result<(Self, &'a [u8]), DataFault>
        ensures value { Gives (λ x. (meaning x.0, x.1.now)) result
            (decoded sizes.now whole rest.now) }
        ensures shorter { IfOk result (λ x. length x.1.now ≤ length rest.now) }
        ensures memory { IsErrOf result NoMemory → takes_memory sizes.now rest.now };

    /// What follows the value at the front of the rest of a slice of `whole` bytes. Nothing of the value is kept, so it
    /// takes no memory.
    ///
    /// # Errors
    /// The first fault from the left. The place of `Short` is `whole`.
    fn pass_front<'a>(rest: &'a [u8], whole: usize, sizes: &IdSizes) -> Result<&'a [u8], DataFault>
        ensures value { Gives (λ after. after.now) result
            (passed (decoded sizes.now whole rest.now)) }
        ensures memory { IsErrOf result NoMemory → ⊥ };

    /// The value at the front of the bytes, and how many it takes. What follows is not looked at.
    ///
    /// # Errors
    /// The first fault from the left: `Short` with the length of the slice, `BadTag`, `NegativeCount` or `NotUtf8`;
    /// `NoMemory` where an allocation was refused, and only where something stands in front that has to be kept: a
    /// string of at least one byte, or a region of at least one element.
    final fn take(alloc: Global, bytes: &[u8], sizes: &IdSizes) -> Result<(Self, usize), DataFault>
        ensures found { IfOk result (λ x. (x.1 ≤ length bytes.now)
            × encodes sizes.now (meaning x.0) (take x.1 bytes.now)) }
        ensures only { (x : Meaning) (n : ℕ) → n ≤ length bytes.now
            → encodes sizes.now x (take n bytes.now) → Takes meaning result x n }
        ensures fault { IfErr result
            (λ f. Blames (faults sizes.now (length bytes.now)) bytes.now f) }
        ensures value { Gives (λ x. (meaning x.0, x.1)) result
            (used (length bytes.now) (decoded sizes.now (length bytes.now) bytes.now)) }
        ensures memory { IsErrOf result NoMemory → takes_memory sizes.now bytes.now }
    {
        let (value, rest) = Self::take_front(alloc, bytes, bytes.len(), sizes)?;
        Ok((value, bytes.len() - rest.len()))
    }

    /// What is read is encoded in front.
    ghost found: { (w : Widths) (whole : ℕ) (bytes : List ℕ) (x : Meaning) (rest : List ℕ)
        → IsBytes bytes → decoded w whole bytes ≡ Ok (x, rest)
        → (code : List ℕ) × encodes w x code × (bytes ≡ code ++ rest) };

    /// What is encoded is read, whatever follows.
    ghost again: { (w : Widths) (whole : ℕ) (code : List ℕ) (x : Meaning) (rest : List ℕ)
        → encodes w x code → decoded w whole (code ++ rest) ≡ Ok (x, rest) };

    /// The fault that reading gives is the first.
    ghost blamed: { (w : Widths) (whole : ℕ) (bytes : List ℕ) (f : DataFault)
        → IsBytes bytes → decoded w whole bytes ≡ Err f → faults w whole bytes f };

    /// The first fault is what reading gives.
    ghost judged: { (w : Widths) (whole : ℕ) (bytes : List ℕ) (f : DataFault)
        → faults w whole bytes f → decoded w whole bytes ≡ Err f };

    /// What bytes encode is not refused.
    ghost unrefused: { (w : Widths) (code : List ℕ) (x : Meaning)
        → encodes w x code → refusal w x ≡ None };
}
