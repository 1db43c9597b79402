//! Appending several things, all of them or none.
ghost use Rattle.std.specs.Prelude.{◌≡◌, take, OnOk, IfErr, vec_capacity};

use crate::data_fault::DataFault;

/// What a writing answered that began behind the first `before` bytes. Where it was refused, all behind these is taken off
/// again, and else the vector stays as it is.
///
/// # Errors
/// That of the writing.
pub fn all_or_nothing(
    done: Result<(), DataFault>,
    before: usize,
    output: &mut Vec<u8>,
) -> Result<(), DataFault>
    ensures same { result ≡ done }
    ensures ok { OnOk result (output.new ≡ output.old) }
    ensures err { IfErr result (λ _. output.new.items ≡ take before output.old.items) }
    ensures capacity { vec_capacity output.new ≡ vec_capacity output.old }
{
    if done.is_err() {
        output.truncate(before);
    }
    done
}
