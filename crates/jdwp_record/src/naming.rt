//! The names of the files that sessions are recorded in.
ghost use Rattle.std.specs.Prelude.{◌≡◌, ◌++◌, IfOk, codes, decimal};
ghost use Rattle.std.specs.String.{string_bytes};
ghost use Rattle.jdwp_record.specs.Naming.{name_of};

use std::alloc::{AllocError, Global};

/// The name of the file of the session of this number, counted from 1: the first has the name itself, and the others have their number behind
/// a dot behind it, as `FILE.2`.
pub fn file_name(alloc: Global, to: &str, number: u32) -> Result<String, AllocError>
    ensures { IfOk result (λ name. string_bytes name ≡ name_of to.now number) }
{
    if number == 1 {
        return String::from_str(alloc, to);
    }
    numbered(alloc, to, number)
}

/// The name with this number behind a dot behind it.
fn numbered(alloc: Global, to: &str, number: u32) -> Result<String, AllocError>
    ensures { IfOk result (λ name. string_bytes name ≡ to.now ++ codes "." ++ decimal number) }
{
    let mut name = String::from_str(alloc, to)?;
    write!(name, ".{number}")?;
    Ok(name)
}
