//! The version of the program.
ghost use Rattle.std.specs.Prelude.{None};
ghost use Rattle.jdwp_program.specs.Captures.{Tells};
ghost use Rattle.jdwp_program.specs.Outputs.{LeavesTold};
ghost use Rattle.jdwp_program.specs.Version.{version_line};

use crate::captures::{TellFault, Told, tell};
use std::io::Write;

/// The program's version.
pub const VERSION: &str = "0.1.0";

/// The program's name and version, as they are told.
const LINE: &str = "jdwp 0.1.0\n";

/// Tells the program's name and version in a line.
///
/// # Errors
/// `Output` where the output didn't take all of it.
pub fn tell_version<O: Write>(out: &mut O) -> Result<Told, TellFault>
    ensures tells { Tells None version_line (O.contents out.old) (O.contents out.new) result }
    // The same by the exit status.
    ensures leaves { LeavesTold result (O.contents out.old) (O.contents out.new) }
{
    tell(out, LINE, None)
}
