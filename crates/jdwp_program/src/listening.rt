//! That debuggers are awaited at a port.
ghost use Rattle.std.specs.Prelude.{◌≡◌, IfOk};
ghost use Rattle.std.specs.String.{string_bytes};
ghost use Rattle.jdwp_program.specs.Listening.{TellsListening, listening_line};
ghost use Rattle.jdwp_program.specs.Outputs.{LeavesListened};

use crate::captures::TellFault;
use crate::printing::print;
use std::alloc::{AllocError, Global};
use std::io::Write;

/// Tells that debuggers are awaited at this port, in the line that a Java machine prints.
///
/// # Errors
/// `Output` where the output didn't take all of it; `NoMemory`, and then nothing was printed.
pub fn tell_listening<O: Write>(alloc: Global, port: u16, out: &mut O) -> Result<(), TellFault>
    ensures tells { TellsListening port (O.contents out.old) (O.contents out.new) result }
    // The same by the exit status, whatever it comes to where all was printed.
    ensures leaves { LeavesListened result (O.contents out.old) (O.contents out.new) }
{
    let line = line_of(alloc, port)?;
    match print(out, line.as_str().as_bytes()).1 {
        Ok(()) => Ok(()),
        Err(error) => Err(TellFault::Output(error)),
    }
}

/// The line of this port.
fn line_of(alloc: Global, port: u16) -> Result<String, AllocError>
    ensures { IfOk result (λ line. string_bytes line ≡ listening_line port) }
{
    let mut line = String::new(alloc);
    writeln!(line, "Listening for transport dt_socket at address: {port}")?;
    Ok(line)
}
