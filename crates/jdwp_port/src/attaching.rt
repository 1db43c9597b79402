//! A session of a debugger at a port.
ghost use Rattle.std.specs.Prelude.{◌≡◌, IfErr, IfOk, OnErr};
ghost use Rattle.jdwp_attach.specs.PlanRuns.{ended_of};
ghost use Rattle.jdwp_port.specs.Attached.{IsAttached};
ghost use Rattle.jdwp_port.specs.Connections.{FailsOnlyLost};
ghost use Rattle.jdwp_port.specs.Faults.{IsOf};

use crate::connection::{AtPort, address, close, halves};
use crate::faults::PortFault;
use jdwp_attach::{Attached, PlanLine, attach_by_lines};
use jdwp_debugger::Debugger;
use jdwp_end::Pipe;
use std::alloc::Global;
use std::io::{Read, Write};
use std::net::{Net, OpenStream};
use std::rt::Clock;

/// A connection to this port of 127.0.0.1.
///
/// # Errors
/// `Port` where it can't be reached: `Refused` where nobody listens; `NoMemory`.
pub fn connect<R: Net>(net: &R, port: u16) -> Result<R::Stream, PortFault>
    ensures { IfErr result (IsOf port) }
{
    match net.connect(address(port)) {
        Ok(stream) => Ok(stream),
        Err(error) => Err(PortFault::of_port(port, error)),
    }
}

/// Runs the debugger by the plan on a connection at this port for one session, for at most so many turns, as `attach_by_lines` does,
/// prints on `out`, and closes the connection. The other end can read all that was written, unless the session was lost, if it reads on. Where
/// the session was lost since the connection failed, why it did is told.
///
/// # Errors
/// `Port` where the system gives no second half of the connection; `NoMemory` where there is none for its buffer. The debugger is as it was,
/// and nothing was printed.
pub fn attach_stream<S, W, C>(
    alloc: Global,
    clock: &C,
    debugger: &mut Debugger,
    port: u16,
    stream: S,
    plan: &[PlanLine],
    out: &mut W,
    turns: u64,
) -> Result<AtPort<Attached>, PortFault>
where
    S: Read + Write + OpenStream + Drop,
    W: Pipe,
    C: Clock,
    ensures ran { IfOk result (λ session. IsAttached plan.now turns debugger.old
        (W.story out.old) session.how debugger.new (W.story out.new)) }
    ensures failure { IfOk result (λ session. FailsOnlyLost (ended_of session.how)
        session.failure) }
    ensures err { IfErr result (IsOf port) }
    ensures untouched { OnErr result (debugger.new ≡ debugger.old) }
    ensures unprinted { OnErr result (out.new ≡ out.old) }
{
    let mut pipe = match halves(alloc, stream) {
        Ok(pipe) => pipe,
        Err(error) => return Err(PortFault::of_port(port, error)),
    };
    let how = attach_by_lines(alloc, debugger, &mut pipe, plan, out, turns);
    let failure = close(clock, pipe, how.ended());
    Ok(AtPort { how, failure })
}
