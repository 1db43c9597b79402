//! Sessions served over any reader and writer.
ghost use Rattle.std.specs.Prelude.{◌≡◌, ◌⊎◌, Ok, Err, IfOk, IfErr, OnErr};
ghost use Rattle.jdwp_script.specs.declared.fault.ScriptFault.TheVariants.{NoMemory};
ghost use Rattle.jdwp_script_machine.specs.Machines.{read_machine_as};
ghost use Rattle.jdwp_script_machine.specs.ScriptMeaning.{script_meaning};
ghost use Rattle.jdwp_script_machine.specs.States.{State};
ghost use Rattle.jdwp_end.specs.Streams.{story_of};
ghost use Rattle.jdwp_target.specs.Options.{LivesWithin};
ghost use Rattle.jdwp_engine.specs.Serving.{ServesNew};

use crate::serving::serve;
use jdwp_debuggee::Settings;
use jdwp_end::{Ended, Streams};
use jdwp_machine::Machine;
use jdwp_script::ScriptFault;
use jdwp_script_machine::ScriptMachine;
use jdwp_target::Target;
use std::alloc::Global;
use std::io::{Read, Write};

/// Serves one session of a new target over the machine of this script for at most so many rounds, as `serve` does. As many threads may
/// live at the beginning as the limits of the settings have live threads. Where `defer` says so the target defers the replies to commands of
/// the sets ReferenceType and Method, at most 16 at a time.
///
/// # Errors
/// The first fault of the script, or `NoMemory` where an allocation was refused; and then nothing was read or written.
pub fn serve_script<R: Read, W: Write>(
    alloc: Global,
    script: &str,
    settings: Settings,
    defer: bool,
    pipe: &mut Streams<R, W>,
    rounds: u32,
) -> Result<Ended, ScriptFault>
    ensures served { IfOk result (λ ended. (machine : State)
        × (read_machine_as settings.profile settings.limits.live script.now ≡ Ok machine)
        × ServesNew script_meaning settings defer machine rounds (story_of pipe.old)
        (story_of pipe.new) ended) }
    ensures fault { IfErr result (λ fault. (fault ≡ NoMemory)
        ⊎ (read_machine_as settings.profile settings.limits.live script.now ≡ Err fault)) }
    ensures untouched { OnErr result (pipe.new ≡ pipe.old) }
{
    let machine = ScriptMachine::read_as(alloc, settings.profile(), script, &settings.limits())?;
    Ok(serve_session(alloc, machine, settings, defer, pipe, rounds)?)
}

/// Serves one session of a new target over the machine for at most so many rounds, as `serve` does. The machine has 1 to
/// `settings.limits().live()` live threads. Where `defer` says so the target defers the replies to commands of the sets ReferenceType and
/// Method, at most 16 at a time.
///
/// # Errors
/// `NoMemory`, and then nothing was read or written.
pub fn serve_session<M: Machine + Drop, R: Read, W: Write>(
    alloc: Global,
    machine: M,
    settings: Settings,
    defer: bool,
    pipe: &mut Streams<R, W>,
    rounds: u32,
) -> Result<Ended, jdwp_wire::NoMemory>
    requires { LivesWithin M.meaning settings.limits machine }
    ensures served { IfOk result (ServesNew M.meaning settings defer machine rounds
        (story_of pipe.old) (story_of pipe.new)) }
    ensures memory { OnErr result (pipe.new ≡ pipe.old) }
{
    let mut target = Target::with_settings(alloc, machine, settings)?;
    target.set_deferring(defer);
    Ok(serve(&mut target, pipe, u64::from(rounds)))
}
