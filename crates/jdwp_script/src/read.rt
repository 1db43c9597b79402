//! Reading a script.
ghost use Rattle.std.specs.Prelude.{◌≡◌, None, IfOk, OnOk, IfErr};
ghost use Rattle.jdwp_wire.specs.Limits.{standard_limits};
ghost use Rattle.jdwp_script.specs.Meanings.{script_part};
ghost use Rattle.jdwp_script.specs.Reading.{Gives, Fails};
ghost use Rattle.jdwp_script.specs.Faults.{first_fault, unless, described, read_script};

use crate::fault::ScriptFault;
use crate::ids::has_id_twice;
use crate::limits::passes_limit;
use crate::parts::script;
use crate::references::has_bad_reference;
use crate::script::Script;
use crate::too_wide::has_wide_id;
use jdwp_wire::Limits;
use serde_json::Value;
use std::alloc::Global;

impl Script {
    /// The script that the text is, where 64 threads may live at the beginning.
    ///
    /// # Errors
    /// As `read_with`.
    pub fn read(alloc: Global, text: &str) -> Result<Script, ScriptFault>
        ensures value { Gives script_part result (read_script standard_limits.live text.now) }
        // A script that is read has no fault.
        ensures sound { IfOk result (λ s. first_fault standard_limits.live (script_part s) ≡ None) }
    {
        Script::read_with(alloc, text, &Limits::standard())
    }

    /// The script that the text is, where as many threads may live at the beginning as `limits` has live threads.
    ///
    /// # Errors
    /// The first of these that applies: `NotJson`, `Missing` with the first member that is missing or of another type,
    /// `OverLimit`, `IdTwice`, `IdTooWide`, `BadReference`. `NoMemory` where an allocation was refused.
    pub fn read_with(alloc: Global, text: &str, limits: &Limits) -> Result<Script, ScriptFault>
        ensures value { Gives script_part result (read_script limits.now.live text.now) }
        // A script that is read has no fault.
        ensures sound { IfOk result (λ s. first_fault limits.now.live (script_part s) ≡ None) }
    {
        let script = described(alloc, text)?;
        check(alloc, &script, limits.live() as usize)?;
        Ok(script)
    }
}

/// The script that the text describes, whatever faults it has.
fn described(alloc: Global, text: &str) -> Result<Script, ScriptFault>
    ensures { Gives script_part result (described text.now) }
{
    match Value::from_str(alloc, text) {
        Ok(value) => script(alloc, &value),
        Err(error) => {
            if error.is_memory() {
                Err(ScriptFault::NoMemory)
            } else {
                Err(ScriptFault::NotJson)
            }
        }
    }
}

/// Refuses a script that has a fault, where `live` threads may live at the beginning.
///
/// # Errors
/// The first fault of the script, or `NoMemory`.
fn check(alloc: Global, script: &Script, live: usize) -> Result<(), ScriptFault>
    ensures none { OnOk result (first_fault live (script_part script.now) ≡ None) }
    ensures first { IfErr result (λ fault.
        Fails fault (unless (first_fault live (script_part script.now)) (script_part script.now))) }
{
    if passes_limit(alloc, script, live)? {
        return Err(ScriptFault::OverLimit);
    }
    if has_id_twice(alloc, script)? {
        return Err(ScriptFault::IdTwice);
    }
    if has_wide_id(script) {
        return Err(ScriptFault::IdTooWide);
    }
    if has_bad_reference(alloc, script)? {
        return Err(ScriptFault::BadReference);
    }
    Ok(())
}
