//! What is known of a script's fault, found by reading the script once more.
use crate::detail::{Cause, Detail};
use crate::fault::ScriptFault;
use crate::id_detail::{twice_detail, wide_detail};
use crate::limit_detail::limit_detail;
use crate::missing_detail::missing_path;
use crate::parts::script;
use crate::reference_detail::reference_detail;
use crate::script::Script;
use jdwp_wire::{Limits, NoMemory};
use serde_json::Value;
use std::alloc::Global;

impl ScriptFault {
    /// What is known beside this fault of a text that was refused with it, where as many threads may live at the beginning as `limits` has
    /// live threads: where it stands, and what it is about. The text is read once more. Where an allocation is refused, nothing is known.
    pub fn detail(self, alloc: Global, text: &str, limits: &Limits) -> Detail {
        if self == ScriptFault::NotJson {
            return json_detail(alloc, text);
        }
        found_detail(alloc, text, limits, self).unwrap_or(Detail::UNSAID)
    }
}

/// Where a text stops being JSON.
fn json_detail(alloc: Global, text: &str) -> Detail {
    if text.starts_with('\u{feff}') {
        return Detail::of(Cause::Mark);
    }
    match Value::from_str(alloc, text) {
        Err(error) if error.line() > 0 => { Detail::of(Cause::At(error.line(), error.column())) }
        _ => Detail::UNSAID,
    }
}

/// What is known of a fault of a text that is JSON.
fn found_detail(
    alloc: Global,
    text: &str,
    limits: &Limits,
    fault: ScriptFault,
) -> Result<Detail, NoMemory> {
    match Value::from_str(alloc, text) {
        Ok(value) => value_detail(alloc, &value, limits, fault),
        Err(_) => Ok(Detail::UNSAID),
    }
}

/// What is known of a fault of the script that the value describes.
fn value_detail(
    alloc: Global,
    value: &Value,
    limits: &Limits,
    fault: ScriptFault,
) -> Result<Detail, NoMemory> {
    if let ScriptFault::Missing(member) = fault {
        return Ok(Detail {
            cause: Cause::Unsaid,
            path: missing_path(alloc, value, member)?,
        });
    }
    match script(alloc, value) {
        Ok(script) => judged_detail(alloc, &script, limits, fault),
        Err(_) => Ok(Detail::UNSAID),
    }
}

/// What is known of a fault of a script that has all its members.
fn judged_detail(
    alloc: Global,
    script: &Script,
    limits: &Limits,
    fault: ScriptFault,
) -> Result<Detail, NoMemory> {
    match fault {
        ScriptFault::OverLimit => Ok(limit_detail(script, limits.live() as usize)),
        ScriptFault::IdTwice => twice_detail(alloc, script),
        ScriptFault::IdTooWide => Ok(wide_detail(script)),
        ScriptFault::BadReference => reference_detail(alloc, script),
        ScriptFault::NotJson | ScriptFault::Missing(_) | ScriptFault::NoMemory => {
            Ok(Detail::UNSAID)
        }
    }
}
