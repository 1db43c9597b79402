//! Numbers that rise.
ghost use Rattle.std.specs.Prelude.{◌<◌, IfOk, IsSome, OnErr};
ghost use Rattle.std.specs.BTreeMap.{get, keys};
ghost use Rattle.std.specs.List.{All};
ghost use Rattle.std.specs.Ordering.{nat_cmp};

use jdwp_wire::NoMemory;
use std::collections::BTreeMap;

/// A number above these.
///
/// # Errors
/// `NoMemory` where one of them is the greatest that there is, and only there.
pub(crate) fn next_number<V>(entries: &BTreeMap<u64, V>) -> Result<u64, NoMemory>
    ensures above { IfOk result (λ number. All (λ n. n < number) (keys entries.now)) }
    ensures last { OnErr result (IsSome (get nat_cmp entries.now u64.MAX)) }
{
    let Some((last, _)) = entries.last_key_value() else {
        return Ok(0);
    };
    match last.checked_add(1) {
        Some(number) => Ok(number),
        None => Err(NoMemory),
    }
}
