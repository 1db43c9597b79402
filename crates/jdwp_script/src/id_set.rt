//! Sets of ids.
ghost use Rattle.std.specs.Prelude.{◌≡◌, IfOk};
ghost use Rattle.jdwp_script.specs.Limits.{is_in};
ghost use Rattle.jdwp_script.specs.IdSets.{has, Holds};
ghost use Rattle.jdwp_script.specs.Twice.{is_twice};

use jdwp_wire::NoMemory;
use std::alloc::Global;
use std::collections::BTreeSet;

/// The set of these ids.
pub(crate) fn set_of(alloc: Global, ids: &[u64]) -> Result<BTreeSet<u64>, NoMemory>
    ensures { IfOk result (λ set. Holds set (is_in ids.now)) }
{
    let mut set = BTreeSet::new(alloc);
    for id in ids {
        set.insert(*id)?;
    }
    Ok(set)
}

/// Whether one of these ids stands twice.
pub(crate) fn stands_twice(alloc: Global, ids: &[u64]) -> Result<bool, NoMemory>
    ensures { IfOk result (λ twice. twice ≡ is_twice ids.now) }
{
    let mut seen = BTreeSet::new(alloc);
    let mut place = ids.len();
    while place > 0 {
        place -= 1;
        if !seen.insert(ids[place])? {
            return Ok(true);
        }
    }
    Ok(false)
}
