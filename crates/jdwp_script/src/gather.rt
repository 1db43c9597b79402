//! The ids that the parts of a script list.
ghost use Rattle.std.specs.Prelude.{◌≡◌, ℕ, List, ◌++◌, map, IfOk, OnOk};
ghost use Rattle.std.specs.List.{flat_map};
ghost use Rattle.jdwp_script.specs.Limits.{is_in};
ghost use Rattle.jdwp_script.specs.IdSets.{Holds};
ghost use Rattle.jdwp_script.specs.Twice.{is_twice};

use crate::id_set::{set_of, stands_twice};
use jdwp_wire::NoMemory;
use std::alloc::Global;
use std::collections::BTreeSet;

/// Gathers the ids of one kind from the parts of a script.
pub(crate) trait Gather<T> {
    /// What a part is, apart from where it lies in memory.
    ghost Meaning: { Type 0 };

    ghost meaning: { T → Meaning };

    /// The ids of the kind that a part lists.
    ghost gathers: { Meaning → List ℕ };

    /// Appends the ids that the part lists.
    fn gather(&self, part: &T, ids: &mut Vec<u64>) -> Result<(), NoMemory>
        ensures { OnOk result (ids.new.items ≡ ids.old.items ++ gathers (meaning part.now)) };

    /// Appends the ids that each part lists.
    final fn gather_each(&self, parts: &[T], ids: &mut Vec<u64>) -> Result<(), NoMemory>
        ensures { OnOk result (ids.new.items ≡ ids.old.items ++ flat_map gathers
            (map meaning parts.now)) }
    {
        for part in parts {
            self.gather(part, ids)?;
        }
        Ok(())
    }

    /// The ids that the parts list.
    final fn listed(&self, alloc: Global, parts: &[T]) -> Result<Vec<u64>, NoMemory>
        ensures { IfOk result (λ v. v.items ≡ flat_map gathers (map meaning parts.now)) }
    {
        let mut ids = Vec::new(alloc);
        self.gather_each(parts, &mut ids)?;
        Ok(ids)
    }

    /// The set of the ids that the parts list.
    final fn id_set(&self, alloc: Global, parts: &[T]) -> Result<BTreeSet<u64>, NoMemory>
        ensures { IfOk result (λ set.
            Holds set (is_in (flat_map gathers (map meaning parts.now)))) }
    {
        set_of(alloc, &self.listed(alloc, parts)?)
    }

    /// Whether the parts list an id twice.
    final fn has_twice(&self, alloc: Global, parts: &[T]) -> Result<bool, NoMemory>
        ensures { IfOk result (λ twice.
            twice ≡ is_twice (flat_map gathers (map meaning parts.now))) }
    {
        stands_twice(alloc, &self.listed(alloc, parts)?)
    }
}
