//! Which ids a script knows.
ghost use Rattle.std.specs.Prelude.{◌≡◌, map, IfOk, OnOk};
ghost use Rattle.jdwp_script.specs.Meanings.{method_part, class_part, script_part};
ghost use Rattle.jdwp_script.specs.IdSets.{known_ids, last_by};
ghost use Rattle.jdwp_script.specs.References.{value_ids, known_in, with_methods, with_classes, no_methods};

use crate::gather::Gather;
use crate::id_set::set_of;
use crate::ids::{FieldIds, Ids};
use crate::script::{Class, Method, Script};
use jdwp_value::{MethodId, ReferenceTypeId};
use jdwp_wire::NoMemory;
use std::alloc::Global;
use std::collections::{BTreeMap, BTreeSet};

/// The last code index of each method, by the ids of its class and its own.
pub(crate) type Lasts = BTreeMap<(u64, u64), u64>;

/// The ids that a script knows.
#[derive(Drop)]
pub(crate) struct KnownIds {
    pub(crate) groups: BTreeSet<u64>,
    pub(crate) classes: BTreeSet<u64>,
    pub(crate) fields: BTreeSet<u64>,
    pub(crate) objects: BTreeSet<u64>,
    pub(crate) threads: BTreeSet<u64>,
    pub(crate) modules: BTreeSet<u64>,
    /// What a value may name.
    pub(crate) values: BTreeSet<u64>,
    pub(crate) lasts: Lasts,
}

impl KnownIds {
    /// The ids that the script knows.
    pub(crate) fn of(alloc: Global, script: &Script) -> Result<KnownIds, NoMemory>
        ensures { IfOk result (λ k. known_ids k ≡ known_in (script_part script.now)) }
    {
        Ok(KnownIds {
            groups: Ids.id_set(alloc, &script.groups)?,
            classes: Ids.id_set(alloc, &script.classes)?,
            fields: FieldIds.id_set(alloc, &script.classes)?,
            objects: Ids.id_set(alloc, &script.objects)?,
            threads: Ids.id_set(alloc, &script.threads)?,
            modules: Ids.id_set(alloc, &script.modules)?,
            values: set_of(alloc, &value_ids(alloc, script)?)?,
            lasts: lasts_of(alloc, &script.classes)?,
        })
    }

    /// The last code index of the method, if the class has it.
    pub(crate) fn last(&self, class: ReferenceTypeId, method: MethodId) -> Option<u64>
        ensures { result ≡ last_by self.now.lasts class.0 method.0 }
    {
        self.lasts.get(&(class.0, method.0)).copied()
    }
}

/// The ids of all that values may name: the groups, the objects and the threads, but no modules.
pub(crate) fn value_ids(alloc: Global, script: &Script) -> Result<Vec<u64>, NoMemory>
    ensures { IfOk result (λ v. v.items ≡ value_ids (script_part script.now)) }
{
    let mut ids = Vec::new(alloc);
    Ids.gather_each(&script.groups, &mut ids)?;
    Ids.gather_each(&script.objects, &mut ids)?;
    Ids.gather_each(&script.threads, &mut ids)?;
    Ok(ids)
}

/// The last code indexes of the methods of these classes.
fn lasts_of(alloc: Global, classes: &[Class]) -> Result<Lasts, NoMemory>
    ensures { IfOk result (λ m. last_by m ≡ with_classes (map class_part classes.now) no_methods) }
{
    let mut lasts = BTreeMap::new(alloc);
    for class in classes {
        add_methods(class.id, &class.methods, &mut lasts)?;
    }
    Ok(lasts)
}

/// Adds the last code indexes of the methods of this class.
fn add_methods(
    class: ReferenceTypeId,
    methods: &[Method],
    lasts: &mut Lasts,
) -> Result<(), NoMemory>
    ensures { OnOk result (last_by lasts.new ≡ with_methods class.0 (map method_part methods.now)
        (last_by lasts.old)) }
{
    for method in methods {
        let _before = lasts.insert((class.0, method.id.0), method.last)?;
    }
    Ok(())
}
