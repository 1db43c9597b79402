//! What a class reaches, found layer by layer: the classes that stand directly above those that were found last.
ghost use Rattle.std.specs.Prelude.{◌≡◌, ℕ, ◌==◌, map, OnOk, IfOk};
ghost use Rattle.std.specs.BTreeSet.{BTreeSet as IdSet};
ghost use Rattle.jdwp_value.specs.declared.id.ReferenceTypeId.{ReferenceTypeId as RefId};
ghost use Rattle.jdwp_script.specs.Meanings.{script_part};
ghost use Rattle.jdwp_script_machine.specs.Sites.{class_in, reaches_within};
ghost use Rattle.jdwp_script_machine.specs.Layers.{Holds, Gains, is_in, is_above, some_above};

use crate::look_ups::with_id;
use jdwp_script::Script;
use jdwp_value::ReferenceTypeId;
use jdwp_wire::NoMemory;
use std::alloc::Global;
use std::collections::BTreeSet;

/// The ids that a class has above it by so many superclasses and interfaces at most, and its own.
///
/// # Errors
/// `NoMemory` where an allocation was refused.
pub(crate) fn reached_within(
    alloc: Global,
    script: &Script,
    most: usize,
    from: ReferenceTypeId,
) -> Result<BTreeSet<u64>, NoMemory>
    ensures { IfOk result (λ found. Holds found (λ to.
        reaches_within (script_part script.now) most to from.0)) }
{
    let mut found = BTreeSet::new(alloc);
    let mut layer = Vec::new(alloc);
    find(&mut found, &mut layer, from.0)?;
    for _layers in 0..most {
        if layer.is_empty() {
            return Ok(found);
        }
        layer = next_layer(alloc, script, &mut found, &layer)?;
    }
    Ok(found)
}

/// Finds what stands directly above the classes of a layer, and lists what of it was not found before.
fn next_layer(
    alloc: Global,
    script: &Script,
    found: &mut BTreeSet<u64>,
    layer: &[u64],
) -> Result<Vec<u64>, NoMemory>
    ensures found { OnOk result (Gains found.old found.new
        (some_above (script_part script.now) layer.now)) }
    ensures listed { IfOk result (λ next. Gains found.old found.new (is_in next.items)) }
{
    let mut next = Vec::new(alloc);
    for id in layer {
        find_above(script, found, &mut next, *id)?;
    }
    Ok(next)
}

/// Finds what stands directly above a class, and lists what of it was not found before.
fn find_above(
    script: &Script,
    found: &mut BTreeSet<u64>,
    listed: &mut Vec<u64>,
    id: u64,
) -> Result<(), NoMemory>
    ensures found { OnOk result (Gains found.old found.new
        (is_above (class_in (script_part script.now) id))) }
    ensures listed { OnOk result ((before : IdSet ℕ)
        → Gains before found.old (is_in listed.old.items)
        → Gains before found.new (is_in listed.new.items)) }
{
    match with_id(&script.classes, id) {
        None => Ok(()),
        Some(class) => {
            find(found, listed, class.superclass.0)?;
            find_each(found, listed, &class.interfaces)?;
            Ok(())
        }
    }
}

/// Finds ids, and lists those that were not found before.
fn find_each(
    found: &mut BTreeSet<u64>,
    listed: &mut Vec<u64>,
    ids: &[ReferenceTypeId],
) -> Result<(), NoMemory>
    ensures found { OnOk result (Gains found.old found.new (is_in (map (λ (id : RefId).
        id.0) ids.now))) }
    ensures listed { OnOk result ((before : IdSet ℕ)
        → Gains before found.old (is_in listed.old.items)
        → Gains before found.new (is_in listed.new.items)) }
{
    for id in ids {
        find(found, listed, id.0)?;
    }
    Ok(())
}

/// Finds an id, and lists it where it was not found before.
fn find(found: &mut BTreeSet<u64>, listed: &mut Vec<u64>, id: u64) -> Result<(), NoMemory>
    ensures found { OnOk result (Gains found.old found.new (λ n. id == n)) }
    ensures listed { OnOk result ((before : IdSet ℕ)
        → Gains before found.old (is_in listed.old.items)
        → Gains before found.new (is_in listed.new.items)) }
{
    if found.insert(id)? {
        listed.push(id)?;
    }
    Ok(())
}
