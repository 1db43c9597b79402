//! The ids that a script gives away, and those that its steps name.
ghost use Rattle.std.specs.Prelude.{◌≡◌, ℕ, List, [], ◌∷◌, ◌++◌, map, IfOk, OnOk};
ghost use Rattle.std.specs.List.{flat_map};
ghost use Rattle.jdwp_script.specs.Parts.{GroupPart, FieldPart, MethodPart, ClassPart, ObjectPart, StepPart, ThreadPart, ModulePart};
ghost use Rattle.jdwp_script.specs.Meanings.{group_part, field_part, method_part, class_part, object_part, step_part, thread_part, module_part, script_part};
ghost use Rattle.jdwp_script.specs.Limits.{started_by};
ghost use Rattle.jdwp_script.specs.References.{prepared_by};
ghost use Rattle.jdwp_script.specs.Twice.{shared_ids, frame_of, has_id_twice};

use crate::gather::Gather;
use crate::id_set::stands_twice;
use crate::script::{Class, Field, Group, Method, Module, Object, Script, Thread};
use crate::step::Step;
use jdwp_wire::NoMemory;
use std::alloc::Global;

/// Appends an id.
fn append(ids: &mut Vec<u64>, id: u64) -> Result<(), NoMemory>
    ensures { OnOk result (ids.new.items ≡ ids.old.items ++ id ∷ []) }
{
    ids.push(id)?;
    Ok(())
}

/// The ids of groups, objects, threads, modules and classes.
pub(crate) struct Ids;

impl Gather<Group> for Ids {
    ghost Meaning = { GroupPart };

    ghost meaning = { group_part };

    ghost gathers = { λ g. g.id ∷ [] };

    fn gather(&self, group: &Group, ids: &mut Vec<u64>) -> Result<(), NoMemory> {
        append(ids, group.id.0)
    }
}

impl Gather<Object> for Ids {
    ghost Meaning = { ObjectPart };

    ghost meaning = { object_part };

    ghost gathers = { λ o. o.id ∷ [] };

    fn gather(&self, object: &Object, ids: &mut Vec<u64>) -> Result<(), NoMemory> {
        append(ids, object.id.0)
    }
}

impl Gather<Thread> for Ids {
    ghost Meaning = { ThreadPart };

    ghost meaning = { thread_part };

    ghost gathers = { λ t. t.id ∷ [] };

    fn gather(&self, thread: &Thread, ids: &mut Vec<u64>) -> Result<(), NoMemory> {
        append(ids, thread.id.0)
    }
}

impl Gather<Module> for Ids {
    ghost Meaning = { ModulePart };

    ghost meaning = { module_part };

    ghost gathers = { λ m. m.id ∷ [] };

    fn gather(&self, module: &Module, ids: &mut Vec<u64>) -> Result<(), NoMemory> {
        append(ids, module.id.0)
    }
}

impl Gather<Class> for Ids {
    ghost Meaning = { ClassPart };

    ghost meaning = { class_part };

    ghost gathers = { λ c. c.id ∷ [] };

    fn gather(&self, class: &Class, ids: &mut Vec<u64>) -> Result<(), NoMemory> {
        append(ids, class.id.0)
    }
}

/// The ids of the fields of classes.
pub(crate) struct FieldIds;

impl Gather<Field> for FieldIds {
    ghost Meaning = { FieldPart };

    ghost meaning = { field_part };

    ghost gathers = { λ f. f.id ∷ [] };

    fn gather(&self, field: &Field, ids: &mut Vec<u64>) -> Result<(), NoMemory> {
        append(ids, field.id.0)
    }
}

impl Gather<Class> for FieldIds {
    ghost Meaning = { ClassPart };

    ghost meaning = { class_part };

    ghost gathers = { λ c. map (λ f. f.id) c.fields };

    fn gather(&self, class: &Class, ids: &mut Vec<u64>) -> Result<(), NoMemory> {
        self.gather_each(&class.fields, ids)
    }
}

/// The ids of the methods of classes.
pub(crate) struct MethodIds;

impl Gather<Method> for MethodIds {
    ghost Meaning = { MethodPart };

    ghost meaning = { method_part };

    ghost gathers = { λ m. m.id ∷ [] };

    fn gather(&self, method: &Method, ids: &mut Vec<u64>) -> Result<(), NoMemory> {
        append(ids, method.id.0)
    }
}

impl Gather<Class> for MethodIds {
    ghost Meaning = { ClassPart };

    ghost meaning = { class_part };

    ghost gathers = { λ c. map (λ m. m.id) c.methods };

    fn gather(&self, class: &Class, ids: &mut Vec<u64>) -> Result<(), NoMemory> {
        self.gather_each(&class.methods, ids)
    }
}

/// The ids of the frames that steps put there.
pub(crate) struct FrameIds;

impl Gather<Step> for FrameIds {
    ghost Meaning = { StepPart };

    ghost meaning = { step_part };

    ghost gathers = { frame_of };

    fn gather(&self, step: &Step, ids: &mut Vec<u64>) -> Result<(), NoMemory> {
        if let Step::Call(call) = step {
            append(ids, call.frame.0)
        } else {
            Ok(())
        }
    }
}

impl Gather<Thread> for FrameIds {
    ghost Meaning = { ThreadPart };

    ghost meaning = { thread_part };

    ghost gathers = { λ t. flat_map frame_of t.steps };

    fn gather(&self, thread: &Thread, ids: &mut Vec<u64>) -> Result<(), NoMemory> {
        self.gather_each(&thread.steps, ids)
    }
}

/// The ids of the threads that steps start.
pub(crate) struct StartedIds;

impl Gather<Step> for StartedIds {
    ghost Meaning = { StepPart };

    ghost meaning = { step_part };

    ghost gathers = { started_by };

    fn gather(&self, step: &Step, ids: &mut Vec<u64>) -> Result<(), NoMemory> {
        if let Step::Start(thread) = step {
            append(ids, thread.0)
        } else {
            Ok(())
        }
    }
}

impl Gather<Thread> for StartedIds {
    ghost Meaning = { ThreadPart };

    ghost meaning = { thread_part };

    ghost gathers = { λ t. flat_map started_by t.steps };

    fn gather(&self, thread: &Thread, ids: &mut Vec<u64>) -> Result<(), NoMemory> {
        self.gather_each(&thread.steps, ids)
    }
}

/// The ids of the classes that steps prepare.
pub(crate) struct PreparedIds;

impl Gather<Step> for PreparedIds {
    ghost Meaning = { StepPart };

    ghost meaning = { step_part };

    ghost gathers = { prepared_by };

    fn gather(&self, step: &Step, ids: &mut Vec<u64>) -> Result<(), NoMemory> {
        if let Step::Prepare(class) = step {
            append(ids, class.0)
        } else {
            Ok(())
        }
    }
}

impl Gather<Thread> for PreparedIds {
    ghost Meaning = { ThreadPart };

    ghost meaning = { thread_part };

    ghost gathers = { λ t. flat_map prepared_by t.steps };

    fn gather(&self, thread: &Thread, ids: &mut Vec<u64>) -> Result<(), NoMemory> {
        self.gather_each(&thread.steps, ids)
    }
}

/// The ids of all that are of one kind with threads: the groups, the objects, the modules and the threads.
pub(crate) fn shared_ids(alloc: Global, script: &Script) -> Result<Vec<u64>, NoMemory>
    ensures { IfOk result (λ v. v.items ≡ shared_ids (script_part script.now)) }
{
    let mut ids = Vec::new(alloc);
    Ids.gather_each(&script.groups, &mut ids)?;
    Ids.gather_each(&script.objects, &mut ids)?;
    Ids.gather_each(&script.modules, &mut ids)?;
    Ids.gather_each(&script.threads, &mut ids)?;
    Ok(ids)
}

/// Whether two things of one kind have one id.
pub(crate) fn has_id_twice(alloc: Global, script: &Script) -> Result<bool, NoMemory>
    ensures { IfOk result (λ twice. twice ≡ has_id_twice (script_part script.now)) }
{
    if stands_twice(alloc, &shared_ids(alloc, script)?)?
        || Ids.has_twice(alloc, &script.classes)?
        || MethodIds.has_twice(alloc, &script.classes)?
        || FieldIds.has_twice(alloc, &script.classes)?
    {
        return Ok(true);
    }
    FrameIds.has_twice(alloc, &script.threads)
}
