//! Whether a script has more of something than it may have.
ghost use Rattle.std.specs.Prelude.{◌≡◌, length, map, IfOk, string_bytes};
ghost use Rattle.jdwp_script.specs.Parts.{GroupPart, FieldPart, SlotPart, MethodPart, ClassPart, ObjectPart, StepPart, ThreadPart, ModulePart};
ghost use Rattle.jdwp_script.specs.Meanings.{group_part, field_part, slot_part, method_part, class_part, object_part, step_part, thread_part, module_part, script_part};
ghost use Rattle.jdwp_script.specs.Limits.{is_long, if_there, over, elements_pass, group_passes, field_passes, slot_passes, method_passes, class_passes, object_passes, step_passes, thread_passes, module_passes, is_deep, living, passes_limit};

use crate::gather::Gather;
use crate::ids::StartedIds;
use crate::judge::Judge;
use crate::script::{Class, Field, Group, Method, Module, Object, Script, Slot, Thread};
use crate::step::Step;
use jdwp_wire::NoMemory;
use std::alloc::Global;

/// The bytes that a text may have.
pub(crate) const TEXT_LIMIT: usize = 512;
/// The bytes that the text of a string object may have.
pub(crate) const STRING_LIMIT: usize = 65_000;
/// The elements that an array may have.
pub(crate) const ELEMENT_LIMIT: usize = 4_096;
/// The fields, methods, interfaces, lines or slots that there may be in one list, and frames at once.
pub const LIST_LIMIT: usize = 256;
/// The groups, classes, objects, threads or modules that a script may have.
pub(crate) const PART_LIMIT: usize = 1_024;
/// The steps that a thread may have.
pub(crate) const STEP_LIMIT: usize = 65_536;

/// Finds what passes a limit.
pub(crate) struct PassesLimit;

/// Whether a text has more bytes than it may have.
pub(crate) fn is_long(text: &String) -> bool
    ensures { result ≡ is_long (string_bytes text.now) }
{
    text.len() > TEXT_LIMIT
}

impl Judge<Group> for PassesLimit {
    ghost Meaning = { GroupPart };

    ghost meaning = { group_part };

    ghost judges = { λ _. group_passes };

    fn is_bad(&self, group: &Group) -> bool {
        is_long(&group.name)
    }
}

impl Judge<Field> for PassesLimit {
    ghost Meaning = { FieldPart };

    ghost meaning = { field_part };

    ghost judges = { λ _. field_passes };

    fn is_bad(&self, field: &Field) -> bool {
        is_long(&field.name) || is_long(&field.signature)
    }
}

impl Judge<Slot> for PassesLimit {
    ghost Meaning = { SlotPart };

    ghost meaning = { slot_part };

    ghost judges = { λ _. slot_passes };

    fn is_bad(&self, slot: &Slot) -> bool {
        is_long(&slot.name) || is_long(&slot.signature)
    }
}

impl Judge<Method> for PassesLimit {
    ghost Meaning = { MethodPart };

    ghost meaning = { method_part };

    ghost judges = { λ _. method_passes };

    fn is_bad(&self, method: &Method) -> bool {
        is_long(&method.name)
            || is_long(&method.signature)
            || method.lines.len() > LIST_LIMIT
            || method.slots.len() > LIST_LIMIT
            || self.has_bad(&method.slots)
    }
}

impl Judge<Class> for PassesLimit {
    ghost Meaning = { ClassPart };

    ghost meaning = { class_part };

    ghost judges = { λ _. class_passes };

    fn is_bad(&self, class: &Class) -> bool {
        is_long(&class.signature)
            || class.interfaces.len() > LIST_LIMIT
            || is_source_long(class)
            || class.fields.len() > LIST_LIMIT
            || class.methods.len() > LIST_LIMIT
            || self.has_bad(&class.fields)
            || self.has_bad(&class.methods)
    }
}

fn is_source_long(class: &Class) -> bool
    ensures { result ≡ if_there is_long (class_part class.now).source }
{
    match &class.source {
        Some(source) => is_long(source),
        None => false,
    }
}

impl Judge<Object> for PassesLimit {
    ghost Meaning = { ObjectPart };

    ghost meaning = { object_part };

    ghost judges = { λ _. object_passes };

    fn is_bad(&self, object: &Object) -> bool {
        object.fields.len() > LIST_LIMIT || is_string_long(object) || is_array_long(object)
    }
}

pub(crate) fn is_string_long(object: &Object) -> bool
    ensures { result ≡ if_there (over 65_000) (object_part object.now).text }
{
    match &object.text {
        Some(text) => text.len() > STRING_LIMIT,
        None => false,
    }
}

fn is_array_long(object: &Object) -> bool
    ensures { result ≡ if_there elements_pass (object_part object.now).array }
{
    match &object.array {
        Some(elements) => elements.bits.len() > ELEMENT_LIMIT,
        None => false,
    }
}

impl Judge<Step> for PassesLimit {
    ghost Meaning = { StepPart };

    ghost meaning = { step_part };

    ghost judges = { λ _. step_passes };

    fn is_bad(&self, step: &Step) -> bool {
        match step {
            Step::Call(call) => call.slots.len() > LIST_LIMIT,
            _ => false,
        }
    }
}

impl Judge<Thread> for PassesLimit {
    ghost Meaning = { ThreadPart };

    ghost meaning = { thread_part };

    ghost judges = { λ _. thread_passes };

    fn is_bad(&self, thread: &Thread) -> bool {
        is_long(&thread.name)
            || thread.steps.len() > STEP_LIMIT
            || self.has_bad(&thread.steps)
            || is_deep(&thread.steps)
    }
}

impl Judge<Module> for PassesLimit {
    ghost Meaning = { ModulePart };

    ghost meaning = { module_part };

    ghost judges = { λ _. module_passes };

    fn is_bad(&self, module: &Module) -> bool {
        is_long(&module.name)
    }
}

/// Whether more frames are there at once than may be.
pub(crate) fn is_deep(steps: &[Step]) -> bool
    ensures { result ≡ is_deep 0 (map step_part steps.now) }
{
    let mut frames = 0usize;
    for step in steps {
        match step {
            Step::Call(_) => frames += 1,
            Step::Return(_) => frames = frames.saturating_sub(1),
            _ => {}
        }
        if frames > LIST_LIMIT {
            return true;
        }
    }
    false
}

/// How many threads live from the beginning.
pub(crate) fn living(alloc: Global, threads: &[Thread]) -> Result<usize, NoMemory>
    ensures { IfOk result (λ n. n ≡ length (living (map thread_part threads.now))) }
{
    let started = StartedIds.id_set(alloc, threads)?;
    let mut count = 0usize;
    for thread in threads {
        if !started.contains(&thread.id.0) {
            count += 1;
        }
    }
    Ok(count)
}

/// Whether the script passes a limit, where `live` threads may live at the beginning.
pub(crate) fn passes_limit(alloc: Global, script: &Script, live: usize) -> Result<bool, NoMemory>
    ensures { IfOk result (λ passes. passes ≡ passes_limit live (script_part script.now)) }
{
    if is_long(&script.name)
        || script.groups.len() > PART_LIMIT
        || script.classes.len() > PART_LIMIT
        || script.objects.len() > PART_LIMIT
        || script.threads.len() > PART_LIMIT
        || script.modules.len() > PART_LIMIT
        || PassesLimit.has_bad(&script.groups)
        || PassesLimit.has_bad(&script.classes)
        || PassesLimit.has_bad(&script.objects)
        || PassesLimit.has_bad(&script.threads)
        || PassesLimit.has_bad(&script.modules)
    {
        return Ok(true);
    }
    Ok(living(alloc, &script.threads)? > live)
}
