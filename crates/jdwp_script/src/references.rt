//! Whether an id is 0 or unknown, or something stands where it may not.
ghost use Rattle.std.specs.Prelude.{◌≡◌, ℕ, [], not, nat_le, map, None, IfOk, OnOk};
ghost use Rattle.std.specs.List.{list_any};
ghost use Rattle.jdwp_script.specs.declared.script.FieldValue.{FieldValue};
ghost use Rattle.jdwp_script.specs.declared.step.Literal.{Literal};
ghost use Rattle.jdwp_script.specs.declared.step.Place.{Place};
ghost use Rattle.jdwp_script.specs.declared.step.SlotValue.{SlotValue};
ghost use Rattle.jdwp_script.specs.Literals.{fits_tag};
ghost use Rattle.jdwp_script.specs.Limits.{if_there};
ghost use Rattle.jdwp_script.specs.Parts.{GroupPart, ThreadPart, FieldPart, MethodPart, ClassPart, ElementsPart, ObjectPart, CallPart, ModulePart};
ghost use Rattle.jdwp_script.specs.Meanings.{group_part, field_part, method_part, class_part, elements_part, object_part, call_part, step_part, thread_part, module_part, script_part};
ghost use Rattle.jdwp_script.specs.IdSets.{has, known_ids};
ghost use Rattle.jdwp_script.specs.References.{nothing, is_lost, literal_lost, groups_lost, types_lost, field_lost, lines_lost, method_lost, class_lost, field_value_lost, same_field, field_twice, elements_lost, object_lost, is_past, slot_value_lost, same_slot, slot_twice, call_lost, place_lost, step_lost, frames_left, steps_lost, thread_lost, module_lost, group_class_lost, thread_class_lost, starts_lost, is_lost_among, has_bad_reference};

use crate::gather::Gather;
use crate::ids::{PreparedIds, StartedIds};
use crate::judge::Judge;
use crate::known::KnownIds;
use crate::limits::living;
use crate::loops::loop_lost;
use crate::script::{
    Class, Elements, Field, FieldValue, Group, Line, Method, Module, Object, Script, Thread,
};
use crate::step::{Call, Literal, Place, SlotValue, Step};
use jdwp_value::{ReferenceTypeId, Tag};
use jdwp_wire::NoMemory;
use std::alloc::Global;
use std::collections::BTreeSet;

/// Whether an id names nothing that is known, where 0 may stand for nothing.
pub(crate) fn is_lost(known: &BTreeSet<u64>, id: u64) -> bool
    ensures { result ≡ is_lost (has known.now) id }
{
    id != 0 && !known.contains(&id)
}

/// Whether bits are within the width of values of the tag.
pub(crate) fn fits_tag(tag: Tag, bits: u64) -> bool
    ensures { result ≡ fits_tag tag bits }
{
    match tag {
        Tag::Byte => bits < 256,
        Tag::Char | Tag::Short => bits < 65_536,
        Tag::Int | Tag::Float => bits < 4_294_967_296,
        Tag::Void => bits < 1,
        Tag::Boolean => bits < 2,
        Tag::Long | Tag::Double | Tag::Object(_) => true,
    }
}

impl Judge<Literal> for KnownIds {
    ghost Meaning = { Literal };

    ghost meaning = { λ literal. literal };

    ghost judges = { λ k. literal_lost (known_ids k) };

    fn is_bad(&self, literal: &Literal) -> bool {
        !fits_tag(literal.tag, literal.bits)
            || (literal.tag.is_object() && is_lost(&self.values, literal.bits))
    }
}

/// Whether a group has id 0, or a parent that does not stand before it.
fn groups_lost(alloc: Global, groups: &[Group]) -> Result<bool, NoMemory>
    ensures { IfOk result (λ lost. lost ≡ groups_lost nothing (map group_part groups.now)) }
{
    let mut before = BTreeSet::new(alloc);
    for group in groups {
        if group.id.0 == 0 || is_lost(&before, group.parent.0) {
            return Ok(true);
        }
        before.insert(group.id.0)?;
    }
    Ok(false)
}

/// Whether a class has id 0, or a superclass or an interface that does not stand before it.
fn types_lost(alloc: Global, classes: &[Class]) -> Result<bool, NoMemory>
    ensures { IfOk result (λ lost. lost ≡ types_lost nothing (map class_part classes.now)) }
{
    let mut before = BTreeSet::new(alloc);
    for class in classes {
        if class.id.0 == 0
            || is_lost(&before, class.superclass.0)
            || before.has_bad(&class.interfaces)
        {
            return Ok(true);
        }
        before.insert(class.id.0)?;
    }
    Ok(false)
}

/// Finds ids that the set has not.
impl Judge<ReferenceTypeId> for BTreeSet<u64> {
    ghost Meaning = { ℕ };

    ghost meaning = { λ id. id.0 };

    ghost judges = { λ set n. not (has set n) };

    fn is_bad(&self, id: &ReferenceTypeId) -> bool {
        !self.contains(&id.0)
    }
}

impl Judge<Field> for KnownIds {
    ghost Meaning = { FieldPart };

    ghost meaning = { field_part };

    ghost judges = { λ k. field_lost (known_ids k) };

    fn is_bad(&self, field: &Field) -> bool {
        if field.id.0 == 0 {
            return true;
        }
        match &field.value {
            Some(value) => self.is_bad(value),
            None => false,
        }
    }
}

/// Whether an index of a line is past the last one, or not above the one before it.
pub(crate) fn lines_lost(last: u64, lines: &[Line]) -> bool
    ensures { result ≡ lines_lost last None lines.now }
{
    let mut before = None;
    for line in lines {
        if line.index > last || !is_above(line.index, before) {
            return true;
        }
        before = Some(line.index);
    }
    false
}

/// Whether an index is above the one before it, if there is one.
fn is_above(index: u64, before: Option<u64>) -> bool
    ensures { result ≡ not (if_there (λ n. nat_le index n) before) }
{
    match before {
        Some(before) => before < index,
        None => true,
    }
}

impl Judge<Method> for KnownIds {
    ghost Meaning = { MethodPart };

    ghost meaning = { method_part };

    ghost judges = { λ k. method_lost (known_ids k) };

    fn is_bad(&self, method: &Method) -> bool {
        if method.id.0 == 0 || lines_lost(method.last, &method.lines) {
            return true;
        }
        match &method.returns {
            Some(value) => self.is_bad(value),
            None => false,
        }
    }
}

impl Judge<Class> for KnownIds {
    ghost Meaning = { ClassPart };

    ghost meaning = { class_part };

    ghost judges = { λ k. class_lost (known_ids k) };

    fn is_bad(&self, class: &Class) -> bool {
        self.has_bad(&class.fields)
            || self.has_bad(&class.methods)
            || is_lost(&self.modules, class.module.0)
    }
}

impl Judge<FieldValue> for KnownIds {
    ghost Meaning = { FieldValue };

    ghost meaning = { λ held. held };

    ghost judges = { λ k. field_value_lost (known_ids k) };

    fn is_bad(&self, held: &FieldValue) -> bool {
        !self.fields.contains(&held.field.0) || self.is_bad(&held.value)
    }
}

/// Finds what names the same field or the same slot as this.
#[derive(Drop)]
struct Same<T>(T);

impl Judge<FieldValue> for Same<FieldValue> {
    ghost Meaning = { FieldValue };

    ghost meaning = { λ held. held };

    ghost judges = { λ same. same_field same.0 };

    fn is_bad(&self, held: &FieldValue) -> bool {
        held.field.0 == self.0.field.0
    }
}

impl Judge<SlotValue> for Same<SlotValue> {
    ghost Meaning = { SlotValue };

    ghost meaning = { λ held. held };

    ghost judges = { λ same. same_slot same.0 };

    fn is_bad(&self, held: &SlotValue) -> bool {
        held.slot == self.0.slot
    }
}

/// Whether a field is listed twice. A list has few fields, so each is compared with those after it.
pub(crate) fn field_twice(fields: &[FieldValue]) -> bool
    ensures { result ≡ field_twice fields.now }
{
    for place in 0..fields.len() {
        if Same(fields[place]).has_bad(&fields[place + 1..]) {
            return true;
        }
    }
    false
}

/// Whether a slot is listed twice. A list has few slots, so each is compared with those after it.
fn slot_twice(slots: &[SlotValue]) -> bool
    ensures { result ≡ slot_twice slots.now }
{
    for place in 0..slots.len() {
        if Same(slots[place]).has_bad(&slots[place + 1..]) {
            return true;
        }
    }
    false
}

impl Judge<Elements> for KnownIds {
    ghost Meaning = { ElementsPart };

    ghost meaning = { elements_part };

    ghost judges = { λ k. elements_lost (known_ids k) };

    fn is_bad(&self, elements: &Elements) -> bool {
        for bits in &elements.bits {
            let literal = Literal {
                tag: elements.tag,
                bits: *bits,
            };
            if self.is_bad(&literal) {
                return true;
            }
        }
        false
    }
}

impl Judge<Object> for KnownIds {
    ghost Meaning = { ObjectPart };

    ghost meaning = { object_part };

    ghost judges = { λ k. object_lost (known_ids k) };

    fn is_bad(&self, object: &Object) -> bool {
        if object.id.0 == 0
            || !self.classes.contains(&object.class.0)
            || self.has_bad(&object.fields)
            || field_twice(&object.fields)
        {
            return true;
        }
        match &object.array {
            Some(elements) => self.is_bad(elements),
            None => false,
        }
    }
}

impl Judge<SlotValue> for KnownIds {
    ghost Meaning = { SlotValue };

    ghost meaning = { λ held. held };

    ghost judges = { λ k. slot_value_lost (known_ids k) };

    fn is_bad(&self, held: &SlotValue) -> bool {
        self.is_bad(&held.value)
    }
}

/// Whether an index is past the last one of a method, or there is no method.
fn is_past(index: u64, last: Option<u64>) -> bool
    ensures { result ≡ is_past index last }
{
    match last {
        Some(last) => index > last,
        None => true,
    }
}

impl Judge<Place> for KnownIds {
    ghost Meaning = { Place };

    ghost meaning = { λ place. place };

    ghost judges = { λ k. place_lost (known_ids k) };

    fn is_bad(&self, place: &Place) -> bool {
        is_past(place.index, self.last(place.class, place.method))
    }
}

impl Judge<Call> for KnownIds {
    ghost Meaning = { CallPart };

    ghost meaning = { call_part };

    ghost judges = { λ k. call_lost (known_ids k) };

    fn is_bad(&self, call: &Call) -> bool {
        call.frame.0 == 0
            || self.last(call.class, call.method).is_none()
            || is_lost(&self.objects, call.this.0)
            || self.has_bad(&call.slots)
            || slot_twice(&call.slots)
    }
}

/// Whether a step may not stand where its thread has these frames. A frame is the last code index of its method, and
/// the newest stands last.
pub(crate) fn step_lost(known: &KnownIds, frames: &[u64], step: &Step) -> bool
    ensures { result ≡ step_lost (known_ids known.now) frames.now (step_part step.now) }
{
    let newest = frames.last().copied();
    match step {
        Step::Call(call) => known.is_bad(call),
        Step::Go(index) => is_past(*index, newest),
        Step::Return(value) => newest.is_none() || known.is_bad(value),
        Step::Throw(throw) => {
            if newest.is_none() || !known.objects.contains(&throw.object.0) {
                return true;
            }
            match &throw.caught {
                Some(place) => known.is_bad(place),
                None => false,
            }
        }
        Step::Prepare(class) => !known.classes.contains(&class.0),
        Step::Start(thread) => !known.threads.contains(&thread.0),
        Step::Again(_) => false,
    }
}

/// Changes the frames of a thread as the step does.
pub(crate) fn change_frames(
    known: &KnownIds,
    frames: &mut Vec<u64>,
    step: &Step,
) -> Result<(), NoMemory>
    ensures { OnOk result (frames.new.items ≡ frames_left (known_ids known.now) frames.old.items
        (step_part step.now)) }
{
    match step {
        Step::Call(call) => {
            frames.push(known.last(call.class, call.method).unwrap_or(0))?;
        }
        Step::Return(_) => {
            let _newest = frames.pop();
        }
        _ => {}
    }
    Ok(())
}

/// Whether one of these steps may not stand where it does.
fn steps_lost(alloc: Global, known: &KnownIds, steps: &[Step]) -> Result<bool, NoMemory>
    ensures { IfOk result (λ lost. lost ≡ steps_lost (known_ids known.now) []
        (map step_part steps.now)) }
{
    let mut frames = Vec::new(alloc);
    for step in steps {
        if step_lost(known, &frames, step) {
            return Ok(true);
        }
        change_frames(known, &mut frames, step)?;
    }
    Ok(false)
}

/// Whether one of these threads has id 0, an unknown group, a step that may not stand where it does, or an `again` that may not.
fn threads_lost(alloc: Global, known: &KnownIds, threads: &[Thread]) -> Result<bool, NoMemory>
    ensures { IfOk result (λ lost. lost ≡ list_any (thread_lost (known_ids known.now))
        (map thread_part threads.now)) }
{
    for thread in threads {
        if thread.id.0 == 0
            || !known.groups.contains(&thread.group.0)
            || steps_lost(alloc, known, &thread.steps)?
            || loop_lost(&thread.steps)
        {
            return Ok(true);
        }
    }
    Ok(false)
}

impl Judge<Module> for KnownIds {
    ghost Meaning = { ModulePart };

    ghost meaning = { module_part };

    ghost judges = { λ _. module_lost };

    fn is_bad(&self, module: &Module) -> bool {
        module.id.0 == 0
    }
}

/// Finds groups of an unknown class.
impl Judge<Group> for KnownIds {
    ghost Meaning = { GroupPart };

    ghost meaning = { group_part };

    ghost judges = { λ k. group_class_lost (known_ids k) };

    fn is_bad(&self, group: &Group) -> bool {
        is_lost(&self.classes, group.class.0)
    }
}

/// Finds threads of an unknown class.
impl Judge<Thread> for KnownIds {
    ghost Meaning = { ThreadPart };

    ghost meaning = { thread_part };

    ghost judges = { λ k. thread_class_lost (known_ids k) };

    fn is_bad(&self, thread: &Thread) -> bool {
        is_lost(&self.classes, thread.class.0)
    }
}

/// Whether a thread is started or a class prepared a second time, or no thread lives at the beginning.
fn starts_lost(alloc: Global, threads: &[Thread]) -> Result<bool, NoMemory>
    ensures { IfOk result (λ lost. lost ≡ starts_lost (map thread_part threads.now)) }
{
    Ok(
        StartedIds.has_twice(alloc, threads)?
            || PreparedIds.has_twice(alloc, threads)?
            || living(alloc, threads)? == 0,
    )
}

/// Whether something stands where it may not, these ids being known.
fn is_lost_among(alloc: Global, known: &KnownIds, script: &Script) -> Result<bool, NoMemory>
    ensures { IfOk result (λ lost. lost ≡ is_lost_among (known_ids known.now)
        (script_part script.now)) }
{
    Ok(
        groups_lost(alloc, &script.groups)?
            || types_lost(alloc, &script.classes)?
            || known.has_bad(&script.classes)
            || known.has_bad(&script.objects)
            || threads_lost(alloc, known, &script.threads)?
            || known.has_bad(&script.modules)
            || known.has_bad(&script.groups)
            || known.has_bad(&script.threads)
            || starts_lost(alloc, &script.threads)?,
    )
}

/// Whether an id is 0 or unknown, or something stands where it may not.
pub(crate) fn has_bad_reference(alloc: Global, script: &Script) -> Result<bool, NoMemory>
    ensures { IfOk result (λ bad. bad ≡ has_bad_reference (script_part script.now)) }
{
    let known = KnownIds::of(alloc, script)?;
    is_lost_among(alloc, &known, script)
}
