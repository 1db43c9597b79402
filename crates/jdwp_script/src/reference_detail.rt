//! Which reference of a script is bad, and where.
use crate::detail::{Cause, Detail, IdKind, Path};
use crate::gather::Gather;
use crate::id_detail::{second_id, second_listed};
use crate::ids::{PreparedIds, StartedIds};
use crate::judge::{Judge, first_bad};
use crate::known::KnownIds;
use crate::loops::{GoesBack, IsOnce, loop_lost};
use crate::member::Member;
use crate::references::{change_frames, field_twice, fits_tag, is_lost, lines_lost, step_lost};
use crate::script::{Class, Elements, Field, FieldValue, Group, Method, Object, Script, Thread};
use crate::step::{Call, Literal, Place, SlotValue, Step, Throw};
use jdwp_wire::NoMemory;
use std::alloc::Global;
use std::collections::BTreeSet;

/// Which reference is bad, and where.
pub(crate) fn reference_detail(alloc: Global, script: &Script) -> Result<Detail, NoMemory> {
    let known = KnownIds::of(alloc, script)?;
    detail_among(alloc, &known, script)
}

/// Which reference is bad, and where, these ids being known.
fn detail_among(alloc: Global, known: &KnownIds, script: &Script) -> Result<Detail, NoMemory> {
    if let Some(found) = group_detail(alloc, &script.groups)? {
        return Ok(found);
    }
    if let Some(found) = type_detail(alloc, &script.classes)? {
        return Ok(found);
    }
    let root = Path::ROOT;
    if let Some(place) = first_bad(known, &script.classes) {
        let path = root.to(Member::Classes, place);
        return Ok(class_detail(known, &script.classes[place], path));
    }
    if let Some(place) = first_bad(known, &script.objects) {
        let path = root.to(Member::Objects, place);
        return object_detail(alloc, known, &script.objects[place], path);
    }
    if let Some(found) = thread_detail(alloc, known, &script.threads)? {
        return Ok(found);
    }
    if let Some(place) = first_bad(known, &script.modules) {
        return Ok(Detail {
            cause: Cause::Zero(IdKind::Module),
            path: root.to(Member::Modules, place),
        });
    }
    if let Some(found) = class_of_detail(known, script) {
        return Ok(found);
    }
    Ok(Detail::of(start_cause(alloc, &script.threads)?))
}

/// The first group, or else the first thread, of an unknown class.
fn class_of_detail(known: &KnownIds, script: &Script) -> Option<Detail> {
    let root = Path::ROOT;
    if let Some(place) = first_bad(known, &script.groups) {
        return Some(Detail {
            cause: Cause::Unknown(IdKind::Class, script.groups[place].class.0),
            path: root.to(Member::Groups, place),
        });
    }
    match first_bad(known, &script.threads) {
        Some(place) => Some(Detail {
            cause: Cause::Unknown(IdKind::Class, script.threads[place].class.0),
            path: root.to(Member::Threads, place),
        }),
        None => None,
    }
}

/// The first group of id 0, or with a parent that does not stand before it.
fn group_detail(alloc: Global, groups: &[Group]) -> Result<Option<Detail>, NoMemory> {
    let mut before = BTreeSet::new(alloc);
    for (place, group) in groups.iter().enumerate() {
        let cause = if group.id.0 == 0 {
            Cause::Zero(IdKind::Group)
        } else {
            unknown(&before, IdKind::Group, group.parent.0)
        };
        if cause != Cause::Unsaid {
            let path = Path::ROOT.to(Member::Groups, place);
            return Ok(Some(Detail { cause, path }));
        }
        before.insert(group.id.0)?;
    }
    Ok(None)
}

/// That nothing of the kind is known under this id, unless it is 0.
fn unknown(known: &BTreeSet<u64>, kind: IdKind, id: u64) -> Cause {
    if is_lost(known, id) {
        Cause::Unknown(kind, id)
    } else {
        Cause::Unsaid
    }
}

/// The first class of id 0, or with a superclass or an interface that does not stand before it.
fn type_detail(alloc: Global, classes: &[Class]) -> Result<Option<Detail>, NoMemory> {
    let mut before = BTreeSet::new(alloc);
    for (place, class) in classes.iter().enumerate() {
        let cause = type_cause(&before, class);
        if cause != Cause::Unsaid {
            let path = Path::ROOT.to(Member::Classes, place);
            return Ok(Some(Detail { cause, path }));
        }
        before.insert(class.id.0)?;
    }
    Ok(None)
}

fn type_cause(before: &BTreeSet<u64>, class: &Class) -> Cause {
    if class.id.0 == 0 {
        return Cause::Zero(IdKind::Class);
    }
    for interface in &class.interfaces {
        if !before.contains(&interface.0) && !is_lost(before, class.superclass.0) {
            return Cause::Unknown(IdKind::Class, interface.0);
        }
    }
    unknown(before, IdKind::Class, class.superclass.0)
}

/// What is bad of a value that is.
fn literal_cause(literal: &Literal) -> Cause {
    if fits_tag(literal.tag, literal.bits) {
        Cause::Unknown(IdKind::Shared, literal.bits)
    } else {
        Cause::Bits(literal.bits)
    }
}

/// What is bad of a class's fields, of its methods, or of its module.
fn class_detail(known: &KnownIds, class: &Class, path: Path) -> Detail {
    if let Some(place) = first_bad(known, &class.fields) {
        return Detail {
            cause: field_cause(&class.fields[place]),
            path: path.to(Member::Fields, place),
        };
    }
    match first_bad(known, &class.methods) {
        Some(place) => Detail {
            cause: method_cause(&class.methods[place]),
            path: path.to(Member::Methods, place),
        },
        None => Detail {
            cause: unknown(&known.modules, IdKind::Module, class.module.0),
            path,
        },
    }
}

/// What is bad of a field that is.
fn field_cause(field: &Field) -> Cause {
    if field.id.0 == 0 {
        return Cause::Zero(IdKind::Field);
    }
    match &field.value {
        Some(value) => literal_cause(value),
        None => Cause::Unsaid,
    }
}

/// What is bad of a method that is.
fn method_cause(method: &Method) -> Cause {
    if method.id.0 == 0 {
        return Cause::Zero(IdKind::Method);
    }
    match &method.returns {
        Some(value) if !lines_lost(method.last, &method.lines) => literal_cause(value),
        _ => Cause::Lines,
    }
}

/// What is bad of an object that is.
fn object_detail(
    alloc: Global,
    known: &KnownIds,
    object: &Object,
    path: Path,
) -> Result<Detail, NoMemory> {
    if object.id.0 == 0 {
        let cause = Cause::Zero(IdKind::Object);
        return Ok(Detail { cause, path });
    }
    if !known.classes.contains(&object.class.0) {
        let cause = Cause::Unknown(IdKind::Class, object.class.0);
        return Ok(Detail { cause, path });
    }
    if let Some(place) = first_bad(known, &object.fields) {
        return Ok(Detail {
            cause: held_cause(known, &object.fields[place]),
            path: path.to(Member::Fields, place),
        });
    }
    if field_twice(&object.fields) {
        let cause = field_twice_cause(alloc, &object.fields)?;
        return Ok(Detail { cause, path });
    }
    let cause = match &object.array {
        Some(elements) => elements_cause(known, elements),
        None => Cause::Unsaid,
    };
    Ok(Detail { cause, path })
}

/// What is bad of a field of an object that is.
fn held_cause(known: &KnownIds, held: &FieldValue) -> Cause {
    if known.fields.contains(&held.field.0) {
        literal_cause(&held.value)
    } else {
        Cause::Unknown(IdKind::Field, held.field.0)
    }
}

/// The field that an object lists twice.
fn field_twice_cause(alloc: Global, fields: &[FieldValue]) -> Result<Cause, NoMemory> {
    let mut ids = Vec::new(alloc);
    for held in fields {
        ids.push(held.field.0)?;
    }
    Ok(match second_id(alloc, &ids)? {
        Some(id) => Cause::Twice(IdKind::Field, id),
        None => Cause::Unsaid,
    })
}

/// What is bad of the first element that is.
fn elements_cause(known: &KnownIds, elements: &Elements) -> Cause {
    for bits in &elements.bits {
        let literal = Literal {
            tag: elements.tag,
            bits: *bits,
        };
        if known.is_bad(&literal) {
            return literal_cause(&literal);
        }
    }
    Cause::Unsaid
}

/// The first thread of id 0, or with an unknown group, a step that may not stand where it does, or an `again` that may not.
fn thread_detail(
    alloc: Global,
    known: &KnownIds,
    threads: &[Thread],
) -> Result<Option<Detail>, NoMemory> {
    for (place, thread) in threads.iter().enumerate() {
        let path = Path::ROOT.to(Member::Threads, place);
        if thread.id.0 == 0 {
            let cause = Cause::Zero(IdKind::Thread);
            return Ok(Some(Detail { cause, path }));
        }
        if !known.groups.contains(&thread.group.0) {
            let cause = Cause::Unknown(IdKind::Group, thread.group.0);
            return Ok(Some(Detail { cause, path }));
        }
        if let Some(found) = step_detail(alloc, known, &thread.steps, path)? {
            return Ok(Some(found));
        }
        if loop_lost(&thread.steps) {
            return Ok(Some(loop_detail(&thread.steps, path)));
        }
    }
    Ok(None)
}

/// The first of a thread's steps that may not stand where it does.
fn step_detail(
    alloc: Global,
    known: &KnownIds,
    steps: &[Step],
    path: Path,
) -> Result<Option<Detail>, NoMemory> {
    let mut frames = Vec::new(alloc);
    for (place, step) in steps.iter().enumerate() {
        if step_lost(known, &frames, step) {
            return Ok(Some(Detail {
                cause: step_cause(known, &frames, step),
                path: path.to(Member::Steps, place),
            }));
        }
        change_frames(known, &mut frames, step)?;
    }
    Ok(None)
}

/// What is bad of a step that may not stand where its thread has these frames.
fn step_cause(known: &KnownIds, frames: &[u64], step: &Step) -> Cause {
    match step {
        Step::Call(call) => call_cause(known, call),
        Step::Prepare(class) => Cause::Unknown(IdKind::Class, class.0),
        Step::Start(thread) => Cause::Unknown(IdKind::Thread, thread.0),
        Step::Go(_) | Step::Return(_) | Step::Throw(_) if frames.is_empty() => Cause::NoFrame,
        Step::Go(index) => Cause::Past(*index),
        Step::Return(value) => literal_cause(value),
        Step::Throw(throw) => throw_cause(known, throw),
        Step::Again(_) => Cause::Unsaid,
    }
}

/// What is bad of the first `again` of a thread, or of the step behind it.
fn loop_detail(steps: &[Step], path: Path) -> Detail {
    let place = first_bad(&GoesBack, steps).unwrap_or(0);
    if place + 1 < steps.len() {
        return Detail {
            cause: Cause::NeverMade,
            path: path.to(Member::Steps, place + 1),
        };
    }
    let cause = match steps.last() {
        Some(Step::Again(back)) => again_cause(&steps[..place], *back),
        _ => Cause::Unsaid,
    };
    Detail {
        cause,
        path: path.to(Member::Steps, place),
    }
}

/// What is bad of an `again` behind these steps that goes so many back.
fn again_cause(before: &[Step], back: u32) -> Cause {
    if back == 0 || before.len() < back as usize {
        return Cause::Back(back, before.len());
    }
    let steps = &before[before.len() - back as usize..];
    match first_bad(&IsOnce, steps) {
        Some(place) => once_cause(&steps[place]),
        None => Cause::OtherFrames,
    }
}

/// What would begin a second time by this step.
fn once_cause(step: &Step) -> Cause {
    match step {
        Step::Start(thread) => Cause::Again(IdKind::Thread, thread.0),
        Step::Prepare(class) => Cause::Again(IdKind::Class, class.0),
        _ => Cause::Unsaid,
    }
}

fn call_cause(known: &KnownIds, call: &Call) -> Cause {
    if call.frame.0 == 0 {
        return Cause::Zero(IdKind::Frame);
    }
    if !known.classes.contains(&call.class.0) {
        return Cause::Unknown(IdKind::Class, call.class.0);
    }
    if known.last(call.class, call.method).is_none() {
        return Cause::Unknown(IdKind::Method, call.method.0);
    }
    if is_lost(&known.objects, call.this.0) {
        return Cause::Unknown(IdKind::Object, call.this.0);
    }
    match first_bad(known, &call.slots) {
        Some(place) => literal_cause(&call.slots[place].value),
        None => slot_cause(&call.slots),
    }
}

/// The slot that a call lists twice.
fn slot_cause(slots: &[SlotValue]) -> Cause {
    for place in 0..slots.len() {
        for other in &slots[place + 1..] {
            if other.slot == slots[place].slot {
                return Cause::SlotTwice(other.slot);
            }
        }
    }
    Cause::Unsaid
}

fn throw_cause(known: &KnownIds, throw: &Throw) -> Cause {
    if !known.objects.contains(&throw.object.0) {
        return Cause::Unknown(IdKind::Object, throw.object.0);
    }
    match &throw.caught {
        Some(place) => place_cause(known, place),
        None => Cause::Unsaid,
    }
}

fn place_cause(known: &KnownIds, place: &Place) -> Cause {
    if !known.classes.contains(&place.class.0) {
        Cause::Unknown(IdKind::Class, place.class.0)
    } else if known.last(place.class, place.method).is_none() {
        Cause::Unknown(IdKind::Method, place.method.0)
    } else {
        Cause::Past(place.index)
    }
}

/// What begins a second time, or that no thread lives at the beginning.
fn start_cause(alloc: Global, threads: &[Thread]) -> Result<Cause, NoMemory> {
    if let Some(id) = second_listed(alloc, StartedIds.listed(alloc, threads))? {
        return Ok(Cause::Again(IdKind::Thread, id));
    }
    match second_listed(alloc, PreparedIds.listed(alloc, threads))? {
        Some(id) => Ok(Cause::Again(IdKind::Class, id)),
        None => Ok(Cause::NobodyLives),
    }
}
