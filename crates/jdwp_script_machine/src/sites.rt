//! What a script has at a place: classes and what they reach, methods, lines, and the tags of objects.
ghost use Rattle.std.specs.Prelude.{◌≡◌, ◌==◌, IfOk, filter, option_map};
ghost use Rattle.jdwp_event.specs.Occurrences.{ids_of, class_meaning, place_meaning};
ghost use Rattle.jdwp_script.specs.Meanings.{class_part, object_part, script_part};
ghost use Rattle.jdwp_script_machine.specs.Found.{found, site_part, site_found};
ghost use Rattle.jdwp_script_machine.specs.Layers.{class_ids, stands_alone};
ghost use Rattle.jdwp_script_machine.specs.LookUps.{is_some};
ghost use Rattle.jdwp_script_machine.specs.Sites.{tagged, class_in, reached, class_seen, line_of, site_in, site_location, site_place, found_location, tag_by_contents};

use crate::layers::reached_within;
use crate::look_ups::with_id;
use jdwp_event::{ClassSeen, Place};
use jdwp_script::{Class, Line, Method, Object, Script};
use jdwp_value::{Location, MethodId, ObjectId, ObjectTag, ReferenceTypeId, TaggedId};
use jdwp_wire::NoMemory;
use std::alloc::Global;

/// A class, and a method of it.
#[derive(Clone, Copy)]
pub(crate) struct SiteRef<'a> {
    pub(crate) class: &'a Class,
    pub(crate) method: &'a Method,
}

/// The class of this id, and its method of that id, if there are both.
pub(crate) fn site_in(
    script: &Script,
    class: ReferenceTypeId,
    method: MethodId,
) -> Option<SiteRef<'_>>
    ensures { site_found result ≡ site_in (script_part script.now) class.0 method.0 }
{
    let class = with_id(&script.classes, class.0)?;
    let method = with_id(&class.methods, method.0)?;
    Some(SiteRef { class, method })
}

/// The location of an index there; the null location where there is no such site.
pub(crate) fn location(
    script: &Script,
    class: ReferenceTypeId,
    method: MethodId,
    index: u64,
) -> Location
    ensures { result ≡ found_location index (site_in (script_part script.now) class.0 method.0) }
{
    match site_in(script, class, method) {
        None => Location::Null,
        Some(site) => location_at(site, index),
    }
}

fn location_at(site: SiteRef<'_>, index: u64) -> Location
    ensures { result ≡ site_location index (site_part site.entry) }
{
    Location::At {
        tag: site.class.tag,
        class: site.class.id,
        method: site.method.id,
        index,
    }
}

/// The place of a thread that has so many frames, if there is such a site.
///
/// # Errors
/// `NoMemory` where an allocation was refused.
pub(crate) fn place(
    alloc: Global,
    script: &Script,
    frames: u32,
    site: SiteRef<'_>,
    index: u64,
) -> Result<Place, NoMemory>
    ensures { IfOk result (λ place. place_meaning place ≡ site_place (script_part script.now) frames
        index (site_part site.entry)) }
{
    Ok(Place {
        location: location_at(site, index),
        line: line_of(&site.method.lines, index),
        frames,
        class: class_seen(alloc, script, site.class)?,
    })
}

/// The line of the last entry at or before the index, if there is one.
fn line_of(lines: &[Line], index: u64) -> Option<u32>
    ensures { result ≡ line_of lines.now index }
{
    let mut found = None;
    for line in lines {
        if line.index <= index {
            found = Some(line.line.unsigned_abs());
        }
    }
    found
}

/// The class, as filters see it.
///
/// # Errors
/// `NoMemory` where an allocation was refused.
pub(crate) fn class_seen(
    alloc: Global,
    script: &Script,
    class: &Class,
) -> Result<ClassSeen, NoMemory>
    ensures { IfOk result (λ seen. class_meaning seen ≡ class_seen (script_part script.now)
        (class_part class.now)) }
{
    Ok(ClassSeen {
        signature: class.signature.clone()?,
        reaches: reached(alloc, script, class.id)?,
    })
}

/// The classes that this one reaches, by rising id: itself, and those that its superclass and its interfaces reach.
///
/// # Errors
/// `NoMemory` where an allocation was refused.
pub(crate) fn reached(
    alloc: Global,
    script: &Script,
    from: ReferenceTypeId,
) -> Result<Vec<ReferenceTypeId>, NoMemory>
    ensures { IfOk result (λ ids. ids_of ids ≡ reached (script_part script.now) from.0) }
{
    if stands_alone(script, from) {
        classes_with_id(alloc, script, from)
    } else {
        reached_by_layers(alloc, script, from)
    }
}

/// Whether no class of the script stands above this one, so that it reaches itself alone.
fn stands_alone(script: &Script, from: ReferenceTypeId) -> bool
    ensures { result ≡ stands_alone (script_part script.now)
        (class_in (script_part script.now) from.0) }
{
    match with_id(&script.classes, from.0) {
        None => true,
        Some(class) => class.interfaces.is_empty() && !has_class(script, class.superclass),
    }
}

/// Whether the script has a class with this id.
fn has_class(script: &Script, id: ReferenceTypeId) -> bool
    ensures { result ≡ is_some (class_in (script_part script.now) id.0) }
{
    with_id(&script.classes, id.0).is_some()
}

/// The ids of the classes with this one.
///
/// # Errors
/// `NoMemory` where an allocation was refused.
fn classes_with_id(
    alloc: Global,
    script: &Script,
    wanted: ReferenceTypeId,
) -> Result<Vec<ReferenceTypeId>, NoMemory>
    ensures { IfOk result (λ ids. ids_of ids ≡ filter (λ id. wanted.0 == id)
        (class_ids (script_part script.now).classes)) }
{
    let mut ids = Vec::new(alloc);
    for class in &script.classes {
        if class.id == wanted {
            ids.push(class.id)?;
        }
    }
    Ok(ids)
}

/// The classes that this one reaches, found layer by layer.
///
/// # Errors
/// `NoMemory` where an allocation was refused.
fn reached_by_layers(
    alloc: Global,
    script: &Script,
    from: ReferenceTypeId,
) -> Result<Vec<ReferenceTypeId>, NoMemory>
    ensures { IfOk result (λ ids. ids_of ids ≡ reached (script_part script.now) from.0) }
{
    let found = reached_within(alloc, script, script.classes.len(), from)?;
    let mut ids = Vec::new(alloc);
    for class in &script.classes {
        if found.contains(&class.id.0) {
            ids.push(class.id)?;
        }
    }
    Ok(ids)
}

/// The id with the tag of what it names: an object's by what it has, and else that of a plain object.
pub(crate) fn tagged(script: &Script, id: ObjectId) -> TaggedId
    ensures { result ≡ tagged (script_part script.now) id.0 }
{
    let tag = match with_id(&script.objects, id.0) {
        None => ObjectTag::Object,
        Some(object) => tag_of(object),
    };
    TaggedId { tag, id }
}

fn tag_of(object: &Object) -> ObjectTag
    ensures { result ≡ tag_by_contents (object_part object.now).text
        (object_part object.now).array }
{
    match (&object.text, &object.array) {
        (Some(_), _) => ObjectTag::String,
        (None, Some(_)) => ObjectTag::Array,
        (None, None) => ObjectTag::Object,
    }
}
