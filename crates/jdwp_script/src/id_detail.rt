//! Which id of a script stands twice, and where one is too wide.
use crate::detail::{Cause, Detail, IdKind, Path};
use crate::gather::Gather;
use crate::ids::{FieldIds, FrameIds, Ids, MethodIds, shared_ids};
use crate::judge::first_bad;
use crate::known::value_ids;
use crate::member::Member;
use crate::script::{Class, Object, Script, Sizes, Thread};
use crate::too_wide::TooWide;
use jdwp_wire::{IdSizes, NoMemory};
use std::alloc::Global;
use std::collections::BTreeSet;

/// Which id stands twice, if one does: the first of its kind that has stood before.
pub(crate) fn twice_detail(alloc: Global, script: &Script) -> Result<Detail, NoMemory> {
    for kind in [
        IdKind::Shared,
        IdKind::Module,
        IdKind::Class,
        IdKind::Method,
        IdKind::Field,
        IdKind::Frame,
    ] {
        if let Some(id) = second_listed(alloc, ids_of(alloc, script, kind))? {
            return Ok(Detail::of(Cause::Twice(kind, id)));
        }
    }
    Ok(Detail::of(Cause::Unsaid))
}

/// The ids of a kind that the script lists; of modules those of all with which a module may share no id.
fn ids_of(alloc: Global, script: &Script, kind: IdKind) -> Result<Vec<u64>, NoMemory> {
    match kind {
        IdKind::Shared | IdKind::Group | IdKind::Object | IdKind::Thread => {
            value_ids(alloc, script)
        }
        IdKind::Module => shared_ids(alloc, script),
        IdKind::Class => Ids.listed(alloc, &script.classes),
        IdKind::Method => MethodIds.listed(alloc, &script.classes),
        IdKind::Field => FieldIds.listed(alloc, &script.classes),
        IdKind::Frame => FrameIds.listed(alloc, &script.threads),
    }
}

/// The first of the ids that were listed that has stood before.
pub(crate) fn second_listed(
    alloc: Global,
    listed: Result<Vec<u64>, NoMemory>,
) -> Result<Option<u64>, NoMemory> {
    match listed {
        Ok(ids) => second_id(alloc, &ids),
        Err(fault) => Err(fault),
    }
}

/// The first of these ids that has stood before.
pub(crate) fn second_id(alloc: Global, ids: &[u64]) -> Result<Option<u64>, NoMemory> {
    let mut seen = BTreeSet::new(alloc);
    for id in ids {
        if !seen.insert(*id)? {
            return Ok(Some(*id));
        }
    }
    Ok(None)
}

/// Which width is none, or where an id stands that is too wide.
pub(crate) fn wide_detail(script: &Script) -> Detail {
    let s = script.sizes;
    let Ok(sizes) = IdSizes::new(s.field, s.method, s.object, s.reference, s.frame) else {
        return Detail::of(Cause::Width(no_width(&s)));
    };
    let wide = TooWide { sizes };
    Detail {
        cause: Cause::Unsaid,
        path: wide_path(&wide, script),
    }
}

/// The first width that is outside 1 to 8.
fn no_width(sizes: &Sizes) -> u32 {
    let mut found = sizes.frame;
    for width in [sizes.reference, sizes.object, sizes.method, sizes.field] {
        if width < 1 || width > 8 {
            found = width;
        }
    }
    found
}

/// Where an id stands that is too wide.
fn wide_path(wide: &TooWide, script: &Script) -> Path {
    let root = Path::ROOT;
    if let Some(place) = first_bad(wide, &script.groups) {
        root.to(Member::Groups, place)
    } else if let Some(place) = first_bad(wide, &script.classes) {
        wide_in_class(
            wide,
            &script.classes[place],
            root.to(Member::Classes, place),
        )
    } else if let Some(place) = first_bad(wide, &script.objects) {
        wide_in_object(
            wide,
            &script.objects[place],
            root.to(Member::Objects, place),
        )
    } else if let Some(place) = first_bad(wide, &script.threads) {
        wide_in_thread(
            wide,
            &script.threads[place],
            root.to(Member::Threads, place),
        )
    } else if let Some(place) = first_bad(wide, &script.modules) {
        root.to(Member::Modules, place)
    } else {
        root
    }
}

fn wide_in_class(wide: &TooWide, class: &Class, path: Path) -> Path {
    if let Some(place) = first_bad(wide, &class.interfaces) {
        path.to(Member::Interfaces, place)
    } else if let Some(place) = first_bad(wide, &class.fields) {
        path.to(Member::Fields, place)
    } else if let Some(place) = first_bad(wide, &class.methods) {
        path.to(Member::Methods, place)
    } else {
        path
    }
}

fn wide_in_object(wide: &TooWide, object: &Object, path: Path) -> Path {
    match first_bad(wide, &object.fields) {
        Some(place) => path.to(Member::Fields, place),
        None => path,
    }
}

fn wide_in_thread(wide: &TooWide, thread: &Thread, path: Path) -> Path {
    match first_bad(wide, &thread.steps) {
        Some(place) => path.to(Member::Steps, place),
        None => path,
    }
}
