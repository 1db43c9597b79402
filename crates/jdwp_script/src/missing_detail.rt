//! Where the first member stands that is missing or of another type.
use crate::detail::Path;
use crate::fault::ScriptFault;
use crate::member::Member;
use crate::reading::{Part, member};
use crate::script::{Class, Field, FieldValue, Group, Line, Method, Module, Object, Slot, Thread};
use crate::step::Step;
use jdwp_value::ReferenceTypeId;
use jdwp_wire::NoMemory;
use serde_json::Value;
use std::alloc::Global;

/// The entries in which the member stands that is the first one missing or of another type.
pub(crate) fn missing_path(
    alloc: Global,
    script: &Value,
    missing: Member,
) -> Result<Path, NoMemory> {
    let mut path = Path::ROOT;
    let mut of = None;
    let mut object = script;
    for _ in 0..3 {
        let Some((list, place, entry)) = next_entry(alloc, object, of, missing)? else {
            return Ok(path);
        };
        path = path.to(list, place);
        of = Some(list);
        object = entry;
    }
    Ok(path)
}

/// The entry in which the member is missing, of the first list of this object that doesn't read; None where the object itself lacks the
/// member. `of` is the list that the object stands in, None for the script.
fn next_entry<'a>(
    alloc: Global,
    object: &'a Value,
    of: Option<Member>,
    missing: Member,
) -> Result<Option<(Member, usize, &'a Value)>, NoMemory> {
    if is_in_both(of, missing) && lacks(alloc, object, missing)? {
        return Ok(None);
    }
    for list in lists_of(of) {
        let Some(entries) = object.get(list.name()).and_then(Value::as_array) else {
            return Ok(None);
        };
        for (place, entry) in entries.as_slice().iter().enumerate() {
            match missing_in(alloc, of, *list, entry)? {
                Some(found) if found == missing => return Ok(Some((*list, place, entry))),
                Some(_) => return Ok(None),
                None => {}
            }
        }
    }
    Ok(None)
}

/// The lists of an object that stands in this list, or of the script, in the order in which they are read.
fn lists_of(of: Option<Member>) -> &'static [Member] {
    match of {
        None => &[
            Member::Groups,
            Member::Classes,
            Member::Objects,
            Member::Threads,
            Member::Modules,
        ],
        Some(Member::Classes) => &[Member::Interfaces, Member::Fields, Member::Methods],
        Some(Member::Methods) => &[Member::Lines, Member::Slots],
        Some(Member::Objects) => &[Member::Fields],
        Some(Member::Threads) => &[Member::Steps],
        _ => &[],
    }
}

/// Whether an object of this list has the member, and an entry of one of its lists, too.
fn is_in_both(of: Option<Member>, missing: Member) -> bool {
    match of {
        None => missing == Member::Name,
        Some(Member::Classes) => {
            missing == Member::Id || missing == Member::Signature || missing == Member::Modifiers
        }
        Some(Member::Methods) => missing == Member::Name || missing == Member::Signature,
        _ => false,
    }
}

/// Whether the object itself lacks such a member.
fn lacks(alloc: Global, object: &Value, missing: Member) -> Result<bool, NoMemory> {
    let found = match missing {
        Member::Id => lacking(member::<u64>(alloc, object, missing))?,
        Member::Modifiers => lacking(member::<i32>(alloc, object, missing))?,
        _ => lacking(member::<String>(alloc, object, missing))?,
    };
    Ok(found.is_some())
}

/// The member that is missing in this entry of a list of an object that stands in the list `of`, or of the script.
fn missing_in(
    alloc: Global,
    of: Option<Member>,
    list: Member,
    entry: &Value,
) -> Result<Option<Member>, NoMemory> {
    match list {
        Member::Groups => lacking(Group::read(alloc, entry, list)),
        Member::Classes => lacking(Class::read(alloc, entry, list)),
        Member::Objects => lacking(Object::read(alloc, entry, list)),
        Member::Threads => lacking(Thread::read(alloc, entry, list)),
        Member::Modules => lacking(Module::read(alloc, entry, list)),
        Member::Interfaces => lacking(ReferenceTypeId::read(alloc, entry, list)),
        Member::Fields if of == Some(Member::Objects) => {
            lacking(FieldValue::read(alloc, entry, list))
        }
        Member::Fields => lacking(Field::read(alloc, entry, list)),
        Member::Methods => lacking(Method::read(alloc, entry, list)),
        Member::Lines => lacking(Line::read(alloc, entry, list)),
        Member::Slots => lacking(Slot::read(alloc, entry, list)),
        Member::Steps => lacking(Step::read(alloc, entry, list)),
        _ => Ok(None),
    }
}

/// The member that a reading found missing.
fn lacking<T: Drop>(read: Result<T, ScriptFault>) -> Result<Option<Member>, NoMemory> {
    match read {
        Err(ScriptFault::Missing(member)) => Ok(Some(member)),
        Err(ScriptFault::NoMemory) => Err(NoMemory),
        Ok(_) | Err(_) => Ok(None),
    }
}
