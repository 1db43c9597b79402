//! Reading the parts of a JSON value.
ghost use Rattle.std.specs.Prelude.{◌≡◌, ℕ, ℤ, List, map, Option, option_map, Result, String, string_bytes};
ghost use Rattle.serde_json.specs.Data.{Data};
ghost use Rattle.serde_json.specs.View.{view};
ghost use Rattle.jdwp_script.specs.declared.fault.ScriptFault.{ScriptFault};
ghost use Rattle.jdwp_script.specs.declared.member.Member.{Member};
ghost use Rattle.jdwp_script.specs.Reading.{Reader, Gives, whole, small, int, text, or_null, list_of, entries, tuple, entry, member_of, member_or};

use crate::fault::ScriptFault;
use crate::member::Member;
use serde_json::Value;
use std::alloc::Global;

/// What a JSON value can be read as.
pub(crate) trait Part: Sized {
    /// What the part is, apart from where it lies in memory.
    ghost Meaning: { Type 0 };

    ghost meaning: { Self → Meaning };

    /// The part that stands in a member's value, or the member that is missing or of another type.
    ghost reads: { Member → Data → Result Meaning ScriptFault };

    /// The part that the value is. It is `member`'s value, or stands in it.
    ///
    /// # Errors
    /// `Missing` with the first member that is missing or of another type: `member` itself where the value is of
    /// another type. `NoMemory` where an allocation was refused.
    fn read(alloc: Global, value: &Value, member: Member) -> Result<Self, ScriptFault>
        ensures { Gives meaning result (reads member (view value.now)) };
}

/// A whole number from 0.
impl Part for u64 {
    ghost Meaning = { ℕ };

    ghost meaning = { λ n. n };

    ghost reads = { whole };

    fn read(_alloc: Global, value: &Value, member: Member) -> Result<u64, ScriptFault> {
        match value.as_u64() {
            Some(number) => Ok(number),
            None => Err(ScriptFault::Missing(member)),
        }
    }
}

/// A whole number from 0, below 2^31.
impl Part for u32 {
    ghost Meaning = { ℕ };

    ghost meaning = { λ n. n };

    ghost reads = { small };

    fn read(alloc: Global, value: &Value, member: Member) -> Result<u32, ScriptFault> {
        let number = u64::read(alloc, value, member)?;
        if number < 2_147_483_648 {
            Ok(number as u32)
        } else {
            Err(ScriptFault::Missing(member))
        }
    }
}

/// A whole number from 0.
impl Part for i32 {
    ghost Meaning = { ℤ };

    ghost meaning = { λ n. n };

    ghost reads = { int };

    fn read(alloc: Global, value: &Value, member: Member) -> Result<i32, ScriptFault> {
        let number = u64::read(alloc, value, member)?;
        if number < 2_147_483_648 {
            Ok(number as i32)
        } else {
            Err(ScriptFault::Missing(member))
        }
    }
}

impl Part for String {
    ghost Meaning = { List ℕ };

    ghost meaning = { λ s. string_bytes s };

    ghost reads = { text };

    fn read(alloc: Global, value: &Value, member: Member) -> Result<String, ScriptFault> {
        match value.as_str() {
            Some(text) => Ok(String::from_str(alloc, text)?),
            None => Err(ScriptFault::Missing(member)),
        }
    }
}

/// `null` is None.
impl<T: Part> Part for Option<T> {
    ghost Meaning = { Option T.Meaning };

    ghost meaning = { λ o. option_map T.meaning o };

    ghost reads = { or_null T.reads };

    fn read(alloc: Global, value: &Value, member: Member) -> Result<Option<T>, ScriptFault> {
        if value.is_null() {
            return Ok(None);
        }
        let part = T::read(alloc, value, member)?;
        Ok(Some(part))
    }
}

/// A list.
impl<T: Part + Drop> Part for Vec<T> {
    ghost Meaning = { List T.Meaning };

    ghost meaning = { λ v. map T.meaning v.items };

    ghost reads = { list_of T.reads };

    fn read(alloc: Global, value: &Value, member: Member) -> Result<Vec<T>, ScriptFault> {
        let list = entries(value, member)?;
        let mut parts = Vec::with_capacity(alloc, list.len())?;
        for element in list {
            let part = T::read(alloc, element, member)?;
            parts.push(part)?;
        }
        Ok(parts)
    }
}

/// The entries of the list that the value is.
///
/// # Errors
/// `Missing` with the member where it is no list.
pub(crate) fn entries<'a>(value: &'a Value, member: Member) -> Result<&'a [Value], ScriptFault>
    ensures { Gives (λ list. map view list.now) result (entries member (view value.now)) }
{
    match value.as_array() {
        Some(list) => Ok(list.as_slice()),
        None => Err(ScriptFault::Missing(member)),
    }
}

/// The entries of the list of this length that the value is.
///
/// # Errors
/// `Missing` with the member where it is none.
pub(crate) fn tuple<'a>(
    value: &'a Value,
    len: usize,
    member: Member,
) -> Result<&'a [Value], ScriptFault>
    ensures { Gives (λ list. map view list.now) result (tuple len member (view value.now)) }
{
    let list = entries(value, member)?;
    if list.len() == len {
        Ok(list)
    } else {
        Err(ScriptFault::Missing(member))
    }
}

/// What stands at this place of a list, counted from 0.
///
/// # Errors
/// `Missing` with the member where the list ends before, and what reading the entry answers.
pub(crate) fn entry<T: Part>(
    alloc: Global,
    list: &[Value],
    place: usize,
    member: Member,
) -> Result<T, ScriptFault>
    ensures { Gives T.meaning result (entry T.reads member (map view list.now) place) }
{
    match list.get(place) {
        Some(value) => T::read(alloc, value, member),
        None => Err(ScriptFault::Missing(member)),
    }
}

/// What the member of an object is.
///
/// # Errors
/// `Missing` with the member where the value is no object or has no such member, and what reading the member's value
/// answers.
pub(crate) fn member<T: Part>(
    alloc: Global,
    object: &Value,
    member: Member,
) -> Result<T, ScriptFault>
    ensures { Gives T.meaning result (member_of member T.reads (view object.now)) }
{
    match object.get(member.name()) {
        Some(value) => T::read(alloc, value, member),
        None => Err(ScriptFault::Missing(member)),
    }
}

/// What the member of an object is, or `otherwise` where the value is no object or has no such member.
///
/// # Errors
/// What reading the member's value answers.
pub(crate) fn member_or<T: Part + Drop>(
    alloc: Global,
    otherwise: T,
    object: &Value,
    member: Member,
) -> Result<T, ScriptFault>
    ensures { Gives T.meaning result
        (member_or (T.meaning otherwise) member T.reads (view object.now)) }
{
    match object.get(member.name()) {
        Some(value) => T::read(alloc, value, member),
        None => Ok(otherwise),
    }
}
