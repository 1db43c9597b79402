//! Locations and values at the front of a text.

use crate::numbers::{after, id, number};
use jdwp_value::{Location, MethodId, ObjectId, ReferenceTypeId, Tag, TaggedId, TypeTag, Value};

/// The location in front, as `1:#10:#20:3`, and what follows it.
pub(crate) fn location(bytes: &[u8]) -> Option<(Location, &[u8])> {
    let (tag, rest) = number(bytes, 3)?;
    let rest = after(rest, b':')?;
    let (class, rest) = id(rest)?;
    let rest = after(rest, b':')?;
    let (method, rest) = id(rest)?;
    let rest = after(rest, b':')?;
    let (index, rest) = number(rest, u64::MAX)?;
    Some((location_of(tag, class, method, index), rest))
}

/// The location of these numbers; where the tag is 0 none, whatever the others are.
fn location_of(tag: u64, class: u64, method: u64, index: u64) -> Location {
    let tag = match tag {
        0 => return Location::Null,
        1 => TypeTag::Class,
        2 => TypeTag::Interface,
        _ => TypeTag::Array,
    };
    Location::At {
        tag,
        class: ReferenceTypeId(class),
        method: MethodId(method),
        index,
    }
}

/// The tag in front, and what follows it.
pub(crate) fn tag(bytes: &[u8]) -> Option<(Tag, &[u8])> {
    match bytes {
        [] => None,
        [byte, rest @ ..] => {
            let tag = Tag::of_byte(*byte)?;
            Some((tag, rest))
        }
    }
}

/// The object with its tag in front, as `L#5`, and what follows it.
pub(crate) fn tagged(bytes: &[u8]) -> Option<(TaggedId, &[u8])> {
    let (tag, rest) = tag(bytes)?;
    match tag {
        Tag::Object(tag) => {
            let (id, rest) = id(rest)?;
            let id = ObjectId(id);
            Some((TaggedId { tag, id }, rest))
        }
        _ => None,
    }
}

/// The value in front, as `I:7`, `V` or `L#5`, and what follows it.
pub(crate) fn value(bytes: &[u8]) -> Option<(Value, &[u8])> {
    let (tag, rest) = tag(bytes)?;
    match tag {
        Tag::Void => Some((Value::Void, rest)),
        Tag::Object(tag) => {
            let (id, rest) = id(rest)?;
            let id = ObjectId(id);
            Some((Value::Object(TaggedId { tag, id }), rest))
        }
        _ => {
            let rest = after(rest, b':')?;
            bits(tag, rest)
        }
    }
}

/// The bits of a value of this tag in front, as an unsigned number, and what follows them. A value of another tag is no number.
fn bits(tag: Tag, bytes: &[u8]) -> Option<(Value, &[u8])> {
    match tag {
        Tag::Byte => {
            let (bits, rest) = number(bytes, 0xff)?;
            Some((Value::Byte(bits as u8), rest))
        }
        Tag::Char => {
            let (bits, rest) = number(bytes, 0xffff)?;
            Some((Value::Char(bits as u16), rest))
        }
        Tag::Double => {
            let (bits, rest) = number(bytes, u64::MAX)?;
            Some((Value::Double(bits), rest))
        }
        Tag::Float => {
            let (bits, rest) = number(bytes, 0xffff_ffff)?;
            Some((Value::Float(bits as u32), rest))
        }
        Tag::Int => {
            let (bits, rest) = number(bytes, 0xffff_ffff)?;
            Some((Value::Int(bits as u32), rest))
        }
        Tag::Long => {
            let (bits, rest) = number(bytes, u64::MAX)?;
            Some((Value::Long(bits), rest))
        }
        Tag::Short => {
            let (bits, rest) = number(bytes, 0xffff)?;
            Some((Value::Short(bits as u16), rest))
        }
        Tag::Boolean => {
            let (bits, rest) = number(bytes, 1)?;
            Some((Value::Boolean(bits > 0), rest))
        }
        Tag::Void | Tag::Object(_) => None,
    }
}

/// The element of a region of this tag in front, and what follows it.
pub(crate) fn element(tag: Tag, bytes: &[u8]) -> Option<(Value, &[u8])> {
    if tag.is_object() {
        let (object, rest) = tagged(bytes)?;
        Some((Value::Object(object), rest))
    } else {
        bits(tag, bytes)
    }
}
