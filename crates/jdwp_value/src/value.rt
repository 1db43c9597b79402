//! Values and tagged ids (JDWP specification, "Data Types": value, untagged-value, tagged-objectID).
ghost use Rattle.std.specs.Prelude.{◌≡◌, ◌≤◌, ◌+◌, ℕ, None, IfSome, length, take, IfOk, OnOk, IfErr, vec_len, vec_capacity};
ghost use Rattle.std.specs.Result.{IsErrOf};
ghost use Rattle.jdwp_wire.specs.declared.data_fault.DataFault.TheVariants.{NoMemory};
ghost use Rattle.jdwp_wire.specs.Reading.{Gives, passed};
ghost use Rattle.jdwp_wire.specs.Writing.{Appends, Leaves, HasRoom};
ghost use Rattle.jdwp_wire.specs.Numbers.{id_refusal};
ghost use Rattle.jdwp_value.specs.declared.tag.Tag.TheVariants.{Void};
ghost use Rattle.jdwp_value.specs.declared.value.TaggedId.{TaggedId};
ghost use Rattle.jdwp_value.specs.declared.value.Value.{Value};
ghost use Rattle.jdwp_value.specs.Values.{EncodesTaggedId, tagged_id_canonical, TaggedIdFault, tagged_id_at, tag_of, width_of, EncodesUntagged, untagged_canonical, EncodesValue, value_canonical, value_refusal, ValueFault, untagged_at, value_at};
ghost use Rattle.jdwp_value.specs.ValueLaws.{tagged_id_codes, tagged_id_unrefused, value_codes, value_unrefused};

use crate::id::ObjectId;
use crate::tag::{ObjectTag, Tag, take_tag};
use jdwp_wire::number::{pass_bytes, put_number, take_number};
use jdwp_wire::{DataFault, IdKind, IdSizes, Width, Wire, all_or_nothing};
use std::alloc::Global;

/// An object id, and what kind of object it names.
#[derive(Clone, Copy, Debug, PartialEq, Eq)]
pub struct TaggedId {
    /// The kind of the object.
    pub tag: ObjectTag,
    /// The object, or 0 for null.
    pub id: ObjectId,
}

/// A value of a field, a variable or an array element. Numbers are their bits, unsigned, those of floats and
/// doubles too.
#[derive(Clone, Copy, Debug, PartialEq, Eq)]
pub enum Value {
    /// The 8 bits of a byte.
    Byte(u8),
    /// A char, one unit of UTF-16.
    Char(u16),
    /// The 64 bits of a double.
    Double(u64),
    /// The 32 bits of a float.
    Float(u32),
    /// The 32 bits of an int.
    Int(u32),
    /// The 64 bits of a long.
    Long(u64),
    /// The 16 bits of a short.
    Short(u16),
    /// No value.
    Void,
    /// A boolean.
    Boolean(bool),
    /// An object, or null.
    Object(TaggedId),
}

impl Value {
    /// The value's tag.
    pub fn tag(&self) -> Tag
        ensures { result ≡ tag_of self.now }
    {
        match *self {
            Value::Byte(_) => Tag::Byte,
            Value::Char(_) => Tag::Char,
            Value::Double(_) => Tag::Double,
            Value::Float(_) => Tag::Float,
            Value::Int(_) => Tag::Int,
            Value::Long(_) => Tag::Long,
            Value::Short(_) => Tag::Short,
            Value::Void => Tag::Void,
            Value::Boolean(_) => Tag::Boolean,
            Value::Object(object) => Tag::Object(object.tag),
        }
    }
}

/// An object tag and an object id. Another tag than an object's is `BadTag`.
impl Wire for TaggedId {
    ghost Meaning = { TaggedId };

    ghost meaning = { λ tagged. tagged };

    ghost encodes = { EncodesTaggedId };

    ghost canonical = { tagged_id_canonical };

    ghost refusal = { λ w tagged. id_refusal w.object tagged.id.0 };

    ghost faults = { TaggedIdFault };

    ghost decoded = { tagged_id_at };

    ghost takes_memory = { λ _ _. ⊥ };

    fn size(&self, sizes: &IdSizes) -> Option<usize> {
        Some(1 + sizes.object() as usize)
    }

    fn put(&self, sizes: &IdSizes, output: &mut Vec<u8>) -> Result<(), DataFault> {
        let before = output.len();
        output.push(self.tag.byte())?;
        let done = self.id.put(sizes, output);
        all_or_nothing(done, before, output)
    }

    fn take_front<'a>(
        _alloc: Global,
        rest: &'a [u8],
        whole: usize,
        sizes: &IdSizes,
    ) -> Result<(TaggedId, &'a [u8]), DataFault> {
        take_tagged_id(rest, whole, sizes)
    }

    fn pass_front<'a>(
        rest: &'a [u8],
        whole: usize,
        sizes: &IdSizes,
    ) -> Result<&'a [u8], DataFault> {
        let (_tagged, rest) = take_tagged_id(rest, whole, sizes)?;
        Ok(rest)
    }

    ghost found = { λ w whole. (tagged_id_codes w whole).found };

    ghost again = { λ w whole. (tagged_id_codes w whole).again };

    ghost blamed = { λ w whole. (tagged_id_codes w whole).blamed };

    ghost judged = { λ w whole. (tagged_id_codes w whole).judged };

    ghost unrefused = { tagged_id_unrefused };
}

/// A tag, and the value without it: as many bytes as the tag calls for.
impl Wire for Value {
    ghost Meaning = { Value };

    ghost meaning = { λ value. value };

    ghost encodes = { EncodesValue };

    ghost canonical = { value_canonical };

    ghost refusal = { value_refusal };

    ghost faults = { ValueFault };

    ghost decoded = { value_at };

    ghost takes_memory = { λ _ _. ⊥ };

    fn size(&self, sizes: &IdSizes) -> Option<usize> {
        Some(1 + untagged_size(self.tag(), sizes))
    }

    fn put(&self, sizes: &IdSizes, output: &mut Vec<u8>) -> Result<(), DataFault> {
        let before = output.len();
        output.push(self.tag().byte())?;
        let done = put_untagged(self, sizes, output);
        all_or_nothing(done, before, output)
    }

    fn take_front<'a>(
        _alloc: Global,
        rest: &'a [u8],
        whole: usize,
        sizes: &IdSizes,
    ) -> Result<(Value, &'a [u8]), DataFault> {
        let (tag, rest) = take_tag(rest, whole)?;
        take_untagged(tag, rest, whole, sizes)
    }

    fn pass_front<'a>(
        rest: &'a [u8],
        whole: usize,
        sizes: &IdSizes,
    ) -> Result<&'a [u8], DataFault> {
        let (tag, rest) = take_tag(rest, whole)?;
        pass_untagged(tag, rest, whole, sizes)
    }

    ghost found = { λ w whole. (value_codes w whole).found };

    ghost again = { λ w whole. (value_codes w whole).again };

    ghost blamed = { λ w whole. (value_codes w whole).blamed };

    ghost judged = { λ w whole. (value_codes w whole).judged };

    ghost unrefused = { value_unrefused };
}

/// The tagged id at the front of the rest of a slice of `whole` bytes, and what follows it.
pub(crate) fn take_tagged_id<'a>(
    rest: &'a [u8],
    whole: usize,
    sizes: &IdSizes,
) -> Result<(TaggedId, &'a [u8]), DataFault>
    ensures value { Gives (λ x. (x.0, x.1.now)) result (tagged_id_at sizes.now whole rest.now) }
    ensures shorter { IfOk result (λ x. length x.1.now ≤ length rest.now) }
    ensures memory { IsErrOf result NoMemory → ⊥ }
{
    let (tag, rest) = take_tag(rest, whole)?;
    match tag {
        Tag::Object(tag) => {
            let (id, rest) = take_number(rest, whole, sizes.width(IdKind::Object))?;
            let id = ObjectId(id);
            Ok((TaggedId { tag, id }, rest))
        }
        _ => Err(DataFault::BadTag),
    }
}

/// How many bytes a value of this tag has without its tag, 0 to 8.
pub fn untagged_size(tag: Tag, sizes: &IdSizes) -> usize
    ensures size { result ≡ width_of sizes.now tag }
    ensures small { result ≤ 8 }
{
    match tag {
        Tag::Byte | Tag::Boolean => 1,
        Tag::Char | Tag::Short => 2,
        Tag::Int | Tag::Float => 4,
        Tag::Long | Tag::Double => 8,
        Tag::Void => 0,
        Tag::Object(_) => sizes.object() as usize,
    }
}

/// Appends the value without its tag.
///
/// # Errors
/// `IdTooWide` where an object id is above its width, and `NoMemory`; the vector is then as it was.
pub fn put_untagged(value: &Value, sizes: &IdSizes, output: &mut Vec<u8>) -> Result<(), DataFault>
    ensures ok { Appends (EncodesUntagged sizes.now) (untagged_canonical sizes.now) value.now
        result output.old output.new }
    ensures err { Leaves (value_refusal sizes.now value.now) result output.old output.new }
    ensures room { HasRoom (untagged_canonical sizes.now value.now) output.old
        → IsErrOf result NoMemory → ⊥ }
    ensures capacity { vec_capacity output.old ≤ vec_capacity output.new }
{
    match *value {
        Value::Byte(bits) => put_number(bits as u64, Width::BYTE, output),
        Value::Char(bits) => put_number(bits as u64, Width::SHORT, output),
        Value::Double(bits) => put_number(bits, Width::LONG, output),
        Value::Float(bits) => put_number(bits as u64, Width::INT, output),
        Value::Int(bits) => put_number(bits as u64, Width::INT, output),
        Value::Long(bits) => put_number(bits, Width::LONG, output),
        Value::Short(bits) => put_number(bits as u64, Width::SHORT, output),
        Value::Void => Ok(()),
        Value::Boolean(truth) => truth.put(sizes, output),
        Value::Object(object) => object.id.put(sizes, output),
    }
}

/// The value of this tag at the front of the rest of a slice of `whole` bytes, without its tag, and what follows it.
///
/// # Errors
/// `Short(whole)` where fewer bytes are left than the tag calls for.
pub fn take_untagged<'a>(
    tag: Tag,
    rest: &'a [u8],
    whole: usize,
    sizes: &IdSizes,
) -> Result<(Value, &'a [u8]), DataFault>
    ensures value { Gives (λ x. (x.0, x.1.now)) result (untagged_at sizes.now whole tag rest.now) }
    ensures shorter { IfOk result (λ x. length x.1.now ≤ length rest.now) }
    ensures memory { IsErrOf result NoMemory → ⊥ }
{
    let Some(width) = number_width(tag, sizes) else {
        return Ok((Value::Void, rest));
    };
    let (bits, rest) = take_number(rest, whole, width)?;
    let value = match tag {
        Tag::Byte => Value::Byte(bits as u8),
        Tag::Char => Value::Char(bits as u16),
        Tag::Double => Value::Double(bits),
        Tag::Float => Value::Float(bits as u32),
        Tag::Int => Value::Int(bits as u32),
        Tag::Long => Value::Long(bits),
        Tag::Short => Value::Short(bits as u16),
        Tag::Void => Value::Void,
        Tag::Boolean => Value::Boolean(bits != 0),
        Tag::Object(tag) => {
            let id = ObjectId(bits);
            Value::Object(TaggedId { tag, id })
        }
    };
    Ok((value, rest))
}

/// The width of the number that a value of this tag is without its tag; None for `V`, that of no value.
fn number_width(tag: Tag, sizes: &IdSizes) -> Option<Width>
    ensures some { IfSome result (λ width. width ≡ width_of sizes.now tag) }
    ensures none { result ≡ None → tag ≡ Void }
{
    match tag {
        Tag::Byte | Tag::Boolean => Some(Width::BYTE),
        Tag::Char | Tag::Short => Some(Width::SHORT),
        Tag::Int | Tag::Float => Some(Width::INT),
        Tag::Long | Tag::Double => Some(Width::LONG),
        Tag::Void => None,
        Tag::Object(_) => Some(sizes.width(IdKind::Object)),
    }
}

/// What follows the value of this tag at the front of the rest of a slice of `whole` bytes, without its tag.
///
/// # Errors
/// `Short(whole)` where fewer bytes are left than the tag calls for.
pub fn pass_untagged<'a>(
    tag: Tag,
    rest: &'a [u8],
    whole: usize,
    sizes: &IdSizes,
) -> Result<&'a [u8], DataFault>
    ensures value { Gives (λ after. after.now) result
        (passed (untagged_at sizes.now whole tag rest.now)) }
    ensures memory { IsErrOf result NoMemory → ⊥ }
{
    pass_bytes(rest, whole, untagged_size(tag, sizes))
}
