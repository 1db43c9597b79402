//! Tags (JDWP specification, "Tag Constants").
ghost use Rattle.std.specs.Prelude.{◌≡◌, ◌≤◌, None, [], ◌∷◌, length, IfOk, IfSome, Some, refl};
ghost use Rattle.std.specs.Result.{IsErrOf};
ghost use Rattle.jdwp_wire.specs.declared.data_fault.DataFault.TheVariants.{NoMemory};
ghost use Rattle.jdwp_wire.specs.Reading.{Gives};
ghost use Rattle.jdwp_value.specs.declared.tag.Tag.{Tag};
ghost use Rattle.jdwp_value.specs.Tags.{object_byte, tag_byte, EncodesTag, TagFault, tag_of_byte, tag_at};
ghost use Rattle.jdwp_value.specs.Values.{is_object, is_void};
ghost use Rattle.jdwp_value.specs.TagLaws.{tag_codes};

use jdwp_wire::number::take_byte;
use jdwp_wire::{DataFault, IdSizes, Wire};
use std::alloc::Global;

/// What an object is, by its tag.
#[derive(Clone, Copy, Debug, PartialEq, Eq)]
pub enum ObjectTag {
    /// `[`: an array.
    Array,
    /// `L`: an object of no other kind, or null.
    Object,
    /// `s`: a string.
    String,
    /// `t`: a thread.
    Thread,
    /// `g`: a thread group.
    ThreadGroup,
    /// `l`: a class loader.
    ClassLoader,
    /// `c`: a class object.
    ClassObject,
}

/// What a value is, by its tag: one of nine kinds without a reference, or one of seven kinds of objects.
#[derive(Clone, Copy, Debug, PartialEq, Eq)]
pub enum Tag {
    /// `B`: 1 byte.
    Byte,
    /// `C`: 2 bytes.
    Char,
    /// `D`: the 8 bytes of a double's bits.
    Double,
    /// `F`: the 4 bytes of a float's bits.
    Float,
    /// `I`: 4 bytes.
    Int,
    /// `J`: 8 bytes.
    Long,
    /// `S`: 2 bytes.
    Short,
    /// `V`: no bytes.
    Void,
    /// `Z`: 1 byte.
    Boolean,
    /// An object id.
    Object(ObjectTag),
}

impl ObjectTag {
    /// The byte of the tag.
    pub fn byte(self) -> u8
        ensures { result ≡ object_byte self }
    {
        match self {
            ObjectTag::Array => 91,
            ObjectTag::Object => 76,
            ObjectTag::String => 115,
            ObjectTag::Thread => 116,
            ObjectTag::ThreadGroup => 103,
            ObjectTag::ClassLoader => 108,
            ObjectTag::ClassObject => 99,
        }
    }
}

impl Tag {
    /// The byte of the tag.
    pub fn byte(self) -> u8
        ensures { result ≡ tag_byte self }
    {
        match self {
            Tag::Byte => 66,
            Tag::Char => 67,
            Tag::Double => 68,
            Tag::Float => 70,
            Tag::Int => 73,
            Tag::Long => 74,
            Tag::Short => 83,
            Tag::Void => 86,
            Tag::Boolean => 90,
            Tag::Object(kind) => kind.byte(),
        }
    }

    /// Whether an object id follows the tag.
    pub fn is_object(self) -> bool
        ensures { result ≡ is_object self }
    {
        match self {
            Tag::Object(_) => true,
            _ => false,
        }
    }

    /// Whether the tag is `V`, that of no value.
    pub fn is_void(self) -> bool
        ensures { result ≡ is_void self }
    {
        match self {
            Tag::Void => true,
            _ => false,
        }
    }

    /// The tag of a byte, if it is one's.
    pub fn of_byte(byte: u8) -> Option<Tag>
        ensures found { IfSome result (λ t. tag_byte t ≡ byte) }
        ensures only { (t : Tag) → tag_byte t ≡ byte → result ≡ Some t }
        ensures value { result ≡ tag_of_byte byte }
    {
        match byte {
            66 => Some(Tag::Byte),
            67 => Some(Tag::Char),
            68 => Some(Tag::Double),
            70 => Some(Tag::Float),
            73 => Some(Tag::Int),
            74 => Some(Tag::Long),
            83 => Some(Tag::Short),
            86 => Some(Tag::Void),
            90 => Some(Tag::Boolean),
            91 => Some(Tag::Object(ObjectTag::Array)),
            76 => Some(Tag::Object(ObjectTag::Object)),
            115 => Some(Tag::Object(ObjectTag::String)),
            116 => Some(Tag::Object(ObjectTag::Thread)),
            103 => Some(Tag::Object(ObjectTag::ThreadGroup)),
            108 => Some(Tag::Object(ObjectTag::ClassLoader)),
            99 => Some(Tag::Object(ObjectTag::ClassObject)),
            _ => None,
        }
    }
}

/// One byte; a byte of no tag is `BadTag`.
impl Wire for Tag {
    ghost Meaning = { Tag };

    ghost meaning = { λ tag. tag };

    ghost encodes = { λ _. EncodesTag };

    ghost canonical = { λ _ tag. tag_byte tag ∷ [] };

    ghost refusal = { λ _ _. None };

    ghost faults = { λ _. TagFault };

    ghost decoded = { λ _. tag_at };

    ghost takes_memory = { λ _ _. ⊥ };

    fn size(&self, _sizes: &IdSizes) -> Option<usize> {
        Some(1)
    }

    fn put(&self, _sizes: &IdSizes, output: &mut Vec<u8>) -> Result<(), DataFault> {
        output.push(self.byte())?;
        Ok(())
    }

    fn take_front<'a>(
        _alloc: Global,
        rest: &'a [u8],
        whole: usize,
        _sizes: &IdSizes,
    ) -> Result<(Tag, &'a [u8]), DataFault> {
        take_tag(rest, whole)
    }

    fn pass_front<'a>(
        rest: &'a [u8],
        whole: usize,
        _sizes: &IdSizes,
    ) -> Result<&'a [u8], DataFault> {
        let (_tag, rest) = take_tag(rest, whole)?;
        Ok(rest)
    }

    ghost found = { λ _ whole. (tag_codes whole).found };

    ghost again = { λ _ whole. (tag_codes whole).again };

    ghost blamed = { λ _ whole. (tag_codes whole).blamed };

    ghost judged = { λ _ whole. (tag_codes whole).judged };

    ghost unrefused = { λ _ _ _ _. refl };
}

/// The tag at the front of the rest of a slice of `whole` bytes, and what follows it.
pub(crate) fn take_tag(rest: &[u8], whole: usize) -> Result<(Tag, &[u8]), DataFault>
    ensures value { Gives (λ x. (x.0, x.1.now)) result (tag_at whole rest.now) }
    ensures shorter { IfOk result (λ x. length x.1.now ≤ length rest.now) }
    ensures memory { IsErrOf result NoMemory → ⊥ }
{
    let (byte, rest) = take_byte(rest, whole)?;
    match Tag::of_byte(byte) {
        Some(tag) => Ok((tag, rest)),
        None => Err(DataFault::BadTag),
    }
}
