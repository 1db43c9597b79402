//! What a thread does.
ghost use Rattle.std.specs.Prelude.{◌≡◌};
ghost use Rattle.jdwp_script.specs.Literals.{literal_value};

use jdwp_value::{FrameId, MethodId, ObjectId, ReferenceTypeId, Tag, TaggedId, Value};

/// A step of a thread.
#[derive(Drop)]
pub enum Step {
    /// Puts a frame at its method's first index.
    Call(Call),
    /// Moves the newest frame to this code index.
    Go(u64),
    /// Takes the newest frame off, with the value that its method returns.
    Return(Literal),
    /// Throws an exception, which leaves the frames.
    Throw(Throw),
    /// Prepares a class, which is unprepared until then.
    Prepare(ReferenceTypeId),
    /// Starts a thread, which does not live until then.
    Start(ObjectId),
    /// Goes on as many steps before this one, which is the last. It is no step of its own: the thread has gone back once the step before it
    /// is made.
    Again(u32),
}

/// A frame as it begins.
#[derive(Drop)]
pub struct Call {
    pub frame: FrameId,
    pub class: ReferenceTypeId,
    pub method: MethodId,
    /// 0 where the method has none.
    pub this: ObjectId,
    pub slots: Vec<SlotValue>,
}

/// What a slot of a frame holds.
#[derive(Clone, Copy, Debug, PartialEq, Eq)]
pub struct SlotValue {
    pub slot: i32,
    pub value: Literal,
}

/// An exception.
#[derive(Clone, Copy, Debug, PartialEq, Eq)]
pub struct Throw {
    pub object: ObjectId,
    /// Where it is caught, if it is.
    pub caught: Option<Place>,
}

/// A code index of a method.
#[derive(Clone, Copy, Debug, PartialEq, Eq)]
pub struct Place {
    pub class: ReferenceTypeId,
    pub method: MethodId,
    pub index: u64,
}

/// A value as a script writes it: a tag, and bits that may be more than the tag's values have.
#[derive(Clone, Copy, Debug, PartialEq, Eq)]
pub struct Literal {
    pub tag: Tag,
    pub bits: u64,
}

impl Literal {
    /// The value: of as many of the lowest bits as values of the tag have. Each script that `Script::read` answers
    /// has values alone whose bits are no more than that.
    pub fn value(self) -> Value
        ensures { result ≡ literal_value self }
    {
        let bits = self.bits;
        match self.tag {
            Tag::Byte => Value::Byte((bits % 256) as u8),
            Tag::Char => Value::Char((bits % 65_536) as u16),
            Tag::Double => Value::Double(bits),
            Tag::Float => Value::Float((bits % 4_294_967_296) as u32),
            Tag::Int => Value::Int((bits % 4_294_967_296) as u32),
            Tag::Long => Value::Long(bits),
            Tag::Short => Value::Short((bits % 65_536) as u16),
            Tag::Void => Value::Void,
            Tag::Boolean => Value::Boolean(bits % 2 == 1),
            Tag::Object(tag) => Value::Object(TaggedId {
                tag,
                id: ObjectId(bits),
            }),
        }
    }
}
