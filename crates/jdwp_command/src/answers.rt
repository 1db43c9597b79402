//! What is answered, read by its shape: None where an answer is an error, or data of another shape.
ghost use Rattle.std.specs.Prelude.{◌≡◌};
ghost use Rattle.std.specs.Option.{option_map};
ghost use Rattle.jdwp_layout.specs.Meanings.{entry_meanings, meanings, scalar_meanings};
ghost use Rattle.jdwp_command.specs.Answered as answered;
ghost use Rattle.jdwp_command.specs.Answered.{content_of, is_empty_content, read_of};

use jdwp_layout::{Answer, Datum, Scalar};
use jdwp_value::{ArrayRegion, FrameId, Location, ObjectId, ReferenceTypeId, TaggedId, Value};

/// The items of an answer; None where it is an error.
fn items_of(answer: &Answer) -> Option<&[Datum]>
    ensures { option_map (λ items. meanings items.now) result ≡ content_of answer.now }
{
    match answer {
        Answer::Data(content) => Some(content.items()),
        Answer::Error(_) => None,
    }
}

/// Whether the command succeeded and its reply is empty, as that of a Suspend, a Resume or a Clear.
pub fn is_done(answer: &Answer) -> bool
    ensures { result ≡ is_empty_content (content_of answer.now) }
{
    match items_of(answer) {
        Some(items) => items.is_empty(),
        None => false,
    }
}

/// One int, as a suspend count, the number of frames, the length of an array or the id of an event request.
pub fn one_int(answer: &Answer) -> Option<i32>
    ensures { result ≡ read_of answered.only_int answer.now }
{
    match items_of(answer)? {
        [Datum::One(Scalar::Int(number))] => Some(*number),
        _ => None,
    }
}

/// One text, as a name, a signature, a source file or the characters of a string.
pub fn one_text(answer: &Answer) -> Option<&str>
    ensures { option_map (λ text. text.now) result ≡ read_of answered.only_text answer.now }
{
    match items_of(answer)? {
        [Datum::One(Scalar::String(text))] => Some(text.as_str()),
        _ => None,
    }
}

/// One boolean, as whether an object was collected.
pub fn one_boolean(answer: &Answer) -> Option<bool>
    ensures { result ≡ read_of answered.only_boolean answer.now }
{
    match items_of(answer)? {
        [Datum::One(Scalar::Boolean(truth))] => Some(*truth),
        _ => None,
    }
}

/// One object, as the group of a thread; 0 is null.
pub fn one_object(answer: &Answer) -> Option<ObjectId>
    ensures { result ≡ read_of answered.only_object answer.now }
{
    match items_of(answer)? {
        [Datum::One(Scalar::ObjectId(object))] => Some(*object),
        _ => None,
    }
}

/// One class, as a superclass; 0 is none.
pub fn one_class(answer: &Answer) -> Option<ReferenceTypeId>
    ensures { result ≡ read_of answered.only_class answer.now }
{
    match items_of(answer)? {
        [Datum::One(Scalar::ReferenceTypeId(class))] => Some(*class),
        _ => None,
    }
}

/// One tagged id, as the object whose method a frame runs.
pub fn one_tagged(answer: &Answer) -> Option<TaggedId>
    ensures { result ≡ read_of answered.only_tagged answer.now }
{
    match items_of(answer)? {
        [Datum::One(Scalar::TaggedId(tagged))] => Some(*tagged),
        _ => None,
    }
}

/// One array region, as elements of an array.
pub fn one_region(answer: &Answer) -> Option<&ArrayRegion>
    ensures { option_map (λ region. region.now) result ≡ read_of answered.only_region answer.now }
{
    match items_of(answer)? {
        [Datum::Region(region)] => Some(region),
        _ => None,
    }
}

/// The entries of one list, as of frames, of threads or of values.
pub fn one_list(answer: &Answer) -> Option<&[Vec<Scalar>]>
    ensures { option_map (λ entries. entry_meanings entries.now) result
        ≡ read_of answered.only_list answer.now }
{
    match items_of(answer)? {
        [Datum::Many(entries)] => Some(entries.as_slice()),
        _ => None,
    }
}

/// Two ints, as the status of a thread and whether it is suspended.
pub fn two_ints(answer: &Answer) -> Option<(i32, i32)>
    ensures { result ≡ read_of answered.two_ints answer.now }
{
    match items_of(answer)? {
        [
            Datum::One(Scalar::Int(first)),
            Datum::One(Scalar::Int(second)),
        ] => Some((*first, *second)),
        _ => None,
    }
}

/// Two texts, as a signature and the generic one.
pub fn two_texts(answer: &Answer) -> Option<(&str, &str)>
    ensures { option_map (λ texts. (texts.0.now, texts.1.now)) result
        ≡ read_of answered.two_texts answer.now }
{
    match items_of(answer)? {
        [
            Datum::One(Scalar::String(first)),
            Datum::One(Scalar::String(second)),
        ] => { Some((first.as_str(), second.as_str())) }
        _ => None,
    }
}

/// The byte of a type tag and a class, as of an object.
pub fn type_and_class(answer: &Answer) -> Option<(u8, ReferenceTypeId)>
    ensures { result ≡ read_of answered.type_and_class answer.now }
{
    match items_of(answer)? {
        [
            Datum::One(Scalar::Byte(tag)),
            Datum::One(Scalar::ReferenceTypeId(class)),
        ] => Some((*tag, *class)),
        _ => None,
    }
}

/// The entries of two lists, as the threads and the groups in a thread group.
pub fn two_lists(answer: &Answer) -> Option<(&[Vec<Scalar>], &[Vec<Scalar>])>
    ensures { option_map (λ lists. (entry_meanings lists.0.now, entry_meanings lists.1.now)) result
        ≡ read_of answered.two_lists answer.now }
{
    match items_of(answer)? {
        [Datum::Many(first), Datum::Many(second)] => Some((first.as_slice(), second.as_slice())),
        _ => None,
    }
}

/// The object that an entry of a list is; None where it is something else.
pub fn object_in(entry: &[Scalar]) -> Option<ObjectId>
    ensures { result ≡ answered.object_in (scalar_meanings entry.now) }
{
    match entry {
        [Scalar::ObjectId(object)] => Some(*object),
        _ => None,
    }
}

/// The class that an entry of a list is; None where it is something else.
pub fn class_in(entry: &[Scalar]) -> Option<ReferenceTypeId>
    ensures { result ≡ answered.class_in (scalar_meanings entry.now) }
{
    match entry {
        [Scalar::ReferenceTypeId(class)] => Some(*class),
        _ => None,
    }
}

/// The value that an entry of a list is; None where it is something else.
pub fn value_in(entry: &[Scalar]) -> Option<Value>
    ensures { result ≡ answered.value_in (scalar_meanings entry.now) }
{
    match entry {
        [Scalar::Value(value)] => Some(*value),
        _ => None,
    }
}

/// The frame that an entry of a list is, and its place; None where it is something else.
pub fn frame_in(entry: &[Scalar]) -> Option<(FrameId, Location)>
    ensures { result ≡ answered.frame_in (scalar_meanings entry.now) }
{
    match entry {
        [Scalar::FrameId(frame), Scalar::Location(place)] => Some((*frame, *place)),
        _ => None,
    }
}
