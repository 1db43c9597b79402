//! Data of packets in words.
ghost use Rattle.std.specs.Prelude.{◌≡◌, ◌<◌, [], ◌∷◌, false};
ghost use Rattle.std.specs.Fmt.{digit_glyph};
ghost use Rattle.std.specs.List.{flat_map, list_all};
ghost use Rattle.std.specs.Str.{chars};
ghost use Rattle.hex.specs.Hex.{encode_lower};
ghost use Rattle.jdwp_value.specs.Tags.{object_byte, tag_byte};
ghost use Rattle.jdwp_layout.specs.Meanings.{scalar_meaning, scalar_meanings, entry_meaning, entry_meanings, datum_meaning, meanings};
ghost use Rattle.jdwp_show.specs.DataText.{listed, boolean_text, id_text, tagged_text, separator, escaped, is_plain, quoted, string_text, type_tag_text, location_text, bit, element_text, value_text, region_text, scalar_text, entry_text, list_text, datum_text, data_text, raw_text};
ghost use Rattle.jdwp_show.specs.Telling.{Grows};

use crate::text::Text;
use itoa::{Buffer, Integer};
use jdwp_layout::{Datum, Scalar};
use jdwp_value::{ArrayRegion, Location, TaggedId, TypeTag, Value};
use std::alloc::Global;

/// Appends each datum, after a space.
pub(crate) fn push_data(alloc: Global, text: &mut Text, data: &[Datum])
    ensures { Grows text.old (data_text (meanings «data».now)) text.new }
{
    for datum in data {
        text.push_str(" ");
        push_datum(alloc, text, datum);
    }
}

fn push_datum(alloc: Global, text: &mut Text, datum: &Datum)
    ensures { Grows text.old (datum_text (datum_meaning datum.now)) text.new }
{
    match datum {
        Datum::One(scalar) => push_scalar(text, scalar),
        Datum::Many(entries) => push_entries(text, entries),
        Datum::Region(region) => push_region(text, region),
        Datum::Raw(bytes) => {
            text.push_str("raw ");
            push_hex(alloc, text, bytes)
        }
    }
}

/// Appends data that are not read: ` raw` and hex digits, and nothing where there are none.
pub(crate) fn push_raw(alloc: Global, text: &mut Text, bytes: &[u8])
    ensures { Grows text.old (raw_text bytes.now) text.new }
{
    if bytes.is_empty() {
        return;
    }
    text.push_str(" raw ");
    push_hex(alloc, text, bytes)
}

/// Appends bytes in hex digits.
fn push_hex(alloc: Global, text: &mut Text, bytes: &[u8])
    ensures { Grows text.old (encode_lower bytes.now) text.new }
{
    match hex::encode(alloc, bytes) {
        Ok(digits) => text.push_str(digits.as_str()),
        Err(_) => text.refuse(),
    }
}

/// Appends what stands before the thing of this index in a list.
pub(crate) fn push_separator(text: &mut Text, index: usize)
    ensures { Grows text.old (separator index) text.new }
{
    if index > 0 {
        text.push_str(", ");
    }
}

fn push_entries(text: &mut Text, entries: &[Vec<Scalar>])
    ensures { Grows text.old (list_text (entry_meanings entries.now)) text.new }
{
    text.push_str("[");
    push_all_entries(text, entries);
    text.push_str("]");
}

fn push_all_entries(text: &mut Text, entries: &[Vec<Scalar>])
    ensures { Grows text.old (listed entry_text (entry_meanings entries.now)) text.new }
{
    for (index, entry) in entries.iter().enumerate() {
        push_separator(text, index);
        push_entry(text, entry);
    }
}

/// An entry of one item has no round brackets.
pub(crate) fn push_entry(text: &mut Text, entry: &[Scalar])
    ensures { Grows text.old (entry_text (scalar_meanings entry.now)) text.new }
{
    match entry {
        [scalar] => push_scalar(text, scalar),
        _ => {
            text.push_str("(");
            push_scalars(text, entry);
            text.push_str(")");
        }
    }
}

fn push_scalars(text: &mut Text, entry: &[Scalar])
    ensures { Grows text.old (listed scalar_text (scalar_meanings entry.now)) text.new }
{
    for (index, scalar) in entry.iter().enumerate() {
        push_separator(text, index);
        push_scalar(text, scalar);
    }
}

pub(crate) fn push_scalar(text: &mut Text, scalar: &Scalar)
    ensures { Grows text.old (scalar_text (scalar_meaning scalar.now)) text.new }
{
    match scalar {
        Scalar::Byte(number) => push_number(text, *number),
        Scalar::Boolean(truth) => push_boolean(text, *truth),
        Scalar::Int(number) => push_number(text, *number),
        Scalar::Long(number) => push_number(text, *number),
        Scalar::String(string) => push_quoted(text, string.as_str()),
        Scalar::ObjectId(id) => push_id(text, id.0),
        Scalar::ReferenceTypeId(id) => push_id(text, id.0),
        Scalar::MethodId(id) => push_id(text, id.0),
        Scalar::FieldId(id) => push_id(text, id.0),
        Scalar::FrameId(id) => push_id(text, id.0),
        Scalar::Location(location) => push_location(text, location),
        Scalar::Value(value) => push_value(text, value),
        Scalar::TaggedId(object) => push_tagged(text, object),
    }
}

/// Appends a number in decimal.
pub(crate) fn push_number<I: Integer>(text: &mut Text, number: I)
    ensures { Grows text.old (I.text number) text.new }
{
    let mut buffer = Buffer::new();
    text.push_str(buffer.format(number));
}

fn push_boolean(text: &mut Text, truth: bool)
    ensures { Grows text.old (boolean_text truth) text.new }
{
    if truth {
        text.push_str("true")
    } else {
        text.push_str("false")
    }
}

fn push_id(text: &mut Text, id: u64)
    ensures { Grows text.old (id_text id) text.new }
{
    text.push_str("#");
    push_number(text, id);
}

/// Appends a character of ASCII.
fn push_byte(text: &mut Text, byte: u8)
    requires { byte < 128 }
    ensures { Grows text.old (byte ∷ []) text.new }
{
    text.push(char::from(byte));
}

fn push_tagged(text: &mut Text, object: &TaggedId)
    ensures { Grows text.old (tagged_text object.now) text.new }
{
    push_byte(text, object.tag.byte());
    push_id(text, object.id.0);
}

/// The tag, the class, the method and the index; the null location has tag 0, and all else 0.
fn push_location(text: &mut Text, location: &Location)
    ensures { Grows text.old (location_text location.now) text.new }
{
    match location {
        Location::Null => text.push_str("0:#0:#0:0"),
        Location::At {
            tag,
            class,
            method,
            index,
        } => {
            push_type_tag(text, *tag);
            text.push_str(":");
            push_id(text, class.0);
            text.push_str(":");
            push_id(text, method.0);
            text.push_str(":");
            push_number(text, *index)
        }
    }
}

fn push_type_tag(text: &mut Text, tag: TypeTag)
    ensures { Grows text.old (type_tag_text tag) text.new }
{
    text.push_str(match tag {
        TypeTag::Class => "1",
        TypeTag::Interface => "2",
        TypeTag::Array => "3",
    });
}

/// The tag and the bits as an unsigned number; an object as its tagged id, and void as its tag alone.
fn push_value(text: &mut Text, value: &Value)
    ensures { Grows text.old (value_text value.now) text.new }
{
    text.push_str(match value {
        Value::Byte(_) => "B:",
        Value::Char(_) => "C:",
        Value::Double(_) => "D:",
        Value::Float(_) => "F:",
        Value::Int(_) => "I:",
        Value::Long(_) => "J:",
        Value::Short(_) => "S:",
        Value::Void => "V",
        Value::Boolean(_) => "Z:",
        Value::Object(_) => "",
    });
    push_element(text, value);
}

/// The bits of a value as an unsigned number; an object as its tagged id, and nothing for void.
fn push_element(text: &mut Text, value: &Value)
    ensures { Grows text.old (element_text value.now) text.new }
{
    match *value {
        Value::Byte(bits) => push_number(text, bits),
        Value::Char(bits) => push_number(text, bits),
        Value::Double(bits) => push_number(text, bits),
        Value::Float(bits) => push_number(text, bits),
        Value::Int(bits) => push_number(text, bits),
        Value::Long(bits) => push_number(text, bits),
        Value::Short(bits) => push_number(text, bits),
        Value::Boolean(truth) => push_number(text, u8::from(truth)),
        Value::Void => {}
        Value::Object(object) => push_tagged(text, &object),
    }
}

/// The tag, and the elements in square brackets.
pub(crate) fn push_region(text: &mut Text, region: &ArrayRegion)
    ensures { Grows text.old (region_text region.now) text.new }
{
    push_byte(text, region.tag().byte());
    text.push_str("[");
    push_elements(text, region.elements());
    text.push_str("]");
}

fn push_elements(text: &mut Text, elements: &[Value])
    ensures { Grows text.old (listed element_text elements.now) text.new }
{
    for (index, element) in elements.iter().enumerate() {
        push_separator(text, index);
        push_element(text, element);
    }
}

/// The text between double quotes, with a backslash before a double quote and a backslash, and `\xHH` for characters
/// below 32 and 127.
fn push_quoted(text: &mut Text, string: &str)
    ensures { Grows text.old (string_text string.now) text.new }
{
    text.push_str("\"");
    push_characters(text, string);
    text.push_str("\"");
}

/// The characters of a text as they stand between double quotes: all at once where each stands for itself.
fn push_characters(text: &mut Text, string: &str)
    ensures { Grows text.old (flat_map quoted (chars string.now)) text.new }
{
    if are_plain(string.as_bytes()) {
        text.push_str(string)
    } else {
        push_each_character(text, string)
    }
}

/// Whether each of these bytes stands for itself between double quotes. It looks at all of them, so that it can look at many at once.
fn are_plain(bytes: &[u8]) -> bool
    ensures { result ≡ list_all is_plain bytes.now }
{
    let mut plain = true;
    for byte in bytes {
        plain &= is_plain(*byte);
    }
    plain
}

fn is_plain(byte: u8) -> bool
    ensures { result ≡ is_plain byte }
{
    byte >= 32 && byte != b'"' && byte != b'\\' && byte != 127
}

fn push_each_character(text: &mut Text, string: &str)
    ensures { Grows text.old (flat_map quoted (chars string.now)) text.new }
{
    for c in string.chars() {
        push_in_quotes(text, c);
    }
}

/// Appends a character by its code, in two hex digits.
fn push_escape(text: &mut Text, code: u8)
    ensures { Grows text.old (escaped code) text.new }
{
    text.push_str("\\x");
    push_hex_digit(text, code / 16);
    push_hex_digit(text, code % 16);
}

fn push_hex_digit(text: &mut Text, digit: u8)
    requires { digit < 16 }
    ensures { Grows text.old (digit_glyph false digit ∷ []) text.new }
{
    if digit < 10 {
        push_byte(text, b'0' + digit)
    } else {
        push_byte(text, b'a' - 10 + digit)
    }
}

fn push_in_quotes(text: &mut Text, c: char)
    ensures { Grows text.old (quoted c) text.new }
{
    match c {
        '"' => text.push_str("\\\""),
        '\\' => text.push_str("\\\\"),
        '\0'..='\x1f' | '\x7f' => push_escape(text, c as u8),
        _ => text.push(c),
    }
}
