//! Whether what was told is what is expected.
ghost use Rattle.std.specs.Prelude.{◌≡◌, ◌≤◌, ◌<◌, length};
ghost use Rattle.jdwp_plan.specs.declared.quoting.Place.TheVariants.{Outside};
ghost use Rattle.jdwp_plan.specs.Expecting as expecting;

use crate::quoting::Place;

/// Whether a text is the expected one, in which `_` stands for any item, but not in double quotes. An item ends before the first space, comma
/// or closing bracket that stands in none of its brackets and strings, and has a byte at least.
pub fn is_expected(expected: &[u8], text: &[u8]) -> bool
    ensures { result ≡ expecting.is_expected expected.now text.now }
{
    let mut place = Place::Outside;
    let mut rest = text;
    for byte in expected {
        let length = part_length(place, *byte, rest);
        if length == 0 {
            return false;
        }
        place = place.behind(*byte);
        rest = &rest[length..];
    }
    rest.is_empty()
}

/// How many bytes in front of a text a byte of an expected one stands for, there.
fn part_length(place: Place, byte: u8, text: &[u8]) -> usize
    ensures value { result ≡ expecting.part_length place byte text.now }
    ensures within { result ≤ length text.now }
{
    if place.has(byte, b'_') {
        item_length(text)
    } else {
        byte_length(text, byte)
    }
}

/// 1 where the first byte is this one, and else 0.
fn byte_length(text: &[u8], byte: u8) -> usize
    ensures within { result ≤ length text.now }
    ensures value { result ≡ expecting.byte_length byte text.now }
{
    match text {
        [first, ..] if *first == byte => 1,
        _ => 0,
    }
}

/// The length of the item in front.
fn item_length(text: &[u8]) -> usize
    ensures within { result ≤ length text.now }
    ensures value { result ≡ expecting.item_length 0 Outside text.now }
{
    let mut place = Place::Outside;
    let mut depth: usize = 0;
    for (index, byte) in text.iter().enumerate() {
        if depth == 0 && ends_item(place, *byte) {
            return index;
        }
        depth = depth_behind(depth, place, *byte);
        place = place.behind(*byte);
    }
    text.len()
}

/// Whether a byte ends an item before it, in no bracket.
fn ends_item(place: Place, byte: u8) -> bool
    ensures { result ≡ expecting.ends_item place byte }
{
    place.has(byte, b' ') || place.has(byte, b',') || closes(place, byte)
}

/// Whether a byte closes a bracket.
fn closes(place: Place, byte: u8) -> bool
    ensures { result ≡ expecting.closes place byte }
{
    place.has(byte, b')') || place.has(byte, b']')
}

/// Whether a byte opens a bracket.
fn opens(place: Place, byte: u8) -> bool
    ensures { result ≡ expecting.opens place byte }
{
    place.has(byte, b'(') || place.has(byte, b'[')
}

/// In how many brackets the byte behind this one stands.
fn depth_behind(depth: usize, place: Place, byte: u8) -> usize
    requires { depth < usize.MAX }
    ensures { result ≡ expecting.depth_behind depth place byte }
{
    if opens(place, byte) {
        depth + 1
    } else if closes(place, byte) {
        depth.saturating_sub(1)
    } else {
        depth
    }
}
