//! Where texts stand in double quotes, as `show` prints strings.
ghost use Rattle.std.specs.Prelude.{◌≡◌, ◌≤◌, length};
ghost use Rattle.jdwp_plan.specs.Names as names;
ghost use Rattle.jdwp_plan.specs.Quotes as quotes;

/// Where a byte stands.
#[derive(Clone, Copy)]
pub(crate) enum Place {
    /// In no string.
    Outside,
    /// In a string.
    Inside,
    /// In a string, behind a backslash.
    Escaped,
}

impl Place {
    /// Where the byte behind this one stands.
    pub fn behind(self, byte: u8) -> Place
        ensures { result ≡ quotes.place_behind self byte }
    {
        match self {
            Place::Escaped => Place::Inside,
            Place::Outside if byte == b'"' => Place::Inside,
            Place::Outside => Place::Outside,
            Place::Inside if byte == b'"' => Place::Outside,
            Place::Inside if byte == b'\\' => Place::Escaped,
            Place::Inside => Place::Inside,
        }
    }

    /// Whether it is this byte, in no string.
    pub fn has(self, byte: u8, looked_for: u8) -> bool
        ensures { result ≡ quotes.stands self looked_for byte }
    {
        match self {
            Place::Outside => byte == looked_for,
            Place::Inside | Place::Escaped => false,
        }
    }
}

/// Whether a byte is a letter, a digit or `_`.
fn is_of_name(byte: u8) -> bool
    ensures { result ≡ names.is_of_name byte }
{
    matches!(byte, b'a'..=b'z' | b'A'..=b'Z' | b'0'..=b'9' | b'_')
}

/// The length of the name in front of a text.
pub(crate) fn name_length(text: &[u8]) -> usize
    ensures within { result ≤ length text.now }
    ensures value { result ≡ names.name_length text.now }
{
    for (index, byte) in text.iter().enumerate() {
        if !is_of_name(*byte) {
            return index;
        }
    }
    text.len()
}
