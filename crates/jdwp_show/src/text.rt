//! Text that grows until an allocation is refused.
ghost use Rattle.std.specs.Prelude.{◌≡◌, ◌+◌, ◌<◌, [], length, IfOk, OnErr, OnOk, false, true};
ghost use Rattle.std.specs.Char.{encode_utf8};
ghost use Rattle.std.specs.String.{string_bytes, string_capacity, string_len};
ghost use Rattle.jdwp_show.specs.Telling.{Grows};

use jdwp_wire::NoMemory;
use std::alloc::Global;

/// A text to which nothing more is appended once an allocation was refused, or from the beginning.
#[derive(Drop)]
pub(crate) struct Text {
    string: String,
    refused: bool,
}

impl Text {
    pub(crate) fn new(alloc: Global) -> Text
        ensures bytes { string_bytes result.string ≡ [] }
        ensures whole { result.refused ≡ false }
    {
        Text {
            string: String::new(alloc),
            refused: false,
        }
    }

    /// One to which nothing is ever appended.
    pub(crate) fn none(alloc: Global) -> Text
        ensures { result.refused ≡ true }
    {
        Text {
            string: String::new(alloc),
            refused: true,
        }
    }

    /// Whether nothing more is appended.
    pub(crate) fn is_refused(&self) -> bool
        ensures { result ≡ self.now.refused }
    {
        self.refused
    }

    pub(crate) fn push_str(&mut self, string: &str)
        ensures grows { Grows self.old string.now self.new }
        ensures growth { self.old.refused ≡ false → self.new.refused ≡ true
            → string_capacity self.old.string < string_len self.old.string + length string.now }
    {
        if !self.refused {
            self.refused = self.string.push_str(string).is_err();
        }
    }

    pub(crate) fn push(&mut self, c: char)
        ensures grows { Grows self.old (encode_utf8 c) self.new }
        ensures growth { self.old.refused ≡ false → self.new.refused ≡ true
            → string_capacity self.old.string < string_len self.old.string + length
            (encode_utf8 c) }
    {
        if !self.refused {
            self.refused = self.string.push(c).is_err();
        }
    }

    /// An allocation was refused for what is to be appended.
    pub(crate) fn refuse(&mut self)
        ensures { self.new.refused ≡ true }
    {
        self.refused = true;
    }

    /// The text.
    ///
    /// # Errors
    /// `NoMemory` where an allocation was refused, and only there.
    pub(crate) fn into_string(self) -> Result<String, NoMemory>
        ensures ok { IfOk result (λ string. (self.refused ≡ false) × (string ≡ self.string)) }
        ensures err { OnErr result (self.refused ≡ true) }
    {
        let Text { string, refused } = self;
        if refused { Err(NoMemory) } else { Ok(string) }
    }
}
