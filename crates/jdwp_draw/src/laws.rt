//! Laws: each function says what holds, in its contract, and does nothing; to call it is to cite it.
ghost use Rattle.std.specs.Prelude.{◌≡◌, ℕ, List, [], true};
ghost use Rattle.std.specs.Char.{encode_utf8};
ghost use Rattle.std.specs.List.{flat_map, list_all};
ghost use Rattle.jdwp_show.specs.CaptureLines.{items_that_hold};
ghost use Rattle.jdwp_show.specs.Sessions.{items_in, widths_of};
ghost use Rattle.jdwp_draw.specs.Messages.{AreShown, messages_of};
ghost use Rattle.jdwp_draw.specs.Escapes.{escaped, escaped_text, is_no_markup, read_back};

/// The messages of a capture are its items before the first that breaks a rule, each with the line that `show` prints of it.
pub fn shows_each_message()
    ensures { (text : List ℕ) → AreShown (widths_of (items_in text)) [] (items_that_hold text)
        (messages_of text) }
{}

/// No character of a session marks up: none of what stands for it is `<`, `>` or a quote, and each `&` begins the name of a character, since it
/// reads back.
pub fn marks_up_nothing()
    ensures { (cs : List ℕ) → list_all is_no_markup (escaped cs) ≡ true }
{}

/// What stands for characters reads back as these characters.
pub fn reads_back()
    ensures { (cs : List ℕ) → read_back (escaped cs) ≡ cs }
{}

/// What is drawn of characters is what stands for them, in UTF-8.
pub fn is_written_in_utf8()
    ensures { (cs : List ℕ) → escaped_text cs ≡ flat_map encode_utf8 (escaped cs) }
{}
