//! Text of a session in XML.
ghost use Rattle.std.specs.Prelude.{◌≡◌, ◌++◌, IfOk, OnOk};
ghost use Rattle.std.specs.String.{string_bytes};
ghost use Rattle.jdwp_draw.specs.Escapes as escapes;
ghost use Rattle.jdwp_draw.specs.Escapes.{escaped_bytes, escaped_text};

use jdwp_wire::NoMemory;
use std::alloc::Global;

/// Whether a character is drawn: it is neither below 32 nor one of the two that no XML holds.
fn is_drawn(c: char) -> bool
    ensures { result ≡ escapes.is_drawn c }
{
    c >= ' ' && c != '\u{fffe}' && c != '\u{ffff}'
}

/// The characters of a text that are drawn.
pub(crate) fn drawn_chars(alloc: Global, text: &str) -> Result<Vec<char>, NoMemory>
    ensures { IfOk result (λ found. found.items ≡ escapes.drawn_chars text.now) }
{
    let mut found = Vec::new(alloc);
    for c in text.chars() {
        if is_drawn(c) {
            found.push(c)?;
        }
    }
    Ok(found)
}

/// Appends characters, those that mark up by their names.
pub(crate) fn push_escaped(out: &mut String, chars: &[char]) -> Result<(), NoMemory>
    ensures { OnOk result (string_bytes out.new ≡ string_bytes out.old ++ escaped_text chars.now) }
{
    for c in chars {
        push_escaped_char(out, *c)?;
    }
    Ok(())
}

fn push_escaped_char(out: &mut String, c: char) -> Result<(), NoMemory>
    ensures { OnOk result (string_bytes out.new ≡ string_bytes out.old ++ escaped_bytes c) }
{
    match c {
        '<' => out.push_str("&lt;")?,
        '>' => out.push_str("&gt;")?,
        '&' => out.push_str("&amp;")?,
        '"' => out.push_str("&quot;")?,
        '\'' => out.push_str("&apos;")?,
        _ => out.push(c)?,
    }
    Ok(())
}
