//! What a line says.
ghost use Rattle.std.specs.Prelude.{◌≡◌};
ghost use Rattle.jdwp_plan.specs.Lines as lines;
ghost use Rattle.jdwp_plan.specs.Meanings.{Reads, meaning, result_now, texts_now};
ghost use Rattle.jdwp_plan.specs.Names.{is_name};

use crate::cutting::{cut_at_dot, cut_at_space, number};
use crate::plan_fault::{Expected, Stop};
use crate::plan_line::Path;
use crate::quoting::name_length;
use crate::spoken::Spoken;

/// What a line says.
///
/// # Errors
/// Where it goes wrong.
pub(crate) fn says(line: &str) -> Result<Spoken<'_>, Stop>
    ensures { Reads result (lines.line_of line.now) }
{
    if line.is_empty() || line.as_bytes().first() == Some(&b'#') {
        return Ok(Spoken::Nothing);
    }
    let cut = cut_at_space(line);
    by_word(cut.front, cut.behind, line.len())
}

/// What a line of so many bytes says that begins with this word.
fn by_word<'a>(word: &str, rest: Option<&'a str>, left: usize) -> Result<Spoken<'a>, Stop>
    ensures { Reads result (lines.by_word left word.now (texts_now rest.entry)) }
{
    if word == "mirror" {
        return alone(rest);
    }
    if word == "ask" {
        return Ok(ask(needed(rest)?));
    }
    if word == "let" {
        return binding(needed(rest)?);
    }
    if word == "expect" {
        return expect(needed(rest)?);
    }
    if word == "timeout" {
        return Ok(Spoken::Timeout(needed_number(rest)?));
    }
    if word == "events" {
        return Ok(Spoken::Events(needed_number(rest)?));
    }
    if word == "wait" {
        return second(rest, "event", Expected::Event, Spoken::WaitEvent);
    }
    if word == "may" {
        return second(rest, "end", Expected::MayEnd, Spoken::MayEnd);
    }
    if word == "plan" {
        return second(rest, "2", Expected::Version, Spoken::Version);
    }
    Err(Stop {
        left,
        expected: Expected::Word,
    })
}

/// What `mirror` says before this.
fn alone(rest: Option<&str>) -> Result<Spoken<'_>, Stop>
    ensures { Reads result (lines.alone (texts_now rest.entry)) }
{
    match rest {
        None => Ok(Spoken::Mirror),
        Some(rest) => Err(Stop {
            left: rest.len(),
            expected: Expected::End,
        }),
    }
}

/// What stands behind a word and a space.
fn needed(rest: Option<&str>) -> Result<&str, Stop>
    ensures { lines.needed (texts_now rest.entry) ≡ result_now result }
{
    match rest {
        Some(rest) => Ok(rest),
        None => Err(Stop {
            left: 0,
            expected: Expected::Space,
        }),
    }
}

/// The number behind a word and a space.
fn needed_number(rest: Option<&str>) -> Result<u32, Stop>
    ensures { result ≡ lines.needed_number (texts_now rest.entry) }
{
    let text = needed(rest)?;
    match number(text) {
        Some(number) => Ok(number),
        None => Err(Stop {
            left: text.len(),
            expected: Expected::Number,
        }),
    }
}

/// What two words say, of which the second is this one.
fn second<'a>(
    rest: Option<&'a str>,
    word: &str,
    expected: Expected,
    spoken: Spoken<'a>,
) -> Result<Spoken<'a>, Stop>
    ensures { Reads result (lines.second (texts_now rest.entry) word.now expected (meaning spoken.entry)) }
{
    let text = needed(rest)?;
    if text == word {
        Ok(spoken)
    } else {
        Err(Stop {
            left: text.len(),
            expected,
        })
    }
}

/// What `ask` says before this.
fn ask(rest: &str) -> Spoken<'_>
    ensures { meaning result ≡ lines.ask rest.now }
{
    let cut = cut_at_space(rest);
    Spoken::Ask(cut.front, cut.behind)
}

/// What `expect` says before this.
fn expect(rest: &str) -> Result<Spoken<'_>, Stop>
    ensures { Reads result (lines.expect rest.now) }
{
    if rest.is_empty() {
        return Err(Stop {
            left: 0,
            expected: Expected::Text,
        });
    }
    let cut = cut_at_space(rest);
    if cut.front == "held" {
        return Ok(Spoken::ExpectHeld(needed(cut.behind)?));
    }
    if cut.front == "free" {
        return Ok(Spoken::ExpectFree(needed(cut.behind)?));
    }
    Ok(Spoken::Expect(rest))
}

/// What `let` says before this.
fn binding(rest: &str) -> Result<Spoken<'_>, Stop>
    ensures { Reads result (lines.binding rest.now) }
{
    let cut = cut_at_space(rest);
    if !is_name(cut.front.as_bytes()) {
        return Err(Stop {
            left: rest.len(),
            expected: Expected::Name,
        });
    }
    let path = path_behind_equals(needed(cut.behind)?)?;
    Ok(Spoken::Let(cut.front, path))
}

/// The path behind `= `.
fn path_behind_equals(rest: &str) -> Result<Path, Stop>
    ensures { result ≡ lines.path_behind_equals rest.now }
{
    let cut = cut_at_space(rest);
    match cut.behind {
        Some(text) if cut.front == "=" => path_of(text),
        _ => Err(Stop {
            left: rest.len(),
            expected: Expected::Equals,
        }),
    }
}

/// The path that a text is.
fn path_of(text: &str) -> Result<Path, Stop>
    ensures { result ≡ lines.path text.now }
{
    let first = cut_at_dot(text);
    let one = path_number(first.front, text)?;
    let Some(behind) = first.behind else {
        return Ok(Path::Item(one));
    };
    let second = cut_at_dot(behind);
    let two = path_number(second.front, behind)?;
    let Some(behind) = second.behind else {
        return Ok(Path::Entry(one, two));
    };
    let three = path_number(behind, behind)?;
    Ok(Path::EntryOf(one, two, three))
}

/// The number of a path that stands in front of what is left.
fn path_number(text: &str, left: &str) -> Result<u32, Stop>
    ensures { result ≡ lines.path_number text.now left.now }
{
    match number(text) {
        Some(number) => Ok(number),
        None => Err(Stop {
            left: left.len(),
            expected: Expected::Path,
        }),
    }
}

/// Whether a text is a name of letters, digits and `_`.
fn is_name(text: &[u8]) -> bool
    ensures { result ≡ is_name text.now }
{
    !text.is_empty() && name_length(text) == text.len()
}
