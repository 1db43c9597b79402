//! What is drawn of a message.
ghost use Rattle.std.specs.Prelude.{◌≡◌, ◌++◌, ◌<◌, ◌^◌, OnOk};
ghost use Rattle.std.specs.String.{string_bytes};
ghost use Rattle.jdwp_draw.specs.Elements.{arrow_text, label, label_text, number_text, tie_text, title_text};

use crate::escape::push_escaped;
use crate::layout::{LABEL_MOST, row_top};
use crate::sender::Sender;
use jdwp_wire::NoMemory;

/// Appends the whole line as a title.
pub(crate) fn push_title(out: &mut String, line: &[char]) -> Result<(), NoMemory>
    ensures { OnOk result (string_bytes out.new ≡ string_bytes out.old ++ title_text line.now) }
{
    out.push_str("<title>")?;
    push_escaped(out, line)?;
    out.push_str("</title>")?;
    Ok(())
}

/// Appends the number of the message at this place, from 0.
pub(crate) fn push_number(out: &mut String, index: usize, place: u128) -> Result<(), NoMemory>
    requires { place < 2 ^ 65 }
    ensures { OnOk result (string_bytes out.new ≡ string_bytes out.old ++ number_text index place) }
{
    let bottom = row_top(index) + 26;
    let number = place + 1;
    write!(
        out,
        "<text class=\"n\" x=\"48\" y=\"{bottom}\">{number}</text>"
    )?;
    Ok(())
}

/// Appends as much of the line as there is room for.
pub(crate) fn push_label(out: &mut String, index: usize, line: &[char]) -> Result<(), NoMemory>
    ensures { OnOk result (string_bytes out.new ≡ string_bytes out.old ++ label_text index line.now) }
{
    let bottom = row_top(index) + 14;
    let width = 7 * line.len().min(LABEL_MOST);
    write!(
        out,
        "<text x=\"100\" y=\"{bottom}\" textLength=\"{width}\" lengthAdjust=\"spacingAndGlyphs\" xml:space=\"preserve\">"
    )?;
    push_cut(out, line)?;
    out.push_str("</text>")?;
    Ok(())
}

fn push_cut(out: &mut String, line: &[char]) -> Result<(), NoMemory>
    ensures { OnOk result (string_bytes out.new ≡ string_bytes out.old ++ label line.now) }
{
    if line.len() <= LABEL_MOST {
        return push_escaped(out, line);
    }
    push_escaped(out, &line[..LABEL_MOST - 1])?;
    out.push('…')?;
    Ok(())
}

/// Appends the arrow of a message of this end.
pub(crate) fn push_arrow(
    out: &mut String,
    index: usize,
    sender: Sender,
    answers: Option<usize>,
) -> Result<(), NoMemory>
    ensures { OnOk result (string_bytes out.new ≡ string_bytes out.old ++ arrow_text index sender
        answers) }
{
    let y = row_top(index) + 22;
    match (sender, answers) {
        (Sender::Debugger, _) => write!(
            out,
            "<path class=\"a\" d=\"M90 {y}H788\" marker-end=\"url(#tip)\"/>"
        )?,
        (Sender::Target, Some(_)) => write!(
            out,
            "<path class=\"d\" d=\"M790 {y}H92\" marker-end=\"url(#tip)\"/>"
        )?,
        (Sender::Target, None) => write!(
            out,
            "<path class=\"e\" d=\"M790 {y}H92\" marker-end=\"url(#tip)\"/>"
        )?,
    }
    Ok(())
}

/// Appends what ties a reply to its command, where that is drawn: the first row that is drawn is this one of the picture.
pub(crate) fn push_tie(
    out: &mut String,
    from: usize,
    index: usize,
    answers: Option<usize>,
) -> Result<(), NoMemory>
    ensures { OnOk result (string_bytes out.new ≡ string_bytes out.old ++ tie_text from index
        answers) }
{
    let Some(command) = answers else {
        return Ok(());
    };
    if command < from {
        return Ok(());
    }
    let top = row_top(command - from) + 22;
    let left = 76 - 6 * (command % 4);
    let bottom = row_top(index) + 22;
    write!(
        out,
        "<path class=\"t\" d=\"M90 {top}H{left}V{bottom}H90\"/>"
    )?;
    Ok(())
}
