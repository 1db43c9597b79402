//! A picture as a document of SVG.
ghost use Rattle.std.specs.Prelude.{◌≡◌, ◌++◌, IfOk, OnOk, drop, take};
ghost use Rattle.std.specs.String.{string_bytes};
ghost use Rattle.jdwp_draw.specs.Svg.{LEGEND, STYLE, document, drawn_fault, heading_text, lifelines_text, opening_text, svg_text};

use crate::columns::{Column, columns_of};
use crate::heads::push_heads;
use crate::layout::{column_left, row_top};
use crate::picture::{Picture, Row};
use crate::rows::{push_fault, push_rows};
use jdwp_show::CaptureFault;
use jdwp_wire::NoMemory;
use std::alloc::Global;

/// The picture as a document of SVG: `count` rows at most, from the row `from` on, the first being 0.
///
/// Each message is an arrow with its line, or as much of that as there is room for, and its whole line as a title. A reply is tied to its
/// command where that is drawn. Beside it stands, for each thread that the mirror knows in one of these rows, its count behind the message,
/// and whether it is held, and for each event request a bar where it stands. Where the last row is among them the fault of the capture stands
/// below it.
///
/// # Errors
/// `NoMemory` where an allocation was refused.
pub fn svg(alloc: Global, picture: &Picture, from: usize, count: usize) -> Result<String, NoMemory>
    ensures { IfOk result (λ text. string_bytes text ≡ svg_text picture.now from count) }
{
    let rows = drawn_rows(&picture.rows, from, count);
    let columns = columns_of(alloc, rows)?;
    let mut out = String::new(alloc);
    push_document(
        alloc,
        &mut out,
        from,
        picture.rows.len(),
        rows,
        &columns,
        &drawn_fault(picture, from, count),
    )?;
    Ok(out)
}

/// The fault, where the last row is among those that are drawn.
fn drawn_fault(picture: &Picture, from: usize, count: usize) -> Option<(usize, CaptureFault)>
    ensures { result ≡ drawn_fault picture.now from count }
{
    if picture.rows.len().saturating_sub(from) <= count {
        return picture.fault;
    }
    None
}

/// So many of the rows at most, from this one on.
fn drawn_rows(rows: &[Row], from: usize, count: usize) -> &[Row]
    ensures { result.now ≡ take count (drop from rows.now) }
{
    if from >= rows.len() {
        return &rows[rows.len()..];
    }
    let rest = &rows[from..];
    if count >= rest.len() {
        return rest;
    }
    &rest[..count]
}

fn push_document(
    alloc: Global,
    out: &mut String,
    from: usize,
    all: usize,
    rows: &[Row],
    columns: &[Column],
    fault: &Option<(usize, CaptureFault)>,
) -> Result<(), NoMemory>
    ensures { OnOk result (string_bytes out.new ≡ string_bytes out.old ++ document from all rows.now
        columns.now fault.now) }
{
    push_opening(out, rows.len(), columns.len())?;
    push_style(out)?;
    push_heading(out, from, rows.len(), all)?;
    push_legend(out)?;
    push_lifelines(out, rows.len())?;
    push_heads(out, columns)?;
    push_rows(alloc, out, from, columns, rows)?;
    push_fault(out, rows.len(), fault)?;
    out.push_str("</svg>\n")?;
    Ok(())
}

fn push_opening(out: &mut String, rows: usize, columns: usize) -> Result<(), NoMemory>
    ensures { OnOk result (string_bytes out.new ≡ string_bytes out.old ++ opening_text rows columns) }
{
    let width = column_left(columns) + 20;
    let height = row_top(rows) + 60;
    write!(
        out,
        "<svg xmlns=\"http://www.w3.org/2000/svg\" width=\"{width}\" height=\"{height}\""
    )?;
    write!(
        out,
        " viewBox=\"0 0 {width} {height}\" font-family=\"monospace\" font-size=\"12\">\n"
    )?;
    Ok(())
}

fn push_heading(out: &mut String, from: usize, shown: usize, all: usize) -> Result<(), NoMemory>
    ensures { OnOk result (string_bytes out.new ≡ string_bytes out.old ++ heading_text from shown
        all) }
{
    let first = from as u128 + 1;
    write!(
        out,
        "<text x=\"100\" y=\"30\" font-size=\"16\">{shown} of {all} messages, from number {first} on</text>\n"
    )?;
    Ok(())
}

fn push_lifelines(out: &mut String, rows: usize) -> Result<(), NoMemory>
    ensures { OnOk result (string_bytes out.new ≡ string_bytes out.old ++ lifelines_text rows) }
{
    let bottom = row_top(rows) + 30;
    out.push_str(
        "<text class=\"c\" x=\"90\" y=\"250\">debugger</text><text class=\"c\" x=\"790\" y=\"250\">target</text>",
    )?;
    write!(
        out,
        "<path class=\"y\" d=\"M90 256V{bottom}M790 256V{bottom}\"/>\n"
    )?;
    Ok(())
}

/// How things of each class look.
fn push_style(out: &mut String) -> Result<(), NoMemory>
    ensures { OnOk result (string_bytes out.new ≡ string_bytes out.old ++ STYLE) }
{
    out.push_str(
        "<style>.a{stroke:#000;fill:none}.d{stroke:#000;fill:none;stroke-dasharray:7 4}.e{stroke:#000;fill:none;stroke-width:3}.t{stroke:#777;fill:none}.y{stroke:#000;stroke-width:2;fill:none}.x{stroke:#b00;stroke-width:4;fill:none}.z{fill:#b00;font-weight:bold}\n",
    )?;
    out.push_str(
        ".n{text-anchor:end;fill:#444}.c{text-anchor:middle}.mf{text-anchor:middle;fill:#000}.ms{text-anchor:middle;fill:#000;font-weight:bold}.mh{text-anchor:middle;fill:#fff;font-weight:bold}\n",
    )?;
    out.push_str(
        ".f{fill:#fff;stroke:#777}.s{fill:url(#stripes);stroke:#777}.h{fill:#173f8a;stroke:#777}.q{fill:#d98c00}</style>\n",
    )?;
    out.push_str(
        "<defs><marker id=\"tip\" viewBox=\"0 0 10 10\" refX=\"10\" refY=\"5\" markerWidth=\"12\" markerHeight=\"9\" markerUnits=\"userSpaceOnUse\" orient=\"auto\"><path d=\"M0 0L10 5L0 10z\"/></marker>\n",
    )?;
    out.push_str(
        "<pattern id=\"stripes\" width=\"8\" height=\"8\" patternUnits=\"userSpaceOnUse\"><rect width=\"8\" height=\"8\" fill=\"#fff\"/><path d=\"M0 8L8 0\" stroke=\"#f0a860\" stroke-width=\"2\"/></pattern></defs>\n",
    )?;
    out.push_str("<rect width=\"100%\" height=\"100%\" fill=\"#fff\"/>\n")?;
    Ok(())
}

/// What the signs mean.
fn push_legend(out: &mut String) -> Result<(), NoMemory>
    ensures { OnOk result (string_bytes out.new ≡ string_bytes out.old ++ LEGEND) }
{
    out.push_str(
        "<rect class=\"f\" x=\"84\" y=\"46\" width=\"76\" height=\"26\"/><text class=\"mf\" x=\"122\" y=\"63\">0</text><text x=\"172\" y=\"63\">a thread that may run: its count by the mirror is 0</text>\n",
    )?;
    out.push_str(
        "<rect class=\"s\" x=\"84\" y=\"78\" width=\"76\" height=\"26\"/><text class=\"ms\" x=\"122\" y=\"95\">1</text><text x=\"172\" y=\"95\">its count is above 0, and it was not shown alive since</text>\n",
    )?;
    out.push_str(
        "<rect class=\"h\" x=\"84\" y=\"110\" width=\"76\" height=\"26\"/><text class=\"mh\" x=\"122\" y=\"127\">1</text><text x=\"172\" y=\"127\">it is held for suspended, with this count</text>\n",
    )?;
    out.push_str(
        "<rect class=\"q\" x=\"114\" y=\"142\" width=\"16\" height=\"26\"/><text x=\"172\" y=\"159\">an event request stands</text>\n",
    )?;
    out.push_str(
        "<path class=\"a\" d=\"M84 187H158\" marker-end=\"url(#tip)\"/><text x=\"172\" y=\"191\">a command, or a handshake of the debugger</text>\n",
    )?;
    out.push_str(
        "<path class=\"d\" d=\"M160 205H86\" marker-end=\"url(#tip)\"/><text x=\"172\" y=\"209\">a reply, tied to its command at the left</text>\n",
    )?;
    out.push_str(
        "<path class=\"e\" d=\"M160 223H86\" marker-end=\"url(#tip)\"/><text x=\"172\" y=\"227\">events, or the handshake of the target</text>\n",
    )?;
    Ok(())
}
