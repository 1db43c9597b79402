//! The rows of a picture, one below the other.
ghost use Rattle.std.specs.Prelude.{◌≡◌, ◌++◌, OnOk};
ghost use Rattle.std.specs.String.{string_bytes};
ghost use Rattle.jdwp_draw.specs.Elements.{fault_text, lined_text, row_text, rows_from};

use crate::cells::push_cells;
use crate::columns::Column;
use crate::escape::drawn_chars;
use crate::layout::row_top;
use crate::message::{push_arrow, push_label, push_number, push_tie, push_title};
use crate::picture::Row;
use jdwp_show::CaptureFault;
use jdwp_wire::NoMemory;
use std::alloc::Global;

/// Appends these rows, the first of which is this one of the picture.
pub(crate) fn push_rows(
    alloc: Global,
    out: &mut String,
    from: usize,
    columns: &[Column],
    rows: &[Row],
) -> Result<(), NoMemory>
    ensures { OnOk result (string_bytes out.new ≡ string_bytes out.old ++ rows_from from columns.now
        0 rows.now) }
{
    for (index, row) in rows.iter().enumerate() {
        push_row(alloc, out, from, columns, index, row)?;
    }
    Ok(())
}

fn push_row(
    alloc: Global,
    out: &mut String,
    from: usize,
    columns: &[Column],
    index: usize,
    row: &Row,
) -> Result<(), NoMemory>
    ensures { OnOk result (string_bytes out.new ≡ string_bytes out.old ++ row_text from columns.now
        index row.now) }
{
    let line = drawn_chars(alloc, row.line.as_str())?;
    push_lined(out, from, columns, index, row, &line)
}

/// Appends a row with these characters as its line.
fn push_lined(
    out: &mut String,
    from: usize,
    columns: &[Column],
    index: usize,
    row: &Row,
    line: &[char],
) -> Result<(), NoMemory>
    ensures { OnOk result (string_bytes out.new ≡ string_bytes out.old ++ lined_text from
        columns.now index row.now line.now) }
{
    out.push_str("<g>")?;
    push_title(out, line)?;
    push_number(out, index, from as u128 + index as u128)?;
    push_tie(out, from, index, row.answers)?;
    push_arrow(out, index, row.sender, row.answers)?;
    push_label(out, index, line)?;
    push_cells(out, index, row, columns)?;
    out.push_str("</g>\n")?;
    Ok(())
}

/// Appends the fault of a capture in the row below this many.
pub(crate) fn push_fault(
    out: &mut String,
    index: usize,
    fault: &Option<(usize, CaptureFault)>,
) -> Result<(), NoMemory>
    ensures { OnOk result (string_bytes out.new ≡ string_bytes out.old ++ fault_text index fault.now) }
{
    let Some((line, fault)) = *fault else {
        return Ok(());
    };
    let y = row_top(index) + 22;
    let bottom = row_top(index) + 14;
    let number = fault.printed_number();
    write!(
        out,
        "<path class=\"x\" d=\"M90 {y}H790\"/><text class=\"z\" x=\"100\" y=\"{bottom}\">line {line}: fault {number}</text>\n"
    )?;
    Ok(())
}
