//! What is drawn of what the mirror has behind a message.
ghost use Rattle.std.specs.Prelude.{◌≡◌, ◌++◌, OnOk, Some, option_map, true};
ghost use Rattle.std.specs.List.{list_any};
ghost use Rattle.std.specs.String.{string_bytes};
ghost use Rattle.jdwp_mirror.specs.declared.threads.Known.{Known};
ghost use Rattle.jdwp_mirror.specs.KnownThreads.{count_in, is_held_in};
ghost use Rattle.jdwp_draw.specs.Columns.{same_request};
ghost use Rattle.jdwp_draw.specs.Elements.{band_box, band_class, band_count, band_text, bar_text, cell_text, cells_from};

use crate::columns::{Column, is_same_request};
use crate::layout::{column_left, row_top};
use crate::picture::{Row, Standing};
use jdwp_mirror::Known;
use jdwp_wire::NoMemory;

/// Appends what is drawn of a row in each of the columns.
pub(crate) fn push_cells(
    out: &mut String,
    index: usize,
    row: &Row,
    columns: &[Column],
) -> Result<(), NoMemory>
    ensures { OnOk result (string_bytes out.new ≡ string_bytes out.old ++ cells_from index row.now 0
        columns.now) }
{
    for (place, column) in columns.iter().enumerate() {
        push_cell(out, index, row, place, *column)?;
    }
    Ok(())
}

fn push_cell(
    out: &mut String,
    index: usize,
    row: &Row,
    place: usize,
    column: Column,
) -> Result<(), NoMemory>
    ensures { OnOk result (string_bytes out.new ≡ string_bytes out.old ++ cell_text index row.now
        place column) }
{
    match column {
        Column::Thread(thread) => match known_in(&row.threads, thread) {
            Some(known) => push_band(out, index, place, known.count, known.held),
            None => Ok(()),
        },
        Column::Request(request) => {
            if stands_in(&row.requests, request) {
                push_bar(out, index, place)?;
            }
            Ok(())
        }
    }
}

/// The thread of this id among those that are known.
fn known_in(threads: &[Known], thread: u64) -> Option<Known>
    ensures count { option_map (λ (k : Known). k.count) result ≡ count_in threads.now thread }
    ensures held { (k : Known) → result ≡ Some k → k.held ≡ is_held_in threads.now thread }
{
    for known in threads {
        if known.id.0 == thread {
            return Some(*known);
        }
    }
    None
}

/// Whether this request is among those that stand.
fn stands_in(requests: &[Standing], request: Standing) -> bool
    ensures { result ≡ list_any (same_request request) requests.now }
{
    for other in requests {
        if is_same_request(request, *other) {
            return true;
        }
    }
    false
}

/// Appends the cell of a thread with this count, held or not.
fn push_band(
    out: &mut String,
    index: usize,
    place: usize,
    count: u32,
    held: bool,
) -> Result<(), NoMemory>
    ensures { OnOk result (string_bytes out.new ≡ string_bytes out.old ++ band_text index place
        (Some count) held) }
{
    let class = band_class(count, held);
    push_box(out, index, place, class)?;
    push_count(out, index, place, class, count)
}

fn push_box(out: &mut String, index: usize, place: usize, class: &str) -> Result<(), NoMemory>
    ensures { OnOk result (string_bytes out.new ≡ string_bytes out.old ++ band_box index place
        class.now) }
{
    let left = column_left(place);
    let top = row_top(index);
    write!(
        out,
        "<rect class=\"{class}\" x=\"{left}\" y=\"{top}\" width=\"76\" height=\"34\"/>"
    )?;
    Ok(())
}

fn push_count(
    out: &mut String,
    index: usize,
    place: usize,
    class: &str,
    count: u32,
) -> Result<(), NoMemory>
    ensures { OnOk result (string_bytes out.new ≡ string_bytes out.old ++ band_count index place
        class.now count) }
{
    let middle = column_left(place) + 38;
    let bottom = row_top(index) + 21;
    write!(
        out,
        "<text class=\"m{class}\" x=\"{middle}\" y=\"{bottom}\">{count}</text>"
    )?;
    Ok(())
}

fn band_class(count: u32, held: bool) -> &'static str
    ensures { result.now ≡ band_class count held }
{
    if held {
        "h"
    } else if count == 0 {
        "f"
    } else {
        "s"
    }
}

/// Appends a piece of the bar of a request.
fn push_bar(out: &mut String, index: usize, place: usize) -> Result<(), NoMemory>
    ensures { OnOk result (string_bytes out.new ≡ string_bytes out.old ++ bar_text index place true) }
{
    let left = column_left(place) + 30;
    let top = row_top(index);
    write!(
        out,
        "<rect class=\"q\" x=\"{left}\" y=\"{top}\" width=\"16\" height=\"34\"/>"
    )?;
    Ok(())
}
