//! The heads of columns.
ghost use Rattle.std.specs.Prelude.{◌≡◌, ◌++◌, OnOk};
ghost use Rattle.std.specs.String.{string_bytes};
ghost use Rattle.jdwp_draw.specs.Elements.{head_text, heads_from};

use crate::columns::Column;
use crate::layout::column_left;
use crate::picture::Standing;
use jdwp_wire::NoMemory;

/// Appends the head of each column.
pub(crate) fn push_heads(out: &mut String, columns: &[Column]) -> Result<(), NoMemory>
    ensures { OnOk result (string_bytes out.new ≡ string_bytes out.old ++ heads_from 0 columns.now) }
{
    for (place, column) in columns.iter().enumerate() {
        push_head(out, place, *column)?;
    }
    Ok(())
}

fn push_head(out: &mut String, place: usize, column: Column) -> Result<(), NoMemory>
    ensures { OnOk result (string_bytes out.new ≡ string_bytes out.old ++ head_text place column) }
{
    let middle = column_left(place) + 42;
    match column {
        Column::Thread(thread) => write!(
            out,
            "<text transform=\"translate({middle} 250) rotate(-90)\">thread #{thread}</text>\n"
        )?,
        Column::Request(request) => {
            let Standing { id, kind } = request;
            write!(
                out,
                "<text transform=\"translate({middle} 250) rotate(-90)\">request {id} kind {kind}</text>\n"
            )?
        }
    }
    Ok(())
}
