//! The layouts of commands' data (JDWP specification, "Protocol Details").
ghost use Rattle.std.specs.Prelude.{◌≡◌};
ghost use Rattle.jdwp_layout.specs.CommandTable.{row_at};
ghost use Rattle.jdwp_action.specs.RowLayouts.{found_layout, row_reply};

use jdwp_layout::{Layout, layout_of};

/// The layout of the data of a reply to the command of this set and number; None where no row has them, or its data are not read.
pub fn reply_layout(set: u8, number: u8) -> Option<Layout>
    ensures { found_layout result ≡ row_reply (row_at set number) }
{
    let row = layout_of(set, number)?;
    let layouts = row.layouts?;
    Some(layouts.reply)
}
