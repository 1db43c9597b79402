//! The layouts of replies, from the table of commands.
ghost use Rattle.std.specs.Prelude.{◌≡◌};
ghost use Rattle.jdwp_layout.specs.Shapes.{shape};
ghost use Rattle.jdwp_answer.specs.Table.{reply_of as shape_of_reply};

use jdwp_layout::{Layout, layout_of};

static NOTHING: Layout = Layout { items: &[] };

/// The layout of the reply of a command; of no items where the table has no such command, or its data are not read.
pub(crate) fn reply_of(set: u8, number: u8) -> &'static Layout
    ensures { shape result.now ≡ shape_of_reply set number }
{
    match layout_of(set, number) {
        Some(row) => match &row.layouts {
            Some(layouts) => &layouts.reply,
            None => &NOTHING,
        },
        None => &NOTHING,
    }
}
