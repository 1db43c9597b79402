//! Messages as lines.
ghost use Rattle.std.specs.Prelude.{◌≡◌, ◌++◌, ◌==◌, if◌then◌else◌, None, codes};
ghost use Rattle.jdwp_wire.specs.ErrorCodes.{NONE};
ghost use Rattle.jdwp_show.specs.Data.{shapes_under};
ghost use Rattle.jdwp_show.specs.MessageLines.{body_text, body_fault, request_in, reply_in, name_text, mark, hello_line, command_start, reply_start, found_shape};
ghost use Rattle.jdwp_show.specs.Telling.{Grows};

use crate::capture_line::Sender;
use crate::command_number::CommandNumber;
use crate::data_text::{push_number, push_raw};
use crate::table::Table;
use crate::telling::tell_data;
use crate::text::Text;
use jdwp_layout::{Layout, layout_of};
use jdwp_wire::{ErrorCode, IdSizes};
use std::alloc::Global;

/// Appends the mark of an end, `>` or `<`, and a space.
pub(crate) fn push_mark(text: &mut Text, sender: Sender)
    ensures { Grows text.old (mark sender ++ codes " ") text.new }
{
    text.push_str(match sender {
        Sender::Debugger => "> ",
        Sender::Target => "< ",
    });
}

/// Appends the line of a handshake, without its newline.
pub(crate) fn push_hello(text: &mut Text, sender: Sender)
    ensures { Grows text.old (hello_line sender) text.new }
{
    push_mark(text, sender);
    text.push_str("hello");
}

/// Appends the names of a command set and a command, or their numbers where they are not known.
fn push_name(text: &mut Text, command: CommandNumber)
    ensures { Grows text.old (name_text command) text.new }
{
    match layout_of(command.set, command.number) {
        Some(row) => {
            text.push_str(row.set_name);
            text.push_str(".");
            text.push_str(row.name);
        }
        None => {
            push_number(text, command.set);
            text.push_str(".");
            push_number(text, command.number);
        }
    }
}

/// Appends the line of a command up to its data.
pub(crate) fn push_command_start(text: &mut Text, sender: Sender, id: u32, command: CommandNumber)
    ensures { Grows text.old (command_start sender id command) text.new }
{
    push_mark(text, sender);
    push_number(text, id);
    text.push_str(" ");
    push_name(text, command);
}

/// Appends the line of a reply up to its data.
pub(crate) fn push_reply_start(
    text: &mut Text,
    sender: Sender,
    id: u32,
    command: CommandNumber,
    error: ErrorCode,
)
    ensures { Grows text.old (reply_start sender id command error.0) text.new }
{
    push_mark(text, sender);
    push_number(text, id);
    text.push_str(" reply ");
    push_name(text, command);
    text.push_str(" ");
    push_number(text, error.0);
}

/// Appends data by their layout, or as they are where it or the widths are not known. They are not at fault.
pub(crate) fn push_sound_body(
    alloc: Global,
    text: &mut Text,
    sizes: Option<IdSizes>,
    layout: Option<Layout>,
    body: &[u8],
)
    requires { body_fault sizes (found_shape layout) body.now ≡ None }
    ensures { Grows text.old (body_text sizes (found_shape layout) body.now) text.new }
{
    let (Some(sizes), Some(layout)) = (sizes, layout) else {
        push_raw(alloc, text, body);
        return;
    };
    match tell_data(alloc, text, layout.items, &sizes, body) {
        Ok(()) => {}
        // They read, so that only memory was wanting.
        Err(_) => text.refuse(),
    }
}

/// The layout of the data of a command, where they are read.
pub(crate) fn request_layout(table: Table, command: CommandNumber) -> Option<Layout>
    ensures { found_shape result ≡ request_in (shapes_under table command) }
{
    let row = table.row(command.set, command.number)?;
    match row.layouts {
        None => None,
        Some(layouts) => Some(layouts.request),
    }
}

/// The layout of the data of a reply, where they are read; with an error it has none.
pub(crate) fn reply_layout(table: Table, command: CommandNumber, error: ErrorCode) -> Option<Layout>
    ensures { found_shape result ≡ (if error.0 == NONE.0 then reply_in
        (shapes_under table command) else None) }
{
    if error != ErrorCode::NONE {
        return None;
    }
    let row = table.row(command.set, command.number)?;
    match row.layouts {
        None => None,
        Some(layouts) => Some(layouts.reply),
    }
}
