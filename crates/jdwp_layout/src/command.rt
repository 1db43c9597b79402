//! The commands, each with what it carries there and back (JDWP specification, "Protocol Details").
ghost use Rattle.std.specs.Prelude.{◌≡◌};
ghost use Rattle.jdwp_layout.specs.Rows.{found_row};
ghost use Rattle.jdwp_layout.specs.CommandTable.{row_at};

use crate::command_sets::{
    array_reference, array_type, class_loader_reference, class_object_reference, class_type, event,
    event_request, interface_type, method, module_reference, object_reference, reference_type,
    stack_frame, string_reference, thread_group_reference, thread_reference, virtual_machine,
};
use crate::item::Layout;

/// What a command and its reply carry.
#[derive(Clone, Copy, Debug, PartialEq, Eq)]
pub struct Layouts {
    pub request: Layout,
    /// The data of a reply without an error; a reply with an error has no data.
    pub reply: Layout,
}

/// A command.
#[derive(Clone, Copy, Debug, PartialEq, Eq)]
pub struct CommandRow {
    /// The name of the command set, as the specification writes it.
    pub set_name: &'static str,
    /// The name of the command, as the specification writes it.
    pub name: &'static str,
    /// None in a raw row: its data are not read, in neither direction.
    pub layouts: Option<Layouts>,
    /// Whether the target does not implement the command: it answers NOT_IMPLEMENTED, and does not read the data.
    /// The target implements no raw row either; those are not starred.
    pub starred: bool,
}

/// The row of a command set and a command; None where the table has none.
pub fn layout_of(set: u8, command: u8) -> Option<&'static CommandRow>
    ensures { found_row result ≡ row_at set command }
{
    match set {
        1 => virtual_machine::row_of(command),
        2 => reference_type::row_of(command),
        3 => class_type::row_of(command),
        4 => array_type::row_of(command),
        5 => interface_type::row_of(command),
        6 => method::row_of(command),
        9 => object_reference::row_of(command),
        10 => string_reference::row_of(command),
        11 => thread_reference::row_of(command),
        12 => thread_group_reference::row_of(command),
        13 => array_reference::row_of(command),
        14 => class_loader_reference::row_of(command),
        15 => event_request::row_of(command),
        16 => stack_frame::row_of(command),
        17 => class_object_reference::row_of(command),
        18 => module_reference::row_of(command),
        64 => event::row_of(command),
        _ => None,
    }
}
