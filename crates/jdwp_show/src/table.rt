//! The tables of commands by which data are read.
ghost use Rattle.std.specs.Prelude.{◌≡◌, is_some};
ghost use Rattle.jdwp_layout.specs.CommandTable.{row_at};
ghost use Rattle.jdwp_layout.specs.Rows.{found_row};
ghost use Rattle.jdwp_show.specs.Data.{shapes_in};
ghost use Rattle.jdwp_show.specs.Tables.{jdi_row_at, row_under};

use jdwp_layout::numbers::{
    CLASS_INVOKE, CLASS_PATHS, CLASS_TYPE, INTERFACE_INVOKE, INTERFACE_TYPE, OBJECT_INVOKE,
    OBJECT_REFERENCE, VIRTUAL_MACHINE,
};
use jdwp_layout::{CommandRow, Entry, Field, Item, Layout, Layouts, invocation, layout_of};

/// A table of commands.
#[derive(Clone, Copy, Debug, PartialEq, Eq)]
pub enum Table {
    /// The standard's, in which the data of some rows are raw: no one reads them.
    Standard,
    /// That of the profile `jdi`: the same, but the data of the raw commands that a target of that profile answers are read. These are
    /// VirtualMachine's ClassPaths, and the InvokeMethod of ClassType, InterfaceType and ObjectReference.
    Jdi,
}

static CLASS_PATHS_ROW: CommandRow = CommandRow {
    set_name: "VirtualMachine",
    name: "ClassPaths",
    layouts: Some(Layouts {
        request: Layout { items: &[] },
        reply: Layout {
            items: &[
                Item::One(Field::String),
                Item::Many(Entry::Fields(&[Field::String])),
                Item::Many(Entry::Fields(&[Field::String])),
            ],
        },
    }),
    starred: false,
};

static CLASS_INVOKE_ROW: CommandRow = CommandRow {
    set_name: "ClassType",
    name: "InvokeMethod",
    layouts: Some(Layouts {
        request: invocation::OF_TYPE,
        reply: invocation::REPLY,
    }),
    starred: false,
};

static INTERFACE_INVOKE_ROW: CommandRow = CommandRow {
    set_name: "InterfaceType",
    name: "InvokeMethod",
    layouts: Some(Layouts {
        request: invocation::OF_TYPE,
        reply: invocation::REPLY,
    }),
    starred: false,
};

static OBJECT_INVOKE_ROW: CommandRow = CommandRow {
    set_name: "ObjectReference",
    name: "InvokeMethod",
    layouts: Some(Layouts {
        request: invocation::OF_OBJECT,
        reply: invocation::REPLY,
    }),
    starred: false,
};

impl Table {
    /// The row of a command set and a command; None where the table has none.
    #[inline(always)]
    pub fn row(self, set: u8, command: u8) -> Option<&'static CommandRow>
        ensures { found_row result ≡ row_under self set command }
    {
        let row = layout_of(set, command);
        match self {
            Table::Standard => row,
            Table::Jdi => jdi_row(set, command, row),
        }
    }
}

/// The row of a command in the table `jdi`, where this is its row in the standard's: only one that is raw there is another here.
fn jdi_row(
    set: u8,
    command: u8,
    standard: Option<&'static CommandRow>,
) -> Option<&'static CommandRow>
    requires { found_row standard ≡ row_at set command }
    ensures { found_row result ≡ row_under Table.Jdi set command }
{
    if is_read(standard) {
        return standard;
    }
    match own_row(set, command) {
        Some(row) => Some(row),
        None => standard,
    }
}

/// Whether the data of a row are read.
fn is_read(row: Option<&CommandRow>) -> bool
    ensures { result ≡ is_some (shapes_in (found_row row.entry)) }
{
    match row {
        None => false,
        Some(row) => match row.layouts {
            None => false,
            Some(_) => true,
        },
    }
}

/// The row of a command that has another in the table `jdi` than in the standard's.
fn own_row(set: u8, command: u8) -> Option<&'static CommandRow>
    ensures { found_row result ≡ jdi_row_at set command }
{
    match (set, command) {
        (VIRTUAL_MACHINE, CLASS_PATHS) => Some(&CLASS_PATHS_ROW),
        (CLASS_TYPE, CLASS_INVOKE) => Some(&CLASS_INVOKE_ROW),
        (INTERFACE_TYPE, INTERFACE_INVOKE) => Some(&INTERFACE_INVOKE_ROW),
        (OBJECT_REFERENCE, OBJECT_INVOKE) => Some(&OBJECT_INVOKE_ROW),
        _ => None,
    }
}
