//! Commands by their names.
ghost use Rattle.std.specs.Prelude.{◌≡◌, true, MatchOption};
ghost use Rattle.jdwp_layout.specs.CommandTable.{row_at};
ghost use Rattle.jdwp_layout.specs.Rows.{found_row};
ghost use Rattle.jdwp_plan.specs.Commands.{HasNo, HasNoneBelow, is_command};
ghost use Rattle.jdwp_show.specs.MessageLines.{name_text};

use crate::cutting::cut_at_dot;
use jdwp_layout::{CommandRow, layout_of};

/// No command set has a number from this one on, but 0 has none either.
const SETS: u8 = 65;

/// No command has a number from this one on in its set but Composite.
const COMMANDS: u8 = 101;

/// The set and the number of the command of this name, as `VirtualMachine.Version`; None where no command has it.
pub(crate) fn command_named(name: &str) -> Option<(u8, u8)>
    ensures { MatchOption result (HasNo name.now) (λ command. name_text (record {
      set = command.0;
      number = command.1;
    }) ≡ name.now) }
{
    let cut = cut_at_dot(name);
    let command = cut.behind?;
    for set in 0..SETS {
        if let Some(number) = number_in(set, cut.front, command) {
            return Some((set, number));
        }
    }
    None
}

/// The number of the command of this name in a set of this name.
fn number_in(set: u8, set_name: &str, name: &str) -> Option<u8>
    ensures { MatchOption result (HasNoneBelow set set_name.now name.now COMMANDS)
        (λ number. is_command set_name.now name.now (row_at set number) ≡ true) }
{
    for number in 0..COMMANDS {
        if is_row(layout_of(set, number), set_name, name) {
            return Some(number);
        }
    }
    None
}

/// Whether this is the row of the command of this name in the set of that name.
fn is_row(row: Option<&CommandRow>, set_name: &str, name: &str) -> bool
    ensures { result ≡ is_command set_name.now name.now (found_row row.entry) }
{
    match row {
        Some(row) => row.set_name == set_name && row.name == name,
        None => false,
    }
}
