//! Names of commands and of error codes, and faults in words.
ghost use Rattle.milunovesk_c.specs.Names as names;
ghost use Rattle.milunovesk_c.specs.Telling.{Finds};

use crate::NO_ITEM;
use crate::copying::{copy_out, copy_pair};
use crate::error_names::error_name;
use crate::fault_texts::fault_text;
use jdwp_layout::layout_of;

/// Moves the name of a command, as `mv_show` prints it, to the front of `out`, and says how many bytes it is. `SHORT_BUFFER` where `out` has too
/// little room, `NO_ITEM` where there is no such command.
#[unsafe(no_mangle)]
pub extern "C" fn mv_command_name(set: u8, number: u8, out: &mut [u8], needed: &mut usize) -> u32
    ensures { Finds (names.command_name set number) result out.old out.new needed.new }
{
    *needed = 0;
    match layout_of(set, number) {
        None => NO_ITEM,
        Some(row) => copy_pair(row.set_name.as_bytes(), row.name.as_bytes(), out, needed),
    }
}

/// The same of the name of an error code, as the specification has it. `NO_ITEM` where it has none.
#[unsafe(no_mangle)]
pub extern "C" fn mv_error_name(code: u16, out: &mut [u8], needed: &mut usize) -> u32
    ensures { Finds (names.error_name code) result out.old out.new needed.new }
{
    *needed = 0;
    match error_name(code) {
        None => NO_ITEM,
        Some(name) => copy_out(name.as_bytes(), out, needed),
    }
}

/// The same of what a fault is, by its number, in words. `NO_ITEM` where there is no such fault.
#[unsafe(no_mangle)]
pub extern "C" fn mv_fault_text(number: u16, out: &mut [u8], needed: &mut usize) -> u32
    ensures { Finds (names.fault_text number) result out.old out.new needed.new }
{
    *needed = 0;
    match fault_text(number) {
        None => NO_ITEM,
        Some(text) => copy_out(text.as_bytes(), out, needed),
    }
}
