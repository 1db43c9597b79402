//! One message as a line, without a capture.
ghost use Rattle.std.specs.Prelude.{◌≡◌, ◌++◌, IfOk};
ghost use Rattle.std.specs.String.{string_bytes};
ghost use Rattle.jdwp_event.specs.Composites.{composite_data};
ghost use Rattle.jdwp_layout.specs.CommandNumbers.{COMPOSITE};
ghost use Rattle.jdwp_layout.specs.Meanings.{meanings};
ghost use Rattle.jdwp_show.specs.declared.capture_line.Sender.TheVariants.{Target};
ghost use Rattle.jdwp_show.specs.DataText.{data_text, raw_text};
ghost use Rattle.jdwp_show.specs.MessageLines.{command_start, reply_start};
ghost use Rattle.jdwp_show.specs.Telling.{Grows};

use crate::capture_line::Sender;
use crate::command_number::CommandNumber;
use crate::composite_text::push_composite;
use crate::data_text::{push_data, push_raw};
use crate::message_text::{push_command_start, push_reply_start};
use crate::text::Text;
use jdwp_event::Composite;
use jdwp_layout::{Datum, numbers};
use jdwp_wire::{ErrorCode, NoMemory};
use std::alloc::Global;

/// The line by which `show` tells a reply of the target, without a newline: `< ID reply SET.COMMAND ERROR DATA`.
///
/// The set and the command are those that the reply answers. One of `data` and `raw` is empty: what the reply's data say
/// where they were read, and its data as they are where they were not; a reply with an error has neither.
///
/// # Errors
/// `NoMemory` where an allocation was refused.
pub fn reply_line(
    alloc: Global,
    id: u32,
    set: u8,
    command: u8,
    error: ErrorCode,
    data: &[Datum],
    raw: &[u8],
) -> Result<String, NoMemory>
    ensures { IfOk result (λ line. string_bytes line ≡ reply_start Target id
        (record { set = set; number = command }) error.0 ++ data_text
        (meanings «data».now) ++ raw_text raw.now) }
{
    let mut line = Text::new(alloc);
    let number = command;
    push_reply_start(
        &mut line,
        Sender::Target,
        id,
        CommandNumber { set, number },
        error,
    );
    push_data(alloc, &mut line, data);
    push_raw(alloc, &mut line, raw);
    line.into_string()
}

/// The line by which `show` tells a composite of events under the id of its packet, without a newline:
/// `< ID Event.Composite POLICY [EVENTS]`.
///
/// # Errors
/// `NoMemory` where an allocation was refused.
pub fn composite_line(alloc: Global, id: u32, composite: &Composite) -> Result<String, NoMemory>
    ensures { IfOk result (λ line. string_bytes line ≡ command_start Target id (record {
      set = COMPOSITE.set;
      number = COMPOSITE.number;
    }) ++ data_text (composite_data composite.now)) }
{
    let mut line = Text::new(alloc);
    push_composite_start(&mut line, id);
    push_composite(&mut line, composite);
    line.into_string()
}

/// Appends what stands before the data of a composite.
fn push_composite_start(line: &mut Text, id: u32)
    ensures { Grows line.old (command_start Target id (record {
      set = COMPOSITE.set;
      number = COMPOSITE.number;
    })) line.new }
{
    let composite = CommandNumber {
        set: numbers::EVENT,
        number: numbers::COMPOSITE,
    };
    push_command_start(line, Sender::Target, id, composite);
}

/// The same line for data that are those of a composite, in the layout of the row Event.Composite.
///
/// # Errors
/// `NoMemory` where an allocation was refused.
pub fn composite_data_line(alloc: Global, id: u32, data: &[Datum]) -> Result<String, NoMemory>
    ensures { IfOk result (λ line. string_bytes line ≡ command_start Target id (record {
      set = COMPOSITE.set;
      number = COMPOSITE.number;
    }) ++ data_text (meanings «data».now)) }
{
    let mut line = Text::new(alloc);
    push_composite_start(&mut line, id);
    push_data(alloc, &mut line, data);
    line.into_string()
}
