//! The widths of ids that messages tell.
ghost use Rattle.std.specs.Prelude.{◌≡◌, ℕ, IfOk, OnOk};
ghost use Rattle.std.specs.BTreeMap.{get};
ghost use Rattle.std.specs.Ordering.{nat_cmp};
ghost use Rattle.jdwp_show.specs.Data as judged;
ghost use Rattle.jdwp_show.specs.Data.{NO_IDS};
ghost use Rattle.jdwp_draw.specs.Told.{numbers_after, told_by, told_in, widths_told};

use crate::hearing::read_answer;
use crate::message_list::{Message, ShownMessage};
use crate::sender::Sender;
use jdwp_layout::numbers::{ID_SIZES, VIRTUAL_MACHINE};
use jdwp_mirror::widths_in_answer;
use jdwp_show::CommandNumber;
use jdwp_wire::{ErrorCode, IdSizes, NoMemory, PacketKind};
use std::alloc::Global;
use std::collections::BTreeMap;

/// The widths of the first reply to VirtualMachine.IDSizes that tells them.
pub(crate) fn find_sizes(
    alloc: Global,
    messages: &[ShownMessage],
) -> Result<Option<IdSizes>, NoMemory>
    ensures { IfOk result (λ sizes. sizes ≡ widths_told messages.now) }
{
    let mut asked = BTreeMap::new(alloc);
    for message in messages {
        let sizes = told_sizes(alloc, &mut asked, message)?;
        if sizes.is_some() {
            return Ok(sizes);
        }
    }
    Ok(None)
}

/// The widths that a message tells, and one message more for the commands that wait.
fn told_sizes(
    alloc: Global,
    asked: &mut BTreeMap<u32, CommandNumber>,
    message: &ShownMessage,
) -> Result<Option<IdSizes>, NoMemory>
    ensures told { IfOk result (λ sizes. sizes ≡ told_in (get nat_cmp asked.old) message.now.sender
        message.now.message) }
    ensures waits { OnOk result ((id : ℕ) → get nat_cmp asked.new id ≡ numbers_after
        message.now.sender message.now.message (get nat_cmp asked.old id) id) }
{
    let Message::Packet(packet) = &message.message else {
        return Ok(None);
    };
    let id = packet.header.id;
    match (message.sender, packet.header.kind) {
        (Sender::Debugger, PacketKind::Command { set, number }) => {
            asked.insert(id, CommandNumber { set, number })?;
            Ok(None)
        }
        (Sender::Target, PacketKind::Reply { error }) => {
            let command = asked.remove(&id);
            sizes_in_reply(alloc, command, error, &packet.body)
        }
        _ => Ok(None),
    }
}

/// The widths that the reply to this command tells.
fn sizes_in_reply(
    alloc: Global,
    command: Option<CommandNumber>,
    error: ErrorCode,
    bytes: &[u8],
) -> Result<Option<IdSizes>, NoMemory>
    ensures { IfOk result (λ sizes. sizes ≡ told_by command error bytes.now) }
{
    let Some(command) = command else {
        return Ok(None);
    };
    if !is_id_sizes(command) {
        return Ok(None);
    }
    let CommandNumber { set, number } = command;
    let answer = read_answer(alloc, &Some(no_ids()), set, number, error, bytes)?;
    Ok(widths_in_answer(&answer))
}

fn is_id_sizes(command: CommandNumber) -> bool
    ensures { result ≡ judged.is_id_sizes command }
{
    command.set == VIRTUAL_MACHINE && command.number == ID_SIZES
}

/// Any widths, for data in which no id stands.
fn no_ids() -> IdSizes
    ensures { result ≡ NO_IDS }
{
    match IdSizes::new(8, 8, 8, 8, 8) {
        Ok(sizes) => sizes,
        Err(_) => unreachable!(),
    }
}
