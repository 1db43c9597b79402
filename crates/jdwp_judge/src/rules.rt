//! The rules of a session, and which of them an item breaks.
ghost use Rattle.std.specs.Prelude.{◌≡◌, Some};
ghost use Rattle.std.specs.Option.{option_or};
ghost use Rattle.jdwp_layout.specs.Shapes.{shape};
ghost use Rattle.jdwp_show.specs.Data as laws;
ghost use Rattle.jdwp_show.specs.Rules as rules;
ghost use Rattle.jdwp_show.specs.Sessions as sessions;
ghost use Rattle.jdwp_show.specs.MessageLines.{request_in, reply_in};
ghost use Rattle.jdwp_judge.specs.Heard.{thing};
ghost use Rattle.jdwp_judge.specs.Told as told;

use crate::heard::{Found, Heard};
use byteorder::{BigEndian, ByteOrder};
use jdwp_layout::numbers::{COMPOSITE, EVENT, ID_SIZES, VIRTUAL_MACHINE};
use jdwp_layout::{Layout, validate};
use jdwp_show::{CaptureFault, CommandNumber, Sender, Table, Terms};
use jdwp_wire::{DataFault, ErrorCode, IdSizes, PacketKind};

/// The rule that an item breaks, where data are read so: that of data is the last to be looked at.
///
/// Whether the debugger's handshake was before it, and which command waits under its id, are given.
#[inline(always)]
pub(crate) fn item_fault(
    terms: Terms,
    begun: bool,
    waits: Option<CommandNumber>,
    item: &Heard,
) -> Option<CaptureFault>
    ensures { result ≡ option_or (rules.order_fault begun waits item.now.sender
        (thing item.now.found)) (rules.data_fault terms waits item.now.sender
        (thing item.now.found)) }
{
    match order_fault(begun, waits, item) {
        Some(fault) => Some(fault),
        None => data_fault(terms, waits, item),
    }
}

/// The rule of frames, ends or ids that the item breaks.
fn order_fault(begun: bool, waits: Option<CommandNumber>, item: &Heard) -> Option<CaptureFault>
    ensures { result ≡ rules.order_fault begun waits item.now.sender (thing item.now.found) }
{
    match item.found {
        Found::Fault(fault) => Some(CaptureFault::Frame(fault)),
        Found::Handshake => match item.sender {
            Sender::Debugger => None,
            Sender::Target if begun => None,
            Sender::Target => Some(CaptureFault::WrongWay),
        },
        Found::Packet(packet) => match item.sender {
            Sender::Debugger => command_fault(waits, packet.header.kind),
            Sender::Target => target_fault(waits, packet.header.kind),
        },
    }
}

fn command_fault(waits: Option<CommandNumber>, kind: PacketKind) -> Option<CaptureFault>
    ensures { result ≡ rules.command_fault waits kind }
{
    match kind {
        PacketKind::Reply { error: _ } => Some(CaptureFault::WrongWay),
        PacketKind::Command { set, number: _ } => {
            if set >= EVENT {
                Some(CaptureFault::WrongWay)
            } else if waits.is_some() {
                Some(CaptureFault::IdInUse)
            } else {
                None
            }
        }
    }
}

fn target_fault(waits: Option<CommandNumber>, kind: PacketKind) -> Option<CaptureFault>
    ensures { result ≡ rules.target_fault waits kind }
{
    match kind {
        PacketKind::Command { set, number } => {
            if set == EVENT && number == COMPOSITE {
                None
            } else {
                Some(CaptureFault::WrongWay)
            }
        }
        PacketKind::Reply { error: _ } => {
            if waits.is_some() {
                None
            } else {
                Some(CaptureFault::UnknownReply)
            }
        }
    }
}

/// The rule of data that the item breaks, where they are read so.
fn data_fault(terms: Terms, waits: Option<CommandNumber>, item: &Heard) -> Option<CaptureFault>
    ensures { result ≡ rules.data_fault terms waits item.now.sender (thing item.now.found) }
{
    let Found::Packet(packet) = item.found else {
        return None;
    };
    match packet.header.kind {
        PacketKind::Command { set, number } => {
            request_fault(terms, CommandNumber { set, number }, packet.body).map(
                CaptureFault::BadData,
            )
        }
        PacketKind::Reply { error } => match item.sender {
            Sender::Debugger => None,
            Sender::Target if error == ErrorCode::NONE => {
                reply_fault(terms, waits, packet.body).map(CaptureFault::BadData)
            }
            Sender::Target if packet.body.is_empty() => None,
            Sender::Target => Some(CaptureFault::ErrorWithData),
        },
    }
}

fn request_fault(terms: Terms, command: CommandNumber, body: &[u8]) -> Option<DataFault>
    ensures { result ≡ laws.request_fault terms command body.now }
{
    let sizes = terms.sizes?;
    let row = terms.table.row(command.set, command.number)?;
    match row.layouts {
        None => None,
        Some(layouts) => layout_fault(&sizes, &layouts.request, body),
    }
}

fn reply_fault(terms: Terms, waits: Option<CommandNumber>, body: &[u8]) -> Option<DataFault>
    ensures { result ≡ laws.reply_fault terms waits body.now }
{
    let command = waits?;
    if is_id_sizes(command) {
        return widths_in(body).err();
    }
    let sizes = terms.sizes?;
    let row = terms.table.row(command.set, command.number)?;
    match row.layouts {
        None => None,
        Some(layouts) => layout_fault(&sizes, &layouts.reply, body),
    }
}

/// The first fault of data under a layout.
fn layout_fault(sizes: &IdSizes, layout: &Layout, body: &[u8]) -> Option<DataFault>
    ensures { result ≡ laws.layout_fault (Some sizes.now) (shape layout.now) body.now }
{
    match validate(layout, sizes, body) {
        Ok(()) => None,
        Err(fault) => Some(fault),
    }
}

fn is_id_sizes(command: CommandNumber) -> bool
    ensures { result ≡ laws.is_id_sizes command }
{
    command.set == VIRTUAL_MACHINE && command.number == ID_SIZES
}

/// The widths of ids that the item tells, if it is a reply without an error to VirtualMachine.IDSizes whose data read.
fn told(waits: Option<CommandNumber>, item: &Heard) -> Option<IdSizes>
    ensures { result ≡ sessions.told_widths waits item.now.sender (thing item.now.found) }
{
    let Found::Packet(packet) = item.found else {
        return None;
    };
    let PacketKind::Reply { error } = packet.header.kind else {
        return None;
    };
    match item.sender {
        Sender::Debugger => None,
        Sender::Target => {
            if error != ErrorCode::NONE {
                return None;
            }
            match waits {
                Some(command) if is_id_sizes(command) => widths_in(packet.body).ok(),
                _ => None,
            }
        }
    }
}

/// The widths in the data of a reply to VirtualMachine.IDSizes: five ints.
fn widths_in(body: &[u8]) -> Result<IdSizes, DataFault>
    ensures { result ≡ laws.widths_in body.now }
{
    if body.len() < 20 {
        return Err(DataFault::Short(body.len()));
    }
    if body.len() > 20 {
        return Err(DataFault::Extra(20));
    }
    let field = BigEndian::read_u32(body);
    let method = BigEndian::read_u32(&body[4..]);
    let object = BigEndian::read_u32(&body[8..]);
    let reference = BigEndian::read_u32(&body[12..]);
    let frame = BigEndian::read_u32(&body[16..]);
    match IdSizes::new(field, method, object, reference, frame) {
        Ok(sizes) => Ok(sizes),
        Err(_) => Err(DataFault::BadSize),
    }
}

/// Which widths of ids hold, if this item makes that sure: it tells them, or breaks a rule of frames, ends or ids.
pub(crate) fn widths_by(
    begun: bool,
    waits: Option<CommandNumber>,
    item: &Heard,
) -> Option<Option<IdSizes>>
    ensures { result ≡ sessions.told_or_ended (rules.order_fault begun waits item.now.sender
        (thing item.now.found)) (sessions.told_widths waits item.now.sender
        (thing item.now.found)) }
{
    if order_fault(begun, waits, item).is_some() {
        return Some(None);
    }
    match told(waits, item) {
        None => None,
        Some(sizes) => Some(Some(sizes)),
    }
}

/// Whether the line of an item, or its fault, is another by the widths of ids.
pub(crate) fn wants_widths(table: Table, waits: Option<CommandNumber>, item: &Heard) -> bool
    ensures { result ≡ told.wants_widths table waits (thing item.now.found) }
{
    let Found::Packet(packet) = item.found else {
        return false;
    };
    match packet.header.kind {
        PacketKind::Command { set, number } => {
            has_request(table, CommandNumber { set, number }, packet.body)
        }
        PacketKind::Reply { error } => {
            if error != ErrorCode::NONE {
                return false;
            }
            match waits {
                None => false,
                Some(command) => !is_id_sizes(command) && has_reply(table, command, packet.body),
            }
        }
    }
}

/// Whether the data of a command are shown by a layout, where widths are told.
fn has_request(table: Table, command: CommandNumber, body: &[u8]) -> bool
    ensures { result ≡ told.has_layout (request_in (laws.shapes_under table command)) body.now }
{
    let Some(row) = table.row(command.set, command.number) else {
        return false;
    };
    match row.layouts {
        None => false,
        Some(layouts) => has_layout(&layouts.request, body),
    }
}

/// Whether the data of a reply without an error are shown by a layout, where widths are told.
fn has_reply(table: Table, command: CommandNumber, body: &[u8]) -> bool
    ensures { result ≡ told.has_layout (reply_in (laws.shapes_under table command)) body.now }
{
    let Some(row) = table.row(command.set, command.number) else {
        return false;
    };
    match row.layouts {
        None => false,
        Some(layouts) => has_layout(&layouts.reply, body),
    }
}

fn has_layout(layout: &Layout, body: &[u8]) -> bool
    ensures { result ≡ told.has_layout (Some (shape layout.now)) body.now }
{
    !layout.items.is_empty() || !body.is_empty()
}
