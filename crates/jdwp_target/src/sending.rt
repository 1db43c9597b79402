//! Replies and composites as they are enqueued to leave.
ghost use Rattle.std.specs.Prelude.{◌≡◌, ◌≤◌, ◌+◌, None, length, pos};
ghost use Rattle.byteorder.specs.Endian.{big_bytes};
ghost use Rattle.jdwp_end.specs.Ends.{most_outgoing, with_enqueued};
ghost use Rattle.jdwp_wire.specs.Basic.{int_canonical};
ghost use Rattle.jdwp_wire.specs.Frames.{header_bytes};
ghost use Rattle.jdwp_wire.specs.Streams.{message_bytes};
ghost use Rattle.jdwp_wire.specs.Limits.{most_packet_limit};
ghost use Rattle.jdwp_event.specs.CompositeBytes.{EncodesComposite, composite_canonical, composite_refusal};
ghost use Rattle.jdwp_event.specs.Composites.{vm_death};
ghost use Rattle.jdwp_debuggee.specs.Replies.{reply_meaning};
ghost use Rattle.jdwp_debuggee.specs.Sending.{sent_bytes, sent_error};
ghost use Rattle.jdwp_layout.specs.CommandNumbers as commands;
ghost use Rattle.jdwp_target.specs.Sends.{packet_with, reply_to, report_of};

use crate::numbers::enqueue_int;
use byteorder::{BigEndian, ByteOrder};
use jdwp_debuggee::{Reply, Sent};
use jdwp_end::End;
use jdwp_event::{Composite, EventKind, Policy};
use jdwp_layout::numbers::{COMPOSITE, EVENT};
use jdwp_value::ObjectId;
use jdwp_wire::{ErrorCode, Header, IdSizes, PacketKind, Wire};

/// Enqueues the header of a reply with so many bytes of data.
fn enqueue_header(id: u32, error: ErrorCode, size: u32, end: &mut End)
    requires room { length end.old.outgoing + 11 ≤ most_outgoing end.old.limits }
    requires small { size ≤ most_packet_limit }
    ensures { end.new ≡ with_enqueued
        (header_bytes (record { length = 11 + size; id = id; kind = PacketKind.Reply error }))
        end.old }
{
    let header = Header {
        length: 11 + size,
        id,
        kind: PacketKind::Reply { error },
    };
    end.enqueue(&header.to_bytes());
}

/// Enqueues a number as the reply to the command of this id, with its header at once.
fn enqueue_number(id: u32, number: u32, end: &mut End)
    requires { length end.old.outgoing + 15 ≤ most_outgoing end.old.limits }
    ensures { end.new ≡ with_enqueued (message_bytes (packet_with id
        (PacketKind.Reply ErrorCode.NONE) (int_canonical (pos number)))) end.old }
{
    let header = Header {
        length: 15,
        id,
        kind: PacketKind::Reply {
            error: ErrorCode::NONE,
        },
    };
    let mut bytes = [0; 15];
    bytes[..11].copy_from_slice(&header.to_bytes());
    BigEndian::write_u32(&mut bytes[11..], number);
    end.enqueue(&bytes);
}

/// Enqueues a reply that takes no memory, to the command of this id.
fn enqueue_short(id: u32, reply: Reply, sizes: &IdSizes, end: &mut End)
    requires { length end.old.outgoing + 31 ≤ most_outgoing end.old.limits }
    ensures { end.new ≡ with_enqueued (message_bytes (reply_to sizes.now id (reply_meaning reply)))
        end.old }
{
    match reply {
        Reply::Done => enqueue_header(id, ErrorCode::NONE, 0, end),
        Reply::Number(number) => enqueue_number(id, number, end),
        Reply::Status(count) => {
            enqueue_header(id, ErrorCode::NONE, 8, end);
            enqueue_int(1, end);
            enqueue_int(if count == 0 { 0 } else { 1 }, end);
        }
        Reply::Sizes(widths) => {
            enqueue_header(id, ErrorCode::NONE, 20, end);
            enqueue_int(u32::from(widths.field()), end);
            enqueue_int(u32::from(widths.method()), end);
            enqueue_int(u32::from(widths.object()), end);
            enqueue_int(u32::from(widths.reference()), end);
            enqueue_int(u32::from(widths.frame()), end);
        }
        Reply::Refused(error) => enqueue_header(id, error, 0, end),
    }
}

/// Enqueues an object's id as the reply to the command of this id.
fn enqueue_object(id: u32, object: ObjectId, sizes: &IdSizes, end: &mut End)
    requires { length end.old.outgoing + 19 ≤ most_outgoing end.old.limits }
    ensures { end.new ≡ with_enqueued (message_bytes (packet_with id
        (PacketKind.Reply ErrorCode.NONE) (big_bytes sizes.now.object object.0))) end.old }
{
    let width = sizes.object();
    enqueue_header(id, ErrorCode::NONE, u32::from(width), end);
    let bytes = object.0.to_be_bytes();
    end.enqueue(&bytes[8 - usize::from(width)..]);
}

/// Enqueues what is sent for an answer, as the reply to the command of this id. It takes no memory.
pub fn enqueue_reply(id: u32, sent: &Sent, sizes: &IdSizes, end: &mut End)
    requires short { length end.old.outgoing + 31 ≤ most_outgoing end.old.limits }
    requires room { length end.old.outgoing + (11 + length (sent_bytes sizes.now sent.now))
        ≤ most_outgoing end.old.limits }
    requires small { length (sent_bytes sizes.now sent.now) ≤ most_packet_limit }
    ensures { end.new ≡ with_enqueued (message_bytes (packet_with id (PacketKind.Reply
        (sent_error sent.now)) (sent_bytes sizes.now sent.now))) end.old }
{
    match sent {
        Sent::Short(reply) => enqueue_short(id, *reply, sizes, end),
        Sent::Written(bytes) => {
            enqueue_header(id, ErrorCode::NONE, bytes.len() as u32, end);
            end.enqueue(bytes);
        }
        Sent::Object(object) => enqueue_object(id, *object, sizes, end),
    }
}

/// Enqueues the header of a composite with so many bytes of data.
pub fn enqueue_composite_header(id: u32, size: u32, end: &mut End)
    requires room { length end.old.outgoing + 11 ≤ most_outgoing end.old.limits }
    requires small { size ≤ most_packet_limit }
    ensures { end.new ≡ with_enqueued
        (header_bytes (record {
          length = 11 + size;
          id = id;
          kind = PacketKind.Command
              commands.EVENT commands.COMPOSITE.number;
        })) end.old }
{
    let header = Header {
        length: 11 + size,
        id,
        kind: PacketKind::Command {
            set: EVENT,
            number: COMPOSITE,
        },
    };
    end.enqueue(&header.to_bytes());
}

/// Enqueues a composite as the packet of this id. It takes no memory.
pub fn enqueue_report(id: u32, composite: &Composite, sizes: &IdSizes, end: &mut End)
    requires writable { composite_refusal sizes.now composite.now ≡ None }
    requires room { length end.old.outgoing +
        (11 + length (composite_canonical sizes.now composite.now)) ≤ most_outgoing end.old.limits }
    requires small { length (composite_canonical sizes.now composite.now) ≤ most_packet_limit }
    ensures enqueued { end.new
        ≡ with_enqueued (message_bytes (report_of sizes.now id composite.now)) end.old }
    ensures encoded { EncodesComposite sizes.now composite.now
        (composite_canonical sizes.now composite.now) }
{
    let size = composite.size(sizes).unwrap_or(0);
    enqueue_composite_header(id, size as u32, end);
    end.put(composite, sizes);
}

/// Enqueues VM_DEATH as the packet of this id: the policy, the number of events, and the event's kind and request. It takes no memory.
pub fn enqueue_death(id: u32, sizes: &IdSizes, end: &mut End)
    requires { length end.old.outgoing + 21 ≤ most_outgoing end.old.limits }
    ensures { end.new ≡ with_enqueued (message_bytes (report_of sizes.now id vm_death)) end.old }
{
    enqueue_composite_header(id, 10, end);
    end.put(&Policy::None.byte(), sizes);
    enqueue_int(1, end);
    end.put(&EventKind::VmDeath.byte(), sizes);
    enqueue_int(0, end);
}
