//! The messages in what each end sent, one by one.
ghost use Rattle.std.specs.Prelude.{◌≡◌, ◌≤◌, length, IfOk, if◌then◌else◌};
ghost use Rattle.jdwp_wire.specs.Streams.{Packet};
ghost use Rattle.jdwp_show.specs.Found.{found};
ghost use Rattle.jdwp_draw.specs.Messages.{is_of_debugger};
ghost use Rattle.jdwp_draw.specs.declared.sender.Sender.TheVariants.{Debugger, Target};

use crate::message_list::{Message, OwnedPacket, ShownMessage};
use crate::sender::Sender;
use crate::sent::Sent;
use jdwp_wire::{HANDSHAKE, Next, NextHello, NoMemory, PacketRef, next_hello, next_packet};
use std::alloc::Global;

/// What an end sent, of which the bytes before `taken` belong to messages that were told.
#[derive(Drop)]
pub(crate) struct Stream {
    bytes: Vec<u8>,
    taken: usize,
    handshaken: bool,
    ghost there: { taken ≤ length bytes.items },
}

impl Stream {
    ghost use Rattle.jdwp_draw.specs.Reading.{IsNext, left};

    fn new(bytes: Vec<u8>) -> Stream
        ensures { left result ≡ found bytes.items }
    {
        Stream {
            bytes,
            taken: 0,
            handshaken: false,
        }
    }

    /// The next message; None where no whole one is left.
    fn next_message(&mut self, alloc: Global) -> Result<Option<Message>, NoMemory>
        ensures { IfOk result (λ message. IsNext self.old message self.new) }
    {
        let waiting = &self.bytes[self.taken..];
        if !self.handshaken {
            return match next_hello(waiting) {
                NextHello::Whole => {
                    self.handshaken = true;
                    self.taken += HANDSHAKE.len();
                    Ok(Some(Message::Handshake))
                }
                NextHello::More => Ok(None),
                NextHello::Fault(_) => Ok(None),
            };
        }
        match next_packet(waiting) {
            Next::Whole(packet, used) => {
                let packet = copy_of(alloc, &packet)?;
                self.taken += used;
                Ok(Some(Message::Packet(packet)))
            }
            Next::More => Ok(None),
            Next::Fault(_) => Ok(None),
        }
    }
}

fn copy_of(alloc: Global, packet: &PacketRef) -> Result<OwnedPacket, NoMemory>
    ensures header { IfOk result (λ copy. copy.header ≡ packet.now.header) }
    ensures body { IfOk result (λ copy. copy.body.items ≡ packet.now.body.now) }
{
    Ok(OwnedPacket {
        header: packet.header,
        body: Vec::from_slice(alloc, packet.body)?,
    })
}

/// Both ends.
#[derive(Drop)]
pub(crate) struct Streams {
    debugger: Stream,
    target: Stream,
}

impl Streams {
    ghost use Rattle.jdwp_draw.specs.Reading.{IsShown, left};

    pub(crate) fn new(sent: Sent) -> Streams
        ensures debugger { left result.debugger ≡ found sent.debugger.items }
        ensures target { left result.target ≡ found sent.target.items }
    {
        let Sent { debugger, target } = sent;
        Streams {
            debugger: Stream::new(debugger),
            target: Stream::new(target),
        }
    }

    /// The next message of the end of this line, with it; None where the end has none left.
    pub(crate) fn next_shown(
        &mut self,
        alloc: Global,
        line: &str,
    ) -> Result<Option<ShownMessage>, NoMemory>
        ensures { IfOk result (λ message. IsShown self.old line.now message self.new) }
    {
        let sender = sender_of(line);
        let next = match sender {
            Sender::Debugger => self.debugger.next_message(alloc)?,
            Sender::Target => self.target.next_message(alloc)?,
        };
        let Some(message) = next else {
            return Ok(None);
        };
        let line = String::from_str(alloc, line)?;
        Ok(Some(ShownMessage {
            sender,
            message,
            line,
        }))
    }
}

/// The end that sent the message of a line.
fn sender_of(line: &str) -> Sender
    ensures { result ≡ (if is_of_debugger line.now then Debugger else Target) }
{
    match line.as_bytes() {
        [b'>', ..] => Sender::Debugger,
        _ => Sender::Target,
    }
}
