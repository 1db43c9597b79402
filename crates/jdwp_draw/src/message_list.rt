//! The messages of a capture, as values.
ghost use Rattle.std.specs.Prelude.{◌≡◌, IfOk};
ghost use Rattle.jdwp_show.specs.Sessions.{first_fault};
ghost use Rattle.jdwp_draw.specs.Messages.{messages_of, paired};
ghost use Rattle.jdwp_draw.specs.Reading.{left};
ghost use Rattle.std.specs.Str.Lines.{lines};

use crate::sender::Sender;
use crate::sent::read_sent;
use crate::streams::Streams;
use jdwp_judge::show;
use jdwp_show::CaptureFault;
use jdwp_wire::{Header, NoMemory};
use std::alloc::Global;
use std::marker::Model;

/// A packet that was copied out of a capture.
#[derive(Drop)]
pub(crate) struct OwnedPacket {
    pub(crate) header: Header,
    /// The data behind it.
    pub(crate) body: Vec<u8>,
}

/// What an end sends.
#[derive(Drop)]
pub(crate) enum Message {
    Handshake,
    Packet(OwnedPacket),
}

/// A message of a capture, and its line.
#[derive(Drop)]
pub(crate) struct ShownMessage {
    pub(crate) sender: Sender,
    pub(crate) message: Message,
    /// The line in which `show` tells it, without a newline.
    pub(crate) line: String,
}

impl Model for ShownMessage {
    ghost use Rattle.std.specs.String.{string_bytes};
    ghost use Rattle.jdwp_draw.specs.Messages.{ShownMeaning};
    ghost use Rattle.jdwp_draw.specs.Reading.{message_in};

    ghost Value = { ShownMeaning };

    ghost view = { λ m. record {
      sender = m.sender;
      message = message_in m.message;
      line = string_bytes m.line;
    } };
}

/// The messages before the first fault, and that.
#[derive(Drop)]
pub(crate) struct ShownMessages {
    pub(crate) messages: Vec<ShownMessage>,
    /// The first fault, and the number, from 1, of the line in which its last byte stands.
    pub(crate) fault: Option<(usize, CaptureFault)>,
}

/// The messages of a capture before its first fault, each with the line in which `show` tells it.
///
/// # Errors
/// `NoMemory` where an allocation was refused.
pub(crate) fn messages(alloc: Global, text: &str) -> Result<ShownMessages, NoMemory>
    ensures messages { IfOk result (λ shown. shown.messages.items ≡ messages_of text.now) }
    // The fault is the one that `show` and `check` name.
    ensures fault { IfOk result (λ shown. shown.fault ≡ first_fault text.now) }
{
    let shown = show(alloc, text)?;
    let sent = read_sent(alloc, text)?;
    let mut streams = Streams::new(sent);
    Ok(ShownMessages {
        messages: pair(alloc, &mut streams, shown.lines.as_str())?,
        fault: shown.fault,
    })
}

/// Each line with the next message of its end.
fn pair(alloc: Global, streams: &mut Streams, text: &str) -> Result<Vec<ShownMessage>, NoMemory>
    ensures { IfOk result (λ messages. messages.items ≡ paired (lines text.now)
        (left streams.old.debugger) (left streams.old.target)) }
{
    let mut messages = Vec::new(alloc);
    for line in text.lines() {
        let Some(message) = streams.next_shown(alloc, line)? else {
            return Ok(messages);
        };
        messages.push(message)?;
    }
    Ok(messages)
}
