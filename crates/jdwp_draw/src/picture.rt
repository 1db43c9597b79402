//! A picture as data.
ghost use Rattle.std.specs.Prelude.{◌≡◌};

use crate::sender::Sender;
use jdwp_mirror::Known;
use jdwp_show::CaptureFault;
use std::marker::Model;

/// An event request that stands.
#[derive(Clone, Copy, Debug, PartialEq, Eq)]
pub struct Standing {
    /// The id in the reply to its Set.
    pub id: i32,
    /// The byte of the event kind.
    pub kind: u8,
}

/// A message, and what the mirror has behind it.
#[derive(Debug, Drop)]
pub struct Row {
    /// The end that sent the message.
    pub sender: Sender,
    /// The line in which `show` tells it, without a newline.
    pub line: String,
    /// Which row, from 0, has the command that the message answers; None where it is no reply.
    pub answers: Option<usize>,
    /// The threads that the mirror knows, in the order in which they became known.
    pub threads: Vec<Known>,
    /// The event requests by the mirror, the last one asked last.
    pub requests: Vec<Standing>,
}

impl Model for Row {
    ghost use Rattle.std.specs.String.{string_bytes};
    ghost use Rattle.jdwp_draw.specs.Pictures.{RowMeaning};

    ghost Value = { RowMeaning };

    ghost view = { λ r. record {
      sender = r.sender;
      line = string_bytes r.line;
      answers = r.answers;
      threads = r.threads.items;
      requests = r.requests.items;
    } };
}

/// A picture of a capture: its messages up to the first fault, one below the other.
#[derive(Debug, Drop)]
pub struct Picture {
    /// A row for each message before the first fault.
    pub rows: Vec<Row>,
    /// The first fault, and the number, from 1, of the line of the capture in which its last byte stands.
    pub fault: Option<(usize, CaptureFault)>,
}

impl Model for Picture {
    ghost use Rattle.jdwp_draw.specs.Pictures.{PictureMeaning};

    ghost Value = { PictureMeaning };

    ghost view = { λ p. record { rows = p.rows.items; fault = p.fault } };
}
