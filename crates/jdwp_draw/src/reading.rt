//! A capture, read as a picture.
ghost use Rattle.std.specs.Prelude.{◌≡◌, ◌++◌, IfOk, OnOk, codes, length, map, take};
ghost use Rattle.std.specs.List.{flat_map};
ghost use Rattle.std.specs.Str.Lines.{lines};
ghost use Rattle.jdwp_show.specs.CaptureLines.{capture_lines, message_lines};
ghost use Rattle.jdwp_draw.specs.Messages.{messages_of};
ghost use Rattle.jdwp_show.specs.Sessions.{first_fault};
ghost use Rattle.jdwp_draw.specs.Following.{IsAt};
ghost use Rattle.jdwp_draw.specs.Pictures.{AreRows, IsRow, RowMeaning};
ghost use Rattle.jdwp_draw.specs.Sessions.{Session, after, start};
ghost use Rattle.jdwp_draw.specs.Told.{widths_told};

use crate::follower::Follower;
use crate::message_list::{ShownMessage, messages};
use crate::picture::{Picture, Row};
use crate::told::find_sizes;
use jdwp_wire::{IdSizes, NoMemory};
use std::alloc::Global;

impl Picture {
    /// Reads a capture as a picture: a row for each message before its first fault, with what the mirror of a debugger that reads these very
    /// messages has behind it.
    ///
    /// # Errors
    /// `NoMemory` where an allocation was refused.
    pub fn read(alloc: Global, text: &str) -> Result<Picture, NoMemory>
        // A row for each message, in the order of `show`, with the mirror behind it.
        ensures rows { IfOk result (λ picture. AreRows (widths_told (messages_of text.now)) start
            (messages_of text.now) picture.rows) }
        // Their lines, a newline behind each, are what `show` prints of the messages before the first fault.
        ensures whole { IfOk result (λ picture. flat_map (λ (row : RowMeaning). row.line ++ codes "\n")
            picture.rows ≡ message_lines text.now) }
        // So they are the first of its lines.
        ensures lines { IfOk result (λ picture. map (λ (row : RowMeaning). row.line) picture.rows
            ≡ take (length picture.rows) (lines (capture_lines text.now))) }
        // The fault is the one that `show` and `check` name.
        ensures fault { IfOk result (λ picture. picture.fault ≡ first_fault text.now) }
    {
        let shown = messages(alloc, text)?;
        let sizes = find_sizes(alloc, &shown.messages)?;
        Ok(Picture {
            rows: rows_of(alloc, &sizes, &shown.messages)?,
            fault: shown.fault,
        })
    }
}

/// The rows of these messages.
fn rows_of(
    alloc: Global,
    sizes: &Option<IdSizes>,
    messages: &[ShownMessage],
) -> Result<Vec<Row>, NoMemory>
    ensures { IfOk result (λ rows. AreRows sizes.now start messages.now rows.items) }
{
    let mut rows = Vec::new(alloc);
    let mut follower = Follower::new(alloc);
    for (place, message) in messages.iter().enumerate() {
        let row = row_of(&mut follower, sizes, place, message)?;
        rows.push(row)?;
    }
    Ok(rows)
}

/// The row of a message, which is this one, from 0, and one message more is followed.
fn row_of(
    follower: &mut Follower,
    sizes: &Option<IdSizes>,
    place: usize,
    message: &ShownMessage,
) -> Result<Row, NoMemory>
    ensures row { IfOk result (λ row. (s : Session) → s.messages ≡ place → IsAt follower.old s
        → IsRow sizes.now s message.now row) }
    ensures after { OnOk result ((s : Session) → s.messages ≡ place → IsAt follower.old s
        → IsAt follower.new (after sizes.now s message.now)) }
{
    let answers = follower.follow(sizes, place, message)?;
    let threads = follower.threads()?;
    let requests = follower.requests()?;
    Ok(Row {
        sender: message.sender,
        line: message.line.clone()?,
        answers,
        threads,
        requests,
    })
}
