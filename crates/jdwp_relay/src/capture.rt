//! The lines of a capture, as they are written.
ghost use Rattle.std.specs.Prelude.{◌≡◌, ◌++◌, [], length, OnErr, OnOk};
ghost use Rattle.std.specs.Io.KnownBytes.{Appends, Keeps};
ghost use Rattle.jdwp_relay.specs.Captures.{AppendsFirst, AppendsPart};
ghost use Rattle.jdwp_relay.specs.LineText.{line_text, mark_of};

use jdwp_show::Sender;
use std::alloc::{AllocError, Global};
use std::io;
use std::io::{ErrorKind, Write};

/// A capture that is written line by line, each in one piece where the writer takes it so.
#[derive(Drop)]
pub struct Capture<W> {
    alloc: Global,
    writer: W,
    /// The lines that were written since they were last forgotten.
    fresh: Vec<u8>,
}

impl<W> Capture<W> {
    ghost use Rattle.jdwp_relay.specs.Captures.{fresh_of, writer_of};

    /// A capture that goes to this writer, to which nothing was written yet.
    pub fn new(alloc: Global, writer: W) -> Capture<W>
        ensures writer { writer_of result ≡ writer }
        ensures fresh { fresh_of result ≡ [] }
    {
        Capture {
            alloc,
            writer,
            fresh: Vec::new(alloc),
        }
    }

    /// The lines that were written since they were last forgotten.
    pub fn fresh(&self) -> &[u8]
        ensures { result.now ≡ fresh_of self.now }
    {
        &self.fresh
    }

    /// Forgets them.
    pub fn forget(&mut self)
        ensures writer { writer_of self.new ≡ writer_of self.old }
        ensures fresh { fresh_of self.new ≡ [] }
    {
        self.fresh.clear();
    }

    /// The writer.
    pub fn into_inner(self) -> W
        ensures { result ≡ writer_of self }
    {
        let Capture { writer, .. } = self;
        writer
    }
}

impl<W: Write> Capture<W> {
    ghost use Rattle.jdwp_relay.specs.Captures.{fresh_of, writer_of};

    /// Writes a line of these bytes, of which there is one at least, as those that this end sent, and sees that it leaves.
    ///
    /// # Errors
    /// The writer's; `WriteZero` where it takes none of some bytes; `OutOfMemory`. Then a beginning of the line was written, or all of it.
    pub fn write_line(&mut self, sender: Sender, bytes: &[u8]) -> io::Result<()>
        ensures ok { OnOk result (Appends (W.contents (writer_of self.old))
            (W.contents (writer_of self.new)) (line_text sender bytes.now)) }
        ensures err { OnErr result (AppendsPart (W.contents (writer_of self.old))
            (W.contents (writer_of self.new)) (line_text sender bytes.now)) }
        ensures fresh { OnOk result (fresh_of self.new ≡ fresh_of self.old ++ line_text sender bytes.now) }
    {
        let start = self.fresh.len();
        if put_line(self.alloc, sender, bytes, &mut self.fresh).is_err() {
            return Err(io::Error::from(ErrorKind::OutOfMemory));
        }
        let (_, written) = write_text(&mut self.writer, &self.fresh[start..]);
        match written {
            Ok(()) => flush_uninterrupted(&mut self.writer),
            Err(error) => Err(error),
        }
    }
}

/// Puts a line of these bytes behind what is there.
fn put_line(
    alloc: Global,
    sender: Sender,
    bytes: &[u8],
    fresh: &mut Vec<u8>,
) -> Result<(), AllocError>
    ensures { OnOk result (fresh.new.items ≡ fresh.old.items ++ line_text sender bytes.now) }
{
    fresh.extend_from_slice(&[mark(sender), b' '])?;
    let digits = hex::encode(alloc, bytes)?;
    fresh.extend_from_slice(digits.as_bytes())?;
    fresh.push(b'\n')?;
    Ok(())
}

/// The mark at the front of a line.
fn mark(sender: Sender) -> u8
    ensures { result ≡ mark_of sender }
{
    match sender {
        Sender::Debugger => b'>',
        Sender::Target => b'<',
    }
}

/// How often a call that was interrupted is made again at most. No program lives that long.
const TRIES: u64 = u64::MAX;

/// Writes the text, and answers how many of its bytes were taken: all of them, or those before an error. A call that was interrupted is made
/// again.
fn write_text<W: Write>(writer: &mut W, text: &[u8]) -> (usize, io::Result<()>)
    ensures appends { AppendsFirst (W.contents writer.old) (W.contents writer.new) result.0 text.now }
    ensures all { OnOk result.1 (result.0 ≡ length text.now) }
{
    let mut sent = 0;
    'writes: for _ in 0..TRIES {
        if sent >= text.len() {
            break 'writes;
        }
        match writer.write(&text[sent..]) {
            Ok(0) => return (sent, Err(io::Error::from(ErrorKind::WriteZero))),
            Ok(count) => sent += count,
            Err(error) => {
                if error.kind() != ErrorKind::Interrupted {
                    return (sent, Err(error));
                }
            }
        }
    }
    if sent >= text.len() {
        (sent, Ok(()))
    } else {
        (sent, Err(io::Error::from(ErrorKind::TimedOut)))
    }
}

/// Sees that all that was written leaves.
fn flush_uninterrupted<W: Write>(writer: &mut W) -> io::Result<()>
    ensures { Keeps (W.contents writer.old) (W.contents writer.new) }
{
    for _ in 0..TRIES {
        match writer.flush() {
            Err(error) if error.kind() == ErrorKind::Interrupted => {}
            result => return result,
        }
    }
    Err(io::Error::from(ErrorKind::Interrupted))
}
