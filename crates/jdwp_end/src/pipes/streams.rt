//! A pipe of any reader and any writer.
ghost use Rattle.std.specs.Io.KnownBytes.{Keeps, ReadConsumes, WriteAppends};
ghost use Rattle.std.specs.Prelude.{◌≡◌, ◌≤◌, length, IfOk};

use crate::pipes::Pipe;
use std::io;
use std::io::{ErrorKind, Read, Write};
use trace::{History, Trace};

/// A reader and a writer as a pipe.
///
/// Its story is the reader's and the writer's: where the bytes that are left in the reader and those that the writer holds are known,
/// what was read was taken from the first, and what was written was added to the second. A read flushes nothing: whoever reads sees before
/// that what was written has left. A call that was interrupted is made again.
#[derive(Drop)]
pub struct Streams<R, W> {
    reader: R,
    writer: W,
    read: History,
    written: History,
    unflushed: History,
    /// What was not flushed at each read with room.
    rooms: Trace<History>,
    ends: Trace<()>,
    failed_reads: Trace<()>,
    failed_writes: Trace<()>,
}

impl<R, W> Streams<R, W> {
    ghost use Rattle.jdwp_end.specs.Streams.{story_of, reader_of, writer_of};
    ghost use Rattle.jdwp_end.specs.Story.{empty_story};

    /// A pipe that reads from the reader and writes to the writer, with an empty story.
    pub fn new(reader: R, writer: W) -> Streams<R, W>
        ensures story { story_of result ≡ empty_story }
        ensures reader { reader_of result ≡ reader }
        ensures writer { writer_of result ≡ writer }
    {
        Streams {
            reader,
            writer,
            read: History::new(),
            written: History::new(),
            unflushed: History::new(),
            rooms: Trace::new(),
            ends: Trace::new(),
            failed_reads: Trace::new(),
            failed_writes: Trace::new(),
        }
    }

    /// The reader and the writer. What stands in the writer's own buffer stays there.
    pub fn into_parts(self) -> (R, W)
        ensures reader { result.0 ≡ reader_of self }
        ensures writer { result.1 ≡ writer_of self }
    {
        let Streams { reader, writer, .. } = self;
        (reader, writer)
    }
}

impl<R: Read, W: Write> Pipe for Streams<R, W> {
    ghost use Rattle.jdwp_end.specs.Streams.{story_of, reader_of, writer_of};
    ghost use Rattle.jdwp_end.specs.Story.{after_flush, after_read, after_write};

    ghost story = { story_of };

    #[tactic(auto, using(crate::proofs::Known::early_push))]
    fn read(&mut self, buffer: &mut [u8]) -> io::Result<usize>
        ensures within { IfOk result (λ n. n ≤ length buffer.new) }
        ensures story { story_of self.new ≡ after_read (story_of self.old) result buffer.new }
        ensures reader { ReadConsumes (R.remaining (reader_of self.old))
            (R.remaining (reader_of self.new)) result buffer.new }
        ensures writer { writer_of self.new ≡ writer_of self.old }
    {
        let has_room = !buffer.is_empty();
        if has_room {
            self.rooms.push(&self.unflushed);
        }
        match read_uninterrupted(&mut self.reader, buffer) {
            Ok(count) => {
                self.read.extend(&buffer[..count]);
                if has_room && count == 0 {
                    self.ends.push(&());
                }
                Ok(count)
            }
            Err(error) => {
                self.failed_reads.push(&());
                Err(error)
            }
        }
    }

    fn write(&mut self, bytes: &[u8]) -> io::Result<usize>
        ensures within { IfOk result (λ n. n ≤ length bytes.now) }
        ensures story { story_of self.new ≡ after_write (story_of self.old) result bytes.now }
        ensures writer { WriteAppends (W.contents (writer_of self.old))
            (W.contents (writer_of self.new)) result bytes.now }
        ensures reader { reader_of self.new ≡ reader_of self.old }
    {
        match write_uninterrupted(&mut self.writer, bytes) {
            Ok(count) => {
                self.written.extend(&bytes[..count]);
                self.unflushed.extend(&bytes[..count]);
                if count == 0 && !bytes.is_empty() {
                    self.failed_writes.push(&());
                }
                Ok(count)
            }
            Err(error) => {
                self.failed_writes.push(&());
                Err(error)
            }
        }
    }

    fn flush(&mut self) -> io::Result<()>
        ensures story { story_of self.new ≡ after_flush (story_of self.old) result }
        ensures writer { Keeps (W.contents (writer_of self.old)) (W.contents (writer_of self.new)) }
        ensures reader { reader_of self.new ≡ reader_of self.old }
    {
        match flush_uninterrupted(&mut self.writer) {
            Ok(()) => {
                self.unflushed = History::new();
                Ok(())
            }
            Err(error) => {
                self.failed_writes.push(&());
                Err(error)
            }
        }
    }
}

/// How often a call that was interrupted is made again at most. No program lives that long.
const TRIES: u64 = u64::MAX;

fn flush_uninterrupted<W: Write>(writer: &mut W) -> io::Result<()>
    ensures { Keeps (W.contents writer.old) (W.contents writer.new) }
{
    for _ in 0..TRIES {
        match writer.flush() {
            Err(error) if error.kind() == ErrorKind::Interrupted => {}
            result => return result,
        }
    }
    Err(io::Error::from(ErrorKind::Interrupted))
}

fn read_uninterrupted<R: Read>(reader: &mut R, buffer: &mut [u8]) -> io::Result<usize>
    ensures bound { IfOk result (λ n. n ≤ length buffer.new) }
    ensures bytes { ReadConsumes (R.remaining reader.old) (R.remaining reader.new)
        result buffer.new }
{
    for _ in 0..TRIES {
        match reader.read(buffer) {
            Err(error) if error.kind() == ErrorKind::Interrupted => {}
            result => return result,
        }
    }
    Err(io::Error::from(ErrorKind::Interrupted))
}

fn write_uninterrupted<W: Write>(writer: &mut W, bytes: &[u8]) -> io::Result<usize>
    ensures bound { IfOk result (λ n. n ≤ length bytes.now) }
    ensures bytes { WriteAppends (W.contents writer.old) (W.contents writer.new) result bytes.now }
{
    for _ in 0..TRIES {
        match writer.write(bytes) {
            Err(error) if error.kind() == ErrorKind::Interrupted => {}
            result => return result,
        }
    }
    Err(io::Error::from(ErrorKind::Interrupted))
}
