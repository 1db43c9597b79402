//! A live pipe of any reader that need not wait for ever, and any writer.
ghost use Rattle.std.specs.Prelude.{◌≡◌, ◌<◌, ◌≤◌, length, IfOk};
ghost use Rattle.jdwp_engine.specs.LiveStory.{Fits};

use crate::pipes::pipe::{Came, LivePipe, Patience};
use std::io;
use std::io::{ErrorKind, Write};
use trace::{History, Trace};

/// A reader whose reads need not wait for ever.
pub trait PatientRead {
    /// Reads some bytes into the front of the buffer, which has room, and says what came. Bytes that can be read are read at once, whatever the
    /// patience; else it waits for them so long.
    ///
    /// An error is the reader's, or that the handshake did not come in its time. Then nothing was read.
    fn read(&mut self, patience: Patience, buffer: &mut [u8]) -> io::Result<Came>
        requires { 0 < length buffer.old }
        ensures { IfOk result (Fits patience (length buffer.new)) };
}

/// A reader whose reads need not wait for ever, and a writer, as a live pipe. A write or a flush that was interrupted is made again.
#[derive(Drop)]
pub struct LiveStreams<R, W> {
    reader: R,
    writer: W,
    read: History,
    written: History,
    unflushed: History,
    /// What was not flushed at each read.
    rooms: Trace<History>,
    waits: Trace<Patience>,
    ends: Trace<()>,
    failed_reads: Trace<()>,
    failed_writes: Trace<()>,
}

impl<R, W> LiveStreams<R, W> {
    ghost use Rattle.jdwp_engine.specs.LiveStreams.{story_of, reader_of, writer_of};
    ghost use Rattle.jdwp_engine.specs.LiveStory.{empty_live};

    /// A pipe that reads from the reader and writes to the writer, with an empty story.
    pub fn new(reader: R, writer: W) -> LiveStreams<R, W>
        ensures story { story_of result ≡ empty_live }
        ensures reader { reader_of result ≡ reader }
        ensures writer { writer_of result ≡ writer }
    {
        LiveStreams {
            reader,
            writer,
            read: History::new(),
            written: History::new(),
            unflushed: History::new(),
            rooms: Trace::new(),
            waits: Trace::new(),
            ends: Trace::new(),
            failed_reads: Trace::new(),
            failed_writes: Trace::new(),
        }
    }

    /// The reader and the writer. What stands in the writer's own buffer stays there.
    pub fn into_parts(self) -> (R, W)
        ensures reader { result.0 ≡ reader_of self }
        ensures writer { result.1 ≡ writer_of self }
    {
        let LiveStreams { reader, writer, .. } = self;
        (reader, writer)
    }
}

impl<R: PatientRead, W: Write> LivePipe for LiveStreams<R, W> {
    ghost use Rattle.jdwp_engine.specs.LiveStreams.{story_of, reader_of, writer_of};
    ghost use Rattle.jdwp_engine.specs.LiveStory.{Fits, after_flush, after_read, after_write};

    ghost story = { story_of };

    #[tactic(auto, using(crate::proofs::Known::early_push))]
    fn read(&mut self, patience: Patience, buffer: &mut [u8]) -> io::Result<Came>
        requires { 0 < length buffer.old }
        ensures fits { IfOk result (Fits patience (length buffer.new)) }
        ensures story { story_of self.new ≡ after_read (story_of self.old) patience result buffer.new }
        ensures writer { writer_of self.new ≡ writer_of self.old }
    {
        self.rooms.push(&self.unflushed);
        self.waits.push(&patience);
        match self.reader.read(patience, buffer) {
            Ok(Came::Bytes(count)) => {
                self.read.extend(&buffer[..count]);
                Ok(Came::Bytes(count))
            }
            Ok(Came::Nothing) => Ok(Came::Nothing),
            Ok(Came::End) => {
                self.ends.push(&());
                Ok(Came::End)
            }
            Err(error) => {
                self.failed_reads.push(&());
                Err(error)
            }
        }
    }

    fn write(&mut self, bytes: &[u8]) -> io::Result<usize>
        ensures within { IfOk result (λ n. n ≤ length bytes.now) }
        ensures story { story_of self.new ≡ after_write (story_of self.old) result bytes.now }
        ensures reader { reader_of self.new ≡ reader_of self.old }
    {
        match write_uninterrupted(&mut self.writer, bytes) {
            Ok(count) => {
                self.written.extend(&bytes[..count]);
                self.unflushed.extend(&bytes[..count]);
                if count == 0 && !bytes.is_empty() {
                    self.failed_writes.push(&());
                }
                Ok(count)
            }
            Err(error) => {
                self.failed_writes.push(&());
                Err(error)
            }
        }
    }

    fn flush(&mut self) -> io::Result<()>
        ensures story { story_of self.new ≡ after_flush (story_of self.old) result }
        ensures reader { reader_of self.new ≡ reader_of self.old }
    {
        match flush_uninterrupted(&mut self.writer) {
            Ok(()) => {
                self.unflushed = History::new();
                Ok(())
            }
            Err(error) => {
                self.failed_writes.push(&());
                Err(error)
            }
        }
    }
}

/// How often a call that was interrupted is made again at most. No program lives that long.
const TRIES: u64 = u64::MAX;

fn flush_uninterrupted<W: Write>(writer: &mut W) -> io::Result<()> {
    for _ in 0..TRIES {
        match writer.flush() {
            Err(error) if error.kind() == ErrorKind::Interrupted => {}
            result => return result,
        }
    }
    Err(io::Error::from(ErrorKind::Interrupted))
}

fn write_uninterrupted<W: Write>(writer: &mut W, bytes: &[u8]) -> io::Result<usize>
    ensures { IfOk result (λ n. n ≤ length bytes.now) }
{
    for _ in 0..TRIES {
        match writer.write(bytes) {
            Err(error) if error.kind() == ErrorKind::Interrupted => {}
            result => return result,
        }
    }
    Err(io::Error::from(ErrorKind::Interrupted))
}
