//! The halves of a connection whose reads and writes do not wait.
ghost use Rattle.std.specs.Prelude.{◌≡◌, ◌<◌, ◌≤◌, length, IfOk};
ghost use Rattle.jdwp_relay.specs.Flows.{Fits, IsWithin, after_end, after_read, after_write};

use crate::resetting::reset;
use jdwp_relay::{Came, Ending, Sink, Source, Took};
use std::io;
use std::io::{ErrorKind, Read, Write};
use std::net::{OpenStream, Shutdown};
use std::os::fd::AsRawFd;
use trace::{History, Trace};

/// How often a call that was interrupted is made again at most. No program lives that long.
const TRIES: u64 = u64::MAX;

/// The half of a connection that is read. A read that would wait finds nothing, one that gives 0 is the end of the input, and any other error
/// is a reset. A read that was interrupted is made again.
#[derive(Drop)]
pub struct ReadHalf<S> {
    stream: S,
    bytes: History,
    endings: Trace<Ending>,
    reads: Trace<()>,
}

impl<S> ReadHalf<S> {
    ghost use Rattle.jdwp_record.specs.Halves.{came_by, no_bytes_came};

    /// Of a connection whose reads do not wait, of which nothing was read yet.
    pub fn new(stream: S) -> ReadHalf<S>
        ensures { came_by result ≡ no_bytes_came }
    {
        ReadHalf {
            stream,
            bytes: History::new(),
            endings: Trace::new(),
            reads: Trace::new(),
        }
    }
}

impl<S: Read> Source for ReadHalf<S> {
    ghost use Rattle.jdwp_record.specs.Halves.{came_by};

    ghost came = { came_by };

    fn read(&mut self, buffer: &mut [u8]) -> Came
        requires { 0 < length buffer.old }
        ensures fits { Fits result (length buffer.new) }
        ensures came { came_by self.new ≡ after_read (came_by self.old) result buffer.new }
    {
        self.reads.push(&());
        match read_uninterrupted(&mut self.stream, buffer) {
            Ok(0) => {
                self.endings.push(&Ending::HalfClose);
                Came::Ended(Ending::HalfClose)
            }
            Ok(count) => {
                self.bytes.extend(&buffer[..count]);
                Came::Bytes(count)
            }
            Err(error) if error.kind() == ErrorKind::WouldBlock => Came::Nothing,
            Err(_) => {
                self.endings.push(&Ending::Reset);
                Came::Ended(Ending::Reset)
            }
        }
    }
}

/// The half of a connection that is written. A write that would wait takes nothing, and one that fails otherwise or takes none of some bytes
/// shows that the connection is lost. A write that was interrupted is made again.
#[derive(Drop)]
pub struct WriteHalf<S> {
    stream: S,
    bytes: History,
    endings: Trace<Ending>,
    losses: Trace<()>,
    writes: Trace<()>,
}

impl<S> WriteHalf<S> {
    ghost use Rattle.jdwp_record.specs.Halves.{no_bytes_went, went_by};

    /// Of a connection whose writes do not wait, to which nothing was written yet.
    pub fn new(stream: S) -> WriteHalf<S>
        ensures { went_by result ≡ no_bytes_went }
    {
        WriteHalf {
            stream,
            bytes: History::new(),
            endings: Trace::new(),
            losses: Trace::new(),
            writes: Trace::new(),
        }
    }
}

impl<S: Write + OpenStream + AsRawFd> Sink for WriteHalf<S> {
    ghost use Rattle.jdwp_record.specs.Halves.{went_by};

    ghost went = { went_by };

    fn write(&mut self, bytes: &[u8]) -> Took
        requires { 0 < length bytes.now }
        ensures within { IsWithin result (length bytes.now) }
        ensures went { went_by self.new ≡ after_write (went_by self.old) result bytes.now }
    {
        self.writes.push(&());
        match write_uninterrupted(&mut self.stream, bytes) {
            Ok(0) => {
                self.losses.push(&());
                Took::Lost
            }
            Ok(count) => {
                self.bytes.extend(&bytes[..count]);
                Took::Bytes(count)
            }
            Err(error) if error.kind() == ErrorKind::WouldBlock => Took::Nothing,
            Err(_) => {
                self.losses.push(&());
                Took::Lost
            }
        }
    }

    fn end(&mut self, ending: Ending)
        ensures { went_by self.new ≡ after_end (went_by self.old) ending }
    {
        self.endings.push(&ending);
        match ending {
            // Where the system refuses this, the connection is gone.
            Ending::HalfClose => {
                let _ = self.stream.shutdown(Shutdown::Write);
            }
            Ending::Reset => reset(self.stream.as_raw_fd()),
        }
    }
}

fn read_uninterrupted<R: Read>(reader: &mut R, buffer: &mut [u8]) -> io::Result<usize>
    ensures { IfOk result (λ n. n ≤ length buffer.new) }
{
    for _ in 0..TRIES {
        match reader.read(buffer) {
            Err(error) if error.kind() == ErrorKind::Interrupted => {}
            result => return result,
        }
    }
    Err(io::Error::from(ErrorKind::Interrupted))
}

fn write_uninterrupted<W: Write>(writer: &mut W, bytes: &[u8]) -> io::Result<usize>
    ensures { IfOk result (λ n. n ≤ length bytes.now) }
{
    for _ in 0..TRIES {
        match writer.write(bytes) {
            Err(error) if error.kind() == ErrorKind::Interrupted => {}
            result => return result,
        }
    }
    Err(io::Error::from(ErrorKind::Interrupted))
}
