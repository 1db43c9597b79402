//! Reads of a connection that need not wait for ever.
ghost use Rattle.std.specs.Prelude.{◌≡◌, ◌<◌, ◌≤◌, ℕ, None, true, is_some, length, IfOk, IfSome, OnErr};
ghost use Rattle.jdwp_engine.specs.declared.pipes.pipe.Patience as declared;
ghost use Rattle.jdwp_engine.specs.LiveStory.{Fits};

use crate::faults::PortCause;
use crate::live::causes::LiveCause;
use jdwp_engine::{Came, Patience, PatientRead};
use std::io;
use std::io::{ErrorKind, Read};
use std::net::OpenStream;
use std::rt::Clock;
use std::time::{Duration, Instant};

/// How long the other end has for its handshake, from the beginning of the connection on, in milliseconds: as long as at HotSpot.
const HANDSHAKE_TIME: u64 = 2000;

/// How often a read is made again at most. No program lives that long.
const TRIES: u64 = u64::MAX;

/// The reading half of a connection, whose reads wait as their patience says, by a clock. A read that was interrupted is made again.
///
/// `Forever` waits without limit. `Handshake` waits up to 2 seconds behind the beginning of the connection. `Step` waits until a pace is over,
/// which begins with the first such read behind one that found nothing: so as much time passes at least between two steps, and no more is
/// needed, however often something comes. Where the pace is 0 it only looks whether bytes are there.
#[derive(Drop)]
pub struct PatientStream<'c, S, C> {
    stream: S,
    clock: &'c C,
    pace: Duration,
    /// When the connection began.
    begun: Instant,
    /// When the pace began, if it did behind the last read that found nothing.
    pace_begun: Option<Instant>,
    /// Why the last read failed that did.
    failure: Option<LiveCause>,
}

impl<'c, S: Drop, C: Clock> PatientStream<'c, S, C> {
    ghost use Rattle.jdwp_port.specs.LiveReading.{failure_of, stream_of};

    /// The reading half of a connection that begins now, with this pace.
    ///
    /// # Errors
    /// The clock's, where it can't be read.
    pub fn new(stream: S, clock: &'c C, pace: Duration) -> io::Result<PatientStream<'c, S, C>>
        ensures stream { IfOk result (λ reader. stream_of reader ≡ stream) }
        ensures failure { IfOk result (λ reader. failure_of reader ≡ None) }
    {
        let begun = Instant::now(clock)?;
        Ok(PatientStream {
            stream,
            clock,
            pace,
            begun,
            pace_begun: None,
            failure: None,
        })
    }

    /// Why the last read failed that did.
    pub fn failure(&self) -> Option<LiveCause>
        ensures { result ≡ failure_of self.now }
    {
        self.failure
    }

    /// The half itself.
    pub fn into_inner(self) -> S
        ensures { result ≡ stream_of self.entry }
    {
        self.stream
    }

    /// Keeps the error of a read that failed.
    fn fail(&mut self, error: io::Error) -> io::Error
        ensures { is_some (failure_of self.new) ≡ true }
    {
        self.failure = Some(LiveCause::Port(PortCause::of(error)));
        error
    }

    /// When the pace began, which is now where it did not begin behind the last read that found nothing.
    fn begin_pace(&mut self) -> io::Result<Instant> {
        match self.pace_begun {
            Some(begun) => Ok(begun),
            None => {
                let now = Instant::now(self.clock)?;
                self.pace_begun = Some(now);
                Ok(now)
            }
        }
    }
}

impl<'c, S: Read + OpenStream + Drop, C: Clock> PatientStream<'c, S, C> {
    ghost use Rattle.jdwp_port.specs.LiveReading.{failure_of};

    /// Reads within 2 seconds from the beginning of the connection on, or fails.
    fn read_handshake(&mut self, buffer: &mut [u8]) -> io::Result<Came>
        requires { 0 < length buffer.old }
        ensures fits { IfOk result (Fits Patience.Handshake (length buffer.new)) }
        ensures kept { OnErr result (is_some (failure_of self.new) ≡ true) }
    {
        let limit = Duration::from_millis(HANDSHAKE_TIME);
        match read_within(&mut self.stream, self.clock, self.begun, limit, buffer) {
            Ok(Some(count)) => Ok(came(count)),
            Ok(None) => {
                self.failure = Some(LiveCause::NoHandshake);
                Err(io::Error::from(ErrorKind::TimedOut))
            }
            Err(error) => Err(self.fail(error)),
        }
    }

    /// Reads before the pace is over; nothing comes where it is.
    fn read_between_steps(&mut self, buffer: &mut [u8]) -> io::Result<Came>
        requires { 0 < length buffer.old }
        ensures fits { IfOk result (Fits Patience.Step (length buffer.new)) }
        ensures kept { OnErr result (is_some (failure_of self.new) ≡ true) }
    {
        let begun = match self.begin_pace() {
            Ok(begun) => begun,
            Err(error) => return Err(self.fail(error)),
        };
        match read_within(&mut self.stream, self.clock, begun, self.pace, buffer) {
            Ok(Some(count)) => Ok(came(count)),
            Ok(None) => {
                self.pace_begun = None;
                Ok(Came::Nothing)
            }
            Err(error) => Err(self.fail(error)),
        }
    }

    /// Reads, however long it takes until something comes.
    fn read_at_last(&mut self, buffer: &mut [u8]) -> io::Result<Came>
        requires { 0 < length buffer.old }
        ensures fits { IfOk result (Fits Patience.Forever (length buffer.new)) }
        ensures kept { OnErr result (is_some (failure_of self.new) ≡ true) }
    {
        match read_without_limit(&mut self.stream, buffer) {
            Ok(count) => Ok(came(count)),
            Err(error) => Err(self.fail(error)),
        }
    }
}

impl<'c, S: Read + OpenStream + Drop, C: Clock> PatientRead for PatientStream<'c, S, C> {
    ghost use Rattle.jdwp_port.specs.LiveReading.{failure_of};

    fn read(&mut self, patience: Patience, buffer: &mut [u8]) -> io::Result<Came>
        requires { 0 < length buffer.old }
        ensures fits { IfOk result (Fits patience (length buffer.new)) }
        ensures kept { OnErr result (is_some (failure_of self.new) ≡ true) }
    {
        match patience {
            Patience::Handshake => self.read_handshake(buffer),
            Patience::Step => self.read_between_steps(buffer),
            Patience::Forever => self.read_at_last(buffer),
        }
    }
}

/// What came at a read that gave so many bytes.
fn came(count: usize) -> Came
    ensures { (patience : declared.Patience) → (room : ℕ) → count ≤ room → Fits patience room result }
{
    if count == 0 {
        Came::End
    } else {
        Came::Bytes(count)
    }
}

/// Reads within so long from then on, at once where bytes are there. None where none came in that time.
fn read_within<S: Read + OpenStream, C: Clock>(
    stream: &mut S,
    clock: &C,
    since: Instant,
    limit: Duration,
    buffer: &mut [u8],
) -> io::Result<Option<usize>>
    ensures { IfOk result (λ read. IfSome read (λ count. count ≤ length buffer.new)) }
{
    for _ in 0..TRIES {
        let left = limit.saturating_sub(since.elapsed(clock)?);
        match read_for(stream, left, buffer) {
            Ok(count) => return Ok(Some(count)),
            Err(error) if error.kind() == ErrorKind::Interrupted => {}
            Err(error) if error.kind() != ErrorKind::WouldBlock => return Err(error),
            Err(_) if left.is_zero() => return Ok(None),
            Err(_) => {}
        }
    }
    Err(io::Error::from(ErrorKind::Interrupted))
}

/// One read that waits for so long at most: not at all where that is no time.
fn read_for<S: Read + OpenStream>(
    stream: &mut S,
    time: Duration,
    buffer: &mut [u8],
) -> io::Result<usize>
    ensures { IfOk result (λ count. count ≤ length buffer.new) }
{
    if time.is_zero() {
        return look(stream, buffer);
    }
    stream.set_read_timeout(Some(time))?;
    stream.read(buffer)
}

/// One read that does not wait. Both halves of a connection wait or do not, so this is taken back at once.
fn look<S: Read + OpenStream>(stream: &mut S, buffer: &mut [u8]) -> io::Result<usize>
    ensures { IfOk result (λ count. count ≤ length buffer.new) }
{
    stream.set_nonblocking(true)?;
    let read = stream.read(buffer);
    // Where the system refuses this, the next call that would wait fails.
    let _ = stream.set_nonblocking(false);
    read
}

/// Reads, however long it takes until something comes.
fn read_without_limit<S: Read + OpenStream>(stream: &mut S, buffer: &mut [u8]) -> io::Result<usize>
    ensures { IfOk result (λ count. count ≤ length buffer.new) }
{
    stream.set_read_timeout(None)?;
    for _ in 0..TRIES {
        match stream.read(buffer) {
            Err(error) if error.kind() == ErrorKind::Interrupted => {}
            read => return read,
        }
    }
    Err(io::Error::from(ErrorKind::Interrupted))
}
