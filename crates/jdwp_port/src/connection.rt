//! A connection as a pipe, and its end.
ghost use Rattle.std.specs.Prelude.{◌≡◌, ◌≤◌, IfOk};
ghost use Rattle.std.specs.Duration.{as_nanos};
ghost use Rattle.jdwp_end.specs.Streams.{story_of};
ghost use Rattle.jdwp_end.specs.Story.{empty_story};
ghost use Rattle.jdwp_port.specs.Connections.{FailsOnlyLost};

use crate::faults::PortCause;
use crate::watching::Watched;
use jdwp_end::{Ended, Streams};
use std::alloc::Global;
use std::io;
use std::io::{BufWriter, ErrorKind, Read, Write};
use std::net::{Ipv4Addr, OpenStream, Shutdown, SocketAddr};
use std::rt::Clock;
use std::time::{Duration, Instant};

/// How a session at a port ended.
#[derive(Clone, Copy, Debug)]
pub struct AtPort<E> {
    /// How it ended.
    pub how: E,
    /// Why its connection failed, where it was lost so; none where the other end closed it.
    pub failure: Option<PortCause>,
}

/// Both halves of a connection, as a pipe.
pub(crate) type Halves<S> = Streams<Watched<S>, Watched<BufWriter<S>>>;

/// How many bytes are read at once that nobody handles.
const CHUNK: usize = 4096;

/// How many reads are made at most of what nobody handles.
const MOST_READS: u32 = 64;

/// How long they wait in all, in milliseconds.
const PATIENCE: u64 = 200;

/// This port of this machine.
pub(crate) fn address(port: u16) -> SocketAddr {
    SocketAddr::from((Ipv4Addr::LOCALHOST, port))
}

/// Both halves of a connection. What is written leaves at each flush: the system does not wait for more.
///
/// # Errors
/// The system's, where it gives no second half; `OutOfMemory` where there is none for the buffer.
pub(crate) fn halves<S: Read + Write + OpenStream + Drop>(
    alloc: Global,
    stream: S,
) -> io::Result<Halves<S>>
    ensures { IfOk result (λ pipe. story_of pipe ≡ empty_story) }
{
    // Where the system refuses this, what is written leaves later, and nothing else is different.
    let _ = stream.set_nodelay(true);
    let reader = stream.try_clone()?;
    let writer = BufWriter::new(alloc, stream)?;
    Ok(Streams::new(Watched::new(reader), Watched::new(writer)))
}

/// Closes a connection whose session ended so, and tells why it failed, if the session was lost so. One that was not lost is ended so that the
/// other end can read all that was written.
pub(crate) fn close<S: Read + Write + OpenStream + Drop, C: Clock>(
    clock: &C,
    pipe: Halves<S>,
    ended: Ended,
) -> Option<PortCause>
    ensures { FailsOnlyLost ended result }
{
    let (reader, writer) = pipe.into_parts();
    let failure = match ended {
        Ended::LostByRead => reader.failure(),
        Ended::LostByWrite => writer.failure(),
        Ended::Done | Ended::Refused(_) | Ended::NoMemory | Ended::TurnLimit => {
            part(clock, reader.into_inner(), writer.get_ref().get_ref());
            return None;
        }
    };
    match failure {
        Some(error) => Some(PortCause::of(error)),
        None => None,
    }
}

/// Ends a connection of which these are both halves: the writing one, and then what still comes is read and dropped, up to its end, for 200
/// ms in all and by 64 reads at most. (A socket that is closed over bytes that were not read is reset by the system, and the other end loses
/// what it had not read by then.)
pub fn part<S: Read + OpenStream + Drop, C: Clock>(clock: &C, mut reader: S, writer: &S) {
    if writer.shutdown(Shutdown::Write).is_err() {
        return;
    }
    let Ok(start) = Instant::now(clock) else {
        return;
    };
    let mut dropped = [0; CHUNK];
    for _ in 0..MOST_READS {
        let left = patience_left(clock, start);
        if left.is_zero() || reader.set_read_timeout(Some(left)).is_err() {
            return;
        }
        match reader.read(&mut dropped) {
            Ok(0) => return,
            Ok(_) => {}
            Err(error) if error.kind() == ErrorKind::Interrupted => {}
            Err(_) => return,
        }
    }
}

/// For how long what still comes is read from now on, which was begun then; not at all where the clock can't be read.
fn patience_left<C: Clock>(clock: &C, start: Instant) -> Duration
    ensures { as_nanos result ≤ 200_000_000 }
{
    match start.elapsed(clock) {
        Ok(elapsed) => Duration::from_millis(PATIENCE).saturating_sub(elapsed),
        Err(_) => Duration::ZERO,
    }
}
