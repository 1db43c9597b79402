//! A connection as a live pipe, and its end.
ghost use Rattle.std.specs.Prelude.{◌≡◌, IfOk};
ghost use Rattle.jdwp_engine.specs.LiveStreams.{story_of};
ghost use Rattle.jdwp_engine.specs.LiveStory.{empty_live};
ghost use Rattle.jdwp_port.specs.LiveConnections.{FailsOnlyLost};

use crate::connection::part;
use crate::faults::PortCause;
use crate::live::causes::LiveCause;
use crate::live::reading::PatientStream;
use crate::watching::Watched;
use jdwp_end::Ended;
use jdwp_engine::LiveStreams;
use std::alloc::Global;
use std::io;
use std::io::{BufWriter, Read, Write};
use std::net::OpenStream;
use std::rt::Clock;
use std::time::Duration;

/// How a live session at a port ended.
#[derive(Clone, Copy, Debug)]
pub struct LiveAtPort {
    /// How it ended.
    pub how: Ended,
    /// Why its connection failed, where it was lost so; none where the other end closed it.
    pub failure: Option<LiveCause>,
}

/// Both halves of a connection, as a live pipe.
pub(crate) type LiveHalves<'c, S, C> = LiveStreams<PatientStream<'c, S, C>, Watched<BufWriter<S>>>;

/// Both halves of a connection that begins now, with this pace. What is written leaves at each flush: the system does not wait for more.
///
/// # Errors
/// The system's, where it gives no second half or no time; `OutOfMemory` where there is none for the buffer.
pub(crate) fn live_halves<'c, S: Read + Write + OpenStream + Drop, C: Clock>(
    alloc: Global,
    clock: &'c C,
    stream: S,
    pace: Duration,
) -> io::Result<LiveHalves<'c, S, C>>
    ensures { IfOk result (λ pipe. story_of pipe ≡ empty_live) }
{
    // Where the system refuses this, what is written leaves later, and nothing else is different.
    let _ = stream.set_nodelay(true);
    let reader = PatientStream::new(stream.try_clone()?, clock, pace)?;
    let writer = BufWriter::new(alloc, stream)?;
    Ok(LiveStreams::new(reader, Watched::new(writer)))
}

/// Closes a connection whose session ended so, and tells why it failed, if the session was lost so. One that was not lost is ended so that the
/// other end can read all that was written.
pub(crate) fn close_live<S: Read + Write + OpenStream + Drop, C: Clock>(
    clock: &C,
    pipe: LiveHalves<'_, S, C>,
    ended: Ended,
) -> Option<LiveCause>
    ensures { FailsOnlyLost ended result }
{
    let (reader, writer) = pipe.into_parts();
    match ended {
        Ended::LostByRead => reader.failure(),
        Ended::LostByWrite => match writer.failure() {
            Some(error) => Some(LiveCause::Port(PortCause::of(error))),
            None => None,
        },
        Ended::Done | Ended::Refused(_) | Ended::NoMemory | Ended::TurnLimit => {
            part(clock, reader.into_inner(), writer.get_ref().get_ref());
            None
        }
    }
}
