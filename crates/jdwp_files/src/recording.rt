//! Sessions between debuggers and a target, recorded.
ghost use Rattle.std.specs.Prelude.{◌≡◌, List, Option, ℕ};
ghost use Rattle.jdwp_program.specs.Live.{IsShowing};
ghost use Rattle.jdwp_program.specs.Outputs.{LeavesLive, LeavesOutcome, LeavesSession, LeavesSessions};

use jdwp_end::Ended;
use jdwp_port::{Notice, PortCause, PortListener, bind};
use jdwp_program::{Fault, Lines, LiveShow, Outcome, Record, StreamFault, Told, tell_listening};
use jdwp_record::{RecordNotice, Recorder, Recording, RelayFault};
use jdwp_show::Table;
use std::alloc::Global;
use std::io;
use std::io::{ErrorKind, Read, Write};
use std::net::{Net, OpenStream};
use std::os::fd::AsRawFd;
use std::rt::{Clock, Files};

/// How many connections are taken at most, and how many turns a session takes. No program lives that long.
const MOST_TURNS: u64 = u64::MAX;

/// Records the sessions of debuggers that come to a port with the target at another one, one after the other, each in a file of its own: until
/// the first is over, if one is wanted, and for ever else. Once debuggers are awaited that is told on `out`, in one line. Where sessions are
/// shown, each is shown there while it goes on, in the lines of `show` as soon as they are known, with its first fault; where one is wanted, the
/// outcome is that of its capture then. An output that fails is told once the session is over. That no connection was taken, or the target
/// was not reached, is told on `err`, and the next debugger is awaited.
///
/// # Errors
/// `Port` where the port can't be taken or gives no connection; `Recorder` where a capture can't be made or written, or nobody
/// tells when bytes can be moved; `Output` where `out` takes not all; `NoMemory`.
pub fn record_sessions<'a, R: Files + Clock + AllocGlobal + Net, O: Write, E: Write>(
    rt: &R,
    words: &Record<'a>,
    out: &mut O,
    err: &mut E,
) -> Result<Outcome<'a>, Fault<'a>>
    ensures { LeavesOutcome result (O.contents out.old) (O.contents out.new) }
{
    let listener = bind(rt, words.listen)?;
    tell_listening(rt.alloc(), listener.port(), out)?;
    record_at(rt, words, &listener, out, err)
}

/// Records the sessions of debuggers that come to this port.
fn record_at<'a, R: Files + Clock + AllocGlobal + Net, O: Write, E: Write>(
    rt: &R,
    words: &Record<'a>,
    listener: &PortListener<R::Listener>,
    out: &mut O,
    err: &mut E,
) -> Result<Outcome<'a>, Fault<'a>>
    ensures { LeavesSessions result (O.contents out.old) (O.contents out.new) }
{
    let mut recorder = Recorder::new(words.port, words.to);
    let mut lines = Lines::new(rt.alloc(), err, listener.port());
    'sessions: for _ in 0..MOST_TURNS {
        if let Some(outcome) = record_one(rt, words, &mut recorder, listener, &mut lines, out)? {
            lines.end();
            return Ok(outcome);
        }
    }
    let error = io::Error::from(ErrorKind::TimedOut);
    Err(Fault::Port(listener.port(), PortCause::of(error)))
}

/// Records the session of the next debugger, where it comes and the target is reached. What the words led to, where no other is wanted.
fn record_one<'a, R: Files + Clock + AllocGlobal + Net, O: Write, E: Write>(
    rt: &R,
    words: &Record<'a>,
    recorder: &mut Recorder<'a>,
    listener: &PortListener<R::Listener>,
    lines: &mut Lines<'_, E>,
    out: &mut O,
) -> Result<Option<Outcome<'a>>, Fault<'a>>
    ensures { LeavesSession result (O.contents out.old) (O.contents out.new) }
{
    match recorder.begin_next(rt, rt, listener)? {
        RecordNotice::Again(cause) => {
            lines.tell(Notice::Again(cause));
            Ok(None)
        }
        RecordNotice::Unreached(port, cause) => {
            lines.tell_unreached(port, cause);
            Ok(None)
        }
        RecordNotice::Begun(_, session) => record_session(rt.alloc(), words, session, out),
    }
}

/// Records this session, and shows it meanwhile where sessions are shown. What the words led to, where no other is wanted.
fn record_session<'a, S: Read + Write + OpenStream + AsRawFd + Drop, W: Write + Drop, O: Write>(
    alloc: Global,
    words: &Record<'a>,
    session: Recording<S, W>,
    out: &mut O,
) -> Result<Option<Outcome<'a>>, Fault<'a>>
    ensures { LeavesSession result (O.contents out.old) (O.contents out.new) }
{
    if !words.show {
        session.run()?;
        return Ok(words.once.then_some(Outcome::Session(Ended::Done)));
    }
    match show_session(alloc, session, out)? {
        Told::Unread => Ok(Some(Outcome::Capture(Told::Unread))),
        told => Ok(words.once.then_some(Outcome::Capture(told))),
    }
}

/// Records a session and shows it while it goes on.
fn show_session<'a, S: Read + Write + OpenStream + AsRawFd + Drop, W: Write + Drop, O: Write>(
    alloc: Global,
    mut session: Recording<S, W>,
    out: &mut O,
) -> Result<Told, Fault<'a>>
    ensures { LeavesLive result (O.contents out.old) (O.contents out.new) }
{
    let mut show = LiveShow::under(alloc, Table::Standard);
    'turns: for _ in 0..MOST_TURNS {
        let goes_on = match session.step() {
            Ok(goes_on) => goes_on,
            Err(fault) => return Err(Fault::from(session.broken_off(fault))),
        };
        show = show.feed(session.fresh(), out);
        if !goes_on {
            return end_show(show, out);
        }
    }
    let fault = RelayFault::Waiting(io::Error::from(ErrorKind::TimedOut));
    Err(Fault::from(session.broken_off(fault)))
}

/// Prints what was not told yet of a session that is over.
fn end_show<'a, O: Write>(show: LiveShow, out: &mut O) -> Result<Told, Fault<'a>>
    ensures { (text : List ℕ) (start : Option (List ℕ))
        → IsShowing Table.Standard show text start (O.contents out.old)
        → LeavesLive result start (O.contents out.new) }
{
    match show.end(out) {
        Ok(told) => Ok(told),
        // Nothing is read here, so it is the output that failed.
        Err(StreamFault::Input(error) | StreamFault::Output(error)) => Err(Fault::Output(error)),
        Err(StreamFault::NoMemory) => Err(Fault::NoMemory),
    }
}
