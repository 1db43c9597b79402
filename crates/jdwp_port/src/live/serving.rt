//! Live sessions of a target on a port.
ghost use Rattle.std.specs.Prelude.{◌≡◌, true, false, IfErr, IfOk, OnErr};
ghost use Rattle.jdwp_end.specs.Ends.{is_open};
ghost use Rattle.jdwp_engine.specs.LiveStreams.{story_of};
ghost use Rattle.jdwp_engine.specs.LiveStory.{empty_live};
ghost use Rattle.jdwp_port.specs.Faults.{IsOf};
ghost use Rattle.jdwp_port.specs.Listeners.{port_of};
ghost use Rattle.jdwp_port.specs.Served.{goes_on, lives};
ghost use Rattle.jdwp_port.specs.LiveConnections.{FailsOnlyLost};
ghost use Rattle.jdwp_port.specs.LiveServed.{Happens, IsLiveSession, ListensAt, Serves, end_in, goes_on_behind, notice_in};

use crate::faults::{PortCause, PortFault};
use crate::listening::{PortListener, Taken, may_pass, pause};
use crate::live::connection::{LiveAtPort, LiveHalves, close_live, live_halves};
use crate::live::notices::{LiveNotice, live_notice_of};
use crate::notices::Notice;
use jdwp_end::Ended;
use jdwp_engine::serve_live;
use jdwp_machine::Machine;
use jdwp_target::Target;
use std::alloc::Global;
use std::io;
use std::io::{ErrorKind, Read, Write};
use std::net::{Ipv4Addr, Net, OpenStream, SocketAddr};
use std::rt::Clock;
use std::time::Duration;

/// How many sessions are served at most, and connections awaited in vain. No program lives that long.
const MOST_SESSIONS: u64 = u64::MAX;

/// Serves debuggers that come to a port, one after the other, with this target, each for at most so many rounds, as `serve_live` does: threads
/// step in an established session alone, where no bytes that came can be read, and as much time as the pace passes at least between two steps.
///
/// While a session goes on nobody listens on the port, so other debuggers are refused; behind it the same port is listened on anew, before
/// its connection is closed.
///
/// It ends with `Done` where no thread of the machine lives, before the first session or behind one, whatever ended that one; and with
/// `TurnLimit` or `NoMemory` behind the first session that ended so, which is lost then. Behind any other session the next debugger is
/// awaited: also behind one whose handshake was not done 2 seconds behind the beginning of its connection, which is lost then. It ends in no
/// other way, and the target is closed then. It waits for as long as no debugger comes, or one says nothing behind its handshake.
///
/// `tell` is called on the way: with the fault of each session that was refused; with why its connection failed, where one was lost so; and
/// where no connection could be taken, or the port not be listened on anew, for a cause that passes, as that too many files are open. Behind
/// such a cause another call is made a little later: 10 ms, twice as long behind each further one, a second at most, and a hundred times in a
/// row.
///
/// # Errors
/// `Port` where no connection can be taken from the port, or used, or it can't be listened on anew, for another cause, or a hundred and one
/// times in a row; `NoMemory` where there is none for a connection's buffer. The target is as the last session left it.
pub fn serve_live_sessions<M, R, C, F>(
    alloc: Global,
    net: &R,
    clock: &C,
    target: &mut Target<M>,
    listener: PortListener<R::Listener>,
    pace: Duration,
    rounds: u64,
    mut tell: F,
) -> Result<Ended, PortFault>
where
    M: Machine + Drop,
    R: Net,
    C: Clock,
    F: FnMut(LiveNotice) + Drop,
    requires closed { is_open target.old.end ≡ false }
    requires callable { F.IsAlwaysCallable tell }
    ensures serves { (told : F) × Serves M.meaning rounds target.old (λ f notice g.
        F.step f notice tt g) tell result target.new told }
    ensures err { IfErr result (IsOf (port_of listener)) }
    ensures closed { is_open target.new.end ≡ false }
{
    if !lives(target) {
        return Ok(Ended::Done);
    }
    let port = listener.port();
    let mut listening = Some(listener);
    let mut in_a_row = 0;
    for _ in 0..MOST_SESSIONS {
        pause(clock, in_a_row);
        let happened = match next(
            alloc,
            net,
            clock,
            target,
            port,
            &mut listening,
            pace,
            rounds,
            in_a_row,
        ) {
            Ok(happened) => happened,
            Err(fault) => return Err(fault),
        };
        if let Some(notice) = notice_in(happened) {
            tell(notice);
        }
        if let Some(ended) = end_in(happened) {
            target.lose();
            return Ok(ended);
        }
        in_a_row = behind(happened, in_a_row);
        if !lives(target) {
            return Ok(Ended::Done);
        }
    }
    let error = io::Error::from(ErrorKind::TimedOut);
    Err(PortFault::of_port(port, error))
}

/// What happened at a port.
#[derive(Clone, Copy)]
enum Happening {
    /// No connection was taken, or the port was not listened on anew, for a cause that passes.
    InVain(PortCause),
    /// A session ended so.
    Session(LiveAtPort),
}

/// Awaits one connection at this port behind so many in a row that were awaited in vain, and serves its session. Where nobody listens on the
/// port that is begun first; and it is ended while the session goes on.
///
/// # Errors
/// `Port` where none can be taken, or used, or the port can't be listened on, at a cause that does not pass or behind too many in a row;
/// `NoMemory` where there is none for its buffer. The target is as it was.
fn next<M, R, C>(
    alloc: Global,
    net: &R,
    clock: &C,
    target: &mut Target<M>,
    port: u16,
    listening: &mut Option<PortListener<R::Listener>>,
    pace: Duration,
    rounds: u64,
    in_a_row: u32,
) -> Result<Happening, PortFault>
where
    M: Machine + Drop,
    R: Net,
    C: Clock,
    requires closed { is_open target.old.end ≡ false }
    requires listens { ListensAt port listening.old }
    ensures happens { IfOk result (λ h. Happens M.meaning rounds target.old h target.new) }
    ensures closed { IfOk result (λ h. goes_on_behind h ≡ true → is_open target.new.end ≡ false) }
    ensures err { IfErr result (IsOf port) }
    ensures untouched { OnErr result (target.new ≡ target.old) }
    ensures listens { ListensAt port listening.new }
{
    let stream = match take(net, port, listening, in_a_row) {
        Ok(Taken::Stream(stream)) => stream,
        Ok(Taken::Later(cause)) => return Ok(Happening::InVain(cause)),
        Err(fault) => return Err(fault),
    };
    match live_halves(alloc, clock, stream, pace) {
        Ok(mut pipe) => {
            let how = run(target, &mut pipe, rounds);
            listen_behind(net, port, listening, target, how);
            let failure = close_live(clock, pipe, how);
            Ok(Happening::Session(LiveAtPort { how, failure }))
        }
        Err(error) if may_pass(error, in_a_row) => { Ok(Happening::InVain(PortCause::of(error))) }
        Err(error) => Err(PortFault::of_port(port, error)),
    }
}

/// The next connection at this port, behind so many in a row that were awaited in vain. Where nobody listens on the port that is begun first;
/// and where a connection was taken nobody listens then.
///
/// # Errors
/// `Port` or `NoMemory` at a cause that does not pass, or behind too many in a row.
fn take<R: Net>(
    net: &R,
    port: u16,
    listening: &mut Option<PortListener<R::Listener>>,
    in_a_row: u32,
) -> Result<Taken<R::Stream>, PortFault>
    requires { ListensAt port listening.old }
    ensures err { IfErr result (IsOf port) }
    ensures listens { ListensAt port listening.new }
{
    let listener = match listening.take() {
        Some(listener) => listener,
        None => match listen(net, port) {
            Ok(listener) => listener,
            Err(error) if may_pass(error, in_a_row) => {
                return Ok(Taken::Later(PortCause::of(error)));
            }
            Err(error) => return Err(PortFault::of_port(port, error)),
        },
    };
    match listener.take(in_a_row) {
        Ok(Taken::Stream(stream)) => Ok(Taken::Stream(stream)),
        Ok(Taken::Later(cause)) => {
            *listening = Some(listener);
            Ok(Taken::Later(cause))
        }
        Err(fault) => Err(fault),
    }
}

/// Listens on this port of 127.0.0.1.
///
/// # Errors
/// The system's.
fn listen<R: Net>(net: &R, port: u16) -> io::Result<PortListener<R::Listener>>
    ensures { IfOk result (λ listener. port_of listener ≡ port) }
{
    let address = SocketAddr::from((Ipv4Addr::LOCALHOST, port));
    let listener = net.bind(address)?;
    Ok(PortListener::new(listener, port))
}

/// Listens on the port anew behind a session that ended so, if the next debugger is awaited. Where that can't be done it is tried once more
/// before the next connection is taken.
fn listen_behind<M: Machine + Drop, R: Net>(
    net: &R,
    port: u16,
    listening: &mut Option<PortListener<R::Listener>>,
    target: &Target<M>,
    how: Ended,
)
    requires { ListensAt port listening.old }
    ensures { ListensAt port listening.new }
{
    if goes_on(how) && lives(target) {
        *listening = match listen(net, port) {
            Ok(listener) => Some(listener),
            Err(_) => None,
        };
    }
}

/// What is told of it.
fn notice_in(happened: Happening) -> Option<LiveNotice>
    ensures { result ≡ notice_in happened }
{
    match happened {
        Happening::InVain(cause) => Some(LiveNotice::Port(Notice::Again(cause))),
        Happening::Session(session) => live_notice_of(session),
    }
}

/// How the session ended, if no other one is served behind it.
fn end_in(happened: Happening) -> Option<Ended>
    ensures { result ≡ end_in happened }
{
    match happened {
        Happening::Session(session) => match session.how {
            Ended::NoMemory | Ended::TurnLimit => Some(session.how),
            Ended::Done | Ended::LostByRead | Ended::LostByWrite | Ended::Refused(_) => None,
        },
        Happening::InVain(_) => None,
    }
}

/// Whether the next debugger is awaited behind a session that ended so, if the machine lives.
fn goes_on(how: Ended) -> bool
    ensures { result ≡ goes_on how }
{
    match how {
        Ended::Done | Ended::LostByRead | Ended::LostByWrite | Ended::Refused(_) => true,
        Ended::NoMemory | Ended::TurnLimit => false,
    }
}

/// How many connections in a row were awaited in vain behind it, and so many before it.
fn behind(happened: Happening, in_a_row: u32) -> u32 {
    match happened {
        Happening::InVain(_) => in_a_row.saturating_add(1),
        Happening::Session(_) => 0,
    }
}

/// Serves one live session of a closed target on a connection at this port that begins now, for at most so many rounds, as `serve_live` does
/// with as much time as the pace between two steps at least, and closes the connection. The other end can read all that was written, unless
/// the session was lost, if it reads on. Where the session was lost since the connection failed, why it did is told.
///
/// # Errors
/// `Port` where the system gives no second half of the connection, or no time; `NoMemory` where there is none for its buffer. The target is as
/// it was.
pub fn serve_live_stream<M, S, C>(
    alloc: Global,
    clock: &C,
    target: &mut Target<M>,
    port: u16,
    stream: S,
    pace: Duration,
    rounds: u64,
) -> Result<LiveAtPort, PortFault>
where
    M: Machine + Drop,
    S: Read + Write + OpenStream + Drop,
    C: Clock,
    requires { is_open target.old.end ≡ false }
    ensures served { IfOk result (λ session. IsLiveSession M.meaning rounds target.old session.how target.new) }
    ensures failure { IfOk result (λ session. FailsOnlyLost session.how session.failure) }
    ensures closed { IfOk result (λ session. goes_on session.how ≡ true → is_open target.new.end ≡ false) }
    ensures err { IfErr result (IsOf port) }
    ensures untouched { OnErr result (target.new ≡ target.old) }
{
    let mut pipe = match live_halves(alloc, clock, stream, pace) {
        Ok(pipe) => pipe,
        Err(error) => return Err(PortFault::of_port(port, error)),
    };
    let how = run(target, &mut pipe, rounds);
    let failure = close_live(clock, pipe, how);
    Ok(LiveAtPort { how, failure })
}

/// Serves one live session of a closed target on both halves of a connection.
fn run<M, S, C>(target: &mut Target<M>, pipe: &mut LiveHalves<'_, S, C>, rounds: u64) -> Ended
where
    M: Machine + Drop,
    S: Read + Write + OpenStream + Drop,
    C: Clock,
    requires closed { is_open target.old.end ≡ false }
    requires new { story_of pipe.old ≡ empty_live }
    ensures served { IsLiveSession M.meaning rounds target.old result target.new }
    ensures closed { goes_on result ≡ true → is_open target.new.end ≡ false }
{
    serve_live(target, pipe, rounds)
}

/// Whether a thread of the machine lives. Where none does the machine is dead.
fn lives<M: Machine + Drop>(target: &Target<M>) -> bool
    ensures { result ≡ lives M.meaning target.now }
{
    !target.live().is_empty()
}
