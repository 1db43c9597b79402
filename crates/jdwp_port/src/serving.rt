//! Sessions of a target on a port.
ghost use Rattle.std.specs.Prelude.{◌≡◌, true, false, IfErr, IfOk, OnErr};
ghost use Rattle.jdwp_end.specs.Ends.{is_open};
ghost use Rattle.jdwp_end.specs.Streams.{story_of};
ghost use Rattle.jdwp_end.specs.Story.{empty_story};
ghost use Rattle.jdwp_port.specs.Connections.{FailsOnlyLost};
ghost use Rattle.jdwp_port.specs.Faults.{IsOf};
ghost use Rattle.jdwp_port.specs.Listeners.{port_of};
ghost use Rattle.jdwp_port.specs.Served.{Happens, IsSession, Serves, end_in, goes_on, goes_on_behind, lives, notice_in};

use crate::connection::{AtPort, Halves, close, halves};
use crate::faults::{PortCause, PortFault};
use crate::listening::{PortListener, Taken, may_pass, pause};
use crate::notices::{Notice, notice_of};
use jdwp_end::Ended;
use jdwp_engine::serve;
use jdwp_machine::Machine;
use jdwp_target::Target;
use std::alloc::Global;
use std::io;
use std::io::{ErrorKind, Read, Write};
use std::net::{OpenListener, OpenStream};
use std::rt::Clock;

/// How many sessions are served at most, and connections awaited in vain. No program lives that long.
const MOST_SESSIONS: u64 = u64::MAX;

/// Serves debuggers that come to a port, one after the other, with this target, each for at most so many rounds, as `serve` does.
///
/// It ends with `Done` where no thread of the machine lives, before the first session or behind one, whatever ended that one; and with
/// `TurnLimit` or `NoMemory` behind the first session that ended so, which is lost then. Behind any other session the next debugger is
/// awaited. It ends in no other way, and the target is closed then. It waits for as long as no debugger comes, or one says nothing. No thread
/// is stepped but in a session.
///
/// `tell` is called on the way: with the fault of each session that was refused; with why its connection failed, where one was lost so; and
/// where no connection could be taken for a cause that passes, as that too many files are open. Behind such a cause another call is made a
/// little later: 10 ms, twice as long behind each further one, a second at most, and a hundred times in a row.
///
/// # Errors
/// `Port` where no connection can be taken from the port, or used, for another cause, or a hundred and one times in a row; `NoMemory` where
/// there is none for a connection's buffer. The target is as the last session left it.
pub fn serve_sessions<M, L, C, F>(
    alloc: Global,
    clock: &C,
    target: &mut Target<M>,
    listener: &PortListener<L>,
    rounds: u64,
    mut tell: F,
) -> Result<Ended, PortFault>
where
    M: Machine + Drop,
    L: OpenListener,
    L::Stream: Read + Write + OpenStream,
    C: Clock,
    F: FnMut(Notice) + Drop,
    requires closed { is_open target.old.end ≡ false }
    requires callable { F.IsAlwaysCallable tell }
    ensures serves { (told : F) × Serves M.meaning rounds target.old (λ f notice g.
        F.step f notice tt g) tell result target.new told }
    ensures err { IfErr result (IsOf (port_of listener.now)) }
    ensures closed { is_open target.new.end ≡ false }
{
    if !lives(target) {
        return Ok(Ended::Done);
    }
    let mut in_a_row = 0;
    for _ in 0..MOST_SESSIONS {
        pause(clock, in_a_row);
        let happened = match next(alloc, clock, target, listener, rounds, in_a_row) {
            Ok(happened) => happened,
            Err(fault) => return Err(fault),
        };
        if let Some(notice) = notice_in(happened) {
            tell(notice);
        }
        if let Some(ended) = end_in(happened) {
            target.lose();
            return Ok(ended);
        }
        in_a_row = behind(happened, in_a_row);
        if !lives(target) {
            return Ok(Ended::Done);
        }
    }
    let error = io::Error::from(ErrorKind::TimedOut);
    Err(PortFault::of_port(listener.port(), error))
}

/// What happened at a port.
#[derive(Clone, Copy)]
enum Happening {
    /// No connection was taken, for a cause that passes.
    InVain(PortCause),
    /// A session ended so.
    Session(AtPort<Ended>),
}

/// Awaits one connection behind so many in a row that were awaited in vain, and serves its session, as `serve_stream` does.
///
/// # Errors
/// `Port` where none can be taken, or used, at a cause that does not pass or behind too many in a row; `NoMemory` where there is none for its
/// buffer. The target is as it was.
fn next<M, L, C>(
    alloc: Global,
    clock: &C,
    target: &mut Target<M>,
    listener: &PortListener<L>,
    rounds: u64,
    in_a_row: u32,
) -> Result<Happening, PortFault>
where
    M: Machine + Drop,
    L: OpenListener,
    L::Stream: Read + Write + OpenStream,
    C: Clock,
    requires { is_open target.old.end ≡ false }
    ensures happens { IfOk result (λ h. Happens M.meaning rounds target.old h target.new) }
    ensures closed { IfOk result (λ h. goes_on_behind h ≡ true → is_open target.new.end ≡ false) }
    ensures err { IfErr result (IsOf (port_of listener.now)) }
    ensures untouched { OnErr result (target.new ≡ target.old) }
{
    let stream = match listener.take(in_a_row) {
        Ok(Taken::Stream(stream)) => stream,
        Ok(Taken::Later(cause)) => return Ok(Happening::InVain(cause)),
        Err(fault) => return Err(fault),
    };
    match halves(alloc, stream) {
        Ok(pipe) => Ok(Happening::Session(serve_halves(clock, target, pipe, rounds))),
        Err(error) if may_pass(error, in_a_row) => { Ok(Happening::InVain(PortCause::of(error))) }
        Err(error) => Err(PortFault::of_port(listener.port(), error)),
    }
}

/// What is told of it.
fn notice_in(happened: Happening) -> Option<Notice>
    ensures { result ≡ notice_in happened }
{
    match happened {
        Happening::InVain(cause) => Some(Notice::Again(cause)),
        Happening::Session(session) => notice_of(session),
    }
}

/// How the session ended, if no other one is served behind it.
fn end_in(happened: Happening) -> Option<Ended>
    ensures { result ≡ end_in happened }
{
    match happened {
        Happening::Session(session) => match session.how {
            Ended::NoMemory | Ended::TurnLimit => Some(session.how),
            Ended::Done | Ended::LostByRead | Ended::LostByWrite | Ended::Refused(_) => None,
        },
        Happening::InVain(_) => None,
    }
}

/// How many connections in a row were awaited in vain behind it, and so many before it.
fn behind(happened: Happening, in_a_row: u32) -> u32 {
    match happened {
        Happening::InVain(_) => in_a_row.saturating_add(1),
        Happening::Session(_) => 0,
    }
}

/// Serves one session of a closed target with the next debugger that comes to a port, as `serve_stream` does.
///
/// # Errors
/// `Port` where no connection can be taken from the port, or used; `NoMemory` where there is none for its buffer. The target is as it was.
pub fn serve_next<M, L, C>(
    alloc: Global,
    clock: &C,
    target: &mut Target<M>,
    listener: &PortListener<L>,
    rounds: u64,
) -> Result<AtPort<Ended>, PortFault>
where
    M: Machine + Drop,
    L: OpenListener,
    L::Stream: Read + Write + OpenStream,
    C: Clock,
    requires { is_open target.old.end ≡ false }
    ensures served { IfOk result (λ session. IsSession M.meaning rounds target.old session.how target.new) }
    ensures failure { IfOk result (λ session. FailsOnlyLost session.how session.failure) }
    ensures closed { IfOk result (λ session. goes_on session.how ≡ true → is_open target.new.end ≡ false) }
    ensures err { IfErr result (IsOf (port_of listener.now)) }
    ensures untouched { OnErr result (target.new ≡ target.old) }
{
    let stream = match listener.accept() {
        Ok(stream) => stream,
        Err(fault) => return Err(fault),
    };
    serve_stream(alloc, clock, target, listener.port(), stream, rounds)
}

/// Serves one session of a closed target on a connection at this port for at most so many rounds, as `serve` does, and closes the
/// connection. The other end can read all that was written, unless the session was lost, if it reads on. Where the session was lost since the
/// connection failed, why it did is told.
///
/// # Errors
/// `Port` where the system gives no second half of the connection; `NoMemory` where there is none for its buffer. The target is as it was.
pub fn serve_stream<M, S, C>(
    alloc: Global,
    clock: &C,
    target: &mut Target<M>,
    port: u16,
    stream: S,
    rounds: u64,
) -> Result<AtPort<Ended>, PortFault>
where
    M: Machine + Drop,
    S: Read + Write + OpenStream + Drop,
    C: Clock,
    requires { is_open target.old.end ≡ false }
    ensures served { IfOk result (λ session. IsSession M.meaning rounds target.old session.how target.new) }
    ensures failure { IfOk result (λ session. FailsOnlyLost session.how session.failure) }
    ensures closed { IfOk result (λ session. goes_on session.how ≡ true → is_open target.new.end ≡ false) }
    ensures err { IfErr result (IsOf port) }
    ensures untouched { OnErr result (target.new ≡ target.old) }
{
    match halves(alloc, stream) {
        Ok(pipe) => Ok(serve_halves(clock, target, pipe, rounds)),
        Err(error) => Err(PortFault::of_port(port, error)),
    }
}

/// Serves one session of a closed target on both halves of a connection, and closes it.
fn serve_halves<M, S, C>(
    clock: &C,
    target: &mut Target<M>,
    mut pipe: Halves<S>,
    rounds: u64,
) -> AtPort<Ended>
where
    M: Machine + Drop,
    S: Read + Write + OpenStream + Drop,
    C: Clock,
    requires closed { is_open target.old.end ≡ false }
    requires new { story_of pipe ≡ empty_story }
    ensures served { IsSession M.meaning rounds target.old result.how target.new }
    ensures failure { FailsOnlyLost result.how result.failure }
    ensures closed { goes_on result.how ≡ true → is_open target.new.end ≡ false }
{
    let how = serve(target, &mut pipe, rounds);
    let failure = close(clock, pipe, how);
    AtPort { how, failure }
}

/// Whether a thread of the machine lives. Where none does the machine is dead.
fn lives<M: Machine + Drop>(target: &Target<M>) -> bool
    ensures { result ≡ lives M.meaning target.now }
{
    !target.live().is_empty()
}
