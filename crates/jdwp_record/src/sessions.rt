//! Sessions at a port, one after the other.
ghost use Rattle.std.specs.Prelude.{◌≡◌, IfErr, IfOk};

use crate::faults::RecordFault;
use crate::naming::file_name;
use crate::notices::RecordNotice;
use crate::recording::{Recording, Session};
use jdwp_port::{PortCause, PortFault, PortListener, Taken, connect, may_pass, pause};
use std::fs;
use std::net::Net;
use std::rt::{Clock, Files};

/// What stands between the debuggers that come to a port and a target at another one, and writes down what they say.
#[derive(Clone, Copy, Debug)]
pub struct Recorder<'a> {
    /// The port of 127.0.0.1 at which the target listens.
    target: u16,
    /// The name of the file of the first session.
    to: &'a str,
    /// The number of the next session.
    number: u32,
    /// How many calls in a row took no connection.
    in_a_row: u32,
}

impl<'a> Recorder<'a> {
    ghost use Rattle.jdwp_record.specs.Recorders.{Records, new_recorder};

    /// Before the target at this port of 127.0.0.1, 1 to 65,535, with no session yet. The first session goes to the file `to`, and each other
    /// has its number behind a dot behind the name, as `FILE.2`.
    pub fn new(target: u16, to: &'a str) -> Recorder<'a>
        ensures { result ≡ new_recorder target to.entry }
    {
        Recorder {
            target,
            to,
            number: 1,
            in_a_row: 0,
        }
    }

    /// Takes the next debugger that comes to this port, connects it to the target, and makes the file of its capture: one that was there is
    /// emptied. The session is then for the caller to run. A debugger that comes meanwhile waits until the next call.
    ///
    /// Where no connection is taken for a cause that passes, and where the target can't be reached, no file is made; the debugger's
    /// connection is closed then. The next call is for the next one.
    ///
    /// # Errors
    /// `Port` where no connection is taken, at a cause that does not pass or behind too many in a row; `NoFile` and `NoMemory`. The connections of
    /// the session are closed then, and the next call is for the same session's number.
    pub fn begin_next<R: Files + Clock + AllocGlobal, N: Net>(
        &mut self,
        rt: &R,
        net: &N,
        listener: &PortListener<N::Listener>,
    ) -> Result<RecordNotice<N::Stream, R::File>, RecordFault>
        ensures ok { IfOk result (λ notice. Records self.old notice self.new) }
        ensures err { IfErr result (λ fault. self.new ≡ self.old) }
    {
        pause(rt, self.in_a_row);
        let happening = take_connection(rt, net, listener, self)?;
        Ok(self.count(happening))
    }

    /// Counts what happened, and tells it.
    fn count<S, W>(&mut self, happening: Happening<S, W>) -> RecordNotice<S, W>
        ensures { Records self.old result self.new }
    {
        match happening {
            Happening::InVain(cause) => {
                self.in_a_row = self.in_a_row.saturating_add(1);
                RecordNotice::Again(cause)
            }
            Happening::Unreached(cause) => {
                self.in_a_row = 0;
                RecordNotice::Unreached(self.target, cause)
            }
            Happening::Begun(session) => {
                let number = self.number;
                self.in_a_row = 0;
                self.number = number.saturating_add(1);
                RecordNotice::Begun(number, session)
            }
        }
    }
}

/// What came of one call that was to take a connection and begin its session.
#[derive(Drop)]
enum Happening<S, W> {
    /// Nothing, for a cause that passes.
    InVain(PortCause),
    /// The target was not reached.
    Unreached(PortCause),
    /// A session begins.
    Begun(Recording<S, W>),
}

/// Takes the next connection, and begins its session.
fn take_connection<R: Files + AllocGlobal, N: Net>(
    rt: &R,
    net: &N,
    listener: &PortListener<N::Listener>,
    recorder: &Recorder<'_>,
) -> Result<Happening<N::Stream, R::File>, RecordFault> {
    let in_a_row = recorder.in_a_row;
    let debugger = match listener.take(in_a_row)? {
        Taken::Stream(stream) => stream,
        Taken::Later(cause) => return Ok(Happening::InVain(cause)),
    };
    let target = match connect(net, recorder.target) {
        Ok(stream) => stream,
        Err(PortFault::Port(_, cause)) => return Ok(Happening::Unreached(cause)),
        Err(PortFault::NoMemory) => return Err(RecordFault::NoMemory),
    };
    let session = match Session::new(rt.alloc(), net, debugger, target) {
        Ok(session) => session,
        Err(error) if may_pass(error, in_a_row) => {
            return Ok(Happening::InVain(PortCause::of(error)));
        }
        Err(error) => return Err(RecordFault::from(PortFault::of_port(listener.port(), error))),
    };
    let (file, name) = make_file(rt, recorder)?;
    Ok(Happening::Begun(Recording::new(rt.alloc(), session, file, name)))
}

/// The file of the next session, which is empty, and its name.
fn make_file<R: Files + AllocGlobal>(
    rt: &R,
    recorder: &Recorder<'_>,
) -> Result<(R::File, String), RecordFault> {
    let Ok(name) = file_name(rt.alloc(), recorder.to, recorder.number) else {
        return Err(RecordFault::NoMemory);
    };
    match fs::create(rt, name.as_str()) {
        Ok(file) => Ok((file, name)),
        Err(error) => Err(RecordFault::NoFile(name, error)),
    }
}
