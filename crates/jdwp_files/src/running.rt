//! The program, over a runtime and two writers.
ghost use Rattle.std.specs.Prelude.{◌≡◌, ◌≤◌, false};
ghost use Rattle.jdwp_words.specs.Commands.{runs_plan};
ghost use Rattle.jdwp_program.specs.Outputs.{Leaves, LeavesCaptureTold, LeavesOutcome};

use crate::drawing::draw_file;
use crate::files::{attach_files, capture_file, check_file, serve_files, show_file};
use crate::memory::keep_freed_memory;
use crate::recording::record_sessions;
use crate::sessions::{attach_port, pair_files, serve_live_port, serve_port};
use jdwp_program::{
    Attach, Fault, Outcome, Pair, Peer, ServeScript, TellFault, Told, Words, report_fault,
    report_outcome, tell_version,
};
use std::convert::AsStr;
use std::io::Write;
use std::net::Net;
use std::rt::{Clock, Files};

/// Runs the words, the first of which is the program's name, and answers the exit status.
///
/// 0: done, by Dispose, the machine's death or a plan that is finished, a session that was recorded, a capture without a fault, or the version. 1: words that are refused or ask for
/// help, a file that can't be opened or made or is not UTF-8, a script, a plan, a line of it or bytes that are refused, or a capture with
/// a fault. 2: a file ended before its session did, or it, the output or the file of test cases can't be read or written. 3: no memory. 4: all
/// rounds or turns were used, or nothing more can happen, but by a plan in words. 5: something else was told than a plan in words expects, or its last
/// line was not reached. Each of 1 to 5 is told on `err` behind `jdwp: `, but for the fault of a capture, which `out` tells, and where who reads `out`
/// went away.
pub fn run<R, S, O, E>(rt: &R, words: &[S], out: &mut O, err: &mut E) -> u8
where
    R: Files + Clock + AllocGlobal + Net,
    S: AsStr,
    O: Write,
    E: Write,
    ensures bound { result ≤ 5 }
    // Unless the command runs a plan, on `out` is nothing, or what is told of a capture: all of it, the status saying whether it has a
    // fault, or a beginning; or the same of a recording, or its capture; or the program's version, or the line of a port and behind it
    // captures in words, or a beginning of it.
    ensures leaves { runs_plan S.text words.now ≡ false
        → Leaves result (O.contents out.old) (O.contents out.new) }
{
    match execute(rt, words, out, err) {
        Ok(outcome) => report_outcome(outcome, err),
        Err(fault) => report_fault(&fault, err),
    }
}

fn execute<'a, R, S, O, E>(
    rt: &R,
    words: &'a [S],
    out: &mut O,
    err: &mut E,
) -> Result<Outcome<'a>, Fault<'a>>
where
    R: Files + Clock + AllocGlobal + Net,
    S: AsStr,
    O: Write,
    E: Write,
    ensures { runs_plan S.text words.now ≡ false → LeavesOutcome result (O.contents out.old)
        (O.contents out.new) }
{
    match jdwp_words::read(rt.alloc(), words)? {
        Words::ServeScript(words) => serve(rt, &words, out, err),
        Words::Attach(words) => attach(rt, &words, out, err),
        Words::Pair(words) => pair(rt, &words, out, err),
        Words::Show(words) => Ok(Outcome::Capture(show_file(rt, &words, out, err)?)),
        Words::Check(words) => Ok(Outcome::Capture(check_file(rt, &words, out, err)?)),
        Words::Capture(words) => Ok(Outcome::Capture(capture_file(rt, &words, out, err)?)),
        Words::Draw(words) => Ok(Outcome::Capture(draw_file(rt, &words, out, err)?)),
        Words::Record(words) => record_sessions(rt, &words, out, err),
        Words::Version => Ok(Outcome::Version(version(out)?)),
    }
}

/// Tells the program's version.
fn version<'a, O: Write>(out: &mut O) -> Result<Told, Fault<'a>>
    ensures { LeavesCaptureTold result (O.contents out.old) (O.contents out.new) }
{
    match tell_version(out) {
        Ok(told) => Ok(told),
        Err(TellFault::Output(error)) => Err(Fault::Output(error)),
        Err(TellFault::NoMemory) => Err(Fault::NoMemory),
    }
}

/// Serves the session of a file, or those of a port.
fn serve<'a, R: Files + Clock + AllocGlobal + Net, O: Write, E: Write>(
    rt: &R,
    words: &ServeScript<'a>,
    out: &mut O,
    err: &mut E,
) -> Result<Outcome<'a>, Fault<'a>>
    ensures { LeavesOutcome result (O.contents out.old) (O.contents out.new) }
{
    keep_freed_memory(rt.alloc(), &words.settings.limits());
    match words.peer {
        Peer::Files(files) => serve_files(rt, words, &files),
        Peer::Port(port) => match words.live {
            Some(pace) => serve_live_port(rt, words, port, pace, out, err),
            None => serve_port(rt, words, port, err),
        },
    }
}

/// Runs a plan as the debugger of the session of a file, or at a port.
fn attach<'a, R: Files + Clock + AllocGlobal + Net, O: Write, E: Write>(
    rt: &R,
    words: &Attach<'a>,
    out: &mut O,
    err: &mut E,
) -> Result<Outcome<'a>, Fault<'a>> {
    keep_freed_memory(rt.alloc(), &words.limits);
    match words.peer {
        Peer::Files(files) => attach_files(rt, words, &files, out, err),
        Peer::Port(port) => attach_port(rt, words, port, out, err),
    }
}

/// Runs a plan with both ends in this process.
fn pair<'a, R: Files + Clock + AllocGlobal + Net, O: Write, E: Write>(
    rt: &R,
    words: &Pair<'a>,
    out: &mut O,
    err: &mut E,
) -> Result<Outcome<'a>, Fault<'a>> {
    keep_freed_memory(rt.alloc(), &words.settings.limits());
    pair_files(rt, words, out, err)
}
