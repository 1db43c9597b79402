//! Both directions between a debugger and a target, and one capture.
ghost use Rattle.std.specs.Prelude.{◌≡◌, ℕ, List, Option, true, not, IfOk, OnOk};
ghost use Rattle.std.specs.Io.KnownBytes.{Appends};
ghost use Rattle.jdwp_relay.specs.Captures.{WritesFresh, fresh_of, writer_of};
ghost use Rattle.jdwp_relay.specs.Relays.{HasTurned, IsCovered, IsRecorded, IsRelaying, Passes, begun_relay, crossing, heeding, is_done, is_over, is_reset, is_something};

use crate::capture::Capture;
use crate::duct::{Duct, Stage};
use crate::sides::{Came, Ending, Sink, Source};
use jdwp_show::Sender;
use std::alloc::{AllocError, Global};
use std::io;
use std::io::Write;
use thiserror::Error;

/// Both halves of a connection to an end: what it sends, and what is sent to it.
#[derive(Debug, Drop)]
pub struct Halves<S, K> {
    pub source: S,
    pub sink: K,
}

/// Both directions between a debugger and a target.
#[derive(Drop)]
pub struct Relay {
    /// What the debugger sends, to the target.
    pub from_debugger: Duct,
    /// What the target sends, to the debugger.
    pub from_target: Duct,
}

/// Why a relay stands still before both ends are done.
#[derive(Clone, Copy, Debug, Error)]
pub enum RelayFault {
    /// The capture can't be written. No byte was handed on whose line is not written.
    #[error("the capture can't be written: {0}")]
    Capture(io::Error),
    /// Nobody tells when bytes can be moved again.
    #[error("it can't be awaited that bytes can be moved: {0}")]
    Waiting(io::Error),
}

/// What tells when bytes may be moved again.
pub trait Readiness {
    /// Waits until a source that had nothing may have something, or a sink that took nothing may take something.
    fn wait(&mut self) -> io::Result<()>;
}

/// How many turns are taken at most. No program lives that long.
const MOST_TURNS: u64 = u64::MAX;

impl Relay {
    /// Nothing is under way.
    ///
    /// # Errors
    /// Where there is no memory for 64 KB a direction.
    pub fn new(alloc: Global) -> Result<Relay, AllocError>
        ensures { IfOk result (λ relay. relay ≡ begun_relay) }
    {
        Ok(Relay {
            from_debugger: Duct::new(alloc, Sender::Debugger)?,
            from_target: Duct::new(alloc, Sender::Target)?,
        })
    }

    /// Whether there is nothing more to do: each direction has ended or is broken, or a reset was handed on, which ends both.
    pub fn is_over(&self) -> bool
        ensures { result ≡ is_over self.now }
    {
        let up = self.from_debugger.stage();
        let down = self.from_target.stage();
        is_done(up) && is_done(down) || is_reset(up) || is_reset(down)
    }

    /// Moves bytes once in each direction: at most one read and one write. Whether something changed. What was fresh in the capture before is
    /// forgotten.
    ///
    /// # Errors
    /// Where the capture can't be written. Then the direction whose line it was is broken, and no byte was handed on whose line is not written.
    pub fn turn<S: Source, K: Sink, W: Write>(
        &mut self,
        debugger: &mut Halves<S, K>,
        target: &mut Halves<S, K>,
        capture: &mut Capture<W>,
    ) -> io::Result<bool>
        ensures turns { HasTurned self.old
            (crossing S.came K.went debugger.old target.old (W.contents (writer_of capture.old)))
            result self.new
            (crossing S.came K.went debugger.new target.new (W.contents (writer_of capture.new))) }
        // What came is what went and what waits, and endings are handed on as they have to be.
        ensures relaying { IsRelaying self.old
            (crossing S.came K.went debugger.old target.old (W.contents (writer_of capture.old)))
            → IsRelaying self.new
            (crossing S.came K.went debugger.new target.new (W.contents (writer_of capture.new))) }
        // The capture is lines of just what came.
        ensures recorded { OnOk result ((start : Option (List ℕ)) → IsRelaying self.old
            (crossing S.came K.went debugger.old target.old (W.contents (writer_of capture.old)))
            → IsRecorded start
            (crossing S.came K.went debugger.old target.old (W.contents (writer_of capture.old)))
            → IsRecorded start
            (crossing S.came K.went debugger.new target.new (W.contents (writer_of capture.new)))) }
        // What went is a beginning of what its lines hold, where a line was not written whole, too.
        ensures covered { (start : Option (List ℕ)) → IsRelaying self.old
            (crossing S.came K.went debugger.old target.old (W.contents (writer_of capture.old)))
            → IsRecorded start
            (crossing S.came K.went debugger.old target.old (W.contents (writer_of capture.old)))
            → IsCovered start
            (crossing S.came K.went debugger.new target.new (W.contents (writer_of capture.new))) }
        // What `fresh` lends is what this turn wrote.
        ensures fresh { OnOk result (Appends (W.contents (writer_of capture.old))
            (W.contents (writer_of capture.new)) (fresh_of capture.new)) }
    {
        capture.forget();
        let up = pass(
            &mut self.from_debugger,
            self.from_target.stage(),
            &mut debugger.source,
            &mut target.sink,
            capture,
        );
        let up = match up {
            Ok(moved) => moved,
            Err(error) => return Err(error),
        };
        let down = pass(
            &mut self.from_target,
            self.from_debugger.stage(),
            &mut target.source,
            &mut debugger.sink,
            capture,
        );
        match down {
            Ok(moved) => Ok(up || moved),
            Err(error) => Err(error),
        }
    }

    /// One turn, and behind it, where none could be moved and there is more to do, a wait until bytes can be. Whether there is more to do.
    ///
    /// # Errors
    /// `Capture` where the capture can't be written; `Waiting` where a wait fails.
    pub fn step<S: Source, K: Sink, W: Write, R: Readiness>(
        &mut self,
        debugger: &mut Halves<S, K>,
        target: &mut Halves<S, K>,
        capture: &mut Capture<W>,
        readiness: &mut R,
    ) -> Result<bool, RelayFault>
        ensures over { IfOk result (λ goes_on. goes_on ≡ not (is_over self.new)) }
        // What came is what went and what waits, and endings are handed on as they have to be.
        ensures relaying { IsRelaying self.old
            (crossing S.came K.went debugger.old target.old (W.contents (writer_of capture.old)))
            → IsRelaying self.new
            (crossing S.came K.went debugger.new target.new (W.contents (writer_of capture.new))) }
        // The capture is lines of just what came.
        ensures recorded { OnOk result ((start : Option (List ℕ)) → IsRelaying self.old
            (crossing S.came K.went debugger.old target.old (W.contents (writer_of capture.old)))
            → IsRecorded start
            (crossing S.came K.went debugger.old target.old (W.contents (writer_of capture.old)))
            → IsRecorded start
            (crossing S.came K.went debugger.new target.new (W.contents (writer_of capture.new)))) }
        // What went is a beginning of what its lines hold, where a line was not written whole, too.
        ensures covered { (start : Option (List ℕ)) → IsRelaying self.old
            (crossing S.came K.went debugger.old target.old (W.contents (writer_of capture.old)))
            → IsRecorded start
            (crossing S.came K.went debugger.old target.old (W.contents (writer_of capture.old)))
            → IsCovered start
            (crossing S.came K.went debugger.new target.new (W.contents (writer_of capture.new))) }
        // What `fresh` lends is what this turn wrote.
        ensures fresh { OnOk result (Appends (W.contents (writer_of capture.old))
            (W.contents (writer_of capture.new)) (fresh_of capture.new)) }
    {
        let moved = match self.turn(debugger, target, capture) {
            Ok(moved) => moved,
            Err(error) => return Err(RelayFault::Capture(error)),
        };
        if self.is_over() {
            return Ok(false);
        }
        if !moved && let Err(error) = readiness.wait() {
            return Err(RelayFault::Waiting(error));
        }
        Ok(true)
    }

    /// Moves bytes until there is nothing more to do, and waits where none can be moved.
    ///
    /// # Errors
    /// As those of `step`.
    pub fn run<S: Source, K: Sink, W: Write, R: Readiness>(
        &mut self,
        debugger: &mut Halves<S, K>,
        target: &mut Halves<S, K>,
        capture: &mut Capture<W>,
        readiness: &mut R,
    ) -> Result<(), RelayFault>
        ensures over { OnOk result (is_over self.new ≡ true) }
        // What came is what went and what waits, and endings are handed on as they have to be.
        ensures relaying { IsRelaying self.old
            (crossing S.came K.went debugger.old target.old (W.contents (writer_of capture.old)))
            → IsRelaying self.new
            (crossing S.came K.went debugger.new target.new (W.contents (writer_of capture.new))) }
        // The capture is lines of just what came.
        ensures recorded { OnOk result ((start : Option (List ℕ)) → IsRelaying self.old
            (crossing S.came K.went debugger.old target.old (W.contents (writer_of capture.old)))
            → IsRecorded start
            (crossing S.came K.went debugger.old target.old (W.contents (writer_of capture.old)))
            → IsRecorded start
            (crossing S.came K.went debugger.new target.new (W.contents (writer_of capture.new)))) }
        // What went is a beginning of what its lines hold, where a line was not written whole, too.
        ensures covered { (start : Option (List ℕ)) → IsRelaying self.old
            (crossing S.came K.went debugger.old target.old (W.contents (writer_of capture.old)))
            → IsRecorded start
            (crossing S.came K.went debugger.old target.old (W.contents (writer_of capture.old)))
            → IsCovered start
            (crossing S.came K.went debugger.new target.new (W.contents (writer_of capture.new))) }
    {
        if self.is_over() {
            return Ok(());
        }
        for _ in 0..MOST_TURNS {
            if !self.step(debugger, target, capture, readiness)? {
                return Ok(());
            }
        }
        Err(RelayFault::Waiting(io::Error::from(io::ErrorKind::TimedOut)))
    }
}

/// Whether nothing more is handed on.
fn is_done(stage: Stage) -> bool
    ensures { result ≡ is_done stage }
{
    match stage {
        Stage::Ended(_) | Stage::Broken => true,
        Stage::Open | Stage::Ending(_) => false,
    }
}

/// Whether a reset was handed on.
fn is_reset(stage: Stage) -> bool
    ensures { result ≡ is_reset stage }
{
    match stage {
        Stage::Ended(Ending::Reset) => true,
        Stage::Ended(Ending::HalfClose) | Stage::Open | Stage::Ending(_) | Stage::Broken => false,
    }
}

/// Whether something came of a read.
fn is_something(came: Came) -> bool
    ensures { result ≡ is_something came }
{
    match came {
        Came::Bytes(_) | Came::Ended(_) => true,
        Came::Nothing => false,
    }
}

/// Moves bytes once in one direction, where the other has come so far: where that is broken its sink is lost, from which this one's bytes come.
///
/// # Errors
/// Where the capture can't be written. Then nothing is handed on.
fn pass<S: Source, K: Sink, W: Write>(
    duct: &mut Duct,
    other: Stage,
    source: &mut S,
    sink: &mut K,
    capture: &mut Capture<W>,
) -> io::Result<bool>
    ensures passes { Passes duct.old other (S.came source.old) (K.went sink.old)
        (W.contents (writer_of capture.old)) result duct.new (S.came source.new)
        (K.went sink.new) (W.contents (writer_of capture.new)) }
    ensures fresh { OnOk result (WritesFresh (W.contents (writer_of capture.old)) (fresh_of capture.old)
        (W.contents (writer_of capture.new)) (fresh_of capture.new)) }
{
    let came = match duct.take_in(source, capture) {
        Ok(came) => came,
        Err(error) => return Err(error),
    };
    heed(duct, other);
    let handed = duct.hand_on(sink);
    Ok(is_something(came) || handed)
}

/// Where the other direction is broken, a half-close that is to be handed on becomes a reset.
fn heed(duct: &mut Duct, other: Stage)
    ensures { duct.new ≡ heeding other duct.old }
{
    match other {
        Stage::Broken => duct.turn_to_reset(),
        Stage::Open | Stage::Ending(_) | Stage::Ended(_) => {}
    }
}
