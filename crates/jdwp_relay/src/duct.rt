//! One direction: bytes on their way from a source to a sink.
ghost use Rattle.std.specs.Prelude.{◌≡◌, ◌<◌, ◌≤◌, true, IfOk, OnOk, drop, length};
ghost use Rattle.jdwp_relay.specs.Ducts.{is_move};
ghost use Rattle.jdwp_relay.specs.Flows.{count_of};

use crate::capture::Capture;
use crate::sides::{Came, Ending, Sink, Source, Took};
use crate::spans::{make_room, read_behind};
use jdwp_show::Sender;
use std::alloc::{AllocError, Global};
use std::io;
use std::io::Write;
use std::marker::Model;

/// How many bytes wait at most in a direction. Where so many wait its source is not read.
pub const ROOM: usize = 65_536;

/// How far a direction has come.
#[derive(Clone, Copy, Debug, PartialEq, Eq)]
pub enum Stage {
    /// The source goes on.
    Open,
    /// The source has ended so, which is handed on behind the bytes that wait.
    Ending(Ending),
    /// That was handed on.
    Ended(Ending),
    /// The sink is lost, or what came can't be written down. What waits is not handed on.
    Broken,
}

/// One direction between two ends: what was read of one and not taken by the other, and how far it has come.
#[derive(Drop)]
pub struct Duct {
    sender: Sender,
    bytes: Vec<u8>,
    from: usize,
    to: usize,
    stage: Stage,
}

impl Model for Duct {
    ghost use Rattle.std.specs.Prelude.{◌≡◌, ◌≤◌, length};
    ghost use Rattle.jdwp_relay.specs.Passages.{Passage};
    ghost use Rattle.jdwp_relay.specs.Spans.{span};

    ghost Value = { Passage };

    ghost view = { λ d. record {
      sender = d.sender;
      waiting = span d.from d.to d.bytes.items;
      stage = d.stage;
    } };

    ghost invariant = { λ d. (d.from ≤ d.to) × (d.to ≤ 65_536)
        × (length d.bytes.items ≡ 65_536) };
}

impl Duct {
    ghost use Rattle.std.specs.Prelude.{is_some};
    ghost use Rattle.jdwp_relay.specs.Passages.{IsPassed, begun, ending_due, hands_on, reads_on, room, turned, with_stage, with_waiting};
    ghost use Rattle.jdwp_relay.specs.Ducts.{Drains, Ends, Fills, HandsOn, ReadsMore, TakesIn};
    ghost use Rattle.jdwp_relay.specs.Captures.{WritesFresh, fresh_of, writer_of};
    ghost use Rattle.jdwp_relay.specs.Flows.{Inflow, Outflow};

    /// The direction of what this end sends, with nothing under way.
    ///
    /// # Errors
    /// Where there is no memory for 64 KB.
    pub fn new(alloc: Global, sender: Sender) -> Result<Duct, AllocError>
        ensures { IfOk result (λ duct. duct ≡ begun sender) }
    {
        Ok(Duct {
            sender,
            bytes: vec![in alloc; 0; ROOM]?,
            from: 0,
            to: 0,
            stage: Stage::Open,
        })
    }

    /// How far it has come.
    pub fn stage(&self) -> Stage
        ensures { result ≡ self.now.stage }
    {
        self.stage
    }

    /// What was read and not taken, 65,536 bytes at most.
    pub fn waiting(&self) -> &[u8]
        ensures is { result.now ≡ self.now.waiting }
        ensures at_most { length self.now.waiting ≤ room }
    {
        &self.bytes[self.from..self.to]
    }

    /// Reads once, where the source goes on and less than 64 KB wait, and writes down what came as a line of the capture. What came waits then.
    /// No byte is handed on by this call. What came is told; `Nothing` where no read is made.
    ///
    /// # Errors
    /// Where the capture can't be written. Then the direction is broken, and what came is never handed on.
    pub fn take_in<S: Source, W: Write>(
        &mut self,
        source: &mut S,
        capture: &mut Capture<W>,
    ) -> io::Result<Came>
        ensures takes { TakesIn self.old (S.came source.old) (W.contents (writer_of capture.old)) result
            self.new (S.came source.new) (W.contents (writer_of capture.new)) }
        ensures passed { (sink : Outflow) → IsPassed (S.came source.old) sink self.old
            → IsPassed (S.came source.new) sink self.new }
        ensures fresh { OnOk result (WritesFresh (W.contents (writer_of capture.old)) (fresh_of capture.old)
            (W.contents (writer_of capture.new)) (fresh_of capture.new)) }
    {
        if !self.reads_on() {
            return Ok(Came::Nothing);
        }
        let before = self.waiting().len();
        match self.fill(source) {
            Came::Bytes(count) => {
                let written = capture.write_line(self.sender(), &self.waiting()[before..]);
                if let Err(error) = written {
                    self.set_stage(Stage::Broken);
                    return Err(error);
                }
                Ok(Came::Bytes(count))
            }
            Came::Nothing => Ok(Came::Nothing),
            Came::Ended(ending) => Ok(Came::Ended(ending)),
        }
    }

    /// The end whose bytes these are.
    fn sender(&self) -> Sender
        ensures { result ≡ self.now.sender }
    {
        self.sender
    }

    /// Whether the source goes on and there is room for a byte.
    fn reads_on(&self) -> bool
        ensures { result ≡ reads_on self.now }
    {
        match self.stage {
            Stage::Open => self.to - self.from < ROOM,
            Stage::Ending(_) | Stage::Ended(_) | Stage::Broken => false,
        }
    }

    /// Reads once.
    fn fill<S: Source>(&mut self, source: &mut S) -> Came
        requires { reads_on self.old ≡ true }
        ensures { Fills self.old (S.came source.old) result self.new (S.came source.new) }
    {
        let came = self.read_more(source);
        if let Came::Ended(ending) = came {
            self.set_stage(Stage::Ending(ending));
        }
        came
    }

    /// Reads once, and keeps the stage.
    fn read_more<S: Source>(&mut self, source: &mut S) -> Came
        requires { length self.old.waiting < room }
        ensures { ReadsMore self.old (S.came source.old) result self.new (S.came source.new) }
    {
        let (from, to) = make_room(&mut self.bytes, self.from, self.to);
        let came = read_behind(source, &mut self.bytes, from, to);
        self.from = from;
        self.to = to + count_of(came);
        came
    }

    /// From now on it has come so far.
    fn set_stage(&mut self, stage: Stage)
        ensures { self.new ≡ with_stage stage self.old }
    {
        self.stage = stage;
    }

    /// Hands on what the sink takes of what waits, by one write; and where the source has ended and nothing waits any more, that it has. Whether
    /// something changed.
    pub fn hand_on<K: Sink>(&mut self, sink: &mut K) -> bool
        ensures hands { HandsOn self.old (K.went sink.old) result self.new (K.went sink.new) }
        ensures passed { (source : Inflow) → IsPassed source (K.went sink.old) self.old
            → IsPassed source (K.went sink.new) self.new }
    {
        let took = self.drain(sink);
        let ended = self.end(sink);
        is_move(took) || ended
    }

    /// Hands on what the sink takes of what waits, by one write.
    fn drain<K: Sink>(&mut self, sink: &mut K) -> Took
        ensures { Drains self.old (K.went sink.old) result self.new (K.went sink.new) }
    {
        if !self.hands_on() {
            return Took::Nothing;
        }
        let took = sink.write(self.waiting());
        match took {
            Took::Bytes(count) => self.leave(count),
            Took::Nothing => {}
            Took::Lost => self.set_stage(Stage::Broken),
        }
        took
    }

    /// Takes so many bytes off the front of what waits.
    fn leave(&mut self, count: usize)
        requires { count ≤ length self.old.waiting }
        ensures { self.new ≡ with_waiting (drop count self.old.waiting) self.old }
    {
        self.from += count;
    }

    /// Whether there are bytes to be handed on.
    fn hands_on(&self) -> bool
        ensures { result ≡ hands_on self.now }
    {
        match self.stage {
            Stage::Open | Stage::Ending(_) => self.from < self.to,
            Stage::Ended(_) | Stage::Broken => false,
        }
    }

    /// Hands on that the source has ended, where it has and nothing waits. Whether it did.
    fn end<K: Sink>(&mut self, sink: &mut K) -> bool
        ensures ends { Ends self.old (K.went sink.old) self.new (K.went sink.new) }
        ensures told { result ≡ is_some (ending_due self.old) }
    {
        match self.stage {
            Stage::Ending(ending) if self.from == self.to => {
                sink.end(ending);
                self.stage = Stage::Ended(ending);
                true
            }
            _ => false,
        }
    }

    /// From now on a reset is handed on where a half-close was to be, since the side that it came from is lost.
    pub fn turn_to_reset(&mut self)
        ensures turned { self.new ≡ turned self.old }
        ensures passed { (source : Inflow) (sink : Outflow) → IsPassed source sink self.old
            → IsPassed source sink self.new }
    {
        if let Stage::Ending(Ending::HalfClose) = self.stage {
            self.stage = Stage::Ending(Ending::Reset);
        }
    }
}

/// Whether something came of a write.
fn is_move(took: Took) -> bool
    ensures { result ≡ is_move took }
{
    match took {
        Took::Bytes(_) | Took::Lost => true,
        Took::Nothing => false,
    }
}

/// How many bytes came.
fn count_of(came: Came) -> usize
    ensures { result ≡ count_of came }
{
    match came {
        Came::Bytes(count) => count,
        Came::Nothing | Came::Ended(_) => 0,
    }
}
