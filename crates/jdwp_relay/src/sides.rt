//! Where bytes come from, and where they go.
ghost use Rattle.std.specs.Prelude.{◌≡◌, ◌<◌, length};
ghost use Rattle.jdwp_relay.specs.Flows.{Fits, Inflow, IsWithin, Outflow, after_end, after_read, after_write};

/// How a side ends what it sends.
#[derive(Clone, Copy, Debug, PartialEq, Eq)]
pub enum Ending {
    /// It sends no more, and may still read.
    HalfClose,
    /// The connection is gone, both ways.
    Reset,
}

/// What came at a read.
#[derive(Clone, Copy, Debug, PartialEq, Eq)]
pub enum Came {
    /// So many bytes, one at least.
    Bytes(usize),
    /// No byte is there now.
    Nothing,
    /// The end of the input, or that the source is lost.
    Ended(Ending),
}

/// What came of a write.
#[derive(Clone, Copy, Debug, PartialEq, Eq)]
pub enum Took {
    /// So many bytes were taken, one at least.
    Bytes(usize),
    /// None is taken now.
    Nothing,
    /// None will be taken any more.
    Lost,
}

/// Where bytes come from. No read waits.
pub trait Source {
    /// What was read.
    ghost came: { Self → Inflow };

    /// Reads some bytes into the front of the buffer, which has room, and says what came.
    fn read(&mut self, buffer: &mut [u8]) -> Came
        requires { 0 < length buffer.old }
        ensures fits { Fits result (length buffer.new) }
        ensures came { came self.new ≡ after_read (came self.old) result buffer.new };
}

/// Where bytes go. No write waits.
pub trait Sink {
    /// What was taken, and how it was ended.
    ghost went: { Self → Outflow };

    /// Writes some bytes from the front of these, of which there is one at least, and says how many were taken.
    fn write(&mut self, bytes: &[u8]) -> Took
        requires { 0 < length bytes.now }
        ensures within { IsWithin result (length bytes.now) }
        ensures went { went self.new ≡ after_write (went self.old) result bytes.now };

    /// Hands on how the other side ended what it sends. Nothing is written behind it.
    fn end(&mut self, ending: Ending)
        ensures { went self.new ≡ after_end (went self.old) ending };
}
