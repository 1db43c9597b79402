//! What an engine of live sessions reads from and writes to.
ghost use Rattle.std.specs.Prelude.{◌≡◌, ◌<◌, ◌≤◌, length, IfOk};
ghost use Rattle.jdwp_engine.specs.LiveStory.{Fits, LiveStory, after_flush, after_read, after_write};

use std::io;

/// How long a read waits for its first byte.
#[derive(Clone, Copy, Debug, PartialEq, Eq)]
pub enum Patience {
    /// As long as the other end has for its handshake, from the beginning of the connection on. Then the read fails.
    Handshake,
    /// As long as passes between two steps of the machine. Then nothing came.
    Step,
    /// Until one comes.
    Forever,
}

/// What came at a read.
#[derive(Clone, Copy, Debug, PartialEq, Eq)]
pub enum Came {
    /// So many bytes, one at least.
    Bytes(usize),
    /// No byte in the time, and the input goes on.
    Nothing,
    /// The end of the input.
    End,
}

/// A reader and a writer, where a read need not wait for ever, seen by what went through them.
///
/// Its story tells what went through it, and how long each read was to wait.
pub trait LivePipe {
    ghost story: { Self → LiveStory };

    /// Reads some bytes into the front of the buffer, which has room, and says what came. Bytes that can be read are read at once, whatever the
    /// patience; else it waits for them so long. Nothing is flushed.
    ///
    /// An error is the reader's, or that the handshake did not come in its time. Then nothing was read, and the buffer's bytes mean nothing.
    fn read(&mut self, patience: Patience, buffer: &mut [u8]) -> io::Result<Came>
        requires { 0 < length buffer.old }
        ensures fits { IfOk result (Fits patience (length buffer.new)) }
        ensures story { story self.new ≡ after_read (story self.old) patience result buffer.new };

    /// Writes some bytes from the front of these, and answers how many. 0 of some bytes counts as a write that failed.
    ///
    /// An error is the writer's. Then nothing was written.
    fn write(&mut self, bytes: &[u8]) -> io::Result<usize>
        ensures within { IfOk result (λ n. n ≤ length bytes.now) }
        ensures story { story self.new ≡ after_write (story self.old) result bytes.now };

    /// Sees that what was written leaves, where it stands in a buffer. A flush that fails counts as a write that failed.
    ///
    /// An error is the writer's.
    fn flush(&mut self) -> io::Result<()>
        ensures { story self.new ≡ after_flush (story self.old) result };
}
