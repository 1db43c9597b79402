//! What an engine reads from and writes to.
ghost use Rattle.std.specs.Prelude.{◌≡◌, ◌≤◌, length, IfOk};
ghost use Rattle.jdwp_end.specs.Story.{Story, after_flush, after_read, after_write};

use std::io;

/// A reader and a writer, seen by what went through them.
///
/// Its story tells the bytes that were read, the bytes that were written and those of them behind the last flush, how many reads had
/// room for a byte, before how many of those something was not flushed, how many of them gave 0, how many reads failed, and how many
/// writes and flushes did.
pub trait Pipe {
    ghost story: { Self → Story };

    /// Reads some bytes into the front of the buffer, and answers how many. 0 in a buffer with room is the end of the
    /// input. Nothing is flushed.
    ///
    /// An error is the reader's. Then nothing was read, and the buffer's bytes mean nothing.
    fn read(&mut self, buffer: &mut [u8]) -> io::Result<usize>
        ensures within { IfOk result (λ n. n ≤ length buffer.new) }
        ensures story { story self.new ≡ after_read (story self.old) result buffer.new };

    /// Writes some bytes from the front of these, and answers how many. 0 of some bytes counts as a write that failed.
    ///
    /// An error is the writer's. Then nothing was written.
    fn write(&mut self, bytes: &[u8]) -> io::Result<usize>
        ensures within { IfOk result (λ n. n ≤ length bytes.now) }
        ensures story { story self.new ≡ after_write (story self.old) result bytes.now };

    /// Sees that what was written leaves, where it stands in a buffer. A flush that fails counts as a write that failed.
    ///
    /// An error is the writer's.
    fn flush(&mut self) -> io::Result<()>
        ensures { story self.new ≡ after_flush (story self.old) result };
}
