//! Pipes that wait for nobody.
ghost use Rattle.std.specs.Prelude.{◌≡◌, ◌≤◌, length, IfOk};
ghost use Rattle.jdwp_end.specs.Story.{after_flush, after_read, after_write};

use jdwp_client::LimitedPipe;
use jdwp_end::Pipe;
use std::io;

/// A pipe that has no limit of time, whatever is set: one whose calls wait for nobody, as those of files.
#[derive(Drop)]
pub struct Unlimited<P> {
    /// The pipe.
    pub pipe: P,
}

impl<P: Pipe> Pipe for Unlimited<P> {
    ghost story = { λ u. P.story u.pipe };

    fn read(&mut self, buffer: &mut [u8]) -> io::Result<usize>
        ensures within { IfOk result (λ n. n ≤ length buffer.new) }
        ensures story { P.story self.new.pipe ≡ after_read (P.story self.old.pipe) result buffer.new }
    {
        self.pipe.read(buffer)
    }

    fn write(&mut self, bytes: &[u8]) -> io::Result<usize>
        ensures within { IfOk result (λ n. n ≤ length bytes.now) }
        ensures story { P.story self.new.pipe ≡ after_write (P.story self.old.pipe) result bytes.now }
    {
        self.pipe.write(bytes)
    }

    fn flush(&mut self) -> io::Result<()>
        ensures { P.story self.new.pipe ≡ after_flush (P.story self.old.pipe) result }
    {
        self.pipe.flush()
    }
}

impl<P: Pipe> LimitedPipe for Unlimited<P> {
    fn limit(&mut self, _milliseconds: Option<u64>)
        ensures { P.story self.new.pipe ≡ P.story self.old.pipe }
    {}

    fn is_late(&self) -> bool {
        false
    }
}
