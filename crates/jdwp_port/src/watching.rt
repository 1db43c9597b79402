//! Readers and writers that keep why they failed.
ghost use Rattle.std.specs.Prelude.{◌≡◌, ◌≤◌, ◌<◌, length, true, None, is_some, IfErr, IfOk};
ghost use Rattle.std.specs.Io.KnownBytes.{Keeps, ReadConsumes, WriteAppends};
ghost use Rattle.jdwp_port.specs.Watching.{Notes, failure_of, inner_of};

use std::io;
use std::io::{ErrorKind, Read, Write};

/// A reader or a writer that keeps the error of the first of its calls that failed and was not just interrupted. A write that takes none of
/// some bytes counts as failed.
#[derive(Drop)]
pub struct Watched<T> {
    inner: T,
    failure: Option<io::Error>,
}

impl<T> Watched<T> {
    /// Of this reader or writer, none of whose calls has failed.
    pub fn new(inner: T) -> Watched<T>
        ensures inner { inner_of result ≡ inner }
        ensures failure { failure_of result ≡ None }
    {
        Watched {
            inner,
            failure: None,
        }
    }

    /// The reader or writer itself.
    pub fn get_ref(&self) -> &T
        ensures { result.now ≡ inner_of self.now }
    {
        &self.inner
    }

    /// The reader or writer itself, of which nothing is kept any more.
    pub fn into_inner(self) -> T
        ensures { result ≡ inner_of self }
    {
        self.inner
    }

    /// The error of the first call that failed.
    pub fn failure(&self) -> Option<io::Error>
        ensures { result ≡ failure_of self.now }
    {
        self.failure
    }

    /// Keeps the error, where it is the first and says more than that a call was interrupted.
    fn note(&mut self, error: io::Error)
        ensures inner { inner_of self.new ≡ inner_of self.old }
        ensures failure { Notes (failure_of self.old) error (failure_of self.new) }
    {
        if self.failure.is_none() && error.kind() != ErrorKind::Interrupted {
            self.failure = Some(error);
        }
    }
}

impl<R: Read> Read for Watched<R> {
    ghost remaining = { λ w. R.remaining (inner_of w) };

    fn read(&mut self, buffer: &mut [u8]) -> io::Result<usize>
        ensures bound { IfOk result (λ count. count ≤ length buffer.new) }
        ensures bytes { ReadConsumes (R.remaining (inner_of self.old))
            (R.remaining (inner_of self.new)) result buffer.new }
        ensures noted { IfErr result (λ error. Notes (failure_of self.old) error
            (failure_of self.new)) }
    {
        let read = self.inner.read(buffer);
        if let Err(error) = read {
            self.note(error);
        }
        read
    }
}

impl<W: Write> Write for Watched<W> {
    ghost contents = { λ w. W.contents (inner_of w) };

    fn write(&mut self, bytes: &[u8]) -> io::Result<usize>
        ensures bound { IfOk result (λ count. count ≤ length bytes.now) }
        ensures bytes { WriteAppends (W.contents (inner_of self.old))
            (W.contents (inner_of self.new)) result bytes.now }
        ensures noted { IfErr result (λ error. Notes (failure_of self.old) error
            (failure_of self.new)) }
        ensures none { IfOk result (λ count. count ≡ 0 → 0 < length bytes.now
            → is_some (failure_of self.new) ≡ true) }
        ensures some { IfOk result (λ count. 0 < count
            → failure_of self.new ≡ failure_of self.old) }
    {
        let written = self.inner.write(bytes);
        match written {
            Ok(0) if !bytes.is_empty() => self.note(io::Error::from(ErrorKind::WriteZero)),
            Ok(_) => {}
            Err(error) => self.note(error),
        }
        written
    }

    fn flush(&mut self) -> io::Result<()>
        ensures bytes { Keeps (W.contents (inner_of self.old)) (W.contents (inner_of self.new)) }
        ensures noted { IfErr result (λ error. Notes (failure_of self.old) error
            (failure_of self.new)) }
    {
        let flushed = self.inner.flush();
        if let Err(error) = flushed {
            self.note(error);
        }
        flushed
    }
}
