//! A network whose peers say what they are told to, and a clock that goes on while somebody waits.
use std::cell::Cell;
use std::io;
use std::io::{ErrorKind, Read, Write};
use std::net::{Net, OpenListener, OpenStream, Shutdown, SocketAddr};
use std::os::fd::{AsRawFd, RawFd};
use std::rt::Clock;
use std::time::Duration;

/// What was asked of the network or the clock, or done, and when where it says so, in milliseconds.
#[derive(Clone, Copy, Debug, PartialEq, Eq)]
pub(crate) enum Asked {
    /// To listen at this port.
    Listens(u16),
    /// A connection, which came.
    Takes,
    /// To listen no more.
    Stops,
    /// A write of so many bytes.
    Wrote(u64, usize),
    /// To end a half.
    Ends(Shutdown),
    /// That nothing happens for so long.
    Sleeps(u64),
}

/// What comes from a peer, so many milliseconds behind the beginning of its connection.
#[derive(Clone, Copy, Debug)]
pub(crate) enum Comes {
    /// These bytes.
    Bytes(u64, &'static [u8]),
    /// This error of the system.
    Fails(u64, i32),
}

impl Comes {
    /// How long behind the beginning.
    fn after(&self) -> Duration {
        match self {
            Comes::Bytes(millis, _) | Comes::Fails(millis, _) => Duration::from_millis(*millis),
        }
    }
}

/// What comes from a peer, behind which it closes its connection.
pub(crate) type Peer = &'static [Comes];

/// The peers, one after the other, and what was asked.
#[derive(Drop)]
pub(crate) struct Record {
    asked: Cell<Option<Vec<Asked>>>,
    written: Cell<Option<Vec<u8>>>,
    time: Cell<Duration>,
    peers: Cell<&'static [Peer]>,
    /// With what error each call to listen fails, or with none.
    listens: Cell<&'static [Option<i32>]>,
    /// Whether a read waits, and for how long at most.
    waits: Cell<bool>,
    limit: Cell<Option<Duration>>,
}

impl Record {
    /// Of these peers; nothing was asked or written yet.
    pub(crate) fn new(asked: Vec<Asked>, written: Vec<u8>, peers: &'static [Peer]) -> Record {
        Record {
            asked: Cell::new(Some(asked)),
            written: Cell::new(Some(written)),
            time: Cell::new(Duration::ZERO),
            peers: Cell::new(peers),
            listens: Cell::new(&[]),
            waits: Cell::new(true),
            limit: Cell::new(None),
        }
    }

    /// From now on calls to listen fail with these errors, one after the other.
    pub(crate) fn fail(&self, errors: &'static [Option<i32>]) {
        self.listens.set(errors);
    }

    /// What was asked.
    pub(crate) fn asked(&self) -> Option<Vec<Asked>> {
        self.asked.replace(None)
    }

    /// All that was written.
    pub(crate) fn written(&self) -> Option<Vec<u8>> {
        self.written.replace(None)
    }

    fn note(&self, asked: Asked) {
        if let Some(mut all) = self.asked.replace(None) {
            let _ = all.push(asked);
            self.asked.set(Some(all));
        }
    }

    fn write(&self, bytes: &[u8]) {
        self.note(Asked::Wrote(self.millis(), bytes.len()));
        if let Some(mut all) = self.written.replace(None) {
            let _ = all.extend_from_slice(bytes);
            self.written.set(Some(all));
        }
    }

    fn millis(&self) -> u64 {
        millis_of(self.time.get())
    }

    fn pass(&self, duration: Duration) {
        self.time.set(self.time.get().saturating_add(duration));
    }
}

fn millis_of(time: Duration) -> u64 {
    u64::try_from(time.as_millis()).unwrap_or(u64::MAX)
}

impl Clock for Record {
    fn monotonic(&self) -> io::Result<Duration> {
        Ok(self.time.get())
    }

    fn since_1970(&self) -> io::Result<Duration> {
        Ok(self.time.get())
    }

    fn sleep(&self, duration: Duration) {
        self.note(Asked::Sleeps(millis_of(duration)));
        self.pass(duration);
    }
}

/// A half of a connection.
#[derive(Drop)]
pub(crate) struct Stream<'a> {
    record: &'a Record,
    begun: Duration,
    comes: Peer,
}

impl Stream<'_> {
    /// Whether what is due then can be read now, behind a wait if one is made.
    fn is_there(&self, due: Duration) -> bool {
        let left = due.saturating_sub(self.record.time.get());
        if left.is_zero() {
            return true;
        }
        if !self.record.waits.get() {
            return false;
        }
        let wait = match self.record.limit.get() {
            Some(limit) => left.min(limit),
            None => left,
        };
        self.record.pass(wait);
        wait == left
    }
}

impl Read for Stream<'_> {
    fn read(&mut self, buffer: &mut [u8]) -> io::Result<usize> {
        let Some((next, rest)) = self.comes.split_first() else {
            return Ok(0);
        };
        let next = *next;
        if !self.is_there(self.begun.saturating_add(next.after())) {
            return Err(io::Error::from(ErrorKind::WouldBlock));
        }
        self.comes = rest;
        match next {
            Comes::Bytes(_, mut bytes) => bytes.read(buffer),
            Comes::Fails(_, number) => Err(io::Error::from_raw_os_error(number)),
        }
    }
}

impl Write for Stream<'_> {
    fn write(&mut self, bytes: &[u8]) -> io::Result<usize> {
        if !self.record.waits.get() {
            return Err(io::Error::from(ErrorKind::WouldBlock));
        }
        self.record.write(bytes);
        Ok(bytes.len())
    }

    fn flush(&mut self) -> io::Result<()> {
        Ok(())
    }
}

impl OpenStream for Stream<'_> {
    fn shutdown(&self, how: Shutdown) -> io::Result<()> {
        self.record.note(Asked::Ends(how));
        Ok(())
    }

    fn set_nonblocking(&self, nonblocking: bool) -> io::Result<()> {
        self.record.waits.set(!nonblocking);
        Ok(())
    }

    fn set_read_timeout(&self, timeout: Option<Duration>) -> io::Result<()> {
        if timeout == Some(Duration::ZERO) {
            return Err(io::Error::from(ErrorKind::InvalidInput));
        }
        self.record.limit.set(timeout);
        Ok(())
    }

    fn try_clone(&self) -> io::Result<Self> {
        Ok(Stream {
            record: self.record,
            begun: self.begun,
            comes: self.comes,
        })
    }
}

impl AsRawFd for Stream<'_> {
    fn as_raw_fd(&self) -> RawFd {
        -1
    }
}

/// To whom the next peer comes; where there is none, it is not allowed.
pub(crate) struct Listener<'a> {
    record: &'a Record,
}

impl<'a> Listener<'a> {
    pub(crate) fn new(record: &'a Record) -> Listener<'a> {
        Listener { record }
    }
}

impl Drop for Listener<'_> {
    fn drop(self) {
        self.record.note(Asked::Stops);
        let Listener { record: _ } = self;
    }
}

impl<'a> OpenListener for Listener<'a> {
    type Stream = Stream<'a>;

    fn accept(&self) -> io::Result<(Stream<'a>, SocketAddr)> {
        let Some((next, rest)) = self.record.peers.get().split_first() else {
            return Err(io::Error::from_raw_os_error(13));
        };
        self.record.peers.set(rest);
        self.record.note(Asked::Takes);
        self.record.waits.set(true);
        self.record.limit.set(None);
        let stream = Stream {
            record: self.record,
            begun: self.record.time.get(),
            comes: *next,
        };
        Ok((stream, SocketAddr::from(([127, 0, 0, 1], 50_000))))
    }
}

impl AsRawFd for Listener<'_> {
    fn as_raw_fd(&self) -> RawFd {
        -1
    }
}

/// The network itself.
#[derive(Drop)]
pub(crate) struct Network<'a> {
    pub record: &'a Record,
}

impl<'a> Net for Network<'a> {
    type Stream = Stream<'a>;

    type Listener = Listener<'a>;

    fn bind(&self, address: SocketAddr) -> io::Result<Listener<'a>> {
        self.record.note(Asked::Listens(address.port()));
        if let Some((next, rest)) = self.record.listens.get().split_first() {
            self.record.listens.set(rest);
            if let Some(number) = *next {
                return Err(io::Error::from_raw_os_error(number));
            }
        }
        Ok(Listener::new(self.record))
    }

    fn connect(&self, _address: SocketAddr) -> io::Result<Stream<'a>> {
        Err(io::Error::from(ErrorKind::ConnectionRefused))
    }
}
