//! A network, its sockets and a clock that note what is asked of them.
use std::cell::Cell;
use std::io;
use std::io::{Read, Write};
use std::net::{Ipv4Addr, Net, OpenListener, OpenStream, Shutdown, SocketAddr};
use std::os::fd::{AsRawFd, RawFd};
use std::rt::Clock;
use std::time::Duration;

/// What was asked of a network, a socket or the clock.
#[derive(Clone, Copy, Debug, PartialEq, Eq)]
pub(crate) enum Asked {
    /// To listen at this address.
    Bind(SocketAddr),
    /// A connection to this address.
    Connect(SocketAddr),
    /// That what is written leaves at once, or not.
    NoDelay(bool),
    /// A second half.
    Clone,
    /// To end a half.
    Shutdown(Shutdown),
    /// That a read waits for so long at most.
    Timeout(Option<Duration>),
    /// A read of so many bytes, behind the end of the writing half.
    Read(usize),
    /// That the thread sleeps for so long.
    Sleep(Duration),
}

/// What comes from the other end once this one has ended its writing half.
#[derive(Clone, Copy)]
pub(crate) enum Behind {
    /// The end.
    End,
    /// As many bytes as are asked for, at each read.
    Bytes,
    /// A byte at each read, which takes so long.
    Slowly(Duration),
}

/// What was asked, and what comes.
#[derive(Drop)]
pub(crate) struct Record {
    asked: Cell<Option<Vec<Asked>>>,
    time: Cell<Option<Duration>>,
    /// What comes in a session, in each of them; and the error behind it, if it is not the end.
    input: Cell<&'static [u8]>,
    error: Cell<Option<i32>>,
    behind: Cell<Behind>,
    is_shut: Cell<bool>,
    /// How many second halves are refused, since too many files are open.
    refuses: Cell<u32>,
}

impl Record {
    /// Of sessions in which this comes, and then this; nothing was asked yet.
    pub(crate) fn new(asked: Vec<Asked>, input: &'static [u8], behind: Behind) -> Record {
        Record {
            asked: Cell::new(Some(asked)),
            time: Cell::new(Some(Duration::from_secs(5))),
            input: Cell::new(input),
            error: Cell::new(None),
            behind: Cell::new(behind),
            is_shut: Cell::new(false),
            refuses: Cell::new(0),
        }
    }

    /// From now on a session's reads fail so behind what comes.
    pub(crate) fn fail(&self, number: i32) {
        self.error.set(Some(number));
    }

    /// So many second halves are refused from now on.
    pub(crate) fn refuse(&self, count: u32) {
        self.refuses.set(count);
    }

    /// From now on nobody tells the time.
    pub(crate) fn stop_clock(&self) {
        self.time.set(None);
    }

    /// What was asked.
    pub(crate) fn asked(&self) -> Option<Vec<Asked>> {
        self.asked.replace(None)
    }

    fn note(&self, asked: Asked) {
        if let Some(mut all) = self.asked.replace(None) {
            let _ = all.push(asked);
            self.asked.set(Some(all));
        }
    }

    fn pass(&self, duration: Duration) {
        if let Some(time) = self.time.get() {
            self.time.set(Some(time.saturating_add(duration)));
        }
    }
}

impl Clock for Record {
    fn monotonic(&self) -> io::Result<Duration> {
        self.since_1970()
    }

    fn since_1970(&self) -> io::Result<Duration> {
        match self.time.get() {
            Some(time) => Ok(time),
            None => Err(io::Error::from(io::ErrorKind::Unsupported)),
        }
    }

    fn sleep(&self, duration: Duration) {
        self.note(Asked::Sleep(duration));
        self.pass(duration);
    }
}

/// A half of a connection.
#[derive(Drop)]
pub(crate) struct Stream<'a> {
    record: &'a Record,
    input: &'static [u8],
}

impl<'a> Stream<'a> {
    pub(crate) fn new(record: &'a Record) -> Stream<'a> {
        record.is_shut.set(false);
        Stream {
            record,
            input: record.input.get(),
        }
    }
}

impl Read for Stream<'_> {
    fn read(&mut self, buffer: &mut [u8]) -> io::Result<usize> {
        if !self.record.is_shut.get() {
            return match self.record.error.get() {
                Some(number) if self.input.is_empty() => Err(io::Error::from_raw_os_error(number)),
                _ => self.input.read(buffer),
            };
        }
        self.record.note(Asked::Read(buffer.len()));
        match self.record.behind.get() {
            Behind::End => Ok(0),
            Behind::Bytes => Ok(buffer.len()),
            Behind::Slowly(time) => {
                self.record.pass(time);
                Ok(buffer.len().min(1))
            }
        }
    }
}

impl Write for Stream<'_> {
    fn write(&mut self, bytes: &[u8]) -> io::Result<usize> {
        Ok(bytes.len())
    }

    fn flush(&mut self) -> io::Result<()> {
        Ok(())
    }
}

impl OpenStream for Stream<'_> {
    fn shutdown(&self, how: Shutdown) -> io::Result<()> {
        self.record.note(Asked::Shutdown(how));
        self.record.is_shut.set(true);
        Ok(())
    }

    fn set_nodelay(&self, nodelay: bool) -> io::Result<()> {
        self.record.note(Asked::NoDelay(nodelay));
        Ok(())
    }

    fn set_read_timeout(&self, timeout: Option<Duration>) -> io::Result<()> {
        self.record.note(Asked::Timeout(timeout));
        Ok(())
    }

    fn try_clone(&self) -> io::Result<Self> {
        let refuses = self.record.refuses.get();
        if refuses > 0 {
            self.record.refuses.set(refuses - 1);
            return Err(io::Error::from_raw_os_error(24));
        }
        self.record.note(Asked::Clone);
        Ok(Stream {
            record: self.record,
            input: self.input,
        })
    }
}

impl AsRawFd for Stream<'_> {
    fn as_raw_fd(&self) -> RawFd {
        -1
    }
}

/// A listener whose calls fail with these errors of the system, one after the other, or give a connection where there is none; each further
/// one is not allowed.
#[derive(Drop)]
pub(crate) struct Listener<'a> {
    record: &'a Record,
    errors: &'static [Option<i32>],
    calls: Cell<usize>,
}

impl<'a> Listener<'a> {
    pub(crate) fn new(record: &'a Record, errors: &'static [Option<i32>]) -> Listener<'a> {
        Listener {
            record,
            errors,
            calls: Cell::new(0),
        }
    }
}

impl<'a> OpenListener for Listener<'a> {
    type Stream = Stream<'a>;

    fn accept(&self) -> io::Result<(Stream<'a>, SocketAddr)> {
        let call = self.calls.get();
        self.calls.set(call.saturating_add(1));
        match self.errors.get(call) {
            Some(None) => Ok((Stream::new(self.record), address(50_000))),
            Some(Some(number)) => Err(io::Error::from_raw_os_error(*number)),
            None => Err(io::Error::from_raw_os_error(13)),
        }
    }

    fn local_addr(&self) -> io::Result<SocketAddr> {
        Ok(address(40_000))
    }
}

impl AsRawFd for Listener<'_> {
    fn as_raw_fd(&self) -> RawFd {
        -1
    }
}

/// This port of this machine.
pub(crate) fn address(port: u16) -> SocketAddr {
    SocketAddr::from((Ipv4Addr::new(127, 0, 0, 1), port))
}

/// A network of one listener and one connection.
#[derive(Drop)]
pub(crate) struct Network<'a> {
    pub record: &'a Record,
}

impl<'a> Net for Network<'a> {
    type Stream = Stream<'a>;

    type Listener = Listener<'a>;

    fn bind(&self, address: SocketAddr) -> io::Result<Listener<'a>> {
        self.record.note(Asked::Bind(address));
        Ok(Listener::new(self.record, &[]))
    }

    fn connect(&self, address: SocketAddr) -> io::Result<Stream<'a>> {
        self.record.note(Asked::Connect(address));
        Ok(Stream::new(self.record))
    }
}
