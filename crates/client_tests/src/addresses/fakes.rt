//! A network, its sockets and a clock that note what is asked of them.
use crate::addresses::packets::{BEGINNING, BREAKPOINT};
use std::cell::Cell;
use std::io;
use std::io::{Read, Write};
use std::net::{Net, OpenListener, OpenStream, SocketAddr};
use std::os::fd::{AsRawFd, RawFd};
use std::rt::Clock;
use std::time::Duration;

/// What was asked of a network or a socket.
#[derive(Clone, Copy, Debug, PartialEq, Eq)]
pub(crate) enum Asked {
    /// The addresses of a name.
    Lookup,
    /// A connection to this address.
    Connect(SocketAddr),
    /// That what is written leaves at once, or not.
    NoDelay(bool),
    /// A second half.
    Clone,
    /// That a read waits for so long at most.
    Timeout(Option<Duration>),
}

/// What was asked, the time, and how many connections are refused.
#[derive(Drop)]
pub(crate) struct Record {
    asked: Cell<Option<Vec<Asked>>>,
    time: Cell<Duration>,
    refuses: Cell<u32>,
}

impl Record {
    /// So many connections are refused, and nothing was asked yet.
    pub(crate) fn new(asked: Vec<Asked>, refuses: u32) -> Record {
        Record {
            asked: Cell::new(Some(asked)),
            time: Cell::new(Duration::from_secs(5)),
            refuses: Cell::new(refuses),
        }
    }

    /// What was asked.
    pub(crate) fn asked(&self) -> Option<Vec<Asked>> {
        self.asked.replace(None)
    }

    fn note(&self, asked: Asked) {
        if let Some(mut all) = self.asked.replace(None) {
            let _ = all.push(asked);
            self.asked.set(Some(all));
        }
    }
}

impl Clock for Record {
    fn monotonic(&self) -> io::Result<Duration> {
        Ok(self.time.get())
    }

    fn since_1970(&self) -> io::Result<Duration> {
        Ok(self.time.get())
    }
}

/// A connection over which a session begins, and then a breakpoint comes at each read, which takes 60 ms.
#[derive(Drop)]
pub(crate) struct Stream<'a> {
    record: &'a Record,
    has_begun: bool,
}

impl Read for Stream<'_> {
    fn read(&mut self, buffer: &mut [u8]) -> io::Result<usize> {
        let time = self.record.time.get();
        self.record
            .time
            .set(time.saturating_add(Duration::from_millis(60)));
        if self.has_begun {
            return (&BREAKPOINT[..]).read(buffer);
        }
        self.has_begun = true;
        (&BEGINNING[..]).read(buffer)
    }
}

impl Write for Stream<'_> {
    fn write(&mut self, bytes: &[u8]) -> io::Result<usize> {
        Ok(bytes.len())
    }

    fn flush(&mut self) -> io::Result<()> {
        Ok(())
    }
}

impl OpenStream for Stream<'_> {
    fn set_nodelay(&self, nodelay: bool) -> io::Result<()> {
        self.record.note(Asked::NoDelay(nodelay));
        Ok(())
    }

    fn set_read_timeout(&self, timeout: Option<Duration>) -> io::Result<()> {
        self.record.note(Asked::Timeout(timeout));
        Ok(())
    }

    fn set_write_timeout(&self, _timeout: Option<Duration>) -> io::Result<()> {
        Ok(())
    }

    fn try_clone(&self) -> io::Result<Self> {
        self.record.note(Asked::Clone);
        Ok(Stream {
            record: self.record,
            has_begun: false,
        })
    }
}

impl AsRawFd for Stream<'_> {
    fn as_raw_fd(&self) -> RawFd {
        -1
    }
}

/// A listener to which nobody comes.
#[derive(Drop)]
pub(crate) struct Listener<'a> {
    record: &'a Record,
}

impl<'a> OpenListener for Listener<'a> {
    type Stream = Stream<'a>;

    fn accept(&self) -> io::Result<(Stream<'a>, SocketAddr)> {
        self.record.note(Asked::Clone);
        Err(io::Error::from_raw_os_error(13))
    }

    fn local_addr(&self) -> io::Result<SocketAddr> {
        Err(io::Error::from_raw_os_error(13))
    }
}

impl AsRawFd for Listener<'_> {
    fn as_raw_fd(&self) -> RawFd {
        -1
    }
}

/// A network in which each name has these addresses.
#[derive(Drop)]
pub(crate) struct Network<'a> {
    pub record: &'a Record,
    pub addresses: &'a [SocketAddr],
}

impl<'a> Net for Network<'a> {
    type Stream = Stream<'a>;

    type Listener = Listener<'a>;

    fn bind(&self, _address: SocketAddr) -> io::Result<Listener<'a>> {
        Ok(Listener {
            record: self.record,
        })
    }

    fn connect(&self, address: SocketAddr) -> io::Result<Stream<'a>> {
        self.record.note(Asked::Connect(address));
        let refuses = self.record.refuses.get();
        if refuses > 0 {
            self.record.refuses.set(refuses - 1);
            return Err(io::Error::from_raw_os_error(111));
        }
        Ok(Stream {
            record: self.record,
            has_begun: false,
        })
    }

    fn lookup_host(&self, _host: &str, _port: u16, found: &mut [SocketAddr]) -> io::Result<usize> {
        self.record.note(Asked::Lookup);
        let count = self.addresses.len().min(found.len());
        found[..count].copy_from_slice(&self.addresses[..count]);
        Ok(count)
    }
}
