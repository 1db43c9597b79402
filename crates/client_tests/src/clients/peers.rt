//! Readers that cut what comes anywhere, writers that fail, and clients over them.
use jdwp_client::{Client, Options};
use jdwp_debugger::Order;
use jdwp_end::Streams;
use jdwp_event::Composite;
use jdwp_layout::Scalar;
use std::alloc::Global;
use std::io;
use std::io::{ErrorKind, Read, Write};
use std::process::Abort;

/// Gives 1 to 64 bytes at a time, by chance, and then the end; or, where it is late then, fails as a socket does that waited for a byte as long
/// as it may.
#[derive(Drop)]
pub(crate) struct Reader<'a> {
    bytes: &'a [u8],
    chance: u32,
    is_late: bool,
}

impl<'a> Read for Reader<'a> {
    fn read(&mut self, buffer: &mut [u8]) -> io::Result<usize> {
        self.chance = self
            .chance
            .wrapping_mul(1_664_525)
            .wrapping_add(1_013_904_223);
        let most = 1 + (self.chance >> 26) as usize;
        let count = most.min(buffer.len()).min(self.bytes.len());
        if count == 0 && self.is_late {
            return Err(io::Error::from(ErrorKind::TimedOut));
        }
        buffer[..count].copy_from_slice(&self.bytes[..count]);
        self.bytes = &self.bytes[count..];
        Ok(count)
    }
}

/// Takes what it is given, and fails at one call, if it is one of these, counted from 1.
#[derive(Drop)]
pub(crate) struct Writer {
    pub bytes: Vec<u8>,
    calls: u32,
    fails: u32,
}

impl Writer {
    fn count_call(&mut self) -> io::Result<()> {
        self.calls = self.calls.saturating_add(1);
        if self.calls == self.fails {
            return Err(io::Error::from(ErrorKind::ConnectionReset));
        }
        Ok(())
    }
}

impl Write for Writer {
    fn write(&mut self, bytes: &[u8]) -> io::Result<usize> {
        self.count_call()?;
        self.bytes.extend_from_slice(bytes)?;
        Ok(bytes.len())
    }

    fn flush(&mut self) -> io::Result<()> {
        self.count_call()
    }
}

/// A client over a reader and a writer.
pub(crate) type FakeClient<'a> = Client<Streams<Reader<'a>, Writer>>;

/// A client to which this comes, cut by this chance, and late behind it where that is odd, and whose calls of the writer fail at this one, or none
/// at 0. It keeps so many composites at most.
pub(crate) fn client<'a>(
    rt: &impl Abort,
    alloc: Global,
    bytes: &'a [u8],
    chance: u32,
    fails: u32,
    most_events: usize,
) -> Box<FakeClient<'a>> {
    let reader = Reader {
        bytes,
        chance,
        is_late: chance % 2 == 1,
    };
    let writer = Writer {
        bytes: Vec::new(alloc),
        calls: 0,
        fails,
    };
    let mut options = Options::new(Order::Apart);
    options.most_events = most_events;
    let client = Client::new(alloc, Streams::new(reader, writer), options).expect(rt, "memory");
    Box::new(alloc, client).expect(rt, "memory")
}

/// The request of the first event of a composite.
pub(crate) fn request_of(composite: &Composite) -> Option<i32> {
    match composite.events().first()?.fields() {
        [_, Scalar::Int(request), ..] => Some(*request),
        _ => None,
    }
}
