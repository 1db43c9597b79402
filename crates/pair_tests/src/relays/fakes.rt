//! Connections and a file that do what they are told, and note what was asked of them.
use std::alloc::Global;
use std::cell::Cell;
use std::io;
use std::io::{ErrorKind, Read, Write};
use std::net::{OpenStream, Shutdown};
use std::os::fd::{AsRawFd, RawFd};
use std::process::Abort;
use std::rc::Rc;

/// EPIPE and ECONNRESET, as Linux numbers them.
const BROKEN_PIPE: i32 = 32;

const CONNECTION_RESET: i32 = 104;

/// The file of a capture: how many bytes it takes at a write at most, and at which write it is full.
#[derive(Drop)]
pub(crate) struct Paper {
    alloc: Global,
    text: Cell<Option<Vec<u8>>>,
    piece: usize,
    fails_at: usize,
    writes: Cell<usize>,
}

impl Paper {
    pub(crate) fn new(rt: &impl Abort, alloc: Global, piece: usize, fails_at: usize) -> Rc<Paper> {
        let paper = Paper {
            alloc,
            text: Cell::new(Some(Vec::new(alloc))),
            piece,
            fails_at,
            writes: Cell::new(0),
        };
        Rc::new(alloc, paper).expect(rt, "memory")
    }

    /// What stands there.
    pub(crate) fn text(&self) -> Vec<u8> {
        match self.text.replace(None) {
            Some(text) => {
                let copy = copy_of(self.alloc, &text);
                self.text.set(Some(text));
                copy
            }
            None => Vec::new(self.alloc),
        }
    }

    /// What stands there of the bytes of an end, in the whole lines with its mark.
    pub(crate) fn sent(&self, mark: char) -> Vec<u8> {
        let text = self.text();
        let mut sent = Vec::new(self.alloc);
        let whole = match text.iter().rposition(|byte| *byte == b'\n') {
            Some(place) => text.get(..place).unwrap_or(&[]),
            None => return sent,
        };
        let lines = std::str::from_utf8(whole).unwrap_or("");
        for line in lines.lines() {
            if line.starts_with(mark) {
                let digits = line.as_bytes().get(2..).unwrap_or(&[]);
                if let Ok(bytes) = hex::decode(self.alloc, digits) {
                    let _ = sent.extend_from_slice(&bytes);
                }
            }
        }
        sent
    }
}

/// A copy of some bytes.
pub(crate) fn copy_of(alloc: Global, bytes: &[u8]) -> Vec<u8> {
    let mut copy = Vec::new(alloc);
    let _ = copy.extend_from_slice(bytes);
    copy
}

/// The file as what is written to it.
#[derive(Drop)]
pub(crate) struct Pen(pub Rc<Paper>);

impl Write for Pen {
    fn write(&mut self, bytes: &[u8]) -> io::Result<usize> {
        let paper = &*self.0;
        let call = paper.writes.get();
        paper.writes.set(call.saturating_add(1));
        if call >= paper.fails_at {
            return Err(io::Error::from(ErrorKind::StorageFull));
        }
        let count = bytes.len().min(paper.piece);
        if let Some(mut text) = paper.text.replace(None) {
            let _ = text.extend_from_slice(&bytes[..count]);
            paper.text.set(Some(text));
        }
        Ok(count)
    }

    fn flush(&mut self) -> io::Result<()> {
        Ok(())
    }
}

/// What comes behind all that an end says.
#[derive(Clone, Copy, Debug, PartialEq, Eq)]
pub(crate) enum Behind {
    /// The end of its input.
    End,
    /// An error: the connection was reset.
    Reset,
}

/// How an end was ended.
#[derive(Clone, Copy, Debug, PartialEq, Eq)]
pub(crate) enum Shut {
    /// The writing half of its connection.
    Half,
    /// Its connection was reset.
    Whole,
}

/// How an end behaves.
#[derive(Clone, Copy, Debug)]
pub(crate) struct Manner {
    /// How many bytes it gives at a read at most.
    pub gives: usize,
    /// How many bytes it takes at a write at most; where that is 0, every write would wait.
    pub takes: usize,
    /// At which write it is lost.
    pub breaks_at: usize,
    pub behind: Behind,
}

/// One end of a relay. At every other call it has nothing, or takes nothing, and at the call behind that it is interrupted.
#[derive(Drop)]
pub(crate) struct Side {
    paper: Rc<Paper>,
    /// The mark of the lines whose bytes it takes.
    mark: char,
    manner: Manner,
    says: Cell<&'static [u8]>,
    reads: Cell<usize>,
    writes: Cell<usize>,
    took: Cell<Option<Vec<u8>>>,
    /// Whether a byte came whose line was not written.
    early: Cell<bool>,
    half: Cell<usize>,
    whole: Cell<usize>,
}

impl Side {
    /// The end that says this and takes the bytes of lines with this mark.
    pub(crate) fn new(
        rt: &impl Abort,
        paper: &Rc<Paper>,
        says: &'static [u8],
        mark: char,
        manner: Manner,
    ) -> Rc<Side> {
        let alloc = paper.alloc;
        let side = Side {
            paper: paper.clone().expect(rt, "memory"),
            mark,
            manner,
            says: Cell::new(says),
            reads: Cell::new(0),
            writes: Cell::new(0),
            took: Cell::new(Some(Vec::new(alloc))),
            early: Cell::new(false),
            half: Cell::new(0),
            whole: Cell::new(0),
        };
        Rc::new(alloc, side).expect(rt, "memory")
    }

    /// All that it took.
    pub(crate) fn took(&self) -> Vec<u8> {
        match self.took.replace(None) {
            Some(took) => {
                let copy = copy_of(self.paper.alloc, &took);
                self.took.set(Some(took));
                copy
            }
            None => Vec::new(self.paper.alloc),
        }
    }

    /// Whether a byte came whose line was not written.
    pub(crate) fn is_early(&self) -> bool {
        self.early.get()
    }

    /// How often its writing half was ended, and how often its connection was reset.
    pub(crate) fn endings(&self) -> (usize, usize) {
        (self.half.get(), self.whole.get())
    }

    /// What it has not said.
    pub(crate) fn unsaid(&self) -> usize {
        self.says.get().len()
    }

    fn take(&self, bytes: &[u8]) {
        if let Some(mut took) = self.took.replace(None) {
            let _ = took.extend_from_slice(bytes);
            let written = self.paper.sent(self.mark);
            if !written.starts_with(took.as_slice()) {
                self.early.set(true);
            }
            self.took.set(Some(took));
        }
    }
}

/// One half of the connection to an end.
#[derive(Drop)]
pub(crate) struct Stream {
    pub side: Rc<Side>,
}

/// What stands in the way of this call: nothing at the first of three, that it would wait at the second, and that it is interrupted at the third.
fn hindrance(calls: &Cell<usize>) -> Option<io::Error> {
    let call = calls.get();
    calls.set(call.saturating_add(1));
    match call % 3 {
        0 => None,
        1 => Some(io::Error::from(ErrorKind::WouldBlock)),
        _ => Some(io::Error::from(ErrorKind::Interrupted)),
    }
}

impl Read for Stream {
    fn read(&mut self, buffer: &mut [u8]) -> io::Result<usize> {
        if let Some(error) = hindrance(&self.side.reads) {
            return Err(error);
        }
        let mut rest = self.side.says.get();
        if rest.is_empty() {
            return match self.side.manner.behind {
                Behind::End => Ok(0),
                Behind::Reset => Err(io::Error::from_raw_os_error(CONNECTION_RESET)),
            };
        }
        let most = buffer.len().min(self.side.manner.gives);
        let count = rest.read(&mut buffer[..most])?;
        self.side.says.set(rest);
        Ok(count)
    }
}

impl Write for Stream {
    fn write(&mut self, bytes: &[u8]) -> io::Result<usize> {
        if self.side.writes.get() / 3 >= self.side.manner.breaks_at {
            return Err(io::Error::from_raw_os_error(BROKEN_PIPE));
        }
        if let Some(error) = hindrance(&self.side.writes) {
            return Err(error);
        }
        let count = bytes.len().min(self.side.manner.takes);
        if count == 0 {
            return Err(io::Error::from(ErrorKind::WouldBlock));
        }
        self.side.take(&bytes[..count]);
        Ok(count)
    }

    fn flush(&mut self) -> io::Result<()> {
        Ok(())
    }
}

impl OpenStream for Stream {
    fn shutdown(&self, how: Shutdown) -> io::Result<()> {
        if how == Shutdown::Write {
            self.side.half.set(self.side.half.get().saturating_add(1));
        }
        Ok(())
    }
}

impl AsRawFd for Stream {
    fn as_raw_fd(&self) -> RawFd {
        // Nobody asks for it but to reset the connection.
        self.side.whole.set(self.side.whole.get().saturating_add(1));
        -1
    }
}
