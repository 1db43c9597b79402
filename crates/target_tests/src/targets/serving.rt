//! Sessions of a target that are served on readers and writers that fail, stop or take part of what they are given.
ghost use Rattle.std.specs.Prelude.{◌≡◌, IfOk, IfSome};

use crate::targets::sessions::{Target, target};
use jdwp_end::{Ended, Streams};
use jdwp_engine::serve;
use jdwp_value::ObjectId;
use std::alloc::Global;
use std::io;
use std::io::{ErrorKind, Read, Write};
use std::process::Abort;
use test_parts::MACHINE_A;

/// What a stream does at one of its calls.
#[derive(Clone, Copy, Debug, PartialEq, Eq)]
pub(crate) enum Event {
    /// The call fails.
    Fails,
    /// The call is interrupted.
    Interrupted,
    /// The call moves no byte.
    Stops,
    /// The call would have to wait.
    WouldBlock,
}

/// An event at a call, counted from 1.
#[derive(Clone, Copy, Debug)]
pub(crate) struct Plan {
    pub call: u32,
    pub event: Event,
}

/// No call is disturbed.
pub(crate) const UNDISTURBED: Plan = Plan {
    call: 0,
    event: Event::Fails,
};

impl Plan {
    /// What the call of this number answers, if it is disturbed.
    fn at(self, call: u32) -> Option<io::Result<usize>>
        ensures { IfSome result (λ r. IfOk r (λ n. n ≡ 0)) }
    {
        if call != self.call {
            return None;
        }
        Some(match self.event {
            Event::Fails => Err(io::Error::from(ErrorKind::ConnectionReset)),
            Event::Interrupted => Err(io::Error::from(ErrorKind::Interrupted)),
            Event::Stops => Ok(0),
            Event::WouldBlock => Err(io::Error::from(ErrorKind::WouldBlock)),
        })
    }
}

/// Gives so many bytes a call at most, and keeps the least and the greatest number of bytes that it was asked for.
#[derive(Drop)]
pub(crate) struct Reader<'a> {
    pub bytes: &'a [u8],
    pub most: usize,
    pub calls: u32,
    pub plan: Plan,
    pub least_asked: usize,
    pub most_asked: usize,
}

impl<'a> Read for Reader<'a> {
    fn read(&mut self, buffer: &mut [u8]) -> io::Result<usize> {
        self.calls = self.calls.saturating_add(1);
        self.least_asked = self.least_asked.min(buffer.len());
        self.most_asked = self.most_asked.max(buffer.len());
        if let Some(result) = self.plan.at(self.calls) {
            return result;
        }
        let count = self.most.min(buffer.len()).min(self.bytes.len());
        buffer[..count].copy_from_slice(&self.bytes[..count]);
        self.bytes = &self.bytes[count..];
        Ok(count)
    }
}

/// Takes so many bytes a call at most.
#[derive(Drop)]
pub(crate) struct Writer {
    pub bytes: Vec<u8>,
    pub most: usize,
    pub calls: u32,
    pub plan: Plan,
    pub flushes: u32,
    pub flush_plan: Plan,
}

impl Write for Writer {
    fn write(&mut self, bytes: &[u8]) -> io::Result<usize> {
        self.calls = self.calls.saturating_add(1);
        if let Some(result) = self.plan.at(self.calls) {
            return result;
        }
        let count = self.most.min(bytes.len());
        self.bytes.extend_from_slice(&bytes[..count])?;
        Ok(count)
    }

    fn flush(&mut self) -> io::Result<()> {
        self.flushes = self.flushes.saturating_add(1);
        match self.flush_plan.at(self.flushes) {
            Some(Err(error)) => Err(error),
            Some(Ok(_)) | None => Ok(()),
        }
    }
}

pub(crate) fn reading(bytes: &[u8], most: usize, plan: Plan) -> Reader<'_> {
    Reader {
        bytes,
        most,
        calls: 0,
        plan,
        least_asked: usize::MAX,
        most_asked: 0,
    }
}

pub(crate) fn writing(alloc: Global, most: usize, plan: Plan) -> Writer {
    Writer {
        bytes: Vec::new(alloc),
        most,
        calls: 0,
        plan,
        flushes: 0,
        flush_plan: UNDISTURBED,
    }
}

/// A session that was served: how it ended, its reader and writer, and what it left of the target.
#[derive(Drop)]
pub(crate) struct AfterServing<'a, W> {
    pub ended: Ended,
    pub reader: Reader<'a>,
    pub writer: W,
    pub is_open: bool,
    pub lives: usize,
    pub count: Option<u32>,
}

/// Serves one session.
pub(crate) fn serve_on<'a, W: Write + Drop>(
    target: &mut Target,
    reader: Reader<'a>,
    writer: W,
    rounds: u64,
) -> AfterServing<'a, W> {
    let mut pipe = Streams::new(reader, writer);
    let ended = serve(target, &mut pipe, rounds);
    let (reader, writer) = pipe.into_parts();
    AfterServing {
        ended,
        reader,
        writer,
        is_open: target.is_open(),
        lives: target.live().len(),
        count: target.count(ObjectId(1)),
    }
}

/// Serves the first session of a target.
pub(crate) fn served_on<'a, W: Write + Drop>(
    rt: &impl Abort,
    alloc: Global,
    start_all: bool,
    reader: Reader<'a>,
    writer: W,
    rounds: u64,
) -> AfterServing<'a, W> {
    let mut target = target(rt, alloc, MACHINE_A, start_all, 65535);
    serve_on(&mut target, reader, writer, rounds)
}

pub(crate) const ROUNDS: u64 = 1000;

/// The handshake, IDSizes with id 1, Suspend with id 2, SuspendCount of thread 1 with id 3, Dispose with id 4.
pub(crate) const SESSION: [u8; 66] = [
    0x4a, 0x44, 0x57, 0x50, 0x2d, 0x48, 0x61, 0x6e, 0x64, 0x73, 0x68, 0x61, 0x6b, 0x65, //
    0x00, 0x00, 0x00, 0x0b, 0x00, 0x00, 0x00, 0x01, 0x00, 0x01, 0x07, //
    0x00, 0x00, 0x00, 0x0b, 0x00, 0x00, 0x00, 0x02, 0x00, 0x01, 0x08, //
    0x00, 0x00, 0x00, 0x13, 0x00, 0x00, 0x00, 0x03, 0x00, 0x0b, 0x0c, 0x00, 0x00, 0x00, 0x00, 0x00,
    0x00, 0x00, 0x01, //
    0x00, 0x00, 0x00, 0x0b, 0x00, 0x00, 0x00, 0x04, 0x00, 0x01, 0x06, //
];

/// What a target that starts no thread suspended answers to it.
pub(crate) static ANSWERS: [u8; 111] = [
    0x4a, 0x44, 0x57, 0x50, 0x2d, 0x48, 0x61, 0x6e, 0x64, 0x73, 0x68, 0x61, 0x6b, 0x65, //
    0x00, 0x00, 0x00, 0x1d, 0x00, 0x00, 0x00, 0x01, 0x00, 0x40, 0x64, 0x00, 0x00, 0x00, 0x00, 0x01,
    0x5a, 0x00, 0x00, 0x00, 0x00, 0x00, 0x00, 0x00, 0x00, 0x00, 0x00, 0x00, 0x01, //
    0x00, 0x00, 0x00, 0x1f, 0x00, 0x00, 0x00, 0x01, 0x80, 0x00, 0x00, 0x00, 0x00, 0x00, 0x08, 0x00,
    0x00, 0x00, 0x08, 0x00, 0x00, 0x00, 0x08, 0x00, 0x00, 0x00, 0x08, 0x00, 0x00, 0x00, 0x08, //
    0x00, 0x00, 0x00, 0x0b, 0x00, 0x00, 0x00, 0x02, 0x80, 0x00, 0x00, //
    0x00, 0x00, 0x00, 0x0f, 0x00, 0x00, 0x00, 0x03, 0x80, 0x00, 0x00, 0x00, 0x00, 0x00, 0x01, //
    0x00, 0x00, 0x00, 0x0b, 0x00, 0x00, 0x00, 0x04, 0x80, 0x00, 0x00, //
];

/// What a target that starts every thread suspended answers to it.
pub(crate) static ANSWERS_SUSPENDED: [u8; 111] = [
    0x4a, 0x44, 0x57, 0x50, 0x2d, 0x48, 0x61, 0x6e, 0x64, 0x73, 0x68, 0x61, 0x6b, 0x65, //
    0x00, 0x00, 0x00, 0x1d, 0x00, 0x00, 0x00, 0x01, 0x00, 0x40, 0x64, 0x02, 0x00, 0x00, 0x00, 0x01,
    0x5a, 0x00, 0x00, 0x00, 0x00, 0x00, 0x00, 0x00, 0x00, 0x00, 0x00, 0x00, 0x01, //
    0x00, 0x00, 0x00, 0x1f, 0x00, 0x00, 0x00, 0x01, 0x80, 0x00, 0x00, 0x00, 0x00, 0x00, 0x08, 0x00,
    0x00, 0x00, 0x08, 0x00, 0x00, 0x00, 0x08, 0x00, 0x00, 0x00, 0x08, 0x00, 0x00, 0x00, 0x08, //
    0x00, 0x00, 0x00, 0x0b, 0x00, 0x00, 0x00, 0x02, 0x80, 0x00, 0x00, //
    0x00, 0x00, 0x00, 0x0f, 0x00, 0x00, 0x00, 0x03, 0x80, 0x00, 0x00, 0x00, 0x00, 0x00, 0x02, //
    0x00, 0x00, 0x00, 0x0b, 0x00, 0x00, 0x00, 0x04, 0x80, 0x00, 0x00, //
];
