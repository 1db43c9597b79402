//! What went through a pipe of memory, for contracts alone.
ghost use Rattle.std.specs.Prelude.{◌≡◌, ◌≤◌, ◌+◌, ◌*◌, ◌++◌, [], length, take};
ghost use Rattle.jdwp_end.specs.Story.{early_by, empty_story, flushed, some_of, zero_of};

use std::marker::Model;
use trace::{History, Trace};

/// The bytes that were read and written, and how often no byte was: as the story of `Streams`, of a pipe whose reads and flushes never fail.
#[derive(Drop)]
pub(crate) struct Through {
    read: History,
    written: History,
    unflushed: History,
    /// What was not flushed at each read with room.
    rooms: Trace<History>,
    ends: Trace<()>,
    failed_writes: Trace<()>,
}

impl Model for Through {
    ghost use Rattle.jdwp_end.specs.Story.{Story};
    ghost use Rattle.jdwp_end.specs.Streams.{early_in};
    ghost use Rattle.std.specs.Prelude.{length};

    ghost Value = { Story };

    ghost view = { λ t. record {
      read = t.read.bytes;
      written = t.written.bytes;
      unflushed = t.unflushed.bytes;
      rooms = length t.rooms.items;
      early = early_in t.rooms.items;
      ends = length t.ends.items;
      failed_reads = 0;
      failed_writes = length t.failed_writes.items;
    } };
}

impl Through {
    /// Nothing went through.
    pub fn new() -> Through
        ensures { result ≡ empty_story }
    {
        Through {
            read: History::new(),
            written: History::new(),
            unflushed: History::new(),
            rooms: Trace::new(),
            ends: Trace::new(),
            failed_writes: Trace::new(),
        }
    }

    /// A read into this buffer gave so many bytes, which are in front of it.
    pub fn note_read(&mut self, buffer: &[u8], count: usize)
        requires { count ≤ length buffer.now }
        ensures { self.new ≡ record self.old {
          read = self.old.read ++ take count buffer.now;
          rooms = self.old.rooms + some_of buffer.now;
          early = self.old.early + early_by buffer.now self.old.unflushed;
          ends = self.old.ends + some_of buffer.now * zero_of count;
        } }
    {
        if buffer.is_empty() {
            return;
        }
        self.rooms.push(&self.unflushed);
        self.read.extend(&buffer[..count]);
        if count == 0 {
            self.ends.push(&());
        }
    }

    /// A write of these bytes took so many of them, the first.
    pub fn note_write(&mut self, bytes: &[u8], count: usize)
        requires { count ≤ length bytes.now }
        ensures { self.new ≡ record self.old {
          written = self.old.written ++ take count bytes.now;
          unflushed = self.old.unflushed ++ take count bytes.now;
          failed_writes = self.old.failed_writes + some_of bytes.now * zero_of count;
        } }
    {
        self.written.extend(&bytes[..count]);
        self.unflushed.extend(&bytes[..count]);
        if count == 0 && !bytes.is_empty() {
            self.failed_writes.push(&());
        }
    }

    /// All that was written left.
    pub fn note_flush(&mut self)
        ensures { self.new ≡ flushed self.old }
    {
        self.unflushed = History::new();
    }
}
