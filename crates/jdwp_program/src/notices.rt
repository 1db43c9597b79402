//! Lines that are told while sessions go on.
ghost use Rattle.std.specs.Prelude.{◌≡◌, ◌+◌, ◌⊎◌};
ghost use Rattle.jdwp_program.specs.Notices.{Counts, Ends, dropped_by};

use crate::losing::Loss;
use crate::outcome::{Outcome, report_outcome};
use crate::printing::print;
use jdwp_end::Ended;
use jdwp_port::{LiveCause, LiveNotice, Notice, PortCause};
use std::alloc::Global;
use std::io::Write;

/// What a server at a port tells on standard error, a line each. A line that is not taken whole is dropped and counted, and the next one that is
/// taken says how many were.
#[derive(Drop)]
pub struct Lines<'a, E> {
    alloc: Global,
    err: &'a mut E,
    port: u16,
    dropped: u32,
}

impl<'a, E: Write> Lines<'a, E> {
    /// Of a server at this port, none of whose lines was dropped.
    pub fn new(alloc: Global, err: &'a mut E, port: u16) -> Lines<'a, E>
        ensures { dropped_by result ≡ 0 }
    {
        Lines {
            alloc,
            err,
            port,
            dropped: 0,
        }
    }

    /// How many lines were dropped since the last one that was taken.
    pub fn dropped(&self) -> u32
        ensures { result ≡ dropped_by self.now }
    {
        self.dropped
    }

    /// Tells this in a line, by one write where the writer takes it so.
    pub fn tell(&mut self, notice: Notice)
        ensures { Counts (dropped_by self.old) (dropped_by self.new) }
    {
        self.tell_live(LiveNotice::Port(notice));
    }

    /// The same of what a server of live sessions tells.
    pub fn tell_live(&mut self, notice: LiveNotice)
        ensures { Counts (dropped_by self.old) (dropped_by self.new) }
    {
        self.tell_at(self.port, notice);
    }

    /// Tells that the target that listens at this port was not reached, and why.
    pub fn tell_unreached(&mut self, port: u16, cause: PortCause)
        ensures { Counts (dropped_by self.old) (dropped_by self.new) }
    {
        self.tell_at(port, LiveNotice::Port(Notice::Lost(cause)));
    }

    /// Tells this of the port in a line.
    fn tell_at(&mut self, port: u16, notice: LiveNotice)
        ensures { Counts (dropped_by self.old) (dropped_by self.new) }
    {
        if self.is_taken(port, notice) {
            self.dropped = 0;
        } else {
            self.dropped = self.dropped.saturating_add(1);
        }
    }

    /// Tells how many lines were dropped since the last one that was taken, if any were, and none comes behind it.
    pub fn end(&mut self)
        ensures { Ends (dropped_by self.old) (dropped_by self.new) }
    {
        let mut line = Vec::new(self.alloc);
        if self.dropped > 0 && self.push_dropped(&mut line) && self.takes(&line) {
            self.dropped = 0;
        }
    }

    /// Whether the line is taken whole, and with it how many were dropped before it.
    fn is_taken(&mut self, port: u16, notice: LiveNotice) -> bool
        ensures { dropped_by self.new ≡ dropped_by self.old }
    {
        let mut line = Vec::new(self.alloc);
        self.push_dropped(&mut line) && push_notice(port, notice, &mut line) && self.takes(&line)
    }

    /// Appends how many lines were dropped, if any were. Whether there is memory for it.
    fn push_dropped(&self, line: &mut Vec<u8>) -> bool {
        let dropped = self.dropped;
        dropped == 0
            || writeln!(
                line,
                "jdwp: lines before this one that were dropped: {dropped}"
            )
            .is_ok()
    }

    /// Whether the text is taken whole.
    fn takes(&mut self, text: &[u8]) -> bool
        ensures { dropped_by self.new ≡ dropped_by self.old }
    {
        print(self.err, text).1.is_ok()
    }
}

/// Appends what is told of this port. Whether there is memory for it.
fn push_notice(port: u16, notice: LiveNotice, line: &mut Vec<u8>) -> bool {
    match notice {
        LiveNotice::Port(Notice::Refused(number)) => {
            report_outcome(Outcome::Session(Ended::Refused(number)), line);
        }
        LiveNotice::Port(Notice::Lost(cause)) => {
            report_outcome(Outcome::Lost(Loss::Port(port, cause)), line);
        }
        LiveNotice::Port(Notice::Again(cause)) => {
            let _ = writeln!(
                line,
                "jdwp: port {port}: no connection is taken, and another call is made: {cause}"
            );
        }
        LiveNotice::NoHandshake => {
            let cause = LiveCause::NoHandshake;
            let _ = writeln!(line, "jdwp: port {port}: {cause}");
        }
    }
    line.ends_with(b"\n")
}
