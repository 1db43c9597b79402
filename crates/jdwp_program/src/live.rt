//! Captures told while they are written.
ghost use Rattle.std.specs.Prelude.{◌++◌, [], List, Option, ℕ};
ghost use Rattle.jdwp_judge.specs.CaptureJudges.{HasHeardText};
ghost use Rattle.jdwp_show.specs.declared.table.Table as tables;
ghost use Rattle.jdwp_program.specs.Live.{IsShowing, ShowsWritten};
ghost use Rattle.std.specs.Io.KnownBytes.{Appends};
ghost use Rattle.jdwp_judge.specs.CaptureJudges.{told_text};

use crate::captures::Told;
use crate::streaming::{StreamFault, show_more, show_rest, stops};
use jdwp_judge::CaptureJudge;
use jdwp_show::Table;
use std::alloc::Global;
use std::io::Write;

/// A capture that is shown while it is written. Its lines are told as soon as nothing behind them can change them, and its first fault as soon as
/// it is known: then nothing more is told. Nor is behind a print that failed.
#[derive(Drop)]
pub enum LiveShow {
    /// More may be told.
    Going(CaptureJudge),
    /// Nothing more is told: the first fault was, or the output failed.
    Ended(Result<Told, StreamFault>),
}

impl LiveShow {
    /// Before the first byte of a capture whose data are read by this table.
    pub fn under(alloc: Global, table: Table) -> LiveShow
        ensures { (out : Option (List ℕ)) → IsShowing table result [] out out }
    {
        LiveShow::Going(CaptureJudge::under(alloc, table))
    }

    /// These bytes more were written. Prints the lines that can be told now, and `line N: fault K` where the first fault is known.
    pub fn feed<O: Write>(self, bytes: &[u8], out: &mut O) -> LiveShow
        ensures { (table : tables.Table) (text : List ℕ) (start : Option (List ℕ))
            → IsShowing table self text start (O.contents out.old)
            → IsShowing table result (text ++ bytes.now) start (O.contents out.new) }
    {
        match self {
            LiveShow::Going(judge) => show_on(judge, bytes, out),
            LiveShow::Ended(told) => LiveShow::Ended(told),
        }
    }

    /// All of it was written. Prints what was not told yet.
    ///
    /// # Errors
    /// `Output` where the output didn't take all of what was to be printed, now or before; `NoMemory`.
    pub fn end<O: Write>(self, out: &mut O) -> Result<Told, StreamFault>
        ensures { (table : tables.Table) (text : List ℕ) (start : Option (List ℕ))
            → IsShowing table self text start (O.contents out.old)
            → ShowsWritten table text start (O.contents out.new) result }
    {
        match self {
            LiveShow::Going(judge) => show_rest(judge, out),
            LiveShow::Ended(told) => told,
        }
    }
}

/// Prints what can be told now that these bytes were written, and all where the first fault is known.
fn show_on<O: Write>(mut judge: CaptureJudge, bytes: &[u8], out: &mut O) -> LiveShow
    ensures { (table : tables.Table) (text : List ℕ) (start : Option (List ℕ))
        → HasHeardText table judge text → Appends start (O.contents out.old) (told_text table text)
        → IsShowing table result (text ++ bytes.now) start (O.contents out.new) }
{
    let told = show_more(&mut judge, bytes, out);
    if stops(&told) {
        return LiveShow::Ended(told);
    }
    if judge.fault().is_some() {
        return LiveShow::Ended(show_rest(judge, out));
    }
    LiveShow::Going(judge)
}
