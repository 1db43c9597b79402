//! How a capture is judged, as C sees it.
ghost use Rattle.std.specs.Prelude.{◌≡◌};
ghost use Rattle.milunovesk_c.specs.Captures as captures;

use jdwp_show::{CaptureFault, Verdict};

/// Whether a capture, or a script, is one, and if not its first fault.
#[repr(C)]
#[derive(Clone, Copy)]
pub struct Judged {
    /// Whether there is no fault.
    pub yes: bool,
    /// The number of the first fault, as programs print it; 0 where there is none.
    pub fault: u16,
    /// The line of a capture in which the fault's last byte stands, from 1; else 0.
    pub line: usize,
}

impl Judged {
    /// There is no fault.
    pub(crate) fn sound() -> Judged
        ensures { result ≡ captures.sound }
    {
        Judged {
            yes: true,
            fault: 0,
            line: 0,
        }
    }

    /// This is the first fault, in this line.
    pub(crate) fn faulty(line: usize, fault: CaptureFault) -> Judged
        ensures { result ≡ captures.faulty line fault }
    {
        Judged {
            yes: false,
            fault: fault.printed_number(),
            line,
        }
    }

    /// What `check` answered.
    pub(crate) fn of(verdict: Verdict) -> Judged
        ensures { result ≡ captures.judged verdict }
    {
        match verdict {
            Verdict::Yes => Judged::sound(),
            Verdict::No(line, fault) => Judged::faulty(line, fault),
        }
    }

    /// The fault that `show` found.
    pub(crate) fn by(found: Option<(usize, CaptureFault)>) -> Judged
        ensures { result ≡ captures.judged_by found }
    {
        match found {
            None => Judged::sound(),
            Some((line, fault)) => Judged::faulty(line, fault),
        }
    }

    /// Nothing was judged.
    pub(crate) fn nothing() -> Judged
        ensures { result ≡ captures.unjudged }
    {
        Judged {
            yes: false,
            fault: 0,
            line: 0,
        }
    }
}
