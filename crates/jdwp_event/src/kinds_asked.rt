//! Which kinds of events requests ask for, and whether a Count.
ghost use Rattle.std.specs.Prelude.{◌≡◌, []};
ghost use Rattle.jdwp_event.specs.EventKinds.{kind_byte};
ghost use Rattle.jdwp_event.specs.Occurrences.{occurrence_meaning};
ghost use Rattle.jdwp_event.specs.KindsAsked as spec;

use crate::happening::Occurrence;
use crate::kind::EventKind;
use crate::request::Request;

/// For each that may happen, whether a request is of a kind of it; and whether a request has a Count.
#[derive(Clone, Copy)]
pub(crate) struct KindsAsked {
    moved: bool,
    entered: bool,
    left: bool,
    threw: bool,
    prepared: bool,
    started: bool,
    ran_out: bool,
    counts: bool,
}

impl KindsAsked {
    /// What these requests ask for.
    pub(crate) fn asked_by(requests: &[Request]) -> KindsAsked
        ensures { spec.AreAsked result requests.now }
    {
        KindsAsked {
            moved: has_kind(requests, EventKind::SingleStep)
                || has_kind(requests, EventKind::Breakpoint),
            entered: has_kind(requests, EventKind::MethodEntry),
            left: has_kind(requests, EventKind::MethodExit)
                || has_kind(requests, EventKind::MethodExitWithReturnValue),
            threw: has_kind(requests, EventKind::Exception),
            prepared: has_kind(requests, EventKind::ClassPrepare),
            started: has_kind(requests, EventKind::ThreadStart),
            ran_out: has_kind(requests, EventKind::ThreadDeath),
            counts: any_has_count(requests),
        }
    }

    /// What no request asks for.
    pub(crate) fn none() -> KindsAsked
        ensures { spec.AreAsked result [] }
    {
        KindsAsked {
            moved: false,
            entered: false,
            left: false,
            threw: false,
            prepared: false,
            started: false,
            ran_out: false,
            counts: false,
        }
    }

    /// Whether a request is of a kind of what happened.
    pub(crate) fn has(self, occurrence: &Occurrence) -> bool
        ensures { result ≡ spec.is_asked self (occurrence_meaning occurrence.now) }
    {
        match occurrence {
            Occurrence::Moved(_) => self.moved,
            Occurrence::Entered(_) => self.entered,
            Occurrence::Left(..) => self.left,
            Occurrence::Threw(..) => self.threw,
            Occurrence::Prepared(_) => self.prepared,
            Occurrence::Started => self.started,
            Occurrence::RanOut => self.ran_out,
        }
    }

    /// Whether a request has a Count.
    pub(crate) fn has_count(self) -> bool
        ensures { result ≡ self.counts }
    {
        self.counts
    }
}

/// Whether a request is of this kind.
fn has_kind(requests: &[Request], kind: EventKind) -> bool
    ensures { result ≡ spec.has_kind (kind_byte kind) requests.now }
{
    for request in requests {
        if kind.byte() == request.kind() {
            return true;
        }
    }
    false
}

/// Whether a request has a Count.
fn any_has_count(requests: &[Request]) -> bool
    ensures { result ≡ spec.any_has_count requests.now }
{
    for request in requests {
        if request.has_count() {
            return true;
        }
    }
    false
}
