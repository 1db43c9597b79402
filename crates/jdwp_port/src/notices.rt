//! What a server at a port tells on the way.
ghost use Rattle.std.specs.Prelude.{◌≡◌};
ghost use Rattle.jdwp_port.specs.Notices.{notice_of};

use crate::connection::AtPort;
use crate::faults::PortCause;
use jdwp_end::Ended;

/// What a server at a port tells, and goes on.
#[derive(Clone, Copy, Debug)]
pub enum Notice {
    /// A session was refused with the fault of this number.
    Refused(u16),
    /// A session was lost since its connection failed so.
    Lost(PortCause),
    /// No connection was taken, for a cause that passes: another call is made a little later.
    Again(PortCause),
}

/// What is told of a session that ended so.
pub(crate) fn notice_of(session: AtPort<Ended>) -> Option<Notice>
    ensures { result ≡ notice_of session.how session.failure }
{
    match (session.how, session.failure) {
        (Ended::Refused(number), _) => Some(Notice::Refused(number)),
        (Ended::LostByRead | Ended::LostByWrite, Some(cause)) => Some(Notice::Lost(cause)),
        _ => None,
    }
}
