//! What a server of live sessions at a port tells on the way.
ghost use Rattle.std.specs.Prelude.{◌≡◌};
ghost use Rattle.jdwp_port.specs.LiveNotices.{live_notice_of};

use crate::live::causes::LiveCause;
use crate::live::connection::LiveAtPort;
use crate::notices::Notice;
use jdwp_end::Ended;

/// What a server of live sessions at a port tells, and goes on.
#[derive(Clone, Copy, Debug)]
pub enum LiveNotice {
    /// As of sessions that are not live; `Again` also where the port is not listened on anew, for a cause that passes.
    Port(Notice),
    /// A session was lost since its handshake was not done 2 seconds behind the beginning of the connection.
    NoHandshake,
}

/// What is told of a session that ended so.
pub(crate) fn live_notice_of(session: LiveAtPort) -> Option<LiveNotice>
    ensures { result ≡ live_notice_of session.how session.failure }
{
    match session.how {
        Ended::Refused(number) => Some(LiveNotice::Port(Notice::Refused(number))),
        Ended::LostByRead | Ended::LostByWrite => match session.failure {
            Some(LiveCause::NoHandshake) => Some(LiveNotice::NoHandshake),
            Some(LiveCause::Port(cause)) => Some(LiveNotice::Port(Notice::Lost(cause))),
            None => None,
        },
        Ended::Done | Ended::NoMemory | Ended::TurnLimit => None,
    }
}
