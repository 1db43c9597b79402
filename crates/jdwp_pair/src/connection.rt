//! What joins both ends of a run.
ghost use Rattle.std.specs.Prelude.{◌≡◌, None, Option, is_some, refl};
ghost use Rattle.jdwp_port.specs.declared.faults.PortFault.{PortFault};

use jdwp_link::{Memory, Side, Way};
use jdwp_port::PortFault;

/// What joins both ends of a run: memory alone, or a connection for each session. Once it has failed, the run ends behind the event.
pub trait Connection: Way {
    /// Why it failed, if it did.
    ghost failed_by: { Self → Option PortFault };

    /// Why it failed, if it did.
    fn failure(&self) -> Option<PortFault>
        ensures { result ≡ failed_by self.now };

    /// The end on this side lost the connection, and closes its half.
    fn lose(&mut self, side: Side)
        ensures { failed_by self.new ≡ failed_by self.old };

    /// A session began: both ends are joined anew, and what joined them before is closed.
    fn attach(&mut self);

    /// It failed as a way exactly where there is a failure.
    ghost fails_so: { (connection : Self) → Self.Way.has_failed connection
        ≡ is_some (failed_by connection) };
}

impl Connection for Memory {
    ghost failed_by = { λ memory. None };

    fn failure(&self) -> Option<PortFault> {
        None
    }

    fn lose(&mut self, _side: Side) {}

    fn attach(&mut self) {}

    ghost fails_so = { λ memory. refl };
}
