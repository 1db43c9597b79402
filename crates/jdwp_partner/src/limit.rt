//! No limit of time.
ghost use Rattle.std.specs.Prelude.{◌≡◌};

use crate::partner::Partner;
use jdwp_client::LimitedPipe;
use jdwp_machine::Machine;

/// Whatever limit is set: nobody is waited for.
impl<M: Machine + Drop> LimitedPipe for Partner<M> {
    fn limit(&mut self, _milliseconds: Option<u64>)
        ensures { self.new.story ≡ self.old.story }
    {}

    fn is_late(&self) -> bool {
        false
    }
}
