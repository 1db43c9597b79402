//! A debugger as an end of a session.
ghost use Rattle.std.specs.Prelude.{refl};
ghost use Rattle.jdwp_debugger.specs.Debuggers as debuggers;
ghost use Rattle.jdwp_debugger.specs.TakingLaws.{taken-none, taken-twice};

use crate::debugger::Debugger;
use jdwp_end::SessionEnd;

impl SessionEnd for Debugger {
    ghost end = { λ d. d.end };

    ghost with_fed = { debuggers.with_fed };

    ghost with_taken = { debuggers.with_taken };

    ghost lost_end = { debuggers.lost_debugger };

    fn is_open(&self) -> bool {
        Debugger::is_open(self)
    }

    fn room(&self) -> usize {
        Debugger::room(self)
    }

    fn feed(&mut self, bytes: &[u8]) -> usize {
        Debugger::feed(self, bytes)
    }

    fn waiting(&self) -> usize {
        Debugger::waiting(self)
    }

    fn waiting_slices(&self) -> (&[u8], &[u8]) {
        Debugger::waiting_slices(self)
    }

    fn leave(&mut self, count: usize) {
        Debugger::leave(self, count);
    }

    fn take(&mut self, out: &mut [u8]) -> usize {
        Debugger::take(self, out)
    }

    fn lose(&mut self) {
        Debugger::lose(self);
    }

    ghost taken_end = { λ bytes d. refl };

    ghost taken_none = { taken-none };

    ghost taken_twice = { taken-twice };
}
