//! A target as an end of a session.
ghost use Rattle.std.specs.Prelude.{refl};
ghost use Rattle.jdwp_target.specs.Targets as targets;
ghost use Rattle.jdwp_target.specs.TakingLaws.{taken-none, taken-twice};

use crate::target::Target;
use jdwp_end::SessionEnd;
use jdwp_machine::Machine;

impl<M: Machine + Drop> SessionEnd for Target<M> {
    ghost end = { λ t. t.end };

    ghost with_fed = { targets.with_fed };

    ghost with_taken = { targets.with_taken };

    ghost lost_end = { targets.lost_target };

    fn is_open(&self) -> bool {
        Target::is_open(self)
    }

    fn room(&self) -> usize {
        Target::room(self)
    }

    fn feed(&mut self, bytes: &[u8]) -> usize {
        Target::feed(self, bytes)
    }

    fn waiting(&self) -> usize {
        Target::waiting(self)
    }

    fn waiting_slices(&self) -> (&[u8], &[u8]) {
        Target::waiting_slices(self)
    }

    fn leave(&mut self, count: usize) {
        Target::leave(self, count);
    }

    fn take(&mut self, out: &mut [u8]) -> usize {
        Target::take(self, out)
    }

    fn lose(&mut self) {
        Target::lose(self);
    }

    ghost taken_end = { λ bytes t. refl };

    ghost taken_none = { taken-none };

    ghost taken_twice = { taken-twice };
}
