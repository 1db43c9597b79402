//! Laws: each function says what holds, in its contract, and does nothing; to call it is to cite it.
ghost use Rattle.std.specs.Prelude.{◌≡◌, ℕ, Some, false, true};
ghost use Rattle.jdwp_event.specs.Occurrences.{started};
ghost use Rattle.jdwp_machine.specs.Laws.{MayEnds, MaySteps};
ghost use Rattle.jdwp_machine.specs.Meanings.{has};

use crate::machine::Machine;

/// A thread that was ended does not live.
pub fn ends_its_thread<M: Machine>()
    ensures { (s : M) (t : ℕ) → MayEnds M.meaning s t
        → has (M.meaning.live (M.meaning.ended s t)) t ≡ false }
{}

/// A thread that a step starts did not live before it, and lives after it.
pub fn starts_a_new_thread<M: Machine>()
    ensures before { (s : M) (t n : ℕ) → MaySteps M.meaning s t → started (M.meaning.next s t)
        ≡ Some n → has (M.meaning.live s) n ≡ false }
    ensures after { (s : M) (t n : ℕ) → MaySteps M.meaning s t → started (M.meaning.next s t)
        ≡ Some n → has (M.meaning.live (M.meaning.stepped s t)) n ≡ true }
{}
