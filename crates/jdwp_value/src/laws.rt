//! Laws: each function says what holds, in its contract, and does nothing; to call it is to cite it.
ghost use Rattle.std.specs.Prelude.{ℕ, List, IsPermutation};
ghost use Rattle.std.specs.List.Sorted.{IsNonDecreasingBy};
ghost use Rattle.jdwp_value.specs.Rising.{rising};

/// Things by rising id are the same things, each as often, and no id is below one that stands before it.
pub fn rises_by_id<T>()
    ensures rises { (id : T → ℕ) (things : List T) → IsNonDecreasingBy id (rising id things) }
    ensures same { (id : T → ℕ) (things : List T) → IsPermutation things (rising id things) }
{}
