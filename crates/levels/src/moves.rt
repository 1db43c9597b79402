//! What a move of the base does to those that begin or cease to be suspended.
ghost use Rattle.std.specs.Prelude.{◌≡◌, ◌<◌, ◌+◌, ◌^◌, length};
ghost use Rattle.levels.specs.Levels.{AreLinked, Fallen, Risen, StopsAt, at_base, next_one, running};

use crate::entries::Lent;
use crate::order::Order;

/// Those that run, from this rank on, become suspended at this level.
pub(crate) fn rise(lent: &mut Lent<'_>, order: &mut Order, from: usize, level: u64)
    requires linked { AreLinked lent.old.entries.now.list order.old.list from }
    requires few { length order.old.list < 2 ^ 32 }
    requires fresh { lent.old.visits.now ≡ 0 }
    ensures same { lent.new.entries.ghost_name ≡ lent.old.entries.ghost_name }
    ensures counter { lent.new.visits.ghost_name ≡ lent.old.visits.ghost_name }
    ensures risen { Risen from level (length order.old.list) lent.old.entries.now.list order.old.list
        lent.new.entries.now.list order.new.list }
    ensures visits { lent.new.visits.now ≡ running lent.old.entries.now.list }
    ensures looks { lent.new.entries.now.looks
        ≡ lent.old.entries.now.looks + lent.new.visits.now }
    ensures ranks { order.new.looks ≡ order.old.looks + lent.new.visits.now }
    ensures capacity { lent.new.entries.now.capacity ≡ lent.old.entries.now.capacity }
    ensures room { order.new.capacity ≡ order.old.capacity }
{
    for rank in from..order.len() {
        let place = order.lift(rank, level);
        lent.suspend(place, level);
    }
}

/// Those of the first `from` that stand at the base, which are the last of them, run. How many are still suspended.
pub(crate) fn fall(lent: &mut Lent<'_>, order: &mut Order, from: usize, base: u64) -> usize
    requires linked { AreLinked lent.old.entries.now.list order.old.list from }
    requires few { length order.old.list < 2 ^ 32 }
    requires fresh { lent.old.visits.now ≡ 0 }
    ensures same { lent.new.entries.ghost_name ≡ lent.old.entries.ghost_name }
    ensures counter { lent.new.visits.ghost_name ≡ lent.old.visits.ghost_name }
    ensures fallen { Fallen from result lent.old.entries.now.list lent.new.entries.now.list }
    ensures stops { StopsAt base from result order.old.list }
    ensures order { order.new.list ≡ order.old.list }
    ensures visits { lent.new.visits.now + at_base base lent.new.entries.now.list
        ≡ at_base base lent.old.entries.now.list }
    ensures looks { lent.new.entries.now.looks
        ≡ lent.old.entries.now.looks + lent.new.visits.now }
    ensures ranks { order.new.looks ≡ order.old.looks + lent.new.visits.now + next_one result }
    ensures capacity { lent.new.entries.now.capacity ≡ lent.old.entries.now.capacity }
    ensures room { order.new.capacity ≡ order.old.capacity }
{
    let mut to = from;
    while to > 0 {
        let last = order.at(to - 1);
        if last.level != base {
            return to;
        }
        to -= 1;
        lent.run(last.place);
    }
    to
}
