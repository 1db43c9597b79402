//! What moves of all threads make of one number that is kept of a thread.
ghost use Rattle.std.specs.Prelude.{◌≡◌, ◌++◌, List, IfSome};
ghost use Rattle.jdwp_watch.specs.Courses.{FallsTo, IsCourse, IsOn, led, lowers_at, raises, ran, stays};
ghost use Rattle.jdwp_watch.specs.declared.standing.Change.{Change};

use crate::bound::Bound;

/// Which moves count for a number.
#[derive(Clone, Copy)]
pub(crate) enum Counting {
    /// Replies, and composites where its base lets them: so it is of a thread that surely lived at each of the moves.
    All,
    /// Replies alone: the thread surely lived at each of them, and at none of the composites.
    Replies,
    /// Nothing raises it: the thread is not known to live.
    Nothing,
    /// Invocations: it is how many of them were not answered.
    Invocations,
}

/// What moves in a row make of a number. Where it is less than `depth`, it comes to a lowering at 0, and whatever it was, it is `fallen` after
/// them; else it keeps its base, is lowered by as much, and rises.
#[derive(Clone, Copy)]
pub(crate) struct Course {
    /// So it is where the base is between these,
    pub least: u64,
    pub greatest: u64,
    /// and the number no more than this.
    pub most: u64,
    pub depth: u64,
    pub rise: u64,
    pub fallen: Bound,
}

impl Course {
    /// It stays what it is.
    pub fn stay() -> Course
        ensures { result ≡ stays }
    {
        Course {
            least: 0,
            greatest: u64::MAX,
            most: u64::MAX,
            depth: 0,
            rise: 0,
            fallen: Bound::new(),
        }
    }

    /// One more.
    pub fn raise() -> Course
        ensures { result ≡ raises }
    {
        Course {
            most: u64::MAX - 1,
            rise: 1,
            ..Course::stay()
        }
    }

    /// One less, by the command of a ticket.
    pub fn lower(ticket: u64) -> Course
        ensures { result ≡ lowers_at ticket }
    {
        Course {
            depth: 1,
            fallen: Bound {
                value: 0,
                base: ticket,
            },
            ..Course::stay()
        }
    }

    /// What becomes of a number; None where this is not for it.
    pub fn apply(self, bound: Bound) -> Option<Bound>
        ensures on { IfSome result (λ after. IsOn self bound) }
        ensures value { IfSome result (λ after. after ≡ led self bound) }
    {
        if bound.base < self.least || bound.base > self.greatest || bound.value > self.most {
            return None;
        }
        if bound.value < self.depth {
            return Some(self.fallen);
        }
        let value = (bound.value - self.depth).checked_add(self.rise)?;
        Some(Bound {
            value,
            base: bound.base,
        })
    }

    /// Both in a row, where it is known what the second makes of what fell in the first.
    pub fn then(self, next: Course, fallen: Option<Bound>) -> Option<Course>
        ensures { IfSome result (λ both. (counting : Counting) (first second : List Change) → IsCourse counting first self → IsCourse counting second next
            → IfSome fallen (λ after. after ≡ ran counting second self.fallen) → IsCourse counting (first ++ second) both) }
    {
        let most = next.most.checked_sub(self.rise)?;
        let deeper = next.depth.saturating_sub(self.rise);
        let depth = self.depth.checked_add(deeper)?;
        let left = self.rise.saturating_sub(next.depth);
        let rise = left.checked_add(next.rise)?;
        let fallen = self.fallen_then(next, deeper, fallen)?;
        Some(Course {
            least: self.least.max(next.least),
            greatest: self.greatest.min(next.greatest),
            most: self.most.min(most),
            depth,
            rise,
            fallen,
        })
    }

    /// What both leave of what falls in one of them; None where that is not the same for all.
    fn fallen_then(self, next: Course, deeper: u64, fallen: Option<Bound>) -> Option<Bound>
        ensures { IfSome result (λ after. FallsTo self next deeper fallen after) }
    {
        if self.depth == 0 {
            return Some(next.fallen);
        }
        let after = fallen?;
        if deeper == 0 || after.is_same(next.fallen) {
            Some(after)
        } else {
            None
        }
    }
}
