//! What moves of all threads make of what is known of one of them.
ghost use Rattle.std.specs.Prelude.{◌≡◌, ◌+◌, ◌-◌, ◌^◌, ◌++◌, ◌∷◌, [], List, IfSome};
ghost use Rattle.std.specs.List.{fold};
ghost use Rattle.jdwp_watch.specs.Courses.{IsCourse, ran};
ghost use Rattle.jdwp_watch.specs.Drifts as spec;
ghost use Rattle.jdwp_watch.specs.Drifts.{Counts, Follows};
ghost use Rattle.jdwp_watch.specs.Tables.{changed_by};
ghost use Rattle.jdwp_watch.specs.declared.course.Counting.{Counting};
ghost use Rattle.jdwp_watch.specs.declared.course.Counting.TheVariants.{All};
ghost use Rattle.jdwp_watch.specs.declared.standing.Change.{Change};
ghost use Rattle.jdwp_watch.specs.declared.standing.Change.TheVariants.{Replied, Reported};
ghost use Rattle.jdwp_watch.specs.declared.standing.Knows.{Knows};
ghost use Rattle.jdwp_watch.specs.declared.standing.Knows.TheVariants.{Unseen, Counted};

use crate::bound::Bound;
use crate::course::{Counting, Course};
use crate::standing::{Change, Knows, Standing, Telling};

/// Of which threads it is sure that they lived at moves in a row.
#[derive(Clone, Copy)]
pub(crate) struct Span {
    /// At each reply that raises a count: of those that are known to live since less than this.
    pub before: u64,
    /// At each composite that stops: of those that are counted since no more than this.
    pub upto: u64,
    /// At none of these: of those that are counted since no less than this.
    pub past: u64,
}

/// What moves in a row make of what is known of a thread: of each number by the moves that count for it. None where that is not told: then
/// fewer moves tell.
#[derive(Clone, Copy)]
pub(crate) struct Drift {
    pub span: Span,
    /// Where replies and composites count: of the least bases, of those next to them, and of the greatest.
    pub early: Option<Course>,
    pub late: Option<Course>,
    pub past: Option<Course>,
    /// Where replies alone count, where nothing raises, and where invocations count.
    pub replies: Option<Course>,
    pub nothing: Option<Course>,
    pub invocations: Option<Course>,
}

impl Span {
    /// All threads.
    fn all() -> Span
        ensures { result ≡ spec.all_threads }
    {
        Span {
            before: u64::MAX,
            upto: u64::MAX,
            past: 0,
        }
    }

    /// Those at both.
    fn then(self, next: Span) -> Span
        ensures { (knows : Knows) (counting : Counting) → Counts result knows counting → (Counts self knows counting × Counts next knows counting) }
    {
        Span {
            before: self.before.min(next.before),
            upto: self.upto.min(next.upto),
            past: self.past.max(next.past),
        }
    }

    /// Which moves count for the bounds of a thread; None where it is not sure of which it lived at.
    fn counting(self, knows: Knows) -> Option<Counting>
        ensures { IfSome result (λ counting. Counts self knows counting) }
    {
        match knows {
            Knows::Unseen => self.unseen(),
            Knows::Counted(since) => self.counted(since),
            Knows::Named(since) => {
                if since < self.before {
                    Some(Counting::All)
                } else {
                    None
                }
            }
        }
    }

    fn unseen(self) -> Option<Counting>
        ensures { IfSome result (λ counting. Counts self Unseen counting) }
    {
        if self.before > 0 {
            Some(Counting::Nothing)
        } else {
            None
        }
    }

    fn counted(self, since: u64) -> Option<Counting>
        ensures { IfSome result (λ counting. Counts self (Counted since) counting) }
    {
        if since >= self.before {
            None
        } else if since <= self.upto {
            Some(Counting::All)
        } else if since >= self.past {
            Some(Counting::Replies)
        } else {
            None
        }
    }
}

impl Drift {
    /// That of one move.
    pub fn of(change: Change) -> Drift
        ensures { Follows (change ∷ []) result }
    {
        match change {
            Change::Keep => Drift::still(),
            Change::Replied(ticket, telling) => Drift::of_reply(ticket, telling),
            Change::Reported(after, stops, named) => Drift::of_composite(after, stops, named),
            Change::Invoked => Drift::of_invocation(Course::raise()),
            Change::Returned => Drift::of_invocation(Course {
                greatest: 0,
                ..Course::lower(0)
            }),
        }
    }

    /// Nothing is told.
    fn unknown() -> Drift
        ensures { result ≡ spec.unknown }
    {
        Drift {
            span: Span {
                before: 0,
                ..Span::all()
            },
            early: None,
            late: None,
            past: None,
            replies: None,
            nothing: None,
            invocations: None,
        }
    }

    /// All stays what it is.
    fn still() -> Drift
        ensures { result ≡ spec.still }
    {
        let stays = Some(Course::stay());
        Drift {
            span: Span::all(),
            early: stays,
            late: None,
            past: None,
            replies: stays,
            nothing: stays,
            invocations: stays,
        }
    }

    fn of_invocation(course: Course) -> Drift
        ensures { result ≡ spec.by_invocation course }
    {
        Drift {
            invocations: Some(course),
            ..Drift::still()
        }
    }

    /// That of a reply under a ticket.
    fn of_reply(ticket: u64, telling: Telling) -> Drift
        ensures { Follows (Replied ticket telling ∷ []) result }
    {
        if telling.shows || telling.count > 0 {
            return Drift::unknown();
        }
        match (telling.raises, telling.lowers) {
            (false, false) => Drift::still(),
            (true, false) => Drift::raise(ticket),
            (false, true) => Drift::lower(ticket),
            (true, true) => Drift::unknown(),
        }
    }

    /// A Suspend of all.
    fn raise(ticket: u64) -> Drift
        ensures { result ≡ spec.by_raise ticket }
    {
        let raises = Some(Course::raise());
        Drift {
            span: Span {
                before: ticket,
                ..Span::all()
            },
            early: raises,
            replies: raises,
            ..Drift::still()
        }
    }

    /// A Resume of all.
    fn lower(ticket: u64) -> Drift
        ensures { result ≡ spec.by_lowering ticket }
    {
        let lowers = Some(Course::lower(ticket));
        Drift {
            early: lowers,
            replies: lowers,
            nothing: lowers,
            ..Drift::still()
        }
    }

    /// That of a composite after the command of a ticket.
    fn of_composite(after: u64, stops: bool, named: Option<u64>) -> Drift
        ensures { Follows (Reported after stops named ∷ []) result }
    {
        if named.is_some() {
            return Drift::unknown();
        }
        if !stops {
            return Drift::still();
        }
        match after.checked_add(1) {
            Some(next) => Drift::stop(after, next),
            None => Drift::unknown(),
        }
    }

    /// A composite that stops all.
    fn stop(after: u64, next: u64) -> Drift
        requires { next ≡ after + 1 }
        ensures { result ≡ spec.by_composite after }
    {
        Drift {
            span: Span {
                upto: after,
                past: next,
                ..Span::all()
            },
            early: Some(Course {
                greatest: after,
                ..Course::raise()
            }),
            late: Some(Course {
                least: next,
                ..Course::stay()
            }),
            ..Drift::still()
        }
    }

    /// What becomes of a thread; None where that is not told.
    pub fn apply(&self, standing: Standing) -> Option<Standing>
        ensures { IfSome result (λ after. (moves : List Change) → Follows moves self.now → after ≡ fold changed_by standing moves) }
    {
        let counting = self.span.counting(standing.knows)?;
        let told = self.lead(counting, standing.told)?;
        let recounted = self.lead(counting, standing.recounted)?;
        let waiting = Bound {
            value: standing.invoked,
            base: 0,
        };
        let invoked = self.lead(Counting::Invocations, waiting)?;
        Some(Standing {
            told,
            recounted,
            knows: standing.knows,
            invoked: invoked.value,
        })
    }

    /// What becomes of a number for which these count; None where that is not told.
    fn lead(&self, counting: Counting, bound: Bound) -> Option<Bound>
        ensures { IfSome result (λ after. (moves : List Change) → Follows moves self.now → after ≡ ran counting moves bound) }
    {
        self.at(counting, bound.base)?.apply(bound)
    }

    /// Both in a row.
    pub fn then(&self, next: &Drift) -> Drift
        ensures { (first second : List Change) → Follows first self.now → Follows second next.now → Follows (first ++ second) result }
    {
        let early = self.joined(next, Counting::All, 0);
        let late = self.joined_past(next, early);
        let past = self.joined_last(next, early, late);
        Drift {
            span: self.span.then(next.span),
            early,
            late,
            past,
            replies: self.joined(next, Counting::Replies, 0),
            nothing: self.joined(next, Counting::Nothing, 0),
            invocations: self.joined(next, Counting::Invocations, 0),
        }
    }

    /// What both make of a number with this base for which these count.
    fn joined(&self, next: &Drift, counting: Counting, base: u64) -> Option<Course>
        ensures { IfSome result (λ both. (first second : List Change) → Follows first self.now → Follows second next.now → IsCourse counting (first ++ second) both) }
    {
        let course = self.at(counting, base)?;
        let later = next.at(counting, base)?;
        course.then(later, next.lead(counting, course.fallen))
    }

    /// What they make of numbers with the bases next to those of this.
    fn joined_past(&self, next: &Drift, early: Option<Course>) -> Option<Course>
        ensures { IfSome result (λ both. (first second : List Change) → Follows first self.now → Follows second next.now → IsCourse All (first ++ second) both) }
    {
        let base = early?.greatest.checked_add(1)?;
        self.joined(next, Counting::All, base)
    }

    /// What they make of numbers with the greatest bases, where these do not tell that.
    fn joined_last(
        &self,
        next: &Drift,
        early: Option<Course>,
        late: Option<Course>,
    ) -> Option<Course>
        ensures { IfSome result (λ both. (first second : List Change) → Follows first self.now → Follows second next.now → IsCourse All (first ++ second) both) }
    {
        if is_upto(early, u64::MAX) || is_upto(late, u64::MAX) {
            return None;
        }
        self.joined(next, Counting::All, u64::MAX)
    }

    /// The course of a number with this base for which these count.
    fn at(&self, counting: Counting, base: u64) -> Option<Course>
        ensures { IfSome result (λ course. (moves : List Change) → Follows moves self.now → IsCourse counting moves course) }
    {
        match counting {
            Counting::All => self.of_base(base),
            Counting::Replies => self.replies,
            Counting::Nothing => self.nothing,
            Counting::Invocations => self.invocations,
        }
    }

    fn of_base(&self, base: u64) -> Option<Course>
        ensures { IfSome result (λ course. (moves : List Change) → Follows moves self.now → IsCourse All moves course) }
    {
        if is_upto(self.early, base) {
            self.early
        } else if is_upto(self.late, base) {
            self.late
        } else {
            self.past
        }
    }
}

/// Whether a course goes up to this base.
fn is_upto(course: Option<Course>, base: u64) -> bool {
    match course {
        Some(course) => base <= course.greatest,
        None => false,
    }
}
