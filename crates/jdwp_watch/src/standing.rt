//! What is known of a thread, and what a packet makes of it.
ghost use Rattle.std.specs.Prelude.{◌≡◌};
ghost use Rattle.jdwp_apart.specs.Watch as definition;
ghost use Rattle.jdwp_watch.specs.Standings as spec;
ghost use Rattle.jdwp_watch.specs.Standings.{first_standing, knows_of};

use crate::bound::Bound;

/// Since when a thread is known to live.
#[derive(Clone, Copy)]
pub(crate) enum Knows {
    /// It is not.
    Unseen,
    /// Since the command of a ticket.
    Counted(u64),
    /// Since a composite of its own was read, when so many commands were asked.
    Named(u64),
}

impl Knows {
    /// Whether it surely lived when the command of a ticket was carried out.
    fn lived_at(self, ticket: u64) -> bool
        ensures { result ≡ definition.lived_at (knows_of self) ticket }
    {
        match self {
            Knows::Unseen => false,
            Knows::Counted(since) | Knows::Named(since) => since < ticket,
        }
    }

    /// Whether it surely lived when something took effect after the command of a ticket.
    fn lived_after(self, ticket: u64) -> bool
        ensures { result ≡ definition.lived_after (knows_of self) ticket }
    {
        match self {
            Knows::Unseen => false,
            Knows::Counted(since) => since <= ticket,
            Knows::Named(_) => true,
        }
    }

    /// By a reply under a ticket.
    fn counted_at(self, ticket: u64) -> Knows
        ensures { result ≡ spec.counted_at ticket self }
    {
        match self {
            Knows::Unseen => Knows::Counted(ticket),
            other => other,
        }
    }

    /// By a composite of its own, when so many commands were asked.
    fn named_at(self, asked: u64) -> Knows
        ensures { result ≡ spec.named_at asked self }
    {
        match self {
            Knows::Unseen => Knows::Named(asked),
            Knows::Counted(since) | Knows::Named(since) => Knows::Named(since),
        }
    }
}

/// What is known of a thread.
#[derive(Clone, Copy)]
pub(crate) struct Standing {
    /// By what was told of it, and by a SuspendCount of it.
    pub told: Bound,
    pub recounted: Bound,
    pub knows: Knows,
    /// By how much the invocations that were not answered lower its count.
    pub invoked: u64,
}

/// What a reply tells of a thread.
#[derive(Clone, Copy)]
pub(crate) struct Telling {
    /// Its command raised the count, or lowered it where it was positive.
    pub raises: bool,
    pub lowers: bool,
    /// The count was at least this.
    pub count: u32,
    /// The thread lived.
    pub shows: bool,
}

/// What becomes of what is known of a thread.
#[derive(Clone, Copy)]
pub(crate) enum Change {
    Keep,
    /// The reply to the command of a ticket was read.
    Replied(u64, Telling),
    /// A composite was read whose events took effect after the command of a ticket; whether they stop the thread; and, where the composite is of
    /// its own events, how many commands were asked.
    Reported(u64, bool, Option<u64>),
    /// A method was invoked that resumes it, or such an invocation was answered.
    Invoked,
    Returned,
}

impl Standing {
    /// That of a thread of which nothing is known.
    pub fn new() -> Standing
        ensures { result ≡ first_standing }
    {
        Standing {
            told: Bound::new(),
            recounted: Bound::new(),
            knows: Knows::Unseen,
            invoked: 0,
        }
    }

    /// What becomes of it.
    pub fn changed(self, change: Change) -> Standing
        ensures { result ≡ spec.changed change self }
    {
        match change {
            Change::Keep => self,
            Change::Replied(ticket, telling) => self.replied(ticket, telling),
            Change::Reported(after, stops, named) => self.reported(after, stops, named),
            Change::Invoked => Standing {
                invoked: self.invoked.saturating_add(1),
                ..self
            },
            Change::Returned => Standing {
                invoked: self.invoked.saturating_sub(1),
                ..self
            },
        }
    }

    fn replied(self, ticket: u64, telling: Telling) -> Standing
        ensures { result ≡ spec.replied ticket telling self }
    {
        let is_raised = telling.raises && (telling.shows || self.knows.lived_at(ticket));
        let told = self.told.raised(is_raised).lowered(ticket, telling.lowers);
        let recounted = self
            .recounted
            .raised(is_raised)
            .lowered(ticket, telling.lowers)
            .recounted(ticket, u64::from(telling.count));
        let knows = if telling.shows {
            self.knows.counted_at(ticket)
        } else {
            self.knows
        };
        Standing {
            told,
            recounted,
            knows,
            invoked: self.invoked,
        }
    }

    fn reported(self, after: u64, stops: bool, named: Option<u64>) -> Standing
        ensures { result ≡ spec.reported after stops named self }
    {
        let is_raised = stops && (named.is_some() || self.knows.lived_after(after));
        let knows = match named {
            Some(asked) => self.knows.named_at(asked),
            None => self.knows,
        };
        Standing {
            told: self.told.raised_after(after, is_raised),
            recounted: self.recounted.raised_after(after, is_raised),
            knows,
            invoked: self.invoked,
        }
    }
}
