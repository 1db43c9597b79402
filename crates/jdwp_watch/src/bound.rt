//! A number that a suspend count is surely no less than.
ghost use Rattle.std.specs.Prelude.{◌≡◌, IsTrue};
ghost use Rattle.jdwp_watch.specs.Standings as spec;
ghost use Rattle.jdwp_watch.specs.Standings.{no_bound};

/// A number that the suspend count of a thread is surely no less than, once all that was asked is carried out.
#[derive(Clone, Copy)]
pub(crate) struct Bound {
    pub value: u64,
    /// The ticket of the command after which what it counts took effect.
    pub base: u64,
}

impl Bound {
    /// That of a thread of which nothing was told.
    pub fn new() -> Bound
        ensures { result ≡ no_bound }
    {
        Bound { value: 0, base: 0 }
    }

    /// Whether both are the same.
    pub fn is_same(self, other: Bound) -> bool
        ensures { IsTrue result → self ≡ other }
    {
        self.value == other.value && self.base == other.base
    }

    /// One more, where so it is.
    pub fn raised(self, is_raised: bool) -> Bound
        ensures { result ≡ spec.raised is_raised self }
    {
        if is_raised {
            Bound {
                value: self.value.saturating_add(1),
                base: self.base,
            }
        } else {
            self
        }
    }

    /// Something raised the count that surely took effect after the command of a ticket.
    pub fn raised_after(self, ticket: u64, is_raised: bool) -> Bound
        ensures { result ≡ spec.raised_after ticket is_raised self }
    {
        if self.base <= ticket {
            self.raised(is_raised)
        } else {
            self
        }
    }

    /// One less, where the command of a ticket was carried out that lowers the count. Where nothing is there, nobody can tell whether it met
    /// a count of 0 or an event that is still to be read: from then on counts what surely took effect after it.
    pub fn lowered(self, ticket: u64, is_lowered: bool) -> Bound
        ensures { result ≡ spec.lowered ticket is_lowered self }
    {
        if !is_lowered {
            self
        } else if self.value >= 1 {
            Bound {
                value: self.value - 1,
                base: self.base,
            }
        } else {
            Bound {
                value: 0,
                base: ticket,
            }
        }
    }

    /// A count under a ticket, where it is more.
    pub fn recounted(self, ticket: u64, count: u64) -> Bound
        ensures { result ≡ spec.recounted ticket count self }
    {
        if self.value < count {
            Bound {
                value: count,
                base: ticket,
            }
        } else {
            self
        }
    }
}
